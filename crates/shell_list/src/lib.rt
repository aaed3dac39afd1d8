// The text of a list of differences, from its bytes: the entries in order, a blank between two.
#![tactic(auto)]

ghost use Rattle.std.specs.Prelude.{◌≤◌, length};

use difference_scan::Kind;
use snapshot_parts::Snapshot;

// How far a list is told: the place after the text so far, and the place after the bytes so far.
#[derive(Clone, Copy)]
struct Told {
    at: usize,
    from: usize,
}

// The key at a place in hex, `-` for none: a length byte, then its bytes. Requires: the place is within the list.
fn put_key(out: &mut [u8], at: usize, list: &[u8], from: usize) -> Told
    requires { from ≤ length list.now }
    ensures { result.from ≤ length list.now }
{
    let n = snapshot_parse::get_number(list, from, Snapshot::BYTE);
    let start = snapshot_parse::after(list, from, Snapshot::BYTE);
    let end = snapshot_parse::after(list, start, n as usize);
    let to = script_lines::put_hex(out, at, &list[start..end]);
    Told { at: to, from: end }
}

// The file at a place: number, size, smallest and largest key. Requires: the place is within the list.
fn put_file(out: &mut [u8], at: usize, list: &[u8], from: usize) -> Told
    requires { from ≤ length list.now }
    ensures { result.from ≤ length list.now }
{
    let number = snapshot_parse::get_number(list, from, Snapshot::NUMBER);
    let size_at = snapshot_parse::after(list, from, Snapshot::NUMBER);
    let size = snapshot_parse::get_number(list, size_at, Snapshot::NUMBER);
    let keys_at = snapshot_parse::after(list, from, Snapshot::KEYS);
    let to = shell_reply::put_form(out, at, b"%,%,", [number, size, 0, 0, 0]);
    let low = put_key(out, to, list, keys_at);
    let next = script_lines::put_byte(out, low.at, b',');
    put_key(out, next, list, low.from)
}

// The mark of an entry of files: `<` only the left has it, `>` only the right, `~` both have the number.
fn mark_of(kind: u8) -> u8 {
    if kind == Kind::Left.byte() {
        return b'<';
    }
    if kind == Kind::Right.byte() {
        return b'>';
    }
    b'~'
}

// What follows the level in an entry of files: the number alone if only the left has it, else the file. Requires: the place is within the list.
fn put_contents(out: &mut [u8], at: usize, list: &[u8], from: usize, kind: u8) -> Told
    requires { from ≤ length list.now }
    ensures { result.from ≤ length list.now }
{
    if kind == Kind::Left.byte() {
        let number = snapshot_parse::get_number(list, from, Snapshot::NUMBER);
        let end = snapshot_parse::after(list, from, Snapshot::NUMBER);
        let to = script_lines::put_number(out, at, number);
        return Told { at: to, from: end };
    }
    put_file(out, at, list, from)
}

// The entry of files at a place: its mark, its level, its contents. Requires: the place is within the list.
fn put_of_files(out: &mut [u8], at: usize, list: &[u8], from: usize) -> Told
    requires { from ≤ length list.now }
    ensures { result.from ≤ length list.now }
{
    let kind = script_words::byte_at(list, from);
    let level_at = snapshot_parse::after(list, from, Snapshot::BYTE);
    let level = snapshot_parse::get_number(list, level_at, Snapshot::BYTE);
    let next = snapshot_parse::after(list, level_at, Snapshot::BYTE);
    let start = script_lines::put_byte(out, at, mark_of(kind));
    let to = shell_reply::put_form(out, start, b",%,", [level, 0, 0, 0, 0]);
    put_contents(out, to, list, next, kind)
}

// The entry of pointers at a place: `p`, its level, the right's key or `-`. Requires: the place is within the list.
fn put_of_pointers(out: &mut [u8], at: usize, list: &[u8], from: usize) -> Told
    requires { from ≤ length list.now }
    ensures { result.from ≤ length list.now }
{
    let level = snapshot_parse::get_number(list, from, Snapshot::BYTE);
    let next = snapshot_parse::after(list, from, Snapshot::BYTE);
    let to = shell_reply::put_form(out, at, b"p,%,", [level, 0, 0, 0, 0]);
    put_key(out, to, list, next)
}

// The name of a counter, by its place in a snapshot.
fn put_name(out: &mut [u8], at: usize, place: u64) -> usize {
    match place {
        0 => script_lines::put(out, at, b"next"),
        1 => script_lines::put(out, at, b"manifest"),
        2 => script_lines::put(out, at, b"seq"),
        3 => script_lines::put(out, at, b"log"),
        _ => script_lines::put(out, at, b"prev"),
    }
}

// The entry of counters at a place: `c`, its name, the right's number. Requires: the place is within the list.
fn put_of_counters(out: &mut [u8], at: usize, list: &[u8], from: usize) -> Told
    requires { from ≤ length list.now }
    ensures { result.from ≤ length list.now }
{
    let place = snapshot_parse::get_number(list, from, Snapshot::BYTE);
    let next = snapshot_parse::after(list, from, Snapshot::BYTE);
    let number = snapshot_parse::get_number(list, next, Snapshot::NUMBER);
    let end = snapshot_parse::after(list, next, Snapshot::NUMBER);
    let start = script_lines::put(out, at, b"c,");
    let name = put_name(out, start, place);
    let to = shell_reply::put_form(out, name, b",%", [number, 0, 0, 0, 0]);
    Told { at: to, from: end }
}

// The entry at a place of a section: `f` files, `p` pointers, any other letter counters. Requires: the place is within the list.
fn put_entry(out: &mut [u8], at: usize, list: &[u8], from: usize, section: u8) -> Told
    requires { from ≤ length list.now }
    ensures { result.from ≤ length list.now }
{
    match section {
        b'f' => put_of_files(out, at, list, from),
        b'p' => put_of_pointers(out, at, list, from),
        _ => put_of_counters(out, at, list, from),
    }
}

// The entries of the section that begins where the list is told up to: their count, then each. Requires: the place is within the list.
fn put_section(out: &mut [u8], told: Told, list: &[u8], section: u8) -> Told
    requires { told.from ≤ length list.now }
    ensures { result.from ≤ length list.now }
{
    let n = snapshot_parse::get_number(list, told.from, Snapshot::COUNT);
    let mut told = Told {
        from: snapshot_parse::after(list, told.from, Snapshot::COUNT),
        ..told
    };
    for _ in 0..n {
        let at = script_lines::put_gap(out, told.at);
        told = put_entry(out, at, list, told.from, section);
    }
    told
}

// The entries of a list in order, a blank between two; `same` for none. The longest answer is that of a version of files that only the left has, a version of
// others on the right, each pointer and each counter: 58,577 bytes. It ends within the bytes.
pub fn put_list(out: &mut [u8], list: &[u8]) -> usize
    ensures { result ≤ length out.new }
{
    let start = Told { at: 0, from: 0 };
    let files = put_section(out, start, list, b'f');
    let pointers = put_section(out, files, list, b'p');
    let counters = put_section(out, pointers, list, b'c');
    if counters.at == 0 {
        let at = script_lines::put(out, 0, b"same");
        return script_lines::within(out, at);
    }
    script_lines::within(out, counters.at)
}
