// Whether bytes are a list of differences: its three sections are read leniently, entry by entry, and each entry must be good, in order, and these very bytes.
#![tactic(auto)]

ghost use Rattle.std.specs.Prelude.{◌≡◌, true, false, [], ◌∷◌, ◌≤◌, length, drop, MatchOption};
ghost use Rattle.lemmas.specs.Order.{lexb};
ghost use Rattle.model.specs.File.{key_room, good_pointer, full};
ghost use Rattle.model.specs.Snapshot.{write_key, write_file, same_bytes};
ghost use Rattle.model.specs.DifferenceBytes as list;
ghost use Rattle.keys.specs.Key.{key_of};
ghost use Rattle.records.specs.Record.{file_of, well_record};
ghost use Rattle.snapshot_parse.specs.Parsing.{At};
ghost use Rattle.patch_list.specs.List.{is_list};
ghost use Rattle.patch_list.specs.Entries.{Found, number_only, whole_file, file_entry, pointer_entry, counter_entry, place_of, entry_in, last_standing, section_right, after_section};

use counters::Counters;
use difference_scan::Kind;
use keys::Key;
use records::{FileRecord, Level};
use snapshot_parts::Snapshot;

// The sections of a list, in order.
#[derive(Clone, Copy)]
enum Section {
    Files,
    Pointers,
    Counters,
}

// An entry that is good and whose bytes are just what it writes: the place after it, and what it stands by in its section.
#[derive(Clone, Copy)]
struct Entry {
    next: usize,
    level: u64,
    number: u64,
}

// Whether a file writes these very bytes. Requires: its record is well-formed.
fn file_writes(f: FileRecord, src: &[u8]) -> bool
    requires { well_record f ≡ true }
    ensures { result ≡ same_bytes (write_file (file_of f)) src.now }
{
    let mut out = [0u8; Snapshot::FILE + 2 * Key::ROOM];
    let n = snapshot_parts::put_file(&mut out, 0, f);
    snapshot_parts::same(&out[0..n], src)
}

// Whether a key writes these very bytes. Requires: it is within its room.
fn key_writes(k: Key, src: &[u8]) -> bool
    requires { k.len ≤ key_room }
    ensures { result ≡ same_bytes (write_key (key_of k)) src.now }
{
    let mut out = [0u8; Snapshot::BYTE + Key::ROOM];
    let n = snapshot_parts::put_key(&mut out, 0, k);
    snapshot_parts::same(&out[0..n], src)
}

// Whether a key is that of a pointer: good, or none at all. Requires: it is within its room.
fn is_pointer(k: Key) -> bool
    requires { k.len ≤ key_room }
    ensures { result ≡ good_pointer full (list.pointer_of (key_of k)) }
{
    if k.len == 0 {
        return true;
    }
    keys::is_good(k)
}

// What follows the level of a file that only the left has: its number. Requires: the place is within the bytes.
fn number_only(src: &[u8], at: usize, level: u64) -> Option<Entry>
    requires { at ≤ length src.now }
    ensures { Found src.now (number_only level (drop at src.now)) result }
{
    if level >= Level::COUNT as u64 || src.len() - at < Snapshot::NUMBER {
        return None;
    }
    Some(Entry {
        next: snapshot_parse::after(src, at, Snapshot::NUMBER),
        level,
        number: snapshot_parse::get_number(src, at, Snapshot::NUMBER),
    })
}

// What follows the level of another: the file. Requires: the place is within the bytes.
fn whole_file(src: &[u8], at: usize, kind: u64, level: u64) -> Option<Entry>
    requires { at ≤ length src.now }
    ensures { Found src.now (whole_file kind level (drop at src.now)) result }
{
    let f = snapshot_parse::get_file(src, at);
    if level >= Level::COUNT as u64
        || kind > Kind::Changed.byte() as u64
        || !records::is_well_formed(f.file)
    {
        return None;
    }
    if !file_writes(f.file, &src[at..f.next]) {
        return None;
    }
    Some(Entry {
        next: f.next,
        level,
        number: f.file.number.0,
    })
}

// The entry of files at a place. Requires: the place is within the bytes.
fn file_entry(src: &[u8], at: usize) -> Option<Entry>
    requires { at ≤ length src.now }
    ensures { Found src.now (file_entry (drop at src.now)) result }
{
    let kind = snapshot_parse::get_number(src, at, Snapshot::BYTE);
    let level_at = snapshot_parse::after(src, at, Snapshot::BYTE);
    let level = snapshot_parse::get_number(src, level_at, Snapshot::BYTE);
    let body = snapshot_parse::after(src, level_at, Snapshot::BYTE);
    if kind == Kind::Left.byte() as u64 {
        return number_only(src, body, level);
    }
    whole_file(src, body, kind, level)
}

// The entry of pointers at a place. Requires: the place is within the bytes.
fn pointer_entry(src: &[u8], at: usize) -> Option<Entry>
    requires { at ≤ length src.now }
    ensures { Found src.now (pointer_entry (drop at src.now)) result }
{
    let level = snapshot_parse::get_number(src, at, Snapshot::BYTE);
    let start = snapshot_parse::after(src, at, Snapshot::BYTE);
    let k = snapshot_parse::get_key(src, start);
    if level >= Level::COUNT as u64 || !is_pointer(k.key) {
        return None;
    }
    if !key_writes(k.key, &src[start..k.next]) {
        return None;
    }
    Some(Entry {
        next: k.next,
        level,
        number: 0,
    })
}

// The entry of counters at a place. Requires: the place is within the bytes.
fn counter_entry(src: &[u8], at: usize) -> Option<Entry>
    requires { at ≤ length src.now }
    ensures { Found src.now (counter_entry (drop at src.now)) result }
{
    let i = snapshot_parse::get_number(src, at, Snapshot::BYTE);
    let start = snapshot_parse::after(src, at, Snapshot::BYTE);
    let value = snapshot_parse::get_number(src, start, Snapshot::NUMBER);
    if i >= Snapshot::FIVE as u64
        || value > Counters::LARGEST
        || src.len() - start < Snapshot::NUMBER
    {
        return None;
    }
    Some(Entry {
        next: snapshot_parse::after(src, start, Snapshot::NUMBER),
        level: i,
        number: 0,
    })
}

// The entry of a section at a place, if it is good and its bytes are just what it writes. Requires: the place is within the bytes.
fn entry_at(src: &[u8], at: usize, section: Section) -> Option<Entry>
    requires { at ≤ length src.now }
    ensures { Found src.now (entry_in (place_of section) (drop at src.now)) result }
{
    match section {
        Section::Files => file_entry(src, at),
        Section::Pointers => pointer_entry(src, at),
        Section::Counters => counter_entry(src, at),
    }
}

// Whether an entry stands after the last one, if there is one.
fn follows(last: Option<Entry>, e: Entry) -> bool
    ensures { result ≡ lexb (last_standing last) (e.level ∷ e.number ∷ []) }
{
    let Some(l) = last else {
        return true;
    };
    if l.level != e.level {
        return l.level < e.level;
    }
    l.number < e.number
}

// The place after the section at a place, if the section is right. Requires: the place is within the bytes.
fn section_at(src: &[u8], at: usize, section: Section) -> Option<usize>
    requires { at ≤ length src.now }
    ensures { MatchOption result (section_right (place_of section) (drop at src.now) ≡ false) (λ next. (section_right (place_of section) (drop at src.now) ≡ true) × At src.now next (after_section (place_of section) (drop at src.now))) }
{
    if src.len() - at < Snapshot::COUNT {
        return None;
    }
    let n = snapshot_parse::get_number(src, at, Snapshot::COUNT);
    let mut next = at + Snapshot::COUNT;
    let mut last: Option<Entry> = None;
    for _ in 0..n {
        let e = entry_at(src, next, section)?;
        if !follows(last, e) {
            return None;
        }
        next = e.next;
        last = Some(e);
    }
    Some(next)
}

// Whether bytes are a list of differences. Internal.
pub fn is_list(src: &[u8]) -> bool
    ensures { result ≡ is_list src.now }
{
    let Some(pointers_at) = section_at(src, 0, Section::Files) else {
        return false;
    };
    let Some(counters_at) = section_at(src, pointers_at, Section::Pointers) else {
        return false;
    };
    let Some(end) = section_at(src, counters_at, Section::Counters) else {
        return false;
    };
    end == src.len()
}
