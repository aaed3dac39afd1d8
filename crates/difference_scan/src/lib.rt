// The files of a level and the pointers as runs of bytes: where each ends, what a turn over two runs finds, and the entry that is written of it.
#![tactic(auto)]

ghost use Rattle.std.specs.Prelude.{◌≡◌, ◌+◌, ◌≤◌, length, drop};
ghost use Rattle.lemmas.specs.Slices.{put};
ghost use Rattle.lemmas.specs.Lists.{join};
ghost use Rattle.snapshot_parse.specs.Parsing.{At, after_key};
ghost use Rattle.difference_scan.specs.Scan.{after_part, rise_long, rise_of, head, tail, byte_of, goes_first, kind_by, kind_at, entry_of};

use keys::Key;
use snapshot_parts::Snapshot;

// What a turn finds. An entry of files in a list has one of the first three kinds; no entry is written of the last.
#[derive(Clone, Copy, PartialEq, Eq)]
pub enum Kind {
    // Only the left has it.
    Left,
    // Only the right has it.
    Right,
    // Both have the number.
    Changed,
    // Both have it, with the same bytes.
    Same,
}

impl Kind {
    // The byte of the kind in an entry of files.
    pub fn byte(self) -> u8
        ensures { result ≡ byte_of self }
    {
        match self {
            Kind::Left => 0,
            Kind::Right => 1,
            Kind::Changed => 2,
            Kind::Same => 3,
        }
    }
}

// How far two runs are read: the place of each in its bytes, and how many parts of it are left.
#[derive(Clone, Copy)]
pub struct Places {
    pub left: usize,
    pub lefts: usize,
    pub right: usize,
    pub rights: usize,
}

// What a turn finds: its kind, and where the first part of each run ends.
#[derive(Clone, Copy)]
pub struct Turn {
    pub kind: Kind,
    pub left: usize,
    pub right: usize,
}

// The place after the key at a place. Requires: the place is within the bytes.
fn key_end(src: &[u8], at: usize) -> usize
    requires { at ≤ length src.now }
    ensures { (at ≤ result) × At src.now result (after_key (drop at src.now)) }
{
    let said = snapshot_parse::get_number(src, at, Snapshot::BYTE);
    let n = octets::lesser(said as usize, Key::ROOM);
    let start = snapshot_parse::after(src, at, Snapshot::BYTE);
    snapshot_parse::after(src, start, n)
}

// The place after the pointer or file at a place. Internal. Requires: the place is within the bytes.
pub fn part_end(src: &[u8], at: usize, pointer: bool) -> usize
    requires { at ≤ length src.now }
    ensures { (at ≤ result) × At src.now result (after_part pointer (drop at src.now)) }
{
    if pointer {
        let key_at = snapshot_parse::after(src, at, Snapshot::BYTE);
        return key_end(src, key_at);
    }
    let keys_at = snapshot_parse::after(src, at, Snapshot::KEYS);
    let next = key_end(src, keys_at);
    key_end(src, next)
}

// The bytes of the number that parts rise by: a pointer's level, a file's number. Internal.
pub fn rise_long(pointer: bool) -> usize
    ensures { result ≡ rise_long pointer }
{
    if pointer {
        return Snapshot::BYTE;
    }
    Snapshot::NUMBER
}

// That number of the part at a place. Internal. Requires: the place is within the bytes.
pub fn rise_of(src: &[u8], at: usize, pointer: bool) -> u64
    requires { at ≤ length src.now }
    ensures { result ≡ rise_of pointer (drop at src.now) }
{
    let width = rise_long(pointer);
    snapshot_parse::get_number(src, at, width)
}

// Whether the first of n parts, with number x, goes before the first of m parts, with number y. Internal.
pub fn goes_first(n: usize, x: u64, m: usize, y: u64) -> bool
    ensures { result ≡ goes_first n x m y }
{
    if n == 0 {
        return false;
    }
    if m == 0 {
        return true;
    }
    x < y
}

// What a turn finds, of two runs with n and m parts left, whose first numbers are x and y: `same` tells whether these parts have the same bytes. Internal.
pub fn kind_by(n: usize, x: u64, m: usize, y: u64, same: bool) -> Kind
    ensures { byte_of result ≡ kind_by n x m y same }
{
    if goes_first(n, x, m, y) {
        return Kind::Left;
    }
    if goes_first(m, y, n, x) {
        return Kind::Right;
    }
    if same {
        return Kind::Same;
    }
    Kind::Changed
}

// What a turn finds at these places. Internal. Requires: the places are within the bytes.
pub fn next_turn(left: &[u8], right: &[u8], p: Places, pointer: bool) -> Turn
    requires { (p.left ≤ length left.now) × (p.right ≤ length right.now) }
    ensures { (byte_of result.kind ≡ kind_at pointer p.lefts (drop p.left left.now) p.rights (drop p.right right.now)) × (p.left ≤ result.left) × At left.now result.left (after_part pointer (drop p.left left.now)) × (p.right ≤ result.right) × At right.now result.right (after_part pointer (drop p.right right.now)) }
{
    let a = p.left;
    let b = p.right;
    let x = rise_of(left, a, pointer);
    let y = rise_of(right, b, pointer);
    let left_end = part_end(left, a, pointer);
    let right_end = part_end(right, b, pointer);
    let same = snapshot_parts::same(&left[a..left_end], &right[b..right_end]);
    let kind = kind_by(p.lefts, x, p.rights, y, same);
    Turn {
        kind,
        left: left_end,
        right: right_end,
    }
}

// Writes what an entry begins with. Returns the place after it. Requires: the output has these places.
fn put_head(out: &mut [u8], at: usize, kind: Kind, level: usize, pointer: bool) -> usize
    requires { at + length (head pointer (byte_of kind) level) ≤ length out.old }
    ensures { (result ≡ at + length (head pointer (byte_of kind) level)) × (out.new ≡ put out.old at (head pointer (byte_of kind) level)) }
{
    if pointer {
        return at;
    }
    snapshot_parts::put_number(out, at, Snapshot::BYTE, kind.byte() as u64);
    snapshot_parts::put_number(out, at + Snapshot::BYTE, Snapshot::BYTE, level as u64);
    at + Snapshot::BYTE + Snapshot::BYTE
}

// Writes what the entry of a part that only the left has ends with. Returns the place after it. Requires: the output has these places.
fn put_tail(out: &mut [u8], at: usize, pointer: bool) -> usize
    requires { at + length (tail pointer) ≤ length out.old }
    ensures { (result ≡ at + length (tail pointer)) × (out.new ≡ put out.old at (tail pointer)) }
{
    if !pointer {
        return at;
    }
    snapshot_parts::put_number(out, at, Snapshot::BYTE, 0);
    at + Snapshot::BYTE
}

// Writes the entry of a turn, of the parts x of the left and y of the right. Returns the place after it. Internal. Requires: the output has these places.
pub fn put_entry(
    out: &mut [u8],
    at: usize,
    kind: Kind,
    level: usize,
    pointer: bool,
    x: &[u8],
    y: &[u8],
) -> usize
    requires { at + length (join (entry_of pointer (byte_of kind) level x.now y.now)) ≤ length out.old }
    ensures { (result ≡ at + length (join (entry_of pointer (byte_of kind) level x.now y.now))) × (out.new ≡ put out.old at (join (entry_of pointer (byte_of kind) level x.now y.now))) }
{
    match kind {
        Kind::Same => at,
        Kind::Left => {
            let start = put_head(out, at, kind, level, pointer);
            let n = octets::lesser(rise_long(pointer), x.len());
            let end = snapshot_parts::put_bytes(out, start, &x[0..n]);
            put_tail(out, end, pointer)
        }
        Kind::Right | Kind::Changed => {
            let start = put_head(out, at, kind, level, pointer);
            snapshot_parts::put_bytes(out, start, y)
        }
    }
}
