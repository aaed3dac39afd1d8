// The entries of a list as runs of bytes: where each ends, the number that it stands by, what it brings.
#![tactic(auto)]

ghost use Rattle.std.specs.Prelude.{◌≡◌, ◌+◌, ◌≤◌, length, drop};
ghost use Rattle.model.specs.Snapshot.{count_long};
ghost use Rattle.snapshot_parse.specs.Parsing.{At, number_in};
ghost use Rattle.difference_scan.specs.Scan.{after_part, byte_of};
ghost use Rattle.patch_scan.specs.Listed.{after_listed, named_of, after_each, run_long};
ghost use Rattle.patch_scan.specs.Over.{is_bare, brought_at, over_kind};

use difference_scan::{Kind, Places, Turn};
use snapshot_parts::Snapshot;

// The lengths of an entry's parts.
#[derive(Clone, Copy)]
pub struct Entry {}

impl Entry {
    // The kind and the level of an entry of files.
    pub const HEAD: usize = 2 * Snapshot::BYTE;
}

// The place after the entry at a place. Internal. Requires: the place is within the bytes.
pub fn listed_end(src: &[u8], at: usize, pointer: bool) -> usize
    requires { at ≤ length src.now }
    ensures { (at ≤ result) × At src.now result (after_listed pointer (drop at src.now)) }
{
    if pointer {
        return difference_scan::part_end(src, at, true);
    }
    let start = snapshot_parse::after(src, at, Entry::HEAD);
    let kind = snapshot_parse::get_number(src, at, Snapshot::BYTE);
    if kind == Kind::Left.byte() as u64 {
        return snapshot_parse::after(src, start, Snapshot::NUMBER);
    }
    difference_scan::part_end(src, start, false)
}

// The number that the entry at a place stands by. Internal. Requires: the place is within the bytes.
pub fn named_of(src: &[u8], at: usize, pointer: bool) -> u64
    requires { at ≤ length src.now }
    ensures { result ≡ named_of pointer (drop at src.now) }
{
    if pointer {
        return snapshot_parse::get_number(src, at, Snapshot::BYTE);
    }
    let start = snapshot_parse::after(src, at, Entry::HEAD);
    snapshot_parse::get_number(src, start, Snapshot::NUMBER)
}

// Whether an entry brings nothing: a pointer without key, a file that only the left has. Internal.
pub fn is_bare(y: &[u8], pointer: bool) -> bool
    ensures { result ≡ is_bare pointer y.now }
{
    if pointer {
        let key_at = snapshot_parse::after(y, 0, Snapshot::BYTE);
        return snapshot_parse::get_number(y, key_at, Snapshot::BYTE) == 0;
    }
    snapshot_parse::get_number(y, 0, Snapshot::BYTE) == Kind::Left.byte() as u64
}

// Where in an entry the bytes that it brings begin. Internal.
pub fn brought_at(pointer: bool) -> usize
    ensures { result ≡ brought_at pointer }
{
    if pointer {
        return 0;
    }
    Entry::HEAD
}

// What a turn over a run of a snapshot and one of a list finds: which of both goes first. Internal. Requires: the places are within the bytes.
pub fn next_over(left: &[u8], list: &[u8], p: Places, pointer: bool) -> Turn
    requires { (p.left ≤ length left.now) × (p.right ≤ length list.now) }
    ensures { (byte_of result.kind ≡ over_kind pointer p.lefts (drop p.left left.now) p.rights (drop p.right list.now)) × (p.left ≤ result.left) × At left.now result.left (after_part pointer (drop p.left left.now)) × (p.right ≤ result.right) × At list.now result.right (after_listed pointer (drop p.right list.now)) }
{
    let x = difference_scan::rise_of(left, p.left, pointer);
    let y = named_of(list, p.right, pointer);
    let left_end = difference_scan::part_end(left, p.left, pointer);
    let right_end = listed_end(list, p.right, pointer);
    let kind = difference_scan::kind_by(p.lefts, x, p.rights, y, false);
    Turn {
        kind,
        left: left_end,
        right: right_end,
    }
}

// How many of n entries of files, from a place on, are of a level. Internal. Requires: the place is within the bytes.
pub fn run_long(list: &[u8], at: usize, n: usize, level: usize) -> usize
    requires { at ≤ length list.now }
    ensures { result ≡ run_long level n (drop at list.now) }
{
    let mut next = at;
    for i in 0..n {
        let level_at = snapshot_parse::after(list, next, Snapshot::BYTE);
        let here = snapshot_parse::get_number(list, level_at, Snapshot::BYTE);
        if here != level as u64 {
            return i;
        }
        next = listed_end(list, next, false);
    }
    n
}

// The place after the entries of a section of a list, whose count is at a place. Internal. Requires: the place is within the bytes.
pub fn section_end(list: &[u8], at: usize, pointer: bool) -> usize
    requires { at ≤ length list.now }
    ensures { At list.now result (after_each pointer (number_in count_long (drop at list.now)) (drop count_long (drop at list.now))) }
{
    let n = snapshot_parse::get_number(list, at, Snapshot::COUNT);
    let mut next = snapshot_parse::after(list, at, Snapshot::COUNT);
    for _ in 0..n {
        next = listed_end(list, next, pointer);
    }
    next
}
