// The list of differences of two snapshots, made of their bytes: the files of each level, the pointers, the counters, each section after its count.
#![tactic(auto)]

ghost use Rattle.std.specs.Prelude.{◌≡◌, false, map, ◌+◌, ◌<◌, ◌≤◌, eqb, length, drop};
ghost use Rattle.lemmas.specs.Lists.{join};
ghost use Rattle.lemmas.specs.Slices.{put};
ghost use Rattle.model.specs.File.{level_count};
ghost use Rattle.model.specs.Snapshot.{section, counter_count};
ghost use Rattle.model.specs.DifferenceBytes.{left_kind, right_kind};
ghost use Rattle.snapshot_parse.specs.Parsing.{At};
ghost use Rattle.difference_scan.specs.Scan.{after_all, byte_of};
ghost use Rattle.difference_scan.specs.Turns.{entries_of};
ghost use Rattle.difference_scan.specs.Listing.{advanced_by, counted_by, level_entries, pointer_entries, levels_at, counter_entry, counter_entries, as_is, list_of};
ghost use Rattle.difference_list.specs.Runs.{RunsAt};

use difference_scan::{Kind, Places, Turn};
use records::Level;
use snapshot_parts::Snapshot;

// What is written of a run: the places after it in both snapshots and in the output, and how many entries it has.
#[derive(Clone, Copy)]
struct Laid {
    left: usize,
    right: usize,
    next: usize,
    listed: usize,
}

// The places after a turn. Internal. Requires: a side that it does not pass by has a part left.
pub fn advanced(p: Places, t: Turn) -> Places
    requires { (eqb (byte_of t.kind) right_kind ≡ false → 0 < p.lefts) × (eqb (byte_of t.kind) left_kind ≡ false → 0 < p.rights) }
    ensures { result ≡ advanced_by p t }
{
    match t.kind {
        Kind::Left => Places {
            left: t.left,
            lefts: p.lefts - 1,
            ..p
        },
        Kind::Right => Places {
            right: t.right,
            rights: p.rights - 1,
            ..p
        },
        Kind::Changed | Kind::Same => Places {
            left: t.left,
            lefts: p.lefts - 1,
            right: t.right,
            rights: p.rights - 1,
        },
    }
}

// How many entries there are after a turn. Requires: the number can be one more.
fn counted(listed: usize, kind: Kind) -> usize
    requires { listed + 1 < 18446744073709551616 }
    ensures { result ≡ counted_by listed (byte_of kind) }
{
    if kind == Kind::Same {
        return listed;
    }
    listed + 1
}

// Writes the entries of two runs, which begin at these places. Requires: the places are within the bytes, a count is below 65536, and the output has room.
fn lay_run(
    left: &[u8],
    right: &[u8],
    from: Places,
    pointer: bool,
    level: usize,
    out: &mut [u8],
    at: usize,
) -> Laid
    requires { (from.left ≤ length left.now) × (from.right ≤ length right.now) × (from.lefts < 65536) × (from.rights < 65536) × (at + length (join (entries_of pointer level from.lefts (drop from.left left.now) from.rights (drop from.right right.now))) ≤ length out.old) }
    ensures { At left.now result.left (after_all pointer from.lefts (drop from.left left.now)) × At right.now result.right (after_all pointer from.rights (drop from.right right.now)) × (result.next ≡ at + length (join (entries_of pointer level from.lefts (drop from.left left.now) from.rights (drop from.right right.now)))) × (result.listed ≡ length (entries_of pointer level from.lefts (drop from.left left.now) from.rights (drop from.right right.now))) × (out.new ≡ put out.old at (join (entries_of pointer level from.lefts (drop from.left left.now) from.rights (drop from.right right.now)))) }
{
    let mut p = from;
    let mut next = at;
    let mut listed: usize = 0;
    // A merge: a turn passes by a part of the left, of the right, or of both.
    while 0 < p.lefts + p.rights {
        let t = difference_scan::next_turn(left, right, p, pointer);
        let x = &left[p.left..t.left];
        let y = &right[p.right..t.right];
        next = difference_scan::put_entry(out, next, t.kind, level, pointer, x, y);
        listed = counted(listed, t.kind);
        p = advanced(p, t);
    }
    Laid {
        left: p.left,
        right: p.right,
        next,
        listed,
    }
}

// Where the runs of two sections begin: after their counts. Internal. Requires: the places are within the bytes.
pub fn runs_at(left: &[u8], a: usize, right: &[u8], b: usize) -> Places
    requires { (a ≤ length left.now) × (b ≤ length right.now) }
    ensures { RunsAt left.now a right.now b result }
{
    let lefts = snapshot_parse::get_number(left, a, Snapshot::COUNT);
    let rights = snapshot_parse::get_number(right, b, Snapshot::COUNT);
    let left_at = snapshot_parse::after(left, a, Snapshot::COUNT);
    let right_at = snapshot_parse::after(right, b, Snapshot::COUNT);
    Places {
        left: left_at,
        lefts: lefts as usize,
        right: right_at,
        rights: rights as usize,
    }
}

// Writes the entries of all levels, whose sections begin at these places. Requires: the places are within the bytes, and the output has room.
fn lay_levels(left: &[u8], a: usize, right: &[u8], b: usize, out: &mut [u8], at: usize) -> Laid
    requires { (a ≤ length left.now) × (b ≤ length right.now) × (at + length (join (level_entries level_count 0 (drop a left.now) (drop b right.now))) ≤ length out.old) }
    ensures { (result.next ≡ at + length (join (level_entries level_count 0 (drop a left.now) (drop b right.now)))) × (result.listed ≡ length (level_entries level_count 0 (drop a left.now) (drop b right.now))) × (out.new ≡ put out.old at (join (level_entries level_count 0 (drop a left.now) (drop b right.now)))) }
{
    let mut here = Laid {
        left: a,
        right: b,
        next: at,
        listed: 0,
    };
    for level in 0..Level::COUNT {
        let from = runs_at(left, here.left, right, here.right);
        let made = lay_run(left, right, from, false, level, out, here.next);
        here = Laid {
            left: made.left,
            right: made.right,
            next: made.next,
            listed: here.listed + made.listed,
        };
    }
    here
}

// Writes the section of the files, of levels that begin at these places. Returns the place after it. Requires: the places are within the bytes, and the output has
// room.
fn lay_files(left: &[u8], a: usize, right: &[u8], b: usize, out: &mut [u8], at: usize) -> usize
    requires { (a ≤ length left.now) × (b ≤ length right.now) × (at + length (section as_is (level_entries level_count 0 (drop a left.now) (drop b right.now))) ≤ length out.old) }
    ensures { (result ≡ at + length (section as_is (level_entries level_count 0 (drop a left.now) (drop b right.now)))) × (out.new ≡ put out.old at (section as_is (level_entries level_count 0 (drop a left.now) (drop b right.now)))) }
{
    let made = lay_levels(left, a, right, b, out, at + Snapshot::COUNT);
    snapshot_parts::put_number(out, at, Snapshot::COUNT, made.listed as u64);
    made.next
}

// Writes the section of the pointers. Returns the place after it. Requires: the output has room.
fn lay_pointers(left: &[u8], right: &[u8], out: &mut [u8], at: usize) -> usize
    requires { at + length (section as_is (pointer_entries left.now right.now)) ≤ length out.old }
    ensures { (result ≡ at + length (section as_is (pointer_entries left.now right.now))) × (out.new ≡ put out.old at (section as_is (pointer_entries left.now right.now))) }
{
    let a = snapshot_parse::after(left, 0, Snapshot::COUNTERS);
    let b = snapshot_parse::after(right, 0, Snapshot::COUNTERS);
    let from = runs_at(left, a, right, b);
    let made = lay_run(left, right, from, true, 0, out, at + Snapshot::COUNT);
    snapshot_parts::put_number(out, at, Snapshot::COUNT, made.listed as u64);
    made.next
}

// The place after the pointers, where the levels begin. Internal.
pub fn levels_at(src: &[u8]) -> usize
    ensures { At src.now result (levels_at src.now) }
{
    let at = snapshot_parse::after(src, 0, Snapshot::COUNTERS);
    let n = snapshot_parse::get_number(src, at, Snapshot::COUNT);
    let mut next = snapshot_parse::after(src, at, Snapshot::COUNT);
    for _ in 0..n {
        next = difference_scan::part_end(src, next, true);
    }
    next
}

// Writes the entry of a counter: its place, then its bytes. None if it is the same. Returns the place after it. Requires: the output has room.
fn put_counter(out: &mut [u8], at: usize, i: usize, same: bool, y: &[u8]) -> usize
    requires { at + length (join (counter_entry i same y.now)) ≤ length out.old }
    ensures { (result ≡ at + length (join (counter_entry i same y.now))) × (out.new ≡ put out.old at (join (counter_entry i same y.now))) }
{
    if same {
        return at;
    }
    snapshot_parts::put_number(out, at, Snapshot::BYTE, i as u64);
    snapshot_parts::put_bytes(out, at + Snapshot::BYTE, y)
}

// Writes the section of the counters. Returns the place after it. Requires: the output has room.
fn lay_counters(left: &[u8], right: &[u8], out: &mut [u8], at: usize) -> usize
    requires { at + length (section as_is (counter_entries 0 counter_count left.now right.now)) ≤ length out.old }
    ensures { (result ≡ at + length (section as_is (counter_entries 0 counter_count left.now right.now))) × (out.new ≡ put out.old at (section as_is (counter_entries 0 counter_count left.now right.now))) }
{
    let mut next = at + Snapshot::COUNT;
    let mut listed: usize = 0;
    for i in 0..Snapshot::FIVE {
        let a = snapshot_parse::after(left, 0, Snapshot::NEXT + i * Snapshot::NUMBER);
        let a_end = snapshot_parse::after(left, a, Snapshot::NUMBER);
        let b = snapshot_parse::after(right, 0, Snapshot::NEXT + i * Snapshot::NUMBER);
        let b_end = snapshot_parse::after(right, b, Snapshot::NUMBER);
        let same = snapshot_parts::same(&left[a..a_end], &right[b..b_end]);
        next = put_counter(out, next, i, same, &right[b..b_end]);
        if !same {
            listed += 1;
        }
    }
    snapshot_parts::put_number(out, at, Snapshot::COUNT, listed as u64);
    next
}

// Writes the list of what differs between two snapshots. Returns its length. Internal. Requires: the output has room.
pub fn lay_list(left: &[u8], right: &[u8], out: &mut [u8]) -> usize
    requires { length (list_of left.now right.now) ≤ length out.old }
    ensures { (result ≡ length (list_of left.now right.now)) × (out.new ≡ put out.old 0 (list_of left.now right.now)) }
{
    let a = levels_at(left);
    let b = levels_at(right);
    let pointers = lay_files(left, a, right, b, out, 0);
    let counters = lay_pointers(left, right, out, pointers);
    lay_counters(left, right, out, counters)
}
