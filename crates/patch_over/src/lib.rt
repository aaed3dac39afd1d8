// A list laid over a snapshot: the outcome's sections, written as far as the output has room.
#![tactic(auto)]

ghost use Rattle.std.specs.Prelude.{◌≡◌, cond, ◌+◌, ◌<◌, ◌≤◌, length, drop, MatchOption};
ghost use Rattle.lemmas.specs.Lists.{join};
ghost use Rattle.model.specs.File.{level_count};
ghost use Rattle.model.specs.Snapshot.{section};
ghost use Rattle.snapshot_parse.specs.Parsing.{At};
ghost use Rattle.difference_scan.specs.Listing.{levels_at, as_is};
ghost use Rattle.difference_scan.specs.Scan.{byte_of};
ghost use Rattle.patch_scan.specs.Listed.{over_run};
ghost use Rattle.patch_scan.specs.Outcome.{all_counters_over, pointers_over, levels_over, outcome_of};
ghost use Rattle.patch_scan.specs.Over.{piece_of, Fitted, TooLong};
ghost use Rattle.patch_scan.specs.Ends.{RunEnds};

use difference_scan::{Kind, Places};
use records::Level;
use snapshot_parts::Snapshot;

// What a turn leaves: the place after it in the output, and how many pieces it is.
#[derive(Clone, Copy)]
struct Piece {
    next: usize,
    count: usize,
}

// A run that was written: the places after it in the snapshot, in the list and in the output, and how many pieces it has.
#[derive(Clone, Copy)]
pub struct Over {
    pub left: usize,
    pub list: usize,
    pub next: usize,
    pub count: usize,
}

// Writes bytes, if they fit. Returns the place after them. Requires: the place is within the output.
fn put_piece(out: &mut [u8], at: usize, src: &[u8]) -> Option<usize>
    requires { at ≤ length out.old }
    ensures { MatchOption result (TooLong out.old at src.now out.new) (Fitted out.old at src.now out.new) }
{
    if out.len() - at < src.len() {
        return None;
    }
    Some(snapshot_parts::put_bytes(out, at, src))
}

// Writes what a turn leaves, if it fits: the part x of the snapshot, or what the entry y brings. Requires: the place is within the output.
fn put_over(
    out: &mut [u8],
    at: usize,
    kind: Kind,
    pointer: bool,
    x: &[u8],
    y: &[u8],
) -> Option<Piece>
    requires { at ≤ length out.old }
    ensures { MatchOption result (TooLong out.old at (join (piece_of pointer (byte_of kind) x.now y.now)) out.new) (λ r. Fitted out.old at (join (piece_of pointer (byte_of kind) x.now y.now)) out.new r.next × (r.count ≡ length (piece_of pointer (byte_of kind) x.now y.now))) }
{
    if kind == Kind::Left {
        let next = put_piece(out, at, x)?;
        return Some(Piece { next, count: 1 });
    }
    if patch_scan::is_bare(y, pointer) {
        return Some(Piece { next: at, count: 0 });
    }
    let end = y.len();
    let start = octets::lesser(patch_scan::brought_at(pointer), end);
    let next = put_piece(out, at, &y[start..end])?;
    Some(Piece { next, count: 1 })
}

// Writes a run of a snapshot with one of a list laid over it, if it fits. Requires: the places are within their bytes and the output, and a count is below 65536.
pub fn lay_over(
    left: &[u8],
    list: &[u8],
    from: Places,
    pointer: bool,
    out: &mut [u8],
    at: usize,
) -> Option<Over>
    requires { (from.left ≤ length left.now) × (from.right ≤ length list.now) × (from.lefts < 65536) × (from.rights < 65536) × (at ≤ length out.old) }
    ensures { MatchOption result (TooLong out.old at (join (over_run pointer from.lefts (drop from.left left.now) from.rights (drop from.right list.now))) out.new) (λ r. Fitted out.old at (join (over_run pointer from.lefts (drop from.left left.now) from.rights (drop from.right list.now))) out.new r.next × (r.count ≡ length (over_run pointer from.lefts (drop from.left left.now) from.rights (drop from.right list.now))) × RunEnds pointer left.now list.now from r.left r.list) }
{
    let mut p = from;
    let mut next = at;
    let mut count: usize = 0;
    // Two runs merged by turns: what is read next is found in the body.
    while 0 < p.lefts + p.rights {
        let t = patch_scan::next_over(left, list, p, pointer);
        let x = &left[p.left..t.left];
        let y = &list[p.right..t.right];
        let r = put_over(out, next, t.kind, pointer, x, y)?;
        next = r.next;
        count += r.count;
        p = difference_list::advanced(p, t);
    }
    Some(Over {
        left: p.left,
        list: p.right,
        next,
        count,
    })
}

// Writes a section, if it fits: the count of a run with entries laid over it, then the run. Requires: the places are within their bytes and the output, and a count is
// below 65536.
fn lay_section(
    left: &[u8],
    list: &[u8],
    from: Places,
    pointer: bool,
    out: &mut [u8],
    at: usize,
) -> Option<Over>
    requires { (from.left ≤ length left.now) × (from.right ≤ length list.now) × (from.lefts < 65536) × (from.rights < 65536) × (at ≤ length out.old) }
    ensures { MatchOption result (TooLong out.old at (section as_is (over_run pointer from.lefts (drop from.left left.now) from.rights (drop from.right list.now))) out.new) (λ r. Fitted out.old at (section as_is (over_run pointer from.lefts (drop from.left left.now) from.rights (drop from.right list.now))) out.new r.next × (r.count ≡ length (over_run pointer from.lefts (drop from.left left.now) from.rights (drop from.right list.now))) × RunEnds pointer left.now list.now from r.left r.list) }
{
    if out.len() - at < Snapshot::COUNT {
        return None;
    }
    let made = lay_over(left, list, from, pointer, out, at + Snapshot::COUNT)?;
    snapshot_parts::put_number(out, at, Snapshot::COUNT, made.count as u64);
    Some(made)
}

// Writes the sections of all levels, which begin at place a of the snapshot, with m entries of files, which begin at place b of the list, laid over them, if they fit.
// Returns the place after them. Requires: the places are within their bytes and the output, and m is below 65536.
fn lay_levels(
    left: &[u8],
    a: usize,
    list: &[u8],
    b: usize,
    m: usize,
    out: &mut [u8],
    at: usize,
) -> Option<usize>
    requires { (a ≤ length left.now) × (b ≤ length list.now) × (m < 65536) × (at ≤ length out.old) }
    ensures { MatchOption result (TooLong out.old at (levels_over level_count 0 (drop a left.now) m (drop b list.now)) out.new) (Fitted out.old at (levels_over level_count 0 (drop a left.now) m (drop b list.now)) out.new) }
{
    let mut left_at = a;
    let mut list_at = b;
    let mut rest = m;
    let mut next = at;
    for level in 0..Level::COUNT {
        let n = snapshot_parse::get_number(left, left_at, Snapshot::COUNT);
        let start = snapshot_parse::after(left, left_at, Snapshot::COUNT);
        let r = patch_scan::run_long(list, list_at, rest, level);
        let from = Places {
            left: start,
            lefts: n as usize,
            right: list_at,
            rights: r,
        };
        let made = lay_section(left, list, from, false, out, next)?;
        left_at = made.left;
        list_at = made.list;
        next = made.next;
        rest -= r;
    }
    Some(next)
}

// Writes the bytes of a counter, if they fit: y if the list has it, else x. Returns the place after them. Requires: the place is within the output.
fn put_counter(out: &mut [u8], at: usize, named: bool, x: &[u8], y: &[u8]) -> Option<usize>
    requires { at ≤ length out.old }
    ensures { MatchOption result (TooLong out.old at (cond named y.now x.now) out.new) (Fitted out.old at (cond named y.now x.now) out.new) }
{
    if named {
        return put_piece(out, at, y);
    }
    put_piece(out, at, x)
}

// Writes the section of the counters, with the entries of counters, whose count is at place b of the list, laid over them, if it fits. Returns the place after it.
// Requires: the places are within the list and the output.
fn lay_counters(left: &[u8], list: &[u8], b: usize, out: &mut [u8], at: usize) -> Option<usize>
    requires { (b ≤ length list.now) × (at ≤ length out.old) }
    ensures { MatchOption result (TooLong out.old at (section as_is (all_counters_over left.now (drop b list.now))) out.new) (Fitted out.old at (section as_is (all_counters_over left.now (drop b list.now))) out.new) }
{
    if out.len() - at < Snapshot::COUNT {
        return None;
    }
    snapshot_parts::put_number(out, at, Snapshot::COUNT, Snapshot::FIVE as u64);
    let mut rest = snapshot_parse::get_number(list, b, Snapshot::COUNT);
    let mut list_at = snapshot_parse::after(list, b, Snapshot::COUNT);
    let mut next = at + Snapshot::COUNT;
    for i in 0..Snapshot::FIVE {
        let place = snapshot_parse::get_number(list, list_at, Snapshot::BYTE);
        let named = 0 < rest && place == i as u64;
        let y = snapshot_parse::after(list, list_at, Snapshot::BYTE);
        let y_end = snapshot_parse::after(list, y, Snapshot::NUMBER);
        let x = snapshot_parse::after(left, 0, Snapshot::NEXT + i * Snapshot::NUMBER);
        let x_end = snapshot_parse::after(left, x, Snapshot::NUMBER);
        next = put_counter(out, next, named, &left[x..x_end], &list[y..y_end])?;
        if named {
            rest -= 1;
            list_at = y_end;
        }
    }
    Some(next)
}

// Writes the section of the pointers, with the entries of pointers, whose count is at place b of the list, laid over them, if it fits. Requires: the places are within
// the list and the output.
fn lay_pointers(left: &[u8], list: &[u8], b: usize, out: &mut [u8], at: usize) -> Option<Over>
    requires { (b ≤ length list.now) × (at ≤ length out.old) }
    ensures { MatchOption result (TooLong out.old at (section as_is (pointers_over left.now (drop b list.now))) out.new) (λ r. Fitted out.old at (section as_is (pointers_over left.now (drop b list.now))) out.new r.next × (r.count ≡ length (pointers_over left.now (drop b list.now))) × At left.now r.left (levels_at left.now)) }
{
    let a = snapshot_parse::after(left, 0, Snapshot::COUNTERS);
    let from = difference_list::runs_at(left, a, list, b);
    lay_section(left, list, from, true, out, at)
}

// Writes what a list makes of a snapshot, if it fits. Returns its length. Internal.
pub fn lay_outcome(left: &[u8], list: &[u8], out: &mut [u8]) -> Option<usize>
    ensures { MatchOption result (TooLong out.old 0 (outcome_of left.now list.now) out.new) (Fitted out.old 0 (outcome_of left.now list.now) out.new) }
{
    let pointers_in = patch_scan::section_end(list, 0, false);
    let counters_in = patch_scan::section_end(list, pointers_in, true);
    let counters_end = lay_counters(left, list, counters_in, out, 0)?;
    let pointers = lay_pointers(left, list, pointers_in, out, counters_end)?;
    let n = snapshot_parse::get_number(list, 0, Snapshot::COUNT);
    let files_in = snapshot_parse::after(list, 0, Snapshot::COUNT);
    lay_levels(
        left,
        pointers.left,
        list,
        files_in,
        n as usize,
        out,
        pointers.next,
    )
}
