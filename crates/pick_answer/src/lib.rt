// The answer of a pick by value: whether it is well-formed, and whether it is a trivial move.
#![tactic(auto)]

ghost use Rattle.std.specs.Prelude.{◌≡◌, true, ◌+◌, ◌≤◌};
ghost use Rattle.model.specs.File.{full, max_files};
ghost use Rattle.model.specs.Pick.{is_manual, trivial};
ghost use Rattle.model.specs.Calls as calls;
ghost use Rattle.answers.specs.Outcome.{answer_of};
ghost use Rattle.pick_answer.specs.Picked.{cause_of, picked_of, well_picked, on_picked, framed, as_levels, distinct_runs};

use answers::Refusal;
use records::{FileRecord, Level, Version};
use store::Store;

// The cause of a pick: size, with the reported score, or manual.
#[derive(Clone, Copy)]
pub enum Cause {
    Size(f64),
    Manual,
}

// A picked answer.
// One array with three counts beside it, as no heap is used: together the lists have no more files than a version.
#[derive(Clone, Copy)]
pub struct Picked {
    pub level: usize,
    pub cause: Cause,
    // The maximum file size M.
    pub maximum: u64,
    // First inputs, second inputs, grandparents, then blank records.
    pub files: [FileRecord; Version::ROOM],
    // The number of first inputs.
    pub first: usize,
    // The number of second inputs.
    pub second: usize,
    // The number of grandparents.
    pub grand: usize,
}

impl Picked {
    // The largest maximum file size.
    pub const LARGEST_MAXIMUM: u64 = 4294967296;
    // In a trivial move the grandparents' bytes are below this many times the maximum file size. The cutter cuts when the bytes passed are above it.
    pub const GRAND_TIMES: u64 = 10;
}

// What a pick gives: the picked answer, and the store after the call.
#[derive(Clone, Copy)]
pub struct Pick {
    pub picked: Picked,
    pub store: Store,
}

// Whether all but the files of a picked answer is well-formed: level 0 to 5, M in its range, at least one first input, no grandparents at level 5.
fn is_framed(level: usize, maximum: u64, first: usize, grand: usize) -> bool
    ensures { result ≡ framed level maximum first grand }
{
    let last = Level::COUNT - 2;
    if last < level {
        return false;
    }
    if maximum < 1 {
        return false;
    }
    if Picked::LARGEST_MAXIMUM < maximum {
        return false;
    }
    if first == 0 {
        return false;
    }
    if level < last {
        return true;
    }
    grand == 0
}

// The counts of the three lists as counts of seven levels, from level 0 or level 1 on. All levels above 0 have the same order, so one test serves them all.
fn as_levels(level: usize, first: usize, second: usize, grand: usize) -> [usize; Level::COUNT]
    ensures { result ≡ as_levels level first second grand }
{
    if level == 0 {
        return [first, second, grand, 0, 0, 0, 0];
    }
    [0, first, second, grand, 0, 0, 0]
}

// Whether no number stands twice in any of three consecutive runs of a column. Requires: the counts are together within the room.
fn are_distinct(column: [u64; Version::ROOM], first: usize, second: usize, grand: usize) -> bool
    requires { first + second + grand ≤ max_files }
    ensures { result ≡ distinct_runs column first second grand }
{
    let inputs = first + second;
    let all = inputs + grand;
    if !sorting::all_distinct(&column[0..first]) {
        return false;
    }
    if !sorting::all_distinct(&column[first..inputs]) {
        return false;
    }
    sorting::all_distinct(&column[inputs..all])
}

// Whether a picked answer is well-formed.
pub fn is_well_formed(c: Picked) -> bool
    ensures { result ≡ well_picked c }
{
    let counts = as_levels(c.level, c.first, c.second, c.grand);
    let v = levels::survey(c.files, counts);
    if !v.arranged {
        return false;
    }
    if !is_framed(c.level, c.maximum, c.first, c.grand) {
        return false;
    }
    are_distinct(v.numbers, c.first, c.second, c.grand)
}

// Whether a pick is manual.
fn is_manual(cause: Cause) -> bool
    ensures { result ≡ is_manual (cause_of cause) }
{
    match cause {
        Cause::Size(_) => false,
        Cause::Manual => true,
    }
}

// Whether a pick is a trivial move. Requires: the picked answer is well-formed.
pub fn is_trivial(c: Picked) -> bool
    requires { well_picked c ≡ true }
    ensures { result ≡ trivial (picked_of c) }
{
    if is_manual(c.cause) {
        return false;
    }
    if c.first != 1 {
        return false;
    }
    if c.second != 0 {
        return false;
    }
    let inputs = c.first + c.second;
    let bytes = records::total_size(c.files, inputs, inputs + c.grand);
    bytes < Picked::GRAND_TIMES * c.maximum
}

// Whether a pick is a trivial move: not manual, one first input, no second, grandparents' bytes below 10 M.
pub fn is_trivial_move(c: Picked) -> Result<bool, Refusal>
    ensures { answer_of result ≡ on_picked c (calls.is_trivial_move full) }
{
    if !is_well_formed(c) {
        return Err(Refusal::Form);
    }
    Ok(is_trivial(c))
}
