// The cutter: tells where the output of a compaction is cut, by the bytes of the grandparents that its keys have passed.
#![tactic(auto)]

ghost use Rattle.std.specs.Prelude.{◌≡◌, true, ◌+◌, ◌≤◌};
ghost use Rattle.model.specs.File.{max_word};
ghost use Rattle.model.specs.Question.{fresh_cutter, cut_step};
ghost use Rattle.model.specs.Calls.{counts_up_to};
ghost use Rattle.keys.specs.Key.{key_of};
ghost use Rattle.pick_answer.specs.Picked.{picked_of, well_picked};
ghost use Rattle.compact_cutter.specs.Cutter.{cutter_of, cutter_record, cut_record, good_memory, stopping, cut_by, passing_from, counted_with, cut_after};

use answers::Refusal;
use keys::Key;
use pick_answer::Picked;

// The cutter's memory.
// A flag beside a place and a count: program `faults` passes memories that have seen no key and stand at a place.
#[derive(Clone, Copy)]
pub struct Cutter {
    // Whether a key was seen.
    pub seen: bool,
    // The number of grandparents passed.
    pub place: usize,
    // The bytes counted since the last cut.
    pub count: u64,
}

// Whether to cut before a key, and the memory after it.
#[derive(Clone, Copy)]
pub struct Cut {
    pub cut: bool,
    pub memory: Cutter,
}

// The place among the grandparents after a key, and the bytes that the key passes.
#[derive(Clone, Copy)]
struct Passing {
    place: usize,
    bytes: u64,
}

// A fresh memory.
pub fn fresh_cutter() -> Cutter
    ensures { result ≡ cutter_record fresh_cutter }
{
    Cutter {
        seen: false,
        place: 0,
        count: 0,
    }
}

// Whether the count is the bytes from some place up to this one. It adds the sizes from this place down until the sum is the count. Requires: the picked answer is
// well-formed, and the place is within the grandparents.
fn counts_up_to(c: Picked, place: usize, count: u64) -> bool
    requires { (well_picked c ≡ true) × (place ≤ c.grand) }
    ensures { result ≡ counts_up_to (picked_of c).grand place count }
{
    let from = c.first + c.second;
    let mut sum: u64 = 0;
    for f in c.files[from..from + place].iter().rev() {
        if sum == count {
            return true;
        }
        sum += f.size;
    }
    sum == count
}

// Whether the memory is well-formed: fresh, or it has seen a key, its place is within the grandparents, and its count, at most 10 M, is the bytes from some place up
// to it. Internal. Requires: the picked answer is well-formed.
pub fn is_good_memory(c: Picked, m: Cutter) -> bool
    requires { well_picked c ≡ true }
    ensures { result ≡ good_memory c m }
{
    if !m.seen {
        if m.place != 0 {
            return false;
        }
        return m.count == 0;
    }
    if c.grand < m.place {
        return false;
    }
    if Picked::GRAND_TIMES * c.maximum < m.count {
        return false;
    }
    counts_up_to(c, m.place, m.count)
}

// The place after a key and the bytes that it passes. Requires: the picked answer is well-formed, and the place is within the grandparents.
fn pass(c: Picked, place: usize, k: Key) -> Passing
    requires { (well_picked c ≡ true) × (place ≤ c.grand) }
    ensures { result ≡ passing_from place (picked_of c).grand (key_of k) }
{
    let from = c.first + c.second;
    let mut bytes: u64 = 0;
    for at in place..c.grand {
        let f = c.files[from + at];
        if !keys::is_before(f.largest, k) {
            return Passing { place: at, bytes };
        }
        bytes += f.size;
    }
    Passing {
        place: c.grand,
        bytes,
    }
}

// The count with the bytes passed, unless the key is the first. Requires: the sum fits 64 bits.
fn counted_with(m: Cutter, bytes: u64) -> u64
    requires { m.count + bytes ≤ max_word }
    ensures { result ≡ counted_with m bytes }
{
    if m.seen { m.count + bytes } else { m.count }
}

// The cut after these grandparents are passed: if the count is above the most, it becomes 0 and the answer is yes. Requires: the count and the bytes together fit 64
// bits.
fn cut_after(m: Cutter, most: u64, p: Passing) -> Cut
    requires { m.count + p.bytes ≤ max_word }
    ensures { result ≡ cut_after m most p }
{
    let bytes = counted_with(m, p.bytes);
    let cut = most < bytes;
    Cut {
        cut,
        memory: Cutter {
            seen: true,
            place: p.place,
            count: if cut { 0 } else { bytes },
        },
    }
}

// One key more, with no tests. Requires: the picked answer and the memory are well-formed.
pub fn advance(c: Picked, m: Cutter, k: Key) -> Cut
    requires { (well_picked c ≡ true) × (good_memory c m ≡ true) }
    ensures { result ≡ cut_record (cut_step c.maximum (picked_of c).grand (cutter_of m) (key_of k)) }
{
    let p = pass(c, m.place, k);
    cut_after(m, Picked::GRAND_TIMES * c.maximum, p)
}

// Whether to cut before a key, and the memory after it.
pub fn step(c: Picked, m: Cutter, k: Key) -> Result<Cut, Refusal>
    ensures { result ≡ cut_by (stopping c m k) }
{
    if !pick_answer::is_well_formed(c) {
        return Err(Refusal::Form);
    }
    if !is_good_memory(c, m) {
        return Err(Refusal::Form);
    }
    if !keys::is_good(k) {
        return Err(Refusal::Key);
    }
    Ok(advance(c, m, k))
}
