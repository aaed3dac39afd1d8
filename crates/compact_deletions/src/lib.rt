// The deletions of a picked answer's inputs, into an edit or into lent columns.
#![tactic(auto)]

ghost use Rattle.std.specs.Prelude.{◌≡◌, true, map, ◌+◌, ◌≤◌, length, replicate};
ghost use Rattle.lemmas.specs.Slices.{put};
ghost use Rattle.model.specs.File.{full, max_deletions};
ghost use Rattle.model.specs.Pick.{input_deletions};
ghost use Rattle.model.specs.Calls as calls;
ghost use Rattle.pick_answer.specs.Picked.{picked_of, well_picked, on_picked};
ghost use Rattle.compact_deletions.specs.Deletions.{deletion_at, deletion_record, room_in, deleted_by, Names};

use answers::Refusal;
use edit::{Deletion, Edit};
use keys::FileNumber;
use pick_answer::Picked;

// Writes deletions of these numbers at a level from a place on. Requires: there is room for them.
fn lay_deletions(
    out: [Deletion; Edit::DELETIONS],
    at: usize,
    level: usize,
    numbers: &[u64],
) -> [Deletion; Edit::DELETIONS]
    requires { at + length numbers.now ≤ max_deletions }
    ensures { result ≡ put out at (map (deletion_at level) numbers.now) }
{
    let mut deletions = out;
    for (i, number) in numbers.iter().enumerate() {
        deletions[at + i] = Deletion {
            level,
            number: FileNumber(*number),
        };
    }
    deletions
}

// Writes the deletions of both input lists from a place on, first inputs first. Requires: the picked answer is well-formed, and there is room for them.
fn lay_inputs(c: Picked, out: [Deletion; Edit::DELETIONS], at: usize) -> [Deletion; Edit::DELETIONS]
    requires { (well_picked c ≡ true) × (at + (c.first + c.second) ≤ max_deletions) }
    ensures { result ≡ put out at (map deletion_record (input_deletions (picked_of c))) }
{
    let first = c.first;
    let inputs = first + c.second;
    let column = records::numbers_of(c.files, 0, inputs);
    let some = lay_deletions(out, at, c.level, &column[0..first]);
    lay_deletions(some, at + first, c.level + 1, &column[first..inputs])
}

// Adds the deletions of both input lists to an edit, in order, first inputs first, after the edit's own.
pub fn add_input_deletions(c: Picked, e: Edit) -> Result<Edit, Refusal>
    ensures { result ≡ deleted_by e (on_picked c (λ p. calls.deletions_of full p (room_in e))) }
{
    if !pick_answer::is_well_formed(c) {
        return Err(Refusal::Form);
    }
    let inputs = c.first + c.second;
    let n = e.deletion_count;
    if Edit::DELETIONS < n {
        return Err(Refusal::Output);
    }
    if Edit::DELETIONS - n < inputs {
        return Err(Refusal::Output);
    }
    Ok(Edit {
        deletions: lay_inputs(c, e.deletions, n),
        deletion_count: n + inputs,
        ..e
    })
}

// Fills n places from a place on with one level. Requires: the list has these places.
fn fill_levels(out: &mut [usize], at: usize, n: usize, level: usize)
    requires { at + n ≤ length out.old }
    ensures { out.new ≡ put out.old at (replicate n level) }
{
    out[at..at + n].fill(level);
}

// Writes numbers over the front of a list. Requires: there is room for them.
fn lay_numbers(out: &mut [u64], numbers: &[u64])
    requires { length numbers.now ≤ length out.old }
    ensures { out.new ≡ put out.old 0 numbers.now }
{
    out[..numbers.len()].copy_from_slice(numbers);
}

// Writes the deletions of both input lists into two lent columns, levels and numbers, in order, first inputs first.
pub fn input_deletions(
    c: Picked,
    levels: &mut [usize],
    numbers: &mut [u64],
) -> Result<usize, Refusal>
    ensures { Names c levels.old numbers.old result levels.new numbers.new }
{
    if !pick_answer::is_well_formed(c) {
        return Err(Refusal::Form);
    }
    let first = c.first;
    let inputs = first + c.second;
    if levels.len() < inputs {
        return Err(Refusal::Output);
    }
    if numbers.len() < inputs {
        return Err(Refusal::Output);
    }
    let column = records::numbers_of(c.files, 0, inputs);
    fill_levels(levels, 0, first, c.level);
    fill_levels(levels, first, c.second, c.level + 1);
    lay_numbers(numbers, &column[0..inputs]);
    Ok(inputs)
}
