// The plan of an edit: the places of the stayers, the order of the additions, and whether 6 or 8 applies.
#![tactic(auto)]

ghost use Rattle.std.specs.Prelude.{◌≡◌, true, [], ◌∷◌, map, ◌+◌, ◌≤◌, ltb, length, take};
ghost use Rattle.lemmas.specs.Lists.{distinct, join, sum};
ghost use Rattle.lemmas.specs.Slices.{put};
ghost use Rattle.model.specs.File.{max_additions, max_files, max_deletions};
ghost use Rattle.model.specs.Answer.{◌⇒◌};
ghost use Rattle.records.specs.Record.{vacant};
ghost use Rattle.answers.specs.Outcome.{passed};
ghost use Rattle.edit_stayers.specs.Stayers.{number_at};
ghost use Rattle.edit_order.specs.Arrangement.{are_levels};
ghost use Rattle.edit_plan.specs.Planning.{levels_gone, numbers_gone, no_keys, keys_in, news_of, levels_in, numbers_in, stay_places, plan_of};

use answers::Refusal;
use edit::{Addition, Deletion, Edit};
use keys::Key;
use records::{FileRecord, Level, Version};

// The plan of an edit.
#[derive(Clone, Copy)]
pub struct EditPlan {
    // Whether 6 or 8 applies.
    pub outcome: Result<(), Refusal>,
    // The places of the stayers, level after level.
    pub places: [usize; Version::ROOM],
    // The number of stayers of each level.
    pub counts: [usize; Level::COUNT],
    // The places of the additions in order, level after level.
    pub order: [usize; Edit::ADDITIONS],
    // The number of additions of each level.
    pub new_counts: [usize; Level::COUNT],
}

// Writes the levels and the numbers of the first `count` deletions to the fronts of two columns. Requires: the count is within the deletions and within both
// columns.
fn deletion_columns(
    deletions: [Deletion; Edit::DELETIONS],
    count: usize,
    levels: &mut [usize],
    numbers: &mut [u64],
)
    requires { (count ≤ max_deletions) × (count ≤ length levels.old) × (count ≤ length numbers.old) }
    ensures { (levels.new ≡ put levels.old 0 (levels_gone (take count deletions))) × (numbers.new ≡ put numbers.old 0 (numbers_gone (take count deletions))) }
{
    for (i, d) in deletions[..count].iter().enumerate() {
        levels[i] = d.level;
        numbers[i] = d.number.0;
    }
}

// Places for the keys of an edit's additions, all blank.
fn no_keys() -> [Key; Edit::ADDITIONS]
    ensures { result ≡ no_keys max_additions }
{
    [keys::BLANK_KEY; Edit::ADDITIONS]
}

// The smallest keys of the first `count` additions. Writes their levels and numbers to the fronts of two columns. Requires: the count is within the additions and
// within both columns.
fn new_columns(
    additions: [Addition; Edit::ADDITIONS],
    count: usize,
    levels: &mut [usize],
    numbers: &mut [u64],
) -> [Key; Edit::ADDITIONS]
    requires { (count ≤ max_additions) × (count ≤ length levels.old) × (count ≤ length numbers.old) }
    ensures { (result ≡ keys_in (take count additions)) × (levels.new ≡ put levels.old 0 (levels_in (take count additions))) × (numbers.new ≡ put numbers.old 0 (numbers_in (take count additions))) }
{
    let mut keys = no_keys();
    for (i, a) in additions[..count].iter().enumerate() {
        levels[i] = a.level;
        numbers[i] = a.number.0;
        keys[i] = a.smallest;
    }
    keys
}

// Places for the records of an edit's additions, all blank.
fn no_records() -> [FileRecord; Edit::ADDITIONS]
    ensures { result ≡ vacant max_additions }
{
    [records::BLANK; Edit::ADDITIONS]
}

// The records that are kept of an edit's additions. Bytes past a key's end are not read. Internal. Requires: the count is within the additions.
pub fn new_records(
    additions: [Addition; Edit::ADDITIONS],
    count: usize,
) -> [FileRecord; Edit::ADDITIONS]
    requires { count ≤ max_additions }
    ensures { result ≡ news_of (take count additions) }
{
    let mut files = no_records();
    for (i, a) in additions[..count].iter().enumerate() {
        files[i] = records::record(a.number, a.size, a.smallest, a.largest);
    }
    files
}

// 6 if a number stands twice among all survivors, else 8 if there are more survivors than the room.
fn crowded(twice: bool, total: usize) -> Result<(), Refusal>
    ensures { result ≡ passed ((twice ⇒ 6) ∷ (ltb max_files total ⇒ 8) ∷ []) }
{
    if twice {
        return Err(Refusal::Twice);
    }
    if Version::ROOM < total {
        return Err(Refusal::Room);
    }
    Ok(())
}

// The plan for the first m deletions and the first k additions on a base, by the column of its numbers. Internal. Requires: the column has the base's files and is
// within the room, no number stands twice among the stayers, m and k are within an edit's room, and the additions' levels are among the seven.
pub fn planned(
    column: &[u64],
    counts: [usize; Level::COUNT],
    deletions: [Deletion; Edit::DELETIONS],
    m: usize,
    additions: [Addition; Edit::ADDITIONS],
    k: usize,
) -> EditPlan
    requires { (sum counts ≤ length column.now) × (length column.now ≤ max_files) × (distinct (map (number_at column.now) (join (stay_places column.now counts (take m deletions) (take k additions)))) ≡ true) × (m ≤ max_deletions) × (k ≤ max_additions) × (are_levels (levels_in (take k additions)) ≡ true) }
    ensures { result ≡ plan_of column.now counts (take m deletions) (take k additions) }
{
    let mut gone_levels = [0usize; Edit::DELETIONS];
    let mut gone_numbers = [0u64; Edit::DELETIONS];
    deletion_columns(deletions, m, &mut gone_levels, &mut gone_numbers);
    let mut new_levels = [0usize; Edit::ADDITIONS];
    let mut new_numbers = [0u64; Edit::ADDITIONS];
    let new_keys = new_columns(additions, k, &mut new_levels, &mut new_numbers);
    let kept = edit_stayers::stay(
        column,
        counts,
        &gone_levels[..m],
        &gone_numbers[..m],
        &new_levels[..k],
        &new_numbers[..k],
    );
    let places = kept.places;
    let kept_counts = kept.counts;
    let n = kept.total;
    let kept_numbers = edit_stayers::numbers_at(column, &places[..n]);
    let twice = edit_stayers::has_twice(&kept_numbers[..n], &new_numbers[..k]);
    let outcome = crowded(twice, n + k);
    let arranged = edit_order::arrange(new_keys, &new_levels[..k]);
    let order = arranged.order;
    let new_counts = arranged.counts;
    EditPlan {
        outcome,
        places,
        counts: kept_counts,
        order,
        new_counts,
    }
}
