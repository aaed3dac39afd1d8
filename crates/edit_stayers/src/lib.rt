// The stayers of each level, as places, so that no record is copied. Also the numbers at these places, and whether a number stands twice among them and the added
// files.
#![tactic(auto)]

ghost use Rattle.std.specs.Prelude.{◌≡◌, true, not, ◌++◌, map, ◌≤◌, length, replicate};
ghost use Rattle.lemmas.specs.Lists.{distinct, sum};
ghost use Rattle.lemmas.specs.Slices.{put};
ghost use Rattle.model.specs.File.{max_files};
ghost use Rattle.edit_stayers.specs.Stayers.{has_pair, stays_by, stayers_by, number_at, places_of, is_below, kept_of};

use records::{Level, Version};

// The places of the stayers.
// Arrays with counts beside them, as no heap is used.
#[derive(Clone, Copy)]
pub struct Kept {
    // Level after level in the first `total` entries, zeros past them.
    pub places: [usize; Version::ROOM],
    // How many each level has.
    pub counts: [usize; Level::COUNT],
    // How many there are in all.
    pub total: usize,
}

// Whether a level and a number are side by side in two columns.
fn has_pair(levels: &[usize], numbers: &[u64], level: usize, number: u64) -> bool
    ensures { result ≡ has_pair level number levels.now numbers.now }
{
    levels
        .iter()
        .zip(numbers)
        .any(|(l, n)| *l == level && *n == number)
}

// Whether a base file of a level stays: it is not deleted there, or also added there.
fn stays(
    deleted_levels: &[usize],
    deleted: &[u64],
    added_levels: &[usize],
    added: &[u64],
    level: usize,
    number: u64,
) -> bool
    ensures { result ≡ stays_by deleted_levels.now deleted.now added_levels.now added.now level number }
{
    if has_pair(deleted_levels, deleted, level, number) {
        return has_pair(added_levels, added, level, number);
    }
    true
}

// The places of the stayers of each level, by the column of the base's numbers. Internal. Requires: the column has the files of all levels, and no more numbers than
// a version has files.
pub fn stay(
    numbers: &[u64],
    counts: [usize; Level::COUNT],
    deleted_levels: &[usize],
    deleted: &[u64],
    added_levels: &[usize],
    added: &[u64],
) -> Kept
    requires { (sum counts ≤ length numbers.now) × (length numbers.now ≤ max_files) }
    ensures { result ≡ kept_of (stayers_by (number_at numbers.now) (stays_by deleted_levels.now deleted.now added_levels.now added.now) 0 (places_of counts)) }
{
    let mut places = [0usize; Version::ROOM];
    let mut made = [0usize; Level::COUNT];
    let mut n: usize = 0;
    let mut from: usize = 0;
    for (level, count) in counts.iter().enumerate() {
        let to = from + *count;
        let begin = n;
        for i in from..to {
            if stays(
                deleted_levels,
                deleted,
                added_levels,
                added,
                level,
                numbers[i],
            ) {
                places[n] = i;
                n += 1;
            }
        }
        made[level] = n - begin;
        from = to;
    }
    Kept {
        places: places,
        counts: made,
        total: n,
    }
}

// The numbers at these places. Internal. Requires: there are no more places than a version has files, and each is within the column.
pub fn numbers_at(numbers: &[u64], places: &[usize]) -> [u64; Version::ROOM]
    requires { (length places.now ≤ max_files) × (is_below (length numbers.now) places.now ≡ true) }
    ensures { result ≡ put (replicate max_files 0) 0 (map (number_at numbers.now) places.now) }
{
    let mut out = [0u64; Version::ROOM];
    for (i, at) in places.iter().enumerate() {
        out[i] = numbers[*at];
    }
    out
}

// Whether a number stands twice among the stayers and the added files. Internal. Requires: no number stands twice among the stayers.
pub fn has_twice(kept: &[u64], added: &[u64]) -> bool
    requires { distinct kept.now ≡ true }
    ensures { result ≡ not (distinct (kept.now ++ added.now)) }
{
    for (i, x) in added.iter().enumerate() {
        if kept.contains(x) {
            return true;
        }
        if added[..i].contains(x) {
            return true;
        }
    }
    false
}
