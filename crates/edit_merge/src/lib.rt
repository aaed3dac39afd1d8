// One merge of stayers and added files, by places, so that each record is copied once.
#![tactic(auto)]

ghost use Rattle.std.specs.Prelude.{◌≡◌, true, ◌+◌, ◌≤◌};
ghost use Rattle.lemmas.specs.Lists.{sum};
ghost use Rattle.lemmas.specs.Slices.{parts};
ghost use Rattle.model.specs.File.{in_order, levelwise, max_additions, max_files};
ghost use Rattle.edit_stayers.specs.Stayers.{is_below, records_at};
ghost use Rattle.edit_order.specs.Arrangement.{record_before};
ghost use Rattle.edit_merge.specs.Builder.{files_of, merges, merged_of, sums};
ghost use Rattle.edit_merge.specs.Neighbours.{clear_of, level_begun, seen_after};

use edit::Edit;
use keys::Key;
use records::{FileRecord, Level, Version};

// The survivors, and whether none collide.
#[derive(Clone, Copy)]
pub struct Merged {
    // Level after level, with blank records past them.
    pub files: [FileRecord; Version::ROOM],
    // Whether no two survivors of a level above 0 collide.
    pub fits: bool,
}

// The state of the collision test within a level.
#[derive(Clone, Copy)]
struct Seen {
    // The largest key of the last file.
    end: Key,
    // Whether none have collided so far.
    fits: bool,
    // Whether files of this level can collide: above level 0.
    deep: bool,
    // Whether there is a last file to test with.
    follows: bool,
    // Whether the last file was added.
    fresh: bool,
}

// Whether an added file goes before a stayer: its smallest key is strictly before.
fn goes_before(new: FileRecord, old: FileRecord) -> bool
    ensures { result ≡ record_before new old }
{
    let a = new.smallest;
    let b = old.smallest;
    keys::is_before(a, b)
}

// Whether none have collided so far and, if it is to be tested, the last file ends strictly before this one begins.
fn is_clear(fits: bool, tested: bool, end: Key, f: FileRecord) -> bool
    ensures { result ≡ clear_of fits tested end f }
{
    if !fits {
        return false;
    }
    if !tested {
        return true;
    }
    let low = f.smallest;
    keys::is_before(end, low)
}

// The state at the start of a level. Files can collide above level 0.
fn level_begun(fits: bool, level: usize) -> Seen
    ensures { result ≡ level_begun fits level }
{
    Seen {
        end: keys::blank_key(),
        fits: fits,
        deep: 0 < level,
        follows: false,
        fresh: false,
    }
}

// The state after one file more. An added file is tested with the file before it, a stayer only if that file was added.
fn seen_after(s: Seen, f: FileRecord, added: bool) -> Seen
    ensures { result ≡ seen_after s f added }
{
    let end = s.end;
    let high = f.largest;
    if added {
        return Seen {
            end: high,
            fits: is_clear(s.fits, s.follows, end, f),
            deep: s.deep,
            follows: s.deep,
            fresh: s.deep,
        };
    }
    Seen {
        end: high,
        fits: is_clear(s.fits, s.fresh, end, f),
        deep: s.deep,
        follows: s.deep,
        fresh: false,
    }
}

// Merges stayers and added files, level by level, into blank places. Among equal keys the stayers are first. Neighbouring stayers are not tested, since the base is
// in order. Internal. Requires: the files are together within the room, the added ones within an edit's room, all places are within their arrays, and the stayers of
// each level are in order.
pub fn merge(
    files: [FileRecord; Version::ROOM],
    places: [usize; Version::ROOM],
    counts: [usize; Level::COUNT],
    news: [FileRecord; Edit::ADDITIONS],
    order: [usize; Edit::ADDITIONS],
    new_counts: [usize; Level::COUNT],
) -> Merged
    requires { (sum counts + sum new_counts ≤ max_files) × (sum new_counts ≤ max_additions) × (is_below max_files places ≡ true) × (is_below max_additions order ≡ true) × (levelwise in_order 0 (files_of (parts (records_at files places) counts)) ≡ true) }
    ensures { result ≡ merged_of (merges (parts (records_at files places) counts) (parts (records_at news order) new_counts)) }
{
    let mut out = records::blanks();
    let mut seen = level_begun(true, 0);
    let mut i: usize = 0;
    let mut j: usize = 0;
    for level in 0..Level::COUNT {
        let to = i + counts[level];
        let new_to = j + new_counts[level];
        seen = level_begun(seen.fits, level);
        for at in i + j..to + new_to {
            let mut added = j < new_to;
            if added && i < to {
                added = goes_before(news[order[j]], files[places[i]]);
            }
            let f = if added {
                news[order[j]]
            } else {
                files[places[i]]
            };
            seen = seen_after(seen, f, added);
            out[at] = f;
            if added {
                j += 1;
            } else {
                i += 1;
            }
        }
    }
    Merged {
        files: out,
        fits: seen.fits,
    }
}

// The number of files of each level: stayers and added files. Internal. Requires: they are together within the room.
pub fn add_counts(
    counts: [usize; Level::COUNT],
    new_counts: [usize; Level::COUNT],
) -> [usize; Level::COUNT]
    requires { sum counts + sum new_counts ≤ max_files }
    ensures { result ≡ sums counts new_counts }
{
    let mut made = [0usize; Level::COUNT];
    for level in 0..Level::COUNT {
        made[level] = counts[level] + new_counts[level];
    }
    made
}
