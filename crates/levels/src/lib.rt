// Levels one after another in one array of file records, and whether they are well-formed.
#![tactic(auto)]

ghost use Rattle.std.specs.Prelude.{◌≡◌, ◌+◌, ◌≤◌, min, take};
ghost use Rattle.lemmas.specs.Lists.{sum};
ghost use Rattle.model.specs.File.{level_count, max_files};
ghost use Rattle.records.specs.Record.{file_of};
ghost use Rattle.levels.specs.Levels.{follows, well_levels, survey_of, unarranged, tells_well};

use records::{FileRecord, Level, Version};

// The number of files of all levels, or one more than the room if there are more. Internal.
pub fn counted(counts: [usize; Level::COUNT]) -> usize
    ensures { result ≡ min (sum counts) (max_files + 1) }
{
    counts
        .iter()
        .fold(0usize, |sum, c| sum.saturating_add(*c))
        .min(Version::BEYOND)
}

// The result of one look at levels.
// An array with a count beside it, as no heap is used.
#[derive(Clone, Copy)]
pub struct Surveyed {
    // The file numbers, zeros past them.
    pub numbers: [u64; Version::ROOM],
    // The bytes of each level.
    pub bytes: [u64; Level::COUNT],
    // The number of files.
    pub total: usize,
    // Whether the levels are as document 01 asks, except that a number may stand twice.
    pub arranged: bool,
}

// The place where a level starts. Internal. Requires: the level is at most the number of levels, and the counts are together within the room.
pub fn start_of(counts: [usize; Level::COUNT], level: usize) -> usize
    requires { (level ≤ level_count) × (sum counts ≤ max_files) }
    ensures { result ≡ sum (take level counts) }
{
    counts[..level].iter().sum()
}

// Whether g may be the next file after f: at level 0 its smallest key is not before f's, deeper f ends strictly before g begins.
fn may_follow(level: usize, f: FileRecord, g: FileRecord) -> bool
    ensures { result ≡ follows level (file_of f) (file_of g) }
{
    let b = g.smallest;
    if level == 0 {
        let a = f.smallest;
        return !keys::is_before(b, a);
    }
    let a = f.largest;
    keys::is_before(a, b)
}

// The survey of levels that are not arranged: no files, no bytes.
fn nothing_seen() -> Surveyed
    ensures { result ≡ unarranged }
{
    Surveyed {
        numbers: [0u64; Version::ROOM],
        bytes: [0u64; Level::COUNT],
        total: 0,
        arranged: false,
    }
}

// One look at levels: checks room, records, blank places and order, and collects the files' numbers and bytes. It passes the array to no other function, since each
// call would copy it. Internal.
pub fn survey(files: [FileRecord; Version::ROOM], counts: [usize; Level::COUNT]) -> Surveyed
    ensures { (result ≡ survey_of files counts) × (tells_well result ≡ well_levels files counts) }
{
    let n = counted(counts);
    if Version::ROOM < n {
        return nothing_seen();
    }
    let mut column = [0u64; Version::ROOM];
    let mut sums = [0u64; Level::COUNT];
    let mut to = 0;
    for (level, count) in counts.iter().enumerate() {
        let from = to;
        to += *count;
        let mut bytes: u64 = 0;
        for i in from..to {
            let f = files[i];
            if !records::is_well_formed(f) {
                return nothing_seen();
            }
            if from < i && !may_follow(level, files[i - 1], f) {
                return nothing_seen();
            }
            column[i] = f.number.0;
            bytes += f.size;
        }
        sums[level] = bytes;
    }
    if !files[n..].iter().all(|f| records::is_blank(*f)) {
        return nothing_seen();
    }
    Surveyed {
        numbers: column,
        bytes: sums,
        total: n,
        arranged: true,
    }
}

// Whether surveyed levels are well-formed: arranged, and no number stands twice. Internal. Requires: the survey has no more files than the room.
pub fn are_well_formed(v: Surveyed) -> bool
    requires { v.total ≤ max_files }
    ensures { result ≡ tells_well v }
{
    if !v.arranged {
        return false;
    }
    let numbers = v.numbers;
    let n = v.total;
    sorting::all_distinct(&numbers[0..n])
}
