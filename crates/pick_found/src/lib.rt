// Files found at a level, as a run of places with their ends and bytes, and the ranges of such files.
#![tactic(auto)]

ghost use Rattle.std.specs.Prelude.{◌≡◌, not, ◌&&◌, ◌+◌, ◌^◌, ◌<◌, ltb};
ghost use Rattle.model.specs.File.{max_files};
ghost use Rattle.model.specs.Completion as completion;
ghost use Rattle.model.specs.Key.{user, user_before};
ghost use Rattle.keys.specs.Key.{key_of, user_of};
ghost use Rattle.records.specs.Record.{file_of};
ghost use Rattle.pick_found.specs.FoundRun.{low_with, high_with, none_at, range_found, joint_found};

use keys::{Key, UserKey, Word};
use pick_range::Span;
use records::{Ends, FileRecord};

// Files of one level that stand side by side.
#[derive(Clone, Copy)]
pub struct FoundRun {
    // The place of the first.
    pub from: usize,
    // How many there are.
    pub count: usize,
    // Their smallest and largest key. Among keys equal in order, that of the first file counts.
    pub ends: Ends,
    // The sum of their sizes.
    pub bytes: u64,
}

impl FoundRun {
    // A byte limit that no files are above.
    pub const ALL: u64 = Word::LARGEST;
}

// The smallest and the largest key of n files and m files after them, by the ends of both. Among keys equal in order, that of the first file counts.
fn joined_ends(ends: Ends, n: usize, more: Ends, m: usize) -> Ends
    ensures { (key_of result.low ≡ low_with n (key_of ends.low) m (key_of more.low)) × (key_of result.high ≡ high_with n (key_of ends.high) m (key_of more.high)) }
{
    if m == 0 {
        return ends;
    }
    if n == 0 {
        return more;
    }
    let mut low = ends.low;
    let a = more.low;
    if keys::is_before(a, low) {
        low = a;
    }
    let mut high = ends.high;
    let b = more.high;
    if keys::is_before(high, b) {
        high = b;
    }
    Ends {
        low: low,
        high: high,
    }
}

// No files, at a place. Internal.
pub fn nothing_at(i: usize) -> FoundRun
    ensures { result ≡ none_at i }
{
    let ends = Ends {
        low: keys::blank_key(),
        high: keys::blank_key(),
    };
    FoundRun {
        from: i,
        count: 0,
        ends: ends,
        bytes: 0,
    }
}

// The files found and the next file. Internal. Requires: there is room for one more file, and the bytes fit 64 bits.
pub fn with_file(a: FoundRun, f: FileRecord) -> FoundRun
    requires { (a.count < max_files) × (a.bytes + f.size < 2 ^ 64) }
    ensures { (result.from ≡ a.from) × (result.count ≡ a.count + 1) × (key_of result.ends.low ≡ low_with a.count (key_of a.ends.low) 1 (key_of f.smallest)) × (key_of result.ends.high ≡ high_with a.count (key_of a.ends.high) 1 (key_of f.largest)) × (result.bytes ≡ a.bytes + f.size) }
{
    let low = f.smallest;
    let high = f.largest;
    let own = Ends {
        low: low,
        high: high,
    };
    let ends = a.ends;
    let both = joined_ends(ends, a.count, own, 1);
    FoundRun {
        from: a.from,
        count: a.count + 1,
        ends: both,
        bytes: a.bytes + f.size,
    }
}

// Whether the next file is taken: the bytes so far are not above the limit, and it does not begin after the range. Internal.
pub fn is_taken(bytes: u64, most: u64, stop: UserKey, f: FileRecord) -> bool
    ensures { result ≡ not (ltb most bytes) && not (user_before (user_of stop) (user (key_of f.smallest))) }
{
    if most < bytes {
        return false;
    }
    let low = f.smallest;
    !keys::user_is_before(stop, low)
}

// Whether a file's smallest key follows a key with the same user key. Internal.
pub fn follows(high: Key, f: FileRecord) -> bool
    ensures { result ≡ completion.follows (key_of high) (file_of f) }
{
    let low = f.smallest;
    if keys::user_precedes(high, low) {
        return false;
    }
    keys::is_before(high, low)
}

// The range of files found. Internal.
pub fn range_of(a: FoundRun) -> Span
    ensures { result ≡ range_found a }
{
    let ends = a.ends;
    let smallest = ends.low;
    let largest = ends.high;
    pick_range::between(smallest, largest)
}

// The joint range of files found at two levels. Internal.
pub fn joint_range(a: FoundRun, b: FoundRun) -> Span
    ensures { result ≡ joint_found a b }
{
    let first = a.ends;
    let second = b.ends;
    let ends = joined_ends(first, a.count, second, b.count);
    let low = ends.low;
    let high = ends.high;
    pick_range::between(low, high)
}
