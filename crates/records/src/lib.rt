// File records by value, and sums and ranges over a run of places. Every function answers for every record and every place.
#![tactic(auto)]

ghost use Rattle.std.specs.Prelude.{◌≡◌, min, replicate};
ghost use Rattle.std.proofs.Math.Seq.{slice};
ghost use Rattle.lemmas.specs.Lists.{all};
ghost use Rattle.lemmas.specs.Slices.{put};
ghost use Rattle.model.specs.File.{File, seeks, total, numbers, max_files, max_word};
ghost use Rattle.keys.specs.Key.{key_of};
ghost use Rattle.records.specs.Record.{record_of, blank, vacant, well_record, blank_key, is_blank, limit_of};
ghost use Rattle.records.specs.Run.{run, ends_of};

use keys::{FileNumber, Key};

// The levels of a version.
#[derive(Clone, Copy)]
pub struct Level {}

impl Level {
    // The number of levels.
    pub const COUNT: usize = 7;
    // The last level.
    pub const LAST: usize = Level::COUNT - 1;
}

// The files of all levels.
#[derive(Clone, Copy)]
pub struct Version {}

impl Version {
    // The most files of a version.
    pub const ROOM: usize = 256;
    // Stands for every number of files above the room.
    pub const BEYOND: usize = Version::ROOM + 1;
}

// A table file: its number, its size, its smallest and largest internal key, and its allowed seeks.
#[derive(Clone, Copy)]
pub struct FileRecord {
    pub number: FileNumber,
    pub size: u64,
    pub smallest: Key,
    pub largest: Key,
    pub seeks: u64,
}

impl FileRecord {
    // A file has one allowed seek for this many bytes.
    pub const SEEK_DIVISOR: u64 = 16384;
    // The fewest allowed seeks.
    pub const LEAST_SEEKS: u64 = 100;
    // The largest size of a file.
    pub const LARGEST_SIZE: u64 = 1099511627776;
}

// The smallest and the largest key of a list of files.
#[derive(Clone, Copy)]
pub struct Ends {
    pub low: Key,
    pub high: Key,
}

// The byte limits of levels 1 to 5.
const BYTE_LIMITS: [u64; 5] = [10485760, 104857600, 1048576000, 10485760000, 104857600000];

// The blank record, which every empty place holds.
pub const BLANK: FileRecord = FileRecord {
    number: FileNumber(0),
    size: 0,
    smallest: Key {
        bytes: [0u8; Key::ROOM],
        len: 0,
    },
    largest: Key {
        bytes: [0u8; Key::ROOM],
        len: 0,
    },
    seeks: 0,
};

// The byte limit of levels 1 to 5, or 0 for any other level.
pub fn byte_limit(level: usize) -> u64
    ensures { result ≡ limit_of level }
{
    if level < 1 {
        return 0;
    }
    let i = level - 1;
    if 5 <= i {
        return 0;
    }
    BYTE_LIMITS[i]
}

// The allowed seeks of a file: its size over the divisor, rounded down, and at least 100.
pub fn allowed_seeks(size: u64) -> u64
    ensures { result ≡ seeks size }
{
    (size / FileRecord::SEEK_DIVISOR).max(FileRecord::LEAST_SEEKS)
}

// The record that is kept of a file. Bytes past its keys' ends are not read.
pub fn record(number: FileNumber, size: u64, smallest: Key, largest: Key) -> FileRecord
    ensures { result ≡ record_of (record { number = number.0; size = size; smallest = key_of smallest; largest = key_of largest }) }
{
    let low = keys::kept(smallest);
    let high = keys::kept(largest);
    FileRecord {
        number: number,
        size: size,
        smallest: low,
        largest: high,
        seeks: allowed_seeks(size),
    }
}

// The blank record. Internal.
pub fn blank_record() -> FileRecord
    ensures { result ≡ blank }
{
    BLANK
}

// The places of a version, all empty. Internal.
pub fn blanks() -> [FileRecord; Version::ROOM]
    ensures { result ≡ vacant max_files }
{
    [BLANK; Version::ROOM]
}

// Whether a record is sound and its file well-formed: keys, smallest not after largest, size.
pub fn is_well_formed(r: FileRecord) -> bool
    ensures { result ≡ well_record r }
{
    let low = r.smallest;
    let high = r.largest;
    let m = low.len;
    let n = high.len;
    if !keys::is_whole(&low.bytes, m) {
        return false;
    }
    if !keys::is_whole(&high.bytes, n) {
        return false;
    }
    if keys::precedes(&high.bytes, n, &low.bytes, m) {
        return false;
    }
    if FileRecord::LARGEST_SIZE < r.size {
        return false;
    }
    r.seeks == allowed_seeks(r.size)
}

// Whether a key's record is the blank one: no bytes, and zeros in all its room.
fn is_blank_key(k: Key) -> bool
    ensures { result ≡ blank_key k }
{
    if k.len == 0 {
        keys::holds_zeros(k)
    } else {
        false
    }
}

// Whether a record is the blank one. Internal.
pub fn is_blank(r: FileRecord) -> bool
    ensures { result ≡ is_blank r }
{
    let n = r.number;
    if n.0 != 0 {
        return false;
    }
    if r.size != 0 {
        return false;
    }
    if r.seeks != 0 {
        return false;
    }
    let low = r.smallest;
    if !is_blank_key(low) {
        return false;
    }
    let high = r.largest;
    is_blank_key(high)
}

// A place, or the end of the room if it is beyond. Internal.
pub fn within(to: usize) -> usize
    ensures { result ≡ min to max_files }
{
    to.min(Version::ROOM)
}

// The records in a run of places, up to the last of them. Internal.
pub fn part(files: &[FileRecord], from: usize, to: usize) -> &[FileRecord]
    ensures { result.now ≡ slice from to files.now }
{
    let end = to.min(files.len());
    &files[from.min(end)..end]
}

// The sum of the sizes in a run, or the largest u64 if the sum is above it. Internal.
pub fn total_size(files: [FileRecord; Version::ROOM], from: usize, to: usize) -> u64
    ensures { result ≡ min (total (run from to files)) max_word }
{
    part(&files, from, to)
        .iter()
        .fold(0, |s, f| s.saturating_add(f.size))
}

// The file numbers in a run, zeros past them. Internal.
pub fn numbers_of(
    files: [FileRecord; Version::ROOM],
    from: usize,
    to: usize,
) -> [u64; Version::ROOM]
    ensures { result ≡ put (replicate max_files 0) 0 (numbers (run from to files)) }
{
    let mut out = [0u64; Version::ROOM];
    for (n, f) in part(&files, from, to).iter().enumerate() {
        out[n] = f.number.0;
    }
    out
}

// The smallest and the largest key in a run. Among keys equal in order, that of the first file counts. Internal.
pub fn get_range(files: [FileRecord; Version::ROOM], from: usize, to: usize) -> Ends
    ensures { result ≡ ends_of (run from to files) }
{
    let Some((first, others)) = part(&files, from, to).split_first() else {
        return Ends {
            low: keys::blank_key(),
            high: keys::blank_key(),
        };
    };
    let mut low = first.smallest;
    let mut high = first.largest;
    for f in others {
        if keys::is_before(f.smallest, low) {
            low = f.smallest;
        }
        if keys::is_before(high, f.largest) {
            high = f.largest;
        }
    }
    Ends {
        low: keys::kept(low),
        high: keys::kept(high),
    }
}
