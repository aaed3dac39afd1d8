// The store by value: files level by level, pointers and counters. Checks whether a store is well-formed.
#![tactic(auto)]

ghost use Rattle.std.specs.Prelude.{◌≡◌, ◌&&◌, ◌≤◌, ◌<◌, get_or};
ghost use Rattle.lemmas.specs.Lists.{all};
ghost use Rattle.model.specs.File.{full, fresh, good_counters, max_files};
ghost use Rattle.counters.specs.Counters.{counters_of};
ghost use Rattle.levels.specs.Levels.{tells_well};
ghost use Rattle.records.specs.Record.{past};
ghost use Rattle.store.specs.Store.{store_of, well_pointer, well_store, look_of, numbered_of, StoreShape};

use counters::Counters;
use keys::{FileNumber, Key, SequenceNumber};
use levels::Surveyed;
use records::{FileRecord, Level, Version};

// The key after which a level's next size pick goes on. If it is not set, the pick starts at the first file.
// A flag beside a key: program `faults` passes a key that is not set, which an Option can't hold.
#[derive(Clone, Copy)]
pub struct Pointer {
    pub set: bool,
    pub key: Key,
}

// A store.
// Arrays with counts beside them, as no heap is used: a store has one size and lies in place.
#[derive(Clone, Copy)]
pub struct Store {
    // The files, level after level, with blank records past them.
    pub files: [FileRecord; Version::ROOM],
    // The number of files of each level.
    pub counts: [usize; Level::COUNT],
    // One pointer for each level.
    pub pointers: [Pointer; Level::COUNT],
    pub counters: Counters,
}

// The result of one look at a store.
#[derive(Clone, Copy)]
pub struct Looked {
    // The bytes of each level, or zeros if the levels are not arranged as document 01 asks.
    pub bytes: [u64; Level::COUNT],
    // Whether the store is well-formed.
    pub well: bool,
}

// What one look at a store tells of its file numbers.
// An array with a count beside it, as no heap is used.
#[derive(Clone, Copy)]
pub struct Numbered {
    // The file numbers, zeros past them; all zeros if the levels are not arranged.
    pub numbers: [u64; Version::ROOM],
    // The number of files.
    pub total: usize,
    // Whether the store is well-formed.
    pub well: bool,
}

// A store with no files or pointers, next file number 2, other counters 0.
pub fn fresh_store() -> Store
    ensures { result ≡ store_of (fresh full) }
{
    let key = keys::blank_key();
    let files = records::blanks();
    Store {
        files: files,
        counts: [0usize; Level::COUNT],
        pointers: [Pointer {
            set: false,
            key: key,
        }; Level::COUNT],
        counters: Counters {
            next: FileNumber(2),
            manifest: FileNumber(0),
            last: SequenceNumber(0),
            log: FileNumber(0),
            previous: FileNumber(0),
        },
    }
}

// Whether a pointer is well-formed: its record is sound, and its key is good if it is set, blank if not.
fn is_well_formed_pointer(p: Pointer) -> bool
    ensures { result ≡ well_pointer p }
{
    let k = p.key;
    if !keys::is_sound(k) {
        return false;
    }
    if p.set { keys::is_good(k) } else { k.len == 0 }
}

// Whether a store is well-formed, by its counters, its pointers and the survey of its levels. Requires: the survey has no more files than the room.
fn passes(five: Counters, pointers: [Pointer; Level::COUNT], v: Surveyed) -> bool
    requires { v.total ≤ max_files }
    ensures { result ≡ good_counters (counters_of five) && all well_pointer pointers && tells_well v }
{
    if !counters::are_bounded(five) {
        return false;
    }
    if !pointers.iter().all(|p| is_well_formed_pointer(*p)) {
        return false;
    }
    levels::are_well_formed(v)
}

// Whether a store is well-formed.
pub fn is_well_formed(s: Store) -> bool
    ensures { result ≡ well_store s }
{
    let files = s.files;
    let counts = s.counts;
    let v = levels::survey(files, counts);
    let five = s.counters;
    let pointers = s.pointers;
    passes(five, pointers, v)
}

// One look at a store: whether it is well-formed, and the bytes of each level. Internal.
pub fn look(s: Store) -> Looked
    ensures { result ≡ look_of s }
{
    let files = s.files;
    let counts = s.counts;
    let v = levels::survey(files, counts);
    let five = s.counters;
    let pointers = s.pointers;
    let bytes = v.bytes;
    Looked {
        bytes: bytes,
        well: passes(five, pointers, v),
    }
}

// One look at a store: whether it is well-formed, and its file numbers. Internal.
pub fn look_numbers(s: Store) -> Numbered
    ensures { result ≡ numbered_of s }
{
    let files = s.files;
    let counts = s.counts;
    let v = levels::survey(files, counts);
    let five = s.counters;
    let pointers = s.pointers;
    let numbers = v.numbers;
    Numbered {
        numbers: numbers,
        total: v.total,
        well: passes(five, pointers, v),
    }
}

// The record at a place of a lent store. Internal. Requires: the place is within the room.
pub fn file_at(s: &Store, i: usize) -> FileRecord
    requires { i < max_files }
    ensures { result ≡ get_or s.now.files i past }
{
    s.files[i]
}

// Tells the shape of a lent store: of a struct behind a reference the prover knows nothing before an element of one of its arrays is read. Internal.
pub fn shaped(s: &Store)
    ensures { StoreShape s.now }
{
    let _set = s.pointers[0].set;
}
