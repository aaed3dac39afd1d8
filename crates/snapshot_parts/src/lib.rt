// Writes the parts of a snapshot into lent bytes: numbers, keys, files, counters, pointers.
#![tactic(auto)]

ghost use Rattle.std.specs.Prelude.{◌≡◌, true, map, ◌+◌, ◌≤◌, length};
ghost use Rattle.lemmas.specs.Lists.{all};
ghost use Rattle.lemmas.specs.Little.{bytes};
ghost use Rattle.lemmas.specs.Slices.{put};
ghost use Rattle.model.specs.File.{key_room};
ghost use Rattle.model.specs.Snapshot.{write_key, write_file, write_entry, entries, section, same_bytes, five_of, counters_long, number_long};
ghost use Rattle.keys.specs.Key.{key_of};
ghost use Rattle.records.specs.Record.{file_of, well_record};
ghost use Rattle.counters.specs.Counters.{counters_of};
ghost use Rattle.store.specs.Store.{pointer_of, well_pointer};

use counters::Counters;
use keys::Key;
use records::{FileRecord, Level, Version};
use store::Pointer;

// The lengths of a snapshot's parts, and where they stand.
#[derive(Clone, Copy)]
pub struct Snapshot {}

impl Snapshot {
    // The bytes of a count.
    pub const COUNT: usize = 2;
    // The bytes of a number.
    pub const NUMBER: usize = 8;
    // The byte of a level, or of a key's length.
    pub const BYTE: usize = 1;
    // The number of counters.
    pub const FIVE: usize = 5;
    // The place of each counter. They begin a snapshot, after their count.
    pub const NEXT: usize = Snapshot::COUNT;

    pub const MANIFEST: usize = Snapshot::NEXT + Snapshot::NUMBER;

    pub const LAST: usize = Snapshot::MANIFEST + Snapshot::NUMBER;

    pub const LOG: usize = Snapshot::LAST + Snapshot::NUMBER;

    pub const PREVIOUS: usize = Snapshot::LOG + Snapshot::NUMBER;
    // The section of the counters.
    pub const COUNTERS: usize = Snapshot::PREVIOUS + Snapshot::NUMBER;
    // The snapshot of a fresh store: the counters, the count of pointers, the count of each level.
    pub const FRESH: usize = Snapshot::COUNTERS + Snapshot::COUNT + Level::COUNT * Snapshot::COUNT;
    // A pointer without the bytes of its key: its level and the key's length.
    pub const POINTER: usize = Snapshot::BYTE + Snapshot::BYTE;
    // The place of a file's keys: after its number and its size.
    pub const KEYS: usize = 2 * Snapshot::NUMBER;
    // A file without the bytes of its keys.
    pub const FILE: usize = Snapshot::KEYS + 2 * Snapshot::BYTE;
    // The longest snapshot.
    pub const LONGEST: usize = Snapshot::FRESH
        + Level::COUNT * (Snapshot::POINTER + Key::ROOM)
        + Version::ROOM * (Snapshot::FILE + 2 * Key::ROOM);
}

// Whether two lists of bytes are equal. Internal.
pub fn same(a: &[u8], b: &[u8]) -> bool
    ensures { result ≡ same_bytes a.now b.now }
{
    a == b
}

// Writes bytes. Returns the place after them. Internal. Requires: the output has these places.
pub fn put_bytes(out: &mut [u8], at: usize, src: &[u8]) -> usize
    requires { at + length src.now ≤ length out.old }
    ensures { (result ≡ at + length src.now) × (out.new ≡ put out.old at src.now) }
{
    let end = at + src.len();
    out[at..end].copy_from_slice(src);
    end
}

// Writes the lowest `width` bytes of a number, the lowest first. Internal. Requires: the output has these places.
pub fn put_number(out: &mut [u8], at: usize, width: usize, x: u64)
    requires { at + width ≤ length out.old }
    ensures { out.new ≡ put out.old at (bytes width x) }
{
    let mut y = x;
    for b in &mut out[at..at + width] {
        *b = (y % 256) as u8;
        y /= 256;
    }
}

// Writes a length byte, then the key. Returns the place after it. Internal. Requires: the key is within its room, and the output has these places.
pub fn put_key(out: &mut [u8], at: usize, k: Key) -> usize
    requires { (k.len ≤ key_room) × (at + length (write_key (key_of k)) ≤ length out.old) }
    ensures { (result ≡ at + length (write_key (key_of k))) × (out.new ≡ put out.old at (write_key (key_of k))) }
{
    let n = k.len;
    put_number(out, at, Snapshot::BYTE, n as u64);
    put_bytes(out, at + Snapshot::BYTE, &k.bytes[..n])
}

// Writes a file: number, size, smallest and largest key. Returns the place after it. Internal. Requires: the record is well-formed, and the output has these places.
pub fn put_file(out: &mut [u8], at: usize, f: FileRecord) -> usize
    requires { (well_record f ≡ true) × (at + length (write_file (file_of f)) ≤ length out.old) }
    ensures { (result ≡ at + length (write_file (file_of f))) × (out.new ≡ put out.old at (write_file (file_of f))) }
{
    put_number(out, at, Snapshot::NUMBER, f.number.0);
    put_number(out, at + Snapshot::NUMBER, Snapshot::NUMBER, f.size);
    let next = put_key(out, at + Snapshot::KEYS, f.smallest);
    put_key(out, next, f.largest)
}

// Writes the section of the counters. Returns the place after it. Internal. Requires: the output has these places.
pub fn put_counters(out: &mut [u8], at: usize, c: Counters) -> usize
    requires { at + counters_long ≤ length out.old }
    ensures { (result ≡ at + counters_long) × (out.new ≡ put out.old at (section (bytes number_long) (five_of (counters_of c)))) }
{
    put_number(out, at, Snapshot::COUNT, Snapshot::FIVE as u64);
    put_number(out, at + Snapshot::NEXT, Snapshot::NUMBER, c.next.0);
    put_number(out, at + Snapshot::MANIFEST, Snapshot::NUMBER, c.manifest.0);
    put_number(out, at + Snapshot::LAST, Snapshot::NUMBER, c.last.0);
    put_number(out, at + Snapshot::LOG, Snapshot::NUMBER, c.log.0);
    put_number(out, at + Snapshot::PREVIOUS, Snapshot::NUMBER, c.previous.0);
    at + Snapshot::COUNTERS
}

// The number of pointers that are set. Internal.
pub fn count_pointers(pointers: [Pointer; Level::COUNT]) -> usize
    ensures { result ≡ length (entries 0 (map pointer_of pointers)) }
{
    pointers.iter().filter(|p| p.set).count()
}

// Writes the section of the pointers, by rising level. Returns the place after it. Internal. Requires: the pointers are well-formed, and the output has these
// places.
pub fn put_pointers(out: &mut [u8], at: usize, pointers: [Pointer; Level::COUNT]) -> usize
    requires { (all well_pointer pointers ≡ true) × (at + length (section write_entry (entries 0 (map pointer_of pointers))) ≤ length out.old) }
    ensures { (result ≡ at + length (section write_entry (entries 0 (map pointer_of pointers)))) × (out.new ≡ put out.old at (section write_entry (entries 0 (map pointer_of pointers)))) }
{
    let n = count_pointers(pointers);
    put_number(out, at, Snapshot::COUNT, n as u64);
    let mut next = at + Snapshot::COUNT;
    for (level, p) in pointers.iter().enumerate() {
        if p.set {
            put_number(out, next, Snapshot::BYTE, level as u64);
            next = put_key(out, next + Snapshot::BYTE, p.key);
        }
    }
    next
}
