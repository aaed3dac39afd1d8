// Writes snapshots into lent bytes: counters, pointers by rising level, then each level's files by rising number.
#![tactic(auto)]

ghost use Rattle.std.specs.Prelude.{◌≡◌, true, map, ◌+◌, ◌≤◌, length};
ghost use Rattle.std.proofs.Math.Seq.{slice};
ghost use Rattle.lemmas.specs.Lists.{join, all};
ghost use Rattle.lemmas.specs.Slices.{put};
ghost use Rattle.model.specs.File.{max_files};
ghost use Rattle.model.specs.Answer.{lent};
ghost use Rattle.model.specs.Snapshot.{write_file, write_entry, write_level, entries, encode};
ghost use Rattle.records.specs.Record.{file_of, well_record};
ghost use Rattle.levels.specs.Levels.{levels_of, well_levels};
ghost use Rattle.store.specs.Store.{pointer_of, well_pointer, state_of, well_store};
ghost use Rattle.answers.specs.Outcome.{answer_of, filling};
ghost use Rattle.snapshot_write.specs.Writing.{snapshot_of};

use answers::Refusal;
use records::{FileRecord, Level, Version};
use snapshot_parts::Snapshot;
use store::{Pointer, Store};

// Writes the sections of the levels, files by rising number. Returns the place after them. Requires: the levels are well-formed, and the output has these places.
fn put_levels(
    out: &mut [u8],
    at: usize,
    files: [FileRecord; Version::ROOM],
    counts: [usize; Level::COUNT],
) -> usize
    requires { (well_levels files counts ≡ true) × (at + length (join (map write_level (levels_of files counts))) ≤ length out.old) }
    ensures { (result ≡ at + length (join (map write_level (levels_of files counts)))) × (out.new ≡ put out.old at (join (map write_level (levels_of files counts)))) }
{
    let numbers = records::numbers_of(files, 0, Version::ROOM);
    let mut next = at;
    let mut from: usize = 0;
    for &n in &counts {
        let to = from + n;
        let places = sorting::by_number(&numbers[from..to]);
        snapshot_parts::put_number(out, next, Snapshot::COUNT, n as u64);
        next = next + Snapshot::COUNT;
        for p in &places[..n] {
            next = snapshot_parts::put_file(out, next, files[from + p]);
        }
        from = to;
    }
    next
}

// The number of bytes of the first n files. Requires: n is within the room, and the records are well-formed.
fn files_length(files: [FileRecord; Version::ROOM], n: usize) -> usize
    requires { (n ≤ max_files) × (all well_record (slice 0 n files) ≡ true) }
    ensures { result ≡ length (join (map write_file (map file_of (slice 0 n files)))) }
{
    let mut sum: usize = 0;
    for f in &files[..n] {
        sum += Snapshot::FILE + f.smallest.len + f.largest.len;
    }
    sum
}

// The number of bytes of the pointers that are set. Requires: the pointers are well-formed.
fn pointers_length(pointers: [Pointer; Level::COUNT]) -> usize
    requires { all well_pointer pointers ≡ true }
    ensures { result ≡ length (join (map write_entry (entries 0 (map pointer_of pointers)))) }
{
    let mut sum: usize = 0;
    for p in &pointers {
        if p.set {
            sum += Snapshot::POINTER + p.key.len;
        }
    }
    sum
}

// The number of bytes of a store's snapshot. Requires: the store is well-formed.
pub fn snapshot_length(s: Store) -> usize
    requires { well_store s ≡ true }
    ensures { result ≡ length (encode (state_of s)) }
{
    let n = levels::counted(s.counts);
    Snapshot::FRESH + pointers_length(s.pointers) + files_length(s.files, n)
}

// Writes a store's snapshot at the start of the lent output, and returns how many bytes it has. Past it the output stays, and a refusal writes nothing.
pub fn write(s: Store, out: &mut [u8]) -> Result<usize, Refusal>
    ensures { (answer_of result ≡ filling (snapshot_of s (length out.old))) × (out.new ≡ lent (snapshot_of s (length out.old)) out.old) }
{
    if !store::is_well_formed(s) {
        return Err(Refusal::Form);
    }
    let n = snapshot_length(s);
    if out.len() < n {
        return Err(Refusal::Output);
    }
    let pointers_at = snapshot_parts::put_counters(out, 0, s.counters);
    let levels_at = snapshot_parts::put_pointers(out, pointers_at, s.pointers);
    put_levels(out, levels_at, s.files, s.counts);
    Ok(n)
}
