// Lists of one level by value: a level of a store, whether a list is well-formed, its bytes and its range.
#![tactic(auto)]

ghost use Rattle.std.specs.Prelude.{◌≡◌, true, ◌≤◌};
ghost use Rattle.std.proofs.Math.Seq.{slice};
ghost use Rattle.lemmas.specs.Lists.{all};
ghost use Rattle.model.specs.File.{full, max_files};
ghost use Rattle.model.specs.Calls as calls;
ghost use Rattle.answers.specs.Outcome.{answer_of};
ghost use Rattle.records.specs.Record.{sound_record};
ghost use Rattle.records.specs.Run.{run};
ghost use Rattle.store.specs.Store.{on_store};
ghost use Rattle.level_list.specs.List.{list_of, well_list, on_list, ranged, level_files, listed};

use answers::Refusal;
use records::{Ends, FileRecord, Level, Version};
use store::Store;

// The files of one level, with blank records past them.
// An array with a count beside it, as no heap is used.
#[derive(Clone, Copy)]
pub struct FileList {
    pub files: [FileRecord; Version::ROOM],
    pub count: usize,
}

// The records of a run as a list. Internal. Requires: the run is within the room, and its records are sound.
pub fn list_of(files: [FileRecord; Version::ROOM], from: usize, to: usize) -> FileList
    requires { (from ≤ to) × (to ≤ max_files) × (all sound_record (slice from to files) ≡ true) }
    ensures { result ≡ list_of (run from to files) }
{
    let mut out = records::blanks();
    let n = to - from;
    out[..n].copy_from_slice(&files[from..to]);
    FileList {
        files: out,
        count: n,
    }
}

// The files of a level of a store.
pub fn level_files(s: Store, level: usize) -> Result<FileList, Refusal>
    ensures { result ≡ listed (on_store s (λ t. level_files t level)) }
{
    if !store::is_well_formed(s) {
        return Err(Refusal::Form);
    }
    if Level::COUNT <= level {
        return Err(Refusal::Level);
    }
    let from = levels::start_of(s.counts, level);
    let to = from + s.counts[level];
    Ok(list_of(s.files, from, to))
}

// Whether a list is a well-formed level. All levels above 0 have the same order, so the list is tested as level 0 or level 1 of seven with the others empty.
pub fn is_well_formed(level: usize, l: FileList) -> bool
    ensures { result ≡ well_list level l }
{
    let mut counts = [0usize; Level::COUNT];
    if level == 0 {
        counts[0] = l.count;
    } else {
        counts[1] = l.count;
    }
    let files = l.files;
    levels::are_well_formed(levels::survey(files, counts))
}

// The bytes of a list of one level: the sum of its files' sizes.
pub fn total_size(level: usize, l: FileList) -> Result<u64, Refusal>
    ensures { answer_of result ≡ on_list level l (calls.total_size full level) }
{
    if Level::COUNT <= level {
        return Err(Refusal::Level);
    }
    if !is_well_formed(level, l) {
        return Err(Refusal::Form);
    }
    Ok(records::total_size(l.files, 0, l.count))
}

// The smallest and the largest key of a list of one level, none for no files.
pub fn get_range(level: usize, l: FileList) -> Result<Option<Ends>, Refusal>
    ensures { result ≡ ranged (on_list level l (calls.get_range full level)) }
{
    if Level::COUNT <= level {
        return Err(Refusal::Level);
    }
    if !is_well_formed(level, l) {
        return Err(Refusal::Form);
    }
    let none = l.count < 1;
    if none {
        return Ok(None);
    }
    Ok(Some(records::get_range(l.files, 0, l.count)))
}
