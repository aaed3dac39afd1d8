// Finds files in a list of one level that the caller lends: a thin search by halves over the slice, above forms by value and on numbers.
#![tactic(auto)]

ghost use Rattle.std.specs.Prelude.{◌≡◌, map, ◌<◌, ◌≤◌, length, get_or, take};
ghost use Rattle.model.specs.File.{full, max_files};
ghost use Rattle.model.specs.Question.{passed};
ghost use Rattle.model.specs.Calls as calls;
ghost use Rattle.keys.specs.Key.{key_of};
ghost use Rattle.records.specs.Record.{file_of, past};
ghost use Rattle.records.specs.Run.{run};
ghost use Rattle.level_list.specs.List.{on_list};
ghost use Rattle.ask_find.specs.Finding.{on_lent, found_of, gathered, narrow_of, probe_of, halved, Deep};

use answers::Refusal;
use bisect::Window;
use keys::Key;
use level_list::FileList;
use records::{FileRecord, Level, Version};

// The record at a place of a lent list. Internal. Requires: the list has the place.
pub fn nth(files: &[FileRecord], i: usize) -> FileRecord
    requires { i < length files.now }
    ensures { result ≡ get_or files.now i past }
{
    files[i]
}

// The half of the places that is left after the middle file r is seen: past the middle if r ends before the key. Requires: a place is left.
fn narrow(s: Window, r: FileRecord, k: Key) -> Window
    requires { s.lo < s.hi }
    ensures { result ≡ narrow_of s (file_of r) (key_of k) }
{
    let ends_before = keys::is_before(r.largest, k);
    bisect::half(s, ends_before)
}

// One step of the search on a lent list. Requires: a place is left, and the window is within the list.
fn probe(files: &[FileRecord], k: Key, s: Window) -> Window
    requires { (s.lo < s.hi) × (s.hi ≤ length files.now) }
    ensures { result ≡ probe_of files.now (key_of k) s }
{
    let r = nth(files, bisect::middle(s));
    narrow(s, r, k)
}

// The search by halves on any lent list. Internal.
pub fn search(files: &[FileRecord], k: Key) -> usize
    ensures { result ≡ halved (key_of k) files.now }
{
    let mut s = Window {
        lo: 0,
        hi: files.len(),
    };
    // A search by halves: both ends of the window move.
    while s.lo < s.hi {
        s = probe(files, k, s);
    }
    s.lo
}

// The number of files of a lent list that end before the key, in logarithmic time. Requires: the list is a well-formed level above 0.
pub fn find_in_level(files: &[FileRecord], k: Key) -> usize
    requires { Deep (map file_of files.now) }
    ensures { result ≡ passed (key_of k) (map file_of files.now) }
{
    search(files, k)
}

// The lent records by value, as many as there is room for, and how many were lent. Internal.
pub fn gather(files: &[FileRecord]) -> FileList
    ensures { result ≡ gathered files.now }
{
    let n = files.len();
    let stop = records::within(n);
    let mut out = records::blanks();
    out[..stop].copy_from_slice(&files[..stop]);
    FileList {
        files: out,
        count: n,
    }
}

// The number of files at the front of a run that end before the key, file by file. Requires: the run is within the room.
fn scan(files: [FileRecord; Version::ROOM], n: usize, k: Key) -> usize
    requires { n ≤ max_files }
    ensures { result ≡ passed (key_of k) (run 0 n files) }
{
    files[..n]
        .iter()
        .take_while(|f| keys::is_before(f.largest, k))
        .count()
}

// The index of the first file of a list by value whose largest is not before the key, if there is one. Requires: `at` is where the search by halves ended, if the list
// is within the room.
fn find_in_list(level: usize, l: FileList, k: Key, at: usize) -> Result<Option<usize>, Refusal>
    requires { l.count ≤ max_files → at ≡ halved (key_of k) (take l.count l.files) }
    ensures { result ≡ found_of (on_list level l (λ fs. calls.find_file_call full level fs (key_of k))) }
{
    if Level::COUNT <= level {
        return Err(Refusal::Level);
    }
    if !level_list::is_well_formed(level, l) {
        return Err(Refusal::Form);
    }
    if !keys::is_good(k) {
        return Err(Refusal::Key);
    }
    let i = if level == 0 {
        scan(l.files, l.count, k)
    } else {
        at
    };
    Ok((i < l.count).then_some(i))
}

// The index of the first file of a lent list of one level whose largest is not before the key, if there is one.
pub fn find_file(level: usize, files: &[FileRecord], k: Key) -> Result<Option<usize>, Refusal>
    ensures { result ≡ found_of (on_lent level files.now (λ fs. calls.find_file_call full level fs (key_of k))) }
{
    let at = search(files, k);
    let l = gather(files);
    find_in_list(level, l, k, at)
}
