// Lookups in a list of one level that the caller lends: the files that may hold a key, found by the search of `ask_find`.
#![tactic(auto)]

ghost use Rattle.std.specs.Prelude.{◌≡◌, cond, [], ◌∷◌, map, ◌<◌, ◌≤◌, ltb, length, take};
ghost use Rattle.lemmas.specs.Lists.{sort, keep};
ghost use Rattle.lemmas.specs.Slices.{put};
ghost use Rattle.model.specs.Answer.{lent};
ghost use Rattle.model.specs.Key.{user_before, user};
ghost use Rattle.model.specs.File.{full, numbers, max_files};
ghost use Rattle.model.specs.Question.{passed, holds, lookup, candidate};
ghost use Rattle.model.specs.Calls as calls;
ghost use Rattle.answers.specs.Outcome.{answer_of, filling};
ghost use Rattle.keys.specs.Key.{key_of, user_of};
ghost use Rattle.records.specs.Record.{file_of};
ghost use Rattle.records.specs.Run.{run};
ghost use Rattle.level_list.specs.List.{on_list};
ghost use Rattle.ask_find.specs.Finding.{on_lent, halved, Deep};
ghost use Rattle.ask_lookup.specs.Lookup.{candidate_of, flip, column_of, fitting};

use answers::Refusal;
use keys::{FileNumber, Key, UserKey, Word};
use level_list::FileList;
use records::{FileRecord, Level, Version};

// A list of numbers, zeros past them.
// An array with a count beside it, as no heap is used.
#[derive(Clone, Copy)]
pub struct Column {
    pub numbers: [u64; Version::ROOM],
    pub count: usize,
}

// Whether a user key is between a file's smallest and largest user keys, both included. Internal.
pub fn is_held(f: FileRecord, u: UserKey) -> bool
    ensures { result ≡ holds (user_of u) (file_of f) }
{
    if keys::user_is_before(u, f.smallest) {
        return false;
    }
    !keys::user_is_after(u, f.largest)
}

// The numbers of the first n files that hold a user key, each as its distance from the largest u64. Requires: n is within the room.
fn holding(files: [FileRecord; Version::ROOM], n: usize, u: UserKey) -> Column
    requires { n ≤ max_files }
    ensures { result ≡ column_of (map flip (numbers (keep (holds (user_of u)) (run 0 n files)))) }
{
    let mut out = [0u64; Version::ROOM];
    let mut count: usize = 0;
    for f in &files[..n] {
        if is_held(*f, u) {
            out[count] = Word::LARGEST - f.number.0;
            count += 1;
        }
    }
    Column {
        numbers: out,
        count,
    }
}

// Writes numbers to the front of lent output in rising order. Internal. Requires: there are no more numbers than a version has files, and the output has room for
// them.
pub fn lay_rising(numbers: &[u64], out: &mut [u64])
    requires { (length numbers.now ≤ max_files) × (length numbers.now ≤ length out.old) }
    ensures { out.new ≡ put out.old 0 (sort ltb numbers.now) }
{
    let places = sorting::by_number(numbers);
    for (j, p) in places[..numbers.len()].iter().enumerate() {
        out[j] = numbers[*p];
    }
}

// Replaces each of the first n numbers of lent output by its distance from the largest u64. Requires: n is within the output.
fn flip_front(out: &mut [u64], n: usize)
    requires { n ≤ length out.old }
    ensures { out.new ≡ put out.old 0 (map flip (take n out.old)) }
{
    for x in out[..n].iter_mut() {
        *x = Word::LARGEST - *x;
    }
}

// Writes the numbers of the first n files that hold the key's user key to lent output, greatest first. Requires: n is within the room.
fn look_up_first(
    files: [FileRecord; Version::ROOM],
    n: usize,
    k: Key,
    out: &mut [u64],
) -> Result<usize, Refusal>
    requires { n ≤ max_files }
    ensures { (answer_of result ≡ filling (fitting (length out.old) (lookup 0 (run 0 n files) (key_of k)))) × (out.new ≡ lent (fitting (length out.old) (lookup 0 (run 0 n files) (key_of k))) out.old) }
{
    let c = holding(files, n, keys::user_key(k));
    let count = c.count;
    if out.len() < count {
        return Err(Refusal::Output);
    }
    lay_rising(&c.numbers[0..count], out);
    flip_front(out, count);
    Ok(count)
}

// Whether a file's smallest user key is above the key's.
fn begins_after(f: FileRecord, k: Key) -> bool
    ensures { result ≡ user_before (user (key_of k)) (user (file_of f).smallest) }
{
    let u = keys::user_key(k);
    keys::user_is_before(u, f.smallest)
}

// Writes the number of the file at `at` to lent output, if its smallest user key is not above the key's. Requires: n is within the room, and `at` is the number of
// files that end before the key.
fn look_up_deeper(
    files: [FileRecord; Version::ROOM],
    n: usize,
    k: Key,
    at: usize,
    out: &mut [u64],
) -> Result<usize, Refusal>
    requires { (n ≤ max_files) × (at ≡ passed (key_of k) (run 0 n files)) }
    ensures { (answer_of result ≡ filling (fitting (length out.old) (candidate (key_of k) (run 0 n files)))) × (out.new ≡ lent (fitting (length out.old) (candidate (key_of k) (run 0 n files))) out.old) }
{
    if n <= at {
        return Ok(0);
    }
    let f = files[at];
    if begins_after(f, k) {
        return Ok(0);
    }
    if out.len() < 1 {
        return Err(Refusal::Output);
    }
    out[0] = f.number.0;
    Ok(1)
}

// Writes the numbers of the files of a list by value that may hold the key to lent output. Requires: `at` is where the search by halves ended, if the list is within
// the room.
fn look_up_list(
    level: usize,
    l: FileList,
    k: Key,
    at: usize,
    out: &mut [u64],
) -> Result<usize, Refusal>
    requires { l.count ≤ max_files → at ≡ halved (key_of k) (take l.count l.files) }
    ensures { (answer_of result ≡ filling (on_list level l (λ fs. calls.look_up full level fs (key_of k) (length out.old)))) × (out.new ≡ lent (on_list level l (λ fs. calls.look_up full level fs (key_of k) (length out.old))) out.old) }
{
    if Level::COUNT <= level {
        return Err(Refusal::Level);
    }
    if !level_list::is_well_formed(level, l) {
        return Err(Refusal::Form);
    }
    if !keys::is_good(k) {
        return Err(Refusal::Key);
    }
    if level == 0 {
        return look_up_first(l.files, l.count, k, out);
    }
    look_up_deeper(l.files, l.count, k, at, out)
}

// The numbers of the files of a lent list of one level that may hold the key. Above level 0 it is `find_file`'s file, if its smallest user key is not above. Level 0
// gives every file that holds the user key, greatest number first. Past the answer the output stays, and a refusal writes nothing.
pub fn look_up(
    level: usize,
    files: &[FileRecord],
    k: Key,
    out: &mut [u64],
) -> Result<usize, Refusal>
    ensures { (answer_of result ≡ filling (on_lent level files.now (λ fs. calls.look_up full level fs (key_of k) (length out.old)))) × (out.new ≡ lent (on_lent level files.now (λ fs. calls.look_up full level fs (key_of k) (length out.old))) out.old) }
{
    let at = ask_find::search(files, k);
    let l = ask_find::gather(files);
    look_up_list(level, l, k, at, out)
}

// The file, or nobody if it begins after the key.
fn chosen(f: FileRecord, k: Key) -> Option<FileNumber>
    ensures { candidate_of result ≡ cond (user_before (user (key_of k)) (user (file_of f).smallest)) [] ((file_of f).number ∷ []) }
{
    if begins_after(f, k) {
        None
    } else {
        Some(f.number)
    }
}

// The file of a lent list that may hold the key, if there is one, in logarithmic time. Requires: the list is a well-formed level above 0.
pub fn look_up_in_level(files: &[FileRecord], k: Key) -> Option<FileNumber>
    requires { Deep (map file_of files.now) }
    ensures { candidate_of result ≡ candidate (key_of k) (map file_of files.now) }
{
    let at = ask_find::search(files, k);
    if at < files.len() {
        chosen(ask_find::nth(files, at), k)
    } else {
        None
    }
}
