// Ranges of user keys: which files of a run overlap one, how many bytes they have, and the least widening at level 0.
#![tactic(auto)]

ghost use Rattle.std.specs.Prelude.{◌≡◌, cond, ◌≤◌, min};
ghost use Rattle.lemmas.specs.Lists.{any, keep};
ghost use Rattle.model.specs.File.{total, max_files, max_word};
ghost use Rattle.model.specs.Range as model;
ghost use Rattle.model.specs.Key.{user};
ghost use Rattle.keys.specs.Key.{key_of, user_of};
ghost use Rattle.records.specs.Record.{file_of};
ghost use Rattle.records.specs.Run.{run};
ghost use Rattle.pick_range.specs.Ranges.{span_of, span_record};

use keys::{Key, UserKey};
use records::{FileRecord, Version};

// A range of user keys. Start after stop is allowed.
#[derive(Clone, Copy)]
pub struct Span {
    pub start: UserKey,
    pub stop: UserKey,
}

// The range of two internal keys. Internal.
pub fn between(a: Key, b: Key) -> Span
    ensures { result ≡ span_record (model.between (key_of a) (key_of b)) }
{
    let start = keys::user_key(a);
    let stop = keys::user_key(b);
    Span {
        start: start,
        stop: stop,
    }
}

// Whether a file overlaps a range: its largest user key is not below the start, and its smallest not above the end. Internal.
pub fn overlaps(span: Span, f: FileRecord) -> bool
    ensures { result ≡ model.overlaps (span_of span) (file_of f) }
{
    let start = span.start;
    let high = f.largest;
    if keys::user_is_after(start, high) {
        return false;
    }
    let stop = span.stop;
    let low = f.smallest;
    !keys::user_is_before(stop, low)
}

// Whether some file of a run overlaps a range. Internal.
pub fn has_overlap(files: [FileRecord; Version::ROOM], from: usize, to: usize, span: Span) -> bool
    ensures { result ≡ any (model.overlaps (span_of span)) (run from to files) }
{
    records::part(&files, from, to)
        .iter()
        .any(|f| overlaps(span, *f))
}

// The bytes of the files of a run that overlap a range, or the largest u64 if they are more. Internal.
pub fn overlapping_bytes(
    files: [FileRecord; Version::ROOM],
    from: usize,
    to: usize,
    span: Span,
) -> u64
    ensures { result ≡ min (total (keep (model.overlaps (span_of span)) (run from to files))) max_word }
{
    records::part(&files, from, to)
        .iter()
        .filter(|f| overlaps(span, **f))
        .fold(0u64, |s, f| s.saturating_add(f.size))
}

// Whether a file overlaps a range and does not lie inside.
fn sticks_out(span: Span, f: FileRecord) -> bool
    ensures { result ≡ model.sticks_out (span_of span) (file_of f) }
{
    if !overlaps(span, f) {
        return false;
    }
    let start = span.start;
    let low = f.smallest;
    if keys::user_is_after(start, low) {
        return true;
    }
    let stop = span.stop;
    let high = f.largest;
    keys::user_is_before(stop, high)
}

// The user key of k if `taken`, else u.
fn user_if(taken: bool, k: Key, u: UserKey) -> UserKey
    ensures { user_of result ≡ cond taken (user (key_of k)) (user_of u) }
{
    if taken {
        return keys::user_key(k);
    }
    u
}

// The least range that contains the range and the file: the earlier start and the later end.
fn stretch(span: Span, f: FileRecord) -> Span
    ensures { span_of result ≡ model.stretch (span_of span) (file_of f) }
{
    let a = span.start;
    let low = f.smallest;
    let before = keys::user_is_after(a, low);
    let start = user_if(before, low, a);
    let b = span.stop;
    let high = f.largest;
    let after = keys::user_is_before(b, high);
    let stop = user_if(after, high, b);
    Span {
        start: start,
        stop: stop,
    }
}

// The least widening of a range such that every file of the run that overlaps it lies inside. It passes over the files and stretches the range over each that sticks
// out, until none does. Internal. Requires: the run is within the room.
pub fn widened(files: [FileRecord; Version::ROOM], from: usize, end: usize, span: Span) -> Span
    requires { end ≤ max_files }
    ensures { span_of result ≡ model.widen (run from end files) (span_of span) }
{
    let mut wide = span;
    let mut settled = false;
    // How many passes there are is found in the body.
    while !settled {
        settled = true;
        for f in records::part(&files, from, end) {
            if sticks_out(wide, *f) {
                wide = stretch(wide, *f);
                settled = false;
            }
        }
    }
    wide
}
