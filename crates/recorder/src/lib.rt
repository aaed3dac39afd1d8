// The public calls of the controller's side: the bytes that it adds to a record as it goes.
#![tactic(auto)]

ghost use Rattle.std.specs.Prelude.{◌≡◌, true, ◌+◌, ◌≤◌, length};
ghost use Rattle.lemmas.specs.Slices.{put};
ghost use Rattle.model.specs.Answer.{lent};
ghost use Rattle.answers.specs.Outcome.{answer_of, filling};
ghost use Rattle.model_replay.specs.Recording.{pointer_form, deletion_form, addition_form, log_form};
ghost use Rattle.edit.specs.Edit.{pointing_of, deletion_of, addition_of, log_of};
ghost use Rattle.recorder.specs.Recorder as recorder;
ghost use Rattle.recorder.specs.Recorder.{roomed, pointers_bytes, deletions_bytes, additions_bytes, edit_bytes, edit_entry, size_entry, range_entry, new_entry, count_entry};

use answers::Refusal;
use edit::{Addition, Deletion, Edit, Pointing};
use keys::{FileNumber, Key, Word};
use pick_answer::Picked;
use replay_form::Record;
use replay_given::Given;
use snapshot_parts::Snapshot;

// The counter calls with a number.
#[derive(Clone, Copy, PartialEq, Eq)]
pub enum Counter {
    Reuse,
    Mark,
    LastSequence,
    Manifest,
    PreviousLog,
}

// The lengths of entries.
#[derive(Clone, Copy)]
pub struct Entry {}

impl Entry {
    // The longest manual pick.
    pub const RANGE: usize = Snapshot::BYTE + Snapshot::NUMBER + 2 * (Snapshot::BYTE + Key::ROOM);
    // The longest entry: a manual pick with the longest answer. No edit is as long.
    pub const LONGEST: usize = Entry::RANGE + Given::LONGEST;
}

// Copies what was laid to the lent output: 13 where that is shorter.
fn hand(out: &mut [u8], laid: &[u8]) -> Result<usize, Refusal>
    ensures { (answer_of result ≡ filling (roomed laid.now (length out.old))) × (out.new ≡ lent (roomed laid.now (length out.old)) out.old) }
{
    let n = laid.len();
    if out.len() < n {
        return Err(Refusal::Output);
    }
    snapshot_parts::put_bytes(out, 0, laid);
    Ok(n)
}

// The head of a record: the maximum file size of its picks, how many calls of the whole record stand before it, and how many it has.
pub fn head(maximum: u64, place: u64, calls: u64, out: &mut [u8]) -> Result<usize, Refusal>
    ensures { (answer_of result ≡ filling (recorder.head maximum place calls (length out.old))) × (out.new ≡ lent (recorder.head maximum place calls (length out.old)) out.old) }
{
    if Record::MOST < calls {
        return Err(Refusal::Counter);
    }
    if Word::LARGEST - place < calls {
        return Err(Refusal::Counter);
    }
    if out.len() < Record::FIRST {
        return Err(Refusal::Output);
    }
    snapshot_parts::put_number(out, 0, Snapshot::COUNT, Record::SETTINGS);
    snapshot_parts::put_number(out, Record::MAXIMUM, Snapshot::NUMBER, maximum);
    snapshot_parts::put_number(out, Record::PLACE, Snapshot::NUMBER, place);
    snapshot_parts::put_number(out, Record::COUNT, Record::CALLS, calls);
    Ok(Record::FIRST)
}

// ---- an edit

// Lays a pointer. Returns the place after it. Requires: the output has these places.
fn put_pointing(out: &mut [u8], at: usize, p: Pointing) -> usize
    requires { at + length (pointer_form.write (pointing_of p)) ≤ length out.old }
    ensures { (result ≡ at + length (pointer_form.write (pointing_of p))) × (out.new ≡ put out.old at (pointer_form.write (pointing_of p))) }
{
    snapshot_parts::put_number(out, at, Snapshot::NUMBER, p.level as u64);
    snapshot_parts::put_key(out, at + Snapshot::NUMBER, keys::kept(p.key))
}

// Lays a deletion. Returns the place after it. Requires: the output has these places.
fn put_deletion(out: &mut [u8], at: usize, d: Deletion) -> usize
    requires { at + length (deletion_form.write (deletion_of d)) ≤ length out.old }
    ensures { (result ≡ at + length (deletion_form.write (deletion_of d))) × (out.new ≡ put out.old at (deletion_form.write (deletion_of d))) }
{
    snapshot_parts::put_number(out, at, Snapshot::NUMBER, d.level as u64);
    snapshot_parts::put_number(out, at + Snapshot::NUMBER, Snapshot::NUMBER, d.number.0);
    at + Snapshot::KEYS
}

// Lays an addition. Returns the place after it. Requires: the output has these places.
fn put_addition(out: &mut [u8], at: usize, a: Addition) -> usize
    requires { at + length (addition_form.write (addition_of a)) ≤ length out.old }
    ensures { (result ≡ at + length (addition_form.write (addition_of a))) × (out.new ≡ put out.old at (addition_form.write (addition_of a))) }
{
    let file = at + Snapshot::NUMBER;
    snapshot_parts::put_number(out, at, Snapshot::NUMBER, a.level as u64);
    snapshot_parts::put_number(out, file, Snapshot::NUMBER, a.number.0);
    snapshot_parts::put_number(out, file + Snapshot::NUMBER, Snapshot::NUMBER, a.size);
    let next = snapshot_parts::put_key(out, file + Snapshot::KEYS, keys::kept(a.smallest));
    snapshot_parts::put_key(out, next, keys::kept(a.largest))
}

// Lays the section of an edit's pointers; of too many it keeps one more than an edit may have, a blank one. Returns the place after it. Requires: the output has
// these places.
fn put_pointings(out: &mut [u8], at: usize, e: Edit) -> usize
    requires { at + length (pointers_bytes e) ≤ length out.old }
    ensures { (result ≡ at + length (pointers_bytes e)) × (out.new ≡ put out.old at (pointers_bytes e)) }
{
    let n = e.pointing_count.min(Edit::POINTINGS);
    let kept = e.pointing_count.min(Edit::POINTINGS + 1);
    snapshot_parts::put_number(out, at, Snapshot::COUNT, kept as u64);
    let mut next = at + Snapshot::COUNT;
    for p in &e.pointings[..n] {
        next = put_pointing(out, next, *p);
    }
    if n < kept {
        let blank = keys::blank_key();
        return put_pointing(
            out,
            next,
            Pointing {
                level: 0,
                key: blank,
            },
        );
    }
    next
}

// Lays the section of an edit's deletions, likewise. Returns the place after it. Requires: the output has these places.
fn put_deletions(out: &mut [u8], at: usize, e: Edit) -> usize
    requires { at + length (deletions_bytes e) ≤ length out.old }
    ensures { (result ≡ at + length (deletions_bytes e)) × (out.new ≡ put out.old at (deletions_bytes e)) }
{
    let n = e.deletion_count.min(Edit::DELETIONS);
    let kept = e.deletion_count.min(Edit::DELETIONS + 1);
    snapshot_parts::put_number(out, at, Snapshot::COUNT, kept as u64);
    let mut next = at + Snapshot::COUNT;
    for d in &e.deletions[..n] {
        next = put_deletion(out, next, *d);
    }
    if n < kept {
        return put_deletion(
            out,
            next,
            Deletion {
                level: 0,
                number: FileNumber(0),
            },
        );
    }
    next
}

// Lays the section of an edit's additions, likewise. Returns the place after it. Requires: the output has these places.
fn put_additions(out: &mut [u8], at: usize, e: Edit) -> usize
    requires { at + length (additions_bytes e) ≤ length out.old }
    ensures { (result ≡ at + length (additions_bytes e)) × (out.new ≡ put out.old at (additions_bytes e)) }
{
    let n = e.addition_count.min(Edit::ADDITIONS);
    let kept = e.addition_count.min(Edit::ADDITIONS + 1);
    snapshot_parts::put_number(out, at, Snapshot::COUNT, kept as u64);
    let mut next = at + Snapshot::COUNT;
    for a in &e.additions[..n] {
        next = put_addition(out, next, *a);
    }
    if n < kept {
        let blank = keys::blank_key();
        return put_addition(
            out,
            next,
            Addition {
                level: 0,
                number: FileNumber(0),
                size: 0,
                smallest: blank,
                largest: blank,
            },
        );
    }
    next
}

// Lays the section of an edit's log number, of none or one. Returns the place after it. Requires: the output has these places.
fn put_log(out: &mut [u8], at: usize, log: Option<FileNumber>) -> usize
    requires { at + length (log_form.write (log_of log)) ≤ length out.old }
    ensures { (result ≡ at + length (log_form.write (log_of log))) × (out.new ≡ put out.old at (log_form.write (log_of log))) }
{
    match log {
        None => {
            snapshot_parts::put_number(out, at, Snapshot::COUNT, 0);
            at + Snapshot::COUNT
        }
        Some(n) => {
            snapshot_parts::put_number(out, at, Snapshot::COUNT, 1);
            snapshot_parts::put_number(out, at + Snapshot::COUNT, Snapshot::NUMBER, n.0);
            at + Snapshot::COUNT + Snapshot::NUMBER
        }
    }
}

// Lays the call of an edit. Returns the place after it. Requires: the output has these places.
fn put_edit(out: &mut [u8], at: usize, e: Edit) -> usize
    requires { at + length (edit_bytes e) ≤ length out.old }
    ensures { (result ≡ at + length (edit_bytes e)) × (out.new ≡ put out.old at (edit_bytes e)) }
{
    snapshot_parts::put_number(out, at, Snapshot::BYTE, Record::EDIT);
    let a = put_pointings(out, at + Snapshot::BYTE, e);
    let b = put_deletions(out, a, e);
    let c = put_additions(out, b, e);
    put_log(out, c, e.log)
}

// ---- entries

// Room for the longest entry.
fn room() -> [u8; Entry::LONGEST] {
    [0u8; Entry::LONGEST]
}

// The entry of an edit: the call, and its result. Of a refused call it takes the number, as the next four do.
pub fn edit_entry(e: Edit, o: Result<(), u8>, out: &mut [u8]) -> Result<usize, Refusal>
    ensures { (answer_of result ≡ filling (edit_entry e o (length out.old))) × (out.new ≡ lent (edit_entry e o (length out.old)) out.old) }
{
    let mut laid = room();
    let end = put_edit(&mut laid, 0, e);
    let n = replay_given::put_plain(&mut laid, end, o);
    hand(out, &laid[0..n])
}

// The entry of a size pick: its result, with what was picked.
pub fn size_entry(o: Result<Picked, u8>, out: &mut [u8]) -> Result<usize, Refusal>
    ensures { (answer_of result ≡ filling (size_entry o (length out.old))) × (out.new ≡ lent (size_entry o (length out.old)) out.old) }
{
    if !replay_given::can_tell(o) {
        return Err(Refusal::Form);
    }
    let mut laid = room();
    snapshot_parts::put_number(&mut laid, 0, Snapshot::BYTE, Record::SIZE);
    let n = replay_given::put_picked(&mut laid, Snapshot::BYTE, o);
    hand(out, &laid[0..n])
}

// The entry of a manual pick: its level and range, and its result, with what was picked.
pub fn range_entry(
    level: usize,
    start: Key,
    stop: Key,
    o: Result<Picked, u8>,
    out: &mut [u8],
) -> Result<usize, Refusal>
    ensures { (answer_of result ≡ filling (range_entry level start stop o (length out.old))) × (out.new ≡ lent (range_entry level start stop o (length out.old)) out.old) }
{
    if !replay_given::can_tell(o) {
        return Err(Refusal::Form);
    }
    let mut laid = room();
    snapshot_parts::put_number(&mut laid, 0, Snapshot::BYTE, Record::RANGE);
    snapshot_parts::put_number(&mut laid, Snapshot::BYTE, Snapshot::NUMBER, level as u64);
    let low = snapshot_parts::put_key(&mut laid, Given::SHORT, keys::kept(start));
    let high = snapshot_parts::put_key(&mut laid, low, keys::kept(stop));
    let n = replay_given::put_picked(&mut laid, high, o);
    hand(out, &laid[0..n])
}

// The entry of new: its result, with the number handed out.
pub fn new_entry(o: Result<FileNumber, u8>, out: &mut [u8]) -> Result<usize, Refusal>
    ensures { (answer_of result ≡ filling (new_entry o (length out.old))) × (out.new ≡ lent (new_entry o (length out.old)) out.old) }
{
    let mut laid = room();
    snapshot_parts::put_number(&mut laid, 0, Snapshot::BYTE, Record::COUNTER);
    snapshot_parts::put_number(&mut laid, Snapshot::BYTE, Snapshot::BYTE, Record::NEW);
    let n = replay_given::put_handed(&mut laid, Snapshot::BYTE + Snapshot::BYTE, o);
    hand(out, &laid[0..n])
}

// The tag of a counter call.
fn tag_of(c: Counter) -> u64
    ensures { result ≡ recorder.tag_of c }
{
    match c {
        Counter::Reuse => Record::REUSE,
        Counter::Mark => Record::MARK,
        Counter::LastSequence => Record::LAST,
        Counter::Manifest => Record::MANIFEST,
        Counter::PreviousLog => Record::PREVIOUS,
    }
}

// The entry of another counter call: its number, and its result.
pub fn count_entry(
    c: Counter,
    number: u64,
    o: Result<(), u8>,
    out: &mut [u8],
) -> Result<usize, Refusal>
    ensures { (answer_of result ≡ filling (count_entry c number o (length out.old))) × (out.new ≡ lent (count_entry c number o (length out.old)) out.old) }
{
    let mut laid = room();
    let at = Snapshot::BYTE + Snapshot::BYTE;
    snapshot_parts::put_number(&mut laid, 0, Snapshot::BYTE, Record::COUNTER);
    snapshot_parts::put_number(&mut laid, Snapshot::BYTE, Snapshot::BYTE, tag_of(c));
    snapshot_parts::put_number(&mut laid, at, Snapshot::NUMBER, number);
    let n = replay_given::put_plain(&mut laid, at + Snapshot::NUMBER, o);
    hand(out, &laid[0..n])
}
