// The answers of calls as a record keeps them: their bytes, laid in lent output.
#![tactic(auto)]

ghost use Rattle.std.specs.Prelude.{◌≡◌, true, false, ◌+◌, ◌≤◌, length, Ok};
ghost use Rattle.lemmas.specs.Slices.{put};
ghost use Rattle.model.specs.Answer.{refused};
ghost use Rattle.std.specs.Float.{binary64};
ghost use Rattle.std.specs.Float.Ieee.{is_nan, to_bits};
ghost use Rattle.pick_answer.specs.Picked.{well_picked};
ghost use Rattle.replay_given.specs.Given.{plain_given, handed_given, picked_given, given_bytes, why_bytes, lists_bytes, is_number, can_tell};

use keys::{FileNumber, Key};
use pick_answer::{Cause, Picked};
use records::Version;
use replay_form::Record;
use snapshot_parts::Snapshot;

// The lengths of answers.
#[derive(Clone, Copy)]
pub struct Given {}

impl Given {
    // The longest answer that is no pick: a number handed out.
    pub const SHORT: usize = Snapshot::BYTE + Snapshot::NUMBER;
    // The longest answer: a picked one with as many files as a store has room for, all with the longest keys.
    pub const LONGEST: usize = Snapshot::BYTE
        + Snapshot::NUMBER
        + (Snapshot::BYTE + Snapshot::NUMBER)
        + Snapshot::NUMBER
        + 3 * Snapshot::COUNT
        + Version::ROOM * (Snapshot::FILE + 2 * Key::ROOM);
}

// Lays a refusal, by its number. Returns the place after it. Requires: the output has these places.
fn put_refused(out: &mut [u8], at: usize, n: u8) -> usize
    requires { at + length (given_bytes (refused n)) ≤ length out.old }
    ensures { (result ≡ at + length (given_bytes (refused n))) × (out.new ≡ put out.old at (given_bytes (refused n))) }
{
    snapshot_parts::put_number(out, at, Snapshot::BYTE, Record::REFUSED);
    snapshot_parts::put_number(out, at + Snapshot::BYTE, Snapshot::BYTE, u64::from(n));
    at + Snapshot::BYTE + Snapshot::BYTE
}

// Lays the answer of an edit, or of a counter call but new. Returns the place after it. Internal. Requires: the output has these places.
pub fn put_plain(out: &mut [u8], at: usize, o: Result<(), u8>) -> usize
    requires { at + length (given_bytes (plain_given o)) ≤ length out.old }
    ensures { (result ≡ at + length (given_bytes (plain_given o))) × (out.new ≡ put out.old at (given_bytes (plain_given o))) }
{
    match o {
        Ok(()) => {
            snapshot_parts::put_number(out, at, Snapshot::BYTE, Record::ACCEPTED);
            at + Snapshot::BYTE
        }
        Err(n) => put_refused(out, at, n),
    }
}

// Lays the answer of new. Returns the place after it. Internal. Requires: the output has these places.
pub fn put_handed(out: &mut [u8], at: usize, o: Result<FileNumber, u8>) -> usize
    requires { at + length (given_bytes (handed_given o)) ≤ length out.old }
    ensures { (result ≡ at + length (given_bytes (handed_given o))) × (out.new ≡ put out.old at (given_bytes (handed_given o))) }
{
    match o {
        Ok(number) => {
            snapshot_parts::put_number(out, at, Snapshot::BYTE, Record::HANDED);
            snapshot_parts::put_number(out, at + Snapshot::BYTE, Snapshot::NUMBER, number.0);
            at + Given::SHORT
        }
        Err(n) => put_refused(out, at, n),
    }
}

// Whether a score is a number. Internal.
pub fn is_number(c: Cause) -> bool
    ensures { result ≡ is_number c }
{
    match c {
        Cause::Size(x) => x == x,
        Cause::Manual => true,
    }
}

// Whether the answer of a pick can be kept: it is a refusal, or the picked answer is well-formed and its score a number. Internal.
pub fn can_tell(o: Result<Picked, u8>) -> bool
    ensures { result ≡ can_tell o }
{
    match &o {
        Ok(c) => pick_answer::is_well_formed(*c) && is_number(c.cause),
        Err(_) => true,
    }
}

// The bits of a score. Requires: it is a number.
fn bits_of(x: f64) -> u64
    requires { is_nan x ≡ false }
    ensures { result ≡ to_bits binary64 x }
{
    f64::to_bits(x)
}

// Lays a cause. Returns the place after it. Requires: its score is a number, and the output has these places.
fn put_why(out: &mut [u8], at: usize, c: Cause) -> usize
    requires { (is_number c ≡ true) × (at + length (why_bytes c) ≤ length out.old) }
    ensures { (result ≡ at + length (why_bytes c)) × (out.new ≡ put out.old at (why_bytes c)) }
{
    match c {
        Cause::Size(x) => {
            snapshot_parts::put_number(out, at, Snapshot::BYTE, Record::SCORED);
            snapshot_parts::put_number(out, at + Snapshot::BYTE, Snapshot::NUMBER, bits_of(x));
            at + Given::SHORT
        }
        Cause::Manual => {
            snapshot_parts::put_number(out, at, Snapshot::BYTE, Record::BY_HAND);
            at + Snapshot::BYTE
        }
    }
}

// Lays the three lists of files of a picked answer, each after its count. Returns the place after them. Requires: the picked answer is well-formed, and the
// output has these places.
fn put_lists(out: &mut [u8], at: usize, c: Picked) -> usize
    requires { (well_picked c ≡ true) × (at + length (lists_bytes c) ≤ length out.old) }
    ensures { (result ≡ at + length (lists_bytes c)) × (out.new ≡ put out.old at (lists_bytes c)) }
{
    let counts = [c.first, c.second, c.grand];
    let mut next = at;
    let mut from: usize = 0;
    for &n in &counts {
        snapshot_parts::put_number(out, next, Snapshot::COUNT, n as u64);
        next += Snapshot::COUNT;
        let to = from + n;
        for f in &c.files[from..to] {
            next = snapshot_parts::put_file(out, next, *f);
        }
        from = to;
    }
    next
}

// Lays what was picked. Returns the place after it. Internal. Requires: it can be kept, and the output has these places.
pub fn put_pick(out: &mut [u8], at: usize, c: Picked) -> usize
    requires { (can_tell (Ok c) ≡ true) × (at + length (given_bytes (picked_given (Ok c))) ≤ length out.old) }
    ensures { (result ≡ at + length (given_bytes (picked_given (Ok c)))) × (out.new ≡ put out.old at (given_bytes (picked_given (Ok c)))) }
{
    snapshot_parts::put_number(out, at, Snapshot::BYTE, Record::PICKED);
    snapshot_parts::put_number(out, at + Snapshot::BYTE, Snapshot::NUMBER, c.level as u64);
    let why = put_why(out, at + Given::SHORT, c.cause);
    snapshot_parts::put_number(out, why, Snapshot::NUMBER, c.maximum);
    put_lists(out, why + Snapshot::NUMBER, c)
}

// Lays the answer of a pick. Returns the place after it. Internal. Requires: it can be kept, and the output has these places.
pub fn put_picked(out: &mut [u8], at: usize, o: Result<Picked, u8>) -> usize
    requires { (can_tell o ≡ true) × (at + length (given_bytes (picked_given o)) ≤ length out.old) }
    ensures { (result ≡ at + length (given_bytes (picked_given o))) × (out.new ≡ put out.old at (given_bytes (picked_given o))) }
{
    match &o {
        Ok(c) => put_pick(out, at, *c),
        Err(n) => put_refused(out, at, *n),
    }
}
