// Where the parts of a recorded day end: calls and answers as runs of bytes, and whether bytes are a record.
#![tactic(auto)]

ghost use Rattle.std.specs.Prelude.{◌≡◌, ◌≤◌, length, drop};
ghost use Rattle.std.proofs.Math.Option.{none};
ghost use Rattle.model_replay.specs.Takes.{takes, repeated, key_takes, part_takes, section_takes, log_takes, edit_takes, count_takes, asked_takes, why_takes, choice_takes, given_takes, entry_takes, settings_take};
ghost use Rattle.replay_scan.specs.Scan.{passed_by, is_recording};

use keys::Word;
use replay_form::Record;
use snapshot_parts::Snapshot;

// Whether a part is whole, and the place after it.
#[derive(Clone, Copy)]
pub struct Passed {
    pub good: bool,
    pub at: usize,
}

// No part is there.
fn nothing() -> Passed
    ensures { result ≡ passed_by 0 none }
{
    Passed { good: false, at: 0 }
}

// Passes n bytes. Internal. Requires: the place is within the bytes.
pub fn pass(src: &[u8], at: usize, n: usize) -> Passed
    requires { at ≤ length src.now }
    ensures { (result ≡ passed_by at (takes n (drop at src.now))) × (result.at ≤ length src.now) }
{
    if src.len() - at < n {
        return nothing();
    }
    Passed {
        good: true,
        at: at + n,
    }
}

// Passes a key: a length byte, then its bytes. Requires: the place is within the bytes.
fn pass_key(src: &[u8], at: usize) -> Passed
    requires { at ≤ length src.now }
    ensures { (result ≡ passed_by at (key_takes (drop at src.now))) × (result.at ≤ length src.now) }
{
    let start = pass(src, at, Snapshot::BYTE);
    if !start.good {
        return start;
    }
    let n = snapshot_parse::get_number(src, at, Snapshot::BYTE);
    pass(src, start.at, n as usize)
}

// Passes so many keys. Requires: the place is within the bytes.
fn pass_keys(src: &[u8], at: usize, keys: usize) -> Passed
    requires { at ≤ length src.now }
    ensures { (result ≡ passed_by at (repeated keys key_takes (drop at src.now))) × (result.at ≤ length src.now) }
{
    let mut next = at;
    for _ in 0..keys {
        let p = pass_key(src, next);
        if !p.good {
            return p;
        }
        next = p.at;
    }
    Passed {
        good: true,
        at: next,
    }
}

// Passes a part: so many bytes, then so many keys. Internal. Requires: the place is within the bytes.
pub fn pass_part(src: &[u8], at: usize, width: usize, keys: usize) -> Passed
    requires { at ≤ length src.now }
    ensures { (result ≡ passed_by at (part_takes width keys (drop at src.now))) × (result.at ≤ length src.now) }
{
    let start = pass(src, at, width);
    if !start.good {
        return start;
    }
    pass_keys(src, start.at, keys)
}

// Passes n such parts. Requires: the place is within the bytes.
fn pass_parts(src: &[u8], at: usize, n: usize, width: usize, keys: usize) -> Passed
    requires { at ≤ length src.now }
    ensures { (result ≡ passed_by at (repeated n (part_takes width keys) (drop at src.now))) × (result.at ≤ length src.now) }
{
    let mut next = at;
    for _ in 0..n {
        let p = pass_part(src, next, width, keys);
        if !p.good {
            return p;
        }
        next = p.at;
    }
    Passed {
        good: true,
        at: next,
    }
}

// Passes a section of such parts, after its count. Internal. Requires: the place is within the bytes.
pub fn pass_section(src: &[u8], at: usize, width: usize, keys: usize) -> Passed
    requires { at ≤ length src.now }
    ensures { (result ≡ passed_by at (section_takes width keys (drop at src.now))) × (result.at ≤ length src.now) }
{
    let start = pass(src, at, Snapshot::COUNT);
    if !start.good {
        return start;
    }
    let n = snapshot_parse::get_number(src, at, Snapshot::COUNT);
    pass_parts(src, start.at, n as usize, width, keys)
}

// Passes a section of no number or one. Requires: the place is within the bytes.
fn pass_log(src: &[u8], at: usize) -> Passed
    requires { at ≤ length src.now }
    ensures { (result ≡ passed_by at (log_takes (drop at src.now))) × (result.at ≤ length src.now) }
{
    let start = pass(src, at, Snapshot::COUNT);
    if !start.good {
        return start;
    }
    let n = snapshot_parse::get_number(src, at, Snapshot::COUNT);
    if 1 < n {
        return nothing();
    }
    pass_parts(src, start.at, n as usize, Snapshot::NUMBER, 0)
}

// Passes an edit: pointers, deletions, additions, log number. Requires: the place is within the bytes.
fn pass_edit(src: &[u8], at: usize) -> Passed
    requires { at ≤ length src.now }
    ensures { (result ≡ passed_by at (edit_takes (drop at src.now))) × (result.at ≤ length src.now) }
{
    let pointers = pass_section(src, at, Snapshot::NUMBER, 1);
    if !pointers.good {
        return pointers;
    }
    let deletions = pass_section(src, pointers.at, Snapshot::KEYS, 0);
    if !deletions.good {
        return deletions;
    }
    let additions = pass_section(src, deletions.at, Snapshot::NUMBER + Snapshot::KEYS, 2);
    if !additions.good {
        return additions;
    }
    pass_log(src, additions.at)
}

// Passes a counter call: new has no number, the others have one. Requires: the place is within the bytes.
fn pass_count(src: &[u8], at: usize) -> Passed
    requires { at ≤ length src.now }
    ensures { (result ≡ passed_by at (count_takes (drop at src.now))) × (result.at ≤ length src.now) }
{
    let start = pass(src, at, Snapshot::BYTE);
    if !start.good {
        return start;
    }
    let tag = snapshot_parse::get_number(src, at, Snapshot::BYTE);
    if tag == Record::NEW {
        return start;
    }
    if Record::PREVIOUS < tag {
        return nothing();
    }
    pass(src, start.at, Snapshot::NUMBER)
}

// Passes a call. Internal. Requires: the place is within the bytes.
pub fn pass_asked(src: &[u8], at: usize) -> Passed
    requires { at ≤ length src.now }
    ensures { (result ≡ passed_by at (asked_takes (drop at src.now))) × (result.at ≤ length src.now) }
{
    let start = pass(src, at, Snapshot::BYTE);
    if !start.good {
        return start;
    }
    let tag = snapshot_parse::get_number(src, at, Snapshot::BYTE);
    if tag == Record::EDIT {
        return pass_edit(src, start.at);
    }
    if tag == Record::SIZE {
        return start;
    }
    if tag == Record::RANGE {
        return pass_part(src, start.at, Snapshot::NUMBER, 2);
    }
    if tag == Record::COUNTER {
        return pass_count(src, start.at);
    }
    nothing()
}

// Passes the cause of a pick: a score has its bytes, manual has none. Requires: the place is within the bytes.
fn pass_why(src: &[u8], at: usize) -> Passed
    requires { at ≤ length src.now }
    ensures { (result ≡ passed_by at (why_takes (drop at src.now))) × (result.at ≤ length src.now) }
{
    let start = pass(src, at, Snapshot::BYTE);
    if !start.good {
        return start;
    }
    let tag = snapshot_parse::get_number(src, at, Snapshot::BYTE);
    if tag == Record::SCORED {
        return pass(src, start.at, Snapshot::NUMBER);
    }
    if tag == Record::BY_HAND {
        return start;
    }
    nothing()
}

// Passes a picked answer: level, cause, maximum file size, three sections of files. Requires: the place is within the bytes.
fn pass_choice(src: &[u8], at: usize) -> Passed
    requires { at ≤ length src.now }
    ensures { (result ≡ passed_by at (choice_takes (drop at src.now))) × (result.at ≤ length src.now) }
{
    let level = pass(src, at, Snapshot::NUMBER);
    if !level.good {
        return level;
    }
    let why = pass_why(src, level.at);
    if !why.good {
        return why;
    }
    let maximum = pass(src, why.at, Snapshot::NUMBER);
    if !maximum.good {
        return maximum;
    }
    let first = pass_section(src, maximum.at, Snapshot::KEYS, 2);
    if !first.good {
        return first;
    }
    let second = pass_section(src, first.at, Snapshot::KEYS, 2);
    if !second.good {
        return second;
    }
    pass_section(src, second.at, Snapshot::KEYS, 2)
}

// Passes an answer. Internal. Requires: the place is within the bytes.
pub fn pass_given(src: &[u8], at: usize) -> Passed
    requires { at ≤ length src.now }
    ensures { (result ≡ passed_by at (given_takes (drop at src.now))) × (result.at ≤ length src.now) }
{
    let start = pass(src, at, Snapshot::BYTE);
    if !start.good {
        return start;
    }
    let tag = snapshot_parse::get_number(src, at, Snapshot::BYTE);
    if tag == Record::ACCEPTED {
        return start;
    }
    if tag == Record::HANDED {
        return pass(src, start.at, Snapshot::NUMBER);
    }
    if tag == Record::PICKED {
        return pass_choice(src, start.at);
    }
    if tag == Record::REFUSED {
        return pass(src, start.at, Snapshot::BYTE);
    }
    nothing()
}

// Passes a call and its answer. Internal. Requires: the place is within the bytes.
pub fn pass_entry(src: &[u8], at: usize) -> Passed
    requires { at ≤ length src.now }
    ensures { (result ≡ passed_by at (entry_takes (drop at src.now))) × (result.at ≤ length src.now) }
{
    let asked = pass_asked(src, at);
    if !asked.good {
        return asked;
    }
    pass_given(src, asked.at)
}

// Passes n calls with their answers. Requires: the place is within the bytes.
fn pass_entries(src: &[u8], at: usize, n: usize) -> Passed
    requires { at ≤ length src.now }
    ensures { (result ≡ passed_by at (repeated n entry_takes (drop at src.now))) × (result.at ≤ length src.now) }
{
    let mut next = at;
    for _ in 0..n {
        let p = pass_entry(src, next);
        if !p.good {
            return p;
        }
        next = p.at;
    }
    Passed {
        good: true,
        at: next,
    }
}

// Passes the settings: two numbers after their count.
fn pass_settings(src: &[u8]) -> Passed
    ensures { (result ≡ passed_by 0 (settings_take src.now)) × (result.at ≤ length src.now) }
{
    let start = pass(src, 0, Snapshot::COUNT);
    if !start.good {
        return start;
    }
    let n = snapshot_parse::get_number(src, 0, Snapshot::COUNT);
    if n != Record::SETTINGS {
        return nothing();
    }
    pass_parts(src, start.at, n as usize, Snapshot::NUMBER, 0)
}

// Whether bytes are a record: settings, calls, and nothing after them. Internal.
pub fn is_recording(src: &[u8]) -> bool
    ensures { result ≡ is_recording src.now }
{
    let settings = pass_settings(src);
    if !settings.good {
        return false;
    }
    let start = pass(src, settings.at, Record::CALLS);
    if !start.good {
        return false;
    }
    let place = snapshot_parse::get_number(src, Record::PLACE, Snapshot::NUMBER);
    let n = snapshot_parse::get_number(src, settings.at, Record::CALLS);
    if Word::LARGEST - place < n {
        return false;
    }
    let end = pass_entries(src, start.at, n as usize);
    if !end.good {
        return false;
    }
    end.at == src.len()
}
