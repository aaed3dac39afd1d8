// The commands that ask about keys alone.
#![tactic(auto)]

ghost use Rattle.std.specs.Prelude.{◌≤◌, length};

use answers::Refusal;
use key_calls::Parsed;
use script_parts::Parts;
use shell_reply::Said;
use std::cmp::Ordering;

// How two keys stand, or the refusal.
fn said_of(c: Result<Ordering, Refusal>) -> Said {
    match c {
        Ok(Ordering::Less) => Said::Mark(b'<'),
        Ok(Ordering::Equal) => Said::Mark(b'='),
        Ok(Ordering::Greater) => Said::Mark(b'>'),
        Err(r) => Said::Denied(r),
    }
}

// How two keys stand.
fn put_compared(out: &mut [u8], line: &[u8], w: Parts) -> usize {
    let a = script_parts::key(line, w, 1);
    let b = script_parts::key(line, w, 2);
    let c = key_calls::compare(a.key, b.key);
    shell_reply::put_said(out, said_of(c))
}

// The parts of a key.
fn put_parts(out: &mut [u8], p: Parsed) -> usize {
    let numbers = [u64::from(p.kind), p.sequence.0, 0, 0, 0];
    let at = shell_reply::put_form(out, 0, b"type=% seq=% user=", numbers);
    script_lines::put_user_key(out, at, p.user)
}

// The parts of a key, or the refusal.
fn put_parsed(out: &mut [u8], line: &[u8], w: Parts) -> usize {
    let k = script_parts::key(line, w, 1);
    match key_calls::parse_internal_key(k.key) {
        Ok(p) => put_parts(out, p),
        Err(r) => script_lines::put_refused(out, 0, r.number()),
    }
}

// The answer of a command, which is named by a letter; it ends within the bytes.
pub fn put_answer(out: &mut [u8], line: &[u8], which: u8) -> usize
    ensures { result ≤ length out.new }
{
    let w = script_parts::words_of(line);
    if which == b'c' {
        let at = put_compared(out, line, w);
        return script_lines::within(out, at);
    }
    let at = put_parsed(out, line, w);
    script_lines::within(out, at)
}
