// The answer line of a pick: level, cause, inputs, grandparents, pointer, deletions of the inputs; or the refusal.
#![tactic(auto)]

ghost use Rattle.std.specs.Prelude.{◌≤◌, length};

use answers::Refusal;
use edit::Edit;
use pick_answer::{Cause, Pick, Picked};
use records::Level;
use store::Pointer;

// Whether a pick's cause is manual.
fn is_manual(c: Cause) -> bool {
    matches!(c, Cause::Manual)
}

// A pick's level and cause.
fn put_cause(out: &mut [u8], level: usize, manual: bool) -> usize {
    if manual {
        return shell_reply::put_form(out, 0, b"level=% cause=manual", [level as u64, 0, 0, 0, 0]);
    }
    shell_reply::put_form(out, 0, b"level=% cause=size", [level as u64, 0, 0, 0, 0])
}

// Whether a pick is a trivial move.
fn is_trivial(c: Picked) -> bool {
    matches!(pick_answer::is_trivial_move(c), Ok(true))
}

// The inputs and the grandparents of a pick.
fn put_lists(out: &mut [u8], start: usize, c: Picked) -> usize {
    let second = c.first.saturating_add(c.second);
    let grand = second.saturating_add(c.grand);
    let mut at = script_lines::put(out, start, b" in0=");
    at = shell_reply::put_files(out, at, c.files, 0, c.first);
    at = script_lines::put(out, at, b" in1=");
    at = shell_reply::put_files(out, at, c.files, c.first, second);
    at = script_lines::put(out, at, b" gp=");
    shell_reply::put_files(out, at, c.files, second, grand)
}

// The deletions of an edit, joined by commas.
fn put_deletions(out: &mut [u8], start: usize, e: Edit) -> usize {
    let mut at = start;
    for (i, d) in e.deletions.iter().take(e.deletion_count).enumerate() {
        if 0 < i {
            at = script_lines::put_byte(out, at, b',');
        }
        at = shell_reply::put_form(out, at, b"%:%", [d.level as u64, d.number.0, 0, 0, 0]);
    }
    at
}

// The pointer of a level.
fn put_pointer(
    out: &mut [u8],
    at: usize,
    pointers: [Pointer; Level::COUNT],
    level: usize,
) -> usize {
    match pointers.get(level) {
        Some(p) => script_lines::put_key(out, at, p.key),
        None => at,
    }
}

// The rest of a pick's line: the pointer, and the deletions of its inputs.
fn put_end(out: &mut [u8], start: usize, c: Picked, pointers: [Pointer; Level::COUNT]) -> usize {
    let mut at = put_pointer(out, start, pointers, c.level);
    at = script_lines::put(out, at, b" edel=");
    match compact_deletions::add_input_deletions(c, Edit::empty()) {
        Ok(e) => put_deletions(out, at, e),
        Err(_) => at,
    }
}

// A pick's line up to the pointer.
fn put_front(out: &mut [u8], c: Picked) -> usize {
    let manual = is_manual(c.cause);
    let flags = [manual as u64, is_trivial(c) as u64, 0, 0, 0];
    let mut at = put_cause(out, c.level, manual);
    at = put_lists(out, at, c);
    shell_reply::put_form(out, at, b" manual=% trivial=% ptr=", flags)
}

// A pick's line.
fn put_line(out: &mut [u8], c: Picked, pointers: [Pointer; Level::COUNT]) -> usize {
    let at = put_front(out, c);
    put_end(out, at, c, pointers)
}

// The line of a pick, with the pointers of the store that it leaves, or the refusal; it ends within the bytes.
pub fn put_pick(out: &mut [u8], p: &Result<Pick, Refusal>) -> usize
    ensures { result ≤ length out.new }
{
    let at = match p {
        Ok(pick) => put_line(out, pick.picked, pick.store.pointers),
        Err(r) => script_lines::put_refused(out, 0, r.number()),
    };
    script_lines::within(out, at)
}
