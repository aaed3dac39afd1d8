// The shell's commands on two snapshots: keep one under a letter, tell what differs between two, the list of that, and what a list makes of one.
#![tactic(auto)]

mod slots;

ghost use Rattle.std.specs.Prelude.{◌≤◌, length};

use answers::Refusal;
use difference::List;
use script_parts::Run;
use script_table::Fault;
pub use slots::{Kept, nothing};
use snapshot_parts::Snapshot;
use store::Store;

// Room for the bytes of a word.
#[derive(Clone, Copy)]
struct Room {}

impl Room {
    // The longest snapshot, and one byte more: a word of more bytes is cut there, and is no snapshot either.
    const SNAPSHOT: usize = Snapshot::LONGEST + 1;
    // The longest list, and one byte more.
    const LIST: usize = List::LONGEST + 1;
}

// Room for a word that may be a snapshot.
fn snapshot_room() -> [u8; Room::SNAPSHOT] {
    [0u8; Room::SNAPSHOT]
}

// Room for a list.
fn list_room() -> [u8; Room::LIST] {
    [0u8; Room::LIST]
}

// A word of a line, the command's name being word 0.
fn word(line: &[u8], i: usize) -> Run {
    script_parts::run_of(line, script_parts::words_of(line), i)
}

// Keeps the store's snapshot under the letter of a line.
pub fn keep(out: &mut [u8], s: Store, line: &[u8], kept: &mut [u8]) -> usize
    ensures { result ≤ length out.new }
{
    let w = word(line, 1);
    let letter = script_words::byte_at(line, w.from);
    let said = shell_reply::said_of(slots::keep(kept, letter, s));
    let at = shell_reply::put_said(out, said);
    script_lines::within(out, at)
}

// Writes the list of what differs between the two snapshots of a line to lent bytes.
fn compare(kept: &[u8], line: &[u8], list: &mut [u8]) -> Result<usize, Refusal> {
    let mut left = snapshot_room();
    let mut right = snapshot_room();
    let n = slots::lay_word(kept, line, word(line, 1), &mut left);
    let m = slots::lay_word(kept, line, word(line, 2), &mut right);
    difference::differing(&left[..n], &right[..m], list)
}

// The bytes that a list makes of the left snapshot of a line, in hex, or the refusal.
fn put_patched(out: &mut [u8], kept: &[u8], line: &[u8], list: &[u8]) -> usize {
    let mut left = snapshot_room();
    let mut made = snapshot_room();
    let n = slots::lay_word(kept, line, word(line, 1), &mut left);
    match patch::patching(&left[..n], list, &mut made) {
        Ok(m) => shell_reply::put_front(out, &made, m),
        Err(r) => script_lines::put_refused(out, 0, r.number()),
    }
}

// What a list of n bytes says: `l` its bytes, `p` what it makes of the left, any other letter its entries.
fn put_told(out: &mut [u8], kept: &[u8], line: &[u8], list: &[u8], n: usize, which: u8) -> usize {
    if list.len() < n {
        return 0;
    }
    match which {
        b'l' => shell_reply::put_front(out, list, n),
        b'p' => put_patched(out, kept, line, &list[..n]),
        _ => shell_list::put_list(out, &list[..n]),
    }
}

// The answer of a command on the list of what differs between the two snapshots of a line: what it says, or the refusal.
fn put_compared(out: &mut [u8], kept: &[u8], line: &[u8], which: u8) -> usize {
    let mut list = list_room();
    match compare(kept, line, &mut list) {
        Ok(n) => put_told(out, kept, line, &list, n, which),
        Err(r) => script_lines::put_refused(out, 0, r.number()),
    }
}

// What the list of a line makes of its snapshot.
fn put_applied(out: &mut [u8], kept: &[u8], line: &[u8]) -> usize {
    let mut list = list_room();
    let n = slots::lay_word(kept, line, word(line, 2), &mut list);
    put_patched(out, kept, line, &list[..n])
}

// What is wrong with a word that names a letter under which nothing is kept. Words are counted from 1.
fn put_empty(out: &mut [u8], line: &[u8], w: Run, place: usize) -> usize {
    let f = Fault {
        kind: b'Q',
        word: place,
        part: 0,
        from: w.from,
        to: w.to,
    };
    script_table::put_fault(out, line, f)
}

// The answer of a command on two snapshots, which is named by a letter.
fn put(out: &mut [u8], kept: &[u8], line: &[u8], which: u8) -> usize {
    let a = word(line, 1);
    if slots::is_empty(kept, line, a) {
        return put_empty(out, line, a, 2);
    }
    let b = word(line, 2);
    if slots::is_empty(kept, line, b) {
        return put_empty(out, line, b, 3);
    }
    if which == b'a' {
        return put_applied(out, kept, line);
    }
    put_compared(out, kept, line, which)
}

// The answer of a command on two snapshots, which is named by a letter; it ends within the bytes.
pub fn put_answer(out: &mut [u8], kept: &[u8], line: &[u8], which: u8) -> usize
    ensures { result ≤ length out.new }
{
    let at = put(out, kept, line, which);
    script_lines::within(out, at)
}
