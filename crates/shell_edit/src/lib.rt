// The commands that change the store and no pick: the store that each leaves, and its short answer.
#![tactic(auto)]

ghost use Rattle.std.specs.Prelude.{◌≡◌, ◌≤◌, length, get_or, take};
ghost use Rattle.shell_edit.specs.Changes.{refused_by, told_by, counted_by, handed_by, read_of, set_by, count_by, word_at, number_at, bytes_in, changed_by};

use answers::Refusal;
use keys::{FileNumber, SequenceNumber};
use shell_reply::Said;
use store::Store;
use store_numbers::Handed;

// A store, and what is said of the call that left it.
#[derive(Clone, Copy)]
pub struct Changed {
    pub store: Store,
    pub said: Said,
}

// After a refused call: the store before it, and the refusal.
fn refused(s: Store, r: Refusal) -> Changed
    ensures { result ≡ refused_by s r }
{
    Changed {
        store: s,
        said: Said::Denied(r),
    }
}

// The store after a call on one, and `ok` or the refusal.
pub fn told(s: Store, r: Result<Store, Refusal>) -> Changed
    ensures { result ≡ told_by s r }
{
    match r {
        Ok(store) => Changed {
            store,
            said: Said::Agreed,
        },
        Err(r) => refused(s, r),
    }
}

// The store after a call on one, and its next file number or the refusal.
fn counted(s: Store, r: Result<Store, Refusal>) -> Changed
    ensures { result ≡ counted_by s r }
{
    match r {
        Ok(store) => Changed {
            store,
            said: Said::Next(store.counters.next.0),
        },
        Err(r) => refused(s, r),
    }
}

// The store after a number is handed out of one, and the number or the refusal.
fn handed(s: Store, h: Result<Handed, Refusal>) -> Changed
    ensures { result ≡ handed_by s h }
{
    match h {
        Ok(h) => Changed {
            store: h.store,
            said: Said::Number(h.number.0),
        },
        Err(r) => refused(s, r),
    }
}

// What the first n bytes read as.
fn read_front(room: &[u8], n: usize) -> Result<Store, Refusal>
    requires { n ≤ length room.now }
    ensures { result ≡ read_of (take n room.now) }
{
    snapshot_read::read(&room[..n])
}

// The store that a run of hex digits holds.
fn read_hex(line: &[u8], from: usize, to: usize) -> Result<Store, Refusal>
    ensures { result ≡ read_of (bytes_in line.now from to) }
{
    let mut room = io::large_buffer();
    let n = script_words::lay_hex(line, from, to, &mut room);
    read_front(&room, n)
}

// A counter set, by the first byte of its name.
fn set(s: Store, mark: u8, n: u64) -> Result<Store, Refusal>
    ensures { result ≡ set_by s mark n }
{
    if mark == b's' {
        return store_numbers::set_last_sequence(s, SequenceNumber(n));
    }
    if mark == b'm' {
        return store_numbers::set_manifest_number(s, FileNumber(n));
    }
    store_numbers::set_previous_log(s, FileNumber(n))
}

// A number given back, or marked as used.
fn count(s: Store, which: u8, n: u64) -> Result<Store, Refusal>
    ensures { result ≡ count_by s which n }
{
    if which == b'r' {
        return store_numbers::reuse_file_number(s, FileNumber(n));
    }
    store_numbers::mark_file_number_used(s, FileNumber(n))
}

// The store that the snapshot of a line holds.
fn load(s: Store, line: &[u8]) -> Changed
    ensures { result ≡ told_by s (read_of (bytes_in line.now (word_at line.now 1).from (word_at line.now 1).to)) }
{
    let bytes = script_parts::run_of(line, script_parts::words_of(line), 1);
    told(s, read_hex(line, bytes.from, bytes.to))
}

// The counter of a line set.
fn set_named(s: Store, line: &[u8]) -> Changed
    ensures { result ≡ told_by s (set_by s (get_or line.now (word_at line.now 1).from 0) (number_at line.now 2)) }
{
    let w = script_parts::words_of(line);
    let name = script_parts::run_of(line, w, 1);
    let n = script_parts::number(line, w, 2);
    let mark = script_words::byte_at(line, name.from);
    told(s, set(s, mark, n.value))
}

// The number of a line given back, or marked as used.
fn count_named(s: Store, line: &[u8], which: u8) -> Changed
    ensures { result ≡ counted_by s (count_by s which (number_at line.now 1)) }
{
    let n = script_parts::number(line, script_parts::words_of(line), 1);
    counted(s, count(s, which, n.value))
}

// The store after a command, which is named by a letter, and what is said of it.
pub fn change(s: Store, line: &[u8], which: u8) -> Changed
    ensures { result ≡ changed_by s line.now which }
{
    if which == b'e' {
        return told(s, edit_apply::apply(s, script_edit::edit_of(line)));
    }
    if which == b'n' {
        return handed(s, store_numbers::new_file_number(s));
    }
    if which == b'l' {
        return load(s, line);
    }
    if which == b's' {
        return set_named(s, line);
    }
    count_named(s, line, which)
}
