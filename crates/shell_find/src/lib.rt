// The commands that ask a store about a key or a range of keys.
#![tactic(auto)]

ghost use Rattle.std.specs.Prelude.{◌≤◌, length};

use answers::Refusal;
use keys::Key;
use records::{Level, Version};
use script_parts::Parts;
use shell_reply::Said;
use store::Store;

// The numbers of the files of a level that overlap a range, or the refusal.
fn put_overlap(out: &mut [u8], s: Store, line: &[u8], w: Parts) -> usize {
    let l = script_parts::number(line, w, 1);
    let a = script_parts::key(line, w, 2);
    let b = script_parts::key(line, w, 3);
    match ask_overlap::overlapping_inputs(s, l.value as usize, a.key, b.key) {
        Ok(list) => shell_reply::put_files(out, 0, list.files, 0, list.count),
        Err(r) => script_lines::put_refused(out, 0, r.number()),
    }
}

// Whether some file of a level overlaps a range: 1 for yes, 0 for no, or the refusal.
fn inlevel(s: Store, line: &[u8], w: Parts) -> Said {
    let l = script_parts::number(line, w, 1);
    let a = script_parts::user(line, w, 2);
    let b = script_parts::user(line, w, 3);
    match ask_overlap::overlap_in_level(s, l.value as usize, a.user, b.user) {
        Ok(yes) => Said::Number(yes as u64),
        Err(r) => Said::Denied(r),
    }
}

// The level of a memory table.
fn mem(s: Store, line: &[u8], w: Parts) -> Said {
    let a = script_parts::user(line, w, 1);
    let b = script_parts::user(line, w, 2);
    match ask_store::pick_memtable_output_level(s, a.user, b.user) {
        Ok(level) => Said::Number(level as u64),
        Err(r) => Said::Denied(r),
    }
}

// The index of the first file of a level whose largest is not before a key.
fn find_file(s: Store, level: usize, k: Key) -> Result<Option<usize>, Refusal> {
    let l = level_list::level_files(s, level)?;
    ask_find::find_file(level, &l.files[..l.count.min(Version::ROOM)], k)
}

// The same for the level and the key that a line names.
fn find(s: Store, line: &[u8], w: Parts) -> Said {
    let l = script_parts::number(line, w, 1);
    let k = script_parts::key(line, w, 2);
    match find_file(s, l.value as usize, k.key) {
        Ok(Some(i)) => Said::Number(i as u64),
        Ok(None) => Said::Nothing,
        Err(r) => Said::Denied(r),
    }
}

// The numbers of the files of a level that may hold a key, into lent output. Returns how many there are.
fn look_up(s: Store, level: usize, k: Key, out: &mut [u64]) -> Result<usize, Refusal> {
    let l = level_list::level_files(s, level)?;
    ask_lookup::look_up(level, &l.files[..l.count.min(Version::ROOM)], k, out)
}

// The files of a level that may hold a key, or the refusal, a blank before them unless it is level 0.
fn put_level(out: &mut [u8], start: usize, s: Store, level: usize, k: Key) -> usize {
    let at = script_lines::put_gap(out, start);
    let mut column = [0u64; Version::ROOM];
    match look_up(s, level, k, &mut column) {
        Ok(n) => shell_reply::put_column(out, at, &column[..n.min(Version::ROOM)]),
        Err(r) => script_lines::put_refused(out, at, r.number()),
    }
}

// The files of each level that may hold a key.
fn put_levels(out: &mut [u8], s: Store, k: Key) -> usize {
    let mut at = 0;
    for level in 0..Level::COUNT {
        at = put_level(out, at, s, level, k);
    }
    at
}

// The files of each level that may hold a key, or the refusal.
fn put_lookup(out: &mut [u8], s: Store, line: &[u8], w: Parts) -> usize {
    let k = script_parts::key(line, w, 1);
    if !keys::is_good(k.key) {
        return script_lines::put_refused(out, 0, Refusal::Key.number());
    }
    put_levels(out, s, k.key)
}

// A short answer.
fn short(s: Store, line: &[u8], w: Parts, which: u8) -> Said {
    if which == b'i' {
        return inlevel(s, line, w);
    }
    if which == b'n' {
        return find(s, line, w);
    }
    mem(s, line, w)
}

// The answer of a command, which is named by a letter.
fn put(out: &mut [u8], s: Store, line: &[u8], which: u8) -> usize {
    let w = script_parts::words_of(line);
    if which == b'o' {
        return put_overlap(out, s, line, w);
    }
    if which == b'u' {
        return put_lookup(out, s, line, w);
    }
    shell_reply::put_said(out, short(s, line, w, which))
}

// The answer of a command, which is named by a letter; it ends within the bytes.
pub fn put_answer(out: &mut [u8], s: Store, line: &[u8], which: u8) -> usize
    ensures { result ≤ length out.new }
{
    let at = put(out, s, line, which);
    script_lines::within(out, at)
}
