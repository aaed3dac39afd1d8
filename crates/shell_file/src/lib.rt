// The shell's commands on files: the store's snapshot saved to one, and a store read from one.
#![tactic(auto)]

ghost use Rattle.std.specs.Prelude.{◌≡◌, ◌≤◌, length, IfSome};
ghost use Rattle.shell_edit.specs.Changes.{read_of, told_by};
ghost use Rattle.shell_file.specs.Opening.{Left};

use shell_edit::Changed;
use snapshot_parts::Snapshot;
use std::fs::{File, OpenFile, OpenOptions};
use std::io::{ErrorKind, Read, Write};
use std::os::unix::fs::OpenOptionsExt;
use std::rt::Files;
use std::{fs, str};
use store::Store;

// A store, and where the answer of the command ends that left it.
#[derive(Clone, Copy)]
pub struct Opened {
    pub store: Store,
    pub at: usize,
}

// Room for a file's bytes.
#[derive(Clone, Copy)]
struct Room {}

impl Room {
    // The longest snapshot, and one byte more, which a file that is too long has.
    const FILE: usize = Snapshot::LONGEST + 1;
}

// How many names of new files are tried.
const TRIES: u32 = 1000000;

// Room for a snapshot that is written.
fn snapshot_room() -> [u8; Snapshot::LONGEST] {
    [0u8; Snapshot::LONGEST]
}

// Room for a file that is read.
fn file_room() -> [u8; Room::FILE] {
    [0u8; Room::FILE]
}

// ---- answers

// `bad`, a text, the name of a file, and a text.
fn put_bad(out: &mut [u8], before: &[u8], name: &[u8], after: &[u8]) -> usize {
    let start = script_lines::put(out, 0, b"bad ");
    let at = script_lines::put(out, start, before);
    let to = script_lines::put(out, at, name);
    script_lines::put(out, to, after)
}

// ---- writing a file

// Lays the name of a file that is being written: the name, a dot, and six digits. Returns its length.
fn lay_name(room: &mut [u8], name: &[u8], tried: u32) -> usize
    ensures { result ≤ length room.new }
{
    let mut at = script_lines::put(room, 0, name);
    at = script_lines::put_byte(room, at, b'.');
    let mut digits = [0u8; 6];
    let mut left = tried;
    for digit in digits.iter_mut().rev() {
        *digit = b'0' + (left % 10) as u8;
        left /= 10;
    }
    at = script_lines::put(room, at, &digits);
    script_lines::within(room, at)
}

// Writes bytes to an open file, and waits until they are on its device. Whether both were done. The file is closed then.
fn fill<F: Write + OpenFile + Drop>(file: F, bytes: &[u8]) -> bool {
    let mut file = file;
    let written = file.write_all(bytes).is_ok();
    let synced = file.sync_all().is_ok();
    written & synced
}

// Gives a file that was written its name. Removes it if it was not written, or if that fails. Whether the file has the name.
fn name_file<R: Files>(rt: &R, written: bool, at: &str, name: &str) -> bool {
    if written && fs::rename(rt, at, name).is_ok() {
        return true;
    }
    let _ = fs::remove_file(rt, at);
    false
}

// Writes bytes to a new file of one name, and gives it the other. Its owner alone may read it. Whether it was written and has its name; None if its first
// name is taken.
fn write_beside<R: Files>(rt: &R, at: &str, name: &str, bytes: &[u8]) -> Option<bool> {
    let mut how = OpenOptions::new();
    how.write(true).create_new(true).mode(0o600);
    match how.open(rt, at) {
        Ok(file) => Some(name_file(rt, fill(file, bytes), at, name)),
        Err(e) => {
            if e.kind() == ErrorKind::AlreadyExists {
                return None;
            }
            Some(false)
        }
    }
}

// Writes bytes to a new file whose name has this try's number. Whether that was done; None if that name is taken.
fn try_beside<R: Files>(rt: &R, name: &str, tried: u32, bytes: &[u8]) -> Option<bool> {
    let mut room = io::buffer();
    let n = lay_name(&mut room, name.as_bytes(), tried);
    match str::from_utf8(&room[..n]) {
        Ok(at) => write_beside(rt, at, name, bytes),
        Err(_) => Some(false),
    }
}

// Writes bytes to a file, whole or not at all: to a new one beside it, which then takes the name. Whether that was done. A name is text.
fn write_file<R: Files>(rt: &R, name: &[u8], bytes: &[u8]) -> bool {
    let Ok(text) = str::from_utf8(name) else {
        return false;
    };
    for tried in 0..TRIES {
        if let Some(done) = try_beside(rt, text, tried, bytes) {
            return done;
        }
    }
    false
}

// Writes the first n bytes to a file: `ok`, or that it cannot be written.
fn put_written<R: Files>(rt: &R, out: &mut [u8], name: &[u8], room: &[u8], n: usize) -> usize {
    if room.len() < n {
        return 0;
    }
    if write_file(rt, name, &room[..n]) {
        return script_lines::put(out, 0, b"ok");
    }
    put_bad(out, b"cannot write ", name, b"")
}

// Saves a store's snapshot to a file.
fn put_saved<R: Files>(rt: &R, out: &mut [u8], s: Store, name: &[u8]) -> usize {
    let mut room = snapshot_room();
    match snapshot_write::write(s, &mut room) {
        Ok(n) => put_written(rt, out, name, &room, n),
        Err(r) => script_lines::put_refused(out, 0, r.number()),
    }
}

// ---- reading a file

// Whether an open file has no byte left, and can be read.
fn has_ended<F: Read>(file: &mut F) -> bool {
    let mut one = [0u8; 1];
    match file.read(&mut one) {
        Ok(n) => n == 0,
        Err(_) => false,
    }
}

// Reads until the room is full, the file ends or a read fails. Returns how many bytes stand in the room.
fn read_full<F: Read>(file: &mut F, room: &mut [u8]) -> usize
    ensures { result ≤ length room.new }
{
    let mut done = 0;
    // A `while`: each read says how many bytes further it came.
    while done < room.len() {
        match file.read(&mut room[done..]) {
            Ok(0) | Err(_) => return done,
            Ok(n) => done += n,
        }
    }
    done
}

// Reads an open file as far as there is room. How many bytes, if it could be read.
fn read_open<F: Read + Drop>(file: F, room: &mut [u8]) -> Option<usize>
    ensures { IfSome result (λ n. n ≤ length room.new) }
{
    let mut file = file;
    let n = read_full(&mut file, room);
    let fine = n == room.len() || has_ended(&mut file);
    fine.then_some(n)
}

// Reads a file as far as there is room. How many bytes, if it could be read. A name is text.
fn read_file<R: Files>(rt: &R, name: &[u8], room: &mut [u8]) -> Option<usize>
    ensures { IfSome result (λ n. n ≤ length room.new) }
{
    let text = str::from_utf8(name).ok()?;
    let file = File::open(rt, text).ok()?;
    read_open(file, room)
}

// The store that bytes hold, and `ok`; or the store as it was, and the refusal.
fn load(out: &mut [u8], s: Store, bytes: &[u8]) -> Opened
    ensures { (result.at ≤ length out.new) × (result.store ≡ (told_by s (read_of bytes.now)).store) }
{
    let Changed { store, said } = shell_edit::told(s, snapshot_read::read(bytes));
    let end = shell_reply::put_said(out, said);
    let at = script_lines::within(out, end);
    Opened { store, at }
}

// The store as it was, and that a file cannot be read or is too long.
fn stay(out: &mut [u8], s: Store, name: &[u8], long: bool) -> Opened
    ensures { (result.at ≤ length out.new) × (result.store ≡ s) }
{
    let end = if long {
        put_bad(out, b"", name, b" is too long")
    } else {
        put_bad(out, b"cannot read ", name, b"")
    };
    let at = script_lines::within(out, end);
    Opened { store: s, at }
}

// ---- the commands

// The name in a line: the word after the command's. No bytes if there is none.
fn name_of(line: &[u8]) -> &[u8] {
    let w = script_parts::run_of(line, script_parts::words_of(line), 1);
    line.get(w.from..w.to).unwrap_or(&line[..0])
}

// Saves the store's snapshot to the file of a line.
pub fn save<R: Files>(rt: &R, out: &mut [u8], s: Store, line: &[u8]) -> usize
    ensures { result ≤ length out.new }
{
    let at = put_saved(rt, out, s, name_of(line));
    script_lines::within(out, at)
}

// The store that the file of a line holds.
pub fn open<R: Files>(rt: &R, out: &mut [u8], s: Store, line: &[u8]) -> Opened
    ensures { (result.at ≤ length out.new) × Left s result.store }
{
    let mut room = file_room();
    let name = name_of(line);
    let Some(n) = read_file(rt, name, &mut room) else {
        return stay(out, s, name, false);
    };
    if Snapshot::LONGEST < n {
        return stay(out, s, name, true);
    }
    load(out, s, &room[..n])
}
