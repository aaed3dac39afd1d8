// shell: reads a script on standard input and prints one answer line for each command.
#![tactic(auto)]

use shell_answer::{Begun, Command};
use shell_machine::Machine;
use std::io::Read;
use std::rt::Files;
use store::Store;

// The maximum file size before a script names one.
const MAXIMUM: u64 = 2097152;

// Prints the first bytes as a line. Says so where they leave no room for its end: then the answer may be cut.
fn print(out: &mut [u8], at: usize) {
    let end = script_lines::put_byte(out, at, b'\n');
    if end <= at {
        io::write_all(1, b"bad answer: longer than the room for it\n");
        return;
    }
    if end <= out.len() {
        io::write_all(1, &out[..end]);
    }
}

// Writes the store's snapshot: keeps it under a letter, or saves it to a file.
fn put_written<R: Files>(
    rt: &R,
    out: &mut [u8],
    kept: &mut [u8],
    s: Store,
    line: &[u8],
    which: u8,
) -> usize {
    if which == b'k' {
        return shell_difference::keep(out, s, line, kept);
    }
    shell_file::save(rt, out, s, line)
}

// Lays the answer of a command that leaves the machine as it is, and says where it ends.
fn put_still<R: Files>(
    rt: &R,
    out: &mut [u8],
    kept: &mut [u8],
    s: Store,
    line: &[u8],
    c: Command,
) -> usize {
    if c.group == b'd' {
        return shell_difference::put_answer(out, kept, line, c.which);
    }
    if c.group == b'w' {
        return put_written(rt, out, kept, s, line, c.which);
    }
    shell_answer::put_asked(out, s, line, c)
}

// Answers a line. The machine is lent, so that a line copies no more of it than it asks about or changes.
fn answer<R: Files>(rt: &R, out: &mut [u8], kept: &mut [u8], m: &mut Machine, line: &[u8]) {
    match shell_answer::begin(out, line) {
        Begun::Silent => {}
        Begun::Laid(at) => print(out, at),
        Begun::Asks(c) => {
            let at = put_still(rt, out, kept, m.store, line, c);
            print(out, at)
        }
        Begun::Turns(c) => {
            *m = shell_machine::turn(rt, out, *m, line, c.group, c.which);
            print(out, m.at)
        }
    }
}

// The first bytes of a line, without a carriage return at their end. Says so if the line is too long, and then gives none.
fn front<'a>(out: &mut [u8], line: &'a [u8], count: usize) -> &'a [u8] {
    match line.get(..count) {
        Some(whole) => whole.strip_suffix(b"\r").unwrap_or(whole),
        None => {
            let at = script_table::put_too_long(out);
            print(out, at);
            &[]
        }
    }
}

// Answers the line of so many bytes.
fn take<R: Files>(
    rt: &R,
    out: &mut [u8],
    kept: &mut [u8],
    m: &mut Machine,
    line: &[u8],
    count: usize,
) {
    let whole = front(out, line, count);
    answer(rt, out, kept, m, whole)
}

// One byte more of a line. If there is no room, only the count grows, up to one past the room.
fn push(line: &mut [u8], n: usize, b: u8) -> usize {
    if n < line.len() {
        line[n] = b;
        return n + 1;
    }
    if n == line.len() {
        return n + 1;
    }
    n
}

// Reads standard input block after block and answers line after line.
fn main(rt: HostRuntime) {
    let mut m = shell_machine::fresh(MAXIMUM);
    let mut kept = shell_difference::nothing();
    let mut out = io::large_buffer();
    let mut line = io::large_buffer();
    let mut n: usize = 0;
    let mut block = io::large_buffer();
    let mut input = rt.stdin();
    for _ in 0..u64::MAX {
        let count = match input.read(&mut block) {
            Ok(got) => got,
            Err(_) => 0,
        };
        if count == 0 {
            if 0 < n {
                take(&rt, &mut out, &mut kept, &mut m, &line, n);
            }
            return;
        }
        for b in &block[..count] {
            if *b == b'\n' {
                take(&rt, &mut out, &mut kept, &mut m, &line, n);
                n = 0;
            } else {
                n = push(&mut line, n, *b);
            }
        }
    }
}
