// The shell's answers that leave the machine as it is: what a line is, what is wrong with it, and the answers to questions.
#![tactic(auto)]

ghost use Rattle.std.specs.Prelude.{◌≤◌, length};
ghost use Rattle.shell_answer.specs.Beginning.{end_of};

use store::Store;

// A command: its group and its letter in the table of commands.
#[derive(Clone, Copy)]
pub struct Command {
    pub group: u8,
    pub which: u8,
}

// What is known of a line.
#[derive(Clone, Copy)]
pub enum Begun {
    // It gives no answer.
    Silent,
    // Its answer is laid, and ends at this place.
    Laid(usize),
    // A command that leaves the machine as it is. Its answer is still to be laid.
    Asks(Command),
    // A command that changes the machine.
    Turns(Command),
}

// Whether the commands of a group leave the machine as it is: those about two snapshots, the store's snapshot, the store, its files.
fn is_still(group: u8) -> bool {
    matches!(group, b'd' | b'w' | b'a' | b'q')
}

// The text after the first word.
fn put_echo(out: &mut [u8], line: &[u8]) -> usize
    ensures { result ≤ length out.new }
{
    let n = line.len();
    if n < 6 {
        return 0;
    }
    let at = script_lines::put(out, 0, &line[5..]);
    script_lines::within(out, at)
}

// The answer of a command that needs no store.
fn put_plain(out: &mut [u8], line: &[u8], which: u8) -> usize
    ensures { result ≤ length out.new }
{
    if which == b'e' {
        return put_echo(out, line);
    }
    if which == b'h' {
        return script_table::put_help(out, line);
    }
    shell_key::put_answer(out, line, which)
}

// The answer to a question about the store, its levels or its keys.
pub fn put_asked(out: &mut [u8], s: Store, line: &[u8], c: Command) -> usize
    ensures { result ≤ length out.new }
{
    if c.group == b'a' {
        return shell_ask::put_answer(out, s, line, c.which);
    }
    shell_find::put_answer(out, s, line, c.which)
}

// Whether a line gives no answer: it is blank, or begins with #.
fn is_silent(line: &[u8]) -> bool {
    match line.first() {
        Some(b) => *b == b'#',
        None => true,
    }
}

// Reads a line, and lays its answer where that needs no store.
pub fn begin(out: &mut [u8], line: &[u8]) -> Begun
    ensures { end_of result ≤ length out.new }
{
    if is_silent(line) {
        return Begun::Silent;
    }
    let r = script_table::read(line);
    if r.fault.kind != 0 {
        return Begun::Laid(script_table::put_fault(out, line, r.fault));
    }
    if r.group == b'p' {
        return Begun::Laid(put_plain(out, line, r.which));
    }
    let command = Command {
        group: r.group,
        which: r.which,
    };
    if is_still(r.group) {
        return Begun::Asks(command);
    }
    Begun::Turns(command)
}
