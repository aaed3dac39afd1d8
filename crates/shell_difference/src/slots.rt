// Snapshots kept under the letters a and b, in lent bytes: a slot for each, which begins with the length of what it holds. A length of 0: nothing is kept.
ghost use Rattle.std.specs.Prelude.{◌≤◌, ◌≡◌, length};
ghost use Rattle.shell_difference.specs.Slots.{slot_long, kept_long};

use answers::Refusal;
use script_parts::Run;
use snapshot_parts::Snapshot;
use store::Store;

// The lengths of the slots.
#[derive(Clone, Copy)]
pub struct Kept {}

impl Kept {
    // A slot: a length, then room for the longest snapshot.
    pub const SLOT: usize = Snapshot::COUNT + Snapshot::LONGEST;
    // The slots of both letters.
    pub const ROOM: usize = 2 * Kept::SLOT;
}

// Slots in which nothing is kept.
pub fn nothing() -> [u8; Kept::ROOM]
    ensures { kept_long ≡ length result }
{
    [0u8; Kept::ROOM]
}

// Where the slot of a letter begins.
fn slot_of(letter: u8) -> usize
    ensures { result ≤ slot_long }
{
    if letter == b'b' {
        return Kept::SLOT;
    }
    0
}

// Keeps a store's snapshot under a letter, and its length before it. It is refused as a snapshot is that is written.
pub(crate) fn keep(kept: &mut [u8], letter: u8, s: Store) -> Result<(), Refusal> {
    let slot = slot_of(letter);
    let from = slot + Snapshot::COUNT;
    let to = slot + Kept::SLOT;
    if kept.len() < to {
        return Err(Refusal::Output);
    }
    let n = snapshot_write::write(s, &mut kept[from..to])?;
    snapshot_parts::put_number(kept, slot, Snapshot::COUNT, n as u64);
    Ok(())
}

// Where the snapshot stands that is kept under a letter: an empty run if nothing is.
fn run_of(kept: &[u8], letter: u8) -> Run
    ensures { (result.from ≤ result.to) × (result.to ≤ length kept.now) }
{
    let slot = slot_of(letter);
    if kept.len() < slot {
        return Run { from: 0, to: 0 };
    }
    let n = snapshot_parse::get_number(kept, slot, Snapshot::COUNT);
    let from = snapshot_parse::after(kept, slot, Snapshot::COUNT);
    Run {
        from,
        to: snapshot_parse::after(kept, from, n as usize),
    }
}

// The letter that a word names, as `$a`, if it names one.
fn letter_of(line: &[u8], w: Run) -> Option<u8> {
    if script_words::is_word(line, w.from, w.to, b"$a") {
        return Some(b'a');
    }
    if script_words::is_word(line, w.from, w.to, b"$b") {
        return Some(b'b');
    }
    None
}

// Whether a word names a letter under which nothing is kept.
pub(crate) fn is_empty(kept: &[u8], line: &[u8], w: Run) -> bool {
    let Some(letter) = letter_of(line, w) else {
        return false;
    };
    let r = run_of(kept, letter);
    r.to <= r.from
}

// Writes the bytes that a word stands for to lent bytes, as far as there is room: what is kept, or those of hex digits. Returns how many.
pub(crate) fn lay_word(kept: &[u8], line: &[u8], w: Run, room: &mut [u8]) -> usize
    ensures { result ≤ length room.new }
{
    let Some(letter) = letter_of(line, w) else {
        return script_words::lay_hex(line, w.from, w.to, room);
    };
    let r = run_of(kept, letter);
    let n = script_lines::put(room, 0, &kept[r.from..r.to]);
    script_lines::within(room, n)
}
