// Which files differ: two snapshots compared.
#![tactic(auto)]

ghost use Rattle.std.specs.Prelude.{◌≡◌, length};
ghost use Rattle.model.specs.Answer.{lent};
ghost use Rattle.model.specs.File.{full};
ghost use Rattle.model.specs.DifferenceBytes as model;
ghost use Rattle.answers.specs.Outcome.{answer_of, filling};

use answers::Refusal;
use keys::Key;
use records::{Level, Version};
use snapshot_parts::Snapshot;

// The lengths of a list's parts.
#[derive(Clone, Copy)]
pub struct List {}

impl List {
    // An entry of files, without the bytes of keys: its kind and its level, then a number or a file.
    pub const HEAD: usize = 2 * Snapshot::BYTE;
    // The longest list: a version of files that only the left has, a version of others on the right, each pointer and each counter.
    pub const LONGEST: usize = 3 * Snapshot::COUNT
        + Version::ROOM * (List::HEAD + Snapshot::NUMBER)
        + Version::ROOM * (List::HEAD + Snapshot::FILE + 2 * Key::ROOM)
        + Level::COUNT * (Snapshot::POINTER + Key::ROOM)
        + Snapshot::FIVE * (Snapshot::BYTE + Snapshot::NUMBER);
}

// Room for the longest list.
fn room() -> [u8; List::LONGEST] {
    [0u8; List::LONGEST]
}

// Writes the list of what differs between two snapshots at the start of the lent output, and returns its length: entries with the right's contents, which make the right
// of the left. Refusals: 14 for the left, 14 for the right, 13. Past the list the output stays, and a refusal writes nothing.
pub fn differing(left: &[u8], right: &[u8], out: &mut [u8]) -> Result<usize, Refusal>
    ensures { (answer_of result ≡ filling (model.differing full left.now right.now (length out.old))) × (out.new ≡ lent (model.differing full left.now right.now (length out.old)) out.old) }
{
    if !snapshot_read::is_snapshot(left) {
        return Err(Refusal::Form);
    }
    if !snapshot_read::is_snapshot(right) {
        return Err(Refusal::Form);
    }
    let mut list = room();
    let n = difference_list::lay_list(left, right, &mut list);
    if out.len() < n {
        return Err(Refusal::Output);
    }
    snapshot_parts::put_bytes(out, 0, &list[0..n]);
    Ok(n)
}
