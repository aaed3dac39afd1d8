// A list of differences applied to a snapshot.
#![tactic(auto)]

ghost use Rattle.std.specs.Prelude.{◌≡◌, length};
ghost use Rattle.model.specs.Answer.{lent};
ghost use Rattle.model.specs.File.{full};
ghost use Rattle.model.specs.DifferenceBytes as model;
ghost use Rattle.answers.specs.Outcome.{answer_of, filling};

use answers::Refusal;
use snapshot_parts::Snapshot;

// Room for the longest snapshot.
fn room() -> [u8; Snapshot::LONGEST] {
    [0u8; Snapshot::LONGEST]
}

// Writes the snapshot that a list makes of the left one at the start of the lent output, and returns its length. Refusals: 14 for the left; 14 for the list, or if its
// outcome is no well-formed state; 13. Past the snapshot the output stays, and a refusal writes nothing.
pub fn patching(left: &[u8], list: &[u8], out: &mut [u8]) -> Result<usize, Refusal>
    ensures { (answer_of result ≡ filling (model.patching full left.now list.now (length out.old))) × (out.new ≡ lent (model.patching full left.now list.now (length out.old)) out.old) }
{
    if !snapshot_read::is_snapshot(left) {
        return Err(Refusal::Form);
    }
    if !patch_list::is_list(list) {
        return Err(Refusal::Form);
    }
    let mut made = room();
    let Some(n) = patch_over::lay_outcome(left, list, &mut made) else {
        return Err(Refusal::Form);
    };
    if !snapshot_read::is_snapshot(&made[0..n]) {
        return Err(Refusal::Form);
    }
    if out.len() < n {
        return Err(Refusal::Output);
    }
    snapshot_parts::put_bytes(out, 0, &made[0..n]);
    Ok(n)
}
