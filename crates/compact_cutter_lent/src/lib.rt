// Whether to stop before a key, on memory that the caller lends: a thin layer over the cutter's step by value.
#![tactic(auto)]

ghost use Rattle.compact_cutter_lent.specs.Stopping.{Stops};

use answers::Refusal;
use compact_cutter::Cutter;
use keys::Key;
use pick_answer::Picked;

// What a step on lent memory answers, and the memory after it. After a refusal that is the one before.
#[derive(Clone, Copy)]
pub struct Stepped {
    pub told: Result<bool, Refusal>,
    pub memory: Cutter,
}

// Whether to cut before a key. The lent memory is changed in place. After a refusal it is as it was.
pub fn should_stop_before(c: Picked, m: &mut Cutter, k: Key) -> Result<bool, Refusal>
    ensures { Stops c m.old k result m.new }
{
    let s = compact_cutter::step(c, *m, k)?;
    *m = s.memory;
    Ok(s.cut)
}
