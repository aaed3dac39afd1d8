// Picks on a store that the caller lends. The plan is followed and the level's pointer is set in place. A refused pick leaves the store as it was.
#![tactic(auto)]

ghost use Rattle.model.specs.File.{full};
ghost use Rattle.model.specs.Pick as model;
ghost use Rattle.keys.specs.Key.{key_of};
ghost use Rattle.store.specs.Store.{on_store};
ghost use Rattle.pick_plan.specs.Plans.{picks_from, Feasible};
ghost use Rattle.pick_lent.specs.Taking.{Leaves};

use answers::Refusal;
use keys::Key;
use pick_answer::Picked;
use pick_plan::PickPlan;
use store::Store;

// A size pick at the level with the greatest score. Refused with 10 if no work is due.
pub fn pick_compaction(s: &mut Store, maximum: u64) -> Result<Picked, Refusal>
    ensures { Leaves s.old (on_store s.old (λ t. model.size_pick full t maximum)) result s.new }
{
    // The level with the greatest score, and its first file after the pointer, or the first: 14, 9, 10.
    let plan = pick_plan::size_plan(s, maximum)?;
    follow(s, plan)
}

// A manual pick of the files of a level that overlap the range of two internal keys.
pub fn compact_range(
    s: &mut Store,
    maximum: u64,
    level: usize,
    start: Key,
    stop: Key,
) -> Result<Picked, Refusal>
    ensures { Leaves s.old (on_store s.old (λ t. model.manual_pick full t maximum level (key_of start) (key_of stop))) result s.new }
{
    // The range and the limit of bytes: 14, 1, 2, 9, 11.
    let plan = pick_plan::range_plan(s, maximum, level, start, stop)?;
    follow(s, plan)
}

// Follows a plan on a lent store: makes its searches and sets the level's pointer. Requires: the plan's searches can begin on the store.
fn follow(s: &mut Store, plan: PickPlan) -> Result<Picked, Refusal>
    requires { Feasible s.old plan }
    ensures { Leaves s.old (picks_from s.old plan.cause plan.asked plan.search) result s.new }
{
    store::shaped(s);
    // First inputs, second inputs, growth, grandparents. Input lists are completed where files share an edge key.
    let c = pick_search::choose(s, plan.asked, plan.search);
    // 10 where nothing qualifies.
    if c.first.count == 0 {
        return Err(Refusal::Nothing);
    }
    // The lists of the answer, in that order.
    let files = pick_search::laid(s, c);
    // The level's pointer becomes the completed first inputs' largest key.
    s.pointers = pick_plan::pointed(s.pointers, c);
    Ok(Picked {
        level: c.level,
        cause: plan.cause,
        maximum: c.maximum,
        files,
        first: c.first.count,
        second: c.second.count,
        grand: c.grand.count,
    })
}
