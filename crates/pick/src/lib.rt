// Picks on a store by value: size picks and manual picks, each with the store that it leaves.
#![tactic(auto)]

ghost use Rattle.std.specs.Prelude.{◌≡◌};
ghost use Rattle.model.specs.File.{full};
ghost use Rattle.model.specs.Pick as model;
ghost use Rattle.keys.specs.Key.{key_of};
ghost use Rattle.store.specs.Store.{on_store};
ghost use Rattle.pick_answer.specs.Picked.{pick_of};

use answers::Refusal;
use keys::Key;
use pick_answer::Pick;
use store::Store;

// A size pick at the level with the greatest score. Refused with 10 if no work is due.
pub fn pick_compaction(s: Store, maximum: u64) -> Result<Pick, Refusal>
    ensures { result ≡ pick_of (on_store s (λ t. model.size_pick full t maximum)) }
{
    let mut store = s;
    let picked = pick_lent::pick_compaction(&mut store, maximum)?;
    Ok(Pick { picked, store })
}

// A manual pick of the files of a level that overlap the range of two internal keys.
pub fn compact_range(
    s: Store,
    maximum: u64,
    level: usize,
    start: Key,
    stop: Key,
) -> Result<Pick, Refusal>
    ensures { result ≡ pick_of (on_store s (λ t. model.manual_pick full t maximum level (key_of start) (key_of stop))) }
{
    let mut store = s;
    let picked = pick_lent::compact_range(&mut store, maximum, level, start, stop)?;
    Ok(Pick { picked, store })
}
