// The store after each call: the one that it returns, or after a refusal the caller's own. These functions show that the definition of histories uses the calls as
// the code has them.
#![tactic(auto, unfolding(crate::specs::History::called))]

ghost use Rattle.std.specs.Prelude.{◌≡◌};
ghost use Rattle.history.specs.History as history;
ghost use Rattle.history.specs.History.{called, pick_size, pick_range, new_number, reuse_number, mark_number, set_last, set_manifest, set_previous};

use edit::Edit;
use keys::{FileNumber, Key, SequenceNumber};
use store::Store;

// The store after an edit. Internal.
pub fn after_edit(s: Store, e: Edit) -> Store
    ensures { result ≡ called s (history.apply e) }
{
    edit_apply::apply(s, e).unwrap_or(s)
}

// The store after a size pick. Internal.
pub fn after_size_pick(s: Store, maximum: u64) -> Store
    ensures { result ≡ called s (pick_size maximum) }
{
    pick::pick_compaction(s, maximum).map_or(s, |p| p.store)
}

// The store after a manual pick. Internal.
pub fn after_manual_pick(s: Store, maximum: u64, level: usize, start: Key, stop: Key) -> Store
    ensures { result ≡ called s (pick_range maximum level start stop) }
{
    pick::compact_range(s, maximum, level, start, stop).map_or(s, |p| p.store)
}

// The store after a number is handed out. Internal.
pub fn after_new(s: Store) -> Store
    ensures { result ≡ called s new_number }
{
    store_numbers::new_file_number(s).map_or(s, |h| h.store)
}

// The store after a number is given back. Internal.
pub fn after_reuse(s: Store, n: FileNumber) -> Store
    ensures { result ≡ called s (reuse_number n) }
{
    store_numbers::reuse_file_number(s, n).unwrap_or(s)
}

// The store after a number is marked as used. Internal.
pub fn after_mark(s: Store, n: FileNumber) -> Store
    ensures { result ≡ called s (mark_number n) }
{
    store_numbers::mark_file_number_used(s, n).unwrap_or(s)
}

// The store after the last sequence is set. Internal.
pub fn after_last(s: Store, n: SequenceNumber) -> Store
    ensures { result ≡ called s (set_last n) }
{
    store_numbers::set_last_sequence(s, n).unwrap_or(s)
}

// The store after the manifest number is set. Internal.
pub fn after_manifest(s: Store, n: FileNumber) -> Store
    ensures { result ≡ called s (set_manifest n) }
{
    store_numbers::set_manifest_number(s, n).unwrap_or(s)
}

// The store after the previous log number is set. Internal.
pub fn after_previous(s: Store, n: FileNumber) -> Store
    ensures { result ≡ called s (set_previous n) }
{
    store_numbers::set_previous_log(s, n).unwrap_or(s)
}
