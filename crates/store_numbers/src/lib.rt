// The counter calls: file numbers handed out, given back and marked as used, and counters set.
#![tactic(auto)]

ghost use Rattle.std.specs.Prelude.{◌≡◌};
ghost use Rattle.model.specs.File.{full};
ghost use Rattle.model.specs.Counters as model;
ghost use Rattle.model.specs.Calls as calls;
ghost use Rattle.store.specs.Store.{on_store, stored};
ghost use Rattle.store_numbers.specs.Numbering.{handed, counting, setting};

use answers::Refusal;
use counters::Counters;
use keys::{FileNumber, SequenceNumber};
use store::Store;

// What `new_file_number` hands out, and the store that it leaves.
#[derive(Clone, Copy)]
pub struct Handed {
    pub number: FileNumber,
    pub store: Store,
}

// Hands out a number for a new file: the next file number, which then grows by one.
pub fn new_file_number(s: Store) -> Result<Handed, Refusal>
    ensures { result ≡ handed (on_store s (calls.new_number full)) }
{
    if !store::is_well_formed(s) {
        return Err(Refusal::Form);
    }
    let next = s.counters.next;
    if Counters::LARGEST <= next.0 {
        return Err(Refusal::Counter);
    }
    let after = FileNumber(next.0 + 1);
    Ok(Handed {
        number: next,
        store: with_counters(
            s,
            Counters {
                next: after,
                ..s.counters
            },
        ),
    })
}

// Gives a number back: next becomes n if n + 1 is next, else nothing changes.
pub fn reuse_file_number(s: Store, n: FileNumber) -> Result<Store, Refusal>
    ensures { result ≡ stored (on_store s (λ t. model.counter full t (model.reuse n.0))) }
{
    if !store::is_well_formed(s) {
        return Err(Refusal::Form);
    }
    let mut counters = s.counters;
    let next = counters.next;
    if 0 < next.0 {
        if next.0 - 1 == n.0 {
            counters.next = n;
        }
    }
    Ok(with_counters(s, counters))
}

// Marks a number as used: next becomes n + 1 if next is not above n.
pub fn mark_file_number_used(s: Store, n: FileNumber) -> Result<Store, Refusal>
    ensures { result ≡ stored (on_store s (λ t. model.counter full t (model.mark n.0))) }
{
    if !store::is_well_formed(s) {
        return Err(Refusal::Form);
    }
    if Counters::LARGEST <= n.0 {
        return Err(Refusal::Counter);
    }
    let mut counters = s.counters;
    let next = counters.next;
    if next.0 <= n.0 {
        counters.next = FileNumber(n.0 + 1);
    }
    Ok(with_counters(s, counters))
}

// Sets the last sequence.
pub fn set_last_sequence(s: Store, n: SequenceNumber) -> Result<Store, Refusal>
    ensures { result ≡ stored (on_store s (λ t. model.counter full t (model.last n.0))) }
{
    let mut counters = s.counters;
    counters.last = n;
    settled(s, n.0, counters)
}

// Sets the manifest number.
pub fn set_manifest_number(s: Store, n: FileNumber) -> Result<Store, Refusal>
    ensures { result ≡ stored (on_store s (λ t. model.counter full t (model.manifest n.0))) }
{
    let mut counters = s.counters;
    counters.manifest = n;
    settled(s, n.0, counters)
}

// Sets the previous log number.
pub fn set_previous_log(s: Store, n: FileNumber) -> Result<Store, Refusal>
    ensures { result ≡ stored (on_store s (λ t. model.counter full t (model.previous n.0))) }
{
    let mut counters = s.counters;
    counters.previous = n;
    settled(s, n.0, counters)
}

// The store with other counters, one of them set to n. Refuses a store that is not well-formed, and n beyond a counter's bound.
fn settled(old: Store, n: u64, c: Counters) -> Result<Store, Refusal>
    ensures { result ≡ setting old n c }
{
    if !store::is_well_formed(old) {
        return Err(Refusal::Form);
    }
    if Counters::LARGEST < n {
        return Err(Refusal::Counter);
    }
    Ok(with_counters(old, c))
}

// The same store with other counters.
fn with_counters(s: Store, c: Counters) -> Store
    ensures { result ≡ counting s c }
{
    Store { counters: c, ..s }
}
