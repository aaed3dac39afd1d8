// One edit on one store. It is accepted exactly if no refusal applies, and then leaves exactly the files, pointers and log number that it names.
#![tactic(auto)]

ghost use Rattle.std.specs.Prelude.{◌≡◌, true, ◌+◌, ◌≤◌, take, Ok};
ghost use Rattle.lemmas.specs.Lists.{sum};
ghost use Rattle.model.specs.File.{full, max_files, max_pointers};
ghost use Rattle.model.specs.Edit as model;
ghost use Rattle.counters.specs.Counters.{counters_of, counters_record};
ghost use Rattle.store.specs.Store.{state_of, well_store, on_store, stored};
ghost use Rattle.edit.specs.Edit.{edit_of, log_of};
ghost use Rattle.answers.specs.Outcome.{passed};
ghost use Rattle.edit_entries.specs.Entries.{checks};
ghost use Rattle.edit_merge.specs.Builder.{merged_of};
ghost use Rattle.edit_plan.specs.Planning.{united};
ghost use Rattle.edit_apply.specs.Apply.{Plannable, plan_by, plan_for, accepted_by, pointed_by};

use answers::Refusal;
use counters::Counters;
use edit::{Edit, Pointing};
use edit_merge::Merged;
use edit_plan::EditPlan;
use keys::FileNumber;
use records::{FileRecord, Level, Version};
use store::{Pointer, Store};

// The pointers after an edit: the last for a level counts. Bytes past a key's end are not read. Requires: the count is within the pointers.
fn point(
    pointers: [Pointer; Level::COUNT],
    pointings: [Pointing; Edit::POINTINGS],
    count: usize,
) -> [Pointer; Level::COUNT]
    requires { count ≤ max_pointers }
    ensures { result ≡ pointed_by (take count pointings) pointers }
{
    let mut out = pointers;
    for p in &pointings[..count] {
        let kept = keys::kept(p.key);
        if p.level < Level::COUNT {
            out[p.level] = Pointer {
                set: true,
                key: kept,
            };
        }
    }
    out
}

// The counters with an edit's log number, if it names one.
fn with_log(c: Counters, log: Option<FileNumber>) -> Counters
    ensures { result ≡ counters_record (model.logged (log_of log) (counters_of c)) }
{
    match log {
        None => c,
        Some(log) => Counters { log, ..c },
    }
}

// The plan of an edit on levels whose file numbers are lent as a column. Requires: the plan can be made: one number for each file, within the room, none twice among
// those that stay, and an edit that has passed the tests of its entries.
fn plan_for(column: &[u64], counts: [usize; Level::COUNT], e: Edit) -> EditPlan
    requires { Plannable column.now counts e }
    ensures { result ≡ plan_by column.now counts e }
{
    let deletions = e.deletions;
    let additions = e.additions;
    edit_plan::planned(
        column,
        counts,
        deletions,
        e.deletion_count,
        additions,
        e.addition_count,
    )
}

// The survivors, merged by the plan. Requires: the store is well-formed, the edit has passed the tests of its entries, the plan is the edit's, and neither 6 nor 8
// applies.
fn survive(s: Store, e: Edit, p: EditPlan) -> Merged
    requires { (well_store s ≡ true) × (passed (checks (state_of s).counters (edit_of e)) ≡ Ok tt) × (p ≡ plan_for s e) × (p.outcome ≡ Ok tt) }
    ensures { result ≡ merged_of (united s.files s.counts (edit_of e)) }
{
    let additions = e.additions;
    let news = edit_plan::new_records(additions, e.addition_count);
    let files = s.files;
    let places = p.places;
    let counts = p.counts;
    let order = p.order;
    let new_counts = p.new_counts;
    edit_merge::merge(files, places, counts, news, order, new_counts)
}

// The store that an accepted edit leaves: the survivors, their counts, and only now the pointers and the log number. Requires: the plan's counts are together within
// the room, and the edit's pointers within its own.
fn accepted(s: Store, e: Edit, p: EditPlan, files: [FileRecord; Version::ROOM]) -> Store
    requires { (sum p.counts + sum p.new_counts ≤ max_files) × (e.pointing_count ≤ max_pointers) }
    ensures { result ≡ accepted_by s e p files }
{
    let counts = edit_merge::add_counts(p.counts, p.new_counts);
    let pointers = point(s.pointers, e.pointings, e.pointing_count);
    let counters = with_log(s.counters, e.log);
    Store {
        files,
        counts,
        pointers,
        counters,
    }
}

// Applies one edit to one store. It changes nothing before the build has succeeded. A refusal gives no store: the caller has it.
pub fn apply(s: Store, e: Edit) -> Result<Store, Refusal>
    ensures { result ≡ stored (on_store s (λ t. model.edit full t (edit_of e))) }
{
    let look = store::look_numbers(s);
    if !look.well {
        return Err(Refusal::Form);
    }
    edit_entries::check(s.counters, e)?;
    let column = look.numbers;
    let total = look.total;
    let p = plan_for(&column[..total], s.counts, e);
    p.outcome?;
    let merged = survive(s, e, p);
    if !merged.fits {
        return Err(Refusal::Collision);
    }
    Ok(accepted(s, e, p, merged.files))
}
