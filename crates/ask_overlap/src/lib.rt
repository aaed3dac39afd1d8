// Questions of a level and a range: the files that overlap, and whether some file does.
#![tactic(auto)]

ghost use Rattle.std.specs.Prelude.{◌≡◌};
ghost use Rattle.model.specs.Calls as calls;
ghost use Rattle.model.specs.File.{full};
ghost use Rattle.answers.specs.Outcome.{passed, answer_of};
ghost use Rattle.keys.specs.Key.{key_of, user_of};
ghost use Rattle.store.specs.Store.{on_store};
ghost use Rattle.level_list.specs.List.{listed};
ghost use Rattle.ask_overlap.specs.Level.{level_tests};

use answers::Refusal;
use keys::{Key, UserKey};
use level_list::FileList;
use pick_range::Span;
use records::Level;
use store::Store;

// Whether a level of a store may be asked. Refusals: 14 for a store that is not well-formed, then 1 for a level above 6.
fn check_level(s: Store, level: usize) -> Result<(), Refusal>
    ensures { result ≡ passed (level_tests s level) }
{
    if !store::is_well_formed(s) {
        return Err(Refusal::Form);
    }
    if Level::COUNT <= level {
        return Err(Refusal::Level);
    }
    Ok(())
}

// Whether some file of a level overlaps a range of user keys. At level 0 the range is not widened.
pub fn overlap_in_level(
    s: Store,
    level: usize,
    start: UserKey,
    stop: UserKey,
) -> Result<bool, Refusal>
    ensures { answer_of result ≡ on_store s (λ t. calls.overlap_in_level full t level (user_of start) (user_of stop)) }
{
    check_level(s, level)?;
    if !keys::is_good_user(start) {
        return Err(Refusal::Key);
    }
    if !keys::is_good_user(stop) {
        return Err(Refusal::Key);
    }
    let from = levels::start_of(s.counts, level);
    let to = from + s.counts[level];
    let span = Span { start, stop };
    Ok(pick_range::has_overlap(s.files, from, to, span))
}

// The files of a level that overlap the range of two internal keys, in level order. Level 0 takes the least widening. They are not completed by files that share an
// edge key.
pub fn overlapping_inputs(
    s: Store,
    level: usize,
    start: Key,
    stop: Key,
) -> Result<FileList, Refusal>
    ensures { result ≡ listed (on_store s (λ t. calls.overlapping_inputs full t level (key_of start) (key_of stop) full.room)) }
{
    check_level(s, level)?;
    if !keys::is_good(start) {
        return Err(Refusal::Key);
    }
    if !keys::is_good(stop) {
        return Err(Refusal::Key);
    }
    let span = pick_range::between(start, stop);
    let chosen = pick_search::overlap_of(s, level, span);
    let files = chosen.files;
    Ok(FileList {
        files,
        count: chosen.choice.first.count,
    })
}
