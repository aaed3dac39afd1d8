// Questions of a store: the level of a memory table, live files.
#![tactic(auto)]

ghost use Rattle.std.specs.Prelude.{◌≡◌, true, length};
ghost use Rattle.model.specs.Answer.{lent};
ghost use Rattle.model.specs.File.{full};
ghost use Rattle.model.specs.Question as model;
ghost use Rattle.model.specs.Calls as calls;
ghost use Rattle.answers.specs.Outcome.{answer_of, filling};
ghost use Rattle.keys.specs.Key.{user_of};
ghost use Rattle.pick_range.specs.Ranges.{span_of};
ghost use Rattle.store.specs.Store.{state_of, well_store, on_store};

use answers::Refusal;
use keys::UserKey;
use pick_range::Span;
use store::Store;

// A memory table moves down only if the level after the next has at most this many overlapping bytes.
const MOST_OVERLAP: u64 = 20971520;

// The deepest level for a memory table.
const DEEPEST: usize = 2;

// The numbers of all files of the store, rising, into lent output. Past the answer the output stays, and a refusal writes nothing.
pub fn live_files(s: Store, out: &mut [u64]) -> Result<usize, Refusal>
    ensures { (answer_of result ≡ filling (on_store s (λ t. calls.live full t (length out.old)))) × (out.new ≡ lent (on_store s (λ t. calls.live full t (length out.old))) out.old) }
{
    if !store::is_well_formed(s) {
        return Err(Refusal::Form);
    }
    let n = levels::counted(s.counts);
    if out.len() < n {
        return Err(Refusal::Output);
    }
    let column = records::numbers_of(s.files, 0, n);
    ask_lookup::lay_rising(&column[0..n], out);
    Ok(n)
}

// The level of a memory table with this range: 0 if a level 0 file overlaps it. Otherwise it moves down while the next level has no overlap and the level after has
// at most 20971520 overlapping bytes, to level 2 at most. Requires: the store is well-formed.
pub fn memtable_output_level(s: Store, span: Span) -> usize
    requires { well_store s ≡ true }
    ensures { result ≡ model.memtable_level full (state_of s) (span_of span) }
{
    let files = s.files;
    let counts = s.counts;
    let first = counts[0];
    if pick_range::has_overlap(files, 0, first, span) {
        return 0;
    }
    let second = first + counts[1];
    if pick_range::has_overlap(files, first, second, span) {
        return 0;
    }
    let third = second + counts[2];
    if MOST_OVERLAP < pick_range::overlapping_bytes(files, second, third, span) {
        return 0;
    }
    if pick_range::has_overlap(files, second, third, span) {
        return 1;
    }
    let fourth = third + counts[3];
    if MOST_OVERLAP < pick_range::overlapping_bytes(files, third, fourth, span) {
        return 1;
    }
    DEEPEST
}

// The level for a memory table with the user keys from start to stop.
pub fn pick_memtable_output_level(s: Store, start: UserKey, stop: UserKey) -> Result<usize, Refusal>
    ensures { answer_of result ≡ on_store s (λ t. calls.memtable full t (user_of start) (user_of stop)) }
{
    if !store::is_well_formed(s) {
        return Err(Refusal::Form);
    }
    if !keys::is_good_user(start) {
        return Err(Refusal::Key);
    }
    if !keys::is_good_user(stop) {
        return Err(Refusal::Key);
    }
    Ok(memtable_output_level(s, Span { start, stop }))
}
