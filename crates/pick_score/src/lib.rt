// When to compact: the level with the greatest score, its score, and whether work is due.
#![tactic(auto)]

ghost use Rattle.std.specs.Prelude.{◌≡◌, ◌<◌};
ghost use Rattle.model.specs.File.{full, last_level};
ghost use Rattle.model.specs.Score.{best_from, Lossless};
ghost use Rattle.model.specs.Calls as calls;
ghost use Rattle.store.specs.Store.{on_store};
ghost use Rattle.pick_score.specs.Scores.{whole_of, score_at, scores_by, scored_as, scored_by, amounts_by, work_of, Amounts};

use answers::Refusal;
use records::Level;
use store::Store;

// The level to compact and its score.
#[derive(Clone, Copy)]
pub struct Scored {
    pub level: usize,
    // Files at level 0, bytes deeper.
    pub amount: u64,
    // The amount at which work is due.
    pub limit: u64,
    // The reported score: amount over limit.
    pub score: f64,
    // Whether work is due.
    pub due: bool,
}

// The number of level 0 files at which work is due.
const FILE_LIMIT: u64 = 4;

// 104857600000 over the limit of each level. Scores compare as their amounts times these.
const TIMES: [u64; Level::LAST] = [26214400000, 10000, 1000, 100, 10, 1];

// The limit of a level: files at level 0, bytes deeper. Requires: the level has a score, so it is not the last.
fn limit_of(level: usize) -> u64
    requires { level < last_level }
    ensures { result ≡ whole_of level }
{
    if level == 0 {
        return FILE_LIMIT;
    }
    records::byte_limit(level)
}

// The lowest of the levels with the greatest exact fraction. Requires: no amount is above that of a full version.
fn best_level(amounts: [u64; Level::COUNT]) -> usize
    requires { Amounts amounts }
    ensures { result ≡ best_from (scores_by amounts) 0 1 5 }
{
    let mut best: usize = 0;
    for level in 1..Level::LAST {
        if amounts[best] * TIMES[best] < amounts[level] * TIMES[level] {
            best = level;
        }
    }
    best
}

// The score of a level: one f64 division of its amount by its limit, each converted without loss. Requires: the level has a score, and both numbers are below 2^53.
fn scored_at(level: usize, amount: u64) -> Scored
    requires { (level < last_level) × Lossless (score_at level amount) }
    ensures { result ≡ scored_as level (score_at level amount) }
{
    let limit = limit_of(level);
    let part = amount as f64;
    let whole = limit as f64;
    Scored {
        level,
        amount,
        limit,
        score: part / whole,
        due: limit <= amount,
    }
}

// The level to compact and its score, by the bytes and the counts of all levels. Internal. Requires: the bytes and counts are no more than a full version has.
pub fn finalize(bytes: [u64; Level::COUNT], counts: [usize; Level::COUNT]) -> Scored
    requires { Amounts (amounts_by bytes counts) }
    ensures { result ≡ scored_by (amounts_by bytes counts) }
{
    let mut amounts = bytes;
    amounts[0] = counts[0] as u64;
    let level = best_level(amounts);
    scored_at(level, amounts[level])
}

// The level to compact, its score and whether work is due.
pub fn needs_compaction(s: Store) -> Result<Scored, Refusal>
    ensures { result ≡ work_of (on_store s (calls.needs_compaction full)) }
{
    let look = store::look(s);
    if !look.well {
        return Err(Refusal::Form);
    }
    Ok(finalize(look.bytes, s.counts))
}
