// Calls made many times in a row on what is lent once, for timing: picks, each on the store that the one before has left, and searches in one list.
#![tactic(auto)]

ghost use Rattle.std.specs.Prelude.{◌≡◌, map, ◌+◌, ◌≤◌, take};
ghost use Rattle.model.specs.File.{max_files};
ghost use Rattle.keys.specs.Key.{key_of};
ghost use Rattle.records.specs.Record.{file_of};
ghost use Rattle.bench_loops.specs.Rounds.{Asking, asked};
ghost use Rattle.bench_loops.specs.Turns.{sizes_done, ranges_done};

use keys::Key;
use records::{FileRecord, Version};
use store::Store;

// ---- picks

// Many size picks, each on the store that the one before left. Returns how many were not refused. Requires: at most 2^32 picks.
fn pick_in_turn(s: &mut Store, maximum: u64, times: u64) -> u64
    requires { times ≤ 4294967296 }
    ensures { result ≡ sizes_done times s.old maximum }
{
    let mut done: u64 = 0;
    for _ in 0..times {
        if pick_lent::pick_compaction(s, maximum).is_ok() {
            done += 1;
        }
    }
    done
}

// The same on a store by value, which is lent once. Internal. Requires: at most 2^32 picks.
pub fn pick_many(s: Store, maximum: u64, times: u64) -> u64
    requires { times ≤ 4294967296 }
    ensures { result ≡ sizes_done times s maximum }
{
    let mut t = s;
    pick_in_turn(&mut t, maximum, times)
}

// Many manual picks, likewise. Requires: at most 2^32 picks.
fn compact_in_turn(
    s: &mut Store,
    maximum: u64,
    level: usize,
    start: Key,
    stop: Key,
    times: u64,
) -> u64
    requires { times ≤ 4294967296 }
    ensures { result ≡ ranges_done times s.old maximum level (key_of start) (key_of stop) }
{
    let mut done: u64 = 0;
    for _ in 0..times {
        if pick_lent::compact_range(s, maximum, level, start, stop).is_ok() {
            done += 1;
        }
    }
    done
}

// The same on a store by value, which is lent once. Internal. Requires: at most 2^32 picks.
pub fn compact_many(s: Store, maximum: u64, level: usize, start: Key, stop: Key, times: u64) -> u64
    requires { times ≤ 4294967296 }
    ensures { result ≡ ranges_done times s maximum level (key_of start) (key_of stop) }
{
    let mut t = s;
    compact_in_turn(&mut t, maximum, level, start, stop, times)
}

// ---- searches

// Two keys asked in turn: which is next, how many searches are left, and the sum of the places found.
#[derive(Clone, Copy)]
pub struct Round {
    pub next: Key,
    pub after: Key,
    pub left: usize,
    pub sum: usize,
}

// The searches of a round in a lent list that is a well-formed level above 0.
fn find_in_turn(files: &[FileRecord], round: Round) -> usize
    requires { Asking (map file_of files.now) round }
    ensures { result ≡ round.sum + asked round.left (key_of round.next) (key_of round.after) (map file_of files.now) }
{
    let mut next = round.next;
    let mut after = round.after;
    let mut sum = round.sum;
    for _ in 0..round.left {
        sum += ask_find::find_in_level(files, next);
        (next, after) = (after, next);
    }
    sum
}

// Internal. Requires: the first n records are a well-formed level above 0, and the sum stays small. Many searches in them, lent once: the sum of the places found.
pub fn find_many(files: [FileRecord; Version::ROOM], n: usize, round: Round) -> usize
    requires { (n ≤ max_files) × Asking (map file_of (take n files)) round }
    ensures { result ≡ round.sum + asked round.left (key_of round.next) (key_of round.after) (map file_of (take n files)) }
{
    find_in_turn(&files[..n], round)
}
