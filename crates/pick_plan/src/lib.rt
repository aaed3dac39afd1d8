// What a pick decides outside its searches: its refusals, the file that a size pick starts with, its plan on a lent store, and the pointer that it sets.
#![tactic(auto)]

ghost use Rattle.std.specs.Prelude.{◌≡◌, true, ◌<◌, ◌≤◌};
ghost use Rattle.lemmas.specs.Lists.{sum};
ghost use Rattle.model.specs.Key.{before};
ghost use Rattle.model.specs.Pick as model;
ghost use Rattle.model.specs.File.{full, level_count, max_files};
ghost use Rattle.keys.specs.Key.{key_of};
ghost use Rattle.pick_plan.specs.Starts.{one_found, limit_of, search_of, started_by, places_of, start_among, first_after, Starts};
ghost use Rattle.pick_plan.specs.Plans.{SizePlanned, RangePlanned, pointers_by, Plans};
ghost use Rattle.store.specs.Store.{well_store, look_of, on_store, StoreShape};

use answers::Refusal;
use bisect::Window;
use keys::Key;
use pick_answer::{Cause, Picked};
use pick_found::FoundRun;
use pick_score::Scored;
use pick_search::{Choice, Sweep};
use records::{Ends, FileRecord, Level};
use store::{Pointer, Store};

// What a size pick starts with.
#[derive(Clone, Copy)]
pub struct Started {
    // The place of the file to start with, if any.
    pub start: Option<usize>,
    // The file there, completed above level 0, or no files.
    pub first: FoundRun,
}

// The plan of a pick.
#[derive(Clone, Copy)]
pub struct PickPlan {
    pub cause: Cause,
    // The choice that the searches begin with.
    pub asked: Choice,
    // The number of the first search to make.
    pub search: usize,
}

// Whether a maximum file size is not 1 to 2^32.
fn is_bad_maximum(maximum: u64) -> bool
    ensures { result ≡ model.bad_maximum maximum }
{
    if maximum < 1 {
        return true;
    }
    Picked::LARGEST_MAXIMUM < maximum
}

// The places of a level's files, or none if no work is due. Requires: the level is one of the seven, and the counts are together within the room.
fn start_places(counts: [usize; Level::COUNT], level: usize, due: bool) -> Window
    requires { (level < level_count) × (sum counts ≤ max_files) }
    ensures { result ≡ places_of counts level due }
{
    if !due {
        return Window { lo: 0, hi: 0 };
    }
    let from = levels::start_of(counts, level);
    Window {
        lo: from,
        hi: from + counts[level],
    }
}

// The first place whose file's largest key is after a key, or the end of the places. Requires: the store has its shape, and the places are in order and within the
// room.
fn first_after(s: &Store, p: Window, key: Key) -> usize
    requires { StoreShape s.now × (p.lo ≤ p.hi) × (p.hi ≤ max_files) }
    ensures { result ≡ first_after (key_of key) p s.now.files }
{
    for at in p.lo..p.hi {
        let f = store::file_at(s, at);
        let after = keys::is_before(key, f.largest);
        if after {
            return at;
        }
    }
    p.hi
}

// The place to start with: i if there is a pointer and i is one of the places, else the first place. 0 if there are no places.
fn start_place(p: Window, pointed: bool, i: usize) -> usize
    ensures { result ≡ start_among p pointed i }
{
    if p.hi <= p.lo {
        return 0;
    }
    if pointed && i < p.hi {
        return i;
    }
    p.lo
}

// One file found, by its place and its record.
fn one_file(i: usize, f: FileRecord) -> FoundRun
    ensures { result ≡ one_found i f }
{
    FoundRun {
        from: i,
        count: 1,
        ends: Ends {
            low: f.smallest,
            high: f.largest,
        },
        bytes: f.size,
    }
}

// A start with the file f at place i, or with nothing if there are no places.
fn started_by(p: Window, i: usize, f: FileRecord) -> Started
    ensures { result ≡ started_by p i f }
{
    if p.hi <= p.lo {
        return Started {
            start: None,
            first: pick_found::nothing_at(p.hi),
        };
    }
    Started {
        start: Some(i),
        first: one_file(i, f),
    }
}

// What a size pick starts with: the level's first file whose largest key is after the pointer, or its first file if there is no pointer or none is after it. Above
// level 0 it is completed. Nothing if no work is due. Requires: the store has its shape and is well-formed, and the level is one of the seven.
fn size_start(s: &Store, level: usize, due: bool) -> Started
    requires { StoreShape s.now × (well_store s.now ≡ true) × (level < level_count) }
    ensures { Starts s.now level due result }
{
    let p = start_places(s.counts, level, due);
    let z = s.pointers[level];
    let i = first_after(s, p, z.key);
    let j = start_place(p, z.set, i);
    let f = store::file_at(s, j);
    let one = started_by(p, j, f);
    let q = pick_search::edge_question(level, p.hi);
    let first = pick_search::taken(s, q, one.first, Sweep::BY_EDGE);
    Started { first, ..one }
}

// The first search of a size pick. Above level 0 it has its first inputs and goes straight to second inputs. At level 0 it searches by the range of its file, and
// the widening replaces that file.
fn search_of(level: usize) -> usize
    ensures { result ≡ search_of level }
{
    if level == 0 {
        return Choice::FIRST;
    }
    Choice::SECOND
}

// The plan of a size pick, by the level to compact and what it starts with.
fn size_planned(scored: Scored, started: Started, maximum: u64) -> Result<PickPlan, Refusal>
    ensures { SizePlanned scored started maximum result }
{
    if is_bad_maximum(maximum) {
        return Err(Refusal::Counter);
    }
    let Some(i) = started.start else {
        return Err(Refusal::Nothing);
    };
    // Its first inputs, from that place on.
    let first = FoundRun {
        from: i,
        ..started.first
    };
    let span = pick_found::range_of(first);
    let level = scored.level;
    let asked = pick_search::asking(level, maximum, span, FoundRun::ALL);
    Ok(PickPlan {
        cause: Cause::Size(scored.score),
        asked: Choice { first, ..asked },
        search: search_of(level),
    })
}

// The plan of a size pick, by the bytes of the levels. Requires: the store has its shape and is well-formed, and the bytes are its levels'.
fn size_asked(s: &Store, bytes: [u64; Level::COUNT], maximum: u64) -> Result<PickPlan, Refusal>
    requires { StoreShape s.now × (well_store s.now ≡ true) × (bytes ≡ (look_of s.now).bytes) }
    ensures { Plans s.now (on_store s.now (λ t. model.size_pick full t maximum)) result }
{
    let scored = pick_score::finalize(bytes, s.counts);
    let started = size_start(s, scored.level, scored.due);
    size_planned(scored, started, maximum)
}

// The plan of a size pick on a lent store. Internal.
pub fn size_plan(s: &Store, maximum: u64) -> Result<PickPlan, Refusal>
    ensures { Plans s.now (on_store s.now (λ t. model.size_pick full t maximum)) result }
{
    store::shaped(s);
    let seen = store::look(*s);
    if !seen.well {
        return Err(Refusal::Form);
    }
    size_asked(s, seen.bytes, maximum)
}

// The byte limit of a manual pick's first inputs: none at level 0, M deeper.
fn limit_of(level: usize, maximum: u64) -> u64
    ensures { result ≡ limit_of maximum level }
{
    if level == 0 {
        return FoundRun::ALL;
    }
    maximum
}

// The plan of a manual pick, given whether the store is well-formed.
fn range_planned(
    well: bool,
    maximum: u64,
    level: usize,
    start: Key,
    stop: Key,
) -> Result<PickPlan, Refusal>
    ensures { RangePlanned well maximum level (key_of start) (key_of stop) result }
{
    if !well {
        return Err(Refusal::Form);
    }
    if Level::COUNT <= level {
        return Err(Refusal::Level);
    }
    if !keys::is_good(start) {
        return Err(Refusal::Key);
    }
    if !keys::is_good(stop) {
        return Err(Refusal::Key);
    }
    if is_bad_maximum(maximum) {
        return Err(Refusal::Counter);
    }
    if Level::COUNT <= level + 1 {
        return Err(Refusal::LastLevel);
    }
    let span = pick_range::between(start, stop);
    let asked = pick_search::asking(level, maximum, span, limit_of(level, maximum));
    Ok(PickPlan {
        cause: Cause::Manual,
        asked,
        search: Choice::FIRST,
    })
}

// The plan of a manual pick on a lent store. Internal.
pub fn range_plan(
    s: &Store,
    maximum: u64,
    level: usize,
    start: Key,
    stop: Key,
) -> Result<PickPlan, Refusal>
    ensures { Plans s.now (on_store s.now (λ t. model.manual_pick full t maximum level (key_of start) (key_of stop))) result }
{
    let well = store::is_well_formed(*s);
    range_planned(well, maximum, level, start, stop)
}

// The pointers after a pick: the level's becomes the first inputs' largest key, if there are any. Internal. Requires: the level is one of the seven.
pub fn pointed(pointers: [Pointer; Level::COUNT], c: Choice) -> [Pointer; Level::COUNT]
    requires { c.level < level_count }
    ensures { result ≡ pointers_by pointers c }
{
    if c.first.count == 0 {
        return pointers;
    }
    let key = keys::kept(c.first.ends.high);
    let mut after = pointers;
    after[c.level] = Pointer { set: true, key };
    after
}
