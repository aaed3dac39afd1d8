// The five searches of a pick over a lent store: first inputs by a range, second inputs, growth (two searches), grandparents. Then the chosen files are copied once.
#![tactic(auto)]

ghost use Rattle.std.specs.Prelude.{◌≡◌, true, ◌+◌, ◌^◌, ◌<◌, ◌≤◌};
ghost use Rattle.lemmas.specs.Lists.{sum};
ghost use Rattle.model.specs.File.{level_count, max_bytes, max_files};
ghost use Rattle.model.specs.Key.{user, user_before};
ghost use Rattle.model.specs.Range.{widen};
ghost use Rattle.model.specs.Pick.{largest_maximum};
ghost use Rattle.pick_search.specs.Choice.{begun, asked_level, asked_span, asked_most, asked_edges, question_of, edge_question, grows_by, filled_with, runs_of, place_in, laid_choice, Widest};
ghost use Rattle.keys.specs.Key.{key_of, user_of};
ghost use Rattle.bisect.specs.Window.{half_of};
ghost use Rattle.records.specs.Run.{run};
ghost use Rattle.store.specs.Store.{well_store, StoreShape};
ghost use Rattle.pick_range.specs.Ranges.{span_of};
ghost use Rattle.pick_found.specs.FoundRun.{Contiguous, Passed};
ghost use Rattle.pick_search.specs.Search.{may_take, sweep_from, takes_next, Sweeps, spanning, Takable, Takes, Findable, Overlaps, Weighed, Searched, Ready, Chooses, Lists, Placed};

use bisect::Window;
use keys::UserKey;
use pick_found::FoundRun;
use pick_range::Span;
use records::{FileRecord, Level, Version};
use store::Store;

// A pick between two searches.
// Searches have numbers: one loop counts through them (`choose`), and an enum would need a table of its variants for that.
#[derive(Clone, Copy)]
pub struct Choice {
    pub level: usize,
    // The maximum file size M.
    pub maximum: u64,
    // The range for the first inputs.
    pub span: Span,
    // The byte limit for the first inputs.
    pub most: u64,
    // First inputs, as far as found.
    pub first: FoundRun,
    // Second inputs.
    pub second: FoundRun,
    // The files that may replace the first inputs by growth.
    pub grown: FoundRun,
    // Grandparents.
    pub grand: FoundRun,
}

impl Choice {
    // The five searches of a pick, in document 01's order. First inputs, by the pick's range.
    pub const FIRST: usize = 0;
    // Second inputs: the files of level + 1 that overlap them.
    pub const SECOND: usize = 1;
    // Growth: the level's files that overlap the joint range.
    pub const GROWN: usize = 2;
    // The files of level + 1 that overlap the grown files, which must be equally many.
    pub const AGAIN: usize = 3;
    // Grandparents: the files of level + 2 that overlap the final joint range.
    pub const GRAND: usize = 4;
    // The number of searches of a pick.
    pub const SEARCHES: usize = Choice::GRAND + 1;
    // The inputs of a pick grow only if their bytes are below this many times the maximum file size.
    pub const GROWTH_TIMES: u64 = 25;
}

// What a search looks for.
#[derive(Clone, Copy)]
pub struct Question {
    // The first place of the level.
    pub from: usize,
    // The place after its last file.
    pub to: usize,
    // Whether the range is widened: at level 0.
    pub widens: bool,
    pub span: Span,
    // The byte limit.
    pub most: u64,
    // Whether the files found are completed by those that share an edge key: above level 0, and not for grandparents.
    pub edges: bool,
}

// A search that takes files one by one.
#[derive(Clone, Copy)]
pub struct Sweep {
    // The files taken so far.
    pub found: FoundRun,
    // Whether the search goes on.
    pub goes: bool,
}

impl Sweep {
    // The two rules by which a search takes the next file: it does not begin after the range, or its smallest key follows the largest key found with the same user
    // key.
    pub const BY_RANGE: bool = false;

    pub const BY_EDGE: bool = true;
}

// Three runs of places: first inputs, second inputs, grandparents. `first`, `second` and `third` are their starts. `one`, `two` and `three` count the places up to the end
// of each run.
#[derive(Clone, Copy)]
pub struct Runs {
    pub first: usize,
    pub one: usize,
    pub second: usize,
    pub two: usize,
    pub third: usize,
    pub three: usize,
}

// The chosen files.
#[derive(Clone, Copy)]
pub struct Chosen {
    // First inputs, second inputs, grandparents, then blank records.
    pub files: [FileRecord; Version::ROOM],
    pub choice: Choice,
}

// A pick before its first search. Internal.
pub fn asking(level: usize, maximum: u64, span: Span, most: u64) -> Choice
    ensures { result ≡ begun level maximum span most }
{
    let none = pick_found::nothing_at(0);
    Choice {
        level: level,
        maximum: maximum,
        span: span,
        most: most,
        first: none,
        second: none,
        grown: none,
        grand: none,
    }
}

// The level of the k-th search: the pick's level for first inputs and growth, the next for second inputs and to check growth, the one after for grandparents.
// Requires: the level is one of the seven, and k is below 5.
fn asked_level(level: usize, k: usize) -> usize
    requires { (level < level_count) × (k < 5) }
    ensures { result ≡ asked_level level k }
{
    if k == Choice::FIRST {
        return level;
    }
    if k == Choice::SECOND {
        return level + 1;
    }
    if k == Choice::GROWN {
        return level;
    }
    if k == Choice::AGAIN {
        return level + 1;
    }
    level + 2
}

// The range of the k-th search: that of the pick, of the first inputs, of the grown files, or the joint range of first and second inputs. Requires: k is below 5.
fn asked_span(c: Choice, k: usize) -> Span
    requires { k < 5 }
    ensures { result ≡ asked_span c k }
{
    if k == Choice::FIRST {
        return c.span;
    }
    let first = c.first;
    if k == Choice::SECOND {
        return pick_found::range_of(first);
    }
    if k == Choice::AGAIN {
        let grown = c.grown;
        return pick_found::range_of(grown);
    }
    let second = c.second;
    pick_found::joint_range(first, second)
}

// The byte limit of the k-th search: only the first inputs have one.
fn asked_most(c: Choice, k: usize) -> u64
    ensures { result ≡ asked_most c k }
{
    if k == Choice::FIRST {
        return c.most;
    }
    FoundRun::ALL
}

// Whether the k-th search completes the files that it finds: above level 0, and not for grandparents.
fn asked_edges(level: usize, k: usize) -> bool
    ensures { result ≡ asked_edges level k }
{
    if level == 0 {
        return false;
    }
    k != Choice::GRAND
}

// The question of the k-th search. Requires: the level is one of the seven, k is below 5, and the counts are together within the room.
fn asked(c: Choice, k: usize, counts: [usize; Level::COUNT]) -> Question
    requires { (c.level < level_count) × (k < 5) × (sum counts ≤ max_files) }
    ensures { result ≡ question_of c k counts }
{
    let level = asked_level(c.level, k);
    let mut from: usize = 0;
    let mut to: usize = 0;
    if level < Level::COUNT {
        from = levels::start_of(counts, level);
        to = from + counts[level];
    }
    let span = asked_span(c, k);
    Question {
        from: from,
        to: to,
        widens: level == 0,
        span: span,
        most: asked_most(c, k),
        edges: asked_edges(level, k),
    }
}

// The question for the files that follow those found at a level, up to the level's end. It has no range. Internal.
pub fn edge_question(level: usize, to: usize) -> Question
    ensures { result ≡ edge_question level to }
{
    let key = keys::blank_key();
    let span = pick_range::between(key, key);
    Question {
        from: to,
        to: to,
        widens: false,
        span: span,
        most: 0,
        edges: asked_edges(level, Choice::FIRST),
    }
}

// The question with the least widening of its range. Requires: its places are within the room.
fn with_widening(q: Question, files: [FileRecord; Version::ROOM]) -> Question
    requires { q.to ≤ max_files }
    ensures { (result ≡ spanning q result.span) × (span_of result.span ≡ widen (run q.from q.to files) (span_of q.span)) }
{
    let span = q.span;
    let wide = pick_range::widened(files, q.from, q.to, span);
    let mut w = q;
    w.span = wide;
    w
}

// The question with the range to search by: at level 0 the least widening, deeper the range itself. The files are copied only at level 0. Requires: its places are
// within the room.
fn widest(s: &Store, q: Question) -> Question
    requires { q.to ≤ max_files }
    ensures { (result ≡ spanning q result.span) × Widest q s.now.files (span_of result.span) }
{
    if q.widens {
        return with_widening(q, s.files);
    }
    q
}

// The half of the places that is left after the middle file f is seen: past the middle if f ends before the range. Requires: a place is left.
fn narrowed(p: Window, start: UserKey, f: FileRecord) -> Window
    requires { p.lo < p.hi }
    ensures { result ≡ half_of p (user_before (user (key_of f.largest)) (user_of start)) }
{
    let ends_before = keys::user_is_after(start, f.largest);
    bisect::half(p, ends_before)
}

// The place after the files that end before the range, found by halves. Requires: the store has its shape, and the files that overlap the range stand side by side.
fn passed(s: &Store, q: Question) -> usize
    requires { StoreShape s.now × Contiguous s.now.files q.from q.to (span_of q.span) }
    ensures { Passed s.now.files q.from q.to (span_of q.span) result }
{
    let start = q.span.start;
    let mut p = Window {
        lo: q.from,
        hi: q.to,
    };
    // A search by halves: both ends of the window move.
    while p.lo < p.hi {
        let f = store::file_at(s, bisect::middle(p));
        p = narrowed(p, start, f);
    }
    p.lo
}

// Whether a rule may take files after those found: by the range always, by the edge only if the question completes and there are files.
fn may_take(a: FoundRun, q: Question, edge: bool) -> bool
    ensures { result ≡ may_take q edge a }
{
    if !edge {
        return true;
    }
    if !q.edges {
        return false;
    }
    a.count != 0
}

// A search that goes on from the files found: if the rule may take files, and while a place is left. Requires: the files found are within the room.
fn sweeping(a: FoundRun, q: Question, edge: bool) -> Sweep
    requires { a.from + a.count ≤ max_files }
    ensures { result ≡ sweep_from q edge a }
{
    let mut goes = may_take(a, q, edge);
    if goes {
        let next = a.from + a.count;
        goes = next < q.to;
    }
    Sweep {
        found: a,
        goes: goes,
    }
}

// The next place of a search. Requires: it is within the room.
fn next_place(w: Sweep) -> usize
    requires { w.found.from + w.found.count ≤ max_files }
    ensures { result ≡ w.found.from + w.found.count }
{
    w.found.from + w.found.count
}

// Whether the next file f is taken, by the rule.
fn takes_next(a: FoundRun, q: Question, edge: bool, f: FileRecord) -> bool
    ensures { result ≡ takes_next q edge a f }
{
    if !edge {
        let span = q.span;
        return pick_found::is_taken(a.bytes, q.most, span.stop, f);
    }
    if !may_take(a, q, edge) {
        return false;
    }
    let ends = a.ends;
    pick_found::follows(ends.high, f)
}

// The search after the next file f: it takes f and goes on, or ends. Requires: the next place is within the room, and the bytes fit 64 bits.
fn swept(w: Sweep, q: Question, edge: bool, f: FileRecord) -> Sweep
    requires { (w.found.from + w.found.count < max_files) × (w.found.bytes + f.size < 2 ^ 64) }
    ensures { Sweeps w q edge f result }
{
    let found = w.found;
    if !takes_next(found, q, edge, f) {
        return Sweep {
            found: found,
            goes: false,
        };
    }
    let more = pick_found::with_file(found, f);
    let next = more.from + more.count;
    Sweep {
        found: more,
        goes: next < q.to,
    }
}

// The files found and those that a search takes after them, by the rule, up to the first that it does not take. Internal. Requires: the store has its shape, the
// places are within the room, and the bytes are bounded.
pub fn taken(s: &Store, q: Question, a: FoundRun, edge: bool) -> FoundRun
    requires { StoreShape s.now × Takable s.now.files q.to a }
    ensures { Takes s.now.files q edge a result }
{
    let mut w = sweeping(a, q, edge);
    // The file that a turn reads decides whether the search goes on.
    while w.goes {
        let f = store::file_at(s, next_place(w));
        w = swept(w, q, edge, f);
    }
    w.found
}

// The files that overlap the question's range, or at level 0 its least widening: passes the files that end before it by halves, then takes files up to the first
// that begins after it. Requires: the store has its shape, the places are within the room, and the files that overlap stand side by side.
fn overlap(s: &Store, q: Question) -> FoundRun
    requires { StoreShape s.now × Findable s.now.files q }
    ensures { Overlaps s.now.files q result }
{
    let w = widest(s, q);
    let lo = passed(s, w);
    let none = pick_found::nothing_at(lo);
    taken(s, w, none, Sweep::BY_RANGE)
}

// Whether the grown files replace the first inputs: there are second inputs, the grown files are more in number, their bytes and the second inputs' together are
// below 25 M, and their own range overlaps equally many files of level + 1. Requires: M and the bytes are within their bounds.
fn grows(c: Choice, again: usize) -> bool
    requires { (c.maximum ≤ largest_maximum) × (c.grown.bytes ≤ max_bytes) × (c.second.bytes ≤ max_bytes) }
    ensures { result ≡ grows_by c again }
{
    if c.second.count == 0 {
        return false;
    }
    if c.grown.count <= c.first.count {
        return false;
    }
    if Choice::GROWTH_TIMES * c.maximum <= c.grown.bytes + c.second.bytes {
        return false;
    }
    again == c.second.count
}

// The pick after its k-th search found these files. After the fourth, the grown files replace the first inputs if growth is allowed. Requires: k is below 5, and M
// and the bytes are within their bounds.
fn filled(c: Choice, k: usize, found: FoundRun) -> Choice
    requires { (k < 5) × (c.maximum ≤ largest_maximum) × (c.grown.bytes ≤ max_bytes) × (c.second.bytes ≤ max_bytes) }
    ensures { result ≡ filled_with c k found }
{
    let mut d = c;
    if k == Choice::FIRST {
        d.first = found;
        return d;
    }
    if k == Choice::SECOND {
        d.second = found;
        return d;
    }
    if k == Choice::GROWN {
        d.grown = found;
        return d;
    }
    if k == Choice::AGAIN {
        if grows(c, found.count) {
            let grown = c.grown;
            d.first = grown;
        }
        return d;
    }
    d.grand = found;
    d
}

// The pick after its k-th search: the files that overlap, completed by those that share an edge key. Requires: the store has its shape and is well-formed, the level
// is one of the seven, k is below 5, and M and the bytes are within their bounds.
fn searched(s: &Store, d: Choice, k: usize) -> Choice
    requires { StoreShape s.now × (well_store s.now ≡ true) × (d.level < level_count) × (k < 5) × Weighed d }
    ensures { Searched s.now d k result }
{
    let q = asked(d, k, s.counts);
    let found = overlap(s, q);
    let list = taken(s, q, found, Sweep::BY_EDGE);
    filled(d, k, list)
}

// Makes the searches of a pick from the start-th on. Internal. Requires: the store has its shape and is well-formed, the level and M are in range, and the pick is
// ready for its start-th search.
pub fn choose(s: &Store, c: Choice, start: usize) -> Choice
    requires { StoreShape s.now × Ready s.now c start }
    ensures { Chooses s.now c start result }
{
    let mut d = c;
    for k in start..Choice::SEARCHES {
        d = searched(s, d, k);
    }
    d
}

// The runs of the chosen files. Requires: they are together within the room.
fn runs_of(c: Choice) -> Runs
    requires { c.first.count + c.second.count + c.grand.count ≤ max_files }
    ensures { result ≡ runs_of c }
{
    let n = c.first.count;
    let m = n + c.second.count;
    Runs {
        first: c.first.from,
        one: n,
        second: c.second.from,
        two: m,
        third: c.grand.from,
        three: m + c.grand.count,
    }
}

// The j-th place of three runs. Requires: j and the starts of the runs are within the room.
fn place_of(r: Runs, j: usize) -> usize
    requires { (j < max_files) × (r.first ≤ max_files) × (r.second ≤ max_files) × (r.third ≤ max_files) }
    ensures { result ≡ place_in r j }
{
    if j < r.one {
        return r.first + j;
    }
    if j < r.two {
        return r.second + (j - r.one);
    }
    r.third + (j - r.two)
}

// The chosen files one after another, with blank records past them. Internal. Requires: the store has its shape and is well-formed, and the choice was made from it.
pub fn laid(s: &Store, c: Choice) -> [FileRecord; Version::ROOM]
    requires { StoreShape s.now × (well_store s.now ≡ true) × Placed s.now c }
    ensures { result ≡ laid_choice s.now c }
{
    let runs = runs_of(c);
    let mut out = records::blanks();
    for j in 0..runs.three {
        out[j] = store::file_at(s, place_of(runs, j));
    }
    out
}

// The files of a level that overlap a range, not completed, of a store by value. Internal. Requires: the store is well-formed, and the level is one of the seven.
pub fn overlap_of(s: Store, level: usize, span: Span) -> Chosen
    requires { (well_store s ≡ true) × (level < level_count) }
    ensures { Lists s level span result }
{
    let t = s;
    let c = asking(level, 0, span, FoundRun::ALL);
    let q = asked(c, Choice::FIRST, t.counts);
    let found = overlap(&t, q);
    let d = filled(c, Choice::FIRST, found);
    let files = laid(&t, d);
    Chosen {
        files: files,
        choice: d,
    }
}
