// bench OPERATION FILES REPEATS: does an operation so many times on a store of so many files, and prints how many were done. Operations: edit, form, write, read,
// diff (each file differs), same (none does), pick, manual, overlap, lookup, base, cut; search, bases, advance do as lookup, base and cut with what was tested once.
#![tactic(auto)]

ghost use Rattle.std.specs.Prelude.{◌≡◌, true, ◌<◌, ◌≤◌, length};
ghost use Rattle.level_list.specs.List.{well_list};
ghost use Rattle.pick_answer.specs.Picked.{well_picked};
ghost use Rattle.store.specs.Store.{well_store};

use answers::Refusal;
use bench_loops::Round;
use compact_cutter::Cutter;
use difference::List;
use edit::{Addition, Deletion, Edit};
use keys::{FileNumber, Key};
use level_list::FileList;
use pick_answer::{Pick, Picked};
use records::Version;
use snapshot_parts::Snapshot;
use std::env::Env;
use store::Store;

// A size of files by which no work is due.
const SMALL: u64 = 1000;

// One by which work is due.
const LARGE: u64 = 20971520;

// How many keys the files of a level share among them.
const KEYS: u64 = 10000;

// The maximum file size of picks.
const MAXIMUM: u64 = 2097152;

// The number in decimal at the start of a text, as far as its digits go.
fn number(s: &[u8]) -> u64 {
    let mut x: u64 = 0;
    for c in s {
        if 1000000000000 < x || !c.is_ascii_digit() {
            return x;
        }
        x = x * 10 + u64::from(*c - b'0');
    }
    x
}

// Lays a word of the command line in lent bytes, and returns its length: none if it is missing or longer.
fn lay_arg<R: Env>(rt: &R, i: usize, room: &mut [u8]) -> usize
    ensures { result ≤ length room.new }
{
    match rt.arg(i, room) {
        Ok(n) => n,
        Err(_) => 0,
    }
}

// The number that a word of the command line is.
fn arg_number<R: Env>(rt: &R, i: usize) -> u64 {
    let mut b = io::buffer();
    let n = lay_arg(rt, i, &mut b);
    number(&b[..n])
}

// The digit of a number at a place of ten.
fn digit(n: u64, place: u64) -> u8
    requires { 0 < place }
{
    (48 + n / place % 10) as u8
}

// A cam key of machine and axis: m1/axis03/ and four digits, sequence 1.
fn cam_key(n: u64) -> Key {
    let mut bytes = [0u8; 40];
    bytes[..10].copy_from_slice(b"m1/axis03/");
    bytes[10] = digit(n, 1000);
    bytes[11] = digit(n, 100);
    bytes[12] = digit(n, 10);
    bytes[13] = digit(n, 1);
    bytes[14] = 1;
    bytes[15] = 1;
    Key { bytes, len: 22 }
}

// The first of a level's files and how many there are, at least 1.
#[derive(Clone, Copy)]
struct Share {
    from: u64,
    width: u64,
}

// A level's share of so many files: a tenth at level 1, four tenths at level 2, the rest at level 3.
fn share_of(level: usize, files: u64) -> Share
    requires { level ≤ 3 }
    ensures { (result.from ≤ 1000) × ((0 < result.width) × (result.width ≤ 1000)) }
{
    let f = files % 1000;
    let from = start(level, f);
    let to = start(level + 1, f);
    Share {
        from,
        width: to.saturating_sub(from).max(1),
    }
}

// Where a level's files begin among so many.
fn start(level: usize, files: u64) -> u64
    requires { files < 1000 }
    ensures { result ≤ 1000 }
{
    if level < 2 {
        return 0;
    }
    if level == 2 {
        return files / 10;
    }
    if level == 3 {
        return files / 2;
    }
    files
}

// The level of file i of so many.
fn level_of(i: u64, files: u64) -> usize
    ensures { result ≤ 3 }
{
    let f = files % 1000;
    if i < start(2, f) {
        return 1;
    }
    if i < start(3, f) {
        return 2;
    }
    3
}

// File i of so many: the files of each level share all the keys among them, one after another.
fn addition(number: u64, i: u64, files: u64, size: u64) -> Addition {
    let level = level_of(i, files);
    let s = share_of(level, files);
    let width = s.width;
    let n = (i % 1000).saturating_sub(s.from) % width % 1000;
    Addition {
        level,
        number: FileNumber(number),
        size,
        smallest: cam_key(n * KEYS / width),
        largest: cam_key(((n + 1) * KEYS / width).saturating_sub(1)),
    }
}

// A store of so many files, 64 added at a time.
fn filled(files: u64, size: u64) -> Store {
    let mut s = store::fresh_store();
    let count = files % 1000;
    for i in (0..count).step_by(64) {
        let mut e = Edit::empty();
        for n in i..count.min(i + 64) {
            e = e.add(addition(10 + n, n, files, size));
        }
        if let Ok(t) = edit_apply::apply(s, e) {
            s = t;
        }
    }
    s
}

// The number of file i before the k-th edit: its first one, or that of the last round.
fn old_number(i: u64, k: u64, width: u64) -> u64 {
    if k < width {
        return 10 + i % 1000;
    }
    1000 + (k - width) % 1000000000
}

// The k-th edit: a file of level 2 deleted, and added again under a new number.
fn replaced(s: Store, files: u64, k: u64) -> Result<Store, Refusal> {
    let level_two = share_of(2, files);
    let width = level_two.width;
    let i = level_two.from + k % width % 1000;
    let old = Deletion {
        level: 2,
        number: FileNumber(old_number(i, k, width)),
    };
    let new = addition(1000 + k % 1000000000, i, files, SMALL);
    edit_apply::apply(s, Edit::empty().delete(old).add(new))
}

// Edits, each of one deletion and one addition.
fn bench_edit(files: u64, repeats: u64) -> u64 {
    let mut s = filled(files, SMALL);
    let mut done: u64 = 0;
    for k in 0..repeats {
        if let Ok(t) = replaced(s, files, k) {
            s = t;
            done += 1;
        }
    }
    done
}

// Whether a store is well-formed, so many times.
fn bench_form(files: u64, repeats: u64) -> u64 {
    let s = filled(files, SMALL);
    (0..repeats).filter(|_| store::is_well_formed(s)).count() as u64
}

// Whether the snapshot of a store is written.
fn is_written(s: Store) -> bool {
    let mut out = [0u8; Snapshot::LONGEST];
    snapshot_write::write(s, &mut out).is_ok()
}

// A snapshot written, so many times.
fn bench_write(files: u64, repeats: u64) -> u64 {
    let s = filled(files, SMALL);
    (0..repeats).filter(|_| is_written(s)).count() as u64
}

// A snapshot in bytes as many as the longest has, and how long it is.
#[derive(Clone, Copy)]
struct Written {
    bytes: [u8; Snapshot::LONGEST],
    length: usize,
}

// The snapshot of a store.
fn snapshot(s: Store) -> Written {
    let mut bytes = [0u8; Snapshot::LONGEST];
    let length = snapshot_write::write(s, &mut bytes).unwrap_or(0);
    Written { bytes, length }
}

// Whether a snapshot is read.
fn is_read(w: Written) -> bool {
    let end = w.length.min(Snapshot::LONGEST);
    snapshot_read::read(&w.bytes[..end]).is_ok()
}

// A snapshot read, so many times.
fn bench_read(files: u64, repeats: u64) -> u64 {
    let w = snapshot(filled(files, SMALL));
    (0..repeats).filter(|_| is_read(w)).count() as u64
}

// Whether two snapshots are compared.
fn is_compared(left: Written, right: Written) -> bool {
    let left_end = left.length.min(Snapshot::LONGEST);
    let right_end = right.length.min(Snapshot::LONGEST);
    let mut out = [0u8; List::LONGEST];
    difference::differing(&left.bytes[..left_end], &right.bytes[..right_end], &mut out).is_ok()
}

// The snapshots of two stores compared, so many times; the right's files have this size.
fn bench_compared(files: u64, repeats: u64, size: u64) -> u64 {
    let left = snapshot(filled(files, SMALL));
    let right = snapshot(filled(files, size));
    (0..repeats).filter(|_| is_compared(left, right)).count() as u64
}

// A size pick on a lent store, so many times, each on the store that the one before has left.
fn bench_pick(files: u64, repeats: u64) -> u64 {
    let s = filled(files, LARGE);
    bench_loops::pick_many(s, MAXIMUM, repeats % 1000000000)
}

// A manual pick at level 2 of the whole range on a lent store, so many times.
fn bench_manual(files: u64, repeats: u64) -> u64 {
    let s = filled(files, LARGE);
    bench_loops::compact_many(
        s,
        MAXIMUM,
        2,
        cam_key(0),
        cam_key(9999),
        repeats % 1000000000,
    )
}

// The number of the k-th key of those asked in no order.
fn scattered(k: u64) -> u64 {
    k % KEYS * 37 % KEYS
}

// The number of the k-th key of so many asked in rising order.
fn rising(k: u64, repeats: u64) -> u64 {
    k / (repeats / KEYS + 1) % KEYS
}

// The files of level 2 that overlap one key's range, so many times.
fn bench_overlap(files: u64, repeats: u64) -> u64 {
    let s = filled(files, SMALL);
    (0..repeats)
        .filter(|k| is_overlap_told(s, cam_key(scattered(*k))))
        .count() as u64
}

// Whether the files of level 2 that overlap one key's range are told.
fn is_overlap_told(s: Store, key: Key) -> bool {
    ask_overlap::overlapping_inputs(s, 2, key, key).is_ok()
}

// The file of a list that may hold a key; the list is tested each time.
fn look_up(l: FileList, key: Key) -> bool {
    let mut out = [0u64; 4];
    let n = l.count;
    n <= Version::ROOM && lend::look_up_of(2, l.files, n, key, &mut out).is_ok()
}

// A lookup in level 2, so many times.
fn bench_lookup(files: u64, repeats: u64) -> u64 {
    let Ok(l) = level_list::level_files(filled(files, SMALL), 2) else {
        return 0;
    };
    (0..repeats)
        .filter(|k| look_up(l, cam_key(scattered(*k))))
        .count() as u64
}

// How many searches are asked in one round at most.
const ROUND: u64 = 1000;

// A round of two keys; each round has others.
fn round_of(i: u64, length: u64) -> Round
    requires { length ≤ 1000 }
    ensures { (result.left ≡ length) × (result.sum ≡ 0) }
{
    let n = i % KEYS;
    Round {
        next: cam_key(scattered(n)),
        after: cam_key(n),
        left: length as usize,
        sum: 0,
    }
}

// A round of searches in a list that was tested before; whether the places found are places of the list.
fn search_round(l: FileList, i: u64, length: u64) -> bool
    requires { (well_list 2 l ≡ true) × (length ≤ 1000) }
{
    let n = l.count;
    let sum = bench_loops::find_many(l.files, n, round_of(i, length));
    sum <= n % 1000 * 1000
}

// So many searches in a list that was tested before, which is lent once for each round.
fn search_rounds(l: FileList, repeats: u64) -> u64
    requires { well_list 2 l ≡ true }
{
    let mut done: u64 = 0;
    for i in 0..repeats.div_ceil(ROUND) {
        let length = (repeats - i * ROUND).min(ROUND);
        if search_round(l, i, length) {
            done += length;
        }
    }
    done
}

// A lookup by halves in level 2, so many times; the list is tested once.
fn bench_search(files: u64, repeats: u64) -> u64 {
    let Ok(l) = level_list::level_files(filled(files, SMALL), 2) else {
        return 0;
    };
    if level_list::is_well_formed(2, l) {
        return search_rounds(l, repeats);
    }
    0
}

// A base-level question, so many times.
fn bench_base(files: u64, repeats: u64) -> u64 {
    let s = filled(files, SMALL);
    let mut memory = compact_base::nothing_asked();
    let mut done: u64 = 0;
    for k in 0..repeats {
        let u = keys::user_key(cam_key(rising(k, repeats)));
        if let Ok(b) = compact_base::is_base_level_for(s, 1, memory, u) {
            memory = b.memory;
            done += 1;
        }
    }
    done
}

// What a manual pick at level 1 of the whole range gives: it takes all files of the store.
fn picked_of(files: u64) -> Result<Pick, Refusal> {
    let s = filled(files, SMALL);
    pick::compact_range(s, MAXIMUM, 1, cam_key(0), cam_key(9999))
}

// A key put to the cutter of a pick, so many times.
fn bench_cut(files: u64, repeats: u64) -> u64 {
    let Ok(p) = picked_of(files) else {
        return 0;
    };
    let mut memory = compact_cutter::fresh_cutter();
    let mut done: u64 = 0;
    for k in 0..repeats {
        if let Ok(cut) = compact_cutter::step(p.picked, memory, cam_key(rising(k, repeats))) {
            memory = cut.memory;
            done += 1;
        }
    }
    done
}

// The memory after a key, if it is well-formed. The picked answer was tested before.
fn advanced(c: Picked, memory: Cutter, key: Key) -> Cutter
    requires { well_picked c ≡ true }
{
    if compact_cutter::is_good_memory(c, memory) {
        return compact_cutter::advance(c, memory, key).memory;
    }
    memory
}

// Keys put to the cutter of a picked answer that was tested before; the memory is tested each time. How many were seen.
fn steps(c: Picked, repeats: u64) -> u64
    requires { well_picked c ≡ true }
{
    let mut memory = compact_cutter::fresh_cutter();
    let mut done: u64 = 0;
    for k in 0..repeats {
        memory = advanced(c, memory, cam_key(rising(k, repeats)));
        if memory.seen {
            done += 1;
        }
    }
    done
}

// A key put to the cutter of a pick that was tested once, so many times.
fn bench_advance(files: u64, repeats: u64) -> u64 {
    let Ok(p) = picked_of(files) else {
        return 0;
    };
    if pick_answer::is_well_formed(p.picked) {
        return steps(p.picked, repeats);
    }
    0
}

// Base levels asked of a store that was tested before: how many keys are not at theirs.
fn bases(s: Store, repeats: u64) -> u64
    requires { well_store s ≡ true }
{
    let mut others: u64 = 0;
    for k in 0..repeats {
        let u = keys::user_key(cam_key(rising(k, repeats)));
        if !compact_base::is_base_level(s, 1, u) {
            others += 1;
        }
    }
    others
}

// A base-level question of a store that was tested once, so many times.
fn bench_bases(files: u64, repeats: u64) -> u64 {
    let s = filled(files, SMALL);
    if store::is_well_formed(s) {
        return bases(s, repeats);
    }
    0
}

// Whether a word is the one that is named.
fn is_operation(word: &[u8], n: usize, text: &[u8]) -> bool {
    script_words::is_word(word, 0, n, text)
}

// Searches and questions of what was tested once.
fn run_known(word: &[u8], n: usize, files: u64, repeats: u64) -> u64 {
    if is_operation(word, n, b"search") {
        return bench_search(files, repeats);
    }
    if is_operation(word, n, b"advance") {
        return bench_advance(files, repeats);
    }
    if is_operation(word, n, b"bases") {
        return bench_bases(files, repeats);
    }
    0
}

// Picks and questions.
fn run_more(word: &[u8], n: usize, files: u64, repeats: u64) -> u64 {
    if is_operation(word, n, b"pick") {
        return bench_pick(files, repeats);
    }
    if is_operation(word, n, b"manual") {
        return bench_manual(files, repeats);
    }
    if is_operation(word, n, b"overlap") {
        return bench_overlap(files, repeats);
    }
    if is_operation(word, n, b"lookup") {
        return bench_lookup(files, repeats);
    }
    if is_operation(word, n, b"base") {
        return bench_base(files, repeats);
    }
    if is_operation(word, n, b"cut") {
        return bench_cut(files, repeats);
    }
    run_known(word, n, files, repeats)
}

// Runs the operation that a word names; the number depends on all its answers.
fn run(word: &[u8], n: usize, files: u64, repeats: u64) -> u64 {
    if is_operation(word, n, b"edit") {
        return bench_edit(files, repeats);
    }
    if is_operation(word, n, b"form") {
        return bench_form(files, repeats);
    }
    if is_operation(word, n, b"write") {
        return bench_write(files, repeats);
    }
    if is_operation(word, n, b"read") {
        return bench_read(files, repeats);
    }
    if is_operation(word, n, b"diff") {
        return bench_compared(files, repeats, SMALL + 1);
    }
    if is_operation(word, n, b"same") {
        return bench_compared(files, repeats, SMALL);
    }
    run_more(word, n, files, repeats)
}

// OPERATION FILES REPEATS. Prints the last nine digits of how many were done.
fn main(rt: HostRuntime) {
    let mut word = io::buffer();
    let n = lay_arg(&rt, 1, &mut word);
    let files = arg_number(&rt, 2);
    let repeats = arg_number(&rt, 3);
    io::print_decimal(1, run(&word, n, files, repeats) % 1000000000);
    io::write_all(1, b"\n");
}
