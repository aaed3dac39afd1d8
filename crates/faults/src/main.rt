// faults: reads a table on standard input that sets raw numbers, keys and records, sound or not, and asks calls of them. Prints one line for each question: its count, the answer, and
// after a semicolon what the call left: lent output, memory, the store's counts. crates/faults/stdin begins with the lines that a table may have.
#![tactic(auto)]

use answers::Refusal;
use compact_base::Asked;
use compact_cutter::Cutter;
use counters::Counters;
use edit::{Deletion, Edit};
use keys::{FileNumber, Key, SequenceNumber, UserKey};
use pick_answer::{Cause, Picked};
use records::{FileRecord, Level, Version};
use script_parts::Run;
use store::{Pointer, Store};

// What is at hand: records that a store, a picked answer and a list share, the counts of levels, pointers, the memory of base-level questions, and numbers by their place among the names of `set`.
#[derive(Clone, Copy)]
struct Hand {
    files: [FileRecord; Version::ROOM],
    counts: [usize; Level::COUNT],
    pointers: [Pointer; Level::COUNT],
    asked: Asked,
    raw: [u64; 15],
}

// What is at hand, what was kept of it, and how many questions were asked.
#[derive(Clone, Copy)]
struct Table {
    hand: Hand,
    kept: Hand,
    count: u64,
}

// The first part of an answer: a number (yes is 1, no is 0), that there is none, or the refusal.
type Told = Result<Option<u64>, Refusal>;

// ---- words

// The i-th word of a line, from 0; no bytes where there is none.
fn word(line: &[u8], i: usize) -> Run {
    script_parts::run_of(line, script_parts::words_of(line), i)
}

// The i-th word as a number, 0 where it is none.
fn number(line: &[u8], i: usize) -> u64 {
    let w = word(line, i);
    let n = script_words::number(line, w.from, w.to);
    n.value
}

// The i-th word as a place or a count.
fn count(line: &[u8], i: usize) -> usize {
    number(line, i) as usize
}

// What stands after a slash as a length, the key's own where there is no slash.
fn length(line: &[u8], slash: usize, to: usize, own: usize) -> usize {
    if to <= slash {
        return own;
    }
    let n = script_words::number(line, slash + 1, to);
    n.value as usize
}

// The i-th word as an internal key, which another length may follow: WORD/LENGTH.
fn key(line: &[u8], i: usize) -> Key {
    let w = word(line, i);
    let slash = script_words::place_of(line, w.from, w.to, b'/');
    let k = script_words::internal_key(line, w.from, slash);
    let mut raw = k.key;
    raw.len = length(line, slash, w.to, raw.len);
    raw
}

// The i-th word as a user key, which another length may follow.
fn user(line: &[u8], i: usize) -> UserKey {
    let w = word(line, i);
    let slash = script_words::place_of(line, w.from, w.to, b'/');
    let u = script_words::user_key(line, w.from, slash);
    let mut raw = u.user;
    raw.len = length(line, slash, w.to, raw.len);
    raw
}

// Which of the names the i-th word is, from 0.
fn name(names: &[u8], line: &[u8], i: usize) -> Option<usize> {
    let w = word(line, i);
    names
        .split(|b| *b == b' ')
        .position(|n| script_words::is_word(line, w.from, w.to, n))
}

// ---- what is at hand

// A fresh store and blank records, no first input, M 2097152, fresh memories, an edit with no deletions.
fn fresh() -> Hand {
    let s = store::fresh_store();
    let mut raw = [0u64; 15];
    raw[0] = 2;
    raw[7] = 2097152;
    let files = s.files;
    let counts = s.counts;
    let pointers = s.pointers;
    Hand {
        files,
        counts,
        pointers,
        asked: compact_base::nothing_asked(),
        raw,
    }
}

// With one number set: the counters, the parts of a picked answer, the cutter's memory, how many deletions the edit has.
fn with_number(h: Hand, line: &[u8]) -> Hand {
    let names =
        b"next manifest seq log prev level manual maximum first second grand seen place passed own";
    let mut t = h;
    if let Some(i) = name(names, line, 1) {
        if i < 15 {
            t.raw[i] = number(line, 2);
        }
    }
    t
}

// With the count of a level set.
fn with_count(h: Hand, line: &[u8]) -> Hand {
    let mut t = h;
    let at = count(line, 1) % Level::COUNT;
    t.counts[at] = count(line, 2);
    t
}

// With one record set, whatever its parts are.
fn with_file(h: Hand, line: &[u8]) -> Hand {
    let f = FileRecord {
        number: FileNumber(number(line, 2)),
        size: number(line, 3),
        smallest: key(line, 5),
        largest: key(line, 6),
        seeks: number(line, 4),
    };
    let mut t = h;
    let at = count(line, 1) % Version::ROOM;
    t.files[at] = f;
    t
}

// With the pointer of a level set, or not, and its key.
fn with_pointer(h: Hand, line: &[u8]) -> Hand {
    let p = Pointer {
        set: number(line, 2) != 0,
        key: key(line, 3),
    };
    let mut t = h;
    let at = count(line, 1) % Level::COUNT;
    t.pointers[at] = p;
    t
}

// With a memory of base-level questions: whether a key was asked, and the key.
fn with_asked(h: Hand, line: &[u8]) -> Hand {
    let m = Asked {
        any: number(line, 1) != 0,
        user: user(line, 2),
    };
    let mut t = h;
    t.asked = m;
    t
}

// The counters.
fn counters_of(raw: [u64; 15]) -> Counters {
    Counters {
        next: FileNumber(raw[0]),
        manifest: FileNumber(raw[1]),
        last: SequenceNumber(raw[2]),
        log: FileNumber(raw[3]),
        previous: FileNumber(raw[4]),
    }
}

// The store.
fn store_of(h: Hand) -> Store {
    let files = h.files;
    let counts = h.counts;
    let pointers = h.pointers;
    Store {
        files,
        counts,
        pointers,
        counters: counters_of(h.raw),
    }
}

// The cause of a pick.
fn cause_of(manual: u64) -> Cause {
    if manual == 0 {
        return Cause::Size(1.0);
    }
    Cause::Manual
}

// The picked answer.
fn picked_of(h: Hand) -> Picked {
    let raw = h.raw;
    let files = h.files;
    Picked {
        level: raw[5] as usize,
        cause: cause_of(raw[6]),
        maximum: raw[7],
        files,
        first: raw[8] as usize,
        second: raw[9] as usize,
        grand: raw[10] as usize,
    }
}

// The cutter's memory.
fn cutter_of(h: Hand) -> Cutter {
    let raw = h.raw;
    Cutter {
        seen: raw[11] != 0,
        place: raw[12] as usize,
        count: raw[13],
    }
}

// An edit whose first two deletions are 4:8 and 4:9, and that says it has so many.
fn edit_of(h: Hand) -> Edit {
    let mut e = Edit::empty()
        .delete(Deletion {
            level: 4,
            number: FileNumber(8),
        })
        .delete(Deletion {
            level: 4,
            number: FileNumber(9),
        });
    e.deletion_count = h.raw[14] as usize;
    e
}

// ---- answers

// A count, or the refusal.
fn counted(r: Result<usize, Refusal>) -> Told {
    r.map(|n| Some(n as u64))
}

// The first part of an answer.
fn put_told(out: &mut [u8], at: usize, t: Told) -> usize {
    match t {
        Ok(Some(n)) => script_lines::put_number(out, at, n),
        Ok(None) => script_lines::put(out, at, b"none"),
        Err(r) => script_lines::put_refused(out, at, r.number()),
    }
}

// What the call left, after a semicolon.
fn put_left(out: &mut [u8], start: usize, left: &[u64]) -> usize {
    let mut at = script_lines::put_byte(out, start, b';');
    for n in left {
        at = script_lines::put_byte(out, at, b' ');
        at = script_lines::put_number(out, at, *n);
    }
    at
}

// Prints a line that ends at a place.
fn print(out: &mut [u8], at: usize) {
    let end = script_lines::put_byte(out, at, b'\n');
    if end <= out.len() {
        io::write_all(1, &out[0..end]);
    }
}

// Prints an answer.
fn tell(t: Told) {
    let mut out = io::buffer();
    let at = put_told(&mut out, 0, t);
    print(&mut out, at);
}

// Prints an answer and what the call left.
fn tell_left(t: Told, left: &[u64]) {
    let mut out = io::buffer();
    let mut at = put_told(&mut out, 0, t);
    at = put_left(&mut out, at, left);
    print(&mut out, at);
}

// ---- calls on the store

// A new file number.
fn new_number(h: Hand) {
    tell(store_numbers::new_file_number(store_of(h)).map(|r| Some(r.number.0)))
}

// An empty edit: whether it is accepted, and the counts of levels 0 to 2 after it.
fn apply(h: Hand) {
    let r = edit_apply::apply(store_of(h), Edit::empty());
    let counts = match r {
        Ok(s) => s.counts,
        Err(_) => h.counts,
    };
    let left = [counts[0] as u64, counts[1] as u64, counts[2] as u64];
    tell_left(r.map(|_| Some(1)), &left)
}

// How many bytes at the end of a room are as they were lent: 7.
fn untouched(room: &[u8]) -> usize {
    room.iter().rev().take_while(|b| **b == 7).count()
}

// The snapshot into the first bytes of a room: its length, how many bytes of the room are as they were, and the first byte.
fn write(h: Hand, bytes: usize) {
    let mut room = [7u8; 256];
    let end = bytes % 257;
    let w = snapshot_write::write(store_of(h), &mut room[..end]);
    let left = [untouched(&room) as u64, u64::from(room[0])];
    tell_left(counted(w), &left)
}

// Live files into the first of five places.
fn live(h: Hand, places: usize) {
    let mut out = [77u64; 5];
    let end = places % 6;
    let c = ask_store::live_files(store_of(h), &mut out[..end]);
    tell_left(counted(c), &out)
}

// A base-level question; then the memory: whether a key was asked, how long it is, its first byte.
fn base(h: Hand, line: &[u8]) {
    let r = compact_base::is_base_level_for(store_of(h), count(line, 2), h.asked, user(line, 3));
    let m = match r {
        Ok(b) => b.memory,
        Err(_) => h.asked,
    };
    let left = [m.any as u64, m.user.len as u64, u64::from(m.user.bytes[0])];
    tell_left(r.map(|b| Some(b.base as u64)), &left)
}

// The level of a memory table.
fn mem(h: Hand, line: &[u8]) {
    let r = ask_store::pick_memtable_output_level(store_of(h), user(line, 2), user(line, 3));
    tell(counted(r))
}

// ---- calls on a list

// `find_file` in the first records.
fn find(h: Hand, line: &[u8]) {
    let n = count(line, 3) % 257;
    let r = lend::find_file_of(count(line, 2), h.files, n, key(line, 4));
    tell(r.map(|found| found.map(|i| i as u64)))
}

// A lookup in the first records, into the first of five places.
fn lookup(h: Hand, line: &[u8]) {
    let n = count(line, 3) % 257;
    let mut out = [77u64; 5];
    let end = count(line, 5) % 6;
    let c = lend::look_up_of(count(line, 2), h.files, n, key(line, 4), &mut out[..end]);
    tell_left(counted(c), &out)
}

// ---- calls on the picked answer

// A level and a number.
fn put_pair(out: &mut [u8], start: usize, level: usize, number: u64) -> usize {
    let mut at = script_lines::put_byte(out, start, b' ');
    at = script_lines::put_number(out, at, level as u64);
    at = script_lines::put_byte(out, at, b':');
    script_lines::put_number(out, at, number)
}

// The first five deletions.
fn put_deletions(out: &mut [u8], start: usize, all: &[Deletion]) -> usize {
    let mut at = start;
    for d in all.iter().take(5) {
        at = put_pair(out, at, d.level, d.number.0);
    }
    at
}

// The places of both columns.
fn put_columns(out: &mut [u8], start: usize, levels: &[usize], numbers: &[u64]) -> usize {
    let mut at = script_lines::put_byte(out, start, b';');
    for (level, number) in levels.iter().zip(numbers) {
        at = put_pair(out, at, *level, *number);
    }
    at
}

// Prints an answer, how many deletions an edit says it has, and the first five of them.
fn tell_deletions(t: Told, e: Edit) {
    let left = [e.deletion_count as u64];
    let mut out = io::buffer();
    let mut at = put_told(&mut out, 0, t);
    at = put_left(&mut out, at, &left);
    at = put_deletions(&mut out, at, &e.deletions);
    print(&mut out, at)
}

// Prints an answer and both columns.
fn tell_columns(t: Told, levels: &[usize], numbers: &[u64]) {
    let mut out = io::buffer();
    let mut at = put_told(&mut out, 0, t);
    at = put_columns(&mut out, at, levels, numbers);
    print(&mut out, at)
}

// The deletions of its inputs into the edit.
fn deletions(h: Hand) {
    let e = edit_of(h);
    let r = compact_deletions::add_input_deletions(picked_of(h), e);
    tell_deletions(r.map(|_| Some(1)), r.unwrap_or(e))
}

// The deletions of its inputs into the first places of two columns of four.
fn columns(h: Hand, levels: usize, numbers: usize) {
    let mut ls = [9usize; 4];
    let mut ns = [99u64; 4];
    let a = levels % 5;
    let b = numbers % 5;
    let c = compact_deletions::input_deletions(picked_of(h), &mut ls[..a], &mut ns[..b]);
    tell_columns(counted(c), &ls, &ns)
}

// Prints an answer of the cutter, and the memory after it.
fn tell_step(told: Result<bool, Refusal>, m: Cutter) {
    let left = [m.seen as u64, m.place as u64, m.count];
    tell_left(told.map(|yes| Some(yes as u64)), &left)
}

// Whether to stop before a key, on memory that is lent: the lent memory is printed, refused or not.
fn cut(h: Hand, k: Key) {
    let s = lend::stopped(picked_of(h), cutter_of(h), k);
    tell_step(s.told, s.memory)
}

// The same by value. If it is refused there is the memory before the key.
fn step(h: Hand, k: Key) {
    let before = cutter_of(h);
    match compact_cutter::step(picked_of(h), before, k) {
        Ok(c) => tell_step(Ok(c.cut), c.memory),
        Err(r) => tell_step(Err(r), before),
    }
}

// ---- lines

// A call on the store.
fn of_store(h: Hand, call: usize, line: &[u8]) {
    if call == 0 {
        return tell(Ok(Some(store::is_well_formed(store_of(h)) as u64)));
    }
    if call == 1 {
        return new_number(h);
    }
    if call == 2 {
        return apply(h);
    }
    if call == 3 {
        return write(h, count(line, 2));
    }
    live(h, count(line, 2))
}

// A question of keys.
fn of_keys(h: Hand, call: usize, line: &[u8]) {
    if call == 5 {
        return base(h, line);
    }
    if call == 6 {
        return mem(h, line);
    }
    if call == 7 {
        return find(h, line);
    }
    lookup(h, line)
}

// A call on the picked answer.
fn of_pick(h: Hand, call: usize, line: &[u8]) {
    if call == 9 {
        let r = pick_answer::is_trivial_move(picked_of(h));
        return tell(r.map(|b| Some(b as u64)));
    }
    if call == 10 {
        return deletions(h);
    }
    if call == 11 {
        return columns(h, count(line, 2), count(line, 3));
    }
    if call == 12 {
        return cut(h, key(line, 2));
    }
    step(h, key(line, 2))
}

// The answer of a question; none for a call that has no name here.
fn answer(h: Hand, line: &[u8]) {
    let names =
        b"form new apply write live base mem find lookup trivial deletions columns cut step";
    let Some(call) = name(names, line, 1) else {
        return tell(Ok(None));
    };
    if call < 5 {
        return of_store(h, call, line);
    }
    if call < 9 {
        return of_keys(h, call, line);
    }
    of_pick(h, call, line)
}

// What is at hand after a line that sets something; as it was after any other.
fn changed(h: Hand, line: &[u8], command: usize) -> Hand {
    if command == 3 {
        return with_number(h, line);
    }
    if command == 4 {
        return with_count(h, line);
    }
    if command == 5 {
        return with_file(h, line);
    }
    if command == 6 {
        return with_pointer(h, line);
    }
    if command == 7 {
        return with_asked(h, line);
    }
    h
}

// Prints the count of a question before its answer.
fn print_count(n: u64) {
    io::print_decimal(1, n);
    io::write_all(1, b": ");
}

// What is at hand after a line.
fn next_hand(h: Hand, kept: Hand, line: &[u8], command: usize) -> Hand {
    if command == 0 {
        return fresh();
    }
    if command == 2 {
        return kept;
    }
    changed(h, line, command)
}

// Answers a question, with its count before it. Returns how many questions there were.
fn answered(h: Hand, line: &[u8], before: u64) -> u64 {
    let n = before % 1000000 + 1;
    print_count(n);
    answer(h, line);
    n
}

// One line; lines that begin with # say what follows. The table is lent, so that a line copies no more of it than it changes.
fn take(t: &mut Table, line: &[u8]) {
    let Some(command) = name(b"new keep back set count file pointer asked ask", line, 0) else {
        return;
    };
    if command == 8 {
        t.count = answered(t.hand, line, t.count);
        return;
    }
    if command == 1 {
        t.kept = t.hand;
        return;
    }
    t.hand = next_hand(t.hand, t.kept, line, command);
}

// The lines of a table in turn.
fn follow(text: &[u8]) {
    let none = fresh();
    let mut t = Table {
        hand: none,
        kept: none,
        count: 0,
    };
    for line in text.split(|b| *b == b'\n') {
        take(&mut t, line);
    }
}

// Reads a table of at most 64 KiB.
fn main() {
    let mut text = io::large_buffer();
    let n = io::read_full(0, &mut text);
    if n <= text.len() {
        follow(&text[..n]);
    }
}
