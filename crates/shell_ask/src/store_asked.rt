// The questions about the whole store.
use pick_score::Scored;
use records::{Level, Version};
use store::{Pointer, Store};

// The pointers of the levels, separated by blanks.
fn put_pointers(out: &mut [u8], pointers: [Pointer; Level::COUNT]) -> usize {
    let mut at = 0;
    for p in &pointers {
        at = script_lines::put_gap(out, at);
        at = script_lines::put_key(out, at, p.key);
    }
    at
}

// The five counters.
fn put_counters(out: &mut [u8], s: Store) -> usize {
    let c = s.counters;
    shell_reply::put_form(
        out,
        0,
        b"next=% manifest=% seq=% log=% prev=%",
        [c.next.0, c.manifest.0, c.last.0, c.log.0, c.previous.0],
    )
}

// The bits of a score; 0 for what is no number.
fn bits_of(x: f64) -> u64 {
    if x.is_nan() { 0 } else { x.to_bits() }
}

// A level, its score and whether work is due.
fn put_scored(out: &mut [u8], c: Scored) -> usize {
    shell_reply::put_form(
        out,
        0,
        b"level=% bits=# needs=%",
        [c.level as u64, bits_of(c.score), c.due as u64, 0, 0],
    )
}

// The level to compact, its score and whether work is due, or the refusal.
fn put_score(out: &mut [u8], s: Store) -> usize {
    match pick_score::needs_compaction(s) {
        Ok(scored) => put_scored(out, scored),
        Err(r) => script_lines::put_refused(out, 0, r.number()),
    }
}

// The snapshot in hex, or the refusal.
fn put_snapshot(out: &mut [u8], s: Store) -> usize {
    let mut room = io::large_buffer();
    match snapshot_write::write(s, &mut room) {
        Ok(n) => shell_reply::put_front(out, &room, n),
        Err(r) => script_lines::put_refused(out, 0, r.number()),
    }
}

// The numbers of all files, or the refusal.
fn put_live(out: &mut [u8], s: Store) -> usize {
    let mut column = [0u64; Version::ROOM];
    match ask_store::live_files(s, &mut column) {
        Ok(n) => shell_reply::put_column(out, 0, &column[..n.min(Version::ROOM)]),
        Err(r) => script_lines::put_refused(out, 0, r.number()),
    }
}

// The answer of a question that computes over the store's files.
fn put_computed(out: &mut [u8], s: Store, which: u8) -> usize {
    if which == b's' {
        return put_score(out, s);
    }
    if which == b'l' {
        return put_live(out, s);
    }
    put_snapshot(out, s)
}

// The answer about a store.
pub(crate) fn put_answer(out: &mut [u8], s: Store, which: u8) -> usize {
    if which == b'p' {
        return put_pointers(out, s.pointers);
    }
    if which == b'c' {
        return put_counters(out, s);
    }
    put_computed(out, s, which)
}
