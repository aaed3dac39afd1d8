// The calls that a record holds: each is read by value and made on a store, and its answer is laid in lent room.
#![tactic(auto)]

ghost use Rattle.std.specs.Prelude.{◌≡◌, true, [], ◌+◌, ◌≤◌, length, drop};
ghost use Rattle.std.proofs.Math.Option.{none};
ghost use Rattle.model.specs.File.{full, max_pointers, max_deletions, max_additions};
ghost use Rattle.model.specs.Snapshot.{keys_at, number_long, times, read_key};
ghost use Rattle.model.specs.History.{edits, picks_size, counts};
ghost use Rattle.model_replay.specs.Recording.{previous_tag, call_of, pointer_form, deletion_form, addition_form, log_form};
ghost use Rattle.model_replay.specs.Held.{held_key};
ghost use Rattle.keys.specs.Key.{key_record};
ghost use Rattle.store.specs.Store.{well_store};
ghost use Rattle.model_replay.specs.Takes.{key_takes, part_takes, repeated, log_takes, edit_takes, count_takes, asked_takes};
ghost use Rattle.replay_scan.specs.Scan.{passed_by};
ghost use Rattle.replay_given.specs.Given.{longest_given};
ghost use Rattle.replay_call.specs.Call.{value_or, Begins, filled, pointing_record, deletion_record, addition_record, log_record, edit_record, edit_in, count_in, counted_by, asked_in, range_in, made_by, answered};
ghost use Rattle.edit.specs.Edit.{blank_pointing, blank_deletion, blank_addition};

use answers::Refusal;
use edit::{Addition, Deletion, Edit, Pointing};
use keys::{FileNumber, Key, SequenceNumber};
use replay_form::Record;
use snapshot_parse::KeyAt;
use snapshot_parts::Snapshot;
use store::Store;

// The store after a call, and how long the bytes of its answer are.
#[derive(Clone, Copy)]
pub struct Made {
    pub store: Store,
    pub length: usize,
}

// ---- the parts of a call

// The key at a place. A key that is longer than a key's room is no good key, and a blank one stands for it. Requires: a key is there.
fn key_at(src: &[u8], at: usize) -> KeyAt
    requires { Begins key_takes src.now at }
    ensures { (result.key ≡ key_record (held_key full (value_or [] (read_key (drop at src.now))))) × (result.next ≡ (passed_by at (key_takes (drop at src.now))).at) }
{
    let n = snapshot_parse::get_number(src, at, Snapshot::BYTE) as usize;
    let start = at + Snapshot::BYTE;
    let end = start + n;
    if Key::ROOM < n {
        let blank = keys::blank_key();
        return KeyAt {
            key: blank,
            next: end,
        };
    }
    let mut bytes = [0u8; Key::ROOM];
    keys::copy_into(&src[start..end], &mut bytes);
    let key = Key { bytes, len: n };
    KeyAt { key, next: end }
}

// The first n pointers of an edit, from a place on. Requires: they are there, and there is room for them.
fn pointings_at(src: &[u8], at: usize, n: usize) -> [Pointing; Edit::POINTINGS]
    requires { (n ≤ max_pointers) × Begins (repeated n (part_takes number_long 1)) src.now at }
    ensures { result ≡ filled max_pointers blank_pointing pointing_record (value_or [] (times n pointer_form.read (drop at src.now))) }
{
    let blank = keys::blank_key();
    let mut out = [Pointing {
        level: 0,
        key: blank,
    }; Edit::POINTINGS];
    let mut next = at;
    for p in &mut out[..n] {
        let level = snapshot_parse::get_number(src, next, Snapshot::NUMBER);
        let k = key_at(src, next + Snapshot::NUMBER);
        let key = k.key;
        *p = Pointing {
            level: level as usize,
            key: key,
        };
        next = k.next;
    }
    out
}

// The first n deletions of an edit, from a place on. Requires: they are there, and there is room for them.
fn deletions_at(src: &[u8], at: usize, n: usize) -> [Deletion; Edit::DELETIONS]
    requires { (n ≤ max_deletions) × Begins (repeated n (part_takes keys_at 0)) src.now at }
    ensures { result ≡ filled max_deletions blank_deletion deletion_record (value_or [] (times n deletion_form.read (drop at src.now))) }
{
    let mut out = [Deletion {
        level: 0,
        number: FileNumber(0),
    }; Edit::DELETIONS];
    let mut next = at;
    for d in &mut out[..n] {
        let level = snapshot_parse::get_number(src, next, Snapshot::NUMBER);
        let number = snapshot_parse::get_number(src, next + Snapshot::NUMBER, Snapshot::NUMBER);
        *d = Deletion {
            level: level as usize,
            number: FileNumber(number),
        };
        next += Snapshot::KEYS;
    }
    out
}

// The first n additions of an edit, from a place on. Requires: they are there, and there is room for them.
fn additions_at(src: &[u8], at: usize, n: usize) -> [Addition; Edit::ADDITIONS]
    requires { (n ≤ max_additions) × Begins (repeated n (part_takes (number_long + keys_at) 2)) src.now at }
    ensures { result ≡ filled max_additions blank_addition addition_record (value_or [] (times n addition_form.read (drop at src.now))) }
{
    let blank = keys::blank_key();
    let mut out = [Addition {
        level: 0,
        number: FileNumber(0),
        size: 0,
        smallest: blank,
        largest: blank,
    }; Edit::ADDITIONS];
    let mut next = at;
    for a in &mut out[..n] {
        let level = snapshot_parse::get_number(src, next, Snapshot::NUMBER);
        let file = next + Snapshot::NUMBER;
        let number = snapshot_parse::get_number(src, file, Snapshot::NUMBER);
        let size = snapshot_parse::get_number(src, file + Snapshot::NUMBER, Snapshot::NUMBER);
        let low = key_at(src, file + Snapshot::KEYS);
        let high = key_at(src, low.next);
        let smallest = low.key;
        let largest = high.key;
        *a = Addition {
            level: level as usize,
            number: FileNumber(number),
            size: size,
            smallest: smallest,
            largest: largest,
        };
        next = high.next;
    }
    out
}

// The log number of an edit, if it has one. Requires: its section is there.
fn log_at(src: &[u8], at: usize) -> Option<FileNumber>
    requires { Begins log_takes src.now at }
    ensures { result ≡ log_record (value_or none (log_form.read (drop at src.now))) }
{
    let n = snapshot_parse::get_number(src, at, Snapshot::COUNT);
    if n == 0 {
        return None;
    }
    let number = snapshot_parse::get_number(src, at + Snapshot::COUNT, Snapshot::NUMBER);
    Some(FileNumber(number))
}

// The edit at a place. Requires: one is there.
fn edit_at(src: &[u8], at: usize) -> Edit
    requires { Begins edit_takes src.now at }
    ensures { result ≡ edit_record (edit_in (drop at src.now)) }
{
    let n = snapshot_parse::get_number(src, at, Snapshot::COUNT) as usize;
    let pointings = pointings_at(src, at + Snapshot::COUNT, n.min(Edit::POINTINGS));
    let a = replay_scan::pass_section(src, at, Snapshot::NUMBER, 1);
    let m = snapshot_parse::get_number(src, a.at, Snapshot::COUNT) as usize;
    let deletions = deletions_at(src, a.at + Snapshot::COUNT, m.min(Edit::DELETIONS));
    let b = replay_scan::pass_section(src, a.at, Snapshot::KEYS, 0);
    let k = snapshot_parse::get_number(src, b.at, Snapshot::COUNT) as usize;
    let additions = additions_at(src, b.at + Snapshot::COUNT, k.min(Edit::ADDITIONS));
    let c = replay_scan::pass_section(src, b.at, Snapshot::NUMBER + Snapshot::KEYS, 2);
    let log = log_at(src, c.at);
    Edit {
        pointings,
        pointing_count: n,
        deletions,
        deletion_count: m,
        additions,
        addition_count: k,
        log,
    }
}

// ---- the calls

// Applies the edit at a place, and lays its answer. Requires: an edit is there, the store is well-formed, and there is room for an answer.
fn make_edit(s: Store, src: &[u8], at: usize, room: &mut [u8]) -> Made
    requires { (well_store s ≡ true) × Begins edit_takes src.now at × (longest_given ≤ length room.old) }
    ensures { (result ≡ made_by s (edits (edit_in (drop at src.now)))) × (room.new ≡ answered s (edits (edit_in (drop at src.now))) room.old) }
{
    let e = edit_at(src, at);
    match edit_apply::apply(s, e) {
        Ok(store) => Made {
            store,
            length: replay_given::put_plain(room, 0, Ok(())),
        },
        Err(r) => Made {
            store: s,
            length: replay_given::put_plain(room, 0, Err(r.number())),
        },
    }
}

// Makes a size pick, and lays its answer. Requires: the store is well-formed, and there is room for an answer.
fn make_size(s: Store, maximum: u64, room: &mut [u8]) -> Made
    requires { (well_store s ≡ true) × (longest_given ≤ length room.old) }
    ensures { (result ≡ made_by s (picks_size maximum)) × (room.new ≡ answered s (picks_size maximum) room.old) }
{
    match &pick::pick_compaction(s, maximum) {
        Ok(p) => Made {
            store: p.store,
            length: replay_given::put_pick(room, 0, p.picked),
        },
        Err(r) => Made {
            store: s,
            length: replay_given::put_plain(room, 0, Err(r.number())),
        },
    }
}

// Makes the manual pick at a place, and lays its answer. Requires: a level and two keys are there, the store is well-formed, and there is room for an answer.
fn make_range(s: Store, maximum: u64, src: &[u8], at: usize, room: &mut [u8]) -> Made
    requires { (well_store s ≡ true) × Begins (part_takes number_long 2) src.now at × (longest_given ≤ length room.old) }
    ensures { (result ≡ made_by s (range_in maximum (drop at src.now))) × (room.new ≡ answered s (range_in maximum (drop at src.now)) room.old) }
{
    let level = snapshot_parse::get_number(src, at, Snapshot::NUMBER);
    let start = key_at(src, at + Snapshot::NUMBER);
    let stop = key_at(src, start.next);
    match &pick::compact_range(s, maximum, level as usize, start.key, stop.key) {
        Ok(p) => Made {
            store: p.store,
            length: replay_given::put_pick(room, 0, p.picked),
        },
        Err(r) => Made {
            store: s,
            length: replay_given::put_plain(room, 0, Err(r.number())),
        },
    }
}

// Makes a counter call but new. Requires: the tag is one of those.
fn counted(s: Store, tag: u64, n: u64) -> Result<Store, Refusal>
    requires { (1 ≤ tag) × (tag ≤ previous_tag) }
    ensures { result ≡ counted_by s tag n }
{
    if tag == Record::REUSE {
        return store_numbers::reuse_file_number(s, FileNumber(n));
    }
    if tag == Record::MARK {
        return store_numbers::mark_file_number_used(s, FileNumber(n));
    }
    if tag == Record::LAST {
        return store_numbers::set_last_sequence(s, SequenceNumber(n));
    }
    if tag == Record::MANIFEST {
        return store_numbers::set_manifest_number(s, FileNumber(n));
    }
    store_numbers::set_previous_log(s, FileNumber(n))
}

// Makes the counter call at a place, and lays its answer. Requires: a counter call is there, the store is well-formed, and there is room for an answer.
fn make_count(s: Store, src: &[u8], at: usize, room: &mut [u8]) -> Made
    requires { (well_store s ≡ true) × Begins count_takes src.now at × (longest_given ≤ length room.old) }
    ensures { (result ≡ made_by s (counts (count_in (drop at src.now)))) × (room.new ≡ answered s (counts (count_in (drop at src.now))) room.old) }
{
    let tag = snapshot_parse::get_number(src, at, Snapshot::BYTE);
    if tag == Record::NEW {
        return match store_numbers::new_file_number(s) {
            Ok(h) => Made {
                store: h.store,
                length: replay_given::put_handed(room, 0, Ok(h.number)),
            },
            Err(r) => Made {
                store: s,
                length: replay_given::put_handed(room, 0, Err(r.number())),
            },
        };
    }
    let number = snapshot_parse::get_number(src, at + Snapshot::BYTE, Snapshot::NUMBER);
    match counted(s, tag, number) {
        Ok(store) => Made {
            store,
            length: replay_given::put_plain(room, 0, Ok(())),
        },
        Err(r) => Made {
            store: s,
            length: replay_given::put_plain(room, 0, Err(r.number())),
        },
    }
}

// Makes the call at a place, and lays its answer in lent room. Internal. Requires: a call is there, the store is well-formed, and there is room for an answer.
pub fn make(s: Store, maximum: u64, src: &[u8], at: usize, room: &mut [u8]) -> Made
    requires { (well_store s ≡ true) × Begins asked_takes src.now at × (longest_given ≤ length room.old) }
    ensures { (result ≡ made_by s (call_of maximum (asked_in (drop at src.now)))) × (room.new ≡ answered s (call_of maximum (asked_in (drop at src.now))) room.old) }
{
    let tag = snapshot_parse::get_number(src, at, Snapshot::BYTE);
    let start = at + Snapshot::BYTE;
    if tag == Record::EDIT {
        return make_edit(s, src, start, room);
    }
    if tag == Record::SIZE {
        return make_size(s, maximum, room);
    }
    if tag == Record::RANGE {
        return make_range(s, maximum, src, start, room);
    }
    make_count(s, src, start, room)
}
