// What a script works on, and the commands that change it. Each lays its answer in lent bytes, and hands back what it leaves.
#![tactic(auto)]

ghost use Rattle.std.specs.Prelude.{◌≡◌, ◌≢◌, ◌≤◌, length};
ghost use Rattle.shell_edit.specs.Changes.{changed_by};
ghost use Rattle.shell_file.specs.Opening.{Left};
ghost use Rattle.shell_follow.specs.Following.{Stays};
ghost use Rattle.shell_machine.specs.Machine.{Fresh, store_by, last_by};
ghost use Rattle.shell_machine.specs.Picking.{range_pick, named_maximum, picked_by};

use answers::Refusal;
use pick_answer::Pick;
use script_table::Fault;
use shell_follow::Last;
use std::rt::Files;
use store::Store;

// The store, the maximum file size that the next pick takes, the last pick with its memories, if any, and where the answer of the last command ends.
#[derive(Clone, Copy)]
pub struct Machine {
    pub store: Store,
    pub maximum: u64,
    pub last: Option<Last>,
    pub at: usize,
}

// A fresh store with no pick.
pub fn fresh(maximum: u64) -> Machine
    ensures { Fresh maximum result }
{
    Machine {
        store: store::fresh_store(),
        maximum,
        last: None,
        at: 0,
    }
}

// Changes the store.
fn change(out: &mut [u8], m: Machine, line: &[u8], which: u8) -> Machine
    ensures { (result.at ≤ length out.new) × (result.store ≡ (changed_by m.store line.now which).store) × (result.maximum ≡ m.maximum) × (result.last ≡ m.last) }
{
    let changed = shell_edit::change(m.store, line, which);
    let end = shell_reply::put_said(out, changed.said);
    Machine {
        store: changed.store,
        at: script_lines::within(out, end),
        ..m
    }
}

// Reads the store from a file.
fn open<R: Files>(rt: &R, out: &mut [u8], m: Machine, line: &[u8]) -> Machine
    ensures { (result.at ≤ length out.new) × Left m.store result.store × (result.maximum ≡ m.maximum) × (result.last ≡ m.last) }
{
    let opened = shell_file::open(rt, out, m.store, line);
    Machine {
        store: opened.store,
        at: opened.at,
        ..m
    }
}

// The pick of the range that a line names.
fn range(s: Store, maximum: u64, line: &[u8]) -> Result<Pick, Refusal>
    ensures { result ≡ range_pick s maximum line.now }
{
    let w = script_parts::words_of(line);
    let l = script_parts::number(line, w, 1);
    let a = script_parts::key(line, w, 2);
    let b = script_parts::key(line, w, 3);
    pick::compact_range(s, maximum, l.value as usize, a.key, b.key)
}

// The pick that a line asks for, by its letter: by size, or of a range.
fn picked(s: Store, maximum: u64, line: &[u8], which: u8) -> Result<Pick, Refusal>
    ensures { result ≡ picked_by s maximum line.now which }
{
    if which == b'p' {
        return pick::pick_compaction(s, maximum);
    }
    range(s, maximum, line)
}

// Picks what to compact. A refusal leaves the store and the last pick as they were.
fn pick_next(out: &mut [u8], m: Machine, line: &[u8], which: u8) -> Machine
    ensures { (result.at ≤ length out.new) × (result.store ≡ store_by m.store (picked_by m.store m.maximum line.now which)) × (result.maximum ≡ m.maximum) × (result.last ≡ last_by m.last (picked_by m.store m.maximum line.now which)) }
{
    let r = picked(m.store, m.maximum, line, which);
    let at = shell_pick::put_pick(out, &r);
    match r {
        Ok(pick) => Machine {
            store: pick.store,
            last: Some(shell_follow::begun(pick.picked)),
            at,
            ..m
        },
        Err(_) => Machine { at, ..m },
    }
}

// What is wrong with a command on the last pick if there is no pick.
fn put_unpicked(out: &mut [u8], line: &[u8]) -> usize
    ensures { result ≤ length out.new }
{
    let f = Fault {
        kind: b'P',
        word: 1,
        part: 0,
        from: 0,
        to: 4,
    };
    script_table::put_fault(out, line, f)
}

// Answers a command on the last pick. If there is no pick, says so.
fn follow(out: &mut [u8], m: Machine, line: &[u8], which: u8) -> Machine
    ensures { (result.at ≤ length out.new) × (result.store ≡ m.store) × (result.maximum ≡ m.maximum) × Stays m.last result.last }
{
    match m.last {
        Some(last) => {
            let mut after = last;
            let at = shell_follow::follow(out, m.store, &mut after, line, which);
            Machine {
                last: Some(after),
                at,
                ..m
            }
        }
        None => Machine {
            at: put_unpicked(out, line),
            ..m
        },
    }
}

// A fresh store, or the maximum file size that a line names, which picks take from here on.
fn settle(out: &mut [u8], m: Machine, line: &[u8], which: u8) -> Machine
    ensures within { result.at ≤ length out.new }
    ensures fresh { which ≡ 110 → Fresh m.maximum result }
    ensures kept { which ≢ 110 → (result.store ≡ m.store) × (result.last ≡ m.last) }
    ensures named { which ≢ 110 → result.maximum ≡ named_maximum line.now }
{
    let end = script_lines::put(out, 0, b"ok");
    let at = script_lines::within(out, end);
    if which == b'n' {
        return Machine {
            at,
            ..fresh(m.maximum)
        };
    }
    let n = script_parts::number(line, script_parts::words_of(line), 1);
    Machine {
        maximum: n.value,
        at,
        ..m
    }
}

// Answers a command that changes the machine.
pub fn turn<R: Files>(
    rt: &R,
    out: &mut [u8],
    m: Machine,
    line: &[u8],
    group: u8,
    which: u8,
) -> Machine
    ensures { result.at ≤ length out.new }
{
    if group == b'm' {
        return settle(out, m, line, which);
    }
    if group == b'c' {
        return change(out, m, line, which);
    }
    if group == b'k' {
        return pick_next(out, m, line, which);
    }
    if group == b'o' {
        return open(rt, out, m, line);
    }
    follow(out, m, line, which)
}
