// The public call: a recorded day replayed from a snapshot.
#![tactic(auto)]

ghost use Rattle.std.specs.Prelude.{◌≡◌, true, ◌+◌, ◌^◌, ◌<◌, ◌≤◌, length};
ghost use Rattle.model.specs.File.{full};
ghost use Rattle.model_replay.specs.Replay as model;
ghost use Rattle.store.specs.Store.{well_store};
ghost use Rattle.replay_scan.specs.Scan.{is_recording};
ghost use Rattle.replay_given.specs.Given.{longest_given};
ghost use Rattle.replay.specs.Replaying.{replayed_of, differs_by, Plays};

use answers::Refusal;
use replay_form::Record;
use replay_given::Given;
use snapshot_parts::Snapshot;
use store::Store;

// The first call whose answer differs.
#[derive(Clone, Copy, PartialEq, Eq)]
pub struct Difference {
    // Its place in the whole recording, from 0.
    pub place: u64,
    // The bytes of the answer that is given now, then zeros.
    pub given: [u8; Given::LONGEST],
    pub given_length: usize,
    // Where the recorded answer begins and ends in the recording.
    pub from: usize,
    pub to: usize,
}

// What a replay comes to.
#[derive(Clone, Copy, PartialEq, Eq)]
pub enum Played {
    // Every answer is the recorded one: the length of the final snapshot, which is in the lent output.
    Ended(usize),
    Differs(Difference),
}

// Where a replay stops: at the first call whose answer differs.
#[derive(Clone, Copy, PartialEq, Eq)]
pub struct Stop {
    // The calls before it.
    pub calls: u64,
    // Where its recorded answer begins and ends in the recording.
    pub from: usize,
    pub to: usize,
    // How long the answer is that is given now.
    pub length: usize,
}

// How far a replay came.
#[derive(Clone, Copy)]
pub enum Halt {
    // Every answer is the recorded one: the store that the calls leave.
    Ended(Store),
    Differs(Stop),
}

// Makes the calls of a recording one by one, up to the first whose answer differs. The last answer that was given is in the lent room. Internal. Requires: the
// store is well-formed, the bytes are a recording, and there is room for an answer.
pub fn play(s: Store, recording: &[u8], room: &mut [u8]) -> Halt
    requires { (well_store s ≡ true) × (is_recording recording.now ≡ true) × (longest_given ≤ length room.old) }
    ensures { Plays s recording.now result room.new }
{
    let maximum = snapshot_parse::get_number(recording, Record::MAXIMUM, Snapshot::NUMBER);
    let n = snapshot_parse::get_number(recording, Record::COUNT, Record::CALLS);
    let mut t = s;
    let mut at = Record::FIRST;
    for i in 0..n {
        let asked = replay_scan::pass_asked(recording, at);
        let from = asked.at;
        let answer = replay_scan::pass_given(recording, from);
        let to = answer.at;
        let made = replay_call::make(t, maximum, recording, at, room);
        let length = made.length;
        if !snapshot_parts::same(&recording[from..to], &room[0..length]) {
            return Halt::Differs(Stop {
                calls: i,
                from,
                to,
                length,
            });
        }
        t = made.store;
        at = to;
    }
    Halt::Ended(t)
}

// Room for the longest answer.
fn room() -> [u8; Given::LONGEST] {
    [0u8; Given::LONGEST]
}

// The first difference, handed over: the place in the whole record, the recorded answer's places, and the bytes of the answer that is given now. Requires: it is no
// longer than the longest, and its place is a number.
fn differing(stop: Stop, place: u64, answer: &[u8]) -> Difference
    requires { (length answer.now ≤ longest_given) × (place + stop.calls < 2 ^ 64) }
    ensures { result ≡ differs_by (place + stop.calls) stop.from stop.to answer.now }
{
    let mut given = [0u8; Given::LONGEST];
    keys::copy_into(answer, &mut given);
    Difference {
        place: place + stop.calls,
        given,
        given_length: answer.len(),
        from: stop.from,
        to: stop.to,
    }
}

// Replays a recording from a snapshot. Reads both before any call is made: 14 for the snapshot, then 15 for the recording. Then makes the calls one by one: the first whose
// answer differs, or the final snapshot in the lent output, 13 where that is too short.
pub fn replaying(start: &[u8], recording: &[u8], out: &mut [u8]) -> Result<Played, Refusal>
    ensures { (result ≡ replayed_of recording.now (model.replay full start.now recording.now (length out.old))) × (out.new ≡ model.leaves (model.replay full start.now recording.now (length out.old)) out.old) }
{
    let s = snapshot_read::read(start)?;
    if !replay_scan::is_recording(recording) {
        return Err(Refusal::Record);
    }
    let mut own = room();
    match play(s, recording, &mut own) {
        Halt::Differs(stop) => {
            let place = snapshot_parse::get_number(recording, Record::PLACE, Snapshot::NUMBER);
            let difference = differing(stop, place, &own[0..stop.length]);
            Ok(Played::Differs(difference))
        }
        Halt::Ended(t) => {
            let n = snapshot_write::write(t, out)?;
            Ok(Played::Ended(n))
        }
    }
}
