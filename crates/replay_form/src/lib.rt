// The tags of a record's calls and answers, and where its parts stand.
#![tactic(auto)]

use snapshot_parts::Snapshot;

// The tags of calls and of answers, and what stands where in a record.
#[derive(Clone, Copy)]
pub struct Record {}

impl Record {
    // Calls.
    pub const EDIT: u64 = 0;

    pub const SIZE: u64 = 1;

    pub const RANGE: u64 = 2;

    pub const COUNTER: u64 = 3;
    // Counter calls.
    pub const NEW: u64 = 0;

    pub const REUSE: u64 = 1;

    pub const MARK: u64 = 2;

    pub const LAST: u64 = 3;

    pub const MANIFEST: u64 = 4;

    pub const PREVIOUS: u64 = 5;
    // Causes of a pick.
    pub const SCORED: u64 = 0;

    pub const BY_HAND: u64 = 1;
    // Answers.
    pub const ACCEPTED: u64 = 0;

    pub const HANDED: u64 = 1;

    pub const PICKED: u64 = 2;

    pub const REFUSED: u64 = 3;
    // The number of settings.
    pub const SETTINGS: u64 = 2;
    // The bytes of the count of calls.
    pub const CALLS: usize = 4;
    // The most calls of a record.
    pub const MOST: u64 = 4294967295;
    // The place of the maximum file size: after the count of settings.
    pub const MAXIMUM: usize = Snapshot::COUNT;
    // The place of the number of calls that stand before this part of a record.
    pub const PLACE: usize = Record::MAXIMUM + Snapshot::NUMBER;
    // The place of the count of calls.
    pub const COUNT: usize = Record::PLACE + Snapshot::NUMBER;
    // The place of the first call.
    pub const FIRST: usize = Record::COUNT + Record::CALLS;
}
