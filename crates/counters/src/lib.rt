// The five counters by value, and their bound.
#![tactic(auto)]

ghost use Rattle.std.specs.Prelude.{◌≡◌};
ghost use Rattle.model.specs.File.{good_counters};
ghost use Rattle.counters.specs.Counters.{counters_of};

use keys::{FileNumber, SequenceNumber};

// The five counters.
#[derive(Clone, Copy)]
pub struct Counters {
    pub next: FileNumber,
    pub manifest: FileNumber,
    pub last: SequenceNumber,
    pub log: FileNumber,
    pub previous: FileNumber,
}

impl Counters {
    // The largest value of a counter.
    pub const LARGEST: u64 = 72057594037927935;
}

// Whether no counter is beyond its bound. Internal.
pub fn are_bounded(c: Counters) -> bool
    ensures { result ≡ good_counters (counters_of c) }
{
    let next = c.next;
    if Counters::LARGEST < next.0 {
        return false;
    }
    let manifest = c.manifest;
    if Counters::LARGEST < manifest.0 {
        return false;
    }
    let last = c.last;
    if Counters::LARGEST < last.0 {
        return false;
    }
    let log = c.log;
    if Counters::LARGEST < log.0 {
        return false;
    }
    let previous = c.previous;
    previous.0 <= Counters::LARGEST
}
