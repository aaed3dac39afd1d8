// Edits by value: the empty edit, one entry more, another log number.
#![tactic(auto)]

ghost use Rattle.std.specs.Prelude.{◌≡◌};
ghost use Rattle.edit.specs.Edit.{empty_record, one_more, with_deletion, with_addition, with_pointing, with_log};

use keys::{FileNumber, Key, Word};

// A file to be deleted at a level.
#[derive(Clone, Copy)]
pub struct Deletion {
    pub level: usize,
    pub number: FileNumber,
}

// A file to be added at a level.
#[derive(Clone, Copy)]
pub struct Addition {
    pub level: usize,
    pub number: FileNumber,
    pub size: u64,
    pub smallest: Key,
    pub largest: Key,
}

// A pointer to be set for a level.
#[derive(Clone, Copy)]
pub struct Pointing {
    pub level: usize,
    pub key: Key,
}

// An edit. Each kind of entry has an array and a count.
// No heap is used. `delete`, `add` and `point` are alike: a list of an array of any type of entry is no type of Rattle.
#[derive(Clone, Copy)]
pub struct Edit {
    pub pointings: [Pointing; Edit::POINTINGS],
    pub pointing_count: usize,
    pub deletions: [Deletion; Edit::DELETIONS],
    pub deletion_count: usize,
    pub additions: [Addition; Edit::ADDITIONS],
    pub addition_count: usize,
    // The new log number, if the edit names one.
    pub log: Option<FileNumber>,
}

impl Edit {
    // The most pointers of an edit.
    pub const POINTINGS: usize = 16;

    // The most deletions of an edit.
    pub const DELETIONS: usize = 256;

    // The most additions of an edit.
    pub const ADDITIONS: usize = 64;

    // The edit with no entry and no log number.
    pub fn empty() -> Edit
        ensures { result ≡ empty_record }
    {
        let key = keys::blank_key();
        Edit {
            pointings: [Pointing { level: 0, key }; Edit::POINTINGS],
            pointing_count: 0,
            deletions: [Deletion {
                level: 0,
                number: FileNumber(0),
            }; Edit::DELETIONS],
            deletion_count: 0,
            additions: [Addition {
                level: 0,
                number: FileNumber(0),
                size: 0,
                smallest: key,
                largest: key,
            }; Edit::ADDITIONS],
            addition_count: 0,
            log: None,
        }
    }

    // One deletion more. If the array is full only the count grows, and the edit will be refused.
    pub fn delete(self, d: Deletion) -> Edit
        ensures { result ≡ with_deletion self d }
    {
        let mut e = self;
        let n = e.deletion_count;
        if n < Edit::DELETIONS {
            e.deletions[n] = d;
        }
        e.deletion_count = n.saturating_add(1);
        e
    }

    // One addition more. If the array is full only the count grows, and the edit will be refused.
    pub fn add(self, a: Addition) -> Edit
        ensures { result ≡ with_addition self a }
    {
        let mut e = self;
        let n = e.addition_count;
        if n < Edit::ADDITIONS {
            e.additions[n] = a;
        }
        e.addition_count = n.saturating_add(1);
        e
    }

    // One pointer more. If the array is full only the count grows, and the edit will be refused.
    pub fn point(self, p: Pointing) -> Edit
        ensures { result ≡ with_pointing self p }
    {
        let mut e = self;
        let n = e.pointing_count;
        if n < Edit::POINTINGS {
            e.pointings[n] = p;
        }
        e.pointing_count = n.saturating_add(1);
        e
    }

    // The same edit with another log number, or none.
    pub fn with_log(self, log: Option<FileNumber>) -> Edit
        ensures { result ≡ with_log self log }
    {
        Edit { log, ..self }
    }
}
