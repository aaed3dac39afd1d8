// The tests of an edit's entries, before anything is built: too many of them, the log number, then each pointer, deletion and addition in turn.
#![tactic(auto)]

ghost use Rattle.std.specs.Prelude.{◌≡◌, List, map};
ghost use Rattle.lemmas.specs.Lists.{join};
ghost use Rattle.model.specs.Answer.{Refusal};
ghost use Rattle.model.specs.File.{full};
ghost use Rattle.model.specs.Edit as model;
ghost use Rattle.counters.specs.Counters.{counters_of};
ghost use Rattle.edit.specs.Edit.{log_of, edit_of};
ghost use Rattle.answers.specs.Outcome.{passed};
ghost use Rattle.edit_entries.specs.Entries.{pointing_tests, deletion_tests, addition_tests, checks};

use answers::Refusal;
use counters::Counters;
use edit::{Addition, Deletion, Edit, Pointing};
use keys::FileNumber;
use records::{FileRecord, Level};

// An entry of an edit: the tests that it must pass, in the order of the documents.
trait Entry: Copy {
    ghost tests: { Self → List Refusal };

    // The first of its tests that applies refuses it.
    fn check(self) -> Result<(), Refusal>
        ensures { result ≡ passed (tests self) };
}

impl Entry for Pointing {
    ghost tests = { pointing_tests };

    fn check(self) -> Result<(), Refusal> {
        if Level::COUNT <= self.level {
            return Err(Refusal::Level);
        }
        if !keys::is_good(self.key) {
            return Err(Refusal::Key);
        }
        Ok(())
    }
}

impl Entry for Deletion {
    ghost tests = { deletion_tests };

    fn check(self) -> Result<(), Refusal> {
        if Level::COUNT <= self.level {
            return Err(Refusal::Level);
        }
        Ok(())
    }
}

impl Entry for Addition {
    ghost tests = { addition_tests };

    fn check(self) -> Result<(), Refusal> {
        if Level::COUNT <= self.level {
            return Err(Refusal::Level);
        }
        if !keys::is_good(self.smallest) {
            return Err(Refusal::Key);
        }
        if !keys::is_good(self.largest) {
            return Err(Refusal::Key);
        }
        if keys::is_before(self.largest, self.smallest) {
            return Err(Refusal::Ends);
        }
        if FileRecord::LARGEST_SIZE < self.size {
            return Err(Refusal::Size);
        }
        Ok(())
    }
}

// Entries in turn: the first that is refused refuses the edit.
fn check_all<E: Entry>(entries: &[E]) -> Result<(), Refusal>
    ensures { result ≡ passed (join (map E.tests entries.now)) }
{
    for entry in entries {
        entry.check()?;
    }
    Ok(())
}

// Whether an edit has more entries than it may have. Internal.
pub fn has_too_many(e: Edit) -> bool
    ensures { result ≡ model.too_many full (edit_of e) }
{
    if Edit::DELETIONS < e.deletion_count {
        return true;
    }
    if Edit::ADDITIONS < e.addition_count {
        return true;
    }
    Edit::POINTINGS < e.pointing_count
}

// Whether an edit's log number is below the store's, not below next, or beyond its bound. Internal.
pub fn has_bad_log(c: Counters, log: Option<FileNumber>) -> bool
    ensures { result ≡ model.bad_log (counters_of c) (log_of log) }
{
    let Some(n) = log else {
        return false;
    };
    if n.0 < c.log.0 {
        return true;
    }
    if c.next.0 <= n.0 {
        return true;
    }
    Counters::LARGEST < n.0
}

// The refusal of an edit before anything is built: too many entries, the log number, the entries in turn. Internal.
pub fn check(c: Counters, e: Edit) -> Result<(), Refusal>
    ensures { result ≡ passed (checks (counters_of c) (edit_of e)) }
{
    if has_too_many(e) {
        return Err(Refusal::Entries);
    }
    if has_bad_log(c, e.log) {
        return Err(Refusal::Counter);
    }
    check_all(&e.pointings[..e.pointing_count])?;
    check_all(&e.deletions[..e.deletion_count])?;
    check_all(&e.additions[..e.addition_count])
}
