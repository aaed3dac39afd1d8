// The refusals of calls, and the documents' number of each.
#![tactic(auto)]

ghost use Rattle.std.specs.Prelude.{◌≡◌};
ghost use Rattle.answers.specs.Outcome.{number_of};

// Why a call is refused. Document 01's table has the numbers of all but the last, which document 02 adds.
#[derive(Clone, Copy, PartialEq, Eq)]
pub enum Refusal {
    // 1: a level above the last one.
    Level,
    // 2: a key of wrong length or type.
    Key,
    // 3: more entries than an edit may have.
    Entries,
    // 4: smallest after largest.
    Ends,
    // 5: a size above the largest.
    Size,
    // 6: one number twice among all survivors.
    Twice,
    // 7: survivors collide at a level above 0.
    Collision,
    // 8: more survivors than a version has room for.
    Room,
    // 9: a log number, a counter or a maximum file size out of its range.
    Counter,
    // 10: nothing to compact.
    Nothing,
    // 11: the last level cannot be compacted.
    LastLevel,
    // 12: a base-level key before the one asked last.
    Backwards,
    // 13: lent output shorter than the answer.
    Output,
    // 14: an argument that is not well-formed.
    Form,
    // 15: bytes that are no record of a day.
    Record,
}

impl Refusal {
    // The number of the refusal in the documents.
    pub fn number(self) -> u8
        ensures { result ≡ number_of self }
    {
        match self {
            Refusal::Level => 1,
            Refusal::Key => 2,
            Refusal::Entries => 3,
            Refusal::Ends => 4,
            Refusal::Size => 5,
            Refusal::Twice => 6,
            Refusal::Collision => 7,
            Refusal::Room => 8,
            Refusal::Counter => 9,
            Refusal::Nothing => 10,
            Refusal::LastLevel => 11,
            Refusal::Backwards => 12,
            Refusal::Output => 13,
            Refusal::Form => 14,
            Refusal::Record => 15,
        }
    }
}
