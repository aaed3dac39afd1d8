// The public calls on internal keys: compare and take apart, with refusals. Both answer for every record, also where the length is beyond the room.
#![tactic(auto)]

ghost use Rattle.std.specs.Prelude.{◌≡◌, not, [], ◌∷◌};
ghost use Rattle.model.specs.Answer.{◌⇒◌};
ghost use Rattle.model.specs.Calls.{compare_keys, parse_key};
ghost use Rattle.model.specs.File.{full};
ghost use Rattle.model.specs.Key.{good_key};
ghost use Rattle.answers.specs.Outcome.{passed};
ghost use Rattle.keys.specs.Key.{key_of};
ghost use Rattle.key_calls.specs.Comparing.{compared, parsed};

use answers::Refusal;
use keys::{Key, SequenceNumber, UserKey};
use std::cmp::Ordering;

// The parts of a key.
#[derive(Clone, Copy)]
pub struct Parsed {
    pub kind: u8,
    pub sequence: SequenceNumber,
    pub user: UserKey,
}

// Refuses a key of wrong length or type.
fn check(k: Key) -> Result<(), Refusal>
    ensures { result ≡ passed ((not (good_key full.longest (key_of k)) ⇒ 2) ∷ []) }
{
    if keys::is_good(k) {
        Ok(())
    } else {
        Err(Refusal::Key)
    }
}

// How two keys stand: by user key, then the larger sequence first.
pub fn compare(a: Key, b: Key) -> Result<Ordering, Refusal>
    ensures { result ≡ compared (compare_keys full (key_of a) (key_of b)) }
{
    check(a)?;
    check(b)?;
    Ok(keys::order_of_keys(a, b))
}

// The parts of a key: user key, sequence and type.
pub fn parse_internal_key(k: Key) -> Result<Parsed, Refusal>
    ensures { result ≡ parsed (parse_key full (key_of k)) }
{
    check(k)?;
    Ok(Parsed {
        kind: keys::kind(k),
        sequence: keys::sequence(k),
        user: keys::user_key(k),
    })
}
