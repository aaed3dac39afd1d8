// Base-level questions of a store: whether no file two levels below or deeper holds a user key. The memory is the last key asked.
#![tactic(auto)]

ghost use Rattle.std.specs.Prelude.{◌≡◌, true, not, ◌<◌};
ghost use Rattle.std.proofs.Math.Option.{none};
ghost use Rattle.model.specs.File.{full, level_count};
ghost use Rattle.model.specs.Question as model;
ghost use Rattle.model.specs.Calls as calls;
ghost use Rattle.keys.specs.Key.{user_of};
ghost use Rattle.store.specs.Store.{state_of, well_store, on_store};
ghost use Rattle.compact_base.specs.Base.{asked_of, asked_record, well_asked, on_asked, based_by};

use answers::Refusal;
use keys::UserKey;
use pick_range::Span;
use records::Level;
use store::Store;

// The memory of base-level questions: the last user key asked, if any. If none was, the key has no bytes.
// A flag beside a key: program `faults` passes a key that was not asked, which an Option can't hold.
#[derive(Clone, Copy)]
pub struct Asked {
    pub any: bool,
    pub user: UserKey,
}

// The answer of a base-level question, and the memory after it.
#[derive(Clone, Copy)]
pub struct Based {
    pub base: bool,
    pub memory: Asked,
}

// A memory of no key asked.
pub fn nothing_asked() -> Asked
    ensures { result ≡ asked_record none }
{
    Asked {
        any: false,
        user: UserKey {
            bytes: [0u8; UserKey::ROOM],
            len: 0,
        },
    }
}

// Whether a memory is well-formed: its record is sound, and its user key is good if one was asked, blank if not.
fn is_well_formed_memory(m: Asked) -> bool
    ensures { result ≡ well_asked m }
{
    if !keys::is_sound_user(m.user) {
        return false;
    }
    if m.any {
        keys::is_good_user(m.user)
    } else {
        m.user.len == 0
    }
}

// Whether a user key is before the one asked last.
fn goes_back(m: Asked, u: UserKey) -> bool
    ensures { result ≡ not (model.not_before (asked_of m) (user_of u)) }
{
    m.any && keys::user_key_is_before(u, m.user)
}

// Whether no file at level + 2 or deeper holds the user key. Requires: the store is well-formed, and the level is one of the seven.
pub fn is_base_level(s: Store, level: usize, u: UserKey) -> bool
    requires { (well_store s ≡ true) × (level < level_count) }
    ensures { result ≡ model.is_base full (state_of s) level (user_of u) }
{
    if Level::COUNT <= level + 2 {
        return true;
    }
    let from = levels::start_of(s.counts, level + 2);
    let to = levels::counted(s.counts);
    let span = Span { start: u, stop: u };
    !pick_range::has_overlap(s.files, from, to, span)
}

// Whether no file at level + 2 or deeper of the store holds the user key, and the memory after the question.
pub fn is_base_level_for(
    s: Store,
    level: usize,
    memory: Asked,
    u: UserKey,
) -> Result<Based, Refusal>
    ensures { result ≡ based_by (on_store s (λ t. on_asked memory (calls.is_base_level full t level (asked_of memory) (user_of u)))) }
{
    if !store::is_well_formed(s) {
        return Err(Refusal::Form);
    }
    if !is_well_formed_memory(memory) {
        return Err(Refusal::Form);
    }
    if Level::COUNT <= level {
        return Err(Refusal::Level);
    }
    if !keys::is_good_user(u) {
        return Err(Refusal::Key);
    }
    if goes_back(memory, u) {
        return Err(Refusal::Backwards);
    }
    Ok(Based {
        base: is_base_level(s, level, u),
        memory: Asked {
            any: true,
            user: keys::kept_user(u),
        },
    })
}
