// What programs have by value, lent to the calls that take a slice or a reference.
#![tactic(auto)]

ghost use Rattle.std.specs.Prelude.{◌≡◌, ◌≤◌, length, take};
ghost use Rattle.model.specs.Answer.{lent};
ghost use Rattle.model.specs.File.{full, max_files};
ghost use Rattle.model.specs.Calls as calls;
ghost use Rattle.answers.specs.Outcome.{answer_of, filling};
ghost use Rattle.keys.specs.Key.{key_of};
ghost use Rattle.ask_find.specs.Finding.{on_lent, found_of};
ghost use Rattle.compact_cutter_lent.specs.Stopping.{Stops};

use answers::Refusal;
use compact_cutter::Cutter;
use compact_cutter_lent::Stepped;
use keys::Key;
use pick_answer::Picked;
use records::{FileRecord, Version};

// `find_file` on the first n records of an array, which are lent to it. Internal. Requires: n is within the room.
pub fn find_file_of(
    level: usize,
    files: [FileRecord; Version::ROOM],
    n: usize,
    k: Key,
) -> Result<Option<usize>, Refusal>
    requires { n ≤ max_files }
    ensures { result ≡ found_of (on_lent level (take n files) (λ fs. calls.find_file_call full level fs (key_of k))) }
{
    ask_find::find_file(level, &files[..n], k)
}

// `look_up` on the first n records of an array, which are lent to it. Internal. Requires: n is within the room.
pub fn look_up_of(
    level: usize,
    files: [FileRecord; Version::ROOM],
    n: usize,
    k: Key,
    out: &mut [u64],
) -> Result<usize, Refusal>
    requires { n ≤ max_files }
    ensures { (answer_of result ≡ filling (on_lent level (take n files) (λ fs. calls.look_up full level fs (key_of k) (length out.old)))) × (out.new ≡ lent (on_lent level (take n files) (λ fs. calls.look_up full level fs (key_of k) (length out.old))) out.old) }
{
    ask_lookup::look_up(level, &files[..n], k, out)
}

// Whether to cut before a key, and the memory after it, refused or not. The memory is lent to `should_stop_before`. Internal.
pub fn stopped(c: Picked, m: Cutter, k: Key) -> Stepped
    ensures { Stops c m k result.told result.memory }
{
    let mut memory = m;
    let told = compact_cutter_lent::should_stop_before(c, &mut memory, k);
    Stepped { told, memory }
}
