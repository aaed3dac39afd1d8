// The commands that ask about the whole store or one of its levels.
#![tactic(auto)]

mod levels_asked;
mod store_asked;

ghost use Rattle.std.specs.Prelude.{◌≤◌, length};

use store::Store;

// Whether a command asks about one level.
fn is_of_level(which: u8) -> bool {
    matches!(which, b'f' | b'b' | b'g')
}

// The answer of a command, which is named by a letter.
fn put(out: &mut [u8], s: Store, line: &[u8], which: u8) -> usize {
    if is_of_level(which) {
        return levels_asked::put_answer(out, s, line, which);
    }
    store_asked::put_answer(out, s, which)
}

// The answer of a command, which is named by a letter; it ends within the bytes.
pub fn put_answer(out: &mut [u8], s: Store, line: &[u8], which: u8) -> usize
    ensures { result ≤ length out.new }
{
    let at = put(out, s, line, which);
    script_lines::within(out, at)
}
