// The last pick with its memories, and the commands that ask about it, key after key: where to cut, and base levels.
#![tactic(auto)]

ghost use Rattle.std.specs.Prelude.{◌≡◌, ◌≤◌, length};
ghost use Rattle.shell_follow.specs.Following.{begun_with};

use compact_base::Asked;
use compact_cutter::{Cut, Cutter};
use pick_answer::Picked;
use store::Store;

// The last pick, with the memories of the cutter and of base-level questions.
#[derive(Clone, Copy)]
pub struct Last {
    pub picked: Picked,
    pub cutter: Cutter,
    pub asked: Asked,
}

// A pick with fresh memories.
pub fn begun(picked: Picked) -> Last
    ensures { result ≡ begun_with picked }
{
    Last {
        picked,
        cutter: compact_cutter::fresh_cutter(),
        asked: compact_base::nothing_asked(),
    }
}

// `y` or `n`.
fn put_yes(out: &mut [u8], at: usize, yes: bool) -> usize {
    script_lines::put_byte(out, at, if yes { b'y' } else { b'n' })
}

// A cutter's answer: whether to cut, the place, the count, whether a key was seen.
fn put_cut(out: &mut [u8], start: usize, c: Cut) -> usize {
    let m = c.memory;
    let at = put_yes(out, start, c.cut);
    shell_reply::put_form(
        out,
        at,
        b":%:%:%",
        [m.place as u64, m.count, m.seen as u64, 0, 0],
    )
}

// Where to cut before each key of a line, up to the first that is refused. The cutter's memory after them stays.
fn stop(out: &mut [u8], c: Picked, memory: &mut Cutter, line: &[u8]) -> usize {
    let mut at = 0;
    for word in line.split(|b| *b == b' ').skip(1) {
        let key = script_words::internal_key(word, 0, word.len()).key;
        at = script_lines::put_gap(out, at);
        match compact_cutter::step(c, *memory, key) {
            Ok(cut) => {
                at = put_cut(out, at, cut);
                *memory = cut.memory;
            }
            Err(r) => return script_lines::put_refused(out, at, r.number()),
        }
    }
    at
}

// Whether each user key of a line is at its base level, by the pick's level, up to the first that is refused. The memory after them stays.
fn base(out: &mut [u8], s: Store, level: usize, memory: &mut Asked, line: &[u8]) -> usize {
    let mut at = 0;
    for word in line.split(|b| *b == b' ').skip(1) {
        let user = script_words::user_key(word, 0, word.len()).user;
        at = script_lines::put_gap(out, at);
        match compact_base::is_base_level_for(s, level, *memory, user) {
            Ok(based) => {
                at = put_yes(out, at, based.base);
                *memory = based.memory;
            }
            Err(r) => return script_lines::put_refused(out, at, r.number()),
        }
    }
    at
}

// The answer of a command on the last pick, which is named by a letter: it ends within the bytes, and the pick stays.
pub fn follow(out: &mut [u8], s: Store, last: &mut Last, line: &[u8], which: u8) -> usize
    ensures { (result ≤ length out.new) × (last.new.picked ≡ last.old.picked) }
{
    let c = last.picked;
    let at = if which == b's' {
        stop(out, c, &mut last.cutter, line)
    } else {
        base(out, s, c.level, &mut last.asked, line)
    };
    script_lines::within(out, at)
}
