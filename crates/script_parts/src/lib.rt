// The parts of a line: words with one blank between two, or the parts of an item with one comma between two. Also what a part stands for. A part that is missing has no bytes.
#![tactic(auto)]

ghost use Rattle.std.specs.Prelude.{◌≡◌, length};
ghost use Rattle.script_words.specs.Words.{word_of, number_word, internal_key, user_word};
ghost use Rattle.script_parts.specs.Parts.{words_of, next_end, part_end, start_after, run_of};

use script_words::{KeyWord, NumberWord, UserWord};

// A run of a line: from a place up to another.
#[derive(Clone, Copy)]
pub struct Run {
    pub from: usize,
    pub to: usize,
}

// A run of a line, and the mark that separates its parts.
#[derive(Clone, Copy)]
pub struct Parts {
    pub from: usize,
    pub to: usize,
    pub mark: u8,
}

// The words of a line.
pub fn words_of(line: &[u8]) -> Parts
    ensures { result ≡ words_of line.now }
{
    Parts {
        from: 0,
        to: line.len(),
        mark: b' ',
    }
}

// Where the part that begins at a place ends: at the next mark, or where the text ends.
pub fn end_of(line: &[u8], p: Parts, from: usize) -> usize
    ensures { result ≡ next_end line.now p from }
{
    script_words::place_of(line, from, p.to, p.mark)
}

// Where the next part begins, if one ends at this place: past the mark, or the end of the text if there is no mark.
fn start_after(p: Parts, end: usize) -> usize
    ensures { result ≡ start_after p end }
{
    if end < p.to {
        return end + 1;
    }
    p.to
}

// Where part i ends, counted from 0.
fn part_end(line: &[u8], p: Parts, i: usize) -> usize
    ensures { result ≡ part_end line.now p i }
{
    let mut end = end_of(line, p, p.from);
    for _ in 0..i {
        let from = start_after(p, end);
        end = end_of(line, p, from);
    }
    end
}

// The run of part i, counted from 0.
pub fn run_of(line: &[u8], p: Parts, i: usize) -> Run
    ensures { result ≡ run_of line.now p i }
{
    if i == 0 {
        return Run {
            from: p.from,
            to: part_end(line, p, 0),
        };
    }
    let before = part_end(line, p, i - 1);
    let from = start_after(p, before);
    Run {
        from: from,
        to: end_of(line, p, from),
    }
}

// Part i as a number.
pub fn number(line: &[u8], p: Parts, i: usize) -> NumberWord
    ensures { result ≡ number_word (word_of line.now (run_of line.now p i).from (run_of line.now p i).to) }
{
    let r = run_of(line, p, i);
    script_words::number(line, r.from, r.to)
}

// Part i as an internal key.
pub fn key(line: &[u8], p: Parts, i: usize) -> KeyWord
    ensures { result ≡ internal_key line.now (run_of line.now p i).from (run_of line.now p i).to }
{
    let r = run_of(line, p, i);
    script_words::internal_key(line, r.from, r.to)
}

// Part i as a user key.
pub fn user(line: &[u8], p: Parts, i: usize) -> UserWord
    ensures { result ≡ user_word line.now (run_of line.now p i).from (run_of line.now p i).to }
{
    let r = run_of(line, p, i);
    script_words::user_key(line, r.from, r.to)
}
