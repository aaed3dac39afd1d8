// Answers of the shell laid in lent bytes: short ones by value, forms with numbers in them, lists of numbers.
#![tactic(auto)]

ghost use Rattle.std.specs.Prelude.{◌≡◌, map, get_or};
ghost use Rattle.script_lines.specs.Lines.{Laid};
ghost use Rattle.shell_reply.specs.Replies.{mark_text, next_place, form_text, number_of, numbers_text, more_text, files_text, next_text, front_text, said_text, said_by};

use answers::Refusal;
use records::{FileRecord, Version};

// A short answer: `ok`, `none`, a mark, a number, the next file number, or a refusal.
#[derive(Clone, Copy)]
pub enum Said {
    Agreed,
    Nothing,
    Mark(u8),
    Number(u64),
    Next(u64),
    Denied(Refusal),
}

// One byte of a form: `%` stands for a number in decimal, `#` for its sixteen hex digits, any other byte for itself.
fn put_mark(out: &mut [u8], at: usize, mark: u8, n: u64) -> usize
    ensures { Laid out.old at (mark_text mark n) out.new result }
{
    if mark == b'%' {
        return script_lines::put_number(out, at, n);
    }
    if mark == b'#' {
        return script_lines::put_bits(out, at, n);
    }
    script_lines::put_byte(out, at, mark)
}

// The place of the number that the next mark stands for.
fn next_place(mark: u8, k: usize) -> usize
    ensures { result ≡ next_place mark k }
{
    if 5 <= k {
        return k;
    }
    if mark == b'%' {
        return k + 1;
    }
    if mark == b'#' {
        return k + 1;
    }
    k
}

// The number at a place, 0 past them.
fn nth(numbers: [u64; 5], k: usize) -> u64
    ensures { result ≡ get_or numbers k 0 }
{
    numbers.get(k).copied().unwrap_or(0)
}

// A form, with its marks replaced by numbers in turn.
pub fn put_form(out: &mut [u8], start: usize, form: &[u8], numbers: [u64; 5]) -> usize
    ensures { Laid out.old start (form_text numbers form.now 0) out.new result }
{
    let mut at = start;
    let mut k = 0;
    for mark in form {
        at = put_mark(out, at, *mark, nth(numbers, k));
        k = next_place(*mark, k);
    }
    at
}

// `ok`, or the refusal.
pub fn said_of(o: Result<(), Refusal>) -> Said
    ensures { result ≡ said_by o }
{
    match o {
        Ok(()) => Said::Agreed,
        Err(r) => Said::Denied(r),
    }
}

// The next file number.
fn put_next(out: &mut [u8], n: u64) -> usize
    ensures { Laid out.old 0 (next_text n) out.new result }
{
    let at = script_lines::put(out, 0, b"next=");
    script_lines::put_number(out, at, n)
}

// A short answer.
pub fn put_said(out: &mut [u8], said: Said) -> usize
    ensures { Laid out.old 0 (said_text said) out.new result }
{
    match said {
        Said::Agreed => script_lines::put(out, 0, b"ok"),
        Said::Nothing => script_lines::put(out, 0, b"none"),
        Said::Mark(b) => script_lines::put_byte(out, 0, b),
        Said::Number(n) => script_lines::put_number(out, 0, n),
        Said::Next(n) => put_next(out, n),
        Said::Denied(r) => script_lines::put_refused(out, 0, r.number()),
    }
}

// The first n bytes in hex. Nothing if there are not so many.
pub fn put_front(out: &mut [u8], bytes: &[u8], n: usize) -> usize
    ensures { Laid out.old 0 (front_text n bytes.now) out.new result }
{
    if bytes.len() < n {
        return 0;
    }
    script_lines::put_hex(out, 0, &bytes[0..n])
}

// A comma and a number.
fn put_more(out: &mut [u8], at: usize, n: u64) -> usize
    ensures { Laid out.old at (more_text n) out.new result }
{
    let to = script_lines::put_byte(out, at, b',');
    script_lines::put_number(out, to, n)
}

// The numbers of a column, joined by commas; `-` for none.
pub fn put_column(out: &mut [u8], start: usize, column: &[u64]) -> usize
    ensures { Laid out.old start (numbers_text column.now) out.new result }
{
    let Some((first, others)) = column.split_first() else {
        return script_lines::put_byte(out, start, b'-');
    };
    let mut at = script_lines::put_number(out, start, *first);
    for n in others {
        at = put_more(out, at, *n);
    }
    at
}

// The numbers of records.
pub fn numbers_of(files: [FileRecord; Version::ROOM]) -> [u64; Version::ROOM]
    ensures { result ≡ map number_of files }
{
    let mut column = [0u64; Version::ROOM];
    for (n, f) in files.iter().enumerate() {
        column[n] = f.number.0;
    }
    column
}

// The numbers of the records from a place up to another, joined by commas; `-` for none.
pub fn put_files(
    out: &mut [u8],
    start: usize,
    files: [FileRecord; Version::ROOM],
    from: usize,
    to: usize,
) -> usize
    ensures { Laid out.old start (files_text files from to) out.new result }
{
    if to < from {
        return script_lines::put_byte(out, start, b'-');
    }
    if Version::ROOM < to {
        return script_lines::put_byte(out, start, b'-');
    }
    let column = numbers_of(files);
    put_column(out, start, &column[from..to])
}
