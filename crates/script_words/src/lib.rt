// The words of a script's line: numbers, keys and names. Every function answers for every line and every pair of places. `fine` is false if the word is not of that kind.
#![tactic(auto)]

ghost use Rattle.std.specs.Prelude.{◌≡◌, cond, true, false, ◌++◌, ◌+◌, ◌-◌, ◌*◌, ◌≤◌, ◌<◌, leb, length, get_or, take};
ghost use Rattle.model.specs.File.{longest_user};
ghost use Rattle.lemmas.specs.Loops.{before_first};
ghost use Rattle.lemmas.specs.Little.{bytes as little};
ghost use Rattle.script_words.specs.Words.{word_of, same, is_byte, last_place, no_number, number_word, letter_value, hex_value, is_hex, hex_byte, hex_bytes, forty, no_key, trailer_of, trailer_word, sealed, internal_key, user_word};

use keys::{Key, UserKey};

// A number, if the word is one.
#[derive(Clone, Copy)]
pub struct NumberWord {
    pub fine: bool,
    pub value: u64,
}

// An internal key, if the word is one.
#[derive(Clone, Copy)]
pub struct KeyWord {
    pub fine: bool,
    pub key: Key,
}

// A user key, if the word is one.
#[derive(Clone, Copy)]
pub struct UserWord {
    pub fine: bool,
    pub user: UserKey,
}

// The byte at a place, 0 past the end.
pub fn byte_at(line: &[u8], i: usize) -> u8
    ensures { result ≡ get_or line.now i 0 }
{
    line.get(i).copied().unwrap_or(0)
}

// The first place from one on that holds a byte, or the end.
pub fn place_of(line: &[u8], from: usize, to: usize, b: u8) -> usize
    ensures { result ≡ from + before_first (is_byte b) (word_of line.now from to) }
{
    (from..to)
        .find(|i| byte_at(line, *i) == b)
        .unwrap_or(from.max(to))
}

// The last place of a run that holds a byte, or its end.
fn last_place_of(line: &[u8], from: usize, to: usize, b: u8) -> usize
    ensures { result ≡ last_place b from to (word_of line.now from to) }
{
    let mut found = to;
    for i in from..to {
        if byte_at(line, i) == b {
            found = i;
        }
    }
    found
}

// Whether a run of a line is this text.
pub fn is_word(line: &[u8], from: usize, to: usize, text: &[u8]) -> bool
    ensures { result ≡ same (word_of line.now from to) text.now }
{
    for (i, b) in text.iter().enumerate() {
        let at = from + i;
        if to <= at {
            return false;
        }
        if byte_at(line, at) != *b {
            return false;
        }
    }
    to <= from + text.len()
}

// A number with one digit more, or none if that is above the largest u64.
fn next_digit(x: u64, digit: u64) -> NumberWord
    ensures { result ≡ cond (leb (x * 10 + digit) 18446744073709551615) (record { fine = true; value = x * 10 + digit }) no_number }
{
    if 1844674407370955161 < x {
        return NumberWord {
            fine: false,
            value: 0,
        };
    }
    let tens = x * 10;
    if 18446744073709551615 - tens < digit {
        return NumberWord {
            fine: false,
            value: 0,
        };
    }
    NumberWord {
        fine: true,
        value: tens + digit,
    }
}

// No number.
fn no_number() -> NumberWord
    ensures { result ≡ no_number }
{
    NumberWord {
        fine: false,
        value: 0,
    }
}

// A decimal number to the largest u64.
pub fn number(line: &[u8], from: usize, to: usize) -> NumberWord
    ensures { result ≡ number_word (word_of line.now from to) }
{
    if to <= from {
        return no_number();
    }
    let mut n = NumberWord {
        fine: true,
        value: 0,
    };
    for i in from..to {
        let c = byte_at(line, i);
        if c < b'0' {
            return no_number();
        }
        if b'9' < c {
            return no_number();
        }
        n = next_digit(n.value, octets::wide(c - b'0'));
        if !n.fine {
            return n;
        }
    }
    n
}

// The value of a letter as a hex digit, 16 for any other byte.
fn letter_digit(c: u8) -> u8
    ensures { result ≡ letter_value c }
{
    if c < b'A' {
        return 16;
    }
    if c <= b'F' {
        return c - 55;
    }
    if c < b'a' {
        return 16;
    }
    if c <= b'f' {
        return c - 87;
    }
    16
}

// The value of a hex digit, 16 for any other byte.
fn hex_digit(c: u8) -> u8
    ensures { result ≡ hex_value c }
{
    if c < b'0' {
        return 16;
    }
    if c <= b'9' {
        return c - b'0';
    }
    letter_digit(c)
}

// Whether a run has only hex digits, an even number of them and at least two.
pub fn is_hex(line: &[u8], from: usize, to: usize) -> bool
    ensures { result ≡ is_hex (word_of line.now from to) }
{
    if to <= from {
        return false;
    }
    if (to - from) % 2 != 0 {
        return false;
    }
    (from..to).all(|i| hex_digit(byte_at(line, i)) < 16)
}

// The byte of two hex digits.
pub fn hex_byte(line: &[u8], at: usize) -> u8
    ensures { result ≡ hex_byte (get_or line.now at 0) (get_or line.now (at + 1) 0) }
{
    if line.len() <= at {
        return 0;
    }
    let high = hex_digit(byte_at(line, at));
    if 15 < high {
        return 0;
    }
    let low = hex_digit(byte_at(line, at + 1));
    if 15 < low {
        return 0;
    }
    high * 16 + low
}

// Writes the bytes of hex digits to lent bytes, as far as there is room. Returns how many.
pub fn lay_hex(line: &[u8], from: usize, to: usize, out: &mut [u8]) -> usize
    ensures { (result ≤ length out.new) × (take result out.new ≡ take (length out.new) (hex_bytes line.now from to)) }
{
    let n = (to.saturating_sub(from) / 2).min(out.len());
    for (i, b) in out[..n].iter_mut().enumerate() {
        *b = hex_byte(line, from + 2 * i);
    }
    n
}

// A byte of a number of so many bytes, the lowest first; 0 past them.
fn low_byte(x: u64, width: usize, i: usize) -> u8
    ensures { result ≡ get_or (little width x) i 0 }
{
    if width <= i {
        return 0;
    }
    let mut y = x;
    for _ in 0..i {
        y /= 256;
    }
    (y % 256) as u8
}

// A byte of a text and of the number after it; 0 past them.
fn text_byte(line: &[u8], from: usize, to: usize, x: u64, width: usize, i: usize) -> u8
    ensures { result ≡ get_or (word_of line.now from to ++ little width x) i 0 }
{
    let n = to.saturating_sub(from);
    if i < n {
        return byte_at(line, from + i);
    }
    low_byte(x, width, i - n)
}

// A byte of a run of hex digits; 0 past them.
fn digits_byte(line: &[u8], from: usize, to: usize, i: usize) -> u8
    ensures { result ≡ get_or (hex_bytes line.now from to) i 0 }
{
    let n = to.saturating_sub(from) / 2;
    if n <= i {
        return 0;
    }
    hex_byte(line, from + 2 * i)
}

// What a record holds of a text and of the number after it.
fn record_of_text(line: &[u8], from: usize, to: usize, x: u64, width: usize) -> [u8; Key::ROOM]
    ensures { result ≡ forty (word_of line.now from to ++ little width x) }
{
    let mut out = [0u8; Key::ROOM];
    for (i, b) in out.iter_mut().enumerate() {
        *b = text_byte(line, from, to, x, width, i);
    }
    out
}

// What a record holds of a key in hex digits.
fn record_of_hex(line: &[u8], from: usize, to: usize) -> [u8; Key::ROOM]
    ensures { result ≡ forty (hex_bytes line.now from to) }
{
    let mut out = [0u8; Key::ROOM];
    for (i, b) in out.iter_mut().enumerate() {
        *b = digits_byte(line, from, to, i);
    }
    out
}

// No key.
fn no_key() -> KeyWord
    ensures { result ≡ no_key }
{
    KeyWord {
        fine: false,
        key: keys::BLANK_KEY,
    }
}

// The trailer of a sequence and a type; none for a sequence that is none.
fn trailer_of(n: NumberWord, kind: u64) -> NumberWord
    requires { kind ≤ 1 }
    ensures { result ≡ trailer_of kind n }
{
    if !n.fine {
        return no_number();
    }
    if 72057594037927935 < n.value {
        return no_number();
    }
    NumberWord {
        fine: true,
        value: n.value * 256 + kind,
    }
}

// The trailer that a sequence's word stands for, `d` after the number for a deletion.
fn trailer_word(line: &[u8], from: usize, to: usize) -> NumberWord
    ensures { result ≡ trailer_word line.now from to }
{
    if to <= from {
        return trailer_of(number(line, from, to), 1);
    }
    if byte_at(line, to - 1) == b'd' {
        return trailer_of(number(line, from, to - 1), 0);
    }
    trailer_of(number(line, from, to), 1)
}

// The internal key of a text, a sequence and a type; the text ends where the sequence's mark stands.
fn key_of_text(line: &[u8], from: usize, mark: usize, to: usize) -> KeyWord
    requires { mark < to }
    ensures { result ≡ sealed (word_of line.now from mark) (trailer_word line.now (mark + 1) to) }
{
    let t = trailer_word(line, mark + 1, to);
    let n = mark.saturating_sub(from);
    if !t.fine {
        return no_key();
    }
    if 18446744073709551607 < n {
        return no_key();
    }
    KeyWord {
        fine: true,
        key: Key {
            bytes: record_of_text(line, from, mark, t.value, 8),
            len: n + 8,
        },
    }
}

// An internal key: hex digits, `-` for no bytes, or a text with its sequence, `d` after it for a deletion. Its length is that of the word, also where the record has no room for it.
pub fn internal_key(line: &[u8], from: usize, to: usize) -> KeyWord
    ensures { result ≡ internal_key line.now from to }
{
    if is_word(line, from, to, b"-") {
        return KeyWord {
            fine: true,
            key: keys::BLANK_KEY,
        };
    }
    let mark = last_place_of(line, from, to, b'@');
    if mark < to {
        return key_of_text(line, from, mark, to);
    }
    if !is_hex(line, from, to) {
        return no_key();
    }
    KeyWord {
        fine: true,
        key: Key {
            bytes: record_of_hex(line, from, to),
            len: to.saturating_sub(from) / 2,
        },
    }
}

// The first bytes of a key's record as those of a user key's.
fn front(bytes: [u8; Key::ROOM]) -> [u8; UserKey::ROOM]
    ensures { result ≡ take longest_user bytes }
{
    let mut out = [0u8; UserKey::ROOM];
    out.copy_from_slice(&bytes[..UserKey::ROOM]);
    out
}

// A user key of this length.
fn user_of(fine: bool, bytes: [u8; Key::ROOM], len: usize) -> UserWord
    ensures { result ≡ record { fine = fine; user = record { bytes = take longest_user bytes; len = len } } }
{
    UserWord {
        fine: fine,
        user: UserKey {
            bytes: front(bytes),
            len: len,
        },
    }
}

// A user key: hex digits, `-` for no bytes, or `=` and a text.
pub fn user_key(line: &[u8], from: usize, to: usize) -> UserWord
    ensures { result ≡ user_word line.now from to }
{
    let none = [0u8; Key::ROOM];
    if to <= from {
        return user_of(false, none, 0);
    }
    if is_word(line, from, to, b"-") {
        return user_of(true, none, 0);
    }
    if byte_at(line, from) == b'=' {
        return user_of(
            true,
            record_of_text(line, from + 1, to, 0, 0),
            to - (from + 1),
        );
    }
    if is_hex(line, from, to) {
        return user_of(true, record_of_hex(line, from, to), (to - from) / 2);
    }
    user_of(false, none, 0)
}
