// Answer lines, built in lent bytes from a place on. Each function returns the place after what it wrote. What has no room is left out.
#![tactic(auto)]

ghost use Rattle.std.specs.Prelude.{◌≡◌, [], ◌∷◌, ◌<◌, min, length};
ghost use Rattle.io.specs.Digits.{hex_digit_ascii};
ghost use Rattle.keys.specs.Key.{key_of, user_of};
ghost use Rattle.script_lines.specs.Lines.{Laid, gap_text, decimal, bits, hex_text, refused_text};

use keys::{Key, UserKey};

// One byte.
pub fn put_byte(out: &mut [u8], at: usize, b: u8) -> usize
    ensures { Laid out.old at (b ∷ []) out.new result }
{
    if at < out.len() {
        out[at] = b;
        return at + 1;
    }
    at
}

// A blank, unless the line begins here.
pub fn put_gap(out: &mut [u8], at: usize) -> usize
    ensures { Laid out.old at (gap_text at) out.new result }
{
    if at == 0 {
        return at;
    }
    put_byte(out, at, b' ')
}

// A text.
pub fn put(out: &mut [u8], at: usize, text: &[u8]) -> usize
    ensures { Laid out.old at text.now out.new result }
{
    let mut to = at;
    for b in text {
        to = put_byte(out, to, *b);
    }
    to
}

// A number in decimal.
pub fn put_number(out: &mut [u8], at: usize, n: u64) -> usize
    ensures { Laid out.old at (decimal n) out.new result }
{
    let mut digits = [0u8; 20];
    let length = io::decimal(n, &mut digits);
    put(out, at, &digits[..length])
}

// A digit of hex.
fn hex_digit(x: u8) -> u8
    ensures { x < 16 → result ≡ hex_digit_ascii x }
{
    if x < 10 {
        return b'0' + x;
    }
    if x < 16 {
        return b'a' + (x - 10);
    }
    b'?'
}

// Bytes in hex, `-` for none.
pub fn put_hex(out: &mut [u8], at: usize, bytes: &[u8]) -> usize
    ensures { Laid out.old at (hex_text bytes.now) out.new result }
{
    if bytes.len() == 0 {
        return put_byte(out, at, b'-');
    }
    let mut to = at;
    for b in bytes {
        to = put_byte(out, to, hex_digit(*b / 16));
        to = put_byte(out, to, hex_digit(*b % 16));
    }
    to
}

// The sixteen hex digits of a number.
pub fn put_bits(out: &mut [u8], at: usize, n: u64) -> usize
    ensures { Laid out.old at (bits n) out.new result }
{
    let mut digits = [0u8; 16];
    let length = io::hex(n, 16, &mut digits);
    put(out, at, &digits[..length])
}

// The bytes of a key in hex; a key whose length is beyond its room has none.
pub fn put_key(out: &mut [u8], at: usize, k: Key) -> usize
    ensures { Laid out.old at (hex_text (key_of k)) out.new result }
{
    let n = k.len;
    if Key::ROOM < n {
        return put_byte(out, at, b'-');
    }
    let bytes = k.bytes;
    put_hex(out, at, &bytes[0..n])
}

// The bytes of a user key in hex.
pub fn put_user_key(out: &mut [u8], at: usize, u: UserKey) -> usize
    ensures { Laid out.old at (hex_text (user_of u)) out.new result }
{
    let n = u.len;
    if UserKey::ROOM < n {
        return put_byte(out, at, b'-');
    }
    let bytes = u.bytes;
    put_hex(out, at, &bytes[0..n])
}

// `refused` and the number of a refusal.
pub fn put_refused(out: &mut [u8], at: usize, n: u8) -> usize
    ensures { Laid out.old at (refused_text n) out.new result }
{
    let to = put(out, at, b"refused ");
    put_number(out, to, u64::from(n))
}

// Where an answer ends: at a place, or where the bytes end.
pub fn within(out: &[u8], at: usize) -> usize
    ensures { result ≡ min at (length out.now) }
{
    at.min(out.len())
}
