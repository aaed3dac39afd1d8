// Lent runs of bytes. Each room is a whole number of 8-byte words, and eight bytes are read at once as one number, always from a multiple of eight on.
#![tactic(auto)]

ghost use Rattle.std.specs.Prelude.{◌≡◌, ◌+◌, ◌-◌, ◌/◌, ◌%◌, ◌^◌, ◌≤◌, ◌<◌, min, length, take, drop, get_or};
ghost use Rattle.lemmas.specs.Order.{lexb};
ghost use Rattle.lemmas.specs.Lists.{all};
ghost use Rattle.lemmas.specs.Big.{big};
ghost use Rattle.octets.specs.Octets.{standing, is_zero};

use std::cmp::Ordering;

// A byte as a number of 64 bits. Internal.
pub fn wide(x: u8) -> u64
    ensures { result ≡ x }
{
    x as u64
}

// The lesser of two places. Internal.
pub fn lesser(m: usize, n: usize) -> usize
    ensures { result ≡ min m n }
{
    m.min(n)
}

// Eight bytes from a place on as one big-endian number. Internal. Requires: the list has the eight bytes.
pub fn word(a: &[u8], at: usize) -> u64
    requires { at + 8 ≤ length a.now }
    ensures { result ≡ big 0 (take 8 (drop at a.now)) }
{
    match a[at..].first_chunk() {
        Some(bytes) => u64::from_be_bytes(*bytes),
        None => unreachable!(),
    }
}

// The first c bytes of an 8-byte word as a number. Internal. Requires: c is above 0.
pub fn front(x: u64, c: usize) -> u64
    requires { 0 < c }
    ensures { result ≡ x / 256 ^ (8 - c) }
{
    x >> (64 - 8 * lesser(c, 8))
}

// The order of the first bytes of two rooms: the first difference decides, and a proper prefix is first. Internal. Requires: both lengths are within their rooms,
// and both rooms are whole words.
pub fn order_of(a: &[u8], m: usize, b: &[u8], n: usize) -> Ordering
    requires { (m ≤ length a.now) × (length a.now % 8 ≡ 0) × (n ≤ length b.now) × (length b.now % 8 ≡ 0) }
    ensures { result ≡ standing lexb (take m a.now) (take n b.now) }
{
    let both = lesser(m, n);
    for i in 0..both.div_ceil(8) {
        let left = both - 8 * i;
        let x = front(word(a, 8 * i), left);
        let y = front(word(b, 8 * i), left);
        if x < y {
            return Ordering::Less;
        }
        if y < x {
            return Ordering::Greater;
        }
    }
    if m < n {
        return Ordering::Less;
    }
    if n < m {
        return Ordering::Greater;
    }
    Ordering::Equal
}

// Whether all bytes of a room from a place on are 0. In the first word, the bytes before the place are shifted out. Internal. Requires: the place is within the
// room, and the room is whole words.
pub fn zeros_from(a: &[u8], n: usize) -> bool
    requires { (n ≤ length a.now) × (length a.now % 8 ≡ 0) }
    ensures { result ≡ all is_zero (drop n a.now) }
{
    let mut c = n % 8;
    for bytes in a[n - c..].chunks_exact(8) {
        if word(bytes, 0) << (8 * c) != 0 {
            return false;
        }
        c = 0;
    }
    true
}

// The byte at a place, taken out of its word. Internal. Requires: the room has the place, and is whole words.
pub fn byte(a: &[u8], i: usize) -> u8
    requires { (i < length a.now) × (length a.now % 8 ≡ 0) }
    ensures { result ≡ get_or a.now i 0 }
{
    let c = i % 8;
    let w = word(a, i - c);
    ((w >> (56 - 8 * c)) % 256) as u8
}
