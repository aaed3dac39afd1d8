// Internal keys, user keys and the two kinds of numbers, by value. Every function answers for every record, also where the length is beyond the room.
#![tactic(auto)]

ghost use Rattle.std.specs.Prelude.{◌≡◌, cond, ◌&&◌, [], leb, ◌-◌, ◌%◌, ◌≤◌, length, take};
ghost use Rattle.lemmas.specs.Lists.{all};
ghost use Rattle.model.specs.Key as model;
ghost use Rattle.model.specs.File.{full, key_room};
ghost use Rattle.octets.specs.Octets.{standing, is_zero};
ghost use Rattle.keys.specs.Key.{key_of, user_of, key_record, user_record, sound, sound_key, sound_user, laid};

use std::cmp::Ordering;

// The number of a table file. No call takes it as a sequence number.
#[derive(Clone, Copy)]
pub struct FileNumber(pub u64);

// The sequence of a key. No call takes it as a file number.
#[derive(Clone, Copy)]
pub struct SequenceNumber(pub u64);

// Numbers of 64 bits.
#[derive(Clone, Copy)]
pub struct Word {}

impl Word {
    // The largest number of 64 bits.
    pub const LARGEST: u64 = 18446744073709551615;
}

// An internal key: a user key and eight trailer bytes, the first `len` of `bytes`.
// An array with a length beside it, as no heap is used; program `faults` passes lengths beyond the room.
#[derive(Clone, Copy)]
pub struct Key {
    pub bytes: [u8; Key::ROOM],
    pub len: usize,
}

impl Key {
    // The most bytes of an internal key.
    pub const ROOM: usize = UserKey::ROOM + Key::TRAILER;
    // The bytes of a trailer: sequence × 256 + type, little-endian.
    pub const TRAILER: usize = 8;
}

// A user key: the first `len` of `bytes`.
// An array with a length beside it, as no heap is used; program `faults` passes lengths beyond the room.
#[derive(Clone, Copy)]
pub struct UserKey {
    pub bytes: [u8; UserKey::ROOM],
    pub len: usize,
}

impl UserKey {
    // The most bytes of a user key.
    pub const ROOM: usize = 32;
}

// The key of no bytes, which empty places hold.
pub const BLANK_KEY: Key = Key {
    bytes: [0u8; Key::ROOM],
    len: 0,
};

// The number of bytes that a record with this length holds: none if the length is beyond the room.
fn held_len(len: usize, room: usize) -> usize
    ensures { result ≡ cond (leb len room) len 0 }
{
    if room < len { 0 } else { len }
}

// The number of bytes of a key: none if its length is beyond the room.
fn key_len(k: Key) -> usize
    ensures { result ≡ length (key_of k) }
{
    held_len(k.len, Key::ROOM)
}

// The number of bytes before the trailer, of a key of n bytes.
fn without_trailer(n: usize) -> usize
    ensures { result ≡ n - 8 }
{
    n.saturating_sub(Key::TRAILER)
}

// The number of bytes of a key's user key.
fn user_len(k: Key) -> usize
    ensures { result ≡ length (model.user (key_of k)) }
{
    without_trailer(key_len(k))
}

// The number of bytes of a user key: none if its length is beyond the room.
fn user_key_len(u: UserKey) -> usize
    ensures { result ≡ length (user_of u) }
{
    held_len(u.len, UserKey::ROOM)
}

// The type of a key: the lowest byte of its trailer. Internal.
pub fn kind(k: Key) -> u8
    ensures { result ≡ model.kind (key_of k) }
{
    let n = key_len(k);
    if n == 0 {
        return 0;
    }
    let at = user_len(k);
    octets::byte(&k.bytes, at)
}

// The sequence of a key that is the first n bytes of a room: the trailer without its lowest byte. Requires: n is within the room.
fn sequence_of(a: &[u8], n: usize) -> u64
    requires { n ≤ length a.now }
    ensures { result ≡ model.sequence (take n a.now) }
{
    let first = octets::lesser(without_trailer(n) + 1, n);
    let mut s = 0;
    for b in a[first..n].iter().rev() {
        s = s * 256 + u64::from(*b);
    }
    s
}

// The sequence of a key. Internal.
pub fn sequence(k: Key) -> SequenceNumber
    ensures { result.0 ≡ model.sequence (key_of k) }
{
    let n = key_len(k);
    SequenceNumber(sequence_of(&k.bytes, n))
}

// The number that decides between keys with one user key, the larger first: the sequence. The type is not weighed. Requires: n is within the room.
fn rank_of(a: &[u8], n: usize) -> u64
    requires { n ≤ length a.now }
    ensures { result ≡ model.rank (take n a.now) }
{
    sequence_of(a, n)
}

// Whether a key is strictly before another: by user key, then the larger rank first. Each key is the first bytes of a lent room. Internal. Requires: both lengths
// are within their rooms, and both rooms are whole words.
pub fn precedes(a: &[u8], m: usize, b: &[u8], n: usize) -> bool
    requires { (m ≤ length a.now) × (length a.now % 8 ≡ 0) × (n ≤ length b.now) × (length b.now % 8 ≡ 0) }
    ensures { result ≡ model.before (take m a.now) (take n b.now) }
{
    let x = without_trailer(m);
    let y = without_trailer(n);
    match octets::order_of(a, x, b, y) {
        Ordering::Less => true,
        Ordering::Equal => rank_of(b, n) < rank_of(a, m),
        Ordering::Greater => false,
    }
}

// Whether the first n bytes of a room are a key of right length and type, with zeros past them. Internal. Requires: the room is that of an internal key.
pub fn is_whole(a: &[u8], n: usize) -> bool
    requires { length a.now ≡ key_room }
    ensures { result ≡ sound key_room a.now n && model.good_key full.longest (take n a.now) }
{
    if n <= Key::TRAILER {
        return false;
    }
    if Key::ROOM < n {
        return false;
    }
    if 1 < a[n - Key::TRAILER] {
        return false;
    }
    octets::zeros_from(a, n)
}

// Copies as many bytes as fit to the start of the output. The rest of the output stays. Internal.
pub fn copy_into(src: &[u8], out: &mut [u8])
    ensures { out.new ≡ laid src.now out.old }
{
    let n = octets::lesser(src.len(), out.len());
    out[..n].copy_from_slice(&src[..n]);
}

// The user key of an internal key. Internal.
pub fn user_key(k: Key) -> UserKey
    ensures { result ≡ user_record (model.user (key_of k)) }
{
    let n = user_len(k);
    let x = k.bytes;
    let mut out = [0u8; UserKey::ROOM];
    copy_into(&x[0..n], &mut out);
    UserKey { bytes: out, len: n }
}

// The order of a user key to the user key of an internal key. Internal.
pub fn order_of_user(u: UserKey, k: Key) -> Ordering
    ensures { result ≡ standing model.user_before (user_of u) (model.user (key_of k)) }
{
    let m = user_key_len(u);
    let n = user_len(k);
    octets::order_of(&u.bytes, m, &k.bytes, n)
}

// The order of two user keys. Internal.
pub fn order_of_user_keys(u: UserKey, v: UserKey) -> Ordering
    ensures { result ≡ standing model.user_before (user_of u) (user_of v) }
{
    let m = user_key_len(u);
    let n = user_key_len(v);
    octets::order_of(&u.bytes, m, &v.bytes, n)
}

// Whether a key is strictly before another. Internal.
pub fn is_before(a: Key, b: Key) -> bool
    ensures { result ≡ model.before (key_of a) (key_of b) }
{
    let m = key_len(a);
    let n = key_len(b);
    precedes(&a.bytes, m, &b.bytes, n)
}

// The order of two internal keys. Internal.
pub fn order_of_keys(a: Key, b: Key) -> Ordering
    ensures { result ≡ standing model.before (key_of a) (key_of b) }
{
    if is_before(a, b) {
        return Ordering::Less;
    }
    if is_before(b, a) {
        return Ordering::Greater;
    }
    Ordering::Equal
}

// Whether a user key is strictly before the user key of an internal key. Internal.
pub fn user_is_before(u: UserKey, k: Key) -> bool
    ensures { result ≡ model.user_before (user_of u) (model.user (key_of k)) }
{
    order_of_user(u, k).is_lt()
}

// Whether a user key is strictly after the user key of an internal key. Internal.
pub fn user_is_after(u: UserKey, k: Key) -> bool
    ensures { result ≡ model.user_before (model.user (key_of k)) (user_of u) }
{
    order_of_user(u, k).is_gt()
}

// Whether the user key of an internal key is strictly before that of another. Internal.
pub fn user_precedes(a: Key, b: Key) -> bool
    ensures { result ≡ model.user_before (model.user (key_of a)) (model.user (key_of b)) }
{
    let m = user_len(a);
    let n = user_len(b);
    octets::order_of(&a.bytes, m, &b.bytes, n).is_lt()
}

// Whether a user key is strictly before another. Internal.
pub fn user_key_is_before(u: UserKey, v: UserKey) -> bool
    ensures { result ≡ model.user_before (user_of u) (user_of v) }
{
    order_of_user_keys(u, v).is_lt()
}

// Whether a key has a right length and a right type.
pub fn is_good(k: Key) -> bool
    ensures { result ≡ model.good_key full.longest (key_of k) }
{
    let n = key_len(k);
    if n <= Key::TRAILER {
        return false;
    }
    kind(k) <= 1
}

// Whether a user key has a right length.
pub fn is_good_user(u: UserKey) -> bool
    ensures { result ≡ model.good_user full.longest (user_of u) }
{
    let n = user_key_len(u);
    0 < n
}

// Whether a key's record is sound: its length is within its room, with zeros past its end. Internal.
pub fn is_sound(k: Key) -> bool
    ensures { result ≡ sound_key k }
{
    let n = k.len;
    if Key::ROOM < n {
        return false;
    }
    octets::zeros_from(&k.bytes, n)
}

// Whether a user key's record is sound: its length is within its room, with zeros past its end. Internal.
pub fn is_sound_user(u: UserKey) -> bool
    ensures { result ≡ sound_user u }
{
    let n = u.len;
    if UserKey::ROOM < n {
        return false;
    }
    octets::zeros_from(&u.bytes, n)
}

// Whether all bytes of a key's room are 0. Many bytes are tested at once. Internal.
pub fn holds_zeros(k: Key) -> bool
    ensures { result ≡ all is_zero k.bytes }
{
    k.bytes == [0u8; Key::ROOM]
}

// The key that is kept: the same bytes, zeros past its end.
pub fn kept(k: Key) -> Key
    ensures { result ≡ key_record (key_of k) }
{
    let n = key_len(k);
    let x = k.bytes;
    let mut out = [0u8; Key::ROOM];
    copy_into(&x[0..n], &mut out);
    Key { bytes: out, len: n }
}

// The user key that is kept: the same bytes, zeros past its end.
pub fn kept_user(u: UserKey) -> UserKey
    ensures { result ≡ user_record (user_of u) }
{
    let n = user_key_len(u);
    let x = u.bytes;
    let mut out = [0u8; UserKey::ROOM];
    copy_into(&x[0..n], &mut out);
    UserKey { bytes: out, len: n }
}

// The key of no bytes, which empty places hold. Internal.
pub fn blank_key() -> Key
    ensures { result ≡ key_record [] }
{
    BLANK_KEY
}
