// The table of the script's commands: which command a line is, what its words must be, which word is wrong, and help.
#![tactic(auto)]

ghost use Rattle.std.specs.Prelude.{◌≡◌, cond, ◌≤◌, ◌+◌, ◌-◌, length, ltb};
ghost use Rattle.script_lines.specs.Lines.{Laid};
ghost use Rattle.script_words.specs.Words.{word_of};
ghost use Rattle.script_table.specs.Faults.{counter_name, bytes_word, held_word, letter_word, name_long, of_numbers, fits_snapshots, fits_other, fits, Named};

use script_parts::Parts;

// The commands, one line each: the name, the group, the letter within the group, the kinds of the words, then the help text.
// A kind with `*` after it stands for any number of words, one with `?` for one word or none; `.` is no word.
const COMMANDS: [u8; 2525] =
    *b"new mn . -> ok: a fresh store, no pick, fresh memories; the maximum file size stays\n\
maxsize mm M M -> ok: the maximum file size that pick and range pass on, 2097152 at first\n\
echo pe T* TEXT -> TEXT\n\
cmp pc KK IKEY IKEY -> <, = or >\n\
parse pp K IKEY -> type=. seq=. user=HEX\n\
edit ce I* ITEM.. -> ok; an ITEM is p,L,IKEY or d,L,N or a,L,N,SIZE,SMALLEST,LARGEST or l,N\n\
files af L L -> num,size,smallest,largest,seeks of each file, in list order\n\
bytes ab L L -> COUNT BYTES of the level\n\
ptrs ap . -> seven keys in hex, or -\n\
counters ac . -> next=. manifest=. seq=. log=. prev=.\n\
score as . -> level=. bits=. needs=.: the 16 hex digits of the f64, and 0 or 1\n\
pick kp . -> level=. cause=size in0=. in1=. gp=. manual=0 trivial=. ptr=HEX edel=L:N,..; the pick is kept for stop and base\n\
range kr LKK L IKEY IKEY -> as pick, with cause=manual and manual=1\n\
stop fs K* IKEY.. -> of the last pick: y or n, and :PLACE:COUNT:SEEN, for each key, up to the first refusal\n\
base fb U* UKEY.. -> of the last pick's level: y or n for each key, up to the first refusal\n\
overlap qo LKK L IKEY IKEY -> file numbers in level order\n\
inlevel qi LUU L UKEY UKEY -> 0 or 1\n\
lookup qu K IKEY -> seven lists of file numbers\n\
find qn LK L IKEY -> the index of the first file whose largest is not before the key, or none\n\
mem qm UU UKEY UKEY -> the level of a memory table\n\
live al . -> file numbers, rising\n\
newnum cn . -> the number handed out\n\
reuse cr N N -> next=.\n\
mark cm N N -> next=.\n\
set cs CN manifest/seq/prev N -> ok\n\
getrange ag L L -> the smallest and the largest key of the level's files, or none\n\
snapshot ax . -> the snapshot's bytes in hex\n\
load cl H HEX -> ok: the store is what the bytes hold\n\
keep wk A a/b -> ok: the store's snapshot is kept under the letter, as $a or $b; it outlives new\n\
diff dd BB HEX HEX -> left, right: same, or <,L,N only the left has it; >,L,N,SIZE,SMALLEST,LARGEST only the right; ~,L,N,SIZE,SMALLEST,LARGEST both, as the right has it; p,L,KEY and c,NAME,N the right's; HEX is bytes, $a or $b\n\
differences dl BB HEX HEX -> left, right: the bytes of the list of what differs, in hex\n\
patch dp BB HEX HEX -> left, right: the bytes that the left gives after that list is applied, in hex\n\
apply da BB HEX HEX -> left, list: the bytes that the list makes of the left, in hex\n\
save ws G NAME -> ok: the file holds the store's snapshot, whole or not at all; NAME is one word\n\
open oo G NAME -> ok: the store is what the file holds; NAME is one word\n\
help ph T? or help NAME -> the commands' names; how that one is written and what it answers\n";

// The items of an edit, one line each, in the same form.
const ITEMS: [u8; 34] = *b"p ip LK\n\
d id LN\n\
a ia LNSKK\n\
l il N\n";

// What a word of each kind must be.
const KINDS: [u8; 630] = *b"L a level, 0 to 18446744073709551615\n\
N a number, 0 to 18446744073709551615\n\
S a size, 0 to 18446744073709551615\n\
M a maximum file size, 0 to 18446744073709551615\n\
K an internal key: text@SEQ, text@SEQd, hex digits or -\n\
U a user key: =text, hex digits or -\n\
H bytes: hex digits, two each, or -\n\
B bytes: hex digits, two each, or -, or $a or $b for what keep kept\n\
Q after keep of that letter only\n\
A a letter: a or b\n\
G a file's name, 1 to 4088 bytes\n\
C a counter: manifest, seq or prev\n\
W a command's name\n\
Y p, d, a or l: see help edit\n\
E the end of the line\n\
F the end of the item\n\
X see help\n\
P after pick or range only\n\
Z 65536 bytes at most\n";

// What is wrong with a line: the word and the part of an item, both counted from 1, the kind that is wanted there, and the run of the line that stands there. Kind 0: nothing is wrong. Part 0:
// the whole word.
#[derive(Clone, Copy)]
pub struct Fault {
    pub kind: u8,
    pub word: usize,
    pub part: usize,
    pub from: usize,
    pub to: usize,
}

// Which command a line is, and what is wrong with it.
#[derive(Clone, Copy)]
pub struct Reading {
    pub group: u8,
    pub which: u8,
    pub fault: Fault,
}

// The longest word that an answer shows whole.
const SHOWN: usize = 40;

// The longest name of a file: a path has at most 4095 bytes, and a file that is being written has seven more in its name.
const NAME: usize = 4088;

// ---- entries of a table

// The table's entry whose name is this word, without the name and the blank after it.
fn entry_of<'a>(table: &'a [u8], word: &[u8]) -> Option<&'a [u8]> {
    for entry in table.split(|b| *b == b'\n') {
        if let Some(n) = entry.iter().position(|b| *b == b' ') {
            if &entry[..n] == word {
                return Some(&entry[n + 1..]);
            }
        }
    }
    None
}

// The entry of a table whose name is a run of a line.
fn entry_at<'a>(table: &'a [u8], line: &[u8], from: usize, to: usize) -> Option<&'a [u8]> {
    entry_of(table, line.get(from..to)?)
}

// The kinds of words that an entry asks for, and the text after them.
fn kinds_of(entry: &[u8]) -> &[u8] {
    entry.get(3..).unwrap_or(&[])
}

// The first of the kinds. It is not a letter if no further word is wanted.
fn wanted(kinds: &[u8], end: u8) -> u8 {
    match kinds.first() {
        Some(b) if b.is_ascii_uppercase() => *b,
        _ => end,
    }
}

// The kinds after a word of the first one. They are the same if any number of such words may follow.
fn next_kinds(kinds: &[u8]) -> &[u8] {
    match kinds {
        [_, b'*', ..] => kinds,
        [_, b'?', rest @ ..] => rest,
        [_, rest @ ..] => rest,
        [] => kinds,
    }
}

// Whether the words may end before the first of the kinds.
fn may_end(kinds: &[u8]) -> bool {
    let mark = script_words::byte_at(kinds, 1);
    wanted(kinds, 0) == 0 || mark == b'*' || mark == b'?'
}

// ---- kinds of words

// Whether a word is hex digits, or `-` for no bytes.
fn is_bytes(line: &[u8], from: usize, to: usize) -> bool
    ensures { result ≡ bytes_word (word_of line.now from to) }
{
    if script_words::is_word(line, from, to, b"-") {
        return true;
    }
    script_words::is_hex(line, from, to)
}

// Whether a word is the name of a counter that may be set.
fn is_counter(line: &[u8], from: usize, to: usize) -> bool
    ensures { result ≡ counter_name (word_of line.now from to) }
{
    if script_words::is_word(line, from, to, b"manifest") {
        return true;
    }
    if script_words::is_word(line, from, to, b"seq") {
        return true;
    }
    script_words::is_word(line, from, to, b"prev")
}

// Whether a kind is one of numbers: a level, a number, a size, a maximum.
fn is_of_numbers(kind: u8) -> bool
    ensures { result ≡ of_numbers kind }
{
    if kind == b'L' {
        return true;
    }
    if kind == b'N' {
        return true;
    }
    if kind == b'S' {
        return true;
    }
    if kind == b'M' {
        return true;
    }
    false
}

// Whether a word is bytes, or names what is kept under a letter.
fn is_held(line: &[u8], from: usize, to: usize) -> bool
    ensures { result ≡ held_word (word_of line.now from to) }
{
    if script_words::is_word(line, from, to, b"$a") {
        return true;
    }
    if script_words::is_word(line, from, to, b"$b") {
        return true;
    }
    is_bytes(line, from, to)
}

// Whether a word is a letter under which a snapshot is kept.
fn is_letter(line: &[u8], from: usize, to: usize) -> bool
    ensures { result ≡ letter_word (word_of line.now from to) }
{
    if script_words::is_word(line, from, to, b"a") {
        return true;
    }
    script_words::is_word(line, from, to, b"b")
}

// Whether a word can be a file's name: it has bytes, and a path has room for it and for seven more.
fn is_name(from: usize, to: usize) -> bool
    ensures { result ≡ name_long (to - from) }
{
    if to <= from {
        return false;
    }
    to - from <= NAME
}

// Whether a word is of a kind of snapshots: bytes or what is kept, a letter, a file's name. Of any other kind none is.
fn is_of_snapshots(line: &[u8], from: usize, to: usize, kind: u8) -> bool
    ensures { result ≡ fits_snapshots (word_of line.now from to) kind }
{
    if kind == b'B' {
        return is_held(line, from, to);
    }
    if kind == b'A' {
        return is_letter(line, from, to);
    }
    if kind == b'G' {
        return is_name(from, to);
    }
    false
}

// Whether a word is of this kind, for the kinds that are neither keys nor numbers. Two kinds take every word. The marks that end a list of kinds take none.
fn is_of_other(line: &[u8], from: usize, to: usize, kind: u8) -> bool
    ensures { result ≡ fits_other (word_of line.now from to) kind }
{
    if kind == b'H' {
        return is_bytes(line, from, to);
    }
    if kind == b'C' {
        return is_counter(line, from, to);
    }
    if kind == b'T' {
        return true;
    }
    if kind == b'I' {
        return true;
    }
    is_of_snapshots(line, from, to, kind)
}

// Whether a word is of a kind.
fn is_of_kind(line: &[u8], from: usize, to: usize, kind: u8) -> bool
    ensures { result ≡ fits line.now from to kind }
{
    if kind == b'K' {
        let k = script_words::internal_key(line, from, to);
        return k.fine;
    }
    if kind == b'U' {
        let u = script_words::user_key(line, from, to);
        return u.fine;
    }
    if is_of_numbers(kind) {
        let n = script_words::number(line, from, to);
        return n.fine;
    }
    is_of_other(line, from, to, kind)
}

// ---- faults

// Nothing is wrong.
fn no_fault() -> Fault
    ensures { result.kind ≡ 0 }
{
    Fault {
        kind: 0,
        word: 0,
        part: 0,
        from: 0,
        to: 0,
    }
}

// The first wrong part after the part that ends at this place. Each turn finds where the next part ends: a `for` would be no plainer.
fn fault_of(shape: &[u8], line: &[u8], p: Parts, first: usize, end: u8) -> Fault
    ensures { Named line.now result }
{
    let n = p.to;
    let mut at = first;
    let mut kinds = shape;
    let mut word: usize = 2;
    while at < n {
        let from = at + 1;
        let to = script_parts::end_of(line, p, from);
        let kind = wanted(kinds, end);
        if !is_of_kind(line, from, to, kind) {
            return Fault {
                kind,
                word,
                part: 0,
                from,
                to,
            };
        }
        kinds = next_kinds(kinds);
        word = word.saturating_add(1);
        at = to;
    }
    missing(kinds, line, n, word, end)
}

// A word is missing at the end of the line.
fn missing(kinds: &[u8], line: &[u8], n: usize, word: usize, end: u8) -> Fault
    ensures { Named line.now result }
{
    let kind = wanted(kinds, end);
    if may_end(kinds) {
        return no_fault();
    }
    if is_of_kind(line, n, n, kind) {
        return no_fault();
    }
    Fault {
        kind,
        word,
        part: 0,
        from: n,
        to: n,
    }
}

// The fault of an item: what was counted as a word is a part of the item.
fn of_item(f: Fault, item: usize) -> Fault
    ensures { (result.kind ≡ f.kind) × (result.from ≡ f.from) × (result.to ≡ f.to) }
{
    Fault {
        word: item,
        part: f.word,
        ..f
    }
}

// What is wrong with one item of an edit.
fn item_fault(line: &[u8], from: usize, to: usize, item: usize) -> Fault
    ensures { Named line.now result }
{
    let items = ITEMS;
    let p = Parts {
        from,
        to,
        mark: b',',
    };
    let end = script_parts::end_of(line, p, from);
    let Some(entry) = entry_at(&items, line, from, end) else {
        return Fault {
            kind: b'Y',
            word: item,
            part: 1,
            from,
            to: end,
        };
    };
    of_item(fault_of(kinds_of(entry), line, p, end, b'F'), item)
}

// What is wrong with the first bad item. The word before the items ends at this place. Each turn finds where the next item ends: a `for` would be no plainer.
fn items_fault(line: &[u8], first: usize) -> Fault
    ensures { Named line.now result }
{
    let n = line.len();
    let mut at = first;
    let mut item: usize = 1;
    while at < n {
        let from = at + 1;
        let to = script_words::place_of(line, from, n, b' ');
        let f = item_fault(line, from, to, item);
        if f.kind != 0 {
            return f;
        }
        item = item.saturating_add(1);
        at = to;
    }
    no_fault()
}

// What is wrong with the name after `help`, if anything.
fn name_fault(line: &[u8], first: usize) -> Fault
    ensures { Named line.now result }
{
    let table = COMMANDS;
    let n = line.len();
    if n <= first {
        return no_fault();
    }
    if entry_at(&table, line, first + 1, n).is_some() {
        return no_fault();
    }
    Fault {
        kind: b'W',
        word: 2,
        part: 0,
        from: first + 1,
        to: n,
    }
}

// What is wrong with words that the kinds of the table do not describe: the items of an edit, the name after `help`.
fn deeper(line: &[u8], first: usize, group: u8, which: u8) -> Fault
    ensures { Named line.now result }
{
    if group == b'c' && which == b'e' {
        return items_fault(line, first);
    }
    if group == b'p' && which == b'h' {
        return name_fault(line, first);
    }
    no_fault()
}

// What is wrong with the words of a command that asks for these kinds.
fn words_fault(kinds: &[u8], line: &[u8], first: usize, group: u8, which: u8) -> Fault
    ensures { Named line.now result }
{
    let p = script_parts::words_of(line);
    let f = fault_of(kinds, line, p, first, b'E');
    if f.kind != 0 {
        return f;
    }
    deeper(line, first, group, which)
}

// Which command a line is, and its first wrong word.
pub fn read(line: &[u8]) -> Reading
    ensures { Named line.now result.fault }
{
    let table = COMMANDS;
    let first = script_words::place_of(line, 0, line.len(), b' ');
    let Some(entry) = entry_at(&table, line, 0, first) else {
        return Reading {
            group: 0,
            which: 0,
            fault: Fault {
                kind: b'X',
                word: 1,
                part: 0,
                from: 0,
                to: first,
            },
        };
    };
    let group = script_words::byte_at(entry, 0);
    let which = script_words::byte_at(entry, 1);
    Reading {
        group,
        which,
        fault: words_fault(kinds_of(entry), line, first, group, which),
    }
}

// ---- answers

// The byte if it can be printed, else `?`.
fn printable(b: u8) -> u8 {
    if b == b' ' || b.is_ascii_graphic() {
        b
    } else {
        b'?'
    }
}

// A run of a line between quotes. A long one is cut, with two dots for the rest.
fn put_shown(out: &mut [u8], start: usize, line: &[u8], from: usize, to: usize) -> usize {
    let mut at = script_lines::put_byte(out, start, b'\'');
    let end = to.min(from.saturating_add(SHOWN));
    for i in from..end {
        at = script_lines::put_byte(out, at, printable(script_words::byte_at(line, i)));
    }
    if end < to {
        at = script_lines::put(out, at, b"..");
    }
    script_lines::put_byte(out, at, b'\'')
}

// Where a fault is: a command, a word, or a part of an item.
fn put_place(out: &mut [u8], at: usize, f: Fault) -> usize {
    if f.part != 0 {
        let mut to = script_lines::put(out, at, b"item ");
        to = script_lines::put_number(out, to, f.word as u64);
        to = script_lines::put(out, to, b" part ");
        to = script_lines::put_number(out, to, f.part as u64);
        return script_lines::put_byte(out, to, b' ');
    }
    if f.word < 2 {
        return script_lines::put(out, at, b"command ");
    }
    let mut to = script_lines::put(out, at, b"word ");
    to = script_lines::put_number(out, to, f.word as u64);
    script_lines::put_byte(out, to, b' ')
}

// What a word of this kind must be.
fn put_kind(out: &mut [u8], start: usize, kind: u8) -> usize {
    let table = KINDS;
    let at = script_lines::put_byte(out, start, b':');
    match entry_of(&table, &[kind]) {
        Some(text) => {
            let to = script_lines::put_byte(out, at, b' ');
            script_lines::put(out, to, text)
        }
        None => at,
    }
}

// The line that says what is wrong: `bad`, where, what stands there, and what is wanted.
pub fn put_fault(out: &mut [u8], line: &[u8], f: Fault) -> usize
    ensures { result ≤ length out.new }
{
    let mut at = script_lines::put(out, 0, b"bad ");
    at = put_place(out, at, f);
    at = put_shown(out, at, line, f.from, f.to);
    at = put_kind(out, at, f.kind);
    script_lines::within(out, at)
}

// The answer to a line that is too long.
pub fn put_too_long(out: &mut [u8]) -> usize
    ensures { result ≤ length out.new }
{
    let mut at = script_lines::put(out, 0, b"bad line");
    at = put_kind(out, at, b'Z');
    script_lines::within(out, at)
}

// The names of a table's entries, a blank between two.
fn put_names(out: &mut [u8], table: &[u8]) -> usize {
    let mut at: usize = 0;
    for entry in table.split(|b| *b == b'\n') {
        if let Some(n) = entry.iter().position(|b| *b == b' ') {
            at = script_lines::put_gap(out, at);
            at = script_lines::put(out, at, &entry[..n]);
        }
    }
    at
}

// How a command is written and what it answers: its name, then the help text of its entry.
fn put_usage(out: &mut [u8], table: &[u8], name: &[u8]) -> usize {
    let at = script_lines::put(out, 0, name);
    match entry_of(table, name) {
        Some(entry) => put_text(out, at, kinds_of(entry)),
        None => at,
    }
}

// The text after the kinds.
fn put_text(out: &mut [u8], at: usize, kinds: &[u8]) -> usize {
    match kinds.iter().position(|b| *b == b' ') {
        Some(n) => script_lines::put(out, at, &kinds[n..]),
        None => at,
    }
}

// The answer of `help`: the commands' names, or the help text of the one that is named.
pub fn put_help(out: &mut [u8], line: &[u8]) -> usize
    ensures { result ≤ length out.new }
{
    let table = COMMANDS;
    let n = line.len();
    let first = script_words::place_of(line, 0, n, b' ');
    if first < n {
        let at = put_usage(out, &table, &line[first + 1..]);
        return script_lines::within(out, at);
    }
    let at = put_names(out, &table);
    script_lines::within(out, at)
}
