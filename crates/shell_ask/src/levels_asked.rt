// The questions about a level.
use level_list::FileList;
use records::FileRecord;
use store::Store;

// A file: number, size, smallest and largest key, allowed seeks.
fn put_file(out: &mut [u8], at: usize, f: FileRecord) -> usize {
    let mut to = shell_reply::put_form(out, at, b"%,%,", [f.number.0, f.size, 0, 0, 0]);
    to = script_lines::put_key(out, to, f.smallest);
    to = script_lines::put_byte(out, to, b',');
    to = script_lines::put_key(out, to, f.largest);
    shell_reply::put_form(out, to, b",%", [f.seeks, 0, 0, 0, 0])
}

// The files of a list, separated by blanks.
fn put_files(out: &mut [u8], l: FileList) -> usize {
    if l.count == 0 {
        return script_lines::put_byte(out, 0, b'-');
    }
    let mut at = 0;
    for f in l.files.iter().take(l.count) {
        at = script_lines::put_gap(out, at);
        at = put_file(out, at, *f);
    }
    at
}

// How many files a list has, and their bytes.
fn put_bytes(out: &mut [u8], level: usize, l: FileList) -> usize {
    match level_list::total_size(level, l) {
        Ok(bytes) => shell_reply::put_form(out, 0, b"% %", [l.count as u64, bytes, 0, 0, 0]),
        Err(r) => script_lines::put_refused(out, 0, r.number()),
    }
}

// The smallest and the largest key of a list, or `none`.
fn put_range(out: &mut [u8], level: usize, l: FileList) -> usize {
    match level_list::get_range(level, l) {
        Ok(Some(ends)) => {
            let mut at = script_lines::put_key(out, 0, ends.low);
            at = script_lines::put_byte(out, at, b' ');
            script_lines::put_key(out, at, ends.high)
        }
        Ok(None) => script_lines::put(out, 0, b"none"),
        Err(r) => script_lines::put_refused(out, 0, r.number()),
    }
}

// The answer about the files of a level.
fn put_list(out: &mut [u8], level: usize, l: FileList, which: u8) -> usize {
    if which == b'f' {
        return put_files(out, l);
    }
    if which == b'b' {
        return put_bytes(out, level, l);
    }
    put_range(out, level, l)
}

// The answer about a level, or the refusal.
pub(crate) fn put_answer(out: &mut [u8], s: Store, line: &[u8], which: u8) -> usize {
    let l = script_parts::number(line, script_parts::words_of(line), 1);
    let level = l.value as usize;
    match level_list::level_files(s, level) {
        Ok(list) => put_list(out, level, list, which),
        Err(r) => script_lines::put_refused(out, 0, r.number()),
    }
}
