// Judges the files that its arguments name, and writes a line for each, by what the file's name starts with:
// - `set`: words already read, as a link takes them. The file's words are the number of class words, these, then the ABI
//   words. Written: its name, `set`, and the row of 3 to 5 that refuses or 0; then, of the class words written as a sheet,
//   `written` and the blocks or `unwritten` and the row, and the weighed sum of all lent bytes after the call, each of which
//   was 7 before it. Then, of the class words renumbered, `ordered` and the classes or `unordered` and the row, the weighed
//   sum of the class words after the call, and that of the lent list, each word of which was 7 before it. `-lent-N` before
//   `.bin` in a name has N bytes lent to the writer, and N list words; else the file's bytes and 1,024 more, and 66 words.
// - `args`: a word of flags, then the bytes of a method descriptor. Written: its name, `words` and the argument words, or
//   `refused 5`.
// - `refs`: the number of instance words, the number of list words lent, then the bytes of a reference bitmap. Written: its
//   name, `marked` and the count or `refused` and the row, the weighed sum of the list after the call, each word of which
//   was 7 before it, then `counted` and the count or `refused` and the row, of the count alone.
// - `abi`, an ABI sheet, or anything else, a class sheet. Written: its name, `accepted` and the words answered or `refused`
//   and the row, then the weighed sum of all lent words after the call, each of which was 7 before it. `-lent-N` before
//   `.bin` in a name has N words lent. An accepted class sheet is then written back into bytes that are 7: `written` and the
//   blocks or `unwritten` and the row, and `same` where the lent bytes are then the sheet's own and after them 7, else `other`.
//   Each class sheet is read by rows 1 to 3 alone, too: `loosely`, and the same words as of the first reading.
// Of a file its first 131,072 bytes count, more than any sheet has.
#![tactic(auto)]

use files::{front, holds_only, weighed_sum};
use refusal::Refusal;
use std::fmt::Display;
use std::io;
use words::{get_or, le_word, part};

// The bytes that a block takes.
const BLOCK_BYTES: usize = 512;

// Lent where the name says nothing: the words of the largest sheet.
const CLASS_WORDS: usize = class_sheet::SHEET_WORDS;

const ABI_WORDS: usize = abi_sheet::SHEET_WORDS;

// The most that a name can have lent: two blocks of 127 words more than the largest sheet has.
const MOST_WORDS: usize = 127 * (class_sheet::BLOCK_LIMIT as usize + 2);

// The most bytes that are lent to the writer: one block more than the largest sheet has.
const MOST_BYTES: usize = BLOCK_BYTES * (class_sheet::BLOCK_LIMIT as usize + 1);

// Lent to the list of old class numbers where the name says nothing: two words more than there can be classes.
const MOST_LISTED: usize = 66;

// The bytes of a file that count, and its words.
const FILE_BYTES: usize = 131072;

const FILE_WORDS: usize = FILE_BYTES / 4;

// What a file holds, as its name tells.
#[derive(Clone, Copy)]
enum Kind {
    Set,
    Arguments,
    References,
    AbiSheet,
    ClassSheet,
}

impl Kind {
    fn of(name: &[u8]) -> Kind {
        if name.starts_with(b"set") {
            Kind::Set
        } else if name.starts_with(b"args") {
            Kind::Arguments
        } else if name.starts_with(b"refs") {
            Kind::References
        } else if name.starts_with(b"abi") {
            Kind::AbiSheet
        } else {
            Kind::ClassSheet
        }
    }
}

// What stands in a path after its last slash.
fn file_name(path: &[u8]) -> &[u8] {
    match path.iter().rposition(|b| *b == b'/') {
        Some(slash) => &path[slash + 1..],
        None => path,
    }
}

// The number that the decimal digits among the bytes spell, at most MOST_WORDS.
fn number(bytes: &[u8]) -> usize {
    bytes.iter().fold(0usize, |n, b| match b {
        b'0'..=b'9' => n
            .saturating_mul(10)
            .saturating_add(usize::from(*b - b'0'))
            .min(MOST_WORDS),
        _ => n,
    })
}

// The number after the last `-lent-` in a name, if it has one.
fn lent(name: &[u8]) -> Option<usize> {
    let mark = b"-lent-".as_slice();
    let at = name.windows(mark.len()).rposition(|w| w == mark)?;
    Some(number(part(name, at, name.len())))
}

// Two blocks more than n bytes, MOST_BYTES at the most: enough to write what a file of so many bytes holds.
fn room_for(n: usize) -> usize {
    n.saturating_add(2 * BLOCK_BYTES).min(MOST_BYTES)
}

// Writes the first word and what is answered, or the second and the row.
fn print_answer<T: Display + Drop>(
    rt: &impl Print,
    done: &str,
    not: &str,
    answer: Result<T, Refusal>,
) -> io::Result<()> {
    match answer {
        Ok(n) => print!(rt; " {done} {n}"),
        Err(row) => print!(rt; " {not} {row}"),
    }
}

// Writes the weighed sum of lent words or bytes.
fn print_sum<T: Copy + Drop + Into<u32>>(rt: &impl Print, lent: &[T]) -> io::Result<()> {
    print!(rt; " {}", weighed_sum(lent))
}

// Reads the sheet in bytes with words lent, and writes what came of it and the sum of these words; answers whether it is accepted.
fn judge_reading<F: Fn(&[u8], &mut [u32]) -> Result<u32, Refusal>>(
    rt: &impl Print,
    bytes: &[u8],
    lent: &mut [u32],
    read: F,
) -> io::Result<bool>
    requires { F.IsAlwaysCallable read }
{
    let answer = read(bytes, lent);
    print_answer(rt, "accepted", "refused", answer)?;
    print_sum(rt, lent)?;
    Ok(answer.is_ok())
}

// Reads the ABI sheet in bytes with n words lent.
fn judge_abi(rt: &impl Print, bytes: &[u8], n: usize) -> io::Result<()> {
    let mut words = [7; MOST_WORDS];
    judge_reading(rt, bytes, front(&mut words, n), sheet::read_abi_sheet)?;
    Ok(())
}

// Writes back the class words that were read from the bytes, and says whether all of them came back.
fn print_back(rt: &impl Print, bytes: &[u8], set: &[u32]) -> io::Result<()> {
    let mut out = [7; MOST_BYTES];
    let lent = front(&mut out, room_for(bytes.len()));
    let answer = writer::write_class_sheet(set, lent);
    print_answer(rt, "written", "unwritten", answer)?;
    let same = holds_only(lent, bytes);
    print!(rt; " {}", if same { "same" } else { "other" })
}

// Reads the class sheet in bytes with n words lent, and writes it back where it is accepted; then reads it by rows 1 to 3 alone.
fn judge_classes(rt: &impl Print, bytes: &[u8], n: usize) -> io::Result<()> {
    let mut words = [7; MOST_WORDS];
    let lent = front(&mut words, n);
    if judge_reading(rt, bytes, lent, sheet::read_class_sheet)? {
        print_back(rt, bytes, lent)?;
    }
    print!(rt; " loosely")?;
    lent.fill(7);
    judge_reading(rt, bytes, lent, sheet::read_unordered_sheet)?;
    Ok(())
}

// Writes the class words with n bytes lent.
fn judge_writing(rt: &impl Print, set: &[u32], n: usize) -> io::Result<()> {
    let mut out = [7u8; MOST_BYTES];
    let lent = front(&mut out, n);
    let answer = writer::write_class_sheet(set, lent);
    print_answer(rt, "written", "unwritten", answer)?;
    print_sum(rt, lent)
}

// Renumbers a copy of the class words with n list words lent.
fn judge_order(rt: &impl Print, set: &[u32], n: usize) -> io::Result<()> {
    let mut words = [0; FILE_WORDS];
    words::copy(set, 0, set.len(), &mut words, 0);
    let copy = front(&mut words, set.len());
    let mut list = [7; MOST_WORDS];
    let lent = front(&mut list, n);
    let answer = renumber::renumber_classes(copy, lent);
    print_answer(rt, "ordered", "unordered", answer)?;
    print_sum(rt, copy)?;
    print_sum(rt, lent)
}

// Judges the set in bytes: the class words, and the ABI words that stand after the number of class words.
fn judge_set(rt: &impl Print, bytes: &[u8], lent: Option<usize>) -> io::Result<()> {
    let mut words = [0; FILE_WORDS];
    files::load_words(bytes, &mut words);
    let all = part(&words, 0, bytes.len() / 4);
    let n = get_or(all, 0, 0) as usize;
    let set = part(all, 1, n);
    match set_rules::set_refusal(set, part(all, 1 + n, all.len())) {
        Ok(()) => print!(rt; " set 0")?,
        Err(row) => print!(rt; " set {row}")?,
    }
    judge_writing(rt, set, lent.unwrap_or(room_for(bytes.len())))?;
    judge_order(rt, set, lent.unwrap_or(MOST_LISTED))
}

// Counts the argument words of the flags and the descriptor in bytes.
fn judge_arguments(rt: &impl Print, bytes: &[u8]) -> io::Result<()> {
    let answer = descriptor::argument_words(part(bytes, 4, bytes.len()), le_word(bytes, 0));
    print_answer(rt, "words", "refused", answer)
}

// Lists and counts the words that the bitmap in bytes marks.
fn judge_references(rt: &impl Print, bytes: &[u8]) -> io::Result<()> {
    let count = le_word(bytes, 0);
    let bitmap = part(bytes, 8, bytes.len());
    let mut list = [7; MOST_WORDS];
    let lent = front(&mut list, le_word(bytes, 4) as usize);
    let answer = references::reference_words(bitmap, count, lent);
    print_answer(rt, "marked", "refused", answer)?;
    print_sum(rt, lent)?;
    let counted = references::reference_count(bitmap, count);
    print_answer(rt, "counted", "refused", counted)
}

// Judges the bytes of a file by what its name tells, and writes its line.
fn judge_file(rt: &impl Print, path: &[u8], bytes: &[u8]) -> io::Result<()> {
    let name = file_name(path);
    let lent = lent(name);
    rt.write_all(path)?;
    match Kind::of(name) {
        Kind::Set => judge_set(rt, bytes, lent)?,
        Kind::Arguments => judge_arguments(rt, bytes)?,
        Kind::References => judge_references(rt, bytes)?,
        Kind::AbiSheet => judge_abi(rt, bytes, lent.unwrap_or(ABI_WORDS))?,
        Kind::ClassSheet => judge_classes(rt, bytes, lent.unwrap_or(CLASS_WORDS))?,
    }
    rt.write_all(b"\n")
}

fn main(rt: HostRuntime) -> io::Result<()> {
    files::each_file(
        &rt,
        b"judge: argument",
        &mut [0; FILE_BYTES],
        |path, bytes| { judge_file(&rt, path, bytes) },
    )
}
