// Reads the class files in the files that its arguments name (tools/filevectors.py makes them). Such a file has cases one after the other: six
// words, which are the bytes of a label and of a class file, the targets that are lent and the words lent for fields, methods and text; then the
// label and the class file. Target i is 1000 + i, and every lent word is 7 before the call.
// Written for each case: the file's name, the label, `read` and the six answer words or `refused` and the row, the weighed sum of each lent list
// after the call, fields, methods, text; then `head` and what is answered without lists.
// A file has fewer than 131,072 bytes, and at most 4,096 words are lent for a list.
#![tactic(auto)]

use class_members::FileHead;
use files::{front, weighed_sum};
use refusal::Refusal;
use std::io;
use words::{le_word, part};

// The bytes of a case's words.
const WORDS: usize = 24;

// The bytes of a file that there is room for.
const ROOM: usize = 131072;

// The words that a list has.
const LIST: usize = 4096;

// Writes ` read ` and the six words, or ` refused ` and the row.
fn print_answer(rt: &impl Print, answer: Result<FileHead, Refusal>) -> io::Result<()> {
    match answer {
        Ok(h) => {
            print!(rt; " read {} {} {}", h.name, h.parent, h.flags)?;
            print!(rt; " {} {} {}", h.fields, h.methods, h.text)
        }
        Err(row) => print!(rt; " refused {row}"),
    }
}

// The targets 1000, 1001 and so on.
fn some_targets() -> [u32; LIST] {
    let mut targets = [0; LIST];
    for (target, i) in targets.iter_mut().zip(1000..) {
        *target = i;
    }
    targets
}

// Word i of a case.
fn told(case: &[u8], i: usize) -> u32 {
    le_word(case, 4 * (i % 6))
}

// Reads the class file of a case, and writes what came of it.
fn print_read(rt: &impl Print, case: &[u8], file: &[u8]) -> io::Result<()> {
    let targets = some_targets();
    let mut fields = [7u32; LIST];
    let mut methods = [7u32; LIST];
    let mut text = [7u32; LIST];
    let fields = front(&mut fields, told(case, 3) as usize);
    let methods = front(&mut methods, told(case, 4) as usize);
    let text = front(&mut text, told(case, 5) as usize);
    let lent = part(&targets, 0, told(case, 2) as usize);
    print_answer(
        rt,
        class_file::read_class_file(file, lent, fields, methods, text),
    )?;
    print!(rt;
        " {} {} {}",
        weighed_sum(fields),
        weighed_sum(methods),
        weighed_sum(text)
    )
}

// Writes the line of the case that the bytes begin with.
fn print_case(rt: &impl Print, path: &[u8], case: &[u8]) -> io::Result<()> {
    let label = told(case, 0) as usize;
    let file = part(case, WORDS + label, told(case, 1) as usize);
    rt.write_all(path)?;
    rt.write_all(b" ")?;
    rt.write_all(part(case, WORDS, label))?;
    print_read(rt, case, file)?;
    rt.write_all(b" head")?;
    print_answer(rt, class_file::class_file_head(file))?;
    rt.write_all(b"\n")
}

// Writes the lines of all cases in a file, or says on standard error that there was no room for all of it.
fn print_cases(rt: &(impl Print + Eprint), path: &[u8], bytes: &[u8]) -> io::Result<()> {
    if bytes.len() == ROOM {
        files::fail(rt, path, "131072 bytes or more");
        return Ok(());
    }
    let mut rest = bytes;
    while !rest.is_empty() {
        print_case(rt, path, rest)?;
        let size = WORDS + told(rest, 0) as usize + told(rest, 1) as usize;
        rest = part(rest, size, rest.len());
    }
    Ok(())
}

fn main(rt: HostRuntime) -> io::Result<()> {
    files::each_file(
        &rt,
        b"file_judge: argument",
        &mut [0; ROOM],
        |path, bytes| print_cases(&rt, path, bytes),
    )
}
