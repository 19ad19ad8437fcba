// Converts the class sheets in the files that its arguments name, and writes a line for each. An argument that starts with `old` names a sheet of
// 17-word class records, which is made one of 18 words; any other names one of 18 words, which is made one of 17.
// Written: the argument; `widened` or `narrowed` and the blocks, or `not` before it and the row; the weighed sum of all lent bytes after the call,
// each of which was 7 before it. Then the same of calls with fewer bytes lent: one fewer than the blocks take, as many, and one more; where the
// first call was refused, none, and one. What is accepted is converted back at last, and `same` written where the lent bytes are then the
// file's own and after them 7, else `other`.
// Of a file its first 131,072 bytes count, more than any sheet has.
#![tactic(auto)]

use files::{front, holds_only, weighed_sum};
use refusal::Refusal;
use std::{fmt, io};
use words::part;

// The bytes that a block takes.
const BLOCK_BYTES: usize = 512;

// The most bytes that are lent: one block more than the largest sheet has.
const MOST_BYTES: usize = BLOCK_BYTES * (class_sheet::BLOCK_LIMIT as usize + 1);

// The bytes of a file that count.
const FILE_BYTES: usize = 131072;

// Which way a sheet is converted.
#[derive(Clone, Copy)]
enum Way {
    Widen,
    Narrow,
}

impl Way {
    // The way for the sheet that an argument names.
    fn of(path: &[u8]) -> Way {
        if path.starts_with(b"old") {
            Way::Widen
        } else {
            Way::Narrow
        }
    }

    fn back(self) -> Way {
        match self {
            Way::Widen => Way::Narrow,
            Way::Narrow => Way::Widen,
        }
    }

    fn convert(self, bytes: &[u8], out: &mut [u8]) -> Result<u32, Refusal> {
        match self {
            Way::Widen => convert::widen_class_sheet(bytes, out),
            Way::Narrow => convert::narrow_class_sheet(bytes, out),
        }
    }
}

impl fmt::Display for Way {
    fn fmt<W: fmt::Write>(&self, f: &mut fmt::Formatter<W>) -> fmt::Result {
        f.write_str(match self {
            Way::Widen => "widened",
            Way::Narrow => "narrowed",
        })
    }
}

// Writes ` widened N` or ` not widened R`, or the same of `narrowed`.
fn print_answer(rt: &impl Print, way: Way, answer: Result<u32, Refusal>) -> io::Result<()> {
    match answer {
        Ok(n) => print!(rt; " {way} {n}"),
        Err(row) => print!(rt; " not {way} {row}"),
    }
}

// Converts a sheet with n bytes lent, and writes what came of it.
fn print_room(rt: &impl Print, way: Way, bytes: &[u8], n: usize) -> io::Result<()> {
    let mut out = [7u8; MOST_BYTES];
    let lent = front(&mut out, n);
    let answer = way.convert(bytes, lent);
    print!(rt; ", lent {n}")?;
    print_answer(rt, way, answer)?;
    print!(rt; " {}", weighed_sum(lent))
}

// Does so with about as many bytes as the blocks take.
fn print_rooms(rt: &impl Print, way: Way, bytes: &[u8], room: usize) -> io::Result<()> {
    if room > 0 {
        print_room(rt, way, bytes, room - 1)?;
    }
    print_room(rt, way, bytes, room)?;
    print_room(rt, way, bytes, room.saturating_add(1))
}

// Converts the blocks made of a sheet back, and writes whether its bytes came back.
fn print_back(rt: &impl Print, way: Way, bytes: &[u8], made: &[u8]) -> io::Result<()> {
    let mut out = [7; MOST_BYTES];
    let answer = way.convert(made, &mut out);
    rt.write_all(b", back")?;
    print_answer(rt, way, answer)?;
    let same = holds_only(&out, bytes);
    print!(rt; " {}", if same { "same" } else { "other" })
}

// Converts the sheet in bytes, and writes its line.
fn print_line(rt: &impl Print, path: &[u8], bytes: &[u8]) -> io::Result<()> {
    let way = Way::of(path);
    let mut out = [7u8; MOST_BYTES];
    let answer = way.convert(bytes, &mut out);
    let room = BLOCK_BYTES * answer.unwrap_or(0) as usize;
    rt.write_all(path)?;
    print_answer(rt, way, answer)?;
    print!(rt; " {}", weighed_sum(&out))?;
    print_rooms(rt, way, bytes, room)?;
    if room > 0 {
        print_back(rt, way.back(), bytes, part(&out, 0, room))?;
    }
    rt.write_all(b"\n")
}

fn main(rt: HostRuntime) -> io::Result<()> {
    let what = b"convert_judge: argument";
    files::each_file(
        &rt,
        what,
        &mut [0; FILE_BYTES],
        |path, bytes| print_line(&rt, path, bytes),
    )
}
