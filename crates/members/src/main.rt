// The program behind ./members. Its arguments are class files, each followed by a first target and a step in decimal. Written is each class in the
// text form of tools/sheet, or `refused` and the row that refuses its file. A file that is missing, cannot be read or has more than 1,048,576 bytes
// is named on standard error, and nothing is written for it; nor for one with a word that is no number.
#![tactic(auto)]

ghost use Rattle.std.specs.Prelude.{◌≡◌, ◌+◌, ◌^◌, ◌<◌, length, take};
ghost use Rattle.member_text.specs.MemberText.{members_text};
ghost use Rattle.members.specs.Number.{number_of};

use std::env::FillError;
use std::io;
use std::rt::{Env, Files};
use words::part;

// The arguments of a class file: its path, a first target and a step.
const EACH: usize = 3;

// The most bytes of a file that count, and one more.
const ROOM: usize = 1048577;

// The number that the decimal digits of a word spell.
#[tactic(auto, using(crate::proofs::NumberLaws::number_steps))]
fn spelled(word: &[u8]) -> Option<u32>
    ensures { result ≡ number_of word.now }
{
    if word.is_empty() {
        return None;
    }
    let mut n: u32 = 0;
    for b in word {
        if !b.is_ascii_digit() {
            return None;
        }
        n = n.checked_mul(10)?.checked_add((*b - b'0') as u32)?;
    }
    Some(n)
}

// The number that argument i is; one that is missing is none.
fn number_argument(rt: &impl Env, i: usize) -> Option<u32> {
    let mut word = [0u8; 4096];
    let n = rt.arg(i, &mut word).ok()?;
    spelled(part(&word, 0, n))
}

// Room for the bytes of a file.
fn file_bytes() -> [u8; ROOM]
    ensures { 1048577 ≡ length result }
{
    [0; ROOM]
}

// Puts the text of a class file's members into the bytes lent for it, and answers how many it has: it is there whole.
fn put_members(file: &[u8], first: u32, step: u32, out: &mut [u8; 65536]) -> usize
    ensures { take result out.new ≡ members_text file.now first step }
{
    member_text::members_text(file, first, step, out)
}

// Writes the members of a class file that was read, by way of these bytes.
fn print_members(
    rt: &impl Print,
    file: &[u8],
    first: u32,
    step: u32,
    text: &mut [u8; 65536],
) -> io::Result<()> {
    let end = put_members(file, first, step, text);
    rt.write_all(part(text, 0, end))
}

// Reads a class file and writes its members.
fn print_file(
    rt: &(impl Print + Eprint + Files),
    path: &[u8],
    first: u32,
    step: u32,
) -> io::Result<()> {
    let mut bytes = file_bytes();
    match files::read_path(rt, path, &mut bytes) {
        Some(ROOM) => files::fail(rt, path, "more than 1048576 bytes"),
        Some(n) => print_members(rt, part(&bytes, 0, n), first, step, &mut [0; 65536])?,
        None => {}
    }
    Ok(())
}

// Writes the members of the class file that argument i names, by the first target and the step that the two after it are.
fn print_argument(rt: &(impl Print + Eprint + Files + Env), i: usize) -> io::Result<()>
    requires { i + 2 < 2 ^ 64 }
{
    let mut path = [0u8; 4096];
    let Ok(n) = files::take_argument(rt, b"members: argument", i, &mut path) else {
        return Ok(());
    };
    let path = part(&path, 0, n);
    let Some(first) = number_argument(rt, i + 1) else {
        files::fail(rt, path, "the first target is no number");
        return Ok(());
    };
    let Some(step) = number_argument(rt, i + 2) else {
        files::fail(rt, path, "the step is no number");
        return Ok(());
    };
    print_file(rt, path, first, step)
}

// Whether there is an argument i.
fn has_argument(rt: &impl Env, i: usize) -> bool {
    !matches!(rt.arg(i, &mut [0; 1]), Err(FillError::NotPresent))
}

fn main(rt: HostRuntime) -> io::Result<()> {
    for path in (1..usize::MAX - 1).step_by(EACH) {
        if !has_argument(&rt, path) {
            break;
        }
        if !has_argument(&rt, path + 2) {
            files::fail(&rt, b"members", "a file, a first target and a step");
            break;
        }
        print_argument(&rt, path)?;
    }
    Ok(())
}
