// What programs share: a file and an argument as a program takes them, what it says on standard error, words stored in bytes, and lent memory looked at
// before and after a call.
#![tactic(auto)]

ghost use Rattle.std.specs.Prelude.{◌≡◌, ◌≤◌, ◌/◌, ℕ, length, take};
ghost use Rattle.std.specs.Result.{result_ok};
ghost use Rattle.std.specs.Io.{WritesAtMost};
ghost use Rattle.words.specs.Folds.{stores, all_of};
ghost use Rattle.files.specs.Files.{word_of, Left, same_word, holds_only, weighed_sum};

use std::env::FillError;
use std::io::{Cursor, Read, Write};
use std::rt::{Env, Files};
use std::{fmt, fs, io, str};
use words::{get_or, le_word, part};

// Bytes as standard error shows them: text as it is, other bytes as \xHH.
#[derive(Clone, Copy)]
struct Shown<'a>(&'a [u8]);

impl fmt::Display for Shown<'_> {
    fn fmt<W: fmt::Write>(&self, f: &mut fmt::Formatter<W>) -> fmt::Result {
        match str::from_utf8(self.0) {
            Ok(text) => write!(f, "{text}"),
            Err(_) => write!(f, "{}", self.0.escape_ascii()),
        }
    }
}

// The words of an error before the system's number for it.
fn before_number(text: &str) -> &str {
    text.split_once(" (os error ")
        .map_or(text, |(words, _)| words)
}

// Says on standard error what failed, as the caller names it, a colon and why. Where it cannot be said, nothing else happens.
pub fn fail(rt: &impl Eprint, what: &[u8], why: &str) {
    let _ = rt.eprintln(format_args!("{}: {why}", Shown(what)));
}

// Says why a file was not read.
fn fail_read(rt: &impl Eprint, path: &[u8], error: io::Error) {
    let mut text = Cursor::new([0u8; 320]);
    let _ = write!(text, "{error}");
    let n = text.position() as usize;
    match str::from_utf8(part(text.get_ref(), 0, n)) {
        Ok(words) => fail(rt, path, before_number(words)),
        Err(_) => fail(rt, path, "it cannot be read"),
    }
}

// Opens the file at a path, which is text.
fn open<R: Files>(rt: &R, path: &[u8]) -> io::Result<R::File> {
    match str::from_utf8(path) {
        Ok(name) => fs::open(rt, name),
        Err(_) => Err(io::Error::new(io::ErrorKind::InvalidInput, "the path is no text")),
    }
}

// Reads an open file to its end, or as much of it as there is room for; answers how many bytes.
fn read_open<F: Read>(file: &mut F, bytes: &mut [u8]) -> io::Result<usize>
    ensures { Left (result_ok result) bytes.old bytes.new }
{
    let mut n: usize = 0;
    while n < bytes.len() {
        match file.read(&mut bytes[n..])? {
            0 => break,
            got => n += got,
        }
    }
    Ok(n)
}

// Opens the file at a path, and reads it so.
fn open_and_read<R: Files>(rt: &R, path: &[u8], bytes: &mut [u8]) -> io::Result<usize>
    ensures { Left (result_ok result) bytes.old bytes.new }
{
    read_open(&mut open(rt, path)?, bytes)
}

// Reads the file at a path to its end, or as much of it as there is room for, and answers how many bytes; or says on standard error why it cannot.
// What is read is the world's choice, and no contract can say it: `Left` has what holds of every choice.
pub fn read_path<R: Files + Eprint>(rt: &R, path: &[u8], bytes: &mut [u8]) -> Option<usize>
    ensures { Left result bytes.old bytes.new }
{
    match open_and_read(rt, path, bytes) {
        Ok(n) => Some(n),
        Err(error) => {
            fail_read(rt, path, error);
            None
        }
    }
}

// Puts argument i at the start of the bytes lent for it, and answers how many it has. Where it has more than there is room for, that is said on
// standard error, as of `what`.
pub fn take_argument<R: Env + Eprint>(
    rt: &R,
    what: &[u8],
    i: usize,
    bytes: &mut [u8],
) -> Result<usize, FillError>
    ensures held { WritesAtMost result bytes.new }
    ensures as_many { length bytes.new ≡ length bytes.old }
{
    let taken = rt.arg(i, bytes);
    if matches!(taken, Err(FillError::TooLong)) {
        fail(rt, what, "File name too long");
    }
    taken
}

// Calls `each` with every argument in turn, and answers how many there are. One that is too long is said so on standard error, as of `what`, and is
// left out. What a call is lent is in what is asked of `each`: at most 4,096 bytes.
pub fn each_argument<R, F>(rt: &R, what: &[u8], mut each: F) -> io::Result<usize>
where
    R: Env + Eprint,
    F: FnMut(&[u8]) -> io::Result<()>,
    requires { (f : F) (argument : _) → length argument.now ≤ 4096 → F.pre f argument }
{
    let mut argument = [0u8; 4096];
    for i in 1..usize::MAX {
        match take_argument(rt, what, i, &mut argument) {
            Ok(n) => each(&argument[..n])?,
            Err(FillError::TooLong) => {}
            Err(FillError::NotPresent) => return Ok(i - 1),
        }
    }
    Ok(usize::MAX - 1)
}

// Calls `each` with the path and the bytes of every file that an argument names, in turn, as many bytes as there is room for. An argument that is too
// long and a file that cannot be read are said so on standard error, and left out. A call is lent a path of at most 4,096 bytes, and at most N bytes.
pub fn each_file<const N: usize, R, F>(
    rt: &R,
    what: &[u8],
    room: &mut [u8; N],
    mut each: F,
) -> io::Result<()>
where
    R: Env + Eprint + Files,
    F: FnMut(&[u8], &[u8]) -> io::Result<()>,
    requires { (f : F) (path : _) (bytes : _) → length path.now ≤ 4096 → length bytes.now ≤ N → F.pre f path bytes }
{
    each_argument(
        rt,
        what,
        |path: &[u8]| -> io::Result<()>
            requires short { length path.now ≤ 4096 }
            requires callable { (f : F) (path : _) (bytes : _) → length path.now ≤ 4096 → length bytes.now ≤ N → F.pre f path bytes }
        {
            if let Some(n) = read_path(rt, path, room) {
                each(path, part(room, 0, n))?;
            }
            Ok(())
        },
    )?;
    Ok(())
}

// Stores the whole words of the bytes from the front on, as many as there is room for.
#[tactic(auto, unfolding(crate::specs::Files::word_of))]
pub fn load_words(bytes: &[u8], words: &mut [u32])
    ensures { words.new ≡ stores (length bytes.now / 4) (word_of bytes.now) words.old }
{
    words::store_each(
        words,
        bytes.len() / 4,
        |i| le_word(bytes, i.wrapping_mul(4)),
    );
}

// Whether the words are the first of others. A word past the others' end is 0.
pub fn is_front(words: &[u32], others: &[u32]) -> bool
    ensures { result ≡ all_of (length words.now) (same_word words.now others.now) }
{
    (0..words.len()).all(|i| get_or(words, i, 0) == get_or(others, i, 0))
}

// Whether lent bytes, of which each was 7, hold these from the front on, and after them what they held.
pub fn holds_only(lent: &[u8], bytes: &[u8]) -> bool
    ensures { result ≡ holds_only lent.now bytes.now }
{
    lent.starts_with(bytes) && lent[bytes.len()..].iter().all(|b| *b == 7)
}

// The first n elements, or all where there are fewer.
pub fn front<T>(lent: &mut [T], n: usize) -> &mut [T]
    ensures { result.now ≡ take n lent.old }
{
    let n = n.min(lent.len());
    &mut lent[..n]
}

// The sum of each element times its place from 1, modulo 2^32: it tells the elements' order, too.
pub fn weighed_sum<T: Copy + Drop + Into<u32>>(elements: &[T]) -> u32
    ensures { (f : T → ℕ) → ((x : T) (n : ℕ) → T.converts x n → n ≡ f x) → result ≡ weighed_sum f elements.now }
{
    words::sum_of(elements.len(), |i| {
        let place = ((i % 4294967296) as u32).wrapping_add(1);
        elements
            .get(i)
            .map_or(0, |x| place.wrapping_mul((*x).into()))
    })
}
