// Replays the stored calls in the files that its arguments name, each of a function that oracle/README.md lists beside the form, with what the
// Rust's side answered. Every answer word and all lent memory are compared. Written for each file: a line for each call that differs; how the file
// was made, how many calls there were and how many differ; then for each function how many were accepted, and how many a row refused.
// Of a file its first 655,360 bytes count. Places in a file are words, and a word past its end is 0.
#![tactic(auto)]

use class_members::FileHead;
use files::front;
use refusal::Refusal;
use std::marker::PhantomData;
use std::{fmt, io};
use words::{get_or, le_word, part, put};

// `LGTA`, and the version of the form.
const MAGIC: u32 = 1096042316;

const VERSION: u32 = 2;

// The bytes of a file that count.
const FILE_BYTES: usize = 655360;

// Room for the bytes and for the words that a call is lent.
const MOST_BYTES: usize = 49152;

const MOST_WORDS: usize = 12288;

// ---- the words of a file, one after the other

#[derive(Clone, Copy)]
struct Reader<'a> {
    bytes: &'a [u8],
    at: u32,
}

impl<'a> Reader<'a> {
    // The byte that it has come to.
    fn place(&self) -> usize {
        4 * (self.at as usize)
    }

    // Goes n words on, and answers the byte that it had come to.
    fn pass(&mut self, n: u32) -> usize {
        let place = self.place();
        self.at = self.at.wrapping_add(n);
        place
    }

    // The next word, 0 past the end.
    fn word(&mut self) -> u32 {
        le_word(self.bytes, self.pass(1))
    }

    // The next n words, as they are stored.
    fn words(&mut self, n: u32) -> &'a [u8] {
        part(self.bytes, self.pass(n), 4 * (n as usize))
    }

    // The next n bytes, which take whole words.
    fn bytes(&mut self, n: u32) -> &'a [u8] {
        part(self.bytes, self.pass(n.div_ceil(4)), n as usize)
    }
}

// ---- slices: how many bytes or words are lent, how many of them are stored as they are before the call, and how many as they are after it, always
// the first; then these. Before the call the others are 7, after it they are as before it.

// What a slice is of: bytes or words.
trait Element: Copy + Drop + From<u8> {
    // The next n, as they are stored.
    fn next<'a>(reader: &mut Reader<'a>, n: u32) -> &'a [u8];

    // Stores them from the front on, as many as there is room for.
    fn load(stored: &[u8], out: &mut [Self]);
}

impl Element for u8 {
    fn next<'a>(reader: &mut Reader<'a>, n: u32) -> &'a [u8] {
        reader.bytes(n)
    }

    fn load(stored: &[u8], out: &mut [u8]) {
        let n = stored.len().min(out.len());
        words::copy(stored, 0, n, out, 0);
    }
}

impl Element for u32 {
    fn next<'a>(reader: &mut Reader<'a>, n: u32) -> &'a [u8] {
        reader.words(n)
    }

    fn load(stored: &[u8], out: &mut [u32]) {
        files::load_words(stored, out);
    }
}

// A slice of T, with room for N.
#[derive(Clone, Copy)]
struct Slice<'a, T, const N: usize> {
    lent: usize,
    before: &'a [u8],
    after: &'a [u8],
    of: PhantomData<T>,
}

impl<'a, T: Element, const N: usize> Slice<'a, T, N> {
    // The slice that is read next.
    fn read(reader: &mut Reader<'a>) -> Slice<'a, T, N> {
        let lent = reader.word() as usize;
        let before = reader.word();
        let after = reader.word();
        Slice {
            lent,
            before: T::next(reader, before),
            after: T::next(reader, after),
            of: PhantomData,
        }
    }

    // Makes memory of 7s what it is before the call.
    fn load_before(self, memory: &mut [T; N]) {
        T::load(self.before, memory);
    }

    // Makes memory of 7s what it is to be after it.
    fn load_after(self, memory: &mut [T; N]) {
        T::load(self.before, memory);
        T::load(self.after, memory);
    }
}

type Bytes<'a> = Slice<'a, u8, MOST_BYTES>;

type Words<'a> = Slice<'a, u32, MOST_WORDS>;

// Whether lent bytes are as they are to be after the call.
fn are_bytes(slice: Bytes, lent: &[u8]) -> bool {
    let mut told = [7; MOST_BYTES];
    slice.load_after(&mut told);
    told.starts_with(lent)
}

// Whether lent words are.
fn are_words(slice: Words, lent: &[u32]) -> bool {
    let mut told = [7; MOST_WORDS];
    slice.load_after(&mut told);
    told.starts_with(lent)
}

// ---- calls: a kind, a number and seven answer words; bytes and words to read, each after their number; then a slice of bytes to write, and three
// of words to write.

// The functions, in the order of their kinds' numbers.
#[derive(Clone, Copy)]
enum Kind {
    Write,
    Compare,
    Read,
    Renumber,
    List,
    Count,
    Widen,
    Narrow,
    ReadFile,
    FileHead,
}

const KINDS: [Kind; 10] = [
    Kind::Write,
    Kind::Compare,
    Kind::Read,
    Kind::Renumber,
    Kind::List,
    Kind::Count,
    Kind::Widen,
    Kind::Narrow,
    Kind::ReadFile,
    Kind::FileHead,
];

// A number that is no kind's.
#[derive(Clone, Copy)]
struct UnknownKind;

impl TryFrom<u32> for Kind {
    type Error = UnknownKind;

    fn try_from(kind: u32) -> Result<Kind, UnknownKind> {
        KINDS.get(kind as usize).copied().ok_or(UnknownKind)
    }
}

impl fmt::Display for Kind {
    fn fmt<W: fmt::Write>(&self, f: &mut fmt::Formatter<W>) -> fmt::Result {
        f.write_str(match self {
            Kind::Write => "write_class_sheet",
            Kind::Compare => "compare_names",
            Kind::Read => "read_unordered_sheet",
            Kind::Renumber => "renumber_classes",
            Kind::List => "reference_words",
            Kind::Count => "reference_count",
            Kind::Widen => "widen_class_sheet",
            Kind::Narrow => "narrow_class_sheet",
            Kind::ReadFile => "read_class_file",
            Kind::FileHead => "class_file_head",
        })
    }
}

impl fmt::Display for UnknownKind {
    fn fmt<W: fmt::Write>(&self, f: &mut fmt::Formatter<W>) -> fmt::Result {
        f.write_str("no such function")
    }
}

// The answer words of a call of an unknown kind: no row has this number.
const NO_ANSWER: [u32; 7] = [u32::MAX, 0, 0, 0, 0, 0, 0];

// An answer's words, as they are stored: the row that refuses, 0 if the call is accepted, and six words, of which most functions give one or two.
fn answer_words(answer: Result<[u32; 6], Refusal>) -> [u32; 7] {
    let row = answer.err().map_or(0, u32::from);
    let [a, b, c, d, e, f] = answer.unwrap_or([0; 6]);
    [row, a, b, c, d, e, f]
}

// The six words of an answer of one.
fn one(word: u32) -> [u32; 6] {
    [word, 0, 0, 0, 0, 0]
}

// Those of a comparison of two names: 1 if they are the same, and the pairs of bytes read, modulo 2^32.
fn compared(a: &[u8], b: &[u8]) -> [u32; 6] {
    let c = text::compare(a, b);
    [u32::from(c.same), (c.pairs % 4294967296) as u32, 0, 0, 0, 0]
}

// The memory that a call lends to be written; a comparison lends its second name so.
#[derive(Drop)]
struct Lent<'a> {
    bytes: &'a mut [u8],
    first: &'a mut [u32],
    second: &'a mut [u32],
    third: &'a mut [u32],
}

// What a call differs in.
#[derive(Clone, Copy)]
enum Difference {
    Answer,
    Memory,
}

impl fmt::Display for Difference {
    fn fmt<W: fmt::Write>(&self, f: &mut fmt::Formatter<W>) -> fmt::Result {
        f.write_str(match self {
            Difference::Answer => "the answer differs",
            Difference::Memory => "the memory differs",
        })
    }
}

#[derive(Clone, Copy)]
struct Call<'a> {
    kind: Result<Kind, UnknownKind>,
    number: u32,
    told: [u32; 7],
    bytes: &'a [u8],
    count: usize,
    words: &'a [u8],
    out: Bytes<'a>,
    first: Words<'a>,
    second: Words<'a>,
    third: Words<'a>,
}

impl<'a> Call<'a> {
    // The call that is read next.
    fn read(reader: &mut Reader<'a>) -> Call<'a> {
        let kind = Kind::try_from(reader.word());
        let number = reader.word();
        let mut told = [reader.word(), 0, 0, 0, 0, 0, 0];
        files::load_words(reader.words(6), &mut told[1..]);
        let byte_count = reader.word();
        let bytes = reader.bytes(byte_count);
        let count = reader.word();
        Call {
            kind,
            number,
            told,
            bytes,
            count: count as usize,
            words: reader.words(count),
            out: Bytes::read(reader),
            first: Words::read(reader),
            second: Words::read(reader),
            third: Words::read(reader),
        }
    }

    // Makes a call of this kind on the memory lent.
    fn make(&self, kind: Kind, lent: &mut Lent) -> Result<[u32; 6], Refusal> {
        let bytes = self.bytes;
        let mut room = [7; MOST_WORDS];
        files::load_words(self.words, &mut room);
        let words = part(&room, 0, self.count);
        match kind {
            Kind::Write => writer::write_class_sheet(words, lent.bytes).map(one),
            Kind::Compare => Ok(compared(bytes, lent.bytes)),
            Kind::Read => sheet::read_unordered_sheet(bytes, lent.first).map(one),
            Kind::Renumber => renumber::renumber_classes(lent.first, lent.second).map(one),
            Kind::List => references::reference_words(bytes, self.number, lent.first).map(one),
            Kind::Count => references::reference_count(bytes, self.number).map(one),
            Kind::Widen => convert::widen_class_sheet(bytes, lent.bytes).map(one),
            Kind::Narrow => convert::narrow_class_sheet(bytes, lent.bytes).map(one),
            Kind::ReadFile => {
                class_file::read_class_file(bytes, words, lent.first, lent.second, lent.third).map(
                    FileHead::words,
                )
            }
            Kind::FileHead => class_file::class_file_head(bytes).map(FileHead::words),
        }
    }

    // Makes the call on as much memory as it lends, and answers what differs.
    fn replay(&self) -> Option<Difference> {
        let mut bytes = [7; MOST_BYTES];
        let mut first = [7; MOST_WORDS];
        let mut second = [7; MOST_WORDS];
        let mut third = [7; MOST_WORDS];
        self.out.load_before(&mut bytes);
        self.first.load_before(&mut first);
        self.second.load_before(&mut second);
        self.third.load_before(&mut third);
        let mut lent = Lent {
            bytes: front(&mut bytes, self.out.lent),
            first: front(&mut first, self.first.lent),
            second: front(&mut second, self.second.lent),
            third: front(&mut third, self.third.lent),
        };
        let answer = match self.kind {
            Ok(kind) => answer_words(self.make(kind, &mut lent)),
            Err(UnknownKind) => NO_ANSWER,
        };
        if answer != self.told {
            return Some(Difference::Answer);
        }
        let same = are_bytes(self.out, lent.bytes)
            && are_words(self.first, lent.first)
            && are_words(self.second, lent.second)
            && are_words(self.third, lent.third);
        if same { None } else { Some(Difference::Memory) }
    }
}

// ---- a file

// The rows that are counted of a function; 0 is a call accepted.
const ROWS: usize = 32;

// How many calls of each function were accepted, and how many each row refused.
#[derive(Drop)]
struct Counts([u32; KINDS.len() * ROWS]);

impl Counts {
    // The place of a function's calls that a row refuses.
    fn place(kind: Kind, row: u32) -> usize {
        ROWS * (kind as usize) + row as usize
    }

    // Counts a call.
    fn add(&mut self, kind: Kind, row: u32) {
        let place = Counts::place(kind, row);
        let n = get_or(&self.0, place, 0);
        put(&mut self.0, place, n.wrapping_add(1));
    }

    // Writes how many calls of a function were accepted, and how many a row refuses, for each that does.
    fn print(&self, rt: &impl Print, kind: Kind) -> io::Result<()> {
        print!(rt; "  {kind}: ")?;
        let counts = part(&self.0, Counts::place(kind, 0), ROWS);
        for (row, n) in counts.iter().enumerate() {
            if row == 0 {
                print!(rt; "{n} accepted")?;
            } else if *n > 0 {
                print!(rt; ", {n} refused by {row}")?;
            }
        }
        rt.write_all(b"\n")
    }
}

// Writes the line of call i, which differs.
fn print_difference(
    rt: &impl Print,
    path: &[u8],
    i: u32,
    call: &Call,
    what: Difference,
) -> io::Result<()> {
    rt.write_all(path)?;
    match call.kind {
        Ok(kind) => print!(rt; ": call {i}, {kind}: {what}\n"),
        Err(unknown) => print!(rt; ": call {i}, {unknown}: {what}\n"),
    }
}

// Replays the n calls that are read next, counts them, and answers how many differ.
fn replay_calls(
    rt: &impl Print,
    path: &[u8],
    reader: &mut Reader,
    n: u32,
    counts: &mut Counts,
) -> io::Result<u32> {
    let mut differ: u32 = 0;
    for i in 0..n {
        let call = Call::read(reader);
        if let Ok(kind) = call.kind {
            counts.add(kind, call.told[0]);
        }
        if let Some(what) = call.replay() {
            print_difference(rt, path, i, &call, what)?;
            differ = differ.wrapping_add(1);
        }
    }
    Ok(differ)
}

// Replays the n calls of a file, which its reader has come to, and writes its lines.
fn print_calls(rt: &impl Print, path: &[u8], reader: &mut Reader, n: u32) -> io::Result<()> {
    let made = reader.word();
    let made = reader.bytes(made);
    let mut counts = Counts([0; KINDS.len() * ROWS]);
    let differ = replay_calls(rt, path, reader, n, &mut counts)?;
    if reader.place() != reader.bytes.len() {
        rt.write_all(path)?;
        rt.write_all(b": the calls do not end at its end\n")?;
    }
    rt.write_all(path)?;
    rt.write_all(b" (")?;
    rt.write_all(made)?;
    print!(rt; "): {n} calls, {differ} differ\n")?;
    for kind in KINDS {
        counts.print(rt, kind)?;
    }
    Ok(())
}

// Replays the calls in the bytes of a file, where it is of this form and lends no more than there is room for.
fn replay_file(rt: &impl Print, path: &[u8], bytes: &[u8]) -> io::Result<()> {
    let mut reader = Reader { bytes, at: 0 };
    let form = (reader.word(), reader.word());
    let n = reader.word();
    let most = (reader.word() as usize, reader.word() as usize);
    if form != (MAGIC, VERSION) || most.0 > MOST_BYTES || most.1 > MOST_WORDS {
        rt.write_all(path)?;
        return rt.write_all(b": no stored answers\n");
    }
    print_calls(rt, path, &mut reader, n)
}

fn main(rt: HostRuntime) -> io::Result<()> {
    files::each_file(
        &rt,
        b"answers: argument",
        &mut [0; FILE_BYTES],
        |path, bytes| { replay_file(&rt, path, bytes) },
    )
}
