// Replays the corpora that its arguments name: cases, readings and descriptors with what the original Rust answered (oracle/README.md has
// the form). Every answer and every word of lent memory is compared. Written for each file: a line for each case, reading or descriptor
// that differs, with the first call that does; then what the file says of how it was made, and how many there were and differ.
// Of a file its first 524,288 bytes count. Places in a file are words, and a word past its end is 0.
#![tactic(auto)]

use files::{front, is_front};
use refusal::Refusal;
use std::{fmt, io};
use words::{byte_of, get_or, part, put};

// `LGTC`, and the version of the form.
const MAGIC: u32 = 1129596748;

const VERSION: u32 = 4;

// The bytes of a file that count, and its words.
const FILE_BYTES: usize = 524288;

const FILE_WORDS: usize = FILE_BYTES / 4;

// Room for the class words and the ABI words of a case, for its area, and for its list of numbers, that of missing slots or one of stubs.
const SET_WORDS: usize = 20480;

const AREA_WORDS: usize = 8192;

const LIST_WORDS: usize = 4096;

// Room for the bytes of a reading or a descriptor, and for the words that a reading is lent.
const MOST_BYTES: usize = 49152;

const MOST_WORDS: usize = 12288;

// ---- the words of a file, one after the other: lists, bytes and changes

#[derive(Clone, Copy)]
struct Reader<'a> {
    words: &'a [u32],
    at: u32,
}

impl Reader<'_> {
    // The next word, 0 past the end.
    fn word(&mut self) -> u32 {
        let word = get_or(self.words, self.at as usize, 0);
        self.at = self.at.wrapping_add(1);
        word
    }

    // Stores the next n words, as many as there is room for.
    fn plain(&mut self, n: u32, out: &mut [u32]) {
        for (word, k) in out.iter_mut().zip(0..n) {
            *word = get_or(self.words, self.at.wrapping_add(k) as usize, 0);
        }
        self.at = self.at.wrapping_add(n);
    }

    // Stores n words, as many as there is room for, of which each is the one before it and a step.
    fn run(&mut self, n: u32, out: &mut [u32]) {
        let first = self.word();
        let step = self.word();
        for (word, k) in out.iter_mut().zip(0..n) {
            *word = first.wrapping_add(step.wrapping_mul(k));
        }
    }

    // Stores the words of the next segment, and answers how many it has.
    fn segment(&mut self, out: &mut [u32]) -> u32 {
        let head = self.word();
        let n = head / 2;
        if head % 2 == 0 {
            self.plain(n, out);
        } else {
            self.run(n, out);
        }
        n
    }

    // Stores the words of the next list, and answers its length.
    fn list(&mut self, out: &mut [u32]) -> u32 {
        let n = self.word();
        let mut filled: u32 = 0;
        while filled < n {
            let place = out.len().min(filled as usize);
            let k = self.segment(&mut out[place..]);
            if k == 0 {
                break;
            }
            filled = filled.saturating_add(k);
        }
        n
    }

    // Stores the next n lists over each other.
    fn lists(&mut self, n: u32, out: &mut [u32]) {
        for _ in 0..n {
            self.list(out);
        }
    }

    // Makes the next changes.
    fn changes(&mut self, out: &mut [u32]) {
        for _ in 0..self.word() {
            let place = self.word() as usize;
            put(out, place, self.word());
        }
    }
}

// The first n bytes of words that hold four each, the lowest first, and zeros.
fn unpack(words: &[u32], n: usize) -> [u8; MOST_BYTES] {
    let mut bytes = [0; MOST_BYTES];
    for (i, b) in front(&mut bytes, n).iter_mut().enumerate() {
        *b = byte_of(get_or(words, i / 4, 0), i);
    }
    bytes
}

// Whether the answer is the Rust's: the row that refuses or 0, and what is answered or 0.
fn is_answer<T: Into<u64> + Drop>(answer: Result<T, Refusal>, row: u32, first: u32) -> bool {
    match answer {
        Ok(n) => row == 0 && n.into() == u64::from(first),
        Err(refusal) => row == refusal.into() && first == 0,
    }
}

// ---- cases

// What a call differs in.
#[derive(Clone, Copy)]
enum Difference {
    Answer,
    Set,
    Numbers,
    Area,
    Missing,
}

impl fmt::Display for Difference {
    fn fmt<W: fmt::Write>(&self, f: &mut fmt::Formatter<W>) -> fmt::Result {
        f.write_str(match self {
            Difference::Answer => "the answer differs",
            Difference::Set => "the class words differ",
            Difference::Numbers => "the list of numbers differs",
            Difference::Area => "the area differs",
            Difference::Missing => "the list of missing slots differs",
        })
    }
}

// The words that calls write: class words, the list of numbers, the area and the list of missing slots.
#[derive(Drop)]
struct Memory<'a> {
    set: &'a mut [u32],
    numbers: &'a mut [u32],
    area: &'a mut [u32],
    missing: &'a mut [u32],
}

impl Memory<'_> {
    // Makes the changes that are read next.
    fn change(&mut self, reader: &mut Reader) {
        reader.changes(self.set);
        reader.changes(self.numbers);
        reader.changes(self.area);
        reader.changes(self.missing);
    }

    // What differs from what the Rust left.
    fn difference(&self, rust: &Memory) -> Option<Difference> {
        if !is_front(self.set, rust.set) {
            Some(Difference::Set)
        } else if !is_front(self.numbers, rust.numbers) {
            Some(Difference::Numbers)
        } else if !is_front(self.area, rust.area) {
            Some(Difference::Area)
        } else if !is_front(self.missing, rust.missing) {
            Some(Difference::Missing)
        } else {
            None
        }
    }
}

// What calls only read: the ABI words, and the lists of stubs.
#[derive(Clone, Copy)]
struct Given<'a> {
    abi: &'a [u32],
    stubs: Reader<'a>,
}

// The kinds of calls, a link and an ask by the numbers that replay has for them.
#[derive(Clone, Copy)]
enum Kind {
    Link,
    Ask,
    Missing,
    Filling,
}

impl From<u32> for Kind {
    fn from(kind: u32) -> Kind {
        match kind {
            0 => Kind::Link,
            2 => Kind::Missing,
            3 => Kind::Filling,
            _ => Kind::Ask,
        }
    }
}

// A call: its kind, a class, an interface, the number of its list of stubs, and what the Rust answered.
#[derive(Clone, Copy)]
struct Call {
    kind: Kind,
    class: u32,
    interface: u32,
    stubs: u32,
    answer: [u32; 3],
}

impl Call {
    // The call that is read next.
    fn read(reader: &mut Reader) -> Call {
        Call {
            kind: reader.word().into(),
            class: reader.word(),
            interface: reader.word(),
            stubs: reader.word(),
            answer: [reader.word(), reader.word(), reader.word()],
        }
    }

    // Makes a link or an ask, and answers whether its answer is the Rust's.
    fn replay(&self, given: Given, memory: &mut Memory) -> bool {
        let mut room = [0; LIST_WORDS];
        let mut lists = given.stubs;
        lists.lists(self.stubs, &mut room);
        let n = lists.list(&mut room);
        let call = [self.kind as u32, self.class, self.interface, 0, n];
        let mut answer = [0; 3];
        replay::replay(
            memory.set,
            given.abi,
            memory.numbers,
            memory.area,
            memory.missing,
            &call,
            part(&room, 0, n as usize),
            &mut answer,
        );
        answer == self.answer
    }

    // Asks how many slots of the class count as missing.
    fn ask_missing(&self, given: Given, memory: &Memory) -> bool {
        let answer = missing::missing_slots(memory.set, given.abi, memory.missing, self.class);
        let [row, first, second] = self.answer;
        is_answer(answer, row, first) && second == 0
    }

    // Fills the list of numbers.
    fn fill_numbers(&self, set: &mut [u32], abi: &[u32], numbers: &mut [u32]) -> bool {
        let row = match signatures::number_signatures(set, abi, numbers) {
            Ok(()) => 0,
            Err(refusal) => refusal.into(),
        };
        [row, 0, 0] == self.answer
    }

    // Makes the call.
    fn make(&self, given: Given, memory: &mut Memory) -> bool {
        match self.kind {
            Kind::Link | Kind::Ask => self.replay(given, memory),
            Kind::Missing => self.ask_missing(given, memory),
            Kind::Filling => self.fill_numbers(memory.set, given.abi, memory.numbers),
        }
    }
}

// How many calls a case has, and the first that differs, with what it differs in.
#[derive(Clone, Copy)]
struct Seen {
    calls: u32,
    differs: Option<(u32, Difference)>,
}

// Makes the calls that are read next in turn, beside the memory as the Rust left it.
fn make_calls(reader: &mut Reader, given: Given, memory: &mut Memory, rust: &mut Memory) -> Seen {
    let calls = reader.word();
    let mut differs = None;
    for i in 0..calls {
        let same = Call::read(reader).make(given, memory);
        rust.change(reader);
        if differs.is_none() {
            let what = if same {
                memory.difference(rust)
            } else {
                Some(Difference::Answer)
            };
            differs = what.map(|what| (i, what));
        }
    }
    Seen { calls, differs }
}

// Replays the case that is read next, with as much memory lent as it tells.
fn replay_case(reader: &mut Reader) -> Seen {
    let mut set = [0; SET_WORDS];
    let mut abi = [0; SET_WORDS];
    let mut numbers = [0; LIST_WORDS];
    let mut area = [0; AREA_WORDS];
    let mut missing = [0; LIST_WORDS];
    let set_room = reader.list(&mut set);
    let abi_room = reader.list(&mut abi);
    let numbers_room = reader.list(&mut numbers);
    let area_room = reader.list(&mut area);
    let missing_room = reader.list(&mut missing);
    let stub_lists = reader.word();
    let given = Given {
        abi: part(&abi, 0, abi_room as usize),
        stubs: *reader,
    };
    reader.lists(stub_lists, &mut [0; LIST_WORDS]);
    let (mut rust_set, mut rust_numbers) = (set, numbers);
    let (mut rust_area, mut rust_missing) = (area, missing);
    let mut rust = Memory {
        set: &mut rust_set,
        numbers: &mut rust_numbers,
        area: &mut rust_area,
        missing: &mut rust_missing,
    };
    let mut memory = Memory {
        set: front(&mut set, set_room as usize),
        numbers: front(&mut numbers, numbers_room as usize),
        area: front(&mut area, area_room as usize),
        missing: front(&mut missing, missing_room as usize),
    };
    make_calls(reader, given, &mut memory, &mut rust)
}

// ---- readings and descriptors

// Word i that a reading is lent, before it.
fn lent_word(i: u32) -> u32 {
    i ^ 1515870810
}

// Word i after it, where the first `filled` are those of the sheet's blocks, without each block's last.
fn read_word(packed: &[u32], filled: u32, i: u32) -> u32 {
    if i < filled {
        let i = i as usize;
        get_or(packed, i / 127 * 128 + i % 127, 0)
    } else {
        lent_word(i)
    }
}

// The sheet that a reading is of.
#[derive(Clone, Copy)]
enum Sheet {
    Classes,
    Abi,
}

impl From<u32> for Sheet {
    fn from(kind: u32) -> Sheet {
        match kind {
            0 => Sheet::Classes,
            _ => Sheet::Abi,
        }
    }
}

impl Sheet {
    // Reads it in these bytes.
    fn read(self, bytes: &[u8], lent: &mut [u32]) -> Result<u32, Refusal> {
        match self {
            Sheet::Classes => sheet::read_class_sheet(bytes, lent),
            Sheet::Abi => sheet::read_abi_sheet(bytes, lent),
        }
    }
}

// Replays the reading that is read next, and answers whether it answers and leaves what it did in Rust.
fn replay_reading(reader: &mut Reader) -> bool {
    let sheet = Sheet::from(reader.word());
    let lent = reader.word() as usize;
    let n = reader.word() as usize;
    let mut packed = [0; MOST_WORDS];
    reader.list(&mut packed);
    let row = reader.word();
    let first = reader.word();
    let mut words = [0; MOST_WORDS];
    let lent = front(&mut words, lent);
    for (word, i) in lent.iter_mut().zip(0..) {
        *word = lent_word(i);
    }
    let bytes = unpack(&packed, n);
    let bytes = part(&bytes, 0, n);
    let answer = sheet.read(bytes, lent);
    is_answer(answer, row, first)
        && lent
            .iter()
            .zip(0..)
            .all(|(word, i)| *word == read_word(&packed, first, i))
}

// Replays the descriptor that is read next, and answers whether its answer is the Rust's.
fn replay_descriptor(reader: &mut Reader) -> bool {
    let flags = reader.word();
    let n = reader.word() as usize;
    let mut packed = [0; MOST_WORDS];
    reader.list(&mut packed);
    let bytes = unpack(&packed, n);
    let answer = descriptor::argument_words(part(&bytes, 0, n), flags);
    is_answer(answer, reader.word(), reader.word())
}

// ---- a file

// What a file begins with: its form, the numbers of what it holds, and the most words or bytes of each thing that a case or a reading has.
#[derive(Clone, Copy)]
struct Header {
    form: [u32; 2],
    seed: [u32; 2],
    cases: u32,
    readings: u32,
    descriptors: u32,
    set: u32,
    abi: u32,
    area: u32,
    stubs: u32,
    stub_lists: u32,
    sheet_bytes: u32,
    sheet_words: u32,
    missing: u32,
    numbers: u32,
}

impl Header {
    // The header, which is read first.
    fn read(reader: &mut Reader) -> Header {
        Header {
            form: [reader.word(), reader.word()],
            seed: [reader.word(), reader.word()],
            cases: reader.word(),
            readings: reader.word(),
            descriptors: reader.word(),
            set: reader.word(),
            abi: reader.word(),
            area: reader.word(),
            stubs: reader.word(),
            stub_lists: reader.word(),
            sheet_bytes: reader.word(),
            sheet_words: reader.word(),
            missing: reader.word(),
            numbers: reader.word(),
        }
    }

    // Whether it is of this form, and there is room for what the file holds.
    fn fits(&self) -> bool {
        self.form == [MAGIC, VERSION]
            && self.set as usize <= SET_WORDS
            && self.abi as usize <= SET_WORDS
            && self.area as usize <= AREA_WORDS
            && self.stubs as usize <= LIST_WORDS
            && self.sheet_bytes as usize <= MOST_BYTES
            && self.sheet_words as usize <= MOST_WORDS
            && self.missing as usize <= LIST_WORDS
            && self.numbers as usize <= LIST_WORDS
    }
}

// How many calls the cases had, and how many of them differ.
#[derive(Clone, Copy)]
struct Sum {
    calls: u32,
    differ: u32,
}

// Replays the n cases that are read next, and writes a line for each that differs.
fn replay_cases(rt: &impl Print, path: &[u8], reader: &mut Reader, n: u32) -> io::Result<Sum> {
    let mut sum = Sum {
        calls: 0,
        differ: 0,
    };
    for i in 0..n {
        let seen = replay_case(reader);
        sum.calls = sum.calls.wrapping_add(seen.calls);
        if let Some((call, what)) = seen.differs {
            rt.write_all(path)?;
            print!(rt; ": case {i} call {call}: {what}\n")?;
            sum.differ = sum.differ.wrapping_add(1);
        }
    }
    Ok(sum)
}

// Replays the n readings or descriptors that are read next, and writes a line for each that differs; answers how many do.
fn replay_items<F: Fn(&mut Reader) -> bool>(
    rt: &impl Print,
    path: &[u8],
    reader: &mut Reader,
    n: u32,
    item: &str,
    replay: F,
) -> io::Result<u32>
    requires { F.IsAlwaysCallable replay }
{
    let mut differ: u32 = 0;
    for i in 0..n {
        if !replay(reader) {
            rt.write_all(path)?;
            print!(rt; ": {item} {i} differs\n")?;
            differ = differ.wrapping_add(1);
        }
    }
    Ok(differ)
}

// Writes what the file says of how it was made, which is read next.
fn print_made(rt: &impl Print, mut reader: Reader) -> io::Result<()> {
    let n = reader.word() as usize;
    let mut packed = [0; 64];
    reader.list(&mut packed);
    rt.write_all(part(&unpack(&packed, n), 0, n.min(256)))
}

// Whether the sum of the words before the last, modulo 2^32, is the last.
fn is_summed(f: &[u32]) -> bool {
    match f.split_last() {
        Some((last, words)) => *last == words.iter().fold(0u32, |sum, w| sum.wrapping_add(*w)),
        None => true,
    }
}

// Replays a corpus, which its reader has come to after the header, and writes its lines.
fn print_corpus(
    rt: &impl Print,
    path: &[u8],
    header: Header,
    mut reader: Reader,
) -> io::Result<()> {
    let made = reader;
    reader.word();
    reader.list(&mut []);
    let Header {
        cases,
        readings,
        descriptors,
        ..
    } = header;
    let sum = replay_cases(rt, path, &mut reader, cases)?;
    let unread = replay_items(rt, path, &mut reader, readings, "reading", replay_reading)?;
    let uncounted = replay_items(
        rt,
        path,
        &mut reader,
        descriptors,
        "descriptor",
        replay_descriptor,
    )?;
    if reader.at as usize + 1 != reader.words.len() {
        rt.write_all(path)?;
        rt.write_all(b": the items do not end at its end\n")?;
    }
    let differ = sum.differ.wrapping_add(unread.wrapping_add(uncounted));
    rt.write_all(path)?;
    rt.write_all(b" (")?;
    print_made(rt, made)?;
    print!(rt;
        "): {cases} cases, {} calls, {readings} readings, {descriptors} descriptors, {differ} differ\n",
        sum.calls
    )
}

// Replays the corpus in the bytes of a file.
fn replay_file(rt: &impl Print, path: &[u8], bytes: &[u8]) -> io::Result<()> {
    let mut words = [0; FILE_WORDS];
    files::load_words(bytes, &mut words);
    let f = part(&words, 0, bytes.len() / 4);
    let mut reader = Reader { words: f, at: 0 };
    let header = Header::read(&mut reader);
    if header.fits() && is_summed(f) {
        return print_corpus(rt, path, header, reader);
    }
    rt.write_all(path)?;
    rt.write_all(b": no corpus\n")
}

fn main(rt: HostRuntime) -> io::Result<()> {
    files::each_file(
        &rt,
        b"corpus: argument",
        &mut [0; FILE_BYTES],
        |path, bytes| { replay_file(&rt, path, bytes) },
    )
}
