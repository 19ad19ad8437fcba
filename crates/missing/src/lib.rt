// How many slots of a class are missing: what a link leaves of it in the lent list, and asking. The list has 33 words a class: the count, then a
// bit for each slot.
#![tactic(auto)]

ghost use Rattle.std.specs.Prelude.{◌≡◌, ◌+◌, ◌*◌, ◌/◌, ◌%◌, ◌^◌, ◌≤◌, ◌<◌, false, length, get_or, eqb};
ghost use Rattle.reading.specs.Tables.{entry};
ghost use Rattle.reading.specs.Arrays.{entries_of};
ghost use Rattle.linking.specs.Counts.{missing_at, is_counted, bit, bit_count, bits_from, pack_bits, parent_bit, missing_short};
ghost use Rattle.linking.specs.Missing.{missing_def};
ghost use Rattle.missing.specs.Lists.{slot_bits, counted, answered};

use reading::Slot;
use refusal::Refusal;

// How many words of the list are a class's.
const WIDTH: usize = 33;

// The place of class c's words.
fn place_of(c: u32) -> usize
    ensures is { result ≡ missing_at c }
    ensures small { result < 2 ^ 38 }
{
    WIDTH * (c.saturating_sub(1) as usize)
}

// Bit i mod 32 of a word.
#[tactic(auto, using(crate::proofs::BitLaws::bit_masked))]
fn bit_of(w: u32, i: u32) -> bool
    ensures { result ≡ eqb (w / 2 ^ (i % 32) % 2) 1 }
{
    w & (1 << (i % 32)) != 0
}

// The bit of slot j of parent p: none without a parent, or past a table's 1,024 slots.
#[tactic(auto, unfolding(linking::specs::Counts::parent_bit, linking::specs::Counts::missing_bit))]
fn parent_bit(missing: &[u32], p: u32, j: u32) -> bool
    ensures { result ≡ parent_bit missing.now p j }
{
    if (p == 0) | (1023 < j) {
        return false;
    }
    let at = place_of(p) + (1 + ((j / 32) as usize));
    bit_of(words::get_or(missing, at, 0), j)
}

// Whether a slot is missing.
#[tactic(auto, unfolding(linking::specs::Counts::is_counted))]
fn is_counted(missing: &[u32], p: u32, slot: Slot) -> bool
    ensures { result ≡ is_counted (parent_bit missing.now p) (entry slot) }
{
    slot.word == 0 || slot.source().is_some_and(|j| parent_bit(missing, p, j))
}

// The slots of a class's table by their words and marks, and how many there are (past a slice's end they are 0), beside the list as it is lent and
// the class's parent, whose bits in it tell which copies are missing.
#[derive(Clone, Copy)]
struct Slots<'a> {
    missing: &'a [u32],
    parent: u32,
    words: &'a [u32],
    marks: &'a [u32],
    n: u32,
}

impl<'a> Slots<'a> {
    // Whether slot i of the table is missing: none is past its end.
    #[tactic(auto, using(crate::proofs::BitLaws::bit_past, crate::proofs::BitLaws::bit_there))]
    fn is_missing(self, i: usize) -> bool
        ensures { result ≡ get_or (slot_bits self.entry) i false }
    {
        if self.n as usize <= i {
            return false;
        }
        let slot = Slot {
            word: words::get_or(self.words, i, 0),
            mark: words::get_or(self.marks, i, 0),
        };
        is_counted(self.missing, self.parent, slot)
    }

    // 1 where slot i of the table is missing, and else 0.
    fn bit_at(self, i: usize) -> u32
        ensures is { result ≡ bit (get_or (slot_bits self.entry) i false) }
        ensures small { result ≤ 1 }
    {
        u32::from(self.is_missing(i))
    }

    // How many of its slots are missing.
    fn count_slots(self) -> u32
        ensures { result ≡ bit_count (slot_bits self.entry) }
    {
        let mut count: u32 = 0;
        for i in 0..self.n as usize {
            count += self.bit_at(i);
        }
        count
    }

    // Word k of their bits, the first slot's lowest.
    fn bit_word(self, k: usize) -> u32
        requires { k < 32 }
        ensures { result ≡ bits_from (slot_bits self.entry) (32 * k) 32 }
    {
        let mut w: u32 = 0;
        for i in (0..32).rev() {
            w = self.bit_at(32 * k + i) + 2 * w;
        }
        w
    }

    // Word j of the class's 33: the count, and then the bits.
    #[tactic(auto, using(crate::proofs::ListLaws::word_first, crate::proofs::ListLaws::word_later))]
    fn packed_word(self, j: usize) -> u32
        requires { j < 33 }
        ensures { result ≡ get_or (pack_bits (slot_bits self.entry)) j 0 }
    {
        if j == 0 {
            return self.count_slots();
        }
        self.bit_word(j - 1)
    }

    // Fills a list of 33 with the words.
    fn pack(self, out: &mut [u32; WIDTH])
        ensures { out.new ≡ pack_bits (slot_bits self.entry) }
    {
        for (j, word) in out.iter_mut().enumerate() {
            *word = self.packed_word(j);
        }
    }
}

// Writes the words of class c, whose parent is p and whose table has n slots of these words and marks. Nothing is written into a list that has no
// room for them.
pub fn count_class(missing: &mut [u32], c: u32, p: u32, ts: &[u32], ms: &[u32], n: u32)
    ensures { missing.new ≡ counted missing.old c p (entries_of ts.now ms.now n) }
{
    let mut own = [0u32; WIDTH];
    let slots = Slots {
        missing,
        parent: p,
        words: ts,
        marks: ms,
        n,
    };
    slots.pack(&mut own);
    words::copy(&own, 0, WIDTH, missing, place_of(c));
}

// Row 15, of the list: whether it is shorter than 33 words for each class of the set.
#[tactic(auto, unfolding(linking::specs::Counts::missing_short))]
pub fn is_short(set: &[u32], missing: &[u32]) -> bool
    ensures { result ≡ missing_short set.now missing.now }
{
    missing.len() < WIDTH * (class_sheet::class_count(set) as usize)
}

// How many slots of the linked class hold no real method, as its link left the number in the list; or the row that refuses the question. Rows
// 3 to 5 are judged anew; nothing is written.
#[tactic(auto, unfolding(linking::specs::Missing::missing_def))]
pub fn missing_slots(set: &[u32], abi: &[u32], missing: &[u32], class: u32) -> Result<u32, Refusal>
    ensures { answered result ≡ missing_def set.now abi.now missing.now class }
{
    set_rules::set_refusal(set, abi)?;
    if call_rules::no_class(set, class) | !call_rules::is_linked(set, class) {
        return Err(Refusal::Class);
    }
    if is_short(set, missing) {
        return Err(Refusal::ShortMemory);
    }
    Ok(words::get_or(missing, place_of(class), 0))
}
