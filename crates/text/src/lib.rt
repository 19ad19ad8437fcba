// The text section of a sheet: its words unpacked to bytes, names compared, and the rule for a name or descriptor.
#![tactic(auto)]

ghost use Rattle.std.specs.Prelude.{◌≡◌, ◌*◌, ◌-◌, ◌≤◌, length};
ghost use Rattle.words.specs.Folds.{all_of, stores};
ghost use Rattle.text.specs.Text.{text_byte, text_stores, unpacked_text, zero_rest, name_at, same_bytes, pairs_read, printable, part_clean, signature_clean, member_clean};

// The words of a record of a name, a descriptor and a number, after the name's start: the name's length, the descriptor's start and length,
// and the number.
pub const NAME_LENGTH: usize = 1;

pub const DESCRIPTOR_START: usize = 2;

pub const DESCRIPTOR_LENGTH: usize = 3;

pub const NUMBER: usize = 4;

// Stores the words, four bytes each, lowest byte first.
fn unpack_words(ws: &[u32], text: &mut [u8])
    requires { 4 * length ws.now ≤ length text.old }
    ensures { text.new ≡ stores (4 * length ws.now) (text_byte ws.now) text.old }
{
    for (w, word) in ws.iter().enumerate() {
        text[4 * w..4 * w + 4].copy_from_slice(&word.to_le_bytes());
    }
}

// Stores bytes `start` to `end` of the words, each at its own place; a byte past the words is 0.
fn unpack_bytes(ws: &[u32], start: usize, end: usize, text: &mut [u8])
    ensures { text.new ≡ text_stores ws.now start (end - start) text.old }
{
    for i in start..end {
        words::put(text, i, words::byte_of(words::get_or(ws, i / 4, 0), i));
    }
}

// The first n bytes of the words, four a word, lowest byte first, where the lent bytes have room for them, and else nothing. Whole words
// go first, then what is left.
pub fn unpack_text(ws: &[u32], n: u32, text: &mut [u8])
    ensures { text.new ≡ unpacked_text ws.now n text.old }
{
    let count = n as usize;
    if text.len() < count {
        return;
    }
    let whole = (count / 4).min(ws.len());
    unpack_words(&ws[..whole], text);
    unpack_bytes(ws, 4 * whole, count, text);
}

// Whether each byte of the words from byte `start` to their end is 0.
pub fn zero_rest(ws: &[u32], start: usize) -> bool
    ensures { result ≡ zero_rest ws.now start }
{
    (start..4 * ws.len()).all(|b| words::byte_of(words::get_or(ws, b / 4, 0), b) == 0)
}

// A name or descriptor as its part of the text, as much of it as is there.
#[tactic(auto, unfolding(crate::specs::Text::name_at))]
pub fn name_at(text: &[u8], start: u32, len: u32) -> &[u8]
    ensures { result.now ≡ name_at text.now start len }
{
    words::part(text, start as usize, len as usize)
}

// A member's name and descriptor.
#[derive(Clone, Copy)]
pub struct Signature<'a> {
    pub name: &'a [u8],
    pub descriptor: &'a [u8],
}

// Whether two names are the same bytes, and how many pairs of bytes were read to see it.
#[derive(Clone, Copy)]
pub struct Compared {
    pub same: bool,
    pub pairs: usize,
}

// Compares two names: the one comparison of names. Names of one length are read from the far end, as many share long starts.
pub fn compare(a: &[u8], b: &[u8]) -> Compared
    ensures same { result.same ≡ same_bytes a.now b.now }
    ensures pairs { result.pairs ≡ pairs_read a.now b.now }
{
    if a.len() != b.len() {
        return Compared {
            same: false,
            pairs: 0,
        };
    }
    for i in (0..a.len()).rev() {
        if a[i] != b[i] {
            return Compared {
                same: false,
                pairs: a.len() - i,
            };
        }
    }
    Compared {
        same: true,
        pairs: a.len(),
    }
}

// Whether two names are the same bytes.
pub fn same(a: &[u8], b: &[u8]) -> bool
    ensures { result ≡ same_bytes a.now b.now }
{
    compare(a, b).same
}

// Whether each byte is from 0x21 to 0x7E.
pub fn is_printable(s: &[u8]) -> bool
    ensures { result ≡ printable s.now }
{
    s.iter().fold(true, |ok, b| ok & b.is_ascii_graphic())
}

// A text of which it was seen, once for all of its parts, whether each byte is from 0x21 to 0x7E.
#[derive(Clone, Copy)]
pub struct Seen<'a> {
    pub bytes: &'a [u8],
    pub clean: bool,
    ghost told: { clean ≡ printable bytes.now },
}

// Looks through a text.
pub fn see<'a>(bytes: &'a [u8]) -> Seen<'a>
    ensures { result.bytes.now ≡ bytes.now }
{
    Seen {
        bytes,
        clean: is_printable(bytes),
    }
}

// Whether a name or descriptor lies inside the text, has 1 to 255 bytes, and each is from 0x21 to 0x7E. `clean` tells that each byte of
// the text is: then those of the part need no look.
#[tactic(auto, unfolding(crate::specs::Text::part_clean))]
pub fn part_clean(text: &[u8], clean: bool, start: u32, len: u32) -> bool
    ensures { result ≡ part_clean text.now clean start len }
{
    if len < 1 || 255 < len || text.len() < start as usize + len as usize {
        return false;
    }
    if clean {
        return true;
    }
    is_printable(name_at(text, start, len))
}

// Whether a name and a descriptor are in order, whose starts and lengths are the four words from `at` on. Where the last of these is not
// there, the descriptor is empty.
#[tactic(auto, using(crate::proofs::Laws::signature_cut), unfolding(crate::specs::Text::signature_clean))]
pub fn signature_clean(ws: &[u32], at: usize, text: &[u8], clean: bool) -> bool
    ensures { result ≡ signature_clean ws.now at text.now clean }
{
    if ws.len() < 4 || ws.len() - 4 < at {
        return false;
    }
    part_clean(text, clean, ws[at], ws[at + NAME_LENGTH])
        && part_clean(
            text,
            clean,
            ws[at + DESCRIPTOR_START],
            ws[at + DESCRIPTOR_LENGTH],
        )
}

// Whether record i of this width is in order: a name, a descriptor, and a number up to `most`.
#[tactic(auto, using(crate::proofs::Laws::product), unfolding(crate::specs::Text::member_clean))]
fn member_clean(ws: &[u32], width: u32, most: u32, text: &[u8], clean: bool, i: u32) -> bool
    ensures { result ≡ member_clean ws.now width most text.now clean i }
{
    let at = (width as usize) * (i as usize);
    signature_clean(ws, at, text, clean) && words::get_or(ws, at + NUMBER, 0) <= most
}

// Whether each of the n records is.
pub fn members_clean(ws: &[u32], width: u32, n: u32, most: u32, text: &[u8], clean: bool) -> bool
    ensures { result ≡ all_of n (member_clean ws.now width most text.now clean) }
{
    words::all_of(n, |i| member_clean(ws, width, most, text, clean, i))
}
