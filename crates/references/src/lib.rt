// The instance reference bitmap: which of an object's words hold references (`JavaReferenceField` of class_definition.rs).
#![tactic(auto)]

ghost use Rattle.std.specs.Prelude.{◌≡◌, ◌≤◌, length};
ghost use Rattle.std.specs.Int.Count.{ones};
ghost use Rattle.references.specs.References.{
  is_marked,
  marked_words,
  written_over,
  bytes_for,
  kept_bits,
  masked_byte,
  masked_ones,
  too_few,
  outcome,
  counted,
  read_references,
  count_references,
};

use refusal::Refusal;

// Whether word i is marked: the bitmap's bits go from the highest of each byte to the lowest.
#[tactic(auto, unfolding(crate::specs::References::is_marked))]
fn is_marked(bitmap: &[u8], i: u32) -> bool
    ensures { result ≡ is_marked bitmap.now i }
{
    let b = words::get_or(bitmap, (i / 8) as usize, 0) as u32;
    b & (0x80u32 >> (i % 8)) != 0
}

// How many bytes n words take.
#[tactic(auto, unfolding(crate::specs::References::bytes_for))]
fn bytes_for(n: u32) -> usize
    ensures { result ≡ bytes_for n }
{
    n.div_ceil(8) as usize
}

// Whether the bitmap has too few bytes for n words.
#[tactic(auto, unfolding(crate::specs::References::too_few))]
fn too_few(bitmap: &[u8], n: u32) -> bool
    ensures { result ≡ too_few bitmap.now n }
{
    bitmap.len() < bytes_for(n)
}

// How many bits of byte j, from the highest on, are of the n words.
#[tactic(auto, unfolding(crate::specs::References::kept_bits))]
fn kept_bits(n: u32, j: usize) -> u32
    ensures is { result ≡ kept_bits n j }
    ensures few { result ≤ 8 }
{
    let whole = (n / 8) as usize;
    if j < whole {
        8
    } else if j == whole {
        n % 8
    } else {
        0
    }
}

// The ones of byte j that are of the n words.
#[tactic(auto, unfolding(crate::specs::References::masked))]
fn byte_ones(bitmap: &[u8], n: u32, j: usize) -> u32
    ensures { result ≡ ones (masked_byte bitmap.now n j) }
{
    let below = 1u32 << (8 - kept_bits(n, j));
    let b = words::get_or(bitmap, j, 0) as u32;
    (b & (256 - below)).count_ones()
}

// How many of the n words are marked, byte by byte.
fn masked_ones(bitmap: &[u8], n: u32) -> u32
    ensures { result ≡ masked_ones bitmap.now n }
{
    words::sum_of(bytes_for(n), |j| byte_ones(bitmap, n, j))
}

// Puts the marked ones of the n words into the list, from its front.
fn put_marked(bitmap: &[u8], n: u32, list: &mut [u32])
    requires { length (marked_words bitmap.now n) ≤ length list.old }
    ensures { list.new ≡ written_over (marked_words bitmap.now n) list.old }
{
    let mut k: usize = 0;
    for i in 0..n {
        if is_marked(bitmap, i) {
            words::put(list, k, i);
            k += 1;
        }
    }
}

// How many of an object's words are marked as references by its bitmap, or 24 where the bitmap has too few bytes.
#[tactic(auto, unfolding(crate::specs::References::count_references))]
pub fn reference_count(bitmap: &[u8], words: u32) -> Result<u32, Refusal>
    ensures { counted result ≡ count_references bitmap.now words }
{
    if too_few(bitmap, words) {
        return Err(Refusal::ShortBitmap);
    }
    Ok(masked_ones(bitmap, words))
}

// Puts the numbers of the marked words into the list, in rising order, and answers how many there are; words after them stay, which is this
// program's choice. Or 24 where the bitmap has too few bytes, or 25 where the list is shorter than the count: then no word of it is written.
pub fn reference_words(bitmap: &[u8], words: u32, list: &mut [u32]) -> Result<u32, Refusal>
    ensures { outcome result list.new ≡ read_references bitmap.now words list.old }
{
    let count = reference_count(bitmap, words)?;
    if list.len() < count as usize {
        return Err(Refusal::ShortList);
    }
    put_marked(bitmap, words, list);
    Ok(count)
}
