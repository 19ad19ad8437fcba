// The call that fills the list of numbers by which signatures are matched: each place of it holds the first place with the same name and descriptor.
#![tactic(auto)]

ghost use Rattle.std.specs.Prelude.{◌≡◌, ◌&&◌, ◌<◌, ◌≤◌, false};
ghost use Rattle.words.specs.Folds.{stores};
ghost use Rattle.text.specs.Text.{same_bytes};
ghost use Rattle.text.specs.Signatures.{of_signature};
ghost use Rattle.class_sheet.specs.ClassSheet.{text_limit, text_length, text_of};
ghost use Rattle.abi_sheet.specs.AbiSheet.{abi_text_limit, abi_text_length, abi_text_of};
ghost use Rattle.set_rules.specs.SetRules.{set_refusal};
ghost use Rattle.linking.specs.Signature.{place_at, place_name, place_descriptor};
ghost use Rattle.linking.specs.Numbers.{number_limit, is_used, number_at, numbers_short, fill_def};
ghost use Rattle.linking.specs.Sheets.{of_sheets};
ghost use Rattle.signatures.specs.Keys.{used_in, mix, mix_part, key_of, bucket_of, key_at, Keyed, Least, outcome};

use linking::Sheets;
use refusal::Refusal;
use text::Signature;

// How many places the list has: 512 of methods, and behind them 512 of ABI slots.
const METHODS: u32 = class_sheet::METHOD_LIMIT;

const PLACES: usize = (METHODS + abi_sheet::SLOT_LIMIT) as usize;

// How many buckets the keys fall into, and the factor that scatters them.
const BUCKETS: usize = 4096;

const FACTOR: u32 = 2654435761;

// ---- keys: numbers that equal signatures share, and most others do not

// The key with one word more.
#[tactic(auto, unfolding(crate::specs::Keys::mix))]
fn mix(key: u32, w: u32) -> u32
    ensures { result ≡ mix key w }
{
    key.wrapping_mul(FACTOR).wrapping_add(w)
}

// The key with a part more: its length, and its bytes in front, in the middle and at the end.
#[tactic(auto, unfolding(crate::specs::Keys::mix_part))]
fn mix_part(key: u32, s: &[u8]) -> u32
    ensures { result ≡ mix_part key s.now }
{
    let n = s.len();
    let key = mix(key, (n % 256) as u32);
    let key = mix(key, words::le_word(s, 0));
    let key = mix(key, words::le_word(s, (n / 2).saturating_sub(2)));
    mix(key, words::le_word(s, n.saturating_sub(4)))
}

// A signature's key.
#[tactic(auto, unfolding(crate::specs::Keys::key_of))]
fn key_of(signature: Signature) -> u32
    ensures { result ≡ of_signature key_of signature.entry }
{
    mix_part(mix_part(0, signature.name), signature.descriptor)
}

// The bucket that a key falls into.
#[tactic(auto, unfolding(crate::specs::Keys::bucket_of))]
fn bucket_of(key: u32) -> usize
    ensures is { result ≡ bucket_of key }
    ensures small { result < 4096 }
{
    (key.wrapping_mul(FACTOR) >> 20) as usize
}

// ---- places

// Whether place p has a record.
#[tactic(auto, unfolding(linking::specs::Numbers::is_used, linking::specs::Signature::place_at))]
fn is_used(sheets: Sheets, p: u32) -> bool
    ensures { result ≡ used_in sheets.entry p }
{
    if p < METHODS {
        return p < class_sheet::method_count(sheets.set);
    }
    let s = p - METHODS;
    (s < abi_sheet::slot_count(sheets.abi)) & (s < abi_sheet::SLOT_LIMIT)
}

// The signature at place p.
#[tactic(auto, unfolding(linking::specs::Signature::place_name, linking::specs::Signature::place_descriptor, linking::specs::Signature::place_at))]
fn signature_at(sheets: Sheets<'_>, p: u32) -> Signature<'_>
    ensures name { result.name.now ≡ of_sheets place_name sheets.entry (place_at p) }
    ensures descriptor { result.descriptor.now ≡ of_sheets place_descriptor sheets.entry (place_at p) }
{
    if p < METHODS {
        return class_sheet::method_signature(sheets.set, sheets.text, p);
    }
    abi_sheet::slot_signature(sheets.abi, sheets.labels, p - METHODS)
}

// The key of its signature; of a place without a record, 0.
#[tactic(auto, unfolding(crate::specs::Keys::key_at))]
fn key_at(sheets: Sheets, p: u32) -> u32
    ensures { result ≡ of_sheets key_at sheets.entry p }
{
    if !is_used(sheets, p) {
        return 0;
    }
    key_of(signature_at(sheets, p))
}

// Whether place p has a record, of this signature.
fn has_signature(sheets: Sheets, p: u32, signature: Signature) -> bool
    ensures { result
        ≡ (used_in sheets.entry p && (same_bytes (of_sheets place_name sheets.entry (place_at p)) signature.entry.name.now
        && same_bytes (of_sheets place_descriptor sheets.entry (place_at p)) signature.entry.descriptor.now)) }
{
    if !is_used(sheets, p) {
        return false;
    }
    let own = signature_at(sheets, p);
    text::same(own.name, signature.name) && text::same(own.descriptor, signature.descriptor)
}

// Stores the keys of all places.
fn put_keys(sheets: Sheets, keys: &mut [u32; PLACES])
    ensures { Keyed sheets.entry keys.new }
{
    for p in 0..PLACES {
        keys[p] = key_at(sheets, p as u32);
    }
}

// Stores for each bucket the first place whose key falls into it.
fn put_firsts(keys: &[u32; PLACES], firsts: &mut [u16; BUCKETS])
    ensures { Least keys.now firsts.new }
{
    for p in (0..PLACES).rev() {
        firsts[bucket_of(keys[p])] = p as u16;
    }
}

// The number of place p: the search goes from the place kept for its key's bucket on, as no place before that has its signature.
fn number_at(sheets: Sheets, keys: &[u32; PLACES], firsts: &[u16; BUCKETS], p: u32) -> u32
    requires { Keyed sheets keys.now × Least keys.now firsts.now × (p < number_limit) }
    ensures { result ≡ of_sheets number_at sheets.entry p }
{
    if !is_used(sheets, p) {
        return 0;
    }
    let key = keys[p as usize];
    let first = u32::from(firsts[bucket_of(key)]);
    let signature = signature_at(sheets, p);
    words::find_in(first, p, |q| {
        words::get_or(keys, q as usize, 0) == key && has_signature(sheets, q, signature)
    })
    .unwrap_or(p)
}

// Stores the numbers of all places.
fn put_numbers(sheets: Sheets, numbers: &mut [u32])
    ensures { numbers.new ≡ stores number_limit (of_sheets number_at sheets.entry) numbers.old }
{
    let mut keys = [0u32; PLACES];
    put_keys(sheets, &mut keys);
    let mut firsts = [0u16; BUCKETS];
    put_firsts(&keys, &mut firsts);
    for p in 0..PLACES {
        words::put(numbers, p, number_at(sheets, &keys, &firsts, p as u32));
    }
}

// Stores the numbers of two sheets that rows 3 to 5 accept.
fn fill(set: &[u32], abi: &[u32], numbers: &mut [u32])
    requires { (text_length set.now ≤ text_limit) × (abi_text_length abi.now ≤ abi_text_limit) }
    ensures { numbers.new ≡ stores number_limit (number_at set.now (text_of set.now) abi.now (abi_text_of abi.now)) numbers.old }
{
    let mut room = [0u8; class_sheet::TEXT_LIMIT as usize];
    let mut label_room = [0u8; abi_sheet::TEXT_LIMIT as usize];
    put_numbers(
        Sheets::unpack(set, abi, &[], &mut room, &mut label_room),
        numbers,
    );
}

// Whether the list is shorter than 1,024 words.
#[tactic(auto, unfolding(linking::specs::Numbers::numbers_short))]
pub fn is_short(numbers: &[u32]) -> bool
    ensures { result ≡ numbers_short numbers.now }
{
    numbers.len() < PLACES
}

// Fills the list's first 1,024 words with the numbers of the signatures of both sheets: place m is of method m, place 512 + s of ABI slot s, and each
// holds the first place whose name and whose descriptor are the same; a place without a record holds 0. What the list has behind them stays. A
// list that is shorter is refused by row 3; rows 3 to 5 of the sheets are judged as a link does. A refused filling writes nothing.
#[tactic(auto, using(crate::proofs::FillLaws::fill_short, crate::proofs::FillLaws::fill_refused, crate::proofs::FillLaws::fill_done, crate::proofs::FillLaws::texts_fit))]
pub fn number_signatures(set: &[u32], abi: &[u32], numbers: &mut [u32]) -> Result<(), Refusal>
    ensures { outcome result numbers.new ≡ fill_def set.now abi.now numbers.old }
{
    if is_short(numbers) {
        return Err(Refusal::Form);
    }
    set_rules::set_refusal(set, abi)?;
    fill(set, abi, numbers);
    Ok(())
}
