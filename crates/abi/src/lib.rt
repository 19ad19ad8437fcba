// The ABI sheet's lookups: the first ABI class of a name, and in it the first match, counts. Every function is total: a list that runs
// past its section's limit is cut there, and an index or a size above its limit counts as the limit.
#![tactic(auto)]

ghost use Rattle.std.specs.Prelude.{◌≡◌, ◌≤◌, ◌+◌, get_or, ℕ, Bool, min, ◌++◌, length, take, eqb};
ghost use Rattle.class_sheet.specs.ClassSheet.{class_limit, method_limit};
ghost use Rattle.words.specs.Folds.{Computes};
ghost use Rattle.words.specs.Lists.{find, all_found};
ghost use Rattle.text.specs.Text.{number_word, same_bytes};
ghost use Rattle.abi_sheet.specs.AbiSheet.{abi_member_width, abi_class_name, abi_class_first_slot, abi_class_slot_count, abi_class_first_field, abi_class_field_count, abi_slot_limit, abi_field_limit};
ghost use Rattle.linking.specs.Signature.{of_method, of_abi_slot, by_numbers};
ghost use Rattle.linking.specs.Chain.{list_count, chain};
ghost use Rattle.linking.specs.Abi.{abi_named, abi_slots, slot_index, fixed_field_index, vtable_index, slot_at, field_is, fixed_field, class_size, given_words, class_abi, chain_abi, minimum_size};
ghost use Rattle.linking.specs.Vtable.{fixed_of, distance_of};
ghost use Rattle.chain.specs.Records.{record_word};
ghost use Rattle.abi.specs.Abis.{slot_records, field_records, class_slot};
ghost use Rattle.linking.specs.Sheets.{of_sheets};
ghost use Rattle.text.specs.Signatures.{of_signature};

use linking::Sheets;
use text::Signature;
use words::BoundedList;

// How many words a slot record or a field record has.
const MEMBER_WIDTH: u32 = abi_sheet::MEMBER_WIDTH as u32;

// How many classes a chain has at most.
const CHAIN_LIMIT: usize = class_sheet::CLASS_LIMIT as usize;

// ABI classes, one after the other.
pub type AbiClasses = BoundedList<u32, CHAIN_LIMIT>;

// The first ABI class of this name.
pub fn abi_named(abi: &[u32], labels: &[u8], name: &[u8]) -> Option<u32>
    ensures { result ≡ abi_named abi.now labels.now name.now }
{
    words::find_in(0, abi_sheet::class_count(abi), |a| {
        text::same(abi_sheet::class_name(abi, labels, a), name)
    })
}

// How many slot records ABI class a has.
pub fn slot_count(abi: &[u32], a: u32) -> u32
    ensures { result ≡ list_count (abi_class_first_slot abi.now a) (abi_class_slot_count abi.now a) abi_slot_limit }
{
    chain::list_count(
        abi_sheet::class_first_slot(abi, a),
        abi_sheet::class_slot_count(abi, a),
        abi_sheet::SLOT_LIMIT,
    )
}

// How many field records ABI class a has.
pub fn field_count(abi: &[u32], a: u32) -> u32
    ensures { result ≡ list_count (abi_class_first_field abi.now a) (abi_class_field_count abi.now a) abi_field_limit }
{
    chain::list_count(
        abi_sheet::class_first_field(abi, a),
        abi_sheet::class_field_count(abi, a),
        abi_sheet::FIELD_LIMIT,
    )
}

// The index that slot record s fixes.
#[tactic(auto, unfolding(linking::specs::Abi::slot_index))]
pub fn slot_index(abi: &[u32], s: u32) -> u32
    ensures { result ≡ slot_index abi.now s }
{
    abi_sheet::slot_index(abi, s).min(1023)
}

// The index that field record f fixes.
#[tactic(auto, unfolding(linking::specs::Abi::fixed_field_index))]
pub fn fixed_field_index(abi: &[u32], f: u32) -> u32
    ensures { result ≡ fixed_field_index abi.now f }
{
    abi_sheet::field_index(abi, f).min(4095)
}

// The words from the first slot record on: a loop over slots takes them once.
#[tactic(auto, using(crate::proofs::RecordLaws::slots_are))]
fn slot_records(abi: &[u32]) -> &[u32]
    ensures { result.now ≡ slot_records abi.now }
{
    words::part(abi, abi_sheet::slots_at(abi), abi.len())
}

// The words from the first field record on.
#[tactic(auto, using(crate::proofs::RecordLaws::fields_are))]
fn field_records(abi: &[u32]) -> &[u32]
    ensures { result.now ≡ field_records abi.now }
{
    words::part(abi, abi_sheet::fields_at(abi), abi.len())
}

// ABI class a's first slot record that passes the test.
fn find_slot<F: Fn(u32) -> bool>(abi: &[u32], a: u32, test: F) -> Option<u32>
    requires { F.IsAlwaysCallable test }
    ensures { (p : ℕ → Bool) → Computes (F.post test) p → result ≡ find p (abi_slots abi.now a) }
{
    let first = abi_sheet::class_first_slot(abi, a);
    words::find_in(first, first + slot_count(abi, a), test)
}

// The number of ABI slot s's signature.
pub fn slot_number(numbers: &[u32], s: u32) -> u32
    ensures { result ≡ get_or numbers.now (method_limit + s) 0 }
{
    words::get_or(numbers, class_sheet::METHOD_LIMIT as usize + s as usize, 0)
}

// ABI class a's first slot record of method m's signature.
fn slot_of(abi: &[u32], numbers: &[u32], m: u32, a: u32) -> Option<u32>
    ensures { result ≡ find (λ s. by_numbers numbers.now (of_abi_slot s) (of_method m)) (abi_slots abi.now a) }
{
    let number = words::get_or(numbers, m as usize, 0);
    find_slot(abi, a, |s| slot_number(numbers, s) == number)
}

// The index that ABI class a fixes for method m's signature.
#[tactic(auto, unfolding(linking::specs::Abi::vtable_index))]
fn vtable_index(abi: &[u32], numbers: &[u32], m: u32, a: u32) -> Option<u32>
    ensures { result ≡ vtable_index (by_numbers numbers.now) abi.now (of_method m) a }
{
    slot_of(abi, numbers, m, a).map(|s| slot_index(abi, s))
}

// Whether record s of the slot records fixes index i.
#[tactic(auto, unfolding(chain::specs::Records::record_word))]
fn index_is(records: &[u32], s: u32, i: u32) -> bool
    ensures { result ≡ eqb (min (record_word records.now abi_member_width s number_word) 1023) i }
{
    let index = words::get_or(
        records,
        abi_sheet::MEMBER_WIDTH * (s as usize) + text::NUMBER,
        0,
    );
    index.min(1023) == i
}

// ABI class a's first slot record that fixes index i.
pub fn slot_at(abi: &[u32], i: u32, a: u32) -> Option<u32>
    ensures { result ≡ slot_at abi.now i a }
{
    let records = slot_records(abi);
    find_slot(abi, a, |s| index_is(records, s, i))
}

// Whether field record f has this signature.
#[tactic(auto, using(crate::proofs::RecordLaws::record_field))]
pub fn field_is(abi: &[u32], labels: &[u8], f: u32, signature: Signature) -> bool
    ensures { result ≡ of_signature (field_is abi.now labels.now f) signature.entry }
{
    chain::record_is(field_records(abi), MEMBER_WIDTH, labels, f, signature)
}

// ABI class a's first field record of this signature.
pub fn fixed_field(abi: &[u32], labels: &[u8], signature: Signature, a: u32) -> Option<u32>
    ensures { result ≡ of_signature (fixed_field abi.now labels.now) signature.entry a }
{
    let first = abi_sheet::class_first_field(abi, a);
    words::find_in(first, first + field_count(abi, a), |f| {
        field_is(abi, labels, f, signature)
    })
}

// How many slots ABI class a asks for: its table size, and its largest fixed index + 1.
#[tactic(auto, unfolding(linking::specs::Abi::slot_index))]
fn class_size(abi: &[u32], a: u32) -> u32
    ensures { result ≡ class_size abi.now a }
{
    let first = abi_sheet::class_first_slot(abi, a);
    let size = abi_sheet::class_table_size_plus_one(abi, a)
        .min(1025)
        .saturating_sub(1);
    (first..first + slot_count(abi, a)).fold(size, |size, s| size.max(slot_index(abi, s) + 1))
}

// How many instance words ABI class a gives, plus 1; 0 if it gives none.
#[tactic(auto, unfolding(linking::specs::Abi::given_words))]
pub fn given_words(abi: &[u32], a: u32) -> u32
    ensures { result ≡ given_words abi.now a }
{
    abi_sheet::class_instance_words_plus_one(abi, a).min(4097)
}

// The ABI class of class c's name.
#[tactic(auto, unfolding(linking::specs::Abi::class_abi))]
pub fn class_abi(sheets: Sheets, c: u32) -> Option<u32>
    ensures { result ≡ of_sheets class_abi sheets.entry c }
{
    abi_named(
        sheets.abi,
        sheets.labels,
        class_sheet::class_name(sheets.set, sheets.text, c),
    )
}

// The slot record that class c's ABI entry has for index i.
#[tactic(auto, unfolding(crate::specs::Abis::class_slot))]
pub fn class_slot(sheets: Sheets, i: u32, c: u32) -> Option<u32>
    ensures { result ≡ of_sheets class_slot sheets.entry i c }
{
    slot_at(sheets.abi, i, class_abi(sheets, c)?)
}

// Adds the ABI classes of class c and its ancestors behind the others, as far as there is room.
fn push_chain(sheets: Sheets, c: u32, classes: &mut AbiClasses)
    requires { length classes.old ≤ class_limit }
    ensures { classes.new ≡ take class_limit (classes.old ++ all_found (of_sheets class_abi sheets.entry) (chain sheets.entry.set.now c)) }
{
    if c == 0 {
        return;
    }
    if let Some(a) = class_abi(sheets, c) {
        classes.push(a);
    }
    push_chain(sheets, chain::parent_of(sheets.set, c), classes);
}

// The ABI classes that the chain of class c names, nearest first.
pub fn chain_abi(sheets: Sheets, c: u32) -> AbiClasses
    ensures { result ≡ of_sheets chain_abi sheets.entry c }
{
    let mut classes = AbiClasses::new();
    push_chain(sheets, c, &mut classes);
    classes
}

// The index that the first of the ABI classes fixes for method m's signature.
pub fn fixed_of(sheets: Sheets, abis: &[u32], m: u32) -> Option<u32>
    ensures { result ≡ fixed_of (by_numbers sheets.entry.numbers.now) sheets.entry.abi.now abis.now m }
{
    words::first_found(abis, |a| vtable_index(sheets.abi, sheets.numbers, m, a))
}

// How far up the chain's ABI classes the one stands that method m's index comes from: how many stand before the first that fixes one.
pub fn distance_of(sheets: Sheets, abis: &[u32], m: u32) -> usize
    ensures { result ≡ distance_of (by_numbers sheets.entry.numbers.now) sheets.entry.abi.now abis.now m }
{
    for i in 0..abis.len() {
        if vtable_index(sheets.abi, sheets.numbers, m, abis[i]).is_some() {
            return i;
        }
    }
    abis.len()
}

// How many slots a table has at least: the largest fixed index + 1 or table size among the ABI classes.
pub fn largest_size(abi: &[u32], abis: &[u32]) -> u32
    ensures { result ≡ minimum_size abi.now abis.now }
{
    abis.iter().fold(0, |size, a| size.max(class_size(abi, *a)))
}
