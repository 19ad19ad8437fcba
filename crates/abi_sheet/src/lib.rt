// The words of an ABI sheet by name: the one place of the code that knows its layout. Every read is total: 0 outside the words.
#![tactic(auto)]

ghost use Rattle.std.specs.Prelude.{◌≡◌, ◌<◌, ◌≤◌, ◌^◌};
ghost use Rattle.text.specs.Text.{unpacked_text};
ghost use Rattle.abi_sheet.specs.AbiSheet.{abi_count_at, abi_class_count, abi_slot_count, abi_field_count, abi_text_length, abi_slots_at, abi_fields_at, abi_text_at, abi_content_end, abi_class_word, abi_slot_word, abi_field_word, abi_text_words, abi_text_of, abi_text_limit, abi_class_name_start, abi_class_name_length, abi_class_table_size_plus_one, abi_class_instance_words_plus_one, abi_class_first_slot, abi_class_slot_count, abi_class_first_field, abi_class_field_count, abi_slot_name_start, abi_slot_name_length, abi_slot_descriptor_start, abi_slot_descriptor_length, abi_slot_index, abi_field_name_start, abi_field_name_length, abi_field_descriptor_start, abi_field_descriptor_length, abi_field_index, abi_class_name, abi_slot_name, abi_slot_descriptor, abi_field_name, abi_field_descriptor};

use text::Signature;

// Widths, in words: of the counts, of a class record, and of a slot or field record.
pub const COUNTS_WIDTH: usize = 4;

pub const CLASS_WIDTH: usize = 8;

pub const MEMBER_WIDTH: usize = 5;

// What each count may be at most.
pub const CLASS_LIMIT: u32 = 64;

pub const SLOT_LIMIT: u32 = 512;

pub const FIELD_LIMIT: u32 = 256;

pub const TEXT_LIMIT: u32 = 8192;

// The most words that the content has, 6,404; the blocks of 127 words that hold them, 51; and the words of those blocks, 6,477.
pub const CONTENT_LIMIT: usize = COUNTS_WIDTH
    + CLASS_WIDTH * (CLASS_LIMIT as usize)
    + MEMBER_WIDTH * (SLOT_LIMIT as usize)
    + MEMBER_WIDTH * (FIELD_LIMIT as usize)
    + ((TEXT_LIMIT as usize) + 3) / 4;

pub const BLOCK_LIMIT: u32 = ((CONTENT_LIMIT + 126) / 127) as u32;

pub const SHEET_WORDS: usize = 127 * (BLOCK_LIMIT as usize);

// Count k of the four.
#[tactic(auto, unfolding(crate::specs::AbiSheet::abi_count_at))]
fn count_at(abi: &[u32], k: usize) -> u32
    ensures { result ≡ abi_count_at abi.now k }
{
    words::get_or(abi, k, 0)
}

pub fn class_count(abi: &[u32]) -> u32
    ensures { result ≡ abi_class_count abi.now }
{
    count_at(abi, 0)
}

pub fn slot_count(abi: &[u32]) -> u32
    ensures { result ≡ abi_slot_count abi.now }
{
    count_at(abi, 1)
}

pub fn field_count(abi: &[u32]) -> u32
    ensures { result ≡ abi_field_count abi.now }
{
    count_at(abi, 2)
}

pub fn text_length(abi: &[u32]) -> u32
    ensures { result ≡ abi_text_length abi.now }
{
    count_at(abi, 3)
}

// Where the slot records begin.
#[tactic(auto, unfolding(crate::specs::AbiSheet::abi_slots_at))]
pub fn slots_at(abi: &[u32]) -> usize
    ensures is { result ≡ abi_slots_at abi.now }
    ensures small { result < 2 ^ 36 }
{
    COUNTS_WIDTH + CLASS_WIDTH * (class_count(abi) as usize)
}

// Where the field records begin.
#[tactic(auto, unfolding(crate::specs::AbiSheet::abi_fields_at))]
pub fn fields_at(abi: &[u32]) -> usize
    ensures is { result ≡ abi_fields_at abi.now }
    ensures small { result < 2 ^ 37 }
{
    slots_at(abi) + MEMBER_WIDTH * (slot_count(abi) as usize)
}

// Where the text begins.
#[tactic(auto, unfolding(crate::specs::AbiSheet::abi_text_at))]
pub fn text_at(abi: &[u32]) -> usize
    ensures is { result ≡ abi_text_at abi.now }
    ensures small { result < 2 ^ 38 }
{
    fields_at(abi) + MEMBER_WIDTH * (field_count(abi) as usize)
}

// How many words the content has: the counts and the sections that they ask for.
#[tactic(auto, unfolding(crate::specs::AbiSheet::abi_content_end))]
pub fn content_end(abi: &[u32]) -> usize
    ensures is { result ≡ abi_content_end abi.now }
    ensures small { result < 2 ^ 39 }
{
    text_at(abi) + (text_length(abi) as usize).div_ceil(4)
}

// Word k of class a's record.
#[tactic(auto, unfolding(crate::specs::AbiSheet::abi_class_word))]
fn class_word(abi: &[u32], a: u32, k: u32) -> u32
    ensures { result ≡ abi_class_word abi.now a k }
{
    let at = COUNTS_WIDTH + CLASS_WIDTH * (a as usize);
    words::get_or(abi, at + (k as usize), 0)
}

// Word k of slot s's record.
#[tactic(auto, unfolding(crate::specs::AbiSheet::abi_slot_word))]
fn slot_word(abi: &[u32], s: u32, k: u32) -> u32
    ensures { result ≡ abi_slot_word abi.now s k }
{
    let at = slots_at(abi) + MEMBER_WIDTH * (s as usize);
    words::get_or(abi, at + (k as usize), 0)
}

// Word k of field f's record.
#[tactic(auto, unfolding(crate::specs::AbiSheet::abi_field_word))]
fn field_word(abi: &[u32], f: u32, k: u32) -> u32
    ensures { result ≡ abi_field_word abi.now f k }
{
    let at = fields_at(abi) + MEMBER_WIDTH * (f as usize);
    words::get_or(abi, at + (k as usize), 0)
}

// The text section as bytes, where the lent bytes have room for it, and else nothing.
pub fn unpack_text(abi: &[u32], text: &mut [u8])
    ensures { text.new ≡ unpacked_text (abi_text_words abi.now) (abi_text_length abi.now) text.old }
{
    let at = text_at(abi);
    let n = abi.len();
    text::unpack_text(words::part(abi, at, n), text_length(abi), text);
}

// The text, unpacked into bytes that have room for as much as a sheet may have.
pub fn text_bytes<'a>(abi: &[u32], room: &'a mut [u8; TEXT_LIMIT as usize]) -> &'a [u8]
    ensures { abi_text_length abi.now ≤ abi_text_limit → result.now ≡ abi_text_of abi.now }
{
    unpack_text(abi, room);
    text::name_at(room, 0, text_length(abi))
}

// The words of a class record.
pub fn class_name_start(abi: &[u32], a: u32) -> u32
    ensures { result ≡ abi_class_name_start abi.now a }
{
    class_word(abi, a, 0)
}

pub fn class_name_length(abi: &[u32], a: u32) -> u32
    ensures { result ≡ abi_class_name_length abi.now a }
{
    class_word(abi, a, 1)
}

pub fn class_table_size_plus_one(abi: &[u32], a: u32) -> u32
    ensures { result ≡ abi_class_table_size_plus_one abi.now a }
{
    class_word(abi, a, 2)
}

pub fn class_instance_words_plus_one(abi: &[u32], a: u32) -> u32
    ensures { result ≡ abi_class_instance_words_plus_one abi.now a }
{
    class_word(abi, a, 3)
}

pub fn class_first_slot(abi: &[u32], a: u32) -> u32
    ensures { result ≡ abi_class_first_slot abi.now a }
{
    class_word(abi, a, 4)
}

pub fn class_slot_count(abi: &[u32], a: u32) -> u32
    ensures { result ≡ abi_class_slot_count abi.now a }
{
    class_word(abi, a, 5)
}

pub fn class_first_field(abi: &[u32], a: u32) -> u32
    ensures { result ≡ abi_class_first_field abi.now a }
{
    class_word(abi, a, 6)
}

pub fn class_field_count(abi: &[u32], a: u32) -> u32
    ensures { result ≡ abi_class_field_count abi.now a }
{
    class_word(abi, a, 7)
}

// The words of a slot record.
pub fn slot_name_start(abi: &[u32], s: u32) -> u32
    ensures { result ≡ abi_slot_name_start abi.now s }
{
    slot_word(abi, s, 0)
}

pub fn slot_name_length(abi: &[u32], s: u32) -> u32
    ensures { result ≡ abi_slot_name_length abi.now s }
{
    slot_word(abi, s, 1)
}

pub fn slot_descriptor_start(abi: &[u32], s: u32) -> u32
    ensures { result ≡ abi_slot_descriptor_start abi.now s }
{
    slot_word(abi, s, 2)
}

pub fn slot_descriptor_length(abi: &[u32], s: u32) -> u32
    ensures { result ≡ abi_slot_descriptor_length abi.now s }
{
    slot_word(abi, s, 3)
}

pub fn slot_index(abi: &[u32], s: u32) -> u32
    ensures { result ≡ abi_slot_index abi.now s }
{
    slot_word(abi, s, 4)
}

// The words of a field record.
pub fn field_name_start(abi: &[u32], f: u32) -> u32
    ensures { result ≡ abi_field_name_start abi.now f }
{
    field_word(abi, f, 0)
}

pub fn field_name_length(abi: &[u32], f: u32) -> u32
    ensures { result ≡ abi_field_name_length abi.now f }
{
    field_word(abi, f, 1)
}

pub fn field_descriptor_start(abi: &[u32], f: u32) -> u32
    ensures { result ≡ abi_field_descriptor_start abi.now f }
{
    field_word(abi, f, 2)
}

pub fn field_descriptor_length(abi: &[u32], f: u32) -> u32
    ensures { result ≡ abi_field_descriptor_length abi.now f }
{
    field_word(abi, f, 3)
}

pub fn field_index(abi: &[u32], f: u32) -> u32
    ensures { result ≡ abi_field_index abi.now f }
{
    field_word(abi, f, 4)
}

// Names and descriptors, each as its part of the text.
pub fn class_name<'a>(abi: &[u32], text: &'a [u8], a: u32) -> &'a [u8]
    ensures { result.now ≡ abi_class_name abi.now text.now a }
{
    text::name_at(text, class_name_start(abi, a), class_name_length(abi, a))
}

pub fn slot_name<'a>(abi: &[u32], text: &'a [u8], s: u32) -> &'a [u8]
    ensures { result.now ≡ abi_slot_name abi.now text.now s }
{
    text::name_at(text, slot_name_start(abi, s), slot_name_length(abi, s))
}

pub fn slot_descriptor<'a>(abi: &[u32], text: &'a [u8], s: u32) -> &'a [u8]
    ensures { result.now ≡ abi_slot_descriptor abi.now text.now s }
{
    text::name_at(
        text,
        slot_descriptor_start(abi, s),
        slot_descriptor_length(abi, s),
    )
}

pub fn slot_signature<'a>(abi: &[u32], text: &'a [u8], s: u32) -> Signature<'a>
    ensures name { result.name.now ≡ abi_slot_name abi.now text.now s }
    ensures descriptor { result.descriptor.now ≡ abi_slot_descriptor abi.now text.now s }
{
    Signature {
        name: slot_name(abi, text, s),
        descriptor: slot_descriptor(abi, text, s),
    }
}

pub fn field_name<'a>(abi: &[u32], text: &'a [u8], f: u32) -> &'a [u8]
    ensures { result.now ≡ abi_field_name abi.now text.now f }
{
    text::name_at(text, field_name_start(abi, f), field_name_length(abi, f))
}

pub fn field_descriptor<'a>(abi: &[u32], text: &'a [u8], f: u32) -> &'a [u8]
    ensures { result.now ≡ abi_field_descriptor abi.now text.now f }
{
    text::name_at(
        text,
        field_descriptor_start(abi, f),
        field_descriptor_length(abi, f),
    )
}
