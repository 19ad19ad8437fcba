// The words of a class sheet by name: the one place of the code that knows its layout. Every read is total: 0 outside the words.
#![tactic(auto)]

ghost use Rattle.std.specs.Prelude.{◌≡◌, ◌+◌, ◌*◌, eqb, ◌<◌, ◌≤◌, ◌^◌};
ghost use Rattle.text.specs.Text.{unpacked_text};
ghost use Rattle.class_sheet.specs.Flags.{is_public, is_private, is_protected, is_static, is_interface, is_abstract};
ghost use Rattle.class_sheet.specs.Kinds.{kind_at, kind_number};
ghost use Rattle.class_sheet.specs.ClassSheet.{count_at, class_count, method_count, field_count, interface_count, compiler_count, text_length, methods_at, fields_at, interfaces_at, compilers_at, text_at, content_end, class_word, method_word, field_word, interface_word, text_words, text_of, text_limit, class_name_start, class_name_length, class_parent, class_flags, class_kind, class_first_method, class_method_count, class_first_field, class_field_count, class_first_interface, class_interface_count, class_link_state, class_instance_words, class_compiler_table, class_compiler_slots, class_table_place, class_slot_count, class_static_words, is_built_kind, method_name_start, method_name_length, method_descriptor_start, method_descriptor_length, method_flags, method_target, field_name_start, field_name_length, field_descriptor_start, field_descriptor_length, field_flags, field_index, class_name, method_name, method_descriptor, field_name, field_descriptor, put_count, put_method_count, put_field_count, put_text_length, put_class_word, put_class_first_method, put_class_method_count, put_class_first_field, put_class_field_count, put_class_instance_words, put_class_table_place, put_class_slot_count, put_class_static_words, put_member};

use std::error::Error;
use std::fmt;
use text::Signature;

// Widths, in words: of the counts, of a class record, and of a method or field record.
pub const COUNTS_WIDTH: usize = 6;

pub const CLASS_WIDTH: usize = 18;

pub const MEMBER_WIDTH: usize = 6;

// The kinds of classes, in the order of their numbers, from 0 on.
#[derive(Clone, Copy, Debug, PartialEq, Eq)]
pub enum Kind {
    Built,
    Generated,
    Array,
    Packaged,
}

// A number that is no kind's.
#[derive(Clone, Copy, Debug, PartialEq, Eq)]
pub struct UnknownKind(pub u32);

// Printed, it is that number.
impl fmt::Display for UnknownKind {
    fn fmt<W: fmt::Write>(&self, f: &mut fmt::Formatter<W>) -> fmt::Result {
        write!(f, "{}", self.0)
    }
}

impl Error for UnknownKind {}

// The kind's number.
impl From<Kind> for u32 {
    ghost use Rattle.std.specs.Prelude.{◌≡◌};
    ghost use Rattle.class_sheet.specs.Flags.{is_private, is_static, is_interface, is_abstract};
    ghost use Rattle.class_sheet.specs.Kinds.{kind_number};

    ghost from_gives = { λ kind n. n ≡ kind_number kind };

    fn from(kind: Kind) -> u32 {
        kind as u32
    }
}

impl TryFrom<u32> for Kind {
    type Error = UnknownKind;

    ghost use Rattle.std.specs.Prelude.{◌≡◌};
    ghost use Rattle.class_sheet.specs.Flags.{is_private, is_static, is_interface, is_abstract};
    ghost use Rattle.class_sheet.specs.Kinds.{kind_at};

    ghost try_from_gives = { λ n kind. kind ≡ kind_at n };

    fn try_from(n: u32) -> Result<Self, UnknownKind> {
        match n {
            0 => Ok(Kind::Built),
            1 => Ok(Kind::Generated),
            2 => Ok(Kind::Array),
            3 => Ok(Kind::Packaged),
            _ => Err(UnknownKind(n)),
        }
    }
}

// What each count may be at most.
pub const CLASS_LIMIT: u32 = 64;

pub const MEMBER_LIMIT: u32 = 512;

pub const METHOD_LIMIT: u32 = MEMBER_LIMIT;

pub const FIELD_LIMIT: u32 = MEMBER_LIMIT;

pub const INTERFACE_LIMIT: u32 = 256;

pub const COMPILER_LIMIT: u32 = 2048;

pub const TEXT_LIMIT: u32 = 8192;

// The most words that the content has, 11,654; the blocks of 127 words that hold them, 92; and the words of those blocks, 11,684.
pub const CONTENT_LIMIT: usize = COUNTS_WIDTH
    + CLASS_WIDTH * (CLASS_LIMIT as usize)
    + MEMBER_WIDTH * (METHOD_LIMIT as usize)
    + MEMBER_WIDTH * (FIELD_LIMIT as usize)
    + (INTERFACE_LIMIT as usize)
    + (COMPILER_LIMIT as usize)
    + ((TEXT_LIMIT as usize) + 3) / 4;

pub const BLOCK_LIMIT: u32 = ((CONTENT_LIMIT + 126) / 127) as u32;

pub const SHEET_WORDS: usize = 127 * (BLOCK_LIMIT as usize);

// The counts that are stored to, by their numbers.
const METHOD_COUNT: usize = 1;

const FIELD_COUNT: usize = 2;

const TEXT_LENGTH: usize = 5;

// The words of a class record that are stored to.
const FIRST_METHOD: u32 = 5;

const CLASS_METHOD_COUNT: u32 = 6;

const FIRST_FIELD: u32 = 7;

const CLASS_FIELD_COUNT: u32 = 8;

const INSTANCE_WORDS: u32 = 12;

const TABLE_PLACE: u32 = 15;

const SLOT_COUNT: u32 = 16;

const STATIC_WORDS: u32 = 17;

// The word of a class record that holds its parent's number.
pub const PARENT: usize = 2;

// The word of a field record that holds its word index.
pub const FIELD_INDEX: usize = 5;

// The word of a method record that holds its target.
pub const TARGET: usize = 5;

// Count k of the six.
#[tactic(auto, unfolding(crate::specs::ClassSheet::count_at))]
fn count_at(ws: &[u32], k: usize) -> u32
    ensures { result ≡ count_at ws.now k }
{
    words::get_or(ws, k, 0)
}

pub fn class_count(ws: &[u32]) -> u32
    ensures { result ≡ class_count ws.now }
{
    count_at(ws, 0)
}

pub fn method_count(ws: &[u32]) -> u32
    ensures { result ≡ method_count ws.now }
{
    count_at(ws, METHOD_COUNT)
}

pub fn field_count(ws: &[u32]) -> u32
    ensures { result ≡ field_count ws.now }
{
    count_at(ws, FIELD_COUNT)
}

pub fn interface_count(ws: &[u32]) -> u32
    ensures { result ≡ interface_count ws.now }
{
    count_at(ws, 3)
}

pub fn compiler_count(ws: &[u32]) -> u32
    ensures { result ≡ compiler_count ws.now }
{
    count_at(ws, 4)
}

pub fn text_length(ws: &[u32]) -> u32
    ensures { result ≡ text_length ws.now }
{
    count_at(ws, TEXT_LENGTH)
}

// Where the method records begin.
#[tactic(auto, unfolding(crate::specs::ClassSheet::methods_at))]
pub fn methods_at(ws: &[u32]) -> usize
    ensures is { result ≡ methods_at ws.now }
    ensures small { result < 2 ^ 37 }
{
    COUNTS_WIDTH + CLASS_WIDTH * (class_count(ws) as usize)
}

// Where the field records begin.
#[tactic(auto, unfolding(crate::specs::ClassSheet::fields_at))]
pub fn fields_at(ws: &[u32]) -> usize
    ensures is { result ≡ fields_at ws.now }
    ensures small { result < 2 ^ 38 }
{
    methods_at(ws) + MEMBER_WIDTH * (method_count(ws) as usize)
}

// Where the interface words begin.
#[tactic(auto, unfolding(crate::specs::ClassSheet::interfaces_at))]
pub fn interfaces_at(ws: &[u32]) -> usize
    ensures is { result ≡ interfaces_at ws.now }
    ensures small { result < 2 ^ 39 }
{
    fields_at(ws) + MEMBER_WIDTH * (field_count(ws) as usize)
}

// Where the compiler words begin.
#[tactic(auto, unfolding(crate::specs::ClassSheet::compilers_at))]
pub fn compilers_at(ws: &[u32]) -> usize
    ensures is { result ≡ compilers_at ws.now }
    ensures small { result < 2 ^ 40 }
{
    interfaces_at(ws) + (interface_count(ws) as usize)
}

// Where the text begins.
#[tactic(auto, unfolding(crate::specs::ClassSheet::text_at))]
pub fn text_at(ws: &[u32]) -> usize
    ensures is { result ≡ text_at ws.now }
    ensures small { result < 2 ^ 41 }
{
    compilers_at(ws) + (compiler_count(ws) as usize)
}

// How many words the content has: the counts and the sections that they ask for.
#[tactic(auto, unfolding(crate::specs::ClassSheet::content_end))]
pub fn content_end(ws: &[u32]) -> usize
    ensures is { result ≡ content_end ws.now }
    ensures small { result < 2 ^ 42 }
{
    text_at(ws) + (text_length(ws) as usize).div_ceil(4)
}

// The byte where the text ends, counted from the first word.
pub fn text_end(ws: &[u32]) -> usize
    ensures is { result ≡ 4 * text_at ws.now + text_length ws.now }
    ensures small { result < 2 ^ 44 }
{
    4 * text_at(ws) + text_length(ws) as usize
}

// Word k of class c's record.
#[tactic(auto, unfolding(crate::specs::ClassSheet::class_word))]
fn class_word(ws: &[u32], c: u32, k: u32) -> u32
    ensures { result ≡ class_word ws.now c k }
{
    let at = COUNTS_WIDTH + CLASS_WIDTH * (c.saturating_sub(1) as usize);
    words::get_or(ws, at + (k as usize), 0)
}

// Word k of method m's record.
#[tactic(auto, unfolding(crate::specs::ClassSheet::method_word))]
fn method_word(ws: &[u32], m: u32, k: u32) -> u32
    ensures { result ≡ method_word ws.now m k }
{
    let at = methods_at(ws) + MEMBER_WIDTH * (m as usize);
    words::get_or(ws, at + (k as usize), 0)
}

// Word k of field f's record.
#[tactic(auto, unfolding(crate::specs::ClassSheet::field_word))]
fn field_word(ws: &[u32], f: u32, k: u32) -> u32
    ensures { result ≡ field_word ws.now f k }
{
    let at = fields_at(ws) + MEMBER_WIDTH * (f as usize);
    words::get_or(ws, at + (k as usize), 0)
}

// Interface word i.
#[tactic(auto, unfolding(crate::specs::ClassSheet::interface_word))]
pub fn interface_word(ws: &[u32], i: u32) -> u32
    ensures { result ≡ interface_word ws.now i }
{
    words::get_or(ws, interfaces_at(ws) + (i as usize), 0)
}

// The text section as bytes, where the lent bytes have room for it, and else nothing.
pub fn unpack_text(ws: &[u32], text: &mut [u8])
    ensures { text.new ≡ unpacked_text (text_words ws.now) (text_length ws.now) text.old }
{
    let at = text_at(ws);
    let n = ws.len();
    text::unpack_text(words::part(ws, at, n), text_length(ws), text);
}

// The text, unpacked into bytes that have room for as much as a sheet may have.
pub fn text_bytes<'a>(ws: &[u32], room: &'a mut [u8; TEXT_LIMIT as usize]) -> &'a [u8]
    ensures { text_length ws.now ≤ text_limit → result.now ≡ text_of ws.now }
{
    unpack_text(ws, room);
    text::name_at(room, 0, text_length(ws))
}

// The words of a class record.
pub fn class_name_start(ws: &[u32], c: u32) -> u32
    ensures { result ≡ class_name_start ws.now c }
{
    class_word(ws, c, 0)
}

pub fn class_name_length(ws: &[u32], c: u32) -> u32
    ensures { result ≡ class_name_length ws.now c }
{
    class_word(ws, c, 1)
}

pub fn class_parent(ws: &[u32], c: u32) -> u32
    ensures { result ≡ class_parent ws.now c }
{
    class_word(ws, c, 2)
}

pub fn class_flags(ws: &[u32], c: u32) -> u32
    ensures { result ≡ class_flags ws.now c }
{
    class_word(ws, c, 3)
}

pub fn class_kind(ws: &[u32], c: u32) -> u32
    ensures { result ≡ class_kind ws.now c }
{
    class_word(ws, c, 4)
}

// Class c's kind, by name.
pub fn kind_of(ws: &[u32], c: u32) -> Result<Kind, UnknownKind>
    ensures { result ≡ kind_at (class_kind ws.now c) }
{
    Kind::try_from(class_kind(ws, c))
}

// Whether class c is of this kind.
pub fn has_kind(ws: &[u32], c: u32, kind: Kind) -> bool
    ensures { result ≡ eqb (class_kind ws.now c) (kind_number kind) }
{
    class_kind(ws, c) == u32::from(kind)
}

// The bits of access flags, of a class, a method or a field.
#[tactic(auto, using(crate::proofs::FlagLaws::public_bit))]
pub fn is_public(flags: u32) -> bool
    ensures { result ≡ is_public flags }
{
    flags & 0x0001 != 0
}

#[tactic(auto, using(crate::proofs::FlagLaws::private_bit))]
pub fn is_private(flags: u32) -> bool
    ensures { result ≡ is_private flags }
{
    flags & 0x0002 != 0
}

#[tactic(auto, using(crate::proofs::FlagLaws::protected_bit))]
pub fn is_protected(flags: u32) -> bool
    ensures { result ≡ is_protected flags }
{
    flags & 0x0004 != 0
}

#[tactic(auto, using(crate::proofs::FlagLaws::static_bit))]
pub fn is_static(flags: u32) -> bool
    ensures { result ≡ is_static flags }
{
    flags & 0x0008 != 0
}

#[tactic(auto, using(crate::proofs::FlagLaws::interface_bit))]
pub fn is_interface(flags: u32) -> bool
    ensures { result ≡ is_interface flags }
{
    flags & 0x0200 != 0
}

#[tactic(auto, using(crate::proofs::FlagLaws::abstract_bit))]
pub fn is_abstract(flags: u32) -> bool
    ensures { result ≡ is_abstract flags }
{
    flags & 0x0400 != 0
}

// Whether a class of this kind is built, by packages or not.
#[tactic(auto, unfolding(crate::specs::ClassSheet::is_built_kind))]
pub fn is_built_kind(kind: u32) -> bool
    ensures { result ≡ is_built_kind kind }
{
    matches!(Kind::try_from(kind), Ok(Kind::Built | Kind::Packaged))
}

// Whether class c is built.
pub fn is_built(ws: &[u32], c: u32) -> bool
    ensures { result ≡ is_built_kind (class_kind ws.now c) }
{
    is_built_kind(class_kind(ws, c))
}

pub fn class_first_method(ws: &[u32], c: u32) -> u32
    ensures { result ≡ class_first_method ws.now c }
{
    class_word(ws, c, FIRST_METHOD)
}

pub fn class_method_count(ws: &[u32], c: u32) -> u32
    ensures { result ≡ class_method_count ws.now c }
{
    class_word(ws, c, CLASS_METHOD_COUNT)
}

pub fn class_first_field(ws: &[u32], c: u32) -> u32
    ensures { result ≡ class_first_field ws.now c }
{
    class_word(ws, c, FIRST_FIELD)
}

pub fn class_field_count(ws: &[u32], c: u32) -> u32
    ensures { result ≡ class_field_count ws.now c }
{
    class_word(ws, c, CLASS_FIELD_COUNT)
}

pub fn class_first_interface(ws: &[u32], c: u32) -> u32
    ensures { result ≡ class_first_interface ws.now c }
{
    class_word(ws, c, 9)
}

pub fn class_interface_count(ws: &[u32], c: u32) -> u32
    ensures { result ≡ class_interface_count ws.now c }
{
    class_word(ws, c, 10)
}

pub fn class_link_state(ws: &[u32], c: u32) -> u32
    ensures { result ≡ class_link_state ws.now c }
{
    class_word(ws, c, 11)
}

pub fn class_instance_words(ws: &[u32], c: u32) -> u32
    ensures { result ≡ class_instance_words ws.now c }
{
    class_word(ws, c, INSTANCE_WORDS)
}

pub fn class_compiler_table(ws: &[u32], c: u32) -> u32
    ensures { result ≡ class_compiler_table ws.now c }
{
    class_word(ws, c, 13)
}

pub fn class_compiler_slots(ws: &[u32], c: u32) -> u32
    ensures { result ≡ class_compiler_slots ws.now c }
{
    class_word(ws, c, 14)
}

pub fn class_table_place(ws: &[u32], c: u32) -> u32
    ensures { result ≡ class_table_place ws.now c }
{
    class_word(ws, c, TABLE_PLACE)
}

pub fn class_slot_count(ws: &[u32], c: u32) -> u32
    ensures { result ≡ class_slot_count ws.now c }
{
    class_word(ws, c, SLOT_COUNT)
}

pub fn class_static_words(ws: &[u32], c: u32) -> u32
    ensures { result ≡ class_static_words ws.now c }
{
    class_word(ws, c, STATIC_WORDS)
}

// The words of a method record.
pub fn method_name_start(ws: &[u32], m: u32) -> u32
    ensures { result ≡ method_name_start ws.now m }
{
    method_word(ws, m, 0)
}

pub fn method_name_length(ws: &[u32], m: u32) -> u32
    ensures { result ≡ method_name_length ws.now m }
{
    method_word(ws, m, 1)
}

pub fn method_descriptor_start(ws: &[u32], m: u32) -> u32
    ensures { result ≡ method_descriptor_start ws.now m }
{
    method_word(ws, m, 2)
}

pub fn method_descriptor_length(ws: &[u32], m: u32) -> u32
    ensures { result ≡ method_descriptor_length ws.now m }
{
    method_word(ws, m, 3)
}

pub fn method_flags(ws: &[u32], m: u32) -> u32
    ensures { result ≡ method_flags ws.now m }
{
    method_word(ws, m, 4)
}

pub fn method_target(ws: &[u32], m: u32) -> u32
    ensures { result ≡ method_target ws.now m }
{
    method_word(ws, m, TARGET as u32)
}

// The words of a field record.
pub fn field_name_start(ws: &[u32], f: u32) -> u32
    ensures { result ≡ field_name_start ws.now f }
{
    field_word(ws, f, 0)
}

pub fn field_name_length(ws: &[u32], f: u32) -> u32
    ensures { result ≡ field_name_length ws.now f }
{
    field_word(ws, f, 1)
}

pub fn field_descriptor_start(ws: &[u32], f: u32) -> u32
    ensures { result ≡ field_descriptor_start ws.now f }
{
    field_word(ws, f, 2)
}

pub fn field_descriptor_length(ws: &[u32], f: u32) -> u32
    ensures { result ≡ field_descriptor_length ws.now f }
{
    field_word(ws, f, 3)
}

pub fn field_flags(ws: &[u32], f: u32) -> u32
    ensures { result ≡ field_flags ws.now f }
{
    field_word(ws, f, 4)
}

pub fn field_index(ws: &[u32], f: u32) -> u32
    ensures { result ≡ field_index ws.now f }
{
    field_word(ws, f, FIELD_INDEX as u32)
}

// Names and descriptors, each as its part of the text.
pub fn class_name<'a>(ws: &[u32], text: &'a [u8], c: u32) -> &'a [u8]
    ensures { result.now ≡ class_name ws.now text.now c }
{
    text::name_at(text, class_name_start(ws, c), class_name_length(ws, c))
}

pub fn method_name<'a>(ws: &[u32], text: &'a [u8], m: u32) -> &'a [u8]
    ensures { result.now ≡ method_name ws.now text.now m }
{
    text::name_at(text, method_name_start(ws, m), method_name_length(ws, m))
}

pub fn method_descriptor<'a>(ws: &[u32], text: &'a [u8], m: u32) -> &'a [u8]
    ensures { result.now ≡ method_descriptor ws.now text.now m }
{
    text::name_at(
        text,
        method_descriptor_start(ws, m),
        method_descriptor_length(ws, m),
    )
}

pub fn method_signature<'a>(ws: &[u32], text: &'a [u8], m: u32) -> Signature<'a>
    ensures name { result.name.now ≡ method_name ws.now text.now m }
    ensures descriptor { result.descriptor.now ≡ method_descriptor ws.now text.now m }
{
    Signature {
        name: method_name(ws, text, m),
        descriptor: method_descriptor(ws, text, m),
    }
}

pub fn field_name<'a>(ws: &[u32], text: &'a [u8], f: u32) -> &'a [u8]
    ensures { result.now ≡ field_name ws.now text.now f }
{
    text::name_at(text, field_name_start(ws, f), field_name_length(ws, f))
}

pub fn field_descriptor<'a>(ws: &[u32], text: &'a [u8], f: u32) -> &'a [u8]
    ensures { result.now ≡ field_descriptor ws.now text.now f }
{
    text::name_at(
        text,
        field_descriptor_start(ws, f),
        field_descriptor_length(ws, f),
    )
}

pub fn field_signature<'a>(ws: &[u32], text: &'a [u8], f: u32) -> Signature<'a>
    ensures name { result.name.now ≡ field_name ws.now text.now f }
    ensures descriptor { result.descriptor.now ≡ field_descriptor ws.now text.now f }
{
    Signature {
        name: field_name(ws, text, f),
        descriptor: field_descriptor(ws, text, f),
    }
}

// Stores to the counts of methods, fields and text bytes.
fn put_count(ws: &mut [u32], k: usize, v: u32)
    ensures { ws.new ≡ put_count ws.old k v }
{
    words::put(ws, k, v);
}

pub fn put_method_count(ws: &mut [u32], v: u32)
    ensures { ws.new ≡ put_method_count ws.old v }
{
    put_count(ws, METHOD_COUNT, v);
}

pub fn put_field_count(ws: &mut [u32], v: u32)
    ensures { ws.new ≡ put_field_count ws.old v }
{
    put_count(ws, FIELD_COUNT, v);
}

pub fn put_text_length(ws: &mut [u32], v: u32)
    ensures { ws.new ≡ put_text_length ws.old v }
{
    put_count(ws, TEXT_LENGTH, v);
}

// Stores to word k of class c's record, and to its words by name.
fn put_class_word(ws: &mut [u32], c: u32, k: u32, v: u32)
    ensures { ws.new ≡ put_class_word ws.old c k v }
{
    let at = COUNTS_WIDTH + CLASS_WIDTH * (c.saturating_sub(1) as usize);
    words::put(ws, at + (k as usize), v);
}

pub fn put_class_first_method(ws: &mut [u32], c: u32, v: u32)
    ensures { ws.new ≡ put_class_first_method ws.old c v }
{
    put_class_word(ws, c, FIRST_METHOD, v);
}

pub fn put_class_method_count(ws: &mut [u32], c: u32, v: u32)
    ensures { ws.new ≡ put_class_method_count ws.old c v }
{
    put_class_word(ws, c, CLASS_METHOD_COUNT, v);
}

pub fn put_class_first_field(ws: &mut [u32], c: u32, v: u32)
    ensures { ws.new ≡ put_class_first_field ws.old c v }
{
    put_class_word(ws, c, FIRST_FIELD, v);
}

pub fn put_class_field_count(ws: &mut [u32], c: u32, v: u32)
    ensures { ws.new ≡ put_class_field_count ws.old c v }
{
    put_class_word(ws, c, CLASS_FIELD_COUNT, v);
}

pub fn put_class_instance_words(ws: &mut [u32], c: u32, v: u32)
    ensures { ws.new ≡ put_class_instance_words ws.old c v }
{
    put_class_word(ws, c, INSTANCE_WORDS, v);
}

pub fn put_class_table_place(ws: &mut [u32], c: u32, v: u32)
    ensures { ws.new ≡ put_class_table_place ws.old c v }
{
    put_class_word(ws, c, TABLE_PLACE, v);
}

pub fn put_class_slot_count(ws: &mut [u32], c: u32, v: u32)
    ensures { ws.new ≡ put_class_slot_count ws.old c v }
{
    put_class_word(ws, c, SLOT_COUNT, v);
}

pub fn put_class_static_words(ws: &mut [u32], c: u32, v: u32)
    ensures { ws.new ≡ put_class_static_words ws.old c v }
{
    put_class_word(ws, c, STATIC_WORDS, v);
}

// A method or field record: where its name and its descriptor begin in the text and how long they are, its flags, and its target or word index.
#[derive(Clone, Copy)]
pub struct MemberRecord {
    pub name_start: u32,
    pub name_length: u32,
    pub descriptor_start: u32,
    pub descriptor_length: u32,
    pub flags: u32,
    pub last: u32,
}

impl MemberRecord {
    // Stores it into the first words of a part, as many of them as it has.
    pub fn put(self, part: &mut [u32])
        ensures { part.new ≡ put_member part.old self }
    {
        words::put(part, 0, self.name_start);
        words::put(part, 1, self.name_length);
        words::put(part, 2, self.descriptor_start);
        words::put(part, 3, self.descriptor_length);
        words::put(part, 4, self.flags);
        words::put(part, 5, self.last);
    }
}
