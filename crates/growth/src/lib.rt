// Growth of a class sheet's lists: new members, what the sheet then needs (rows 14 and 15), and the words with the list copied to its
// section's end and the new names in the text.
#![tactic(auto)]

ghost use Rattle.std.specs.Prelude.{◌≡◌, ◌+◌, ◌*◌, ◌<◌, ◌≤◌, ◌^◌, ◌++◌, length, get_or, leb};
ghost use Rattle.words.specs.Words.{words_for};
ghost use Rattle.class_sheet.specs.ClassSheet.{member_width, text_limit, sheet_words, text_length, text_of, member_words};
ghost use Rattle.linking.specs.Set.{write_at, put_indices, new_records, new_text, packed, section_full, grown_end};
ghost use Rattle.growth.specs.News.{ref_name, ref_descriptor, ref_number, news_of};
ghost use Rattle.growth.specs.Growth.{laid, laid_end, can_grow, methods_grown, fields_grown, tail_of, methods_of, fields_of, growing, methods_counted, fields_counted, appended, numbers_grown, numbers_fit, numbers_put, Placed, Room};
ghost use Rattle.linking.specs.Sheets.{of_sheets, of_lent};

use class_sheet::{MEMBER_WIDTH, MemberRecord};
use linking::{Lent, Sheets};
pub use news::{Member, Named, News};
use text::Signature;

mod news;

// The name and descriptor of what names a member, by the lists of both sheets.
#[tactic(auto, unfolding(crate::specs::News::ref_name, crate::specs::News::ref_descriptor))]
fn signature_of<'a>(
    set: &[u32],
    text: &'a [u8],
    abi: &[u32],
    labels: &'a [u8],
    r: Named,
) -> Signature<'a>
    ensures name { result.name.now ≡ ref_name set.now text.now abi.now labels.now r }
    ensures descriptor { result.descriptor.now ≡ ref_descriptor set.now text.now abi.now labels.now r }
    ensures small { (length result.name.now < 2 ^ 32) × (length result.descriptor.now < 2 ^ 32) }
{
    match r {
        Named::Method(m) => class_sheet::method_signature(set, text, m),
        Named::Slot(s) => abi_sheet::slot_signature(abi, labels, s),
        Named::Field(f) => Signature {
            name: abi_sheet::field_name(abi, labels, f),
            descriptor: abi_sheet::field_descriptor(abi, labels, f),
        },
    }
}

// The name and descriptor of what names a member: parts of the class text, or of the ABI text.
pub fn ref_signature<'a>(sheets: Sheets<'a>, r: Named) -> Signature<'a>
    ensures name { result.name.now ≡ of_sheets ref_name sheets.entry r }
    ensures descriptor { result.descriptor.now ≡ of_sheets ref_descriptor sheets.entry r }
    ensures small { (length result.name.now < 2 ^ 32) × (length result.descriptor.now < 2 ^ 32) }
{
    signature_of(sheets.set, sheets.text, sheets.abi, sheets.labels, r)
}

// The number at the place whose signature a new method takes: method 0's where a field names it, which has none.
#[tactic(auto, unfolding(crate::specs::News::ref_number, crate::specs::News::ref_place, linking::specs::Signature::place_number))]
pub fn ref_number(numbers: &[u32], r: Named) -> u32
    ensures { result ≡ ref_number numbers.now r }
{
    match r {
        Named::Method(m) => words::get_or(numbers, m as usize, 0),
        Named::Slot(s) => words::get_or(
            numbers,
            (class_sheet::METHOD_LIMIT as usize) + (s as usize),
            0,
        ),
        Named::Field(_) => words::get_or(numbers, 0, 0),
    }
}

// How many bytes the names and descriptors of the new members have.
pub fn new_text_length(sheets: Sheets, news: &News) -> usize
    ensures is { result ≡ length (new_text (of_sheets news_of sheets.entry news.now)) }
    ensures small { result < 2 ^ 44 }
{
    let mut sum: usize = 0;
    for new in news.as_slice() {
        let own = ref_signature(sheets, new.names);
        sum += own.name.len() + own.descriptor.len();
    }
    sum
}

// How many bytes the text has with the new names in it.
fn grown_text(sheets: Sheets, news: &News) -> usize
    ensures is { result ≡ text_length sheets.entry.set.now + length (new_text (of_sheets news_of sheets.entry news.now)) }
    ensures small { result < 2 ^ 45 }
{
    (class_sheet::text_length(sheets.set) as usize) + new_text_length(sheets, news)
}

// A section of `count` methods or fields, from word `at` on, which ends at word `end`, and a class's list in it: `own` from `first` on.
#[derive(Clone, Copy)]
pub struct Section {
    pub count: u32,
    pub first: u32,
    pub own: u32,
    pub at: usize,
    pub end: usize,
}

fn methods_of(set: &[u32], c: u32) -> Section
    ensures { result ≡ methods_of set.now c }
{
    Section {
        count: class_sheet::method_count(set),
        first: class_sheet::class_first_method(set, c),
        own: class_sheet::class_method_count(set, c),
        at: class_sheet::methods_at(set),
        end: class_sheet::fields_at(set),
    }
}

fn fields_of(set: &[u32], c: u32) -> Section
    ensures { result ≡ fields_of set.now c }
{
    Section {
        count: class_sheet::field_count(set),
        first: class_sheet::class_first_field(set, c),
        own: class_sheet::class_field_count(set, c),
        at: class_sheet::fields_at(set),
        end: class_sheet::interfaces_at(set),
    }
}

// Class c's list that grows where members are added: the fields of a built class, any other's methods.
#[tactic(auto, unfolding(crate::specs::Growth::growing))]
pub fn growing(set: &[u32], c: u32) -> Section
    ensures { result ≡ growing set.now c }
{
    if class_sheet::is_built(set, c) {
        return fields_of(set, c);
    }
    methods_of(set, c)
}

// Row 14: whether the section of a list that grows, or the text, would exceed its limit.
#[tactic(auto, using(crate::proofs::GrowthLaws::full_is))]
pub fn section_full(sheets: Sheets, list: Section, news: &News) -> bool
    ensures { result ≡ section_full sheets.entry.set.now list.count list.own (of_sheets news_of sheets.entry news.now) }
{
    let members = (list.count as usize) + ((list.own as usize) + news.len());
    ((class_sheet::MEMBER_LIMIT as usize) < members)
        | ((class_sheet::TEXT_LIMIT as usize) < grown_text(sheets, news))
}

// How many words the content has once a list has grown.
#[tactic(auto, using(crate::proofs::GrowthLaws::end_is))]
pub fn grown_end(sheets: Sheets, list: Section, news: &News) -> usize
    ensures { result ≡ grown_end sheets.entry.set.now list.own (of_sheets news_of sheets.entry news.now) }
{
    let members = (list.own as usize) + news.len();
    let text = grown_text(sheets, news).div_ceil(4);
    class_sheet::text_at(sheets.set) + MEMBER_WIDTH * members + text
}

// Whether a list can grow.
#[tactic(auto, unfolding(crate::specs::Growth::can_grow))]
fn can_grow(sheets: Sheets, list: Section, news: &News) -> bool
    ensures { result ≡ can_grow sheets.entry.set.now list.count list.first list.own (of_sheets news_of sheets.entry news.now) }
{
    let end = grown_end(sheets, list, news);
    words::is_inside(list.first, list.own, list.count)
        & !section_full(sheets, list, news)
        & (end <= class_sheet::SHEET_WORDS)
        & (end <= sheets.set.len())
}

// Stores the indices of the field records from `first` on, in words whose field section begins at `at`, and stops where they end.
pub fn put_indices(set: &mut [u32], at: usize, first: u32, indices: &[u32])
    ensures { set.new ≡ put_indices at first indices.now set.old }
{
    for (j, index) in indices.iter().enumerate() {
        let word = MEMBER_WIDTH * ((first as usize) + j) + class_sheet::FIELD_INDEX;
        let place = at.saturating_add(word);
        if set.len() <= place {
            return;
        }
        words::put(set, place, *index);
    }
}

// Two strings, one after the other, from `at` on, where there is room for them, and else nothing; answers where they end, or `at`. By
// `copy_from_slice`, which is compiled to memmove between two lent slices, the library would need that too, where it needs memcpy and memset alone.
#[tactic(auto, using(crate::proofs::GrowthLaws::strings_laid, crate::proofs::GrowthLaws::strings_end, crate::proofs::GrowthLaws::strings_none, crate::proofs::GrowthLaws::strings_stay))]
pub fn put_strings(text: &mut [u8], at: usize, first: &[u8], second: &[u8]) -> usize
    ensures is { text.new ≡ laid text.old at (first.now ++ second.now) }
    ensures end { result ≡ laid_end text.old at (first.now ++ second.now) }
{
    let n = first.len() + second.len();
    if text.len() < at.saturating_add(n) {
        return at;
    }
    let middle = at + first.len();
    let end = middle + second.len();
    words::store_each(
        &mut text[at..middle],
        first.len(),
        |i| words::get_or(first, i, 0),
    );
    words::store_each(
        &mut text[middle..end],
        second.len(),
        |i| words::get_or(second, i, 0),
    );
    end
}

// A member's record, where there is room for it, and else nothing.
#[tactic(auto, using(crate::proofs::GrowthLaws::member_laid, crate::proofs::GrowthLaws::member_none))]
pub fn put_record(out: &mut [u32], at: usize, member: MemberRecord)
    ensures { out.new ≡ laid out.old at (member_words member) }
{
    if out.len() < at.saturating_add(MEMBER_WIDTH) {
        return;
    }
    member.put(&mut out[at..at + MEMBER_WIDTH]);
}

// Bytes as words, four a word, lowest first, zeros after the last, where there is room for them, and else nothing.
#[tactic(auto, using(crate::proofs::GrowthLaws::packed_none))]
pub fn put_packed(out: &mut [u32], at: usize, bytes: &[u8])
    ensures { out.new ≡ laid out.old at (packed bytes.now) }
{
    let n = bytes.len().div_ceil(4);
    if out.len() < at.saturating_add(n) {
        return;
    }
    let end = at + n;
    words::store_each(
        &mut out[at..end],
        n,
        |i| words::le_word(bytes, i.wrapping_mul(4)),
    );
}

// The names and descriptors of the new members, one after the other.
fn put_names(bytes: &mut [u8], at: usize, sheets: Sheets, news: &News)
    requires { at + length (new_text (of_sheets news_of sheets news.now)) ≤ length bytes.old }
    ensures { bytes.new ≡ write_at bytes.old at (new_text (of_sheets news_of sheets.entry news.now)) }
{
    let mut next: usize = at;
    for new in news.as_slice() {
        let own = ref_signature(sheets, new.names);
        next = put_strings(bytes, next, own.name, own.descriptor);
    }
}

// The records of the new members, whose names begin at byte `start` of the text.
fn put_records(out: &mut [u32], at: usize, start: u32, sheets: Sheets, news: &News)
    requires { (at + member_width * length news.now ≤ length out.old) × (start + length (new_text (of_sheets news_of sheets news.now)) ≤ text_limit) }
    ensures { out.new ≡ write_at out.old at (new_records start (of_sheets news_of sheets.entry news.now)) }
{
    let mut next: u32 = start;
    let mut place: usize = at;
    for new in news.as_slice() {
        let own = ref_signature(sheets, new.names);
        let name = own.name.len() as u32;
        let descriptor = own.descriptor.len() as u32;
        put_record(
            out,
            place,
            MemberRecord {
                name_start: next,
                name_length: name,
                descriptor_start: next + name,
                descriptor_length: descriptor,
                flags: new.flags,
                last: new.last,
            },
        );
        place += MEMBER_WIDTH;
        next += name + descriptor;
    }
}

// The text with the names and descriptors of the new members after it.
#[tactic(auto, using(crate::proofs::GrowthLaws::text_put))]
fn put_text(bytes: &mut [u8], sheets: Sheets, news: &News)
    requires { text_length sheets.set.now + length (new_text (of_sheets news_of sheets news.now)) ≤ length bytes.old }
    ensures { bytes.new ≡ write_at bytes.old 0 (text_of sheets.entry.set.now ++ new_text (of_sheets news_of sheets.entry news.now)) }
{
    class_sheet::unpack_text(sheets.set, bytes);
    put_names(
        bytes,
        class_sheet::text_length(sheets.set) as usize,
        sheets,
        news,
    );
}

// The words from the grown section's end on.
fn put_tail(out: &mut [u32], end: usize, from: usize, own: u32, sheets: Sheets, news: &News)
    requires { (Room sheets.set.now end from own (of_sheets news_of sheets news.now)) × (sheet_words ≤ length out.old) }
    ensures { out.new ≡ write_at out.old 0 (tail_of sheets.entry.set.now end from own (of_sheets news_of sheets.entry news.now)) }
{
    let kept = MEMBER_WIDTH * (own as usize);
    let grown = kept + MEMBER_WIDTH * news.len();
    let rest = class_sheet::text_at(sheets.set) - end;
    let start = class_sheet::text_length(sheets.set);
    words::copy(sheets.set, from, kept, out, 0);
    put_records(out, kept, start, sheets, news);
    words::copy(sheets.set, end, rest, out, grown);
    let mut bytes = [0u8; class_sheet::TEXT_LIMIT as usize];
    put_text(&mut bytes, sheets, news);
    put_packed(
        out,
        grown + rest,
        words::part(&bytes, 0, grown_text(sheets, news)),
    );
}

// How many records a grown list has, and how many bytes the text.
#[derive(Clone, Copy)]
struct Grown {
    members: u32,
    bytes: u32,
}

// Copies the list's records to the end of their section, with the new ones after them, and the new names to the text's end, where there is
// room, and else nothing.
fn append(set: &mut [u32], list: Section, lent: Lent, news: &News) -> Option<Grown>
    requires { Placed set.old list }
    ensures { (result, set.new) ≡ appended set.old list (of_lent news_of set.old lent.entry news.now) }
{
    let sheets = Sheets {
        set,
        text: lent.text,
        abi: lent.abi,
        labels: lent.labels,
        numbers: &[],
    };
    if !can_grow(sheets, list, news) {
        return None;
    }
    let members = list.own + news.len() as u32;
    let bytes = grown_text(sheets, news) as u32;
    let from = list.at + MEMBER_WIDTH * (list.first as usize);
    let n = grown_end(sheets, list, news) - list.end;
    let mut tail = [0u32; class_sheet::SHEET_WORDS];
    put_tail(&mut tail, list.end, from, list.own, sheets, news);
    words::copy(&tail, 0, n, set, list.end);
    Some(Grown { members, bytes })
}

// The counts of a grown method section and of the text, and class c's list, from `count` on.
#[tactic(auto, unfolding(crate::specs::Growth::methods_counted))]
fn put_method_counts(set: &mut [u32], c: u32, count: u32, grown: Grown)
    requires { count + grown.members < 2 ^ 32 }
    ensures { set.new ≡ methods_counted set.old c count grown.members grown.bytes }
{
    class_sheet::put_method_count(set, count + grown.members);
    class_sheet::put_text_length(set, grown.bytes);
    class_sheet::put_class_first_method(set, c, count);
    class_sheet::put_class_method_count(set, c, grown.members);
}

// The same of a field section.
#[tactic(auto, unfolding(crate::specs::Growth::fields_counted))]
fn put_field_counts(set: &mut [u32], c: u32, count: u32, grown: Grown)
    requires { count + grown.members < 2 ^ 32 }
    ensures { set.new ≡ fields_counted set.old c count grown.members grown.bytes }
{
    class_sheet::put_field_count(set, count + grown.members);
    class_sheet::put_text_length(set, grown.bytes);
    class_sheet::put_class_first_field(set, c, count);
    class_sheet::put_class_field_count(set, c, grown.members);
}

// Copies class c's methods to the end of their section, with the new ones after them, where there is room, and else nothing.
pub fn grow_methods(set: &mut [u32], c: u32, lent: Lent, news: &News)
    ensures { set.new ≡ methods_grown set.old c (of_lent news_of set.old lent.entry news.now) }
{
    let list = methods_of(set, c);
    if let Some(grown) = append(set, list, lent, news) {
        put_method_counts(set, c, list.count, grown);
    }
}

// Copies class c's fields to the end of their section, with the new indices and the new fields, where there is room, and else nothing.
pub fn grow_fields(set: &mut [u32], c: u32, indices: &[u32], lent: Lent, news: &News)
    ensures { set.new ≡ fields_grown set.old c indices.now (of_lent news_of set.old lent.entry news.now) }
{
    let list = fields_of(set, c);
    if let Some(grown) = append(set, list, lent, news) {
        let copied = list.end + MEMBER_WIDTH * (list.own as usize);
        put_indices(&mut set[list.end..copied], 0, 0, indices);
        put_field_counts(set, c, list.count, grown);
    }
}

// Number j of a list of methods once it has grown: that of a copied record, or the one that a new method takes.
#[tactic(auto, using(crate::proofs::NumberLaws::number_own, crate::proofs::NumberLaws::number_new, crate::proofs::NumberLaws::number_none))]
fn grown_number(numbers: &[u32], list: Section, news: &News, j: usize) -> u32
    requires { list.first + list.own ≤ length numbers.now }
    ensures { result ≡ get_or (numbers_grown numbers.now list news.now) j 0 }
{
    let own = list.own as usize;
    if j < own {
        return words::get_or(numbers, (list.first as usize) + j, 0);
    }
    if let Some(new) = news.get(j - own) {
        return ref_number(numbers, new.names);
    }
    0
}

// Whether there is room for the numbers of a list of methods that grows: the list lies in its section, what it adds lies below the ABI slots' numbers,
// and the list of numbers has at least those of all methods.
#[tactic(auto, unfolding(crate::specs::Growth::numbers_fit))]
fn numbers_fit(numbers: &[u32], list: Section, news: &News) -> bool
    ensures { result ≡ numbers_fit numbers.now list news.now }
{
    let limit = class_sheet::METHOD_LIMIT as usize;
    let grown = (list.own as usize) + news.len();
    words::is_inside(list.first, list.own, list.count)
        & ((list.count as usize) + grown <= limit)
        & (limit <= numbers.len())
}

// Stores the numbers of a list of methods that has grown at the end of their section, those of the copied records and those that the new methods take,
// where there is room, and else nothing.
pub fn grow_numbers(numbers: &mut [u32], list: Section, news: &News)
    ensures { numbers.new ≡ numbers_put numbers.old list news.now }
{
    if !numbers_fit(numbers, list, news) {
        return;
    }
    let n = (list.own as usize) + news.len();
    let mut grown = [0u32; class_sheet::METHOD_LIMIT as usize];
    words::store_each(&mut grown, n, |j| grown_number(numbers, list, news, j));
    words::copy(&grown, 0, n, numbers, list.count as usize);
}
