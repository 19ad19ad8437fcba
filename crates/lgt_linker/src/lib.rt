// The linker for C and Rust programs (include/lgt_linker.h): each function is thin over the proved one that it exports, and leaves the
// set, the area or the words as that one does. What it returns is the refusal's number, 0 if the call is accepted; the other answer words, where a
// call has any, go into a small lent array, which is always written: zeros if the call is refused.
#![tactic(auto)]

ghost use Rattle.std.specs.Prelude.{◌≡◌, [], ◌∷◌, MatchResult, replicate};
ghost use Rattle.refusal.specs.Rows.{row_of};
ghost use Rattle.linking.specs.Missing.{missing_def};
ghost use Rattle.linking.specs.Numbers.{fill_def};
ghost use Rattle.linking.specs.Numbered.{link_numbered, ask_numbered};
ghost use Rattle.sheet.specs.Sheet.{read_class_sheet, read_abi_sheet, read_unordered_sheet};
ghost use Rattle.renumber.specs.Renumber.{renumber_def};
ghost use Rattle.writer.specs.Writer.{write_class_sheet};
ghost use Rattle.convert.specs.Convert.{widen_sheet, narrow_sheet};
ghost use Rattle.descriptor.specs.Words.{argument_answer};
ghost use Rattle.references.specs.References.{read_references, count_references};
ghost use Rattle.class_members.specs.Members.{read_class_file, class_file_head};
ghost use Rattle.lgt_linker.specs.Exported.{called, linked_by, counted_by, filled_by, read_by, written_by, renumbered_by, arguments_by, compared_by, compare_names, references_by, file_by};

use area::Answer;
use class_members::FileHead;
use refusal::Refusal;

// Hands out an answer's words, zeros where the call is refused, and returns the refusal's number, 0 if it is accepted.
fn give<T: Copy, const N: usize>(
    answer: Result<[T; N], Refusal>,
    zero: T,
    words: &mut [T; N],
) -> u32
    ensures row { result ≡ row_of answer }
    ensures words { MatchResult answer (λ given. words.new ≡ given) (λ _. words.new ≡ replicate N zero) }
{
    *words = answer.unwrap_or([zero; N]);
    match answer {
        Ok(_) => 0,
        Err(refusal) => u32::from(refusal),
    }
}

// An answer of one word.
fn word<T: Copy>(n: T) -> [T; 1]
    ensures { result ≡ n ∷ [] }
{
    [n]
}

// A link's or an ask's two words.
fn call_words(answer: Answer) -> [u32; 2]
    ensures { result ≡ answer.first ∷ answer.second ∷ [] }
{
    [answer.first, answer.second]
}

// `sheet::read_class_sheet`: the answer word is the number of words filled.
#[unsafe(no_mangle)]
pub extern "C" fn lgt_read_class_sheet(
    bytes: &[u8],
    words: &mut [u32],
    answer: &mut [u32; 1],
) -> u32
    ensures { read_by result answer.new words.new ≡ read_class_sheet bytes.now words.old }
{
    give(sheet::read_class_sheet(bytes, words).map(word), 0, answer)
}

// `sheet::read_abi_sheet`: the answer word is the number of words filled.
#[unsafe(no_mangle)]
pub extern "C" fn lgt_read_abi_sheet(bytes: &[u8], words: &mut [u32], answer: &mut [u32; 1]) -> u32
    ensures { read_by result answer.new words.new ≡ read_abi_sheet bytes.now words.old }
{
    give(sheet::read_abi_sheet(bytes, words).map(word), 0, answer)
}

// `writer::write_class_sheet`: the answer word is the number of blocks written; the set is only read.
#[unsafe(no_mangle)]
pub extern "C" fn lgt_write_class_sheet(set: &[u32], bytes: &mut [u8], answer: &mut [u32; 1]) -> u32
    ensures { written_by result answer.new bytes.new ≡ write_class_sheet set.now bytes.old }
{
    give(writer::write_class_sheet(set, bytes).map(word), 0, answer)
}

// `convert::widen_class_sheet`: the answer word is the number of blocks written; the old sheet is only read.
#[unsafe(no_mangle)]
pub extern "C" fn lgt_widen_class_sheet(bytes: &[u8], out: &mut [u8], answer: &mut [u32; 1]) -> u32
    ensures { written_by result answer.new out.new ≡ widen_sheet bytes.now out.old }
{
    give(convert::widen_class_sheet(bytes, out).map(word), 0, answer)
}

// `convert::narrow_class_sheet`: the answer word is the number of blocks written; the new sheet is only read.
#[unsafe(no_mangle)]
pub extern "C" fn lgt_narrow_class_sheet(bytes: &[u8], out: &mut [u8], answer: &mut [u32; 1]) -> u32
    ensures { written_by result answer.new out.new ≡ narrow_sheet bytes.now out.old }
{
    give(convert::narrow_class_sheet(bytes, out).map(word), 0, answer)
}

// `sheet::read_unordered_sheet`: the answer word is the number of words filled.
#[unsafe(no_mangle)]
pub extern "C" fn lgt_read_unordered_sheet(
    bytes: &[u8],
    words: &mut [u32],
    answer: &mut [u32; 1],
) -> u32
    ensures { read_by result answer.new words.new ≡ read_unordered_sheet bytes.now words.old }
{
    give(
        sheet::read_unordered_sheet(bytes, words).map(word),
        0,
        answer,
    )
}

// `renumber::renumber_classes`: the answer word is the number of classes.
#[unsafe(no_mangle)]
pub extern "C" fn lgt_renumber_classes(
    set: &mut [u32],
    order: &mut [u32],
    answer: &mut [u32; 1],
) -> u32
    ensures { renumbered_by result answer.new set.new order.new ≡ renumber_def set.old order.old }
{
    give(renumber::renumber_classes(set, order).map(word), 0, answer)
}

// `signatures::number_signatures`: there is no answer word; the set is only read.
#[unsafe(no_mangle)]
pub extern "C" fn lgt_number_signatures(set: &[u32], abi: &[u32], numbers: &mut [u32]) -> u32
    ensures { filled_by result numbers.new ≡ fill_def set.now abi.now numbers.old }
{
    match signatures::number_signatures(set, abi, numbers) {
        Ok(()) => 0,
        Err(refusal) => u32::from(refusal),
    }
}

// `link::link`: the answer words are the table's place and its slots.
#[unsafe(no_mangle)]
pub extern "C" fn lgt_link(
    set: &mut [u32],
    abi: &[u32],
    numbers: &mut [u32],
    class: u32,
    area: &mut [u32],
    stubs: &[u32],
    missing: &mut [u32],
    answer: &mut [u32; 2],
) -> u32
    ensures { linked_by result answer.new set.new area.new missing.new numbers.new
        ≡ link_numbered set.old abi.now numbers.old class area.old stubs.now missing.old }
{
    let linked = link::link(set, abi, numbers, class, area, stubs, missing).map(call_words);
    give(linked, 0, answer)
}

// `missing::missing_slots`: the answer word is the count.
#[unsafe(no_mangle)]
pub extern "C" fn lgt_missing_slots(
    set: &[u32],
    abi: &[u32],
    missing: &[u32],
    class: u32,
    answer: &mut [u32; 1],
) -> u32
    ensures { counted_by result answer.new ≡ missing_def set.now abi.now missing.now class }
{
    give(
        missing::missing_slots(set, abi, missing, class).map(word),
        0,
        answer,
    )
}

// `ask::interface_dispatch_table`: the answer words are the interface table's place and the nodes read; the set and the list of numbers are only read.
#[unsafe(no_mangle)]
pub extern "C" fn lgt_interface_dispatch_table(
    set: &[u32],
    abi: &[u32],
    numbers: &[u32],
    class: u32,
    interface: u32,
    area: &mut [u32],
    stubs: &[u32],
    answer: &mut [u32; 2],
) -> u32
    ensures { called result answer.new set.now area.new ≡ ask_numbered set.now abi.now numbers.now class interface area.old stubs.now }
{
    let table = ask::interface_dispatch_table(set, abi, numbers, class, interface, area, stubs);
    give(table.map(call_words), 0, answer)
}

// `descriptor::argument_words`: the answer word is their number.
#[unsafe(no_mangle)]
pub extern "C" fn lgt_argument_words(descriptor: &[u8], flags: u32, answer: &mut [u64; 1]) -> u32
    ensures { arguments_by result answer.new ≡ argument_answer descriptor.now flags }
{
    give(
        descriptor::argument_words(descriptor, flags).map(word),
        0,
        answer,
    )
}

// `text::compare`: the answer words are 1 for the same names and 0 for others, and the pairs of bytes read. Nothing is refused. The papers give no numbers for
// same and other: 1 and 0 are our choice.
#[unsafe(no_mangle)]
#[tactic(auto, unfolding(crate::specs::Exported::compare_names))]
pub extern "C" fn lgt_compare_names(a: &[u8], b: &[u8], answer: &mut [u64; 2]) -> u32
    ensures { compared_by result answer.new ≡ compare_names a.now b.now }
{
    let c = text::compare(a, b);
    *answer = [u64::from(c.same), c.pairs as u64];
    0
}

// `references::reference_words`: the answer word is the count, the list's front holds the marked words.
#[unsafe(no_mangle)]
pub extern "C" fn lgt_reference_words(
    bitmap: &[u8],
    words: u32,
    list: &mut [u32],
    answer: &mut [u32; 1],
) -> u32
    ensures { references_by result answer.new list.new ≡ read_references bitmap.now words list.old }
{
    give(
        references::reference_words(bitmap, words, list).map(word),
        0,
        answer,
    )
}

// `references::reference_count`: the answer word is the count.
#[unsafe(no_mangle)]
pub extern "C" fn lgt_reference_count(bitmap: &[u8], words: u32, answer: &mut [u32; 1]) -> u32
    ensures { references_by result answer.new [] ≡ count_references bitmap.now words }
{
    give(
        references::reference_count(bitmap, words).map(word),
        0,
        answer,
    )
}

// `class_file::read_class_file`: the answer words are the lengths of the class's and of the parent's name, the flags, and how many fields,
// methods and text bytes there are.
#[unsafe(no_mangle)]
pub extern "C" fn lgt_read_class_file(
    bytes: &[u8],
    targets: &[u32],
    fields: &mut [u32],
    methods: &mut [u32],
    text: &mut [u32],
    answer: &mut [u32; 6],
) -> u32
    ensures { file_by result answer.new fields.new methods.new text.new ≡ read_class_file bytes.now targets.now fields.old methods.old text.old }
{
    let head = class_file::read_class_file(bytes, targets, fields, methods, text);
    give(head.map(FileHead::words), 0, answer)
}

// `class_file::class_file_head`: the same words without lists.
#[unsafe(no_mangle)]
pub extern "C" fn lgt_class_file_head(bytes: &[u8], answer: &mut [u32; 6]) -> u32
    ensures { file_by result answer.new [] [] [] ≡ class_file_head bytes.now }
{
    give(
        class_file::class_file_head(bytes).map(FileHead::words),
        0,
        answer,
    )
}
