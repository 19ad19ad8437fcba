// Field words (field.rs, `new`, `patch_declared_instance_field_word_indices`): the word indices of a class's fields, its instance
// words and static words, and the ABI fields that are added to it.
#![tactic(auto)]

ghost use Rattle.std.specs.Prelude.{◌≡◌, ◌+◌, ◌-◌, ◌%◌, ◌^◌, ◌<◌, ◌≤◌, ◌||◌, [], ◌∷◌, ◌++◌, length, take, ◌==◌, IfErr};
ghost use Rattle.abi_sheet.specs.AbiSheet.{abi_field_descriptor};
ghost use Rattle.descriptor.specs.Words.{width};
ghost use Rattle.words.specs.Lists.{fold};
ghost use Rattle.class_sheet.specs.ClassSheet.{field_flags, field_index, field_limit};
ghost use Rattle.linking.specs.Chain.{on_found, own_fields, chain, is_static};
ghost use Rattle.linking.specs.Abi.{given_words, fixed_field_index};
ghost use Rattle.linking.specs.Fields.{below_zero, field_width, instance_words, runtime_end, own_runtime, number_fields, declares_field, added_fields, raised, static_words, stand_from, moved_index, indices_plus};
ghost use Rattle.field.specs.Numbers.{below_of, counting, first_numbering, declared_by, fixed_by, Fits, Movable, undeclared, members_of, given_or, added_to, by_row, with_fields, no_fields, numbering_of, add_words, built_fields, generated_fields};
ghost use Rattle.linking.specs.Sheets.{of_sheets};

use growth::{Member, Named, News};
use linking::Sheets;
use refusal::Refusal;
use words::BoundedList;

// How many fields a class has at most.
const FIELDS: usize = class_sheet::FIELD_LIMIT as usize;

// What the next indices count from: static words, runtime words and the running word.
#[derive(Clone, Copy)]
struct Counters {
    statics: u32,
    runtime: u32,
    running: u32,
}

// What a class's fields come to: the indices of its own fields, and its instance words.
#[derive(Drop)]
pub struct Numbered {
    pub indices: BoundedList<u32, FIELDS>,
    pub words: u32,
}

impl Numbered {
    // No fields, and no instance words.
    pub fn new() -> Numbered
        ensures { result ≡ no_fields }
    {
        Numbered {
            indices: BoundedList::new(),
            words: 0,
        }
    }

    // So again, whatever they were.
    pub fn clear(&mut self)
        ensures { self.new ≡ no_fields }
    {
        self.indices.clear();
        self.words = 0;
    }
}

// The u32 read as signed: its magnitude where it is below zero, from 2^31 on, and none where it is not.
fn as_signed(i: u32) -> Option<u32>
    ensures { result ≡ below_of i }
{
    if 2147483648 <= i {
        return Some(0u32.wrapping_sub(i));
    }
    None
}

// The negative index that wraps below zero.
fn below_zero(runtime: u32) -> u32
    requires { runtime + 1 < 2 ^ 32 }
    ensures { result ≡ below_zero runtime }
{
    0u32.wrapping_sub(runtime + 1)
}

// Whether field f is static.
fn is_static(ws: &[u32], f: u32) -> bool
    ensures { result ≡ is_static (field_flags ws.now f) }
{
    class_sheet::is_static(class_sheet::field_flags(ws, f))
}

// How many words field f takes.
#[tactic(auto, using(crate::proofs::RuntimeLaws::width_room))]
fn field_width(ws: &[u32], text: &[u8], f: u32) -> u32
    ensures is { result ≡ field_width ws.now text.now f }
    ensures small { result ≤ 2 }
{
    descriptor::width(class_sheet::field_descriptor(ws, text, f))
}

// How many instance words class c has, at most 65,535.
fn instance_words(ws: &[u32], c: u32) -> u32
    ensures { result ≡ instance_words ws.now c }
{
    class_sheet::class_instance_words(ws, c).min(65535)
}

// Where the runtime words of field f end: of an index below zero its magnitude minus 1 plus its width; else 0.
#[tactic(auto, using(crate::proofs::RuntimeLaws::end_static, crate::proofs::RuntimeLaws::end_negative, crate::proofs::RuntimeLaws::end_nonnegative))]
fn runtime_end(ws: &[u32], text: &[u8], f: u32) -> u32
    ensures { result ≡ runtime_end ws.now text.now f }
{
    if is_static(ws, f) {
        return 0;
    }
    match as_signed(class_sheet::field_index(ws, f)) {
        Some(m) => m - 1 + field_width(ws, text, f),
        None => 0,
    }
}

// The largest such end over class c's fields, and at least the one before.
fn own_runtime(ws: &[u32], text: &[u8], c: u32, before: u32) -> u32
    ensures { result ≡ own_runtime ws.now text.now before c }
{
    let first = class_sheet::class_first_field(ws, c);
    (first..first + chain::field_count(ws, c)).fold(
        before,
        |end, f| end.max(runtime_end(ws, text, f)),
    )
}

// The same over class c and its ancestors.
#[tactic(auto, using(crate::proofs::RuntimeLaws::runtime_none, crate::proofs::RuntimeLaws::runtime_up))]
fn runtime_words(ws: &[u32], text: &[u8], c: u32, before: u32) -> u32
    ensures { result ≡ fold (own_runtime ws.now text.now) before (chain ws.now c) }
{
    if c == 0 {
        return before;
    }
    runtime_words(
        ws,
        text,
        chain::parent_of(ws, c),
        own_runtime(ws, text, c, before),
    )
}

// The instance words plus 1 that the ABI entry gives, 0 for none.
fn own_given(abi: &[u32], own: Option<u32>) -> u32
    ensures { result ≡ on_found own (given_words abi.now) 0 }
{
    own.map_or(0, |a| abi::given_words(abi, a))
}

// The ABI field of field f's name and descriptor.
fn fixed_of(sheets: Sheets, own: Option<u32>, f: u32) -> Option<u32>
    ensures { result ≡ of_sheets fixed_by sheets.entry own f }
{
    let signature = class_sheet::field_signature(sheets.set, sheets.text, f);
    abi::fixed_field(sheets.abi, sheets.labels, signature, own?)
}

// What class c's own fields count from: no static words, the runtime words of its parent's chain, and its parent's instance words.
#[tactic(auto, using(crate::proofs::RuntimeLaws::runtime_room), unfolding(crate::specs::Numbers::first_numbering, linking::specs::Fields::runtime_words))]
fn first_counters(ws: &[u32], text: &[u8], c: u32) -> Counters
    ensures is { counting [] result ≡ first_numbering ws.now text.now c }
    ensures small { (result.statics ≡ 0) × (result.runtime ≤ 2147483649) × (result.running ≤ 65535) }
{
    let parent = chain::parent_of(ws, c);
    let running = if parent == 0 {
        0
    } else {
        instance_words(ws, parent)
    };
    Counters {
        statics: 0,
        runtime: runtime_words(ws, text, parent, 0),
        running,
    }
}

// Lists the indices of class c's own fields, and answers the counters after them. A static field counts from the static words; an instance
// field has its fixed index, or else is below zero, if the ABI gives instance words, or else counts from the running word.
#[tactic(auto, unfolding(linking::specs::Abi::fixed_field_index))]
fn number_fields(
    sheets: Sheets,
    own: Option<u32>,
    c: u32,
    indices: &mut BoundedList<u32, FIELDS>,
) -> Counters
    ensures { counting indices.new result ≡ of_sheets number_fields sheets.entry own c }
{
    let first = class_sheet::class_first_field(sheets.set, c);
    let end = first + chain::field_count(sheets.set, c);
    let mut k = first_counters(sheets.set, sheets.text, c);
    indices.clear();
    for f in first..end {
        let w = field_width(sheets.set, sheets.text, f);
        let index;
        if is_static(sheets.set, f) {
            index = k.statics;
            k.statics += w;
        } else if let Some(g) = fixed_of(sheets, own, f) {
            index = abi::fixed_field_index(sheets.abi, g);
            k.running = k.running.max(index + w);
        } else if own_given(sheets.abi, own) == 0 {
            index = k.running;
            k.running += w;
        } else {
            index = below_zero(k.runtime);
            k.runtime += w;
        }
        indices.push(index);
    }
    k
}

// Whether field f is an instance field of ABI field g's name and descriptor.
#[tactic(auto, unfolding(crate::specs::Numbers::declared_by))]
fn declares(sheets: Sheets, f: u32, g: u32) -> bool
    ensures { result ≡ of_sheets declared_by sheets.entry g f }
{
    !is_static(sheets.set, f)
        & abi::field_is(
            sheets.abi,
            sheets.labels,
            g,
            class_sheet::field_signature(sheets.set, sheets.text, f),
        )
}

// Whether an instance field of class c matches ABI field g.
fn declares_field(sheets: Sheets, c: u32, g: u32) -> bool
    ensures { result ≡ of_sheets declares_field sheets.entry c g }
{
    let first = class_sheet::class_first_field(sheets.set, c);
    words::some_in(first, first + chain::field_count(sheets.set, c), |f| {
        declares(sheets, f, g)
    })
}

// Where the words of ABI field g end.
#[tactic(auto, using(crate::proofs::RuntimeLaws::width_room), unfolding(linking::specs::Abi::fixed_field_index))]
fn field_end(abi: &[u32], labels: &[u8], g: u32) -> u32
    ensures { result ≡ fixed_field_index abi.now g + width (abi_field_descriptor abi.now labels.now g) }
{
    abi::fixed_field_index(abi, g) + descriptor::width(abi_sheet::field_descriptor(abi, labels, g))
}

// Adds ABI field g as a new member, which it names, with flags 2 and its fixed index, unless an instance field of class c matches it, and
// answers the running word, raised to the end of an added one.
#[tactic(auto, using(crate::proofs::AddedLaws::field_matched, crate::proofs::AddedLaws::field_added, crate::proofs::AddedLaws::word_matched, crate::proofs::AddedLaws::word_added))]
fn add_field(sheets: Sheets, c: u32, g: u32, running: u32, news: &mut News) -> u32
    requires { length news.old < 1024 }
    ensures news { news.new ≡ news.old ++ members_of sheets.entry.abi.now (of_sheets undeclared sheets.entry c g) }
    ensures word { result ≡ raised sheets.entry.abi.now sheets.entry.labels.now running (of_sheets undeclared sheets.entry c g) }
{
    if declares_field(sheets, c, g) {
        return running;
    }
    news.push(Member {
        names: Named::Field(g),
        flags: 2,
        last: abi::fixed_field_index(sheets.abi, g),
    });
    running.max(field_end(sheets.abi, sheets.labels, g))
}

// The new members are then the fields of the class's ABI entry that no instance field of class c matches. Answers the running word, raised to
// the end of each.
fn add_fields(sheets: Sheets, own: Option<u32>, c: u32, running: u32, news: &mut News) -> u32
    ensures news { news.new ≡ members_of sheets.entry.abi.now (of_sheets added_fields sheets.entry own c) }
    ensures word { result ≡ raised sheets.entry.abi.now sheets.entry.labels.now running (of_sheets added_fields sheets.entry own c) }
{
    news.clear();
    let Some(a) = own else {
        return running;
    };
    let first = abi_sheet::class_first_field(sheets.abi, a);
    let n = abi::field_count(sheets.abi, a);
    let mut word = running;
    for i in 0..n {
        word = add_field(sheets, c, first + i, word, news);
    }
    word
}

// The instance words of a class whose fields raise the running word to this: the ABI's if given.
fn built_words(abi: &[u32], own: Option<u32>, word: u32) -> u32
    ensures { result ≡ given_or abi.now own word }
{
    let given = own_given(abi, own);
    if given != 0 {
        return given - 1;
    }
    word
}

// Puts what the fields of built class c come to, or refuses by row 10. The new members are then the ABI fields that no instance field of the
// class matches, also where the row refuses; the fields are then none.
pub fn built_fields(
    sheets: Sheets,
    c: u32,
    fields: &mut Numbered,
    news: &mut News,
) -> Result<(), Refusal>
    ensures is { by_row (with_fields result fields.new) ≡ of_sheets built_fields sheets.entry c }
    ensures refused { IfErr result (λ _. fields.new ≡ no_fields) }
    ensures news { news.new ≡ members_of sheets.entry.abi.now (of_sheets added_to sheets.entry c) }
{
    let own = abi::class_abi(sheets, c);
    let k = number_fields(sheets, own, c, &mut fields.indices);
    let word = add_fields(sheets, own, c, k.running, news);
    fields.words = built_words(sheets.abi, own, word);
    if (65535 < fields.words) | (65535 < k.runtime) {
        fields.clear();
        return Err(Refusal::ManyWords);
    }
    Ok(())
}

// The words with those of field f, if it is static, or if it is not.
#[tactic(auto, using(crate::proofs::MovedLaws::same_word), unfolding(linking::specs::Fields::add_static, linking::specs::Fields::add_width))]
fn add_words(ws: &[u32], text: &[u8], statics: bool, n: u32, f: u32) -> u32
    ensures { result ≡ add_words ws.now text.now statics n f % 2 ^ 32 }
{
    if is_static(ws, f) == statics {
        n.wrapping_add(field_width(ws, text, f))
    } else {
        n
    }
}

// How many words class c's own fields take that are static, or that are not.
fn own_words(ws: &[u32], text: &[u8], statics: bool, c: u32) -> u32
    ensures { result ≡ fold (add_words ws.now text.now statics) 0 (own_fields ws.now c) }
{
    let first = class_sheet::class_first_field(ws, c);
    (first..first + chain::field_count(ws, c)).fold(
        0,
        |sum, f| add_words(ws, text, statics, sum, f),
    )
}

// How many words class c's own static fields take: at most 1,024, whatever the words are.
#[tactic(auto, unfolding(linking::specs::Fields::static_words))]
pub fn static_words(ws: &[u32], text: &[u8], c: u32) -> u32
    ensures { result ≡ static_words ws.now text.now c }
{
    own_words(ws, text, true, c)
}

// Whether field f is static or has index `at`.
fn stands_at(ws: &[u32], f: u32, at: u32) -> bool
    ensures { result ≡ (is_static (field_flags ws.now f) || field_index ws.now f == at) }
{
    is_static(ws, f) | (class_sheet::field_index(ws, f) == at)
}

// Whether class c's instance fields stand one after the other from `from` on.
fn stand_from(ws: &[u32], text: &[u8], c: u32, from: u32) -> bool
    requires { from ≤ 65535 }
    ensures { result ≡ stand_from ws.now text.now from (own_fields ws.now c) }
{
    let first = class_sheet::class_first_field(ws, c);
    let end = first + chain::field_count(ws, c);
    let mut at: u32 = from;
    for f in first..end {
        if !stands_at(ws, f, at) {
            return false;
        }
        at = add_words(ws, text, false, at, f);
    }
    true
}

// The index of field f, with the base added, modulo 2^32, if it is an instance field.
#[tactic(auto, using(crate::proofs::MovedLaws::index_static, crate::proofs::MovedLaws::index_moved))]
fn moved_index(ws: &[u32], base: u32, f: u32) -> u32
    ensures { Fits ws.now base f → result ≡ moved_index ws.now base f }
{
    let i = class_sheet::field_index(ws, f);
    if is_static(ws, f) {
        return i;
    }
    base.wrapping_add(i)
}

// Puts the indices of class c's own fields, with the base added to those of its instance fields.
fn put_moved(ws: &[u32], c: u32, base: u32, fields: &mut Numbered)
    requires { Movable ws.now c base }
    ensures { fields.new ≡ numbering_of (indices_plus ws.now base (own_fields ws.now c)) 0 }
{
    let first = class_sheet::class_first_field(ws, c);
    let end = first + chain::field_count(ws, c);
    fields.clear();
    for f in first..end {
        fields.indices.push(moved_index(ws, base, f));
    }
}

// Puts what the fields of generated class c come to: where all are absolute, nothing is written; where all are relative, the base is added; else
// rows 8 and 9 refuse, and the fields are none.
pub fn generated_fields(
    ws: &[u32],
    text: &[u8],
    c: u32,
    fields: &mut Numbered,
) -> Result<(), Refusal>
    ensures is { by_row (with_fields result fields.new) ≡ generated_fields ws.now text.now c }
    ensures refused { IfErr result (λ _. fields.new ≡ no_fields) }
{
    let total = instance_words(ws, c);
    let own = own_words(ws, text, false, c);
    if total < own {
        fields.clear();
        return Err(Refusal::FewWords);
    }
    if stand_from(ws, text, c, total - own) {
        put_moved(ws, c, 0, fields);
        return Ok(());
    }
    if stand_from(ws, text, c, 0) {
        put_moved(ws, c, total - own, fields);
        return Ok(());
    }
    fields.clear();
    Err(Refusal::MixedIndices)
}
