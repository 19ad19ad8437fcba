// The part of row 4 that holds classes against each other: no two share a name, a method or a field.
#![tactic(auto)]

ghost use Rattle.std.specs.Prelude.{◌≡◌, true, ◌+◌};
ghost use Rattle.words.specs.Folds.{all_of};
ghost use Rattle.class_sheet.specs.ClassSheet.{class_count, class_limit};
ghost use Rattle.apart.specs.Apart.{apart, methods_apart, fields_apart, classes_apart, apart_before};
ghost use Rattle.apart.specs.Seen.{key_step, name_key, new_keys, free_list, marked, free_lists};

use words::BoundedList;

// As many classes as there may be.
const CLASSES: usize = class_sheet::CLASS_LIMIT as usize;

// Whether two lists have no element in common.
#[tactic(auto, unfolding(crate::specs::Apart::apart))]
fn is_apart(f: u32, n: u32, g: u32, m: u32) -> bool
    ensures { result ≡ apart f n g m }
{
    n == 0
        || m == 0
        || f as usize + n as usize <= g as usize
        || g as usize + m as usize <= f as usize
}

// Whether the method lists of classes c and d have no method in common.
#[tactic(auto, unfolding(crate::specs::Apart::methods_apart))]
fn methods_apart(ws: &[u32], c: u32, d: u32) -> bool
    ensures { result ≡ methods_apart ws.now c d }
{
    let n = class_sheet::class_method_count(ws, c);
    let m = class_sheet::class_method_count(ws, d);
    is_apart(
        class_sheet::class_first_method(ws, c),
        n,
        class_sheet::class_first_method(ws, d),
        m,
    )
}

// Whether the field lists of classes c and d have no field in common.
#[tactic(auto, unfolding(crate::specs::Apart::fields_apart))]
fn fields_apart(ws: &[u32], c: u32, d: u32) -> bool
    ensures { result ≡ fields_apart ws.now c d }
{
    let n = class_sheet::class_field_count(ws, c);
    let m = class_sheet::class_field_count(ws, d);
    is_apart(
        class_sheet::class_first_field(ws, c),
        n,
        class_sheet::class_first_field(ws, d),
        m,
    )
}

// Whether classes c and d have different names, and no method and no field in common.
#[tactic(auto, unfolding(crate::specs::Apart::classes_apart))]
fn classes_apart(ws: &[u32], text: &[u8], c: u32, d: u32) -> bool
    ensures { result ≡ classes_apart ws.now text.now c d }
{
    let name = class_sheet::class_name(ws, text, c);
    !text::same(name, class_sheet::class_name(ws, text, d))
        && methods_apart(ws, c, d)
        && fields_apart(ws, c, d)
}

// Whether class d is apart from each class before it.
fn apart_before(ws: &[u32], text: &[u8], d: u32) -> bool
    ensures { result ≡ apart_before ws.now text.now d }
{
    words::all_up_to(d.saturating_sub(1), |c| classes_apart(ws, text, c, d))
}

// Whether each class is apart from each before it, pair by pair.
fn each_apart(ws: &[u32], text: &[u8]) -> bool
    ensures { result ≡ all_of (class_count ws.now) (λ i. apart_before ws.now text.now (i + 1)) }
{
    words::all_up_to(class_sheet::class_count(ws), |c| apart_before(ws, text, c))
}

// The key after one byte more.
#[tactic(auto, unfolding(crate::specs::Seen::key_step))]
fn key_step(key: u32, b: u8) -> u32
    ensures { result ≡ key_step key b }
{
    key.wrapping_mul(16777619).wrapping_add(b as u32)
}

// A number that a name's bytes give: names with different keys are different.
fn name_key(name: &[u8]) -> u32
    ensures { result ≡ name_key name.now }
{
    name.iter().fold(0, |key, b| key_step(key, *b))
}

// Whether the classes are no more than there may be, and the keys of no two are the same.
fn new_keys(ws: &[u32], text: &[u8]) -> bool
    ensures { result ≡ new_keys ws.now text.now class_limit }
{
    let n = class_sheet::class_count(ws);
    if class_sheet::CLASS_LIMIT < n {
        return false;
    }
    let mut keys = BoundedList::<u32, CLASSES>::new();
    for c in 1..=n {
        let key = name_key(class_sheet::class_name(ws, text, c));
        if keys.as_slice().contains(&key) {
            return false;
        }
        keys.push(key);
    }
    true
}

// Marks the n elements from `first` on; answers whether all of them have marks and none was marked before. It stops at one that was.
fn mark_list(marks: &mut [bool], first: u32, n: u32) -> bool
    ensures is { result ≡ free_list marks.old first n }
    ensures marks { result ≡ true → marks.new ≡ marked marks.old first n }
{
    let start = first as usize;
    let count = n as usize;
    if marks.len() < start + count {
        return false;
    }
    for mark in &mut marks[start..start + count] {
        if *mark {
            return false;
        }
        *mark = true;
    }
    true
}

// Whether no method and no field is in the lists of two classes: each class marks its own, and finds none of them marked.
fn free_lists(ws: &[u32], methods: &mut [bool], fields: &mut [bool]) -> bool
    ensures { result ≡ free_lists ws.now methods.old fields.old }
{
    for c in 1..=class_sheet::class_count(ws) {
        let first_method = class_sheet::class_first_method(ws, c);
        let method_count = class_sheet::class_method_count(ws, c);
        let first_field = class_sheet::class_first_field(ws, c);
        let field_count = class_sheet::class_field_count(ws, c);
        let free = mark_list(methods, first_method, method_count)
            & mark_list(fields, first_field, field_count);
        if !free {
            return false;
        }
    }
    true
}

// Whether keys and marks show that each class is apart from each before it. They do not where two names have one key, where a list
// goes past the marks, and where classes are not apart.
fn seen_apart(ws: &[u32], text: &[u8]) -> bool
    ensures { result ≡ true → all_of (class_count ws.now) (λ i. apart_before ws.now text.now (i + 1)) ≡ true }
{
    if !new_keys(ws, text) {
        return false;
    }
    let mut methods = [false; class_sheet::METHOD_LIMIT as usize];
    let mut fields = [false; class_sheet::FIELD_LIMIT as usize];
    free_lists(ws, &mut methods, &mut fields)
}

// Whether each class is apart from each before it: mostly it is seen in one pass, and else the pairs are looked at.
pub fn all_apart(ws: &[u32], text: &[u8]) -> bool
    ensures { result ≡ all_of (class_count ws.now) (λ i. apart_before ws.now text.now (i + 1)) }
{
    seen_apart(ws, text) || each_apart(ws, text)
}
