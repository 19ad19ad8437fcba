// A class's own members, its parents, and searches among its methods. Every function is total: a list that runs past its section's limit is
// cut there, and a parent that is not below its child counts as none.
#![tactic(auto)]

ghost use Rattle.std.specs.Prelude.{◌≡◌, get_or, eqb};
ghost use Rattle.words.specs.Lists.{find};
ghost use Rattle.class_sheet.specs.ClassSheet.{member_width, method_limit, field_limit, interface_limit, target_word, class_first_method, class_method_count, class_first_field, class_field_count, class_first_interface, class_interface_count};
ghost use Rattle.linking.specs.Signature.{methods_same, by_numbers};
ghost use Rattle.linking.specs.Chain.{list_count, own_methods, parent_of, is_virtual, is_eligible, eligible};
ghost use Rattle.chain.specs.Records.{method_records, record_word, record_is};
ghost use Rattle.text.specs.Signatures.{of_signature};

use text::Signature;

// How many of `count` elements from `first` on lie below the limit.
pub fn list_count(first: u32, count: u32, limit: u32) -> u32
    ensures { result ≡ list_count first count limit }
{
    count.min(limit.saturating_sub(first))
}

// How many methods class c has.
pub fn method_count(ws: &[u32], c: u32) -> u32
    ensures { result ≡ list_count (class_first_method ws.now c) (class_method_count ws.now c) method_limit }
{
    list_count(
        class_sheet::class_first_method(ws, c),
        class_sheet::class_method_count(ws, c),
        class_sheet::METHOD_LIMIT,
    )
}

// How many fields class c has.
pub fn field_count(ws: &[u32], c: u32) -> u32
    ensures { result ≡ list_count (class_first_field ws.now c) (class_field_count ws.now c) field_limit }
{
    list_count(
        class_sheet::class_first_field(ws, c),
        class_sheet::class_field_count(ws, c),
        class_sheet::FIELD_LIMIT,
    )
}

// How many interface words class c has.
pub fn interface_count(ws: &[u32], c: u32) -> u32
    ensures { result ≡ list_count (class_first_interface ws.now c) (class_interface_count ws.now c) interface_limit }
{
    list_count(
        class_sheet::class_first_interface(ws, c),
        class_sheet::class_interface_count(ws, c),
        class_sheet::INTERFACE_LIMIT,
    )
}

// The number of class c's parent, 0 without one.
#[tactic(auto, unfolding(linking::specs::Chain::parent_of))]
pub fn parent_of(ws: &[u32], c: u32) -> u32
    ensures { result ≡ parent_of ws.now c }
{
    let parent = class_sheet::class_parent(ws, c);
    if parent < c { parent } else { 0 }
}

// Whether a method of these flags is neither static nor private.
#[tactic(auto, unfolding(linking::specs::Chain::is_virtual))]
pub fn is_virtual(flags: u32) -> bool
    ensures { result ≡ is_virtual flags }
{
    !class_sheet::is_static(flags) & !class_sheet::is_private(flags)
}

// Whether a method of these flags and this name may take a slot: it is virtual, and its name does not start with `<`.
#[tactic(auto, unfolding(linking::specs::Chain::is_eligible))]
pub fn is_eligible(flags: u32, name: &[u8]) -> bool
    ensures { result ≡ is_eligible flags name.now }
{
    is_virtual(flags) & (words::get_or(name, 0, 0) != b'<')
}

// Whether method m may take a slot.
#[tactic(auto, unfolding(linking::specs::Chain::eligible))]
pub fn eligible(ws: &[u32], text: &[u8], m: u32) -> bool
    ensures { result ≡ eligible ws.now text.now m }
{
    is_eligible(
        class_sheet::method_flags(ws, m),
        class_sheet::method_name(ws, text, m),
    )
}

// The words from the first method record on: a loop over methods takes them once.
#[tactic(auto, using(crate::proofs::RecordLaws::records_are))]
pub fn method_records(ws: &[u32]) -> &[u32]
    ensures { result.now ≡ method_records ws.now }
{
    words::part(ws, class_sheet::methods_at(ws), ws.len())
}

// Whether record m, of records of this width, has this name and descriptor. Most records already differ in the name.
#[tactic(auto, using(text::proofs::Laws::product), unfolding(crate::specs::Records::record_is, crate::specs::Records::record_word))]
pub fn record_is(records: &[u32], width: u32, text: &[u8], m: u32, signature: Signature) -> bool
    ensures { result ≡ of_signature (record_is records.now width text.now m) signature.entry }
{
    let at = (width as usize) * (m as usize);
    text::same(
        text::name_at(
            text,
            words::get_or(records, at, 0),
            words::get_or(records, at + text::NAME_LENGTH, 0),
        ),
        signature.name,
    ) && text::same(
        text::name_at(
            text,
            words::get_or(records, at + text::DESCRIPTOR_START, 0),
            words::get_or(records, at + text::DESCRIPTOR_LENGTH, 0),
        ),
        signature.descriptor,
    )
}

// The target of method record m.
#[tactic(auto, unfolding(crate::specs::Records::record_word))]
pub fn record_target(records: &[u32], m: u32) -> u32
    ensures { result ≡ record_word records.now member_width m target_word }
{
    words::get_or(
        records,
        class_sheet::MEMBER_WIDTH * (m as usize) + class_sheet::TARGET,
        0,
    )
}

// Whether methods k and m have one signature.
#[tactic(auto, unfolding(linking::specs::Signature::methods_same, linking::specs::Signature::by_numbers, linking::specs::Signature::place_number))]
pub fn same_methods(numbers: &[u32], k: u32, m: u32) -> bool
    ensures { result ≡ methods_same (by_numbers numbers.now) k m }
{
    words::get_or(numbers, k as usize, 0) == words::get_or(numbers, m as usize, 0)
}

// Class c's first method of this number, of any flags.
pub fn own_numbered(ws: &[u32], numbers: &[u32], number: u32, c: u32) -> Option<u32>
    ensures { result ≡ find (λ m. eqb (get_or numbers.now m 0) number) (own_methods ws.now c) }
{
    let first = class_sheet::class_first_method(ws, c);
    words::find_in(first, first + method_count(ws, c), |m| {
        words::get_or(numbers, m as usize, 0) == number
    })
}
