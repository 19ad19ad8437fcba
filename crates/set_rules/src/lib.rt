// Row 5 of the table of refusals for both sheets, and rows 3 to 5 as a link or an ask applies them to words already read.
#![tactic(auto)]

ghost use Rattle.std.specs.Prelude.{◌≡◌, ◌^◌, ◌≤◌, ◌<◌, Bool};
ghost use Rattle.refusal.specs.Rows.{row_of};
ghost use Rattle.words.specs.Folds.{all_of};
ghost use Rattle.text.specs.Text.{name_at};
ghost use Rattle.class_sheet.specs.ClassSheet.{member_width, text_length, text_limit, text_of};
ghost use Rattle.set_rules.specs.Known.{is_descriptor, is_known, Known, record_typed};
ghost use Rattle.set_rules.specs.SetRules.{judged, class_descriptors, abi_descriptors, class_refusal, abi_refusal, set_fits, records_refusal, set_refusal};

use refusal::Refusal;

// The most bytes that a text has, and so where its parts may start. Many records share a descriptor: `known`, a byte for each start, has one
// more than the length of a part that starts there and was found to be a descriptor for every record of the kind, so that it is read but
// once.
const STARTS: usize = class_sheet::TEXT_LIMIT as usize;

// The kinds of records with descriptors: methods of a class sheet, slots of an ABI sheet, and fields of either.
#[derive(Clone, Copy)]
enum Members {
    Methods,
    Slots,
    Fields,
}

// Whether the bytes are a descriptor for a record of the kind whose number, its fifth word, is n: of a method n is the flags, and a slot
// counts as an instance method, whatever its index.
#[tactic(auto, unfolding(crate::specs::Known::is_descriptor))]
fn is_descriptor(kind: Members, n: u32, s: &[u8]) -> bool
    ensures { result ≡ is_descriptor kind n s.now }
{
    match kind {
        Members::Methods => descriptor::is_method(s, n),
        Members::Slots => descriptor::is_method(s, 0),
        Members::Fields => descriptor::is_field_descriptor(s),
    }
}

// Whether `known` has, at the part's start, one more than its length.
#[tactic(auto, unfolding(crate::specs::Known::is_known))]
fn is_known(known: &[u8], start: u32, len: u32) -> bool
    ensures { result ≡ is_known known.now start len }
{
    words::get_or(known, start as usize, 0) as usize == (len as usize) + 1
}

// Whether the part of the text is a descriptor for a record whose number is n. It is read only where it is not known to be one; a
// descriptor of up to 254 bytes that is good for an instance method, and so for any, is known from then on.
fn part_typed(kind: Members, n: u32, text: &[u8], start: u32, len: u32, known: &mut [u8]) -> bool
    requires { Known kind text.now known.old }
    ensures is { result ≡ is_descriptor kind n (name_at text.now start len) }
    ensures kept { Known kind text.now known.new }
{
    if is_known(known, start, len) {
        return true;
    }
    if !is_descriptor(kind, 0, text::name_at(text, start, len)) {
        return is_descriptor(kind, n, text::name_at(text, start, len));
    }
    if len < 255 {
        words::put(known, start as usize, len as u8 + 1);
    }
    true
}

// Whether each of n records from word `first` on has a descriptor. One that ends past the words has none: its length is 0.
fn records_typed(kind: Members, ws: &[u32], first: usize, width: usize, n: u32, text: &[u8]) -> bool
    requires { (first < 2 ^ 38) × (width ≤ member_width) }
    ensures { result ≡ all_of n (record_typed kind ws.now first width text.now) }
{
    let mut known = [0u8; STARTS];
    for i in 0..n {
        let at = first + width * i as usize;
        if ws.len() <= at + text::DESCRIPTOR_LENGTH {
            return false;
        }
        let start = ws[at + text::DESCRIPTOR_START];
        let len = ws[at + text::DESCRIPTOR_LENGTH];
        let number = words::get_or(ws, at + text::NUMBER, 0);
        if !part_typed(kind, number, text, start, len, &mut known) {
            return false;
        }
    }
    true
}

// Row 5 for a class sheet.
#[tactic(auto, using(crate::proofs::KnownLaws::class_typed))]
fn class_descriptors_ok(ws: &[u32], text: &[u8]) -> bool
    ensures { result ≡ class_descriptors ws.now text.now }
{
    let methods = class_sheet::methods_at(ws);
    let count = class_sheet::method_count(ws);
    let methods_ok = records_typed(
        Members::Methods,
        ws,
        methods,
        class_sheet::MEMBER_WIDTH,
        count,
        text,
    );
    let fields = class_sheet::fields_at(ws);
    let count = class_sheet::field_count(ws);
    methods_ok
        & records_typed(
            Members::Fields,
            ws,
            fields,
            class_sheet::MEMBER_WIDTH,
            count,
            text,
        )
}

// Row 5 for an ABI sheet.
#[tactic(auto, using(crate::proofs::KnownLaws::abi_typed))]
fn abi_descriptors_ok(abi: &[u32], text: &[u8]) -> bool
    ensures { result ≡ abi_descriptors abi.now text.now }
{
    let slots = abi_sheet::slots_at(abi);
    let count = abi_sheet::slot_count(abi);
    let slots_ok = records_typed(
        Members::Slots,
        abi,
        slots,
        abi_sheet::MEMBER_WIDTH,
        count,
        text,
    );
    let fields = abi_sheet::fields_at(abi);
    let count = abi_sheet::field_count(abi);
    slots_ok
        & records_typed(
            Members::Fields,
            abi,
            fields,
            abi_sheet::MEMBER_WIDTH,
            count,
            text,
        )
}

// Row 4 where the records are not in order, else row 5 where their descriptors are not, which are read only then.
#[tactic(auto, unfolding(crate::specs::SetRules::judged))]
fn judged<F: Fn() -> bool>(records: bool, typed: F) -> Result<(), Refusal>
    requires { F.IsAlwaysCallable typed }
    ensures { (t : Bool) → ((r : Bool) → F.post typed r → r ≡ t) → row_of result ≡ judged records t }
{
    if !records {
        return Err(Refusal::Record);
    }
    if !typed() {
        return Err(Refusal::Descriptor);
    }
    Ok(())
}

// Rows 4 and 5 for a class sheet.
pub fn class_refusal(ws: &[u32], text: &[u8]) -> Result<(), Refusal>
    ensures { row_of result ≡ class_refusal ws.now text.now }
{
    judged(
        class_rules::records_ok(ws, text),
        || class_descriptors_ok(ws, text),
    )
}

// The same for words whose text is to be unpacked.
pub fn unpacked_refusal(ws: &[u32]) -> Result<(), Refusal>
    ensures { text_length ws.now ≤ text_limit → row_of result ≡ class_refusal ws.now (text_of ws.now) }
{
    let mut room = [0u8; class_sheet::TEXT_LIMIT as usize];
    class_refusal(ws, class_sheet::text_bytes(ws, &mut room))
}

// Rows 4 and 5 for an ABI sheet.
pub fn abi_refusal(abi: &[u32], text: &[u8]) -> Result<(), Refusal>
    ensures { row_of result ≡ abi_refusal abi.now text.now }
{
    judged(
        abi_rules::records_ok(abi, text),
        || abi_descriptors_ok(abi, text),
    )
}

// Row 3 of a link or an ask, over both sheets.
#[tactic(auto, unfolding(crate::specs::SetRules::set_fits))]
pub fn set_fits(ws: &[u32], abi: &[u32]) -> bool
    ensures { result ≡ set_fits ws.now abi.now }
{
    class_rules::fits_ok(ws) & abi_rules::fits_ok(abi)
}

// Rows 4 and 5 of a link or an ask, over both sheets and their texts.
pub fn records_refusal(ws: &[u32], text: &[u8], abi: &[u32], labels: &[u8]) -> Result<(), Refusal>
    ensures { row_of result ≡ records_refusal ws.now text.now abi.now labels.now }
{
    judged(
        class_rules::records_ok(ws, text) & abi_rules::records_ok(abi, labels),
        || class_descriptors_ok(ws, text) & abi_descriptors_ok(abi, labels),
    )
}

// Rows 3, 4 and 5 of a link or an ask.
pub fn set_refusal(ws: &[u32], abi: &[u32]) -> Result<(), Refusal>
    ensures { row_of result ≡ set_refusal ws.now abi.now }
{
    if !set_fits(ws, abi) {
        return Err(Refusal::Form);
    }
    let mut room = [0u8; class_sheet::TEXT_LIMIT as usize];
    let text = class_sheet::text_bytes(ws, &mut room);
    let mut label_room = [0u8; abi_sheet::TEXT_LIMIT as usize];
    let labels = abi_sheet::text_bytes(abi, &mut label_room);
    records_refusal(ws, text, abi, labels)
}
