// Rows 3 and 4 of the table of refusals, for the words of a class sheet.
#![tactic(auto)]

ghost use Rattle.std.specs.Prelude.{◌≡◌, ◌+◌, ◌<◌, ◌^◌};
ghost use Rattle.words.specs.Folds.{all_of};
ghost use Rattle.class_sheet.specs.ClassSheet.{class_count, method_count, field_count, interface_count, methods_at};
ghost use Rattle.class_rules.specs.ClassRules.{class_limits, class_fits, unlinked, statics_clean, fresh, all_fresh, class_form, compiler_ok, class_numbers, class_lists, class_record, method_flags_ok, method_record, field_record, interface_names, class_records};

use class_sheet::Kind;
use text::Seen;

// The words of a method record, and of a field record.
const MEMBER_WIDTH: u32 = class_sheet::MEMBER_WIDTH as u32;

// Whether each count is within its limit.
#[tactic(auto, unfolding(crate::specs::ClassRules::class_limits))]
pub fn limits_ok(ws: &[u32]) -> bool
    ensures { result ≡ class_limits ws.now }
{
    (class_sheet::class_count(ws) <= class_sheet::CLASS_LIMIT)
        & (class_sheet::method_count(ws) <= class_sheet::METHOD_LIMIT)
        & (class_sheet::field_count(ws) <= class_sheet::FIELD_LIMIT)
        & (class_sheet::interface_count(ws) <= class_sheet::INTERFACE_LIMIT)
        & (class_sheet::compiler_count(ws) <= class_sheet::COMPILER_LIMIT)
        & (class_sheet::text_length(ws) <= class_sheet::TEXT_LIMIT)
}

// Row 3 of a link or an ask: whether the counts are within their limits and the content fits the slice.
#[tactic(auto, unfolding(crate::specs::ClassRules::class_fits))]
pub fn fits_ok(ws: &[u32]) -> bool
    ensures { result ≡ class_fits ws.now }
{
    limits_ok(ws) & (class_sheet::content_end(ws) <= ws.len())
}

// Whether class c has table place and slot count 0.
#[tactic(auto, unfolding(crate::specs::ClassRules::unlinked))]
fn is_unlinked(ws: &[u32], c: u32) -> bool
    ensures { result ≡ unlinked ws.now c }
{
    (class_sheet::class_table_place(ws, c) == 0) & (class_sheet::class_slot_count(ws, c) == 0)
}

// Whether class c, if built or an array class, has no static words.
#[tactic(auto, unfolding(crate::specs::ClassRules::statics_clean))]
fn statics_clean(ws: &[u32], c: u32) -> bool
    ensures { result ≡ statics_clean ws.now c }
{
    (class_sheet::class_static_words(ws, c) == 0)
        | !(class_sheet::is_built(ws, c) | class_sheet::has_kind(ws, c, Kind::Array))
}

// Whether class c has what a sheet may bring: no table, and no static words that a link would write.
#[tactic(auto, unfolding(crate::specs::ClassRules::fresh))]
fn is_fresh(ws: &[u32], c: u32) -> bool
    ensures { result ≡ fresh ws.now c }
{
    is_unlinked(ws, c) & statics_clean(ws, c)
}

// The same of each class.
pub fn all_fresh(ws: &[u32]) -> bool
    ensures { result ≡ all_fresh ws.now }
{
    words::all_up_to(class_sheet::class_count(ws), |c| is_fresh(ws, c))
}

// Row 3 of a reading, for the words of whole blocks.
#[tactic(auto, unfolding(crate::specs::ClassRules::class_form))]
pub fn form_ok(ws: &[u32]) -> bool
    ensures { result ≡ class_form ws.now }
{
    limits_ok(ws)
        && block::least_fit(class_sheet::content_end(ws), ws.len())
        && text::zero_rest(ws, class_sheet::text_end(ws))
        && all_fresh(ws)
}

// Whether a compiler table, counted from 1, lies inside its section; without one there are no slots.
#[tactic(auto, unfolding(crate::specs::ClassRules::compiler_ok))]
fn compiler_ok(first: u32, slots: u32, total: u32) -> bool
    ensures { result ≡ compiler_ok first slots total }
{
    if first == 0 {
        slots == 0
    } else {
        words::is_inside(first - 1, slots, total)
    }
}

// Whether class c's numbers are within their limits, and its parent is below it.
#[tactic(auto, using(class_sheet::proofs::KindLaws::known_kind), unfolding(crate::specs::ClassRules::class_numbers, crate::specs::ClassRules::own_numbers))]
fn numbers_ok(ws: &[u32], c: u32) -> bool
    ensures { result ≡ class_numbers ws.now c }
{
    (class_sheet::class_flags(ws, c) <= 65535)
        & class_sheet::kind_of(ws, c).is_ok()
        & (class_sheet::class_link_state(ws, c) <= 65535)
        & (class_sheet::class_instance_words(ws, c) <= 65535)
        & (class_sheet::class_compiler_slots(ws, c) <= 1024)
        & ((class_sheet::class_table_place(ws, c) == 0)
            | (class_sheet::class_slot_count(ws, c) <= 1024))
        & (class_sheet::class_parent(ws, c) < c)
}

// Whether the four lists of class c lie inside their sections.
#[tactic(auto, unfolding(crate::specs::ClassRules::class_lists))]
fn lists_ok(ws: &[u32], c: u32) -> bool
    ensures { result ≡ class_lists ws.now c }
{
    let methods = words::is_inside(
        class_sheet::class_first_method(ws, c),
        class_sheet::class_method_count(ws, c),
        class_sheet::method_count(ws),
    );
    let fields = words::is_inside(
        class_sheet::class_first_field(ws, c),
        class_sheet::class_field_count(ws, c),
        class_sheet::field_count(ws),
    );
    let interfaces = words::is_inside(
        class_sheet::class_first_interface(ws, c),
        class_sheet::class_interface_count(ws, c),
        class_sheet::interface_count(ws),
    );
    let compiler = compiler_ok(
        class_sheet::class_compiler_table(ws, c),
        class_sheet::class_compiler_slots(ws, c),
        class_sheet::compiler_count(ws),
    );
    methods & fields & interfaces & compiler
}

// Whether class c's record is in order.
#[tactic(auto, using(text::proofs::Laws::clean_is), unfolding(crate::specs::ClassRules::class_record))]
fn class_ok(ws: &[u32], text: Seen, c: u32) -> bool
    ensures { result ≡ class_record ws.now text.entry.bytes.now c }
{
    let start = class_sheet::class_name_start(ws, c);
    let length = class_sheet::class_name_length(ws, c);
    text::part_clean(text.bytes, text.clean, start, length) & numbers_ok(ws, c) & lists_ok(ws, c)
}

// Whether each class record is in order.
fn classes_ok(ws: &[u32], text: Seen) -> bool
    ensures { result ≡ all_of (class_count ws.now) (λ i. class_record ws.now text.entry.bytes.now (i + 1)) }
{
    words::all_up_to(class_sheet::class_count(ws), |c| class_ok(ws, text, c))
}

// Whether a method's flags lie within 0x1DFF.
#[tactic(auto, using(crate::proofs::Laws::flag_9), unfolding(crate::specs::ClassRules::method_flags_ok))]
pub fn method_flags_ok(flags: u32) -> bool
    ensures { result ≡ method_flags_ok flags }
{
    (flags < 8192) & (flags & 0x0200 == 0)
}

// Whether method m's record is in order; the records begin at `at`.
fn method_ok(ws: &[u32], at: usize, text: Seen, m: u32) -> bool
    requires { (at ≡ methods_at ws.now) × (at < 2 ^ 37) }
    ensures { result ≡ method_record ws.now text.entry.bytes.now m }
{
    let place = at + (MEMBER_WIDTH as usize) * (m as usize);
    if !text::signature_clean(ws, place, text.bytes, text.clean) {
        return false;
    }
    method_flags_ok(words::get_or(ws, place + text::NUMBER, 0))
}

// Whether each method record is in order.
fn methods_ok(ws: &[u32], text: Seen) -> bool
    ensures { result ≡ all_of (method_count ws.now) (method_record ws.now text.entry.bytes.now) }
{
    let at = class_sheet::methods_at(ws);
    words::all_of(
        class_sheet::method_count(ws),
        |m| method_ok(ws, at, text, m),
    )
}

// Whether each field record is in order.
fn fields_ok(ws: &[u32], text: Seen) -> bool
    ensures { result ≡ all_of (field_count ws.now) (field_record ws.now text.entry.bytes.now) }
{
    let at = class_sheet::fields_at(ws);
    let end = ws.len();
    let n = class_sheet::field_count(ws);
    text::members_clean(
        words::part(ws, at, end),
        MEMBER_WIDTH,
        n,
        65535,
        text.bytes,
        text.clean,
    )
}

// Whether interface word i names a class.
#[tactic(auto, unfolding(crate::specs::ClassRules::interface_names))]
fn interface_ok(ws: &[u32], i: u32) -> bool
    ensures { result ≡ interface_names ws.now i }
{
    (1..=class_sheet::class_count(ws)).contains(&class_sheet::interface_word(ws, i))
}

// Whether each interface word names a class.
pub fn interfaces_ok(ws: &[u32]) -> bool
    ensures { result ≡ all_of (interface_count ws.now) (interface_names ws.now) }
{
    words::all_of(class_sheet::interface_count(ws), |i| interface_ok(ws, i))
}

// Row 4, of a reading, a link or an ask.
#[tactic(auto, unfolding(crate::specs::ClassRules::class_records))]
pub fn records_ok(ws: &[u32], text: &[u8]) -> bool
    ensures { result ≡ class_records ws.now text.now }
{
    let seen = text::see(text);
    classes_ok(ws, seen)
        & methods_ok(ws, seen)
        & fields_ok(ws, seen)
        & interfaces_ok(ws)
        & apart::all_apart(ws, text)
}
