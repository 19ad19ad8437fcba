// Rows 6 and 7 of the table of refusals: the class and the area of a link or an ask.
#![tactic(auto)]

ghost use Rattle.std.specs.Prelude.{◌≡◌, ◌+◌};
ghost use Rattle.words.specs.Folds.{all_of};
ghost use Rattle.class_sheet.specs.ClassSheet.{class_count};
ghost use Rattle.linking.specs.Link.{no_class, is_linked, bad_array, bad_class, ends_below, bad_area};
ghost use Rattle.linking.specs.Ask.{bad_ask};

use class_sheet::Kind;

// Whether c is 0 or above the count.
#[tactic(auto, unfolding(linking::specs::Link::no_class))]
pub fn no_class(ws: &[u32], c: u32) -> bool
    ensures { result ≡ no_class ws.now c }
{
    !(1..=class_sheet::class_count(ws)).contains(&c)
}

// Whether class c has a table.
pub fn is_linked(ws: &[u32], c: u32) -> bool
    ensures { result ≡ is_linked ws.now c }
{
    class_sheet::class_table_place(ws, c) != 0
}

// Whether class c is an array class with members, no parent, or a parent not named java/lang/Object.
#[tactic(auto, unfolding(linking::specs::Link::bad_array))]
fn bad_array(ws: &[u32], text: &[u8], c: u32) -> bool
    ensures { result ≡ bad_array ws.now text.now c }
{
    let parent = chain::parent_of(ws, c);
    let members = (class_sheet::class_method_count(ws, c) != 0)
        | (class_sheet::class_field_count(ws, c) != 0);
    let named = text::same(
        class_sheet::class_name(ws, text, parent),
        b"java/lang/Object",
    );
    class_sheet::has_kind(ws, c, Kind::Array) & (members | (parent == 0) | !named)
}

// Row 6 of a link.
#[tactic(auto, unfolding(linking::specs::Link::bad_class))]
pub fn bad_class(ws: &[u32], text: &[u8], c: u32) -> bool
    ensures { result ≡ bad_class ws.now text.now c }
{
    let parent = chain::parent_of(ws, c);
    let orphan = (parent != 0) & !is_linked(ws, parent);
    no_class(ws, c) | is_linked(ws, c) | orphan | bad_array(ws, text, c)
}

// Row 6 of an ask.
#[tactic(auto, unfolding(linking::specs::Ask::bad_ask))]
pub fn bad_ask(ws: &[u32], c: u32, i: u32) -> bool
    ensures { result ≡ bad_ask ws.now c i }
{
    no_class(ws, c) | no_class(ws, i) | !is_linked(ws, c) | !is_linked(ws, i)
}

// Whether class c has no table, or one whose end does not lie above word 0 of the area.
#[tactic(auto, unfolding(linking::specs::Link::ends_below))]
fn ends_below(ws: &[u32], area: &[u32], c: u32) -> bool
    ensures { result ≡ ends_below ws.now area.now c }
{
    let place = class_sheet::class_table_place(ws, c) as usize;
    let slots = class_sheet::class_slot_count(ws, c) as usize;
    !is_linked(ws, c) | (place + slots + 2 <= (words::get_or(area, 0, 0) as usize))
}

// The same of each class.
fn all_below(ws: &[u32], area: &[u32]) -> bool
    ensures { result ≡ all_of (class_count ws.now) (λ i. ends_below ws.now area.now (i + 1)) }
{
    words::all_up_to(class_sheet::class_count(ws), |c| {
        ends_below(ws, area, c)
    })
}

// Row 7, but for walks.
#[tactic(auto, unfolding(linking::specs::Link::bad_area))]
pub fn bad_area(ws: &[u32], area: &[u32]) -> bool
    ensures { result ≡ bad_area ws.now area.now }
{
    let n = area.len();
    let next = words::get_or(area, 0, 0) as usize;
    (n == 0) | (4294967295 < n) | (next == 0) | (n < next) | !all_below(ws, area)
}
