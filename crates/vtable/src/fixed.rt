// The fixed indices of the parent's slots. The ABI slots of the chain are gone along once, into a view by the numbers of signatures, in which each
// index is then looked up.

ghost use Rattle.std.specs.Prelude.{◌≡◌};
ghost use Rattle.std.specs.Option.{option_and_then};
ghost use Rattle.reading.specs.Arrays.{method_of};
ghost use Rattle.reading.specs.Tables.{entry, entries};
ghost use Rattle.vtable.specs.Fixed.{slot_fixes, class_fixes, chain_fixes, Adds, View};
ghost use Rattle.vtable.specs.Relay.{fixed_in, Indices};

use linking::Sheets;
use reading::{ReadTable, Slot, TABLE_LIMIT};

// How many numbers the signatures have that a filled list tells apart.
const NUMBERS: usize = (class_sheet::METHOD_LIMIT + abi_sheet::SLOT_LIMIT) as usize;

// Adds the index that ABI slot s fixes, if its signature has none.
#[tactic(auto, using(crate::proofs::FixedLaws::slot_kept, crate::proofs::FixedLaws::slot_added))]
fn add_slot(abi: &[u32], numbers: &[u32], s: u32, view: &mut [u32; NUMBERS])
    ensures { Adds (slot_fixes numbers.now abi.now s) view.old view.new }
{
    let number = abi::slot_number(numbers, s) as usize;
    let held = reading::method_of(words::get_or(view, number, 0));
    if held.is_none() {
        let mark = reading::mark_of(Some(abi::slot_index(abi, s)));
        words::put(view, number, mark);
    }
}

// Adds those of ABI class a's slots, in their order.
fn add_class(abi: &[u32], numbers: &[u32], a: u32, view: &mut [u32; NUMBERS])
    ensures { Adds (class_fixes numbers.now abi.now a) view.old view.new }
{
    let first = abi_sheet::class_first_slot(abi, a);
    let count = abi::slot_count(abi, a);
    for s in first..first + count {
        add_slot(abi, numbers, s, view);
    }
}

// Adds those of the ABI classes, nearest first.
fn add_classes(sheets: Sheets, abis: &[u32], view: &mut [u32; NUMBERS])
    ensures { Adds (chain_fixes sheets.entry.numbers.now sheets.entry.abi.now abis.now) view.old view.new }
{
    for &a in abis {
        add_class(sheets.abi, sheets.numbers, a, view);
    }
}

// The mark of method m's fixed index, by the view or, for a number of a list that is not filled, by a search.
#[tactic(auto, using(crate::proofs::FixedLaws::index_viewed, crate::proofs::RelayLaws::index_back))]
fn method_mark(sheets: Sheets, abis: &[u32], view: &[u32; NUMBERS], m: u32) -> u32
    requires { View sheets abis.now view.now }
    ensures { method_of result ≡ fixed_in sheets.entry abis.now m }
{
    let number = words::get_or(sheets.numbers, m as usize, 0) as usize;
    if number < NUMBERS {
        return view[number];
    }
    reading::mark_of(abi::fixed_of(sheets, abis, m))
}

// The mark of the fixed index of a slot's method.
#[tactic(auto, using(reading::proofs::ArrayLaws::no_method))]
fn slot_mark(sheets: Sheets, abis: &[u32], view: &[u32; NUMBERS], slot: Slot) -> u32
    requires { View sheets abis.now view.now }
    ensures { method_of result ≡ option_and_then (fixed_in sheets.entry abis.now) (entry slot).method }
{
    match slot.method() {
        Some(m) => method_mark(sheets, abis, view, m),
        None => 0,
    }
}

// Fills an array with the fixed indices of the parent's slots.
pub fn fixed_marks(sheets: Sheets, abis: &[u32], parent: &ReadTable, at: &mut [u32; TABLE_LIMIT])
    ensures { Indices (fixed_in sheets.entry abis.now) (entries parent.now) at.new }
{
    let mut view = [0u32; NUMBERS];
    add_classes(sheets, abis, &mut view);
    for i in 0..parent.len {
        at[i as usize] = slot_mark(sheets, abis, &view, parent.slot(i));
    }
}
