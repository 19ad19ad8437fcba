// Virtual tables that are built (vtable.rs): `build_methods`, `build_interface_methods`.
#![tactic(auto)]

ghost use Rattle.std.specs.Prelude.{◌≡◌, ◌≤◌, ◌<◌, ◌+◌, ◌-◌, max, eqb, ltb, true, false, replicate, [], ◌∷◌, ◌++◌, get_or, drop, None, Some};
ghost use Rattle.std.specs.Option.{option_and_then};
ghost use Rattle.class_sheet.specs.ClassSheet.{method_limit};
ghost use Rattle.words.specs.Lists.{keep};
ghost use Rattle.linking.specs.Signature.{Same, of_method, methods_same, by_numbers};
ghost use Rattle.linking.specs.Chain.{on_found, own_methods, eligible};
ghost use Rattle.linking.specs.Abi.{chain_abi};
ghost use Rattle.linking.specs.Vtable.{built, entry_is_other, slot_of, parent_entries, occurs, relayed, extended, inherited_table, put_method, add_method, add_methods, build_methods, method_entries, build_interface_methods, empty};
ghost use Rattle.reading.specs.Arrays.{method_of};
ghost use Rattle.reading.specs.Tables.{entry, entries};
ghost use Rattle.vtable.specs.Relay.{fixed_in, distance_in, found_at, Indices, Holders, Held, place_of, put_place, relays_of};
ghost use Rattle.vtable.specs.Tables.{step_of};
ghost use Rattle.linking.specs.Sheets.{of_sheets, of_numbers};

use linking::Sheets;
use reading::{BuiltTable, ReadTable, Slot, TABLE_LIMIT, Table};
use refusal::Refusal;

mod fixed;

// Where an inherited slot goes in a class with its own ABI entry: to an index, after the last slot, or away.
#[derive(Clone, Copy)]
enum Place {
    At(u32),
    Last,
    Away,
}

// Whether the signature of a slot's method has this number.
fn slot_is(numbers: &[u32], number: u32, slot: Slot) -> bool
    ensures { result ≡ on_found (entry slot).method (λ k. eqb (get_or numbers.now k 0) number) false }
{
    match slot.method() {
        Some(k) => words::get_or(numbers, k as usize, 0) == number,
        None => false,
    }
}

// The table's first slot that has method m's signature.
fn find_slot(numbers: &[u32], m: u32, table: &BuiltTable) -> Option<u32>
    ensures { result ≡ slot_of (by_numbers numbers.now) (of_method m) (entries table.now) }
{
    let number = words::get_or(numbers, m as usize, 0);
    words::find_in(0, table.len, |i| slot_is(numbers, number, table.slot(i)))
}

// Extends the table with empty slots to `size`.
fn extend(table: &mut BuiltTable, size: u32)
    requires { size ≤ 1024 }
    ensures is { entries table.new ≡ entries table.old ++ replicate (size - table.old.len) empty }
    ensures count { table.new.len ≡ max table.old.len size }
{
    for _ in table.len..size {
        table.push(Slot::empty());
    }
}

// Whether method m takes an index that this method holds so far: none holds it, or one whose index comes from an ABI class farther up.
fn takes(sheets: Sheets, abis: &[u32], m: u32, held: Option<u32>) -> bool
    ensures { result ≡ on_found held (λ k. ltb (distance_in sheets.entry abis.now m) (distance_in sheets.entry abis.now k)) true }
{
    match held {
        Some(k) => abi::distance_of(sheets, abis, m) < abi::distance_of(sheets, abis, k),
        None => true,
    }
}

// Gives the index with mark a, a slot's fixed one, to its method, if it takes it.
fn hold_entry(sheets: Sheets, abis: &[u32], slot: Slot, a: u32, holders: &mut [u32; TABLE_LIMIT])
    requires { method_of a ≡ option_and_then (fixed_in sheets abis.now) (entry slot).method }
    ensures { Held (fixed_in sheets.entry abis.now) (distance_in sheets.entry abis.now) (entry slot) holders.old holders.new }
{
    let Some(m) = slot.method() else {
        return;
    };
    let Some(i) = reading::method_of(a) else {
        return;
    };
    let held = reading::method_of(words::get_or(holders, i as usize, 0));
    if takes(sheets, abis, m, held) {
        words::put(holders, i as usize, slot.mark);
    }
}

// Fills an array, at first empty, with the methods that hold the indices, of the parent's slots with the fixed indices `at`.
fn hold_entries(
    sheets: Sheets,
    abis: &[u32],
    parent: &ReadTable,
    at: &[u32; TABLE_LIMIT],
    holders: &mut [u32; TABLE_LIMIT],
)
    requires indices { Indices (fixed_in sheets abis.now) (entries parent.now) at.now }
    requires none { holders.old ≡ replicate 1024 0 }
    ensures { Holders (fixed_in sheets.entry abis.now) (distance_in sheets.entry abis.now) (entries parent.now) holders.new }
{
    for i in 0..parent.len {
        hold_entry(sheets, abis, parent.slot(i), at[i as usize], holders);
    }
}

// Whether method m's signature is that of the method that holds its index.
fn is_held(numbers: &[u32], m: u32, held: Option<u32>) -> bool
    ensures { result ≡ on_found held (λ k. methods_same (by_numbers numbers.now) k m) false }
{
    held.is_some_and(|k| chain::same_methods(numbers, k, m))
}

// Whether method m's signature is that of one of the parent's slots from the first on.
fn occurs(numbers: &[u32], m: u32, parent: &ReadTable, first: u32) -> bool
    ensures { result ≡ occurs (methods_same (by_numbers numbers.now)) m (drop first (entries parent.now)) }
{
    let number = words::get_or(numbers, m as usize, 0);
    words::some_in(first, parent.len, |i| {
        slot_is(numbers, number, parent.slot(i))
    })
}

// Where the parent's slot k goes: to its fixed index, if its signature stays there, or after the last slot; an unknown one goes away, and one of a
// signature that gives way and comes again.
fn place_of(
    numbers: &[u32],
    parent: &ReadTable,
    at: &[u32; TABLE_LIMIT],
    holders: &[u32; TABLE_LIMIT],
    k: u32,
) -> Place
    requires { k < parent.now.len }
    ensures { result
        ≡ place_of (methods_same (by_numbers numbers.now)) (found_at holders.now) (found_at at.now k) (get_or (entries parent.now) k empty).method (drop (k + 1) (entries parent.now)) }
{
    let Some(m) = parent.slot(k).method() else {
        return Place::Away;
    };
    let Some(i) = reading::method_of(at[k as usize]) else {
        return Place::Last;
    };
    let held = reading::method_of(words::get_or(holders, i as usize, 0));
    if is_held(numbers, m, held) {
        return Place::At(i);
    }
    if occurs(numbers, m, parent, k + 1) {
        return Place::Away;
    }
    Place::Last
}

// Puts a slot to its place.
#[tactic(auto, unfolding(crate::specs::Relay::put_place))]
fn relay_entry(place: Place, slot: Slot, table: &mut BuiltTable)
    requires { table.old.len < 3584 }
    ensures is { entries table.new ≡ put_place place (entry slot) (entries table.old) }
    ensures count { table.new.len ≤ table.old.len + 1 }
{
    match place {
        Place::At(i) => table.put(i, slot),
        Place::Last => table.push(slot),
        Place::Away => {}
    }
}

// Puts each of the parent's slots to its place, in their order: who holds each index, and then slot by slot.
fn relay(sheets: Sheets, abis: &[u32], parent: &ReadTable, table: &mut BuiltTable)
    requires { table.old.len ≤ 1024 }
    ensures is { entries table.new ≡ relays_of (by_numbers sheets.entry.numbers.now) sheets.entry.abi.now abis.now (entries parent.now) (entries table.old) }
    ensures count { table.new.len ≤ 2048 }
{
    let mut at = [0u32; TABLE_LIMIT];
    fixed::fixed_marks(sheets, abis, parent, &mut at);
    let mut holders = [0u32; TABLE_LIMIT];
    hold_entries(sheets, abis, parent, &at, &mut holders);
    for i in 0..parent.len {
        let place = place_of(sheets.numbers, parent, &at, &holders, i);
        relay_entry(place, parent.slot(i), table);
    }
}

// Fills the table with the slots of class c's parent, relayed by the ABI classes of the chain. They are read beside the table, where no other
// case needs room for them.
fn relay_parent(sheets: Sheets, area: &[u32], abis: &[u32], c: u32, table: &mut BuiltTable)
    ensures is { entries table.new ≡ relayed (by_numbers sheets.entry.numbers.now) sheets.entry.abi.now abis.now (of_numbers parent_entries sheets.entry area.now c) }
    ensures count { table.new.len ≤ 2048 }
{
    let mut parent = Table::for_reading();
    reading::parent_entries(sheets, area, c, &mut parent);
    table.clear();
    extend(table, abi::largest_size(sheets.abi, abis));
    relay(sheets, abis, &parent, table);
}

// Fills the table with the slots of class c's parent, extended to the minimum size.
fn extend_parent(sheets: Sheets, area: &[u32], abis: &[u32], c: u32, table: &mut BuiltTable)
    ensures is { entries table.new ≡ extended sheets.entry.abi.now abis.now (of_numbers parent_entries sheets.entry area.now c) }
    ensures count { table.new.len ≤ 1024 }
{
    reading::parent_entries(sheets, area, c, table);
    extend(table, abi::largest_size(sheets.abi, abis));
}

// Fills the table with class c's before its own methods.
fn inherited_table(sheets: Sheets, area: &[u32], abis: &[u32], c: u32, table: &mut BuiltTable)
    requires { abis.now ≡ of_sheets chain_abi sheets c }
    ensures is { entries table.new ≡ of_numbers inherited_table sheets.entry area.now c }
    ensures count { table.new.len ≤ 2048 }
{
    match abi::class_abi(sheets, c) {
        Some(_) => relay_parent(sheets, area, abis, c, table),
        None => extend_parent(sheets, area, abis, c, table),
    }
}

// Whether a slot holds a method of another signature than method m's.
#[tactic(auto, unfolding(linking::specs::Vtable::entry_is_other, linking::specs::Signature::methods_same))]
fn holds_other(numbers: &[u32], m: u32, slot: Slot) -> bool
    ensures { result ≡ entry_is_other (by_numbers numbers.now) (of_method m) (entry slot) }
{
    slot.method()
        .is_some_and(|k| !chain::same_methods(numbers, k, m))
}

// Puts method m, whose fixed index is i and whose signature has this slot, at its fixed index.
fn put_fixed(
    ws: &[u32],
    numbers: &[u32],
    m: u32,
    i: u32,
    slot: Option<u32>,
    table: &mut BuiltTable,
) -> Result<(), Refusal>
    requires { m < method_limit }
    ensures is { step_of result (entries table.new) ≡ put_method (by_numbers numbers.now) ws.now (Some i) slot m (entries table.old) }
    ensures count { table.new.len ≡ table.old.len }
{
    if slot.is_some_and(|j| j != i) {
        return Err(Refusal::MovedSlot);
    }
    if holds_other(numbers, m, table.slot(i)) {
        return Err(Refusal::TakenSlot);
    }
    table.put(i, Slot::of_method(ws, m));
    Ok(())
}

// Puts method m, which has no fixed index, at the slot of its signature, or after the table's slots. Nothing is compared.
#[tactic(auto, unfolding(linking::specs::Vtable::put_method))]
fn put_found(ws: &[u32], m: u32, slot: Option<u32>, table: &mut BuiltTable)
    requires { (m < method_limit) × (table.old.len < 3584) }
    ensures is { (same : Same) → built (entries table.new) ≡ put_method same ws.now None slot m (entries table.old) }
    ensures count { table.new.len ≤ table.old.len + 1 }
{
    let own = Slot::of_method(ws, m);
    match slot {
        Some(j) => table.put(j, own),
        None => table.push(own),
    }
}

// Gives method m its slot, if it is eligible.
fn add_method(sheets: Sheets, abis: &[u32], m: u32, table: &mut BuiltTable) -> Result<(), Refusal>
    requires { (m < method_limit) × (table.old.len < 3584) }
    ensures is { step_of result (entries table.new) ≡ add_method (by_numbers sheets.entry.numbers.now) sheets.entry.set.now sheets.entry.text.now sheets.entry.abi.now abis.now m (entries table.old) }
    ensures count { table.new.len ≤ table.old.len + 1 }
{
    if !chain::eligible(sheets.set, sheets.text, m) {
        return Ok(());
    }
    let slot = find_slot(sheets.numbers, m, table);
    match abi::fixed_of(sheets, abis, m) {
        Some(i) => put_fixed(sheets.set, sheets.numbers, m, i, slot, table),
        None => {
            put_found(sheets.set, m, slot, table);
            Ok(())
        }
    }
}

// Gives each of class c's own methods its slot, in their order, or the row that refuses the first that is refused.
fn add_methods(sheets: Sheets, abis: &[u32], c: u32, table: &mut BuiltTable) -> Result<(), Refusal>
    requires { table.old.len ≤ 2048 }
    ensures is { step_of result (entries table.new)
        ≡ add_methods (by_numbers sheets.entry.numbers.now) sheets.entry.set.now sheets.entry.text.now sheets.entry.abi.now abis.now (own_methods sheets.entry.set.now c) (entries table.old) }
    ensures count { table.new.len ≤ 2560 }
{
    let first = class_sheet::class_first_method(sheets.set, c);
    let count = chain::method_count(sheets.set, c);
    for m in first..first + count {
        add_method(sheets, abis, m, table)?;
    }
    Ok(())
}

// Fills the table with class c's: the parent's entries, relayed or extended as the chain's ABI classes ask, and its own methods. Answers the
// row that refuses it, if one does. What the table's arrays hold past its slots, and the table that is left of a refused one, is the
// program's choice and means nothing.
pub fn build_methods(
    sheets: Sheets,
    area: &[u32],
    c: u32,
    table: &mut BuiltTable,
) -> Result<(), Refusal>
    ensures is { step_of result (entries table.new) ≡ of_numbers build_methods sheets.entry area.now c }
    ensures count { table.new.len ≤ 2560 }
{
    let classes = abi::chain_abi(sheets, c);
    let abis = classes.as_slice();
    inherited_table(sheets, area, abis, c, table);
    add_methods(sheets, abis, c, table)
}

// Puts method m after the table's slots, if it is eligible.
#[tactic(auto, using(crate::proofs::TableLaws::eligible_no, crate::proofs::TableLaws::eligible_yes))]
fn add_eligible(ws: &[u32], text: &[u8], m: u32, table: &mut BuiltTable)
    requires { (m < method_limit) × (table.old.len < 3584) }
    ensures is { entries table.new ≡ entries table.old ++ method_entries ws.now (keep (eligible ws.now text.now) (m ∷ [])) }
    ensures count { table.new.len ≤ table.old.len + 1 }
{
    if chain::eligible(ws, text, m) {
        table.push(Slot::of_method(ws, m));
    }
}

// Fills the table with that of a built interface, its eligible methods in order, whatever the ABI sheet. What the table's arrays hold past
// its slots is the program's choice and means nothing.
pub fn build_interface_methods(ws: &[u32], text: &[u8], c: u32, table: &mut BuiltTable)
    ensures is { entries table.new ≡ build_interface_methods ws.now text.now c }
    ensures count { table.new.len ≤ method_limit }
{
    let first = class_sheet::class_first_method(ws, c);
    let count = chain::method_count(ws, c);
    table.clear();
    for m in first..first + count {
        add_eligible(ws, text, m, table);
    }
}
