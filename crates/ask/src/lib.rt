// `interface_dispatch_table` (class_definition.rs): a class's table for an interface, found in the class's list or built in front of it.
#![tactic(auto)]

ghost use Rattle.std.specs.Prelude.{◌≡◌, ◌&&◌, false, ◌≤◌, get_or, eqb};
ghost use Rattle.class_sheet.specs.ClassSheet.{method_flags, text_length, text_of, text_limit};
ghost use Rattle.abi_sheet.specs.AbiSheet.{abi_text_length, abi_text_of, abi_text_limit};
ghost use Rattle.set_rules.specs.SetRules.{set_refusal};
ghost use Rattle.linking.specs.Signature.{of_method, by_numbers};
ghost use Rattle.linking.specs.Chain.{is_virtual};
ghost use Rattle.linking.specs.Vtable.{table_entries, built};
ghost use Rattle.linking.specs.Link.{bad_area};
ghost use Rattle.linking.specs.Ask.{head_place, own_implementation, dispatch_entries, build_node, ask_by};
ghost use Rattle.linking.specs.Numbered.{ask_numbered};
ghost use Rattle.linking.specs.Whose.{declared_implementation};
ghost use Rattle.reading.specs.Tables.{entry, entries};
ghost use Rattle.area.specs.Area.{outcome};
ghost use Rattle.refusal.specs.Rows.{row_of};
ghost use Rattle.linking.specs.Sheets.{of_sheets, of_numbers};
ghost use Rattle.ask.specs.Dispatch.{slot_built, dispatched, table_built, ask_refusal, finish_ask};

use area::Answer;
use linking::{Declared, Sheets};
use reading::{ReadTable, Slot, TABLE_LIMIT, Table};
use refusal::Refusal;

// Whether method m is neither static nor private and has this number.
fn implements(ws: &[u32], numbers: &[u32], m: u32, number: u32) -> bool
    ensures { result ≡ (is_virtual (method_flags ws.now m) && eqb (get_or numbers.now m 0) number) }
{
    chain::is_virtual(class_sheet::method_flags(ws, m))
        & (words::get_or(numbers, m as usize, 0) == number)
}

// Class c's first method of method m's signature that is neither static nor private.
fn own_implementation(sheets: Sheets, m: u32, c: u32) -> Option<u32>
    ensures { result ≡ own_implementation (by_numbers sheets.entry.numbers.now) sheets.entry.set.now (of_method m) c }
{
    let number = words::get_or(sheets.numbers, m as usize, 0);
    let first = class_sheet::class_first_method(sheets.set, c);
    let end = first + chain::method_count(sheets.set, c);
    words::find_in(
        first,
        end,
        |k| implements(sheets.set, sheets.numbers, k, number),
    )
}

// The first such method, with its class: class c's, then its ancestors'.
fn implementation(sheets: Sheets, c: u32, m: u32) -> Option<Declared>
    ensures { result ≡ declared_implementation (by_numbers sheets.entry.numbers.now) sheets.entry.set.now c m }
{
    if c == 0 {
        return None;
    }
    match own_implementation(sheets, m, c) {
        Some(method) => Some(Declared { class: c, method }),
        None => implementation(sheets, chain::parent_of(sheets.set, c), m),
    }
}

// Class c's slot for an interface's: none where no class of its chain implements the method.
fn dispatch_slot(sheets: Sheets, c: u32, slot: Slot) -> Option<Slot>
    ensures { slot_built result ≡ dispatched (by_numbers sheets.entry.numbers.now) sheets.entry.set.now c (entry slot) }
{
    let Some(j) = slot.method() else {
        return Some(slot);
    };
    let d = implementation(sheets, c, j)?;
    Some(Slot::of_method(sheets.set, d.method))
}

// Fills the table with class c's slots for those of an interface's, or row 16.
fn dispatch_slots(
    sheets: Sheets,
    c: u32,
    from: &ReadTable,
    to: &mut ReadTable,
) -> Result<(), Refusal>
    ensures { table_built (entries to.new) result ≡ dispatch_entries (by_numbers sheets.entry.numbers.now) sheets.entry.set.now c (entries from.now) }
{
    to.clear();
    for slot in from.slots() {
        to.push(dispatch_slot(sheets, c, slot).ok_or(Refusal::Unimplemented)?);
    }
    Ok(())
}

// Fills the table with class c's for interface i.
fn dispatch_table(
    sheets: Sheets,
    area: &[u32],
    c: u32,
    i: u32,
    to: &mut ReadTable,
) -> Result<(), Refusal>
    ensures { table_built (entries to.new) result
        ≡ dispatch_entries (by_numbers sheets.entry.numbers.now) sheets.entry.set.now c (of_numbers table_entries sheets.entry area.now i) }
{
    let mut from = Table::for_reading();
    let mut classes = [0u32; TABLE_LIMIT];
    reading::table_entries(sheets, area, i, &mut from, &mut classes);
    dispatch_slots(sheets, c, &from, to)
}

// The same, with the sheets' texts unpacked.
fn dispatch_unpacked<'a>(
    ws: &'a [u32],
    abi: &'a [u32],
    numbers: &'a [u32],
    area: &[u32],
    c: u32,
    i: u32,
    to: &mut ReadTable,
) -> Result<(), Refusal>
    requires { (text_length ws.now ≤ text_limit) × (abi_text_length abi.now ≤ abi_text_limit) }
    ensures { table_built (entries to.new) result
        ≡ dispatch_entries (by_numbers numbers.now) ws.now c
        (table_entries (by_numbers numbers.now) ws.now (text_of ws.now) abi.now (abi_text_of abi.now) area.now i) }
{
    let mut room = [0u8; class_sheet::TEXT_LIMIT as usize];
    let mut label_room = [0u8; abi_sheet::TEXT_LIMIT as usize];
    let sheets = Sheets::unpack(ws, abi, numbers, &mut room, &mut label_room);
    dispatch_table(sheets, area, c, i, to)
}

// The place of class c's list head.
fn head_place(ws: &[u32], c: u32) -> usize
    ensures { result ≡ head_place ws.now c }
{
    class_sheet::class_table_place(ws, c) as usize
        + (class_sheet::class_slot_count(ws, c) as usize)
        + 1
}

// Row 15, and then the node of interface i, with the table's slots, in front of class c's list.
fn finish_ask(
    ws: &[u32],
    c: u32,
    i: u32,
    area: &mut [u32],
    stubs: &[u32],
    nodes: u32,
    table: &ReadTable,
) -> Result<Answer, Refusal>
    requires { bad_area ws.now area.old ≡ false }
    ensures { outcome result ws.now area.new ≡ finish_ask ws.now c i area.old stubs.now nodes (built (entries table.now)) }
{
    if area::no_room(area, stubs, table.len as usize) {
        return Err(Refusal::ShortMemory);
    }
    let node = words::get_or(area, 0, 0);
    area::write_node(
        area,
        head_place(ws, c),
        i,
        &table.words,
        table.len as usize,
        stubs,
    );
    Ok(Answer {
        first: node + 1,
        second: nodes,
    })
}

// Builds the node of interface i for class c, whose list has none; `nodes` have been read.
fn build_node<'a>(
    ws: &'a [u32],
    abi: &'a [u32],
    numbers: &'a [u32],
    c: u32,
    i: u32,
    area: &mut [u32],
    stubs: &[u32],
    nodes: u32,
) -> Result<Answer, Refusal>
    requires { (set_refusal ws.now abi.now ≡ 0) × (bad_area ws.now area.old ≡ false) }
    ensures { outcome result ws.now area.new ≡ build_node (by_numbers numbers.now) ws.now abi.now c i area.old stubs.now nodes }
{
    let mut table = Table::for_reading();
    dispatch_unpacked(ws, abi, numbers, area, c, i, &mut table)?;
    finish_ask(ws, c, i, area, stubs, nodes, &table)
}

// Rows 3 to 7 of an ask, but for the walk.
#[tactic(auto, unfolding(crate::specs::Dispatch::ask_refusal))]
fn ask_refusal(ws: &[u32], abi: &[u32], c: u32, i: u32, area: &[u32]) -> Result<(), Refusal>
    ensures { row_of result ≡ ask_refusal ws.now abi.now c i area.now }
{
    set_rules::set_refusal(ws, abi)?;
    if call_rules::bad_ask(ws, c, i) {
        return Err(Refusal::Class);
    }
    if call_rules::bad_area(ws, area) {
        return Err(Refusal::Area);
    }
    Ok(())
}

// Asks for the class's table of the interface, with a list of numbers that is long enough.
fn ask<'a>(
    set: &'a [u32],
    abi: &'a [u32],
    numbers: &'a [u32],
    class: u32,
    interface: u32,
    area: &mut [u32],
    stubs: &[u32],
) -> Result<Answer, Refusal>
    ensures { outcome result set.now area.new ≡ ask_by (by_numbers numbers.now) set.now abi.now class interface area.old stubs.now }
{
    ask_refusal(set, abi, class, interface, area)?;
    let head = words::get_or(area, head_place(set, class), 0);
    let walked = area::walk(area, interface, head)?;
    match walked.node {
        Some(n) => Ok(Answer {
            first: n + 1,
            second: walked.read,
        }),
        None => build_node(
            set,
            abi,
            numbers,
            class,
            interface,
            area,
            stubs,
            walked.read,
        ),
    }
}

// Asks for the class's table of the interface. The answer is the place after its node's link word, where interface number and slots
// follow, and how many nodes were read on the way; or the row that refuses. Where the class's list has a node of the interface, nothing is
// written. Else a new node goes in front of the list, from the area's next free word on, and word 0 of the area moves past it. A refused
// ask writes nothing. Signatures are matched by the numbers of the list, which is only read. Nothing of this is left to the program; where the
// specification is silent, docs/DECISIONS.md has the reading.
#[tactic(auto, using(crate::proofs::AskLaws::ask_short, crate::proofs::AskLaws::ask_long))]
pub fn interface_dispatch_table<'a>(
    set: &'a [u32],
    abi: &'a [u32],
    numbers: &'a [u32],
    class: u32,
    interface: u32,
    area: &mut [u32],
    stubs: &[u32],
) -> Result<Answer, Refusal>
    ensures { outcome result set.now area.new ≡ ask_numbered set.now abi.now numbers.now class interface area.old stubs.now }
{
    if signatures::is_short(numbers) {
        return Err(Refusal::Form);
    }
    ask(set, abi, numbers, class, interface, area, stubs)
}
