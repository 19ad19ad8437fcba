// What a generated class with a compiler table takes from its parent (`prepare_generated`): the native view of the parent's table, and
// the methods that its compiler targets add.
#![tactic(auto)]

ghost use Rattle.std.specs.Prelude.{◌≡◌, false, cond, [], ◌++◌, ◌+◌, ◌-◌, ◌≤◌, ◌<◌, min, length, drop, eqb};
ghost use Rattle.words.specs.Lists.{numbers, find, first_found, some};
ghost use Rattle.class_sheet.specs.ClassSheet.{class_count, class_compiler_table, class_compiler_slots, compiler_word};
ghost use Rattle.linking.specs.Signature.{of_method, by_numbers};
ghost use Rattle.linking.specs.Chain.{on_found, own_methods, own_interfaces};
ghost use Rattle.linking.specs.Abi.{slot_at};
ghost use Rattle.linking.specs.Vtable.{empty, fixed_of, parent_entries};
ghost use Rattle.linking.specs.Compiler.{holds, owner_state, is_emptied, view_from, native_view, signature_sources, add_named, compiler_targets, added_from, added_methods};
ghost use Rattle.reading.specs.Tables.{entry, entries};
ghost use Rattle.growth.specs.News.{ref_place, taken_of, added_of};
ghost use Rattle.native_view.specs.Native.{interface_slot, source_ref, ref_flags, member_of, added_at};
ghost use Rattle.linking.specs.Sheets.{of_sheets, of_numbers};

use growth::{Member, Named, News};
use linking::Sheets;
use reading::{ReadTable, Slot};

// The link state of a class that the compiler linked.
const LINKED: u32 = 3;

// Whether class c's list holds method m.
#[tactic(auto, unfolding(linking::specs::Compiler::holds))]
fn holds(ws: &[u32], m: u32, c: u32) -> bool
    ensures { result ≡ holds ws.now m c }
{
    let first = class_sheet::class_first_method(ws, c) as usize;
    let n = class_sheet::class_method_count(ws, c) as usize;
    (first..first + n).contains(&(m as usize))
}

// The class that method m belongs to: the first whose list holds it.
fn owner(ws: &[u32], m: u32) -> Option<u32>
    ensures { result ≡ find (holds ws.now m) (numbers 1 (class_count ws.now)) }
{
    words::find_up_to(class_sheet::class_count(ws), |c| holds(ws, m, c))
}

// Whether method m belongs to a class that the compiler linked.
#[tactic(auto, unfolding(linking::specs::Compiler::owner_state))]
fn is_owner_linked(ws: &[u32], m: u32) -> bool
    ensures { result ≡ eqb (owner_state ws.now m) 3 }
{
    owner(ws, m).is_some_and(|c| class_sheet::class_link_state(ws, c) == LINKED)
}

// Whether i is the index that the first of the ABI classes fixes for method m.
fn fixed_here(sheets: Sheets, abis: &[u32], i: u32, m: u32) -> bool
    ensures { result ≡ on_found (fixed_of (by_numbers sheets.entry.numbers.now) sheets.entry.abi.now abis.now m) (eqb i) false }
{
    abi::fixed_of(sheets, abis, m).is_some_and(|j| i == j)
}

// Whether the native view empties slot i.
#[tactic(auto, using(crate::proofs::ViewLaws::emptied_known, crate::proofs::ViewLaws::emptied_unknown))]
fn is_emptied(sheets: Sheets, abis: &[u32], i: u32, slot: Slot) -> bool
    ensures { result ≡ is_emptied (by_numbers sheets.entry.numbers.now) sheets.entry.set.now sheets.entry.abi.now abis.now i (entry slot) }
{
    match slot.method() {
        Some(m) => { !is_owner_linked(sheets.set, m) & !fixed_here(sheets, abis, i, m) }
        None => false,
    }
}

// Slot i of the view.
fn view_slot(sheets: Sheets, abis: &[u32], i: u32, slot: Slot) -> Slot
    ensures { entry result
        ≡ cond (is_emptied (by_numbers sheets.entry.numbers.now) sheets.entry.set.now sheets.entry.abi.now abis.now i (entry slot)) empty (entry slot) }
{
    if is_emptied(sheets, abis, i, slot) {
        return Slot::empty();
    }
    slot
}

// Fills the view with that of the parent's slots.
fn view_entries(sheets: Sheets, abis: &[u32], parent: &ReadTable, view: &mut ReadTable)
    ensures is { entries view.new
        ≡ view_from (by_numbers sheets.entry.numbers.now) sheets.entry.set.now sheets.entry.abi.now abis.now 0 (entries parent.now) }
    ensures len { view.new.len ≡ parent.now.len }
{
    view.fill(parent.len, |i| view_slot(sheets, abis, i, parent.slot(i)));
}

// How many compiler targets class c has.
pub fn compiler_count(ws: &[u32], c: u32) -> u32
    ensures { result ≡ min (class_compiler_slots ws.now c) 1024 }
{
    class_sheet::class_compiler_slots(ws, c).min(1024)
}

// Class c's compiler target i.
#[tactic(auto, unfolding(class_sheet::specs::ClassSheet::compiler_word))]
pub fn compiler_target(ws: &[u32], c: u32, i: u32) -> u32
    ensures { result ≡ compiler_word ws.now (class_compiler_table ws.now c - 1 + i) }
{
    let first = class_sheet::class_compiler_table(ws, c).saturating_sub(1) as usize;
    words::get_or(
        ws,
        class_sheet::compilers_at(ws) + (first + (i as usize)),
        0,
    )
}

// The slot that the first of class c's interfaces has at index i that has one there.
fn interface_slot(sheets: Sheets, i: u32, c: u32) -> Option<u32>
    ensures { result ≡ first_found (of_sheets interface_slot sheets.entry i) (own_interfaces sheets.entry.set.now c) }
{
    let first = class_sheet::class_first_interface(sheets.set, c);
    let n = chain::interface_count(sheets.set, c);
    for j in first..first + n {
        let d = class_sheet::interface_word(sheets.set, j);
        if let Some(s) = abi::class_slot(sheets, i, d) {
            return Some(s);
        }
    }
    None
}

// The slot at index i of class c's own ABI entry, else of its interfaces'.
#[tactic(auto, using(crate::proofs::AddLaws::source_own, crate::proofs::AddLaws::source_next), unfolding(abi::specs::Abis::class_slot))]
fn signature_slot(sheets: Sheets, i: u32, c: u32) -> Option<u32>
    ensures { result ≡ first_found (slot_at sheets.entry.abi.now i) (of_sheets signature_sources sheets.entry c) }
{
    match abi::class_slot(sheets, i, c) {
        Some(s) => Some(s),
        None => interface_slot(sheets, i, c),
    }
}

// What a target at index i takes its signature from, where the view has this slot.
fn source_ref(sheets: Sheets, c: u32, i: u32, slot: Slot) -> Option<Named>
    ensures { result ≡ of_sheets source_ref sheets.entry c i (entry slot).method }
{
    match slot.method() {
        Some(m) => Some(Named::Method(m)),
        None => Some(Named::Slot(signature_slot(sheets, i, c)?)),
    }
}

// The flags of a method that takes its signature from r: never 0x0400.
#[tactic(auto, using(crate::proofs::AddLaws::flags_slot, crate::proofs::AddLaws::flags_field, crate::proofs::AddLaws::flags_abstract, crate::proofs::AddLaws::flags_same))]
fn ref_flags(ws: &[u32], r: Named) -> u32
    ensures { result ≡ ref_flags ws.now r }
{
    match r {
        Named::Method(m) => {
            let flags = class_sheet::method_flags(ws, m);
            if class_sheet::is_abstract(flags) {
                return flags - 1024;
            }
            flags
        }
        Named::Slot(_) | Named::Field(_) => 1,
    }
}

// Whether class c declares a method of the signature that one takes from r.
fn is_declared(sheets: Sheets, r: Named, c: u32) -> bool
    ensures { result ≡ some (λ m. by_numbers sheets.entry.numbers.now (of_method m) (ref_place r)) (own_methods sheets.entry.set.now c) }
{
    let number = growth::ref_number(sheets.numbers, r);
    chain::own_numbered(sheets.set, sheets.numbers, number, c).is_some()
}

// Adds a method for target t that takes its signature from r, unless class c declares it.
fn add_named(sheets: Sheets, c: u32, r: Named, t: u32, news: &mut News)
    requires { length news.old < 1024 }
    ensures is { of_sheets added_of sheets.entry news.new ≡ of_sheets added_of sheets.entry news.old
        ++ add_named (by_numbers sheets.entry.numbers.now) sheets.entry.set.now c (of_sheets taken_of sheets.entry (member_of sheets.entry.set.now r t)) [] }
    ensures count { length news.new ≤ length news.old + 1 }
{
    if is_declared(sheets, r, c) {
        return;
    }
    news.push(Member {
        names: r,
        flags: ref_flags(sheets.set, r),
        last: t,
    });
}

// Adds what target t at index i adds, where the native view has this slot.
fn add(sheets: Sheets, c: u32, i: u32, t: u32, slot: Slot, news: &mut News)
    requires { length news.old < 1024 }
    ensures is { of_sheets added_of sheets.entry news.new ≡ of_sheets added_of sheets.entry news.old ++ of_numbers added_at sheets.entry c i t (entry slot) }
    ensures count { length news.new ≤ length news.old + 1 }
{
    if (t == 0) | (t == slot.word) {
        return;
    }
    if let Some(r) = source_ref(sheets, c, i, slot) {
        add_named(sheets, c, r, t, news);
    }
}

// The methods that class c's compiler targets add, where this is the native view, and no others.
fn add_methods(sheets: Sheets, c: u32, view: &ReadTable, news: &mut News)
    ensures is { of_sheets added_of sheets.entry news.new ≡ of_numbers added_from sheets.entry c (entries view.now) 0 (compiler_targets sheets.entry.set.now c) }
    ensures count { length news.new ≤ 1024 }
{
    news.clear();
    let count = compiler_count(sheets.set, c);
    for i in 0..count {
        let t = compiler_target(sheets.set, c, i);
        add(sheets, c, i, t, view.slot(i), news);
    }
}

// Fills the tables with the parent of class c's and with its native view, and the list with the methods that c's compiler table adds. Past
// the parent's slots its arrays stay.
pub fn native_view(
    sheets: Sheets,
    area: &[u32],
    c: u32,
    parent: &mut ReadTable,
    view: &mut ReadTable,
    news: &mut News,
)
    ensures parent { entries parent.new ≡ of_numbers parent_entries sheets.entry area.now c }
    ensures view { entries view.new ≡ of_numbers native_view sheets.entry area.now c }
    ensures len { view.new.len ≡ parent.new.len }
    ensures members { of_sheets added_of sheets.entry news.new ≡ of_numbers added_methods sheets.entry area.now c }
    ensures count { length news.new ≤ 1024 }
    ensures rest { (drop parent.new.len parent.new.words
        ≡ drop parent.new.len parent.old.words) × (drop parent.new.len parent.new.marks ≡ drop parent.new.len parent.old.marks) }
{
    reading::parent_entries(sheets, area, c, parent);
    let abis = abi::chain_abi(sheets, chain::parent_of(sheets.set, c));
    view_entries(sheets, abis.as_slice(), parent, view);
    add_methods(sheets, c, view, news);
}
