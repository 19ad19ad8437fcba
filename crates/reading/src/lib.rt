// Reading: a table's slots, from their words in the area to their methods. Beside the table it fills an array with the numbers of the classes
// that declare the methods, 0 where there is none.
#![tactic(auto)]

ghost use Rattle.std.specs.Prelude.{◌≡◌, ◌≤◌, ◌<◌, ◌+◌, min, length, get_or, take, drop, cond, eqb, Some, None};
ghost use Rattle.words.specs.Folds.{stores};
ghost use Rattle.words.specs.Lists.{list_from};
ghost use Rattle.class_sheet.specs.ClassSheet.{class_slot_count, method_limit};
ghost use Rattle.linking.specs.Chain.{find_by_target};
ghost use Rattle.linking.specs.Abi.{class_abi};
ghost use Rattle.chain.specs.Records.{first_target};
ghost use Rattle.linking.specs.Vtable.{own_fixed, find_by_index, table_entries, parent_entries};
ghost use Rattle.linking.specs.Whose.{declared_by_target, declared_by_index, slot_class};
ghost use Rattle.reading.specs.Arrays.{copy_marks, or_mark, marks_with, entries_of};
ghost use Rattle.reading.specs.Classes.{claimed, claims, classes_with, Paired};
ghost use Rattle.reading.specs.Tables.{entries};
ghost use Rattle.linking.specs.Sheets.{of_sheets, of_numbers};

use linking::Sheets;
pub use table::{
    BUILD_LIMIT, BuiltTable, ReadTable, Slot, Slots, TABLE_LIMIT, Table, mark_of, method_of,
    source_of,
};

mod table;

// Makes each slot a copy of itself: what is read is what a child takes.
fn give_sources(marks: &mut [u32])
    requires { length marks.old ≤ 1024 }
    ensures { marks.new ≡ copy_marks (length marks.old) marks.old }
{
    for (i, mark) in marks.iter_mut().enumerate() {
        *mark = *mark % 4096 + 4096 * (i as u32 + 1);
    }
}

// A slot's mark k, or where it has none and its word t is the target w of method m, that method's mark.
#[tactic(auto, unfolding(crate::specs::Arrays::or_mark, crate::specs::Arrays::mark_of))]
fn mark_if(k: u32, w: u32, t: u32, m: u32) -> u32
    requires { m < method_limit }
    ensures { result ≡ or_mark k (cond (eqb w t) (Some m) None) }
{
    if (k == 0) & (w == t) { m + 1 } else { k }
}

// Marks so each slot. No slot ends the loop, so that the compiler takes several at a time.
fn mark_target(m: u32, w: u32, words: &[u32], marks: &mut [u32])
    requires { (m < method_limit) × (length words.now ≡ length marks.old) }
    ensures { marks.new ≡ marks_with (λ i. cond (eqb w (get_or words.now i 0)) (Some m) None) (length marks.old) marks.old }
{
    for (i, mark) in marks.iter_mut().enumerate() {
        *mark = mark_if(*mark, w, words[i], m);
    }
}

// Marks each slot that has no mark with the first method that has its word as target, of the list of records.
fn mark_targets(records: &[u32], first: u32, count: u32, words: &[u32], marks: &mut [u32])
    requires { length words.now ≡ length marks.old }
    ensures { marks.new ≡ marks_with (λ i. first_target records.now first count (get_or words.now i 0)) (length marks.old) marks.old }
{
    let methods = chain::list_count(first, count, class_sheet::METHOD_LIMIT);
    for m in first..first + methods {
        mark_target(m, chain::record_target(records, m), words, marks);
    }
}

// A slot's class d, or where it has none and its mark k says that it has a method, class c.
#[tactic(auto, unfolding(crate::specs::Classes::claimed))]
fn class_if(k: u32, d: u32, c: u32) -> u32
    ensures { result ≡ claimed c k d }
{
    if (d == 0) & (k != 0) { c } else { d }
}

// Gives class c to each slot that has a mark and no class yet.
fn claim(c: u32, marks: &[u32], classes: &mut [u32])
    requires { length marks.now ≡ length classes.old }
    ensures { classes.new ≡ claims c (length marks.now) marks.now classes.old }
{
    for (i, class) in classes.iter_mut().enumerate() {
        *class = class_if(marks[i], *class, c);
    }
}

// Marks each slot that has no mark by its word: with the first method that has it as target, class c's, then its ancestors', and the class
// that has it. The chain is gone along once for all slots.
fn mark_by_target(ws: &[u32], c: u32, words: &[u32], marks: &mut [u32], classes: &mut [u32])
    requires { (length words.now ≡ length marks.old) × (length classes.old ≡ length marks.old) × Paired (length marks.old) marks.old classes.old }
    ensures marks { marks.new ≡ marks_with (λ i. find_by_target ws.now c (get_or words.now i 0)) (length marks.old) marks.old }
    ensures classes { classes.new ≡ classes_with (λ i. declared_by_target ws.now c (get_or words.now i 0)) (length marks.old) classes.old }
{
    if c == 0 {
        return;
    }
    let first = class_sheet::class_first_method(ws, c);
    let count = class_sheet::class_method_count(ws, c);
    mark_targets(chain::method_records(ws), first, count, words, marks);
    claim(c, marks, classes);
    mark_by_target(ws, chain::parent_of(ws, c), words, marks, classes);
}

// A class that has an ABI entry, with the entry.
#[derive(Clone, Copy)]
struct Listed<'a> {
    sheets: Sheets<'a>,
    class: u32,
    abi: u32,
    ghost has: { Some abi ≡ of_sheets class_abi sheets class },
}

impl<'a> Listed<'a> {
    // Its own method of the signature that its ABI entry fixes at index i.
    #[tactic(auto, using(crate::proofs::ReadLaws::own_slot), unfolding(linking::specs::Vtable::own_fixed))]
    fn own_fixed(self, i: u32) -> Option<u32>
        ensures { result ≡ of_numbers own_fixed self.entry.sheets i self.entry.class }
    {
        let sheets = self.sheets;
        let s = abi::slot_at(sheets.abi, i, self.abi)?;
        let number = abi::slot_number(sheets.numbers, s);
        chain::own_numbered(sheets.set, sheets.numbers, number, self.class)
    }

    // Slot i's mark k, or where it has none the mark of that method.
    #[tactic(auto, unfolding(crate::specs::Arrays::or_mark))]
    fn mark(self, i: u32, k: u32) -> u32
        ensures { result ≡ or_mark k (of_numbers own_fixed self.entry.sheets i self.entry.class) }
    {
        if k != 0 {
            return k;
        }
        mark_of(self.own_fixed(i))
    }

    // Marks so each slot. Only those that the entry's records fix are visited: there is no such method for the others.
    fn mark_fixed(self, marks: &mut [u32])
        ensures { marks.new ≡ marks_with (λ i. of_numbers own_fixed self.entry.sheets i self.entry.class) (length marks.old) marks.old }
    {
        let abi = self.sheets.abi;
        let first = abi_sheet::class_first_slot(abi, self.abi);
        for s in first..first + abi::slot_count(abi, self.abi) {
            let i = abi::slot_index(abi, s);
            if (i as usize) < marks.len() {
                marks[i as usize] = self.mark(i, marks[i as usize]);
            }
        }
    }
}

// Marks so each slot by class c's ABI entry, if it has one.
fn mark_own(sheets: Sheets, c: u32, marks: &mut [u32])
    requires { length marks.old ≤ 1024 }
    ensures { marks.new ≡ marks_with (λ i. of_numbers own_fixed sheets.entry i c) (length marks.old) marks.old }
{
    if let Some(abi) = abi::class_abi(sheets, c) {
        let listed = Listed {
            sheets,
            class: c,
            abi,
        };
        listed.mark_fixed(marks);
    }
}

// Marks each slot that has no mark by its index: with the own method of the first class of c's chain that has one of the signature that the
// class's ABI entry fixes there, and that class. Each class's entry is looked up once for all slots.
fn mark_by_index(sheets: Sheets, c: u32, marks: &mut [u32], classes: &mut [u32])
    requires { (length marks.old ≤ 1024) × (length classes.old ≡ length marks.old) × Paired (length marks.old) marks.old classes.old }
    ensures marks { marks.new ≡ marks_with (of_numbers find_by_index sheets.entry c) (length marks.old) marks.old }
    ensures classes { classes.new ≡ classes_with (of_numbers declared_by_index sheets.entry c) (length marks.old) classes.old }
{
    if c == 0 {
        return;
    }
    mark_own(sheets, c, marks);
    claim(c, marks, classes);
    mark_by_index(sheets, chain::parent_of(sheets.set, c), marks, classes);
}

// How many slots class c's table has.
fn slot_count(ws: &[u32], c: u32) -> u32
    ensures { result ≡ min (class_slot_count ws.now c) 1024 }
{
    class_sheet::class_slot_count(ws, c).min(TABLE_LIMIT as u32)
}

// Stores the words of the table at `place`, no marks, and no classes.
fn copy_slots(area: &[u32], place: u32, words: &mut [u32], marks: &mut [u32], classes: &mut [u32])
    ensures words { words.new ≡ stores (length words.old) (λ i. get_or area.now (place + 1 + i) 0) words.old }
    ensures marks { marks.new ≡ stores (length words.old) (λ i. 0) marks.old }
    ensures classes { classes.new ≡ stores (length words.old) (λ i. 0) classes.old }
{
    let n = words.len();
    let slots = words::part(area, (place as usize) + 1, n);
    words::store_each(words, n, |i| words::get_or(slots, i, 0));
    words::store_each(marks, n, |_| 0);
    words::store_each(classes, n, |_| 0);
}

// Reads the slots of class c's table, as many as it has: their words, their marks, and the classes that declare their methods.
fn read_slots(
    sheets: Sheets,
    area: &[u32],
    c: u32,
    words: &mut [u32],
    marks: &mut [u32],
    classes: &mut [u32],
)
    requires { (length words.old ≡ min (class_slot_count sheets.set.now c) 1024) × (length marks.old ≡ length words.old) × (length classes.old ≡ length words.old) }
    ensures is { entries_of words.new marks.new (length words.old) ≡ of_numbers table_entries sheets.entry area.now c }
    ensures classes { classes.new ≡ list_from (of_numbers slot_class sheets.entry area.now c) 0 (length words.old) }
{
    let place = class_sheet::class_table_place(sheets.set, c);
    copy_slots(area, place, words, marks, classes);
    mark_by_target(sheets.set, c, words, marks, classes);
    mark_by_index(sheets, c, marks, classes);
    give_sources(marks);
}

// Fills the table with the entries of class c's, each as Reading finds it, and the front of the array with the classes that declare their
// methods, 0 where there is none. What the arrays hold past the table's slots stays.
pub fn table_entries<const N: usize>(
    sheets: Sheets,
    area: &[u32],
    c: u32,
    table: &mut Table<N>,
    classes: &mut [u32; TABLE_LIMIT],
)
    ensures is { entries table.new ≡ of_numbers table_entries sheets.entry area.now c }
    ensures count { table.new.len ≤ 1024 }
    ensures rest { (drop table.new.len table.new.words ≡ drop table.new.len table.old.words) × (drop table.new.len table.new.marks ≡ drop table.new.len table.old.marks) }
    ensures classes { take table.new.len classes.new ≡ list_from (of_numbers slot_class sheets.entry area.now c) 0 table.new.len }
    ensures others { drop table.new.len classes.new ≡ drop table.new.len classes.old }
{
    table.len = slot_count(sheets.set, c);
    let n = table.len as usize;
    read_slots(
        sheets,
        area,
        c,
        &mut table.words[..n],
        &mut table.marks[..n],
        &mut classes[..n],
    );
}

// Fills the table with the entries of class c's parent's, read along the parent's own chain: none without a parent. What the arrays hold past
// the table's slots stays.
pub fn parent_entries<const N: usize>(sheets: Sheets, area: &[u32], c: u32, table: &mut Table<N>)
    ensures is { entries table.new ≡ of_numbers parent_entries sheets.entry area.now c }
    ensures count { table.new.len ≤ 1024 }
    ensures rest { (drop table.new.len table.new.words ≡ drop table.new.len table.old.words) × (drop table.new.len table.new.marks ≡ drop table.new.len table.old.marks) }
{
    let parent = chain::parent_of(sheets.set, c);
    if parent == 0 {
        table.clear();
        return;
    }
    let mut classes = [0u32; TABLE_LIMIT];
    table_entries(sheets, area, parent, table, &mut classes);
}
