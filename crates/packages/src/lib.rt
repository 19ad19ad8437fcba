// The table of a class of kind 3, by the JVM Specification's 5.4.5: what a method overrides, which method introduced a slot, and the slots that a
// method takes; and row 26.
#![tactic(auto)]

ghost use Rattle.std.specs.Prelude.{◌≡◌, cond, not, Bool, List, [], ◌∷◌, ◌++◌, ℕ, ◌≤◌, ◌<◌, ◌+◌, length, get_or, set, replicate};
ghost use Rattle.words.specs.Lists.{fold, some};
ghost use Rattle.text.specs.Text.{same_bytes};
ghost use Rattle.class_sheet.specs.ClassSheet.{class_limit, method_limit, method_flags, is_packaged};
ghost use Rattle.linking.specs.Chain.{is_private, chain, own_methods};
ghost use Rattle.linking.specs.Vtable.{read_slot, method_entry};
ghost use Rattle.linking.specs.Packages.{package_of, package_at, open_to, is_overridden, overridden_in, overridden_along, overridden, table_has, put_taken, take_slots, build_packages, unfit_for_packages, bad_packages};
ghost use Rattle.reading.specs.Arrays.{method_of};
ghost use Rattle.reading.specs.Tables.{entry, entries};
ghost use Rattle.packages.specs.Marks.{of_walk, mark, is_some, taken_by, taken_in, top_of, Laid, LaidUp, Tops};
ghost use Rattle.linking.specs.Sheets.{of_sheets, of_numbers};

use class_sheet::Kind;
use linking::Sheets;
use reading::{BuiltTable, ReadTable, Slot, TABLE_LIMIT, Table};
use words::BoundedList;

// How many methods.
const METHODS: usize = class_sheet::METHOD_LIMIT as usize;

// How many classes a method reaches at most.
const CLASSES: usize = class_sheet::CLASS_LIMIT as usize;

// The classes that a method has reached.
type Reached = BoundedList<u32, CLASSES>;

// ---- packages

// The package of a class of this name: the bytes before the last slash.
fn package_of(name: &[u8]) -> &[u8]
    ensures { result.now ≡ package_of name.now }
{
    for i in (0..name.len()).rev() {
        if name[i] == b'/' {
            return &name[..i];
        }
    }
    &name[..0]
}

// Whether classes a and c are of one package.
fn same_package(ws: &[u32], text: &[u8], a: u32, c: u32) -> bool
    ensures { result ≡ same_bytes (package_at ws.now text.now a) (package_at ws.now text.now c) }
{
    text::same(
        package_of(class_sheet::class_name(ws, text, a)),
        package_of(class_sheet::class_name(ws, text, c)),
    )
}

// Whether method k of class a is open to class c.
#[tactic(auto, unfolding(linking::specs::Packages::open_to))]
fn open_to(ws: &[u32], text: &[u8], k: u32, a: u32, c: u32) -> bool
    ensures { result ≡ open_to ws.now text.now k a c }
{
    let flags = class_sheet::method_flags(ws, k);
    class_sheet::is_public(flags)
        || class_sheet::is_protected(flags)
        || (!class_sheet::is_private(flags) && same_package(ws, text, a, c))
}

// ---- what a method overrides

// Whether method k of class a is overridden by method m, which has reached the classes of the list.
#[tactic(auto, unfolding(linking::specs::Packages::is_overridden))]
fn is_overridden(sheets: Sheets, m: u32, reached: &[u32], a: u32, k: u32) -> bool
    ensures { result ≡ of_walk is_overridden sheets.entry m reached.now a k }
{
    !class_sheet::is_static(class_sheet::method_flags(sheets.set, k))
        && chain::same_methods(sheets.numbers, k, m)
        && open_to_some(sheets.set, sheets.text, k, a, reached)
}

// Whether it is open to one of the classes.
fn open_to_some(ws: &[u32], text: &[u8], k: u32, a: u32, classes: &[u32]) -> bool
    ensures { result ≡ some (open_to ws.now text.now k a) classes.now }
{
    classes.iter().any(|c| open_to(ws, text, k, a, *c))
}

// Marks the methods of class a that are overridden, and answers whether one of them is not private.
fn mark_class(sheets: Sheets, m: u32, reached: &[u32], a: u32, marks: &mut [bool; METHODS]) -> bool
    ensures marked { marks.new ≡ fold mark marks.old (of_walk overridden_in sheets.entry m reached.now a) }
    ensures is { result ≡ some (λ k. not (is_private (method_flags sheets.entry.set.now k))) (of_walk overridden_in sheets.entry m reached.now a) }
{
    let first = class_sheet::class_first_method(sheets.set, a);
    let count = chain::method_count(sheets.set, a);
    let mut open = false;
    for k in first..first + count {
        if is_overridden(sheets, m, reached, a, k) {
            words::put(marks, k as usize, true);
            open |= !class_sheet::is_private(class_sheet::method_flags(sheets.set, k));
        }
    }
    open
}

// Marks the methods of a's chain that method m overrides, which has reached these classes.
fn mark_above(sheets: Sheets, m: u32, reached: &mut Reached, a: u32, marks: &mut [bool; METHODS])
    requires { length reached.old + a ≤ class_limit }
    ensures { marks.new ≡ fold mark marks.old (of_walk overridden_along sheets.entry m reached.old (chain sheets.entry.set.now a)) }
{
    if a == 0 {
        return;
    }
    if mark_class(sheets, m, reached.as_slice(), a, marks) {
        reached.push(a);
    }
    mark_above(sheets, m, reached, chain::parent_of(sheets.set, a), marks);
}

// Marks the methods that method m of class c overrides; what is marked before stays so.
fn mark_overridden(sheets: Sheets, c: u32, m: u32, marks: &mut [bool; METHODS])
    requires { c ≤ class_limit }
    ensures { marks.new ≡ fold mark marks.old (of_walk overridden sheets.entry c m) }
{
    if !chain::is_virtual(class_sheet::method_flags(sheets.set, m)) {
        return;
    }
    let mut reached = Reached::new();
    reached.push(c);
    mark_above(
        sheets,
        m,
        &mut reached,
        chain::parent_of(sheets.set, c),
        marks,
    );
}

// ---- the introducing methods

// Lays the marks of class d's table, if it is linked, over the first of `tops`.
fn lay_class(
    sheets: Sheets,
    area: &[u32],
    d: u32,
    read: &mut ReadTable,
    classes: &mut [u32; TABLE_LIMIT],
    tops: &mut [u32; TABLE_LIMIT],
)
    ensures { of_numbers Laid sheets.entry area.now d tops.old tops.new }
{
    if class_sheet::class_table_place(sheets.set, d) == 0 {
        return;
    }
    reading::table_entries(sheets, area, d, read, classes);
    let marks = &read.marks;
    words::store_each(tops, read.len as usize, |i| words::get_or(marks, i, 0));
}

// Lays the marks of the tables of d's chain over the first of `tops`. The topmost class of the chain that has a slot is laid last.
fn lay_chain(
    sheets: Sheets,
    area: &[u32],
    d: u32,
    read: &mut ReadTable,
    classes: &mut [u32; TABLE_LIMIT],
    tops: &mut [u32; TABLE_LIMIT],
)
    ensures { of_numbers LaidUp sheets.entry area.now d tops.old tops.new }
{
    if d == 0 {
        return;
    }
    lay_class(sheets, area, d, read, classes, tops);
    let e = chain::parent_of(sheets.set, d);
    lay_chain(sheets, area, e, read, classes, tops);
}

// The marks of the methods that introduced the slots of class p's table: those of the tables of its chain, laid over nothing.
fn introducing_marks(sheets: Sheets, area: &[u32], p: u32, tops: &mut [u32; TABLE_LIMIT])
    requires { tops.old ≡ replicate 1024 0 }
    ensures { of_numbers Tops sheets.entry area.now p tops.new }
{
    let mut read = Table::for_reading();
    let mut classes = [0u32; TABLE_LIMIT];
    lay_chain(sheets, area, p, &mut read, &mut classes, tops);
}

// ---- the table

// Whether the slot whose introducing method has mark k is taken.
#[tactic(auto, unfolding(crate::specs::Marks::taken_by))]
fn is_taken(k: u32, marks: &[bool; METHODS]) -> bool
    ensures { result ≡ taken_by (method_of k) marks.now }
{
    reading::method_of(k).is_some_and(|m| words::get_or(marks, m as usize, false))
}

// Stores the slot at each of the n inherited ones that is taken, and answers whether there is one.
fn store_taken(
    tops: &[u32; TABLE_LIMIT],
    marks: &[bool; METHODS],
    n: u32,
    table: &mut BuiltTable,
    slot: Slot,
) -> bool
    ensures slots { entries table.new ≡ fold (λ l j. set l j (entry slot)) (entries table.old) (taken_in tops.now marks.now n) }
    ensures len { table.new.len ≡ table.old.len }
    ensures is { result ≡ is_some (taken_in tops.now marks.now n) }
{
    let mut taken = false;
    for i in 0..n {
        if is_taken(words::get_or(tops, i as usize, 0), marks) {
            table.put(i, slot);
            taken = true;
        }
    }
    taken
}

// Puts method m at each of the n inherited slots that is taken by these marks, or else after the last.
#[tactic(auto, using(crate::proofs::TakeLaws::take_some))]
fn put_taken(
    ws: &[u32],
    tops: &[u32; TABLE_LIMIT],
    marks: &[bool; METHODS],
    m: u32,
    n: u32,
    table: &mut BuiltTable,
)
    requires { (m < method_limit) × (table.old.len < 3584) }
    ensures is { entries table.new ≡ put_taken (method_entry ws.now m) (entries table.old) (taken_in tops.now marks.now n) }
    ensures count { (table.old.len ≤ table.new.len) × (table.new.len ≤ table.old.len + 1) }
{
    let slot = Slot::of_method(ws, m);
    if store_taken(tops, marks, n, table, slot) {
        return;
    }
    table.push(slot);
}

// Gives method m its slots, if it is eligible: those of the n inherited ones that it takes, or a new one after the last.
fn take_slots(
    sheets: Sheets,
    tops: &[u32; TABLE_LIMIT],
    c: u32,
    m: u32,
    n: u32,
    table: &mut BuiltTable,
)
    requires { (c ≤ class_limit) × (m < method_limit) × (table.old.len < 3584) }
    ensures is { entries table.new ≡ of_walk take_slots sheets.entry (top_of tops.now) n c (entries table.old) m }
    ensures count { (table.old.len ≤ table.new.len) × (table.new.len ≤ table.old.len + 1) }
{
    if !chain::eligible(sheets.set, sheets.text, m) {
        return;
    }
    let mut marks = [false; METHODS];
    mark_overridden(sheets, c, m, &mut marks);
    put_taken(sheets.set, tops, &marks, m, n, table);
}

// Gives each of class c's own methods its slots, in their order: the table holds the inherited ones.
fn take_all(sheets: Sheets, tops: &[u32; TABLE_LIMIT], c: u32, table: &mut BuiltTable)
    requires { (c ≤ class_limit) × (table.old.len ≤ 1024) }
    ensures is { entries table.new
        ≡ fold (of_walk take_slots sheets.entry (top_of tops.now) table.old.len c) (entries table.old) (own_methods sheets.entry.set.now c) }
    ensures count { table.new.len ≤ 1536 }
{
    let inherited = table.len;
    let first = class_sheet::class_first_method(sheets.set, c);
    let count = chain::method_count(sheets.set, c);
    for m in first..first + count {
        take_slots(sheets, tops, c, m, inherited, table);
    }
}

// Fills the table with class c's: the parent's entries, and its own methods. None for a number above the limit, which rows 3 and 6 refuse. What
// the table's arrays hold past its slots is the program's choice and means nothing.
pub fn build_packages(sheets: Sheets, area: &[u32], c: u32, table: &mut BuiltTable)
    ensures is { entries table.new ≡ of_numbers build_packages sheets.entry area.now c }
    ensures count { table.new.len ≤ 1536 }
{
    if class_sheet::CLASS_LIMIT < c {
        table.clear();
        return;
    }
    reading::parent_entries(sheets, area, c, table);
    let mut tops = [0u32; TABLE_LIMIT];
    introducing_marks(sheets, area, chain::parent_of(sheets.set, c), &mut tops);
    take_all(sheets, &tops, c, table);
}

// ---- row 26

// Whether a class of c's chain passes the test.
fn some_above<F: Fn(u32) -> bool>(ws: &[u32], c: u32, test: &F) -> bool
    requires { F.IsAlwaysCallable test.now }
    ensures { (p : ℕ → Bool) → ((d : ℕ) (r : Bool) → F.post test.now d r → r ≡ p d) → result ≡ some p (chain ws.now c) }
{
    c != 0 && (test(c) || some_above(ws, chain::parent_of(ws, c), test))
}

// Whether class d may not stand on the chain of a class of kind 3.
#[tactic(auto, unfolding(linking::specs::Packages::unfit_for_packages))]
fn is_unfit(sheets: Sheets, d: u32) -> bool
    ensures { result ≡ of_sheets unfit_for_packages sheets.entry d }
{
    !class_sheet::has_kind(sheets.set, d, Kind::Packaged)
        || class_sheet::is_interface(class_sheet::class_flags(sheets.set, d))
        || abi::class_abi(sheets, d).is_some()
}

// Row 26.
#[tactic(auto, unfolding(linking::specs::Packages::bad_packages))]
pub fn bad_packages(sheets: Sheets, c: u32) -> bool
    ensures { result ≡ of_sheets bad_packages sheets.entry c }
{
    if class_sheet::has_kind(sheets.set, c, Kind::Packaged) {
        return some_above(sheets.set, c, &|d| is_unfit(sheets, d));
    }
    some_above(
        sheets.set,
        c,
        &|d| class_sheet::has_kind(sheets.set, d, Kind::Packaged),
    )
}
