// A generated class with a compiler table: its virtual table (`build_from_compiler_vtable`) and the methods that are added to it.
// Methods are numbered on: below 512 those of the sheet, 512 + j the j-th that is added.
#![tactic(auto)]

ghost use Rattle.std.specs.Prelude.{◌≡◌, None, ◌++◌, ◌+◌, ◌-◌, ◌≤◌, ◌<◌, length, get_or, eqb};
ghost use Rattle.words.specs.Lists.{numbers, find, first_found, fold, some};
ghost use Rattle.class_sheet.specs.ClassSheet.{method_limit};
ghost use Rattle.linking.specs.Vtable.{empty};
ghost use Rattle.linking.specs.Compiler.{place_of, name_of, flags_of, target_of, class_methods, entry_target, match_target, compiler_entry, compiler_entries, compiler_targets, has_slot, append_from, append_entry, compiler_table, added_methods};
ghost use Rattle.reading.specs.Arrays.{mark_of, method_of};
ghost use Rattle.reading.specs.Tables.{entry, entries};
ghost use Rattle.growth.specs.News.{ref_place, added_of};
ghost use Rattle.compiler.specs.Methods.{of_added, of_members, of_methods, compared, has_target, number_of, has_number, takes_slot};
ghost use Rattle.linking.specs.Sheets.{of_sheets, of_numbers};

use growth::{Named, News};
use linking::Sheets;
use reading::{BuiltTable, ReadTable, Slot, Table};

// The sheets and the members that the link adds, which names, flags and targets of methods are looked up in.
#[derive(Clone, Copy)]
struct Members<'a> {
    sheets: Sheets<'a>,
    news: &'a News,
}

impl<'a> Members<'a> {
    // What method m, of the sheet or an added one, takes its signature from; method 0 where there is none.
    #[tactic(auto, using(crate::proofs::MethodLaws::place_own, crate::proofs::MethodLaws::place_added, crate::proofs::MethodLaws::place_none))]
    fn ref_of(self, m: u32) -> Named
        ensures { ref_place result ≡ of_added place_of self.entry m }
    {
        if m < class_sheet::METHOD_LIMIT {
            return Named::Method(m);
        }
        self.news
            .get((m - class_sheet::METHOD_LIMIT) as usize)
            .map_or(Named::Method(0), |new| new.names)
    }

    // The number of method m's signature.
    #[tactic(auto, unfolding(crate::specs::Methods::number_of, growth::specs::News::ref_number))]
    fn number_of(self, m: u32) -> u32
        ensures { result ≡ of_added (number_of self.entry.sheets.numbers.now) self.entry m }
    {
        growth::ref_number(self.sheets.numbers, self.ref_of(m))
    }

    // The name of method m; empty where there is none.
    #[tactic(auto, using(crate::proofs::MethodLaws::name_own, crate::proofs::MethodLaws::name_added, crate::proofs::MethodLaws::name_none))]
    fn name_of(self, m: u32) -> &'a [u8]
        ensures { result.now ≡ of_members name_of self.entry m }
    {
        if m < class_sheet::METHOD_LIMIT {
            return class_sheet::method_name(self.sheets.set, self.sheets.text, m);
        }
        if let Some(new) = self.news.get((m - class_sheet::METHOD_LIMIT) as usize) {
            return growth::ref_signature(self.sheets, new.names).name;
        }
        words::part(self.sheets.text, 0, 0)
    }

    // The flags of method m.
    #[tactic(auto, using(crate::proofs::MethodLaws::flags_own, crate::proofs::MethodLaws::flags_added, crate::proofs::MethodLaws::flags_none))]
    fn flags_of(self, m: u32) -> u32
        ensures { result ≡ of_methods flags_of self.entry m }
    {
        if m < class_sheet::METHOD_LIMIT {
            return class_sheet::method_flags(self.sheets.set, m);
        }
        self.news
            .get((m - class_sheet::METHOD_LIMIT) as usize)
            .map_or(0, |new| new.flags)
    }

    // The target of method m.
    #[tactic(auto, using(crate::proofs::MethodLaws::target_own, crate::proofs::MethodLaws::target_added, crate::proofs::MethodLaws::target_none))]
    fn target_of(self, m: u32) -> u32
        ensures { result ≡ of_methods target_of self.entry m }
    {
        if m < class_sheet::METHOD_LIMIT {
            return class_sheet::method_target(self.sheets.set, m);
        }
        self.news
            .get((m - class_sheet::METHOD_LIMIT) as usize)
            .map_or(0, |new| new.last)
    }

    // Whether method m has target t.
    fn target_is(self, m: u32, t: u32) -> bool
        ensures { result ≡ eqb (of_methods target_of self.entry m) t }
    {
        self.target_of(m) == t
    }

    // The first of `count` methods from `first` on that has target t.
    fn target_in(self, first: u32, count: u32, t: u32) -> Option<u32>
        requires { first + count ≤ 4294967295 }
        ensures { result ≡ find (λ m. eqb (of_methods target_of self.entry m) t) (numbers first count) }
    {
        words::find_in(first, first + count, |m| self.target_is(m, t))
    }

    // Whether the slot's method has target t.
    #[tactic(auto, using(crate::proofs::EntryLaws::target_known, crate::proofs::EntryLaws::target_unknown))]
    fn has_target(self, slot: Slot, t: u32) -> bool
        ensures { result ≡ of_methods has_target self.entry t (entry slot) }
    {
        match slot.method() {
            Some(m) => self.target_is(m, t),
            None => false,
        }
    }

    // The method of the first slot of the view whose method has target t.
    fn view_target(self, view: &ReadTable, t: u32) -> Option<u32>
        ensures is { result ≡ first_found (of_methods entry_target self.entry t) (entries view.now) }
        ensures marked { method_of (mark_of result) ≡ result }
    {
        view.slots()
            .find(|slot| self.has_target(*slot, t))?
            .method()
    }

    // The first method with target t: declared, added, or of the native view's slots. A mark can hold it.
    fn match_target(self, c: u32, view: &ReadTable, t: u32) -> Option<u32>
        ensures is { result ≡ of_methods match_target self.entry c (entries view.now) t }
        ensures marked { method_of (mark_of result) ≡ result }
    {
        let first = class_sheet::class_first_method(self.sheets.set, c);
        let count = chain::method_count(self.sheets.set, c);
        if let Some(m) = self.target_in(first, count, t) {
            return Some(m);
        }
        if let Some(m) = self.target_in(class_sheet::METHOD_LIMIT, self.news.len() as u32, t) {
            return Some(m);
        }
        self.view_target(view, t)
    }

    // Slot i of the compiler table, whose target is t.
    #[tactic(auto, using(crate::proofs::EntryLaws::slot_zero, crate::proofs::EntryLaws::slot_match))]
    fn entry_slot(self, c: u32, view: &ReadTable, i: u32, t: u32) -> Slot
        ensures { entry result ≡ of_methods compiler_entry self.entry c (entries view.now) i t }
    {
        if t == 0 {
            return view.slot(i);
        }
        Slot {
            word: t,
            mark: reading::mark_of(self.match_target(c, view, t)),
        }
    }

    // Fills the table with the slots of class c's compiler table.
    fn compiler_entries(self, c: u32, view: &ReadTable, table: &mut BuiltTable)
        ensures is { entries table.new ≡ of_methods compiler_entries self.entry c (entries view.now) 0 (compiler_targets self.entry.sheets.set.now c) }
        ensures count { table.new.len ≤ 1024 }
    {
        let count = native_view::compiler_count(self.sheets.set, c);
        table.fill(
            count,
            |i| self.entry_slot(
                c,
                view,
                i,
                native_view::compiler_target(self.sheets.set, c, i),
            ),
        );
    }

    // Whether the slot's method has this number.
    #[tactic(auto, using(crate::proofs::MethodLaws::number_known, crate::proofs::MethodLaws::number_unknown))]
    fn has_number(self, number: u32, slot: Slot) -> bool
        ensures { result ≡ of_added (has_number self.entry.sheets.numbers.now) self.entry number (entry slot) }
    {
        match slot.method() {
            Some(m) => number == self.number_of(m),
            None => false,
        }
    }

    // Whether a slot of the table has method m's signature.
    fn has_slot(self, m: u32, table: &BuiltTable) -> bool
        ensures { result ≡ of_added (has_slot (compared self.entry)) self.entry m (entries table.now) }
    {
        let number = self.number_of(m);
        table.slots().any(|slot| self.has_number(number, slot))
    }

    // Whether method m takes a slot behind those of the table: it is eligible, and none of them has its signature.
    #[tactic(auto, using(crate::proofs::AppendLaws::takes_none, crate::proofs::AppendLaws::takes_new))]
    fn takes_slot(self, table: &BuiltTable, m: u32) -> bool
        ensures { result ≡ of_members (takes_slot (compared self.entry)) self.entry (entries table.now) m }
    {
        if !chain::is_eligible(self.flags_of(m), self.name_of(m)) {
            return false;
        }
        !self.has_slot(m, table)
    }

    // Appends the slot's method, if it has one that takes a slot.
    fn append(self, slot: Slot, table: &mut BuiltTable)
        requires { table.old.len < 3584 }
        ensures is { entries table.new ≡ of_members (append_entry (compared self.entry)) self.entry (entries table.old) (entry slot) }
        ensures count { table.new.len ≤ table.old.len + 1 }
    {
        let Some(m) = slot.method() else {
            return;
        };
        if self.takes_slot(table, m) {
            table.push(Slot {
                word: self.target_of(m),
                mark: slot.mark,
            });
        }
    }

    // Appends each of `count` methods from `first` on that takes a slot.
    fn append_from(self, first: u32, count: u32, table: &mut BuiltTable)
        requires { (count ≤ 4095 - first) × (table.old.len + count ≤ 3584) }
        ensures is { entries table.new ≡ fold (of_members (append_from (compared self.entry)) self.entry None) (entries table.old) (numbers first count) }
        ensures count { table.new.len ≤ table.old.len + count }
    {
        for m in first..first + count {
            let mark = reading::mark_of(Some(m));
            self.append(Slot { word: 0, mark }, table);
        }
    }

    // Appends class c's declared methods and the added ones.
    fn append_methods(self, c: u32, table: &mut BuiltTable)
        requires { table.old.len ≤ 1024 }
        ensures is { entries table.new
            ≡ fold (of_members (append_from (compared self.entry)) self.entry None) (entries table.old) (of_methods class_methods self.entry c) }
        ensures count { table.new.len ≤ 2560 }
    {
        let first = class_sheet::class_first_method(self.sheets.set, c);
        let own = chain::method_count(self.sheets.set, c);
        self.append_from(first, own, table);
        self.append_from(class_sheet::METHOD_LIMIT, self.news.len() as u32, table);
    }

    // Appends the methods of the parent's slots.
    fn append_parent(self, parent: &ReadTable, table: &mut BuiltTable)
        requires { table.old.len ≤ 2560 }
        ensures { entries table.new ≡ fold (of_members (append_entry (compared self.entry)) self.entry) (entries table.old) (entries parent.now) }
    {
        for slot in parent.slots() {
            self.append(slot, table);
        }
    }

    // Fills the table with class c's, by the added methods, the parent's slots and the native view of them.
    fn compiler_table(self, c: u32, parent: &ReadTable, view: &ReadTable, table: &mut BuiltTable)
        ensures { entries table.new
            ≡ fold (of_members (append_entry (compared self.entry)) self.entry) (fold (of_members (append_from (compared self.entry)) self.entry None)
            (of_methods compiler_entries self.entry c (entries view.now) 0 (compiler_targets self.entry.sheets.set.now c))
            (of_methods class_methods self.entry c)) (entries parent.now) }
    {
        self.compiler_entries(c, view, table);
        self.append_methods(c, table);
        self.append_parent(parent, table);
    }
}

// Fills the table with the virtual table of class c, which has a compiler table, and the list with the methods that are added to it.
pub fn prepare_generated(
    sheets: Sheets,
    area: &[u32],
    c: u32,
    table: &mut BuiltTable,
    news: &mut News,
)
    ensures table { entries table.new ≡ of_numbers compiler_table sheets.entry area.now c }
    ensures members { of_sheets added_of sheets.entry news.new ≡ of_numbers added_methods sheets.entry area.now c }
    ensures count { length news.new ≤ 1024 }
{
    let mut parent = Table::for_reading();
    let mut view = Table::for_reading();
    native_view::native_view(sheets, area, c, &mut parent, &mut view, news);
    Members { sheets, news }.compiler_table(c, &parent, &view, table);
}
