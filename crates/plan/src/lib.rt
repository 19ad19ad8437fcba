// What a link comes to before anything is written: rows 8 to 13, by the class's kind.
#![tactic(auto)]

ghost use Rattle.std.specs.Prelude.{◌≡◌, true, false, [], IfErr};
ghost use Rattle.class_sheet.specs.ClassSheet.{class_kind, is_built_kind};
ghost use Rattle.linking.specs.Link.{built_table, generated_table, generated_methods, plan_built, plan_generated, plan_array, plan};
ghost use Rattle.linking.specs.Vtable.{built};
ghost use Rattle.growth.specs.News.{added_of};
ghost use Rattle.linking.specs.Sheets.{of_sheets, of_numbers};
ghost use Rattle.reading.specs.Tables.{entries};
ghost use Rattle.field.specs.Numbers.{no_fields, with_fields};
ghost use Rattle.vtable.specs.Tables.{step_of};
ghost use Rattle.plan.specs.Plans.{few_slots, Leaves, Nothing};

use class_sheet::Kind;
use field::Numbered;
use growth::News;
use linking::Sheets;
use reading::{BuiltTable, TABLE_LIMIT, Table};
use refusal::Refusal;

// What a link comes to before anything is written: the class's table, the indices of its own fields with its instance words, and the members
// that it adds.
#[derive(Drop)]
pub struct Plan {
    pub table: BuiltTable,
    pub fields: Numbered,
    pub news: News,
}

impl Plan {
    // One of nothing.
    pub fn new() -> Plan
        ensures table { entries result.table ≡ [] }
        ensures fields { result.fields ≡ no_fields }
        ensures news { result.news ≡ [] }
    {
        Plan {
            table: Table::for_building(),
            fields: Numbered::new(),
            news: News::new(),
        }
    }

    // So again, whatever it was.
    fn clear(&mut self)
        ensures { Nothing self.new }
    {
        self.table.clear();
        self.fields.clear();
        self.news.clear();
    }
}

// Row 13, more than 1,024 slots.
#[tactic(auto, using(crate::proofs::KindLaws::few_many, crate::proofs::KindLaws::few_left))]
fn few_slots(table: &BuiltTable) -> Result<(), Refusal>
    ensures { step_of result (entries table.now) ≡ few_slots (built (entries table.now)) }
{
    if (TABLE_LIMIT as u32) < table.len {
        return Err(Refusal::ManySlots);
    }
    Ok(())
}

// Fills the table with a built class's, of any number of slots.
#[tactic(auto, unfolding(linking::specs::Link::built_table))]
fn built_table(sheets: Sheets, area: &[u32], c: u32, table: &mut BuiltTable) -> Result<(), Refusal>
    ensures { step_of result (entries table.new) ≡ of_numbers built_table sheets.entry area.now c }
{
    if class_sheet::has_kind(sheets.set, c, Kind::Packaged) {
        packages::build_packages(sheets, area, c, table);
        return Ok(());
    }
    if class_sheet::is_interface(class_sheet::class_flags(sheets.set, c)) {
        vtable::build_interface_methods(sheets.set, sheets.text, c, table);
        return Ok(());
    }
    vtable::build_methods(sheets, area, c, table)
}

// Fills the table with a generated class's, of any number of slots, and the list with the methods that it adds: none without a compiler table.
#[tactic(auto, using(growth::proofs::NewsLaws::added_none), unfolding(linking::specs::Link::generated_table, linking::specs::Link::generated_methods))]
fn generated_table(
    sheets: Sheets,
    area: &[u32],
    c: u32,
    table: &mut BuiltTable,
    news: &mut News,
) -> Result<(), Refusal>
    ensures is { step_of result (entries table.new) ≡ of_numbers generated_table sheets.entry area.now c }
    ensures members { of_sheets added_of sheets.entry news.new ≡ of_numbers generated_methods sheets.entry area.now c }
{
    if class_sheet::class_compiler_table(sheets.set, c) == 0 {
        news.clear();
        return vtable::build_methods(sheets, area, c, table);
    }
    compiler::prepare_generated(sheets, area, c, table, news);
    Ok(())
}

// A built class: row 10, its table, and the ABI fields that it adds.
fn plan_built(sheets: Sheets, area: &[u32], c: u32, made: &mut Plan) -> Result<(), Refusal>
    requires { is_built_kind (class_kind sheets.set.now c) ≡ true }
    ensures { of_numbers (Leaves plan_built) sheets.entry area.now c (with_fields result made.new.fields) made.new }
{
    field::built_fields(sheets, c, &mut made.fields, &mut made.news)?;
    built_table(sheets, area, c, &mut made.table)?;
    few_slots(&made.table)
}

// A generated class: rows 8 and 9, its table, and the methods that it adds.
fn plan_generated(sheets: Sheets, area: &[u32], c: u32, made: &mut Plan) -> Result<(), Refusal>
    requires { is_built_kind (class_kind sheets.set.now c) ≡ false }
    ensures { of_numbers (Leaves plan_generated) sheets.entry area.now c (with_fields result made.new.fields) made.new }
{
    field::generated_fields(sheets.set, sheets.text, c, &mut made.fields)?;
    generated_table(sheets, area, c, &mut made.table, &mut made.news)?;
    few_slots(&made.table)
}

// An array class: the parent's entries, and no members.
fn plan_array(sheets: Sheets, area: &[u32], c: u32, made: &mut Plan)
    requires { is_built_kind (class_kind sheets.set.now c) ≡ false }
    ensures { of_numbers (Leaves plan_array) sheets.entry area.now c (Ok made.new.fields) made.new }
{
    reading::parent_entries(sheets, area, c, &mut made.table);
    made.fields.clear();
    made.news.clear();
}

// By the class's kind.
fn plan_kind(sheets: Sheets, area: &[u32], c: u32, made: &mut Plan) -> Result<(), Refusal>
    ensures { of_numbers (Leaves plan) sheets.entry area.now c (with_fields result made.new.fields) made.new }
{
    if class_sheet::is_built(sheets.set, c) {
        return plan_built(sheets, area, c, made);
    }
    if class_sheet::has_kind(sheets.set, c, Kind::Generated) {
        return plan_generated(sheets, area, c, made);
    }
    plan_array(sheets, area, c, made);
    Ok(())
}

// What a link of class c comes to before anything is written. That it is a plan of nothing where the link is refused is the program's choice.
pub fn plan_link(sheets: Sheets, area: &[u32], c: u32, made: &mut Plan) -> Result<(), Refusal>
    ensures is { of_numbers (Leaves plan) sheets.entry area.now c (with_fields result made.new.fields) made.new }
    ensures refused { IfErr result (λ _. Nothing made.new) }
{
    let planned = plan_kind(sheets, area, c, made);
    if planned.is_err() {
        made.clear();
    }
    planned
}
