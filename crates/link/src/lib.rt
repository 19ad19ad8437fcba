// `link`: rows 3 to 15 and 26 in the table's order, and what an accepted link leaves in the class words, the area and the list of missing slots.
#![tactic(auto)]

ghost use Rattle.std.specs.Prelude.{◌≡◌, false};
ghost use Rattle.linking.specs.Signature.{by_numbers};
ghost use Rattle.linking.specs.Link.{new_statics, linked_record, lists_full, set_short};
ghost use Rattle.linking.specs.Numbers.{numbers_short};
ghost use Rattle.linking.specs.Numbered.{link_numbered};
ghost use Rattle.growth.specs.News.{news_of, added_of};
ghost use Rattle.refusal.specs.Rows.{row_of};
ghost use Rattle.link.specs.Stored.{numbered_outcome, link_long, of_growing, numbered, with_methods, stored_news, numbers_stored, room_row, Fitting, Texts, Accepted, Judged, Storable};
ghost use Rattle.linking.specs.Sheets.{of_numbers, of_lent};

use area::Answer;
use class_sheet::Kind;
use growth::News;
use linking::{Lent, Sheets};
use plan::Plan;
use refusal::Refusal;

// The static words that a link gives class c, unless it is generated.
fn new_statics(set: &[u32], text: &[u8], c: u32) -> u32
    ensures { result ≡ new_statics set.now text.now c }
{
    if class_sheet::is_built(set, c) {
        return field::static_words(set, text, c);
    }
    0
}

// What a link leaves in a class's record: the place of its table and how many slots it has, its instance words and its static words.
#[derive(Clone, Copy)]
struct Linked {
    place: u32,
    slots: u32,
    words: u32,
    statics: u32,
}

// Stores place and slot count in class c's record and, unless the class is generated, the instance words and static words.
fn record_link(set: &mut [u32], c: u32, linked: Linked)
    ensures { set.new ≡ linked_record set.old c linked.place linked.slots linked.words linked.statics }
{
    let generated = class_sheet::has_kind(set, c, Kind::Generated);
    class_sheet::put_class_table_place(set, c, linked.place);
    class_sheet::put_class_slot_count(set, c, linked.slots);
    if !generated {
        class_sheet::put_class_instance_words(set, c, linked.words);
        class_sheet::put_class_static_words(set, c, linked.statics);
    }
}

// Stores the record, and the indices of the class's own fields.
#[tactic(auto, using(crate::proofs::StoreLaws::indices_stored))]
fn store_indices(set: &mut [u32], c: u32, linked: Linked, indices: &[u32])
    ensures { set.new ≡ numbered set.old c linked.place linked.slots linked.words linked.statics indices.now }
{
    let at = class_sheet::fields_at(set);
    let first = class_sheet::class_first_field(set, c);
    record_link(set, c, linked);
    growth::put_indices(set, at, first, indices);
}

// Adds the new methods, if there are any.
#[tactic(auto, using(crate::proofs::StoreLaws::methods_none, crate::proofs::StoreLaws::methods_some))]
fn store_methods(set: &mut [u32], c: u32, lent: Lent, news: &News)
    ensures { set.new ≡ with_methods set.old c (of_lent news_of set.old lent.entry news.now) }
{
    if news.len() != 0 {
        growth::grow_methods(set, c, lent, news);
    }
}

// Stores the numbers of the methods that class c's list has once the new ones are added, if there are any.
fn store_numbers(set: &[u32], c: u32, numbers: &mut [u32], news: &News)
    requires { Storable set.now c numbers.old news.now }
    ensures { numbers.new ≡ numbers_stored set.now c numbers.old news.now }
{
    if !class_sheet::is_built(set, c) & (news.len() != 0) {
        growth::grow_numbers(numbers, growth::growing(set, c), news);
    }
}

// Stores what an accepted link leaves in the class words: new fields of a built class or new methods of another, the record, and the
// indices of the class's own fields.
fn store_link(set: &mut [u32], c: u32, linked: Linked, indices: &[u32], lent: Lent, news: &News)
    ensures { set.new ≡ stored_news set.old c linked.place linked.slots linked.words linked.statics indices.now
        (of_lent added_of set.old lent.entry news.now) }
{
    if class_sheet::is_built(set, c) & (news.len() != 0) {
        growth::grow_fields(set, c, indices, lent, news);
        record_link(set, c, linked);
        return;
    }
    store_methods(set, c, lent, news);
    store_indices(set, c, linked, indices);
}

// A class of the sheets, and the members that its link adds.
#[derive(Clone, Copy)]
struct Growing<'a> {
    sheets: Sheets<'a>,
    c: u32,
    news: &'a News,
}

impl<'a> Growing<'a> {
    // Row 14: whether the list that grows, or the text, would exceed its limit.
    #[tactic(auto, using(crate::proofs::StoreLaws::full_is))]
    fn lists_full(self) -> bool
        ensures { result ≡ of_growing lists_full self.entry }
    {
        let list = growth::growing(self.sheets.set, self.c);
        (self.news.len() != 0) & growth::section_full(self.sheets, list, self.news)
    }

    // Row 15, of the set: whether its slice has too few words for the grown sections.
    #[tactic(auto, using(crate::proofs::StoreLaws::short_is))]
    fn set_short(self) -> bool
        ensures { result ≡ of_growing set_short self.entry }
    {
        let set = self.sheets.set;
        let list = growth::growing(set, self.c);
        (self.news.len() != 0) & (set.len() < growth::grown_end(self.sheets, list, self.news))
    }

    // Rows 14 and 15 of a link with a table of n slots.
    fn room_row(self, area: &[u32], stubs: &[u32], missing: &[u32], n: usize) -> Result<(), Refusal>
        ensures { row_of result ≡ of_growing room_row self.entry area.now stubs.now missing.now n }
    {
        if self.lists_full() {
            return Err(Refusal::FullLists);
        }
        let short = self.set_short();
        if area::no_room(area, stubs, n) | short | missing::is_short(self.sheets.set, missing) {
            return Err(Refusal::ShortMemory);
        }
        Ok(())
    }
}

// Rows 8 to 15 of a set, a class and an area that rows 3 to 7 and 26 accept: what the link comes to, with its table and new members. Not inlined, so that
// its arrays are gone from the stack when the link is stored.
#[inline(never)]
fn judge(
    sheets: Sheets,
    c: u32,
    area: &[u32],
    stubs: &[u32],
    missing: &[u32],
    made: &mut Plan,
) -> Result<(), Refusal>
    requires { Accepted sheets.set.now sheets.abi.now c area.now sheets.text.now sheets.labels.now }
    ensures { of_numbers Judged sheets.entry c area.now stubs.now missing.now result made.new }
{
    plan::plan_link(sheets, area, c, made)?;
    let growing = Growing {
        sheets,
        c,
        news: &made.news,
    };
    growing.room_row(area, stubs, missing, made.table.len as usize)
}

// The same rows and the effect, of the sheets' texts. Nothing is written before the last refusal.
fn link_planned(
    set: &mut [u32],
    c: u32,
    lent: Lent,
    numbers: &mut [u32],
    area: &mut [u32],
    stubs: &[u32],
    missing: &mut [u32],
) -> Result<Answer, Refusal>
    requires { (Accepted set.old lent.abi.now c area.old lent.text.now lent.labels.now) × (numbers_short numbers.old ≡ false) }
    ensures { numbered_outcome result set.new area.new missing.new numbers.new
        ≡ link_long set.old lent.entry.abi.now numbers.old c area.old stubs.now missing.old }
{
    let mut made = Plan::new();
    let sheets = Sheets {
        set,
        text: lent.text,
        abi: lent.abi,
        labels: lent.labels,
        numbers,
    };
    judge(sheets, c, area, stubs, missing, &mut made)?;
    let table = &made.table;
    let linked = Linked {
        place: words::get_or(area, 0, 0),
        slots: table.len,
        words: made.fields.words,
        statics: new_statics(set, lent.text, c),
    };
    let parent = chain::parent_of(set, c);
    missing::count_class(missing, c, parent, &table.words, &table.marks, table.len);
    area::write_table(area, c, &table.words, table.len as usize, stubs);
    store_numbers(set, c, numbers, &made.news);
    let indices = made.fields.indices.as_slice();
    store_link(set, c, linked, indices, lent, &made.news);
    Ok(Answer {
        first: linked.place,
        second: linked.slots,
    })
}

// Rows 6, 7, 26 and 8 to 15, and the effect, of sheets that rows 3 to 5 accept, and their texts.
fn link_read(
    set: &mut [u32],
    c: u32,
    lent: Lent,
    numbers: &mut [u32],
    area: &mut [u32],
    stubs: &[u32],
    missing: &mut [u32],
) -> Result<Answer, Refusal>
    requires { (Texts set.old lent.abi.now lent.text.now lent.labels.now) × (numbers_short numbers.old ≡ false) }
    ensures { numbered_outcome result set.new area.new missing.new numbers.new
        ≡ link_long set.old lent.entry.abi.now numbers.old c area.old stubs.now missing.old }
{
    if call_rules::bad_class(set, lent.text, c) {
        return Err(Refusal::Class);
    }
    if call_rules::bad_area(set, area) {
        return Err(Refusal::Area);
    }
    if packages::bad_packages(
        Sheets {
            set,
            text: lent.text,
            abi: lent.abi,
            labels: lent.labels,
            numbers,
        },
        c,
    ) {
        return Err(Refusal::MixedPackages);
    }
    link_planned(set, c, lent, numbers, area, stubs, missing)
}

// Rows 4 to 15 and 26, and the effect, of sheets that row 3 accepts, and their texts.
fn link_fitting(
    set: &mut [u32],
    c: u32,
    lent: Lent,
    numbers: &mut [u32],
    area: &mut [u32],
    stubs: &[u32],
    missing: &mut [u32],
) -> Result<Answer, Refusal>
    requires { (Fitting set.old lent.abi.now lent.text.now lent.labels.now) × (numbers_short numbers.old ≡ false) }
    ensures { numbered_outcome result set.new area.new missing.new numbers.new
        ≡ link_long set.old lent.entry.abi.now numbers.old c area.old stubs.now missing.old }
{
    set_rules::records_refusal(set, lent.text, lent.abi, lent.labels)?;
    link_read(set, c, lent, numbers, area, stubs, missing)
}

// Links the class. The answer is the place of its table in the area, where the class number and the slots follow, and the number of its
// slots; or the row that refuses. The table goes to the area's next free word, and word 0 of the area moves past it. The class's record
// gets place, slot count and, unless it is generated, instance words and static words; its fields get their indices; ABI fields and compiler methods that
// it lacks are added. The class's 33 words of the list `missing` get the number of its missing slots and a bit for each. Signatures are matched by the
// numbers of the list `numbers`, which gets those of the methods that are copied and added. Rows 3 to 5 are judged anew, and a refused link writes
// nothing. Nothing of this is left to the program; where the specification is silent, docs/DECISIONS.md has the reading.
pub fn link(
    set: &mut [u32],
    abi: &[u32],
    numbers: &mut [u32],
    class: u32,
    area: &mut [u32],
    stubs: &[u32],
    missing: &mut [u32],
) -> Result<Answer, Refusal>
    ensures { numbered_outcome result set.new area.new missing.new numbers.new
        ≡ link_numbered set.old abi.now numbers.old class area.old stubs.now missing.old }
{
    if signatures::is_short(numbers) {
        return Err(Refusal::Form);
    }
    if !set_rules::set_fits(set, abi) {
        return Err(Refusal::Form);
    }
    let mut room = [0u8; class_sheet::TEXT_LIMIT as usize];
    let text = class_sheet::text_bytes(set, &mut room);
    let mut label_room = [0u8; abi_sheet::TEXT_LIMIT as usize];
    let labels = abi_sheet::text_bytes(abi, &mut label_room);
    let lent = Lent { text, abi, labels };
    link_fitting(set, class, lent, numbers, area, stubs, missing)
}
