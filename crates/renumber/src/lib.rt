// Renumbering the classes of a class sheet's words, so that parents come first.
#![tactic(auto)]

ghost use Rattle.std.specs.Prelude.{◌≡◌, not, [], ◌++◌, map, ◌+◌, ◌*◌, ◌≤◌, length, take, drop, IfOk};
ghost use Rattle.refusal.specs.Rows.{row_of};
ghost use Rattle.words.specs.Folds.{all_of};
ghost use Rattle.words.specs.Rows.{joined};
ghost use Rattle.class_sheet.specs.ClassSheet.{class_limit, class_width, class_count, content_end};
ghost use Rattle.set_rules.specs.Valid.{IsClass};
ghost use Rattle.renumber.specs.Renumber.{outcome, placed, ready, next_class, order_of, new_number, moved_record, renumbered, stray_parent, renumber_refusal, renumber_def};
ghost use Rattle.renumber.specs.Steps.{form_refusal, Complete, interfaces_mapped};

use refusal::Refusal;
use words::BoundedList;

// The words of a list of as many classes as there may be, and of their records.
const LIST_WORDS: usize = class_sheet::CLASS_LIMIT as usize;

const RECORD_WORDS: usize = class_sheet::CLASS_WIDTH * LIST_WORDS;

// Classes in their new order: no more than there may be.
#[derive(Clone, Copy)]
struct Order<'a> {
    list: &'a BoundedList<u32, LIST_WORDS>,
}

impl<'a> Order<'a> {
    // Class c's new number: its place in the list, counted from 1, or 0 where it is not there.
    fn new_number(self, c: u32) -> u32
        ensures { result ≡ new_number self.entry.list.now c }
    {
        match self.list.as_slice().iter().position(|x| *x == c) {
            Some(i) => i as u32 + 1,
            None => 0,
        }
    }

    // Replaces each word, the old number of a class, by its new number.
    fn map_numbers(self, part: &mut [u32])
        ensures { part.new ≡ map (new_number self.entry.list.now) part.old }
    {
        for x in part.iter_mut() {
            *x = self.new_number(*x);
        }
    }

    // Replaces the interface words of the set so.
    fn map_interfaces(self, set: &mut [u32])
        requires { content_end set.old ≤ length set.old }
        ensures { set.new ≡ interfaces_mapped set.old self.entry.list.now }
    {
        let at = class_sheet::interfaces_at(set);
        let end = class_sheet::compilers_at(set);
        self.map_numbers(&mut set[at..end]);
    }
}

// A set with the order of all its classes.
#[derive(Clone, Copy)]
struct Ordered<'a, 'b> {
    set: &'a [u32],
    order: Order<'b>,
    ghost complete: { Complete set.now order.list.now },
}

impl<'a, 'b> Ordered<'a, 'b> {
    // Puts class c's record, with its parent's new number, into the first words of a part.
    fn put_record(self, c: u32, part: &mut [u32])
        requires { IsClass self.set.now c × (class_width ≤ length part.old) }
        ensures { part.new ≡ moved_record self.entry.set.now self.entry.order.list.now c ++ drop class_width part.old }
    {
        let at = class_sheet::COUNTS_WIDTH
            + class_sheet::CLASS_WIDTH * c.saturating_sub(1) as usize;
        words::copy(self.set, at, class_sheet::CLASS_WIDTH, part, 0);
        let p = class_sheet::class_parent(self.set, c);
        words::put(part, class_sheet::PARENT, self.order.new_number(p));
    }

    // Puts the records of all classes, in their new order, into the first words of an array.
    fn put_records(self, records: &mut [u32; RECORD_WORDS])
        ensures { take (class_width * length self.entry.order.list.now) records.new ≡ joined (map (moved_record self.entry.set.now self.entry.order.list.now) self.entry.order.list.now) }
    {
        for (i, c) in self.order.list.as_slice().iter().enumerate() {
            let at = class_sheet::CLASS_WIDTH * i;
            self.put_record(*c, &mut records[at..]);
        }
    }
}

// Whether class c is in the list.
fn is_placed(list: &[u32], c: u32) -> bool
    ensures { result ≡ placed list.now c }
{
    list.contains(&c)
}

// Whether class c is not placed, and has no parent or a placed one.
#[tactic(auto, unfolding(crate::specs::Renumber::ready))]
fn is_ready(ws: &[u32], list: &[u32], c: u32) -> bool
    ensures { result ≡ ready ws.now list.now c }
{
    let p = class_sheet::class_parent(ws, c);
    !is_placed(list, c) && (p == 0 || is_placed(list, p))
}

// The smallest class that is ready.
#[tactic(auto, unfolding(crate::specs::Renumber::next_class))]
fn first_ready(ws: &[u32], list: &[u32]) -> Option<u32>
    ensures { result ≡ next_class ws.now list.now }
{
    let n = class_sheet::class_count(ws);
    words::find_up_to(n, |c| is_ready(ws, list, c))
}

// Puts the smallest class that is ready after those already in the list, and so on, as often as there are
// classes: then the list has all of them, or fewer where at some point none was ready.
fn place_all(ws: &[u32], list: &mut BoundedList<u32, LIST_WORDS>)
    requires fits { class_count ws.now ≤ class_limit }
    requires none { list.old ≡ [] }
    ensures is { list.new ≡ order_of ws.now }
    ensures count { length list.new ≤ class_count ws.now }
{
    for _ in 0..class_sheet::class_count(ws) {
        let Some(c) = first_ready(ws, list.as_slice()) else {
            return;
        };
        list.push(c);
    }
}

// Whether class c's parent number is at most the class count.
#[tactic(auto, unfolding(crate::specs::Renumber::stray_parent))]
fn parent_ok(ws: &[u32], c: u32) -> bool
    ensures { result ≡ not (stray_parent ws.now c) }
{
    !(class_sheet::class_count(ws) < class_sheet::class_parent(ws, c))
}

// Whether each class's is.
fn parents_ok(ws: &[u32]) -> bool
    ensures { result ≡ all_of (class_count ws.now) (λ i. not (stray_parent ws.now (i + 1))) }
{
    words::all_up_to(class_sheet::class_count(ws), |c| parent_ok(ws, c))
}

// 3 and 4. The classes are looked at only where their count keeps its limit.
#[tactic(auto, unfolding(crate::specs::Steps::form_refusal, crate::specs::Renumber::renumber_form, crate::specs::Renumber::names_classes))]
fn check_form(ws: &[u32]) -> Result<(), Refusal>
    ensures { row_of result ≡ form_refusal ws.now }
{
    if !(class_rules::fits_ok(ws) && class_rules::all_fresh(ws)) {
        return Err(Refusal::Form);
    }
    if !(parents_ok(ws) && class_rules::interfaces_ok(ws)) {
        return Err(Refusal::Record);
    }
    Ok(())
}

// The order of the classes, in the empty list, where the set and a list of `room` words are not refused.
fn find_order<'a, 'b>(
    ws: &'a [u32],
    room: usize,
    list: &'b mut BoundedList<u32, LIST_WORDS>,
) -> Result<Ordered<'a, 'b>, Refusal>
    requires { list.old ≡ [] }
    ensures is { row_of result ≡ renumber_refusal ws.now room }
    ensures set { IfOk result (λ o. o.set.now ≡ ws.now) }
{
    check_form(ws)?;
    place_all(ws, list);
    let n = class_sheet::class_count(ws) as usize;
    let k = list.len();
    if k < n {
        return Err(Refusal::Ring);
    }
    if room < n {
        return Err(Refusal::ShortMemory);
    }
    Ok(Ordered {
        set: ws,
        order: Order { list },
    })
}

// Renumbers the classes of the set: parents come first, and among those ready the smallest old number goes next. Parent and interface numbers
// follow, and the list gets each class's old number, in new order. It answers the number of classes, which is how many words of the list were written
// (this is the program's choice: the papers name no answer). Refuses by 3, 4, 19 and 15, and then writes nothing.
pub fn renumber_classes(set: &mut [u32], order: &mut [u32]) -> Result<u32, Refusal>
    ensures { outcome result set.new order.new ≡ renumber_def set.old order.old }
{
    let mut list = BoundedList::<u32, LIST_WORDS>::new();
    let ordered = find_order(set, order.len(), &mut list)?;
    let mut records = [0u32; RECORD_WORDS];
    ordered.put_records(&mut records);
    let new = ordered.order;
    let list = new.list.as_slice();
    let n = list.len();
    let words = class_sheet::CLASS_WIDTH * n;
    words::copy(&records, 0, words, set, class_sheet::COUNTS_WIDTH);
    new.map_interfaces(set);
    words::copy(list, 0, n, order, 0);
    Ok(n as u32)
}
