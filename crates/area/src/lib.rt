// The table area: the walk over a class's interface tables, the room that is left, and the words of tables and nodes.
#![tactic(auto)]

ghost use Rattle.std.specs.Prelude.{◌≡◌, ◌+◌, ◌≤◌, length, IfErr};
ghost use Rattle.refusal.specs.Rows.{row};
ghost use Rattle.linking.specs.Vtable.{slot_word};
ghost use Rattle.linking.specs.Set.{write_at};
ghost use Rattle.linking.specs.Link.{no_room};
ghost use Rattle.linking.specs.Ask.{walk};
ghost use Rattle.area.specs.Area.{walk_of, nodes_to, Counted, slots_of, table_words, node_words, may_not_write, table_written, node_written};

use refusal::Refusal;

// What an accepted link or ask answers: its two values.
#[derive(Clone, Copy)]
pub struct Answer {
    pub first: u32,
    pub second: u32,
}

// What a walk ends with: the interface's node, if the list has one, and how many nodes were read.
#[derive(Clone, Copy)]
pub struct Walked {
    pub node: Option<u32>,
    pub read: u32,
}

// The most nodes that a walk reads.
const MOST_NODES: u32 = 64;

// Walks from the head to interface i's node, and counts the nodes read: those of the list up to it, or all, at most 64. Row 7 refuses a link
// that does not lie below word 0, and a 65th node.
pub fn walk(area: &[u32], i: u32, head: u32) -> Result<Walked, Refusal>
    ensures walked { walk_of result ≡ walk area.now i 64 0 head }
    ensures counted { Counted result (nodes_to area.now i 64 head) }
    ensures row { IfErr result (λ refusal. row refusal ≡ 7) }
{
    let next = words::get_or(area, 0, 0) as usize;
    let mut n: u32 = head;
    for read in 0..MOST_NODES {
        if n == 0 {
            return Ok(Walked { node: None, read });
        }
        let link = n as usize;
        if next <= link + 1 {
            return Err(Refusal::Area);
        }
        if words::get_or(area, link + 1, 0) == i {
            return Ok(Walked {
                node: Some(n),
                read: read + 1,
            });
        }
        n = words::get_or(area, link, 0);
    }
    if n == 0 {
        Ok(Walked {
            node: None,
            read: MOST_NODES,
        })
    } else {
        Err(Refusal::Area)
    }
}

// Whether there are fewer stubs than n slots, or fewer free words than a table or a node of n slots needs.
#[tactic(auto, using(crate::proofs::AreaLaws::few_stubs, crate::proofs::AreaLaws::few_words))]
pub fn no_room(area: &[u32], stubs: &[u32], n: usize) -> bool
    ensures { result ≡ no_room area.now stubs.now n }
{
    let next = words::get_or(area, 0, 0) as usize;
    stubs.len() < n || area.len() < next + (n + 2)
}

// The same, or an area of which a place does not fit into a word.
#[tactic(auto, unfolding(crate::specs::Area::may_not_write))]
fn may_not_write(area: &[u32], stubs: &[u32], n: usize) -> bool
    ensures { result ≡ may_not_write area.now stubs.now n }
{
    no_room(area, stubs, n) | (4294967295 < area.len())
}

// The word that is written for a slot's.
fn slot_word(w: u32, stub: u32) -> u32
    ensures { result ≡ slot_word w stub }
{
    if w == 0 { stub } else { w }
}

// Writes n slots at the front of a part of the area: those of these words, and past their end the stubs' words.
fn put_slots(part: &mut [u32], ts: &[u32], n: usize, stubs: &[u32])
    requires { n ≤ length part.old }
    ensures { part.new ≡ write_at part.old 0 (slots_of ts.now stubs.now n) }
{
    words::store_each(
        part,
        n,
        |j| slot_word(words::get_or(ts, j, 0), words::get_or(stubs, j, 0)),
    );
}

// Fills a part of the area with class number, slots and a zero list head.
#[tactic(auto, using(crate::proofs::AreaLaws::table_filled))]
fn fill_table(part: &mut [u32], c: u32, ts: &[u32], n: usize, stubs: &[u32])
    requires { n + 2 ≤ length part.old }
    ensures { part.new ≡ write_at part.old 0 (table_words c ts.now stubs.now n) }
{
    words::put(part, 0, c);
    put_slots(&mut part[1..], ts, n, stubs);
    words::put(part, n + 1, 0);
}

// Fills a part of the area with old head, interface number and slots.
#[tactic(auto, using(crate::proofs::AreaLaws::node_filled))]
fn fill_node(part: &mut [u32], old: u32, i: u32, ts: &[u32], n: usize, stubs: &[u32])
    requires { n + 2 ≤ length part.old }
    ensures { part.new ≡ write_at part.old 0 (node_words old i ts.now stubs.now n) }
{
    words::put(part, 0, old);
    words::put(part, 1, i);
    put_slots(&mut part[2..], ts, n, stubs);
}

// Writes class c's table of n slots from the next free word on, where there is room, and else nothing. Past the end of these words a slot's is 0.
#[tactic(auto, using(crate::proofs::AreaLaws::next_fits, crate::proofs::AreaLaws::table_not, crate::proofs::AreaLaws::table_put))]
pub fn write_table(area: &mut [u32], c: u32, ts: &[u32], n: usize, stubs: &[u32])
    ensures { area.new ≡ table_written area.old c ts.now n stubs.now }
{
    if may_not_write(area, stubs, n) {
        return;
    }
    let next = words::get_or(area, 0, 0) as usize;
    fill_table(&mut area[next..], c, ts, n, stubs);
    words::put(area, 0, (next + n + 2) as u32);
}

// Writes interface i's node of n slots likewise, in front of the list whose head is at `head`.
#[tactic(auto, using(crate::proofs::AreaLaws::next_fits, crate::proofs::AreaLaws::node_not, crate::proofs::AreaLaws::node_put))]
pub fn write_node(area: &mut [u32], head: usize, i: u32, ts: &[u32], n: usize, stubs: &[u32])
    ensures { area.new ≡ node_written area.old head i ts.now n stubs.now }
{
    if may_not_write(area, stubs, n) {
        return;
    }
    let node = words::get_or(area, 0, 0);
    let old = words::get_or(area, head, 0);
    let next = node as usize;
    fill_node(&mut area[next..], old, i, ts, n, stubs);
    words::put(area, head, node);
    words::put(area, 0, (next + n + 2) as u32);
}
