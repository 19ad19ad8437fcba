// The list of new members that a link adds to a class.
use words::BoundedList;

// How many there are at most: a compiler table has at most 1,024 slots and an ABI sheet at most 256 fields, so there is room for all that a
// link adds.
const LIMIT: usize = 1024;

// What a new member takes its name and descriptor from, by number: a method of the class sheet, a slot of the ABI sheet, or a field of it.
#[derive(Clone, Copy)]
pub enum Named {
    Method(u32),
    Slot(u32),
    Field(u32),
}

impl Default for Named {
    fn default() -> Self {
        Named::Method(0)
    }
}

// A new member as the code has it: what names it, its flags, and its target or index.
#[derive(Clone, Copy, Default)]
pub struct Member {
    pub names: Named,
    pub flags: u32,
    pub last: u32,
}

// New members, one after the other.
pub type News = BoundedList<Member, LIMIT>;
