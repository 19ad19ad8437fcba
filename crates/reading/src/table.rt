// A table of virtual slots as the code holds it: two arrays, its slots' words and their marks, and how many slots there are. A mark is a word that
// stands for a method's number or for none, and for the slot that it is a copy of or none: only this crate knows how.

ghost use Rattle.std.specs.Prelude.{◌≡◌, ◌≤◌, ◌<◌, ◌+◌, min, length, get_or, set, replicate, [], ◌∷◌, ◌++◌, None, Some};
ghost use Rattle.class_sheet.specs.ClassSheet.{method_limit, method_target};
ghost use Rattle.linking.specs.Vtable.{empty, method_entry};
ghost use Rattle.reading.specs.Arrays.{mark_of, method_of, source_of};

// The mark of what a search found.
#[tactic(auto, unfolding(crate::specs::Arrays::mark_of))]
pub fn mark_of(f: Option<u32>) -> u32
    ensures { result ≡ mark_of f }
{
    match f {
        Some(m) if m < 4095 => m + 1,
        _ => 0,
    }
}

// The method that a mark stands for.
#[tactic(auto, unfolding(crate::specs::Arrays::method_of))]
pub fn method_of(k: u32) -> Option<u32>
    ensures { result ≡ method_of k }
{
    (k % 4096).checked_sub(1)
}

// The slot that a slot with this mark is a copy of.
#[tactic(auto, unfolding(crate::specs::Arrays::source_of))]
pub fn source_of(k: u32) -> Option<u32>
    ensures { result ≡ source_of k }
{
    (k / 4096).checked_sub(1)
}

// A slot: its word, 0 where it is empty, and its mark.
#[derive(Clone, Copy)]
pub struct Slot {
    pub word: u32,
    pub mark: u32,
}

impl Slot {
    ghost use Rattle.reading.specs.Tables.{entry};

    // An empty slot.
    #[tactic(auto, using(crate::proofs::ArrayLaws::no_method, crate::proofs::ArrayLaws::sourceless))]
    pub fn empty() -> Self
        ensures { entry result ≡ empty }
    {
        Slot { word: 0, mark: 0 }
    }

    // The slot of a method of the class sheet.
    #[tactic(auto, using(crate::proofs::ArrayLaws::mark_entry))]
    pub fn of_method(set: &[u32], m: u32) -> Self
        ensures is { m < method_limit → entry result ≡ method_entry set.now m }
        ensures word { result.word ≡ method_target set.now m }
        ensures mark { result.mark ≡ mark_of (Some m) }
    {
        Slot {
            word: class_sheet::method_target(set, m),
            mark: mark_of(Some(m)),
        }
    }

    // Its method.
    pub fn method(self) -> Option<u32>
        ensures { result ≡ (entry self).method }
    {
        method_of(self.mark)
    }

    // The slot that it is a copy of.
    pub fn source(self) -> Option<u32>
        ensures { result ≡ (entry self).source }
    {
        source_of(self.mark)
    }
}

// The slots of a table that are left, in their order.
#[derive(Clone, Copy)]
pub struct Slots<'a> {
    words: &'a [u32],
    marks: &'a [u32],
    pub ghost lengths: { length marks.now ≡ length words.now },
}

impl<'a> Iterator for Slots<'a> {
    ghost use Rattle.std.specs.Iterator.{YieldsFirstBy, item_count};
    ghost use Rattle.reading.specs.Tables.{entry, entries_left};

    type Item = Slot;

    ghost next_gives = { YieldsFirstBy entry entries_left };

    ghost remaining = { item_count entries_left };

    #[tactic(auto, using(crate::proofs::SlotLaws::none_left, crate::proofs::SlotLaws::slot_left))]
    fn next(&mut self) -> Option<Slot> {
        let (&word, words) = self.words.split_first()?;
        let (&mark, marks) = self.marks.split_first()?;
        *self = Slots { words, marks };
        Some(Slot { word, mark })
    }
}

// How many slots a table of the area has at most.
pub const TABLE_LIMIT: usize = 1024;

// How many slots a table that is built has at most: 1,024 of a compiler table, 512 declared methods, 1,024 added ones and 1,024 of the parent.
pub const BUILD_LIMIT: usize = 3584;

// A table that is read, and one that is built.
pub type ReadTable = Table<TABLE_LIMIT>;

pub type BuiltTable = Table<BUILD_LIMIT>;

// A table: the words of its slots and their marks, in the first `len` elements. Each table of an area fits.
#[derive(Drop)]
pub struct Table<const N: usize> {
    pub words: [u32; N],
    pub marks: [u32; N],
    pub len: u32,
    pub ghost room: { (1024 ≤ N) × (N ≤ 65535) },
    pub ghost lengths: { (length words ≡ N) × (length marks ≡ N) },
    pub ghost fits: { len ≤ N },
}

impl Table<TABLE_LIMIT> {
    ghost use Rattle.reading.specs.Tables.{entries};

    // A table without slots, with room for those of a table that is read.
    #[tactic(auto, using(crate::proofs::ArrayLaws::no_entries))]
    pub fn for_reading() -> Self
        ensures is { entries result ≡ [] }
        ensures len { result.len ≡ 0 }
        ensures words { result.words ≡ replicate 1024 0 }
        ensures marks { result.marks ≡ replicate 1024 0 }
    {
        Table {
            words: [0; TABLE_LIMIT],
            marks: [0; TABLE_LIMIT],
            len: 0,
        }
    }
}

impl Table<BUILD_LIMIT> {
    ghost use Rattle.reading.specs.Tables.{entries};

    // A table without slots, with room for one that is built.
    #[tactic(auto, using(crate::proofs::ArrayLaws::no_entries))]
    pub fn for_building() -> Self
        ensures is { entries result ≡ [] }
        ensures len { result.len ≡ 0 }
        ensures words { result.words ≡ replicate 3584 0 }
        ensures marks { result.marks ≡ replicate 3584 0 }
    {
        Table {
            words: [0; BUILD_LIMIT],
            marks: [0; BUILD_LIMIT],
            len: 0,
        }
    }
}

impl<const N: usize> Table<N> {
    ghost use Rattle.std.specs.Prelude.{ℕ};
    ghost use Rattle.words.specs.Lists.{list_from};
    ghost use Rattle.linking.specs.Vtable.{Entry};
    ghost use Rattle.reading.specs.declared.table.Slot.{Slot};
    ghost use Rattle.reading.specs.Tables.{entry, entries, entries_left};

    // Its slots, in their order.
    #[tactic(auto, using(crate::proofs::SlotLaws::slots_of))]
    pub fn slots(&self) -> Slots
        ensures { entries_left result ≡ entries self.now }
    {
        let n = self.len as usize;
        Slots {
            words: &self.words[..n],
            marks: &self.marks[..n],
        }
    }

    // Slot i, or an empty one past the table's end.
    #[tactic(auto, using(crate::proofs::ArrayLaws::slot_is, crate::proofs::ArrayLaws::slot_past))]
    pub fn slot(&self, i: u32) -> Slot
        ensures { entry result ≡ get_or (entries self.now) i empty }
    {
        if i < self.len {
            return Slot {
                word: self.words[i as usize],
                mark: self.marks[i as usize],
            };
        }
        Slot::empty()
    }

    // Stores a slot as slot i, or past the table's slots, where there is room.
    #[tactic(auto, using(crate::proofs::ArrayLaws::put_slot))]
    pub fn put(&mut self, i: u32, slot: Slot)
        ensures is { entries self.new ≡ set (entries self.old) i (entry slot) }
        ensures words { self.new.words ≡ set self.old.words i slot.word }
        ensures marks { self.new.marks ≡ set self.old.marks i slot.mark }
        ensures len { self.new.len ≡ self.old.len }
    {
        words::put(&mut self.words, i as usize, slot.word);
        words::put(&mut self.marks, i as usize, slot.mark);
    }

    // Adds a slot after the last, where there is room.
    #[tactic(auto, using(crate::proofs::ArrayLaws::push_slot))]
    pub fn push(&mut self, slot: Slot)
        ensures is { self.old.len < N → entries self.new ≡ entries self.old ++ (entry slot ∷ []) }
        ensures len { self.old.len < N → self.new.len ≡ self.old.len + 1 }
        ensures full { N ≤ self.old.len → self.new ≡ self.old }
        ensures count { self.new.len ≤ self.old.len + 1 }
        ensures words { self.new.words ≡ set self.old.words self.old.len slot.word }
        ensures marks { self.new.marks ≡ set self.old.marks self.old.len slot.mark }
    {
        let n = self.len as usize;
        if n < N {
            self.words[n] = slot.word;
            self.marks[n] = slot.mark;
            self.len += 1;
        }
    }

    // Fills the table with the n slots that the closure gives, one for each number from 0 on, or as many of them as there is room for.
    pub fn fill<F: Fn(u32) -> Slot>(&mut self, n: u32, slot: F)
        requires { F.IsAlwaysCallable slot }
        ensures is { (g : ℕ → Entry) → ((i : ℕ) (r : Slot) → F.post slot i r → entry r ≡ g i) → entries self.new ≡ list_from g 0 (min n N) }
        ensures len { self.new.len ≡ min n N }
    {
        self.clear();
        for i in 0..n.min(N as u32) {
            self.push(slot(i));
        }
    }

    // Takes all slots off.
    #[tactic(auto, using(crate::proofs::ArrayLaws::no_entries))]
    pub fn clear(&mut self)
        ensures is { entries self.new ≡ [] }
        ensures len { self.new.len ≡ 0 }
        ensures words { self.new.words ≡ self.old.words }
        ensures marks { self.new.marks ≡ self.old.marks }
    {
        self.len = 0;
    }
}
