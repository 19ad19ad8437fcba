// A list of at most N elements, in an array.
ghost use Rattle.std.specs.Prelude.{◌≡◌, ◌≤◌, [], ◌∷◌, ◌++◌, length, take, slice_get};

use std::marker::Model;

// Elements, one after the other. Clauses see the list of them: what the array holds behind it no caller can read.
#[derive(Drop)]
pub struct BoundedList<T, const N: usize> {
    items: [T; N],
    len: usize,
}

impl<T, const N: usize> Model for BoundedList<T, N> {
    ghost use Rattle.std.specs.Prelude.{List, take, ◌≤◌};

    ghost Value = { List T };

    ghost view = { λ l. take l.len l.items };

    ghost invariant = { λ l. l.len ≤ N };
}

impl<T: Copy + Default + Drop, const N: usize> BoundedList<T, N> {
    // None.
    pub fn new() -> Self
        ensures { result ≡ [] }
    {
        BoundedList {
            items: [T::default(); N],
            len: 0,
        }
    }

    // All of them.
    pub fn as_slice(&self) -> &[T]
        ensures is { result.now ≡ self.now }
        ensures few { length self.now ≤ N }
    {
        &self.items[..self.len]
    }

    // How many there are.
    pub fn len(&self) -> usize
        ensures is { result ≡ length self.now }
        ensures few { result ≤ N }
    {
        self.as_slice().len()
    }

    // The i-th of them, from 0 on.
    pub fn get(&self, i: usize) -> Option<T>
        ensures { result ≡ slice_get self.now i }
    {
        self.as_slice().get(i).copied()
    }

    // Adds an element behind the others, where there is room for it.
    pub fn push(&mut self, x: T)
        ensures { self.new ≡ take N (self.old ++ x ∷ []) }
    {
        if self.len < N {
            self.items[self.len] = x;
            self.len += 1;
        }
    }

    // Takes them all away.
    pub fn clear(&mut self)
        ensures { self.new ≡ [] }
    {
        self.len = 0;
    }
}
