// Total access to lent words and bytes, and the loops that only ask, only store or only sum: the leaves that every other crate stands
// on. A read outside a slice answers what its caller names, a store outside it changes nothing, and a part holds as much as is there, so no
// caller owes that an index is in range. A test or a value is a closure, and Rattle asks of each call of one that it may be called.
#![tactic(auto)]

ghost use Rattle.std.specs.Prelude.{◌≡◌, ◌+◌, ◌-◌, ◌%◌, ◌^◌, ℕ, Bool, Option, get_or, set, take, drop};
ghost use Rattle.words.specs.Words.{le_word, byte_of, inside, copy_elements};
ghost use Rattle.words.specs.Folds.{Gives, Computes, all_of, sum_of, stores};
ghost use Rattle.words.specs.Lists.{numbers, find, first_found, some};

pub use list::BoundedList;

mod list;

// Element i, or another value past the end.
pub fn get_or<T: Copy + Drop>(s: &[T], i: usize, otherwise: T) -> T
    ensures { result ≡ get_or s.now i otherwise }
{
    s.get(i).copied().unwrap_or(otherwise)
}

// The little-endian word at byte b.
#[tactic(auto, using(crate::proofs::Laws::word_of_part))]
pub fn le_word(bs: &[u8], b: usize) -> u32
    ensures { result ≡ le_word bs.now b }
{
    let w = part(bs, b, 4);
    u32::from_le_bytes([
        get_or(w, 0, 0),
        get_or(w, 1, 0),
        get_or(w, 2, 0),
        get_or(w, 3, 0),
    ])
}

// Stores v at i, or nothing past the end.
pub fn put<T: Copy + Drop>(s: &mut [T], i: usize, v: T)
    ensures { s.new ≡ set s.old i v }
{
    if i < s.len() {
        s[i] = v;
    }
}

// Byte k % 4 of a word, counted from the lowest.
#[tactic(auto, using(crate::proofs::Laws::byte_0, crate::proofs::Laws::byte_at), unfolding(crate::specs::Words::byte_of))]
pub fn byte_of(w: u32, k: usize) -> u8
    ensures { result ≡ byte_of w (k % 4) }
{
    w.to_le_bytes()[k % 4]
}

// Whether n elements from `first` on lie inside a section of `total`: the sum does not wrap.
#[tactic(auto, unfolding(crate::specs::Words::inside))]
pub fn is_inside(first: u32, n: u32, total: u32) -> bool
    ensures { result ≡ inside first n total }
{
    first as usize + n as usize <= total as usize
}

// Copies n elements of src from `from` into dst from `at` where all of them are there and fit, and else nothing; answers which.
pub fn copy<T: Copy + Drop>(src: &[T], from: usize, n: usize, dst: &mut [T], at: usize) -> bool
    ensures { (result, dst.new) ≡ copy_elements src.now from n dst.old at }
{
    if src.len() < n || src.len() - n < from || dst.len() < n || dst.len() - n < at {
        return false;
    }
    dst[at..at + n].copy_from_slice(&src[from..from + n]);
    true
}

// The len elements from start, as many of them as are there.
pub fn part<T>(s: &[T], start: usize, len: usize) -> &[T]
    ensures { result.now ≡ take len (drop start s.now) }
{
    let rest = &s[start.min(s.len())..];
    &rest[..len.min(rest.len())]
}

// Whether each number below n passes the test.
pub fn all_of<F: Fn(u32) -> bool>(n: u32, test: F) -> bool
    requires { F.IsAlwaysCallable test }
    ensures { (p : ℕ → Bool) → Gives (F.post test) n p → result ≡ all_of n p }
{
    (0..n).all(test)
}

// Whether each number from 1 to n passes the test.
pub fn all_up_to<F: Fn(u32) -> bool>(n: u32, test: F) -> bool
    requires { F.IsAlwaysCallable test }
    ensures { (p : ℕ → Bool) → Gives (F.post test) (n + 1) p → result ≡ all_of n (λ i. p (i + 1)) }
{
    (1..=n).all(test)
}

// The first number from `first` on, below `end`, that passes the test.
pub fn find_in<F: Fn(u32) -> bool>(first: u32, end: u32, test: F) -> Option<u32>
    requires { F.IsAlwaysCallable test }
    ensures { (p : ℕ → Bool) (n : ℕ) → n ≡ end - first → Gives (F.post test) end p → result ≡ find p (numbers first n) }
{
    (first..end).find(|m| test(*m))
}

// The first number from 1 to n that passes the test.
pub fn find_up_to<F: Fn(u32) -> bool>(n: u32, test: F) -> Option<u32>
    requires { F.IsAlwaysCallable test }
    ensures { (p : ℕ → Bool) → Gives (F.post test) (n + 1) p → result ≡ find p (numbers 1 n) }
{
    (1..=n).find(|i| test(*i))
}

// What the first of the elements gives that gives anything.
pub fn first_found<F: Fn(u32) -> Option<u32>>(s: &[u32], value: F) -> Option<u32>
    requires { F.IsAlwaysCallable value }
    ensures { (f : ℕ → Option ℕ) → Computes (F.post value) f → result ≡ first_found f s.now }
{
    s.iter().find_map(|x| value(*x))
}

// Whether some number from `first` on, below `end`, passes the test.
pub fn some_in<F: Fn(u32) -> bool>(first: u32, end: u32, test: F) -> bool
    requires { F.IsAlwaysCallable test }
    ensures { (p : ℕ → Bool) (n : ℕ) → n ≡ end - first → Gives (F.post test) end p → result ≡ some p (numbers first n) }
{
    (first..end).any(test)
}

// Stores the value that each number below n gives at its place, as far as there is room.
pub fn store_each<T: Copy + Drop, F: Fn(usize) -> T>(out: &mut [T], n: usize, value: F)
    requires { F.IsAlwaysCallable value }
    ensures { (f : ℕ → T) → Gives (F.post value) n f → out.new ≡ stores n f out.old }
{
    let end = n.min(out.len());
    for (i, x) in out[..end].iter_mut().enumerate() {
        *x = value(i);
    }
}

// The sum of what each number below n gives, modulo 2^32.
pub fn sum_of<F: Fn(usize) -> u32>(n: usize, value: F) -> u32
    requires { F.IsAlwaysCallable value }
    ensures { (f : ℕ → ℕ) → Gives (F.post value) n f → result ≡ sum_of n f % 2 ^ 32 }
{
    (0..n).fold(0, |sum: u32, i| sum.wrapping_add(value(i)))
}
