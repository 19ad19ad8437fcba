// The form of a class file (JVMS chapter 4), judged front to back: where each item ends, or the row that refuses it.
#![tactic(auto)]

ghost use Rattle.std.specs.Prelude.{◌≡◌, ◌+◌, ◌<◌, get_or, ℕ};
ghost use Rattle.class_form.specs.Form.{Step, u2, u4, taken, is_tag, is_wide, places, body_size, tag_ok, after_constant, after_constants, pool_count, constant_from, utf8_at, class_at, after_reference, after_parent, after_interfaces, after_attribute, after_counted, after_attributes, after_member, after_members, after_head, version_ok};
ghost use Rattle.class_form.specs.Marks.{marked, marks_from, pool_marks, constant_near, tagged_near, utf8_near, class_near, Near};
ghost use Rattle.class_form.specs.Parts.{class_of, file_of, form_of, ended, member_at};

use refusal::Refusal;

// The places of the access flags, of the fields' count and of the methods' count.
#[derive(Clone, Copy)]
pub struct Places {
    pub head: usize,
    pub fields: usize,
    pub methods: usize,
}

// A field or a method: its flags, its references to name and descriptor, and the place after its attributes.
#[derive(Clone, Copy)]
pub struct Member {
    pub flags: u32,
    pub name: u32,
    pub descriptor: u32,
    pub next: usize,
}

// A constant's index and place.
#[derive(Clone, Copy)]
pub struct Mark {
    pub index: usize,
    pub place: usize,
}

// One mark for each 64 indices.
pub const MARKS: usize = 1024;

const NO_MARK: Mark = Mark { index: 0, place: 0 };

// Marks of which none is set yet.
pub const NO_MARKS: [Mark; MARKS] = [NO_MARK; MARKS];

// Where the pool's count stands, and its first constant.
const COUNT_PLACE: usize = 8;

const POOL_PLACE: usize = 10;

// The tags that are told apart, and those at both ends of the others (JVMS 4.4).
const UTF8: u32 = 1;

const INTEGER: u32 = 3;

const LONG: u32 = 5;

const DOUBLE: u32 = 6;

const CLASS: u32 = 7;

const STRING: u32 = 8;

const NAME_AND_TYPE: u32 = 12;

// The number of two bytes at p.
#[tactic(auto, unfolding(crate::specs::Form::u2))]
pub fn u2(bytes: &[u8], p: usize) -> u32
    ensures is { result ≡ u2 bytes.now p }
    ensures small { result < 65536 }
{
    if bytes.len() <= p {
        return 0;
    }
    u16::from_be_bytes([words::get_or(bytes, p, 0), words::get_or(bytes, p + 1, 0)]) as u32
}

// An item of n bytes at p.
#[tactic(auto, unfolding(crate::specs::Form::taken))]
fn take(bytes: &[u8], p: usize, n: usize) -> Result<usize, Refusal>
    ensures { result ≡ taken bytes.now p n }
{
    if bytes.len() < n || bytes.len() - n < p {
        return Err(Refusal::WrongEnd);
    }
    Ok(p + n)
}

// The number of two bytes n bytes after p; the sum does not wrap.
#[tactic(auto, unfolding(crate::specs::Form::u2, crate::specs::Form::taken))]
pub fn u2_after(bytes: &[u8], p: usize, n: usize) -> u32
    ensures is { result ≡ u2 bytes.now (p + n) }
    ensures small { result < 65536 }
{
    take(bytes, p, n).map_or(0, |q| u2(bytes, q))
}

// The number of four bytes n bytes after p.
#[tactic(auto, unfolding(crate::specs::Form::u4, crate::specs::Form::u2, crate::specs::Form::taken))]
fn u4_after(bytes: &[u8], p: usize, n: usize) -> u32
    ensures { result ≡ u4 bytes.now (p + n) }
{
    take(bytes, p, n).map_or(0, |q| {
        u32::from_be_bytes([
            words::get_or(bytes, q, 0),
            words::get_or(bytes, q + 1, 0),
            words::get_or(bytes, q + 2, 0),
            words::get_or(bytes, q + 3, 0),
        ])
    })
}

// The tag at p.
fn tag_at(bytes: &[u8], p: usize) -> u32
    ensures { result ≡ get_or bytes.now p 0 }
{
    words::get_or(bytes, p, 0) as u32
}

// Whether t is one of the eleven tags.
#[tactic(auto, unfolding(crate::specs::Form::is_tag))]
fn is_tag(t: u32) -> bool
    ensures { result ≡ is_tag t }
{
    matches!(t, UTF8 | INTEGER..=NAME_AND_TYPE)
}

// Whether a constant takes two places.
#[tactic(auto, unfolding(crate::specs::Form::is_wide))]
fn is_wide(t: u32) -> bool
    ensures { result ≡ is_wide t }
{
    matches!(t, LONG | DOUBLE)
}

// How many places of the pool a constant takes.
#[tactic(auto, unfolding(crate::specs::Form::places))]
fn places_of(t: u32) -> usize
    ensures { result ≡ places t }
{
    if is_wide(t) { 2 } else { 1 }
}

// How many bytes follow the tag t, from p on.
#[tactic(auto, unfolding(crate::specs::Form::body_size, crate::specs::Form::is_wide))]
fn body_size(bytes: &[u8], t: u32, p: usize) -> usize
    ensures { result ≡ body_size bytes.now t p }
{
    match t {
        UTF8 => 2 + u2(bytes, p) as usize,
        LONG | DOUBLE => 8,
        CLASS | STRING => 2,
        _ => 4,
    }
}

// Whether t may be the tag of the constant of index i.
#[tactic(auto, using(crate::proofs::Laws::last_index), unfolding(crate::specs::Form::tag_ok))]
fn tag_ok(count: usize, i: usize, t: u32) -> bool
    ensures { result ≡ tag_ok count i t }
{
    is_tag(t) && !(is_wide(t) && (count.saturating_sub(i) == 1))
}

// The constant of index i at p: its tag is judged before its body is looked at.
#[tactic(auto, unfolding(crate::specs::Form::after_constant))]
fn after_constant(bytes: &[u8], count: usize, i: usize, p: usize) -> Result<usize, Refusal>
    ensures { result ≡ after_constant bytes.now count i p }
{
    let body = take(bytes, p, 1)?;
    let t = tag_at(bytes, p);
    if !tag_ok(count, i, t) {
        return Err(Refusal::WrongPool);
    }
    take(bytes, body, body_size(bytes, t, body))
}

// How many indices the pool has, 0 included.
#[tactic(auto, unfolding(crate::specs::Form::pool_count))]
fn pool_count(bytes: &[u8]) -> usize
    ensures is { result ≡ pool_count bytes.now }
    ensures small { result < 65536 }
{
    u2(bytes, COUNT_PLACE) as usize
}

// ---- marks

// Marks the constant of index i at p, if it is at the front of 64 indices.
#[tactic(auto, unfolding(crate::specs::Marks::marked))]
fn put_mark(marks: &mut [Mark; MARKS], i: usize, p: usize)
    ensures { marks.new ≡ marked i p marks.old }
{
    if i % 64 <= 1 {
        words::put(marks, i / 64, Mark { index: i, place: p });
    }
}

// Walks the constants from the pool's front on, and marks them.
#[tactic(auto, using(crate::proofs::WalkLaws::pool_steps))]
fn after_constants(bytes: &[u8], marks: &mut [Mark; MARKS]) -> Result<usize, Refusal>
    ensures is { result ≡ after_constants bytes.now (pool_count bytes.now) (pool_count bytes.now) 1 10 }
    ensures marks { marks.new ≡ marks_from bytes.now (pool_count bytes.now) (pool_count bytes.now) 1 10 marks.old }
{
    let count = pool_count(bytes);
    let mut i: usize = 1;
    let mut p: usize = POOL_PLACE;
    while i < count {
        put_mark(marks, i, p);
        let q = after_constant(bytes, count, i, p)?;
        i += places_of(tag_at(bytes, p));
        p = q;
    }
    Ok(p)
}

// Marks a file's pool in lent marks.
pub fn fill_marks(bytes: &[u8], marks: &mut [Mark; MARKS])
    ensures { marks.new ≡ marks_from bytes.now (pool_count bytes.now) (pool_count bytes.now) 1 10 marks.old }
{
    let _ = after_constants(bytes, marks);
}

// The marks of a file's pool.
#[tactic(auto, unfolding(crate::specs::Marks::pool_marks))]
pub fn pool_marks(bytes: &[u8]) -> [Mark; MARKS]
    ensures { result ≡ pool_marks bytes.now }
{
    let mut marks = NO_MARKS;
    let _ = after_constants(bytes, &mut marks);
    marks
}

// The place of constant i, by the walk on from the constant of index j at p.
#[tactic(auto, using(crate::proofs::WalkLaws::look_steps))]
fn constant_from(bytes: &[u8], i: u32, j: usize, p: usize) -> Result<usize, Refusal>
    ensures { result ≡ constant_from bytes.now i i j p }
{
    let count = pool_count(bytes);
    let mut at = j;
    let mut place = p;
    while at < i as usize {
        let q = after_constant(bytes, count, at, place)?;
        at += places_of(tag_at(bytes, place));
        place = q;
    }
    if at == i as usize {
        Ok(place)
    } else {
        Err(Refusal::WrongPool)
    }
}

// The place of constant i, by the walk on from the mark before it.
#[tactic(auto, unfolding(crate::specs::Marks::constant_near))]
fn constant_near(bytes: &[u8], marks: &[Mark; MARKS], i: u32) -> Result<usize, Refusal>
    ensures { result ≡ constant_near bytes.now marks.now i }
{
    let n = i as usize;
    if n == 0 || pool_count(bytes) <= n {
        return Err(Refusal::WrongPool);
    }
    let mark = words::get_or(marks, (n - 1) / 64, NO_MARK);
    constant_from(bytes, i, mark.index, mark.place)
}

// The place of constant i, if it has this tag.
#[tactic(auto, unfolding(crate::specs::Marks::tagged_near))]
fn tagged_near(bytes: &[u8], marks: &[Mark; MARKS], t: u32, i: u32) -> Result<usize, Refusal>
    ensures { result ≡ tagged_near bytes.now marks.now t i }
{
    let p = constant_near(bytes, marks, i)?;
    if tag_at(bytes, p) == t {
        Ok(p)
    } else {
        Err(Refusal::WrongPool)
    }
}

// The place of the Utf8 constant i, by any marks.
#[tactic(auto, unfolding(crate::specs::Marks::utf8_near))]
pub fn utf8_near(bytes: &[u8], marks: &[Mark; MARKS], i: u32) -> Result<usize, Refusal>
    ensures { result ≡ utf8_near bytes.now marks.now i }
{
    tagged_near(bytes, marks, UTF8, i)
}

// The place of the name of the Class constant i, by any marks.
#[tactic(auto, unfolding(crate::specs::Marks::class_near))]
pub fn class_near(bytes: &[u8], marks: &[Mark; MARKS], i: u32) -> Result<usize, Refusal>
    ensures { result ≡ class_near bytes.now marks.now i }
{
    let p = tagged_near(bytes, marks, CLASS, i)?;
    utf8_near(bytes, marks, u2_after(bytes, p, 1))
}

// The bytes of a file whose pool was taken, and the pool's marks: by them a constant is found where a walk from the pool's front finds it.
#[derive(Clone, Copy)]
pub struct Pool<'a> {
    pub bytes: &'a [u8],
    pub marks: &'a [Mark; MARKS],
    pub ghost near: { Near bytes.now marks.now },
}

// The place of the Utf8 constant i.
#[tactic(auto, using(crate::proofs::MarkLaws::utf8_is))]
pub fn utf8_at(pool: Pool, i: u32) -> Result<usize, Refusal>
    ensures { result ≡ utf8_at pool.entry.bytes.now i }
{
    utf8_near(pool.bytes, pool.marks, i)
}

// The place of the name of the Class constant i.
#[tactic(auto, using(crate::proofs::MarkLaws::class_is))]
pub fn class_at(pool: Pool, i: u32) -> Result<usize, Refusal>
    ensures { result ≡ class_at pool.entry.bytes.now i }
{
    class_near(pool.bytes, pool.marks, i)
}

// ---- the items after the pool

// A reference at p, looked up once it has been taken.
#[tactic(auto, unfolding(crate::specs::Form::after_reference))]
fn after_reference<F: Fn(Pool, u32) -> Result<usize, Refusal>>(
    pool: Pool,
    p: usize,
    look_up: F,
) -> Result<usize, Refusal>
    requires { F.IsAlwaysCallable look_up }
    ensures { (at : ℕ → Step) → ((i : ℕ) (r : Step) → F.post look_up pool.entry i r → r ≡ at i) → result ≡ after_reference pool.entry.bytes.now at p }
{
    let q = take(pool.bytes, p, 2)?;
    look_up(pool, u2(pool.bytes, p))?;
    Ok(q)
}

// The parent's reference: 0, or a Class.
#[tactic(auto, unfolding(crate::specs::Form::after_parent, crate::specs::Form::after_class, crate::specs::Form::after_reference))]
fn after_parent(pool: Pool, p: usize) -> Result<usize, Refusal>
    ensures { result ≡ after_parent pool.entry.bytes.now p }
{
    if u2(pool.bytes, p) == 0 {
        return take(pool.bytes, p, 2);
    }
    after_reference(pool, p, class_at)
}

// The interfaces, which are not looked up.
#[tactic(auto, unfolding(crate::specs::Form::after_interfaces))]
fn after_interfaces(bytes: &[u8], p: usize) -> Result<usize, Refusal>
    ensures { result ≡ after_interfaces bytes.now p }
{
    let q = take(bytes, p, 2)?;
    take(bytes, q, 2 * (u2(bytes, p) as usize))
}

// An attribute: a name, which is not looked up, a length, and so many bytes.
#[tactic(auto, unfolding(crate::specs::Form::after_attribute))]
fn after_attribute(bytes: &[u8], p: usize) -> Result<usize, Refusal>
    ensures { result ≡ after_attribute bytes.now p }
{
    let q = take(bytes, p, 6)?;
    take(bytes, q, u4_after(bytes, p, 2) as usize)
}

// A count of two bytes, then so many items.
#[tactic(auto, using(crate::proofs::Laws::each_turn, crate::proofs::Laws::each_end), unfolding(crate::specs::Form::after_counted))]
fn after_counted<F: Fn(usize) -> Result<usize, Refusal>>(
    bytes: &[u8],
    p: usize,
    after_item: F,
) -> Result<usize, Refusal>
    requires { F.IsAlwaysCallable after_item }
    ensures { (item : ℕ → Step) → ((q : ℕ) (r : Step) → F.post after_item q r → r ≡ item q) → result ≡ after_counted bytes.now item p }
{
    let mut at = take(bytes, p, 2)?;
    for _ in 0..u2(bytes, p) {
        at = after_item(at)?;
    }
    Ok(at)
}

// A count of attributes, and so many.
#[tactic(auto, unfolding(crate::specs::Form::after_attributes))]
fn after_attributes(bytes: &[u8], p: usize) -> Result<usize, Refusal>
    ensures { result ≡ after_attributes bytes.now p }
{
    after_counted(bytes, p, |q| after_attribute(bytes, q))
}

// A member: access flags, name, descriptor, attributes.
#[tactic(auto, unfolding(crate::specs::Form::after_member, crate::specs::Form::after_name, crate::specs::Form::after_reference))]
fn after_member(pool: Pool, p: usize) -> Result<usize, Refusal>
    ensures { result ≡ after_member pool.entry.bytes.now p }
{
    let name = take(pool.bytes, p, 2)?;
    let descriptor = after_reference(pool, name, utf8_at)?;
    let attributes = after_reference(pool, descriptor, utf8_at)?;
    after_attributes(pool.bytes, attributes)
}

// A count of members, and so many.
#[tactic(auto, unfolding(crate::specs::Form::after_members))]
fn after_members(pool: Pool, p: usize) -> Result<usize, Refusal>
    ensures { result ≡ after_members pool.entry.bytes.now p }
{
    after_counted(pool.bytes, p, |q| after_member(pool, q))
}

// Access flags, this class, its parent and the interfaces.
#[tactic(auto, unfolding(crate::specs::Form::after_head, crate::specs::Form::after_class, crate::specs::Form::after_reference))]
fn after_head(pool: Pool, p: usize) -> Result<usize, Refusal>
    ensures { result ≡ after_head pool.entry.bytes.now p }
{
    let class = take(pool.bytes, p, 2)?;
    let parent = after_reference(pool, class, class_at)?;
    let interfaces = after_parent(pool, parent)?;
    after_interfaces(pool.bytes, interfaces)
}

// ---- the file

// The access flags and what follows them, to the file's end.
#[tactic(auto, unfolding(crate::specs::Parts::class_of))]
fn class_of(pool: Pool, head: usize) -> Result<Places, Refusal>
    ensures { result ≡ class_of pool.entry.bytes.now head }
{
    let fields = after_head(pool, head)?;
    let methods = after_members(pool, fields)?;
    let attributes = after_members(pool, methods)?;
    if after_attributes(pool.bytes, attributes)? == pool.bytes.len() {
        Ok(Places {
            head,
            fields,
            methods,
        })
    } else {
        Err(Refusal::WrongEnd)
    }
}

// The pool and what follows it.
#[tactic(auto, using(crate::proofs::Laws::pool_is), unfolding(crate::specs::Parts::file_of))]
fn file_of(bytes: &[u8]) -> Result<Places, Refusal>
    ensures { result ≡ file_of bytes.now }
{
    let mut marks = NO_MARKS;
    take(bytes, COUNT_PLACE, 2)?;
    let head = after_constants(bytes, &mut marks)?;
    class_of(
        Pool {
            bytes,
            marks: &marks,
        },
        head,
    )
}

// Magic CAFEBABE and a major version of 45 to 48.
#[tactic(auto, unfolding(crate::specs::Form::version_ok))]
fn version_ok(bytes: &[u8]) -> bool
    ensures { result ≡ version_ok bytes.now }
{
    let major = u2(bytes, 6);
    (u4_after(bytes, 0, 0) == 0xCAFEBABE) & (45 <= major) & (major <= 48)
}

// Judges the form of a class file, front to back.
#[tactic(auto, unfolding(crate::specs::Parts::form_of))]
pub fn form(bytes: &[u8]) -> Result<Places, Refusal>
    ensures { result ≡ form_of bytes.now }
{
    if bytes.len() < 8 {
        return Err(Refusal::WrongEnd);
    }
    if !version_ok(bytes) {
        return Err(Refusal::NotClassFile);
    }
    file_of(bytes)
}

// The place after the attributes that begin n bytes after p, or the end of the bytes.
#[tactic(auto, using(crate::proofs::Laws::attributes_cut), unfolding(crate::specs::Form::taken))]
fn attributes_end(bytes: &[u8], p: usize, n: usize) -> usize
    ensures { result ≡ ended bytes.now (after_attributes bytes.now (p + n)) }
{
    match take(bytes, p, n) {
        Err(_) => bytes.len(),
        Ok(q) => after_attributes(bytes, q).unwrap_or(bytes.len()),
    }
}

// The member at p.
#[tactic(auto, unfolding(crate::specs::Parts::member_at))]
pub fn member_at(bytes: &[u8], p: usize) -> Member
    ensures { result ≡ member_at bytes.now p }
{
    Member {
        flags: u2(bytes, p),
        name: u2_after(bytes, p, 2),
        descriptor: u2_after(bytes, p, 4),
        next: attributes_end(bytes, p, 6),
    }
}
