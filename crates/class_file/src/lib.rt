// Members taken straight from a class file (JVMS chapter 4): after its form (rows 20 to 22) its names, descriptors, flags and sizes are judged by
// rows 4, 5 and 14, and only then the three lent lists are written, in the sheet's form.
#![tactic(auto)]

ghost use Rattle.std.specs.Prelude.{◌≡◌, ◌+◌, ◌<◌, ◌≤◌, ◌*◌, ◌^◌, [], ◌++◌, length, ◌&&◌, ◌||◌, eqb, ℕ, IfOk, IfErr, Err};
ghost use Rattle.linking.specs.Set.{write_at, new_records, new_text, packed, overlaid};
ghost use Rattle.class_form.specs.Parts.{form_of, member_at};
ghost use Rattle.class_members.specs.Members.{string_at, utf8_bytes, class_bytes, file_flags, file_name, file_parent, parent_index, file_text, file_fields, file_methods, members_at, member_places, string_ok, file_outcome, fields_start, methods_start, class_file_head, read_class_file};
ghost use Rattle.class_sheet.specs.ClassSheet.{text_limit};
ghost use Rattle.class_file.specs.InForm.{InForm};
ghost use Rattle.class_file.specs.Walk.{row_four, row_five, tally, member_of, parent_of, head_walked, holds, Parted, Room, Fits};

use class_form::{MARKS, Mark, Places, Pool};
use class_members::FileHead;
use class_sheet::{MEMBER_WIDTH, MemberRecord};
use refusal::Refusal;
use text::Signature;

const TEXT_LIMIT: usize = class_sheet::TEXT_LIMIT as usize;

// ---- strings

// The bytes of the Utf8 constant whose tag was found, none where it was not.
pub fn string_at(bytes: &[u8], found: Result<usize, Refusal>) -> &[u8]
    ensures is { result.now ≡ string_at bytes.now found }
    ensures small { length result.now < 65536 }
{
    match found {
        Ok(p) => {
            let n = class_form::u2_after(bytes, p, 1);
            let constant = words::part(bytes, p, bytes.len());
            words::part(constant, 3, n as usize)
        }
        Err(_) => words::part(bytes, 0, 0),
    }
}

// The bytes of the Utf8 constant i.
#[tactic(auto, unfolding(class_members::specs::Members::utf8_bytes))]
pub fn utf8_bytes<'a>(pool: Pool<'a>, i: u32) -> &'a [u8]
    ensures is { result.now ≡ utf8_bytes pool.entry.bytes.now i }
    ensures small { length result.now < 65536 }
{
    string_at(pool.bytes, class_form::utf8_at(pool, i))
}

// The name of the Class constant i.
#[tactic(auto, unfolding(class_members::specs::Members::class_bytes))]
pub fn class_bytes<'a>(pool: Pool<'a>, i: u32) -> &'a [u8]
    ensures is { result.now ≡ class_bytes pool.entry.bytes.now i }
    ensures small { length result.now < 65536 }
{
    string_at(pool.bytes, class_form::class_at(pool, i))
}

// The parent's name, none where its reference is 0.
#[tactic(auto, unfolding(crate::specs::Walk::parent_of))]
pub fn parent_bytes<'a>(pool: Pool<'a>, i: u32) -> &'a [u8]
    ensures is { result.now ≡ parent_of pool.entry.bytes.now i }
    ensures small { length result.now < 65536 }
{
    if i == 0 {
        return words::part(pool.bytes, 0, 0);
    }
    class_bytes(pool, i)
}

// Whether a string has 1 to 255 bytes, each from 0x21 to 0x7E.
#[tactic(auto, using(crate::proofs::Laws::string_long), unfolding(class_members::specs::Members::string_ok, text::specs::Text::part_ok, text::specs::Text::part_clean))]
fn string_ok(s: &[u8]) -> bool
    ensures { result ≡ string_ok s.now }
{
    s.len() <= 255 && text::part_clean(s, false, 0, s.len() as u32)
}

// A member's name, descriptor and flags, and where the next one begins.
#[derive(Clone, Copy)]
pub struct Member<'a> {
    pub signature: Signature<'a>,
    pub flags: u32,
    pub next: usize,
}

// The member that begins at p.
pub fn member_at<'a>(pool: Pool<'a>, p: usize) -> Member<'a>
    ensures name { result.signature.name.now ≡ utf8_bytes pool.entry.bytes.now (member_at pool.entry.bytes.now p).name }
    ensures descriptor { result.signature.descriptor.now ≡ utf8_bytes pool.entry.bytes.now (member_at pool.entry.bytes.now p).descriptor }
    ensures flags { result.flags ≡ (member_at pool.entry.bytes.now p).flags }
    ensures next { result.next ≡ (member_at pool.entry.bytes.now p).next }
    ensures small { (length result.signature.name.now < 65536) × (length result.signature.descriptor.now < 65536) }
{
    let m = class_form::member_at(pool.bytes, p);
    Member {
        signature: Signature {
            name: utf8_bytes(pool, m.name),
            descriptor: utf8_bytes(pool, m.descriptor),
        },
        flags: m.flags,
        next: m.next,
    }
}

// ---- rows 4 and 5 along a list of members, and how many bytes their strings have

// Of members that row 4 does not refuse, how many there are, whether row 5 refuses none, and how many bytes their strings have.
#[derive(Clone, Copy)]
struct Tally {
    members: u32,
    typed: bool,
    text: usize,
}

// Row 4 of a method or a field.
#[tactic(auto, unfolding(class_members::specs::Members::method_ok, class_members::specs::Members::field_ok))]
fn is_named(method: bool, m: Member) -> bool
    ensures { result ≡ row_four method (member_of m.entry.signature.name.now m.entry.signature.descriptor.now m.entry.flags 0) }
{
    string_ok(m.signature.name)
        & string_ok(m.signature.descriptor)
        & (!method | class_rules::method_flags_ok(m.flags))
}

// Row 5 of a method, by its own flags, or a field.
#[tactic(auto, unfolding(class_members::specs::Members::method_typed, class_members::specs::Members::field_typed))]
fn is_typed(method: bool, m: Member) -> bool
    ensures { result ≡ row_five method (member_of m.entry.signature.name.now m.entry.signature.descriptor.now m.entry.flags 0) }
{
    if method {
        return descriptor::is_method(m.signature.descriptor, m.flags);
    }
    descriptor::is_field_descriptor(m.signature.descriptor)
}

// The methods or fields whose count stands at p.
#[tactic(auto, using(crate::proofs::Laws::tally_steps))]
fn tally_members(pool: Pool, method: bool, p: usize) -> Result<Tally, Refusal>
    requires { p + 2 ≤ length pool.bytes.now }
    ensures is { result ≡ tally method (members_at pool.entry.bytes.now [] 0 (member_places pool.entry.bytes.now p)) }
    ensures small { IfOk result (λ t. t.text < 2 ^ 50) }
{
    let members = class_form::u2(pool.bytes, p);
    let mut typed = true;
    let mut text: usize = 0;
    let mut next = p + 2;
    for _ in 0..members {
        let m = member_at(pool, next);
        if !is_named(method, m) {
            return Err(Refusal::Record);
        }
        typed = typed & is_typed(method, m);
        text += m.signature.name.len() + m.signature.descriptor.len();
        next = m.next;
    }
    Ok(Tally {
        members,
        typed,
        text,
    })
}

// ---- rows 4, 5 and 14 of the whole

// A class file in form: its bytes with the marks of its pool, and where its parts stand.
#[derive(Clone, Copy)]
pub struct File<'a> {
    pub pool: Pool<'a>,
    pub places: Places,
    pub ghost parted: { Parted pool.bytes.now places },
}

impl<'a> File<'a> {
    // The class's name.
    #[tactic(auto, using(crate::proofs::JudgeLaws::name_is))]
    pub fn name(self) -> &'a [u8]
        ensures is { result.now ≡ file_name self.entry.pool.bytes.now }
        ensures small { length result.now < 65536 }
    {
        class_bytes(
            self.pool,
            class_form::u2_after(self.pool.bytes, self.places.head, 2),
        )
    }

    // The reference to the parent, 0 where there is none.
    #[tactic(auto, using(crate::proofs::JudgeLaws::index_is))]
    fn parent_index(self) -> u32
        ensures { result ≡ parent_index self.entry.pool.bytes.now }
    {
        class_form::u2_after(self.pool.bytes, self.places.head, 4)
    }

    // The parent's name, none where there is no parent.
    #[tactic(auto, unfolding(crate::specs::Walk::parent_of, class_members::specs::Members::file_parent))]
    pub fn parent(self) -> &'a [u8]
        ensures is { result.now ≡ file_parent self.entry.pool.bytes.now }
        ensures small { length result.now < 65536 }
    {
        parent_bytes(self.pool, self.parent_index())
    }

    // The class's access flags.
    #[tactic(auto, using(crate::proofs::JudgeLaws::flags_are))]
    pub fn flags(self) -> u32
        ensures { result ≡ file_flags self.entry.pool.bytes.now }
    {
        class_form::u2(self.pool.bytes, self.places.head)
    }
}

// The six words of a file in form, or the row of 4, 5 and 14 that refuses it.
#[tactic(auto, unfolding(crate::specs::Walk::head_walked))]
pub fn file_head(file: File) -> Result<FileHead, Refusal>
    ensures { result ≡ head_walked file.entry.pool.bytes.now file.entry.places }
{
    let at = file.places;
    let name = file.name();
    let index = file.parent_index();
    let parent = file.parent();
    if !(string_ok(name) & ((index == 0) | string_ok(parent))) {
        return Err(Refusal::Record);
    }
    let f = tally_members(file.pool, false, at.fields)?;
    let m = tally_members(file.pool, true, at.methods)?;
    if !(f.typed & m.typed) {
        return Err(Refusal::Descriptor);
    }
    let text = name.len() + parent.len() + (f.text + m.text);
    if (class_sheet::FIELD_LIMIT < f.members)
        | (class_sheet::METHOD_LIMIT < m.members)
        | (TEXT_LIMIT < text)
    {
        return Err(Refusal::FullLists);
    }
    Ok(FileHead {
        name: name.len() as u32,
        parent: parent.len() as u32,
        flags: file.flags(),
        fields: f.members,
        methods: m.members,
        text: text as u32,
    })
}

// Row 14 by the lists: whether they hold the file's members and text, and there is a target for each method.
#[tactic(auto, using(crate::proofs::Laws::words_hold), unfolding(crate::specs::Walk::holds))]
fn lists_hold(h: FileHead, targets: usize, fields: usize, methods: usize, text: usize) -> bool
    ensures { result ≡ holds h.fields h.methods h.text targets fields methods text }
{
    (MEMBER_WIDTH * (h.fields as usize) <= fields)
        & (MEMBER_WIDTH * (h.methods as usize) <= methods)
        & ((h.text as usize).div_ceil(4) <= text)
        & (targets == (h.methods as usize))
}

// ---- writing

// The records of the members whose count stands at p, and their strings, from `start` on; answers where these end.
#[tactic(auto, using(crate::proofs::WriteLaws::write_steps, growth::proofs::GrowthLaws::strings_put, growth::proofs::GrowthLaws::strings_next, growth::proofs::GrowthLaws::laid_is))]
fn put_members(
    records: &mut [u32],
    text: &mut [u8],
    start: usize,
    pool: Pool,
    p: usize,
    lasts: &[u32],
) -> usize
    requires { Room records.old text.old start pool.bytes.now p lasts.now }
    ensures records { records.new ≡ write_at records.old 0 (new_records start (members_at pool.entry.bytes.now lasts.now 0 (member_places pool.entry.bytes.now p))) }
    ensures text { text.new ≡ write_at text.old start (new_text (members_at pool.entry.bytes.now lasts.now 0 (member_places pool.entry.bytes.now p))) }
    ensures end { result ≡ start + length (new_text (members_at pool.entry.bytes.now lasts.now 0 (member_places pool.entry.bytes.now p))) }
{
    let mut at = start;
    let mut next = p + 2;
    for i in 0..class_form::u2(pool.bytes, p) as usize {
        let m = member_at(pool, next);
        let signature = m.signature;
        growth::put_record(
            records,
            MEMBER_WIDTH * i,
            MemberRecord {
                name_start: at as u32,
                name_length: signature.name.len() as u32,
                descriptor_start: (at + signature.name.len()) as u32,
                descriptor_length: signature.descriptor.len() as u32,
                flags: m.flags,
                last: words::get_or(lasts, i, 0),
            },
        );
        at = growth::put_strings(text, at, signature.name, signature.descriptor);
        next = m.next;
    }
    at
}

// The class's and the parent's name at the front of the text; answers where they end.
#[tactic(auto, using(crate::proofs::ReadLaws::fields_start_is, growth::proofs::GrowthLaws::strings_put))]
fn put_head(text: &mut [u8], file: File) -> usize
    requires { (fields_start file.pool.bytes.now ≤ length text.old) × (length text.old ≤ text_limit) }
    ensures is { text.new ≡ write_at text.old 0 (file_name file.entry.pool.bytes.now ++ file_parent file.entry.pool.bytes.now) }
    ensures end { result ≡ fields_start file.entry.pool.bytes.now }
{
    growth::put_strings(text, 0, file.name(), file.parent())
}

// The three lists, of a file that no row refuses.
#[tactic(auto, using(crate::proofs::ReadLaws::list_steps, growth::proofs::GrowthLaws::packed_laid))]
fn write_lists(
    file: File,
    targets: &[u32],
    fields: &mut [u32],
    methods: &mut [u32],
    text: &mut [u32],
)
    requires { Fits file.pool.bytes.now targets.now fields.old methods.old text.old }
    ensures fields { fields.new ≡ overlaid (new_records (fields_start file.entry.pool.bytes.now) (file_fields file.entry.pool.bytes.now)) fields.old }
    ensures methods { methods.new ≡ overlaid (new_records (methods_start file.entry.pool.bytes.now) (file_methods file.entry.pool.bytes.now targets.now)) methods.old }
    ensures text { text.new ≡ overlaid (packed (file_text file.entry.pool.bytes.now targets.now)) text.old }
{
    let places = file.places;
    let mut strings = [0u8; TEXT_LIMIT];
    let first = put_head(&mut strings, file);
    let second = put_members(fields, &mut strings, first, file.pool, places.fields, &[]);
    let end = put_members(
        methods,
        &mut strings,
        second,
        file.pool,
        places.methods,
        targets,
    );
    growth::put_packed(text, 0, &strings[..end]);
}

// ---- the entries

// A file whose form was accepted: where its parts stand, and the marks of its pool.
#[tactic(auto, using(class_form::proofs::PartLaws::form_near, crate::proofs::ReadLaws::form_parted))]
fn marked<'a>(bytes: &'a [u8], marks: &'a [Mark; MARKS], places: Places) -> File<'a>
    requires { InForm bytes.now places bytes.now marks.now }
    ensures { InForm bytes.now result.places result.pool.bytes.now result.pool.marks.now }
{
    File {
        pool: Pool { bytes, marks },
        places,
    }
}

// A file whose form is accepted, with the marks of its pool in the array lent for them.
#[tactic(auto, using(crate::proofs::ReadLaws::read_steps))]
pub fn in_form<'a>(bytes: &'a [u8], marks: &'a mut [Mark; MARKS]) -> Result<File<'a>, Refusal>
    ensures accepted { IfOk result (λ f. InForm bytes.now f.places f.pool.bytes.now f.pool.marks.now) }
    ensures refused { IfErr result (λ r. form_of bytes.now ≡ Err r) }
{
    let places = class_form::form(bytes)?;
    *marks = class_form::pool_marks(bytes);
    Ok(File {
        pool: Pool { bytes, marks },
        places,
    })
}

// The six words alone, for a caller that has yet to lend lists (the program's choice): every row but 14 by the lists and targets.
#[tactic(auto, using(class_form::proofs::PartLaws::form_near, crate::proofs::ReadLaws::form_parted, crate::proofs::ReadLaws::head_by_form, crate::proofs::JudgeLaws::head_outcome), unfolding(class_form::specs::Marks::pool_marks))]
pub fn class_file_head(bytes: &[u8]) -> Result<FileHead, Refusal>
    ensures { file_outcome result [] [] [] ≡ class_file_head bytes.now }
{
    let places = class_form::form(bytes)?;
    let mut marks = class_form::NO_MARKS;
    class_form::fill_marks(bytes, &mut marks);
    file_head(marked(bytes, &marks, places))
}

// Reads a class file's members into three lent lists in the sheet's form, each method with its target. The six words that are answered, zeros
// after the text in its last word, and that words after what is written stay are this program's choice: the papers name no answer words, and
// say of the lists only what fills them. A refused call changes none.
#[tactic(auto, using(crate::proofs::ReadLaws::read_steps), unfolding(class_form::specs::Marks::pool_marks))]
pub fn read_class_file(
    bytes: &[u8],
    targets: &[u32],
    fields: &mut [u32],
    methods: &mut [u32],
    text: &mut [u32],
) -> Result<FileHead, Refusal>
    ensures { file_outcome result fields.new methods.new text.new ≡ read_class_file bytes.now targets.now fields.old methods.old text.old }
{
    let places = class_form::form(bytes)?;
    let mut marks = class_form::NO_MARKS;
    class_form::fill_marks(bytes, &mut marks);
    let file = marked(bytes, &marks, places);
    let head = file_head(file)?;
    if !lists_hold(head, targets.len(), fields.len(), methods.len(), text.len()) {
        return Err(Refusal::FullLists);
    }
    write_lists(file, targets, fields, methods, text);
    Ok(head)
}
