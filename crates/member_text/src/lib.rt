// The text of a class file's members, put into lent bytes, and nothing past their end.
#![tactic(auto)]

ghost use Rattle.std.specs.Prelude.{◌≡◌, ◌+◌, ◌<◌, ◌≤◌, length, [], IfOk, IfErr};
ghost use Rattle.refusal.specs.Rows.{row};
ghost use Rattle.lines.specs.Bytes.{put};
ghost use Rattle.lines.specs.Out.{Puts};
ghost use Rattle.class_form.specs.Form.{u2};
ghost use Rattle.class_members.specs.Members.{members_at, member_places, file_refusal};
ghost use Rattle.member_text.specs.MemberText.{extends, class_text, flags_text, member_text, member_texts, refused_text, targets, class_lines, members_text};

use class_file::{File, Member};
use class_form::Pool;
use lines::Out;
use refusal::Refusal;

// ---- lines

// Puts ` extends PARENT`, nothing where there is no parent.
fn put_extends(out: &mut Out, parent: &[u8])
    ensures { Puts out.old out.new (extends parent.now) }
{
    if !parent.is_empty() {
        out.put(b" extends ");
        out.put(parent);
    }
}

// Puts `class NAME extends PARENT`.
#[tactic(auto, unfolding(crate::specs::MemberText::class_text))]
fn put_class(out: &mut Out, name: &[u8], parent: &[u8])
    ensures { Puts out.old out.new (class_text name.now parent.now) }
{
    out.put(b"class ");
    out.put(name);
    put_extends(out, parent);
    out.put(b"\n");
}

// Puts `  flags N`.
fn put_flags(out: &mut Out, flags: u32)
    ensures { Puts out.old out.new (flags_text flags) }
{
    out.put_numbered(b"  flags ", flags);
    out.put(b"\n");
}

// Puts `refused R`.
fn put_refused(out: &mut Out, refusal: Refusal)
    ensures { Puts out.old out.new (refused_text (row refusal)) }
{
    out.put_numbered(b"refused ", u32::from(refusal));
    out.put(b"\n");
}

// Puts a member's line, which begins with its kind.
fn put_member(out: &mut Out, kind: &[u8], m: Member, last: u32)
    ensures { Puts out.old out.new (member_text kind.now m.entry.signature.name.now m.entry.signature.descriptor.now last m.entry.flags) }
{
    out.put(kind);
    out.put(m.signature.name);
    out.put(b" ");
    out.put(m.signature.descriptor);
    out.put_numbered(b" ", last);
    out.put_numbered(b" flags ", m.flags);
    out.put(b"\n");
}

// ---- the file

// Puts the lines of the members whose count stands at p; the first has the last word `first`, and each other one a step more.
fn put_members(out: &mut Out, pool: Pool, p: usize, kind: &[u8], first: u32, step: u32)
    requires { p + 2 ≤ length pool.bytes.now }
    ensures { Puts out.old out.new (member_texts kind.now (members_at pool.entry.bytes.now (targets first step (u2 pool.entry.bytes.now p)) 0 (member_places pool.entry.bytes.now p))) }
{
    let mut last = first;
    let mut next = p + 2;
    for i in 0..class_form::u2(pool.bytes, p) {
        let m = class_file::member_at(pool, next);
        put_member(out, kind, m, last);
        last = last.wrapping_add(step);
        next = m.next;
    }
}

// Puts the text of a file in form.
fn put_file(out: &mut Out, file: File, first: u32, step: u32)
    ensures { Puts out.old out.new (class_lines file.entry.pool.bytes.now first step) }
{
    let places = file.places;
    put_class(out, file.name(), file.parent());
    put_flags(out, file.flags());
    put_members(out, file.pool, places.methods, b"  method ", first, step);
    put_members(out, file.pool, places.fields, b"  field ", 0, 0);
}

// Puts the text of a file that no row refuses.
fn put_accepted(out: &mut Out, bytes: &[u8], first: u32, step: u32) -> Result<(), Refusal>
    ensures accepted { IfOk result (λ u. (file_refusal bytes.now [] ≡ 0) × Puts out.old out.new (class_lines bytes.now first step)) }
    ensures refused { IfErr result (λ r. (file_refusal bytes.now [] ≡ row r) × (out.new ≡ out.old)) }
{
    let mut marks = class_form::NO_MARKS;
    let file = class_file::in_form(bytes, &mut marks)?;
    class_file::file_head(file)?;
    put_file(out, file, first, step);
    Ok(())
}

// Puts the text of a class file's members, or `refused` and the row.
fn put_text(out: &mut Out, bytes: &[u8], first: u32, step: u32)
    ensures { Puts out.old out.new (members_text bytes.now first step) }
{
    if let Err(refusal) = put_accepted(out, bytes, first, step) {
        put_refused(out, refusal);
    }
}

// Puts the text of a class file's members, or `refused` and the row; method m has the target first + step * m modulo 2^32. Where 65,536 bytes
// are lent it is put whole: it has fewer (proofs/Longest.antt). Bytes after it stay.
pub fn members_text(bytes: &[u8], first: u32, step: u32, out: &mut [u8]) -> usize
    ensures lines { (out.new, result) ≡ put (out.old, 0) (members_text bytes.now first step) }
    ensures longest { length (members_text bytes.now first step) < 65536 }
{
    let mut text = Out::new(out);
    put_text(&mut text, bytes, first, step);
    text.at
}
