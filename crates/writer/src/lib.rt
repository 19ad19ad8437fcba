// Writing a class sheet back: an unlinked set is judged by rows 3, 4, 5, 17 and 18 before the first byte is written.
#![tactic(auto)]

ghost use Rattle.std.specs.Prelude.{◌≡◌};
ghost use Rattle.refusal.specs.Rows.{row_of};
ghost use Rattle.writer.specs.Writer.{outcome, link_rows, storable, write_refusal, write_class_sheet};

use refusal::Refusal;

// Rows 3 to 5 as a link has them, of the class words alone.
#[tactic(auto, unfolding(crate::specs::Writer::link_rows))]
fn link_rows(set: &[u32]) -> Result<(), Refusal>
    ensures { row_of result ≡ link_rows set.now }
{
    if !class_rules::fits_ok(set) {
        return Err(Refusal::Form);
    }
    set_rules::unpacked_refusal(set)
}

// Row 17: whether each class is as a sheet may bring it, and the bytes after the text in its last word are 0.
#[tactic(auto, unfolding(crate::specs::Writer::storable))]
fn is_storable(set: &[u32]) -> bool
    ensures { result ≡ storable set.now }
{
    let content = words::part(set, 0, class_sheet::content_end(set));
    class_rules::all_fresh(set) & text::zero_rest(content, class_sheet::text_end(set))
}

// Rows 3, 4, 5, 17 and 18, where `room` bytes are lent.
#[tactic(auto, unfolding(crate::specs::Writer::write_refusal))]
fn write_refusal(set: &[u32], room: usize) -> Result<(), Refusal>
    ensures { row_of result ≡ write_refusal set.now room }
{
    link_rows(set)?;
    let n = block::blocks_for(class_sheet::content_end(set));
    if !is_storable(set) {
        return Err(Refusal::NotFresh);
    }
    if room < 512 * n as usize {
        return Err(Refusal::ShortBytes);
    }
    Ok(())
}

// Writes the blocks of a class sheet from an unlinked set into the lent bytes, as few blocks as hold its content, which is the number
// answered. Every byte after them stays; a refused call changes none.
#[tactic(auto, unfolding(crate::specs::Writer::write_class_sheet))]
pub fn write_class_sheet(set: &[u32], out: &mut [u8]) -> Result<u32, Refusal>
    ensures { outcome result out.new ≡ write_class_sheet set.now out.old }
{
    write_refusal(set, out.len())?;
    let end = class_sheet::content_end(set);
    let n = block::blocks_for(end);
    block::pack(words::part(set, 0, end), n, out);
    Ok(n)
}
