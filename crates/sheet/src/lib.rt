// Reading a class sheet and an ABI sheet: bytes are judged by rows 1 to 5, or by rows 1 to 3 where a class sheet's classes may come in any
// order, before the first word is written.
#![tactic(auto)]

ghost use Rattle.std.specs.Prelude.{◌≡◌, ◌*◌, ◌^◌, ◌≤◌, ℕ, List};
ghost use Rattle.refusal.specs.Rows.{row_of};
ghost use Rattle.sheet.specs.Sheet.{outcome, block_refusal, sheet_refusal, read_sheet, class_rows, read_class_sheet, loose_rows, read_unordered_sheet, abi_rows, read_abi_sheet};
ghost use Rattle.sheet.specs.Steps.{Judges};

use refusal::Refusal;

// Rows 1 and 2, for at most `limit` blocks and a lent slice of `room` words.
#[tactic(auto, unfolding(crate::specs::Sheet::block_refusal))]
pub fn block_refusal(bytes: &[u8], room: usize, limit: u32) -> Result<(), Refusal>
    ensures { row_of result ≡ block_refusal bytes.now room limit }
{
    if !block::shape_ok(bytes, room, limit) {
        return Err(Refusal::Blocks);
    }
    if !block::checks_ok(bytes, block::block_count(bytes)) {
        return Err(Refusal::CheckWord);
    }
    Ok(())
}

// Rows 3 to 5 for the words of a class sheet.
#[tactic(auto, unfolding(crate::specs::Sheet::class_rows))]
fn class_rows(ws: &[u32]) -> Result<(), Refusal>
    ensures { row_of result ≡ class_rows ws.now }
{
    if !class_rules::form_ok(ws) {
        return Err(Refusal::Form);
    }
    set_rules::unpacked_refusal(ws)
}

// Row 3 for the words of a class sheet.
#[tactic(auto, unfolding(crate::specs::Sheet::loose_rows))]
fn loose_rows(ws: &[u32]) -> Result<(), Refusal>
    ensures { row_of result ≡ loose_rows ws.now }
{
    let formed = class_rules::form_ok(ws);
    if !formed {
        return Err(Refusal::Form);
    }
    Ok(())
}

// Rows 3 to 5 for the words of an ABI sheet.
#[tactic(auto, unfolding(crate::specs::Sheet::abi_rows))]
fn abi_rows(abi: &[u32]) -> Result<(), Refusal>
    ensures { row_of result ≡ abi_rows abi.now }
{
    if !abi_rules::form_ok(abi) {
        return Err(Refusal::Form);
    }
    let mut room = [0u8; abi_sheet::TEXT_LIMIT as usize];
    set_rules::abi_refusal(abi, abi_sheet::text_bytes(abi, &mut room))
}

// Reads a sheet of at most `limit` blocks, whose words are judged by `rows` after rows 1 and 2, and answers how many words were written.
fn read_sheet<const WORDS: usize, F: Fn(&[u32]) -> Result<(), Refusal>>(
    bytes: &[u8],
    out: &mut [u32],
    limit: u32,
    rows: F,
) -> Result<u32, Refusal>
    requires callable { F.IsAlwaysCallable rows }
    requires fits { 127 * limit ≤ WORDS }
    requires small { WORDS ≤ 2 ^ 17 }
    ensures { (rule : List ℕ → ℕ) → Judges (F.post rows) rule → outcome result out.new ≡ read_sheet (sheet_refusal limit rule) bytes.now out.old }
{
    block_refusal(bytes, out.len(), limit)?;
    let n = block::block_count(bytes);
    let mut sheet = [0u32; WORDS];
    block::unpack(bytes, n, &mut sheet);
    rows(words::part(&sheet, 0, 127 * n as usize))?;
    block::unpack(bytes, n, out);
    Ok(127 * n)
}

// Reads a class sheet into the lent words. An accepted sheet fills 127 words a block, which is the number answered, and leaves the
// rest of the slice as it was (both are this program's choice: the papers say only how many words a block asks for); a refused one
// changes nothing.
#[tactic(auto, unfolding(crate::specs::Sheet::read_class_sheet, crate::specs::Sheet::class_sheet_refusal))]
pub fn read_class_sheet(bytes: &[u8], out: &mut [u32]) -> Result<u32, Refusal>
    ensures { outcome result out.new ≡ read_class_sheet bytes.now out.old }
{
    read_sheet::<{ class_sheet::SHEET_WORDS }, _>(bytes, out, class_sheet::BLOCK_LIMIT, class_rows)
}

// Reads a class sheet whose classes come in any order, as `read_class_sheet` does, but by rows 1 to 3 alone: a link judges rows 4 and 5.
#[tactic(auto, unfolding(crate::specs::Sheet::read_unordered_sheet, crate::specs::Sheet::unordered_sheet_refusal))]
pub fn read_unordered_sheet(bytes: &[u8], out: &mut [u32]) -> Result<u32, Refusal>
    ensures { outcome result out.new ≡ read_unordered_sheet bytes.now out.old }
{
    read_sheet::<{ class_sheet::SHEET_WORDS }, _>(bytes, out, class_sheet::BLOCK_LIMIT, loose_rows)
}

// Reads an ABI sheet into the lent words, as `read_class_sheet` does a class sheet.
#[tactic(auto, unfolding(crate::specs::Sheet::read_abi_sheet, crate::specs::Sheet::abi_sheet_refusal))]
pub fn read_abi_sheet(bytes: &[u8], out: &mut [u32]) -> Result<u32, Refusal>
    ensures { outcome result out.new ≡ read_abi_sheet bytes.now out.old }
{
    read_sheet::<{ abi_sheet::SHEET_WORDS }, _>(bytes, out, abi_sheet::BLOCK_LIMIT, abi_rows)
}
