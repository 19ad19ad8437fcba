// Class sheets of the old form, with 17 words a class record, made ones of the new, with 18, and back: from blocks to blocks, and all rows are
// judged before the first byte is written. The form cannot be seen from the bytes: the caller says it by the entry that it calls.
#![tactic(auto)]

ghost use Rattle.std.specs.Prelude.{◌≡◌, ◌+◌, ◌*◌, ◌^◌, ◌≤◌, ◌<◌, length, true};
ghost use Rattle.refusal.specs.Rows.{row_of};
ghost use Rattle.words.specs.Folds.{all_of, stores};
ghost use Rattle.class_sheet.specs.ClassSheet.{text_limit, text_length, class_count, content_end, text_of};
ghost use Rattle.class_rules.specs.ClassRules.{class_form};
ghost use Rattle.writer.specs.Writer.{outcome};
ghost use Rattle.convert.specs.Convert.{old_end, old_text_at, old_fits, old_rows, forward_statics, keeps_statics, drops_statics, widen_sheet, narrow_sheet};
ghost use Rattle.convert.specs.Steps.{widened_word, widened_words, narrowed_word, fresh_rows, forward_words, put_words, widen_words, narrow_words};

use class_sheet::Kind;
use refusal::Refusal;

// The words of a class record of the old form.
const OLD_WIDTH: usize = class_sheet::CLASS_WIDTH - 1;

// Word j of the new form of these words, where the class of index i has the static words `statics[i]`.
#[tactic(auto, unfolding(crate::specs::Steps::widened_word))]
fn widened_word(ws: &[u32], statics: &[u32], j: usize) -> u32
    ensures { result ≡ widened_word ws.now statics.now j }
{
    if j < class_sheet::COUNTS_WIDTH {
        return words::get_or(ws, j, 0);
    }
    let classes = class_sheet::class_count(ws) as usize;
    let at = j - class_sheet::COUNTS_WIDTH;
    if class_sheet::CLASS_WIDTH * classes <= at {
        return words::get_or(ws, j - classes, 0);
    }
    let i = at / class_sheet::CLASS_WIDTH;
    let k = at % class_sheet::CLASS_WIDTH;
    if k == OLD_WIDTH {
        return words::get_or(statics, i, 0);
    }
    words::get_or(ws, class_sheet::COUNTS_WIDTH + OLD_WIDTH * i + k, 0)
}

// The new form of these words, into the front of `out`.
fn widen(ws: &[u32], statics: &[u32], out: &mut [u32])
    ensures { out.new ≡ stores (content_end ws.now) (widened_word ws.now statics.now) out.old }
{
    words::store_each(
        out,
        class_sheet::content_end(ws),
        |j| widened_word(ws, statics, j),
    );
}

// Where the content of the old form of these words ends: a word a class before that of the new form.
fn old_end(ws: &[u32]) -> usize
    ensures is { result ≡ old_end ws.now }
    ensures small { result < 2 ^ 42 }
{
    class_sheet::content_end(ws) - class_sheet::class_count(ws) as usize
}

// Word j of the old form of these words.
#[tactic(auto, unfolding(crate::specs::Steps::narrowed_word))]
fn narrowed_word(ws: &[u32], j: usize) -> u32
    ensures { result ≡ narrowed_word ws.now j }
{
    if j < class_sheet::COUNTS_WIDTH {
        return words::get_or(ws, j, 0);
    }
    let classes = class_sheet::class_count(ws) as usize;
    let at = j - class_sheet::COUNTS_WIDTH;
    if OLD_WIDTH * classes <= at {
        return words::get_or(ws, j.saturating_add(classes), 0);
    }
    let i = at / OLD_WIDTH;
    let k = at % OLD_WIDTH;
    words::get_or(
        ws,
        class_sheet::COUNTS_WIDTH + class_sheet::CLASS_WIDTH * i + k,
        0,
    )
}

// The old form of these words, into the front of `out`.
fn narrow(ws: &[u32], out: &mut [u32])
    ensures { out.new ≡ stores (old_end ws.now) (narrowed_word ws.now) out.old }
{
    words::store_each(out, old_end(ws), |j| narrowed_word(ws, j));
}

// The byte where the text of the old form of these words ends, counted from the first word.
fn old_text_end(ws: &[u32]) -> usize
    ensures is { result ≡ 4 * old_text_at ws.now + text_length ws.now }
    ensures small { result < 2 ^ 44 }
{
    class_sheet::text_end(ws) - 4 * class_sheet::class_count(ws) as usize
}

// Row 3 of the old form but for the links: limits, the least blocks that hold the content, zeros after it.
#[tactic(auto, unfolding(crate::specs::Convert::old_fits))]
fn old_fits(ws: &[u32]) -> bool
    ensures { result ≡ old_fits ws.now }
{
    class_rules::limits_ok(ws)
        && block::least_fit(old_end(ws), ws.len())
        && text::zero_rest(ws, old_text_end(ws))
}

// The static words that class c gets going forward: of a generated class the sum of its static field widths.
#[tactic(auto, unfolding(crate::specs::Convert::forward_statics))]
fn forward_statics(ws: &[u32], text: &[u8], c: u32) -> u32
    ensures { result ≡ forward_statics ws.now text.now c }
{
    if class_sheet::has_kind(ws, c, Kind::Generated) {
        return field::static_words(ws, text, c);
    }
    0
}

// The static words that each class gets going forward, into the front of `statics`.
fn put_statics(ws: &[u32], text: &[u8], statics: &mut [u32])
    ensures { statics.new ≡ stores (class_count ws.now) (λ i. forward_statics ws.now text.now (i + 1)) statics.old }
{
    let n = class_sheet::class_count(ws);
    for i in 0..n {
        words::put(statics, i as usize, forward_statics(ws, text, i + 1));
    }
}

// Of words in the new form, made of an old sheet that fits: the static words of each class, into the front of `statics`, and rows 3 to 5.
#[tactic(auto, unfolding(crate::specs::Steps::fresh_rows))]
fn forward_rows(ws: &[u32], statics: &mut [u32]) -> Result<(), Refusal>
    ensures value { text_length ws.now ≤ text_limit → row_of result ≡ fresh_rows ws.now }
    ensures sums { text_length ws.now ≤ text_limit →
        statics.new ≡ stores (class_count ws.now) (λ i. forward_statics ws.now (text_of ws.now) (i + 1)) statics.old }
{
    let mut room = [0u8; class_sheet::TEXT_LIMIT as usize];
    let text = class_sheet::text_bytes(ws, &mut room);
    put_statics(ws, text, statics);
    if !class_rules::all_fresh(ws) {
        return Err(Refusal::Form);
    }
    set_rules::class_refusal(ws, text)
}

// The blocks of these words, where there is room for them, and how many they are.
#[tactic(auto, unfolding(crate::specs::Convert::blocks_or_row, crate::specs::Convert::room_refusal))]
fn put_blocks(ws: &[u32], out: &mut [u8]) -> Result<u32, Refusal>
    requires { length ws.now ≤ 11684 }
    ensures { outcome result out.new ≡ put_words ws.now out.old }
{
    let n = block::blocks_for(ws.len());
    if out.len() < 512 * n as usize {
        return Err(Refusal::ShortBytes);
    }
    block::pack(ws, n, out);
    Ok(n)
}

// Rows 3 to 5 for the words of an old sheet; where none refuses, the static words of each class stand in front of `statics`.
#[tactic(auto, unfolding(crate::specs::Convert::old_rows, crate::specs::Convert::old_form))]
fn old_rows(ws: &[u32], statics: &mut [u32]) -> Result<(), Refusal>
    ensures value { row_of result ≡ old_rows ws.now }
    ensures sums { row_of result ≡ 0 → statics.new ≡ forward_words ws.now statics.old }
{
    if !old_fits(ws) {
        return Err(Refusal::Form);
    }
    let none = [0u32; class_sheet::CLASS_LIMIT as usize];
    let mut wide = [0u32; class_sheet::SHEET_WORDS];
    widen(ws, &none, &mut wide);
    forward_rows(words::part(&wide, 0, class_sheet::content_end(ws)), statics)
}

// The blocks of the new form of these words, where there is room for them, and how many they are.
fn put_widened(ws: &[u32], statics: &[u32], out: &mut [u8]) -> Result<u32, Refusal>
    requires { content_end ws.now ≤ 11684 }
    ensures { outcome result out.new ≡ put_words (widened_words ws.now statics.now) out.old }
{
    let mut wide = [0u32; class_sheet::SHEET_WORDS];
    widen(ws, statics, &mut wide);
    put_blocks(words::part(&wide, 0, class_sheet::content_end(ws)), out)
}

// Rows 3 to 5 and 18 for the words of an old sheet, and its blocks in the new form.
#[tactic(auto, unfolding(crate::specs::Steps::widen_words, crate::specs::Convert::blocks_or_row))]
fn widen_words(ws: &[u32], out: &mut [u8]) -> Result<u32, Refusal>
    ensures { outcome result out.new ≡ widen_words ws.now out.old }
{
    let mut statics = [0u32; class_sheet::CLASS_LIMIT as usize];
    old_rows(ws, &mut statics)?;
    put_widened(ws, &statics, out)
}

// Makes a class sheet of the new form of one of the old, as few blocks as hold it, which is the number answered. Every byte after them stays; a
// refused call changes none.
pub fn widen_class_sheet(bytes: &[u8], out: &mut [u8]) -> Result<u32, Refusal>
    ensures { outcome result out.new ≡ widen_sheet bytes.now out.old }
{
    sheet::block_refusal(bytes, class_sheet::SHEET_WORDS, class_sheet::BLOCK_LIMIT)?;
    let n = block::block_count(bytes);
    let mut old = [0u32; class_sheet::SHEET_WORDS];
    block::unpack(bytes, n, &mut old);
    widen_words(words::part(&old, 0, 127 * n as usize), out)
}

// Whether class c is no generated class, or one whose static words are the sum of its static field widths.
#[tactic(auto, unfolding(crate::specs::Convert::keeps_statics))]
fn keeps_statics(ws: &[u32], text: &[u8], c: u32) -> bool
    ensures { result ≡ keeps_statics ws.now text.now c }
{
    !class_sheet::has_kind(ws, c, Kind::Generated)
        || class_sheet::class_static_words(ws, c) == field::static_words(ws, text, c)
}

// Row 23: whether a generated class has static words that the old form would lose.
#[tactic(auto, unfolding(crate::specs::Convert::drops_statics))]
fn drops_statics(ws: &[u32]) -> bool
    ensures { text_length ws.now ≤ text_limit → result ≡ drops_statics ws.now }
{
    let mut room = [0u8; class_sheet::TEXT_LIMIT as usize];
    let text = class_sheet::text_bytes(ws, &mut room);
    !words::all_up_to(class_sheet::class_count(ws), |c| keeps_statics(ws, text, c))
}

// Rows 23 and 18 for the words of a class sheet that a reading accepted, and its blocks in the old form. Not inlined, so that a reading and this do not take
// the stack at one time.
#[inline(never)]
#[tactic(auto, using(crate::proofs::Calls::form_text), unfolding(crate::specs::Steps::narrow_words, crate::specs::Convert::blocks_or_row))]
fn narrow_words(ws: &[u32], out: &mut [u8]) -> Result<u32, Refusal>
    requires { class_form ws.now ≡ true }
    ensures { outcome result out.new ≡ narrow_words ws.now out.old }
{
    if drops_statics(ws) {
        return Err(Refusal::LostStatics);
    }
    let mut old = [0u32; class_sheet::SHEET_WORDS];
    narrow(ws, &mut old);
    put_blocks(words::part(&old, 0, old_end(ws)), out)
}

// Makes a class sheet of the old form of one of the new, as `widen_class_sheet` does the other way.
pub fn narrow_class_sheet(bytes: &[u8], out: &mut [u8]) -> Result<u32, Refusal>
    ensures { outcome result out.new ≡ narrow_sheet bytes.now out.old }
{
    let mut set = [0u32; class_sheet::SHEET_WORDS];
    let n = sheet::read_class_sheet(bytes, &mut set)?;
    narrow_words(words::part(&set, 0, n as usize), out)
}
