// Rows 3 and 4 of the table of refusals, for the words of an ABI sheet.
#![tactic(auto)]

ghost use Rattle.std.specs.Prelude.{◌≡◌, drop};
ghost use Rattle.words.specs.Folds.{all_of};
ghost use Rattle.text.specs.Text.{member_clean};
ghost use Rattle.abi_sheet.specs.AbiSheet.{abi_class_count, abi_member_width};
ghost use Rattle.abi_rules.specs.AbiRules.{abi_limits, abi_fits, abi_form, abi_class_record, abi_records};

use text::Seen;

// Whether each count is within its limit.
#[tactic(auto, unfolding(crate::specs::AbiRules::abi_limits))]
fn limits_ok(abi: &[u32]) -> bool
    ensures { result ≡ abi_limits abi.now }
{
    abi_sheet::class_count(abi) <= abi_sheet::CLASS_LIMIT
        && abi_sheet::slot_count(abi) <= abi_sheet::SLOT_LIMIT
        && abi_sheet::field_count(abi) <= abi_sheet::FIELD_LIMIT
        && abi_sheet::text_length(abi) <= abi_sheet::TEXT_LIMIT
}

// Row 3 of a link or an ask: whether the counts are within their limits and the content fits the slice.
#[tactic(auto, unfolding(crate::specs::AbiRules::abi_fits))]
pub fn fits_ok(abi: &[u32]) -> bool
    ensures { result ≡ abi_fits abi.now }
{
    limits_ok(abi) && abi_sheet::content_end(abi) <= abi.len()
}

// Row 3 of a reading, for the words of whole blocks.
#[tactic(auto, unfolding(crate::specs::AbiRules::abi_form))]
pub fn form_ok(abi: &[u32]) -> bool
    ensures { result ≡ abi_form abi.now }
{
    let end = abi_sheet::content_end(abi);
    let text_end = 4 * abi_sheet::text_at(abi) + abi_sheet::text_length(abi) as usize;
    limits_ok(abi) && block::least_fit(end, abi.len()) && text::zero_rest(abi, text_end)
}

// Whether class a's record is in order.
#[tactic(auto, using(text::proofs::Laws::clean_is), unfolding(crate::specs::AbiRules::abi_class_record))]
fn class_ok(abi: &[u32], text: Seen, a: u32) -> bool
    ensures { result ≡ abi_class_record abi.now text.entry.bytes.now a }
{
    let name = abi_sheet::class_name_start(abi, a);
    let first_slot = abi_sheet::class_first_slot(abi, a);
    let first_field = abi_sheet::class_first_field(abi, a);
    text::part_clean(
        text.bytes,
        text.clean,
        name,
        abi_sheet::class_name_length(abi, a),
    ) && abi_sheet::class_table_size_plus_one(abi, a) <= 1025
        && abi_sheet::class_instance_words_plus_one(abi, a) <= 4097
        && words::is_inside(
            first_slot,
            abi_sheet::class_slot_count(abi, a),
            abi_sheet::slot_count(abi),
        )
        && words::is_inside(
            first_field,
            abi_sheet::class_field_count(abi, a),
            abi_sheet::field_count(abi),
        )
}

// Whether each class record is in order.
fn classes_ok(abi: &[u32], text: Seen) -> bool
    ensures { result ≡ all_of (abi_class_count abi.now) (abi_class_record abi.now text.entry.bytes.now) }
{
    words::all_of(abi_sheet::class_count(abi), |a| class_ok(abi, text, a))
}

// Whether each of the n slot or field records from word `at` on is in order; the index of each is at most `most`.
fn members_ok(abi: &[u32], text: Seen, at: usize, n: u32, most: u32) -> bool
    ensures { result ≡ all_of n (member_clean (drop at abi.now) abi_member_width most text.entry.bytes.now text.entry.clean) }
{
    let records = words::part(abi, at, abi.len());
    text::members_clean(
        records,
        abi_sheet::MEMBER_WIDTH as u32,
        n,
        most,
        text.bytes,
        text.clean,
    )
}

// Row 4, of a reading, a link or an ask.
#[tactic(auto, using(crate::proofs::Laws::slots_are, crate::proofs::Laws::fields_are), unfolding(crate::specs::AbiRules::abi_records))]
pub fn records_ok(abi: &[u32], text: &[u8]) -> bool
    ensures { result ≡ abi_records abi.now text.now }
{
    let seen = text::see(text);
    classes_ok(abi, seen)
        && members_ok(
            abi,
            seen,
            abi_sheet::slots_at(abi),
            abi_sheet::slot_count(abi),
            1023,
        )
        && members_ok(
            abi,
            seen,
            abi_sheet::fields_at(abi),
            abi_sheet::field_count(abi),
            4095,
        )
}
