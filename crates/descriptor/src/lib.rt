// Descriptors of fields and methods, JVMS 4.2, 4.3.2 and 4.3.3: whether bytes are one, and the words that it stands for. Every
// function takes any bytes. specs/Grammar.antt has the grammar, and specs/Meaning.antt says what the definitions cited here mean.
#![tactic(auto)]

ghost use Rattle.std.specs.Prelude.{◌≡◌, ◌≤◌, length};
ghost use Rattle.words.specs.Lists.{fold};
ghost use Rattle.descriptor.specs.Bytes.{is_base_byte, is_name_byte};
ghost use Rattle.descriptor.specs.Machine.{
  field_next,
  field_done,
  is_field_descriptor,
  method_next,
  method_done,
  is_method_descriptor,
};
ghost use Rattle.descriptor.specs.Names.{name_run, field_inside, method_inside};
ghost use Rattle.descriptor.specs.Words.{
  receiver_words,
  byte_width,
  width,
  between_parameters,
  begun_words,
  is_method,
  capped,
  capped_from,
  answer,
  argument_answer,
};

use refusal::Refusal;

// Where a reader of a field type stands: at a type, at the first byte of an identifier of a class name, after one, at the type's
// end, or past a fault.
#[derive(Clone, Copy)]
enum FieldState {
    Open,
    Start,
    Inside,
    Done,
    Bad,
}

// Where a reader of a method descriptor stands: at its first byte, among the parameters (`Done` before and after each), at the
// return descriptor, or in it.
#[derive(Clone, Copy)]
enum MethodState {
    Begin,
    Parameters(FieldState),
    Return,
    Returned(FieldState),
}

// The most words that the arguments of a method take, its receiver among them.
const ARGUMENT_LIMIT: u64 = 255;

// Whether b is a base type.
#[tactic(auto, unfolding(crate::specs::Bytes::is_base_byte, words::specs::Lists::some))]
fn is_base_byte(b: u8) -> bool
    ensures { result ≡ is_base_byte b }
{
    b"BCDFIJSZ".contains(&b)
}

// Whether an unqualified name may have b.
#[tactic(auto, unfolding(crate::specs::Bytes::is_name_byte, words::specs::Lists::some))]
fn is_name_byte(b: u8) -> bool
    ensures { result ≡ is_name_byte b }
{
    !b".;[/".contains(&b)
}

impl FieldState {
    // Reads b of a field descriptor.
    #[tactic(auto, unfolding(crate::specs::Machine::field_next))]
    #[inline(always)]
    fn next(self, b: u8) -> FieldState
        ensures { result ≡ field_next self b }
    {
        match (self, b) {
            (FieldState::Open, b'[') => FieldState::Open,
            (FieldState::Open, b'L') => FieldState::Start,
            (FieldState::Open, _) if is_base_byte(b) => FieldState::Done,
            (FieldState::Inside, b';') => FieldState::Done,
            (FieldState::Inside, b'/') => FieldState::Start,
            (FieldState::Start | FieldState::Inside, _) if is_name_byte(b) => FieldState::Inside,
            _ => FieldState::Bad,
        }
    }

    // Whether a descriptor may end here.
    fn is_done(self) -> bool
        ensures { result ≡ field_done self }
    {
        matches!(self, FieldState::Done)
    }

    // Whether the reader stands inside an identifier.
    fn is_inside(self) -> bool
        ensures { result ≡ field_inside self }
    {
        matches!(self, FieldState::Inside)
    }
}

impl MethodState {
    // Reads b of a method descriptor.
    #[tactic(auto, using(crate::proofs::Turns::inside_parameter), unfolding(crate::specs::Machine::method_next))]
    #[inline(always)]
    fn next(self, b: u8) -> MethodState
        ensures { result ≡ method_next self b }
    {
        match self {
            MethodState::Begin if b == b'(' => MethodState::Parameters(FieldState::Done),
            MethodState::Begin => MethodState::Parameters(FieldState::Bad),
            MethodState::Parameters(q) => match q {
                FieldState::Done if b == b')' => MethodState::Return,
                FieldState::Done => MethodState::Parameters(FieldState::Open.next(b)),
                _ => MethodState::Parameters(q.next(b)),
            },
            MethodState::Return if b == b'V' => MethodState::Returned(FieldState::Done),
            MethodState::Return => MethodState::Returned(FieldState::Open.next(b)),
            MethodState::Returned(q) => MethodState::Returned(q.next(b)),
        }
    }

    // Whether a descriptor may end here.
    fn is_done(self) -> bool
        ensures { result ≡ method_done self }
    {
        matches!(self, MethodState::Returned(FieldState::Done))
    }

    // Whether the reader stands inside an identifier.
    fn is_inside(self) -> bool
        ensures { result ≡ method_inside self }
    {
        matches!(
            self,
            MethodState::Parameters(FieldState::Inside) | MethodState::Returned(FieldState::Inside)
        )
    }

    // Whether a parameter or the closing parenthesis is next.
    fn is_between(self) -> bool
        ensures { result ≡ between_parameters self }
    {
        matches!(self, MethodState::Parameters(FieldState::Done))
    }
}

// How many bytes that a name may have are in front.
#[tactic(auto, using(crate::proofs::Names::run_within, crate::proofs::Names::run_turn, crate::proofs::Names::run_stop))]
fn name_run(s: &[u8]) -> usize
    ensures is { result ≡ name_run s.now }
    ensures within { result ≤ length s.now }
{
    for (j, b) in s.iter().enumerate() {
        if !is_name_byte(*b) {
            return j;
        }
    }
    s.len()
}

// Whether a reader that stands at `from` may end after the bytes. Inside an identifier it passes over the bytes that leave it where it stands.
fn accepts(from: MethodState, s: &[u8]) -> bool
    ensures { result ≡ method_done (fold method_next from s.now) }
{
    let mut q = from;
    let mut rest = s;
    while let Some((b, after)) = rest.split_first() {
        q = q.next(*b);
        rest = if q.is_inside() {
            &after[name_run(after)..]
        } else {
            after
        };
    }
    q.is_done()
}

// Whether the bytes are a field descriptor. Any bytes are taken, and only the grammar counts: there is no limit on dimensions.
#[tactic(auto, unfolding(crate::specs::Machine::is_field_descriptor))]
pub fn is_field_descriptor(s: &[u8]) -> bool
    ensures { result ≡ is_field_descriptor s.now }
{
    let mut q = FieldState::Open;
    let mut rest = s;
    while let Some((b, after)) = rest.split_first() {
        q = q.next(*b);
        rest = if q.is_inside() {
            &after[name_run(after)..]
        } else {
            after
        };
    }
    q.is_done()
}

// Whether the grammar has the bytes as a method descriptor. Any bytes are taken; the limit on argument words is `is_method`'s.
#[tactic(auto, unfolding(crate::specs::Machine::is_method_descriptor))]
fn is_method_descriptor(s: &[u8]) -> bool
    ensures { result ≡ is_method_descriptor s.now }
{
    accepts(MethodState::Begin, s)
}

// The words of a value whose descriptor begins with b.
#[tactic(auto, unfolding(crate::specs::Words::byte_width))]
fn byte_width(b: u8) -> u32
    ensures { result ≡ byte_width b }
{
    if matches!(b, b'J' | b'D') { 2 } else { 1 }
}

// The words of a value of the field descriptor: of bytes that a derivation spells, the derivation's words. The papers are silent on
// bytes that are no descriptor. Any are taken: 2 where the first byte is J or D, else 1, and 1 where there is no byte.
#[tactic(auto, unfolding(crate::specs::Words::width))]
pub fn width(s: &[u8]) -> u32
    ensures { result ≡ width s.now }
{
    byte_width(words::get_or(s, 0, 0))
}

// The words of the parameter that b begins, and 0 where it begins none.
#[tactic(auto, unfolding(crate::specs::Words::begun_words))]
fn begun_words(q: MethodState, b: u8) -> u32
    ensures { result ≡ begun_words q b }
{
    if q.is_between() && b != b')' {
        byte_width(b)
    } else {
        0
    }
}

// n words and w more. Above the limit nothing more is counted, so that no count wraps.
#[tactic(auto, unfolding(crate::specs::Words::capped))]
fn capped(n: u64, w: u32) -> u64
    ensures { result ≡ capped n w }
{
    if ARGUMENT_LIMIT < n { n } else { n + w as u64 }
}

// The words of the parameters of a method descriptor, counted until they are above the limit.
#[tactic(auto, using(crate::proofs::Turns::capped_turn, crate::proofs::Turns::capped_end))]
fn parameter_words(s: &[u8]) -> u64
    ensures { result ≡ capped_from 0 MethodState.Begin s.now }
{
    let mut q = MethodState::Begin;
    let mut n: u64 = 0;
    for &b in s {
        n = capped(n, begun_words(q, b));
        q = q.next(b);
    }
    n
}

// The word of the receiver: none where the flags have 0x0008, static.
#[tactic(auto, using(crate::proofs::Receiver::no_receiver, crate::proofs::Receiver::one_receiver))]
fn receiver_words(flags: u32) -> u64
    ensures { result ≡ receiver_words flags }
{
    if flags & 0x0008 != 0 { 0 } else { 1 }
}

// Whether the bytes are the descriptor of a method with these flags: the grammar has them, and the arguments, the receiver's word among
// them, take at most 255 words. A descriptor of up to 127 bytes, two words a byte at most, needs no counting. Any bytes are taken, and
// any flags, of which only the bit 0x0008, static, counts.
#[tactic(auto, using(crate::proofs::Limit::capped_small, crate::proofs::Turns::no_grammar, crate::proofs::Turns::short_method, crate::proofs::Turns::counted_method))]
pub fn is_method(s: &[u8], flags: u32) -> bool
    ensures { result ≡ is_method flags s.now }
{
    if !is_method_descriptor(s) {
        return false;
    }
    if s.len() <= 127 {
        return true;
    }
    receiver_words(flags) + parameter_words(s) <= ARGUMENT_LIMIT
}

// The words of a method's arguments, the receiver's among them, at most 255, or refusal 5 where the bytes are no descriptor of a method
// with these flags. Any bytes and flags are taken, as by `is_method`.
#[tactic(auto, using(crate::proofs::Limit::capped_small, crate::proofs::Turns::argument_refused, crate::proofs::Turns::argument_counted))]
pub fn argument_words(s: &[u8], flags: u32) -> Result<u64, Refusal>
    ensures { answer result ≡ argument_answer s.now flags }
{
    if !is_method(s, flags) {
        return Err(Refusal::Descriptor);
    }
    Ok(receiver_words(flags) + parameter_words(s))
}
