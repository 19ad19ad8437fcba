// Why a call is refused: the rows of the table of refusals (docs/REFUSALS.md), which a caller in C sees by number.
#![tactic(auto)]

use std::error::Error;
use std::fmt;

// The rows in the order of their numbers, from 1 on.
#[derive(Clone, Copy, Debug, PartialEq, Eq)]
pub enum Refusal {
    Blocks = 1,
    CheckWord,
    Form,
    Record,
    Descriptor,
    Class,
    Area,
    FewWords,
    MixedIndices,
    ManyWords,
    MovedSlot,
    TakenSlot,
    ManySlots,
    FullLists,
    ShortMemory,
    Unimplemented,
    NotFresh,
    ShortBytes,
    Ring,
    NotClassFile,
    WrongEnd,
    WrongPool,
    LostStatics,
    ShortBitmap,
    ShortList,
    MixedPackages,
}

// The row's number.
impl From<Refusal> for u32 {
    ghost use Rattle.std.specs.Prelude.{◌≡◌};
    ghost use Rattle.refusal.specs.Rows.{row};

    ghost from_gives = { λ refusal n. n ≡ row refusal };

    fn from(refusal: Refusal) -> u32 {
        refusal as u32
    }
}

// Printed, a refusal is its number.
impl fmt::Display for Refusal {
    fn fmt<W: fmt::Write>(&self, f: &mut fmt::Formatter<W>) -> fmt::Result {
        write!(f, "{}", u32::from(*self))
    }
}

impl Error for Refusal {}
