// Why a call on a sheet is turned down: the papers' number of each reason, and the place that it speaks of.
ghost use Rattle.std.specs.Prelude.{◌≡◌};
ghost use Rattle.sheet.specs.Numbers.{number_of, place_of};
ghost use Rattle.sheet.specs.declared.reasons.Reason.TheVariants.{Book, Room, Table, Questions};

use book::{NoRoom, Refused, Refuses};
use debrief::BadList;
use filter::NoColumn;

// The reader's refusal of the book, 14 with the first place at fault, 15 to 19, 21 to 24, or 27.
#[derive(Clone, Copy, PartialEq, Eq)]
pub enum Reason {
    Book(Refused),
    Fault(usize),
    Field,
    Code,
    NoAnswer,
    Room,
    Length,
    Table,
    Photographed,
    Readings,
    Form,
    Questions,
}

impl From<Refused> for Reason {
    ghost from_gives = { λ refused reason. reason ≡ Book refused };

    fn from(refused: Refused) -> Self {
        Self::Book(refused)
    }
}

// 18: less memory is lent than the answer takes.
impl From<NoRoom> for Reason {
    ghost from_gives = { λ _ reason. reason ≡ Room };

    fn from(_none: NoRoom) -> Self {
        Self::Room
    }
}

// 21: the table has no column for the field.
impl From<NoColumn> for Reason {
    ghost from_gives = { λ _ reason. reason ≡ Table };

    fn from(_none: NoColumn) -> Self {
        Self::Table
    }
}

// 27: no such list of questions may be asked.
impl From<BadList> for Reason {
    ghost from_gives = { λ _ reason. reason ≡ Questions };

    fn from(_none: BadList) -> Self {
        Self::Questions
    }
}

impl Refuses for Reason {
    ghost number_of = { number_of };

    ghost place_of = { place_of };

    fn number(self) -> u64 {
        match self {
            Reason::Book(refused) => refused.number(),
            Reason::Fault(_) => 14,
            Reason::Field => 15,
            Reason::Code => 16,
            Reason::NoAnswer => 17,
            Reason::Room => 18,
            Reason::Length => 19,
            Reason::Table => 21,
            Reason::Photographed => 22,
            Reason::Readings => 23,
            Reason::Form => 24,
            Reason::Questions => 27,
        }
    }

    fn place(self) -> usize {
        match self {
            Reason::Book(refused) => refused.place(),
            Reason::Fault(place) => place,
            _ => 0,
        }
    }
}
