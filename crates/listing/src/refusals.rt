// Why a book is not shown and a listing not written. Each refusal has its number and place.
ghost use Rattle.std.specs.Prelude.{◌≡◌};
ghost use Rattle.listing.specs.Refusals.{show_number, show_place, write_number};
ghost use Rattle.listing.specs.declared.refusals.ShowRefusal.TheVariants.{Book};
ghost use Rattle.listing.specs.declared.refusals.WriteRefusal.TheVariants.{Room};

use book::{NoRoom, Refused, Refuses};

// The bytes are no book, or fewer numbers are lent than its listing has.
#[derive(Clone, Copy, PartialEq, Eq)]
pub enum ShowRefusal {
    Book(Refused),
    Room,
}

// The numbers are no book's listing, or fewer bytes are lent than the book has: a refusal's discriminant is its number.
#[derive(Clone, Copy, PartialEq, Eq)]
pub enum WriteRefusal {
    Listing = 20,
    Room = 18,
}

impl From<Refused> for ShowRefusal {
    ghost from_gives = { λ refused refusal. refusal ≡ Book refused };

    fn from(refused: Refused) -> ShowRefusal {
        ShowRefusal::Book(refused)
    }
}

impl From<NoRoom> for WriteRefusal {
    ghost from_gives = { λ _ refusal. refusal ≡ Room };

    fn from(_: NoRoom) -> WriteRefusal {
        WriteRefusal::Room
    }
}

impl Refuses for ShowRefusal {
    ghost number_of = { show_number };

    ghost place_of = { show_place };

    fn number(self) -> u64 {
        match self {
            ShowRefusal::Book(refused) => refused.number(),
            ShowRefusal::Room => 18,
        }
    }

    fn place(self) -> usize {
        match self {
            ShowRefusal::Book(refused) => refused.place,
            ShowRefusal::Room => 0,
        }
    }
}

impl Refuses for WriteRefusal {
    ghost number_of = { write_number };

    ghost place_of = { λ _. 0 };

    fn number(self) -> u64 {
        self as u64
    }

    fn place(self) -> usize {
        0
    }
}
