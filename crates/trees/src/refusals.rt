// Why a book is no tree book, and why none is written. Each refusal has its number and place.
ghost use Rattle.std.specs.Prelude.{◌≡◌};
ghost use Rattle.trees.specs.Numbers.{breach_number, read_number, read_place, write_number};
ghost use Rattle.trees.specs.declared.refusals.TreeRefusal.TheVariants as read;
ghost use Rattle.trees.specs.declared.refusals.TreeWriteRefusal.TheVariants as write;

use book::{NoRoom, Refused, Refuses};

// What of the profile a book breaks: a table ties more than two fields, or closes a ring. A breach's discriminant is its number.
#[derive(Clone, Copy, PartialEq, Eq)]
pub enum Breach {
    Wide = 28,
    Ring,
}

// The first breach, and the first byte of its table.
#[derive(Clone, Copy, PartialEq, Eq)]
pub struct Breached {
    pub breach: Breach,
    pub place: usize,
}

// The reader's refusal, or a breach.
#[derive(Clone, Copy, PartialEq, Eq)]
pub enum TreeRefusal {
    Book(Refused),
    Profile(Breached),
}

// The numbers are no book's listing; or the book breaks the profile, wherever; or fewer bytes are lent than it has.
#[derive(Clone, Copy, PartialEq, Eq)]
pub enum TreeWriteRefusal {
    Listing,
    Profile(Breach),
    Room,
}

impl Breach {
    pub(crate) fn at(self, place: usize) -> Breached
        ensures breach { result.breach ≡ self }
        ensures place { result.place ≡ place }
    {
        Breached {
            breach: self,
            place,
        }
    }
}

impl From<Refused> for TreeRefusal {
    ghost from_gives = { λ refused refusal. refusal ≡ read.Book refused };

    fn from(refused: Refused) -> TreeRefusal {
        TreeRefusal::Book(refused)
    }
}

impl From<Breached> for TreeRefusal {
    ghost from_gives = { λ breached refusal. refusal ≡ read.Profile breached };

    fn from(breached: Breached) -> TreeRefusal {
        TreeRefusal::Profile(breached)
    }
}

// A writer has no byte to tell of.
impl From<Breached> for TreeWriteRefusal {
    ghost from_gives = { λ breached refusal. refusal ≡ write.Profile breached.breach };

    fn from(breached: Breached) -> TreeWriteRefusal {
        TreeWriteRefusal::Profile(breached.breach)
    }
}

impl From<NoRoom> for TreeWriteRefusal {
    ghost from_gives = { λ _ refusal. refusal ≡ write.Room };

    fn from(_: NoRoom) -> TreeWriteRefusal {
        TreeWriteRefusal::Room
    }
}

impl Refuses for TreeRefusal {
    ghost number_of = { read_number };

    ghost place_of = { read_place };

    fn number(self) -> u64 {
        match self {
            TreeRefusal::Book(refused) => refused.number(),
            TreeRefusal::Profile(breached) => breached.breach as u64,
        }
    }

    fn place(self) -> usize {
        match self {
            TreeRefusal::Book(refused) => refused.place,
            TreeRefusal::Profile(breached) => breached.place,
        }
    }
}

impl Refuses for TreeWriteRefusal {
    ghost number_of = { write_number };

    ghost place_of = { λ _. 0 };

    fn number(self) -> u64 {
        match self {
            TreeWriteRefusal::Listing => 20,
            TreeWriteRefusal::Profile(breach) => breach as u64,
            TreeWriteRefusal::Room => 18,
        }
    }

    fn place(self) -> usize {
        0
    }
}
