// Why two books are not joined, and what a refusal tells.
ghost use Rattle.std.specs.Prelude.{◌≡◌};
ghost use Rattle.joining.specs.Numbers.{number_of, place_of};
ghost use Rattle.joining.specs.declared.refusals.JoinRefusal.TheVariants.{Book, Limit, Room};

use super::lay::Over;
use book::{NoRoom, Refused, Refuses};

// The reader's refusal of the first book, or else of the second; that the books' code counts differ; that the joined book breaks a limit;
// or that fewer bytes are lent.
#[derive(Clone, Copy, PartialEq, Eq)]
pub enum JoinRefusal {
    Book(Refused),
    Counts,
    Limit,
    Room,
}

impl From<Refused> for JoinRefusal {
    ghost from_gives = { λ refused refusal. refusal ≡ Book refused };

    fn from(refused: Refused) -> JoinRefusal {
        JoinRefusal::Book(refused)
    }
}

impl From<Over> for JoinRefusal {
    ghost from_gives = { λ _ refusal. refusal ≡ Limit };

    fn from(_: Over) -> JoinRefusal {
        JoinRefusal::Limit
    }
}

impl From<NoRoom> for JoinRefusal {
    ghost from_gives = { λ _ refusal. refusal ≡ Room };

    fn from(_: NoRoom) -> JoinRefusal {
        JoinRefusal::Room
    }
}

impl Refuses for JoinRefusal {
    ghost number_of = { number_of };

    ghost place_of = { place_of };

    fn number(self) -> u64 {
        match self {
            JoinRefusal::Book(refused) => refused.number(),
            JoinRefusal::Counts => 25,
            JoinRefusal::Limit => 26,
            JoinRefusal::Room => 18,
        }
    }

    fn place(self) -> usize {
        match self {
            JoinRefusal::Book(refused) => refused.place(),
            _ => 0,
        }
    }
}
