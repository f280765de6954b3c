// Why bytes are no book, and what a refusal tells: document 01's number, and a place.
ghost use Rattle.std.specs.Prelude.{ℕ, ◌≡◌};
ghost use Rattle.book.specs.Numbers.{number_of};

// What each call's refusal tells. Its number is set out by the definitions of the crate that has the call.
// (d) Where a refusal holds more than its kind, `number` is a match: an enum that holds something has no discriminants to cast.
pub trait Refuses {
    ghost number_of: { Self → ℕ };

    ghost place_of: { Self → ℕ };

    fn number(self) -> u64
        ensures { result ≡ number_of self };

    fn place(self) -> usize
        ensures { result ≡ place_of self };
}

// Why bytes are no book: a kind's discriminant is its number.
#[derive(Clone, Copy, PartialEq, Eq)]
pub enum Refusal {
    Length = 1,
    Closing,
    Version,
    FieldCount,
    TableCount,
    ListPlace,
    CodeCount,
    Short,
    Arity,
    FieldNumber,
    Code,
    RowCount,
    LeftOver,
}

// The first refusal of some bytes, and the place that it speaks of.
#[derive(Clone, Copy, PartialEq, Eq)]
pub struct Refused {
    pub kind: Refusal,
    pub place: usize,
}

impl Refusal {
    pub fn at(self, place: usize) -> Refused
        ensures kind { result.kind ≡ self }
        ensures place { result.place ≡ place }
    {
        Refused { kind: self, place }
    }
}

impl Refuses for Refused {
    ghost number_of = { λ refused. number_of refused.kind };

    ghost place_of = { λ refused. refused.place };

    fn number(self) -> u64 {
        self.kind as u64
    }

    fn place(self) -> usize {
        self.place
    }
}
