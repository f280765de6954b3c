// The cases of a pass, as words: bit k is case k.
ghost use Rattle.std.specs.Prelude.{ℕ, T, get_or};
ghost use Rattle.consistency.specs.Counts.{bit};

use book::{NO_ANSWER, PLACES};

// All cases, and for each field those that relax it.
#[derive(Clone, Copy)]
pub(crate) struct Cases {
    pub(crate) own: [u64; PLACES],
    pub(crate) all: u64,
    pub(crate) ghost within: { (f k : ℕ) → T (bit (get_or own f 0) k) → T (bit all k) },
}

// A field's answer, all cases, and those that relax the field.
#[derive(Clone, Copy)]
pub(crate) struct Answered {
    pub(crate) answer: u8,
    pub(crate) own: u64,
    pub(crate) all: u64,
    pub(crate) ghost within: { (k : ℕ) → T (bit own k) → T (bit all k) },
}

impl Cases {
    ghost use Rattle.std.specs.Prelude.{List, [], ◌∷◌};
    ghost use Rattle.filter.specs.Start.{CasesAre};

    // One case, in which nothing is relaxed.
    pub(crate) fn one() -> Cases
        ensures { (answers : List ℕ) → CasesAre answers result.own result.all (answers ∷ []) }
    {
        Cases {
            own: [0; PLACES],
            all: 1,
        }
    }
}

impl Answered {
    ghost use Rattle.std.specs.Prelude.{◌≡◌};
    ghost use Rattle.filter.specs.Start.{start_word};

    // The word that code c starts with: all cases, but where the answer forbids c only those that relax the field.
    pub(crate) fn start_word(self, c: usize) -> u64
        ensures { result ≡ start_word self.answer c self.all self.own }
    {
        if self.answer == NO_ANSWER || c == usize::from(self.answer) {
            self.all
        } else {
            self.own
        }
    }
}
