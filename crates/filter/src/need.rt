// What the codes of a field still look for.
ghost use Rattle.filter.specs.Asks.{Counted};

use super::WORDS;
use super::fields::Field;
use book::CODES;

// The cases in which each code still looks for a row that supports it, and the number of codes that have such a case.
#[derive(Clone, Copy)]
pub(crate) struct Need {
    pub(crate) cases: [u64; CODES],
    pub(crate) waiting: usize,
    pub(crate) ghost counted: { Counted cases waiting },
}

impl Need {
    ghost use Rattle.std.specs.Prelude.{◌≡◌, ◌≢◌, ◌<◌, bit_xor, get_or, set};
    ghost use Rattle.format.specs.Format.{code_limit};
    ghost use Rattle.filter.specs.Asks.{Looks};

    // The cases in which each code of a field stands.
    pub(crate) fn looking(marks: &[u64; WORDS], field: Field) -> Need
        ensures { Looks marks.now field.number field.codes result.cases }
    {
        let mut cases = [0u64; CODES];
        let mut waiting = 0;
        // (b) By number: walks here, in `strike` and in `sweep`, tried together, made a pass up to a seventh slower.
        for c in 0..field.codes {
            let word = marks[field.number * CODES + c];
            cases[c] = word;
            if word != 0 {
                waiting += 1;
            }
        }
        Need { cases, waiting }
    }

    // These cases of code c, which look for a row, look for one no more.
    pub(crate) fn supported(&mut self, c: usize, cases: u64)
        requires code { c < code_limit }
        requires looks { get_or self.old.cases c 0 ≢ 0 }
        ensures { self.new.cases ≡ set self.old.cases c (bit_xor (get_or self.old.cases c 0) cases) }
    {
        let rest = self.cases[c] ^ cases;
        self.cases[c] = rest;
        if rest == 0 {
            self.waiting -= 1;
        }
    }
}
