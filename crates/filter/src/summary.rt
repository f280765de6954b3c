// What the marks of a pass say of each case as a whole.
ghost use Rattle.std.specs.Prelude.{◌≡◌, ◌<◌, ℕ};
ghost use Rattle.consistency.specs.Consistency.{places};
ghost use Rattle.consistency.specs.Counts.{bit};
ghost use Rattle.filter.specs.Summaries.{marked, empty_cases, crowded};

use super::WORDS;
use book::{CODES, PLACES};

// Every bit of a word of cases.
const EVERY_CASE: u64 = u64::MAX;

// The cases in which field f has a mark. A field that has no place on a sheet has none.
fn marked_cases(marks: &[u64; WORDS], f: usize) -> u64
    ensures { (k : ℕ) → bit result k ≡ marked marks.now f k }
{
    if PLACES <= f {
        return 0;
    }
    let mut cases: u64 = 0;
    for word in &marks[f * CODES..(f + 1) * CODES] {
        cases |= *word;
    }
    cases
}

// The cases in which some field of the book is empty, as a word: bit k for case k.
pub fn empty_cases(marks: &[u64; WORDS], fields: usize) -> u64
    ensures { result ≡ empty_cases marks.now fields }
{
    let full = (0..fields).fold(EVERY_CASE, |full, f| full & marked_cases(marks, f));
    EVERY_CASE ^ full
}

// The cases in which field f has more than one mark.
pub(crate) fn crowded_cases(marks: &[u64; WORDS], f: usize) -> u64
    requires { f < places }
    ensures { (k : ℕ) → bit result k ≡ crowded marks.now f k }
{
    let mut once: u64 = 0;
    let mut twice: u64 = 0;
    for word in &marks[f * CODES..(f + 1) * CODES] {
        twice |= once & *word;
        once |= *word;
    }
    twice
}
