// The marks of one case as numbers, one a field.
ghost use Rattle.std.specs.Prelude.{◌≡◌, ◌<◌, ltb};
ghost use Rattle.format.specs.Basics.{pick};
ghost use Rattle.format.specs.Format.{code_limit};
ghost use Rattle.consistency.specs.Counting.{tabulate};
ghost use Rattle.consistency.specs.Consistency.{places};
ghost use Rattle.consistency.specs.Counts.{mask};
ghost use Rattle.filter.specs.Words.{domain_of, stands, InMarks};

use super::WORDS;
use book::{Book, CODES, PLACES};

// The codes below n of field f that stand in case k, as a number: bit c is code c's.
pub fn standing_codes(marks: &[u64; WORDS], k: u64, f: usize, n: usize) -> u32
    requires { InMarks k f n }
    ensures { result ≡ mask n (stands marks.now k f) }
{
    let mut number: u32 = 0;
    for (c, word) in marks[f * CODES..f * CODES + n].iter().enumerate() {
        if (*word >> k) % 2 == 1 {
            number += 1 << c;
        }
    }
    number
}

// The marks of case k, a number for each field; 0 for places that the book lacks.
// (b) Inlined: plain filtering asks for case 0, and then no word is shifted. Called, 60 fields of 32 codes without a table took up to 1.4 times as
// long to filter.
#[inline(always)]
pub(crate) fn gather(book: Book, marks: &[u64; WORDS], k: u64) -> [u32; PLACES]
    requires { k < 64 }
    ensures { result ≡ tabulate (λ f. pick (ltb f book.entry.fields) (mask code_limit (domain_of marks.now k f)) 0) places 0 }
{
    // (a) There is no heap: an array has a number for each place of any book, and this one's fields are the first.
    let mut numbers = [0u32; PLACES];
    for (f, number) in numbers[..book.fields].iter_mut().enumerate() {
        *number = standing_codes(marks, k, f, CODES);
    }
    numbers
}
