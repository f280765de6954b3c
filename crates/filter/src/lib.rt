// The filter over an accepted book: the one pass for all cases, plain filtering by the same engine with one case, the cases of a pass in
// which some field is empty, the row behind a code, whether an answer may be put in doubt, and what stands under answers, with what a question
// leaves standing behind each of its codes.
#![tactic(auto)]

ghost use Rattle.std.specs.Prelude.{◌≡◌};
ghost use Rattle.format.specs.Format.{book_of};
ghost use Rattle.consistency.specs.Consistency.{sheet_with};
ghost use Rattle.consistency.specs.Counts.{struck};
ghost use Rattle.filter.specs.Cases.{cases_of, marks_of, plain_of};

use book::{Book, CODES, PLACES};
use cases::Cases;
use gather::gather;
use pass::run;
use start::own_cases;

mod asked;
mod begin;
mod cases;
mod column;
mod fields;
mod gather;
mod lookup;
mod need;
mod pass;
mod queue;
mod revise;
mod start;
mod summary;
mod support;
mod survey;

pub use asked::{Asked, Position};
pub use gather::standing_codes;
pub use lookup::supporting_row;
pub use start::in_doubt;
pub use summary::empty_cases;
pub use survey::Survey;

// A word of marks for each place and code.
// (d) One list of words, and no array of arrays: the definitions name a word by field and code so (`f * code_limit + c`), and clearing, lending
// and comparing marks takes them as one list.
pub const WORDS: usize = PLACES * CODES;

// The table asked for has no column for the field, as it is with a table that the book lacks.
#[derive(Clone, Copy, PartialEq, Eq)]
pub struct NoColumn;

// The one pass over an accepted book, "nothing lifted, then each answered field lifted by itself", those with a photograph left out: the
// marks of all cases, and the number struck.
// (d) Answers and photographs come as two arrays, as a sheet has them: its type stands in a crate above, and one of this crate would be made
// of it only to be taken apart.
pub fn one_pass<'a>(
    book: Book<'a>,
    answers: &[u8; PLACES],
    photographed: &[bool; PLACES],
    marks: &mut [u64; WORDS],
) -> u32
    ensures marks { marks.new ≡ marks_of (book_of book.entry.bytes.now) (cases_of (book_of book.entry.bytes.now) (sheet_with answers.now photographed.now)) }
    ensures count { result ≡ struck (book_of book.entry.bytes.now) (sheet_with answers.now photographed.now) }
{
    marks.fill(0);
    let cases = own_cases(book, answers, photographed);
    run(book, answers, &cases, marks)
}

// Plain filtering over an accepted book: a number for each field, bit c of it for code c.
pub fn plain<'a>(book: Book<'a>, answers: &[u8; PLACES]) -> [u32; PLACES]
    ensures { result ≡ plain_of (book_of book.entry.bytes.now) answers.now }
{
    let mut marks = [0u64; WORDS];
    run(book, answers, &Cases::one(), &mut marks);
    gather(book, &marks, 0)
}
