// A pass over a book, of all cases at once or of one.
ghost use Rattle.std.specs.Prelude.{◌≡◌};
ghost use Rattle.format.specs.Format.{book_of};
ghost use Rattle.filter.specs.Words.{no_marks};
ghost use Rattle.filter.specs.Start.{SaysCases, Ran};

use super::WORDS;
use super::cases::Cases;
use super::queue::{first_tables, propagate};
use super::start::start;
use super::survey::Survey;
use book::{Book, PLACES};

// Filters the cases, all at once: the marks of each, and how many are struck. The words lent are 0, so that those of places that the book
// lacks need not be visited.
pub(crate) fn run(
    book: Book,
    answers: &[u8; PLACES],
    cases: &Cases,
    marks: &mut [u64; WORDS],
) -> u32
    requires cases { SaysCases answers.now cases.now.own cases.now.all }
    requires clear { marks.old ≡ no_marks }
    ensures { Ran (book_of book.entry.bytes.now) answers.now cases.now.own cases.now.all marks.new result }
{
    let survey = Survey::of(book);
    let begun = start(book, answers, cases, marks);
    let queue = first_tables(book.tables);
    propagate(&survey, marks, begun, queue)
}
