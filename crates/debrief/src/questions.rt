// Which lists of questions may be asked.
ghost use Rattle.std.specs.Prelude.{◌≡◌};
ghost use Rattle.format.specs.Format.{book_of};
ghost use Rattle.consistency.specs.Plans.{may_ask, list_ok};

use super::LIST_LIMIT;
use book::{Book, NO_ANSWER, PLACES};

// Whether field q is one of the book without an answer, and not the target.
fn may_ask(book: Book<'_>, answers: &[u8; PLACES], target: usize, q: usize) -> bool
    ensures { result ≡ may_ask (book_of book.entry.bytes.now) target answers.now q }
{
    q < book.fields && answers[q] == NO_ANSWER && q != target
}

// Whether the list is not too long, and each of its questions may be asked and stands in it once.
pub(crate) fn list_ok(
    book: Book<'_>,
    answers: &[u8; PLACES],
    target: usize,
    questions: &[u8],
) -> bool
    ensures { result ≡ list_ok (book_of book.entry.bytes.now) target questions.now answers.now }
{
    questions.len() <= LIST_LIMIT
        && questions.iter().enumerate().all(|(i, q)| {
            may_ask(book, answers, target, usize::from(*q)) && !questions[..i].contains(q)
        })
}
