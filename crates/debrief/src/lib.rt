// The debrief plan over an accepted book: the least number of questions that settle a target field. Document 02, M-110.
#![tactic(auto)]

ghost use Rattle.std.specs.Prelude.{◌≡◌, ◌<◌};
ghost use Rattle.format.specs.Format.{book_of};
ghost use Rattle.debrief.specs.Plans.{plan_or_fault};

use book::{Book, PLACES};
use filter::{Position, Survey};
use questions::list_ok;
use search::Search;

mod questions;
mod search;

// The most questions of a list, and the most that a plan asks.
const LIST_LIMIT: usize = 6;

const QUESTION_LIMIT: usize = 3;

// The list is longer than six, or it has a repeat, an answered or missing field, or the target.
#[derive(Clone, Copy, PartialEq, Eq)]
pub struct BadList;

// The least number of questions of the list after which the target surely has at most one standing code; none where three do not do.
pub fn plan(
    book: Book<'_>,
    answers: &[u8; PLACES],
    target: usize,
    questions: &[u8],
) -> Result<Option<usize>, BadList>
    requires { target < book.fields }
    ensures { result ≡ plan_or_fault (book_of book.entry.bytes.now) target questions.now answers.now }
{
    if !list_ok(book, answers, target, questions) {
        return Err(BadList);
    }
    let survey = Survey::of(book);
    let start = Position::under(&survey, *answers);
    let search = Search { target, questions };
    Ok(search.least(&start))
}
