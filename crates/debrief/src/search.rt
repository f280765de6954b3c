// The search for a plan: my turn and the observer's follow each other until the questions run out.
ghost use Rattle.std.specs.Prelude.{◌≡◌, ◌≤◌, ◌<◌};
ghost use Rattle.debrief.specs.Turns.{around};

use super::QUESTION_LIMIT;
use book::NO_ANSWER;
use filter::{Position, WORDS};

// The field that is to be settled, and the fields that may be asked.
#[derive(Clone, Copy)]
pub(crate) struct Search<'a> {
    pub(crate) target: usize,
    pub(crate) questions: &'a [u8],
}

// The place so many behind `from` in a list that has `many`, around its end.
fn around(many: usize, from: usize, i: usize) -> usize
    requires from { from ≤ many }
    requires place { i < many }
    ensures is { result ≡ around many from i }
    ensures place { result < many }
{
    let rest = many - from;
    if i < rest { from + i } else { i - rest }
}

impl Search<'_> {
    ghost use Rattle.std.specs.Prelude.{◌≡◌, ◌≤◌, ◌<◌, suc, length, is_some, IfSome};
    ghost use Rattle.format.specs.Format.{book_of};
    ghost use Rattle.consistency.specs.Plans.{settles, whatever, least_plan};
    ghost use Rattle.debrief.specs.Turns.{Asking, Choosing};

    // My turn, with `behind` questions behind the one that I choose now: the place in the list of a question that settles the target, which is not
    // settled yet. All are tried, from the one at `from` on.
    #[cycle(turns)]
    fn chooser(&self, at: &Position<'_>, from: usize, behind: usize) -> Option<usize>
        requires turn { Choosing (book_of at.now.survey.now.book.bytes.now) self.now.target self.now.questions.now at.now.answers }
        requires from { from ≤ length self.now.questions.now }
        ensures answer { is_some result
            ≡ settles (book_of at.now.survey.now.book.bytes.now) self.now.target self.now.questions.now (suc behind) at.now.answers }
        ensures place { IfSome result (λ i. i < length self.now.questions.now) }
    {
        // (d) By number, since the walk begins anywhere in the list.
        for i in 0..self.questions.len() {
            let k = around(self.questions.len(), from, i);
            let q = usize::from(self.questions[k]);
            // A field that has been asked is not asked again: that settles nothing.
            if at.answers[q] == NO_ANSWER && self.answerer(at, q, behind) {
                return Some(k);
            }
        }
        None
    }

    // The observer's turn, with `left` questions behind his answer to q: whether the target is settled whatever he may give.
    #[cycle(turns)]
    fn answerer(&self, at: &Position<'_>, q: usize, left: usize) -> bool
        requires turn { Asking (book_of at.now.survey.now.book.bytes.now) self.now.target self.now.questions.now at.now.answers }
        requires field { q < at.now.survey.now.book.fields }
        ensures { result
            ≡ whatever (book_of at.now.survey.now.book.bytes.now) at.now.answers q
            (settles (book_of at.now.survey.now.book.bytes.now) self.now.target self.now.questions.now left) }
    {
        let mut marks = [0u64; WORDS];
        let asked = at.ask(q, &mut marks);
        let unsettled = asked.unsettled(self.target);
        // Where no question is left, or none is needed, the word tells it.
        if left == 0 || unsettled == 0 {
            return unsettled == 0;
        }
        // The question that settles one code is tried first for the next: it often settles that too.
        let mut first = 0;
        // (d) By number, since a code is a place in the word.
        for c in 0..usize::from(at.survey.book.codes(q)) {
            if (unsettled >> c) % 2 == 1 {
                let Some(settling) = self.chooser(&asked.behind(c), first, left - 1) else {
                    return false;
                };
                first = settling;
            }
        }
        true
    }

    // The least number of questions that settle the target, at most three.
    pub(crate) fn least(&self, start: &Position<'_>) -> Option<usize>
        requires { Asking (book_of start.now.survey.now.book.bytes.now) self.now.target self.now.questions.now start.now.answers }
        ensures { result
            ≡ least_plan (book_of start.now.survey.now.book.bytes.now) self.now.target self.now.questions.now start.now.answers }
    {
        if start.settled(self.target) {
            return Some(0);
        }
        for behind in 0..QUESTION_LIMIT {
            if self.chooser(start, 0, behind).is_some() {
                return Some(behind + 1);
            }
        }
        None
    }
}
