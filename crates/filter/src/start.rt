// The marks that a pass starts from: what the answers allow, in all cases at once.
ghost use Rattle.std.specs.Prelude.{◌≡◌, ◌*◌, ◌≤◌, length};
ghost use Rattle.format.specs.Format.{code_limit, book_of};
ghost use Rattle.consistency.specs.Consistency.{places, sheet_with};
ghost use Rattle.filter.specs.Words.{no_marks};
ghost use Rattle.filter.specs.Cases.{doubted, cases_of};
ghost use Rattle.filter.specs.Start.{CasesAre, FieldStarted, Started};

use super::WORDS;
use super::cases::{Answered, Cases};
use super::fields::Field;
use book::{Book, CODES, NO_ANSWER, PLACES};

// Whether an answer may be put in doubt: there is one, and no photograph backs it.
pub fn in_doubt(answer: u8, photographed: bool) -> bool
    ensures { result ≡ doubted answer photographed }
{
    answer != NO_ANSWER && !photographed
}

// Nothing relaxed, then each answered field without a photograph by itself, in their order.
// (d) Answers and photographs come as they were lent, for the reason that `one_pass` gives.
pub(crate) fn own_cases(book: Book, answers: &[u8; PLACES], photographed: &[bool; PLACES]) -> Cases
    ensures { CasesAre answers.now result.own result.all (cases_of (book_of book.entry.bytes.now) (sheet_with answers.now photographed.now)) }
{
    let mut own = [0u64; PLACES];
    let mut all: u64 = 1;
    // (d) By number, since a walk is no plainer: a field's answer, photograph and case stand in three arrays.
    for f in 0..book.fields {
        if in_doubt(answers[f], photographed[f]) {
            let relaxing = all + 1;
            own[f] = relaxing;
            all += relaxing;
        }
    }
    Cases { own, all }
}

// The words of the codes of a field, and the count s with the marks that its answer forbids there.
// (d) Marks, a field and the count so far come apart: a type of the three would be taken apart here, in `strike` and in `revise`.
fn start_field(marks: &mut [u64; WORDS], field: Field, answered: Answered, s: u32) -> u32
    requires { s ≤ 64 * (places * code_limit) }
    ensures { FieldStarted marks.old marks.new field.number field.codes answered.answer answered.all answered.own s result }
{
    let mut struck = s;
    let at = field.number * CODES;
    for (c, word) in marks[at..at + field.codes].iter_mut().enumerate() {
        *word = answered.start_word(c);
        struck += (answered.all ^ *word).count_ones();
    }
    struck
}

// All marks that the answers allow, in words that are 0, and the count of those that they forbid.
pub(crate) fn start(
    book: Book,
    answers: &[u8; PLACES],
    cases: &Cases,
    marks: &mut [u64; WORDS],
) -> u32
    requires { marks.old ≡ no_marks }
    ensures { Started (book_of book.entry.bytes.now) answers.now cases.now.own cases.now.all marks.new result }
{
    let mut struck = 0;
    // (d) By number, since a walk is no plainer: a field's answer and cases stand in two arrays, and its codes in the book.
    for number in 0..book.fields {
        let field = Field {
            number,
            codes: usize::from(book.codes(number)),
        };
        let answered = Answered {
            answer: answers[number],
            own: cases.own[number],
            all: cases.all,
        };
        struck = start_field(marks, field, answered, struck);
    }
    struck
}
