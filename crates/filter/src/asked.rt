// What stands under answers, and what a question leaves standing behind each code that may be given.
ghost use Rattle.std.specs.Prelude.{◌≡◌, ◌<◌, length};
ghost use Rattle.format.specs.Format.{book_of};
ghost use Rattle.consistency.specs.Consistency.{places};
ghost use Rattle.filter.specs.Cases.{plain_of};
ghost use Rattle.filter.specs.Asked.{AskedMarks};

use super::begin::begin;
use super::gather::gather;
use super::queue::propagate;
use super::summary::{crowded_cases, empty_cases};
use super::survey::Survey;
use super::{WORDS, plain};
use book::PLACES;

// Answers, and for each field the codes that stand under them, as a number: bit c is code c's.
#[derive(Clone, Copy)]
pub struct Position<'a> {
    pub survey: &'a Survey<'a>,
    pub answers: [u8; PLACES],
    pub(crate) standing: [u32; PLACES],
    pub ghost long: { length answers ≡ places },
    pub(crate) ghost are: { standing ≡ plain_of (book_of survey.now.book.bytes.now) answers },
}

// A question to a field in a position: the marks of all its codes, a case for each that stands.
#[derive(Clone, Copy)]
pub struct Asked<'a, 'm> {
    pub before: Position<'a>,
    pub field: usize,
    pub(crate) marks: &'m [u64; WORDS],
    pub(crate) ghost known: { field < before.survey.now.book.fields },
    pub(crate) ghost asked: { AskedMarks (book_of before.survey.now.book.bytes.now) before.answers field marks.now },
}

impl<'a> Position<'a> {
    ghost use Rattle.std.specs.Prelude.{◌≡◌, ◌<◌};
    ghost use Rattle.consistency.specs.Plans.{settled};

    // What stands under these answers.
    pub fn under(survey: &'a Survey<'a>, answers: [u8; PLACES]) -> Position<'a>
        ensures survey { result.survey ≡ survey.entry }
        ensures answers { result.answers ≡ answers }
    {
        Position {
            survey,
            answers,
            standing: plain(survey.book, &answers),
        }
    }

    // Whether field t has at most one standing code.
    pub fn settled(&self, t: usize) -> bool
        requires { t < self.now.survey.now.book.fields }
        ensures { result ≡ settled (book_of self.now.survey.now.book.bytes.now) t self.now.answers }
    {
        self.standing[t].count_ones() <= 1
    }

    // The field asked: one pass for all its codes. It begins from what stands here, so that only the tables with the field have to be looked at
    // first: the others support all of it.
    // (b) The marks are lent: in the answer by value they would be copied, and take 15 KB of stack once more at each turn.
    pub fn ask<'m>(&self, field: usize, marks: &'m mut [u64; WORDS]) -> Asked<'a, 'm>
        requires { field < self.now.survey.now.book.fields }
        ensures before { result.before ≡ self.now }
        ensures field { result.field ≡ field }
    {
        marks.fill(0);
        begin(self.survey.book, &self.standing, field, marks);
        propagate(self.survey, marks, 0, self.survey.watch[field]);
        Asked {
            before: *self,
            field,
            marks,
        }
    }
}

impl<'a> Asked<'a, '_> {
    ghost use Rattle.std.specs.Prelude.{◌≡◌, ◌<◌, not, ◌&&◌, ℕ, T};
    ghost use Rattle.consistency.specs.Consistency.{added};
    ghost use Rattle.consistency.specs.Largest.{largest};
    ghost use Rattle.consistency.specs.Counts.{bit};
    ghost use Rattle.consistency.specs.Plans.{may_give, settled};

    // The codes that may be given and leave field t with more than one standing code, as a word: bit c for code c.
    pub fn unsettled(&self, t: usize) -> u64
        requires { t < self.now.before.survey.now.book.fields }
        ensures { (c : ℕ) → bit result c
            ≡ (may_give (book_of self.now.before.survey.now.book.bytes.now) self.now.before.answers self.now.field c
            && not (settled (book_of self.now.before.survey.now.book.bytes.now) t (added self.now.before.answers self.now.field c))) }
    {
        crowded_cases(self.marks, t) & !empty_cases(self.marks, self.before.survey.book.fields)
    }

    // What stands with code c given.
    pub fn behind(&self, c: usize) -> Position<'a>
        requires { T (largest (book_of self.now.before.survey.now.book.bytes.now) self.now.before.answers self.now.field c) }
        ensures survey { result.survey ≡ self.now.before.survey }
        ensures answers { result.answers ≡ added self.now.before.answers self.now.field c }
    {
        let mut answers = self.before.answers;
        answers[self.field] = c as u8;
        Position {
            survey: self.before.survey,
            answers,
            standing: gather(self.before.survey.book, self.marks, c as u64),
        }
    }
}
