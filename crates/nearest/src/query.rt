// What a search is asked, and the search itself: it chooses a code for one field after another.
ghost use Rattle.std.specs.Prelude.{◌≡◌, false, length};
ghost use Rattle.format.specs.Format.{book_of};
ghost use Rattle.consistency.specs.Consistency.{places};
ghost use Rattle.nearest.specs.Words.{any_empty, Packed};

use super::rows::holds;
use super::turn::{Found, Turn, apart, loses, nearer};
use book::{Book, PLACES};

// A book in which each table has a row, its rows as words, and the answers, with which of them are photographed.
#[derive(Clone, Copy)]
pub(crate) struct Query<'a> {
    pub(crate) book: Book<'a>,
    pub(crate) words: &'a [u32],
    pub(crate) answers: &'a [u8; PLACES],
    pub(crate) photographed: &'a [bool; PLACES],
    ghost long: { length answers.now ≡ places },
    ghost filled: { any_empty (book_of book.bytes.now).tables ≡ false },
    ghost packed: { Packed book.bytes.now words.now },
}

impl Query<'_> {
    ghost use Rattle.std.specs.Prelude.{◌≡◌, ◌+◌, ◌≤◌, ◌<◌};
    ghost use Rattle.format.specs.Format.{book_of};
    ghost use Rattle.consistency.specs.Consistency.{sheet_with};
    ghost use Rattle.nearest.specs.Asks.{held, Right, decides, Passed, differing_with};
    ghost use Rattle.nearest.specs.Words.{can_hold};

    // Whether each table with field f has a row that begins with the reading's codes for its fields up to f.
    // (d) A reading and f apart, from here to `Front::of`: a type of both would be made for each code that is tried, to be taken apart at once.
    fn can_hold(&self, reading: &[u8; PLACES], f: usize) -> bool
        ensures { result ≡ can_hold (book_of self.now.book.bytes.now).tables reading.now f }
    {
        let mut words = self.words;
        for table in self.book.tables() {
            let (rows, behind) = words.split_at(table.rows);
            if !holds(table, rows, reading, f) {
                return false;
            }
            words = behind;
        }
        true
    }

    // How many fields differ once the next one has this code; none where the best is not beaten then, or a photographed answer is another.
    fn differing(&self, turn: &Turn, code: u8) -> Option<usize>
        requires field { turn.now.f < self.now.book.fields }
        requires few { turn.now.differing ≤ turn.now.f }
        ensures { result ≡ differing_with (sheet_with self.now.answers.now self.now.photographed.now) turn.now code }
    {
        let differing = turn.differing + apart(self.answers[turn.f], code);
        (nearer(differing, &turn.best)
            && !loses(self.photographed[turn.f], turn.differing, differing)).then_some(differing)
    }

    // The turn behind the fields of one code that come next, which need no test: each row that begins with the codes before them goes on with
    // theirs. It stops before such a field too, where the best is not beaten with it or a photographed answer is another.
    fn passed(&self, turn: Turn) -> Turn
        requires { Right (book_of self.now.book.bytes.now) (sheet_with self.now.answers.now self.now.photographed.now) turn }
        ensures { Passed (book_of self.now.book.bytes.now) (sheet_with self.now.answers.now self.now.photographed.now) self.now.book.fields turn result }
    {
        let mut at = turn;
        // (d) By number, since a walk is no plainer: a field's number of codes, answer and photograph stand apart.
        for f in turn.f..self.book.fields {
            if self.book.codes(f) != 1 {
                return at;
            }
            let Some(differing) = self.differing(&at, 0) else {
                return at;
            };
            at.reading[f] = 0;
            at.f = f + 1;
            at.differing = differing;
        }
        at
    }

    // The nearest of the best and of the readings that begin with the codes so far. A code is passed over where the best is not beaten, where a
    // photographed answer is another, or where a table cannot hold it.
    pub(crate) fn visit(&self, turn: Turn) -> Option<Found>
        requires { Right (book_of self.now.book.bytes.now) (sheet_with self.now.answers.now self.now.photographed.now) turn }
        ensures { held self.now.book.fields result
            ≡ decides (book_of self.now.book.bytes.now) (sheet_with self.now.answers.now self.now.photographed.now) self.now.book.fields turn }
    {
        let mut at = self.passed(turn);
        if self.book.fields <= at.f {
            return Some(Found {
                reading: at.reading,
                differing: at.differing,
            });
        }
        let count = self.book.codes(at.f);
        for code in 0..count {
            let Some(differing) = self.differing(&at, code) else {
                continue;
            };
            let mut reading = at.reading;
            reading[at.f] = code;
            if !self.can_hold(&reading, at.f) {
                continue;
            }
            at.best = self.visit(Turn {
                reading,
                f: at.f + 1,
                differing,
                best: at.best,
            });
        }
        at.best
    }
}
