// The tests with which calls on a sheet and a book begin: 1 to 13 of the book, 14 of the sheet, then 15 to 17 of a field.
ghost use Rattle.std.specs.Prelude.{◌≡◌, ◌<◌, IfOk, OnOk};
ghost use Rattle.format.specs.Format.{code_limit, book_of};
ghost use Rattle.consistency.specs.Consistency.{places};
ghost use Rattle.calls.specs.Calls.{fault_of};
ghost use Rattle.sheet.specs.Shown.{held_by};
ghost use Rattle.sheet.specs.Opened.{seen_byte, seen_bytes, fits, code_counts, fault_at, fault_test, code_test, answer_test, opening, verdict_of};

use super::{Reason, Sheet};
use book::{Book, NO_ANSWER, PLACES};
use std::array::from_fn;

// What is seen of a photograph without an answer: a byte that no place may hold, since no field has so many codes.
// (a) A byte, as in the definition of what 14 looks at.
const BACKED_ALONE: u8 = 254;

// What 14 looks at in a place: its byte, or what is seen of a photograph without an answer.
// (b) One byte for two facts: a scan that looks at answers and photographs apart goes place by place. Enter, withdraw, load and store of E1
// took 60, 91, 62 and 107 ns with it, and 66, 73, 67 and 40 with this one.
// (b) Two tests: by one, of a photograph without an answer, each call that opens a book took 42 instructions more.
fn seen(byte: u8, photographed: bool) -> u8
    ensures { result ≡ seen_byte byte photographed }
{
    if byte != NO_ANSWER {
        byte
    } else if photographed {
        BACKED_ALONE
    } else {
        NO_ANSWER
    }
}

// Whether a place may hold what is seen there: no answer, or a code of its field, which has so many.
fn may_hold(byte: u8, count: u8) -> bool
    ensures { result ≡ fits byte count }
{
    byte == NO_ANSWER || byte < count
}

// The number of codes of each place's field; 0 for a place without one.
// (a) There is no heap: the array has a place for each field of any book, and this one's are the first.
fn code_counts(book: Book<'_>) -> [u8; PLACES]
    ensures { result ≡ code_counts (book_of book.entry.bytes.now) }
{
    let mut counts = [0; PLACES];
    counts[..book.fields].copy_from_slice(book.field_list());
    counts
}

// 15, no such field; 16, no such code.
// (d) 15 is tested here, in `has_answer` and for `plan`: a function for one test, with its promise, is longer than the three.
pub(crate) fn has_code(book: Book<'_>, field: usize, code: usize) -> Result<(), Reason>
    ensures verdict { verdict_of result ≡ code_test (book_of book.entry.bytes.now) field code }
    ensures field { OnOk result (field < places) }
    ensures code { OnOk result (code < code_limit) }
{
    if book.fields <= field {
        return Err(Reason::Field);
    }
    if usize::from(book.codes(field)) <= code {
        return Err(Reason::Code);
    }
    Ok(())
}

impl Sheet {
    // What 14 looks at in each place.
    pub fn seen_bytes(&self) -> [u8; PLACES]
        ensures { result ≡ seen_bytes (held_by self.now) }
    {
        from_fn(|place| seen(self.answers[place], self.photographed[place]))
    }

    // The first place that holds neither `NO_ANSWER` nor a code of its field, or has a photograph and no answer. The walk compares two arrays
    // and looks at nothing else, so that several places are tested at a time.
    fn first_fault(&self, book: Book<'_>) -> Option<usize>
        ensures { result ≡ fault_at (fault_of (book_of book.entry.bytes.now) (held_by self.now)) }
    {
        let counts = code_counts(book);
        let bytes = self.seen_bytes();
        bytes
            .iter()
            .zip(&counts)
            .position(|(byte, count)| !may_hold(*byte, *count))
    }

    // 14.
    pub(crate) fn has_no_fault(&self, book: Book<'_>) -> Result<(), Reason>
        ensures { verdict_of result ≡ fault_test (fault_of (book_of book.entry.bytes.now) (held_by self.now)) }
    {
        match self.first_fault(book) {
            Some(place) => Err(Reason::Fault(place)),
            None => Ok(()),
        }
    }

    // 1 to 13, then 14.
    pub fn open<'a>(&self, bytes: &'a [u8]) -> Result<Book<'a>, Reason>
        ensures answer { verdict_of result ≡ opening bytes.entry.now (held_by self.now) }
        ensures bytes { IfOk result (λ book. book.bytes ≡ bytes.entry) }
    {
        let book = Book::open(bytes)?;
        self.has_no_fault(book)?;
        Ok(book)
    }

    // 15, no such field; 17, it has no answer.
    pub(crate) fn has_answer(&self, book: Book<'_>, field: usize) -> Result<(), Reason>
        ensures verdict { verdict_of result ≡ answer_test (book_of book.entry.bytes.now) (held_by self.now) field }
        ensures field { OnOk result (field < places) }
    {
        if book.fields <= field {
            return Err(Reason::Field);
        }
        if self.answers[field] == NO_ANSWER {
            return Err(Reason::NoAnswer);
        }
        Ok(())
    }
}
