// Listings: a book shown as the run of numbers that the compilers keep, and a book written from one. Requests M-100 and M-103.
#![tactic(auto)]

ghost use Rattle.std.specs.Prelude.{◌≡◌, ◌≢◌, ◌↔◌, true};
ghost use Rattle.format.specs.Writing.{showing, writing};
ghost use Rattle.format.specs.WriteAndShow.{HasListing};
ghost use Rattle.listing.specs.Fits.{fits};
ghost use Rattle.listing.specs.Answers.{showed, wrote};

use book::{BOOK_LIMIT, Book};

mod layout;
mod numbers;
mod refusals;
mod tests;

pub use refusals::{ShowRefusal, WriteRefusal};

// Shows a book's listing, and answers how many numbers it has. A table has one number less than bytes, so that this is known before it is written.
pub fn show(bytes: &[u8], out: &mut [u16]) -> Result<usize, ShowRefusal>
    ensures { showed result out.new ≡ showing bytes.now out.old }
{
    let book = Book::open(bytes)?;
    let count = 3 + book.fields + book.list - book.tables;
    // (d) The room is tested here and not by `hand_out`, which copies an answer made elsewhere: these numbers are written in place.
    if out.len() < count {
        return Err(ShowRefusal::Room);
    }
    numbers::show_book(book, out);
    Ok(count)
}

// The numbers of a listing that can be laid out: none is missing, left over or too large for its bytes, and these are no more than a book's.
#[derive(Clone, Copy)]
pub struct Listing<'a> {
    pub numbers: &'a [u16],
    pub ghost laid: { fits numbers.now ≡ true },
}

impl<'a> Listing<'a> {
    ghost use Rattle.std.specs.Prelude.{MatchOption, false};
    ghost use Rattle.format.specs.Writing.{writable};
    ghost use Rattle.listing.specs.Answers.{LaysBook};

    // None where they say no book. So much is known without memory for one.
    // (b) Inlined into each writer: handed back by a call, the numbers might lie where they are laid out, for all that the compiler knows, and
    // it tests for that at each table.
    #[inline(always)]
    pub fn of(numbers: &'a [u16]) -> Option<Listing<'a>>
        ensures { MatchOption result (writable numbers.entry.now ≡ false) (λ listing. listing.numbers ≡ numbers.entry) }
    {
        if !tests::fits(numbers) {
            return None;
        }
        Some(Listing { numbers })
    }

    // Lays the book out, and checks it: None where the reader refuses it.
    // (b) Inlined into each writer: called, it made the writing of a book of one field take an eighth longer. Measured.
    #[inline]
    pub fn lay<'s>(self, scratch: &'s mut [u8; BOOK_LIMIT]) -> Option<Book<'s>>
        ensures { LaysBook self.entry.numbers.now result }
    {
        let n = layout::lay_out(self, scratch);
        let bytes = &scratch[..n];
        // (a) By `let .. else`, the form that the project's papers name for the writer.
        let Ok(book) = Book::open(bytes) else {
            return None;
        };
        // (b) The same book, with bytes that the compiler sees to be the scratch memory: what is handed out of them was copied by `memmove`, which
        // the library does not need from outside.
        let Book {
            list,
            fields,
            tables,
            rows,
            ..
        } = book;
        Some(Book {
            bytes,
            list,
            fields,
            tables,
            rows,
        })
    }
}

// Writes the bytes of the book that a listing says, and answers how many they are. They are laid out apart from the memory lent, so that a refusal
// leaves it.
// (a) They stand first in an array, at its front, since there is no heap.
pub fn write(listing: &[u16], out: &mut [u8]) -> Result<usize, WriteRefusal>
    ensures answer { wrote result out.new ≡ writing listing.now out.old }
    ensures listing { (wrote result out.new).outcome.number ≢ 20 ↔ HasListing listing.now }
{
    let Some(listing) = Listing::of(listing) else {
        return Err(WriteRefusal::Listing);
    };
    let mut scratch = [0u8; BOOK_LIMIT];
    let Some(book) = listing.lay(&mut scratch) else {
        return Err(WriteRefusal::Listing);
    };
    Ok(book::hand_out(book.bytes, out)?)
}
