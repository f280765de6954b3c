// The reader: whether bytes are a book, and what is counted in it. Document 01, "The book's bytes" and "When a call is turned down".
#![tactic(auto)]

ghost use Rattle.std.specs.Prelude.{◌≡◌, ◌↔◌};
ghost use Rattle.format.specs.Reading.{reading};
ghost use Rattle.format.specs.Layout.{HasLayout};
ghost use Rattle.book.specs.Shown.{shown};

mod bytes;
mod different;
mod lent;
mod refusals;
mod row_words;
mod scans;
mod tests;
mod view;

pub use bytes::{CLOSING_BYTE, byte, pair, trailer};
pub use lent::{NoRoom, copy, hand_out};
pub use refusals::{Refusal, Refused, Refuses};
pub use row_words::{gather, row_word};
pub use view::{Book, Table, Tables};

// The most fields of a book of version 1.
pub const FIELDS_OF_VERSION_1: usize = 32;

// The most fields of a book of any version, that is of version 2: a sheet has a place for each.
pub const PLACES: usize = 60;

// The most codes of a field.
pub const CODES: usize = 32;

// What a sheet holds in a place without an answer. (a) A byte, since a stored sheet and the C interface have it so.
pub const NO_ANSWER: u8 = 255;

// The most tables, the most fields of a table, and the most rows of all tables together.
pub const TABLE_LIMIT: usize = 64;

pub const ARITY_LIMIT: usize = 4;

pub const ROW_LIMIT: usize = 4096;

// The bytes of every book's trailer.
pub const TRAILER: usize = 6;

// The most bytes that are read. No accepted book has so many.
pub const LENGTH_LIMIT: usize = 32768;

// The most bytes of an accepted book: 64 tables with seven beside their rows, 4,096 rows of four codes, the field list, the trailer.
pub const BOOK_LIMIT: usize = TABLE_LIMIT * (3 + ARITY_LIMIT)
    + ARITY_LIMIT * ROW_LIMIT
    + PLACES
    + TRAILER;

// What reading counts in an accepted book.
#[derive(Clone, Copy)]
pub struct Counts {
    pub fields: usize,
    pub tables: usize,
    pub rows: usize,
    pub different: usize,
}

impl Book<'_> {
    ghost use Rattle.format.specs.Format.{book_counts, book_of};
    ghost use Rattle.book.specs.Shown.{counted};

    // Counts its different rows too, which opening does not.
    pub fn counts(self) -> Counts
        ensures { counted result ≡ book_counts (book_of self.entry.bytes.now) }
    {
        Counts {
            fields: self.fields,
            tables: self.tables,
            rows: self.rows,
            different: different::different_total(self),
        }
    }
}

// Opens the book, then counts its different rows.
pub fn read(bytes: &[u8]) -> Result<Counts, Refused>
    ensures answer { shown result ≡ reading bytes.now }
    ensures layout { (shown result).number ≡ 0 ↔ HasLayout bytes.now }
{
    Ok(Book::open(bytes)?.counts())
}
