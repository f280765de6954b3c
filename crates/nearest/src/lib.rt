// The nearest full reading of an accepted book. Document 02, M-106.
#![tactic(auto)]

ghost use Rattle.std.specs.Prelude.{◌≡◌, ltb};
ghost use Rattle.format.specs.Format.{book_of};
ghost use Rattle.consistency.specs.Consistency.{sheet_with};
ghost use Rattle.consistency.specs.Nearest.{nearest, product, reading_limit};
ghost use Rattle.nearest.specs.Asks.{held};

use book::{Book, PLACES};

mod front;
mod query;
mod rows;
mod turn;

use query::Query;
pub use turn::Found;
use turn::Turn;

// The most readings, full or not, of a book that is searched.
const READINGS: usize = 65536;

// The nearest full reading that keeps the photographed answers; none where there is no such reading.
// (d) Answers and photographs come as two arrays, as a sheet has them: its type stands in a crate above, and one of this crate would be made
// of it only to be taken apart.
pub fn search(
    book: Book<'_>,
    answers: &[u8; PLACES],
    photographed: &[bool; PLACES],
) -> Option<Found>
    ensures { held book.entry.fields result
        ≡ nearest (book_of book.entry.bytes.now) (sheet_with answers.now photographed.now) }
{
    if rows::any_empty(book) {
        return None;
    }
    let mut words = [0u32; book::ROW_LIMIT];
    rows::pack(book, &mut words);
    let query = Query {
        book,
        words: &words,
        answers,
        photographed,
    };
    query.visit(Turn {
        reading: [0; PLACES],
        f: 0,
        differing: 0,
        best: None,
    })
}

// Whether the product of all code counts exceeds READINGS.
pub fn too_many(book: Book<'_>) -> bool
    ensures { result ≡ ltb reading_limit (product (book_of book.entry.bytes.now).counts) }
{
    let mut many = 1;
    for count in book.field_list() {
        many *= usize::from(*count);
        if READINGS < many {
            return true;
        }
    }
    false
}
