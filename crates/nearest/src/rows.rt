// Whether tables can hold the codes chosen so far. The rows are packed once, a word each, so that a row costs one test.
ghost use Rattle.std.specs.Prelude.{◌≡◌, map, not, ◌||◌, ◌≤◌, length};
ghost use Rattle.format.specs.Format.{row_limit, table_at, book_of};
ghost use Rattle.words.specs.RowWord.{row_word};
ghost use Rattle.consistency.specs.Rows.{has_field};
ghost use Rattle.nearest.specs.Words.{any_empty, begins, Packed};

use super::front::Front;
use book::{Book, PLACES, Table};

// Whether some table has no rows, and so holds nothing.
pub(crate) fn any_empty(book: Book<'_>) -> bool
    ensures { result ≡ any_empty (book_of book.entry.bytes.now).tables }
{
    book.tables().any(|table| table.rows == 0)
}

// Packs the rows of all tables, one behind another.
pub(crate) fn pack(book: Book<'_>, words: &mut [u32])
    requires { row_limit ≤ length words.old }
    ensures { Packed book.entry.bytes.now words.new }
{
    // (c) By places: with `split_at_mut` and a rest that the loop carries on, the check tells nothing of what the memory holds at the end.
    let mut first = 0;
    for table in book.tables() {
        let end = first + table.rows;
        table.gather(&mut words[first..end]);
        first = end;
    }
}

// Whether the table, whose rows are these words, can hold the reading's codes up to f: f is no field of it, or a row begins with those of its fields.
pub(crate) fn holds(table: Table<'_>, rows: &[u32], reading: &[u8; PLACES], f: usize) -> bool
    requires { rows.now ≡ map row_word (table_at table.bytes.now table.at).rows }
    ensures { result
        ≡ (not (has_field (table_at table.entry.bytes.now table.entry.at) f)
        || begins (table_at table.entry.bytes.now table.entry.at) reading.now f) }
{
    match Front::of(table, reading, f) {
        Some(front) => front.begins(rows),
        None => true,
    }
}
