// The heads of a book's tables: for each the word of its field list, and its place. Gathered once, so that no table's bytes are read for another
// set of fields.
ghost use Rattle.std.specs.Prelude.{◌≡◌, ◌≤◌, ◌<◌, map, length};
ghost use Rattle.format.specs.Format.{book_of};
ghost use Rattle.joining.specs.Words.{key_of, Least};
ghost use Rattle.joining.specs.Heads.{HeadsOf};

use book::{Book, TABLE_LIMIT, Table};

// A table's key, and its place in the book.
#[derive(Clone, Copy, Default)]
pub(crate) struct Head {
    pub(crate) key: u32,
    pub(crate) at: u32,
}

// A book with the heads of its tables, in their order. There is room for its rows.
// (d) Not one with filter's `Survey`, which keeps places of tables too: that has the words of its fields beside them, and of one book alone, this
// the key of each table, of either book. A head keeps a place and no `Table`, which has six fields where a place is one number.
#[derive(Clone, Copy)]
pub(crate) struct Headed<'a, 'h, const ROWS: usize> {
    pub(crate) book: Book<'a>,
    pub(crate) heads: &'h [Head],
    pub(crate) ghost headed: { HeadsOf book.bytes.now heads.now },
    pub(crate) ghost few: { book.rows ≤ ROWS },
}

impl<'a, 'h, const ROWS: usize> Headed<'a, 'h, ROWS> {
    // The book with the heads of its tables, in memory for as many as a book may have.
    pub(crate) fn of(book: Book<'a>, heads: &'h mut [Head; TABLE_LIMIT]) -> Headed<'a, 'h, ROWS>
        requires { book.rows ≤ ROWS }
        ensures { result.book ≡ book.entry }
    {
        for table in book.tables() {
            heads[table.index] = Head {
                key: table.key(),
                at: table.at as u32,
            };
        }
        // (a) There is no heap: the array has a head for as many tables as a book may have, and this one's are the first.
        Headed {
            book,
            heads: &heads[..book.tables],
        }
    }

    // Table i.
    pub(crate) fn table(&self, i: usize) -> Table<'a>
        requires { i < length self.now.heads.now }
        ensures bytes { result.bytes ≡ self.now.book.bytes }
        ensures index { result.index ≡ i }
    {
        self.book.table(i, self.heads[i].at as usize)
    }

    // The least key of its tables from `from` on.
    pub(crate) fn least_key(&self, from: u32) -> Option<u32>
        ensures { Least from (map key_of (book_of self.now.book.bytes.now).tables) result }
    {
        self.heads
            .iter()
            .map(|head| head.key)
            .filter(|key| from <= *key)
            .min()
    }
}
