// Where a book's tables stand, and which tables have a field.
ghost use Rattle.filter.specs.Queue.{Surveyed, Watched};

use book::{Book, PLACES, TABLE_LIMIT, Table};

// The tables' places, and for each field the word of the tables that have it.
// (d) Places and no `Table`s: with the book and a table's number its place gives the rest of its view.
#[derive(Clone, Copy)]
pub struct Survey<'a> {
    pub book: Book<'a>,
    pub(crate) watch: [u64; PLACES],
    pub(crate) places: [usize; TABLE_LIMIT],
    pub(crate) ghost surveyed: { Surveyed book.bytes.now watch places },
}

// Adds a table to the words of its fields.
fn watch_table(table: Table, watch: &mut [u64; PLACES])
    ensures { Watched table.entry.bytes.now watch.old watch.new table.entry.at table.entry.index table.entry.arity }
{
    // A field's number is its place among the words.
    for field in table.fields() {
        watch[usize::from(*field)] |= 1 << table.index;
    }
}

impl<'a> Survey<'a> {
    ghost use Rattle.std.specs.Prelude.{◌≡◌, ◌<◌};

    // The places and fields of all tables of a book.
    pub fn of(book: Book<'a>) -> Survey<'a>
        ensures { result.book ≡ book.entry }
    {
        let mut watch = [0u64; PLACES];
        let mut places = [0usize; TABLE_LIMIT];
        for table in book.tables() {
            places[table.index] = table.at;
            watch_table(table, &mut watch);
        }
        Survey {
            book,
            watch,
            places,
        }
    }

    // Table i.
    pub(crate) fn table(&self, i: usize) -> Table<'a>
        requires { i < self.now.book.tables }
        ensures bytes { result.bytes ≡ self.now.book.bytes }
        ensures index { result.index ≡ i }
    {
        self.book.table(i, self.places[i])
    }
}
