// The rows in every table on a set of fields, as a set of words.
// (a) Prefixes of arrays and of memory lent, since there is no heap for lists that shrink: how long each is, is told beside it.
ghost use Rattle.std.specs.Prelude.{◌≡◌, ◌≤◌, length, take};
ghost use Rattle.format.specs.Format.{table_at};
ghost use Rattle.joining.specs.Words.{table_words};
ghost use Rattle.joining.specs.Sets.{SetOf, Held};

use super::heads::Headed;
use super::sets::{keep_common, keep_once};
use book::Table;

// The words that every table so far has: each word where there was no table yet, or else as many as were found, which rise. The spare
// memory takes the words of one table.
#[derive(Drop)]
pub(crate) struct Common<'a, const ROWS: usize> {
    pub(crate) words: &'a mut [u32],
    pub(crate) spare: &'a mut [u32],
    pub(crate) found: Option<usize>,
    pub(crate) ghost lent: { (length words.now ≡ ROWS) × (length spare.now ≡ ROWS) },
    pub(crate) ghost held: { Held found words.now },
}

// The rows of a table as a set of words, in memory for at least as many. Many tables are written in order.
fn table_set(table: Table<'_>, words: &mut [u32]) -> usize
    requires { table.rows ≤ length words.old }
    ensures { SetOf (table_words (table_at table.entry.bytes.now table.entry.at)) result words.new }
{
    let words = &mut words[..table.rows];
    table.gather(words);
    if !words::is_sorted(words) {
        words::sort(words);
    }
    keep_once(words)
}

impl<'a, const ROWS: usize> Common<'a, ROWS> {
    ghost use Rattle.format.specs.Format.{book_of};
    ghost use Rattle.joining.specs.Sets.{NarrowedBy, NarrowedTo};

    // Keeps the words of one more table.
    fn narrow_by(&mut self, table: Table<'_>)
        requires { table.rows ≤ ROWS }
        ensures { NarrowedBy (table_at table.entry.bytes.now table.entry.at)
            self.old.found self.old.words.now self.new.found self.new.words.now }
    {
        match self.found {
            None => self.found = Some(table_set(table, self.words)),
            Some(n) => {
                let m = table_set(table, self.spare);
                self.found = Some(keep_common(&mut self.words[..n], &self.spare[..m]));
            }
        }
    }

    // Keeps the words of every table of the book on the set with this key.
    pub(crate) fn narrow(&mut self, book: &Headed<'_, '_, ROWS>, key: u32)
        ensures { NarrowedTo key (book_of book.now.book.bytes.now).tables
            self.old.found self.old.words.now self.new.found self.new.words.now }
    {
        // (b) By an index: with `iter().enumerate()` a join of two tables of ten rows took a twentieth longer.
        for i in 0..book.heads.len() {
            if book.heads[i].key == key {
                self.narrow_by(book.table(i));
            }
        }
    }

    // The first n words.
    pub(crate) fn front(&self, n: usize) -> &[u32]
        requires { n ≤ length self.now.words.now }
        ensures { result.now ≡ take n self.now.words.now }
    {
        &self.words[..n]
    }
}
