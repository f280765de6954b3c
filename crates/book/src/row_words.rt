// Rows as words: comparing two rows is comparing two numbers.
ghost use Rattle.std.specs.Prelude.{◌≡◌, ◌≤◌, length};
ghost use Rattle.format.specs.Format.{arity_limit, part};
ghost use Rattle.words.specs.RowWord.{row_word, words_at, mask};
ghost use Rattle.book.specs.Bounds.{RowFits, RowsFit};

use super::view::Table;

// The bits of a word that arity codes take. By a shift and not case by case, so that a loop has nothing to decide.
fn row_mask(arity: usize) -> u32
    requires { (1 ≤ arity) × (arity ≤ arity_limit) }
    ensures { result ≡ mask arity }
{
    u32::MAX << (u32::BITS as usize - 8 * arity)
}

// The row of arity codes at p as a word: the first code in the highest byte, zeros behind the last. Four bytes are read in any case, at once,
// and those behind the row cleared: a book goes on behind its tables.
pub fn row_word(book: &[u8], p: usize, arity: usize) -> u32
    requires { RowFits book.now arity p }
    ensures { result ≡ row_word (part book.now p arity) }
{
    let word = u32::from_be_bytes([book[p], book[p + 1], book[p + 2], book[p + 3]]);
    word & row_mask(arity)
}

// Fills the list with the words of the rows of arity codes from start on.
pub fn gather(book: &[u8], start: usize, arity: usize, list: &mut [u32])
    requires { RowsFit book.now arity start (length list.old) }
    ensures { list.new ≡ words_at book.now arity start (length list.old) }
{
    for (k, word) in list.iter_mut().enumerate() {
        *word = row_word(book, start + k * arity, arity);
    }
}

impl Table<'_> {
    ghost use Rattle.std.specs.Prelude.{map, ◌<◌, get_or};
    ghost use Rattle.format.specs.Format.{table_at};
    ghost use Rattle.book.specs.Listed.{words_in};

    // Its field list as a word, as though it was a row.
    pub fn key(self) -> u32
        ensures { result ≡ row_word (table_at self.entry.bytes.now self.entry.at).fields }
    {
        row_word(self.bytes, self.at + 1, self.arity)
    }

    // The word of row k. (d) That there is one is asked for in a clause, as of any index: a type for it would be taken apart at once.
    pub(crate) fn word(&self, k: usize) -> u32
        requires { k < self.now.rows }
        ensures { result ≡ get_or (words_in self.now) k 0 }
    {
        row_word(self.bytes, self.first + k * self.arity, self.arity)
    }

    // Fills the list with the words of its rows.
    pub fn gather(self, list: &mut [u32])
        requires { length list.old ≡ self.rows }
        ensures { list.new ≡ map row_word (table_at self.entry.bytes.now self.entry.at).rows }
    {
        gather(self.bytes, self.first, self.arity, list);
    }
}
