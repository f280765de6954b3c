// How many different rows a book has, each counted within its table. Rows are compared as words, a word at a time.
ghost use Rattle.std.specs.Prelude.{◌≡◌, ◌≤◌, length};
ghost use Rattle.format.specs.Format.{row_limit, different_total, book_of};
ghost use Rattle.words.specs.Sorting.{distinct};

use super::ROW_LIMIT;
use super::view::{Book, Table};

// The words of up to so many rows are held against each other: sorting them takes longer. Measured.
const FEW: usize = 64;

// Up to so many rows are compared where they stand: gathering them takes longer. Measured.
const SMALL: usize = 16;

impl Table<'_> {
    ghost use Rattle.std.specs.Prelude.{◌+◌, ◌/◌, ◌<◌, get_or, drop};
    ghost use Rattle.std.specs.Fn.{FnOnceReturnsAtMut};
    ghost use Rattle.format.specs.Format.{different};
    ghost use Rattle.words.specs.Sorting.{is_among};
    ghost use Rattle.book.specs.Ordering.{OrderOf, CountsDistinct};
    ghost use Rattle.book.specs.Listed.{rows_in, words_in};

    // The first code of row k, which is the highest byte of its word.
    // (d) That there is such a row is asked for here and below in a clause, as in `word`.
    fn first_code(&self, k: usize) -> u8
        requires { k < self.now.rows }
        ensures { result ≡ get_or (words_in self.now) k 0 / 16777216 }
    {
        self.row(k)[0]
    }

    // Whether row k stands again behind it. Rows that begin with different codes have different words, and most do: the words are
    // compared where the first codes are the same.
    fn stands_again(&self, k: usize) -> bool
        requires { k < self.now.rows }
        ensures { result ≡ is_among (get_or (words_in self.now) k 0) (drop (k + 1) (words_in self.now)) }
    {
        let first = self.first_code(k);
        (k + 1..self.rows).any(|j| first == self.first_code(j) && self.word(k) == self.word(j))
    }

    // The number of different rows, compared where they stand. A repeated row counts where it stands last, so that each row is held
    // against the later ones alone.
    fn count_pairs(&self) -> usize
        ensures { (result ≡ different (rows_in self.now)) × (result ≤ self.now.rows) }
    {
        let mut found = 0;
        // (b) Counted by hand: with `filter` and `count` reading ten rows took a sixth more instructions.
        for k in 0..self.rows {
            if !self.stands_again(k) {
                found += 1;
            }
        }
        found
    }

    // How many different rows there are where no word is less than the one before it, or None where one is. Rows that were written in
    // order are counted on the way, without an array.
    fn count_risen(&self) -> Option<usize>
        requires { 1 ≤ self.now.rows }
        ensures { OrderOf result (words_in self.now) }
    {
        let mut before = self.word(0);
        let mut found = 1;
        // (d) By number, since the words are reckoned one by one and stand in no list.
        for k in 1..self.rows {
            let word = self.word(k);
            if word < before {
                return None;
            }
            if before < word {
                found += 1;
            }
            before = word;
        }
        Some(found)
    }

    // The number of different rows: their words are gathered in an array of N, and counted there. A small array is soon cleared. (a) There is
    // no heap: of the array as many words are taken as there are rows.
    fn count_in<const N: usize, F: FnOnce(&mut [u32]) -> usize>(&self, counted: F) -> usize
        requires room { (self.now.rows ≤ N) × (N ≤ row_limit) }
        requires callable { F.IsAlwaysCallable counted }
        requires counts { CountsDistinct (FnOnceReturnsAtMut F.FnOnce counted) (words_in self.now) }
        ensures { (result ≡ different (rows_in self.now)) × (result ≤ self.now.rows) }
    {
        let mut list = [0u32; N];
        let list = &mut list[..self.rows];
        self.gather(list);
        counted(list)
    }

    // The number of different rows, by what is fastest for so many.
    fn count_different(&self) -> usize
        ensures { (result ≡ different (rows_in self.now)) × (result ≤ self.now.rows) }
    {
        if self.rows <= SMALL {
            return self.count_pairs();
        }
        match self.count_risen() {
            Some(found) => found,
            None if self.rows <= FEW => {
                self.count_in::<FEW, _>(|list| words::count_distinct(list))
            }
            None => self.count_in::<ROW_LIMIT, _>(count_sorted),
        }
    }
}

// How many different words there are, by sorting them: equal words then stand side by side.
fn count_sorted(list: &mut [u32]) -> usize
    ensures { length list.old ≤ row_limit → (result ≡ distinct list.old) × (result ≤ length list.old) }
{
    words::sort(list);
    words::count_runs(list)
}

// The number of different rows of all tables.
pub(crate) fn different_total<'a>(book: Book<'a>) -> usize
    ensures { result ≡ different_total (book_of book.entry.bytes.now).tables }
{
    let mut total = 0;
    for table in book.tables() {
        total += table.count_different();
    }
    total
}
