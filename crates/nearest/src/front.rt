// A reading's codes for the fields of a table up to one of them, as one number: a row is held against them by one test.
ghost use Rattle.std.specs.Prelude.{◌≤◌, ◌<◌, ◌*◌, ◌^◌};

use book::{PLACES, Table};

// How many codes, and the codes as a number.
#[derive(Clone, Copy)]
pub(crate) struct Front {
    pub(crate) width: usize,
    pub(crate) word: u32,
    ghost fits: { (1 ≤ width) × (width ≤ 4) },
    ghost small: { word < 2 ^ (8 * width) },
}

impl Front {
    ghost use Rattle.std.specs.Prelude.{◌≡◌, map};
    ghost use Rattle.format.specs.Format.{table_at};
    ghost use Rattle.words.specs.Sorting.{is_among};
    ghost use Rattle.nearest.specs.Words.{IsFront, word_front};

    // Those of the table up to f, which may be no field of it.
    pub(crate) fn of(table: Table<'_>, reading: &[u8; PLACES], f: usize) -> Option<Front>
        ensures { IsFront (table_at table.entry.bytes.now table.entry.at) reading.now f result }
    {
        let mut word = 0u32;
        for (j, byte) in table.fields().iter().enumerate() {
            let field = usize::from(*byte);
            // (d) Times 256, as the definition of the number has it: a shift and an or are no plainer.
            word = word * 256 + u32::from(reading[field]);
            if field == f {
                return Some(Front { width: j + 1, word });
            }
        }
        None
    }

    // Whether one of the rows, as words, begins with them: without the bytes behind them, a row's word is their number with as many bytes behind
    // it. It shifts no row: such a loop is longer, and took up to twice the time, by where in memory it came to lie.
    // (b) The search goes on where it has found one: without a way out of the loop several words are compared at a time, and a long table without
    // the one sought takes a fifth. (d) Not one function with `is_repeated` of words: that masks nothing, and its answer is as wide as a word.
    // (d) The mask of so many bytes is made in book too, by `row_mask`: public, it would ask its callers for a width that has a mask.
    pub(crate) fn begins(self, rows: &[u32]) -> bool
        ensures { result ≡ is_among self.word (map (word_front self.width) rows.now) }
    {
        let behind = u32::BITS as usize - 8 * self.width;
        let mask = u32::MAX << behind;
        let word = self.word << behind;
        let mut found = false;
        for row in rows {
            if word == *row & mask {
                found = true;
            }
        }
        found
    }
}
