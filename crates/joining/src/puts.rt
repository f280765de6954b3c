// Laying out the bytes of a table.
ghost use Rattle.std.specs.Prelude.{◌≡◌, map, ◌+◌, ◌*◌, ◌≤◌, length};
ghost use Rattle.format.specs.Format.{table_bytes, flat};
ghost use Rattle.joining.specs.Words.{four_digits, digits_of, key_arity};
ghost use Rattle.joining.specs.Puts.{Put, word_table, TableFits};

// Copies the bytes to the memory from `at` on, and answers the place behind them.
// (d) A place beside the memory, here and below: each answer is the place where the next bytes begin, and `&mut laid[at..]` would need it too.
pub(crate) fn put_bytes(laid: &mut [u8], at: usize, bytes: &[u8]) -> usize
    requires { at + length bytes.now ≤ length laid.old }
    ensures { Put laid.old at bytes.now laid.new result }
{
    let end = at + bytes.len();
    laid[at..end].copy_from_slice(bytes);
    end
}

// The four bytes of a word. Of a row with fewer codes those behind its last are written over by what follows: each row takes one store.
fn put_word(laid: &mut [u8], at: usize, word: u32)
    requires { at + 4 ≤ length laid.old }
    ensures { Put laid.old at (four_digits word) laid.new (at + 4) }
{
    put_bytes(laid, at, &word.to_be_bytes());
}

// The rows of arity codes that have these words. Answers the place behind them.
// (d) Arity and words apart: the table that is laid out is in no book yet, and a `Table` is a view of a book.
fn put_rows(laid: &mut [u8], at: usize, words: &[u32], arity: usize) -> usize
    requires { (at + length words.now * arity + 4 ≤ length laid.old) × (arity ≤ 4) }
    ensures { Put laid.old at (flat (map (digits_of arity) words.now)) laid.new result }
{
    let mut place = at;
    for &word in words {
        put_word(laid, place, word);
        place += arity;
    }
    place
}

// How many fields the set with this key has: fields rise, so that none behind the first is 0.
#[tactic(auto, unfolding(crate::specs::Words::key_arity))]
fn key_arity(key: u32) -> usize
    ensures { result ≡ key_arity key }
{
    match key.to_be_bytes() {
        [_, 0, 0, 0] => 1,
        [_, _, 0, 0] => 2,
        [_, _, _, 0] => 3,
        _ => 4,
    }
}

// The table on the set with this key that has these rows. Answers the place behind it.
pub(crate) fn put_table(laid: &mut [u8], at: usize, key: u32, words: &[u32]) -> usize
    requires { TableFits key (length words.now) at (length laid.old) }
    ensures { Put laid.old at (table_bytes (word_table key words.now)) laid.new result }
{
    let arity = key_arity(key);
    // (b) The numbers of fields and of rows are stored at places reckoned here: with `put_bytes` for both, joins of ten rows took a thirtieth longer.
    let [low, high] = (words.len() as u16).to_le_bytes();
    laid[at] = arity as u8;
    put_word(laid, at + 1, key);
    laid[at + 1 + arity] = low;
    laid[at + 2 + arity] = high;
    put_rows(laid, at + 3 + arity, words, arity)
}
