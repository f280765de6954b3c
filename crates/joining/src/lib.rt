// Joining two books into one, request M-109. A set of fields is one number, the word of its field list, and so is a row: sets and rows rise
// as these words do. The next table is that of the least set left, and its rows are those in every table on it.
#![tactic(auto)]

ghost use Rattle.std.specs.Prelude.{◌≡◌, ◌≤◌, length};
ghost use Rattle.format.specs.Format.{row_limit, book_of};
ghost use Rattle.format.specs.Writing.{book_limit};
ghost use Rattle.format.specs.Joining as model;
ghost use Rattle.joining.specs.Laid.{end_most};
ghost use Rattle.joining.specs.Answers.{joined_by, JoinedIn};

use book::{BOOK_LIMIT, Book, NoRoom, ROW_LIMIT, TABLE_LIMIT};
use ends::{put_end, same_counts};
use heads::{Head, Headed};
use lay::{Both, Over, lay_tables};
use rows::Common;

mod ends;
mod heads;
mod lay;
mod puts;
mod refusals;
mod rows;
mod sets;

pub use refusals::JoinRefusal;

// Up to so many rows in each book are joined with little memory, which is soon cleared.
const FEW: usize = 64;

// The bytes that are kept for the joined book then.
const SMALL: usize = 1024;

// 18, or else the bytes of two books with the same field list, with memory of its own for so many rows of each and so many bytes; or that
// a limit is broken, or that there is no room. The bytes are laid out apart from the memory lent, so that a refusal leaves it.
// (a) Bytes and heads stand first in arrays, at their fronts, since there is no heap.
#[inline(never)]
fn join_in<'a, const ROWS: usize, const BYTES: usize>(
    first: Book<'a>,
    second: Book<'a>,
    out: &mut [u8],
) -> Result<Result<usize, NoRoom>, Over>
    requires same { (book_of second.bytes.now).counts ≡ (book_of first.bytes.now).counts }
    requires first { first.rows ≤ ROWS }
    requires second { second.rows ≤ ROWS }
    requires rows { ROWS ≤ row_limit }
    requires end { end_most ≤ BYTES }
    requires bytes { BYTES ≤ book_limit }
    ensures { JoinedIn BYTES (book_of first.entry.bytes.now) (book_of second.entry.bytes.now) out.old out.new result }
{
    let mut heads = [Head::default(); TABLE_LIMIT];
    let mut others = [Head::default(); TABLE_LIMIT];
    let mut words = [0u32; ROWS];
    let mut spare = [0u32; ROWS];
    let mut laid = [0u8; BYTES];
    let one = Headed::of(first, &mut heads);
    let other = Headed::of(second, &mut others);
    let books = Both::of(one, other);
    let mut common: Common<'_, ROWS> = Common {
        words: &mut words,
        spare: &mut spare,
        found: None,
    };
    let tables = lay_tables(&books, &mut common, &mut laid)?;
    let n = put_end(&mut laid, tables, first);
    Ok(book::hand_out(&laid[..n], out))
}

// 26, then 18, of two books with the same field list. Few rows are joined with little memory; what has no room there is laid out once more.
fn join_alike<'a>(first: Book<'a>, second: Book<'a>, out: &mut [u8]) -> Result<usize, JoinRefusal>
    requires { (book_of second.bytes.now).counts ≡ (book_of first.bytes.now).counts }
    ensures { joined_by result out.new ≡ model.joined_into (book_of first.entry.bytes.now) (book_of second.entry.bytes.now) out.old }
{
    if first.rows <= FEW && second.rows <= FEW {
        if let Ok(answer) = join_in::<FEW, SMALL>(first, second, out) {
            return Ok(answer?);
        }
    }
    Ok(join_in::<ROW_LIMIT, BOOK_LIMIT>(first, second, out)??)
}

// Writes the bytes of two books joined.
pub fn join(first: &[u8], second: &[u8], out: &mut [u8]) -> Result<usize, JoinRefusal>
    ensures { joined_by result out.new ≡ model.joining first.now second.now out.old }
{
    let first = Book::open(first)?;
    let second = Book::open(second)?;
    if !same_counts(first, second) {
        return Err(JoinRefusal::Counts);
    }
    join_alike(first, second, out)
}
