// The numbers that plain filtering writes.
ghost use Rattle.std.specs.Prelude.{◌≡◌, List, ℕ};
ghost use Rattle.format.specs.Format.{book_of};
ghost use Rattle.consistency.specs.Consistency.{Sheet};
ghost use Rattle.calls.specs.Calls.{masks_into};
ghost use Rattle.sheet.specs.Shown.{shown_nothing, left};

use super::Reason;
use book::{Book, PLACES};

// 18, then the masks under these answers, one for each field. What stands behind them in out stays.
pub(crate) fn write_masks(
    book: Book<'_>,
    answers: &[u8; PLACES],
    out: &mut [u32],
) -> Result<(), Reason>
    ensures { (s : Sheet) → left shown_nothing result s out.new ≡ masks_into (book_of book.entry.bytes.now) s answers.now out.old }
{
    // (b) Not `book::hand_out`, which stands behind the filtering: with it a refusal by 18 took 1.10 µs on 60 fields without a table, for 0.08.
    if out.len() < book.fields {
        return Err(Reason::Room);
    }
    // (a) There is no heap: the numbers stand in an array of all places, of which the book's fields take the first.
    let numbers = filter::plain(book, answers);
    out[..book.fields].copy_from_slice(&numbers[..book.fields]);
    Ok(())
}
