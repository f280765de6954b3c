// The field list and the trailer, which stand behind the tables. Put as in puts.rt.
ghost use Rattle.std.specs.Prelude.{◌≡◌, ◌++◌, length};
ghost use Rattle.std.specs.Bool.{Decides};
ghost use Rattle.format.specs.Format.{trailer, book_of};
ghost use Rattle.joining.specs.Puts.{Put};
ghost use Rattle.joining.specs.Ends.{EndFits};

use super::lay::Laid;
use super::puts::put_bytes;
use book::Book;

// The version of every joined book.
const VERSION: u8 = 2;

// Whether two books have the same field list.
pub(crate) fn same_counts(first: Book<'_>, second: Book<'_>) -> bool
    ensures { Decides result ((book_of second.entry.bytes.now).counts ≡ (book_of first.entry.bytes.now).counts) }
{
    first.field_list() == second.field_list()
}

// Behind the tables: the field list of the book, then the trailer. Answers the place behind it.
pub(crate) fn put_end(laid: &mut [u8], tables: Laid, book: Book<'_>) -> usize
    requires { EndFits (length laid.old) tables.end tables.tables }
    ensures { Put laid.old tables.end ((book_of book.entry.bytes.now).counts ++ trailer tables.end book.entry.fields tables.tables 2) laid.new result }
{
    let at = put_bytes(laid, tables.end, book.field_list());
    let trailer = book::trailer(
        tables.end as u16,
        book.fields as u8,
        tables.tables as u8,
        VERSION,
    );
    put_bytes(laid, at, &trailer)
}
