// A book's listing, written number by number.
// (d) A table's bytes are taken as they stand, since a listing has the same numbers in the same order; and the version is a byte that no view tells.
// (d) Parts of the memory by places reckoned here: `split_at_mut` would need the same numbers, which are the book's and its tables'.
ghost use Rattle.std.specs.Prelude.{◌≡◌, ◌++◌, ◌≤◌, length, drop};
ghost use Rattle.std.proofs.lemmas.List.Edits.{sets};
ghost use Rattle.format.specs.Format.{table_at, book_of};
ghost use Rattle.format.specs.Listing.{table_numbers, tables_numbers, listing_of};

use book::{Book, Table};

// Bytes as numbers, in memory for as many.
fn widen(bytes: &[u8], out: &mut [u16])
    requires { length out.old ≡ length bytes.now }
    ensures { out.new ≡ bytes.now }
{
    // (c) By an index: a proof sees nothing of what a `zip` with `iter_mut` has written.
    for (i, byte) in bytes.iter().enumerate() {
        out[i] = u16::from(*byte);
    }
}

// Writes the numbers of a table, from the first place on. Answers how many they are.
fn show_table(table: Table<'_>, out: &mut [u16]) -> usize
    requires { length (table_numbers (table_at table.bytes.now table.at)) ≤ length out.old }
    ensures count { result ≡ length (table_numbers (table_at table.entry.bytes.now table.entry.at)) }
    ensures written { out.new ≡ sets out.old 0 (table_numbers (table_at table.entry.bytes.now table.entry.at)) }
{
    let count = 1 + table.arity;
    let end = count + 1 + table.rows * table.arity;
    widen(&table.bytes[table.at..table.at + count], &mut out[..count]);
    out[count] = table.rows as u16;
    widen(
        &table.bytes[table.first..table.end()],
        &mut out[count + 1..end],
    );
    end
}

// Writes the numbers of all tables, from the first place on.
fn show_tables(book: Book<'_>, out: &mut [u16])
    requires { length (tables_numbers (book_of book.bytes.now).tables) ≤ length out.old }
    ensures { out.new ≡ sets out.old 0 (tables_numbers (book_of book.entry.bytes.now).tables) }
{
    let mut to = 0;
    for table in book.tables() {
        to += show_table(table, &mut out[to..]);
    }
}

// Writes the listing of a book. The version, the trailer's last byte but one, stands last.
pub(crate) fn show_book(book: Book<'_>, out: &mut [u16])
    requires { length (listing_of (book_of book.bytes.now)) ≤ length out.old }
    ensures { out.new ≡ listing_of (book_of book.entry.bytes.now) ++ drop (length (listing_of (book_of book.entry.bytes.now))) out.old }
{
    out[0] = book.fields as u16;
    widen(book.field_list(), &mut out[1..1 + book.fields]);
    out[1 + book.fields] = book.tables as u16;
    show_tables(book, &mut out[2 + book.fields..]);
    out[2 + book.fields + book.list - book.tables] = u16::from(book.bytes[book.bytes.len() - 2]);
}
