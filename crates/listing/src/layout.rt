// The bytes of a listing's book, laid out.
// (d) Parts of both memories by places reckoned here: `split_at` would need the same numbers, since each part says how long the next is.
ghost use Rattle.std.specs.Prelude.{◌≡◌, ◌≤◌, length};
ghost use Rattle.std.proofs.lemmas.List.Edits.{sets};
ghost use Rattle.format.specs.Format.{table_bytes, tables_bytes};
ghost use Rattle.format.specs.Layout.{Bytes};
ghost use Rattle.format.specs.Listing.{table_in, tables_in};
ghost use Rattle.format.specs.Writing.{laid_out, book_limit};
ghost use Rattle.listing.specs.Bounds.{TableLays, TablesLay};

use super::Listing;
use book::TRAILER;

// Numbers, each a byte, in memory for as many. (d) No one function with `widen`: this way a cast is needed, and that way a conversion. One that
// takes the conversion as a closure would have to hand it what is known here of the numbers, that each is a byte.
fn narrow(numbers: &[u16], out: &mut [u8])
    requires bytes { Bytes numbers.now }
    requires long { length out.old ≡ length numbers.now }
    ensures { out.new ≡ numbers.now }
{
    // (c) By an index, as in `widen`.
    for (i, number) in numbers.iter().enumerate() {
        out[i] = *number as u8;
    }
}

// Writes the bytes of the table that the numbers begin with, from the first byte on. Answers how many they are.
fn lay_table(listing: &[u16], out: &mut [u8]) -> usize
    requires { TableLays listing.now out.old }
    ensures { (result ≡ length (table_bytes (table_in listing.now 0))) × (out.new ≡ sets out.old 0 (table_bytes (table_in listing.now 0))) }
{
    // (d) Places reckoned by hand: a `Table` is a view of a book's bytes, and these numbers are not yet any.
    let arity = usize::from(listing[0]);
    let rows = listing[1 + arity];
    let codes = usize::from(rows) * arity;
    narrow(&listing[..1 + arity], &mut out[..1 + arity]);
    out[1 + arity..3 + arity].copy_from_slice(&rows.to_le_bytes());
    narrow(
        &listing[2 + arity..2 + arity + codes],
        &mut out[3 + arity..3 + arity + codes],
    );
    3 + arity + codes
}

// Writes the bytes of the tables from `first` on, from the first byte on. Answers how many they are.
// (d) The listing and a place in it, and no slice from there on: the definitions count places in the whole listing.
fn lay_tables(listing: &[u16], first: usize, tables: usize, out: &mut [u8]) -> usize
    requires { TablesLay listing.now first tables out.old }
    ensures { (result ≡ length (tables_bytes (tables_in listing.now first tables))) × (out.new ≡ sets out.old 0 (tables_bytes (tables_in listing.now first tables))) }
{
    let mut at = first;
    let mut to = 0;
    for _ in 0..tables {
        let n = lay_table(&listing[at..], &mut out[to..]);
        at += n - 1;
        to += n;
    }
    to
}

// Writes the bytes of a listing, from the first byte on. Answers how many they are.
pub(crate) fn lay_out(listing: Listing<'_>, out: &mut [u8]) -> usize
    requires { book_limit ≤ length out.old }
    ensures { (result ≡ length (laid_out listing.entry.numbers.now)) × (out.new ≡ sets out.old 0 (laid_out listing.entry.numbers.now)) }
{
    let numbers = listing.numbers;
    let fields = usize::from(numbers[0]);
    let tables = usize::from(numbers[1 + fields]);
    let list = lay_tables(numbers, 2 + fields, tables, out);
    let end = list + fields;
    narrow(&numbers[1..1 + fields], &mut out[list..end]);
    let version = numbers[numbers.len() - 1] as u8;
    let trailer = book::trailer(list as u16, fields as u8, tables as u8, version);
    out[end..end + TRAILER].copy_from_slice(&trailer);
    end + TRAILER
}
