// Whether a listing can be laid out: no number is missing, left over or too large for its bytes, and the bytes are no more than a book's.
ghost use Rattle.std.specs.Prelude.{◌≡◌, Some, None};
ghost use Rattle.format.specs.Basics.{pick};
ghost use Rattle.format.specs.Listing.{table_end_in};
ghost use Rattle.format.specs.Writing.{all_bytes};
ghost use Rattle.listing.specs.Fits.{table_fits, tables_fit, fits};

use book::BOOK_LIMIT;

const BYTE_LIMIT: u16 = u8::MAX as u16;

// Whether each number is a byte.
fn all_bytes(numbers: &[u16]) -> bool
    ensures { result ≡ all_bytes numbers.now }
{
    numbers.iter().all(|number| *number <= BYTE_LIMIT)
}

// The place behind the table at `at`, if it can be laid out. Its number of rows has two bytes, as each number of the listing.
// (d) Its places are reckoned by hand, from `at` on: a `Table` is a view of a book's bytes, and these numbers are not yet any.
fn table(listing: &[u16], at: usize) -> Option<usize>
    ensures { result ≡ pick (table_fits listing.now at) (Some (table_end_in listing.now at)) None }
{
    let arity = usize::from(*listing.get(at)?);
    let count = at + 1 + arity;
    let rows = usize::from(*listing.get(count)?);
    let end = count + 1 + rows * arity;
    // (b) Held against the length, and not asked for as a part that may not be there: for that the compiler chooses between two of each end of
    // the part, which took 64 tables without rows a tenth longer.
    if listing.len() < end {
        return None;
    }
    (all_bytes(&listing[at..count]) && all_bytes(&listing[count + 1..end])).then_some(end)
}

// The tables from `at` on, with one number behind them, the version.
// (d) The listing and a place in it, and no slice from there on: the definitions count places in the whole listing.
fn tables(listing: &[u16], at: usize, count: usize) -> bool
    ensures { result ≡ tables_fit listing.now at count }
{
    let mut next = at;
    for _ in 0..count {
        let Some(end) = table(listing, next) else {
            return false;
        };
        next = end;
    }
    next < listing.len() && listing.len() - next == 1
}

// The whole listing. Each table has one byte more than numbers, and the trailer three more than the numbers of fields and of tables and
// the version.
pub(crate) fn fits(listing: &[u16]) -> bool
    ensures { result ≡ fits listing.now }
{
    let n = listing.len();
    // (d) Two tests return, since each lets a number be read on which the rest stands.
    if n < 3 || BYTE_LIMIT < listing[0] {
        return false;
    }
    let fields = usize::from(listing[0]);
    let count = 1 + fields;
    if n < 3 + fields || BYTE_LIMIT < listing[count] {
        return false;
    }
    let number = usize::from(listing[count]);
    n + number + 3 <= BOOK_LIMIT
        && listing[n - 1] <= BYTE_LIMIT
        && all_bytes(&listing[1..count])
        && tables(listing, 2 + fields, number)
}
