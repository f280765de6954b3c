// Tree books, request M-111: books whose tables tie one or two fields, and whose links form no ring. Reading for this profile, and its writer.
#![tactic(auto)]

ghost use Rattle.std.specs.Prelude.{◌≡◌};
ghost use Rattle.format.specs.Trees.{tree_reading, tree_writing};
ghost use Rattle.trees.specs.Answers.{tree_read, tree_wrote};

use book::{BOOK_LIMIT, Book, Counts};
use listing::Listing;

mod profile;
mod refusals;
mod rings;

pub use refusals::{Breach, Breached, TreeRefusal, TreeWriteRefusal};

// Reads a tree book: the tests of a book, then those of the profile.
pub fn read_tree(bytes: &[u8]) -> Result<Counts, TreeRefusal>
    ensures { tree_read result ≡ tree_reading bytes.now }
{
    let book = Book::open(bytes)?;
    profile::is_tree(book)?;
    Ok(book.counts())
}

// Writes the bytes of the tree book that a listing says, and answers how many they are.
// (a) They stand first in an array, as in `listing::write`: a refusal leaves the memory lent.
pub fn write_tree(listing: &[u16], out: &mut [u8]) -> Result<usize, TreeWriteRefusal>
    ensures { tree_wrote result out.new ≡ tree_writing listing.now out.old }
{
    let Some(listing) = Listing::of(listing) else {
        return Err(TreeWriteRefusal::Listing);
    };
    let mut scratch = [0u8; BOOK_LIMIT];
    let Some(book) = listing.lay(&mut scratch) else {
        return Err(TreeWriteRefusal::Listing);
    };
    profile::is_tree(book)?;
    Ok(book::hand_out(book.bytes, out)?)
}
