// The tests of the profile, of an accepted book: 28, then 29.
ghost use Rattle.std.specs.Prelude.{◌≡◌};
ghost use Rattle.format.specs.Format.{book_of};
ghost use Rattle.format.specs.Trees.{first_wide, tree_test};
ghost use Rattle.trees.specs.Answers.{verdict_of};
ghost use Rattle.trees.specs.Found.{FoundTable};

use super::refusals::{Breach, Breached};
use super::rings::first_closing;
use book::{Book, Table};

// The most fields that a table of a tree book ties.
const TREE_ARITY: usize = 2;

// The first table of more fields.
fn first_wide<'a>(book: Book<'a>) -> Option<Table<'a>>
    ensures { FoundTable book.entry (first_wide (book_of book.entry.bytes.now)) result }
{
    book.tables().find(|table| TREE_ARITY < table.arity)
}

// 28, then 29.
pub(crate) fn is_tree(book: Book<'_>) -> Result<(), Breached>
    ensures { verdict_of result ≡ tree_test (book_of book.entry.bytes.now) }
{
    if let Some(table) = first_wide(book) {
        return Err(Breach::Wide.at(table.at));
    }
    if let Some(table) = first_closing(book) {
        return Err(Breach::Ring.at(table.at));
    }
    Ok(())
}
