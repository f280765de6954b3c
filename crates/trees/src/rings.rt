// The first table that closes a ring. Two fields have one label exactly where a way along the tables passed stands between them; a table of two
// fields with one label closes a ring.
// (d) No ranks and no paths to follow: a table renames at most sixty labels, and a book has at most 64 tables.
ghost use Rattle.std.specs.Prelude.{◌≡◌, map};
ghost use Rattle.format.specs.Format.{book_of};
ghost use Rattle.format.specs.Trees.{renamed, first_closing};
ghost use Rattle.trees.specs.Found.{FoundTable};
ghost use Rattle.trees.specs.Labels.{Labelled};

use book::{Book, PLACES, Table};
use std::array::from_fn;

// A label for each field: its own number.
fn own_labels() -> [u8; PLACES]
    ensures { Labelled (λ g. g) result }
{
    from_fn(|field| field as u8)
}

// Puts one label in the place of another. Each is written, so that the compiler takes several at a time.
fn rename(labels: &mut [u8; PLACES], old: u8, new: u8)
    ensures { labels.new ≡ map (renamed old new) labels.old }
{
    for label in labels.iter_mut() {
        *label = if *label == old { new } else { *label };
    }
}

// The first table that closes a ring.
pub(crate) fn first_closing<'a>(book: Book<'a>) -> Option<Table<'a>>
    ensures { FoundTable book.entry (first_closing (book_of book.entry.bytes.now)) result }
{
    let mut labels = own_labels();
    for table in book.tables() {
        if let [left, right] = table.fields() {
            let new = labels[usize::from(*left)];
            let old = labels[usize::from(*right)];
            if new == old {
                return Some(table);
            }
            rename(&mut labels, old, new);
        }
    }
    None
}
