// A column of a table.
ghost use Rattle.std.specs.Prelude.{◌<◌};

use book::Table;

// Column j of a table of a book.
#[derive(Clone, Copy)]
pub(crate) struct Column<'a> {
    pub(crate) table: Table<'a>,
    pub(crate) j: usize,
    pub(crate) ghost within: { j < table.arity },
}
