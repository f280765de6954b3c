// The row behind a code: a table of the book, the field's column in it, and the inner question asked for one code and one case from row 0.
ghost use Rattle.std.specs.Prelude.{◌≡◌, ◌<◌, ◌≤◌, false, IfOk, IfErr};
ghost use Rattle.format.specs.Format.{code_limit, table_at, book_of};
ghost use Rattle.consistency.specs.Rows.{column_of, has_field, first_support_in};
ghost use Rattle.filter.specs.Words.{domain_of};
ghost use Rattle.filter.specs.Rows.{supporting, supporting_row};

use super::cases::Cases;
use super::column::Column;
use super::pass::run;
use super::support::support;
use super::{NoColumn, WORDS};
use book::{Book, CODES, PLACES, Table};

// Table i of the book, if it has that many.
fn table_of<'a>(book: Book<'a>, i: usize) -> Result<Table<'a>, NoColumn>
    ensures table { IfOk result (λ table. (table.bytes ≡ book.entry.bytes) × (table.index ≡ i)) }
    ensures lacks { IfErr result (λ _. book.entry.tables ≤ i) }
{
    // No walk over all tables for one that is not there.
    if book.tables <= i {
        return Err(NoColumn);
    }
    book.tables().nth(i).ok_or(NoColumn)
}

// The column of field f in the table, if it has one.
fn column_in<'a>(table: Table<'a>, f: usize) -> Result<Column<'a>, NoColumn>
    ensures column { IfOk result (λ column. (column.table ≡ table.entry) × (column.j ≡ column_of (table_at column.table.bytes.now column.table.at) f)) }
    ensures lacks { IfErr result (λ _. has_field (table_at table.entry.bytes.now table.entry.at) f ≡ false) }
{
    let j = table
        .fields()
        .iter()
        .position(|field| usize::from(*field) == f)
        .ok_or(NoColumn)?;
    Ok(Column { table, j })
}

// The first row of the table that supports code c in the column in case 0.
fn first_support(column: Column, marks: &[u64; WORDS], c: usize) -> Option<usize>
    requires { c < code_limit }
    ensures { result ≡ supporting (first_support_in (domain_of marks.now 0) (table_at column.entry.table.bytes.now column.entry.table.at) column.entry.j c) }
{
    let mut need = [0u64; CODES];
    need[c] = 1;
    let found = support(column, marks, &need, 0)?;
    Some(found.row)
}

// The first row of a table that supports a code of a field under these answers: one plain filtering into marks of its own, then the question
// once.
pub fn supporting_row<'a>(
    book: Book<'a>,
    answers: &[u8; PLACES],
    field: usize,
    code: usize,
    table: usize,
) -> Result<Option<usize>, NoColumn>
    ensures { result ≡ supporting_row (book_of book.entry.bytes.now) answers.now field code table }
{
    let asked = table_of(book, table)?;
    let column = column_in(asked, field)?;
    // No field has such a code, and the question has no word for it.
    if CODES <= code {
        return Ok(None);
    }
    let mut marks = [0u64; WORDS];
    run(book, answers, &Cases::one(), &mut marks);
    Ok(first_support(column, &marks, code))
}
