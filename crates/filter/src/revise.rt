// Striking the marks that a table no longer supports: a column at once, then the columns of a table.
ghost use Rattle.std.specs.Prelude.{◌≡◌, ◌≤◌, ◌<◌};
ghost use Rattle.format.specs.Format.{table_at, book_of};
ghost use Rattle.format.specs.Promise.{field_at};
ghost use Rattle.consistency.specs.Consistency.{codes};
ghost use Rattle.filter.specs.Revise.{Unsupported, Revised, Swept};
ghost use Rattle.filter.specs.Asks.{Marks, Struck};

use super::WORDS;
use super::column::Column;
use super::fields::Field;
use super::need::Need;
use super::support::support;
use super::survey::Survey;
use book::CODES;

// The strikes so far, and the tables to look at again.
#[derive(Clone, Copy)]
pub(crate) struct Pass {
    pub(crate) struck: u32,
    pub(crate) queue: u64,
}

// Looks for rows: the cases in which some row of the table supports the code in the column are taken out. It stops early where no code needs a
// row any more. (b) The need is lent: handed in and back, its words were copied three times for each column.
fn find_rows(column: Column, marks: &[u64; WORDS], need: &mut Need)
    ensures { Unsupported marks.now (table_at column.entry.table.bytes.now column.entry.table.at) column.entry.j need.old.cases need.new.cases }
{
    let Column { table, j } = column;
    let mut from = 0;
    // (d) A `while`, since there is nothing to walk over: each turn goes on behind the row that it has found.
    while need.waiting != 0 {
        let Some(found) = support(column, marks, &need.cases, from) else {
            return;
        };
        let c = usize::from(table.row(found.row)[j]);
        need.supported(c, found.cases);
        from = found.row + 1;
    }
}

// Strikes the cases `left` of the codes of a field, and counts them.
// (d) Marks, field and count come apart, for the reason that `start_field` gives.
fn strike(marks: &mut [u64; WORDS], left: &[u64; CODES], field: Field, s: u32) -> u32
    requires { s ≤ 1000000 }
    ensures { Struck marks.old marks.new left.now field.number field.codes s result }
{
    let mut count = s;
    // (b) By number: walks here, in `looking` and in `sweep`, tried together, made a pass up to a seventh slower.
    for c in 0..field.codes {
        let gone = left[c];
        marks[field.number * CODES + c] ^= gone;
        count += gone.count_ones();
    }
    count
}

// Strikes each mark of a field that no row of the table supports in the field's column.
// (d) Marks, field and count come apart, for the reason that `start_field` gives.
fn revise(column: Column, marks: &mut [u64; WORDS], field: Field, s: u32) -> u32
    requires field { field.number ≡ field_at column.table.bytes.now column.table.at column.j }
    requires codes { field.codes ≡ codes (book_of column.table.bytes.now) field.number }
    requires marks { Marks column.table.bytes.now marks.old s }
    ensures { Revised (book_of column.entry.table.bytes.now) marks.old marks.new (table_at column.entry.table.bytes.now column.entry.table.at) column.entry.j field.number s result }
{
    let mut need = Need::looking(marks, field);
    find_rows(column, marks, &mut need);
    strike(marks, &need.cases, field, s)
}

// Revises the columns of a table one after another. The other tables with a field that lost a mark join the queue; the table itself need
// not, since a row that supports a mark in one column keeps its marks in the others.
pub(crate) fn sweep(survey: &Survey, i: usize, marks: &mut [u64; WORDS], before: Pass) -> Pass
    requires table { i < survey.now.book.tables }
    requires marks { Marks survey.now.book.bytes.now marks.old before.struck }
    ensures { Swept survey.now.book.bytes.now survey.now.watch marks.old marks.new i before.struck result.struck before.queue result.queue }
{
    let table = survey.table(i);
    let fields = table.fields();
    let mut pass = before;
    // (b) By number: walks here, in `looking` and in `strike`, tried together, made a pass up to a seventh slower.
    for j in 0..table.arity {
        let f = usize::from(fields[j]);
        let field = Field {
            number: f,
            codes: usize::from(survey.book.codes(f)),
        };
        let struck = revise(Column { table, j }, marks, field, pass.struck);
        if struck != pass.struck {
            pass.queue |= survey.watch[f] ^ (1 << table.index);
            pass.struck = struck;
        }
    }
    pass
}
