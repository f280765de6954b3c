// The tests of a book, in document 01's order. A comment's numbers are its numbers of refusals.
ghost use Rattle.std.specs.Prelude.{◌≡◌, ◌≤◌, MatchOption};
ghost use Rattle.format.specs.Format as format;
ghost use Rattle.book.specs.Bounds.{BodyFits, HeadFits};

use super::bytes::{CLOSING_BYTE, byte, pair};
use super::refusals::{Refusal, Refused};
use super::{
    ARITY_LIMIT, FIELDS_OF_VERSION_1, LENGTH_LIMIT, PLACES, ROW_LIMIT, TABLE_LIMIT, TRAILER,
};

// What the trailer says: the place of the field list, and the numbers of fields and of tables.
#[derive(Clone, Copy)]
pub(crate) struct Trailer {
    pub list: usize,
    pub fields: usize,
    pub tables: usize,
}

// Where the tables that have passed end, and how many rows they have.
#[derive(Clone, Copy)]
pub(crate) struct Passed {
    pub at: usize,
    pub rows: usize,
}

// What stands before a book's trailer, by the trailer's numbers.
#[derive(Clone, Copy)]
pub(crate) struct Body<'a> {
    pub bytes: &'a [u8],
    pub list: usize,
    pub fields: usize,
    pub ghost fits: { BodyFits bytes.now list fields },
}

// The most fields of a book of this version, where the number is a version's.
fn field_limit(version: u8) -> Option<usize>
    ensures { MatchOption result (format.field_limit version ≡ 0) (λ limit. (1 ≤ limit) × (limit ≡ format.field_limit version)) }
{
    match version {
        1 => Some(FIELDS_OF_VERSION_1),
        2 => Some(PLACES),
        _ => None,
    }
}

impl Trailer {
    ghost use Rattle.std.specs.Prelude.{IfOk};
    ghost use Rattle.format.specs.Reading.{trailer_verdict};
    ghost use Rattle.book.specs.Shown.{verdict_of};

    // 1 to 6.
    pub(crate) fn of(book: &[u8]) -> Result<Trailer, Refused>
        ensures verdict { verdict_of result ≡ trailer_verdict book.now }
        ensures list { IfOk result (λ trailer. trailer.list ≡ format.list_place book.now) }
        ensures fields { IfOk result (λ trailer. trailer.fields ≡ format.field_count book.now) }
        ensures tables { IfOk result (λ trailer. trailer.tables ≡ format.table_count book.now) }
    {
        let n = book.len();
        if n < TRAILER || LENGTH_LIMIT < n {
            return Err(Refusal::Length.at(0));
        }
        if book[n - 1] != CLOSING_BYTE {
            return Err(Refusal::Closing.at(n - 1));
        }
        let Some(limit) = field_limit(book[n - 2]) else {
            return Err(Refusal::Version.at(n - 2));
        };
        let fields = byte(book, n - 4);
        if fields < 1 || limit < fields {
            return Err(Refusal::FieldCount.at(n - 4));
        }
        let tables = byte(book, n - 3);
        if TABLE_LIMIT < tables {
            return Err(Refusal::TableCount.at(n - 3));
        }
        let list = pair(book, n - 6);
        if list + fields + TRAILER != n {
            return Err(Refusal::ListPlace.at(n - 6));
        }
        Ok(Trailer {
            list,
            fields,
            tables,
        })
    }
}

impl<'a> Body<'a> {
    ghost use Rattle.format.specs.Reading.{list_test, rows_step, table_step, tables_step};
    ghost use Rattle.book.specs.Shown.{verdict_of, step_of};

    // 7, of the field list.
    pub(crate) fn field_list(self) -> Result<(), Refused>
        ensures { verdict_of result ≡ list_test self.entry.bytes.now self.entry.list self.entry.fields }
    {
        if let Some(bad) = self.bad_count() {
            return Err(Refusal::CodeCount.at(bad));
        }
        Ok(())
    }

    // 8, 12 and 11, of the rows of the table that comes next. A table has at most 65,535 rows, of 4 codes, so that their product
    // fits before it is tested. (d) Places reckoned by hand, here and in `table`: a `Table` is a view of a book, and it is not known
    // yet that there is one.
    fn rows(self, before: Passed) -> Result<Passed, Refused>
        requires { HeadFits self.bytes.now self.list before.at before.rows }
        ensures { step_of result ≡ rows_step self.entry.bytes.now self.entry.list before.at before.rows }
    {
        let Passed { at, rows } = before;
        let arity = byte(self.bytes, at);
        let count = pair(self.bytes, at + 1 + arity);
        let start = at + 3 + arity;
        let end = start + count * arity;
        if self.list < end {
            return Err(Refusal::Short.at(at));
        }
        let rows = rows + count;
        if ROW_LIMIT < rows {
            return Err(Refusal::RowCount.at(at));
        }
        if let Some(bad) = self.bad_code(at + 1, arity, start, end) {
            return Err(Refusal::Code.at(bad));
        }
        Ok(Passed { at: end, rows })
    }

    // 8, 9, 8 and 10, of the table that comes next; then its rows.
    fn table(self, before: Passed) -> Result<Passed, Refused>
        requires { before.rows ≤ format.row_limit }
        ensures { step_of result ≡ table_step self.entry.bytes.now self.entry.list self.entry.fields before.at before.rows }
    {
        let Passed { at, .. } = before;
        if self.list <= at {
            return Err(Refusal::Short.at(at));
        }
        let arity = byte(self.bytes, at);
        if arity < 1 || ARITY_LIMIT < arity {
            return Err(Refusal::Arity.at(at));
        }
        if self.list < at + 3 + arity {
            return Err(Refusal::Short.at(at));
        }
        let end = at + 1 + arity;
        if let Some(bad) = self.bad_field(at + 1, end) {
            return Err(Refusal::FieldNumber.at(bad));
        }
        self.rows(before)
    }

    // So many tables, one after another from byte 0: where the last ends, with all rows.
    pub(crate) fn tables(self, count: usize) -> Result<Passed, Refused>
        ensures { step_of result ≡ tables_step self.entry.bytes.now self.entry.list self.entry.fields count 0 0 }
    {
        let mut passed = Passed { at: 0, rows: 0 };
        for _ in 0..count {
            passed = self.table(passed)?;
        }
        Ok(passed)
    }
}
