// A book and its tables as views on the bytes that are lent: an accepted book's numbers and a table's are the bytes' own, which the
// types say.
ghost use Rattle.std.specs.Prelude.{◌≡◌};
ghost use Rattle.format.specs.Promise.{place};
ghost use Rattle.book.specs.View.{Viewed, IsTable, TableIn};

use super::bytes::{byte, pair};
use super::refusals::{Refusal, Refused};
use super::tests::{Body, Trailer};

// A book: its bytes, the place of its field list, and its numbers of fields, tables and rows.
#[derive(Clone, Copy)]
pub struct Book<'a> {
    pub bytes: &'a [u8],
    pub list: usize,
    pub fields: usize,
    pub tables: usize,
    pub rows: usize,
    pub ghost viewed: { Viewed bytes.now list fields tables rows },
}

// A table: its number and place in the book, its number of fields, the place of its first row, and its number of rows.
// (d) Places in its rows are reckoned from these by its own methods: a type for a place would say no more.
#[derive(Clone, Copy)]
pub struct Table<'a> {
    pub bytes: &'a [u8],
    pub index: usize,
    pub at: usize,
    pub arity: usize,
    pub first: usize,
    pub rows: usize,
    pub ghost stands: { TableIn bytes.now index at arity first rows },
}

// The tables of a book from one on, in their order: its number, and its place.
#[derive(Clone, Copy)]
pub struct Tables<'a> {
    pub book: Book<'a>,
    pub index: usize,
    pub at: usize,
    pub ghost stand: { at ≡ place book.bytes.now index },
}

impl<'a> Book<'a> {
    ghost use Rattle.std.specs.Prelude.{◌<◌, ◌≤◌, IfOk, get_or};
    ghost use Rattle.format.specs.Format.{code_limit, book_of};
    ghost use Rattle.format.specs.Promise.{Promise};
    ghost use Rattle.format.specs.Reading.{checking};
    ghost use Rattle.book.specs.Shown.{shown_open};

    // Makes every test. Different rows are counted apart, since only `read` answers their number.
    pub fn open(bytes: &'a [u8]) -> Result<Book<'a>, Refused>
        ensures answer { shown_open result ≡ checking bytes.entry.now }
        ensures bytes { IfOk result (λ book. book.bytes ≡ bytes.entry) }
    {
        let Trailer {
            list,
            fields,
            tables,
        } = Trailer::of(bytes)?;
        let body = Body {
            bytes,
            list,
            fields,
        };
        body.field_list()?;
        let passed = body.tables(tables)?;
        if passed.at < list {
            return Err(Refusal::LeftOver.at(passed.at));
        }
        Ok(Book {
            bytes,
            list,
            fields,
            tables,
            rows: passed.rows,
        })
    }

    // The book that bytes are which keep the reader's promise, for who knows that of them and has no book of them.
    pub fn promised(bytes: &'a [u8]) -> Book<'a>
        requires { Promise bytes.now }
        ensures { result.bytes ≡ bytes.entry }
    {
        Book::open(bytes).unwrap()
    }

    // The table of this number at this place. (d) Its shape is reckoned here, where there is no `Table` yet.
    pub fn table(self, index: usize, at: usize) -> Table<'a>
        requires { IsTable self.bytes.now index at }
        ensures bytes { result.bytes ≡ self.entry.bytes }
        ensures index { result.index ≡ index }
        ensures at { result.at ≡ at }
    {
        let arity = byte(self.bytes, at);
        let rows = pair(self.bytes, at + 1 + arity);
        Table {
            bytes: self.bytes,
            index,
            at,
            arity,
            first: at + 3 + arity,
            rows,
        }
    }

    // Its field list: the number of codes of each field.
    pub fn field_list(self) -> &'a [u8]
        ensures { result.now ≡ (book_of self.entry.bytes.now).counts }
    {
        &self.bytes[self.list..self.list + self.fields]
    }

    // The number of codes of a field.
    pub fn codes(self, field: usize) -> u8
        requires { field < self.fields }
        ensures is { result ≡ get_or (book_of self.entry.bytes.now).counts field 0 }
        ensures few { result ≤ code_limit }
    {
        self.bytes[self.list + field]
    }

    // All tables, from the first on.
    pub fn tables(self) -> Tables<'a>
        ensures book { result.book ≡ self.entry }
        ensures index { result.index ≡ 0 }
    {
        Tables {
            book: self,
            index: 0,
            at: 0,
        }
    }
}

impl<'a> Table<'a> {
    ghost use Rattle.std.specs.Prelude.{◌<◌, [], length, get_or};
    ghost use Rattle.format.specs.Format.{table_at, table_end};

    // The numbers of its fields.
    pub fn fields(self) -> &'a [u8]
        ensures { result.now ≡ (table_at self.entry.bytes.now self.entry.at).fields }
    {
        let first = self.at + 1;
        &self.bytes[first..first + self.arity]
    }

    // The codes of row k.
    pub fn row(self, k: usize) -> &'a [u8]
        requires { k < self.rows }
        ensures is { result.now ≡ get_or (table_at self.entry.bytes.now self.entry.at).rows k [] }
        ensures long { length result.now ≡ self.entry.arity }
    {
        let start = self.first + k * self.arity;
        &self.bytes[start..start + self.arity]
    }

    // The place behind its last row.
    pub fn end(self) -> usize
        ensures { result ≡ table_end self.entry.bytes.now self.entry.at }
    {
        self.first + self.rows * self.arity
    }
}

impl<'a> Iterator for Tables<'a> {
    ghost use Rattle.book.specs.Walk.{GivesTable, tables_left};

    type Item = Table<'a>;

    ghost next_gives = { GivesTable };

    ghost remaining = { tables_left };

    fn next(&mut self) -> Option<Table<'a>> {
        if self.book.tables <= self.index {
            return None;
        }
        let table = self.book.table(self.index, self.at);
        *self = Tables {
            book: self.book,
            index: self.index + 1,
            at: table.end(),
        };
        Some(table)
    }
}
