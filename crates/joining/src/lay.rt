// Laying out the tables of two books joined, set by set as their keys rise.
ghost use Rattle.std.specs.Prelude.{◌≡◌, ◌≤◌, length, map};
ghost use Rattle.format.specs.Format.{row_limit};
ghost use Rattle.format.specs.Joining.{common_tables};
ghost use Rattle.joining.specs.Words.{key_of, Least, LesserIs};
ghost use Rattle.joining.specs.Laid.{both_tables, KeyIn, SetEvery, end_most, LaidOut};

use super::heads::Headed;
use super::puts::put_table;
use super::rows::Common;
use book::{ARITY_LIMIT, PLACES, ROW_LIMIT, TABLE_LIMIT, TRAILER};

// What stands behind the tables at most, the field list and the trailer. Room for it is kept, and so for the four bytes of the last row.
const END_MOST: usize = PLACES + TRAILER;

// Too many tables or rows, or more than there is room for.
#[derive(Clone, Copy)]
pub(crate) struct Over;

// Where the tables laid out end, and how many they are.
#[derive(Clone, Copy)]
pub(crate) struct Laid {
    pub(crate) end: usize,
    pub(crate) tables: usize,
}

// Two books to be joined.
#[derive(Clone, Copy)]
pub(crate) struct Both<'a, 'h, const ROWS: usize> {
    pub(crate) first: Headed<'a, 'h, ROWS>,
    pub(crate) second: Headed<'a, 'h, ROWS>,
}

// The lesser of two keys, where there are two.
fn lesser(one: Option<u32>, other: Option<u32>) -> Option<u32>
    ensures { LesserIs one other result }
{
    match (one, other) {
        (Some(best), Some(key)) => Some(best.min(key)),
        _ => one.or(other),
    }
}

impl<'a, 'h, const ROWS: usize> Both<'a, 'h, ROWS> {
    // (c) A function of its own: the heads are lent for different lifetimes, and the check refuses a literal that would bring them to one.
    pub(crate) fn of(
        first: Headed<'a, 'h, ROWS>,
        second: Headed<'a, 'h, ROWS>,
    ) -> Both<'a, 'h, ROWS>
        ensures first { result.first ≡ first.entry }
        ensures second { result.second ≡ second.entry }
    {
        Both { first, second }
    }

    // The least key of both books' tables from `from` on.
    fn next_key(&self, from: u32) -> Option<u32>
        ensures { Least from (map key_of (both_tables self.now.first.book.bytes.now self.now.second.book.bytes.now)) result }
    {
        let one = self.first.least_key(from);
        let other = self.second.least_key(from);
        lesser(one, other)
    }

    // The words of the rows in every table of both books on the set with this key. Answers how many these are.
    fn common(&self, key: u32, common: &mut Common<'_, ROWS>) -> usize
        requires { KeyIn key (both_tables self.now.first.book.bytes.now self.now.second.book.bytes.now) }
        ensures { SetEvery key (both_tables self.now.first.book.bytes.now self.now.second.book.bytes.now) result common.new.words.now }
    {
        common.found = None;
        common.narrow(&self.first, key);
        common.narrow(&self.second, key);
        common.found.unwrap()
    }
}

// The tables, one behind another.
pub(crate) fn lay_tables<const ROWS: usize>(
    books: &Both<'_, '_, ROWS>,
    common: &mut Common<'_, ROWS>,
    laid: &mut [u8],
) -> Result<Laid, Over>
    requires room { end_most ≤ length laid.old }
    requires rows { ROWS ≤ row_limit }
    ensures { LaidOut (common_tables (both_tables books.now.first.book.bytes.now books.now.second.book.bytes.now)) result laid.new }
{
    let mut from = 0;
    let mut rows = 0;
    let mut tables = 0;
    let mut end = 0;
    while let Some(key) = books.next_key(from) {
        if tables == TABLE_LIMIT {
            return Err(Over);
        }
        let n = books.common(key, common);
        if ROW_LIMIT < rows + n {
            return Err(Over);
        }
        if laid.len() < end + 3 + ARITY_LIMIT + ARITY_LIMIT * n + END_MOST {
            return Err(Over);
        }
        end = put_table(laid, end, key, common.front(n));
        rows += n;
        tables += 1;
        from = key + 1;
    }
    Ok(Laid { end, tables })
}
