// The first byte of a range of a body that fails its test: refusals 7, 10 and 11.
ghost use Rattle.std.specs.Prelude.{◌≡◌, ◌≤◌, ◌<◌, length};
ghost use Rattle.format.specs.Format as format;
ghost use Rattle.format.specs.Reading as reading;

use super::CODES;
use super::bytes::byte;
use super::tests::Body;

// "its number of codes (1 to 32)"
const CODE_LIMIT: u8 = CODES as u8;

// Whether the byte at i is a number of codes.
fn count_ok(book: &[u8], i: usize) -> bool
    requires { i < length book.now }
    ensures { result ≡ reading.count_ok book.now i }
{
    1 <= book[i] && book[i] <= CODE_LIMIT
}

impl Body<'_> {
    ghost use Rattle.std.specs.Prelude.{◌+◌, get_or};
    ghost use Rattle.format.specs.Reading.{code_ok};
    ghost use Rattle.book.specs.Bounds.{CodesFit, RowFitsList};
    ghost use Rattle.book.specs.Found.{FirstBad, column_ok};

    // 7: the first byte of the field list that is no number of codes.
    pub(crate) fn bad_count(self) -> Option<usize>
        ensures { FirstBad (reading.count_ok self.entry.bytes.now) self.entry.list (self.entry.list + self.entry.fields) result }
    {
        let book = self.bytes;
        (self.list..self.list + self.fields).find(|&i| !count_ok(book, i))
    }

    // 10: the first of a table's field numbers that is too large or not rising.
    pub(crate) fn bad_field(self, first: usize, end: usize) -> Option<usize>
        requires { (first ≤ end) × (end ≤ length self.bytes.now) }
        ensures { FirstBad (reading.field_ok self.entry.bytes.now self.entry.fields first) first end result }
    {
        // The least number that rises: one above the number before it, and any number is right at first.
        // (b) Carried along, and not looked up at the place before: a search that did so took up to 1.3 times as long on tables without rows.
        let mut least = 0;
        for i in first..end {
            let field = byte(self.bytes, i);
            if self.fields <= field {
                return Some(i);
            }
            if field < least {
                return Some(i);
            }
            least = field + 1;
        }
        None
    }

    // The first column of a row whose code is too large for the field in it.
    fn bad_column(self, fields: &[u8], row: &[u8]) -> Option<usize>
        requires { RowFitsList self.bytes.now self.list fields.now row.now }
        ensures { FirstBad (column_ok self.entry.bytes.now self.entry.list fields.now row.now) 0 (length row.now) result }
    {
        let Body { bytes, list, .. } = self;
        row.iter()
            .zip(fields)
            .position(|(code, field)| bytes[list + usize::from(*field)] <= *code)
    }

    // The number of codes of the field whose number stands at i.
    fn codes_of(self, i: usize) -> u8
        requires { (i < length self.bytes.now) × (self.list + format.byte self.bytes.now i < length self.bytes.now) }
        ensures { result ≡ format.byte self.entry.bytes.now (self.entry.list + format.byte self.entry.bytes.now i) }
    {
        self.bytes[self.list + byte(self.bytes, i)]
    }

    // 11 of a table of one column, whose field's number stands at first.
    // (b) A search of its own: row by row, books of such tables took up to 1.45 times as long to open.
    fn bad_code_of_one(self, first: usize, start: usize, end: usize) -> Option<usize>
        requires { CodesFit self.bytes.now self.list first 1 start end }
        ensures { FirstBad (code_ok self.entry.bytes.now self.entry.list first 1 start) start end result }
    {
        let book = self.bytes;
        let codes = self.codes_of(first);
        (start..end).find(|&i| codes <= book[i])
    }

    // 11 of rows of arity codes one after another, row by row. (b) Not inlined: beside the tests of a table's head the compiler no longer takes the
    // codes of a row together, and opening took up to twice as long.
    #[inline(never)]
    fn bad_code_in_rows(self, first: usize, arity: usize, start: usize, end: usize) -> Option<usize>
        requires { CodesFit self.bytes.now self.list first arity start end }
        ensures { FirstBad (code_ok self.entry.bytes.now self.entry.list first arity start) start end result }
    {
        let fields = &self.bytes[first..first + arity];
        for (r, row) in self.bytes[start..end].chunks_exact(arity).enumerate() {
            if let Some(column) = self.bad_column(fields, row) {
                return Some(start + r * arity + column);
            }
        }
        None
    }

    // 11: the first code that is too large, in rows of arity codes from start on; the fields of the columns stand from first on.
    // (d) Places and a number of columns: the rows are those of a table that is being tested, and no `Table` yet.
    pub(crate) fn bad_code(
        self,
        first: usize,
        arity: usize,
        start: usize,
        end: usize,
    ) -> Option<usize>
        requires { CodesFit self.bytes.now self.list first arity start end }
        ensures { FirstBad (code_ok self.entry.bytes.now self.entry.list first arity start) start end result }
    {
        if arity == 1 {
            return self.bad_code_of_one(first, start, end);
        }
        // (b) Without rows nothing is cut into them, which takes a division: 64 tables without rows took 1.4 times as long to open.
        if end <= start {
            return None;
        }
        self.bad_code_in_rows(first, arity, start, end)
    }
}
