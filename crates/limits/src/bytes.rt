// Books of a chosen shape, laid out byte by byte.
ghost use Rattle.std.specs.Prelude.{◌≡◌, ◌≤◌, take};
ghost use Rattle.limits.specs.declared.bytes.TheConstants.{BYTES};

use book::{CODES, LENGTH_LIMIT, PLACES, trailer};

// One byte more than is read as a book.
pub(crate) const BYTES: usize = LENGTH_LIMIT + 1;

// A book's version, its fields, each of so many codes, and its tables on field 0, with so many rows of code 0 each.
#[derive(Clone, Copy)]
pub(crate) struct Shape {
    pub(crate) version: u8,
    pub(crate) fields: u8,
    pub(crate) codes: u8,
    pub(crate) tables: u8,
    pub(crate) rows: u16,
}

impl Shape {
    // One field of one code, and no table.
    pub(crate) const LEAST: Shape = Shape {
        version: 1,
        fields: 1,
        codes: 1,
        tables: 0,
        rows: 0,
    };

    // The most fields and the most codes, and no table.
    pub(crate) const WIDEST: Shape = Shape {
        version: 2,
        fields: PLACES as u8,
        codes: CODES as u8,
        ..Shape::LEAST
    };
}

// Tables on as many sets of four fields: on 0, on 1 and so on, each with these three others. Each has so many rows, which differ where they
// are at most 1,024.
#[derive(Clone, Copy)]
pub(crate) struct Sets {
    pub(crate) tables: u8,
    pub(crate) others: [u8; 3],
    pub(crate) rows: u16,
}

// The first n bytes, or all where there are fewer.
// (d) Twins, this function and the next: Rust has no one function for both kinds of reference. A buffer and a number: a caller has the number
// at hand, since it prints it, and a range would be made of it for this call alone.
pub(crate) fn first(bytes: &[u8], n: usize) -> &[u8]
    ensures { result.now ≡ take n bytes.now }
{
    &bytes[..n.min(bytes.len())]
}

// The same, lent for writing.
pub(crate) fn first_mut(bytes: &mut [u8], n: usize) -> &mut [u8] {
    // (d) Its length stands apart: within the index, the bytes would be lent twice.
    let n = n.min(bytes.len());
    &mut bytes[..n]
}

// Bytes written one behind another, as far as there is room.
// (a) They stand first in an array, since there is no heap.
// (d) Beside the `Page` of `report`, whose functions ask for room in clauses: these put functions drop what has none, and nothing is asked.
#[derive(Drop)]
pub(crate) struct Written {
    buffer: [u8; BYTES],
    len: usize,
    ghost within: { len ≤ BYTES },
}

impl Written {
    fn empty() -> Written {
        Written {
            buffer: [0; BYTES],
            len: 0,
        }
    }

    // A book of this shape.
    pub(crate) fn new(shape: Shape) -> Written {
        let mut book = Written::empty();
        for _ in 0..shape.tables {
            book.put_all(&[1, 0]);
            book.put_pair(shape.rows);
            book.put_many(0, shape.rows);
        }
        book.put_end(shape);
        book
    }

    // The widest book with these tables.
    pub(crate) fn with_sets(sets: Sets) -> Written {
        let mut book = Written::empty();
        for field in 0..sets.tables {
            book.put_all(&[4, field]);
            book.put_all(&sets.others);
            book.put_pair(sets.rows);
            book.put_rows(sets.rows);
        }
        book.put_end(Shape {
            tables: sets.tables,
            ..Shape::WIDEST
        });
        book
    }

    // So many links without rows, on the most fields: each field is linked to the next, and the last one to field 0.
    pub(crate) fn with_links(links: u8) -> Written {
        let mut book = Written::empty();
        for field in 0..links {
            let next = (field + 1) % PLACES as u8;
            book.put_all(&[2, field.min(next), field.max(next), 0, 0]);
        }
        book.put_end(Shape {
            tables: links,
            ..Shape::WIDEST
        });
        book
    }

    pub(crate) fn bytes(&self) -> &[u8] {
        &self.buffer[..self.len]
    }

    fn put(&mut self, byte: u8) {
        if self.len < BYTES {
            self.buffer[self.len] = byte;
            self.len += 1;
        }
    }

    fn put_many(&mut self, byte: u8, count: u16) {
        for _ in 0..count {
            self.put(byte);
        }
    }

    fn put_all(&mut self, bytes: &[u8]) {
        for &byte in bytes {
            self.put(byte);
        }
    }

    // A two-byte number, the low byte first.
    fn put_pair(&mut self, number: u16) {
        self.put_all(&number.to_le_bytes());
    }

    // So many rows of four codes.
    fn put_rows(&mut self, rows: u16) {
        let codes = CODES as u16;
        for row in 0..rows {
            self.put_all(&[0, 0, (row / codes % codes) as u8, (row % codes) as u8]);
        }
    }

    // Behind the tables: the field list and the trailer of a book of this shape.
    fn put_end(&mut self, shape: Shape) {
        let list = self.len as u16;
        self.put_many(shape.codes, u16::from(shape.fields));
        self.put_all(&trailer(list, shape.fields, shape.tables, shape.version));
    }
}
