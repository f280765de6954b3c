// Calls the library at its limits and one beyond, and prints a line for each answer.
#![tactic(auto)]

mod bytes;
mod lines;

use book::{BOOK_LIMIT, CODES, FIELDS_OF_VERSION_1, PLACES, ROW_LIMIT, TABLE_LIMIT};
use bytes::{BYTES, Sets, Shape, Written, first, first_mut};
use lines::{Line, say, show};
use report::{PAIR_BYTES, TEXT_LIMIT};
use sheet::Sheet;
use std::io;

// The numbers of a listing of as many fields and as many links without rows.
const LISTING: usize = 3 + 5 * PLACES;

// One more than a stored sheet may have.
const FORM_BYTES: usize = PLACES + 1;

// Reading a book of this shape.
fn try_book(rt: &HostRuntime, name: &str, tried: usize, shape: Shape) -> io::Result<()> {
    say(rt, name, tried, book::read(Written::new(shape).bytes()))
}

// Each limit of a book, and one beyond it.
fn try_books(rt: &HostRuntime) -> io::Result<()> {
    for version in [0, 1, 2, 3] {
        let shape = Shape {
            version,
            ..Shape::LEAST
        };
        try_book(rt, "version", usize::from(version), shape)?;
    }
    for (name, version, most) in [
        ("version 1, fields", 1, FIELDS_OF_VERSION_1),
        ("version 2, fields", 2, PLACES),
    ] {
        for fields in [most, most + 1] {
            let shape = Shape {
                version,
                fields: fields as u8,
                ..Shape::LEAST
            };
            try_book(rt, name, fields, shape)?;
        }
    }
    for codes in [CODES, CODES + 1] {
        let shape = Shape {
            codes: codes as u8,
            ..Shape::LEAST
        };
        try_book(rt, "codes", codes, shape)?;
    }
    Ok(())
}

// Each limit of a book's tables, and of its bytes.
fn try_tables(rt: &HostRuntime) -> io::Result<()> {
    for tables in [TABLE_LIMIT, TABLE_LIMIT + 1] {
        let shape = Shape {
            tables: tables as u8,
            ..Shape::LEAST
        };
        try_book(rt, "tables", tables, shape)?;
    }
    for rows in [ROW_LIMIT, ROW_LIMIT + 1] {
        let shape = Shape {
            tables: 1,
            rows: rows as u16,
            ..Shape::LEAST
        };
        try_book(rt, "rows", rows, shape)?;
    }
    for length in [BYTES - 1, BYTES] {
        let zeros = [0; BYTES];
        say(rt, "length", length, book::read(first(&zeros, length)))?;
    }
    Ok(())
}

// Loading a stored sheet of so many bytes for the widest book, all 0 but for a code at one place.
fn try_stored(rt: &HostRuntime, widest: &[u8]) -> io::Result<()> {
    for (stored, place, code) in [
        (PLACES - 1, 0, 0),
        (PLACES, 0, 0),
        (PLACES, PLACES - 1, CODES as u8),
        (PLACES + 1, 0, 0),
    ] {
        let mut form = [0; FORM_BYTES];
        if let Some(byte) = form.get_mut(place) {
            *byte = code;
        }
        let loaded = sheet::load(widest, first(&form, stored));
        say(rt, "stored", stored, loaded.answer)?;
    }
    Ok(())
}

// Calls on a sheet of the widest book that is answered 0 everywhere: so many bytes lent for its alternatives, the field photographed
// before they are listed, and so many bytes lent for its short form.
fn try_held(rt: &HostRuntime, widest: &[u8], held: Sheet) -> io::Result<()> {
    let mut pairs = [0; PAIR_BYTES];
    for lent in [PAIR_BYTES, PAIR_BYTES - 1] {
        let listed = held.alternatives(widest, first_mut(&mut pairs, lent));
        say(rt, "lent", lent, listed.answer)?;
    }
    for field in [PLACES - 1, PLACES] {
        let backed = held.photograph(widest, field);
        let listed = backed
            .answer
            .and_then(|()| backed.sheet.alternatives(widest, &mut pairs).answer);
        say(rt, "photograph", field, listed)?;
    }
    for lent in [short::FORM_BYTES, short::FORM_BYTES - 1] {
        let mut form = [0; short::FORM_BYTES];
        let stored = short::store(held, widest, first_mut(&mut form, lent));
        say(rt, "short form, lent", lent, stored.answer)?;
    }
    Ok(())
}

// Calls on a fresh sheet: the row behind the only code in that table of a book with the most tables, each of one row; and the nearest
// reading in a book of so many fields of two codes and no tables.
fn try_fresh(rt: &HostRuntime) -> io::Result<()> {
    let fresh = Sheet::fresh();
    let full = Written::new(Shape {
        tables: TABLE_LIMIT as u8,
        rows: 1,
        ..Shape::LEAST
    });
    for table in [TABLE_LIMIT - 1, TABLE_LIMIT] {
        say(
            rt,
            "table",
            table,
            fresh.row(full.bytes(), 0, 0, table).answer,
        )?;
    }
    for fields in [16, 17] {
        let book = Written::new(Shape {
            fields,
            codes: 2,
            ..Shape::LEAST
        });
        let mut reading = [0; PLACES];
        let suggested = fresh.nearest(book.bytes(), &mut reading);
        say(
            rt,
            "fields of two codes",
            usize::from(fields),
            suggested.answer,
        )?;
    }
    Ok(())
}

// A plan for the last of eight fields of two codes, without a table: so many of the others may be asked, and none tells of it.
fn try_plans(rt: &HostRuntime) -> io::Result<()> {
    let book = Written::new(Shape {
        fields: 8,
        codes: 2,
        ..Shape::LEAST
    });
    let others = [0, 1, 2, 3, 4, 5, 6];
    for listed in [6, 7] {
        let plan = Sheet::fresh().plan(book.bytes(), 7, first(&others, listed));
        say(rt, "questions", listed, plan.answer.map(Line::Questions))?;
    }
    Ok(())
}

// Joining two books on other sets of fields. The first has 57 tables and 3,648 rows, so that 7 tables and 448 rows are left to the second;
// with both the joined book is the longest.
fn try_joined(rt: &HostRuntime) -> io::Result<()> {
    let first = Written::with_sets(Sets {
        tables: 57,
        others: [57, 58, 59],
        rows: 64,
    });
    for (name, tried, tables, rows, lent) in [
        ("joined, tables", TABLE_LIMIT, 7, 0, BOOK_LIMIT),
        ("joined, tables", TABLE_LIMIT + 1, 8, 0, BOOK_LIMIT),
        ("joined, rows", ROW_LIMIT, 1, 448, BOOK_LIMIT),
        ("joined, rows", ROW_LIMIT + 1, 1, 449, BOOK_LIMIT),
        ("joined, lent", BOOK_LIMIT, 7, 64, BOOK_LIMIT),
        ("joined, lent", BOOK_LIMIT - 1, 7, 64, BOOK_LIMIT - 1),
    ] {
        let second = Written::with_sets(Sets {
            tables,
            others: [56, 58, 59],
            rows,
        });
        let mut out = [0; BOOK_LIMIT];
        let joined = joining::join(first.bytes(), second.bytes(), first_mut(&mut out, lent));
        say(rt, name, tried, joined)?;
    }
    Ok(())
}

// Tree books: a path through the most fields, and the ring that one link more closes; then the listing of either, with so many bytes lent.
fn try_trees(rt: &HostRuntime) -> io::Result<()> {
    for links in [PLACES - 1, PLACES] {
        let book = Written::with_links(links as u8);
        say(rt, "tree, links", links, trees::read_tree(book.bytes()))?;
    }
    for (links, lent) in [(PLACES - 1, 361), (PLACES - 1, 360), (PLACES, 366)] {
        let book = Written::with_links(links as u8);
        let mut numbers = [0; LISTING];
        let count = listing::show(book.bytes(), &mut numbers).unwrap_or(0);
        let mut out = [0; BOOK_LIMIT];
        let written = trees::write_tree(&numbers[..count.min(LISTING)], first_mut(&mut out, lent));
        say(rt, "tree, lent", lent, written)?;
    }
    Ok(())
}

// Printing the widest book and a sheet that is answered 0 everywhere, with so many bytes lent.
fn try_text(rt: &HostRuntime, widest: &[u8], form: &[u8]) -> io::Result<()> {
    let mut text = [0; TEXT_LIMIT];
    for lent in [18315, 18314] {
        let size = report::report(widest, form, first_mut(&mut text, lent));
        show(rt, "text", lent, size.map_or(Line::TooShort, Line::Written))?;
    }
    Ok(())
}

fn main(rt: HostRuntime) -> io::Result<()> {
    let rt = &rt;
    let widest = Written::new(Shape::WIDEST);
    let widest = widest.bytes();
    let form = [0; PLACES];
    try_books(rt)?;
    try_tables(rt)?;
    try_stored(rt, widest)?;
    try_held(rt, widest, sheet::load(widest, &form).sheet)?;
    try_fresh(rt)?;
    try_plans(rt)?;
    try_joined(rt)?;
    try_trees(rt)?;
    try_text(rt, widest, &form)
}
