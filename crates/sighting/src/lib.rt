// The library for other languages: each call of the crates below, exported with numbers, slices and arrays alone.
// A sheet is an array of a byte for each answer and then one for each photograph. A call that changes it writes it whole where it is accepted,
// and no byte of it where it is refused; one that hands it back as given only reads it, so that it may be shared. A call returns its outcome's
// number, 0 where it is accepted, and writes the place and the counts into the cells lent for them. A field, a code or a table is any number:
// one that the book lacks has its refusal.
// (a) The exports are alike but for the call that each makes: C has no generics, and each name is one of the interface.
#![tactic(auto)]

ghost use Rattle.std.specs.Prelude.{◌≡◌, ◌≢◌, ◌↔◌, []};
ghost use Rattle.format.specs.Layout.{HasLayout};
ghost use Rattle.format.specs.Reading.{reading};
ghost use Rattle.format.specs.Writing.{into, showing, writing};
ghost use Rattle.format.specs.WriteAndShow.{HasListing};
ghost use Rattle.format.specs.Trees.{tree_reading, tree_writing};
ghost use Rattle.format.specs.Joining as model;
ghost use Rattle.calls.specs.Calls.{fresh_sheet, cleared, entered, withdrawn, photographed, filtered, alternatives, loaded, stored, row_behind, nearest_reading, debrief_plan};
ghost use Rattle.calls.specs.Short.{loaded_short, stored_short, shortened, lengthened};
ghost use Rattle.calls.specs.Histories.{sheet_after, calls_in};
ghost use Rattle.report.specs.Text.{report_text};
ghost use Rattle.sheet.specs.Replayed.{Replayed};
ghost use Rattle.sighting.specs.Exported.{sheet_in, sheet_bytes, bytes_after, Tells, Exports, Replies, result_told};

use handed::{change, hand, tell};
use sheet::Sheet;
use sheets::{SHEET_BYTES, held, put};

mod handed;
mod sheets;

// Reads a book. Cells: place, fields, tables, rows written, different rows.
#[unsafe(no_mangle)]
pub extern "C" fn sighting_read(book: &[u8], outcome: &mut [u64; 5]) -> u64
    ensures answer { Tells result outcome.new (reading book.now) }
    ensures layout { result ≡ 0 ↔ HasLayout book.now }
{
    tell(book::read(book), outcome)
}

// Shows a book's listing. Cells: place, numbers written.
#[unsafe(no_mangle)]
pub extern "C" fn sighting_show(book: &[u8], out: &mut [u16], outcome: &mut [u64; 2]) -> u64
    ensures { Replies result outcome.new out.new (showing book.now out.old) }
{
    tell(listing::show(book, out), outcome)
}

// Writes the bytes of the book that a listing says. Cells: place, bytes written.
#[unsafe(no_mangle)]
pub extern "C" fn sighting_write(listing: &[u16], out: &mut [u8], outcome: &mut [u64; 2]) -> u64
    ensures answer { Replies result outcome.new out.new (writing listing.now out.old) }
    ensures listing { result ≢ 20 ↔ HasListing listing.now }
{
    tell(listing::write(listing, out), outcome)
}

// Reads a tree book. Cells: place, fields, tables, rows written, different rows.
#[unsafe(no_mangle)]
pub extern "C" fn sighting_read_tree(book: &[u8], outcome: &mut [u64; 5]) -> u64
    ensures { Tells result outcome.new (tree_reading book.now) }
{
    tell(trees::read_tree(book), outcome)
}

// Writes the bytes of the tree book that a listing says. Cells: place, bytes written.
#[unsafe(no_mangle)]
pub extern "C" fn sighting_write_tree(
    listing: &[u16],
    out: &mut [u8],
    outcome: &mut [u64; 2],
) -> u64
    ensures { Replies result outcome.new out.new (tree_writing listing.now out.old) }
{
    tell(trees::write_tree(listing, out), outcome)
}

// Makes the sheet a fresh one.
#[unsafe(no_mangle)]
pub extern "C" fn sighting_fresh(sheet: &mut [u8; SHEET_BYTES])
    ensures { sheet.new ≡ sheet_bytes fresh_sheet }
{
    put(Sheet::fresh(), sheet);
}

// Takes all answers away, and their photographs.
#[unsafe(no_mangle)]
pub extern "C" fn sighting_clear(sheet: &mut [u8; SHEET_BYTES])
    ensures { sheet.new ≡ sheet_bytes (cleared (sheet_in sheet.old)).sheet }
{
    let given = held(*sheet);
    put(given.clear().sheet, sheet);
}

// Answers a field. Cells: place.
#[unsafe(no_mangle)]
pub extern "C" fn sighting_enter(
    sheet: &mut [u8; SHEET_BYTES],
    book: &[u8],
    field: usize,
    code: usize,
    outcome: &mut [u64; 1],
) -> u64
    ensures answer { Exports result outcome.new sheet.new [] (entered book.now (sheet_in sheet.old) field code) }
    ensures bytes { sheet.new ≡ bytes_after sheet.old (entered book.now (sheet_in sheet.old) field code) }
{
    let given = held(*sheet);
    change(given.enter(book, field, code), sheet, outcome)
}

// Takes the answer of a field away. Cells: place.
#[unsafe(no_mangle)]
pub extern "C" fn sighting_withdraw(
    sheet: &mut [u8; SHEET_BYTES],
    book: &[u8],
    field: usize,
    outcome: &mut [u64; 1],
) -> u64
    ensures answer { Exports result outcome.new sheet.new [] (withdrawn book.now (sheet_in sheet.old) field) }
    ensures bytes { sheet.new ≡ bytes_after sheet.old (withdrawn book.now (sheet_in sheet.old) field) }
{
    let given = held(*sheet);
    change(given.withdraw(book, field), sheet, outcome)
}

// Backs the answer of a field by a photograph. Cells: place.
#[unsafe(no_mangle)]
pub extern "C" fn sighting_photograph(
    sheet: &mut [u8; SHEET_BYTES],
    book: &[u8],
    field: usize,
    outcome: &mut [u64; 1],
) -> u64
    ensures answer { Exports result outcome.new sheet.new [] (photographed book.now (sheet_in sheet.old) field) }
    ensures bytes { sheet.new ≡ bytes_after sheet.old (photographed book.now (sheet_in sheet.old) field) }
{
    let given = held(*sheet);
    change(given.photograph(book, field), sheet, outcome)
}

// Plain filtering with one answer relaxed, or none for 255. Cells: place.
#[unsafe(no_mangle)]
pub extern "C" fn sighting_filtered(
    sheet: &[u8; SHEET_BYTES],
    book: &[u8],
    relaxed: usize,
    out: &mut [u32],
    outcome: &mut [u64; 1],
) -> u64
    ensures { Exports result outcome.new sheet.now out.new (filtered book.now (sheet_in sheet.now) relaxed out.old) }
{
    let given = held(*sheet);
    tell(given.filtered(book, relaxed, out).answer, outcome)
}

// The alternatives of the answered fields without a photograph. Cells: place, total, struck.
#[unsafe(no_mangle)]
pub extern "C" fn sighting_alternatives(
    sheet: &[u8; SHEET_BYTES],
    book: &[u8],
    out: &mut [u8],
    outcome: &mut [u64; 3],
) -> u64
    ensures { Exports result outcome.new sheet.now out.new (alternatives book.now (sheet_in sheet.now) out.old) }
{
    let given = held(*sheet);
    tell(given.alternatives(book, out).answer, outcome)
}

// The row of a table behind a code of a field. Cells: place, found, row.
#[unsafe(no_mangle)]
pub extern "C" fn sighting_row(
    sheet: &[u8; SHEET_BYTES],
    book: &[u8],
    field: usize,
    code: usize,
    table: usize,
    outcome: &mut [u64; 3],
) -> u64
    ensures { Exports result outcome.new sheet.now [] (row_behind book.now (sheet_in sheet.now) field code table) }
{
    let given = held(*sheet);
    tell(given.row(book, field, code, table).answer, outcome)
}

// The nearest full reading, written one byte a field. Cells: place, found, differing, written.
#[unsafe(no_mangle)]
pub extern "C" fn sighting_nearest(
    sheet: &[u8; SHEET_BYTES],
    book: &[u8],
    out: &mut [u8],
    outcome: &mut [u64; 4],
) -> u64
    ensures { Exports result outcome.new sheet.now out.new (nearest_reading book.now (sheet_in sheet.now) out.old) }
{
    let given = held(*sheet);
    tell(given.nearest(book, out).answer, outcome)
}

// The least number of questions of a list that settle a target. Cells: place, found, questions.
#[unsafe(no_mangle)]
pub extern "C" fn sighting_plan(
    sheet: &[u8; SHEET_BYTES],
    book: &[u8],
    target: usize,
    questions: &[u8],
    outcome: &mut [u64; 3],
) -> u64
    ensures { Exports result outcome.new sheet.now [] (debrief_plan book.now (sheet_in sheet.now) target questions.now) }
{
    let given = held(*sheet);
    tell(given.plan(book, target, questions).answer, outcome)
}

// Reads the stored form of a sheet; a refusal leaves a fresh one. Cells: place.
#[unsafe(no_mangle)]
pub extern "C" fn sighting_load(
    sheet: &mut [u8; SHEET_BYTES],
    book: &[u8],
    form: &[u8],
    outcome: &mut [u64; 1],
) -> u64
    ensures answer { Exports result outcome.new sheet.new [] (loaded book.now form.now) }
    ensures bytes { sheet.new ≡ sheet_bytes (loaded book.now form.now).sheet }
{
    hand(sheet::load(book, form), sheet, outcome)
}

// Writes the stored form of a sheet. Cells: place.
#[unsafe(no_mangle)]
pub extern "C" fn sighting_store(
    sheet: &[u8; SHEET_BYTES],
    book: &[u8],
    out: &mut [u8],
    outcome: &mut [u64; 1],
) -> u64
    ensures { Exports result outcome.new sheet.now out.new (stored book.now (sheet_in sheet.now) out.old) }
{
    let given = held(*sheet);
    tell(given.store(book, out).answer, outcome)
}

// Reads the short form of a sheet, photographs included; a refusal leaves a fresh one. Cells: place.
#[unsafe(no_mangle)]
pub extern "C" fn sighting_load_short(
    sheet: &mut [u8; SHEET_BYTES],
    book: &[u8],
    form: &[u8],
    outcome: &mut [u64; 1],
) -> u64
    ensures answer { Exports result outcome.new sheet.new [] (loaded_short book.now form.now) }
    ensures bytes { sheet.new ≡ sheet_bytes (loaded_short book.now form.now).sheet }
{
    hand(short::load(book, form), sheet, outcome)
}

// Writes the short form of a sheet, photographs included. Cells: place, bytes written.
#[unsafe(no_mangle)]
pub extern "C" fn sighting_store_short(
    sheet: &[u8; SHEET_BYTES],
    book: &[u8],
    out: &mut [u8],
    outcome: &mut [u64; 2],
) -> u64
    ensures { Exports result outcome.new sheet.now out.new (stored_short book.now (sheet_in sheet.now) out.old) }
{
    let given = held(*sheet);
    tell(short::store(given, book, out).answer, outcome)
}

// Moves the stored form of a sheet to the short form. Cells: place, bytes written.
#[unsafe(no_mangle)]
pub extern "C" fn sighting_shorten(
    book: &[u8],
    form: &[u8],
    out: &mut [u8],
    outcome: &mut [u64; 2],
) -> u64
    ensures { Replies result outcome.new out.new (shortened book.now form.now out.old) }
{
    tell(short::shorten(book, form, out), outcome)
}

// Moves the short form of a sheet without photographs to the stored form. Cells: place, bytes written.
#[unsafe(no_mangle)]
pub extern "C" fn sighting_lengthen(
    book: &[u8],
    form: &[u8],
    out: &mut [u8],
    outcome: &mut [u64; 2],
) -> u64
    ensures { Replies result outcome.new out.new (lengthened book.now form.now out.old) }
{
    tell(short::lengthen(book, form, out), outcome)
}

// Joins two books. Cells: place, bytes written.
#[unsafe(no_mangle)]
pub extern "C" fn sighting_join(
    first: &[u8],
    second: &[u8],
    out: &mut [u8],
    outcome: &mut [u64; 2],
) -> u64
    ensures { Replies result outcome.new out.new (model.joining first.now second.now out.old) }
{
    tell(joining::join(first, second, out), outcome)
}

// A list of calls from a fresh sheet, then the alternatives of the sheet so reached, which is handed back. Cells: place, total, struck.
#[unsafe(no_mangle)]
pub extern "C" fn sighting_replay(
    sheet: &mut [u8; SHEET_BYTES],
    book: &[u8],
    calls: &[u8],
    out: &mut [u8],
    outcome: &mut [u64; 3],
) -> u64
    ensures answer { Exports result outcome.new sheet.new out.new (alternatives book.now (sheet_after book.now (calls_in calls.now)) out.old) }
    ensures bytes { sheet.new ≡ sheet_bytes (sheet_after book.now (calls_in calls.now)) }
    ensures condition3 { Replayed book.now (calls_in calls.now) out.old (result_told result outcome.new sheet.new out.new) }
{
    hand(sheet::replay(book, calls, out), sheet, outcome)
}

// The text that the desk prints for a book and a stored sheet; 18 where it does not fit. Cells: place, length.
#[unsafe(no_mangle)]
pub extern "C" fn sighting_report(
    book: &[u8],
    form: &[u8],
    out: &mut [u8],
    outcome: &mut [u64; 2],
) -> u64
    ensures { Replies result outcome.new out.new (into (report_text book.now form.now) out.old) }
{
    tell(report::report(book, form, out), outcome)
}
