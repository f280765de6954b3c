// The whole text that the desk prints. Document 01, "Examples to hold".
#![tactic(auto)]

ghost use Rattle.std.specs.Prelude.{◌≡◌, ◌++◌, []};
ghost use Rattle.format.specs.Format.{book_of};
ghost use Rattle.format.specs.Writing.{into};
ghost use Rattle.sheet.specs.Shown.{held_by};
ghost use Rattle.report.specs.Text.{sheet_text, report_text};
ghost use Rattle.report.specs.Report.{shown};
ghost use Rattle.report.specs.Writes.{HasRoom};
ghost use Rattle.report.specs.Held.{Stands, Told};

use book::{CODES, Counts, PLACES};
use sheet::{Alternatives, NONE_RELAXED, Reason, Sheet};

mod lists;
mod page;
mod parts;

use page::Page;

// Why a text is not written: fewer bytes are lent than it has.
pub use book::NoRoom;

// No text is longer: the lines of the book and of the sheet, and a line for each code.
pub const TEXT_LIMIT: usize = 21 + 21 + 11 * (PLACES * CODES);

// As many alternatives as a book has codes, two bytes each.
pub const PAIR_BYTES: usize = 2 * (PLACES * CODES);

// What is counted in the book, and the sheet: both pass, or the first refusal says why not.
fn accept(book: &[u8], form: &[u8]) -> Result<(Counts, Sheet), Reason>
    ensures { Told book.now form.now result }
{
    let counts = book::read(book)?;
    let held = sheet::read(book, form)?;
    Ok((counts, held))
}

// The sheet's line, the lines of alternatives and the open lines, of a book and a sheet that pass.
// (d) It takes the number of fields, which is counted already: to open the book for it once more is no plainer.
#[tactic(auto, using(crate::proofs::HeldTexts::fields_fit))]
fn put_held(page: &mut Page, book: &[u8], held: Sheet, fields: usize)
    requires stands { Stands book.now (held_by held) fields }
    requires room { HasRoom page.old (sheet_text (held_by held) (book_of book.now)) }
    ensures { page.new ≡ page.old ++ sheet_text (held_by held) (book_of book.now) }
{
    let mut pairs = [0; PAIR_BYTES];
    let mut masks = [0; PLACES];
    let listed = held.alternatives(book, &mut pairs);
    held.filtered(book, NONE_RELAXED, &mut masks);
    // The book and the sheet pass, and there is room for all pairs: it is never a refusal.
    let Alternatives { total, struck } = listed.answer.unwrap();
    // (a) There is no heap: sheet and lists have room for any book, and what this one has is taken of them.
    let answered = held.count_answered(fields);
    let answers = &held.answers[..fields];
    let (pairs, _) = pairs.as_chunks();
    page.put_sheet(answered, answers, &pairs[..total], struck as usize, &masks);
}

// Writes the whole text on an empty page.
fn put_text(page: &mut Page, book: &[u8], form: &[u8])
    requires { page.old ≡ [] }
    ensures { page.new ≡ report_text book.now form.now }
{
    match accept(book, form) {
        Err(refused) => page.put_refused(refused),
        Ok((counts, held)) => {
            page.put_book(counts);
            put_held(page, book, held, counts.fields);
        }
    }
}

// Prints what the desk says of a book and of a stored sheet, and answers the text's length. A text that does not fit is not written.
pub fn report(book: &[u8], form: &[u8], out: &mut [u8]) -> Result<usize, NoRoom>
    ensures { shown result out.new ≡ into (report_text book.now form.now) out.old }
{
    let mut page = Page::new();
    put_text(&mut page, book, form);
    book::hand_out(page.text(), out)
}
