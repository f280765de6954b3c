// The short stored form of a sheet: sheets loaded from it and stored in it, and moved between it and the old form. Document 02, M-108.
#![tactic(auto)]

ghost use Rattle.std.specs.Prelude.{◌≡◌, []};
ghost use Rattle.calls.specs.Short.{loaded_short, stored_short, shortened, lengthened};
ghost use Rattle.sheet.specs.Shown.{held_by, shown_nothing, shown_form, left, read_result, result_of, reply_of};

use book::{Book, PLACES};
use sheet::{Handed, Reason, Sheet};

mod entries;
mod forms;

// The bytes of an entry: its field, its code, and whether it is photographed.
const ENTRY: usize = 3;

// The bytes behind the entries: the number of answers, and that of fields.
const TRAILER: usize = 2;

// The most bytes of a form: an entry for each place, and the trailer.
pub const FORM_BYTES: usize = ENTRY * PLACES + TRAILER;

// The sheet that a short form says.
fn read(bytes: &[u8], form: &[u8]) -> Result<Sheet, Reason>
    ensures { read_result result ≡ loaded_short bytes.now form.now }
{
    let book = Book::open(bytes)?;
    if !forms::is_short(form, book.fields) {
        return Err(Reason::Form);
    }
    match forms::code_fault(book, form) {
        Some(field) => Err(Reason::Fault(field)),
        None => Ok(forms::said(form)),
    }
}

// Reads the short form of a sheet, photographs included.
pub fn load(book: &[u8], form: &[u8]) -> Handed<()>
    ensures { result_of shown_nothing result [] ≡ loaded_short book.now form.now }
{
    Handed::loaded(read(book, form))
}

// Writes the short form of a sheet, and answers how many bytes it has.
fn write(sheet: &Sheet, bytes: &[u8], out: &mut [u8]) -> Result<usize, Reason>
    ensures { left shown_form result (held_by sheet.now) out.new ≡ stored_short bytes.now (held_by sheet.now) out.old }
{
    let book = sheet.open(bytes)?;
    entries::put(sheet, book.fields, out)
}

// Writes the short form of a sheet, photographs included.
pub fn store(sheet: Sheet, book: &[u8], out: &mut [u8]) -> Handed<usize>
    ensures { result_of shown_form result out.new ≡ stored_short book.now (held_by sheet) out.old }
{
    Handed {
        answer: write(&sheet, book, out),
        sheet,
    }
}

// Moves an old form to the short one. A form that loads has a byte a field.
pub fn shorten(book: &[u8], form: &[u8], out: &mut [u8]) -> Result<usize, Reason>
    ensures { reply_of result out.new ≡ shortened book.now form.now out.old }
{
    let sheet = sheet::read(book, form)?;
    entries::put(&sheet, form.len(), out)
}

// Moves a short form to the old one. A form that loads ends in its number of fields.
pub fn lengthen(book: &[u8], form: &[u8], out: &mut [u8]) -> Result<usize, Reason>
    ensures { reply_of result out.new ≡ lengthened book.now form.now out.old }
{
    let sheet = read(book, form)?;
    let fields = usize::from(form[form.len() - 1]);
    sheet.hand_out_answers(fields, out)
}
