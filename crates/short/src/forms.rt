// What the bytes of a short form say: three bytes an entry, then the two of the trailer.
ghost use Rattle.std.specs.Prelude.{◌≡◌, true, ◌&&◌, leb, ltb};
ghost use Rattle.format.specs.Format.{book_of};
ghost use Rattle.calls.specs.Short.{is_short, code_fault, sheet_from_short};
ghost use Rattle.sheet.specs.Shown.{held_by};
ghost use Rattle.sheet.specs.Opened.{fault_at};
ghost use Rattle.short.specs.Forms.{IsForm};

use super::ENTRY;
use book::Book;
use sheet::Sheet;

// An entry's field is one of the book's and stands behind those before it, and its photographed byte is 0 or 1.
fn entry_ok(low: usize, fields: usize, field: usize, photographed: u8) -> bool
    ensures { result ≡ (leb low field && (ltb field fields && leb photographed 1)) }
{
    low <= field && field < fields && photographed <= 1
}

// Whether the bytes are a short form under a book of this many fields: where not, 24.
pub(crate) fn is_short(form: &[u8], fields: usize) -> bool
    ensures { result ≡ is_short fields 0 0 form.now }
{
    let (entries, trailer) = form.as_chunks::<ENTRY>();
    let mut low = 0;
    for &[f, _, photographed] in entries {
        let field = usize::from(f);
        if !entry_ok(low, fields, field, photographed) {
            return false;
        }
        low = field + 1;
    }
    match trailer {
        [answers, counts] => {
            usize::from(*answers) == entries.len() && usize::from(*counts) == fields
        }
        _ => false,
    }
}

// The first field of a short form whose code is none of its codes.
pub(crate) fn code_fault(book: Book<'_>, form: &[u8]) -> Option<usize>
    requires { is_short book.fields 0 0 form.now ≡ true }
    ensures { result ≡ fault_at (code_fault (book_of book.entry.bytes.now) form.now) }
{
    let (entries, _) = form.as_chunks::<ENTRY>();
    entries
        .iter()
        .find(|&&[f, code, _]| book.codes(usize::from(f)) <= code)
        .map(|&[f, _, _]| usize::from(f))
}

// The sheet that a short form says.
pub(crate) fn said(form: &[u8]) -> Sheet
    requires { IsForm form.now }
    ensures { held_by result ≡ sheet_from_short form.now }
{
    let (entries, _) = form.as_chunks::<ENTRY>();
    let mut sheet = Sheet::fresh();
    for &[f, code, photographed] in entries {
        let field = usize::from(f);
        sheet.answers[field] = code;
        sheet.photographed[field] = photographed == 1;
    }
    sheet
}
