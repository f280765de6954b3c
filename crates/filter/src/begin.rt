// The marks that a question's pass begins from: what stands before it, in a case for each code of the field that is asked.
ghost use Rattle.std.specs.Prelude.{◌≡◌, ◌<◌, eqb};
ghost use Rattle.format.specs.Format.{code_limit, book_of};
ghost use Rattle.filter.specs.Words.{no_marks, FieldWords};
ghost use Rattle.filter.specs.Asked.{begun_word, Begun};

use super::WORDS;
use super::fields::Field;
use book::{Book, CODES, PLACES};

// The word that code c of a field begins with, where the field's standing codes are the bits of `standing`: all cases where c stands, but
// of the field that is asked c's own case alone.
fn begun_word(standing: u32, c: usize, cases: u32, asked: bool) -> u64
    requires { c < code_limit }
    ensures { result ≡ begun_word standing c cases asked }
{
    if (standing >> c) % 2 == 0 {
        return 0;
    }
    if asked { 1 << c } else { u64::from(cases) }
}

// The words of the codes of a field.
fn lay(marks: &mut [u64; WORDS], field: Field, standing: u32, cases: u32, asked: bool)
    ensures { FieldWords marks.old marks.new field.number field.codes (λ c. begun_word standing c cases asked) }
{
    let at = field.number * CODES;
    for (c, word) in marks[at..at + field.codes].iter_mut().enumerate() {
        *word = begun_word(standing, c, cases, asked);
    }
}

// The marks of what stands, in words that are 0: case c, for each code c of field q that stands, has all of it but q's other codes.
pub(crate) fn begin(book: Book, standing: &[u32; PLACES], q: usize, marks: &mut [u64; WORDS])
    requires field { q < book.fields }
    requires clear { marks.old ≡ no_marks }
    ensures { Begun (book_of book.entry.bytes.now) standing.now q marks.new }
{
    let cases = standing[q];
    // (d) By number, since a walk is no plainer: a field's codes stand in the book, and which of them in an array.
    for number in 0..book.fields {
        let field = Field {
            number,
            codes: usize::from(book.codes(number)),
        };
        lay(marks, field, standing[number], cases, number == q);
    }
}
