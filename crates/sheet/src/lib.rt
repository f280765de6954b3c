// The sheet and its calls. Document 01, "The sheet and its one pass" and "When a call is turned down"; document 02, M-104 to M-107 and M-110.
#![tactic(auto)]

ghost use Rattle.std.specs.Prelude.{◌≡◌, false, [], ℕ, ◌≤◌, get_or};
ghost use Rattle.consistency.specs.Counting.{any_below, how_many};
ghost use Rattle.consistency.specs.Consistency.{places, backed};
ghost use Rattle.consistency.specs.Counts.{answered};
ghost use Rattle.calls.specs.Calls.{fresh_sheet, replaces_backed, entered, withdrawn, photographed, cleared, filtered, alternatives, stored, loaded, row_behind, nearest_reading, debrief_plan};
ghost use Rattle.calls.specs.Histories.{calls_in, sheet_after};
ghost use Rattle.sheet.specs.Shown.{held_by, shown_nothing, shown_listing, shown_number, shown_reading, left, read_result, result_of, reply_of, first_answers};
ghost use Rattle.sheet.specs.Replayed.{Replayed};

use book::{Book, NO_ANSWER, PLACES};
use filter::WORDS;
use opened::has_code;

mod handed;
mod history;
mod lists;
mod mask_codes;
mod masks;
mod opened;
mod reasons;

pub use handed::{Alternatives, Handed, Suggestion};
pub use mask_codes::MaskCodes;
pub use reasons::Reason;

// The field to relax where `Sheet::filtered` relaxes none.
// (a) The definition of the call, document 01's, names the field by a number and none by 255, and so does the C interface.
pub const NONE_RELAXED: usize = 255;

// For each place the answered code, or `NO_ANSWER`, and whether a photograph backs the answer.
// (a) Bytes in two arrays: a stored sheet has one a field, C one for each answer and each photograph, and 14 tests several at a time.
// (a) There is no heap: each array has a place for each field of any book. What is said of one book takes the first of them, in this file and
// in `short`.
// (d) Answer and photograph of a place go side by side to the functions that look at both: a type of one place would be made of the two arrays only
// to be taken apart.
#[derive(Clone, Copy)]
pub struct Sheet {
    pub answers: [u8; PLACES],
    pub photographed: [bool; PLACES],
}

// Whether a code would take the place of a photographed answer: the code held, sent again, does not.
fn replaces_photographed(answer: u8, photographed: bool, code: usize) -> bool
    ensures { result ≡ replaces_backed answer photographed code }
{
    photographed && code != usize::from(answer)
}

// The calls, each beside the sheet that it hands back.
impl Sheet {
    // A sheet without answers, and so without photographs.
    pub fn fresh() -> Sheet
        ensures { held_by result ≡ fresh_sheet }
    {
        Sheet {
            answers: [NO_ANSWER; PLACES],
            photographed: [false; PLACES],
        }
    }

    // Takes all answers away, and their photographs. It reads no book: a sheet at fault becomes fresh.
    pub fn clear(self) -> Handed<()>
        ensures { result_of shown_nothing result [] ≡ cleared (held_by self) }
    {
        Handed {
            answer: Ok(()),
            sheet: Sheet::fresh(),
        }
    }

    // Answers a field, replacing an older answer but a photographed one.
    pub fn enter(mut self, book: &[u8], field: usize, code: usize) -> Handed<()>
        ensures { result_of shown_nothing result [] ≡ entered book.now (held_by self) field code }
    {
        let answer = self.set_answer(book, field, code);
        Handed {
            answer,
            sheet: self,
        }
    }

    // Takes the answer of a field away.
    pub fn withdraw(mut self, book: &[u8], field: usize) -> Handed<()>
        ensures { result_of shown_nothing result [] ≡ withdrawn book.now (held_by self) field }
    {
        let answer = self.take_answer(book, field);
        Handed {
            answer,
            sheet: self,
        }
    }

    // Backs the answer of a field by a photograph. Only clear takes it away again.
    pub fn photograph(mut self, book: &[u8], field: usize) -> Handed<()>
        ensures { result_of shown_nothing result [] ≡ photographed book.now (held_by self) field }
    {
        let answer = self.set_photograph(book, field);
        Handed {
            answer,
            sheet: self,
        }
    }

    // Plain filtering: a number for each field, bit c of it for code c. One field may be relaxed; `NONE_RELAXED` relaxes none.
    // (a) By a number and no option: the definition of the call, document 01's, names the field so, and none by 255, and C does too.
    pub fn filtered(self, book: &[u8], relaxed: usize, out: &mut [u32]) -> Handed<()>
        ensures { result_of shown_nothing result out.new ≡ filtered book.now (held_by self) relaxed out.old }
    {
        Handed {
            answer: self.write_filtered(book, relaxed, out),
            sheet: self,
        }
    }

    // The alternatives of all answered fields without a photograph in one pass: their number and the number struck, and their lines.
    pub fn alternatives(self, book: &[u8], out: &mut [u8]) -> Handed<Alternatives>
        ensures { result_of shown_listing result out.new ≡ alternatives book.now (held_by self) out.old }
    {
        Handed {
            answer: self.write_alternatives(book, out),
            sheet: self,
        }
    }

    // The row behind a code: the first row of a table that has the code in the field's column and only standing codes beside it, or none.
    pub fn row(self, book: &[u8], field: usize, code: usize, table: usize) -> Handed<Option<usize>>
        ensures { result_of shown_number result [] ≡ row_behind book.now (held_by self) field code table }
    {
        Handed {
            answer: self.find_row(book, field, code, table),
            sheet: self,
        }
    }

    // The nearest full reading that keeps the photographed answers, a byte for each field; or that there is none.
    pub fn nearest(self, book: &[u8], out: &mut [u8]) -> Handed<Option<Suggestion>>
        ensures { result_of shown_reading result out.new ≡ nearest_reading book.now (held_by self) out.old }
    {
        Handed {
            answer: self.write_nearest(book, out),
            sheet: self,
        }
    }

    // The debrief plan: the least number of questions of the list after which the target surely has at most one standing code; none where
    // three do not do.
    pub fn plan(self, book: &[u8], target: usize, questions: &[u8]) -> Handed<Option<usize>>
        ensures { result_of shown_number result [] ≡ debrief_plan book.now (held_by self) target questions.now }
    {
        Handed {
            answer: self.find_plan(book, target, questions),
            sheet: self,
        }
    }

    // Writes the stored form: the byte of each field.
    pub fn store(self, book: &[u8], out: &mut [u8]) -> Handed<()>
        ensures { result_of shown_nothing result out.new ≡ stored book.now (held_by self) out.old }
    {
        Handed {
            answer: self.write_stored(book, out),
            sheet: self,
        }
    }

    // Whether some field has a photograph. No place behind the fields of a sheet that passes 14 has one.
    // (d) By the number of fields, here and below, and not the book: where a form is moved to the other none is open.
    pub fn any_photographed(&self, fields: usize) -> bool
        requires { fields ≤ places }
        ensures { result ≡ any_below fields (backed (held_by self.now)) }
    {
        self.photographed[..fields].contains(&true)
    }

    // Writes the byte of each field, unless one has a photograph, and answers how many bytes these are.
    // (b) Inlined at both calls: else store took 22 instructions more, and moving a short form to the old one 17.
    #[inline(always)]
    pub fn hand_out_answers(&self, fields: usize, out: &mut [u8]) -> Result<usize, Reason>
        requires { fields ≤ places }
        ensures { reply_of result out.new ≡ first_answers fields (held_by self.now) out.old }
    {
        if self.any_photographed(fields) {
            return Err(Reason::Photographed);
        }
        Ok(book::hand_out(&self.answers[..fields], out)?)
    }

    // How many fields have an answer.
    pub fn count_answered(&self, fields: usize) -> usize
        requires { fields ≤ places }
        ensures { result ≡ how_many fields (answered (held_by self.now).answers) }
    {
        self.answers[..fields]
            .iter()
            .filter(|answer| **answer != NO_ANSWER)
            .count()
    }
}

// What the calls answer, and what they write.
impl Sheet {
    fn set_answer(&mut self, bytes: &[u8], field: usize, code: usize) -> Result<(), Reason>
        ensures { left shown_nothing result (held_by self.new) [] ≡ entered bytes.now (held_by self.old) field code }
    {
        let book = self.open(bytes)?;
        has_code(book, field, code)?;
        if replaces_photographed(self.answers[field], self.photographed[field], code) {
            return Err(Reason::Photographed);
        }
        self.answers[field] = code as u8;
        Ok(())
    }

    fn take_answer(&mut self, bytes: &[u8], field: usize) -> Result<(), Reason>
        ensures { left shown_nothing result (held_by self.new) [] ≡ withdrawn bytes.now (held_by self.old) field }
    {
        let book = self.open(bytes)?;
        self.has_answer(book, field)?;
        if self.photographed[field] {
            return Err(Reason::Photographed);
        }
        self.answers[field] = NO_ANSWER;
        Ok(())
    }

    fn set_photograph(&mut self, bytes: &[u8], field: usize) -> Result<(), Reason>
        ensures { left shown_nothing result (held_by self.new) [] ≡ photographed bytes.now (held_by self.old) field }
    {
        let book = self.open(bytes)?;
        self.has_answer(book, field)?;
        self.photographed[field] = true;
        Ok(())
    }

    fn write_filtered(&self, bytes: &[u8], relaxed: usize, out: &mut [u32]) -> Result<(), Reason>
        ensures { left shown_nothing result (held_by self.now) out.new ≡ filtered bytes.now (held_by self.now) relaxed out.old }
    {
        let book = self.open(bytes)?;
        if relaxed == NONE_RELAXED {
            return masks::write_masks(book, &self.answers, out);
        }
        self.has_answer(book, relaxed)?;
        let mut rest = self.answers;
        rest[relaxed] = NO_ANSWER;
        masks::write_masks(book, &rest, out)
    }

    fn write_alternatives(&self, bytes: &[u8], out: &mut [u8]) -> Result<Alternatives, Reason>
        ensures { left shown_listing result (held_by self.now) out.new ≡ alternatives bytes.now (held_by self.now) out.old }
    {
        let book = self.open(bytes)?;
        let mut marks = [0u64; WORDS];
        let struck = filter::one_pass(book, &self.answers, &self.photographed, &mut marks);
        let empty = filter::empty_cases(&marks, book.fields);
        // (a) There is no heap: a mask for each place, of which the book's fields take the first.
        let mut masks = [0; PLACES];
        lists::list(book, self, &marks, empty, &mut masks);
        let total = lists::total(&masks[..book.fields]);
        // (d) Not `book::hand_out`: the lines are made in the memory lent, so its room is tested before there are any.
        if out.len() < 2 * total {
            return Err(Reason::Room);
        }
        lists::write_lines(&masks[..book.fields], out);
        Ok(Alternatives { total, struck })
    }

    fn find_row(
        &self,
        bytes: &[u8],
        field: usize,
        code: usize,
        table: usize,
    ) -> Result<Option<usize>, Reason>
        ensures { left shown_number result (held_by self.now) [] ≡ row_behind bytes.now (held_by self.now) field code table }
    {
        let book = self.open(bytes)?;
        has_code(book, field, code)?;
        Ok(filter::supporting_row(book, &self.answers, field, code, table)?)
    }

    fn write_nearest(&self, bytes: &[u8], out: &mut [u8]) -> Result<Option<Suggestion>, Reason>
        ensures { left shown_reading result (held_by self.now) out.new ≡ nearest_reading bytes.now (held_by self.now) out.old }
    {
        let book = self.open(bytes)?;
        if nearest::too_many(book) {
            return Err(Reason::Readings);
        }
        // (d) Not `book::hand_out`: 18 comes before there being no reading, so the room is tested before a reading is there to be copied.
        if out.len() < book.fields {
            return Err(Reason::Room);
        }
        let Some(found) = nearest::search(book, &self.answers, &self.photographed) else {
            return Ok(None);
        };
        out[..book.fields].copy_from_slice(&found.reading[..book.fields]);
        Ok(Some(Suggestion {
            differing: found.differing,
            written: book.fields,
        }))
    }

    fn find_plan(
        &self,
        bytes: &[u8],
        target: usize,
        questions: &[u8],
    ) -> Result<Option<usize>, Reason>
        ensures { left shown_number result (held_by self.now) [] ≡ debrief_plan bytes.now (held_by self.now) target questions.now }
    {
        let book = self.open(bytes)?;
        if book.fields <= target {
            return Err(Reason::Field);
        }
        Ok(debrief::plan(book, &self.answers, target, questions)?)
    }

    fn write_stored(&self, bytes: &[u8], out: &mut [u8]) -> Result<(), Reason>
        ensures { left shown_nothing result (held_by self.now) out.new ≡ stored bytes.now (held_by self.now) out.old }
    {
        let book = self.open(bytes)?;
        self.hand_out_answers(book.fields, out)?;
        Ok(())
    }
}

// The sheet that a stored form says.
// (b) Inlined: else load took 16 instructions more, where with it it takes 36 fewer.
#[inline]
pub fn read(bytes: &[u8], form: &[u8]) -> Result<Sheet, Reason>
    ensures { read_result result ≡ loaded bytes.now form.now }
{
    let book = Book::open(bytes)?;
    if form.len() != book.fields {
        return Err(Reason::Length);
    }
    // (c) Not into the answers of a fresh sheet: of a field of a local struct that is lent in part the proof is not told what it then holds.
    let mut answers = [NO_ANSWER; PLACES];
    answers[..form.len()].copy_from_slice(form);
    let sheet = Sheet {
        answers,
        photographed: [false; PLACES],
    };
    sheet.has_no_fault(book)?;
    Ok(sheet)
}

// Reads the stored form of a sheet.
pub fn load(book: &[u8], form: &[u8]) -> Handed<()>
    ensures { result_of shown_nothing result [] ≡ loaded book.now form.now }
{
    Handed::loaded(read(book, form))
}

// Runs a list of calls from a fresh sheet, each on the sheet that the one before it handed back, then alternatives.
pub fn replay(book: &[u8], calls: &[u8], out: &mut [u8]) -> Handed<Alternatives>
    ensures answer { result_of shown_listing result out.new ≡ alternatives book.now (sheet_after book.now (calls_in calls.now)) out.old }
    ensures condition3 { Replayed book.now (calls_in calls.now) out.old (result_of shown_listing result out.new) }
{
    history::after(book, calls).alternatives(book, out)
}
