// The parts of the text: the line of a refusal, the book's line, and the sheet's line with the lists behind it. (d) Put as in page.rt.
ghost use Rattle.std.specs.Prelude.{◌≡◌, ◌++◌, ◌≤◌, length};
ghost use Rattle.report.specs.Text.{refused_text};
ghost use Rattle.report.specs.Writes.{HasRoom, book_text, sheet_part};

use super::page::Page;
use book::{Counts, Refuses};

impl Page {
    // "refused", number, place.
    pub(crate) fn put_refused<E: Refuses + Copy>(&mut self, refused: E)
        requires { HasRoom self.old (refused_text (E.number_of refused) (E.place_of refused)) }
        ensures { self.new ≡ self.old ++ refused_text (E.number_of refused) (E.place_of refused) }
    {
        let number = refused.number() as usize;
        self.put_line(b"refused", &[number, refused.place()]);
    }

    // "book", fields, tables, rows written, different rows.
    pub(crate) fn put_book(&mut self, counts: Counts)
        requires { HasRoom self.old (book_text counts) }
        ensures { self.new ≡ self.old ++ book_text counts }
    {
        let Counts {
            fields,
            tables,
            rows,
            different,
        } = counts;
        self.put_line(b"book", &[fields, tables, rows, different]);
    }

    // "sheet", answered fields, total, struck; then the lines of alternatives and the open lines.
    pub(crate) fn put_sheet(
        &mut self,
        answered: usize,
        answers: &[u8],
        pairs: &[[u8; 2]],
        struck: usize,
        masks: &[u32],
    )
        requires fit { length answers.now ≤ length masks.now }
        requires room { HasRoom self.old (sheet_part answered answers.now pairs.now struck masks.now) }
        ensures { self.new ≡ self.old ++ sheet_part answered answers.now pairs.now struck masks.now }
    {
        self.put_line(b"sheet", &[answered, pairs.len(), struck]);
        self.put_pairs(b"alt", pairs);
        self.put_open(b"open", masks, answers);
    }
}
