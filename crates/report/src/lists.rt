// Writing the lines of alternatives and of open codes. (d) As in page.rt: the contract has the room, and `write!` would answer a Result.
ghost use Rattle.std.specs.Prelude.{◌++◌, ◌≡◌, ◌≤◌, length};
ghost use Rattle.sheet.specs.Lists.{codes_of, lines_for};
ghost use Rattle.report.specs.Text.{lines_text};
ghost use Rattle.report.specs.Writes.{HasRoom, pair_lines, open_in};

use super::page::Page;
use book::NO_ANSWER;
use sheet::MaskCodes;

impl Page {
    // A line for each pair of field and code.
    pub(crate) fn put_pairs(&mut self, word: &[u8], pairs: &[[u8; 2]])
        requires { HasRoom self.old (lines_text word.now (pair_lines pairs.now)) }
        ensures { self.new ≡ self.old ++ lines_text word.now (pair_lines pairs.now) }
    {
        for &[field, code] in pairs {
            self.put_line(word, &[usize::from(field), usize::from(code)]);
        }
    }

    // A line for each code of a field's mask.
    fn put_masked(&mut self, word: &[u8], field: usize, mask: u32)
        requires { HasRoom self.old (lines_text word.now (lines_for field (codes_of mask))) }
        ensures { self.new ≡ self.old ++ lines_text word.now (lines_for field (codes_of mask)) }
    {
        for code in (MaskCodes { left: mask }) {
            self.put_line(word, &[field, code]);
        }
    }

    // The lines of the unanswered fields.
    pub(crate) fn put_open(&mut self, word: &[u8], masks: &[u32], answers: &[u8])
        requires fit { length answers.now ≤ length masks.now }
        requires room { HasRoom self.old (lines_text word.now (open_in masks.now answers.now (length answers.now))) }
        ensures { self.new ≡ self.old ++ lines_text word.now (open_in masks.now answers.now (length answers.now)) }
    {
        for (field, (&answer, &mask)) in answers.iter().zip(masks).enumerate() {
            if answer == NO_ANSWER {
                self.put_masked(word, field, mask);
            }
        }
    }
}
