// What the calls on a sheet hand back.
ghost use Rattle.std.specs.Prelude.{◌≡◌, []};
ghost use Rattle.sheet.specs.Shown.{shown_nothing, result_of, read_result};

use super::{Reason, Sheet};

// The answer of a call, or why it is turned down, beside the sheet that it hands back.
#[derive(Clone, Copy)]
pub struct Handed<T> {
    pub answer: Result<T, Reason>,
    pub sheet: Sheet,
}

// The answer of alternatives: how many there are, and how many codes the pass struck.
#[derive(Clone, Copy)]
pub struct Alternatives {
    pub total: usize,
    pub struck: u32,
}

// The answer of nearest: in how many fields the reading written differs from the answers, and its number of bytes.
#[derive(Clone, Copy)]
pub struct Suggestion {
    pub differing: usize,
    pub written: usize,
}

impl Handed<()> {
    // The answer of a call that reads a stored form. It is given no sheet: a refusal hands back a fresh one.
    pub fn loaded(read: Result<Sheet, Reason>) -> Handed<()>
        ensures { result_of shown_nothing result [] ≡ read_result read }
    {
        match read {
            Ok(sheet) => Handed {
                answer: Ok(()),
                sheet,
            },
            Err(reason) => Handed {
                answer: Err(reason),
                sheet: Sheet::fresh(),
            },
        }
    }
}
