// A field of a book, as the words of marks know it.
ghost use Rattle.std.specs.Prelude.{◌≤◌, ◌<◌};
ghost use Rattle.format.specs.Format.{code_limit};
ghost use Rattle.consistency.specs.Consistency.{places};

// A field's number, which has a place on a sheet, and its number of codes.
#[derive(Clone, Copy)]
pub(crate) struct Field {
    pub(crate) number: usize,
    pub(crate) codes: usize,
    pub(crate) ghost place: { number < places },
    pub(crate) ghost few: { codes ≤ code_limit },
}
