// What a call answers and the sheet that it hands back, put where the caller lent room for them.
ghost use Rattle.std.specs.Prelude.{◌≡◌, ◌-◌, ◌<◌, List, [], ◌∷◌, ℕ};
ghost use Rattle.book.specs.Shown.{counted};
ghost use Rattle.sheet.specs.Shown.{shown_nothing, shown_listing, shown_number, shown_reading, result_of};
ghost use Rattle.sighting.specs.Exported.{Tells, Changes, Makes};
ghost use Rattle.sighting.specs.Told.{told, handed_by};

use super::sheets::{SHEET_BYTES, put};
use book::{Counts, Refuses};
use sheet::{Alternatives, Handed, Suggestion};

// What an accepted call counts, in the cells that are lent for its outcome. The first is the place, and 0.
// (a) Numbers, also for none and for some: the C interface has neither options nor structs of its own.
pub(crate) trait Cells<const N: usize> {
    ghost counts: { Self → List ℕ };

    fn cells(self) -> [u64; N]
        ensures { result ≡ 0 ∷ counts self };
}

impl Cells<1> for () {
    ghost counts = { λ _. [] };

    fn cells(self) -> [u64; 1] {
        [0]
    }
}

// How many elements were written.
impl Cells<2> for usize {
    ghost counts = { λ count. count ∷ [] };

    fn cells(self) -> [u64; 2] {
        [0, self as u64]
    }
}

impl Cells<3> for Alternatives {
    ghost counts = { shown_listing.of };

    fn cells(self) -> [u64; 3] {
        let Alternatives { total, struck } = self;
        [0, total as u64, struck as u64]
    }
}

// Whether there is a row, and its number; or whether there is a plan, and its number of questions.
impl Cells<3> for Option<usize> {
    ghost counts = { shown_number.of };

    fn cells(self) -> [u64; 3] {
        match self {
            Some(number) => [0, 1, number as u64],
            None => [0, 0, 0],
        }
    }
}

// Whether there is a reading, its number of differing fields, and the bytes written.
impl Cells<4> for Option<Suggestion> {
    ghost counts = { shown_reading.of };

    fn cells(self) -> [u64; 4] {
        match self {
            Some(Suggestion { differing, written }) => [0, 1, differing as u64, written as u64],
            None => [0, 0, 0, 0],
        }
    }
}

impl Cells<5> for Counts {
    ghost counts = { counted };

    fn cells(self) -> [u64; 5] {
        let Counts {
            fields,
            tables,
            rows,
            different,
        } = self;
        [
            0,
            fields as u64,
            tables as u64,
            rows as u64,
            different as u64,
        ]
    }
}

// Returns an answer's number, 0 where it is accepted, and writes its place and its counts.
// (a) A number and cells and no `Result`, since C has none.
pub(crate) fn tell<T: Cells<N>, E: Refuses + Copy, const N: usize>(
    answer: Result<T, E>,
    outcome: &mut [u64; N],
) -> u64
    requires { 0 < N }
    ensures { Tells result outcome.new (told T.counts E.number_of E.place_of (N - 1) answer) }
{
    match answer {
        Ok(counted) => {
            *outcome = counted.cells();
            0
        }
        Err(refused) => {
            outcome.fill(0);
            outcome[0] = refused.place() as u64;
            refused.number()
        }
    }
}

// The answer of a call that changes a sheet, and the sheet where it is accepted. A refusal leaves every byte of it.
pub(crate) fn change(
    handed: Handed<()>,
    sheet: &mut [u8; SHEET_BYTES],
    outcome: &mut [u64; 1],
) -> u64
    ensures { Changes result outcome.new sheet.old sheet.new (result_of shown_nothing handed []) }
{
    let number = tell(handed.answer, outcome);
    if handed.answer.is_ok() {
        put(handed.sheet, sheet);
    }
    number
}

// The answer and the sheet of a call that makes the sheet; whatever the buffer holds.
pub(crate) fn hand<T: Cells<N>, const N: usize>(
    handed: Handed<T>,
    sheet: &mut [u8; SHEET_BYTES],
    outcome: &mut [u64; N],
) -> u64
    requires { 0 < N }
    ensures { (o : List ℕ) → Makes result outcome.new sheet.new o (handed_by T.counts (N - 1) handed o) }
{
    put(handed.sheet, sheet);
    tell(handed.answer, outcome)
}
