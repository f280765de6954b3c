// A sheet as the bytes that a caller holds: the answers, then for each place whether it has a photograph.
ghost use Rattle.std.specs.Prelude.{◌≡◌};
ghost use Rattle.sheet.specs.Shown.{held_by};
ghost use Rattle.sighting.specs.Exported.{sheet_in, Holds};

use book::PLACES;
use sheet::Sheet;
use std::array::from_fn;

// A byte for each answer and one for each photograph.
pub(crate) const SHEET_BYTES: usize = 2 * PLACES;

// The sheet that a caller's bytes hold.
pub(crate) fn held(bytes: [u8; SHEET_BYTES]) -> Sheet
    ensures { held_by result ≡ sheet_in bytes }
{
    Sheet {
        answers: from_fn(|p| bytes[p]),
        photographed: from_fn(|p| bytes[PLACES + p] != 0),
    }
}

// Writes the bytes that hold a sheet.
// (a) Into the bytes that C lends: its interface has a sheet so, and there is no heap.
pub(crate) fn put(sheet: Sheet, bytes: &mut [u8; SHEET_BYTES])
    ensures { Holds bytes.new (held_by sheet) }
{
    let photographs: [u8; PLACES] = from_fn(|p| u8::from(sheet.photographed[p]));
    let (answers, flags) = bytes.split_at_mut(PLACES);
    answers.copy_from_slice(&sheet.answers);
    flags.copy_from_slice(&photographs);
}
