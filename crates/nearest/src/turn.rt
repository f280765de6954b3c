// How far a search has come: the codes chosen so far, and the nearest full reading so far.
ghost use Rattle.std.specs.Prelude.{◌≡◌, not, ◌&&◌, eqb, ltb};
ghost use Rattle.format.specs.Basics.{pick};
ghost use Rattle.nearest.specs.Asks.{nearer};

use book::{NO_ANSWER, PLACES};

// A full reading, and in how many fields it differs from the answers.
#[derive(Clone, Copy)]
pub struct Found {
    pub reading: [u8; PLACES],
    pub differing: usize,
}

// The codes of the fields below f, how many of them differ, and the nearest reading so far.
// (a) The codes stand first in an array, of which the first f count, since there is no heap.
#[derive(Clone, Copy)]
pub(crate) struct Turn {
    pub(crate) reading: [u8; PLACES],
    pub(crate) f: usize,
    pub(crate) differing: usize,
    pub(crate) best: Option<Found>,
}

// 1 where the field has an answer and this is another code, else 0.
pub(crate) fn apart(answer: u8, code: u8) -> usize
    ensures { result ≡ pick (not (eqb answer 255) && not (eqb code answer)) 1 0 }
{
    usize::from(answer != NO_ANSWER && code != answer)
}

// Whether a photographed answer would be another: the field makes one more differ.
pub(crate) fn loses(photographed: bool, differing: usize, more: usize) -> bool
    ensures { result ≡ (photographed && ltb differing more) }
{
    photographed && differing < more
}

// Whether a reading in which so many fields differ is nearer than the best.
pub(crate) fn nearer(differing: usize, best: &Option<Found>) -> bool
    ensures { result ≡ nearer differing best.now }
{
    match best {
        Some(found) => differing < found.differing,
        None => true,
    }
}
