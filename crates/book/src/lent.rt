// Memory that a caller lends for an answer.
ghost use Rattle.std.specs.Prelude.{◌≡◌, ◌++◌, length, take, drop};
ghost use Rattle.book.specs.Lent.{HandedOut};

use super::refusals::Refuses;

// Less memory is lent than the answer takes.
#[derive(Clone, Copy)]
pub struct NoRoom;

impl Refuses for NoRoom {
    ghost number_of = { λ _. 18 };

    ghost place_of = { λ _. 0 };

    fn number(self) -> u64 {
        18
    }

    fn place(self) -> usize {
        0
    }
}

// Copies as many bytes as both have. What stands behind them in out stays.
pub fn copy(from: &[u8], out: &mut [u8])
    ensures { out.new ≡ take (length out.old) from.now ++ drop (length from.now) out.old }
{
    let n = from.len().min(out.len());
    out[..n].copy_from_slice(&from[..n]);
}

// Copies the answer to the front of the memory lent, which stays as it is where it is too short. Tells how many elements these are.
// (a) An answer is made elsewhere and copied whole, since the memory is the caller's and a refusal leaves it.
pub fn hand_out<T: Copy>(answer: &[T], lent: &mut [T]) -> Result<usize, NoRoom>
    ensures { HandedOut answer.now lent.old lent.new result }
{
    let n = answer.len();
    if lent.len() < n {
        return Err(NoRoom);
    }
    lent[..n].copy_from_slice(answer);
    Ok(n)
}
