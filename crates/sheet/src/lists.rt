// The alternatives that the marks of a pass show, as a mask for each place: how many they are, and their lines.
ghost use Rattle.std.specs.Prelude.{◌≡◌, ◌*◌, ◌≤◌, ◌<◌, ◌++◌, length, drop, replicate};
ghost use Rattle.format.specs.Format.{code_limit, book_of};
ghost use Rattle.consistency.specs.Consistency.{places};
ghost use Rattle.consistency.specs.Counts.{line_bytes};
ghost use Rattle.sheet.specs.Shown.{held_by};
ghost use Rattle.sheet.specs.Lists.{codes_of, lines_for, listed_masks, lines_in, Passed};

use super::{MaskCodes, Sheet};
use book::{Book, PLACES};
use filter::{WORDS, in_doubt};

// The own case of the first field in doubt, behind the case with nothing relaxed.
const FIRST_OWN: u64 = 1;

// Writes the codes listed for each place, in masks that are 0: those that stand in its field's own case, if that leaves no field empty. A field
// that is not in doubt has none. `marks` are those of the one pass, and `empty` its cases in which some field is empty.
// (b) Written where they are lent: handed back they are copied twice, and alternatives took 0.56 µs on 3 fields, 1.78 on 60, for 0.46, 1.52.
pub(crate) fn list(
    book: Book<'_>,
    sheet: &Sheet,
    marks: &[u64; WORDS],
    empty: u64,
    masks: &mut [u32; PLACES],
)
    requires passed { Passed book.bytes.now (held_by sheet.now) marks.now empty book.list book.fields }
    requires zeros { masks.old ≡ replicate places 0 }
    ensures { masks.new ≡ listed_masks (book_of book.entry.bytes.now) (held_by sheet.now) }
{
    for (f, k) in (0..book.fields)
        .filter(|&f| in_doubt(sheet.answers[f], sheet.photographed[f]))
        .zip(FIRST_OWN..)
    {
        if (empty >> k) % 2 == 0 {
            masks[f] = filter::standing_codes(marks, k, f, usize::from(book.codes(f)));
        }
    }
}

// The number of alternatives, by the masks of the book's fields.
pub(crate) fn total(masks: &[u32]) -> usize
    requires { length masks.now ≤ places }
    ensures { (result ≡ length (lines_in masks.now)) × (result ≤ places * code_limit) }
{
    let mut sum = 0;
    for mask in masks {
        sum += mask.count_ones() as usize;
    }
    sum
}

// Writes the lines of field f, whose codes are those of the mask, from the first byte on. Answers how many bytes they are.
// (b) Not inlined: else the functions behind `alternatives` begin 16 bytes off a boundary of 32, and storing on book A took 1.3 times as long. The
// call itself costs nothing that shows.
#[inline(never)]
fn write_field(mask: u32, f: usize, out: &mut [u8]) -> usize
    requires { (f < places) × (2 * length (codes_of mask) ≤ length out.old) }
    ensures { (result ≡ 2 * length (codes_of mask)) × (out.new ≡ line_bytes (lines_for f (codes_of mask)) ++ drop (2 * length (codes_of mask)) out.old) }
{
    // (d) The place is counted along, since it is the answer: how many codes a mask has is not handed on.
    // (b) Two stores: by `copy_from_slice` of both bytes alternatives on 60 fields took 25,646 instructions, and 25,454 with these.
    let mut next = 0;
    for c in (MaskCodes { left: mask }) {
        out[next] = f as u8;
        out[next + 1] = c as u8;
        next += 2;
    }
    next
}

// Writes all lines, from the first byte on.
pub(crate) fn write_lines(masks: &[u32], out: &mut [u8])
    requires places { length masks.now ≤ places }
    requires room { 2 * length (lines_in masks.now) ≤ length out.old }
    ensures { out.new ≡ line_bytes (lines_in masks.now) ++ drop (2 * length (lines_in masks.now)) out.old }
{
    // (d) The place is counted along: a field's lines begin where those before it end.
    let mut at = 0;
    for (f, mask) in masks.iter().enumerate() {
        at += write_field(*mask, f, &mut out[at..]);
    }
}
