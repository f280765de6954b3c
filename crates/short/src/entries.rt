// The short form of a sheet, written where there is room for it.
ghost use Rattle.std.specs.Prelude.{◌≡◌, ◌≤◌};
ghost use Rattle.std.proofs.lemmas.List.Edits.{sets};
ghost use Rattle.format.specs.Writing.{into};
ghost use Rattle.consistency.specs.Consistency.{places};
ghost use Rattle.calls.specs.Short.{entries_of, short_of};
ghost use Rattle.sheet.specs.Shown.{held_by, reply_of};
ghost use Rattle.short.specs.Forms.{Fits};

use super::{ENTRY, TRAILER};
use book::NO_ANSWER;
use sheet::{Reason, Sheet};

// An entry for each answered field, from the first byte on.
// (a) There is no heap: a sheet has a place for each field of any book, and this one's are the first.
fn write_entries(sheet: &Sheet, fields: usize, out: &mut [u8])
    requires { Fits fields (held_by sheet.now) out.old }
    ensures { out.new ≡ sets out.old 0 (entries_of fields (held_by sheet.now)) }
{
    // (d) The place is counted along: only an answered field has an entry, and a walk over the places of those would have to be cut to their number.
    // (b) The photograph is read by number: walked beside the answers, storing 60 of them took some 230 instructions more than the 1,785 with this.
    let mut next = 0;
    for (field, &code) in sheet.answers[..fields].iter().enumerate() {
        if code != NO_ANSWER {
            let photographed = u8::from(sheet.photographed[field]);
            out[next..next + ENTRY].copy_from_slice(&[field as u8, code, photographed]);
            next += ENTRY;
        }
    }
}

// 18, or the form.
// (d) No formatter of the library writes such a layout, and where an old form is moved no book is open to be taken. Not `book::hand_out`: the form
// is made in the memory lent, so its room is tested before it is there.
pub(crate) fn put(sheet: &Sheet, fields: usize, out: &mut [u8]) -> Result<usize, Reason>
    requires { fields ≤ places }
    ensures { reply_of result out.new ≡ into (short_of fields (held_by sheet.now)) out.old }
{
    let answers = sheet.count_answered(fields);
    let end = ENTRY * answers;
    let size = end + TRAILER;
    if out.len() < size {
        return Err(Reason::Room);
    }
    write_entries(sheet, fields, out);
    out[end..size].copy_from_slice(&[answers as u8, fields as u8]);
    Ok(size)
}
