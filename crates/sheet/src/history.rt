// A list of calls, three bytes a call, each run on the sheet that the one before it handed back.
ghost use Rattle.std.specs.Prelude.{◌≡◌, []};
ghost use Rattle.calls.specs.Histories.{add_call, calls_in, sheet_through, sheet_after};
ghost use Rattle.sheet.specs.Shown.{held_by};

use super::Sheet;

// The sheet that one call hands back, accepted or refused. Kind 0 enters, 1 withdraws, 2 clears, 3 photographs; any other is no call.
// (a) By a byte, since a stored list of calls has the call as one.
fn called(sheet: Sheet, book: &[u8], kind: u8, field: u8, code: u8) -> Sheet
    ensures { held_by result ≡ sheet_through book.now (held_by sheet) (add_call kind field code []) }
{
    match kind {
        0 => sheet
            .enter(book, usize::from(field), usize::from(code))
            .sheet,
        1 => sheet.withdraw(book, usize::from(field)).sheet,
        2 => sheet.clear().sheet,
        3 => sheet.photograph(book, usize::from(field)).sheet,
        _ => sheet,
    }
}

// The sheet after all calls, from a fresh one. Bytes behind the last whole call are none.
pub(crate) fn after(book: &[u8], calls: &[u8]) -> Sheet
    ensures { held_by result ≡ sheet_after book.now (calls_in calls.now) }
{
    let mut sheet = Sheet::fresh();
    for &[kind, field, code] in calls.as_chunks::<3>().0 {
        sheet = called(sheet, book, kind, field, code);
    }
    sheet
}
