// The inner question: which row supports a mark that still looks for one.
ghost use Rattle.std.specs.Prelude.{◌≡◌, ◌-◌, ◌≤◌};
ghost use Rattle.format.specs.Format.{table_at};
ghost use Rattle.filter.specs.Support.{first_from, row_cases};

use super::WORDS;
use super::column::Column;
use book::CODES;

// A row that supports its own code, with the cases in which it does.
#[derive(Clone, Copy)]
pub(crate) struct Found {
    pub(crate) row: usize,
    pub(crate) cases: u64,
}

// The first row at or after `from` that supports its own code in the column in at least one of the cases that need[code] asks
// for, with those cases. A row is given up at its first code that is struck in every case still asked for.
pub(crate) fn support(
    column: Column,
    marks: &[u64; WORDS],
    need: &[u64; CODES],
    from: usize,
) -> Option<Found>
    requires { from ≤ column.table.rows }
    ensures { result ≡ first_from (column.entry.table.rows - from) from (row_cases marks.now need.now (table_at column.entry.table.bytes.now column.entry.table.at) column.entry.j) }
{
    let Column { table, j } = column;
    let fields = table.fields();
    // (d) By number, since the row found is told by it, and the search goes on behind it.
    'rows: for r in from..table.rows {
        let row = table.row(r);
        let mut cases = need[usize::from(row[j])];
        if cases == 0 {
            continue 'rows;
        }
        // (d) By number, since a walk is no plainer: column j is left out, and the field and the code stand apart.
        for k in 0..table.arity {
            if k != j {
                let f = usize::from(fields[k]);
                let code = usize::from(row[k]);
                cases &= marks[f * CODES + code];
                if cases == 0 {
                    continue 'rows;
                }
            }
        }
        return Some(Found { row: r, cases });
    }
    None
}
