// The kept rows of modules in row order. A place goes along with `out`, since rows stand there already; it is counted by hand, since not each row is kept.
ghost use Rattle.std.specs.Prelude.{ℕ, ◌+◌, ◌≤◌, ◌<◌, length};
ghost use Rattle.rules.specs.Project.{Project, module_limit};
ghost use Rattle.rules.specs.Items.{kept_rows_of, given_rows};
ghost use Rattle.laws.specs.Counting.{Below};
ghost use Rattle.split.specs.Rows.{RowsOf, RowsAmong};
ghost use Rattle.giving.specs.Giving.{Stored};

use project::ModuleId;
use project::sections::{ItemRow, Row};
use split::rows::ItemRows;

// Writes the kept rows of a module to `out` from `start` on; the place behind them.
fn write_kept(items: &ItemRows, m: ModuleId, out: &mut [u8], start: usize) -> usize
    requires { (p : Project) × RowsOf p m.0 items.now × (m.0 < module_limit) × (start + length (kept_rows_of p m.0) ≤ length out.old) }
    ensures { (p : Project) → RowsOf p m.0 items.now → Stored (kept_rows_of p m.0) start out.old out.new result }
{
    let mut n = start;
    for row in items.rows_of(m) {
        if ItemRow::nth(items.section, row).kind.is_kept() {
            out[n] = row as u8;
            n += 1;
        }
    }
    n
}

// The same for each of some modules.
pub fn write_given(items: &ItemRows, modules: &[u8], out: &mut [u8], start: usize) -> usize
    requires { (p : Project) × RowsAmong p modules.now items.now × Below module_limit modules.now × (start + length (given_rows p modules.now) ≤ length out.old) }
    ensures { (p : Project) → RowsAmong p modules.now items.now → Stored (given_rows p modules.now) start out.old out.new result }
{
    let mut n = start;
    for &m in modules {
        n = write_kept(items, ModuleId(m), out, n);
    }
    n
}
