// The item rows of a project chained by their modules, so that the rows of a module are found without a scan of all.
ghost use Rattle.std.specs.Prelude.{◌≡◌, ◌<◌, get_or};
ghost use Rattle.rules.specs.Project.{Project, module_limit, item_row, pair_rows};
ghost use Rattle.laws.specs.Accepted.{Accepted};

use lists::chains::{Chain, Chains};
use project::sections::{ItemRow, Row};
use project::{Layout, ModuleId};

// The rows' bytes, and the chain of each module's rows.
#[derive(Drop)]
pub struct ItemRows<'a> {
    pub section: &'a [u8],
    pub chains: Chains<{ Layout::MODULE_ROOM }, { Layout::ITEM_ROOM }>,
}

impl<'a> ItemRows<'a> {
    ghost use Rattle.split.specs.Rows.{RowsShown, RowsLinked};

    pub fn new(section: &'a [u8]) -> Self
        requires { (p : Project) × Accepted p × (p.items ≡ pair_rows item_row section.now) }
        ensures shown { (p : Project) → Accepted p → p.items ≡ pair_rows item_row section.now → RowsShown p result }
        ensures linked { RowsLinked result }
    {
        let mut chains = Chains::new();
        for row in (0..section.len() / ItemRow::BYTES).rev() {
            chains.put_first(usize::from(ItemRow::nth(section, row).in_module), row);
        }
        ItemRows { section, chains }
    }

    // The rows of a module, ascending.
    pub fn rows_of(&self, m: ModuleId) -> Chain<'_>
        requires { m.0 < module_limit }
        ensures next { result.next.now ≡ self.now.chains.next }
        ensures entry { result.entry ≡ get_or self.now.chains.heads m.0 0 }
    {
        self.chains.chain(usize::from(m))
    }
}
