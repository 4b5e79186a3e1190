// Which modules of a group give items, as sets of bits, and their kept rows in row order.
#![tactic(auto)]

pub mod kept;

ghost use Rattle.std.specs.Prelude.{ℕ, ◌≤◌, ◌<◌, ◌≡◌, not, ◌&&◌, ◌||◌, length};
ghost use Rattle.rules.specs.Lists.{any, elem};
ghost use Rattle.rules.specs.Project.{Project, module_limit, item_row, import_row, pair_rows};
ghost use Rattle.rules.specs.Items.{keeps_row_order};
ghost use Rattle.lists.specs.Bits.{bit};
ghost use Rattle.giving.specs.Giving.{Members, is_importer, is_giver, giving_of, ImportersBelow, ItemsBelow, ImportersShown};

use arrayvec::ArrayVec;
use lists::bits;
use project::reader::Reader;
use project::sections::{ImportRow, ItemRow};
use project::{Layout, ModuleId};

// The modules that import. One function for this and the next would take a closure, with clauses longer than both.
pub fn importers(imports: &[u8]) -> u64
    requires { ImportersBelow (pair_rows import_row imports.now) }
    ensures { (m : ℕ) → bit result m ≡ any (is_importer m) (pair_rows import_row imports.now) }
{
    let mut set = 0;
    for row in Reader::<ImportRow>::new(imports) {
        set = bits::with(set, row.importer.0);
    }
    set
}

// The modules that have kept items.
pub fn givers(items: &[u8]) -> u64
    requires { ItemsBelow (pair_rows item_row items.now) }
    ensures { (m : ℕ) → bit result m ≡ any (is_giver m) (pair_rows item_row items.now) }
{
    let mut set = 0;
    for row in Reader::<ItemRow>::new(items) {
        if row.kind.is_kept() {
            set = bits::with(set, row.in_module.0);
        }
    }
    set
}

// Whether a module that is not used gives items.
fn gives(used: u64, givers: u64, m: ModuleId) -> bool
    requires { m.0 < module_limit }
    ensures { result ≡ (not (bit used m.0) && bit givers m.0) }
{
    !bits::has(used, m.0) && bits::has(givers, m.0)
}

// A set with the members of a group.
pub fn with_members(set: u64, members: &[u8]) -> u64
    requires { Members members.now }
    ensures { (m : ℕ) → bit result m ≡ (elem m members.now || bit set m) }
{
    let mut all = set;
    for &m in members {
        all = bits::with(all, m);
    }
    all
}

// Whether a group keeps its row order: it is one module, which does not import.
pub fn keeps_row_order(members: &[u8], importers: u64) -> bool
    requires { Members members.now }
    ensures { (p : Project) → ImportersShown p importers → result ≡ keeps_row_order p members.now }
{
    if members.len() != 1 {
        return false;
    }
    !bits::has(importers, members[0])
}

// The modules that give a group's items: its members that are not used and have any, last first.
pub fn giving_modules(
    members: &[u8],
    used: u64,
    givers: u64,
) -> ArrayVec<u8, { Layout::MODULE_ROOM }>
    requires { Members members.now }
    ensures { result.items ≡ giving_of used givers members.now }
{
    let mut modules = ArrayVec::new();
    for &m in members.iter().rev() {
        if gives(used, givers, ModuleId(m)) {
            modules.push(m);
        }
    }
    modules
}
