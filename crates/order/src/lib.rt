// The groups of an order call, sorted in turn (toposort_real_modules).
#![tactic(auto)]

pub mod tables;
pub mod turns;

ghost use Rattle.std.specs.Prelude.{ℕ, ◌≤◌, ◌<◌, ◌≡◌, List, [], length};
ghost use Rattle.rules.specs.Project.{Project};
ghost use Rattle.rules.specs.Calls.{item_list_limit, order_groups};
ghost use Rattle.order.specs.Stops.{Going};
ghost use Rattle.order.specs.Orders.{Orderable, Ordered};

use giving;
use graph::rows::ROW_WORDS;
use owners::Owners;
use project::Layout;
use project::sections::{ItemRow, NeedRow, Row};
use split::rows::ItemRows;
use std::convert::Infallible;
use stmt::walk::ItemWalk;
use tables::SortTurns;
use turns::{Turn, Turns};
use walks::Stop;

// The sizes of the arrays for a project of usual size.
#[derive(Clone, Copy)]
pub struct Small;

impl Small {
    // The most items, and the bytes of their rows.
    pub const ITEMS: usize = 128;

    pub const ITEM_BYTES: usize = ItemRow::BYTES * Self::ITEMS;

    // The most needs, and the bytes of their rows.
    pub const NEEDS: usize = 512;

    pub const NEED_BYTES: usize = NeedRow::BYTES * Self::NEEDS;

    // A row of two words for each item.
    pub const MATRIX: usize = 2 * Self::ITEMS;

    // The entries of a list.
    pub const LIST: usize = 1024;
}

// The sizes of the arrays for any project.
#[derive(Clone, Copy)]
pub struct Large;

impl Large {
    // A row of bits for each item.
    pub const MATRIX: usize = ROW_WORDS * Layout::ITEM_ROOM;
}

impl<'a> SortTurns<'a> {
    // The turns of the groups from one on, on arrays for any project.
    fn sort_large(
        self,
        first: Turn<'_>,
        out: &mut [u8],
        allowance: u32,
    ) -> Result<(usize, u32), Stop<Infallible>>
        requires { (p : Project) × (groups : List (List ℕ)) × (before : List ℕ) × Going p groups self allowance before out.old first }
        ensures { (p : Project) (groups : List (List ℕ)) (before : List ℕ) → Going p groups self.entry allowance before out.old first.entry
            → Ordered (order_groups p item_list_limit allowance [] groups [] 0) before out.new result }
    {
        match self.take::<{ Large::MATRIX }, { Layout::NEED_ROOM }, { ItemWalk::LIST }>(
            first, out, allowance,
        ) {
            Ok(sorted) => Ok(sorted),
            // No list is longer than this array, so that none may need a longer one.
            Err(stop) => Err(Stop::Spent(stop.crowded()?.made)),
        }
    }

    // The turns of the groups from one on, some of them sorted. A project of usual size needs only small arrays, which are quicker to make; where a list
    // may not fit its small array, the turns go on with large ones.
    fn sort_rest(
        self,
        first: Turn<'_>,
        out: &mut [u8],
        allowance: u32,
    ) -> Result<(usize, u32), Stop<Infallible>>
        requires { (p : Project) × (groups : List (List ℕ)) × (before : List ℕ) × Going p groups self allowance before out.old first }
        ensures { (p : Project) (groups : List (List ℕ)) (before : List ℕ) → Going p groups self.entry allowance before out.old first.entry
            → Ordered (order_groups p item_list_limit allowance [] groups [] 0) before out.new result }
    {
        let turns = self.turns;
        if Small::ITEM_BYTES < turns.items.section.len() || Small::NEED_BYTES < self.needs.len() {
            return self.sort_large(first, out, allowance);
        }
        match self.take::<{ Small::MATRIX }, { Small::NEEDS }, { Small::LIST }>(
            first, out, allowance,
        ) {
            Ok(sorted) => Ok(sorted),
            Err(stop) => self.sort_large(stop.crowded()?, out, allowance),
        }
    }
}

// Sorts the groups in turn and writes the rows of their kept items to `out`. Sections and groups are parts of larger arrays, handed on as they stand, with
// how many groups there are. Where it stops, what `out` holds is left free.
pub fn sort_groups(
    items: &[u8],
    imports: &[u8],
    needs: &[u8],
    groups: &[u8],
    count: usize,
    out: &mut [u8],
    allowance: u32,
) -> Result<(usize, u32), Stop<Infallible>>
    requires { (p : Project) × (gs : List (List ℕ)) × Orderable p gs items.now imports.now needs.now groups.now count out.old }
    ensures { (p : Project) (gs : List (List ℕ))
        → Orderable p gs items.now imports.now needs.now groups.now count out.old
        → Ordered (order_groups p item_list_limit allowance [] gs [] 0) out.old out.new result }
{
    let turns = Turns {
        items: ItemRows::new(items),
        importers: giving::importers(imports),
        givers: giving::givers(items),
    };
    let first = turns.keep_groups(groups, count, out);
    if first.left == 0 {
        return Ok((first.kept, first.made));
    }
    let owners = Owners::new(groups, count);
    let sort = SortTurns {
        turns: &turns,
        needs,
        owners: &owners,
    };
    sort.sort_rest(first, out, allowance)
}
