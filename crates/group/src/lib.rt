// The sort of one group's items (sort_stmts).
#![tactic(auto)]

ghost use Rattle.std.specs.Prelude.{ℕ, ◌+◌, ◌-◌, ◌*◌, ◌≤◌, ◌<◌, ◌≡◌, length};
ghost use Rattle.rules.specs.Project.{Project};
ghost use Rattle.rules.specs.Walk.{run as runs};
ghost use Rattle.rules.specs.Items.{Group as Input, item_walk, item_start, placed_of, sort_modules};
ghost use Rattle.rules.specs.Calls.{item_list_limit};
ghost use Rattle.lists.specs.Stacks.{stack};
ghost use Rattle.walks.specs.Runs.{Ran};
ghost use Rattle.group.specs.Walking.{Asked, Walkable};

use layout::Group;
use lists::chains::Chain;
use split::rows::ItemRows;
use stmt::arrays::Arrays;
use stmt::walk::{Crowded, ItemWalk, run};
use walks::{Allowance, Stop};

// A group laid out, and the arrays of its walk.
#[derive(Drop)]
pub struct Sort<const WORDS: usize, const NEEDS: usize, const ENTRIES: usize> {
    pub group: Group<WORDS, NEEDS>,
    pub arrays: Arrays<WORDS, ENTRIES>,
}

impl<const WORDS: usize, const NEEDS: usize, const ENTRIES: usize> Sort<WORDS, NEEDS, ENTRIES> {
    ghost use Rattle.std.specs.Prelude.{List};
    ghost use Rattle.std.proofs.lemmas.List.Edits.{sets};
    ghost use Rattle.group.specs.Sorts.{Sortable, Given, Sorted};

    // No items.
    pub fn new() -> Self
        requires bounds { WORDS ≤ 65536 }
        ensures none { (result.group.graph.nodes ≡ 0) × (result.group.split.count ≡ 0) }
    {
        Self {
            group: Group::new(),
            arrays: Arrays::new(),
        }
    }

    // The chain of the needs to lay out: none for uninjected items of one module, whose walk asks for no need.
    fn asked<'a>(&self, own: Chain<'a>) -> Chain<'a>
        ensures next { result.next.now ≡ own.entry.next.now }
        ensures entry { Asked own.entry.entry self.now.group.split result.entry }
    {
        let split = &self.group.split;
        if split.modules == 1 && split.uninjected == split.count {
            return own.emptied();
        }
        own
    }

    // Walks the items of the group from its first list on, as the definition's run does, unless the list may not fit its array. The group that is laid out
    // may have fewer needs than the one that is walked, where every visit is the same. Where it has finished, `order` holds the numbers in their order;
    // else it is left free, and so is the rest of the state.
    fn walk_items(&mut self, allowance: Allowance) -> Result<(ItemWalk, u32), Stop<Crowded>>
        requires { (g : Input) × (walked : Input) × Walkable g walked self.old.group }
        ensures ran { (g walked : Input) → Walkable g walked self.old.group
            → Ran (runs (item_walk walked) item_list_limit (allowance.visits - allowance.made) allowance.made (item_start walked))
            (λ w t. stack self.new.arrays.order self.old.group.split.count ≡ placed_of t) (λ c. ENTRIES < item_list_limit) result }
        ensures group { self.new.group ≡ self.old.group }
    {
        if ENTRIES < self.group.split.first_len() {
            return Err(Stop::Crowded(Crowded));
        }
        let start = ItemWalk::new(&self.group, &mut self.arrays);
        run(&self.group, &mut self.arrays, start, allowance)
    }

    // Sorts the kept items of a group's modules, whose needs stand along the chain `own`: the walk's outcome, and
    // where it has finished, how many items there are. What the arrays hold beyond the rows in their order is left free.
    pub fn sort_stmts(
        &mut self,
        items: &ItemRows,
        needs: &[u8],
        own: Chain<'_>,
        modules: &[u8],
        allowance: Allowance,
    ) -> Result<(usize, u32), Stop<Crowded>>
        requires { (p : Project) × Sortable WORDS NEEDS p modules.now items.now needs.now own.next.now own.entry }
        ensures { (p : Project) → Sortable WORDS NEEDS p modules.now items.now needs.now own.entry.next.now own.entry.entry
            → Sorted p modules.now (sort_modules p modules.now item_list_limit (allowance.visits - allowance.made) allowance.made) self.new result }
    {
        self.group.number_items(items, modules);
        let asked = self.asked(own);
        self.group.lay_needs(needs, asked);
        let (_, made) = self.walk_items(allowance)?;
        Ok((self.group.split.count, made))
    }

    // Writes the rows in their order from `at` on; the place behind them.
    pub fn write_rows(&self, out: &mut [u8], at: usize) -> usize
        requires { (rows : List ℕ) × Given rows self.now × («at» + length rows ≤ length out.old) }
        ensures written { (rows : List ℕ) → Given rows self.now → out.new ≡ sets out.old «at» rows }
        ensures end { (rows : List ℕ) → Given rows self.now → result ≡ «at» + length rows }
    {
        let split = &self.group.split;
        for (i, &x) in self.arrays.order[..split.count].iter().enumerate() {
            out[at + i] = split.rows[usize::from(x)] as u8;
        }
        at + split.count
    }
}
