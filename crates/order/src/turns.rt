// The turns of an order call's groups, and those of groups that keep their row order.
ghost use Rattle.std.specs.Prelude.{ℕ, ◌+◌, ◌≤◌, ◌<◌, ◌≡◌, List, length};
ghost use Rattle.rules.specs.Project.{Project, item_limit};
ghost use Rattle.rules.specs.Calls.{group_bytes};
ghost use Rattle.giving.specs.Giving.{Members};

use giving;
use giving::{giving_modules, kept};
use project::reader::Lists;
use split::rows::ItemRows;

// How far the turns have come: the bytes of the groups that are left, and how many these are, the modules that earlier groups list, the rows written and
// the visits made.
#[derive(Clone, Copy)]
pub struct Turn<'a> {
    pub rest: &'a [u8],
    pub left: usize,
    pub used: u64,
    pub kept: usize,
    pub made: u32,
}

impl<'a> Turn<'a> {
    ghost use Rattle.order.specs.Turns.{Advanced};

    // The turn after that of a group, which has left `kept` rows and `made` visits.
    pub fn after(self, members: &[u8], kept: usize, made: u32) -> Turn<'a>
        requires members { Members members.now }
        requires left_nonzero { (0 < self.left) × (1 + length members.now ≤ length self.rest.now) }
        ensures { Advanced members.now self.entry kept made result }
    {
        Turn {
            rest: &self.rest[1 + members.len()..],
            left: self.left - 1,
            used: giving::with_members(self.used, members),
            kept,
            made,
        }
    }
}

// What every turn reads: the item rows, and the sets of the modules that import and of those that give items.
#[derive(Drop)]
pub struct Turns<'a> {
    pub items: ItemRows<'a>,
    pub importers: u64,
    pub givers: u64,
}

impl<'a> Turns<'a> {
    ghost use Rattle.order.specs.Turns.{Ready, Taking, Took, Turning};

    // The turn of a group that keeps its row order.
    pub fn keep_group<'b>(&self, members: &[u8], t: Turn<'b>, out: &mut [u8]) -> Turn<'b>
        requires { (p : Project) × (earlier : List (List ℕ)) × Taking p earlier members.now self.now t out.old }
        ensures { (p : Project) (earlier : List (List ℕ)) → Taking p earlier members.now self.now t.entry out.old
            → Took p earlier members.now t.entry out.old out.new result }
    {
        let given = giving_modules(members, t.used, self.givers);
        let kept = kept::write_given(&self.items, given.as_slice(), out, t.kept);
        t.after(members, kept, t.made)
    }

    // The turns of the groups before the first that is to be sorted; all groups where there is none.
    pub fn keep_groups<'b>(&self, bytes: &'b [u8], count: usize, out: &mut [u8]) -> Turn<'b>
        requires { (p : Project) × (groups : List (List ℕ)) × Ready p groups self.now × (bytes.now ≡ group_bytes groups) × (count ≡ length groups)
            × (length out.old ≡ item_limit) }
        ensures { (p : Project) (groups : List (List ℕ)) (allowance : ℕ) → Ready p groups self.now → bytes.now ≡ group_bytes groups
            → count ≡ length groups → length out.old ≡ item_limit → Turning p groups allowance out.old out.new result }
    {
        let mut t = Turn {
            rest: bytes,
            left: count,
            used: 0,
            kept: 0,
            made: 0,
        };
        for members in Lists::new(bytes) {
            if !giving::keeps_row_order(members, self.importers) {
                return t;
            }
            t = self.keep_group(members, t, out);
        }
        t
    }
}
