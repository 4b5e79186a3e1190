// The group that the items of each module belong to, and the needs of a project chained by the group that both their items belong to, so that a group
// finds its needs without a scan of all.
#![tactic(auto)]

ghost use Rattle.std.specs.Prelude.{ℕ, ◌/◌, ◌≤◌, ◌<◌, ◌≡◌, List, length, get_or};
ghost use Rattle.rules.specs.Project.{Project, module_limit};
ghost use Rattle.laws.specs.Counting.{Below};
ghost use Rattle.owners.specs.Owners.{Noted, Notable, OwnersShown, Owned, owner_at, RowRoom, both_own};

use lists::chains::{Chain, Chains};
use project::reader::Lists;
use project::sections::{ItemRow, NeedRow, Row};
use project::{ItemId, Layout};

// For each module the owner of its items, the first group that lists it: by the number of groups behind that one.
#[derive(Drop)]
pub struct Owners {
    pub array: [Option<u8>; Layout::MODULE_ROOM],
    pub ghost size: { length array ≡ module_limit },
}

impl Owners {
    // The owners by `count` groups, whose bytes stand one behind the other.
    pub fn new(bytes: &[u8], count: usize) -> Self
        requires { (groups : List (List ℕ)) × Notable groups bytes.now count }
        ensures { (groups : List (List ℕ)) → Notable groups bytes.now count → OwnersShown groups result.array }
    {
        let mut owners = Owners {
            array: [None; Layout::MODULE_ROOM],
        };
        // Counted down by hand: of a `zip` it would have to be shown that both its iterators end at once.
        let mut behind = count;
        for members in Lists::new(bytes) {
            behind -= 1;
            owners.note_members(members, behind as u8);
        }
        owners
    }

    // Notes `owner` at the members of a group that have no owner yet.
    fn note_members(&mut self, members: &[u8], owner: u8)
        requires { Below module_limit members.now }
        ensures { Noted members.now owner self.old.array self.new.array }
    {
        for &m in members {
            let noted = &mut self.array[usize::from(m)];
            *noted = noted.or(Some(owner));
        }
    }

    // The owner of an item.
    fn of_item(&self, items: &[u8], item: ItemId) -> Option<u8>
        requires { RowRoom items.now self.now.array item.0 }
        ensures { result ≡ owner_at items.now self.now.array item.0 }
    {
        let row = ItemRow::nth(items, usize::from(item));
        self.array[usize::from(row.in_module)]
    }

    // What both items of a need are owned by.
    fn of_need(&self, items: &[u8], need: NeedRow) -> Option<u8>
        requires { RowRoom items.now self.now.array need.dependant.0 × RowRoom items.now self.now.array need.dependency.0 }
        ensures { result ≡ both_own (owner_at items.now self.now.array need.dependant.0) (owner_at items.now self.now.array need.dependency.0) }
    {
        let owner = self.of_item(items, need.dependant);
        if owner == self.of_item(items, need.dependency) {
            owner
        } else {
            None
        }
    }
}

// The needs' bytes, and for each owner the chain of the needs whose items it both owns.
#[derive(Drop)]
pub struct NeedRows<'a, const NEEDS: usize> {
    pub section: &'a [u8],
    pub chains: Chains<{ Layout::MODULE_ROOM }, NEEDS>,
}

impl<'a, const NEEDS: usize> NeedRows<'a, NEEDS> {
    ghost use Rattle.owners.specs.NeedRows.{NeedsChained, LinkedWithin};

    // A need whose items have different owners is on no chain: no group asks for it.
    pub fn new(section: &'a [u8], items: &[u8], owners: &Owners) -> Self
        requires { (p : Project) × (groups : List (List ℕ)) × Owned p groups items.now section.now owners.now.array × (length p.needs ≤ NEEDS) }
        ensures chained { (p : Project) (groups : List (List ℕ)) → Owned p groups items.now section.now owners.now.array → length p.needs ≤ NEEDS
            → NeedsChained p groups result }
        ensures linked { LinkedWithin (length section.now / 3) result }
    {
        let mut chains = Chains::new();
        for row in (0..section.len() / NeedRow::BYTES).rev() {
            if let Some(owner) = owners.of_need(items, NeedRow::nth(section, row)) {
                chains.put_first(usize::from(owner), row);
            }
        }
        NeedRows { section, chains }
    }

    // The needs of the group with so many groups behind it, ascending.
    pub fn of_group(&self, behind: usize) -> Chain<'_>
        requires { behind < module_limit }
        ensures next { result.next.now ≡ self.now.chains.next }
        ensures entry { result.entry ≡ get_or self.now.chains.heads behind 0 }
    {
        self.chains.chain(behind)
    }
}
