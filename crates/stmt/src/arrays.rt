// What the item walk writes.
ghost use Rattle.std.specs.Prelude.{◌≡◌, length};
ghost use Rattle.rules.specs.Project.{item_limit};
ghost use Rattle.graph.specs.Rows.{row_words};

use crate::slices::{Reads, visit};
use crate::walk::ItemWalk;
use graph::rows::ROW_WORDS;
use project::Layout;
use walks::Outcome;

// The items placed, as bits and in their order; the pairs that have moved, as rows of bits; the dependencies that a visit finds open; and the list. Their
// ends are numbers of the walk's state, which a visit hands on by copy; so they are no `ArrayVec`.
#[derive(Drop)]
pub struct Arrays<const WORDS: usize, const ENTRIES: usize> {
    pub placed: [u64; ROW_WORDS],
    pub moved: [u64; WORDS],
    pub open: [u16; Layout::ITEM_ROOM],
    pub order: [u16; Layout::ITEM_ROOM],
    pub list: [u16; ENTRIES],
    pub ghost placed_size: { length placed ≡ row_words },
    pub ghost moved_size: { length moved ≡ WORDS },
    pub ghost open_size: { length «open» ≡ item_limit },
    pub ghost order_size: { length order ≡ item_limit },
    pub ghost list_size: { length list ≡ ENTRIES },
}

impl<const WORDS: usize, const ENTRIES: usize> Arrays<WORDS, ENTRIES> {
    ghost use Rattle.std.specs.Prelude.{◌<◌};
    ghost use Rattle.rules.specs.Items.{Group, ItemState, visit_item, item_list, placed_of};
    ghost use Rattle.rules.specs.Calls.{item_list_limit};
    ghost use Rattle.laws.specs.Splits.{size};
    ghost use Rattle.lists.specs.Arrays.{Zeros};
    ghost use Rattle.walks.specs.Runs.{Came};
    ghost use Rattle.stmt.specs.Walks.{Walking, Room, SameVisits, IsAt};

    pub fn new() -> Self
        ensures placed { Zeros row_words result.placed }
        ensures moved { Zeros WORDS result.moved }
        ensures open { Zeros item_limit result.«open» }
        ensures order { Zeros item_limit result.order }
        ensures list { Zeros ENTRIES result.list }
    {
        Self {
            placed: [0; ROW_WORDS],
            moved: [0; WORDS],
            open: [0; Layout::ITEM_ROOM],
            order: [0; Layout::ITEM_ROOM],
            list: [0; ENTRIES],
        }
    }

    // A visit. Step 1: an item that is placed is passed over. What `open` holds afterwards is left free.
    pub fn visit<const NEEDS: usize>(
        &mut self,
        group: &layout::Group<WORDS, NEEDS>,
        w: ItemWalk,
    ) -> Outcome<ItemWalk>
        requires some { 0 < w.end }
        requires walking { (g : Group) × (s : ItemState) × Walking g group.now self.old w s × Room (size g) ENTRIES w.end }
        ensures came { (g walked : Group) (s : ItemState) → SameVisits g walked → Walking g group.now self.old w s
            → Came item_list_limit item_list placed_of (IsAt walked group.now self.new) (placed_of s) (visit_item walked s) result }
        ensures shown { (g : Group) (s : ItemState) → Walking g group.now self.old w s
            → Came item_list_limit item_list placed_of (Walking g group.now self.new) (placed_of s) (visit_item g s) result }
    {
        visit(
            &Reads::of(group),
            &mut self.placed,
            &mut self.moved,
            &mut self.open,
            &mut self.order,
            &mut self.list,
            w,
        )
    }
}
