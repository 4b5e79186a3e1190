// The item walk (iter): its state, one visit, and a run of visits.
ghost use Rattle.std.specs.Prelude.{ℕ, ◌*◌, ◌-◌, ◌≤◌, ◌<◌, ◌≡◌, false, List, length, drop, replicate, MatchResult};
ghost use Rattle.rules.specs.Project.{item_limit};
ghost use Rattle.rules.specs.Items.{Group, first_list, ItemState, item_walk, item_start, placed_of};
ghost use Rattle.rules.specs.Walk.{run as runs};
ghost use Rattle.rules.specs.Calls.{item_list_limit};
ghost use Rattle.laws.specs.Splits.{size};
ghost use Rattle.lists.specs.Stacks.{stack};
ghost use Rattle.walks.specs.Runs.{Ran, CrowdedAt};
ghost use Rattle.stmt.specs.Walks.{Listed, width, pair_words, Shows, Walking, Clearable, Started, Startable, SameVisits, Room, Short, IsAt};
ghost use Rattle.stmt.specs.WalkLaws.{list-within};

use crate::arrays::Arrays;
use crate::slices;
use crate::slices::Reads;
use walks::{Allowance, Outcome, Stop, Visits};

// The numbers of the walk's state: the end of the list and how many items are placed.
#[derive(Clone, Copy)]
pub struct ItemWalk {
    pub end: usize,
    pub placed: usize,
}

// The next visit may need a longer list.
#[derive(Clone, Copy)]
pub struct Crowded;

// Whether a list of `end` entries has room for whatever one more visit of n items may leave, up to the limit, on an array of `room` entries.
pub(crate) fn has_room(room: usize, end: usize, n: usize) -> Result<(), Crowded>
    requires { (end ≤ item_list_limit) × (n ≤ item_limit) }
    ensures { MatchResult result (λ _. Room n room end) (λ _. Short n room end) }
{
    if room < ItemWalk::LIST && room < end + n + 1 {
        return Err(Crowded);
    }
    Ok(())
}

impl ItemWalk {
    // The most entries that a visit may leave.
    pub const LIST: usize = 16384;

    // The state before the first visit: the list is the paper's first list, nothing is placed and no pair has moved.
    pub fn new<const WORDS: usize, const NEEDS: usize, const ENTRIES: usize>(
        group: &layout::Group<WORDS, NEEDS>,
        arrays: &mut Arrays<WORDS, ENTRIES>,
    ) -> Self
        requires { (g : Group) × Startable g group.now ENTRIES }
        ensures shows { (g : Group) → Startable g group.now ENTRIES → Shows (size g) (width group.now) arrays.new result (item_start g) }
        ensures rest { (arrays.new.«open» ≡ arrays.old.«open») × (arrays.new.order ≡ arrays.old.order) }
        ensures moved_beyond { drop (pair_words group.now) arrays.new.moved ≡ drop (pair_words group.now) arrays.old.moved }
        ensures list_beyond { drop result.end arrays.new.list ≡ drop result.end arrays.old.list }
    {
        let end = group.split.first_list(&mut arrays.list);
        Self::start(
            end,
            group.split.count,
            group.graph.weak.words,
            &mut arrays.placed,
            &mut arrays.moved,
        )
    }

    // The state before the first visit of `count` items whose first list stands on a slice, with this end: nothing is placed and no pair has moved. A row
    // of bits has `words` words. Clears `placed`, which holds a row or more, and `count` rows of `moved`; what `moved` holds beyond stays.
    // `split::first_list` writes the list, with any number of starts.
    pub fn start(
        end: usize,
        count: usize,
        words: usize,
        placed: &mut [u64],
        moved: &mut [u64],
    ) -> Self
        requires { (g : Group) × Clearable g count words placed.old moved.old }
        ensures started { (g : Group) (list : List ℕ) → Clearable g count words placed.old moved.old → Listed list end (first_list g)
            → Started g (64 * words) placed.new moved.new list result }
        ensures numbers { result ≡ record { end = end; placed = 0 } }
        ensures placed { placed.new ≡ replicate (length placed.old) 0 }
        ensures moved_beyond { drop (count * words) moved.new ≡ drop (count * words) moved.old }
    {
        placed.fill(0);
        moved[..count * words].fill(0);
        Self { end, placed: 0 }
    }

    // The state with the front entry taken off.
    pub(crate) fn passed(self) -> Self
        requires { 0 < self.end }
        ensures { result ≡ record { end = self.end - 1; placed = self.placed } }
    {
        Self {
            end: self.end - 1,
            ..self
        }
    }
}

impl<const WORDS: usize, const NEEDS: usize, const ENTRIES: usize> Visits<Arrays<WORDS, ENTRIES>>
    for layout::Group<WORDS, NEEDS> {
    type State = ItemWalk;

    type Crowded = Crowded;

    ghost Input = { Group };

    ghost SpecState = { ItemState };

    ghost walk = { item_walk };

    ghost Piece = { ℕ };

    ghost placed = { placed_of };

    ghost limit = { item_list_limit };

    ghost IsAt = { λ walked group arrays w s. IsAt walked group arrays w s };

    ghost HasRoom = { λ group arrays w. Room group.split.count ENTRIES w.end };

    ghost Crowds = { λ walked c. ENTRIES < item_list_limit };

    ghost CrowdsAt = { λ group arrays w c. Short group.split.count ENTRIES w.end };

    // All are placed.
    fn has_ended(&self, _arrays: &Arrays<WORDS, ENTRIES>, w: ItemWalk) -> bool {
        w.placed == self.split.count
    }

    // Whether the list has room for whatever one more visit may leave, up to the limit.
    fn has_room(&self, _arrays: &Arrays<WORDS, ENTRIES>, w: ItemWalk) -> Result<(), Crowded> {
        has_room(ENTRIES, w.end, self.split.count)
    }

    // There is an entry on the list: an item that is not placed stands there.
    fn visit(&self, arrays: &mut Arrays<WORDS, ENTRIES>, w: ItemWalk) -> Outcome<ItemWalk> {
        arrays.visit(self, w)
    }

    ghost within = { λ x v a w s h. list-within h };
}

// Visits until all items are placed, the allowance is spent, the list may be too short for the next visit or is full.
pub fn run<const WORDS: usize, const NEEDS: usize, const ENTRIES: usize>(
    group: &layout::Group<WORDS, NEEDS>,
    arrays: &mut Arrays<WORDS, ENTRIES>,
    start: ItemWalk,
    allowance: Allowance,
) -> Result<(ItemWalk, u32), Stop<Crowded>>
    requires { (g : Group) × (s : ItemState) × Walking g group.now arrays.old start s }
    ensures { (g walked : Group) (s : ItemState) → SameVisits g walked → Walking g group.now arrays.old start s
        → Ran (runs (item_walk walked) item_list_limit (allowance.visits - allowance.made) allowance.made s)
        (λ w t. stack arrays.new.order group.now.split.count ≡ placed_of t)
        (CrowdedAt (λ w t. Walking g group.now arrays.new w t × ((item_walk walked).ended t ≡ false))
        (λ w c. Short group.now.split.count ENTRIES w.end)) result }
{
    slices::run(
        &Reads::of(group),
        &mut arrays.placed,
        &mut arrays.moved,
        &mut arrays.open,
        &mut arrays.order,
        &mut arrays.list,
        group.split.count,
        start,
        allowance,
    )
}
