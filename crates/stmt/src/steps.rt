// Steps 2 to 5 of a visit, by the paper's 'Item walk'.
ghost use Rattle.std.specs.Prelude.{ℕ, ◌+◌, ◌-◌, ◌*◌, ◌≤◌, ◌<◌, ◌≡◌, false, not, ◌&&◌, List, ◌∷◌, ◌++◌, leb, ltb, length, get_or, take};
ghost use Rattle.rules.specs.Lists.{elem};
ghost use Rattle.rules.specs.Project.{item_limit};
ghost use Rattle.rules.specs.Items.{is_injected, Group, ItemState, item_state, waiting, one_by_one, preceding as preceding_of, after_preceding, visit_item, item_list, placed_of, item_walk};
ghost use Rattle.rules.specs.Walk.{run as runs};
ghost use Rattle.rules.specs.Calls.{item_list_limit};
ghost use Rattle.laws.specs.Splits.{size};
ghost use Rattle.lists.specs.Bits.{bit_at};
ghost use Rattle.lists.specs.Stacks.{stack};
ghost use Rattle.split.specs.FirstLists.{Pushed as Prepended};
ghost use Rattle.walks.specs.Runs.{Came, Ran, CrowdedAt};
ghost use Rattle.stmt.specs.Walks.{moved_of, with_list, Fits, Room, Short, ItemIs, Ranged, SameVisits, stays as stays_open, First};

use crate::slices::{Reads, Writes};
use crate::walk::{Crowded, ItemWalk, has_room};
use project::NodeId;
use project::kinds::KindByte;
use split::push_entries;
use walks::{Allowance, Outcome, Stop};

// An item with what a visit reads of it: its kind, and its range from `low` on and below `high`.
#[derive(Clone, Copy)]
pub struct Item {
    pub id: NodeId,
    pub kind: KindByte,
    pub low: u16,
    pub high: u16,
}

impl Item {
    // Whether its range holds d.
    fn has_in_range(self, d: NodeId) -> bool
        ensures { result ≡ (leb self.low d.0 && ltb d.0 self.high) }
    {
        self.low <= d.0 && d.0 < self.high
    }
}

// Puts the first n of `open` in front of a list of `end` entries; the end then. Of a struct of slices two are lent at once only as `&mut`.
fn put_first(open: &mut [u16], n: usize, list: &mut [u16], end: usize) -> usize
    requires { (n ≤ length «open».old) × (end + n ≤ length list.old) }
    ensures pushed { Prepended (take n «open».old) list.old end list.new result }
    ensures sizes { (length «open».new ≡ length «open».old) × (length list.new ≡ length list.old) }
    ensures rest { «open».new ≡ «open».old }
{
    push_entries(&open[..n], list, end)
}

impl<'a> Writes<'a> {
    ghost use Rattle.stmt.specs.Slices.{SameLent, SameSizes, held, Shows, Laid, Walking, Comes, ListOnly, MovedOnly, Skipped, Found, Pushed, IsAt};

    // Step 2 for a dependency d of x: whether it is skipped, being in x's range or their pair having moved. Notes the pair as moved.
    fn skips(&mut self, group: &Reads<'_>, x: Item, d: NodeId) -> bool
        requires { (g : Group) × (w : ItemWalk) × (s : ItemState) × Walking g group.now (held self.old) w s × ItemIs g x × (d.0 < size g) }
        ensures skipped { (g : Group) (w : ItemWalk) (s : ItemState) → Walking g group.now (held self.old) w s → ItemIs g x → d.0 < size g
            → Skipped g group.now (held self.new) w s x.id.0 d.0 result }
        ensures rest { MovedOnly (held self.old) (held self.new) }
        ensures sizes { SameSizes (held self.old) (held self.new) }
        ensures lent { SameLent self.old self.new }
    {
        if x.has_in_range(d) {
            return true;
        }
        if x.kind.is_injected() || !group.has_path(d, x.id) {
            return false;
        }
        self.note(group.width, x.id, d)
    }

    // Whether a dependency d of x that is not skipped stays: it is not placed, and step 3 does not drop it.
    fn stays(&self, group: &Reads<'_>, x: Item, d: NodeId) -> bool
        requires { (g : Group) × (w : ItemWalk) × (s : ItemState) × Walking g group.now (held self.now) w s × ItemIs g x × (d.0 < size g) }
        ensures { (g : Group) (w : ItemWalk) (s : ItemState) → Walking g group.now (held self.now) w s → ItemIs g x → d.0 < size g
            → result ≡ stays_open g (placed_of s) x.id.0 d.0 }
    {
        if self.has_placed(d) {
            return false;
        }
        if !group.has_path(d, x.id) {
            return true;
        }
        !x.kind.may_drop(group.is_weak(x.id, d))
    }

    // The dependencies of x that stay, in their order, written to `open`; how many. Notes pairs as moved. (No iterator: the test writes to `self`.)
    fn find_open(&mut self, group: &Reads<'_>, x: Item) -> usize
        requires { (g : Group) × (w : ItemWalk) × (s : ItemState) × Walking g group.now (held self.old) w s × ItemIs g x }
        ensures found { (g : Group) (w : ItemWalk) (s : ItemState) → Walking g group.now (held self.old) w s → ItemIs g x
            → Found g group.now (held self.new) w s x.id.0 result }
        ensures rest { (self.new.placed.now ≡ self.old.placed.now) × (self.new.order.now ≡ self.old.order.now) × (self.new.list.now ≡ self.old.list.now) }
        ensures sizes { SameSizes (held self.old) (held self.new) }
        ensures lent { SameLent self.old self.new }
    {
        let mut n = 0;
        for d in group.dependencies.of(x.id) {
            if !self.skips(group, x, d) && self.stays(group, x, d) {
                self.open[n] = d.0;
                n += 1;
            }
        }
        n
    }

    // Puts n open dependencies before the front item, which stays on the list: the first foremost.
    fn put_open(&mut self, w: ItemWalk, n: usize) -> Outcome<ItemWalk>
        requires { (m width : ℕ) × (s : ItemState) × Shows m width (held self.old) w s × (n ≤ item_limit) × (n ≤ length self.old.«open».now)
            × Fits (w.end + n) (length self.old.list.now) }
        ensures comes { (m width : ℕ) (s : ItemState) → Shows m width (held self.old) w s
            → Comes m width (held self.new) (placed_of s) (with_list (take n self.old.«open».now ++ item_list s) s) result }
        ensures rest { ListOnly (held self.old) (held self.new) }
        ensures sizes { SameSizes (held self.old) (held self.new) }
        ensures lent { SameLent self.old self.new }
    {
        if ItemWalk::LIST < w.end + n {
            return Outcome::ListFull;
        }
        let end = put_first(self.open, n, self.list, w.end);
        Outcome::WentOn(ItemWalk { end, ..w })
    }

    // Whether a dependant d is waiting: it is injected and not placed.
    fn is_waiting(&self, group: &Reads<'_>, d: NodeId) -> bool
        requires { (d.0 < length group.now.kinds.now) × (d.0 < length self.now.placed.now * 64) }
        ensures { result ≡ (is_injected (get_or group.now.kinds.now d.0 0) && not (bit_at self.now.placed.now d.0)) }
    {
        KindByte(group.kinds[usize::from(d)]).is_injected() && !self.has_placed(d)
    }

    // Pushes the unplaced injected dependants of x one by one, where the list has room for them.
    fn push_waiting(&mut self, group: &Reads<'_>, w: ItemWalk, x: NodeId) -> Option<ItemWalk>
        requires { (g : Group) × (s : ItemState) × Laid g group.now × Shows (size g) group.now.width (held self.old) w s × (x.0 < size g)
            × Fits (w.end + size g) (length self.old.list.now) }
        ensures pushed { (g : Group) (s : ItemState) → Laid g group.now → Shows (size g) group.now.width (held self.old) w s → x.0 < size g
            → Pushed (size g) group.now.width (held self.new) (one_by_one (waiting g (placed_of s) x.0) (item_list s)) s result }
        ensures rest { ListOnly (held self.old) (held self.new) }
        ensures sizes { SameSizes (held self.old) (held self.new) }
        ensures lent { SameLent self.old self.new }
    {
        let mut after = w;
        for d in group.dependants.of(x) {
            if self.is_waiting(group, d) {
                if after.end == ItemWalk::LIST {
                    return None;
                }
                after = self.push(after, d);
            }
        }
        Some(after)
    }

    // The first unplaced number below x in its range whose pair with x has not moved.
    fn preceding(&self, width: usize, x: Item) -> Option<NodeId>
        requires { (g : Group) × (w : ItemWalk) × (s : ItemState) × Shows (size g) width (held self.now) w s × Ranged g x }
        ensures { (g : Group) (w : ItemWalk) (s : ItemState) → Shows (size g) width (held self.now) w s → Ranged g x
            → First x.id.0 (preceding_of g (placed_of s) (moved_of s) x.id.0) result }
    {
        // No `find`: it was tried, and that its closure may be called stayed open.
        for i in x.low..x.id.0 {
            let p = NodeId(i);
            if !self.has_placed(p) && !self.has_moved(width, x.id, p) {
                return Some(p);
            }
        }
        None
    }

    // Step 4: the unplaced injected dependants of the front item x go to the front in its place; x is placed.
    fn place_injected(&mut self, group: &Reads<'_>, w: ItemWalk, x: NodeId) -> Outcome<ItemWalk>
        requires { (g : Group) × (rest : List ℕ) × (items : List ℕ) × (pairs : List (ℕ × ℕ)) × (elem x.0 items ≡ false)
            × Walking g group.now (held self.old) w (item_state (x.0 ∷ rest) items pairs) × Room (size g) (length self.old.list.now) w.end }
        ensures comes { (g : Group) (rest items : List ℕ) (pairs : List (ℕ × ℕ)) → Walking g group.now (held self.old) w (item_state (x.0 ∷ rest) items pairs)
            → Comes (size g) group.now.width (held self.new) items (item_state (one_by_one (waiting g items x.0) rest) (x.0 ∷ items) pairs) result }
        ensures rest { (self.new.moved.now ≡ self.old.moved.now) × (self.new.«open».now ≡ self.old.«open».now) }
        ensures sizes { SameSizes (held self.old) (held self.new) }
        ensures lent { SameLent self.old self.new }
    {
        let Some(after) = self.push_waiting(group, w.passed(), x) else {
            return Outcome::ListFull;
        };
        Outcome::Placed(self.place(after, x))
    }

    // The second half of step 5: those dependants of the front item x go to the front in its place, then x, then p.
    fn put_preceding(
        &mut self,
        group: &Reads<'_>,
        w: ItemWalk,
        x: NodeId,
        p: NodeId,
    ) -> Outcome<ItemWalk>
        requires { (g : Group) × (rest : List ℕ) × (items : List ℕ) × (pairs : List (ℕ × ℕ))
            × Walking g group.now (held self.old) w (item_state (x.0 ∷ rest) items pairs) × Room (size g) (length self.old.list.now) w.end }
        ensures comes { (g : Group) (rest items : List ℕ) (pairs : List (ℕ × ℕ)) → Walking g group.now (held self.old) w (item_state (x.0 ∷ rest) items pairs)
            → Comes (size g) group.now.width (held self.new) items (item_state (p.0 ∷ x.0 ∷ one_by_one (waiting g items x.0) rest) items pairs) result }
        ensures rest { ListOnly (held self.old) (held self.new) }
        ensures sizes { SameSizes (held self.old) (held self.new) }
        ensures lent { SameLent self.old self.new }
    {
        let Some(after) = self.push_waiting(group, w.passed(), x) else {
            return Outcome::ListFull;
        };
        if ItemWalk::LIST < after.end + 2 {
            return Outcome::ListFull;
        }
        let behind = self.push(after, x);
        Outcome::WentOn(self.push(behind, p))
    }

    // Step 5 for the front item x: it waits for the first item that precedes it, or is placed.
    fn visit_uninjected(&mut self, group: &Reads<'_>, w: ItemWalk, x: Item) -> Outcome<ItemWalk>
        requires { (g : Group) × (rest : List ℕ) × (items : List ℕ) × (pairs : List (ℕ × ℕ)) × (elem x.id.0 items ≡ false)
            × Walking g group.now (held self.old) w (item_state (x.id.0 ∷ rest) items pairs) × Ranged g x × Room (size g) (length self.old.list.now) w.end }
        ensures comes { (g : Group) (rest items : List ℕ) (pairs : List (ℕ × ℕ))
            → Walking g group.now (held self.old) w (item_state (x.id.0 ∷ rest) items pairs) → Ranged g x
            → Comes (size g) group.now.width (held self.new) items
            (after_preceding g x.id.0 rest items pairs (preceding_of g items pairs x.id.0)) result }
        ensures rest { self.new.«open».now ≡ self.old.«open».now }
        ensures sizes { SameSizes (held self.old) (held self.new) }
        ensures lent { SameLent self.old self.new }
    {
        let width = group.width;
        let Some(p) = self.preceding(width, x) else {
            return Outcome::Placed(self.place(w.passed(), x.id));
        };
        self.note(width, x.id, p);
        self.put_preceding(group, w, x.id, p)
    }

    // Steps 2 to 5 for the front item x, which is not placed.
    pub(crate) fn visit_unplaced(
        &mut self,
        group: &Reads<'_>,
        w: ItemWalk,
        x: Item,
    ) -> Outcome<ItemWalk>
        requires { (g : Group) × (rest : List ℕ) × (items : List ℕ) × (pairs : List (ℕ × ℕ)) × (elem x.id.0 items ≡ false)
            × Walking g group.now (held self.old) w (item_state (x.id.0 ∷ rest) items pairs) × ItemIs g x × Room (size g) (length self.old.list.now) w.end }
        ensures comes { (g : Group) (rest items : List ℕ) (pairs : List (ℕ × ℕ)) → elem x.id.0 items ≡ false
            → Walking g group.now (held self.old) w (item_state (x.id.0 ∷ rest) items pairs) → ItemIs g x
            → Comes (size g) group.now.width (held self.new) items (visit_item g (item_state (x.id.0 ∷ rest) items pairs)) result }
        ensures sizes { SameSizes (held self.old) (held self.new) }
        ensures lent { SameLent self.old self.new }
    {
        let n = self.find_open(group, x);
        if 0 < n {
            return self.put_open(w, n);
        }
        if x.kind.is_injected() {
            return self.place_injected(group, w, x.id);
        }
        self.visit_uninjected(group, w, x)
    }

    // A visit. Step 1: an item that is placed is passed over. What `open` holds afterwards is left free.
    pub fn visit(&mut self, group: &Reads<'_>, w: ItemWalk) -> Outcome<ItemWalk>
        requires some { 0 < w.end }
        requires walking { (g : Group) × (s : ItemState) × Walking g group.now (held self.old) w s × Room (size g) (length self.old.list.now) w.end }
        ensures comes { (g : Group) (s : ItemState) → Walking g group.now (held self.old) w s
            → Comes (size g) group.now.width (held self.new) (placed_of s) (visit_item g s) result }
        ensures came { (g walked : Group) (s : ItemState) → SameVisits g walked → Walking g group.now (held self.old) w s
            → Came item_list_limit item_list placed_of (IsAt walked group.now (held self.new)) (placed_of s) (visit_item walked s) result }
        ensures sizes { SameSizes (held self.old) (held self.new) }
        ensures lent { SameLent self.old self.new }
    {
        let x = NodeId(self.list[w.end - 1]);
        if self.has_placed(x) {
            return Outcome::WentOn(w.passed());
        }
        self.visit_unplaced(group, w, group.item(x))
    }

    // Visits until all `count` items are placed, the allowance is spent, the list may be too short for the next visit or is full.
    pub fn run(
        &mut self,
        group: &Reads<'_>,
        count: usize,
        start: ItemWalk,
        allowance: Allowance,
    ) -> Result<(ItemWalk, u32), Stop<Crowded>>
        requires { (g : Group) × (s : ItemState) × (count ≡ size g) × Walking g group.now (held self.old) start s }
        ensures ran { (g walked : Group) (s : ItemState) → count ≡ size g → SameVisits g walked → Walking g group.now (held self.old) start s
            → Ran (runs (item_walk walked) item_list_limit (allowance.visits - allowance.made) allowance.made s)
            (λ w t. Walking g group.now (held self.new) w t × (stack self.new.order.now count ≡ placed_of t))
            (CrowdedAt (λ w t. Walking g group.now (held self.new) w t × ((item_walk walked).ended t ≡ false))
            (λ w c. Short count (length self.old.list.now) w.end)) result }
        ensures sizes { SameSizes (held self.old) (held self.new) }
        ensures lent { SameLent self.old self.new }
    {
        // A copy, which no store to a slice can change.
        let reads = *group;
        let mut w = start;
        let mut made = allowance.made;
        while w.placed != count {
            if made == allowance.visits {
                return Err(Stop::Spent(made));
            }
            has_room(self.list.len(), w.end, count).map_err(Stop::Crowded)?;
            made += 1;
            let outcome = self.visit(&reads, w);
            let (Outcome::WentOn(after) | Outcome::Placed(after)) = outcome else {
                return Err(Stop::Full(made));
            };
            w = after;
        }
        Ok((w, made))
    }
}
