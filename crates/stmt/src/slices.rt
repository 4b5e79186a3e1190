// What a visit reads and what it writes, lent as slices: of any length that has room for the parts in use, with rows of any width that has room for the
// items.
ghost use Rattle.std.specs.Prelude.{ℕ, ◌+◌, ◌-◌, ◌*◌, ◌≤◌, ◌<◌, ◌≡◌, false, List, length};
ghost use Rattle.std.specs.Iterator.{YieldsFirstBy, item_count};
ghost use Rattle.rules.specs.Project.{item_limit};
ghost use Rattle.rules.specs.Items.{Group, path_holds, ItemState, visit_item, item_list, placed_of, item_walk};
ghost use Rattle.rules.specs.Walk.{run as runs};
ghost use Rattle.rules.specs.Calls.{item_list_limit};
ghost use Rattle.laws.specs.Splits.{size};
ghost use Rattle.lists.specs.Bits.{bit_at};
ghost use Rattle.lists.specs.Stacks.{stack};
ghost use Rattle.graph.specs.Graph.{is_maybe};
ghost use Rattle.walks.specs.Runs.{Came, Ran, CrowdedAt};
ghost use Rattle.stmt.specs.Walks.{Room, Short, SameVisits};
ghost use Rattle.stmt.specs.Alongs.{Onwards, nodes_from};
ghost use Rattle.stmt.specs.Slices.{written, Walking, Comes, IsAt};

use crate::steps::Item;
use crate::walk::{Crowded, ItemWalk};
use lists::bits;
use project::NodeId;
use project::kinds::KindByte;
use walks::{Allowance, Outcome, Stop};

// The neighbours that are left on a chain: an entry is one more than a place, and 0 stands for none.
#[derive(Clone, Copy)]
pub struct Along<'a> {
    pub ends: &'a [u16],
    pub next: &'a [u16],
    pub entry: u16,
    pub ghost leads: { Onwards ends.now next.now entry },
}

impl<'a> Iterator for Along<'a> {
    type Item = NodeId;

    ghost next_gives = { YieldsFirstBy (λ d. d.0) (λ s. nodes_from s.ends.now s.next.now s.entry) };

    ghost remaining = { item_count (λ s. nodes_from s.ends.now s.next.now s.entry) };

    fn next(&mut self) -> Option<NodeId> {
        if self.entry == 0 {
            return None;
        }
        let place = usize::from(self.entry) - 1;
        self.entry = self.next[place];
        Some(NodeId(self.ends[place]))
    }
}

// The neighbours of each item: the entry of its chain, and for each place the neighbour and the entry of the next place.
#[derive(Clone, Copy)]
pub struct Links<'a> {
    pub ends: &'a [u16],
    pub heads: &'a [u16],
    pub next: &'a [u16],
}

impl<'a> Links<'a> {
    ghost use Rattle.stmt.specs.Slices.{Chained};

    // The neighbours of x.
    pub(crate) fn of(self, x: NodeId) -> Along<'a>
        requires { (neighbours : ℕ → List ℕ) × (n : ℕ) × Chained neighbours n self × (x.0 < n) }
        ensures { (neighbours : ℕ → List ℕ) (n : ℕ) → Chained neighbours n self.entry → x.0 < n
            → nodes_from result.ends.now result.next.now result.entry ≡ neighbours x.0 }
    {
        Along {
            ends: self.ends,
            next: self.next,
            entry: self.heads[usize::from(x)],
        }
    }
}

// What a visit reads: the group's needs as chains, its paths and the pairs whose weight is Maybe as rows of `width` bits, and its kinds and ranges.
#[derive(Clone, Copy)]
pub struct Reads<'a> {
    pub dependencies: Links<'a>,
    pub dependants: Links<'a>,
    pub paths: &'a [u64],
    pub weak: &'a [u64],
    pub kinds: &'a [u8],
    pub low: &'a [u16],
    pub high: &'a [u16],
    pub width: usize,
}

// Whether row a of a table of bits holds b.
fn has_pair(words: &[u64], width: usize, a: NodeId, b: NodeId) -> bool
    requires { (a.0 * width + b.0 < length words.now * 64) × (a.0 * width + b.0 < item_limit * item_limit) }
    ensures { result ≡ bit_at words.now (a.0 * width + b.0) }
{
    bits::row_has(words, usize::from(a) * width + usize::from(b))
}

impl<'a> Reads<'a> {
    ghost use Rattle.std.specs.Prelude.{reverse};
    ghost use Rattle.stmt.specs.Slices.{Laid};
    ghost use Rattle.stmt.specs.Walks.{ItemIs, Laid as GroupLaid, width as width_of};

    // What a visit reads of a group that is laid out.
    pub fn of<const WORDS: usize, const NEEDS: usize>(
        group: &'a layout::Group<WORDS, NEEDS>,
    ) -> Self
        ensures laid { (g : Group) → GroupLaid g group.now → Laid g result }
        ensures width { result.width ≡ width_of group.now }
    {
        let graph = &group.graph;
        let split = &group.split;
        Reads {
            dependencies: Links {
                ends: &graph.pairs.to,
                heads: &graph.outgoing.heads,
                next: &graph.outgoing.next,
            },
            dependants: Links {
                ends: &graph.pairs.from,
                heads: &graph.incoming.heads,
                next: &graph.incoming.next,
            },
            paths: &graph.paths.cells,
            weak: &graph.weak.cells,
            kinds: &split.kinds,
            low: &split.low,
            high: &split.high,
            width: 64 * graph.weak.words,
        }
    }

    // An item with what a visit reads of it.
    pub(crate) fn item(&self, id: NodeId) -> Item
        requires { (g : Group) × Laid g self.now × (id.0 < size g) }
        ensures item { (g : Group) → Laid g self.now → id.0 < size g → ItemIs g result }
        ensures id { result.id ≡ id }
    {
        let i = usize::from(id);
        Item {
            id,
            kind: KindByte(self.kinds[i]),
            low: self.low[i],
            high: self.high[i],
        }
    }

    // Whether P(a) holds b.
    pub(crate) fn has_path(&self, a: NodeId, b: NodeId) -> bool
        requires { (g : Group) × Laid g self.now × (a.0 < size g) × (b.0 < size g) }
        ensures { (g : Group) → Laid g self.now → a.0 < size g → b.0 < size g → result ≡ path_holds g a.0 b.0 }
    {
        has_pair(self.paths, self.width, a, b)
    }

    // Whether the weight of the pair (x, y) is Maybe.
    pub(crate) fn is_weak(&self, x: NodeId, y: NodeId) -> bool
        requires { (g : Group) × Laid g self.now × (x.0 < size g) × (y.0 < size g) }
        ensures { (g : Group) → Laid g self.now → x.0 < size g → y.0 < size g → result ≡ is_maybe (reverse g.needs) x.0 y.0 }
    {
        has_pair(self.weak, self.width, x, y)
    }
}

// What a visit writes: the items placed, as bits and in their order; the pairs that have moved, as rows of bits; the dependencies that it finds open; and
// the list.
#[derive(Drop)]
pub struct Writes<'a> {
    pub placed: &'a mut [u64],
    pub moved: &'a mut [u64],
    pub open: &'a mut [u16],
    pub order: &'a mut [u16],
    pub list: &'a mut [u16],
}

impl<'a> Writes<'a> {
    ghost use Rattle.std.specs.Prelude.{set};
    ghost use Rattle.lists.specs.Bits.{Inserted};
    ghost use Rattle.stmt.specs.Walks.{Noted};
    ghost use Rattle.stmt.specs.Slices.{SameLent, held, Cell, ListOnly, MovedOnly};

    // Whether x is placed.
    pub(crate) fn has_placed(&self, x: NodeId) -> bool
        requires { x.0 < length self.now.placed.now * 64 }
        ensures { result ≡ bit_at self.now.placed.now x.0 }
    {
        bits::row_has(self.placed, usize::from(x))
    }

    // Places x; the numbers then.
    pub(crate) fn place(&mut self, w: ItemWalk, x: NodeId) -> ItemWalk
        requires { (x.0 < length self.old.placed.now * 64) × (w.placed < length self.old.order.now) }
        ensures numbers { result ≡ record { end = w.end; placed = w.placed + 1 } }
        ensures placed { Inserted x.0 self.old.placed.now self.new.placed.now }
        ensures order { self.new.order.now ≡ set self.old.order.now w.placed x.0 }
        ensures rest { (self.new.moved.now ≡ self.old.moved.now) × (self.new.«open».now ≡ self.old.«open».now) × (self.new.list.now ≡ self.old.list.now) }
        ensures lent { SameLent self.old self.new }
    {
        bits::row_insert(self.placed, usize::from(x));
        self.order[w.placed] = x.0;
        ItemWalk {
            placed: w.placed + 1,
            ..w
        }
    }

    // Puts x in front of the list; the numbers then.
    pub(crate) fn push(&mut self, w: ItemWalk, x: NodeId) -> ItemWalk
        requires { w.end < length self.old.list.now }
        ensures numbers { result ≡ record { end = w.end + 1; placed = w.placed } }
        ensures list { self.new.list.now ≡ set self.old.list.now w.end x.0 }
        ensures rest { ListOnly (held self.old) (held self.new) }
        ensures lent { SameLent self.old self.new }
    {
        self.list[w.end] = x.0;
        ItemWalk {
            end: w.end + 1,
            ..w
        }
    }

    // Whether the pair of x and d has moved; a row has `width` bits.
    pub(crate) fn has_moved(&self, width: usize, x: NodeId, d: NodeId) -> bool
        requires { Cell width x.0 d.0 self.now.moved.now }
        ensures { result ≡ bit_at self.now.moved.now (x.0 * width + d.0) }
    {
        has_pair(self.moved, width, x, d)
    }

    // Notes the pair of x and d as moved; whether it had moved already.
    pub(crate) fn note(&mut self, width: usize, x: NodeId, d: NodeId) -> bool
        requires { Cell width x.0 d.0 self.old.moved.now }
        ensures noted { Noted (x.0 * width + d.0) self.old.moved.now self.new.moved.now result }
        ensures rest { MovedOnly (held self.old) (held self.new) }
        ensures lent { SameLent self.old self.new }
    {
        if self.has_moved(width, x, d) {
            return true;
        }
        bits::row_insert(self.moved, usize::from(x) * width + usize::from(d));
        false
    }
}

// A visit over slices. What `open` holds afterwards is left free.
pub fn visit(
    group: &Reads<'_>,
    placed: &mut [u64],
    moved: &mut [u64],
    open: &mut [u16],
    order: &mut [u16],
    list: &mut [u16],
    w: ItemWalk,
) -> Outcome<ItemWalk>
    requires some { 0 < w.end }
    requires walking { (g : Group) × (s : ItemState) × Walking g group.now (written placed.old moved.old «open».old order.old list.old) w s
        × Room (size g) (length list.old) w.end }
    ensures comes { (g : Group) (s : ItemState) → Walking g group.now (written placed.old moved.old «open».old order.old list.old) w s
        → Comes (size g) group.now.width (written placed.new moved.new «open».new order.new list.new) (placed_of s) (visit_item g s) result }
    ensures came { (g walked : Group) (s : ItemState) → SameVisits g walked
        → Walking g group.now (written placed.old moved.old «open».old order.old list.old) w s
        → Came item_list_limit item_list placed_of (IsAt walked group.now (written placed.new moved.new «open».new order.new list.new)) (placed_of s)
        (visit_item walked s) result }
{
    let mut lent = Writes {
        placed,
        moved,
        open,
        order,
        list,
    };
    lent.visit(group, w)
}

// A run of visits over slices. What `open` holds afterwards is left free.
pub fn run(
    group: &Reads<'_>,
    placed: &mut [u64],
    moved: &mut [u64],
    open: &mut [u16],
    order: &mut [u16],
    list: &mut [u16],
    count: usize,
    start: ItemWalk,
    allowance: Allowance,
) -> Result<(ItemWalk, u32), Stop<Crowded>>
    requires { (g : Group) × (s : ItemState) × (count ≡ size g) × Walking g group.now (written placed.old moved.old «open».old order.old list.old) start s }
    ensures { (g walked : Group) (s : ItemState) → count ≡ size g → SameVisits g walked
        → Walking g group.now (written placed.old moved.old «open».old order.old list.old) start s
        → Ran (runs (item_walk walked) item_list_limit (allowance.visits - allowance.made) allowance.made s)
        (λ w t. Walking g group.now (written placed.new moved.new «open».new order.new list.new) w t × (stack order.new count ≡ placed_of t))
        (CrowdedAt (λ w t. Walking g group.now (written placed.new moved.new «open».new order.new list.new) w t × ((item_walk walked).ended t ≡ false))
        (λ w c. Short count (length list.old) w.end)) result }
{
    let mut lent = Writes {
        placed,
        moved,
        open,
        order,
        list,
    };
    lent.run(group, count, start, allowance)
}
