// A group's items numbered, and its needs laid out for the walk.
#![tactic(auto)]

ghost use Rattle.std.specs.Prelude.{ℕ, ◌*◌, ◌≤◌, ◌<◌, ◌≡◌, length, get_or};
ghost use Rattle.rules.specs.Project.{item_limit};

use graph::Graph;
use lists::chains::Chain;
use project::sections::{NeedRow, Row};
use project::{ItemId, Layout, NodeId};
use split::Split;
use split::rows::ItemRows;

// `numbers` has the number of each of the group's rows, found by row. What it has of other rows may be from another group.
#[derive(Drop)]
pub struct Group<const WORDS: usize, const NEEDS: usize> {
    pub split: Split,
    pub numbers: [u16; Layout::ITEM_ROOM],
    pub graph: Graph<WORDS, NEEDS>,
    pub ghost size: { length numbers ≡ item_limit },
}

impl<const WORDS: usize, const NEEDS: usize> Group<WORDS, NEEDS> {
    ghost use Rattle.std.specs.Prelude.{List, [], reverse, take};
    ghost use Rattle.rules.specs.Project.{Project, Need};
    ghost use Rattle.project.specs.Decoded.{need_in};
    ghost use Rattle.owners.specs.Owners.{NeedsAlong};
    ghost use Rattle.graph.specs.Rows.{words_for};
    ghost use Rattle.graph.specs.Graph.{NeighboursChained, Laid};
    ghost use Rattle.layout.specs.Numbers.{note_from, NumberedAs, Noted, Numberable, ItemsNumbered};
    ghost use Rattle.layout.specs.Needs.{add_need, add_needs, needs_among, Shows, NeedRoom, LayRoom};

    // No items.
    pub fn new() -> Self
        requires bounds { WORDS ≤ 65536 }
        ensures none { (result.graph.nodes ≡ 0) × (result.split.count ≡ 0) }
    {
        Self {
            split: Split::new(),
            numbers: [0; Layout::ITEM_ROOM],
            graph: Graph::new(),
        }
    }

    // Notes the number of each of the group's rows. Rows of other groups keep what was noted of them.
    pub fn note_numbers(&mut self)
        requires { (x : ℕ) → x < self.old.split.count → get_or self.old.split.rows x 0 < item_limit }
        ensures numbers { self.new.numbers ≡ note_from 0 (take self.old.split.count self.old.split.rows) self.old.numbers }
        ensures split { self.new.split ≡ self.old.split }
        ensures graph { self.new.graph ≡ self.old.graph }
    {
        let split = &self.split;
        for (x, &row) in split.rows[..split.count].iter().enumerate() {
            self.numbers[usize::from(row)] = x as u16;
        }
    }

    // Splits the kept items of modules, and notes the numbers of their rows.
    pub fn number_items(&mut self, items: &ItemRows, modules: &[u8])
        requires { (p : Project) × Numberable p modules.now items.now }
        ensures numbered { (p : Project) → Numberable p modules.now items.now → ItemsNumbered p modules.now self.new }
        ensures graph { self.new.graph ≡ self.old.graph }
    {
        self.split.split_items(items, modules);
        self.note_numbers();
    }

    // The number of a row, if it is one of the group's.
    pub fn number_of(&self, item: ItemId) -> Option<NodeId>
        requires { Noted self.now.split self.now.numbers × (item.0 < item_limit) }
        ensures { NumberedAs (take self.now.split.count self.now.split.rows) item.0 result }
    {
        let x = self.numbers[usize::from(item)];
        let at = usize::from(x);
        if at < self.split.count && self.split.rows[at] == item.0 {
            return Some(NodeId(x));
        }
        None
    }

    // Adds a need where both its items are the group's.
    fn add_need(&mut self, need: NeedRow)
        requires noted { Noted self.old.split self.old.numbers }
        requires ends { (need.dependant.0 < item_limit) × (need.dependency.0 < item_limit) }
        requires room { (needs : List Need) × NeedRoom needs self.old.split self.old.graph }
        ensures added { (needs : List Need) → NeedRoom needs self.old.split self.old.graph
            → Shows (add_need (take self.old.split.count self.old.split.rows) needs (need_in need)) self.old.split self.new.graph }
        ensures split { self.new.split ≡ self.old.split }
        ensures numbers { self.new.numbers ≡ self.old.numbers }
    {
        let Some(x) = self.number_of(need.dependant) else {
            return;
        };
        let Some(y) = self.number_of(need.dependency) else {
            return;
        };
        self.graph.add_edge(x, y, need.weight);
    }

    // Adds, in their order, the needs along a chain whose two ends are items of the group to the graph without needs.
    fn add_needs(&mut self, needs: &[u8], own: Chain<'_>)
        requires noted { Noted self.old.split self.old.numbers }
        requires along { (all : List Need) × NeedsAlong needs.now own.next.now own.entry all × Shows [] self.old.split self.old.graph × (length all ≤ NEEDS) }
        ensures added { (all : List Need) → NeedsAlong needs.now own.entry.next.now own.entry.entry all → Shows [] self.old.split self.old.graph → length all ≤ NEEDS
            → Shows (reverse (needs_among (take self.old.split.count self.old.split.rows) all)) self.old.split self.new.graph }
        ensures split { self.new.split ≡ self.old.split }
        ensures numbers { self.new.numbers ≡ self.old.numbers }
    {
        for row in own {
            self.add_need(NeedRow::nth(needs, row));
        }
    }

    // Lays out the needs along a chain whose two ends are items of the group, by their numbers. What the graph's arrays hold beyond what a walk reads is
    // left free.
    pub fn lay_needs(&mut self, needs: &[u8], own: Chain<'_>)
        requires noted { Noted self.old.split self.old.numbers }
        requires along { (all : List Need) × NeedsAlong needs.now own.next.now own.entry all × LayRoom WORDS NEEDS self.old.split.count all }
        ensures laid { (all : List Need) → NeedsAlong needs.now own.entry.next.now own.entry.entry all → LayRoom WORDS NEEDS self.old.split.count all
            → Laid (needs_among (take self.old.split.count self.old.split.rows) all) self.new.graph }
        ensures chained { (all : List Need) → NeedsAlong needs.now own.entry.next.now own.entry.entry all → LayRoom WORDS NEEDS self.old.split.count all
            → NeighboursChained (needs_among (take self.old.split.count self.old.split.rows) all) self.new.graph }
        ensures nodes { self.new.graph.nodes ≡ self.old.split.count }
        ensures words { self.new.graph.weak.words ≡ words_for self.old.split.count }
        ensures split { self.new.split ≡ self.old.split }
        ensures numbers { self.new.numbers ≡ self.old.numbers }
    {
        let count = self.split.count;
        if own.is_empty() {
            self.graph.lay_out_none(count);
            return;
        }
        self.graph.clear(count);
        self.add_needs(needs, own);
        self.graph.link();
    }
}
