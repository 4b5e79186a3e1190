// The graph of one group's needs (StmtDepGraph): weights, what each item reaches, the record of paths, and neighbours in the order of first rows. The
// items are the numbers below `nodes`. A matrix has a row for each of them. `remove_node` takes out nothing, so there is none here.
#![tactic(auto)]

ghost use Rattle.std.specs.Prelude.{ℕ, ◌+◌, ◌*◌, ◌≤◌, ◌<◌, ◌≡◌, eqb, length, get_or};
ghost use Rattle.graph.specs.Rows.{Place, Stored, Fits, words_for};

pub mod neighbours;
pub mod rows;
mod transitives;
mod word;

use lists::bits;
use lists::chains::Chains;
use lists::pairs::Pairs;
use neighbours::Neighbours;
use project::kinds::WeightByte;
use project::{Layout, NodeId};
use rows::Matrix;

// The rows of `weak`, `reach` and `paths` have as many words. `into` has what reaches each item, and is used only where rows have one word; `outgoing`
// and `incoming` chain the pairs by their first numbers and by their second ones.
#[derive(Drop)]
pub struct Graph<const WORDS: usize, const NEEDS: usize> {
    pub nodes: usize,
    pub pairs: Pairs<WORDS, NEEDS>,
    pub weak: Matrix<WORDS>,
    pub reach: Matrix<WORDS>,
    pub paths: Matrix<WORDS>,
    pub into: [u64; 64],
    pub outgoing: Chains<{ Layout::ITEM_ROOM }, NEEDS>,
    pub incoming: Chains<{ Layout::ITEM_ROOM }, NEEDS>,
    pub ghost size: { length into ≡ 64 },
    pub ghost same: { (reach.words ≡ weak.words) × (paths.words ≡ weak.words) },
    pub ghost fits: { Fits WORDS weak.words nodes },
    pub ghost bounds: { WORDS ≤ 65536 },
}

// Notes the weight of the pair (x, y): whether it is Maybe.
fn set_weight<const WORDS: usize>(weak: &mut Matrix<WORDS>, x: usize, y: usize, weight: WeightByte)
    requires { Place weak.old.words x y weak.old.cells }
    ensures words { weak.new.words ≡ weak.old.words }
    ensures stored { Stored (x * (64 * weak.old.words) + y) (eqb weight.0 1) weak.old.cells weak.new.cells }
{
    if weight.is_maybe() {
        weak.insert(x, y);
    } else {
        weak.remove(x, y);
    }
}

impl<const WORDS: usize, const NEEDS: usize> Graph<WORDS, NEEDS> {
    ghost use Rattle.std.specs.Prelude.{List, [], reverse};
    ghost use Rattle.rules.specs.Project.{Need, item_limit};
    ghost use Rattle.rules.specs.Paths.{dependencies_of, dependants_of, in_paths};
    ghost use Rattle.graph.specs.Graph.{nodes_left, is_maybe, matrices_of, Cleared, EdgeRoom, EdgeAdded, NeighboursLaid, NeighboursChained, Laid, LinkRoom16, PairsOf, Linked, Rechained};

    // No items.
    pub fn new() -> Self
        requires bounds { WORDS ≤ 65536 }
        ensures none { result.nodes ≡ 0 }
    {
        Self {
            nodes: 0,
            pairs: Pairs::new(),
            weak: Matrix::new(),
            reach: Matrix::new(),
            paths: Matrix::new(),
            into: [0; 64],
            outgoing: Chains::new(),
            incoming: Chains::new(),
        }
    }

    // Clears the matrices for so many items: the graph without needs, with no pair yet.
    pub fn clear(&mut self, nodes: usize)
        requires { Fits WORDS (words_for nodes) nodes }
        ensures nodes { self.new.nodes ≡ nodes }
        ensures words { self.new.weak.words ≡ words_for nodes }
        ensures none { self.new.pairs.count ≡ 0 }
        ensures cleared { Cleared (words_for nodes) nodes (matrices_of self.old) (matrices_of self.new) }
        ensures from { self.new.pairs.from ≡ self.old.pairs.from }
        ensures to { self.new.pairs.to ≡ self.old.pairs.to }
        ensures outgoing { self.new.outgoing ≡ self.old.outgoing }
        ensures incoming { self.new.incoming ≡ self.old.incoming }
    {
        let words = rows::words_of(nodes);
        self.nodes = nodes;
        self.pairs.clear(nodes * words);
        self.weak.clear(nodes, words);
        self.reach.clear(nodes, words);
        self.paths.clear(nodes, words);
        if words == 1 {
            self.into = [0; 64];
        }
    }

    // Adds the need x to y (add_edge).
    pub fn add_edge(&mut self, x: NodeId, y: NodeId, weight: WeightByte)
        requires { EdgeRoom self.old.weak.words self.old.nodes x.0 y.0 (matrices_of self.old) self.old.pairs.from self.old.pairs.to self.old.pairs.count }
        ensures added { EdgeAdded self.old.weak.words self.old.nodes x.0 y.0 weight.0 (matrices_of self.old) self.old.pairs.from
            self.old.pairs.to self.old.pairs.count (matrices_of self.new) self.new.pairs.from
            self.new.pairs.to self.new.pairs.count }
        ensures nodes { self.new.nodes ≡ self.old.nodes }
        ensures words { self.new.weak.words ≡ self.old.weak.words }
        ensures outgoing { self.new.outgoing ≡ self.old.outgoing }
        ensures incoming { self.new.incoming ≡ self.old.incoming }
    {
        let a = usize::from(x);
        let b = usize::from(y);
        self.pairs.add(64 * self.weak.words, x.0, y.0);
        set_weight(&mut self.weak, a, b, weight);
        transitives::insert_transitives(
            &mut self.paths,
            &mut self.reach,
            &mut self.into,
            self.nodes,
            a,
            b,
        );
    }

    // Chains each item's dependencies, outgoing, and its dependants, incoming.
    pub fn link(&mut self)
        requires { LinkRoom16 self.old }
        ensures neighbours { (needs : List Need) → PairsOf needs self.old → NeighboursLaid needs self.new }
        ensures chained { (needs : List Need) → PairsOf needs self.old → NeighboursChained needs self.new }
        ensures nodes { self.new.nodes ≡ self.old.nodes }
        ensures linked { Linked self.old self.new }
        ensures rechained { Rechained self.old self.new }
    {
        let nodes = self.nodes;
        let outgoing = &mut self.outgoing;
        let incoming = &mut self.incoming;
        neighbours::links(
            &self.pairs.from[..],
            &self.pairs.to[..],
            self.pairs.count,
            nodes,
            &mut outgoing.heads[..],
            &mut outgoing.next[..],
            &mut incoming.heads[..],
            &mut incoming.next[..],
        );
    }

    // Lays out so many items without needs: only what a walk reads is cleared, and what the other arrays hold is left free.
    pub fn lay_out_none(&mut self, nodes: usize)
        requires { Fits WORDS (words_for nodes) nodes }
        ensures laid { Laid [] self.new }
        ensures chained { NeighboursChained [] self.new }
        ensures nodes { self.new.nodes ≡ nodes }
        ensures words { self.new.weak.words ≡ words_for nodes }
    {
        let row_words = rows::words_of(nodes);
        self.nodes = nodes;
        self.weak.clear(nodes, row_words);
        self.reach.words = row_words;
        self.paths.clear(nodes, row_words);
        self.outgoing.clear(nodes);
        self.incoming.clear(nodes);
    }

    // The dependencies of x, in the order of their first rows.
    pub fn dependencies(&self, x: NodeId) -> Neighbours<'_>
        requires { x.0 < item_limit }
        ensures { (needs : List Need) → NeighboursLaid needs self.now → x.0 < self.now.nodes → nodes_left result ≡ dependencies_of needs x.0 }
    {
        Neighbours {
            ends: &self.pairs.to,
            chain: self.outgoing.chain(usize::from(x)),
        }
    }

    // The dependants of x, in the order of their first rows. One method with a direction, as neighbors_directed, would test it at each call.
    pub fn dependants(&self, x: NodeId) -> Neighbours<'_>
        requires { x.0 < item_limit }
        ensures { (needs : List Need) → NeighboursLaid needs self.now → x.0 < self.now.nodes → nodes_left result ≡ dependants_of needs x.0 }
    {
        Neighbours {
            ends: &self.pairs.from,
            chain: self.incoming.chain(usize::from(x)),
        }
    }

    // Whether P(a) holds b.
    pub fn has_path(&self, a: NodeId, b: NodeId) -> bool
        requires { (a.0 < self.now.nodes) × (b.0 < self.now.nodes) }
        ensures { (needs : List Need) → Laid needs self.now → result ≡ in_paths (reverse needs) a.0 b.0 }
    {
        self.paths.holds(usize::from(a), usize::from(b))
    }

    // Whether the weight of the pair (x, y) is Maybe.
    pub fn is_weak(&self, x: NodeId, y: NodeId) -> bool
        requires { (x.0 < self.now.nodes) × (y.0 < self.now.nodes) }
        ensures { (needs : List Need) → Laid needs self.now → result ≡ is_maybe (reverse needs) x.0 y.0 }
    {
        self.weak.holds(usize::from(x), usize::from(y))
    }
}

#[cfg(test)]
mod tests {
    use super::*;
    use std::test::Fail;

    // Chaining where there are no pairs: no neighbours.
    #[test]
    fn no_needs() -> Result<(), Fail> {
        let mut graph: Graph<4, 4> = Graph::new();
        graph.clear(2);
        graph.link();
        let dependency = graph.dependencies(NodeId(0)).next();
        dependency
            .is_none()
            .then_some(())
            .ok_or("dependencies of 0")?;
        let dependant = graph.dependants(NodeId(0)).next();
        dependant.is_none().then_some(()).ok_or("dependants of 0")?;
        Ok(())
    }

    // Item 0 needs item 1, which it may do without. Laid out anew without needs, they have no neighbours, path or weight.
    #[test]
    fn one_need() -> Result<(), Fail> {
        let mut graph: Graph<4, 4> = Graph::new();
        graph.clear(2);
        graph.add_edge(NodeId(0), NodeId(1), WeightByte(1));
        graph.link();
        let dependency = graph.dependencies(NodeId(0)).next();
        dependency
            .is_some_and(|x| x.0 == 1)
            .then_some(())
            .ok_or("dependency of 0")?;
        let dependant = graph.dependants(NodeId(1)).next();
        dependant
            .is_some_and(|x| x.0 == 0)
            .then_some(())
            .ok_or("dependant of 1")?;
        let none = graph.dependencies(NodeId(1)).next();
        none.is_none().then_some(()).ok_or("dependencies of 1")?;
        graph
            .has_path(NodeId(0), NodeId(1))
            .then_some(())
            .ok_or("path from 0 to 1")?;
        (!graph.has_path(NodeId(1), NodeId(0)))
            .then_some(())
            .ok_or("path from 1 to 0")?;
        graph
            .is_weak(NodeId(0), NodeId(1))
            .then_some(())
            .ok_or("weight of 0 and 1")?;
        graph.lay_out_none(2);
        let dependency = graph.dependencies(NodeId(0)).next();
        dependency
            .is_none()
            .then_some(())
            .ok_or("dependencies of 0, laid out anew")?;
        let dependant = graph.dependants(NodeId(1)).next();
        dependant
            .is_none()
            .then_some(())
            .ok_or("dependants of 1, laid out anew")?;
        (!graph.has_path(NodeId(0), NodeId(1)))
            .then_some(())
            .ok_or("path, laid out anew")?;
        (!graph.is_weak(NodeId(0), NodeId(1)))
            .then_some(())
            .ok_or("weight, laid out anew")?;
        Ok(())
    }
}
