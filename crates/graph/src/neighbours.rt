// Neighbours in the order of first rows (neighbors_directed), along a chain of places among the different pairs.
ghost use Rattle.std.specs.Prelude.{length};
ghost use Rattle.std.specs.Iterator.{YieldsFirstBy, item_count};
ghost use Rattle.laws.specs.Counting.{Below};
ghost use Rattle.lists.specs.Chained.{places};
ghost use Rattle.graph.specs.Links.{LinksRoom, LinksMade};
ghost use Rattle.graph.specs.Neighbours.{nodes_along};

use lists::chains::Chain;
use lists::pairs;
use project::NodeId;

// Those along a chain of places, at which their numbers stand.
#[derive(Clone, Copy)]
pub struct Neighbours<'a> {
    pub ends: &'a [u16],
    pub chain: Chain<'a>,
    pub ghost within: { Below (length ends.now) (places chain.next.now chain.entry) },
}

impl<'a> Iterator for Neighbours<'a> {
    type Item = NodeId;

    ghost next_gives = { YieldsFirstBy (λ d. d.0) (λ s. nodes_along s.ends.now s.chain.next.now s.chain.entry) };

    ghost remaining = { item_count (λ s. nodes_along s.ends.now s.chain.next.now s.chain.entry) };

    fn next(&mut self) -> Option<NodeId> {
        let place = self.chain.next()?;
        Some(NodeId(self.ends[place]))
    }
}

// Chains the dependencies of each of n items, outgoing, and its dependants, incoming, by the first `count` pairs. What their heads held is cleared.
pub fn links(
    from: &[u16],
    to: &[u16],
    count: usize,
    n: usize,
    heads_out: &mut [u16],
    next_out: &mut [u16],
    heads_in: &mut [u16],
    next_in: &mut [u16],
)
    requires { LinksRoom n from.now to.now count heads_out.old next_out.old heads_in.old next_in.old }
    ensures { LinksMade n from.now to.now count heads_out.old next_out.old heads_in.old next_in.old
        heads_out.new next_out.new heads_in.new next_in.new }
{
    heads_out[..n].fill(0);
    pairs::link(&from[..count], heads_out, next_out);
    heads_in[..n].fill(0);
    pairs::link(&to[..count], heads_in, next_in);
}
