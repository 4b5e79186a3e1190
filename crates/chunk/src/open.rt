// The open imports of a module: those that are neither done nor in the circle. The two sets stay apart, as in the definition.
ghost use Rattle.std.specs.Prelude.{ℕ, ◌<◌, ◌≡◌, get_or};
ghost use Rattle.std.specs.Iterator.{YieldsFirstBy, item_count};
ghost use Rattle.rules.specs.Project.{module_limit, import_limit};
ghost use Rattle.laws.specs.Counting.{Below};
ghost use Rattle.lists.specs.Chained.{places};
ghost use Rattle.chunk.specs.Open.{is_open, open_from};

use lists::bits;
use lists::chains::Chain;
use project::{Layout, ModuleId};

// Whether an import counts.
fn is_open(d: ModuleId, done: u64, circle: u64) -> bool
    requires { d.0 < module_limit }
    ensures { result ≡ is_open done circle d.0 }
{
    !bits::has(done, d.0) && !bits::has(circle, d.0)
}

// Those along a chain of places, at which their numbers stand.
#[derive(Clone, Copy)]
pub struct Open<'a> {
    pub to: &'a [u16; Layout::IMPORT_ROOM],
    pub chain: Chain<'a>,
    pub done: u64,
    pub circle: u64,
    pub ghost within: { Below import_limit (places chain.next.now chain.entry) },
    pub ghost below: { (i : ℕ) → get_or to.now i 0 < module_limit },
}

impl<'a> Iterator for Open<'a> {
    type Item = ModuleId;

    ghost next_gives = { YieldsFirstBy (λ d. d.0) (λ s. open_from s.to.now s.chain.next.now s.done s.circle s.chain.entry) };

    ghost remaining = { item_count (λ s. open_from s.to.now s.chain.next.now s.done s.circle s.chain.entry) };

    fn next(&mut self) -> Option<ModuleId> {
        // No `find` over the chain: that its closure may be called at each place would have to be shown by hand.
        while let Some(place) = self.chain.next() {
            let d = ModuleId(self.to[place] as u8);
            if is_open(d, self.done, self.circle) {
                return Some(d);
            }
        }
        None
    }
}
