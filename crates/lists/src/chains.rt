// Chains of places by key: an entry is one more than a place, and 0 stands for none. As an Option it would take twice the bytes, which are cleared for
// each call.
ghost use Rattle.std.specs.Prelude.{ℕ, ◌+◌, ◌≤◌, ◌<◌, ◌≡◌, ◌^◌, ◌++◌, eqb, length, get_or, set, drop, replicate};
ghost use Rattle.std.specs.Iterator.{YieldsFirst, item_count};
ghost use Rattle.lists.specs.Chained.{Ascends, Leads, places};
ghost use Rattle.lists.specs.Pairs.{Linkable, Linked};

use super::pairs;

// The places of one chain, which ascend.
#[derive(Clone, Copy)]
pub struct Chain<'a> {
    pub next: &'a [u16],
    pub entry: u16,
    pub ghost leads: { Leads next.now entry },
}

impl<'a> Chain<'a> {
    // Whether it has no places.
    pub fn is_empty(self) -> bool
        ensures { result ≡ eqb self.entry.entry 0 }
    {
        self.entry == 0
    }

    // The chain without its places.
    pub fn emptied(self) -> Self
        ensures next { result.next.now ≡ self.entry.next.now }
        ensures entry { result.entry ≡ 0 }
    {
        Chain {
            next: self.next,
            entry: 0,
        }
    }
}

impl<'a> Iterator for Chain<'a> {
    type Item = usize;

    ghost next_gives = { YieldsFirst (λ s. places s.next.now s.entry) };

    ghost remaining = { item_count (λ s. places s.next.now s.entry) };

    fn next(&mut self) -> Option<usize> {
        if self.entry == 0 {
            return None;
        }
        let place = usize::from(self.entry) - 1;
        self.entry = self.next[place];
        Some(place)
    }
}

// For each key the entry of its first place, and for each place the entry of the next one.
#[derive(Drop)]
pub struct Chains<const KEYS: usize, const PLACES: usize> {
    pub heads: [u16; KEYS],
    pub next: [u16; PLACES],
    pub ghost ascends: { Ascends heads next },
    pub ghost sizes: { (length heads ≡ KEYS) × (length next ≡ PLACES) },
}

impl<const KEYS: usize, const PLACES: usize> Chains<KEYS, PLACES> {
    pub fn new() -> Self
        ensures heads { (k : ℕ) → get_or result.heads k 0 ≡ 0 }
        ensures next { (i : ℕ) → get_or result.next i 0 ≡ 0 }
    {
        Self {
            heads: [0; KEYS],
            next: [0; PLACES],
        }
    }

    // Takes the chains of the first keys away.
    pub fn clear(&mut self, keys: usize)
        requires { keys ≤ KEYS }
        ensures heads { self.new.heads ≡ replicate keys 0 ++ drop keys self.old.heads }
        ensures next { self.new.next ≡ self.old.next }
    {
        self.heads[..keys].fill(0);
    }

    // Puts a place in front of a key's chain, whose places are larger.
    pub fn put_first(&mut self, key: usize, place: usize)
        requires key { key < KEYS }
        requires place { (place < PLACES) × (place + 1 < 2 ^ 16) }
        requires larger { 0 < get_or self.old.heads key 0 → place + 1 < get_or self.old.heads key 0 }
        ensures heads { self.new.heads ≡ set self.old.heads key (place + 1) }
        ensures next { self.new.next ≡ set self.old.next place (get_or self.old.heads key 0) }
    {
        self.next[place] = self.heads[key];
        self.heads[key] = (place + 1) as u16;
    }

    // Chains the places of keys, so that the chain of a key has its places.
    pub fn link(&mut self, keys: &[u16])
        requires { Linkable keys.now (length keys.now) self.old.heads self.old.next }
        ensures { Linked 0 keys.now (length keys.now) self.old.heads self.old.next self.new.heads self.new.next }
    {
        pairs::link(keys, &mut self.heads, &mut self.next);
    }

    // The chain of a key.
    pub fn chain(&self, key: usize) -> Chain<'_>
        requires { key < KEYS }
        ensures next { result.next.now ≡ self.now.next }
        ensures entry { result.entry ≡ get_or self.now.heads key 0 }
    {
        Chain {
            next: &self.next,
            entry: self.heads[key],
        }
    }
}
