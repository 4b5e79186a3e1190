// Different pairs of numbers in the order in which they were first added, and the chains of pairs that have one number.
ghost use Rattle.std.specs.Prelude.{ℕ, ◌≤◌, ◌≡◌, ◌++◌, length, get_or, drop, replicate};
ghost use Rattle.lists.specs.Pairs.{Room, Added, Linkable, Linked};

use super::bits;

// A row of bits for each first number says which pairs stand there, and both numbers of each pair. These are two arrays with one count:
// `Chains::link` takes one of them as its keys, and an `ArrayVec` for each would store the count twice.
#[derive(Drop)]
pub struct Pairs<const WORDS: usize, const PLACES: usize> {
    pub seen: [u64; WORDS],
    pub from: [u16; PLACES],
    pub to: [u16; PLACES],
    pub count: usize,
    pub ghost within: { count ≤ PLACES },
    pub ghost sizes: { (length seen ≡ WORDS) × (length from ≡ PLACES) × (length to ≡ PLACES) },
}

impl<const WORDS: usize, const PLACES: usize> Pairs<WORDS, PLACES> {
    pub fn new() -> Self
        ensures none { result.count ≡ 0 }
        ensures seen { (k : ℕ) → get_or result.seen k 0 ≡ 0 }
        ensures from { (i : ℕ) → get_or result.from i 0 ≡ 0 }
        ensures to { (i : ℕ) → get_or result.to i 0 ≡ 0 }
    {
        Self {
            seen: [0; WORDS],
            from: [0; PLACES],
            to: [0; PLACES],
            count: 0,
        }
    }

    // Takes the pairs away; their bits stand in the first words.
    pub fn clear(&mut self, words: usize)
        requires { words ≤ WORDS }
        ensures none { self.new.count ≡ 0 }
        ensures seen { self.new.seen ≡ replicate words 0 ++ drop words self.old.seen }
        ensures from { self.new.from ≡ self.old.from }
        ensures to { self.new.to ≡ self.old.to }
    {
        self.seen[..words].fill(0);
        self.count = 0;
    }

    // Adds the pair (a, b), unless it stands there. `seen` has a row of `width` bits for each first number.
    pub fn add(&mut self, width: usize, a: u16, b: u16)
        requires { Room width a b self.old.seen self.old.from self.old.to self.old.count }
        ensures { Added width a b self.old.seen self.old.from self.old.to self.old.count self.new.seen
            self.new.from self.new.to self.new.count }
    {
        let k = usize::from(a) * width + usize::from(b);
        if bits::row_has(&self.seen, k) {
            return;
        }
        bits::row_insert(&mut self.seen, k);
        let place = self.count;
        self.from[place] = a;
        self.to[place] = b;
        self.count = place + 1;
    }
}

// Chains the places of keys: heads[k] is one more than the first place of key k, next[i] one more than the next place of the key at place i, and 0 stands
// for none. What `next` holds behind them, and the heads of other keys, may be anything.
pub fn link(keys: &[u16], heads: &mut [u16], next: &mut [u16])
    requires { Linkable keys.now (length keys.now) heads.old next.old }
    ensures { Linked 0 keys.now (length keys.now) heads.old next.old heads.new next.new }
{
    for (place, &number) in keys.iter().enumerate().rev() {
        let key = usize::from(number);
        next[place] = heads[key];
        heads[key] = (place + 1) as u16;
    }
}
