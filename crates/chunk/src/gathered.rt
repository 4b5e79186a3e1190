// Modules gathered, each once.
ghost use Rattle.std.specs.Prelude.{◌≤◌, ◌≡◌, length, take};
ghost use Rattle.rules.specs.Project.{module_limit};
ghost use Rattle.laws.specs.Lists.{Once};
ghost use Rattle.laws.specs.Counting.{Below};
ghost use Rattle.chunk.specs.Marks.{Marks, once-prop};

use lists::bits;
use project::{Layout, ModuleId};

// The first `count` bytes, in the order in which they came, and the same as a set. No `ArrayVec`: it would store its length at each push. A
// count kept in the struct did so, and circles took 1.15 as long (docs/DECISIONS.md).
#[derive(Drop)]
pub struct Gathered {
    pub array: [u8; Layout::MODULE_ROOM],
    pub count: usize,
    pub have: u64,
    pub ghost sizes: { (length array ≡ module_limit) × (count ≤ module_limit) },
    pub ghost once: { Once (take count array) } by { once-prop (take count array) },
    pub ghost below: { Below module_limit (take count array) },
    pub ghost marks: { Marks have (take count array) },
}

impl Gathered {
    ghost use Rattle.std.specs.Prelude.{◌<◌, [], ◌∷◌, reverse};
    ghost use Rattle.chunk.specs.Circles.{gathered_on, Appended};

    pub fn new() -> Self
        ensures { result.count ≡ 0 }
    {
        Self {
            array: [0; Layout::MODULE_ROOM],
            count: 0,
            have: 0,
        }
    }

    pub fn members(&self) -> &[u8]
        ensures { result.now ≡ gathered_on self.now }
    {
        &self.array[..self.count]
    }

    // Appends a module, unless it is among them.
    pub fn append_one(&mut self, m: ModuleId)
        requires { m.0 < module_limit }
        ensures { Appended self.old self.new (m.0 ∷ []) }
    {
        self.append_new(&[m.0]);
    }

    // Appends the modules of a list, each once. In the loop count and set are variables, for the same reason.
    pub fn append_new(&mut self, list: &[u8])
        requires { Below module_limit list.now }
        ensures { Appended self.old self.new list.now }
    {
        let mut count = self.count;
        let mut have = self.have;
        for &m in list {
            if !bits::has(have, m) {
                self.array[count] = m;
                have = bits::with(have, m);
                count += 1;
            }
        }
        self.count = count;
        self.have = have;
    }

    pub fn reverse(&mut self)
        ensures { gathered_on self.new ≡ reverse (gathered_on self.old) }
    {
        let mut array = self.array;
        array[..self.count].reverse();
        self.array = array;
    }
}
