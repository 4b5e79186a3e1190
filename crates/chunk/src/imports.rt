// The imports of a project laid out for the module walk, and those of a circle's members that are open.
ghost use Rattle.std.specs.Prelude.{ℕ, ◌<◌, ◌≡◌, length, get_or};
ghost use Rattle.rules.specs.Project.{module_limit};

use crate::open::Open;
use lists::chains::Chains;
use lists::pairs::Pairs;
use project::reader::Reader;
use project::sections::ImportRow;
use project::{Layout, ModuleId};

// The words of a set of pairs of modules, a bit for each.
const PAIR_WORDS: usize = Layout::MODULE_ROOM * Layout::MODULE_ROOM / 64;

// The different import rows as pairs of modules, and for each module the chain of its rows.
#[derive(Drop)]
pub struct Imports {
    pub rows: Pairs<PAIR_WORDS, { Layout::IMPORT_ROOM }>,
    pub chains: Chains<{ Layout::MODULE_ROOM }, { Layout::IMPORT_ROOM }>,
    pub ghost below: { (i : ℕ) → get_or rows.to i 0 < module_limit },
}

impl Imports {
    ghost use Rattle.rules.specs.Project.{import_row, pair_rows};
    ghost use Rattle.lists.specs.Stacks.{placed_below, Placeable, Placed};
    ghost use Rattle.chunk.specs.Imports.{FitRows, Fresh, Laid, Members, open_left, open_of, open_imports};

    // No rows.
    pub fn new() -> Self
        ensures { Fresh result }
    {
        Self {
            rows: Pairs::new(),
            chains: Chains::new(),
        }
    }

    // Lays the rows of an imports section out.
    pub fn lay_out(&mut self, section: &[u8])
        requires fit_rows { FitRows (pair_rows import_row section.now) }
        requires fresh { Fresh self.old }
        ensures { Laid (pair_rows import_row section.now) self.new }
    {
        for row in Reader::<ImportRow>::new(section) {
            self.rows.add(
                Layout::MODULE_ROOM,
                u16::from(row.importer.0),
                u16::from(row.imported.0),
            );
        }
        let rows = &self.rows;
        self.chains.link(&rows.from[..rows.count]);
    }

    // The open imports of m, in the order of their first rows.
    pub fn open(&self, m: ModuleId, done: u64, circle: u64) -> Open<'_>
        requires { m.0 < module_limit }
        ensures { open_left result ≡ open_of self.now done circle m.0 }
    {
        Open {
            to: &self.rows.to,
            chain: self.chains.chain(usize::from(m)),
            done,
            circle,
        }
    }

    // How many they are.
    fn count_open(&self, m: ModuleId, done: u64, circle: u64) -> usize
        requires { m.0 < module_limit }
        ensures { result ≡ length (open_of self.now done circle m.0) }
    {
        self.open(m, done, circle).count()
    }

    // How many open imports the members have together.
    pub fn count_all(&self, members: &[u8], done: u64, circle: u64) -> usize
        requires { Members members.now }
        ensures { result ≡ length (open_imports self.now done circle members.now) }
    {
        members
            .iter()
            .map(|&member| self.count_open(ModuleId(member), done, circle))
            .sum()
    }

    // Puts the open imports of m below `top`, the first uppermost; the index of the last. How many there are is known only after the loop, so the
    // index is counted down by hand.
    fn place_open(&self, m: ModuleId, done: u64, circle: u64, list: &mut [u8], top: usize) -> usize
        requires m_lt_module_limit { m.0 < module_limit }
        requires placeable { Placeable top (open_of self.now done circle m.0) list.old }
        ensures { Placed top (open_of self.now done circle m.0) list.old list.new result }
    {
        let mut at = top;
        for d in self.open(m, done, circle) {
            at -= 1;
            list[at] = d.0;
        }
        at
    }

    // Puts the open imports of the members below `top`, the first uppermost.
    pub fn place_all(&self, members: &[u8], done: u64, circle: u64, list: &mut [u8], top: usize)
        requires members { Members members.now }
        requires placeable { Placeable top (open_imports self.now done circle members.now) list.old }
        ensures { list.new ≡ placed_below top (open_imports self.now done circle members.now) list.old }
    {
        let mut at = top;
        for &member in members {
            at = self.place_open(ModuleId(member), done, circle, list, at);
        }
    }
}
