// The split of a group's kept items (sort_stmts): uninjected ones by module, then injected ones, numbered from 0.
#![tactic(auto)]

pub mod rows;

ghost use Rattle.std.specs.Prelude.{ℕ, ◌+◌, ◌-◌, ◌≤◌, ◌<◌, ◌≡◌, length};
ghost use Rattle.rules.specs.Lists.{up_from};
ghost use Rattle.rules.specs.Project.{Project, module_limit, item_limit};
ghost use Rattle.rules.specs.Items.{Group, first_list as first_list_of};
ghost use Rattle.split.specs.Rows.{kept_as};
ghost use Rattle.split.specs.Pushed.{Pushed};
ghost use Rattle.split.specs.FirstSlices.{held_by, StartsWithin, ListableOn, FirstListed};

use project::kinds::KindByte;
use project::sections::{ItemRow, Row};
use project::{Layout, ModuleId};
use rows::ItemRows;

// Whether items of a kind are kept, and are injected or not as asked.
fn is_kept_as(kind: KindByte, injected: bool) -> bool
    ensures { result ≡ kept_as injected kind.0 }
{
    kind.is_kept() & (kind.is_injected() == injected)
}

// Puts the numbers from `low` on and below `high` in front of a list, the lowest foremost; the list's end then. (One function over an iterator would need
// clauses on what it yields.)
fn push_numbers(low: usize, high: usize, list: &mut [u16], end: usize) -> usize
    requires { (high ≤ 65536) × (end + (high - low) ≤ length list.old) }
    ensures { Pushed (up_from low (high - low)) list.old end list.new result }
{
    for (i, x) in (low..high).rev().enumerate() {
        list[end + i] = x as u16;
    }
    end + high.saturating_sub(low)
}

// Puts entries in front of a list, the first foremost; the list's end then.
pub fn push_entries(entries: &[u16], list: &mut [u16], end: usize) -> usize
    requires { end + length entries.now ≤ length list.old }
    ensures { Pushed entries.now list.old end list.new result }
{
    for (i, &x) in entries.iter().rev().enumerate() {
        list[end + i] = x;
    }
    end + entries.len()
}

// Puts the range holding each start in front of a list, that of the first start foremost; the list's end then. Where no range holds it, there are no
// numbers from `low` on and below `high`.
fn push_ranges(low: &[u16], high: &[u16], starts: &[u16], list: &mut [u16], end: usize) -> usize
    requires { (g : Group) × StartsWithin g low.now high.now starts.now × (end + length (held_by g starts.now) ≤ length list.old) }
    ensures { (g : Group) → StartsWithin g low.now high.now starts.now → Pushed (held_by g starts.now) list.old end list.new result }
{
    let mut n = end;
    for &start in starts.iter().rev() {
        let x = usize::from(start);
        n = push_numbers(usize::from(low[x]), usize::from(high[x]), list, n);
    }
    n
}

// Writes the walk's first list, its front at the end index; the end. "The list starts as all starts; then, per start, the range holding it, if any;
// then the injected items." There may be any number of starts, one for each module. The injected items are the numbers from `uninjected` on and below
// `count`.
pub fn first_list(
    low: &[u16],
    high: &[u16],
    starts: &[u16],
    uninjected: usize,
    count: usize,
    list: &mut [u16],
) -> usize
    requires { (g : Group) × ListableOn g low.now high.now starts.now uninjected count × (length (first_list_of g) ≤ length list.old) }
    ensures { (g : Group) → ListableOn g low.now high.now starts.now uninjected count → FirstListed g list.old list.new result }
{
    let injected = push_numbers(uninjected, count, list, 0);
    let ranges = push_ranges(low, high, starts, list, injected);
    push_entries(starts, list, ranges)
}

// The split on arrays, each read by place. Of each number below `count` there are the row, the kind and the range of its module, from `low` to `high`
// without `high`. The injected numbers, those from `uninjected` on, have no range. Of each module there is the start of its range. Kinds are bytes: the
// definitions of the split speak of lists of numbers, and a byte is wrapped where it is read.
#[derive(Clone, Copy)]
pub struct Split {
    pub rows: [u16; Layout::ITEM_ROOM],
    pub kinds: [u8; Layout::ITEM_ROOM],
    pub low: [u16; Layout::ITEM_ROOM],
    pub high: [u16; Layout::ITEM_ROOM],
    pub starts: [u16; Layout::MODULE_ROOM],
    pub modules: usize,
    pub uninjected: usize,
    pub count: usize,
    pub ghost sizes: { (length rows ≡ item_limit) × (length kinds ≡ item_limit) × (length low ≡ item_limit) × (length high ≡ item_limit) × (length starts ≡ module_limit) },
    pub ghost counts: { (uninjected ≤ count) × (count ≤ item_limit) × (modules ≤ module_limit) },
}

impl Split {
    ghost use Rattle.std.specs.Prelude.{false, true};
    ghost use Rattle.rules.specs.Items.{first_list};
    ghost use Rattle.rules.specs.Calls.{item_list_limit};
    ghost use Rattle.lists.specs.Arrays.{Zeros};
    ghost use Rattle.split.specs.Rows.{RowsOf, RowsAmong, rows_as, numbered_as};
    ghost use Rattle.split.specs.Splits.{Numbered, SameRanges, SameNumbers, RangeNoted, RangesNumbered, InjectedNumbered, Splittable, Splits, SplitStored};
    ghost use Rattle.split.specs.FirstLists.{starts_on, Listable};

    // No items.
    pub fn new() -> Self
        ensures counts { (result.modules ≡ 0) × (result.uninjected ≡ 0) × (result.count ≡ 0) }
        ensures zeros { Zeros item_limit result.rows × Zeros item_limit result.kinds × Zeros item_limit result.low × Zeros item_limit result.high
            × Zeros module_limit result.starts }
    {
        Self {
            rows: [0; Layout::ITEM_ROOM],
            kinds: [0; Layout::ITEM_ROOM],
            low: [0; Layout::ITEM_ROOM],
            high: [0; Layout::ITEM_ROOM],
            starts: [0; Layout::MODULE_ROOM],
            modules: 0,
            uninjected: 0,
            count: 0,
        }
    }

    // Numbers the kept rows of a module that are injected, or those that are not. The count is stepped by hand, since not each row is one of them.
    fn number_rows(&mut self, items: &ItemRows, m: ModuleId, injected: bool)
        requires { (p : Project) × RowsOf p m.0 items.now × (m.0 < module_limit) × (self.old.count + length (rows_as injected p m.0) ≤ item_limit) }
        ensures numbered { (p : Project) → RowsOf p m.0 items.now → Numbered p (rows_as injected p m.0) self.old self.new }
        ensures ranges { SameRanges self.old self.new }
    {
        let mut n = self.count;
        for row in items.rows_of(m) {
            let kind = ItemRow::nth(items.section, row).kind;
            if is_kept_as(kind, injected) {
                self.rows[n] = row as u16;
                self.kinds[n] = kind.0;
                n += 1;
            }
        }
        self.count = n;
    }

    // Notes the range of the next module: its numbers are those from `start` on.
    fn note_range(&mut self, start: usize)
        requires { (start ≤ self.old.count) × (self.old.modules < module_limit) }
        ensures noted { RangeNoted start self.old self.new }
        ensures numbers { SameNumbers self.old self.new }
    {
        let end = self.count;
        self.low[start..end].fill(start as u16);
        self.high[start..end].fill(end as u16);
        let module = self.modules;
        self.starts[module] = start as u16;
        self.modules = module + 1;
    }

    // Numbers the uninjected rows of each module from 0 on, and notes its range.
    fn number_uninjected(&mut self, items: &ItemRows, modules: &[u8])
        requires { (p : Project) × RowsAmong p modules.now items.now × Splittable p modules.now }
        ensures { (p : Project) → RowsAmong p modules.now items.now → Splittable p modules.now → RangesNumbered p modules.now self.old self.new }
    {
        self.uninjected = 0;
        self.count = 0;
        self.modules = 0;
        for &m in modules {
            let start = self.count;
            self.number_rows(items, ModuleId(m), false);
            self.note_range(start);
        }
        self.uninjected = self.count;
    }

    // Numbers the injected rows of each module behind them. These have no range.
    fn number_injected(&mut self, items: &ItemRows, modules: &[u8])
        requires { (p : Project) × RowsAmong p modules.now items.now × Splittable p modules.now
            × (self.old.count + length (numbered_as true p modules.now) ≤ item_limit) }
        ensures { (p : Project) → RowsAmong p modules.now items.now → Splittable p modules.now → InjectedNumbered p modules.now self.old self.new }
    {
        let first = self.count;
        for &m in modules {
            self.number_rows(items, ModuleId(m), true);
        }
        let end = self.count;
        self.low[first..end].fill(0);
        self.high[first..end].fill(0);
    }

    // Splits the kept items of modules.
    pub fn split_items(&mut self, items: &ItemRows, modules: &[u8])
        requires { (p : Project) × RowsAmong p modules.now items.now × Splittable p modules.now }
        ensures { (p : Project) → RowsAmong p modules.now items.now → Splittable p modules.now
            → Splits p modules.now self.new × SplitStored p modules.now self.old self.new }
    {
        self.number_uninjected(items, modules);
        self.number_injected(items, modules);
    }

    // The starts of the modules.
    fn starts(&self) -> &[u16]
        ensures { result.now ≡ starts_on self.now }
    {
        &self.starts[..self.modules]
    }

    // The length of the walk's first list: the starts, the ranges that hold them and the injected items.
    pub fn first_len(&self) -> usize
        requires { (g : Group) × Listable g self.now × (length (first_list g) ≤ item_list_limit) }
        ensures { (g : Group) → Listable g self.now → result ≡ length (first_list g) }
    {
        let mut n = self.modules + (self.count - self.uninjected);
        for &start in self.starts() {
            let x = usize::from(start);
            n += usize::from(self.high[x] - self.low[x]);
        }
        n
    }

    // Writes the walk's first list, its front at the end index; the end. "The list starts as all starts; then, per start, the range holding it, if any;
    // then the injected items."
    pub fn first_list(&self, list: &mut [u16]) -> usize
        requires { (g : Group) × Listable g self.now × (length (first_list g) ≤ length list.old) }
        ensures { (g : Group) → Listable g self.now → FirstListed g list.old list.new result }
    {
        first_list(
            &self.low,
            &self.high,
            self.starts(),
            self.uninjected,
            self.count,
            list,
        )
    }
}
