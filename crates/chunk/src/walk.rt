// The module walk (toposort_real_module_ids).
ghost use Rattle.std.specs.Prelude.{◌+◌, ◌-◌, ◌≤◌, ◌<◌, ◌≡◌, ℕ, List, length};
ghost use Rattle.rules.specs.Project.{Project, module_limit};
ghost use Rattle.rules.specs.Modules.{ModuleState, run_modules};
ghost use Rattle.rules.specs.Calls.{module_list_limit};
ghost use Rattle.chunk.specs.Circles.{gathered_on, Appended};
ghost use Rattle.chunk.specs.Imports.{Members, open_of, open_imports};
ghost use Rattle.walks.specs.Runs.{Ran};
ghost use Rattle.chunk.specs.Walks.{Started, Written, Grouped, Expandable, Expanded, Visited, Behind, state_at, Undone, Importing, Circled, Leaving, Holds, Groupable};

use crate::arrays::Arrays;
use crate::circles;
use crate::gathered::Gathered;
use crate::imports::Imports;
use lists::bits;
use project::{Layout, ModuleId};
use std::convert::Infallible;
use walks::{Allowance, Outcome, Stop, Visits};

// The numbers of the walk's state: the end of the list, the modules done and marked, and the groups made with the bytes that they take. List and groups
// are arrays with an end and no `ArrayVec`: open imports are put in from the new end downwards, and the ends are numbers of the state, which a visit
// hands on by copy.
#[derive(Clone, Copy, Default)]
pub struct ModuleWalk {
    pub end: usize,
    pub done: u64,
    pub marks: u64,
    pub groups: usize,
    pub used: usize,
}

impl ModuleWalk {
    // The most entries that a visit may leave.
    pub const LIST: usize = 1024;

    // The bytes that the groups may take: there are at most as many as modules, each with a count and at most all modules.
    pub const GROUPS: usize = Layout::MODULE_ROOM * (Layout::MODULE_ROOM + 1);

    // The state before the first visit: the list is the entry, then 0 to modules - 1. What the array holds beyond is left free.
    pub fn new(list: &mut [u8], modules: u8, entry: ModuleId) -> Self
        requires { modules < length list.old }
        ensures { Started modules entry.0 list.new result }
    {
        let n = usize::from(modules);
        for (i, m) in (0..modules).rev().enumerate() {
            list[i] = m;
        }
        list[n] = entry.0;
        Self {
            end: n + 1,
            ..Self::default()
        }
    }

    // The state with the front module taken off.
    fn passed(mut self) -> Self
        requires { 0 < self.end }
        ensures { result ≡ record { end = self.end - 1; done = self.done; marks = self.marks; groups = self.groups; used = self.used } }
    {
        self.end -= 1;
        self
    }

    // The state with one more group, when its front module has been taken off.
    fn grouped(self, groups: &mut [u8], members: &[u8], set: u64) -> Self
        requires { (0 < self.end) × (self.groups < module_limit) × (self.used + 1 + length members.now ≤ length groups.old) × (length members.now < 256) }
        ensures { Grouped self members.now set groups.old groups.new result }
    {
        write_group(groups, self.used, members);
        Self {
            end: self.end - 1,
            done: bits::join(self.done, set),
            marks: 0,
            groups: self.groups + 1,
            used: self.used + 1 + members.len(),
        }
    }
}

// Writes a group's count and members.
fn write_group(groups: &mut [u8], used: usize, members: &[u8])
    requires { (used + 1 + length members.now ≤ length groups.old) × (length members.now < 256) }
    ensures { Written used members.now groups.old groups.new }
{
    groups[used] = members.len() as u8;
    groups[used + 1..used + 1 + members.len()].copy_from_slice(members);
}

// What the walk reads: the project's circles section, and its imports.
#[derive(Clone, Copy)]
pub struct Modules<'a> {
    pub section: &'a [u8],
    pub imports: &'a Imports,
}

impl<'a> Modules<'a> {
    // Puts the open imports of the members before the front module, which stays on the list.
    fn expanded(
        &self,
        members: &[u8],
        circle: u64,
        open: usize,
        list: &mut [u8],
        w: ModuleWalk,
        marks: u64,
    ) -> Outcome<ModuleWalk>
        requires members { Members members.now }
        requires expandable { Expandable (open_imports self.now.imports.now w.done circle members.now) «open» list.old w }
        ensures { Expanded (open_imports self.now.imports.now w.done circle members.now) list.old
            list.new w marks result }
    {
        let end = w.end + open;
        if ModuleWalk::LIST < end {
            return Outcome::ListFull;
        }
        self.imports.place_all(members, w.done, circle, list, end);
        Outcome::WentOn(ModuleWalk { end, marks, ..w })
    }

    // Appends the open imports of a member to the circle, each once.
    fn append_open(&self, m: ModuleId, done: u64, set: u64, circle: &mut Gathered)
        requires { m.0 < module_limit }
        ensures { Appended circle.old circle.new (open_of self.now.imports.now done set m.0) }
    {
        for d in self.imports.open(m, done, set) {
            circle.append_one(d);
        }
    }

    // Appends the open imports of the circle's members to it, each once.
    fn append_all(&self, done: u64, circle: &mut Gathered)
        ensures { Appended circle.old circle.new
            (open_imports self.now.imports.now done circle.old.have (gathered_on circle.old)) }
    {
        let set = circle.have;
        let array = circle.array;
        for &member in &array[..circle.count] {
            self.append_open(ModuleId(member), done, set, circle);
        }
    }

    // Step 4, for a circle with undone imports outside it: they go in front, and m is marked; where it is marked already, they join the circle.
    // What the circle is afterwards is left free.
    fn visit_leaving(
        &self,
        arrays: &mut Arrays,
        w: ModuleWalk,
        m: ModuleId,
        circle: &mut Gathered,
        open: usize,
    ) -> Outcome<ModuleWalk>
        requires { (b : Behind) × Leaving b self.now.imports.now arrays.old w m.0 circle.old «open» }
        ensures { (b : Behind)
            → Leaving b self.now.imports.now arrays.old w m.0 circle.old «open»
            → Visited b.project (state_at m.0 b) arrays.new result }
    {
        if bits::has(w.marks, m.0) {
            self.append_all(w.done, circle);
            return Outcome::Placed(w.grouped(&mut arrays.groups, circle.members(), circle.have));
        }
        let marked = bits::with(w.marks, m.0);
        self.expanded(
            circle.members(),
            circle.have,
            open,
            &mut arrays.list,
            w,
            marked,
        )
    }

    // Step 4, for the circle of m: without undone imports outside it is a group. What the circle is afterwards is left free.
    fn visit_circle(
        &self,
        arrays: &mut Arrays,
        w: ModuleWalk,
        m: ModuleId,
        circle: &mut Gathered,
    ) -> Outcome<ModuleWalk>
        requires { (b : Behind) × Circled b self.now.imports.now arrays.old w m.0 circle.old }
        ensures { (b : Behind)
            → Circled b self.now.imports.now arrays.old w m.0 circle.old
            → Visited b.project (state_at m.0 b) arrays.new result }
    {
        let open = self
            .imports
            .count_all(circle.members(), w.done, circle.have);
        if open == 0 {
            return Outcome::Placed(w.grouped(&mut arrays.groups, circle.members(), circle.have));
        }
        self.visit_leaving(arrays, w, m, circle, open)
    }

    // Step 3, for m with undone imports: in no circle, it waits for them.
    fn visit_importing(
        &self,
        arrays: &mut Arrays,
        w: ModuleWalk,
        m: ModuleId,
        open: usize,
    ) -> Outcome<ModuleWalk>
        requires { (b : Behind) × Importing b self.now.section.now self.now.imports.now arrays.old w m.0 «open» }
        ensures { (b : Behind)
            → Importing b self.now.section.now self.now.imports.now arrays.old w m.0 «open»
            → Visited b.project (state_at m.0 b) arrays.new result }
    {
        let mut circle = circles::circle_of(self.section, m);
        if circle.count == 0 {
            return self.expanded(&[m.0], 0, open, &mut arrays.list, w, w.marks);
        }
        self.visit_circle(arrays, w, m, &mut circle)
    }

    // Step 2, for m that is not done: without undone imports it is a group.
    fn visit_undone(&self, arrays: &mut Arrays, w: ModuleWalk, m: ModuleId) -> Outcome<ModuleWalk>
        requires { (b : Behind) × Undone b self.now.section.now self.now.imports.now arrays.old w m.0 }
        ensures { (b : Behind)
            → Undone b self.now.section.now self.now.imports.now arrays.old w m.0
            → Visited b.project (state_at m.0 b) arrays.new result }
    {
        let open = self.imports.count_all(&[m.0], w.done, 0);
        if open == 0 {
            return Outcome::Placed(w.grouped(&mut arrays.groups, &[m.0], bits::with(0, m.0)));
        }
        self.visit_importing(arrays, w, m, open)
    }
}

impl<'a> Visits<Arrays> for Modules<'a> {
    ghost use Rattle.std.specs.Prelude.{⊤};
    ghost use Rattle.rules.specs.Modules.{module_walk, groups_of};
    ghost use Rattle.rules.specs.Calls.{module_list_limit};
    ghost use Rattle.chunk.specs.Walks.{Walking};
    ghost use Rattle.chunk.specs.RunLaws.{walking-within};

    type State = ModuleWalk;

    type Crowded = Infallible;

    ghost Input = { Project };

    ghost SpecState = { ModuleState };

    ghost walk = { module_walk };

    ghost Piece = { List ℕ };

    ghost placed = { groups_of };

    ghost limit = { module_list_limit };

    ghost IsAt = { λ p v a w s. Walking p v.section.now v.imports.now a w s };

    ghost HasRoom = { λ _ _ _. ⊤ };

    ghost Crowds = { λ _ _. ⊥ };

    // The list is empty.
    fn has_ended(&self, _arrays: &Arrays, w: ModuleWalk) -> bool {
        w.end == 0
    }

    // There always is room: the list's array is as long as the limit.
    fn has_room(&self, _arrays: &Arrays, _w: ModuleWalk) -> Result<(), Infallible> {
        Ok(())
    }

    // Step 1: a module that is done is passed over.
    fn visit(&self, arrays: &mut Arrays, w: ModuleWalk) -> Outcome<ModuleWalk> {
        let m = ModuleId(arrays.list[w.end - 1]);
        if bits::has(w.done, m.0) {
            return Outcome::WentOn(w.passed());
        }
        self.visit_undone(arrays, w, m)
    }

    ghost within = { λ _ _ _ _ _ h. walking-within h };
}

// The groups of a project's modules, of which there are `modules`, from its imports and circles: sections of its bytes. Where the groups are not all
// made, what `arrays` holds is left free; its list is always.
pub fn toposort_real_module_ids(
    imports: &[u8],
    section: &[u8],
    modules: u8,
    entry: ModuleId,
    arrays: &mut Arrays,
    allowance: u32,
) -> Result<(ModuleWalk, u32), Stop<Infallible>>
    requires { (p : Project) × Groupable p imports.now section.now modules entry.0 }
    ensures { (p : Project) → Groupable p imports.now section.now modules entry.0
        → Ran (run_modules p module_list_limit allowance) (Holds arrays.new.groups) (λ _. ⊥) result }
{
    let mut laid = Imports::new();
    laid.lay_out(imports);
    let start = ModuleWalk::new(&mut arrays.list, modules, entry);
    let walk = Modules {
        section,
        imports: &laid,
    };
    walks::run(
        &walk,
        arrays,
        start,
        Allowance {
            visits: allowance,
            made: 0,
        },
    )
}
