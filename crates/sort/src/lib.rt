// The groups call and the order call.
#![tactic(auto)]

mod accepted;
pub mod entry;
pub mod groups_entry;
mod report;

ghost use Rattle.std.specs.Prelude.{◌≡◌, List, [], ℕ, ◌+◌, ◌*◌, ◌-◌, ◌≤◌, length};
ghost use Rattle.rules.specs.Project.{Project, project_of, module_limit};
ghost use Rattle.rules.specs.Walk.{Stop as SpecStop};
ghost use Rattle.rules.specs.Modules.{ModuleState, groups_of, groups_in_order, run_modules};
ghost use Rattle.rules.specs.Calls.{refusal, allowed, overwrite, module_list_limit, item_list_limit, groups_answer, groups_of_project, groups_call, order_groups, order_answer, after_groups, order_of_project, order_call};
ghost use Rattle.walks.specs.Runs.{Ran};
ghost use Rattle.chunk.specs.Walks.{Holds};
ghost use Rattle.sort.specs.Answers.{number_of, refusal_of, numbers_of, Answered};
ghost use Rattle.sort.specs.Guarantees.{GroupsGuaranteed, OrderGuaranteed};
ghost use Rattle.sort.specs.Groups.{Answerable};
ghost use Rattle.sort.specs.Orders.{Walked, Found, Givable};

use accepted::AcceptedProject;
use chunk::arrays::Arrays;
use chunk::walk::{self, ModuleWalk};
use order::sort_groups;
use project::Layout;
use project::sections::{ItemRow, Row};
use std::convert::Infallible;
use walks::Stop;

// The visits that an allowance of 0 stands for.
const USUAL_ALLOWANCE: u32 = 20000;

// Why an accepted project is not answered, or an entry makes no call, by the numbers of the table.
#[derive(Clone, Copy, PartialEq, Eq, Debug)]
enum Refusal {
    ShortReply = 10,
    Spent,
    Full,
    ShortReport,
}

impl From<Refusal> for u32 {
    ghost from_gives = { λ r n. n ≡ number_of r };

    fn from(r: Refusal) -> u32 {
        r as u32
    }
}

// Why a walk that has not ended is refused, with the visits made.
fn stopped(stop: Stop<Infallible>) -> (Refusal, u32)
    ensures { result ≡ refusal_of stop }
{
    match stop {
        Stop::Spent(made) => (Refusal::Spent, made),
        Stop::Full(made) => (Refusal::Full, made),
        Stop::Crowded(never) => match never {},
    }
}

// What a call returns: numbers, as a host gets them.
#[derive(Clone, Copy, Default)]
pub struct Numbers {
    pub answer: u32,
    pub kept: u32,
    pub groups: u32,
    pub module_visits: u32,
    pub item_visits: u32,
}

impl Numbers {
    // A refusal: its counts are 0, but for the visits made.
    fn refusal(answer: u32, module_visits: u32, item_visits: u32) -> Self
        ensures { result ≡ numbers_of (refusal answer module_visits item_visits) }
    {
        Self {
            answer,
            module_visits,
            item_visits,
            ..Self::default()
        }
    }
}

// The allowance that a number stands for.
fn allowed(allowance: u32) -> u32
    ensures { result ≡ allowed allowance }
{
    if allowance == 0 {
        USUAL_ALLOWANCE
    } else {
        allowance
    }
}

// Copies bytes to the front of the reply.
fn copy_front(source: &[u8], reply: &mut [u8])
    requires { length source.now ≤ length reply.old }
    ensures { reply.new ≡ overwrite source.now reply.old }
{
    reply[..source.len()].copy_from_slice(source);
}

// A groups call: the groups' bytes are written to the reply, a count byte and the members of each.
pub fn groups(project: &[u8], reply: &mut [u8], allowance: u32) -> Numbers
    ensures answer { Answered (groups_call project.now (length reply.old) allowance) reply.old reply.new result }
    ensures guarantees { GroupsGuaranteed project.now reply.old allowance result }
{
    match AcceptedProject::read(project) {
        Err(r) => Numbers::refusal(r.into(), 0, 0),
        Ok(accepted) => groups_of(accepted, reply, allowed(allowance)),
    }
}

// The module walk of an accepted project, which leaves its groups in `arrays`. Where it has not finished, what these hold is left free.
fn find_groups(
    project: AcceptedProject<'_>,
    arrays: &mut Arrays,
    allowance: u32,
) -> Result<(ModuleWalk, u32), Stop<Infallible>>
    ensures { Ran (run_modules (project_of project.entry.bytes.now) module_list_limit allowance) (Holds arrays.new.groups) (λ _. ⊥) result }
{
    walk::toposort_real_module_ids(
        project.imports(),
        project.circles(),
        project.l.modules,
        project.l.entry,
        arrays,
        allowance,
    )
}

// The groups call on an accepted project.
fn groups_of(project: AcceptedProject<'_>, reply: &mut [u8], allowance: u32) -> Numbers
    ensures { Answered (groups_of_project (project_of project.entry.bytes.now) (length reply.old) allowance) reply.old reply.new result }
{
    let m = usize::from(project.l.modules);
    if reply.len() < m * (m + 1) {
        return Numbers::refusal(Refusal::ShortReply.into(), 0, 0);
    }
    let mut arrays = Arrays::new();
    let found = find_groups(project, &mut arrays, allowance);
    give_groups(found, &arrays.groups, reply)
}

// The answer to a grouping: where it has finished, its bytes are copied to the reply.
fn give_groups(
    found: Result<(ModuleWalk, u32), Stop<Infallible>>,
    out: &[u8],
    reply: &mut [u8],
) -> Numbers
    requires { (stop : SpecStop ModuleState) × Answerable stop out.now reply.old found }
    ensures { (stop : SpecStop ModuleState) → Answerable stop out.now reply.old found
        → Answered (groups_answer stop) reply.old reply.new result }
{
    match found {
        Ok((w, made)) => {
            copy_front(&out[..w.used], reply);
            Numbers {
                answer: 0,
                groups: w.groups as u32,
                module_visits: made,
                ..Numbers::default()
            }
        }
        Err(stop) => {
            let (why, made) = stopped(stop);
            Numbers::refusal(why.into(), made, 0)
        }
    }
}

// An order call: the row numbers of the kept items are written to the reply, one byte each.
pub fn order(project: &[u8], reply: &mut [u8], allowance: u32) -> Numbers
    ensures answer { Answered (order_call project.now (length reply.old) allowance) reply.old reply.new result }
    ensures guarantees { OrderGuaranteed project.now reply.old allowance reply.new result }
{
    match AcceptedProject::read(project) {
        Err(r) => Numbers::refusal(r.into(), 0, 0),
        Ok(accepted) => order_of(accepted, reply, allowed(allowance)),
    }
}

// The order call on an accepted project. All groups are found before the first is sorted.
fn order_of(project: AcceptedProject<'_>, reply: &mut [u8], allowance: u32) -> Numbers
    requires { 1 ≤ allowance }
    ensures { Answered (order_of_project (project_of project.entry.bytes.now) (length reply.old) allowance) reply.old reply.new result }
{
    if reply.len() < project.items().len() / ItemRow::BYTES {
        return Numbers::refusal(Refusal::ShortReply.into(), 0, 0);
    }
    let mut arrays = Arrays::new();
    let found = find_groups(project, &mut arrays, allowance);
    sort_found(project, found, &arrays.groups, reply, allowance)
}

// Goes on from the module walk: where it has finished, its groups are sorted.
fn sort_found(
    project: AcceptedProject<'_>,
    found: Result<(ModuleWalk, u32), Stop<Infallible>>,
    groups: &[u8],
    reply: &mut [u8],
    allowance: u32,
) -> Numbers
    requires { Walked project.bytes.now groups.now reply.old allowance found }
    ensures { Answered
        (after_groups (project_of project.entry.bytes.now) allowance (run_modules (project_of project.entry.bytes.now) module_list_limit allowance))
        reply.old reply.new result }
{
    match found {
        Ok((w, visits)) => sort_items(
            project,
            &groups[..w.used],
            w.groups,
            visits,
            reply,
            allowance,
        ),
        Err(stop) => {
            let (why, visits) = stopped(stop);
            Numbers::refusal(why.into(), visits, 0)
        }
    }
}

// Sorts the groups in turn, under what the module walk has left of the allowance. The rows are kept apart from the reply until all are sorted.
fn sort_items(
    project: AcceptedProject<'_>,
    groups: &[u8],
    count: usize,
    module_visits: u32,
    reply: &mut [u8],
    allowance: u32,
) -> Numbers
    requires { (s : ModuleState) × Found project.bytes.now groups.now count module_visits reply.old allowance s }
    ensures { (s : ModuleState)
        → Found project.entry.bytes.now groups.now count module_visits reply.old allowance s
        → Answered
        (order_answer (project_of project.entry.bytes.now) (length (groups_of s)) module_visits
        (order_groups (project_of project.entry.bytes.now) item_list_limit (allowance - module_visits) [] (groups_in_order s) [] 0))
        reply.old reply.new result }
{
    let mut rows = [0u8; Layout::ITEM_ROOM];
    let sorted = sort_groups(
        project.items(),
        project.imports(),
        project.needs(),
        groups,
        count,
        &mut rows,
        allowance - module_visits,
    );
    give_order(sorted, &rows, count, module_visits, reply)
}

// The answer to a sort of all groups: where it has finished, its rows are copied to the reply.
fn give_order(
    sorted: Result<(usize, u32), Stop<Infallible>>,
    rows: &[u8],
    groups: usize,
    module_visits: u32,
    reply: &mut [u8],
) -> Numbers
    requires { (p : Project) × (stop : SpecStop (List ℕ)) × Givable p stop rows.now groups reply.old sorted }
    ensures { (p : Project) (stop : SpecStop (List ℕ)) → Givable p stop rows.now groups reply.old sorted
        → Answered (order_answer p groups module_visits stop) reply.old reply.new result }
{
    match sorted {
        Ok((end, made)) => {
            copy_front(&rows[..end], reply);
            Numbers {
                answer: 0,
                kept: end as u32,
                groups: groups as u32,
                module_visits,
                item_visits: made,
            }
        }
        Err(stop) => {
            let (why, made) = stopped(stop);
            Numbers::refusal(why.into(), module_visits, made)
        }
    }
}
