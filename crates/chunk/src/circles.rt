// The circle of a module (cycles_for): the modules gathered from the lists that hold it. `section` is the project's circles section: lists, each a
// count byte and the members.
ghost use Rattle.std.specs.Prelude.{◌≡◌, false};
ghost use Rattle.rules.specs.Lists.{any, elem};
ghost use Rattle.rules.specs.Project.{module_limit, circle_lists, bad_circles};
ghost use Rattle.chunk.specs.Circles.{Listed, ModuleReady, MembersReady, FollowsModule, FollowsMembers, CircleReady, CircleGathered};

use crate::gathered::Gathered;
use lists::bits;
use project::ModuleId;
use project::reader::Lists;

// What following has gathered, and the set of the modules noted as followed.
#[derive(Drop)]
struct Following {
    gathered: Gathered,
    noted: u64,
}

// The most members of a list that is looked through one by one.
const SHORT: usize = 4;

// Whether a list of any length holds m. In a function of its own, so that the library's search, which is long, does not keep `holds` from being inlined.
#[inline(never)]
fn contains(list: &[u8], m: ModuleId) -> bool
    ensures { result ≡ elem m.0 list.now }
{
    list.contains(&m.0)
}

// Whether a list holds m. Most lists are short: for these a loop is quicker than the library's search, which is quicker for long ones.
fn holds(list: &[u8], m: ModuleId) -> bool
    ensures { result ≡ elem m.0 list.now }
{
    if SHORT < list.len() {
        return contains(list, m);
    }
    list.iter().any(|&member| member == m.0)
}

// Gathers the members of every list of the section that holds m.
fn listed_with(section: &[u8], m: ModuleId) -> Gathered
    requires { bad_circles module_limit 0 section.now ≡ false }
    ensures { Listed section.now m.0 result }
{
    let mut r = Gathered::new();
    for list in Lists::new(section) {
        if holds(list, m) {
            r.append_new(list);
        }
    }
    r
}

// Whether a list of the section holds m.
fn is_listed(section: &[u8], m: ModuleId) -> bool
    requires { bad_circles module_limit 0 section.now ≡ false }
    ensures { result ≡ any (elem m.0) (circle_lists section.now) }
{
    Lists::new(section).any(|list| holds(list, m))
}

// Follows a module through its lists.
#[cycle(follow_members_follow_module)]
fn follow_module(section: &[u8], m: ModuleId, s: &mut Following)
    requires { ModuleReady section.now m.0 s.old }
    ensures { FollowsModule section.now m.0 s.old s.new }
{
    let listed = listed_with(section, m);
    let members = listed.members();
    s.gathered.append_new(members);
    s.noted = bits::with(s.noted, m.0);
    follow_members(section, members, s);
}

// Follows each member that is not noted.
#[cycle(follow_members_follow_module)]
fn follow_members(section: &[u8], members: &[u8], s: &mut Following)
    requires { MembersReady section.now members.now }
    ensures { FollowsMembers section.now members.now s.old s.new }
{
    for &member in members {
        let m = ModuleId(member);
        if !bits::has(s.noted, m.0) {
            follow_module(section, m, s);
        }
    }
}

// Gathers the circle of m, reversed. A module in no list, as most are, is answered without following it.
pub fn circle_of(section: &[u8], m: ModuleId) -> Gathered
    requires { CircleReady section.now m.0 }
    ensures { CircleGathered section.now m.0 result }
{
    if !is_listed(section, m) {
        return Gathered::new();
    }
    let mut s = Following {
        gathered: Gathered::new(),
        noted: 0,
    };
    follow_module(section, m, &mut s);
    s.gathered.reverse();
    s.gathered
}
