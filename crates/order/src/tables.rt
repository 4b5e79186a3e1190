// The turns of groups some of which are sorted, on arrays of any sizes.
ghost use Rattle.std.specs.Prelude.{ℕ, ◌≤◌, ◌<◌, ◌≡◌, List, Err};
ghost use Rattle.rules.specs.Project.{Project};
ghost use Rattle.walks.specs.declared.Stop.{Stop as Stopped};
ghost use Rattle.stmt.specs.declared.walk.Crowded.{Crowded as ListCrowded};
ghost use Rattle.order.specs.Stops.{stopped_as, SortTurn, Sorts, Sorting, Going, Turned, Sized};

use crate::turns::{Turn, Turns};
use giving::{giving_modules, keeps_row_order};
use group::Sort;
use owners::{NeedRows, Owners};
use project::reader::Lists;
use stmt::walk::Crowded;
use walks::{Allowance, Stop};

// How the turns stop where the sort of a group stops in turn t.
fn stopped<'a>(stop: Stop<Crowded>, t: Turn<'a>) -> Stop<Turn<'a>>
    ensures { result ≡ stopped_as t.entry stop }
{
    match stop {
        Stop::Spent(made) => Stop::Spent(made),
        Stop::Full(made) => Stop::Full(made),
        Stop::Crowded(_) => Stop::Crowded(t),
    }
}

// Sorts a group in its turn and writes its rows behind those written: the place behind them, and the visits made.
fn sort_group<const WORDS: usize, const NEEDS: usize, const ENTRIES: usize>(
    sort: &mut Sort<WORDS, NEEDS, ENTRIES>,
    needs: &NeedRows<'_, NEEDS>,
    turns: &Turns,
    members: &[u8],
    t: Turn<'_>,
    out: &mut [u8],
    allowance: u32,
) -> Result<(usize, u32), Stop<Crowded>>
    requires { (p : Project) × (earlier : List (List ℕ)) × SortTurn WORDS NEEDS p earlier members.now turns.now needs.now allowance t out.old }
    ensures sorts { (p : Project) (earlier : List (List ℕ))
        → SortTurn WORDS NEEDS p earlier members.now turns.now needs.now allowance t.entry out.old
        → Sorts ENTRIES p earlier members.now allowance t.entry out.old out.new result }
    ensures kept { (stop : Stopped ListCrowded) → result ≡ Err stop → out.new ≡ out.old }
{
    let given = giving_modules(members, t.used, turns.givers);
    let (_, made) = sort.sort_stmts(
        &turns.items,
        needs.section,
        needs.of_group(t.left - 1),
        given.as_slice(),
        Allowance {
            visits: allowance,
            made: t.made,
        },
    )?;
    let kept = sort.write_rows(out, t.kept);
    Ok((kept, made))
}

// The turns of the groups from one on.
fn sort_turns<'a, const WORDS: usize, const NEEDS: usize, const ENTRIES: usize>(
    sort: &mut Sort<WORDS, NEEDS, ENTRIES>,
    needs: &NeedRows<'_, NEEDS>,
    turns: &Turns,
    first: Turn<'a>,
    out: &mut [u8],
    allowance: u32,
) -> Result<(usize, u32), Stop<Turn<'a>>>
    requires { (p : Project) × (groups : List (List ℕ)) × (before : List ℕ)
        × Sorting WORDS NEEDS p groups turns.now needs.now allowance before out.old first }
    ensures { (p : Project) (groups : List (List ℕ)) (before : List ℕ)
        → Sorting WORDS NEEDS p groups turns.now needs.now allowance before out.old first.entry
        → Turned ENTRIES p groups allowance before out.new result }
{
    let mut t = first;
    for members in Lists::new(first.rest) {
        if keeps_row_order(members, turns.importers) {
            t = turns.keep_group(members, t, out);
            continue;
        }
        match sort_group(sort, needs, turns, members, t, out, allowance) {
            Ok((kept, made)) => t = t.after(members, kept, made),
            Err(stop) => return Err(stopped(stop, t)),
        }
    }
    Ok((t.kept, t.made))
}

// What the turns read where groups are sorted: also the needs, and the owner of each module.
#[derive(Clone, Copy)]
pub struct SortTurns<'a> {
    pub turns: &'a Turns<'a>,
    pub needs: &'a [u8],
    pub owners: &'a Owners,
}

impl<'a> SortTurns<'a> {
    // Chains the needs and takes the turns from one on. The arrays stand in a stack frame of their own, so that a project that needs only small ones
    // makes no large ones.
    #[inline(never)]
    pub fn take<'b, const WORDS: usize, const NEEDS: usize, const ENTRIES: usize>(
        self,
        first: Turn<'b>,
        out: &mut [u8],
        allowance: u32,
    ) -> Result<(usize, u32), Stop<Turn<'b>>>
        requires bounds { (WORDS ≤ 65536) × (NEEDS < 65536) × (ENTRIES ≤ 65536) }
        requires going { (p : Project) × (groups : List (List ℕ)) × (before : List ℕ) × Going p groups self allowance before out.old first × Sized WORDS NEEDS p }
        ensures { (p : Project) (groups : List (List ℕ)) (before : List ℕ)
            → Going p groups self.entry allowance before out.old first.entry → Sized WORDS NEEDS p
            → Turned ENTRIES p groups allowance before out.new result }
    {
        // In one struct with the needs, or made behind them, the arrays would be cleared twice.
        let mut sort = Sort::<WORDS, NEEDS, ENTRIES>::new();
        let turns = self.turns;
        let needs = NeedRows::new(self.needs, turns.items.section, self.owners);
        sort_turns(&mut sort, &needs, turns, first, out, allowance)
    }
}
