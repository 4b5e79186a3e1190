// One run for both walks: visits against an allowance.
#![tactic(auto)]

ghost use Rattle.std.specs.Prelude.{ℕ, ◌-◌, ◌≤◌, ◌≡◌, true, false, List, length, MatchResult, IfErr, ⊤};
ghost use Rattle.rules.specs.Walk.{Walk, run as runs};
ghost use Rattle.walks.specs.Runs.{Came, Ran, CrowdedAt, crowded_of};

use std::convert::Infallible;

// What a visit came to, with the state after it. A run takes the first two alike; as an Option it would not say which of them `visit` promises.
#[derive(Clone, Copy)]
pub enum Outcome<W> {
    WentOn(W),
    Placed(W),
    ListFull,
}

// How a run stopped before its walk had ended, with the visits made; or that the next visit may need a longer array, as C says.
#[derive(Clone, Copy)]
pub enum Stop<C> {
    Spent(u32),
    Full(u32),
    Crowded(C),
}

impl<C> Stop<C> {
    // What C says, where the next visit may need a longer array; else how the run stopped.
    #[tactic(auto, unfolding(crate::specs::Runs::crowded_of))]
    pub fn crowded(self) -> Result<C, Stop<Infallible>>
        ensures { result ≡ crowded_of self }
    {
        match self {
            Stop::Spent(made) => Err(Stop::Spent(made)),
            Stop::Full(made) => Err(Stop::Full(made)),
            Stop::Crowded(c) => Ok(c),
        }
    }
}

// How many visits are allowed, and how many of them have been made before a run.
#[derive(Clone, Copy)]
pub struct Allowance {
    pub visits: u32,
    pub made: u32,
    pub ghost within: { made ≤ visits },
}

// The visits of a walk. `self` is what they read, the arrays are what they write; arrays and numbers together are a state.
pub trait Visits<Arrays> {
    // The numbers of a state.
    type State: Copy;
    // What there is to say where the next visit may need a longer array.
    type Crowded: Copy;

    // What is walked, which no visit changes.
    ghost Input: { Type 0 };

    // The states of the definition's walk.
    ghost SpecState: { Type 0 };

    ghost walk: { Input → Walk SpecState };

    // What a state has placed, latest first.
    ghost Piece: { Type 0 };

    ghost placed: { SpecState → List Piece };

    // The most entries that a visit may leave.
    ghost limit: { ℕ };

    // What is read lays out the input, and arrays and numbers show a state that its walk can be in.
    ghost IsAt: { Input → Self → Arrays → Self.State → SpecState → Type 0 };

    // The arrays have room for whatever one more visit may leave.
    ghost HasRoom: { Self → Arrays → Self.State → Type 0 };

    // What holds of the input where there may be too little room.
    ghost Crowds: { Input → Self.Crowded → Type 0 };

    // What holds of the very state there.
    ghost CrowdsAt: { Self → Arrays → Self.State → Self.Crowded → Type 0 } = { λ _ _ _ _. ⊤ };

    fn has_ended(&self, arrays: &Arrays, w: Self::State) -> bool
        ensures { (x : Input) (s : SpecState) → IsAt x self.now arrays.now w s → (walk x).ended s ≡ result };

    fn has_room(&self, arrays: &Arrays, w: Self::State) -> Result<(), Self::Crowded>
        requires { (x : Input) × (s : SpecState) × IsAt x self.now arrays.now w s }
        ensures room { (x : Input) (s : SpecState) → IsAt x self.now arrays.now w s
            → MatchResult result (λ _. HasRoom self.now arrays.now w) (Crowds x) }
        ensures state { (x : Input) (s : SpecState) → IsAt x self.now arrays.now w s → IfErr result (CrowdsAt self.now arrays.now w) };

    // One visit of a walk that has not ended.
    fn visit(&self, arrays: &mut Arrays, w: Self::State) -> Outcome<Self::State>
        requires walking { (x : Input) × (s : SpecState) × IsAt x self.now arrays.old w s × ((walk x).ended s ≡ false) }
        requires room { HasRoom self.now arrays.old w }
        ensures { (x : Input) (s : SpecState) → IsAt x self.now arrays.old w s → (walk x).ended s ≡ false
            → Came limit (walk x).list placed (IsAt x self.now arrays.new) (placed s) ((walk x).visit s) result };

    // A list that is shown is within the limit.
    ghost within: { (x : Input) (v : Self) (a : Arrays) (w : Self.State) (s : SpecState) → IsAt x v a w s
        → length ((walk x).list s) ≤ limit };
}

// Visits until the walk has ended, the allowance is spent, the next visit may need a longer array or the list is full, tested in this order; a visit
// that fills the list counts.
pub fn run<Arrays, V: Visits<Arrays>>(
    walk: &V,
    arrays: &mut Arrays,
    start: V::State,
    allowance: Allowance,
) -> Result<(V::State, u32), Stop<V::Crowded>>
    requires { (x : V.Input) × (s : V.SpecState) × V.IsAt x walk.now arrays.old start s }
    ensures { (x : V.Input) (s : V.SpecState) → V.IsAt x walk.now arrays.old start s
        → Ran (runs (V.walk x) V.limit (allowance.visits - allowance.made) allowance.made s)
        (λ w t. V.IsAt x walk.now arrays.new w t × ((V.walk x).ended t ≡ true))
        (λ c. V.Crowds x c
        × CrowdedAt (λ w t. V.IsAt x walk.now arrays.new w t × ((V.walk x).ended t ≡ false)) (V.CrowdsAt walk.now arrays.new) c) result }
{
    let mut w = start;
    let mut made = allowance.made;
    // No `for` over the visits: whether the walk has ended is asked once more than there are visits.
    while !walk.has_ended(arrays, w) {
        if made == allowance.visits {
            return Err(Stop::Spent(made));
        }
        walk.has_room(arrays, w).map_err(Stop::Crowded)?;
        made += 1;
        let outcome = walk.visit(arrays, w);
        let (Outcome::WentOn(after) | Outcome::Placed(after)) = outcome else {
            return Err(Stop::Full(made));
        };
        w = after;
    }
    Ok((w, made))
}
