// The kinds of items and the weights of needs, by the paper's numbers.
ghost use Rattle.std.specs.Prelude.{ℕ, ◌≡◌, eqb, ltb, Some};
ghost use Rattle.rules.specs.Items.{is_kept, is_injected, may_drop};
ghost use Rattle.project.specs.Kinds.{kept_by, injected_by, may_drop_by, Says};

// What the kind of an item says of it.
#[derive(Clone, Copy, PartialEq, Eq)]
pub enum Kind {
    // Kept; may drop nothing.
    Plain,
    // Kept; may drop a dependency of any weight.
    MayDropAll,
    // Kept; may drop a dependency of weight Maybe.
    MayDropWeak,
    // Kept, and injected.
    Injected,
    // Not kept.
    Dropped,
}

impl Kind {
    // Whether items of the kind are kept.
    #[tactic(auto, unfolding(crate::specs::Kinds::kept_by))]
    pub fn is_kept(self) -> bool
        ensures { result ≡ kept_by (Some self) }
    {
        self != Kind::Dropped
    }

    // Whether they are injected.
    #[tactic(auto, unfolding(crate::specs::Kinds::injected_by))]
    pub fn is_injected(self) -> bool
        ensures { result ≡ injected_by (Some self) }
    {
        self == Kind::Injected
    }

    // Whether they may drop a dependency, which is `weak` where its weight is Maybe.
    pub fn may_drop(self, weak: bool) -> bool
        ensures { (weight : ℕ) → weak ≡ eqb weight 1 → result ≡ may_drop_by (Some self) weight }
    {
        match self {
            Kind::MayDropAll => true,
            Kind::MayDropWeak => weak,
            _ => false,
        }
    }
}

// The byte that an item's kind is read from. One above 5 is no kind: number 6 of the table turns it down.
#[derive(Clone, Copy, PartialEq, Eq)]
pub struct KindByte(pub u8);

impl KindByte {
    // The kind that the byte stands for.
    pub fn kind(self) -> Option<Kind>
        ensures { Says result self.0 }
    {
        match self.0 {
            0 => Some(Kind::Plain),
            1..=2 => Some(Kind::MayDropAll),
            3 => Some(Kind::MayDropWeak),
            4 => Some(Kind::Injected),
            5 => Some(Kind::Dropped),
            _ => None,
        }
    }

    // The tests of a kind, of the byte. One above 5 is not 5, as the paper's test for kept items asks.
    pub fn is_kept(self) -> bool
        ensures { result ≡ is_kept self.0 }
    {
        self.kind().is_none_or(|kind| kind.is_kept())
    }

    pub fn is_injected(self) -> bool
        ensures { result ≡ is_injected self.0 }
    {
        self.kind().is_some_and(|kind| kind.is_injected())
    }

    pub fn may_drop(self, weak: bool) -> bool
        ensures { (weight : ℕ) → weak ≡ eqb weight 1 → result ≡ may_drop self.0 weight }
    {
        self.kind().is_some_and(|kind| kind.may_drop(weak))
    }
}

// The byte that a need's weight is read from: 0 for Always, 1 for Maybe. One above 1 is no weight: number 9 of the table turns it down.
#[derive(Clone, Copy, PartialEq, Eq)]
pub struct WeightByte(pub u8);

impl WeightByte {
    pub fn is_maybe(self) -> bool
        ensures { result ≡ eqb self.0 1 }
    {
        self.0 == 1
    }

    // Whether it is no weight.
    pub fn is_none(self) -> bool
        ensures { result ≡ ltb 1 self.0 }
    {
        1 < self.0
    }
}
