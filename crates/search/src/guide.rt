// Which places of a source are worth trying for an atom under a binding.
ghost use Rattle.std.specs.Prelude.{◌≡◌, ℕ, ◌+◌, ◌<◌, Bool, true, length, Some};
ghost use Rattle.std.specs.List.{slice_get};
ghost use Rattle.notation.specs.Logic.{query_atom, fact_atom};
ghost use Rattle.search.specs.Fitting.{slots_fit};
ghost use Rattle.search.specs.Routes.{Covers, Leads};

use crate::matching::Binding;
use notation::terms::{Atom, Fact, Term};
use sources::Source;

// A source that knows which of its places are worth trying.
pub trait Guide: Source {
    // what it follows through its places
    type Route: Copy;

    // whether a place lies on a route
    ghost on: { Self → Self.Route → ℕ → Bool };

    // The fact at a place.
    fn at(&self, k: usize) -> Fact
        requires { k < length (Self.Source.facts self.now) }
        ensures { slice_get (Self.Source.facts self.now) k ≡ Some (fact_atom result) };

    // A route with every place at which the atom can be the fact.
    fn route(&self, a: &Atom<Term>, b: &Binding) -> Self::Route
        requires { slots_fit a.now ≡ true }
        ensures { Covers (on self.now result) (query_atom a.now) b.now (Self.Source.facts self.now) };

    // The first place of the route.
    fn first(&self, c: Self::Route) -> Option<usize>
        ensures { Leads (on self.now c) (length (Self.Source.facts self.now)) 0 result };

    // The next place of the route after k.
    fn after(&self, c: Self::Route, k: usize) -> Option<usize>
        requires inside { k < length (Self.Source.facts self.now) }
        requires along { on self.now c k ≡ true }
        ensures { Leads (on self.now c) (length (Self.Source.facts self.now)) (k + 1) result };

    // The first place of the route, for who knows how many places there are: they need not be counted again.
    fn first_within(&self, c: Self::Route, end: usize) -> Option<usize>
        requires { end ≡ length (Self.Source.facts self.now) }
        ensures { Leads (on self.now c) (length (Self.Source.facts self.now)) 0 result }
    {
        self.first(c)
    }

    // The next place of the route after k, likewise.
    fn after_within(&self, c: Self::Route, k: usize, end: usize) -> Option<usize>
        requires inside { k < length (Self.Source.facts self.now) }
        requires along { on self.now c k ≡ true }
        requires whole { end ≡ length (Self.Source.facts self.now) }
        ensures { Leads (on self.now c) (length (Self.Source.facts self.now)) (k + 1) result }
    {
        self.after(c, k)
    }
}

// A source read from its first place to its last.
#[derive(Clone, Copy)]
pub struct Plain<'a, S> {
    pub source: &'a S,
}

// It stands for the same list.
impl<'a, S: Source> Source for Plain<'a, S> {
    ghost facts = { λ p. S.Source.facts p.source.now };

    ghost few = { λ p. S.Source.few p.source.now };

    fn len(&self) -> usize {
        self.source.len()
    }

    fn fact(&self, k: usize) -> Option<Fact> {
        self.source.fact(k)
    }
}

impl<'a, S: Source> Plain<'a, S> {
    // Place k, where there is one.
    fn place(&self, k: usize) -> Option<usize>
        ensures { Leads (λ j. true) (length (S.Source.facts self.now.source.now)) k result }
    {
        (k < self.source.len()).then_some(k)
    }
}

// Every place lies on every route.
impl<'a, S: Source> Guide for Plain<'a, S> {
    type Route = ();

    ghost on = { λ p c k. true };

    fn at(&self, k: usize) -> Fact {
        self.source.fact(k).unwrap()
    }

    fn route(&self, a: &Atom<Term>, b: &Binding) {}

    fn first(&self, c: ()) -> Option<usize> {
        self.place(0)
    }

    fn after(&self, c: (), k: usize) -> Option<usize> {
        self.place(k + 1)
    }

    fn first_within(&self, c: (), end: usize) -> Option<usize> {
        (0 < end).then_some(0)
    }

    fn after_within(&self, c: (), k: usize, end: usize) -> Option<usize> {
        (k + 1 < end).then_some(k + 1)
    }
}
