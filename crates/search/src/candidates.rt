// The facts that an atom may be under a binding.
ghost use Rattle.std.specs.Prelude.{◌≡◌, ◌<◌, true, length};
ghost use Rattle.std.specs.Option.{ForSome};
ghost use Rattle.std.specs.Iterator.{YieldsFirstBy, item_count};
ghost use Rattle.notation.specs.Logic.{query_atom, fact_atom};
ghost use Rattle.search.specs.Fitting.{slots_fit};
ghost use Rattle.search.specs.Routes.{AreCandidates, facts_from};
ghost use Rattle.search.specs.Candidates.{facts_ahead, place_told};

use crate::guide::Guide;
use crate::matching::Binding;
use notation::terms::{Atom, Fact, Term};

// What comes next along a route: the fact at a place, or none, or that at the place after one, which is looked for when it is
// asked for, since a search may end before.
#[derive(Clone, Copy)]
pub enum Ahead {
    At(Option<usize>),
    After(usize),
}

// The facts along a route that are ahead. `end` is their number, so that a source is not asked for it at each.
#[derive(Drop)]
pub struct Candidates<'a, G: Guide> {
    guide: &'a G,
    route: G::Route,
    end: usize,
    ahead: Ahead,
    ghost whole: { end ≡ length (G.Source.facts guide.now) },
    ghost along: { ForSome (place_told ahead) (λ k. (k < length (G.Source.facts guide.now)) × (G.on guide.now route k ≡ true)) },
}

impl<'a, G: Guide> Candidates<'a, G> {
    // The facts of `s` that the atom may be with what `b` has given.
    #[inline(always)]
    pub fn new(s: &'a G, a: &Atom<Term>, b: &Binding) -> Candidates<'a, G>
        requires { slots_fit a.now ≡ true }
        ensures { AreCandidates (query_atom a.now) b.now (G.Source.facts s.now) (facts_ahead (G.on result.guide.now result.route) (G.Source.facts result.guide.now) result.ahead) }
    {
        let route = s.route(a, b);
        let end = s.len();
        Candidates {
            guide: s,
            route,
            end,
            ahead: Ahead::At(s.first_within(route, end)),
        }
    }

    // The place of the next fact.
    #[inline(always)]
    fn place(&self) -> Option<usize>
        ensures found { ForSome result (λ k. (k < length (G.Source.facts self.now.guide.now)) × (G.on self.now.guide.now self.now.route k ≡ true)) }
        ensures ahead { facts_ahead (G.on self.now.guide.now self.now.route) (G.Source.facts self.now.guide.now) self.now.ahead
            ≡ facts_from (G.on self.now.guide.now self.now.route) (G.Source.facts self.now.guide.now) result }
    {
        match self.ahead {
            Ahead::At(place) => place,
            Ahead::After(k) => self.guide.after_within(self.route, k, self.end),
        }
    }
}

impl<'a, G: Guide> Iterator for Candidates<'a, G> {
    type Item = Fact;

    ghost next_gives = { YieldsFirstBy fact_atom (λ s. facts_ahead (G.on s.guide.now s.route) (G.Source.facts s.guide.now) s.ahead) };

    ghost remaining = { item_count (λ s. facts_ahead (G.on s.guide.now s.route) (G.Source.facts s.guide.now) s.ahead) };

    fn next(&mut self) -> Option<Fact> {
        let k = self.place()?;
        self.ahead = Ahead::After(k);
        Some(self.guide.at(k))
    }
}
