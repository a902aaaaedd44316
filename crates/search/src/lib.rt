// Whether a query holds: the search for a giving of values to its variables that makes each atom a fact.
#![tactic(auto)]

ghost use Rattle.std.specs.Prelude.{◌≡◌, true, map, Decides};
ghost use Rattle.notation.specs.Logic.{query_atom};
ghost use Rattle.search.specs.Fitting.{variables_fit};
ghost use Rattle.search.specs.Holding.{Holds};
ghost use Rattle.search.specs.Bindings.{HoldsFrom};

use crate::candidates::Candidates;
use crate::guide::Guide;
use crate::matching::Binding;
use notation::terms::{Atom, Term};
use sources::Source;

mod candidates;
pub mod guide;
pub mod laws;
pub mod matching;
pub mod question;
pub mod rules;

// Whether the atoms hold with what `b` has given: they are tried in their order, and for each the places along
// the route that `s` has for it, in ascending order.
// That the variables fit stays a clause, here and in the other files: who calls has a slice, of which a type that says so
// would have to be made, and to split it would be a call in place of a pattern.
pub fn extends<G: Guide>(q: &[Atom<Term>], s: &G, b: &Binding) -> bool
    requires { variables_fit q.now ≡ true }
    ensures { Decides result (HoldsFrom (map query_atom q.now) b.now (G.Source.facts s.now)) }
{
    match q {
        [] => true,
        [a, rest @ ..] => {
            // As `any`, the closure that calls the search again needs clauses of its own, longer than this loop.
            for f in Candidates::new(s, a, b) {
                if b.may_match(a, &f) {
                    let mut more = *b;
                    if more.matched(a, &f).is_some() && extends(rest, s, &more) {
                        return true;
                    }
                }
            }
            false
        }
    }
}

// Whether the atoms hold in the list of `s`.
pub fn holds_atoms<G: Guide>(q: &[Atom<Term>], s: &G) -> bool
    requires { variables_fit q.now ≡ true }
    ensures { Decides result (Holds (map query_atom q.now) (G.Source.facts s.now)) }
{
    extends(q, s, &Binding::new())
}
