// An index as a source that knows which of its places are worth trying.
ghost use Rattle.std.specs.Prelude.{◌≡◌, ◌<◌, true, length, IfSome, Some};
ghost use Rattle.std.specs.List.{slice_get};
ghost use Rattle.notation.specs.Fits.{terms_fit};
ghost use Rattle.notation.specs.Logic.{fact_atom};
ghost use Rattle.search.specs.Fitting.{slot_fits};
ghost use Rattle.index.specs.Indexed.{facts_of, few_facts, on_route};
ghost use Rattle.index.specs.Settled.{Settled};

use super::{Index, Route};
use crate::keys::{blend, term_at};
use notation::terms::{Atom, Fact, Term, Terms, Value};
use search::guide::Guide;
use search::matching::Binding;
use sources::Source;

// It stands for the list of its facts.
impl Source for Index {
    ghost facts = { facts_of };

    ghost few = { few_facts };

    fn len(&self) -> usize {
        self.items.len()
    }

    fn fact(&self, k: usize) -> Option<Fact> {
        self.items.get(k).copied()
    }
}

// The value of the term at a position: a constant, or what a variable has been given.
fn settled(ts: &Terms<Term>, at: usize, b: &Binding) -> Option<Value>
    requires { terms_fit slot_fits ts.now ≡ true }
    ensures { IfSome result (λ x. Settled b.now ts.now at x) }
{
    match term_at(ts, at)? {
        Term::Constant(k) => Some(Value::Constant(k)),
        Term::Variable(v) => b.value_of(v),
    }
}

// A route goes along the chain of the first position whose value is settled, or else along that of the predicate.
// A `find_map` in `route` is no plainer than its loop: the position and value that it found would be matched again.
impl Guide for Index {
    type Route = Route;

    ghost on = { on_route };

    fn at(&self, k: usize) -> Fact {
        self.items[k]
    }

    fn route(&self, a: &Atom<Term>, b: &Binding) -> Route {
        for at in 0..4 {
            if let Some(x) = settled(&a.terms, at, b) {
                return Route {
                    at,
                    key: blend(a.predicate, Some(x)),
                };
            }
        }
        Route {
            at: 4,
            key: blend(a.predicate, None),
        }
    }

    fn first(&self, c: Route) -> Option<usize> {
        self.chains[c.at].first(c.key)
    }

    fn after(&self, c: Route, k: usize) -> Option<usize> {
        self.chains[c.at].after(k)
    }
}
