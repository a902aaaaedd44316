// A query's terms and atoms, taken as those of facts.
ghost use Rattle.std.specs.Prelude.{◌≡◌};
ghost use Rattle.notation.specs.Logic.{as_term, as_value, query_atom, fact_atom};

use crate::terms::{Atom, Fact, Term, Value};

// The variable v is taken as the unknown n of the same number.
impl From<Term> for Value {
    ghost from_gives = { λ t r. as_value r ≡ as_term t };

    fn from(t: Term) -> Value {
        match t {
            Term::Constant(k) => Value::Constant(k),
            Term::Variable(k) => Value::Unknown(u16::from(k)),
        }
    }
}

impl From<Atom<Term>> for Fact {
    ghost from_gives = { λ a r. fact_atom r ≡ query_atom a };

    fn from(a: Atom<Term>) -> Fact {
        Atom {
            predicate: a.predicate,
            terms: a.terms.map(Value::from),
        }
    }
}
