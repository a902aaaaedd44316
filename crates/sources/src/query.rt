// A query read as facts.
ghost use Rattle.std.specs.Prelude.{◌≡◌, map};
ghost use Rattle.std.specs.Option.{option_map};
ghost use Rattle.std.specs.List.{slice_get};
ghost use Rattle.notation.specs.Logic.{query_atom, fact_atom};
ghost use Rattle.queries.specs.Queries.{atoms_of};
ghost use Rattle.sources.specs.Few.{query_few};

use crate::Source;
use notation::terms::{Atom, Fact, Term};
use queries::query::Query;

// The atom at place k as a fact: each variable is taken as the unknown of its number.
fn frozen_at(atoms: &[Atom<Term>], k: usize) -> Option<Fact>
    ensures { option_map fact_atom result ≡ slice_get (map query_atom atoms.now) k }
{
    atoms.get(k).copied().map(Fact::from)
}

// The atoms of a query in order, each variable taken as the unknown of its number.
#[derive(Clone, Copy)]
pub struct QuerySource<'a> {
    pub query: &'a Query,
}

impl<'a> Source for QuerySource<'a> {
    ghost facts = { λ s. map query_atom (atoms_of s.query.now) };

    ghost few = { λ s. query_few s.query.now };

    fn len(&self) -> usize {
        self.query.atoms().len()
    }

    fn fact(&self, k: usize) -> Option<Fact> {
        frozen_at(self.query.atoms(), k)
    }
}
