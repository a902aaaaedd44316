// A query.
ghost use Rattle.std.specs.Prelude.{◌≡◌, true};
ghost use Rattle.queries.specs.Atoms.{held};
ghost use Rattle.queries.specs.Checks.{valid};

use crate::atoms::Atoms;
use crate::checks::{Scope, checked};
use notation::faults::LineFault;
use notation::terms::{Atom, Term};

// One to sixteen different atoms, with variables numbered from v0 by first appearance without a gap.
#[derive(Clone, Copy)]
pub struct Query {
    pub(crate) atoms: Atoms<16>,
    ghost proper: { valid (held atoms) ≡ true },
}

impl Query {
    ghost use Rattle.queries.specs.Checks.{make_query};
    ghost use Rattle.queries.specs.Queries.{atoms_of, query_seen};

    // The query of these atoms, where `arity` lists the numbers of terms of p0, p1 and so on.
    pub fn new(arity: &[u8], atoms: &[Atom<Term>]) -> Result<Query, LineFault>
        ensures { query_seen result ≡ make_query arity.now atoms.now }
    {
        let (atoms, _) = checked(Scope::new(0, 0), arity, atoms)?;
        Ok(Query { atoms })
    }

    // The query of atoms that are known to make one.
    pub fn of_valid(atoms: &[Atom<Term>]) -> Query
        requires { valid atoms.now ≡ true }
        ensures { atoms_of result ≡ atoms.now }
    {
        Query {
            atoms: Atoms::of(atoms),
        }
    }

    pub fn atoms(&self) -> &[Atom<Term>]
        ensures { result.now ≡ atoms_of self.now }
    {
        self.atoms.as_slice()
    }

    // The query's atoms by themselves.
    pub fn array(&self) -> Atoms<16>
        ensures { held result ≡ atoms_of self.now }
    {
        self.atoms
    }
}
