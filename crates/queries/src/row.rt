// An entered query as plain values.
use crate::atoms::Atoms;
use crate::query::Query;
use notation::terms::{Atom, Term};

// The atoms of a query, and whether it stands.
#[derive(Clone, Copy)]
pub struct Row {
    pub atoms: Atoms<16>,
    pub standing: bool,
}

impl Row {
    ghost use Rattle.std.specs.Prelude.{◌≡◌, true, take};
    ghost use Rattle.queries.specs.Checks.{valid};
    ghost use Rattle.queries.specs.Queries.{atoms_of};
    ghost use Rattle.queries.specs.Rows.{row_atoms};

    // A row of the first `count` of these atoms, of which there may be fewer: whatever the three are, there is a row of them.
    pub fn new(atoms: [Atom<Term>; 16], count: usize, standing: bool) -> Row
        ensures atoms { row_atoms result ≡ take count atoms }
        ensures standing { result.standing ≡ standing }
    {
        Row {
            atoms: Atoms::front(atoms, count),
            standing,
        }
    }

    // The query of the atoms, which are known to make one.
    pub fn query(&self) -> Query
        requires { valid (row_atoms self.now) ≡ true }
        ensures { atoms_of result ≡ row_atoms self.now }
    {
        Query { atoms: self.atoms }
    }
}
