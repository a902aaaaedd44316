// The head of a rule.
use crate::atoms::Atoms;
use notation::terms::{Atom, Term};

// At most four atoms.
#[derive(Clone, Copy)]
pub struct Head {
    pub(crate) atoms: Atoms<4>,
}

impl Head {
    ghost use Rattle.std.specs.Prelude.{◌≡◌};
    ghost use Rattle.queries.specs.Heads.{head_atoms};

    pub fn atoms(&self) -> &[Atom<Term>]
        ensures { result.now ≡ head_atoms self.now }
    {
        self.atoms.as_slice()
    }
}
