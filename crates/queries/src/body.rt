// The body of a rule.
ghost use Rattle.std.specs.Prelude.{◌≡◌, true};
ghost use Rattle.queries.specs.Atoms.{held};
ghost use Rattle.queries.specs.Checks.{all_terms, numbered, next_is, fine};

use crate::atoms::Atoms;
use crate::checks::{Scope, checked};
use notation::faults::LineFault;
use notation::terms::{Atom, Term};

// One to eight different atoms, with variables numbered from v0 by first appearance without a gap; `next` is the number
// of variables.
#[derive(Clone, Copy)]
pub struct Body {
    pub(crate) atoms: Atoms<8>,
    pub(crate) next: usize,
    ghost proper: { fine 8 (held atoms) ≡ true },
    ghost counted: { next_is (numbered 0 0 0 (all_terms (held atoms))) next ≡ true },
}

impl Body {
    ghost use Rattle.queries.specs.Heads.{body_atoms, body_seen};
    ghost use Rattle.queries.specs.RuleChecks.{make_body};

    // The body of these atoms, where `arity` lists the numbers of terms of p0, p1 and so on.
    pub fn new(arity: &[u8], atoms: &[Atom<Term>]) -> Result<Body, LineFault>
        ensures { body_seen result ≡ make_body arity.now atoms.now }
    {
        let (atoms, next) = checked(Scope::new(0, 0), arity, atoms)?;
        Ok(Body { atoms, next })
    }

    pub fn atoms(&self) -> &[Atom<Term>]
        ensures { result.now ≡ body_atoms self.now }
    {
        self.atoms.as_slice()
    }
}
