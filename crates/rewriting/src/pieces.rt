// Parts of a step beside what they speak of.
ghost use Rattle.std.specs.Prelude.{◌≡◌, ◌<◌, true, []};
ghost use Rattle.notation.specs.Fits.{term_fits, atom_fits};
ghost use Rattle.queries.specs.Checks.{atoms_all_fit};
ghost use Rattle.rewriting.specs.Tables.{OwnerWithin, OwnerWithin-prop};

use crate::places::{Placed, StepTerm};
use crate::steps::{Owner, Part};
use notation::terms::{Atom, Term};

// An atom whose variables are the owner's.
#[derive(Clone, Copy)]
pub struct StepAtom {
    pub(crate) owner: Owner,
    pub(crate) atom: Atom<Term>,
    ghost fit: { atom_fits term_fits atom ≡ true },
    ghost owned: { OwnerWithin owner } by { OwnerWithin-prop owner },
}

// Atoms of an owner, and the numbers of those that are meant.
#[derive(Clone, Copy)]
pub struct Side<'a> {
    pub(crate) owner: Owner,
    pub(crate) atoms: &'a [Atom<Term>],
    pub(crate) numbers: &'a [usize],
    ghost fit: { atoms_all_fit atoms.now ≡ true },
    ghost owned: { OwnerWithin owner } by { OwnerWithin-prop owner },
}

// A part with its number, its head and the atoms of its query.
#[derive(Clone, Copy)]
pub struct Piece<'a> {
    pub(crate) number: usize,
    pub(crate) head: &'a [Atom<Term>],
    pub(crate) query: &'a [Atom<Term>],
    pub(crate) part: &'a Part,
    ghost numbered: { number < 4 },
    ghost head_fits: { atoms_all_fit head.now ≡ true },
    ghost query_fits: { atoms_all_fit query.now ≡ true },
}

impl StepAtom {
    ghost use Rattle.notation.specs.Logic.{as_term};
    ghost use Rattle.rewriting.specs.Written.{ref_of, step_ref};

    // One of its terms.
    pub(crate) fn term(&self, t: Term) -> Placed
        requires { term_fits t ≡ true }
        ensures { step_ref result.term ≡ ref_of self.now.owner (as_term t) }
    {
        Placed {
            term: StepTerm::of(self.owner, t),
        }
    }
}

impl<'a> Side<'a> {
    // An atom whose variables are the owner's.
    pub(crate) fn atom(&self, a: Atom<Term>) -> StepAtom
        requires { atom_fits term_fits a ≡ true }
        ensures atom { result.atom ≡ a }
        ensures owner { result.owner ≡ self.now.owner }
    {
        StepAtom {
            owner: self.owner,
            atom: a,
        }
    }
}

impl<'a> Piece<'a> {
    ghost use Rattle.rewriting.specs.Pieces.{atoms_meant, atoms_left, piece_of};

    // The atoms taken from the query.
    pub(crate) fn taken(&self) -> Side<'a>
        ensures meant { atoms_meant result ≡ (piece_of [] self.now).taken }
        ensures others { atoms_left result ≡ (piece_of [] self.now).rest }
    {
        Side {
            owner: Owner::Part(self.number),
            atoms: self.query,
            numbers: &self.part.taken,
        }
    }

    // The atoms named of the head.
    pub(crate) fn named(&self) -> Side<'a>
        ensures { atoms_meant result ≡ (piece_of [] self.now).named }
    {
        Side {
            owner: Owner::Rule,
            atoms: self.head,
            numbers: &self.part.named,
        }
    }
}
