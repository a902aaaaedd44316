// What a part says, tested before its ties are joined.
ghost use Rattle.std.specs.Prelude.{◌≡◌, true, ◌&&◌, ◌||◌, List, [], map, length, OnOk};
ghost use Rattle.notation.specs.Logic.{as_term, terms_of, Atom as LogicAtom, Term as LogicTerm};
ghost use Rattle.rewriting.specs.Classes.{same_ref};
ghost use Rattle.rewriting.specs.Computing.{any};
ghost use Rattle.rewriting.specs.Judging.{Read, part_read, numbers_fit as numbers_fit_in, ties_fit as ties_fit_in, tie_fits as tie_fits_in, has_ref};
ghost use Rattle.rewriting.specs.Pieces.{atoms_meant, piece_of};
ghost use Rattle.rewriting.specs.Steps.{end, nth};
ghost use Rattle.rewriting.specs.Tables.{TiesWithin, part_ties};
ghost use Rattle.rewriting.specs.Written.{ref_of, step_ref, end_of, part_of, logic_atoms, row_at, row_standing, PartRead};

use crate::numbers::ascending;
use crate::pieces::{Piece, Side};
use crate::places::StepTerm;
use crate::refusal::StepRefusal;
use crate::rows::stands_at;
use crate::steps::Owner;
use crate::terms::any_of;
use notation::terms::{End, Term, Terms, Tie};
use queries::row::Row;

const MOST_TIES: usize = 96;

impl StepTerm {
    // Whether it is this term of the owner's.
    fn is(self, owner: Owner, t: Term) -> bool
        ensures { result ≡ same_ref (step_ref self) (ref_of owner (as_term t)) }
    {
        self == StepTerm::of(owner, t)
    }

    // Whether it is one of the owner's terms.
    fn is_among(self, owner: Owner, ts: Terms<Term>) -> bool
        ensures { result
            ≡ any (same_ref (step_ref self)) (map (ref_of owner) (map as_term (terms_of ts))) }
    {
        any_of(ts, |t| self.is(owner, t))
    }
}

impl<'a> Side<'a> {
    // Whether it is a term of the atoms that are meant.
    fn has(&self, x: StepTerm) -> bool
        ensures { result ≡ has_ref (step_ref x) (atoms_meant self.now) }
    {
        self.atoms.iter().enumerate().any(|(j, a)| self.numbers.contains(&j)
            && x.is_among(self.owner, a.terms))
    }
}

impl<'a> Piece<'a> {
    // Whether the end of a tie is a term of the atoms taken from the query, or of those named of the head.
    fn has(&self, e: End) -> bool
        ensures { result
            ≡ (has_ref (end self.now.number (end_of e)) (piece_of [] self.now).taken
            || has_ref (end self.now.number (end_of e)) (piece_of [] self.now).named) }
    {
        let x = StepTerm::of_end(self.number, e);
        self.taken().has(x) || self.named().has(x)
    }

    // Whether both ends of a tie are such terms.
    fn has_ends(&self, t: Tie) -> bool
        ensures { result
            ≡ tie_fits_in (piece_of [] self.now)
            (end self.now.number (end_of t.left), end self.now.number (end_of t.right)) }
    {
        self.has(t.left) && self.has(t.right)
    }

    // Whether the part has at most 96 ties, and these join terms of the part.
    fn ties_fit(&self) -> bool
        ensures { result ≡ ties_fit_in (part_of self.now.part.now) (piece_of [] self.now) }
    {
        self.part.ties.len() <= MOST_TIES && self.part.ties.iter().all(|t| self.has_ends(*t))
    }

    // Whether the part's numbers are those of atoms of the query and of the head, at least one of each, ascending.
    fn numbers_fit(&self) -> bool
        ensures { result
            ≡ (numbers_fit_in (length self.now.query.now) self.now.part.now.taken.items
            && numbers_fit_in (length self.now.head.now) self.now.part.now.named.items) }
    {
        ascending(&self.part.taken, self.query.len())
            && ascending(&self.part.named, self.head.len())
    }

    // The part on the rows: its query stands, its numbers are those of atoms and ascend, it has at most 96 ties, and these
    // join terms of the part.
    pub(crate) fn read(&self, rows: &[Row]) -> Result<(), StepRefusal>
        requires { self.now.query.now ≡ row_at rows.now self.now.part.now.query }
        ensures read { (b : List (LogicAtom LogicTerm)) (rest : Read)
            → PartRead result (piece_of b self.now) rest
            (part_read self.now.number b (logic_atoms self.now.head.now) (part_of self.now.part.now)
            (row_standing (nth self.now.part.now.query rows.now)) rest) }
        ensures ties { OnOk result (TiesWithin (part_ties self.now.number (part_of self.now.part.now))) }
    {
        if !stands_at(rows, self.part.query) {
            return Err(StepRefusal::NotStanding(self.number));
        }
        if !self.numbers_fit() {
            return Err(StepRefusal::BadAtoms(self.number));
        }
        if !self.ties_fit() {
            return Err(StepRefusal::BadTie(self.number));
        }
        Ok(())
    }
}
