// Whether taken atoms and head atoms become the same set under the classes: a question that writes nothing.
ghost use Rattle.std.specs.Prelude.{◌≡◌, [], map};
ghost use Rattle.notation.specs.Logic.{rename};
ghost use Rattle.rewriting.specs.Classes.{same_ref};
ghost use Rattle.rewriting.specs.Computing.{same_atom, same_list, any};
ghost use Rattle.rewriting.specs.Judging.{within, sets_meet as sets_meet_in};
ghost use Rattle.rewriting.specs.Pieces.{atom_of, terms_meant, atoms_meant, piece_of};
ghost use Rattle.rewriting.specs.Steps.{Ref};
ghost use Rattle.rewriting.specs.Tables.{Names};

use crate::classes::Classes;
use crate::pieces::{Piece, Side, StepAtom};
use notation::terms::Terms;

impl Classes {
    // Whether two atoms become the same once every term is replaced by its class.
    fn make_same(&self, first: StepAtom, second: StepAtom) -> bool
        ensures { (f : Ref → Ref) → Names self.now.names f
            → result ≡ same_atom same_ref (rename f (atom_of first)) (rename f (atom_of second)) }
    {
        first.atom.predicate == second.atom.predicate && self.join_terms(first, second)
    }

    // Arm by arm: terms are paired with terms, which no method of one of them does more plainly.
    // Whether their terms are as many, and one by one in one class.
    fn join_terms(&self, first: StepAtom, second: StepAtom) -> bool
        ensures { (f : Ref → Ref) → Names self.now.names f
            → result ≡ same_list same_ref (map f (terms_meant first)) (map f (terms_meant second)) }
    {
        match (first.atom.terms, second.atom.terms) {
            (Terms::One(a), Terms::One(b)) => self.join(first.term(a), second.term(b)),
            (Terms::Two(a, c), Terms::Two(b, d)) => {
                self.join(first.term(a), second.term(b)) && self.join(first.term(c), second.term(d))
            }
            (Terms::Three(a, c, e), Terms::Three(b, d, f)) => {
                self.join(first.term(a), second.term(b))
                    && self.join(first.term(c), second.term(d))
                    && self.join(first.term(e), second.term(f))
            }
            (Terms::Four(a, c, e, g), Terms::Four(b, d, f, h)) => {
                self.join(first.term(a), second.term(b))
                    && self.join(first.term(c), second.term(d))
                    && self.join(first.term(e), second.term(f))
                    && self.join(first.term(g), second.term(h))
            }
            _ => false,
        }
    }
}

impl<'a> Side<'a> {
    // Whether an atom becomes the same as one of those that are meant.
    fn meets(&self, classes: &Classes, a: StepAtom) -> bool
        ensures { (f : Ref → Ref) → Names classes.now.names f
            → result ≡ any (same_atom same_ref (rename f (atom_of a))) (map (rename f) (atoms_meant self.now)) }
    {
        // a loop, as below: `any` and `all` over a test that promises something for each naming did not prove
        for (j, own) in self.atoms.iter().enumerate() {
            if self.numbers.contains(&j) && classes.make_same(a, self.atom(*own)) {
                return true;
            }
        }
        false
    }

    // Whether each atom that is meant becomes the same as one of the other's.
    fn within(&self, classes: &Classes, other: &Side<'_>) -> bool
        ensures { (f : Ref → Ref) → Names classes.now.names f
            → result ≡ within (map (rename f) (atoms_meant self.now)) (map (rename f) (atoms_meant other.now)) }
    {
        for (j, a) in self.atoms.iter().enumerate() {
            if self.numbers.contains(&j) && !other.meets(classes, self.atom(*a)) {
                return false;
            }
        }
        true
    }
}

impl<'a> Piece<'a> {
    // Whether the atoms taken from the query and those named of the head become the same set.
    pub(crate) fn sets_meet(&self, classes: Classes) -> bool
        ensures { (f : Ref → Ref) → Names classes.names f
            → result ≡ sets_meet_in f (piece_of [] self.now) }
    {
        let taken = self.taken();
        let named = self.named();
        taken.within(&classes, &named) && named.within(&classes, &taken)
    }
}
