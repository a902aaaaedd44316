// Unnamed variables: besides each, its class may hold only variables of the copy that occur in taken atoms and in no other.
ghost use Rattle.std.specs.Prelude.{◌≡◌, ◌<◌, ◌↔◌, IsTrue};
ghost use Rattle.notation.specs.Logic.{as_term, query_atom, var};
ghost use Rattle.rewriting.specs.Classes.{class_name};
ghost use Rattle.rewriting.specs.Computing.{same_term};
ghost use Rattle.rewriting.specs.Judging.{ends, unnamed_right};
ghost use Rattle.rewriting.specs.Occurring.{mentions as mentions_in, occurs as occurs_in, only_at, may_stand, AllMayStand};
ghost use Rattle.rewriting.specs.Pieces.{piece_of};
ghost use Rattle.rewriting.specs.Steps.{Ties};
ghost use Rattle.rewriting.specs.Tables.{Names, TiesWithin};
ghost use Rattle.rewriting.specs.Written.{logic_atoms};

use crate::classes::Classes;
use crate::pieces::Piece;
use crate::places::{COPIES, RULE, VARIABLES};
use crate::terms::any_of;
use notation::terms::{Atom, Term};

// Whether the term is the variable v.
fn is_variable(t: Term, v: u8) -> bool
    ensures { result ≡ same_term (var v) (as_term t) }
{
    t == Term::Variable(v)
}

// Whether the variable v occurs in the atom.
fn mentions(a: Atom<Term>, v: u8) -> bool
    ensures { result ≡ mentions_in v (query_atom a) }
{
    any_of(a.terms, |t| is_variable(t, v))
}

// Whether it occurs in the atoms.
fn occurs(atoms: &[Atom<Term>], v: u8) -> bool
    ensures { result ≡ occurs_in v (logic_atoms atoms.now) }
{
    atoms.iter().any(|a| mentions(*a, v))
}

// Whether it occurs in the atoms, and in none but those at the numbers.
fn occurs_only_at(atoms: &[Atom<Term>], numbers: &[usize], v: u8) -> bool
    ensures { result ≡ only_at numbers.now (logic_atoms atoms.now) v }
{
    occurs(atoms, v)
        && atoms
            .iter()
            .enumerate()
            .all(|(k, a)| numbers.contains(&k) || !mentions(*a, v))
}

impl<'a> Piece<'a> {
    // Whether the term at place p may stand in the class of the unnamed variable z.
    fn may_stand(&self, z: u8, p: usize) -> bool
        ensures { result
            ≡ may_stand self.now.number z self.now.part.now.taken.items (logic_atoms self.now.query.now) p }
    {
        if p == RULE + z as usize {
            return true;
        }
        let start = COPIES + VARIABLES * self.number;
        if !(start..start + VARIABLES).contains(&p) {
            return false;
        }
        occurs_only_at(self.query, &self.part.taken, (p - start) as u8)
    }

    // Whether the class of the unnamed variable z holds only terms that may stand there.
    fn keeps_alone(&self, classes: &Classes, z: u8) -> bool
        requires { z < 32 }
        ensures { IsTrue result ↔ (AllMayStand classes.now.names self.now.number
            self.now.part.now.taken.items (logic_atoms self.now.query.now) z) }
    {
        let own = classes.names[RULE + z as usize];
        // a loop, which takes a fifth less of a step's time than `all` over what `enumerate` gives
        for (p, name) in classes.names.iter().enumerate() {
            if *name == own && !self.may_stand(z, p) {
                return false;
            }
        }
        true
    }

    // Whether, for each variable of the head that is not in the body, its class holds besides it only variables of the copy
    // that occur in taken atoms of the query and in no other.
    pub(crate) fn unnamed_right(&self, classes: Classes, body: &[Atom<Term>]) -> bool
        ensures { (ts : Ties) → TiesWithin ts → Names classes.names (class_name ts)
            → result ≡ unnamed_right (class_name ts) (ends ts) (piece_of (logic_atoms body.now) self.now) }
    {
        // a loop, since the test in a chain would have to be a function with a contract of its own
        for z in 0..32u8 {
            if !occurs(self.head, z) || occurs(body, z) {
                continue;
            }
            if !self.keeps_alone(&classes, z) {
                return false;
            }
        }
        true
    }
}
