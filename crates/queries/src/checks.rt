// What a list of atoms has to meet to be a query.
ghost use Rattle.std.specs.Prelude.{◌≡◌, ℕ, ◌<◌, ◌≤◌, List, [], ◌∷◌, length, Ok, Err, IfOk, IfErr};
ghost use Rattle.notation.specs.Fits.{term_fits, terms_fit};
ghost use Rattle.notation.specs.Logic.{terms_of};
ghost use Rattle.queries.specs.Atoms.{held};
ghost use Rattle.queries.specs.Checks.{each, ranged, listed as is_listed, distinct as is_distinct, check_atoms};

use crate::atoms::Atoms;
use notation::faults::{AtomFault, LineFault, TermFault};
use notation::terms::{Atom, Term, Terms};

fn fits(t: Term) -> bool
    ensures { result ≡ term_fits t }
{
    match t {
        Term::Constant(k) => k < 1000,
        Term::Variable(k) => k < 32,
    }
}

// Arm by arm: of all terms nothing else is asked, and a method that takes the test would be no plainer.
fn all_fit(ts: Terms<Term>) -> bool
    ensures { result ≡ terms_fit term_fits ts }
{
    match ts {
        Terms::One(a) => fits(a),
        Terms::Two(a, b) => fits(a) && fits(b),
        Terms::Three(a, b, c) => fits(a) && fits(b) && fits(c),
        Terms::Four(a, b, c, d) => fits(a) && fits(b) && fits(c) && fits(d),
    }
}

// The predicate and the terms are in range.
fn in_range(a: Atom<Term>) -> Result<(), AtomFault>
    ensures { result ≡ ranged a }
{
    if a.predicate >= 32 {
        return Err(AtomFault::Broken);
    }
    if !all_fit(a.terms) {
        return Err(AtomFault::InTerm(TermFault::BadNumber));
    }
    Ok(())
}

fn all_in_range(atoms: &[Atom<Term>]) -> Result<(), AtomFault>
    ensures { result ≡ each ranged atoms.now }
{
    for a in atoms {
        in_range(*a)?;
    }
    Ok(())
}

fn count(ts: Terms<Term>) -> u8
    ensures { result ≡ length (terms_of ts) }
{
    match ts {
        Terms::One(_) => 1,
        Terms::Two(_, _) => 2,
        Terms::Three(_, _, _) => 3,
        Terms::Four(_, _, _, _) => 4,
    }
}

// The predicate is listed with the atom's number of terms.
fn listed(arity: &[u8], a: Atom<Term>) -> Result<(), AtomFault>
    ensures { result ≡ is_listed arity.now a }
{
    match arity.get(a.predicate as usize) {
        None => Err(AtomFault::Unlisted),
        Some(n) if *n == count(a.terms) => Ok(()),
        Some(_) => Err(AtomFault::WrongCount),
    }
}

// Apart from `all_in_range`: `try_for_each` was tried in place of both loops, and its goal stayed open.
fn all_listed(arity: &[u8], atoms: &[Atom<Term>]) -> Result<(), AtomFault>
    ensures { result ≡ each (is_listed arity.now) atoms.now }
{
    for a in atoms {
        listed(arity, *a)?;
    }
    Ok(())
}

// Which variables atoms may have: the first `known`, those from `start` on that have appeared, and `next`.
#[derive(Clone, Copy)]
pub(crate) struct Scope {
    known: usize,
    start: usize,
    next: usize,
}

impl Scope {
    ghost use Rattle.queries.specs.Checks.{numbered, atom_terms, all_terms};
    ghost use Rattle.queries.specs.Scopes.{scope_after};

    // Where none has appeared from `next` on.
    pub(crate) fn new(known: usize, next: usize) -> Scope
        ensures { result ≡ record { known = known; start = next; next = next } }
    {
        Scope {
            known,
            start: next,
            next,
        }
    }

    // The scope after a term; none where a number is passed over or not allowed.
    fn after(self, t: Term) -> Option<Scope>
        ensures { result ≡ scope_after self (t ∷ []) }
    {
        let Term::Variable(v) = t else {
            return Some(self);
        };
        let v = v as usize;
        if v < self.known || self.start <= v && v < self.next {
            Some(self)
        } else if v == self.next {
            Some(Scope {
                next: v + 1,
                ..self
            })
        } else {
            None
        }
    }

    fn after_atom(self, a: Atom<Term>) -> Option<Scope>
        ensures { result ≡ scope_after self (atom_terms a) }
    {
        match a.terms {
            Terms::One(t) => self.after(t),
            Terms::Two(t, u) => self.after(t)?.after(u),
            Terms::Three(t, u, v) => self.after(t)?.after(u)?.after(v),
            Terms::Four(t, u, v, w) => self.after(t)?.after(u)?.after(v)?.after(w),
        }
    }

    // The next variable after the atoms; none where they are misnumbered.
    fn variables(self, atoms: &[Atom<Term>]) -> Option<usize>
        ensures { result ≡ numbered self.known self.start self.next (all_terms atoms.now) }
    {
        let mut scope = self;
        for a in atoms {
            scope = scope.after_atom(*a)?;
        }
        Some(scope.next)
    }
}

// No atom occurs twice.
fn distinct(atoms: &[Atom<Term>]) -> bool
    ensures { result ≡ is_distinct atoms.now }
{
    for (i, a) in atoms.iter().enumerate() {
        if atoms[i + 1..].contains(a) {
            return false;
        }
    }
    true
}

// The atoms, of which there may be N, and the next variable after them, or their first fault; `arity` lists the numbers
// of terms of p0, p1 and so on.
pub(crate) fn checked<const N: usize>(
    scope: Scope,
    arity: &[u8],
    atoms: &[Atom<Term>],
) -> Result<(Atoms<N>, usize), LineFault>
    ensures held { IfOk result (λ p. held p.0 ≡ atoms.now) }
    ensures next { IfOk result (λ p. check_atoms N scope.known scope.start scope.next arity.now atoms.now ≡ Ok p.1) }
    ensures fault { IfErr result (λ e. check_atoms N scope.known scope.start scope.next arity.now atoms.now ≡ Err e) }
{
    if atoms.is_empty() {
        return Err(LineFault::InAtom(AtomFault::Broken));
    }
    all_in_range(atoms)?;
    if atoms.len() > N {
        return Err(LineFault::TooMany);
    }
    all_listed(arity, atoms)?;
    let Some(next) = scope.variables(atoms) else {
        return Err(LineFault::InAtom(AtomFault::InTerm(TermFault::Misnumbered)));
    };
    if !distinct(atoms) {
        return Err(LineFault::InAtom(AtomFault::Repeated));
    }
    Ok((Atoms::of(atoms), next))
}

// The fault of atoms for which there is no room, whatever numbers of terms are listed.
pub fn too_many(atoms: &[Atom<Term>]) -> LineFault
    ensures { (arity : List ℕ) → check_atoms 0 0 0 0 arity atoms.now ≡ Err result }
{
    if atoms.is_empty() {
        return LineFault::InAtom(AtomFault::Broken);
    }
    match all_in_range(atoms) {
        Ok(_) => LineFault::TooMany,
        Err(fault) => LineFault::InAtom(fault),
    }
}
