// The new query of a step in the making.
ghost use Rattle.std.specs.Prelude.{◌≡◌, ◌≤◌, [], position, ◌==◌};

use crate::classes::Classes;
use crate::pieces::{Side, StepAtom};
use crate::places::Placed;
use crate::proposals::Proposal;
use crate::steps::Owner;
use notation::terms::{Atom, Term, Terms};
use queries::atoms::Atoms;
use queries::query::Query;

// The entries of a table of classes that variables stand for, in the order of the variables' numbers.
// An array with its count: nothing here may want memory.
#[derive(Clone, Copy)]
pub struct Variables {
    pub(crate) entries: [u16; 32],
    pub(crate) count: usize,
    ghost within: { count ≤ 32 },
}

// Its atoms so far, and what its variables stand for.
#[derive(Clone, Copy)]
pub struct Draft {
    pub(crate) atoms: Atoms<16>,
    pub(crate) variables: Variables,
}

// Where e stands first among the entries.
fn position_of(entries: &[u16], e: u16) -> Option<usize>
    ensures { result ≡ position (λ n. n == e) entries.now }
{
    entries.iter().position(|n| *n == e)
}

impl Variables {
    ghost use Rattle.std.specs.Prelude.{slice_index};
    ghost use Rattle.std.specs.Option.{option_map};
    ghost use Rattle.notation.specs.declared.terms.Term.TheVariants.{Variable};
    ghost use Rattle.rewriting.specs.Drafts.{entries, entries_of, ShownOne, ShownTerms};
    ghost use Rattle.rewriting.specs.Tables.{place};
    ghost use Rattle.rewriting.specs.Written.{step_ref};

    // No variables.
    fn none() -> Variables
        ensures { entries result ≡ [] }
    {
        Variables {
            entries: [0; 32],
            count: 0,
        }
    }

    // The number of the variable that stands for an entry, which may be the next one; none where that would be the 33rd.
    fn number(&mut self, e: u16) -> Option<u8>
        requires { 1000 ≤ e }
        ensures { ShownOne (option_map Variable result) e (entries self.old) (entries self.new) }
    {
        if let Some(k) = position_of(&self.entries[..self.count], e) {
            return Some(k as u8);
        }
        let k = self.count;
        if k == 32 {
            return None;
        }
        self.entries[k] = e;
        self.count = k + 1;
        Some(k as u8)
    }

    // The term that stands for an entry: a constant, or a variable; none where there would be too many.
    fn term_for(&mut self, e: u16) -> Option<Term>
        ensures { ShownOne result e (entries self.old) (entries self.new) }
    {
        if e < 1000 {
            return Some(Term::Constant(e));
        }
        let k = self.number(e)?;
        Some(Term::Variable(k))
    }

    // The term that stands for a term of the step.
    fn term_in(&mut self, classes: &Classes, x: Placed) -> Option<Term>
        ensures { ShownOne result (slice_index classes.now.names (place (step_ref x.term)))
            (entries self.old) (entries self.new) }
    {
        self.term_for(classes.name(x))
    }

    // The terms that stand for those of an atom, one after the other.
    // Arm by arm: after a call that takes a closure, a proof knows nothing of what the closure changed.
    fn terms_in(&mut self, classes: &Classes, atom: StepAtom) -> Option<Terms<Term>>
        ensures { ShownTerms result (entries_of classes.now.names atom.owner atom.atom.terms)
            (entries self.old) (entries self.new) }
    {
        match atom.atom.terms {
            Terms::One(a) => {
                let a = self.term_in(classes, atom.term(a))?;
                Some(Terms::One(a))
            }
            Terms::Two(a, b) => {
                let a = self.term_in(classes, atom.term(a))?;
                let b = self.term_in(classes, atom.term(b))?;
                Some(Terms::Two(a, b))
            }
            Terms::Three(a, b, c) => {
                let a = self.term_in(classes, atom.term(a))?;
                let b = self.term_in(classes, atom.term(b))?;
                let c = self.term_in(classes, atom.term(c))?;
                Some(Terms::Three(a, b, c))
            }
            Terms::Four(a, b, c, d) => {
                let a = self.term_in(classes, atom.term(a))?;
                let b = self.term_in(classes, atom.term(b))?;
                let c = self.term_in(classes, atom.term(c))?;
                let d = self.term_in(classes, atom.term(d))?;
                Some(Terms::Four(a, b, c, d))
            }
        }
    }
}

impl Draft {
    ghost use Rattle.std.specs.Prelude.{true, ◌∷◌, is_some};
    ghost use Rattle.queries.specs.Checks.{valid};
    ghost use Rattle.queries.specs.Queries.{atoms_of};
    ghost use Rattle.rewriting.specs.Drafts.{draft_atoms, draft_names, Adds};
    ghost use Rattle.rewriting.specs.Pieces.{atom_of, atoms_left};

    // No atoms, and no variables.
    fn empty() -> Draft
        ensures atoms { draft_atoms result ≡ [] }
        ensures names { draft_names result ≡ [] }
    {
        Draft {
            atoms: Atoms::none(),
            variables: Variables::none(),
        }
    }

    // Adds an atom unless the draft has it already; none where that makes it too large.
    fn add(&mut self, classes: &Classes, a: StepAtom) -> Option<()>
        ensures { Adds (is_some result) classes.now.names (atom_of a ∷ []) self.old self.new }
    {
        let terms = self.variables.terms_in(classes, a)?;
        let atom = Atom {
            predicate: a.atom.predicate,
            terms,
        };
        if self.atoms.as_slice().contains(&atom) {
            return Some(());
        }
        self.atoms.push(atom)
    }

    // Adds the atoms of a side but those that are meant, which are passed over; none where that makes it too large.
    fn add_others(&mut self, classes: &Classes, side: &Side<'_>) -> Option<()>
        ensures { Adds (is_some result) classes.now.names (atoms_left side.now) self.old self.new }
    {
        for (j, a) in side.atoms.iter().enumerate() {
            if side.numbers.contains(&j) {
                continue;
            }
            self.add(classes, side.atom(*a))?;
        }
        Some(())
    }

    // The query that the draft has, where it is one.
    pub(crate) fn finish(&self) -> Query
        requires { valid (draft_atoms self.now) ≡ true }
        ensures { atoms_of result ≡ draft_atoms self.now }
    {
        Query::of_valid(self.atoms.as_slice())
    }
}

impl<'a> Proposal<'a> {
    ghost use Rattle.rewriting.specs.Drafts.{Told};
    ghost use Rattle.rewriting.specs.Judging.{new_query};
    ghost use Rattle.rewriting.specs.Proposals.{all_left};
    ghost use Rattle.rewriting.specs.Steps.{Ref};
    ghost use Rattle.rewriting.specs.Tables.{Names};

    // The new query of the body and of the atoms that the parts leave in their rows; none where it is too large.
    pub(crate) fn draft(&self, classes: &Classes) -> Option<Draft>
        ensures { (f : Ref → Ref) → Names classes.now.names f
            → Told result (new_query f (all_left self.now)) }
    {
        let mut query = Draft::empty();
        let body = Side {
            owner: Owner::Rule,
            atoms: self.rule.body(),
            numbers: &[],
        };
        query.add_others(classes, &body)?;
        for piece in self.pieces() {
            query.add_others(classes, &piece.taken())?;
        }
        Some(query)
    }
}
