// Atoms in fixed memory: no strike, step or question may want memory.
ghost use Rattle.std.specs.Prelude.{◌≤◌};

use notation::terms::{Atom, Term, Terms};

// What stands where no atom has been put yet.
const UNUSED: Atom<Term> = Atom {
    predicate: 0,
    terms: Terms::One(Term::Constant(0)),
};

// At most N atoms: the first `count` of the array, and anything after them.
// It has no model: a type that is copied needs an inverse of it, and what stands after the atoms has none.
#[derive(Clone, Copy)]
pub struct Atoms<const N: usize> {
    pub atoms: [Atom<Term>; N],
    pub count: usize,
    ghost within: { count ≤ N },
}

impl<const N: usize> Atoms<N> {
    ghost use Rattle.std.specs.Prelude.{◌≡◌, ◌<◌, ◌↔◌, [], ◌∷◌, ◌++◌, length, take, IsSome, OnSome, IfNone};
    ghost use Rattle.queries.specs.Atoms.{held};

    // No atoms.
    pub fn none() -> Atoms<N>
        ensures { held result ≡ [] }
    {
        Atoms {
            atoms: [UNUSED; N],
            count: 0,
        }
    }

    // These atoms.
    pub fn of(atoms: &[Atom<Term>]) -> Atoms<N>
        requires { length atoms.now ≤ N }
        ensures { held result ≡ atoms.now }
    {
        let mut front = [UNUSED; N];
        front[..atoms.len()].copy_from_slice(atoms);
        Atoms {
            atoms: front,
            count: atoms.len(),
        }
    }

    // The first `count` of these atoms, of which there may be fewer.
    pub fn front(atoms: [Atom<Term>; N], count: usize) -> Atoms<N>
        ensures { held result ≡ take count atoms.entry }
    {
        Atoms {
            atoms,
            count: count.min(N),
        }
    }

    pub fn as_slice(&self) -> &[Atom<Term>]
        ensures { result.now ≡ held self.now }
    {
        &self.atoms[..self.count]
    }

    // Puts the atom after the others; none where there is no room, and then nothing changes.
    pub fn push(&mut self, a: Atom<Term>) -> Option<()>
        ensures room { IsSome result ↔ (length (held self.old) < N) }
        ensures pushed { OnSome result (held self.new ≡ held self.old ++ a ∷ []) }
        ensures full { IfNone result (self.new ≡ self.old) }
    {
        if self.count == N {
            return None;
        }
        self.atoms[self.count] = a;
        self.count += 1;
        Some(())
    }
}
