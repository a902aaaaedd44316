// What a ledger is opened with where there is no folder.
use notation::terms::{Atom, Term};

// A rule as bare lists of atoms: its body, and its heads.
#[derive(Drop)]
pub struct RuleAtoms {
    pub body: Vec<Atom<Term>>,
    pub heads: Vec<Vec<Atom<Term>>>,
}
