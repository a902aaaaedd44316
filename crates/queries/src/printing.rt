// Queries, as they are printed.
ghost use Rattle.std.specs.Prelude.{Some};
ghost use Rattle.queries.specs.Printing.{print_atoms};
ghost use Rattle.queries.specs.Queries.{atoms_of};

use crate::query::Query;
use notation::terms::{Atom, Term};
use std::fmt;

// Atoms that are printed with ";" between them.
#[derive(Clone, Copy)]
pub struct Listed<'a>(pub &'a [Atom<Term>]);

impl<'a> fmt::Display for Listed<'a> {
    ghost output = { λ l. Some (print_atoms l.0.now) };

    fn fmt<W: fmt::Write>(&self, f: &mut fmt::Formatter<W>) -> fmt::Result {
        let [first, rest @ ..] = self.0 else {
            return Ok(());
        };
        write!(f, "{first}")?;
        for a in rest {
            write!(f, ";{a}")?;
        }
        Ok(())
    }
}

impl fmt::Display for Query {
    ghost output = { λ q. Some (print_atoms (atoms_of q)) };

    fn fmt<W: fmt::Write>(&self, f: &mut fmt::Formatter<W>) -> fmt::Result {
        let atoms = Listed(self.atoms());
        write!(f, "{atoms}")
    }
}
