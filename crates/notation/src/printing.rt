// Terms and atoms, as they are printed.
ghost use Rattle.std.specs.Prelude.{Some};
ghost use Rattle.notation.specs.Printing.{print_term, print_value, show_terms, show_atom};

use crate::terms::{Atom, Term, Terms, Value};
use std::fmt;

impl fmt::Display for Term {
    ghost output = { λ t. Some (print_term t) };

    fn fmt<W: fmt::Write>(&self, f: &mut fmt::Formatter<W>) -> fmt::Result {
        match *self {
            Term::Constant(n) => write!(f, "c{n}"),
            Term::Variable(n) => write!(f, "v{n}"),
        }
    }
}

impl fmt::Display for Value {
    ghost output = { λ t. Some (print_value t) };

    fn fmt<W: fmt::Write>(&self, f: &mut fmt::Formatter<W>) -> fmt::Result {
        match *self {
            Value::Constant(n) => write!(f, "c{n}"),
            Value::Unknown(n) => write!(f, "n{n}"),
        }
    }
}

impl<T: fmt::Display> fmt::Display for Terms<T> {
    ghost output = { show_terms T.Display.output };

    fn fmt<W: fmt::Write>(&self, f: &mut fmt::Formatter<W>) -> fmt::Result {
        match self {
            Terms::One(a) => write!(f, "{a}"),
            Terms::Two(a, b) => write!(f, "{a},{b}"),
            Terms::Three(a, b, c) => write!(f, "{a},{b},{c}"),
            Terms::Four(a, b, c, d) => write!(f, "{a},{b},{c},{d}"),
        }
    }
}

impl<T: fmt::Display> fmt::Display for Atom<T> {
    ghost output = { show_atom T.Display.output };

    fn fmt<W: fmt::Write>(&self, f: &mut fmt::Formatter<W>) -> fmt::Result {
        write!(f, "p{}({})", self.predicate, self.terms)
    }
}
