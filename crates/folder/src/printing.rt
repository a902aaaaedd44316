// What is printed for a folder.
ghost use Rattle.std.specs.Prelude.{◌≡◌, ◌++◌, Some, string_bytes, OnOk};
ghost use Rattle.book.specs.Ledgers.{book_of};
ghost use Rattle.folder.specs.Folders.{strike_of};
ghost use Rattle.folder.specs.Printing.{print_event, print_standing, print_found, print_answers, print_fault};

use crate::parts::{Answers, Event, Fault};
use book::ledger::Ledger;
use queries::printing::Listed;
use std::fmt;
use std::fmt::Write;

impl fmt::Display for Event {
    ghost output = { λ e. Some (print_event (strike_of e.strike) e.answer) };

    fn fmt<W: fmt::Write>(&self, f: &mut fmt::Formatter<W>) -> fmt::Result {
        match self.answer {
            Ok(()) => {
                let k = self.strike.struck;
                write!(f, "struck={k}")
            }
            Err(e) => {
                let (number, place) = e.number();
                write!(f, "refused={number},{place}")
            }
        }
    }
}

// A `stands=` and a `query=` line for each query that stands.
// By number, as the ledger's public calls are: an iterator would need one more of them, for this loop alone, and is no plainer.
pub(crate) fn put_standing(ledger: &Ledger, out: &mut String) -> Result<(), fmt::Error>
    ensures { OnOk result (string_bytes out.new ≡ string_bytes out.old ++ print_standing 0 (book_of ledger.now).queries (book_of ledger.now).standing) }
{
    for k in 0..ledger.len() {
        if ledger.stands(k) {
            let query = Listed(ledger.atoms(k));
            write!(out, "stands={k}\nquery={query}\n")?;
        }
    }
    Ok(())
}

// A number, or the word for none.
#[derive(Clone, Copy)]
struct Found<'a> {
    place: Option<usize>,
    none: &'a str,
}

impl<'a> fmt::Display for Found<'a> {
    ghost output = { λ f. Some (print_found f.none.now f.place) };

    fn fmt<W: fmt::Write>(&self, f: &mut fmt::Formatter<W>) -> fmt::Result {
        match self.place {
            Some(k) => write!(f, "{k}"),
            None => f.write_str(self.none),
        }
    }
}

impl fmt::Display for Answers {
    ghost output = { λ a. Some (print_answers a.broken a.standing a.opening) };

    fn fmt<W: fmt::Write>(&self, f: &mut fmt::Formatter<W>) -> fmt::Result {
        let rules = Found {
            place: self.broken,
            none: "kept",
        };
        let standing = Found {
            place: self.standing,
            none: "none",
        };
        let opening = Found {
            place: self.opening,
            none: "none",
        };
        write!(f, "rules={rules}\nstanding={standing}\nopening={opening}")
    }
}

impl fmt::Display for Fault {
    ghost output = { λ f. Some (print_fault f) };

    fn fmt<W: fmt::Write>(&self, f: &mut fmt::Formatter<W>) -> fmt::Result {
        let (number, _) = self.fault.graded();
        let line = self.line;
        write!(f, "fault={number},{line}")
    }
}
