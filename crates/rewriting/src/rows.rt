// What entered queries say, as rows in the order of their numbers.
ghost use Rattle.std.specs.Prelude.{◌≡◌};
ghost use Rattle.rewriting.specs.Written.{row_at, stands_at};

use notation::terms::{Atom, Term};
use queries::row::Row;

// The atoms of row k, or none where there is no such row.
pub(crate) fn atoms_at(rows: &[Row], k: usize) -> &[Atom<Term>]
    ensures { result.now ≡ row_at rows.now k }
{
    match rows.get(k) {
        Some(row) => row.atoms.as_slice(),
        None => &[],
    }
}

// Whether there is a row k and it stands. A table of rows asks the same: one line, which a call for both would not shorten.
pub(crate) fn stands_at(rows: &[Row], k: usize) -> bool
    ensures { result ≡ stands_at rows.now k }
{
    k < rows.len() && rows[k].standing
}
