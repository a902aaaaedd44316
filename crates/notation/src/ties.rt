// What the lines of a step say: the numbers of atoms, and ties.
ghost use Rattle.std.specs.Prelude.{◌≡◌, vec_items};
ghost use Rattle.notation.specs.Failures.{UnlessMemory};
ghost use Rattle.notation.specs.Lists.{whole_number};
ghost use Rattle.notation.specs.Reading.{end_of, seen, text_seen};
ghost use Rattle.notation.specs.Ties.{read_end, read_sign, whole_tie, read_places};

use crate::failures::Failure;
use crate::faults::{AtomFault, LineFault};
use crate::lists::{Item, list, whole_place};
use crate::terms::{End, Tie};
use crate::words::term;
use std::alloc::Global;

// The end of a tie at the front of `s`, and the text after it.
fn end(s: &[u8]) -> Result<(End, &[u8]), AtomFault>
    ensures { seen result ≡ read_end s.now }
{
    let (e, rest) = term(s)?;
    Ok((e, rest))
}

// The text after the sign "~", which has to stand first.
fn after_sign(s: &[u8]) -> Result<&[u8], LineFault>
    ensures { text_seen result ≡ read_sign s.now }
{
    match s {
        [b'~', rest @ ..] => Ok(rest),
        _ => Err(LineFault::Unreadable),
    }
}

// Two ends with "~" between them, and nothing else.
pub fn whole_tie(s: &[u8]) -> Result<Tie, LineFault>
    ensures { result ≡ whole_tie s.now }
{
    let (left, s) = end(s)?;
    let s = after_sign(s)?;
    let (right, s) = end(s)?;
    match s {
        [] => Ok(Tie { left, right }),
        _ => Err(LineFault::Unreadable),
    }
}

// The number of an atom.
impl Item for usize {
    ghost item_of = { whole_number 0 999 };

    fn read(s: &[u8]) -> Result<usize, LineFault> {
        let n = whole_place(s)?;
        Ok(n as usize)
    }
}

// The numbers of atoms, with "," between them; there may be none.
pub fn places(heap: Global, s: &[u8]) -> Result<Vec<usize>, Failure<LineFault>>
    ensures { UnlessMemory vec_items result (read_places s.now) }
{
    if s.is_empty() {
        return Ok(Vec::new(heap));
    }
    list(heap, b',', s)
}
