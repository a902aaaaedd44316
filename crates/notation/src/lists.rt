// Lists: a text cut at each separator, and each piece read whole.
ghost use Rattle.std.specs.Prelude.{◌≡◌, ℕ, List, vec_items, Result};
ghost use Rattle.notation.specs.declared.faults.LineFault.{LineFault};
ghost use Rattle.notation.specs.Failures.{UnlessMemory};
ghost use Rattle.notation.specs.Lists.{both_seen, cut_at, read_list, whole_atom, whole_number};

use crate::failures::Failure;
use crate::faults::LineFault;
use crate::numbers::number;
use crate::terms::Atom;
use crate::words::{Word, atom};
use std::alloc::Global;

// The text before the first separator, and the text after it.
pub fn cut(separator: u8, s: &[u8]) -> Option<(&[u8], &[u8])>
    ensures { both_seen result ≡ cut_at separator s.now }
{
    let at = s.iter().position(|b| *b == separator)?;
    Some((&s[..at], &s[at + 1..]))
}

// An atom and nothing else.
pub fn whole<T: Word>(s: &[u8]) -> Result<Atom<T>, LineFault>
    ensures { result ≡ whole_atom T.word_of s.now }
{
    match atom(s)? {
        (a, []) => Ok(a),
        _ => Err(LineFault::Unreadable),
    }
}

// A number from `least` to `most` and nothing else.
fn bounded(least: u16, most: u16, s: &[u8]) -> Result<u16, LineFault>
    ensures { result ≡ whole_number least most s.now }
{
    match number(most, s) {
        Some((n, [])) if least <= n => Ok(n),
        _ => Err(LineFault::Unreadable),
    }
}

// An item of a list.
pub trait Item: Copy {
    ghost item_of: { List ℕ → Result Self LineFault };

    fn read(s: &[u8]) -> Result<Self, LineFault>
        ensures { result ≡ item_of s.now };
}

// An atom, of either kind of term.
impl<T: Word> Item for Atom<T> {
    ghost item_of = { whole_atom T.word_of };

    fn read(s: &[u8]) -> Result<Atom<T>, LineFault> {
        whole(s)
    }
}

// A number of terms.
impl Item for u8 {
    ghost item_of = { whole_number 1 4 };

    fn read(s: &[u8]) -> Result<u8, LineFault> {
        let n = bounded(1, 4, s)?;
        Ok(n as u8)
    }
}

// The number of a rule, a query or an atom, and nothing else.
pub fn whole_place(s: &[u8]) -> Result<u16, LineFault>
    ensures { result ≡ whole_number 0 999 s.now }
{
    bounded(0, 999, s)
}

// The items of a list, with the separator between them.
pub fn list<T: Item>(heap: Global, separator: u8, s: &[u8]) -> Result<Vec<T>, Failure<LineFault>>
    ensures { UnlessMemory vec_items result (read_list T.item_of separator s.now) }
{
    let mut items = Vec::new(heap);
    let mut left = s;
    // No `for` over `split`: in a generic function no loop over an iterator that holds a closure can be stated yet.
    while let Some((piece, rest)) = cut(separator, left) {
        items.push(T::read(piece)?)?;
        left = rest;
    }
    items.push(T::read(left)?)?;
    Ok(items)
}
