// Terms and atoms, read from the front of a text.
ghost use Rattle.std.specs.Prelude.{◌≡◌, ℕ, ◌<◌, Result};
ghost use Rattle.notation.specs.declared.faults.TermFault.{TermFault};
ghost use Rattle.notation.specs.Numbers.{read_number};
ghost use Rattle.notation.specs.Reading.{seen, coded, read_term, code_fault, term_of, value_of, end_of, read_word, read_after, item_seen, read_item, read_terms, text_seen, read_byte, read_predicate, read_atom};

use crate::faults::{AtomFault, TermFault};
use crate::numbers::number;
use crate::terms::{Atom, End, Term, Terms, Value};

// Codes above those of all terms, as the leaf reader's answer has them (a rule of the project): no term begins here
const NO_TERM: u16 = 4000;
// and the letter of a term is not followed by a number in range.
const BAD_NUMBER: u16 = 4001;

// The number after a term's letter, as a code from `base` on.
fn code(base: u16, most: u16, s: &[u8]) -> (u16, &[u8])
    requires { base < 3000 }
    ensures { (result.0, result.1.now) ≡ coded base (read_number most s.now) s.now }
{
    match number(most, s) {
        Some((n, rest)) => (base + n, rest),
        None => (BAD_NUMBER, s),
    }
}

// The code of the term at the front of `s`, and the text after it; a code above all terms tells a fault.
// The leaf reader answers a plain pair of a code and the text after it: a rule of the project.
fn read_term(s: &[u8]) -> (u16, &[u8])
    ensures { (result.0, result.1.now) ≡ read_term s.now }
{
    match s {
        [b'c', rest @ ..] => code(0, 999, rest),
        [b'n', rest @ ..] => code(1000, 999, rest),
        [b'v', rest @ ..] => code(2000, 31, rest),
        [b'r', rest @ ..] => code(2032, 31, rest),
        [b'q', rest @ ..] => code(2064, 31, rest),
        _ => (NO_TERM, s),
    }
}

// The fault of a code that is no term of the kind that belongs here.
fn fault_of(code: u16) -> TermFault
    ensures { result ≡ code_fault code }
{
    match code {
        BAD_NUMBER => TermFault::BadNumber,
        _ => TermFault::NoTerm,
    }
}

// A kind of term, by the codes that stand for it: the caller of the leaf reader makes the Result.
pub trait Word: Copy {
    ghost word_of: { ℕ → Result Self TermFault };

    fn of_code(code: u16) -> Result<Self, TermFault>
        ensures { result ≡ word_of code };
}

impl Word for Term {
    ghost word_of = { term_of };

    fn of_code(code: u16) -> Result<Term, TermFault> {
        match code {
            0..=999 => Ok(Term::Constant(code)),
            2000..=2031 => Ok(Term::Variable((code - 2000) as u8)),
            _ => Err(fault_of(code)),
        }
    }
}

impl Word for Value {
    ghost word_of = { value_of };

    fn of_code(code: u16) -> Result<Value, TermFault> {
        match code {
            0..=999 => Ok(Value::Constant(code)),
            1000..=1999 => Ok(Value::Unknown(code - 1000)),
            _ => Err(fault_of(code)),
        }
    }
}

impl Word for End {
    ghost word_of = { end_of };

    fn of_code(code: u16) -> Result<End, TermFault> {
        match code {
            0..=999 => Ok(End::Constant(code)),
            2032..=2063 => Ok(End::Rule((code - 2032) as u8)),
            2064..=2095 => Ok(End::Copy((code - 2064) as u8)),
            _ => Err(fault_of(code)),
        }
    }
}

// The term at the front of `s`, and the text after it.
pub(crate) fn term<T: Word>(s: &[u8]) -> Result<(T, &[u8]), TermFault>
    ensures { seen result ≡ read_word T.word_of s.now }
{
    let (code, rest) = read_term(s);
    let t = T::of_code(code)?;
    Ok((t, rest))
}

// What follows a term inside the brackets of an atom.
#[derive(Clone, Copy)]
pub enum After {
    Comma,
    Bracket,
}

fn after_term(s: &[u8]) -> Result<(After, &[u8]), AtomFault>
    ensures { seen result ≡ read_after s.now }
{
    match s {
        [b',', rest @ ..] => Ok((After::Comma, rest)),
        [b')', rest @ ..] => Ok((After::Bracket, rest)),
        _ => Err(AtomFault::Broken),
    }
}

// A term inside the brackets, what follows it, and the text after both.
fn item<T: Word>(s: &[u8]) -> Result<(T, After, &[u8]), AtomFault>
    ensures { item_seen result ≡ read_item T.word_of s.now }
{
    let (t, s) = term(s)?;
    let (next, s) = after_term(s)?;
    Ok((t, next, s))
}

// One to four terms with commas between them, and the bracket after them.
fn terms<T: Word>(s: &[u8]) -> Result<(Terms<T>, &[u8]), AtomFault>
    ensures { seen result ≡ read_terms T.word_of s.now }
{
    let (a, next, s) = item(s)?;
    if let After::Bracket = next {
        return Ok((Terms::One(a), s));
    }
    let (b, next, s) = item(s)?;
    if let After::Bracket = next {
        return Ok((Terms::Two(a, b), s));
    }
    let (c, next, s) = item(s)?;
    if let After::Bracket = next {
        return Ok((Terms::Three(a, b, c), s));
    }
    let (d, next, s) = item(s)?;
    match next {
        After::Bracket => Ok((Terms::Four(a, b, c, d), s)),
        After::Comma => Err(AtomFault::Broken),
    }
}

// The text after the byte `b`, which has to stand first.
fn byte(b: u8, s: &[u8]) -> Result<&[u8], AtomFault>
    ensures { text_seen result ≡ read_byte b s.now }
{
    match s {
        [first, rest @ ..] if *first == b => Ok(rest),
        _ => Err(AtomFault::Broken),
    }
}

// The number of a predicate, and the text after it.
fn predicate(s: &[u8]) -> Result<(u8, &[u8]), AtomFault>
    ensures { seen result ≡ read_predicate (read_number 31 s.now) }
{
    let (n, rest) = number(31, s).ok_or(AtomFault::Broken)?;
    Ok((n as u8, rest))
}

// The atom at the front of `s`, and the text after it.
pub(crate) fn atom<T: Word>(s: &[u8]) -> Result<(Atom<T>, &[u8]), AtomFault>
    ensures { seen result ≡ read_atom T.word_of s.now }
{
    let s = byte(b'p', s)?;
    let (predicate, s) = predicate(s)?;
    let s = byte(b'(', s)?;
    let (terms, s) = terms(s)?;
    Ok((Atom { predicate, terms }, s))
}
