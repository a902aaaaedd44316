// The keys by which facts are found: of a predicate and the term at a position, or of the predicate alone.
ghost use Rattle.std.specs.Prelude.{◌≡◌, ◌≤◌, map, IfOk};
ghost use Rattle.std.specs.Option.{option_map};
ghost use Rattle.std.specs.List.{slice_get};
ghost use Rattle.notation.specs.Logic.{as_value, terms_of, fact_atom};
ghost use Rattle.index.specs.Keys.{coded, blended, keyed, keys_at};

use notation::terms::{Fact, Terms, Value};
use std::alloc::{AllocError, Global};

// The number of a value, and 0 for none.
fn code(x: Option<Value>) -> u32
    ensures value { result ≡ coded (option_map as_value x) }
    ensures bound { result ≤ 66535 }
{
    match x {
        Some(Value::Constant(n)) => n as u32,
        Some(Value::Unknown(n)) => 1000 + n as u32,
        None => 0,
    }
}

// The key of a predicate and a value, or of the predicate alone.
pub fn blend(p: u8, x: Option<Value>) -> u16
    ensures { result ≡ blended p (option_map as_value x) }
{
    ((p as u32 * 2000 + code(x)) % 65536) as u16
}

// The term at a position, counted from 0.
pub fn term_at<T: Copy>(ts: &Terms<T>, at: usize) -> Option<T>
    ensures { result ≡ slice_get (terms_of ts.now) at }
{
    match (at, *ts) {
        (0, Terms::One(t) | Terms::Two(t, _) | Terms::Three(t, _, _) | Terms::Four(t, _, _, _)) =>
            Some(t),
        (1, Terms::Two(_, t) | Terms::Three(_, t, _) | Terms::Four(_, t, _, _)) => Some(t),
        (2, Terms::Three(_, _, t) | Terms::Four(_, _, t, _)) => Some(t),
        (3, Terms::Four(_, _, _, t)) => Some(t),
        _ => None,
    }
}

// The key of a fact at a position; past its last term, that of its predicate.
fn key(f: &Fact, at: usize) -> u16
    ensures { result ≡ keyed at (fact_atom f.now) }
{
    blend(f.predicate, term_at(&f.terms, at))
}

// The keys of facts at a position.
pub fn keys(heap: Global, facts: &[Fact], at: usize) -> Result<Vec<u16>, AllocError>
    ensures { IfOk result (λ v. v.items ≡ keys_at at (map fact_atom facts.now)) }
{
    facts.iter().map(|f| key(f, at)).collect(heap)
}
