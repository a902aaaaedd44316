// What each variable has been given so far, and one atom against one fact under it.
ghost use Rattle.std.specs.Prelude.{◌≡◌, length, true, [], ◌∷◌, ◌<◌, ℕ, List, None, Option, replicate, slice_index_or, Decides, MatchBool};
ghost use Rattle.notation.specs.Fits.{terms_fit};
ghost use Rattle.notation.specs.Logic.{terms_of};
ghost use Rattle.search.specs.Fitting.{slot_fits, slots_fit};
ghost use Rattle.search.specs.Bindings.{Met, Meets, MeetsAll, Matches, Narrowed, Clash, Free, May};
ghost use Rattle.notation.specs.declared.terms.Value.{Value as Read};

use notation::terms::{Atom, Fact, Term, Terms, Value};
use std::marker::Model;

// What each variable has been given so far.
#[derive(Clone, Copy, PartialEq, Eq)]
pub struct Binding {
    pub given: [Option<Value>; 32],
}

impl Model for Binding {
    ghost Value = { List (Option Read) };

    ghost view = { λ b. b.given };

    ghost inverse = { λ l. record { given = l } };
}

// What each variable has been given, by its number.
impl From<[Option<Value>; 32]> for Binding {
    ghost from_gives = { λ a r. r ≡ a };

    fn from(given: [Option<Value>; 32]) -> Binding {
        Binding { given }
    }
}

impl Binding {
    // Nothing is given.
    pub fn new() -> Binding
        ensures { result ≡ replicate 32 None }
    {
        Binding { given: [None; 32] }
    }

    // For how many variables it has a place. A proof learns by this call that there are 32.
    pub fn places(&self) -> usize
        ensures all { result ≡ 32 }
        ensures counted { result ≡ length self.now }
    {
        self.given[..].len()
    }

    // What the variable has been given.
    pub fn value_of(&self, variable: u8) -> Option<Value>
        requires { variable < 32 }
        ensures { result ≡ slice_index_or self.now variable None }
    {
        self.given[variable as usize]
    }

    // Whether the term is the value, or a variable that has been given the value or none.
    fn allows(&self, t: Term, x: Value) -> bool
        requires { slot_fits t ≡ true }
        ensures { Decides result (Free self.now t x) }
    {
        match t {
            Term::Constant(k) => x == Value::Constant(k),
            Term::Variable(v) => self.value_of(v).is_none_or(|y| y == x),
        }
    }

    // Arm by arm, as `meet_all`: terms and values are paired, which no method of one of them does more plainly.
    // Whether the predicate is the fact's, and each term is free to be the fact's: it finds a clash before a binding is copied.
    pub fn may_match(&self, a: &Atom<Term>, f: &Fact) -> bool
        requires { slots_fit a.now ≡ true }
        ensures { Decides result (May self.now a.now f.now) }
    {
        if a.predicate != f.predicate {
            return false;
        }
        match (a.terms, f.terms) {
            (Terms::One(s), Terms::One(x)) => self.allows(s, x),
            (Terms::Two(s, t), Terms::Two(x, y)) => self.allows(s, x) && self.allows(t, y),
            (Terms::Three(s, t, u), Terms::Three(x, y, z)) => self.allows(s, x)
                && self.allows(t, y)
                && self.allows(u, z),
            (Terms::Four(s, t, u, v), Terms::Four(x, y, z, w)) => self.allows(s, x)
                && self.allows(t, y)
                && self.allows(u, z)
                && self.allows(v, w),
            _ => false,
        }
    }

    // Has the term be the value, where what the variables have been given allows that.
    fn meet(&mut self, t: Term, x: Value) -> Option<()>
        requires { slot_fits t ≡ true }
        ensures { Met result self.old (Meets t x) self.new }
    {
        if !self.allows(t, x) {
            return None;
        }
        if let Term::Variable(v) = t {
            self.given[v as usize] = Some(x);
        }
        Some(())
    }

    // Has two terms be two values.
    fn meet_two(&mut self, s: Term, x: Value, t: Term, y: Value) -> Option<()>
        requires first { slot_fits s ≡ true }
        requires second { slot_fits t ≡ true }
        ensures { Met result self.old (MeetsAll (s ∷ t ∷ []) (x ∷ y ∷ [])) self.new }
    {
        self.meet(s, x)?;
        self.meet(t, y)
    }

    // Has each term be its value.
    fn meet_all(&mut self, ts: Terms<Term>, xs: Terms<Value>) -> Option<()>
        requires { terms_fit slot_fits ts ≡ true }
        ensures { Met result self.old (MeetsAll (terms_of ts) (terms_of xs)) self.new }
    {
        match (ts, xs) {
            (Terms::One(s), Terms::One(x)) => self.meet(s, x),
            (Terms::Two(s, t), Terms::Two(x, y)) => self.meet_two(s, x, t, y),
            (Terms::Three(s, t, u), Terms::Three(x, y, z)) => {
                self.meet_two(s, x, t, y)?;
                self.meet(u, z)
            }
            (Terms::Four(s, t, u, v), Terms::Four(x, y, z, w)) => {
                self.meet_two(s, x, t, y)?;
                self.meet_two(u, z, v, w)
            }
            _ => None,
        }
    }

    // Makes the atom the fact: what that gives the variables is then given.
    // It writes in place: with an `Option<Binding>` as its result the search took 3 to 13 % longer, for the copies.
    pub fn matched(&mut self, a: &Atom<Term>, f: &Fact) -> Option<()>
        requires { slots_fit a.now ≡ true }
        ensures { Met result self.old (Matches a.now f.now) self.new }
    {
        if a.predicate != f.predicate {
            return None;
        }
        self.meet_all(a.terms, f.terms)
    }
}

// Makes the atom the fact in `out`, which is then `b` with what that gives the variables; `b` stays as it is.
pub fn matched(b: &Binding, a: &Atom<Term>, f: &Fact, out: &mut Binding) -> bool
    requires { slots_fit a.now ≡ true }
    ensures { MatchBool result (Narrowed b.now (Matches a.now f.now) out.new) (Clash b.now (Matches a.now f.now)) }
{
    if !b.may_match(a, f) {
        return false;
    }
    *out = *b;
    out.matched(a, f).is_some()
}
