// Terms, atoms, facts and ties.
ghost use Rattle.std.specs.List.{AllZip};

// A term of a query or a rule.
#[derive(Clone, Copy, PartialEq, Eq)]
pub enum Term {
    Constant(u16),
    Variable(u8),
}

// A term of a fact.
#[derive(Clone, Copy, PartialEq, Eq)]
pub enum Value {
    Constant(u16),
    Unknown(u16),
}

// One to four terms.
#[derive(Clone, Copy, PartialEq, Eq)]
pub enum Terms<T> {
    One(T),
    Two(T, T),
    Three(T, T, T),
    Four(T, T, T, T),
}

impl<T> Terms<T> {
    ghost use Rattle.notation.specs.Logic.{terms_of};

    // Each of the terms changed, in their order.
    pub fn map<U, F: Fn(T) -> U>(self, change: F) -> Terms<U>
        requires { F.IsAlwaysCallable change }
        ensures { AllZip (F.post change) (terms_of self) (terms_of result) }
    {
        match self {
            Terms::One(a) => Terms::One(change(a)),
            Terms::Two(a, b) => Terms::Two(change(a), change(b)),
            Terms::Three(a, b, c) => Terms::Three(change(a), change(b), change(c)),
            Terms::Four(a, b, c, d) => Terms::Four(change(a), change(b), change(c), change(d)),
        }
    }
}

// A predicate with its terms.
#[derive(Clone, Copy, PartialEq, Eq)]
pub struct Atom<T> {
    pub predicate: u8,
    pub terms: Terms<T>,
}

// An atom whose terms are constants and unknowns.
pub type Fact = Atom<Value>;

// An end of a tie: a constant, a variable of the rule, or a variable of the part's own copy of its query.
#[derive(Clone, Copy, PartialEq, Eq)]
pub enum End {
    Constant(u16),
    Rule(u8),
    Copy(u8),
}

// Two terms that are to be one.
#[derive(Clone, Copy)]
pub struct Tie {
    pub left: End,
    pub right: End,
}
