// One to four terms, one after the other.
ghost use Rattle.std.specs.Prelude.{◌≡◌, Bool};
ghost use Rattle.notation.specs.Logic.{terms_of};
ghost use Rattle.notation.specs.declared.terms.Term.{Term as WrittenTerm};
ghost use Rattle.rewriting.specs.Computing.{any};

use notation::terms::{Term, Terms};

// Whether one of the terms passes the test.
pub(crate) fn any_of<F: Fn(Term) -> bool>(ts: Terms<Term>, test: F) -> bool
    requires { F.IsAlwaysCallable test }
    ensures { (p : WrittenTerm → Bool) → ((t : WrittenTerm) (r : Bool) → F.post test t r → r ≡ p t)
        → result ≡ any p (terms_of ts) }
{
    match ts {
        Terms::One(a) => test(a),
        Terms::Two(a, b) => test(a) || test(b),
        Terms::Three(a, b, c) => test(a) || test(b) || test(c),
        Terms::Four(a, b, c, d) => test(a) || test(b) || test(c) || test(d),
    }
}
