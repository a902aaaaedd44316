// Sources of facts: rows of numbers, text, a query, and facts that are stored.
#![tactic(auto)]

ghost use Rattle.std.specs.Prelude.{◌≡◌, ◌≤◌, length};
ghost use Rattle.std.specs.Option.{option_map};
ghost use Rattle.std.specs.List.{slice_get};
ghost use Rattle.notation.specs.Logic.{Facts, fact_atom};

use notation::terms::Fact;

pub mod query;
pub mod rows;
pub mod stored;
pub mod text;

// The most facts that a source tells.
const MOST: usize = 65535;

// A source stands for one list of facts, of which it tells the length and each place.
pub trait Source {
    // the list that it stands for
    ghost facts: { Self → Facts };

    ghost few: { (s : Self) → length (facts s) ≤ 65535 };

    fn len(&self) -> usize
        ensures { result ≡ length (facts self.now) };

    // The fact at place k, counted from 0; absent at or past the end.
    fn fact(&self, k: usize) -> Option<Fact>
        ensures { option_map fact_atom result ≡ slice_get (facts self.now) k };
}
