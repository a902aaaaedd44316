// Facts with their chains.
mod build;
pub mod guide;

ghost use Rattle.std.specs.Prelude.{◌≡◌, ℕ, ◌<◌, ◌≤◌, Some, map, vec_len};
ghost use Rattle.std.specs.List.{slice_get};
ghost use Rattle.notation.specs.Logic.{fact_atom};
ghost use Rattle.index.specs.Keys.{keys_at};
ghost use Rattle.index.specs.Seek.{IsChain};
ghost use Rattle.index.specs.declared.chain.Chain.{Chain};

use crate::chain::Chain;
use notation::terms::Fact;

// Facts, chained by predicate and term at each of the four positions, and by predicate alone.
#[derive(Drop)]
pub struct Index {
    items: Vec<Fact>,
    chains: [Chain; 5],
    ghost few: { vec_len items ≤ 65535 },
    ghost chained: { (at : ℕ) (c : Chain) → slice_get chains at ≡ Some c → IsChain (keys_at at (map fact_atom items.items)) c.first.items c.next.items },
}

// A key, in the chain by the terms at a position, or in that by predicates, which is the last.
#[derive(Clone, Copy)]
pub struct Route {
    pub at: usize,
    pub key: u16,
    ghost within: { at < 5 },
}

impl Route {
    ghost use Rattle.std.specs.Prelude.{min};

    // The key in the chain by the terms at this position, or in that by predicates from position 4 on.
    pub fn new(at: usize, key: u16) -> Route
        ensures at { result.at ≡ min at 4 }
        ensures key { result.key ≡ key }
    {
        Route { at: at.min(4), key }
    }
}
