// Making an index.
ghost use Rattle.std.specs.Prelude.{◌≡◌, ◌≤◌, map, length, IfOk, vec_len};
ghost use Rattle.notation.specs.Logic.{fact_atom};
ghost use Rattle.index.specs.Keys.{keys_at};
ghost use Rattle.index.specs.Indexed.{facts_of};
ghost use Rattle.index.specs.Seek.{IsChain};

use super::Index;
use crate::chain::Chain;
use crate::keys::keys;
use notation::terms::Fact;
use sources::Source;
use std::alloc::{AllocError, Global};

// The facts of a source. As a chain of iterators it is no plainer: its closure needs a clause of its own.
fn collect<S: Source>(heap: Global, s: &S) -> Result<Vec<Fact>, AllocError>
    ensures { IfOk result (λ v. (map fact_atom v.items ≡ S.Source.facts s.now) × (vec_len v ≤ 65535)) }
{
    let n = s.len();
    let mut v = Vec::with_capacity(heap, n)?;
    for k in 0..n {
        v.push(s.fact(k).unwrap())?;
    }
    Ok(v)
}

// The chain of facts by their terms at a position.
fn chained(heap: Global, facts: &[Fact], at: usize) -> Result<Chain, AllocError>
    requires { length facts.now ≤ 65535 }
    ensures { IfOk result (λ x. IsChain (keys_at at (map fact_atom facts.now)) x.first.items x.next.items) }
{
    let keys = keys(heap, facts, at)?;
    Chain::new(heap, keys.as_slice())
}

impl Index {
    // An index of the facts of a source.
    pub fn build<S: Source>(heap: Global, s: &S) -> Result<Index, AllocError>
        ensures { IfOk result (λ x. facts_of x ≡ S.Source.facts s.now) }
    {
        let items = collect(heap, s)?;
        let facts = items.as_slice();
        let chains = [
            chained(heap, facts, 0)?,
            chained(heap, facts, 1)?,
            chained(heap, facts, 2)?,
            chained(heap, facts, 3)?,
            chained(heap, facts, 4)?,
        ];
        Ok(Index { items, chains })
    }
}
