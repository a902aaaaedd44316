// An index of facts, and the search over it.
#![tactic(auto)]

ghost use Rattle.std.specs.Prelude.{map};
ghost use Rattle.queries.specs.Queries.{atoms_of};
ghost use Rattle.search.specs.Answers.{LowestHeld};

use crate::index::Index;
use queries::query::Query;
use search::guide::Plain;
use search::question::lowest;
use sources::Source;
use std::alloc::Global;

mod chain;
pub mod index;
mod keys;

// The lowest query that holds in the list of `s`: found by an index of it, or, where that list is short or
// memory is wanting, from place to place.
pub fn lowest_in<S: Source>(heap: Global, queries: &[Query], s: &S) -> Option<usize>
    ensures { LowestHeld (map atoms_of queries.now) (S.Source.facts s.now) result }
{
    if s.len() >= 64
        && let Ok(x) = Index::build(heap, s)
    {
        return lowest(queries, &x);
    }
    lowest(queries, &Plain { source: s })
}
