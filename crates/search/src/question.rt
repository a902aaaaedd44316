// Which query holds in a source.
ghost use Rattle.std.specs.Prelude.{map, Decides};
ghost use Rattle.notation.specs.Logic.{query_atom};
ghost use Rattle.queries.specs.Queries.{atoms_of};
ghost use Rattle.search.specs.Answers.{LowestHeld};
ghost use Rattle.search.specs.Holding.{Holds};

use crate::guide::Guide;
use crate::holds_atoms;
use queries::query::Query;
use sources::Source;

// Whether the query holds in the list of `s`.
pub fn holds<G: Guide>(q: &Query, s: &G) -> bool
    ensures { Decides result (Holds (map query_atom (atoms_of q.now)) (G.Source.facts s.now)) }
{
    holds_atoms(q.atoms(), s)
}

// The lowest query that holds in the list of `s`.
pub fn lowest<G: Guide>(queries: &[Query], s: &G) -> Option<usize>
    ensures { LowestHeld (map atoms_of queries.now) (G.Source.facts s.now) result }
{
    // The number by itself, for a must-fail edit that turns it: what a `map` makes would be refused whatever it is.
    let k = queries.iter().position(|q| holds(q, s))?;
    Some(k)
}
