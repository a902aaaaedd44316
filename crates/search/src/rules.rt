// Whether a list keeps a rule: wherever the body holds, so does some head.
ghost use Rattle.std.specs.Prelude.{◌≡◌, true, map, Decides};
ghost use Rattle.notation.specs.Logic.{query_atom};
ghost use Rattle.queries.specs.Heads.{head_atoms};
ghost use Rattle.queries.specs.Rules.{rule_of as parts_of};
ghost use Rattle.search.specs.Fitting.{variables_fit};
ghost use Rattle.search.specs.Keeping.{Keeps};
ghost use Rattle.search.specs.Checking.{heads_fit, rule_of, SomeFrom, KeepsFrom};
ghost use Rattle.search.specs.Rules.{meant, LowestBroken};

use crate::candidates::Candidates;
use crate::extends;
use crate::guide::Guide;
use crate::matching::Binding;
use notation::terms::{Atom, Term};
use queries::head::Head;
use queries::rule::Rule;
use sources::Source;

// Whether some head holds with what `b` has given: the first atom of each is tried along its route.
// The loops stay nested and are left by a label once one head holds, as the repository wants its searches.
fn some_head<G: Guide>(heads: &[Head], s: &G, b: &Binding) -> bool
    requires { heads_fit (map head_atoms heads.now) ≡ true }
    ensures { Decides result (SomeFrom heads.now b.now (G.Source.facts s.now)) }
{
    'heads: {
        for h in heads {
            match h.atoms() {
                [] => break 'heads true,
                [a, rest @ ..] => {
                    for f in Candidates::new(s, a, b) {
                        if b.may_match(a, &f) {
                            let mut more = *b;
                            if more.matched(a, &f).is_some() && extends(rest, s, &more) {
                                break 'heads true;
                            }
                        }
                    }
                }
            }
        }
        false
    }
}

// Whether each giving that agrees with `b` and makes the body facts reaches some head: the atoms of the body are
// tried in their order, and for each the places along its route.
fn kept_from<G: Guide>(body: &[Atom<Term>], heads: &[Head], s: &G, b: &Binding) -> bool
    requires body { variables_fit body.now ≡ true }
    requires heads { heads_fit (map head_atoms heads.now) ≡ true }
    ensures { Decides result (KeepsFrom (map query_atom body.now) heads.now b.now (G.Source.facts s.now)) }
{
    match body {
        [] => some_head(heads, s, b),
        [a, rest @ ..] => {
            // As `all`, the closure that calls this again needs clauses of its own, longer than this loop.
            for f in Candidates::new(s, a, b) {
                if b.may_match(a, &f) {
                    let mut more = *b;
                    if more.matched(a, &f).is_some() && !kept_from(rest, heads, s, &more) {
                        return false;
                    }
                }
            }
            true
        }
    }
}

// Whether the list of `s` keeps the rule.
fn keeps_atoms<G: Guide>(body: &[Atom<Term>], heads: &[Head], s: &G) -> bool
    requires body { variables_fit body.now ≡ true }
    requires heads { heads_fit (map head_atoms heads.now) ≡ true }
    ensures { Decides result (Keeps (rule_of body.now heads.now) (G.Source.facts s.now)) }
{
    kept_from(body, heads, s, &Binding::new())
}

// Whether the list of `s` keeps the rule.
pub fn keeps<G: Guide>(r: &Rule, s: &G) -> bool
    ensures { Decides result (Keeps (meant (parts_of r.now)) (G.Source.facts s.now)) }
{
    keeps_atoms(r.body(), r.heads(), s)
}

// Whether the list of `s` does not keep the rule.
fn breaks<G: Guide>(r: &Rule, s: &G) -> bool
    ensures { Decides result (Keeps (meant (parts_of r.now)) (G.Source.facts s.now) → ⊥) }
{
    !keeps(r, s)
}

// The lowest rule that the list of `s` does not keep.
pub fn lowest_broken<G: Guide>(rules: &[Rule], s: &G) -> Option<usize>
    ensures { LowestBroken (map parts_of rules.now) (G.Source.facts s.now) result }
{
    rules.iter().position(|r| breaks(r, s))
}
