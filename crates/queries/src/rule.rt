// A rule.
ghost use Rattle.std.specs.Prelude.{◌≡◌, ◌≤◌, true, map, take};
ghost use Rattle.queries.specs.Checks.{next_is};
ghost use Rattle.queries.specs.Heads.{head_atoms};
ghost use Rattle.queries.specs.RuleChecks.{heads_fine, heads_numbered};

use crate::body::Body;
use crate::checks::{Scope, checked, too_many};
use crate::head::Head;
use notation::faults::LineFault;
use notation::terms::{Atom, Term};

// A body, and one to four heads of one to four different atoms; variables are numbered by first appearance through the
// body and then the heads, and one that is not in the body is in one head only.
#[derive(Clone, Copy)]
pub struct Rule {
    body: Body,
    // the first `count` of the array, in fixed memory, as `Atoms`: generic calls would owe the size of an array of a type
    // parameter
    heads: [Head; 4],
    count: usize,
    next: usize,
    ghost some: { 1 ≤ count },
    ghost within: { count ≤ 4 },
    ghost proper: { heads_fine (map head_atoms (take count heads)) ≡ true },
    ghost counted: { next_is (heads_numbered body.next body.next (map head_atoms (take count heads))) next ≡ true },
}

impl Rule {
    ghost use Rattle.queries.specs.Heads.{body_atoms};
    ghost use Rattle.queries.specs.Rules.{rule_seen, Added, first_head};

    // The rule with this body and these atoms as its first head.
    pub fn new(body: Body, arity: &[u8], atoms: &[Atom<Term>]) -> Result<Rule, LineFault>
        ensures { rule_seen result ≡ first_head arity.now (body_atoms body) atoms.now }
    {
        let (atoms, next) = checked(Scope::new(body.next, body.next), arity, atoms)?;
        Ok(Rule {
            body,
            heads: [Head { atoms }; 4],
            count: 1,
            next,
        })
    }

    // One head more; a refusal leaves the rule as it was.
    pub fn add(&mut self, arity: &[u8], atoms: &[Atom<Term>]) -> Result<(), LineFault>
        ensures { Added arity.now atoms.now self.old self.new result }
    {
        if self.count == 4 {
            return Err(too_many(atoms));
        }
        let (atoms, next) = checked(Scope::new(self.body.next, self.next), arity, atoms)?;
        self.heads[self.count] = Head { atoms };
        self.count += 1;
        self.next = next;
        Ok(())
    }

    pub fn body(&self) -> &[Atom<Term>]
        ensures { result.now ≡ body_atoms self.now.body }
    {
        self.body.atoms()
    }

    pub fn heads(&self) -> &[Head]
        ensures { result.now ≡ take self.now.count self.now.heads }
    {
        &self.heads[..self.count]
    }
}
