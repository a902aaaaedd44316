// The pieces of a proposal, one by one.
ghost use Rattle.std.specs.Prelude.{◌≡◌, ◌-◌, length};
ghost use Rattle.std.specs.Iterator.{at_most};
ghost use Rattle.rewriting.specs.Proposals.{GivesPiece};

use crate::pieces::Piece;
use crate::proposals::Proposal;
use crate::rows::atoms_at;
use notation::terms::{Atom, Term};

// Those with a number from `next` on.
#[derive(Drop)]
pub struct Pieces<'a> {
    proposal: Proposal<'a>,
    next: usize,
}

impl<'a> Iterator for Pieces<'a> {
    type Item = Piece<'a>;

    ghost next_gives = { GivesPiece };

    ghost remaining = { λ s. at_most (length s.proposal.parts.now - s.next) };

    fn next(&mut self) -> Option<Piece<'a>> {
        let number = self.next;
        let part = self.proposal.parts.get(number)?;
        self.next = number + 1;
        Some(Piece {
            number,
            head: self.proposal.head(number),
            query: atoms_at(self.proposal.rows, part.query),
            part,
        })
    }
}

impl<'a> Proposal<'a> {
    ghost use Rattle.std.specs.Prelude.{◌<◌, [], slice_index_or, true};
    ghost use Rattle.queries.specs.Checks.{atoms_all_fit};
    ghost use Rattle.queries.specs.Rules.{heads_of};

    // All its pieces.
    pub(crate) fn pieces(&self) -> Pieces<'a>
        ensures all { result.proposal ≡ self.now }
        ensures first { result.next ≡ 0 }
    {
        Pieces {
            proposal: *self,
            next: 0,
        }
    }

    // The atoms of head i.
    fn head(&self, i: usize) -> &'a [Atom<Term>]
        requires { i < length self.now.parts.now }
        ensures value { result.now ≡ slice_index_or (heads_of self.now.rule.now) i [] }
        ensures fits { atoms_all_fit result.now ≡ true }
    {
        self.rule.heads()[i].atoms()
    }
}
