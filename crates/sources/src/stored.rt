// Facts that are stored.
ghost use Rattle.std.specs.Prelude.{◌≡◌, map, take};
ghost use Rattle.notation.specs.Logic.{fact_atom};
ghost use Rattle.sources.specs.Few.{stored_few};

use crate::text::fact_at;
use crate::{MOST, Source};
use notation::terms::Fact;

// The facts of a slice, 65,535 at most.
#[derive(Clone, Copy)]
pub struct StoredSource<'a> {
    pub facts: &'a [Fact],
}

impl<'a> Source for StoredSource<'a> {
    ghost facts = { λ s. map fact_atom (take 65535 s.facts.now) };

    ghost few = { λ s. stored_few s.facts.now };

    fn len(&self) -> usize {
        self.facts.len().min(MOST)
    }

    fn fact(&self, k: usize) -> Option<Fact> {
        fact_at(&self.facts[..self.len()], k)
    }
}
