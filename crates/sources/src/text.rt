// Facts from a text, one to a line.
ghost use Rattle.std.specs.Prelude.{◌≡◌, ◌≤◌, map, length, IfOk};
ghost use Rattle.std.specs.Option.{option_map};
ghost use Rattle.std.specs.List.{slice_get};
ghost use Rattle.notation.specs.Logic.{fact_atom};
ghost use Rattle.sources.specs.Few.{text_few};
ghost use Rattle.sources.specs.Reading.{Told, Parted};

use crate::{MOST, Source};
use notation::lines::fact_line;
use notation::lists::cut;
use notation::terms::Fact;
use std::alloc::{AllocError, Global};

// The facts of the lines before the first that is no fact line, 65,535 at most, and the text after them.
fn read(heap: Global, text: &[u8]) -> Result<(Vec<Fact>, &[u8]), AllocError>
    ensures { IfOk result (λ p. Parted text.now p.0.items p.1.now) }
{
    let mut facts = Vec::new(heap);
    let mut left = text;
    // No `for` over `split`: the text after the last fact is answered too.
    while facts.len() < MOST {
        let Some((line, rest)) = cut(b'\n', left) else {
            break
        };
        let Ok(fact) = fact_line(line) else { break };
        facts.push(fact)?;
        left = rest;
    }
    Ok((facts, left))
}

// The fact at place k.
pub(crate) fn fact_at(facts: &[Fact], k: usize) -> Option<Fact>
    ensures { option_map fact_atom result ≡ slice_get (map fact_atom facts.now) k }
{
    facts.get(k).copied()
}

// The facts of a text, and the number of the first line left out, or 0.
#[derive(Drop)]
pub struct TextSource {
    facts: Vec<Fact>,
    left_out: usize,
    ghost few: { length facts.items ≤ 65535 },
}

impl TextSource {
    // Reads the text, once.
    pub fn new(heap: Global, text: &[u8]) -> Result<TextSource, AllocError>
        ensures { IfOk result (λ t. Told text.now t.facts.items t.left_out) }
    {
        let (facts, left) = read(heap, text)?;
        let left_out = if left.is_empty() { 0 } else { facts.len() + 1 };
        Ok(TextSource { facts, left_out })
    }

    // The number of the first line left out, counted from 1, or 0 if every line counts: a format of the project.
    pub fn first_left_out(&self) -> usize
        ensures { result ≡ self.now.left_out }
    {
        self.left_out
    }
}

impl Source for TextSource {
    ghost facts = { λ t. map fact_atom t.facts.items };

    ghost few = { λ t. text_few t.facts.items t.few };

    fn len(&self) -> usize {
        self.facts.len()
    }

    fn fact(&self, k: usize) -> Option<Fact> {
        fact_at(&self.facts, k)
    }
}
