// What a line says, by the grammar of its key.
ghost use Rattle.std.specs.Prelude.{◌≡◌};
ghost use Rattle.notation.specs.Failures.{UnlessMemory};
ghost use Rattle.folder.specs.Contents.{entry_key, content_seen, read_content};

use notation::failures::Failure;
use notation::faults::LineFault;
use notation::lines::{Key, keyed};
use notation::lists::{list, whole, whole_place};
use notation::terms::{Atom, Fact, Term};
use std::alloc::Global;

#[derive(Drop)]
pub enum Content {
    Arity(Vec<u8>),
    Body(Vec<Atom<Term>>),
    Head(Vec<Atom<Term>>),
    Query(Vec<Atom<Term>>),
    Strike(u16),
    By(u16),
    Fact(Fact),
}

impl Content {
    pub(crate) fn key(&self) -> Key
        ensures { result ≡ entry_key (content_seen self.now) }
    {
        match self {
            Content::Arity(_) => Key::Arity,
            Content::Body(_) => Key::Body,
            Content::Head(_) => Key::Head,
            Content::Query(_) => Key::Query,
            Content::Strike(_) => Key::Strike,
            Content::By(_) => Key::By,
            Content::Fact(_) => Key::Fact,
        }
    }
}

// What a line says, which is written without its end.
pub(crate) fn read_content(heap: Global, line: &[u8]) -> Result<Content, Failure<LineFault>>
    ensures { UnlessMemory content_seen result (read_content line.now) }
{
    match keyed(line)? {
        (Key::Arity, value) => Ok(Content::Arity(list(heap, b',', value)?)),
        (Key::Body, value) => Ok(Content::Body(list(heap, b';', value)?)),
        (Key::Head, value) => Ok(Content::Head(list(heap, b';', value)?)),
        (Key::Query, value) => Ok(Content::Query(list(heap, b';', value)?)),
        (Key::Strike, value) => Ok(Content::Strike(whole_place(value)?)),
        (Key::By, value) => Ok(Content::By(whole_place(value)?)),
        (Key::Fact, value) => Ok(Content::Fact(whole(value)?)),
    }
}
