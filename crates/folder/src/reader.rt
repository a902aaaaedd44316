// Reading a folder, line by line.
ghost use Rattle.folder.specs.Folders.{folder_of, nothing_read, move, take_arity, settle as settled, begin_rule, take_body, take_head, add_query, take_query, take_strike, take_by, take_fact, take_content, take_line, take_end, read_folder, Moves, Reads, failure_at};
ghost use Rattle.folder.specs.Contents.{content_seen};
ghost use Rattle.std.specs.Prelude.{◌≡◌, Ok as Fine};
ghost use Rattle.notation.specs.Failures.{UnlessMemory};

use crate::contents::{Content, read_content};
use crate::parts::{Draft, Fault, Reader, Strike};
use notation::failures::Failure;
use notation::faults::{FolderFault, LineFault};
use notation::lines::Key;
use notation::lists::cut;
use notation::terms::{Atom, Fact, Term};
use queries::body::Body;
use queries::query::Query;
use queries::rule::Rule;
use std::alloc::Global;
use std::mem;

impl Reader {
    fn new(heap: Global) -> Reader
        ensures { folder_of result ≡ nothing_read }
    {
        Reader {
            last: None,
            arity: Vec::new(heap),
            draft: Draft::Nothing,
            rules: Vec::new(heap),
            queries: Vec::new(heap),
            pending: 0,
            strikes: Vec::new(heap),
            facts: Vec::new(heap),
        }
    }

    // Which keys may follow depends on what was read last.
    fn follow(&mut self, key: Key) -> Result<(), FolderFault>
        ensures { Moves (folder_of self.new) result (move (folder_of self.old) key) }
    {
        match (self.last, key) {
            (None, Key::Arity) => {}
            (Some(Key::Arity | Key::Head), Key::Body) => {}
            (Some(Key::Body | Key::Head), Key::Head) => {}
            (Some(Key::Arity | Key::Head | Key::Query), Key::Query) => {}
            (Some(Key::Query | Key::By), Key::Strike) => {}
            (Some(Key::Strike), Key::By) => {}
            (Some(Key::Query | Key::By | Key::Fact), Key::Fact) => {}
            _ => return Err(FolderFault::OutOfOrder),
        }
        self.last = Some(key);
        Ok(())
    }

    fn take_arity(&mut self, counts: Vec<u8>) -> Result<(), LineFault>
        ensures { Moves (folder_of self.new) result (take_arity (folder_of self.old) counts.items) }
    {
        if counts.len() > 32 {
            return Err(LineFault::TooMany);
        }
        self.arity = counts;
        Ok(())
    }

    // The rule that was being read is read.
    fn settle(&mut self) -> Result<(), Failure<LineFault>>
        ensures { Reads (folder_of self.new) result (Fine (settled (folder_of self.old))) }
    {
        if let Draft::Headed(rule) = mem::replace(&mut self.draft, Draft::Nothing) {
            self.rules.push(rule)?;
        }
        Ok(())
    }

    fn begin_rule(&mut self, atoms: &[Atom<Term>]) -> Result<(), LineFault>
        ensures { Moves (folder_of self.new) result (begin_rule (folder_of self.old) atoms.now) }
    {
        if self.rules.len() >= 32 {
            return Err(LineFault::TooMany);
        }
        let body = Body::new(&self.arity, atoms)?;
        self.draft = Draft::Bare(body);
        Ok(())
    }

    fn take_body(&mut self, atoms: &[Atom<Term>]) -> Result<(), Failure<LineFault>>
        ensures { Reads (folder_of self.new) result (take_body (folder_of self.old) atoms.now) }
    {
        self.settle()?;
        self.begin_rule(atoms)?;
        Ok(())
    }

    fn take_head(&mut self, atoms: &[Atom<Term>]) -> Result<(), LineFault>
        ensures { Moves (folder_of self.new) result (take_head (folder_of self.old) atoms.now) }
    {
        let rule = match self.draft {
            Draft::Nothing => return Err(LineFault::Unreadable),
            Draft::Bare(body) => Rule::new(body, &self.arity, atoms)?,
            Draft::Headed(mut rule) => {
                rule.add(&self.arity, atoms)?;
                rule
            }
        };
        self.draft = Draft::Headed(rule);
        Ok(())
    }

    fn add_query(&mut self, atoms: &[Atom<Term>]) -> Result<(), Failure<LineFault>>
        ensures { Reads (folder_of self.new) result (add_query (folder_of self.old) atoms.now) }
    {
        if self.queries.len() >= 64 {
            return Err(LineFault::TooMany.into());
        }
        let q = Query::new(&self.arity, atoms)?;
        self.queries.push(q)?;
        Ok(())
    }

    fn take_query(&mut self, atoms: &[Atom<Term>]) -> Result<(), Failure<LineFault>>
        ensures { Reads (folder_of self.new) result (take_query (folder_of self.old) atoms.now) }
    {
        self.settle()?;
        self.add_query(atoms)
    }

    fn take_strike(&mut self, struck: u16)
        ensures { folder_of self.new ≡ take_strike (folder_of self.old) struck }
    {
        self.pending = struck;
    }

    fn take_by(&mut self, by: u16) -> Result<(), Failure<LineFault>>
        ensures { Reads (folder_of self.new) result (Fine (take_by (folder_of self.old) by)) }
    {
        let struck = self.pending;
        self.strikes.push(Strike { struck, by })?;
        Ok(())
    }

    fn take_fact(&mut self, fact: Fact) -> Result<(), Failure<LineFault>>
        ensures { Reads (folder_of self.new) result (Fine (take_fact (folder_of self.old) fact)) }
    {
        self.facts.push(fact)?;
        Ok(())
    }

    fn take_content(&mut self, content: Content) -> Result<(), Failure<LineFault>>
        ensures { Reads (folder_of self.new) result (take_content (folder_of self.old) (content_seen content)) }
    {
        match content {
            Content::Arity(counts) => self.take_arity(counts)?,
            Content::Body(atoms) => self.take_body(&atoms)?,
            Content::Head(atoms) => self.take_head(&atoms)?,
            Content::Query(atoms) => self.take_query(&atoms)?,
            Content::Strike(struck) => self.take_strike(struck),
            Content::By(by) => self.take_by(by)?,
            Content::Fact(fact) => self.take_fact(fact)?,
        }
        Ok(())
    }

    // One line more, which is written without its end.
    fn take_line(&mut self, heap: Global, line: &[u8]) -> Result<(), Failure<FolderFault>>
        ensures { Reads (folder_of self.new) result (take_line (folder_of self.old) line.now) }
    {
        let content = read_content(heap, line)?;
        self.follow(content.key())?;
        self.take_content(content)?;
        Ok(())
    }

    // The text after the last line's end, which should be empty.
    fn finish(&self, heap: Global, left: &[u8]) -> Result<(), Failure<FolderFault>>
        ensures { Reads (folder_of self.now) result (take_end (folder_of self.now) left.now) }
    {
        if !left.is_empty() {
            let _ = read_content(heap, left)?;
            return Err(LineFault::Unended.into());
        }
        match self.last {
            Some(Key::Query | Key::By | Key::Fact) => Ok(()),
            _ => Err(FolderFault::EndsTooSoon.into()),
        }
    }
}

// The failure, with the line that it is in.
fn at(line: usize, e: Failure<FolderFault>) -> Failure<Fault>
    ensures { result ≡ failure_at line e }
{
    e.map(|fault| Fault { line, fault })
}

// A folder of at most 65,536 bytes.
pub fn read(heap: Global, text: &[u8]) -> Result<Reader, Failure<Fault>>
    ensures { UnlessMemory folder_of result (read_folder text.now) }
{
    if text.len() > 65536 {
        return Err(Failure::Fault(Fault {
            line: 0,
            fault: FolderFault::TooLong,
        }));
    }
    let mut reader = Reader::new(heap);
    let mut left = text;
    let mut line = 1;
    // No `for` over `split`: its last piece would be the text after the last line's end, which is no line.
    while let Some((piece, rest)) = cut(b'\n', left) {
        // Not `map_err(..)?`: it was tried, and the proof got nothing of what the closure gives.
        if let Err(e) = reader.take_line(heap, piece) {
            return Err(at(line, e));
        }
        left = rest;
        line += 1;
    }
    match reader.finish(heap, left) {
        Ok(()) => Ok(reader),
        Err(e) => Err(at(line, e)),
    }
}
