// The printout of a folder's text.
ghost use Rattle.std.specs.Prelude.{◌≡◌, [], map, IfOk, string_bytes, OnOk};
ghost use Rattle.book.specs.Ledgers.{book_of, open_book};
ghost use Rattle.folder.specs.Buffers.{Printed};
ghost use Rattle.folder.specs.Folders.{folder_of, strike_of};
ghost use Rattle.folder.specs.Printouts.{Struck, Asked, OpenedTo, Printout};

use crate::buffer::{Unprinted, copy_in};
use crate::parts::{Answers, Event, Fault, Reader, Strike};
use crate::printing::put_standing;
use crate::reader::read;
use book::ledger::Ledger;
use index::index::Index;
use notation::failures::Failure;
use search::guide::{Guide, Plain};
use sources::Source;
use sources::stored::StoredSource;
use std::alloc::Global;
use std::fmt;
use std::fmt::Write;

// Carries out the strikes, and prints what each answered.
fn strike_all(ledger: &mut Ledger, strikes: &[Strike], out: &mut String) -> Result<(), fmt::Error>
    ensures { OnOk result (Struck (book_of ledger.old) (map strike_of strikes.now) (book_of ledger.new) (string_bytes out.old) (string_bytes out.new)) }
{
    for s in strikes {
        let answer = ledger.strike(s.struck as usize, s.by as usize);
        let event = Event { strike: *s, answer };
        write!(out, "{event}\n")?;
    }
    Ok(())
}

// Puts the three questions, and prints their answers.
fn ask<G: Guide>(ledger: &Ledger, s: &G, out: &mut String) -> Result<(), fmt::Error>
    ensures { OnOk result (Asked (book_of ledger.now) (G.Source.facts s.now) (string_bytes out.old) (string_bytes out.new)) }
{
    let answers = Answers {
        broken: ledger.broken(s),
        standing: ledger.standing(s),
        opening: ledger.opening(s),
    };
    write!(out, "{answers}\n")?;
    Ok(())
}

// The same over an index of the source, or over the source itself where memory for one is wanting.
fn ask_in<S: Source>(
    heap: Global,
    ledger: &Ledger,
    s: &S,
    out: &mut String,
) -> Result<(), fmt::Error>
    ensures { OnOk result (Asked (book_of ledger.now) (S.Source.facts s.now) (string_bytes out.old) (string_bytes out.new)) }
{
    if let Ok(x) = Index::build(heap, s) {
        return ask(ledger, &x, out);
    }
    ask(ledger, &Plain { source: s }, out)
}

// Opens the folder's ledger, carries out its strikes, and prints what stands and the answers.
fn answers(heap: Global, reader: &Reader, out: &mut String) -> Result<(), fmt::Error>
    ensures { OnOk result (OpenedTo (open_book (folder_of reader.now).rules (folder_of reader.now).queries) (folder_of reader.now) (string_bytes out.old) (string_bytes out.new)) }
{
    match Ledger::open(heap, &reader.rules, &reader.queries) {
        Ok(mut ledger) => {
            strike_all(&mut ledger, &reader.strikes, out)?;
            put_standing(&ledger, out)?;
            ask_in(
                heap,
                &ledger,
                &StoredSource {
                    facts: &reader.facts,
                },
                out,
            )
        }
        Err(Failure::Fault(fault)) => {
            let fault = Fault { line: 0, fault };
            write!(out, "{fault}\n")?;
            Ok(())
        }
        Err(Failure::Memory) => Err(fmt::Error),
    }
}

fn printed(heap: Global, text: &[u8]) -> Result<String, fmt::Error>
    ensures { IfOk result (λ s. Printout text.now (string_bytes s)) }
{
    let mut out = String::new(heap);
    match read(heap, text) {
        Ok(reader) => answers(heap, &reader, &mut out)?,
        Err(Failure::Fault(fault)) => write!(out, "{fault}\n")?,
        Err(Failure::Memory) => return Err(fmt::Error),
    }
    Ok(out)
}

// Writes the printout of a folder's text at the start of `out`, and leaves the rest.
pub fn printout(heap: Global, text: &[u8], out: &mut [u8]) -> Result<usize, Unprinted>
    ensures { Printed (Printout text.now) out.old out.new result }
{
    let Ok(whole) = printed(heap, text) else {
        return Err(Unprinted::Memory);
    };
    copy_in(whole.as_bytes(), out)
}
