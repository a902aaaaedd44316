// The ledger: opening it, striking its queries, and asking it.
mod lists;
pub mod run;
mod steps;

ghost use Rattle.std.specs.Prelude.{◌≡◌, ◌≤◌, true, length, vec_len};
ghost use Rattle.book.specs.Rows.{queries_in, all_valid};

use crate::counts::check_counts;
use crate::refusal::Refusal;
use crate::table::Table;
use notation::failures::Failure;
use notation::faults::FolderFault;
use notation::terms::{Atom, Term};
use queries::query::Query;
use queries::rule::Rule;
use search::guide::{Guide, Plain};
use search::question::holds;
use search::rules::lowest_broken;
use sources::Source;
use sources::query::QuerySource;
use std::alloc::{AllocError, Global};

// Up to 32 rules, and up to 64 queries, of which the first `opened` are the opening union.
// It has no model, which would hide from callers what the ghost fields say.
#[derive(Drop)]
pub struct Ledger {
    table: Table,
    rules: Vec<Rule>,
    opened: usize,
    ghost some: { 1 ≤ opened },
    ghost all: { opened ≤ length table },
    ghost few: { length table ≤ 64 },
    ghost sound: { all_valid (queries_in table) ≡ true },
    ghost ruled: { vec_len rules ≤ 32 },
}

impl Ledger {
    ghost use Rattle.std.specs.Prelude.{◌<◌, false, [], map, IfOk, slice_index_or};
    ghost use Rattle.notation.specs.Failures.{UnlessMemory};
    ghost use Rattle.queries.specs.Queries.{atoms_of};
    ghost use Rattle.queries.specs.Rules.{rule_of};
    ghost use Rattle.book.specs.Ledgers.{book_of, new_book, open_book};
    ghost use Rattle.book.specs.Questions.{LowestStanding, LowestOpening, LowestBrokenRule};
    ghost use Rattle.book.specs.Strikes.{Strikes};

    // The ledger of these rules and these queries, which all stand.
    fn of_parts(heap: Global, rules: Vec<Rule>, queries: &[Query]) -> Result<Ledger, AllocError>
        requires some { 1 ≤ length queries.now }
        requires few { length queries.now ≤ 64 }
        requires ruled { vec_len rules ≤ 32 }
        ensures { IfOk result (λ l. book_of l ≡ new_book (map rule_of rules.items) (map atoms_of queries.now)) }
    {
        let table = Table::of(heap, queries)?;
        Ok(Ledger {
            table,
            rules,
            opened: queries.len(),
        })
    }

    // The ledger that these rules and these queries open: at most 32 rules, and 1 to 64 queries.
    pub fn open(
        heap: Global,
        rules: &[Rule],
        queries: &[Query],
    ) -> Result<Ledger, Failure<FolderFault>>
        ensures { UnlessMemory book_of result (open_book (map rule_of rules.now) (map atoms_of queries.now)) }
    {
        check_counts(rules.len(), queries.len())?;
        let mut held = Vec::new(heap);
        held.extend_from_slice(rules)?;
        Ok(Ledger::of_parts(heap, held, queries)?)
    }

    // How many queries were entered.
    pub fn len(&self) -> usize
        ensures { result ≡ length (book_of self.now).queries }
    {
        self.table.len()
    }

    // Whether query k was entered and stands.
    pub fn stands(&self, k: usize) -> bool
        ensures { result ≡ slice_index_or (book_of self.now).standing k false }
    {
        self.table.stands(k)
    }

    // The atoms of query k.
    pub fn atoms(&self, k: usize) -> &[Atom<Term>]
        requires { k < length (book_of self.now).queries }
        ensures { result.now ≡ slice_index_or (book_of self.now).queries k [] }
    {
        self.table.atoms(k)
    }

    fn query(&self, k: usize) -> Query
        requires { k < length (book_of self.now).queries }
        ensures { atoms_of result ≡ slice_index_or (book_of self.now).queries k [] }
    {
        Query::of_valid(self.table.atoms(k))
    }

    // Strikes query a by query b, which must hold in query a read as facts; a refusal changes nothing.
    pub fn strike(&mut self, a: usize, b: usize) -> Result<(), Refusal>
        ensures { Strikes (book_of self.old) a b result (book_of self.new) }
    {
        if !self.table.stands(a) || !self.table.stands(b) {
            return Err(Refusal::NotStanding);
        }
        if a == b {
            return Err(Refusal::SameQuery);
        }
        let facts = self.query(a);
        let source = &QuerySource { query: &facts };
        if !holds(&self.query(b), &Plain { source }) {
            return Err(Refusal::NotHeld);
        }
        self.table.strike(a);
        Ok(())
    }

    // The lowest standing query that holds in the list of `s`.
    pub fn standing<G: Guide>(&self, s: &G) -> Option<usize>
        ensures { LowestStanding (book_of self.now) (G.Source.facts s.now) result }
    {
        // No `position`, as below: its test would need a clause of its own, that the row is a query.
        for (k, row) in self.table.rows().iter().enumerate() {
            if row.standing && holds(&row.query(), s) {
                return Some(k);
            }
        }
        None
    }

    // The lowest query of the opening union that holds in the list of `s`, struck or not.
    pub fn opening<G: Guide>(&self, s: &G) -> Option<usize>
        ensures { LowestOpening (book_of self.now) (G.Source.facts s.now) result }
    {
        for (k, row) in self.table.rows()[..self.opened].iter().enumerate() {
            if holds(&row.query(), s) {
                return Some(k);
            }
        }
        None
    }

    // The lowest rule that the list of `s` does not keep.
    pub fn broken<G: Guide>(&self, s: &G) -> Option<usize>
        ensures { LowestBrokenRule (book_of self.now) (G.Source.facts s.now) result }
    {
        lowest_broken(&self.rules, s)
    }
}
