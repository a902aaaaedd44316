// The table of entered queries: plain rows, in the order of their numbers.
ghost use Rattle.std.specs.Prelude.{◌≤◌, List, map, vec_items, vec_capacity};
ghost use Rattle.book.specs.Rows.{Entry, entry_of};

use crate::counts::MOST_QUERIES;
use notation::terms::{Atom, Term};
use queries::query::Query;
use queries::row::Row;
use std::alloc::{AllocError, Global};
use std::marker::Model;

// It has room for all that may be entered, so that to enter one needs no memory.
#[derive(Drop)]
pub struct Table {
    list: Vec<Row>,
}

// Clauses see the entered queries, in the order of their numbers.
impl Model for Table {
    ghost Value = { List Entry };

    ghost view = { λ t. map entry_of (vec_items t.list) };

    ghost invariant = { λ t. 64 ≤ vec_capacity t.list };
}

impl Table {
    ghost use Rattle.std.specs.Prelude.{◌≡◌, ◌<◌, true, false, [], ◌∷◌, ◌++◌, length, IfOk, slice_index_or, slice_set};
    ghost use Rattle.queries.specs.Queries.{atoms_of};
    ghost use Rattle.book.specs.Rows.{entered, queries_in, standing_in};

    // A table with no query.
    fn new(heap: Global) -> Result<Table, AllocError>
        ensures { IfOk result (λ t. t ≡ []) }
    {
        Ok(Table {
            list: Vec::with_capacity(heap, MOST_QUERIES)?,
        })
    }

    // Enters a query, which then stands.
    pub(crate) fn push(&mut self, q: &Query)
        requires { length self.old < 64 }
        ensures { self.new ≡ self.old ++ entered (atoms_of q.now) ∷ [] }
    {
        self.list.push_reserved(Row {
            atoms: q.array(),
            standing: true,
        });
    }

    // The table of these queries, which all stand.
    pub(crate) fn of(heap: Global, queries: &[Query]) -> Result<Table, AllocError>
        requires { length queries.now ≤ 64 }
        ensures { IfOk result (λ t. t ≡ map (λ q. entered (atoms_of q)) queries.now) }
    {
        let mut table = Table::new(heap)?;
        for q in queries {
            table.push(q);
        }
        Ok(table)
    }

    // The rows, in the order of their numbers.
    pub(crate) fn rows(&self) -> &[Row]
        ensures { map entry_of result.now ≡ self.now }
    {
        &self.list
    }

    // How many queries were entered.
    pub fn len(&self) -> usize
        ensures { result ≡ length self.now }
    {
        self.list.len()
    }

    // Whether query k was entered and stands.
    pub fn stands(&self, k: usize) -> bool
        ensures value { result ≡ slice_index_or (standing_in self.now) k false }
        ensures entered { result ≡ true → k < length self.now }
    {
        k < self.list.len() && self.list[k].standing
    }

    // The atoms of query k.
    pub fn atoms(&self, k: usize) -> &[Atom<Term>]
        requires { k < length self.now }
        ensures { result.now ≡ slice_index_or (queries_in self.now) k [] }
    {
        self.list[k].atoms.as_slice()
    }

    // Query k stands no more.
    pub(crate) fn strike(&mut self, k: usize)
        requires { k < length self.old }
        ensures queries { queries_in self.new ≡ queries_in self.old }
        ensures standing { standing_in self.new ≡ slice_set (standing_in self.old) k false }
    {
        self.list[k].standing = false;
    }
}
