// Facts from rows of numbers.
ghost use Rattle.std.specs.Prelude.{◌≡◌, map, length};
ghost use Rattle.std.specs.Option.{option_map};
ghost use Rattle.std.specs.List.{slice_get};
ghost use Rattle.notation.specs.Logic.{fact_atom};
ghost use Rattle.sources.specs.Few.{rows_few};
ghost use Rattle.sources.specs.Rows.{placed, terms_at, decoded, row_facts};

use crate::{MOST, Source};
use notation::terms::{Fact, Terms, Value};

// A predicate, a number of terms, and four codes, of which the unused ones are 0: a format of the project.
#[derive(Clone, Copy)]
pub struct Row {
    pub predicate: u16,
    pub count: u16,
    pub codes: [u16; 4],
}

// What a code says at its place: a term where the place is used, and none where it is not.
fn place_of(code: u16, used: bool) -> Option<Option<Value>>
    ensures { result ≡ placed used code }
{
    match code {
        0..=999 if used => Some(Some(Value::Constant(code))),
        1000..=1999 if used => Some(Some(Value::Unknown(code - 1000))),
        0 if !used => Some(None),
        _ => None,
    }
}

// The terms at four places, of which the used ones come first.
fn terms_at(
    a: Option<Value>,
    b: Option<Value>,
    c: Option<Value>,
    d: Option<Value>,
) -> Option<Terms<Value>>
    ensures { result ≡ terms_at a b c d }
{
    match (a, b, c, d) {
        (Some(a), None, None, None) => Some(Terms::One(a)),
        (Some(a), Some(b), None, None) => Some(Terms::Two(a, b)),
        (Some(a), Some(b), Some(c), None) => Some(Terms::Three(a, b, c)),
        (Some(a), Some(b), Some(c), Some(d)) => Some(Terms::Four(a, b, c, d)),
        _ => None,
    }
}

// The fact of a row.
fn decode(row: &Row) -> Option<Fact>
    ensures { result ≡ decoded row.now }
{
    if row.predicate > 31 || !(1..=4).contains(&row.count) {
        return None;
    }
    let a = place_of(row.codes[0], row.count >= 1)?;
    let b = place_of(row.codes[1], row.count >= 2)?;
    let c = place_of(row.codes[2], row.count >= 3)?;
    let d = place_of(row.codes[3], row.count >= 4)?;
    let terms = terms_at(a, b, c, d)?;
    Some(Fact {
        predicate: row.predicate as u8,
        terms,
    })
}

// How many facts the rows tell.
fn count_facts(rows: &[Row]) -> usize
    ensures { result ≡ length (map fact_atom (row_facts rows.now)) }
{
    rows.iter().map_while(decode).take(MOST).count()
}

// The facts of the rows before the first that is no fact, 65,535 at most.
// The count stands beside the rows, and they are not cut to it: `new` promises them as they were given.
#[derive(Clone, Copy)]
pub struct RowSource<'a> {
    rows: &'a [Row],
    count: usize,
    ghost counted: { count ≡ length (map fact_atom (row_facts rows.now)) },
}

impl<'a> RowSource<'a> {
    // Counts the facts, once.
    pub fn new(rows: &'a [Row]) -> RowSource<'a>
        ensures { result.rows.now ≡ rows.now }
    {
        RowSource {
            rows,
            count: count_facts(rows),
        }
    }
}

impl<'a> Source for RowSource<'a> {
    ghost facts = { λ s. map fact_atom (row_facts s.rows.now) };

    ghost few = { λ s. rows_few s.rows.now };

    fn len(&self) -> usize {
        self.count
    }

    fn fact(&self, k: usize) -> Option<Fact> {
        self.rows[..self.count].get(k).and_then(decode)
    }
}
