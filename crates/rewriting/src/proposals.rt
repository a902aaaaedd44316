// Parts of a step with the rule and the rows that it is judged on.
ghost use Rattle.std.specs.Prelude.{◌≡◌, ◌≤◌, true, length};
ghost use Rattle.rewriting.specs.Written.{all_valid, rule_meant};

use crate::steps::Part;
use queries::row::Row;
use queries::rule::Rule;

// One part for each head.
#[derive(Clone, Copy)]
pub struct Proposal<'a> {
    pub(crate) rule: &'a Rule,
    pub(crate) rows: &'a [Row],
    pub(crate) parts: &'a [Part],
    ghost valid: { all_valid rows.now ≡ true },
    ghost paired: { length (rule_meant rule.now).heads ≡ length parts.now },
    ghost few: { length parts.now ≤ 4 },
}
