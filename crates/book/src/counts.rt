// How many rules and queries a ledger may have.
ghost use Rattle.std.specs.Prelude.{◌≡◌};
ghost use Rattle.book.specs.Ledgers.{check_counts};

use notation::faults::{FolderFault, LineFault};

pub(crate) const MOST_RULES: usize = 32;

// Those that steps enter among them.
pub(crate) const MOST_QUERIES: usize = 64;

// There are at most 32 rules, and 1 to 64 queries.
pub(crate) fn check_counts(rules: usize, queries: usize) -> Result<(), FolderFault>
    ensures { result ≡ check_counts rules queries }
{
    if rules > MOST_RULES {
        return Err(FolderFault::InLine(LineFault::TooMany));
    }
    if queries == 0 {
        return Err(FolderFault::EndsTooSoon);
    }
    if queries > MOST_QUERIES {
        return Err(FolderFault::InLine(LineFault::TooMany));
    }
    Ok(())
}
