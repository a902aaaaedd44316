// Entering the new query of a step.
ghost use Rattle.rewriting.specs.Written.{step_of};
ghost use Rattle.book.specs.Ledgers.{book_of};
ghost use Rattle.book.specs.Views.{Steps};

use super::Ledger;
use rewriting::judge::judge;
use rewriting::refusal::StepRefusal;
use rewriting::steps::Step;

impl Ledger {
    // Enters the new query of a step, and gives its number; a refusal changes nothing.
    pub fn step(&mut self, step: &Step) -> Result<usize, StepRefusal>
        ensures { Steps (book_of self.old) (step_of step.now) result (book_of self.new) }
    {
        let new = judge(&self.rules, self.table.rows(), step)?;
        let number = self.table.len();
        self.table.push(&new);
        Ok(number)
    }
}
