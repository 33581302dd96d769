//! Runs of graphs to their end.

ghost use Rattle.std.specs.Prelude.{◌≡◌, ◌+◌, IfOk};
ghost use Rattle.rl_graph_steps.specs.Runs.{made_by, runs, steps_of};
ghost use Rattle.rl_graph_steps.specs.States.{Ahead, came, ended, state_of, steps_at};

use crate::fuel::Fuel;
use crate::machine::{Found, Goes, Machine, Run};
use rl_base::error::OutOfMemory;
use rl_base::ids::BlockId;
use rl_base::steps::Steps;
use std::sync::ledger::Ledger;

impl<'b> Machine<'b> {
    /// Makes one step from an index of a block. On `OutOfMemory` an allocation failed.
    fn advance(
        &self,
        run: &mut Run<'b>,
        block: BlockId,
        index: usize,
    ) -> Result<Goes<'b>, OutOfMemory>
        ensures { IfOk result (λ g. (ahead : Ahead) → came ahead g (state_of self.now run.new) ≡ steps_at ahead block.0 index (state_of self.now run.old)) }
    {
        match self.item(block, index) {
            Some(Found::Runs(instruction)) => self.execute(run, block, index, instruction),
            Some(Found::Ends(terminal)) => self.leave(run, &terminal.kind),
            None => Ok(Goes::Waiting),
        }
    }

    /// Runs from the start of a block until the run ends, and counts one step for each that it makes. On `OutOfMemory` an allocation
    /// failed.
    pub fn run<L: Ledger>(
        &self,
        run: &mut Run<'b>,
        entry: BlockId,
        fuel: Fuel,
        steps: &mut Steps<L>,
    ) -> Result<Goes<'b>, OutOfMemory>
        ensures trace { IfOk result (λ g. ended g (state_of self.now run.new)
            ≡ runs fuel.most (steps_of fuel) fuel.quiet entry.0 0 (state_of self.now run.old)) }
        ensures steps { IfOk result (λ g. steps.new
            ≡ steps.old + made_by fuel.most (steps_of fuel) fuel.quiet entry.0 0 (state_of self.now run.old)) }
    {
        let mut left = fuel;
        let mut block = entry;
        let mut index = 0;
        'turns: while left.is_left() {
            left = left.spent();
            steps.tick();
            match self.advance(run, block, index)? {
                Goes::Silently(next, next_index) => {
                    if left.quiet == 0 {
                        return Ok(Goes::Waiting);
                    }
                    left.quiet -= 1;
                    block = next;
                    index = next_index;
                }
                Goes::Loudly(next, next_index) => {
                    left.quiet = left.most;
                    block = next;
                    index = next_index;
                }
                Goes::Returned(variant, value) => return Ok(Goes::Returned(variant, value)),
                Goes::Threw(value) => return Ok(Goes::Threw(value)),
                Goes::Waiting => return Ok(Goes::Waiting),
            }
        }
        Ok(Goes::Waiting)
    }
}
