//! Tests, and values that are thrown.

ghost use Rattle.std.specs.Prelude.{◌≡◌, IfOk, Some};
ghost use Rattle.rl_machine.specs.Traces.{nullish, truthy};
ghost use Rattle.rl_graph_steps.specs.States.{Ahead, came, code, state_of, tests, throws_to};
ghost use Rattle.rl_trace.specs.Values.{shown};

use crate::machine::{Goes, Machine, Run};
use crate::note::Note;
use rl_base::error::OutOfMemory;
use rl_base::ids::BlockId;
use rl_machine::trace::{AnswerKind, Event};
use rl_trace::event;
use rl_trace::value::Val;

impl<'b> Machine<'b> {
    /// Asks a test, and goes on by its answer. On `OutOfMemory` an allocation failed.
    fn choose(
        &self,
        run: &mut Run<'b>,
        event: Event,
        if_yes: BlockId,
        if_no: BlockId,
    ) -> Result<Goes<'b>, OutOfMemory>
        ensures { IfOk result (λ g. (ahead : Ahead) → came ahead g (state_of self.now run.new) ≡ tests ahead event if_yes if_no (state_of self.now run.old)) }
    {
        match run.progress.ask(event)? {
            Some(answer) => match answer.kind {
                AnswerKind::Yes => Ok(Goes::Loudly(if_yes, 0)),
                AnswerKind::No => Ok(Goes::Loudly(if_no, 0)),
                AnswerKind::Throw => Ok(Goes::Loudly(if_no, 0)),
            },
            None => Ok(Goes::Waiting),
        }
    }

    /// Tests the truth of a value. On `OutOfMemory` an allocation failed.
    pub fn choose_truthy(
        &self,
        run: &mut Run<'b>,
        value: Val<'b>,
        if_yes: BlockId,
        if_no: BlockId,
    ) -> Result<Goes<'b>, OutOfMemory>
        ensures { IfOk result (λ g. (ahead : Ahead) → came ahead g (state_of self.now run.new)
            ≡ tests ahead (truthy (shown value.entry)) if_yes if_no (state_of self.now run.old)) }
    {
        let event = event::truthy(run.progress.alloc, value)?;
        self.choose(run, event, if_yes, if_no)
    }

    /// Tests a value for null and undefined. On `OutOfMemory` an allocation failed.
    pub fn choose_nullish(
        &self,
        run: &mut Run<'b>,
        value: Val<'b>,
        if_yes: BlockId,
        if_no: BlockId,
    ) -> Result<Goes<'b>, OutOfMemory>
        ensures { IfOk result (λ g. (ahead : Ahead) → came ahead g (state_of self.now run.new)
            ≡ tests ahead (nullish (shown value.entry)) if_yes if_no (state_of self.now run.old)) }
    {
        let event = event::nullish(run.progress.alloc, value)?;
        self.choose(run, event, if_yes, if_no)
    }

    /// Throws a value to the handler whose block is given. On `OutOfMemory` an allocation failed.
    fn throw_to(
        &self,
        run: &mut Run<'b>,
        handler: BlockId,
        value: Val<'b>,
    ) -> Result<Goes<'b>, OutOfMemory>
        ensures { IfOk result (λ g. (ahead : Ahead) → came ahead g (state_of self.now run.new)
            ≡ throws_to ahead (Some handler.0) (shown value.entry) (state_of self.now run.old)) }
    {
        match run.notes.get(handler) {
            Some(Note::Catches(binding)) => {
                if let Some(identifier) = binding {
                    run.progress.assign(identifier.0, value)?;
                    return Ok(Goes::Loudly(handler, 0));
                }
                Ok(Goes::Loudly(handler, 0))
            }
            Some(Note::Connects(_)) => Ok(Goes::Waiting),
            Some(Note::Chooses) => Ok(Goes::Waiting),
            Some(Note::Chains(_)) => Ok(Goes::Waiting),
            Some(Note::Loops(_)) => Ok(Goes::Waiting),
            Some(Note::Enumerates(_)) => Ok(Goes::Waiting),
            Some(Note::Iterates(_, _)) => Ok(Goes::Waiting),
            Some(Note::Passes) => Ok(Goes::Waiting),
            None => Ok(Goes::Waiting),
        }
    }

    /// Throws a value in a block. On `OutOfMemory` an allocation failed.
    pub fn throw(
        &self,
        run: &mut Run<'b>,
        block: BlockId,
        value: Val<'b>,
    ) -> Result<Goes<'b>, OutOfMemory>
        ensures { IfOk result (λ g. (ahead : Ahead) → came ahead g (state_of self.now run.new)
            ≡ throws_to ahead ((code (state_of self.now run.old)).catcher block.0) (shown value.entry) (state_of self.now run.old)) }
    {
        match self.catcher(block) {
            Some(handler) => self.throw_to(run, handler, value),
            None => Ok(Goes::Threw(value)),
        }
    }
}
