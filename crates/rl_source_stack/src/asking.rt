//! Events that a run asks, and the ways on from their answers.

ghost use Rattle.std.specs.Prelude.{◌≡◌, IfOk};
ghost use Rattle.rl_machine.specs.Traces as traces;
ghost use Rattle.rl_model.specs.Actions.{ask};
ghost use Rattle.rl_source_stack.specs.Controls.{apart_in, asked_then, from, stepped_in, tested_in, trace_of};
ghost use Rattle.rl_source_stack.specs.States.{state_of};
ghost use Rattle.rl_trace.specs.Values.{shown};

use crate::control::Control;
use crate::run::Run;
use rl_base::error::OutOfMemory;
use rl_machine::trace::{AnswerKind, Event};
use rl_trace::event::{matches, nullish, truthy};
use rl_trace::value::Val;

impl<'b> Run<'b> {
    /// Asks an event, and goes on with the answer's value. On `OutOfMemory`, an allocation failed.
    pub fn ask_value(&mut self, event: Event) -> Result<Control<'b>, OutOfMemory>
        ensures { IfOk result (λ c. trace_of c (state_of self.new) ≡ from (ask (state_of self.old).scene event) (state_of self.old)) }
    {
        match self.ask(event)? {
            Some(answer) => {
                let value = Val::of(&answer.value);
                match answer.kind {
                    AnswerKind::Yes => Ok(Control::Value(value)),
                    AnswerKind::No => Ok(Control::Value(value)),
                    AnswerKind::Throw => Ok(Control::Throw(value)),
                }
            }
            None => Ok(Control::Waiting),
        }
    }

    /// Asks an event, and goes on as given. On `OutOfMemory`, an allocation failed.
    pub fn ask_then(&mut self, event: Event, next: Control<'b>) -> Result<Control<'b>, OutOfMemory>
        ensures { IfOk result (λ c. trace_of c (state_of self.new) ≡ asked_then event next.entry (state_of self.old)) }
    {
        match self.ask(event)? {
            Some(answer) => {
                let value = Val::of(&answer.value);
                match answer.kind {
                    AnswerKind::Yes => Ok(next),
                    AnswerKind::No => Ok(next),
                    AnswerKind::Throw => Ok(Control::Throw(value)),
                }
            }
            None => Ok(Control::Waiting),
        }
    }

    /// Asks an event, and goes on with the pieces of the answer. On `OutOfMemory`, an allocation failed.
    pub fn ask_pieces(&mut self, event: Event) -> Result<Control<'b>, OutOfMemory>
        ensures { IfOk result (λ c. trace_of c (state_of self.new) ≡ apart_in event (state_of self.old)) }
    {
        match self.ask(event)? {
            Some(answer) => {
                let value = Val::of(&answer.value);
                let pieces = answer.pieces.as_slice();
                match answer.kind {
                    AnswerKind::Yes => Ok(Control::Pieces(pieces)),
                    AnswerKind::No => Ok(Control::Pieces(pieces)),
                    AnswerKind::Throw => Ok(Control::Throw(value)),
                }
            }
            None => Ok(Control::Waiting),
        }
    }

    /// Asks for the next value of a loop, and goes on with it; at the end it goes on behind a statement. On `OutOfMemory`, an
    /// allocation failed.
    pub fn ask_next(&mut self, event: Event) -> Result<Control<'b>, OutOfMemory>
        ensures { IfOk result (λ c. trace_of c (state_of self.new) ≡ stepped_in event (state_of self.old)) }
    {
        match self.ask(event)? {
            Some(answer) => {
                let value = Val::of(&answer.value);
                match answer.kind {
                    AnswerKind::Yes => Ok(Control::Value(value)),
                    AnswerKind::No => Ok(Control::Normal),
                    AnswerKind::Throw => Ok(Control::Throw(value)),
                }
            }
            None => Ok(Control::Waiting),
        }
    }

    /// Asks a test, and goes on by its answer. On `OutOfMemory`, an allocation failed.
    pub fn choose(
        &mut self,
        event: Event,
        if_yes: Control<'b>,
        if_no: Control<'b>,
    ) -> Result<Control<'b>, OutOfMemory>
        ensures { IfOk result (λ c. trace_of c (state_of self.new) ≡ tested_in event if_yes.entry if_no.entry (state_of self.old)) }
    {
        match self.ask(event)? {
            Some(answer) => match answer.kind {
                AnswerKind::Yes => Ok(if_yes),
                AnswerKind::No => Ok(if_no),
                AnswerKind::Throw => Ok(if_no),
            },
            None => Ok(Control::Waiting),
        }
    }

    /// As `choose`, by the truth of a value.
    pub fn choose_truthy(
        &mut self,
        value: Val<'b>,
        if_yes: Control<'b>,
        if_no: Control<'b>,
    ) -> Result<Control<'b>, OutOfMemory>
        ensures { IfOk result (λ c. trace_of c (state_of self.new)
            ≡ tested_in (traces.truthy (shown value.entry)) if_yes.entry if_no.entry (state_of self.old)) }
    {
        let event = truthy(self.progress.alloc, value)?;
        self.choose(event, if_yes, if_no)
    }

    /// As `choose`, by whether a value is null or undefined.
    pub fn choose_nullish(
        &mut self,
        value: Val<'b>,
        if_yes: Control<'b>,
        if_no: Control<'b>,
    ) -> Result<Control<'b>, OutOfMemory>
        ensures { IfOk result (λ c. trace_of c (state_of self.new)
            ≡ tested_in (traces.nullish (shown value.entry)) if_yes.entry if_no.entry (state_of self.old)) }
    {
        let event = nullish(self.progress.alloc, value)?;
        self.choose(event, if_yes, if_no)
    }

    /// As `choose`, by whether a value is that of a case's test.
    pub fn choose_match(
        &mut self,
        value: Val<'b>,
        test: Val<'b>,
        if_yes: Control<'b>,
        if_no: Control<'b>,
    ) -> Result<Control<'b>, OutOfMemory>
        ensures { IfOk result (λ c. trace_of c (state_of self.new)
            ≡ tested_in (traces.matches (shown value.entry) (shown test.entry)) if_yes.entry if_no.entry (state_of self.old)) }
    {
        let event = matches(self.progress.alloc, value, test)?;
        self.choose(event, if_yes, if_no)
    }
}
