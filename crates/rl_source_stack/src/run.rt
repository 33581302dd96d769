//! A run that is under way.

ghost use Rattle.std.specs.Prelude.{◌≡◌, IfOk, OnOk, MatchOption};
ghost use Rattle.rl_source_stack.specs.Konts.{outermost};
ghost use Rattle.rl_source_stack.specs.States.{WasAsked, assigned, pushed, state_of};
ghost use Rattle.rl_trace.specs.Values.{shown};

use crate::stack::Frame;
use crate::texts::JsxTexts;
use rl_base::error::OutOfMemory;
use rl_base::ids::SymbolId;
use rl_machine::trace::{Answer, Event};
use rl_names::names::FunctionNames;
use rl_trace::progress::Progress;
use rl_trace::shared::Numbers;
use rl_trace::value::Val;

/// A run that is under way.
#[derive(Drop)]
pub struct Run<'b> {
    /// The names.
    pub names: FunctionNames<'b>,
    /// The entities and nodes by which the texts of JSX are read.
    pub texts: JsxTexts<'b>,
    /// The values of variables, by the numbers of their symbols; the answers that are left; the events so far.
    pub progress: Progress<'b>,
    /// The frames, the innermost one last.
    pub stack: Vec<Frame<'b>>,
}

impl<'b> Run<'b> {
    /// Puts a frame on the stack. On `OutOfMemory`, an allocation failed.
    #[tactic(auto, using(crate::proofs::Stacks::konts_pushed))]
    pub fn push(&mut self, frame: Frame<'b>) -> Result<(), OutOfMemory>
        ensures { OnOk result (state_of self.new ≡ pushed frame.entry (state_of self.old)) }
    {
        self.stack.push(frame)?;
        Ok(())
    }

    /// Takes the innermost frame off the stack.
    #[tactic(auto, using(crate::proofs::Stacks::konts_pushed))]
    pub fn pop(&mut self) -> Option<Frame<'b>>
        ensures { MatchOption result ((state_of self.new ≡ state_of self.old) × ((state_of self.old).konts ≡ outermost))
            (λ f. state_of self.old ≡ pushed f (state_of self.new)) }
    {
        self.stack.pop()
    }

    /// The value of a variable.
    pub fn read(&self, symbol: SymbolId) -> Val<'b>
        ensures { shown result ≡ (state_of self.now).store symbol.0 }
    {
        self.progress.read(symbol.0)
    }

    /// Gives a variable a value. On `OutOfMemory`, an allocation failed.
    pub fn assign(&mut self, symbol: SymbolId, value: Val<'b>) -> Result<(), OutOfMemory>
        ensures { OnOk result (state_of self.new ≡ assigned symbol.0 (shown value.entry) (state_of self.old)) }
    {
        self.progress.assign(symbol.0, value)?;
        Ok(())
    }

    /// Asks an event: the next answer, or none. On `OutOfMemory`, an allocation failed.
    pub fn ask(&mut self, event: Event) -> Result<Option<&'b Answer>, OutOfMemory>
        ensures { IfOk result (λ answer. WasAsked event answer (state_of self.old) (state_of self.new)) }
    {
        // Variables are symbols: an answer assigns to them by their own numbers.
        self.progress.shared.numbers = Numbers::Own;
        self.progress.ask(event)
    }
}
