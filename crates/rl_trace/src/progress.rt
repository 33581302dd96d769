//! The progress of a run: its variables, the answers that are left, and the events that were asked.

ghost use Rattle.std.specs.Prelude.{◌≡◌, [], IfOk, OnOk};
ghost use Rattle.rl_machine.specs.Traces.{unset};
ghost use Rattle.rl_trace.specs.Progress.{WasAsked, assigned, assigned_where, begun, changed, kept_in, seen};
ghost use Rattle.rl_trace.specs.Shared.{ident_of, world_of};
ghost use Rattle.rl_trace.specs.Values.{shown};

use crate::shared::Shared;
use crate::value::Val;
use crate::variables::Variables;
use rl_base::error::OutOfMemory;
use rl_base::ids::SymbolId;
use rl_base::list::List;
use rl_machine::trace::{Answer, Assignment, Ending, Event, Trace};
use std::alloc::Global;

/// The progress of a run.
#[derive(Drop)]
pub struct Progress<'b> {
    /// The allocator.
    pub alloc: Global,
    /// The variables that the function shares with others.
    pub shared: Shared<'b>,
    /// The answers that are left.
    pub answers: &'b [Answer],
    /// The values of variables, by number.
    pub variables: Variables<'b>,
    /// The events that were asked, in order.
    pub events: List<Event>,
}

impl<'b> Progress<'b> {
    /// A run that begins, with entries for the variables below `count`. On `OutOfMemory` an allocation failed.
    pub fn new(
        alloc: Global,
        shared: Shared<'b>,
        answers: &'b [Answer],
        count: usize,
    ) -> Result<Progress<'b>, OutOfMemory>
        ensures { IfOk result (λ progress. seen progress ≡ record {
          ident = ident_of shared.entry.numbers;
          world = world_of shared.entry;
          store = unset;
          answers = answers.entry.now;
          events = [];
        }) }
    {
        Ok(Progress {
            alloc,
            shared,
            answers,
            variables: Variables::new(alloc, count)?,
            events: List::new(alloc),
        })
    }

    /// The value of a variable.
    pub fn read(&self, number: u32) -> Val<'b>
        ensures { shown result ≡ (seen self.now).store number }
    {
        self.variables.get(number)
    }

    /// Gives a variable a value. On `OutOfMemory` an allocation failed.
    pub fn assign(&mut self, number: u32, value: Val<'b>) -> Result<(), OutOfMemory>
        ensures { OnOk result (seen self.new ≡ assigned number (shown value.entry) (seen self.old)) }
    {
        self.variables.set(number, value)?;
        Ok(())
    }

    /// Gives the variable of a symbol a value; a symbol without a number changes nothing. On `OutOfMemory` an allocation failed.
    pub fn assign_symbol(&mut self, symbol: SymbolId, value: Val<'b>) -> Result<(), OutOfMemory>
        ensures { OnOk result (seen self.new ≡ assigned_where ((seen self.old).ident symbol.0) (shown value.entry) (seen self.old)) }
    {
        if let Some(number) = self.shared.number(symbol) {
            self.assign(number, value)?;
        }
        Ok(())
    }

    /// Applies the assignments of an answer. On `OutOfMemory` an allocation failed.
    fn change(&mut self, assignments: &'b [Assignment]) -> Result<(), OutOfMemory>
        ensures { OnOk result (seen self.new ≡ changed assignments.now (seen self.old)) }
    {
        'assignments: for assignment in assignments {
            if self.shared.is_open(assignment.symbol) {
                self.assign_symbol(assignment.symbol, Val::of(&assignment.value))?;
            }
        }
        Ok(())
    }

    /// Sets variables before a run, open or not. On `OutOfMemory` an allocation failed.
    pub fn begin(&mut self, start: &'b [Assignment]) -> Result<(), OutOfMemory>
        ensures { OnOk result (seen self.new ≡ begun start.now (seen self.old)) }
    {
        'start: for assignment in start {
            self.assign_symbol(assignment.symbol, Val::of(&assignment.value))?;
        }
        Ok(())
    }

    /// Asks an event: records it and takes the next answer, whose assignments it applies. `None` where no answer is left; the event
    /// is not recorded then. On `OutOfMemory` an allocation failed.
    pub fn ask(&mut self, event: Event) -> Result<Option<&'b Answer>, OutOfMemory>
        ensures { IfOk result (λ answer. WasAsked event answer (seen self.old) (seen self.new)) }
    {
        match self.answers.split_first() {
            Some((answer, rest)) => {
                self.events.push(event)?;
                self.answers = rest;
                self.change(answer.assignments.as_slice())?;
                Ok(Some(answer))
            }
            None => Ok(None),
        }
    }

    /// The values of the variables that other functions see when this one returns. On `OutOfMemory` an allocation failed.
    pub fn kept(&self) -> Result<List<Assignment>, OutOfMemory>
        ensures { IfOk result (λ kept. kept ≡ kept_in (seen self.now)) }
    {
        let symbols = self.shared.kept;
        let mut kept = List::with_capacity(self.alloc, symbols.len())?;
        'kept: for symbol in symbols {
            let value = match self.shared.number(*symbol) {
                Some(number) => self.variables.get(number),
                None => Val::Undefined,
            };
            kept.push(Assignment {
                symbol: *symbol,
                value: value.copy(self.alloc)?,
            })?;
        }
        Ok(kept)
    }

    /// The trace of the run, which ends so.
    pub fn end(self, ending: Ending) -> Trace
        ensures { result ≡ record { events = (seen self.entry).events; ending = ending } }
    {
        Trace {
            events: self.events,
            ending,
        }
    }
}
