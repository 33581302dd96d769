//! Instructions that run.

ghost use Rattle.std.specs.Prelude.{◌≡◌, ◌+◌, ◌∷◌, [], IfOk, OnOk, Some, false};
ghost use Rattle.rl_hir.specs.Pieces.{element_pieces, gathered, operands, pattern_pieces, taken_pieces};
ghost use Rattle.rl_machine.specs.Acts.{act, targets};
ghost use Rattle.rl_machine.specs.Acts as acts;
ghost use Rattle.rl_machine.specs.Ends.{Iterates};
ghost use Rattle.rl_graph_steps.specs.Effects.{ids_of, landing_of};
ghost use Rattle.rl_graph_steps.specs.States.{Ahead, came, executes, fires, given, lands, opens_by, state_of, steps_to, takes, took};
ghost use Rattle.rl_trace.specs.Values.{shown};

use crate::act::{Act, Into, Landing};
use crate::machine::{Goes, Machine, Run};
use crate::note::Note;
use rl_base::error::OutOfMemory;
use rl_base::ids::{BlockId, IdentifierId};
use rl_graph_events::event::event;
use rl_hir::instruction::{ArrayElement, Instruction, ObjectPatternProperty, Pattern, Place};
use rl_machine::trace::{Answer, AnswerKind, Event, Value};
use rl_trace::value::Val;

/// The index behind one. No block lists so many instructions that there is none; where there were, it is told as `OutOfMemory`.
fn index_behind(index: usize) -> Result<usize, OutOfMemory>
    ensures { IfOk result (λ next. next ≡ index + 1) }
{
    if index == usize::MAX {
        return Err(OutOfMemory);
    }
    Ok(index + 1)
}

impl<'b> Machine<'b> {
    /// Gives an identifier a value. On `OutOfMemory` an allocation failed.
    fn set(
        &self,
        run: &mut Run<'b>,
        identifier: IdentifierId,
        value: Val<'b>,
    ) -> Result<(), OutOfMemory>
        ensures { OnOk result (state_of self.now run.new ≡ given (identifier.0 ∷ []) (shown value.entry) (state_of self.now run.old)) }
    {
        run.progress.assign(identifier.0, value)?;
        Ok(())
    }

    /// Gives identifiers a value. On `OutOfMemory` an allocation failed.
    fn give(&self, run: &mut Run<'b>, into: Into, value: Val<'b>) -> Result<(), OutOfMemory>
        ensures { OnOk result (state_of self.now run.new ≡ given (ids_of into) (shown value.entry) (state_of self.now run.old)) }
    {
        match into {
            Into::Nothing => Ok(()),
            Into::One(identifier) => self.set(run, identifier, value),
            Into::Two(first, second) => {
                self.set(run, first, value)?;
                self.set(run, second, value)
            }
        }
    }

    /// Gives a place the first of the pieces that are left, and answers those behind it. On `OutOfMemory` an allocation failed.
    pub fn take(
        &self,
        run: &mut Run<'b>,
        place: Place,
        left: &'b [Value],
    ) -> Result<&'b [Value], OutOfMemory>
        ensures { IfOk result (λ rest. took rest.now (state_of self.now run.new)
            ≡ takes (place.identifier.0 ∷ []) (took left.entry.now (state_of self.now run.old))) }
    {
        match left.split_first() {
            Some((value, rest)) => {
                run.progress.assign(place.identifier.0, Val::of(value))?;
                Ok(rest)
            }
            None => {
                run.progress.assign(place.identifier.0, Val::Undefined)?;
                Ok(left)
            }
        }
    }

    /// As `take`, for an element of a pattern. On `OutOfMemory` an allocation failed.
    fn take_element(
        &self,
        run: &mut Run<'b>,
        element: ArrayElement,
        left: &'b [Value],
    ) -> Result<&'b [Value], OutOfMemory>
        ensures { IfOk result (λ rest. took rest.now (state_of self.now run.new)
            ≡ takes (targets (operands (element_pieces element))) (took left.entry.now (state_of self.now run.old))) }
    {
        match element {
            ArrayElement::Place(place) => self.take(run, place, left),
            ArrayElement::Spread(place) => self.take(run, place, left),
            ArrayElement::Hole => Ok(left),
        }
    }

    /// As `take`, for a property of a pattern. On `OutOfMemory` an allocation failed.
    fn take_property(
        &self,
        run: &mut Run<'b>,
        property: &ObjectPatternProperty,
        left: &'b [Value],
    ) -> Result<&'b [Value], OutOfMemory>
        ensures { IfOk result (λ rest. took rest.now (state_of self.now run.new)
            ≡ takes (targets (operands (taken_pieces property.now))) (took left.entry.now (state_of self.now run.old))) }
    {
        match property {
            ObjectPatternProperty::Property { key: _, place } => self.take(run, *place, left),
            ObjectPatternProperty::Spread(place) => self.take(run, *place, left),
        }
    }

    /// Gives the elements of a pattern their pieces. On `OutOfMemory` an allocation failed.
    #[tactic(auto, using(crate::proofs::Taken::element_takes))]
    fn take_elements(
        &self,
        run: &mut Run<'b>,
        items: &[ArrayElement],
        pieces: &'b [Value],
    ) -> Result<&'b [Value], OutOfMemory>
        ensures { IfOk result (λ rest. took rest.now (state_of self.now run.new)
            ≡ takes (targets (operands (gathered element_pieces items.now))) (took pieces.entry.now (state_of self.now run.old))) }
    {
        let mut left = pieces;
        'items: for item in items {
            left = self.take_element(run, *item, left)?;
        }
        Ok(left)
    }

    /// Gives the properties of a pattern their pieces. On `OutOfMemory` an allocation failed.
    #[tactic(auto, using(crate::proofs::Taken::property_takes))]
    fn take_properties(
        &self,
        run: &mut Run<'b>,
        items: &[ObjectPatternProperty],
        pieces: &'b [Value],
    ) -> Result<&'b [Value], OutOfMemory>
        ensures { IfOk result (λ rest. took rest.now (state_of self.now run.new)
            ≡ takes (targets (operands (gathered taken_pieces items.now))) (took pieces.entry.now (state_of self.now run.old))) }
    {
        let mut left = pieces;
        'items: for item in items {
            left = self.take_property(run, item, left)?;
        }
        Ok(left)
    }

    /// Gives the places of a pattern their pieces. On `OutOfMemory` an allocation failed.
    fn take_pattern(
        &self,
        run: &mut Run<'b>,
        pattern: &Pattern,
        pieces: &'b [Value],
    ) -> Result<&'b [Value], OutOfMemory>
        ensures { IfOk result (λ rest. took rest.now (state_of self.now run.new)
            ≡ takes (targets (operands (pattern_pieces pattern.now))) (took pieces.entry.now (state_of self.now run.old))) }
    {
        match pattern {
            Pattern::Array(items) => self.take_elements(run, items.as_slice(), pieces),
            Pattern::Object(properties) => self.take_properties(run, properties.as_slice(), pieces),
        }
    }

    /// Gives identifiers the values of an answer. On `OutOfMemory` an allocation failed.
    fn land(
        &self,
        run: &mut Run<'b>,
        landing: Landing<'b>,
        answer: &'b Answer,
    ) -> Result<(), OutOfMemory>
        ensures { OnOk result (state_of self.now run.new ≡ lands (landing_of landing.entry) answer.entry.now (state_of self.now run.old)) }
    {
        match landing {
            Landing::Gives(into) => self.give(run, into, Val::of(&answer.value)),
            Landing::Updates(variable, target, value) => {
                self.set(run, variable, Val::of(&answer.value))?;
                self.set(run, target, value)
            }
            Landing::Keeps(target, value) => self.set(run, target, value),
            Landing::Takes(pattern, target, value) => {
                self.take_pattern(run, pattern, answer.pieces.as_slice())?;
                self.set(run, target, value)
            }
        }
    }

    /// Asks the event of an instruction at an index of a block. On `OutOfMemory` an allocation failed.
    fn fire(
        &self,
        run: &mut Run<'b>,
        event: Event,
        landing: Landing<'b>,
        block: BlockId,
        index: usize,
    ) -> Result<Goes<'b>, OutOfMemory>
        ensures { IfOk result (λ g. (ahead : Ahead) → came ahead g (state_of self.now run.new)
            ≡ fires ahead event (landing_of landing.entry) block.0 index (state_of self.now run.old)) }
    {
        match run.progress.ask(event)? {
            Some(answer) => match answer.kind {
                AnswerKind::Yes => {
                    self.land(run, landing, answer)?;
                    Ok(Goes::Loudly(block, index_behind(index)?))
                }
                AnswerKind::No => {
                    self.land(run, landing, answer)?;
                    Ok(Goes::Loudly(block, index_behind(index)?))
                }
                AnswerKind::Throw => self.throw(run, block, Val::of(&answer.value)),
            },
            None => Ok(Goes::Waiting),
        }
    }

    /// Asks for the iterator of a loop that has none. On `OutOfMemory` an allocation failed.
    fn open_new(
        &self,
        run: &mut Run<'b>,
        event: Event,
        fallthrough: BlockId,
        target: IdentifierId,
        block: BlockId,
        index: usize,
    ) -> Result<Goes<'b>, OutOfMemory>
        ensures { IfOk result (λ g. (ahead : Ahead) → came ahead g (state_of self.now run.new)
            ≡ opens_by ahead (Some (Iterates fallthrough false)) event target.0 block.0 index (state_of self.now run.old)) }
    {
        self.note(run, block, Note::Iterates(fallthrough, true))?;
        self.fire(run, event, Landing::Gives(Into::One(target)), block, index)
    }

    /// Asks for an iterator, if the loop has none. On `OutOfMemory` an allocation failed.
    fn open(
        &self,
        run: &mut Run<'b>,
        event: Event,
        target: IdentifierId,
        block: BlockId,
        index: usize,
    ) -> Result<Goes<'b>, OutOfMemory>
        ensures { IfOk result (λ g. (ahead : Ahead) → came ahead g (state_of self.now run.new)
            ≡ executes ahead (acts.Opens event target.0) block.0 index (state_of self.now run.old)) }
    {
        match run.notes.get(block) {
            Some(Note::Iterates(_, true)) => Ok(Goes::Silently(block, index_behind(index)?)),
            Some(Note::Iterates(fallthrough, false)) => {
                self.open_new(run, event, fallthrough, target, block, index)
            }
            Some(Note::Connects(_)) => Ok(Goes::Waiting),
            Some(Note::Chooses) => Ok(Goes::Waiting),
            Some(Note::Chains(_)) => Ok(Goes::Waiting),
            Some(Note::Loops(_)) => Ok(Goes::Waiting),
            Some(Note::Enumerates(_)) => Ok(Goes::Waiting),
            Some(Note::Catches(_)) => Ok(Goes::Waiting),
            Some(Note::Passes) => Ok(Goes::Waiting),
            None => Ok(Goes::Waiting),
        }
    }

    /// Asks for the next value of a loop, behind which the block `behind` comes. On `OutOfMemory` an allocation failed.
    fn step(
        &self,
        run: &mut Run<'b>,
        event: Event,
        behind: BlockId,
        target: IdentifierId,
        block: BlockId,
        index: usize,
    ) -> Result<Goes<'b>, OutOfMemory>
        ensures { IfOk result (λ g. (ahead : Ahead) → came ahead g (state_of self.now run.new)
            ≡ steps_to ahead (Some behind) event target.0 block.0 index (state_of self.now run.old)) }
    {
        match run.progress.ask(event)? {
            Some(answer) => match answer.kind {
                AnswerKind::Yes => {
                    self.set(run, target, Val::of(&answer.value))?;
                    Ok(Goes::Loudly(block, index_behind(index)?))
                }
                AnswerKind::No => Ok(Goes::Loudly(behind, 0)),
                AnswerKind::Throw => self.throw(run, block, Val::of(&answer.value)),
            },
            None => Ok(Goes::Waiting),
        }
    }

    /// Asks for the next value of the loop that is noted at a block. On `OutOfMemory` an allocation failed.
    fn step_at(
        &self,
        run: &mut Run<'b>,
        event: Event,
        target: IdentifierId,
        block: BlockId,
        index: usize,
    ) -> Result<Goes<'b>, OutOfMemory>
        ensures { IfOk result (λ g. (ahead : Ahead) → came ahead g (state_of self.now run.new)
            ≡ executes ahead (acts.Steps event target.0) block.0 index (state_of self.now run.old)) }
    {
        match run.notes.get(block) {
            Some(Note::Loops(behind)) => self.step(run, event, behind, target, block, index),
            Some(Note::Enumerates(behind)) => self.step(run, event, behind, target, block, index),
            Some(Note::Iterates(behind, _)) => self.step(run, event, behind, target, block, index),
            Some(Note::Connects(_)) => Ok(Goes::Waiting),
            Some(Note::Chooses) => Ok(Goes::Waiting),
            Some(Note::Chains(_)) => Ok(Goes::Waiting),
            Some(Note::Catches(_)) => Ok(Goes::Waiting),
            Some(Note::Passes) => Ok(Goes::Waiting),
            None => Ok(Goes::Waiting),
        }
    }

    /// Runs the instruction at an index of a block. On `OutOfMemory` an allocation failed.
    pub fn execute(
        &self,
        run: &mut Run<'b>,
        block: BlockId,
        index: usize,
        instruction: &'b Instruction,
    ) -> Result<Goes<'b>, OutOfMemory>
        ensures { IfOk result (λ g. (ahead : Ahead) → came ahead g (state_of self.now run.new)
            ≡ executes ahead (act instruction.entry.now.lvalue.identifier.0 instruction.entry.now.value
            (state_of self.now run.old).seen.store) block.0 index (state_of self.now run.old)) }
    {
        let target = instruction.lvalue.identifier;
        match self.act(run, target, &instruction.value) {
            Act::Computes(value, into) => {
                self.give(run, into, value)?;
                Ok(Goes::Silently(block, index_behind(index)?))
            }
            Act::Asks(landing) => {
                let event = event(&run.progress, &instruction.value)?;
                self.fire(run, event, landing, block, index)
            }
            Act::Opens => {
                let event = event(&run.progress, &instruction.value)?;
                self.open(run, event, target, block, index)
            }
            Act::Steps => {
                let event = event(&run.progress, &instruction.value)?;
                self.step_at(run, event, target, block, index)
            }
        }
    }
}
