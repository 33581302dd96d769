//! The ends of blocks.

ghost use Rattle.std.specs.Prelude.{◌≡◌, ◌∷◌, IfOk, Some, false};
ghost use Rattle.std.specs.Option.{option_map};
ghost use Rattle.rl_machine.specs.Ends.{Chooses, Compares, Connects, Reads, Tests, bound, leaving};
ghost use Rattle.rl_machine.specs.Machine.{default_case};
ghost use Rattle.rl_graph_steps.specs.Notes.{note_at};
ghost use Rattle.rl_graph_steps.specs.States.{Ahead, branches, came, cases_of, compared_by, compares, comparing};
ghost use Rattle.rl_graph_steps.specs.States.{default_goes, enters, leaves_by, noted_in, state_of, test_of};

use crate::machine::{Goes, Machine, Run};
use crate::note::Note;
use rl_base::error::OutOfMemory;
use rl_base::ids::{BlockId, IdentifierId};
use rl_base::list::List;
use rl_base::operator::LogicalOperator;
use rl_hir::instruction::Place;
use rl_hir::terminal::{Case, TerminalKind};
use rl_machine::trace::{AnswerKind, Event};
use rl_trace::event;

/// The outcome of one case of a `switch`.
#[derive(Clone, Copy)]
pub enum Hit<'b> {
    /// The run goes on with the cases behind it; true if a test was asked so far.
    Missed(bool),
    /// The run goes on so.
    Ends(Goes<'b>),
}

/// The block of the first case without a test.
fn default_case(cases: &[Case]) -> Option<BlockId>
    ensures { result ≡ default_case cases.now }
{
    'cases: for case in cases {
        if case.test.is_none() {
            return Some(case.block);
        }
    }
    None
}

/// The identifier of a place, if there is one.
fn bound(place: Option<Place>) -> Option<IdentifierId>
    ensures { option_map (λ i. i.0) result ≡ bound place }
{
    match place {
        Some(place) => Some(place.identifier),
        None => None,
    }
}

/// The cases of a `switch`. `None` of another terminal.
fn cases_of(kind: &TerminalKind) -> Option<&List<Case>>
    ensures { option_map (λ cases. cases.now) result ≡ cases_of kind.entry.now }
{
    match kind {
        TerminalKind::Switch {
            test: _,
            cases,
            fallthrough: _,
        } => Some(cases),
        TerminalKind::Goto { .. } => None,
        TerminalKind::If { .. } => None,
        TerminalKind::Branch { .. } => None,
        TerminalKind::Logical { .. } => None,
        TerminalKind::Ternary { .. } => None,
        TerminalKind::Optional { .. } => None,
        TerminalKind::Sequence { .. } => None,
        TerminalKind::Label { .. } => None,
        TerminalKind::Try { .. } => None,
        TerminalKind::While { .. } => None,
        TerminalKind::DoWhile { .. } => None,
        TerminalKind::For { .. } => None,
        TerminalKind::ForIn { .. } => None,
        TerminalKind::ForOf { .. } => None,
        TerminalKind::MaybeThrow { .. } => None,
        TerminalKind::Return { .. } => None,
        TerminalKind::Throw { .. } => None,
        TerminalKind::Unreachable => None,
    }
}

impl<'b> Machine<'b> {
    /// Goes to one of two blocks, by the operator of a logical expression. On `OutOfMemory` an allocation failed.
    fn connect(
        &self,
        run: &mut Run<'b>,
        operator: LogicalOperator,
        test: IdentifierId,
        consequent: BlockId,
        alternate: BlockId,
    ) -> Result<Goes<'b>, OutOfMemory>
        ensures { IfOk result (λ g. (ahead : Ahead) → came ahead g (state_of self.now run.new)
            ≡ branches ahead (Some (Connects operator)) test.0 consequent alternate (state_of self.now run.old)) }
    {
        let value = self.read(run, test);
        match operator {
            LogicalOperator::And => self.choose_truthy(run, value, alternate, consequent),
            LogicalOperator::Or => self.choose_truthy(run, value, consequent, alternate),
            LogicalOperator::Coalesce => self.choose_nullish(run, value, alternate, consequent),
        }
    }

    /// Goes to one of two blocks, by the note at the fallthrough. On `OutOfMemory` an allocation failed.
    fn branch(
        &self,
        run: &mut Run<'b>,
        note: Option<Note>,
        test: IdentifierId,
        consequent: BlockId,
        alternate: BlockId,
    ) -> Result<Goes<'b>, OutOfMemory>
        ensures { IfOk result (λ g. (ahead : Ahead) → came ahead g (state_of self.now run.new)
            ≡ branches ahead (note_at (Some note)) test.0 consequent alternate (state_of self.now run.old)) }
    {
        let value = self.read(run, test);
        match note {
            Some(Note::Connects(operator)) => self.connect(
                run, operator, test, consequent, alternate,
            ),
            Some(Note::Chooses) => self.choose_truthy(run, value, consequent, alternate),
            Some(Note::Chains(true)) => self.choose_nullish(run, value, alternate, consequent),
            Some(Note::Chains(false)) => Ok(Goes::Silently(consequent, 0)),
            Some(Note::Loops(_)) => self.choose_truthy(run, value, consequent, alternate),
            Some(Note::Enumerates(_)) => Ok(Goes::Silently(consequent, 0)),
            Some(Note::Iterates(_, _)) => Ok(Goes::Silently(consequent, 0)),
            Some(Note::Catches(_)) => Ok(Goes::Waiting),
            Some(Note::Passes) => Ok(Goes::Waiting),
            None => Ok(Goes::Waiting),
        }
    }

    /// The comparison of a value with that of a case. On `OutOfMemory` an allocation failed.
    fn case_event(
        &self,
        run: &Run<'b>,
        value: IdentifierId,
        test: Place,
    ) -> Result<Event, OutOfMemory>
        ensures { IfOk result (λ event. event ≡ test_of (state_of self.now run.now) value.0 test) }
    {
        let left = self.read(run, value);
        let right = self.read(run, test.identifier);
        event::matches(run.progress.alloc, left, right)
    }

    /// Compares a value with that of a case, in front of the cases `left`. `asked` is true if a test was asked before. On `OutOfMemory`
    /// an allocation failed.
    fn compare_one(
        &self,
        run: &mut Run<'b>,
        case: Case,
        left: &[Case],
        other: Option<BlockId>,
        value: IdentifierId,
        asked: bool,
    ) -> Result<Hit<'b>, OutOfMemory>
        ensures { IfOk result (λ hit. (ahead : Ahead) → compared_by ahead hit left.now other value.0 (state_of self.now run.new)
            ≡ compares ahead (case ∷ left.now) other value.0 asked (state_of self.now run.old)) }
    {
        match case.test {
            Some(test) => {
                let event = self.case_event(run, value, test)?;
                match run.progress.ask(event)? {
                    Some(answer) => match answer.kind {
                        AnswerKind::Yes => Ok(Hit::Ends(Goes::Loudly(case.block, 0))),
                        AnswerKind::No => Ok(Hit::Missed(true)),
                        AnswerKind::Throw => Ok(Hit::Missed(true)),
                    },
                    None => Ok(Hit::Ends(Goes::Waiting)),
                }
            }
            None => Ok(Hit::Missed(asked)),
        }
    }

    /// Goes to the block behind all cases, silently where no test was asked.
    fn default(&self, other: Option<BlockId>, asked: bool) -> Goes<'b>
        ensures { result ≡ default_goes other asked }
    {
        match other {
            Some(block) => {
                if asked {
                    return Goes::Loudly(block, 0);
                }
                Goes::Silently(block, 0)
            }
            None => Goes::Waiting,
        }
    }

    /// Compares a value with those of the cases, in order, and goes to the block of the first that matches, else to `other`. On
    /// `OutOfMemory` an allocation failed.
    fn compare(
        &self,
        run: &mut Run<'b>,
        cases: &[Case],
        other: Option<BlockId>,
        value: IdentifierId,
    ) -> Result<Goes<'b>, OutOfMemory>
        ensures { IfOk result (λ g. (ahead : Ahead) → came ahead g (state_of self.now run.new)
            ≡ compares ahead cases.now other value.0 false (state_of self.now run.old)) }
    {
        let mut asked = false;
        let mut left = cases;
        'cases: while let Some((case, rest)) = left.split_first() {
            match self.compare_one(run, *case, rest, other, value, asked)? {
                Hit::Missed(now) => {
                    asked = now;
                    left = rest;
                }
                Hit::Ends(goes) => return Ok(goes),
            }
        }
        Ok(self.default(other, asked))
    }

    /// Notes a construct at two blocks, and goes to `block`. On `OutOfMemory` an allocation failed.
    fn enter(
        &self,
        run: &mut Run<'b>,
        block: BlockId,
        first: BlockId,
        second: BlockId,
        note: Note,
    ) -> Result<Goes<'b>, OutOfMemory>
        ensures { IfOk result (λ g. (ahead : Ahead) → came ahead g (state_of self.now run.new) ≡ enters ahead block first second note (state_of self.now run.old)) }
    {
        self.note(run, first, note)?;
        self.note(run, second, note)?;
        Ok(Goes::Silently(block, 0))
    }

    /// As `enter`, for a loop that begins with its initialiser. On `OutOfMemory` an allocation failed.
    fn enter_loop(
        &self,
        run: &mut Run<'b>,
        init: BlockId,
        test: BlockId,
        fallthrough: BlockId,
        note: Note,
    ) -> Result<Goes<'b>, OutOfMemory>
        ensures { IfOk result (λ g. (ahead : Ahead) → came ahead g (state_of self.now run.new)
            ≡ enters ahead init test fallthrough note (noted_in init note (state_of self.now run.old))) }
    {
        self.note(run, init, note)?;
        self.enter(run, init, test, fallthrough, note)
    }

    /// Tests the truth of an identifier's value. On `OutOfMemory` an allocation failed.
    fn choose_at(
        &self,
        run: &mut Run<'b>,
        test: IdentifierId,
        consequent: BlockId,
        alternate: BlockId,
    ) -> Result<Goes<'b>, OutOfMemory>
        ensures { IfOk result (λ g. (ahead : Ahead) → came ahead g (state_of self.now run.new)
            ≡ branches ahead (Some Chooses) test.0 consequent alternate (state_of self.now run.old)) }
    {
        let value = self.read(run, test);
        self.choose_truthy(run, value, consequent, alternate)
    }

    /// Tests a value, and notes an `if` at the fallthrough. On `OutOfMemory` an allocation failed.
    fn test(
        &self,
        run: &mut Run<'b>,
        test: IdentifierId,
        consequent: BlockId,
        alternate: BlockId,
        fallthrough: BlockId,
    ) -> Result<Goes<'b>, OutOfMemory>
        ensures { IfOk result (λ g. (ahead : Ahead) → came ahead g (state_of self.now run.new)
            ≡ leaves_by ahead (Tests test.0 consequent alternate fallthrough) (state_of self.now run.old)) }
    {
        self.note(run, fallthrough, Note::Passes)?;
        self.choose_at(run, test, consequent, alternate)
    }

    /// Compares a value with those of the cases, and notes a `switch` at the fallthrough. On `OutOfMemory` an allocation failed.
    fn switch_cases(
        &self,
        run: &mut Run<'b>,
        test: IdentifierId,
        cases: &List<Case>,
        fallthrough: BlockId,
    ) -> Result<Goes<'b>, OutOfMemory>
        ensures { IfOk result (λ g. (ahead : Ahead) → came ahead g (state_of self.now run.new)
            ≡ leaves_by ahead (Compares test.0 cases.now fallthrough) (state_of self.now run.old)) }
    {
        let cases = cases.as_slice();
        let other = default_case(cases);
        self.note(run, fallthrough, Note::Passes)?;
        self.compare(run, cases, other, test)
    }

    /// As `switch_cases`, for the cases of a terminal. On `OutOfMemory` an allocation failed.
    fn switch(
        &self,
        run: &mut Run<'b>,
        test: IdentifierId,
        kind: &TerminalKind,
        fallthrough: BlockId,
    ) -> Result<Goes<'b>, OutOfMemory>
        ensures { IfOk result (λ g. (ahead : Ahead) → came ahead g (state_of self.now run.new)
            ≡ leaves_by ahead (comparing test.0 (cases_of kind.now) fallthrough) (state_of self.now run.old)) }
    {
        match cases_of(kind) {
            Some(cases) => self.switch_cases(run, test, cases, fallthrough),
            None => Ok(Goes::Waiting),
        }
    }

    /// Goes to one of two blocks, by the note at the fallthrough. On `OutOfMemory` an allocation failed.
    fn branch_at(
        &self,
        run: &mut Run<'b>,
        test: IdentifierId,
        consequent: BlockId,
        alternate: BlockId,
        fallthrough: BlockId,
    ) -> Result<Goes<'b>, OutOfMemory>
        ensures { IfOk result (λ g. (ahead : Ahead) → came ahead g (state_of self.now run.new)
            ≡ leaves_by ahead (Reads test.0 consequent alternate fallthrough) (state_of self.now run.old)) }
    {
        let note = run.notes.get(fallthrough);
        self.branch(run, note, test, consequent, alternate)
    }

    /// Runs the end of a block. On `OutOfMemory` an allocation failed.
    pub fn leave(&self, run: &mut Run<'b>, kind: &TerminalKind) -> Result<Goes<'b>, OutOfMemory>
        ensures { IfOk result (λ g. (ahead : Ahead) → came ahead g (state_of self.now run.new) ≡ leaves_by ahead (leaving kind.now) (state_of self.now run.old)) }
    {
        match *kind {
            TerminalKind::Goto { block, variant: _ } => Ok(Goes::Silently(block, 0)),
            TerminalKind::If {
                test,
                consequent,
                alternate,
                fallthrough,
            } => self.test(run, test.identifier, consequent, alternate, fallthrough),
            TerminalKind::Branch {
                test,
                consequent,
                alternate,
                fallthrough,
            } => self.branch_at(run, test.identifier, consequent, alternate, fallthrough),
            TerminalKind::Switch {
                test,
                cases: _,
                fallthrough,
            } => self.switch(run, test.identifier, kind, fallthrough),
            TerminalKind::Logical {
                operator,
                test,
                fallthrough,
            } => self.enter(run, test, test, fallthrough, Note::Connects(operator)),
            TerminalKind::Ternary { test, fallthrough } => {
                self.enter(run, test, test, fallthrough, Note::Chooses)
            }
            TerminalKind::Optional {
                optional,
                test,
                fallthrough,
            } => self.enter(run, test, test, fallthrough, Note::Chains(optional)),
            TerminalKind::Sequence { block, fallthrough } => {
                self.note(run, fallthrough, Note::Passes)?;
                Ok(Goes::Silently(block, 0))
            }
            TerminalKind::Label { block, fallthrough } => {
                self.note(run, fallthrough, Note::Passes)?;
                Ok(Goes::Silently(block, 0))
            }
            TerminalKind::Try {
                block,
                handler_binding,
                handler,
                fallthrough,
            } => self.enter(
                run,
                block,
                handler,
                fallthrough,
                Note::Catches(bound(handler_binding)),
            ),
            TerminalKind::While {
                test,
                loop_block: _,
                fallthrough,
            } => self.enter(run, test, test, fallthrough, Note::Loops(fallthrough)),
            TerminalKind::DoWhile {
                loop_block,
                test,
                fallthrough,
            } => self.enter(run, loop_block, test, fallthrough, Note::Loops(fallthrough)),
            TerminalKind::For {
                init,
                test,
                update: _,
                loop_block: _,
                fallthrough,
            } => self.enter_loop(run, init, test, fallthrough, Note::Loops(fallthrough)),
            TerminalKind::ForIn {
                init,
                loop_block: _,
                fallthrough,
            } => self.enter(run, init, init, fallthrough, Note::Enumerates(fallthrough)),
            TerminalKind::ForOf {
                init,
                test,
                loop_block: _,
                fallthrough,
            } => self.enter_loop(
                run,
                init,
                test,
                fallthrough,
                Note::Iterates(fallthrough, false),
            ),
            TerminalKind::MaybeThrow {
                continuation,
                handler: _,
            } => Ok(Goes::Silently(continuation, 0)),
            TerminalKind::Return { variant, value } => {
                Ok(Goes::Returned(variant, self.read(run, value.identifier)))
            }
            TerminalKind::Throw { value } => Ok(Goes::Threw(self.read(run, value.identifier))),
            TerminalKind::Unreachable => Ok(Goes::Waiting),
        }
    }
}
