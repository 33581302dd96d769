//! Moves that run a closure over the builder, between an opening and a closing move. Each is generic over what its closure
//! promises.

ghost use Rattle.std.specs.Prelude.{◌≡◌, ◌+◌, ◌<◌, ◌^◌};
ghost use Rattle.std.specs.Fn.{FnOnceTakesAtMut, FnOnceReturnsAtMut};
ghost use Rattle.rl_builder.specs.Builder.{state_of, entered, new_block, reserved, with_handler, with_scope};
ghost use Rattle.rl_builder.specs.Closures.{KeepsBlock, KeepsFrom, KeepsStacks, Outcome, ReturnsWith, RunsInBlock, RunsInFreshBlock, RunsInScope, RunsUnderHandler, TakesBlock, TakesFrom, TakesWith};
ghost use Rattle.rl_builder.specs.declared.jumps.JumpScope.TheVariants as scopes;

use crate::blocks::WipBlock;
use crate::builder::{Over, Work};
use crate::jumps::JumpScope;
use crate::unit_tables::ReadsUnit;
use rl_base::ids::BlockId;
use rl_base::stop::Stop;
use rl_base::text::Text;
use rl_hir::function::BlockKind;
use rl_hir::terminal::Terminal;

/// Calls the closure.
fn call_with<V, T, F: FnOnce(&mut V) -> T>(x: &mut V, f: F) -> T
    requires { FnOnceTakesAtMut F.FnOnce f x.old }
    ensures { FnOnceReturnsAtMut F.FnOnce f x.old result x.new }
{
    f(x)
}

/// Calls the closure with a value.
fn call_with_value<V, A, T, F: FnOnce(&mut V, A) -> T>(x: &mut V, a: A, f: F) -> T
    requires { TakesWith F.FnOnce f x.old a }
    ensures { ReturnsWith F.FnOnce f x.old a result x.new }
{
    f(x, a)
}

impl<'e, U: ReadsUnit, B> Over<'e, Work<U, B>> {
    /// Runs the closure in the block, which gets the terminal that it answers, and goes on in the block that was current
    /// (`tryEnterReserved`). On an error of the closure, of whatever cause, all is as it left it: its block is current. On
    /// `OutOfMemory` behind a closure that succeeded, no memory was given for its block: that is lost, and the one that was
    /// current before is current again.
    pub fn try_enter_reserved<F: FnOnce(&mut Self) -> Result<Terminal, Stop>>(
        &mut self,
        block: WipBlock,
        f: F,
    ) -> Result<(), Stop>
        requires callable { TakesFrom U.tables F.FnOnce f self.old (entered (state_of U.tables self.old) block) }
        requires keeps { KeepsFrom U.tables F.FnOnce f self.old (entered (state_of U.tables self.old) block) }
        ensures kept { KeepsStacks self.old result self.new }
        ensures outcome { RunsInBlock U.tables F.FnOnce f self.old (entered (state_of U.tables self.old) block) result self.new }
    {
        let outer = self.enter(block);
        match call_with(self, f) {
            Ok(terminal) => {
                self.leave(outer, terminal)?;
                Ok(())
            }
            Err(stop) => Err(stop),
        }
    }

    /// As `try_enter_reserved`, in a fresh block of the kind `kind`, whose id the closure is given and the call returns
    /// (`tryEnter`).
    pub fn try_enter<F: FnOnce(&mut Self, BlockId) -> Result<Terminal, Stop>>(
        &mut self,
        kind: BlockKind,
        f: F,
    ) -> Result<BlockId, Stop>
        requires room { self.old.env.now.next_block + 1 < 2 ^ 32 }
        requires callable { TakesBlock U.tables F.FnOnce f self.old (entered (reserved (state_of U.tables self.old)) (new_block self.old.env.now.next_block kind)) (record { 0 = self.old.env.now.next_block }) }
        requires keeps { KeepsBlock U.tables F.FnOnce f self.old (entered (reserved (state_of U.tables self.old)) (new_block self.old.env.now.next_block kind)) (record { 0 = self.old.env.now.next_block }) }
        ensures kept { KeepsStacks self.old result self.new }
        ensures outcome { RunsInFreshBlock U.tables F.FnOnce f self.old (entered (reserved (state_of U.tables self.old)) (new_block self.old.env.now.next_block kind)) (record { 0 = self.old.env.now.next_block }) result self.new }
    {
        let block = self.reserve(kind)?;
        let id = block.id;
        let outer = self.enter(block);
        match call_with_value(self, id, f) {
            Ok(terminal) => {
                self.leave(outer, terminal)?;
                Ok(id)
            }
            Err(stop) => Err(stop),
        }
    }

    /// Runs the closure under a handler: instructions that it appends throw to the block (`tryEnterTryCatch`). The handler is
    /// closed behind it, also on its error, of whatever cause. The result is that of the closure; or it is `OutOfMemory`,
    /// where no memory was given for the handler: then the closure was not called, and nothing changed.
    pub fn try_enter_try_catch<F: FnOnce(&mut Self) -> Result<(), Stop>>(
        &mut self,
        handler: BlockId,
        f: F,
    ) -> Result<(), Stop>
        requires callable { TakesFrom U.tables F.FnOnce f self.old (with_handler (state_of U.tables self.old) handler) }
        requires keeps { KeepsFrom U.tables F.FnOnce f self.old (with_handler (state_of U.tables self.old) handler) }
        ensures kept { KeepsStacks self.old result self.new }
        ensures outcome { Outcome U.tables (RunsUnderHandler U.tables F.FnOnce f self.old handler result self.new) self.old result self.new }
    {
        self.open_handler(handler)?;
        let result = call_with(self, f);
        self.close_handler();
        result
    }

    /// Runs the closure in the scope, which is closed behind it; on its error, of whatever cause, the scope stays, with what
    /// the closure left above it. The result is that of the closure; or it is `OutOfMemory`, where no memory was given for
    /// the scope: then the closure was not called, and nothing changed.
    fn in_scope<T, F: FnOnce(&mut Self) -> Result<T, Stop>>(
        &mut self,
        scope: JumpScope,
        f: F,
    ) -> Result<T, Stop>
        requires callable { TakesFrom U.tables F.FnOnce f self.old (with_scope (state_of U.tables self.old) scope) }
        requires keeps { KeepsFrom U.tables F.FnOnce f self.old (with_scope (state_of U.tables self.old) scope) }
        ensures kept { KeepsStacks self.old result self.new }
        ensures outcome { Outcome U.tables (RunsInScope U.tables F.FnOnce f self.old scope result self.new) self.old result self.new }
    {
        self.open_scope(scope)?;
        match call_with(self, f) {
            Ok(value) => {
                self.close_scope();
                Ok(value)
            }
            Err(stop) => Err(stop),
        }
    }

    /// Runs the closure in the scope of a loop (`loop`). The scope is closed behind it; on its error, of whatever cause, the
    /// scope stays, with what the closure left above it. The result is that of the closure; or it is `OutOfMemory`, where no
    /// memory was given for the scope: then the closure was not called, and nothing changed.
    pub fn loop_scope<T, F: FnOnce(&mut Self) -> Result<T, Stop>>(
        &mut self,
        label: Option<Text>,
        continue_block: BlockId,
        break_block: BlockId,
        f: F,
    ) -> Result<T, Stop>
        requires callable { TakesFrom U.tables F.FnOnce f self.old (with_scope (state_of U.tables self.old) (scopes.Loop label continue_block break_block)) }
        requires keeps { KeepsFrom U.tables F.FnOnce f self.old (with_scope (state_of U.tables self.old) (scopes.Loop label continue_block break_block)) }
        ensures kept { KeepsStacks self.old result self.new }
        ensures outcome { Outcome U.tables (RunsInScope U.tables F.FnOnce f self.old (scopes.Loop label continue_block break_block) result self.new) self.old result self.new }
    {
        let scope = JumpScope::Loop {
            label,
            continue_block,
            break_block,
        };
        self.in_scope(scope, f)
    }

    /// Runs the closure in the scope of a labelled statement that is no loop (`label`). The scope is closed behind it; on its
    /// error, of whatever cause, the scope stays, with what the closure left above it. The result is that of the closure; or
    /// it is `OutOfMemory`, where no memory was given for the scope: then the closure was not called, and nothing changed.
    pub fn label_scope<T, F: FnOnce(&mut Self) -> Result<T, Stop>>(
        &mut self,
        label: Text,
        break_block: BlockId,
        f: F,
    ) -> Result<T, Stop>
        requires callable { TakesFrom U.tables F.FnOnce f self.old (with_scope (state_of U.tables self.old) (scopes.Label label break_block)) }
        requires keeps { KeepsFrom U.tables F.FnOnce f self.old (with_scope (state_of U.tables self.old) (scopes.Label label break_block)) }
        ensures kept { KeepsStacks self.old result self.new }
        ensures outcome { Outcome U.tables (RunsInScope U.tables F.FnOnce f self.old (scopes.Label label break_block) result self.new) self.old result self.new }
    {
        self.in_scope(JumpScope::Label { label, break_block }, f)
    }

    /// Runs the closure in the scope of a `switch` (`switch`). The scope is closed behind it; on its error, of whatever
    /// cause, the scope stays, with what the closure left above it. The result is that of the closure; or it is
    /// `OutOfMemory`, where no memory was given for the scope: then the closure was not called, and nothing changed.
    pub fn switch_scope<T, F: FnOnce(&mut Self) -> Result<T, Stop>>(
        &mut self,
        label: Option<Text>,
        break_block: BlockId,
        f: F,
    ) -> Result<T, Stop>
        requires callable { TakesFrom U.tables F.FnOnce f self.old (with_scope (state_of U.tables self.old) (scopes.Switch label break_block)) }
        requires keeps { KeepsFrom U.tables F.FnOnce f self.old (with_scope (state_of U.tables self.old) (scopes.Switch label break_block)) }
        ensures kept { KeepsStacks self.old result self.new }
        ensures outcome { Outcome U.tables (RunsInScope U.tables F.FnOnce f self.old (scopes.Switch label break_block) result self.new) self.old result self.new }
    {
        self.in_scope(JumpScope::Switch { label, break_block }, f)
    }
}
