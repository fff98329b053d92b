//! What participants do with stacks.
ghost use Rattle.std.specs.Prelude.{◌≡◌, IfOk, List, MatchResult};
ghost use Rattle.sdd_core.specs.declared.refused.Refused.TheVariants as refused;
ghost use Rattle.sdd_participants.specs.Slab.{IsEmptyAt, IsFull};
ghost use Rattle.sdd_space.specs.Guard.{reader_of};
ghost use Rattle.sdd_world_model.specs.WorldChanges.{nulled};
ghost use Rattle.sdd_lists.specs.Lists.{Entry};
ghost use Rattle.sdd_lists.specs.Stack.{cell_in, home_in, poured};
ghost use Rattle.sdd_script_model.specs.Listed.{Begins};
ghost use Rattle.sdd_script_model.specs.Stacks.{stack_closed};
ghost use Rattle.sdd_script_model.specs.Val.{Val};

use crate::commands::step::{CellCommand, ListCommand};
use sdd_core::Refused;
use sdd_lists::Stack;
use sdd_script_model::{Body, Val};
use sdd_space::{Cells, Guard, Items, LookThrough, Several, SharedItems};

/// A new stack, without entries.
pub struct MakeStack;

impl CellCommand for MakeStack {
    type Out = Result<Stack<Body>, Refused>;

    ghost asks = { λ _ _ _ _. Unit {0} };

    ghost does = { λ _ home _ before result after. (IfOk result (λ stack. home_in stack ≡ home.cells))
        × MatchResult result
        (λ stack. IsEmptyAt before.cells (cell_in stack) × (after ≡ nulled before (cell_in stack)))
        (λ e. IsFull before.cells × (e ≡ refused.NoCell) × (after ≡ before)) };

    fn done<S: Cells<Val>>(self, s: &mut S) -> Result<Stack<Body>, Refused> {
        let MakeStack = self;
        Stack::new(s)
    }
}

/// All entries of a stack go to a new one.
pub struct PourStack<'a> {
    pub stack: &'a Stack<Body>,
    /// One of the participant's.
    pub guard: &'a Guard,
}

impl ListCommand for PourStack<'_> {
    type Out = Result<Stack<Body>, Refused>;

    ghost asks = { λ step home _ _. home_in step.stack.now ≡ home.cells };

    ghost does = { λ step home _ before result after. (IfOk result (λ all. home_in all ≡ home.cells))
        × ((es : List (Entry Val)) → Begins before (cell_in step.stack.now) es → MatchResult result
        (λ all. IsEmptyAt before.cells (cell_in all) × (after ≡ poured before (cell_in step.stack.now) (cell_in all) es))
        (λ e. IsFull before.cells × (e ≡ refused.NoCell) × (after ≡ before))) };

    fn done<S: Items<Val> + Several<Val> + SharedItems<Val> + Cells<Val> + LookThrough<Val>>(
        self,
        s: &mut S,
    ) -> Result<Stack<Body>, Refused> {
        let PourStack { stack, guard } = self;
        stack.pop_all(guard, s)
    }
}

/// A stack is closed, and its entries are let go of.
pub struct CloseStack<'a> {
    pub stack: Stack<Body>,
    /// One of the participant's.
    pub guard: &'a Guard,
}

impl ListCommand for CloseStack<'_> {
    type Out = ();

    ghost asks = { λ step home reader _. (home_in step.stack ≡ home.cells) × (reader_of step.guard.now ≡ reader) };

    ghost does = { λ step _ place before _ after. (es : List (Entry Val)) → Begins before (cell_in step.stack) es →
        after ≡ stack_closed before place (cell_in step.stack) es };

    fn done<S: Items<Val> + Several<Val> + SharedItems<Val> + Cells<Val> + LookThrough<Val>>(
        self,
        s: &mut S,
    ) {
        let CloseStack { stack, guard } = self;
        stack.close(guard, s);
    }
}
