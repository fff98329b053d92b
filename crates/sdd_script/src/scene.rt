//! What a script leaves behind.
ghost use Rattle.std.specs.Prelude.{◌≡◌, ◌+◌};

use crate::acts::leaving::close;
use sdd_interpreter::Interpreter;
use sdd_participants::Tally;
use sdd_script_model::Val;
use sdd_world::World;
use std::marker::Model;

/// The world that a script left behind, with what the script still holds.
///
/// A scene must be spent by `close`.
pub struct Scene {
    interpreter: Interpreter,
}

impl Model for Scene {
    ghost use Rattle.std.specs.Coded.{codes};
    ghost use Rattle.sdd_lists.specs.contracts.linked_entry.LinkedEntry as entry;
    ghost use Rattle.sdd_script_model.specs.contracts.val.Body as body;
    ghost use Rattle.sdd_script_model.specs.ScriptState.{ScriptState};

    ghost Value = { ScriptState };

    ghost coded = { Prim.hlevel (codes, (entry.the_row body.the_row).coded) };

    ghost view = { λ scene. scene.interpreter };
}

impl Scene {
    pub(crate) fn of(interpreter: Interpreter) -> Scene
        ensures { result ≡ interpreter }
    {
        Scene { interpreter }
    }

    /// The world.
    pub fn world(&self) -> &World<Val>
        ensures { result.now ≡ self.now.world }
    {
        self.interpreter.world()
    }

    /// Ends the scene: every guard is closed, every owner, collector and cell spent, every item given up that is out as raw, and all that waits is
    /// reclaimed. Answers how many items were made, reclaimed and dropped in place: those that the script made and dropped, and so each other one
    /// that it made is reclaimed.
    ///
    /// It takes no memory and is never refused.
    pub fn close(self) -> Tally
        ensures made { result.made ≡ self.world.tally.made }
        ensures in_place { result.in_place ≡ self.world.tally.in_place }
        ensures balance { result.reclaimed + result.in_place ≡ result.made }
    {
        let Scene { interpreter } = self;
        close(interpreter)
    }
}
