//! The world of a script in the middle of a run, with what its names stand for.
ghost use Rattle.std.specs.Prelude.{◌≡◌, ◌<◌, ◌⊎◌, [], IfOk, MatchResult};

use crate::containers::Lists;
use crate::holding::{AnyCell, AnyOwner};
use crate::log::Log;
use crate::name_table::NameTable;
use crate::participants::{NamedGuard, NamedParticipant};
use sdd_core::{Limits, Refused};
use sdd_script_model::Val;
use sdd_script_text::{Answer, Names, Reply};
use sdd_space::PrivateCollector;
use sdd_world::World;
use std::alloc::Global;
use std::marker::Model;

/// A world, and what a script holds of it.
pub struct Environment {
    pub world: World<Val>,
    pub places: NameTable<NamedParticipant>,
    pub guards: NameTable<NamedGuard>,
    pub owners: NameTable<AnyOwner>,
    pub cells: NameTable<AnyCell>,
    pub collectors: NameTable<PrivateCollector<Val>>,
    pub lists: Lists,
    pub log: Log,
}

/// A script in the middle of a run.
pub struct Interpreter {
    pub environment: Environment,
}

impl Model for Interpreter {
    ghost use Rattle.std.specs.Coded.{codes};
    ghost use Rattle.sdd_lists.specs.contracts.linked_entry.LinkedEntry as entry;
    ghost use Rattle.sdd_script_model.specs.contracts.val.Body as body;
    ghost use Rattle.sdd_script_model.specs.ScriptState.{ScriptState};
    ghost use Rattle.sdd_interpreter.specs.Interpreter.{state_of, IsTied};

    ghost Value = { ScriptState };

    ghost coded = { Prim.hlevel (codes, (entry.the_row body.the_row).coded) };

    ghost view = { λ interpreter. state_of interpreter.environment };

    ghost invariant = { λ interpreter. IsTied interpreter.environment };
}

impl Interpreter {
    ghost use Rattle.sdd_core.specs.Limits.{AreInRange};
    ghost use Rattle.sdd_script_model.specs.ScriptState.{IsStart};

    /// A new world, of which nothing has a name.
    pub fn new(alloc: Global, limits: Limits) -> Result<Interpreter, Refused>
        ensures start { IfOk result (IsStart limits) }
        ensures limits { MatchResult result (λ _. AreInRange limits)
            (λ refused. ((refused ≡ Refused.BadLimits) × ¬ (AreInRange limits)) ⊎ ((refused ≡ Refused.NoMemory) × AreInRange limits)) }
    {
        if !limits.are_in_range() {
            return Err(Refused::BadLimits);
        }
        let names = vec![in alloc; None; limits.slots as usize]?;
        let dates = vec![in alloc; 0; limits.slots as usize]?;
        let deferred = vec![in alloc; 0; limits.jobs as usize]?;
        let job_dates = vec![in alloc; 0; limits.jobs as usize]?;
        let world = World::new(alloc, limits)?;
        Ok(Interpreter {
            environment: Environment {
                world,
                places: NameTable::new(alloc),
                guards: NameTable::new(alloc),
                owners: NameTable::new(alloc),
                cells: NameTable::new(alloc),
                collectors: NameTable::new(alloc),
                lists: Lists {
                    queues: NameTable::new(alloc),
                    stacks: NameTable::new(alloc),
                    bags: NameTable::new(alloc),
                },
                log: Log {
                    alloc,
                    moment: 0,
                    slots: Vec::new(alloc),
                    names,
                    dates,
                    jobs: 0,
                    deferred,
                    job_dates,
                },
            },
        })
    }

    /// The world.
    pub fn world(&self) -> &World<Val>
        ensures { result.now ≡ self.now.world }
    {
        &self.environment.world
    }

    /// An answer without endings.
    pub fn answer(&self, reply: Reply) -> Answer
        ensures { result ≡ record { reply = reply; reclaimed = []; ran = [] } }
    {
        Answer {
            reply,
            reclaimed: Names::new(self.environment.log.alloc),
            ran: Names::new(self.environment.log.alloc),
        }
    }
}
