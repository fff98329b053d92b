//! A participant as the generic calls of collectors have it.

use crate::local::Local;
use sdd_core::Refused;
use sdd_participants::Job;
use sdd_rights::{RawRight, Right, StandingKind};
use sdd_space::{Collectors, Item};

impl<T: Item<T>, J: Job> Collectors<T> for Local<'_, T, J> {
    fn collect(&mut self, collector: &RawRight, right: Right, kind: StandingKind) -> bool {
        self.giver.core.collect(collector, right, kind)
    }

    fn close_collector(&mut self, collector: RawRight) -> Result<(), (RawRight, Refused)> {
        self.giver.close_collector(collector)
    }
}
