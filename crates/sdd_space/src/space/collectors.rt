ghost use Rattle.std.specs.Prelude.{◌≡◌, ◌≢◌, ◌↔◌, ℕ, IfErr, IfOk, IsTrue, MatchResult, Some, if◌then◌else◌};
ghost use Rattle.sdd_participants.specs.declared.waiting.LimboEntry.TheVariants.{Item};
ghost use Rattle.sdd_participants.specs.EpochState as time;
ghost use Rattle.sdd_world_model.specs.World.{AnyGuardOpen, standing_at};
ghost use Rattle.sdd_space.specs.CallerId.{IsSeated, IsExact};
ghost use Rattle.sdd_world_model.specs.ParticipantChanges.{IsCollected};
ghost use Rattle.sdd_world_model.specs.Collecting.{owner_collected, collector_closed};
ghost use Rattle.sdd_world_model.specs.KnownEpochs.{KnowsOn};
ghost use Rattle.sdd_space.specs.Undisturbed.{Unmoved};
ghost use Rattle.sdd_rights.specs.Right.{number_of, home_of, kind_of, raw_number_of, raw_home_of};
ghost use Rattle.sdd_world_model.specs.Slots.{IsOwnedBy, has_others};
ghost use Rattle.sdd_space.specs.Ptr.{KeepsShown};
ghost use Rattle.sdd_world_model.specs.Out.{IsNullCell};

use crate::item::Item;
use crate::space::caller::Caller;
use sdd_core::Refused;
use sdd_participants::Standing;
use sdd_rights::{RawRight, Right, StandingKind};

/// Items that wait for a collector.
pub trait Collectors<T: Item<T>>: Caller<T> {
    /// An owner of this kind lets its item go, and is told whether it was the last. The last one's item waits with the participant, for a collector.
    fn collect(&mut self, collector: &RawRight, right: Right, kind: StandingKind) -> bool
        requires seated { IsSeated (Self.caller self.old) }
        requires collector { raw_home_of collector.now ≡ (Self.caller self.old).home.cells }
        requires home { home_of right ≡ (Self.caller self.old).home.slots }
        requires kind { kind_of right ≡ kind }
        ensures unmoved { Unmoved Self.caller Self.known Self.shows self.old self.new }
        ensures own { Self.own self.new ≡ (if result then time.awaiting (Item (number_of right)) (Self.own self.old) else Self.own self.old) }
        ensures sole { kind_of right ≡ StandingKind.Owned → IsTrue result }
        ensures owned { IsExact (Self.caller self.old) → IsOwnedBy (kind_of right) (standing_at (Self.world self.old) (number_of right)) }
        ensures last { IsExact (Self.caller self.old) →
            IsTrue result ↔ ¬ (IsTrue (has_others (standing_at (Self.world self.old) (number_of right)))) }
        ensures exact { IsExact (Self.caller self.old) → Self.world self.new ≡
            owner_collected (Self.world self.old) (Self.caller self.old).place (raw_number_of collector.now) (number_of right)
            (standing_at (Self.world self.old) (number_of right)) };

    /// Gives a collector up. What waits for it, with whomever, is reclaimed at once, where no guard is open.
    ///
    /// `GuardOpen` where one is: the collector comes back.
    fn close_collector(&mut self, collector: RawRight) -> Result<(), (RawRight, Refused)>
        requires seated { IsSeated (Self.caller self.old) }
        requires collector { raw_home_of collector ≡ (Self.caller self.old).home.cells }
        ensures caller { Self.caller self.new ≡ Self.caller self.old }
        ensures own { MatchResult result (λ _. IsCollected (Self.own self.old) (Self.own self.new)) (λ _. Self.own self.new ≡ Self.own self.old) }
        ensures known { KnowsOn (Self.known self.old) (Self.known self.new) }
        ensures shut { IfOk result (λ _. (Self.own self.old).guards ≡ 0) }
        ensures back { IfErr result (λ e. (e.0 ≡ collector) × (e.1 ≡ Refused.GuardOpen)) }
        ensures exact { IsExact (Self.caller self.old) → MatchResult result
            (λ _. ¬ (AnyGuardOpen (Self.world self.old)) × IsNullCell (Self.world self.old) (raw_number_of collector) ×
            (Self.world self.new ≡ collector_closed T.holds (Self.world self.old) (Self.caller self.old).place (raw_number_of collector)))
            (λ e. AnyGuardOpen (Self.world self.old) × (e.1 ≡ Refused.GuardOpen) × (Self.world self.new ≡ Self.world self.old)) }
        ensures others { (k : ℕ) (value : T) →
            (IsExact (Self.caller self.old) → standing_at (Self.world self.old) k ≢ Some (Standing.Private (raw_number_of collector))) →
            Self.shows self.old k value → Self.shows self.new k value }
        ensures keeps { IfErr result (λ _. KeepsShown (Self.shows self.old) (Self.shows self.new)) };
}
