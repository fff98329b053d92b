ghost use Rattle.std.specs.Prelude.{◌≡◌, IfOk, IsTrue, MatchResult};
ghost use Rattle.sdd_rights.specs.declared.right.Right.{Right};
ghost use Rattle.sdd_participants.specs.EpochState.{CanNest, has_garbage, is_open, with_garbage};
ghost use Rattle.sdd_participants.specs.EpochState as time;
ghost use Rattle.sdd_world_model.specs.World.{place_at};
ghost use Rattle.sdd_space.specs.CallerId.{IsSeated, IsExact, IsLone, MayNest};
ghost use Rattle.sdd_world_model.specs.ParticipantChanges.{GuardOpened, GuardClosed};
ghost use Rattle.sdd_world_model.specs.KnownEpochs.{KnowsOn, KnowsOpened, KnowsClosed, IsNear, IsRaisedBy};
ghost use Rattle.sdd_space.specs.Undisturbed.{Undisturbed, Unmoved};
ghost use Rattle.sdd_space.specs.Guard.{reader_of};
ghost use Rattle.sdd_space.specs.Ptr.{KeepsShown};
ghost use Rattle.sdd_world_model.specs.WorldChanges.{opened, closed, stirred, accelerated};

use crate::guard::Guard;
use crate::item::Item;
use crate::space::caller::Caller;
use sdd_core::Refused;

/// The guards of one participant of a world or domain.
pub trait Guards<T: Item<T>>: Caller<T> {
    /// What an opening says besides, of the participant before and after.
    ghost says_at_opening: { Self → Self → Type 0 };
    /// What a close does.
    ghost says_at_close: { Self → Self → Type 0 };

    /// Opens one more guard; an outermost one looks at the count.
    fn new_guard(&mut self) -> Result<Guard, Refused>
        requires seated { IsSeated (Self.caller self.old) }
        ensures caller { Self.caller self.new ≡ Self.caller self.old }
        ensures reader { IfOk result (λ guard. reader_of guard ≡ (Self.caller self.old).reader) }
        ensures own { MatchResult result
            (λ _. MayNest (Self.caller self.old) (Self.own self.old) × GuardOpened (Self.own self.old) (Self.own self.new))
            (λ e. (e ≡ Refused.TooManyGuards) × ¬ (MayNest (Self.caller self.old) (Self.own self.old)) × (Self.own self.new ≡ Self.own self.old)) }
        ensures known { MatchResult result
            (λ _. KnowsOpened (Self.known self.old) (Self.own self.old) (Self.own self.new) (Self.known self.new))
            (λ _. KnowsOn (Self.known self.old) (Self.known self.new)) }
        ensures lone { IsLone (Self.caller self.old) → (Self.known self.new).told ≡ (Self.known self.old).told }
        ensures exact { IsExact (Self.caller self.old) → MatchResult result
            (λ _. CanNest (Self.world self.old).time (Self.caller self.old).place ×
            (Self.world self.new ≡ opened T.holds (Self.world self.old) (Self.caller self.old).place))
            (λ e. (e ≡ Refused.TooManyGuards) × ¬ (CanNest (Self.world self.old).time (Self.caller self.old).place) ×
            (Self.world self.new ≡ Self.world self.old)) }
        ensures keeps { IsTrue (is_open (Self.own self.old)) →
            KeepsShown (Self.shows self.old) (Self.shows self.new) }
        ensures says { Self.says_at_opening self.old self.new };

    /// Closes a guard; the last one publishes the end, after a scan at countdown 0.
    fn close_guard(&mut self, guard: Guard)
        requires seated { IsSeated (Self.caller self.old) }
        requires reader { reader_of guard ≡ (Self.caller self.old).reader }
        ensures caller { Self.caller self.new ≡ Self.caller self.old }
        ensures own { GuardClosed (Self.own self.old) (Self.own self.new) }
        ensures known { KnowsClosed (Self.known self.old) (Self.known self.new) (Self.own self.new) }
        ensures lone { IsLone (Self.caller self.old) → IsRaisedBy (Self.own self.old) (Self.known self.old).told (Self.known self.new).told }
        ensures exact { IsExact (Self.caller self.old) → Self.world self.new ≡ closed (Self.world self.old) (Self.caller self.old).place }
        ensures keeps { IsTrue (is_open (Self.own self.new)) →
            KeepsShown (Self.shows self.old) (Self.shows self.new) }
        ensures owned { (right : Right) (value : T) → Self.owns_value self.old right value → Self.owns_value self.new right value }
        ensures says { Self.says_at_close self.old self.new };

    /// The count of epochs, as the participant is told it now.
    fn count(&mut self) -> u64
        requires seated { IsSeated (Self.caller self.old) }
        ensures undisturbed { Undisturbed Self.caller Self.own Self.known Self.shows self.old self.new }
        ensures told { result ≡ (Self.known self.new).told }
        ensures near { IsNear (Self.own self.new) (Self.known self.new) }
        ensures lone { IsLone (Self.caller self.old) → (Self.known self.new).told ≡ (Self.known self.old).told }
        ensures exact { IsExact (Self.caller self.old) → (result ≡ (Self.world self.old).time.count) × (Self.world self.new ≡ Self.world self.old) };

    fn has_garbage(&self) -> bool
        requires seated { IsSeated (Self.caller self.now) }
        ensures own { result ≡ has_garbage (Self.own self.now) }
        ensures exact { IsExact (Self.caller self.now) → result ≡ has_garbage (place_at (Self.world self.now) (Self.caller self.now).place) };

    fn set_has_garbage(&mut self)
        requires seated { IsSeated (Self.caller self.old) }
        ensures unmoved { Unmoved Self.caller Self.known Self.shows self.old self.new }
        ensures own { Self.own self.new ≡ with_garbage (Self.own self.old) }
        ensures lone { IsLone (Self.caller self.old) → Self.known self.new ≡ Self.known self.old }
        ensures exact { IsExact (Self.caller self.old) → Self.world self.new ≡ stirred (Self.world self.old) (Self.caller self.old).place };

    fn accelerate(&mut self)
        requires seated { IsSeated (Self.caller self.old) }
        ensures unmoved { Unmoved Self.caller Self.known Self.shows self.old self.new }
        ensures own { Self.own self.new ≡ time.accelerated (Self.own self.old) }
        ensures lone { IsLone (Self.caller self.old) → Self.known self.new ≡ Self.known self.old }
        ensures exact { IsExact (Self.caller self.old) → Self.world self.new ≡ accelerated (Self.world self.old) (Self.caller self.old).place };
}
