ghost use Rattle.std.specs.Prelude.{◌≡◌};
ghost use Rattle.sdd_values.specs.declared.read_sections.SectionState.{SectionState};

use crate::item::Item;
use crate::space::{Deferrals, Guards};
use sdd_core::inner::epoch_of_count;
use sdd_core::{Epoch, Refused};
use sdd_values::{ReadSection, SectionState};

/// An open guard: its participant has published a count, and a scan gives up while this count is behind.
///
/// It must be spent by `close`. Guards of one participant nest, and share what their pointers show. A guard has no bytes.
#[derive_where(Debug)]
pub struct Guard {
    #[derive_where(skip)]
    section: ReadSection,
    pub ghost open: { section.kind ≡ SectionState.Open },
    pub ghost single: { section.units ≡ 1 },
}

const _: () = prove!(size_of::<Guard>() == 0);

impl Guard {
    ghost use Rattle.std.specs.Prelude.{◌≡◌, ◌%◌, ℕ, MatchResult, IfErr, IfOk, IsTrue};
    ghost use Rattle.sdd_participants.specs.declared.waiting.LimboEntry.TheVariants.{Job};
    ghost use Rattle.sdd_participants.specs.Slab.{IsEmptyAt, IsFull};
    ghost use Rattle.sdd_core.specs.Epoch.{epoch_of};
    ghost use Rattle.sdd_world_model.specs.World.{World, place_at};
    ghost use Rattle.sdd_space.specs.CallerId.{IsSeated, IsExact, IsLone, MayNest};
    ghost use Rattle.sdd_space.specs.Refusals.{IsRefusedBy};
    ghost use Rattle.sdd_world_model.specs.ParticipantChanges.{GuardOpened, GuardClosed};
    ghost use Rattle.sdd_world_model.specs.KnownEpochs.{KnowsOn, KnowsOpened, KnowsClosed, IsNear, IsRaisedBy};
    ghost use Rattle.sdd_space.specs.Undisturbed.{Undisturbed, Unmoved};
    ghost use Rattle.sdd_rights.specs.declared.right.Right.{Right};
    ghost use Rattle.sdd_space.specs.Ptr.{KeepsShown};
    ghost use Rattle.sdd_space.specs.Guard.{reader_of};
    ghost use Rattle.sdd_world_model.specs.WorldChanges.{opened, closed, deferred, stirred, accelerated};
    ghost use Rattle.sdd_participants.specs.EpochState.{CanNest, is_open, with_garbage, has_garbage};
    ghost use Rattle.sdd_participants.specs.EpochState as time;

    /// Opens a guard. An outermost one publishes the count of epochs that it finds; if that is another than the participant found before, what
    /// waits with it has seen one change more, and what has seen three is reclaimed.
    ///
    /// `TooManyGuards` where as many are open as may nest.
    #[inline(always)]
    pub fn new<T: Item<T>, S: Guards<T>>(s: &mut S) -> Result<Guard, Refused>
        requires seated { IsSeated (S.caller s.old) }
        ensures caller { S.caller s.new ≡ S.caller s.old }
        ensures reader { IfOk result (λ guard. reader_of guard ≡ (S.caller s.old).reader) }
        ensures own { MatchResult result
            (λ _. MayNest (S.caller s.old) (S.own s.old) × GuardOpened (S.own s.old) (S.own s.new))
            (λ e. (e ≡ Refused.TooManyGuards) × ¬ (MayNest (S.caller s.old) (S.own s.old)) × (S.own s.new ≡ S.own s.old)) }
        ensures known { MatchResult result
            (λ _. KnowsOpened (S.known s.old) (S.own s.old) (S.own s.new) (S.known s.new))
            (λ _. KnowsOn (S.known s.old) (S.known s.new)) }
        ensures lone { IsLone (S.caller s.old) → (S.known s.new).told ≡ (S.known s.old).told }
        ensures exact { IsExact (S.caller s.old) → MatchResult result
            (λ _. CanNest (S.world s.old).time (S.caller s.old).place × (S.world s.new ≡ opened T.holds (S.world s.old) (S.caller s.old).place))
            (λ e. (e ≡ Refused.TooManyGuards) × ¬ (CanNest (S.world s.old).time (S.caller s.old).place) × (S.world s.new ≡ S.world s.old)) }
        ensures keeps { IsTrue (is_open (S.own s.old)) → KeepsShown (S.shows s.old) (S.shows s.new) }
        ensures says { S.says_at_opening s.old s.new }
    {
        s.new_guard()
    }

    pub(crate) fn of_section(section: ReadSection) -> Guard
        requires open { section.kind ≡ SectionState.Open }
        requires single { section.units ≡ 1 }
        ensures { result.section ≡ section }
    {
        Guard { section }
    }

    pub(crate) fn into_section(self) -> ReadSection
        ensures { result ≡ self.section }
    {
        let Guard { section } = self;
        section
    }

    pub(crate) fn section(&self) -> &ReadSection
        ensures { result.now ≡ self.now.section }
    {
        &self.section
    }

    /// Closes the guard. The outermost close at countdown 0, as `accelerate` sets it, first tries to raise the count. What owners own is as before.
    #[inline(always)]
    pub fn close<T: Item<T>, S: Guards<T>>(self, s: &mut S)
        requires seated { IsSeated (S.caller s.old) }
        requires reader { reader_of self ≡ (S.caller s.old).reader }
        ensures caller { S.caller s.new ≡ S.caller s.old }
        ensures own { GuardClosed (S.own s.old) (S.own s.new) }
        ensures known { KnowsClosed (S.known s.old) (S.known s.new) (S.own s.new) }
        ensures lone { IsLone (S.caller s.old) → IsRaisedBy (S.own s.old) (S.known s.old).told (S.known s.new).told }
        ensures exact { IsExact (S.caller s.old) → S.world s.new ≡ closed (S.world s.old) (S.caller s.old).place }
        ensures keeps { IsTrue (is_open (S.own s.new)) → KeepsShown (S.shows s.old) (S.shows s.new) }
        ensures owned { (right : Right) (value : T) → S.owns_value s.old right value → S.owns_value s.new right value }
        ensures says { S.says_at_close s.old s.new }
    {
        s.close_guard(self);
    }

    /// The global epoch at this moment, which isn't always the one that the guard published. Under one open guard it is the one answered before, or the next.
    #[inline]
    pub fn epoch<T: Item<T>, S: Guards<T>>(&self, s: &mut S) -> Epoch
        requires seated { IsSeated (S.caller s.old) }
        ensures undisturbed { Undisturbed S.caller S.own S.known S.shows s.old s.new }
        ensures told { result ≡ epoch_of (S.known s.new).told }
        ensures near { IsNear (S.own s.new) (S.known s.new) }
        ensures lone { IsLone (S.caller s.old) → (S.known s.new).told ≡ (S.known s.old).told }
        ensures exact { IsExact (S.caller s.old) → (result ≡ epoch_of (S.world s.old).time.count) × (S.world s.new ≡ S.world s.old) }
    {
        epoch_of_count(s.count())
    }

    /// Something may wait with the participant.
    #[inline]
    pub fn has_garbage<T: Item<T>, S: Guards<T>>(&self, s: &S) -> bool
        requires seated { IsSeated (S.caller s.now) }
        ensures own { result ≡ has_garbage (S.own s.now) }
        ensures exact { IsExact (S.caller s.now) → result ≡ has_garbage (place_at (S.world s.now) (S.caller s.now).place) }
    {
        s.has_garbage()
    }

    /// Has the participant count down to a scan, as a retirement does.
    #[inline]
    pub fn set_has_garbage<T: Item<T>, S: Guards<T>>(&self, s: &mut S)
        requires seated { IsSeated (S.caller s.old) }
        ensures unmoved { Unmoved S.caller S.known S.shows s.old s.new }
        ensures own { S.own s.new ≡ with_garbage (S.own s.old) }
        ensures lone { IsLone (S.caller s.old) → S.known s.new ≡ S.known s.old }
        ensures exact { IsExact (S.caller s.old) → S.world s.new ≡ stirred (S.world s.old) (S.caller s.old).place }
    {
        s.set_has_garbage();
    }

    /// Defers a job: it waits with the participant as an item does that is retired now, and runs once, within the opening at which it is due. That is
    /// the third outermost opening from now on that finds another count of epochs, or, where the participant has ended before, that one of whoever
    /// adopted what it left. A job that still waits as its world is closed runs then. Its place is free as soon as it ran.
    ///
    /// `NoJob` where as many jobs wait as the limits say; `Contended`, in a domain alone, where as many exchanges were lost as its limits allow. The job
    /// comes back, and hasn't run.
    pub fn defer_execute<T: Item<T>, S: Deferrals<T>>(
        &self,
        job: S::Job,
        s: &mut S,
    ) -> Result<(), (S::Job, Refused)>
        requires seated { IsSeated (S.caller s.old) }
        requires reader { reader_of self.now ≡ (S.caller s.old).reader }
        ensures unmoved { Unmoved S.caller S.known S.shows s.old s.new }
        ensures own { MatchResult result
            (λ _. (place : ℕ) × (S.own s.new ≡ time.awaiting (Job place) (S.own s.old)))
            (λ _. S.own s.new ≡ S.own s.old) }
        ensures back { IfErr result (λ e. (e.0 ≡ job) × IsRefusedBy (S.caller s.old) Refused.NoJob e.1) }
        ensures exact { IsExact (S.caller s.old) → MatchResult result
            (λ _. (place : ℕ) × IsEmptyAt (S.world s.old).jobs place × (S.world s.new ≡ deferred (S.world s.old) (S.caller s.old).place place))
            (λ e. IsFull (S.world s.old).jobs × (e.1 ≡ Refused.NoJob) × (S.world s.new ≡ S.world s.old)) }
    {
        match s.defer_execute(job) {
            Ok(_place) => Ok(()),
            Err(back) => Err(back),
        }
    }

    /// Has the next outermost close of the participant scan.
    #[inline]
    pub fn accelerate<T: Item<T>, S: Guards<T>>(&self, s: &mut S)
        requires seated { IsSeated (S.caller s.old) }
        ensures unmoved { Unmoved S.caller S.known S.shows s.old s.new }
        ensures own { S.own s.new ≡ time.accelerated (S.own s.old) }
        ensures lone { IsLone (S.caller s.old) → S.known s.new ≡ S.known s.old }
        ensures exact { IsExact (S.caller s.old) → S.world s.new ≡ accelerated (S.world s.old) (S.caller s.old).place }
    {
        s.accelerate();
    }
}
