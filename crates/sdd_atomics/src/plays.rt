//! What each step tells.
ghost use Rattle.std.specs.Prelude.{[], true, false};
ghost use Rattle.sdd_domain_invariant.specs.Epoch.EpochSteps.{Registers, Reads, Counts, Locks, LooksAtLock, LooksAtState, LooksAtCount, Advances, Unlocks};
ghost use Rattle.sdd_domain_invariant.specs.Slots.SlotSteps.{OnEpoch, PublishesAll, LooksAtSlot, TakesHold, LetsGo, TriesHold, SharesAgain, LooksForGuard, AtSlot};
ghost use Rattle.sdd_domain_invariant.specs.Cells.CellWordSteps.{LooksAtPointer, SwapsPointer, ExchangesPointer};
ghost use Rattle.sdd_domain_invariant.specs.Epoch.Barred.{Bars, LooksForValue};
ghost use Rattle.sdd_rights.specs.Views.{owner_seat};
ghost use Rattle.sdd_domain_invariant.specs.Fractions.BankInvariant.{founded, bank_of, with_ledger, ledger_of};
ghost use Rattle.sdd_domain_invariant.specs.Fractions.FractionSteps.{ClaimsAll, TakesOut, TakesHeld, IsDeposit, RetiresOne, GivesAll, DefersJob, GivesPlace, DiscardsAll, ClosesHome, EndsAll, EntersUnit, OfSlot, parting, departing, regained, uncounting, counts_of, counting, ReleasesOne, LeavesOne, TakesOneBack, DrawsUnit, AddsSeen};
ghost use Rattle.sdd_domain_invariant.specs.Codes.{raw_word};
ghost use Rattle.sdd_domain_invariant.specs.Collectors.CollectorSteps.{ReclaimsOne, TakesPrivate, EmptiedOne, GivesOneEmptyBack, GivesOneOwnBack, EmptiesOne, EmptiesOwnOne, GivesOnePrivateBack};
ghost use Rattle.sdd_domain_invariant.specs.Raw.RawSteps.{TurnsRawOne, RegainsOne, SeesRawOne};
ghost use Rattle.sdd_rights.specs.declared.views.CellKind.TheVariants.{Owned as for_owned, Shared as for_shared, Raw as for_raw};
ghost use Rattle.sdd_domain_invariant.specs.Cells.CellSteps.{ClaimsCell, FillsBare, LooksInCell, RetagsOne, SwapsBare, SeesInCell, OfCell, FindsPointer, OfPointer, rightless, rights_of, righted};
ghost use Rattle.sdd_atomics.specs.Cells.{SwapsPledged, ExchangesPledged, FreesOwn, FreesOwnBare, RecallsCell, FindsRight};
ghost use Rattle.sdd_atomics.specs.Clones.{AddsPledged};
ghost use Rattle.sdd_atomics.specs.Emptying.{collector_named};
ghost use Rattle.sdd_atomics.specs.Collectors.{ClosesOwn, EndsOwn, LeavesWaiting, CollectsBy};
ghost use Rattle.sdd_atomics.specs.DomainSeat.{Sits, Told, HousesMoved, WatchesOwned, RecallsOwned};

use atomic_table::{Join, Play, Split};
use sdd_rights::views::View;
use sdd_shared_values::{Deals, ValueFraction};
use sdd_witness::{GhostUpdate, GhostUpdateBeside};

pub struct NewSeat;

impl Play<ValueFraction, View> for NewSeat {
    ghost then = { Sits };
}

pub struct Register;

impl Play<ValueFraction, View> for Register {
    ghost then = { λ step me. Told (OnEpoch (Registers me.0.sizes step.word)) me };
}

pub struct Read;

impl Play<ValueFraction, View> for Read {
    ghost then = { λ _. Told (OnEpoch Reads) };
}

pub struct Write;

impl Play<ValueFraction, View> for Write {
    ghost then = { λ _. Told (OnEpoch Counts) };
}

pub struct Publish;

impl Play<ValueFraction, View> for Publish {
    ghost then = { λ _. Told PublishesAll };
}

pub struct Close;

impl Play<ValueFraction, View> for Close {
    ghost then = { λ _. ClosesHome };
}

pub struct End;

impl Play<ValueFraction, View> for End {
    ghost then = { λ _. Told EndsAll };
}

pub struct Bar;

impl Play<ValueFraction, View> for Bar {
    ghost then = { λ step me. Told (Bars me.0.sizes step.first step.word) me };
}

pub struct Lock;

impl Play<ValueFraction, View> for Lock {
    ghost then = { λ _. Told (OnEpoch Locks) };
}

pub struct LookAtLock;

impl Play<ValueFraction, View> for LookAtLock {
    ghost then = { λ _. Told (OnEpoch LooksAtLock) };
}

pub struct LookAtState;

impl Play<ValueFraction, View> for LookAtState {
    ghost then = { λ step me. Told (OnEpoch (LooksAtState me.0.sizes step.word)) me };
}

pub struct LookAtCount;

impl Play<ValueFraction, View> for LookAtCount {
    ghost then = { λ step me. Told (OnEpoch (LooksAtCount me.0.sizes step.word)) me };
}

pub struct Advance;

impl Play<ValueFraction, View> for Advance {
    ghost then = { λ _. Told (OnEpoch Advances) };
}

pub struct Unlock;

impl Play<ValueFraction, View> for Unlock {
    ghost then = { λ _. Told (OnEpoch Unlocks) };
}

pub struct Claim;

impl Play<ValueFraction, View> for Claim {
    ghost then = { λ step. OfSlot (λ slot. ClaimsAll slot step.first step.second) step.word };
}

pub struct FillSlot;

impl Deals<View> for FillSlot {
    ghost then = { λ _ me _. HousesMoved false me };
}

pub struct FillSharedSlot;

impl Deals<View> for FillSharedSlot {
    ghost then = { λ _ me _. HousesMoved true me };
}

pub struct OneMore;

impl Play<ValueFraction, View> for OneMore {
    ghost then = { λ step. AddsPledged step.word };
}

pub struct AddSeen;

impl Play<ValueFraction, View> for AddSeen {
    ghost then = { λ step. OfSlot (AddsSeen step.first) step.word };
}

pub struct TakeBack;

impl Play<ValueFraction, View> for TakeBack {
    ghost then = { λ step. OfSlot TakesOneBack step.word };
}

pub struct EnterUnit;

impl Deals<View> for EnterUnit {
    ghost then = { λ _ me _. EntersUnit me };
}

pub struct Retire;

impl Play<ValueFraction, View> for Retire {
    ghost then = { λ step. OfSlot RetiresOne step.word };
}

pub struct LetGo;

impl Play<ValueFraction, View> for LetGo {
    ghost then = { λ step. OfSlot ReleasesOne step.word };
}

pub struct Leave;

impl Play<ValueFraction, View> for Leave {
    ghost then = { λ step. OfSlot (LeavesOne step.first) step.word };
}

pub struct TakeOut;

impl Deals<View> for TakeOut {
    ghost then = { λ slot me l me'. TakesOut slot me me' × IsDeposit slot me l };
}

pub struct TakeHeld;

impl Deals<View> for TakeHeld {
    ghost then = { λ slot me l me'. TakesHeld slot me me' × IsDeposit slot me l };
}

pub struct GiveBack;

impl Play<ValueFraction, View> for GiveBack {
    ghost then = { λ step. OfSlot GivesAll step.word };
}

pub struct ReclaimPrivate;

impl Play<ValueFraction, View> for ReclaimPrivate {
    ghost then = { λ step. OfSlot (ReclaimsOne (collector_named step.first)) step.word };
}

pub struct TakePrivate;

impl Deals<View> for TakePrivate {
    ghost then = { λ slot me l me'. TakesPrivate slot me me' × IsDeposit slot me l };
}

pub struct FinishEmptying;

impl Play<ValueFraction, View> for FinishEmptying {
    ghost then = { λ step. OfSlot EmptiedOne step.word };
}

pub struct GiveEmptyBack;

impl Play<ValueFraction, View> for GiveEmptyBack {
    ghost then = { λ step. OfSlot GivesOneEmptyBack step.word };
}

pub struct GiveOwnBack;

impl Play<ValueFraction, View> for GiveOwnBack {
    ghost then = { λ step. OfSlot GivesOneOwnBack step.word };
}

pub struct BeginClose;

impl GhostUpdate<ValueFraction, View> for BeginClose {
    ghost then = { ClosesOwn };
}

pub struct EndClose;

impl GhostUpdate<ValueFraction, View> for EndClose {
    ghost then = { EndsOwn };
}

pub struct ClaimPrivate;

impl Play<ValueFraction, View> for ClaimPrivate {
    ghost then = { λ step. OfSlot (EmptiesOne (collector_named step.first)) step.word };
}

pub struct ClaimOwnPrivate;

impl Play<ValueFraction, View> for ClaimOwnPrivate {
    ghost then = { λ step. OfSlot (EmptiesOwnOne (collector_named step.first)) step.word };
}

pub struct LeaveToClose;

impl Play<ValueFraction, View> for LeaveToClose {
    ghost then = { λ step. LeavesWaiting step.word };
}

pub struct GivePrivateBack;

impl Play<ValueFraction, View> for GivePrivateBack {
    ghost then = { λ step. OfSlot GivesOnePrivateBack step.word };
}

pub struct Collect;

impl Play<ValueFraction, View> for Collect {
    ghost then = { λ step. CollectsBy step.first step.word };
}

pub struct Defer;

impl Play<ValueFraction, View> for Defer {
    ghost then = { λ step. OfSlot (λ place. DefersJob place step.first step.second) step.word };
}

pub struct GivePlaceBack;

impl Play<ValueFraction, View> for GivePlaceBack {
    ghost then = { λ step. OfSlot GivesPlace step.word };
}

pub struct LookAtSlot;

impl Play<ValueFraction, View> for LookAtSlot {
    ghost then = { λ step. Told (AtSlot LooksAtSlot step.word) };
}

pub struct SeeOwned;

impl GhostUpdateBeside<ValueFraction, View> for SeeOwned {
    ghost then = { WatchesOwned };
}

pub struct LearnOwned;

impl GhostUpdateBeside<ValueFraction, View> for LearnOwned {
    ghost then = { RecallsOwned };
}

pub struct Hold;

impl Play<ValueFraction, View> for Hold {
    ghost then = { λ step. Told (AtSlot TakesHold step.word) };
}

pub struct LookAtGuard;

impl Play<ValueFraction, View> for LookAtGuard {
    ghost then = { λ step. Told (LooksForGuard step.word) };
}

pub struct ReleaseHold;

impl Play<ValueFraction, View> for ReleaseHold {
    ghost then = { λ step. Told (AtSlot LetsGo step.word) };
}

pub struct TryHold;

impl Play<ValueFraction, View> for TryHold {
    ghost then = { λ step. Told (AtSlot TriesHold step.word) };
}

pub struct ShareAgain;

impl Play<ValueFraction, View> for ShareAgain {
    ghost then = { λ step. Told (AtSlot SharesAgain step.word) };
}

pub struct Discard;

impl Play<ValueFraction, View> for Discard {
    ghost then = { λ step. OfSlot DiscardsAll step.word };
}

pub struct TurnRaw;

impl Play<ValueFraction, View> for TurnRaw {
    ghost then = { λ step. OfSlot TurnsRawOne step.word };
}

pub struct Regain;

impl Play<ValueFraction, View> for Regain {
    ghost then = { λ step. OfSlot (λ slot. RegainsOne slot step.first step.second) step.word };
}

pub struct LookForRaw;

impl Play<ValueFraction, View> for LookForRaw {
    ghost then = { λ step. OfSlot (λ slot. SeesRawOne slot (raw_word 0)) step.word };
}

pub struct LookIn;

impl Play<ValueFraction, View> for LookIn {
    ghost then = { λ step. OfCell LooksInCell step.word };
}

pub struct SeeIn;

impl Play<ValueFraction, View> for SeeIn {
    ghost then = { λ step. OfCell SeesInCell step.word };
}

pub struct ClaimForOwned;

impl Play<ValueFraction, View> for ClaimForOwned {
    ghost then = { λ step. OfCell (ClaimsCell step.second for_owned) step.word };
}

pub struct ClaimForShared;

impl Play<ValueFraction, View> for ClaimForShared {
    ghost then = { λ step. OfCell (ClaimsCell step.second for_shared) step.word };
}

pub struct ClaimForRaw;

impl Play<ValueFraction, View> for ClaimForRaw {
    ghost then = { λ step. OfCell (ClaimsCell step.second for_raw) step.word };
}

pub struct FillForOwned;

impl Play<ValueFraction, View> for FillForOwned {
    ghost then = { λ step. OfCell (FillsBare step.first false) step.word };
}

pub struct FillForShared;

impl Play<ValueFraction, View> for FillForShared {
    ghost then = { λ step. OfCell (FillsBare step.first true) step.word };
}

pub struct RetagCell;

impl Play<ValueFraction, View> for RetagCell {
    ghost then = { λ step. OfCell (RetagsOne step.first step.second) step.word };
}

pub struct SwapBareCell;

impl Play<ValueFraction, View> for SwapBareCell {
    ghost then = { λ step. OfCell (SwapsBare step.first) step.word };
}

pub struct SwapCell;

impl Play<ValueFraction, View> for SwapCell {
    ghost then = { λ step. SwapsPledged step.first step.word };
}

pub struct ExchangeCell;

impl Play<ValueFraction, View> for ExchangeCell {
    ghost then = { λ step. ExchangesPledged step.first step.second step.word };
}

pub struct FreeCell;

impl Play<ValueFraction, View> for FreeCell {
    ghost then = { λ step. FreesOwn step.word };
}

pub struct FreeBareCell;

impl Play<ValueFraction, View> for FreeBareCell {
    ghost then = { λ step. FreesOwnBare step.word };
}

pub struct LookAtPointer;

impl Play<ValueFraction, View> for LookAtPointer {
    ghost then = { λ step. OfPointer (FindsPointer LooksAtPointer) step.word };
}

pub struct SwapPointer;

impl Play<ValueFraction, View> for SwapPointer {
    ghost then = { λ step. OfPointer (FindsPointer (SwapsPointer step.first)) step.word };
}

pub struct ExchangePointer;

impl Play<ValueFraction, View> for ExchangePointer {
    ghost then = { λ step. OfPointer (FindsPointer (ExchangesPointer step.first step.second)) step.word };
}

pub struct LearnCell;

impl GhostUpdateBeside<ValueFraction, View> for LearnCell {
    ghost then = { RecallsCell };
}

pub struct FindCell;

impl GhostUpdateBeside<ValueFraction, View> for FindCell {
    ghost then = { FindsRight };
}

pub struct DrawUnit;

impl Deals<View> for DrawUnit {
    ghost then = { DrawsUnit };
}

pub struct LookForValue;

impl Play<ValueFraction, View> for LookForValue {
    ghost then = { λ _. Told LooksForValue };
}

pub struct Found;

impl Split<View> for Found {
    ghost left = { founded };

    ghost right = { bank_of };
}

pub struct FoundLedger;

impl Split<View> for FoundLedger {
    ghost left = { with_ledger };

    ghost right = { ledger_of };
}

pub struct CutOwner;

impl Split<View> for CutOwner {
    ghost left = { parting };

    ghost right = { departing };
}

pub struct JoinOwner;

impl Join<View> for JoinOwner {
    ghost both = { regained };

    ghost spent = { owner_seat [] };
}

pub struct CutCounts;

impl Split<View> for CutCounts {
    ghost left = { uncounting };

    ghost right = { counts_of };
}

pub struct TakeCounts;

impl Join<View> for TakeCounts {
    ghost both = { counting };

    ghost spent = { owner_seat [] };
}

pub struct CutRight;

impl Split<View> for CutRight {
    ghost left = { rightless };

    ghost right = { rights_of };
}

pub struct JoinRight;

impl Join<View> for JoinRight {
    ghost both = { righted };

    ghost spent = { owner_seat [] };
}
