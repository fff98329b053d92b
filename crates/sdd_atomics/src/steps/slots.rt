//! The atomic steps on slots, by a participant, and one by a seat that knows that all places are barred.
//!
//! A slot is free, or has one owner, or so many that it counts, or its item waits. A lone participant knows each word beforehand.
ghost use Rattle.std.specs.Prelude.{◌≡◌, ◌-◌, ◌<◌, ◌≤◌, ℕ, Bool, true, false, List, [], ◌∷◌, None};
ghost use base.Stored.{Gv};
ghost use Rattle.sdd_domain_invariant.specs.Words as words;
ghost use Rattle.sdd_domain_invariant.specs.Codes.{alive, counted, most_owners, free_word, waiting_word, shared_word};
ghost use Rattle.sdd_domain_invariant.specs.Epoch.{HasPlace, IsOpen};
ghost use Rattle.sdd_domain_invariant.specs.Slots.{Owns, Holds};
ghost use Rattle.sdd_domain_invariant.specs.Slots.SlotSteps.{IsDue, LooksAtSlot, TakesHold, LetsGo, TriesHold, SharesAgain, LooksForGuard};
ghost use Rattle.sdd_domain_invariant.specs.Epoch.Barred.{LooksForValue};
ghost use Rattle.sdd_rights.specs.Views.{owner_of};
ghost use Rattle.sdd_rights.specs.declared.views.ShownValue.{ShownValue};
ghost use Rattle.sdd_shared_values.specs.SharedValues.{IsNoValueCode, content};
ghost use Rattle.sdd_domain_invariant.specs.Fractions.FractionsAtHome.{CarriedFractions, Moves, spare};
ghost use Rattle.sdd_domain_invariant.specs.Slots.Records.{IsIn};
ghost use Rattle.sdd_domain_invariant.specs.Fractions.FractionSteps.{CarriesAll, IsValue, ClaimsAll, FillsSlot, EntersUnit, TakesOut, TakesHeld, IsDeposit, GivesAll, DiscardsAll, RetiresOne, SeesOwned, LearnsOwned, DrawsUnit, AddsSeen, IsStill, parting, regained, ReleasesOne, LeavesOne};
ghost use Rattle.sdd_atomics.specs.SeatAtTable.{id_of, sizes_of, gamma_of, places_of, slots_of, most_waiting_of, IsReady};
ghost use Rattle.sdd_domain_invariant.specs.Fractions.BankInvariant.{one_where};
ghost use Rattle.sdd_domain_invariant.specs.Slots.FilledInvariant.{HasRecord};
ghost use Rattle.sdd_domain_invariant.specs.Slots.KindsInvariant.{written};
ghost use Rattle.sdd_rights.specs.Owner.{witness_of_owner};
ghost use Rattle.sdd_atomics.specs.Owner.{IsCutOff};
ghost use Rattle.sdd_atomics.specs.Clones.{ClonesOne};
ghost use Rattle.sdd_atomics.specs.DomainSeat.{view, epoch, slots, Taught, Moved, MovedAlone};

use crate::clones::AddOwner;
pub use crate::clones::MOST_SHARED;
use crate::plays::{
    AddSeen, Claim, CutOwner, Discard, DrawUnit, EnterUnit, FillSharedSlot, FillSlot, GiveBack,
    Hold, JoinOwner, LearnOwned, Leave, LetGo, LookAtGuard, LookAtSlot, LookForValue, ReleaseHold,
    Retire, SeeOwned, ShareAgain, TakeHeld, TakeOut, TryHold,
};
use crate::seat_at_table::SeatAtTable;
use sdd_shared_values::ValueFraction;
use sdd_witness::{Witness, part, step_beside};

/// Nobody's slot.
pub const FREE: u64 = 0;
/// Its item has one owner, which isn't counted.
pub const OWNED: u64 = 1;
/// Its item has one owner, which is counted at other times, and holds it.
pub const HELD: u64 = 3;
/// Its item is retired, and waits.
pub const WAITING: u64 = 4;
/// Its item has one owner, which is counted: with each owner more it is one more.
pub const SHARED_BY_ONE: u64 = (1 << 63) + 1;

/// Looks at the word of a slot, which was free at this moment where this is `FREE`.
#[inline]
pub fn look(seat: &mut SeatAtTable<'_>, slot: u32) -> u64
    requires inside { slot < slots_of seat.old }
    requires place { HasPlace (epoch seat.old) }
    ensures { Taught (LooksAtSlot slot) seat.old result seat.new }
{
    let SeatAtTable { table, seat } = seat;
    table
        .atomic
        .shared
        .load::<LookAtSlot>(seat, table.slot_word(slot))
}

/// Tries to claim a slot by this word, which has one owner, and answers its word before. It was free where this is `FREE`: then all fractions in it are out.
#[inline]
pub fn claim(seat: &mut SeatAtTable<'_>, slot: u32, word: u64) -> u64
    requires inside { slot < slots_of seat.old }
    requires ready { IsReady seat.old }
    requires one { alive word ≡ 1 }
    ensures { Moved (ClaimsAll slot (free_word 0) word) seat.old result seat.new }
{
    let SeatAtTable { table, seat } = seat;
    table
        .atomic
        .shared
        .compare_exchange::<Claim>(seat, table.slot_word(slot), FREE, word)
}

/// The value of the slot that it moves was moved in, and the fractions in it show that: all go home with a unit each, and the rest, but the owner's unit,
/// goes to the bank. The owner may be one of several, where the slot was claimed by a word that counts them. No word is touched.
#[inline]
pub fn house(seat: &mut SeatAtTable<'_>, rest: ValueFraction, shared: bool)
    requires place { HasPlace (epoch seat.old) }
    requires row { (slot : ℕ) × (value : Gv) × (slot < slots_of seat.old) × Moves (view seat.old) slot × Owns (view seat.old) slot
        × (¬ (Holds (view seat.old) slot) → counted (written (view seat.old) slot) ≡ one_where shared)
        × ((others : CarriedFractions)
        × CarriesAll (gamma_of seat.old) slot (places_of seat.old) (spare (places_of seat.old)) (IsValue value) others seat.old.me.1)
        × (rest.content ≡ content (gamma_of seat.old) slot rest.content.lifetime value (spare (places_of seat.old) - 1)) }
    ensures { (slot : ℕ) (value : Gv) (others : CarriedFractions) → Moves (view seat.old) slot
        → CarriesAll (gamma_of seat.old) slot (places_of seat.old) (spare (places_of seat.old)) (IsValue value) others seat.old.me.1
        → MovedAlone (FillsSlot slot shared value) seat.old seat.new }
{
    if shared {
        rest.enter::<_, _, _, _, FillSharedSlot>(
            &seat.table.bank,
            &seat.table.atomic.shared,
            &mut seat.seat,
        );
    } else {
        rest.enter::<_, _, _, _, FillSlot>(
            &seat.table.bank,
            &seat.table.atomic.shared,
            &mut seat.seat,
        );
    }
}

/// The unit of an owner that goes, or comes into a cell, is in the bank from now on. It shows what the owner tells. No word is touched.
#[inline]
pub fn enter_unit(seat: &mut SeatAtTable<'_>, slot: u32, unit: ValueFraction)
    requires inside { slot < slots_of seat.old }
    requires place { HasPlace (epoch seat.old) }
    requires own { (others : List ℕ) × ((slots seat.old).drawn ≡ slot ∷ others) }
    requires unit { unit.content ≡ content (gamma_of seat.old) slot unit.content.lifetime unit.content.shown 1 }
    requires told { IsIn (view seat.old).fractions.owns slot unit.content.shown }
    ensures { MovedAlone EntersUnit seat.old seat.new }
{
    let SeatAtTable { table, seat } = seat;
    let _ = slot;
    unit.enter::<_, _, _, _, EnterUnit>(&table.bank, &table.atomic.shared, seat);
}

/// One owner more of a slot, beside one of several, by one addition. Answers its word before: where as many share the slot as may, which is at
/// `MOST_SHARED` or past it, it is taken back, and the participant has none.
#[inline]
pub fn add_owner(seat: &mut SeatAtTable<'_>, slot: u32, owner: &Witness) -> u64
    requires inside { slot < slots_of seat.old }
    requires ready { IsReady seat.old }
    requires none { ((slots seat.old).owns ≡ []) × ((slots seat.old).drawn ≡ []) × ((view seat.old).fractions.owns ≡ []) }
    requires free { ((slots seat.old).over ≡ None) × ((view seat.old).pledges.own ≡ []) }
    requires owner { (owner.now.table_id ≡ id_of seat.old) × ((value : Gv) × (owner.now.views ≡ witness_of_owner slot true value)) }
    ensures { (value : Gv) → owner.now.views ≡ witness_of_owner slot true value → Moved (ClonesOne value slot) seat.old result seat.new }
{
    let SeatAtTable { table, seat } = seat;
    let deed = AddOwner {
        word: table.slot_word(slot),
    };
    table
        .ledger
        .beside(&table.atomic.shared, seat, owner, &deed)
}

/// Tries to make one owner more of an item whose value nobody moves, since a guard sees it or nobody else takes part, where the slot's word is still this
/// one, which counts one owner at least, and fewer than may be. Answers its word before: the participant has the owner where this is the same, and knows what
/// the slot shows, and nothing changes else.
#[inline]
pub fn add_seen(seat: &mut SeatAtTable<'_>, slot: u32, word: u64) -> u64
    requires inside { slot < slots_of seat.old }
    requires ready { IsReady seat.old }
    requires within { (slots seat.old).over ≡ None }
    requires still { IsStill slot (view seat.old) }
    requires several { (counted word ≡ 1) × (0 < alive word) × (alive word < most_owners) }
    ensures { Moved (AddsSeen word slot) seat.old result seat.new }
{
    let SeatAtTable { table, seat } = seat;
    table
        .atomic
        .shared
        .compare_exchange::<AddSeen>(seat, table.slot_word(slot), word, word + 1)
}

/// The unit of an owner that has none yet, as it came beside another or came back, is drawn from the bank. It shows what is known of the slot. No word is
/// touched.
#[inline]
pub fn draw_unit(seat: &mut SeatAtTable<'_>, slot: u32) -> ValueFraction
    requires inside { slot < slots_of seat.old }
    requires ready { IsReady seat.old }
    requires own { ((shared : Bool) × (value : Gv) × HasRecord (view seat.old).fractions.owns (record { slot = slot; shared = shared; value = value }))
        × ¬ (Holds (view seat.old) slot) × ((slots seat.old).drawn ≡ []) }
    ensures { MovedAlone (λ me. DrawsUnit slot me result.content) seat.old seat.new }
{
    let SeatAtTable { table, seat } = seat;
    table
        .bank
        .draw::<DrawUnit>(&table.atomic.shared, seat, slot as u64)
}

/// Retires the item of a slot of its own, as its only owner. It waits with the participant from now on. The owner's unit is in the bank.
#[inline]
pub fn retire(seat: &mut SeatAtTable<'_>, slot: u32)
    requires inside { slot < slots_of seat.old }
    requires ready { IsReady seat.old }
    requires own { ((slots seat.old).owns ≡ slot ∷ []) × ¬ (Holds (view seat.old) slot) × ((slots seat.old).drawn ≡ []) }
    requires told { (value : Gv) × HasRecord (view seat.old).fractions.owns (record { slot = slot; shared = false; value = value }) }
    ensures { Moved (RetiresOne slot) seat.old (waiting_word 0) seat.new }
{
    let SeatAtTable { table, seat } = seat;
    table
        .atomic
        .shared
        .store::<Retire>(seat, table.slot_word(slot), WAITING);
}

/// Lets an owner of its own go that is one of several. Answers its word before: where this is `SHARED_BY_ONE`, it was the last, and the item waits with
/// the participant from now on. The owner's unit is in the bank.
#[inline]
pub fn let_go(seat: &mut SeatAtTable<'_>, slot: u32) -> u64
    requires inside { slot < slots_of seat.old }
    requires ready { IsReady seat.old }
    requires own { ((slots seat.old).owns ≡ slot ∷ []) × ¬ (Holds (view seat.old) slot) × ((slots seat.old).drawn ≡ []) }
    requires told { (value : Gv) × HasRecord (view seat.old).fractions.owns (record { slot = slot; shared = true; value = value }) }
    ensures { Moved (ReleasesOne slot) seat.old result seat.new }
{
    let SeatAtTable { table, seat } = seat;
    table
        .atomic
        .shared
        .fetch_sub::<LetGo>(seat, table.slot_word(slot), 1)
}

/// Tries to let an owner of its own go beside others, where the slot's word is still this one, which counts two or more. Answers its word before: the
/// owner is gone where this is the same, and nothing changes else. The owner's unit is in the bank.
#[inline]
pub fn leave(seat: &mut SeatAtTable<'_>, slot: u32, word: u64) -> u64
    requires inside { slot < slots_of seat.old }
    requires ready { IsReady seat.old }
    requires own { ((slots seat.old).owns ≡ slot ∷ []) × ¬ (Holds (view seat.old) slot) × ((slots seat.old).drawn ≡ []) }
    requires told { (value : Gv) × HasRecord (view seat.old).fractions.owns (record { slot = slot; shared = true; value = value }) }
    requires several { (counted word ≡ 1) × (1 < alive word) }
    ensures { Moved (LeavesOne word slot) seat.old result seat.new }
{
    let SeatAtTable { table, seat } = seat;
    table
        .atomic
        .shared
        .compare_exchange::<Leave>(seat, table.slot_word(slot), word, word - 1)
}

/// Takes all fractions in the slot of an item that has seen three changes, so that nobody sees it any more, and what the bank has of it. No word is touched.
#[inline]
pub fn take_out(seat: &mut SeatAtTable<'_>, slot: u32) -> ValueFraction
    requires inside { slot < slots_of seat.old }
    requires ready { IsReady seat.old }
    requires due { IsDue (view seat.old) slot }
    ensures taken { MovedAlone (TakesOut slot) seat.old seat.new }
    ensures deposit { IsDeposit slot seat.old.me result.content }
{
    let SeatAtTable { table, seat } = seat;
    table
        .bank
        .draw::<TakeOut>(&table.atomic.shared, seat, slot as u64)
}

/// Gives back the slot of an item whose value was moved out: all fractions in it go home.
#[inline]
pub fn give_back(seat: &mut SeatAtTable<'_>, slot: u32)
    requires inside { slot < slots_of seat.old }
    requires place { HasPlace (epoch seat.old) }
    requires due { Moves (view seat.old) slot × IsDue (view seat.old) slot }
    requires row { (rest : CarriedFractions) × CarriesAll (gamma_of seat.old) slot (places_of seat.old) 0 IsNoValueCode rest seat.old.me.1 }
    ensures { Moved (GivesAll slot) seat.old (free_word 0) seat.new }
{
    let SeatAtTable { table, seat } = seat;
    table
        .atomic
        .shared
        .store::<GiveBack>(seat, table.slot_word(slot), FREE);
}

/// The open guard sees a slot from now on beside its owner, which may be with another participant, and has the fraction of its place out. No word is
/// touched.
#[inline]
pub fn watch(seat: &mut SeatAtTable<'_>, owner: &Witness)
    requires open { IsOpen (epoch seat.old) }
    requires near { (epoch seat.old).place < places_of seat.old }
    requires rests { (view seat.old).fractions.moves ≡ None }
    requires owner { (owner.now.table_id ≡ id_of seat.old)
        × ((slot : ℕ) × (shared : Bool) × (value : Gv) × (slot < slots_of seat.old) × (owner.now.views ≡ witness_of_owner slot shared value)) }
    ensures { (slot : ℕ) (shared : Bool) (value : Gv) → owner.now.views ≡ witness_of_owner slot shared value
        → MovedAlone (SeesOwned slot shared value) seat.old seat.new }
{
    let SeatAtTable { table, seat } = seat;
    step_beside::<_, _, _, _, SeeOwned>(&table.atomic.shared, seat, owner);
}

/// A lone participant learns beside the owner of a slot, which may be with another, that it moved into the slot last what the owner tells.
/// Nothing changes, and no word is touched.
#[inline]
pub fn recall(seat: &mut SeatAtTable<'_>, owner: &Witness)
    requires place { HasPlace (epoch seat.old) }
    requires owner { (owner.now.table_id ≡ id_of seat.old)
        × ((slot : ℕ) × (shared : Bool) × (value : Gv) × (slot < slots_of seat.old) × (owner.now.views ≡ witness_of_owner slot shared value)) }
    ensures { (slot : ℕ) (shared : Bool) (value : Gv) → owner.now.views ≡ witness_of_owner slot shared value
        → MovedAlone (LearnsOwned slot shared value) seat.old seat.new }
{
    let SeatAtTable { table, seat } = seat;
    step_beside::<_, _, _, _, LearnOwned>(&table.atomic.shared, seat, owner);
}

/// Holds a slot of the participant's own, as its only owner, to find out whether a guard sees it. Answers its word.
#[inline]
pub fn hold(seat: &mut SeatAtTable<'_>, slot: u32) -> u64
    requires inside { slot < slots_of seat.old }
    requires place { HasPlace (epoch seat.old) }
    requires told { (value : Gv) × HasRecord (view seat.old).fractions.owns (record { slot = slot; shared = false; value = value }) }
    requires free { (slots seat.old).holds ≡ None }
    ensures { Taught (TakesHold slot) seat.old result seat.new }
{
    let SeatAtTable { table, seat } = seat;
    table
        .atomic
        .shared
        .load::<Hold>(seat, table.slot_word(slot))
}

/// Looks at the state of the next place, by where that of the first one is, while a slot is held: no guard there sees it where this isn't `OPEN`.
#[inline]
pub fn look_for_guard(seat: &mut SeatAtTable<'_>, first: usize, place: usize) -> u64
    requires first { first ≡ words.state_word (sizes_of seat.old) 0 }
    requires inside { place < places_of seat.old }
    requires place { HasPlace (epoch seat.old) }
    requires next { place ≡ (slots seat.old).looked }
    ensures { Taught (LooksForGuard (words.state_word (view seat.old).sizes place)) seat.old result seat.new }
{
    let SeatAtTable { table, seat } = seat;
    table
        .atomic
        .shared
        .load::<LookAtGuard>(seat, table.state_from(first, place))
}

/// Lets go of the slot that is held by its only owner. Answers its word.
#[inline]
pub fn release_hold(seat: &mut SeatAtTable<'_>, slot: u32) -> u64
    requires inside { slot < slots_of seat.old }
    requires ready { IsReady seat.old }
    requires held { Holds (view seat.old) slot }
    requires single { (r : ShownValue) → HasRecord (view seat.old).fractions.owns r → r.slot ≡ slot → r.shared ≡ false }
    ensures { Taught (LetsGo slot) seat.old result seat.new }
{
    let SeatAtTable { table, seat } = seat;
    table
        .atomic
        .shared
        .load::<ReleaseHold>(seat, table.slot_word(slot))
}

/// Tries to hold a slot of the participant's own whose owners are counted, to find out whether a guard sees it. Answers its word before: it is held where
/// this is `SHARED_BY_ONE`. Where it isn't, there are more owners, and nothing changes.
#[inline]
pub fn try_hold(seat: &mut SeatAtTable<'_>, slot: u32) -> u64
    requires inside { slot < slots_of seat.old }
    requires ready { IsReady seat.old }
    requires told { (value : Gv) × HasRecord (view seat.old).fractions.owns (record { slot = slot; shared = true; value = value }) }
    requires free { (slots seat.old).holds ≡ None }
    ensures { Taught (TriesHold slot) seat.old result seat.new }
{
    let SeatAtTable { table, seat } = seat;
    table
        .atomic
        .shared
        .compare_exchange::<TryHold>(seat, table.slot_word(slot), SHARED_BY_ONE, HELD)
}

/// Lets go of the slot that is held by the only one of owners that are counted: its word says one again.
#[inline]
pub fn share_again(seat: &mut SeatAtTable<'_>, slot: u32)
    requires inside { slot < slots_of seat.old }
    requires ready { IsReady seat.old }
    requires held { Holds (view seat.old) slot }
    requires several { (r : ShownValue) → HasRecord (view seat.old).fractions.owns r → r.slot ≡ slot → r.shared ≡ true }
    ensures { Taught (SharesAgain slot) seat.old (shared_word 1) seat.new }
{
    let SeatAtTable { table, seat } = seat;
    table
        .atomic
        .shared
        .store::<ShareAgain>(seat, table.slot_word(slot), SHARED_BY_ONE);
}

/// Takes all fractions in the slot that is held, once every place was looked at, and what the bank has of it. No word is touched.
#[inline]
pub fn take_held(seat: &mut SeatAtTable<'_>, slot: u32) -> ValueFraction
    requires inside { slot < slots_of seat.old }
    requires ready { IsReady seat.old }
    requires held { Holds (view seat.old) slot × ((slots seat.old).owns ≡ slot ∷ []) × ((slots seat.old).drawn ≡ []) }
    requires looked { places_of seat.old ≤ (slots seat.old).looked }
    ensures taken { MovedAlone (TakesHeld slot) seat.old seat.new }
    ensures deposit { IsDeposit slot seat.old.me result.content }
{
    let SeatAtTable { table, seat } = seat;
    table
        .bank
        .draw::<TakeHeld>(&table.atomic.shared, seat, slot as u64)
}

/// Frees the slot that is held, whose value was moved out: its item has gone at once, and all fractions in it go home.
#[inline]
pub fn discard(seat: &mut SeatAtTable<'_>, slot: u32)
    requires inside { slot < slots_of seat.old }
    requires place { HasPlace (epoch seat.old) }
    requires held { Moves (view seat.old) slot × Holds (view seat.old) slot }
    requires looked { places_of seat.old ≤ (slots seat.old).looked }
    requires row { (rest : CarriedFractions) × CarriesAll (gamma_of seat.old) slot (places_of seat.old) 0 IsNoValueCode rest seat.old.me.1 }
    ensures { Moved (DiscardsAll slot) seat.old (free_word 0) seat.new }
{
    let SeatAtTable { table, seat } = seat;
    table
        .atomic
        .shared
        .store::<Discard>(seat, table.slot_word(slot), FREE);
}

/// Looks at the word of the next slot, or of a job's place, by a seat that knows that all places are barred. Where it is free then it stays so.
pub fn look_for_value(seat: &mut SeatAtTable<'_>, slot: u32) -> u64
    requires inside { slot < most_waiting_of seat.old }
    requires ended { places_of seat.old ≤ (view seat.old).places.ended }
    requires next { slot ≡ (view seat.old).places.quiet }
    ensures { Taught LooksForValue seat.old result seat.new }
{
    let SeatAtTable { table, seat } = seat;
    table
        .atomic
        .shared
        .load::<LookForValue>(seat, table.slot_word(slot))
}

/// Cuts the one owner that the participant has off, as a seat of its own, with its unit. No word is touched.
#[inline]
pub fn cut(seat: &mut SeatAtTable<'_>) -> Witness
    requires ready { IsReady seat.old }
    requires one { (slot : ℕ) × ((slots seat.old).owns ≡ slot ∷ []) × ((slots seat.old).drawn ≡ slot ∷ []) }
    requires free { (slots seat.old).holds ≡ None }
    ensures participant { Taught (λ v _ w. w ≡ parting v) seat.old 0 seat.new }
    ensures owner { (result.table_id ≡ id_of seat.old) × IsCutOff (view seat.old) result.views }
{
    let SeatAtTable { table, seat } = seat;
    part::<_, _, _, _, CutOwner>(&table.atomic.shared, seat)
}

/// Takes the owner of a slot in. No word is touched.
#[inline]
pub fn take_in(seat: &mut SeatAtTable<'_>, owner: Witness)
    requires rests { (view seat.old).fractions.moves ≡ None }
    requires owner { (owner.table_id ≡ id_of seat.old) × ((slot : ℕ) × (shared : Bool) × (value : Gv) × (owner.views ≡ witness_of_owner slot shared value)) }
    ensures { (slot : ℕ) (shared : Bool) (value : Gv) → owner.views ≡ witness_of_owner slot shared value
        → Taught (λ v _ w. w ≡ regained v (owner_of slot shared value)) seat.old 0 seat.new }
{
    let SeatAtTable { table, seat } = seat;
    table
        .ledger
        .rejoin::<JoinOwner>(&table.atomic.shared, seat, owner);
}
