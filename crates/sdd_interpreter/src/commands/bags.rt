//! What participants do with bags.
ghost use Rattle.std.specs.Prelude.{◌≡◌, ◌<◌, ◌≤◌, ◌++◌, ◌∷◌, List, MatchOption, MatchResult, [], length, vec_capacity};
ghost use Rattle.sdd_core.specs.declared.refused.Refused.TheVariants as refused;
ghost use Rattle.sdd_space.specs.Guard.{reader_of};
ghost use Rattle.sdd_lists.specs.Queue.{HasOneAtMost};
ghost use Rattle.sdd_bag.specs.Bag.{IsBag, IsOfCells, primary_of, values_of};
ghost use Rattle.sdd_bag.specs.Overflow.{RefusesStorage};
ghost use Rattle.sdd_bag.specs.Storage.{AreFull};
ghost use Rattle.sdd_script_model.specs.BagLines.{BeginsBag, PutsNumber, TakesAll, TakesNumber, holds_nothing};
ghost use Rattle.sdd_script_model.specs.ScriptState.{bag_length};
ghost use Rattle.sdd_script_model.specs.Val.{Val, storage_in};
ghost use Rattle.sdd_space.specs.CallerId.{reader_at};
ghost use Rattle.sdd_world_model.specs.World.{World, IsPlaceOf};
ghost use Rattle.sdd_lists.specs.Lists.{Entry};
ghost use Rattle.sdd_bag.specs.Closing.{ClosesBag};
ghost use Rattle.sdd_world.specs.Place.{index_of};
ghost use Rattle.sdd_script_model.specs.Bags.{StandsOn};

use crate::commands::step::ListCommand;
use sdd_bag::Bag;
use sdd_core::Refused;
use sdd_script_model::{Body, Val};
use sdd_space::{Cells, Guard, Items, LookThrough, Several, SharedItems};
use sdd_world::{Place, World};

/// A new bag, without numbers.
pub struct MakeBag;

impl ListCommand for MakeBag {
    type Out = Result<Bag<u64, 32, Body>, Refused>;

    ghost asks = { λ _ _ _ _. Unit {0} };

    ghost does = { λ _ home _ before result after. MatchResult result
        (λ bag. (home ≡ before.home) → BeginsBag before bag after)
        (λ e. HasOneAtMost before.cells × (e ≡ refused.NoCell) × (after ≡ before)) };

    fn done<S: Items<Val> + Several<Val> + SharedItems<Val> + Cells<Val> + LookThrough<Val>>(
        self,
        s: &mut S,
    ) -> Result<Bag<u64, 32, Body>, Refused> {
        let MakeBag = self;
        Bag::new(s)
    }
}

/// A number is put into a bag, which comes back.
pub struct AddNumber<'a> {
    pub bag: Bag<u64, 32, Body>,
    pub number: u64,
    /// One of the participant's.
    pub guard: &'a Guard,
}

impl ListCommand for AddNumber<'_> {
    type Out = (Bag<u64, 32, Body>, Result<(), Refused>);

    ghost asks = { λ step home reader world. IsOfCells home.cells step.bag × (reader_of step.guard.now ≡ reader) ×
        IsBag storage_in bag_length world step.bag };

    ghost does = { λ step _ place before result after. IsBag storage_in bag_length after result.0 × MatchResult result.1
        (λ _. PutsNumber before place step.number step.bag result.0 after)
        (λ why. (length (primary_of step.bag) ≡ bag_length) × AreFull bag_length step.bag.overflow.places × RefusesStorage before why ×
        (result.0 ≡ step.bag) × (after ≡ before)) };

    fn done<S: Items<Val> + Several<Val> + SharedItems<Val> + Cells<Val> + LookThrough<Val>>(
        self,
        s: &mut S,
    ) -> (Bag<u64, 32, Body>, Result<(), Refused>) {
        let AddNumber {
            mut bag,
            number,
            guard,
        } = self;
        match bag.push(number, guard, s) {
            Ok(()) => (bag, Ok(())),
            Err((_, refused)) => (bag, Err(refused)),
        }
    }
}

/// Some number is taken out of a bag, if it has one. The bag comes back.
pub struct TakeNumber<'a> {
    pub bag: Bag<u64, 32, Body>,
    /// One of the participant's.
    pub guard: &'a Guard,
}

impl ListCommand for TakeNumber<'_> {
    type Out = (Bag<u64, 32, Body>, Option<u64>);

    ghost asks = { λ step home reader world. IsOfCells home.cells step.bag × (reader_of step.guard.now ≡ reader) ×
        IsBag storage_in bag_length world step.bag };

    ghost does = { λ step _ place before result after. IsBag storage_in bag_length after result.0 × MatchOption result.1
        ((values_of step.bag ≡ []) × (result.0 ≡ step.bag) × (after ≡ before))
        (λ number. TakesNumber before place number step.bag result.0 after) };

    fn done<S: Items<Val> + Several<Val> + SharedItems<Val> + Cells<Val> + LookThrough<Val>>(
        self,
        s: &mut S,
    ) -> (Bag<u64, 32, Body>, Option<u64>) {
        let TakeNumber { mut bag, guard } = self;
        let taken = bag.pop(guard, s);
        (bag, taken)
    }
}

/// All numbers are taken out of a bag, which comes back.
pub struct DrainBag<'a> {
    pub bag: Bag<u64, 32, Body>,
    /// One of the participant's.
    pub guard: &'a Guard,
    /// For which there is room here.
    pub room: Vec<u64>,
}

impl ListCommand for DrainBag<'_> {
    type Out = (Bag<u64, 32, Body>, Vec<u64>);

    ghost asks = { λ step home reader world. IsOfCells home.cells step.bag × (reader_of step.guard.now ≡ reader) ×
        IsBag storage_in bag_length world step.bag × (step.room.items ≡ []) × (length (values_of step.bag) ≤ vec_capacity step.room) };

    ghost does = { λ step _ place before result after. IsBag storage_in bag_length after result.0 ×
        TakesAll before place step.bag result.0 result.1.items after };

    fn done<S: Items<Val> + Several<Val> + SharedItems<Val> + Cells<Val> + LookThrough<Val>>(
        self,
        s: &mut S,
    ) -> (Bag<u64, 32, Body>, Vec<u64>) {
        let DrainBag {
            mut bag,
            guard,
            room,
        } = self;
        let numbers = bag.pop_all(room, with_number, guard, s);
        (bag, numbers)
    }
}

/// A number comes behind these, where there is room.
fn with_number(numbers: Vec<u64>, number: u64) -> Vec<u64>
    ensures behind { (length numbers.items < vec_capacity numbers) → result.items ≡ numbers.items ++ number ∷ [] }
    ensures room { vec_capacity result ≡ vec_capacity numbers }
{
    let mut numbers = numbers;
    if numbers.len() < numbers.capacity() {
        numbers.push_reserved(number);
    }
    numbers
}

/// A bag is closed.
pub fn bag_closed_at(world: &mut World<Val>, place: &Place, bag: Bag<u64, 32, Body>, guard: &Guard)
    requires place { IsPlaceOf world.old (index_of place.now) }
    requires home { IsOfCells world.old.home.cells bag }
    requires reader { reader_of guard.now ≡ reader_at world.old (index_of place.now) }
    requires bag { IsBag storage_in bag_length world.old bag }
    ensures closed { (es : List (Entry Val)) → StandsOn world.old bag es →
        ClosesBag holds_nothing bag_length world.old (index_of place.now) bag es world.new }
{
    // No command: one trait with its step for this call alone costs as much to prove as this.
    let mut turn = world.at(place);
    bag.close(guard, &mut turn);
}
