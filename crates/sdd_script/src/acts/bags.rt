//! What participants do with bags.
#![tactic(auto, using(sdd_interpreter::proofs::EnvironmentAnswers::in_hand))]

ghost use Rattle.std.specs.Prelude.{◌≡◌, MatchResult};
ghost use Rattle.sdd_script_model.specs.Script.{Acts};
ghost use Rattle.sdd_script_model.specs.ScriptState.{BeginsLine};
ghost use Rattle.sdd_script_text.specs.Actions as action;

use sdd_interpreter::Interpreter;
use sdd_interpreter::commands::ListCommand;
use sdd_interpreter::commands::bags::{AddNumber, DrainBag, MakeBag, TakeNumber, bag_closed_at};
use sdd_interpreter::items::{date_new, forget_new};
use sdd_interpreter::participants::{under, under_any};
use sdd_script_text::{BagName, Call, GuardName, Numbers, PlaceName, Reply};
use std::alloc::AllocError;

/// `P bag`: an empty bag, named. `NoCell` is a reply. Refused where memory for the name is, and then nothing has changed.
pub fn make_bag(interpreter: &mut Interpreter, name: PlaceName) -> Result<Reply, AllocError>
    ensures acts { MatchResult result (λ reply. Acts interpreter.old (Call.At name action.Bag) reply interpreter.new) (λ _. interpreter.new ≡ interpreter.old) }
{
    let Some(participant) = interpreter.environment.places.get(name.0) else {
        return Ok(Reply::Invalid);
    };
    interpreter.environment.lists.bags.make_room()?;
    interpreter.environment.world.is_whole();
    match MakeBag.at(&mut interpreter.environment.world, &participant.place) {
        Ok(bag) => {
            let name = interpreter.environment.lists.bags.give(bag);
            Ok(Reply::Bag(BagName(name)))
        }
        Err(refused) => Ok(Reply::Refused(refused)),
    }
}

/// `P add B n G`: puts a number into a bag. `NoSlot` and `NoCell` are replies, where a storage more is needed. Refused where memory is to tell what is new, and
/// then nothing has changed.
pub fn add(
    interpreter: &mut Interpreter,
    name: PlaceName,
    bag: BagName,
    number: u64,
    guard: GuardName,
) -> Result<Reply, AllocError>
    requires line { BeginsLine interpreter.old }
    ensures acts { MatchResult result (λ reply. Acts interpreter.old (Call.At name (action.Add bag number guard)) reply interpreter.new)
        (λ _. interpreter.new ≡ interpreter.old) }
{
    let Some((participant, held)) = under(
        &interpreter.environment.places,
        &interpreter.environment.guards,
        name,
        guard,
    ) else {
        return Ok(Reply::Invalid);
    };
    let Some(_) = interpreter.environment.lists.bags.get(bag.0) else {
        return Ok(Reply::Invalid);
    };
    interpreter.environment.world.is_whole();
    let free = interpreter
        .environment
        .log
        .free_by_slot(&interpreter.environment.world)?;
    let Some(taken) = interpreter.environment.lists.bags.take(bag.0) else {
        unreachable!()
    };
    let place = &participant.place;
    let (taken, added) = AddNumber {
        bag: taken,
        number,
        guard: &held.guard,
    }
    .at(&mut interpreter.environment.world, place);
    interpreter.environment.lists.bags.put_back(bag.0, taken);
    match added {
        Ok(()) => {
            forget_new(
                &mut interpreter.environment.log.names,
                &interpreter.environment.world,
                free.as_slice(),
            );
            Ok(Reply::Done)
        }
        Err(refused) => Ok(Reply::Refused(refused)),
    }
}

/// `P try B n`: puts a number among those that lie in the bag itself, where there is room.
pub fn try_add(interpreter: &mut Interpreter, name: PlaceName, bag: BagName, number: u64) -> Reply
    ensures acts { Acts interpreter.old (Call.At name (action.Try bag number)) result interpreter.new }
{
    let Some(_) = interpreter.environment.places.get(name.0) else {
        return Reply::Invalid;
    };
    let Some(_) = interpreter.environment.lists.bags.get(bag.0) else {
        return Reply::Invalid;
    };
    interpreter.environment.world.is_whole();
    let Some(mut taken) = interpreter.environment.lists.bags.take(bag.0) else {
        unreachable!()
    };
    let pushed = taken.try_push(number);
    interpreter.environment.lists.bags.put_back(bag.0, taken);
    match pushed {
        Ok(()) => Reply::Done,
        Err(back) => Reply::Kept(back),
    }
}

/// `P take B G`: takes some number out of a bag. Refused where memory is to tell what begins to wait, and then nothing has changed.
pub fn take(
    interpreter: &mut Interpreter,
    name: PlaceName,
    bag: BagName,
    guard: GuardName,
) -> Result<Reply, AllocError>
    ensures acts { MatchResult result (λ reply. Acts interpreter.old (Call.At name (action.Take bag guard)) reply interpreter.new)
        (λ _. interpreter.new ≡ interpreter.old) }
{
    let Some((participant, held)) = under(
        &interpreter.environment.places,
        &interpreter.environment.guards,
        name,
        guard,
    ) else {
        return Ok(Reply::Invalid);
    };
    let Some(_) = interpreter.environment.lists.bags.get(bag.0) else {
        return Ok(Reply::Invalid);
    };
    interpreter.environment.world.is_whole();
    let waited = interpreter
        .environment
        .log
        .waiting_by_slot(&interpreter.environment.world)?;
    let Some(taken) = interpreter.environment.lists.bags.take(bag.0) else {
        unreachable!()
    };
    let place = &participant.place;
    let (taken, number) = TakeNumber {
        bag: taken,
        guard: &held.guard,
    }
    .at(&mut interpreter.environment.world, place);
    interpreter.environment.lists.bags.put_back(bag.0, taken);
    let line = interpreter.environment.log.moment;
    date_new(
        &mut interpreter.environment.log.dates,
        &interpreter.environment.world,
        waited.as_slice(),
        line,
    );
    match number {
        Some(number) => Ok(Reply::Value(number)),
        None => Ok(Reply::Nothing),
    }
}

/// `P drain B G`: takes all numbers out of a bag, and tells them in ascending order. Refused where memory for them is, or to tell what begins to wait, and then
/// nothing has changed.
pub fn drain(
    interpreter: &mut Interpreter,
    name: PlaceName,
    bag: BagName,
    guard: GuardName,
) -> Result<Reply, AllocError>
    ensures acts { MatchResult result (λ reply. Acts interpreter.old (Call.At name (action.Drain bag guard)) reply interpreter.new)
        (λ _. interpreter.new ≡ interpreter.old) }
{
    let Some((participant, held)) = under(
        &interpreter.environment.places,
        &interpreter.environment.guards,
        name,
        guard,
    ) else {
        return Ok(Reply::Invalid);
    };
    let Some(its) = interpreter.environment.lists.bags.get(bag.0) else {
        return Ok(Reply::Invalid);
    };
    interpreter.environment.world.is_whole();
    let Ok(many) = usize::try_from(its.len()) else {
        return Err(AllocError);
    };
    let room = Vec::with_capacity(interpreter.environment.log.alloc, many)?;
    let waited = interpreter
        .environment
        .log
        .waiting_by_slot(&interpreter.environment.world)?;
    let Some(taken) = interpreter.environment.lists.bags.take(bag.0) else {
        unreachable!()
    };
    let place = &participant.place;
    let (taken, mut numbers) = DrainBag {
        bag: taken,
        guard: &held.guard,
        room,
    }
    .at(&mut interpreter.environment.world, place);
    interpreter.environment.lists.bags.put_back(bag.0, taken);
    let line = interpreter.environment.log.moment;
    date_new(
        &mut interpreter.environment.log.dates,
        &interpreter.environment.world,
        waited.as_slice(),
        line,
    );
    numbers.sort_unstable();
    Ok(Reply::Numbers(Numbers::of(numbers)))
}

/// `P len B G`: how many numbers are in a bag.
pub fn len(interpreter: &mut Interpreter, name: PlaceName, bag: BagName, guard: GuardName) -> Reply
    ensures acts { Acts interpreter.old (Call.At name (action.LenBag bag guard)) result interpreter.new }
{
    let Some(_) = under(
        &interpreter.environment.places,
        &interpreter.environment.guards,
        name,
        guard,
    ) else {
        return Reply::Invalid;
    };
    let Some(its) = interpreter.environment.lists.bags.get(bag.0) else {
        return Reply::Invalid;
    };
    interpreter.environment.world.is_whole();
    Reply::Many(its.len())
}

/// `P close B`: a bag is closed under a guard of the participant. Refused where memory is to tell what begins to wait, and then nothing has changed.
pub fn close_bag(
    interpreter: &mut Interpreter,
    name: PlaceName,
    bag: BagName,
) -> Result<Reply, AllocError>
    ensures acts { MatchResult result (λ reply. Acts interpreter.old (Call.At name (action.CloseBag bag)) reply interpreter.new)
        (λ _. interpreter.new ≡ interpreter.old) }
{
    let Some((participant, held)) = under_any(
        &interpreter.environment.places,
        &interpreter.environment.guards,
        name,
    ) else {
        return Ok(Reply::Invalid);
    };
    let Some(_) = interpreter.environment.lists.bags.get(bag.0) else {
        return Ok(Reply::Invalid);
    };
    interpreter.environment.world.is_whole();
    let waited = interpreter
        .environment
        .log
        .waiting_by_slot(&interpreter.environment.world)?;
    let Some(taken) = interpreter.environment.lists.bags.take(bag.0) else {
        unreachable!()
    };
    bag_closed_at(
        &mut interpreter.environment.world,
        &participant.place,
        taken,
        &held.guard,
    );
    let line = interpreter.environment.log.moment;
    date_new(
        &mut interpreter.environment.log.dates,
        &interpreter.environment.world,
        waited.as_slice(),
        line,
    );
    Ok(Reply::Done)
}
