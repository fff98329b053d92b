//! What participants do, by what it is about, and what each action answers.
ghost use Rattle.std.specs.Prelude.{◌≡◌, MatchResult};
ghost use Rattle.sdd_script_model.specs.ScriptState.{BeginsLine};
ghost use Rattle.sdd_script_model.specs.Script.{Acts, Answers};

use crate::acts::{
    bags, cells, collectors, containers, copies, entries, exchanges, guards, items, links, owners,
    queues, raw, stacks,
};
use sdd_core::Refused;
use sdd_interpreter::Interpreter;
use sdd_interpreter::commands::guards::GuardUse;
use sdd_script_model::{LinkChange, OwnerKind};
use sdd_script_text::{
    Action, Answer, BagAction, Call, CellAction, CollectorAction, ContainerAction, EntryAction,
    GuardAction, HeldAction, ItemAction, LinkAction, PlaceName, RawAction, Reply,
};

/// An action on an open guard.
pub fn act_on_guard(interpreter: &mut Interpreter, name: PlaceName, action: GuardAction) -> Reply
    requires line { BeginsLine interpreter.old }
    ensures acts { Acts interpreter.old (Call.At name (Action.Guard action)) result interpreter.new }
{
    match action {
        GuardAction::Epoch(guard) => guards::use_guard(interpreter, name, guard, GuardUse::Epoch),
        GuardAction::Garbage(guard) => guards::use_guard(
            interpreter,
            name,
            guard,
            GuardUse::Garbage,
        ),
        GuardAction::Set(guard) => guards::use_guard(interpreter, name, guard, GuardUse::Set),
        GuardAction::Accelerate(guard) => guards::use_guard(
            interpreter,
            name,
            guard,
            GuardUse::Accelerate,
        ),
        GuardAction::Defer(guard) => guards::defer(interpreter, name, guard),
        GuardAction::Close(guard) => guards::close_guard(interpreter, name, guard),
    }
}

/// An action on an item or its owners.
pub fn act_on_item(
    interpreter: &mut Interpreter,
    name: PlaceName,
    action: ItemAction,
) -> Result<Reply, Refused>
    ensures acts { MatchResult result (λ reply. Acts interpreter.old (Call.At name (Action.Item action)) reply interpreter.new)
        (λ refused. (refused ≡ Refused.NoMemory) × (interpreter.new ≡ interpreter.old)) }
{
    Ok(match action {
        ItemAction::Owned(value) => items::make(interpreter, name, value, OwnerKind::Sole)?,
        ItemAction::Shared(value) => items::make(interpreter, name, value, OwnerKind::Shared)?,
        ItemAction::Read(owner) => items::read(interpreter, name, owner),
        ItemAction::Look(item, guard) => items::look(interpreter, name, item, guard),
        ItemAction::Upgrade(item, guard) => owners::upgrade(interpreter, name, item, guard)?,
        ItemAction::Retire(owner) => owners::retire(interpreter, name, owner),
        ItemAction::Release(owner) => owners::release(interpreter, name, owner),
        ItemAction::Clone(owner) => owners::clone_owner(interpreter, name, owner)?,
    })
}

/// An action on an item in its place, or out as raw.
pub fn act_on_raw(
    interpreter: &mut Interpreter,
    name: PlaceName,
    action: RawAction,
) -> Result<Reply, Refused>
    ensures acts { MatchResult result (λ reply. Acts interpreter.old (Call.At name (Action.Raw action)) reply interpreter.new)
        (λ refused. (refused ≡ Refused.NoMemory) × (interpreter.new ≡ interpreter.old)) }
{
    Ok(match action {
        RawAction::Put(owner, number) => raw::put(interpreter, name, owner, number),
        RawAction::Drop(owner) => raw::drop_owner(interpreter, name, owner)?,
        RawAction::Raw(owner) => raw::put_out_raw(interpreter, name, owner),
        RawAction::Unraw(item) => raw::take_back_raw(interpreter, name, item)?,
        RawAction::See(item, guard) => raw::see(interpreter, name, item, guard),
    })
}

/// An action on a collector; its close names what it reclaims.
pub fn act_on_collector(
    interpreter: &mut Interpreter,
    name: PlaceName,
    action: CollectorAction,
) -> Result<Answer, Refused>
    ensures answers { MatchResult result (λ answer. Answers interpreter.old (Call.At name (Action.Collector action)) answer interpreter.new)
        (λ refused. (refused ≡ Refused.NoMemory) × (interpreter.new ≡ interpreter.old)) }
{
    match action {
        CollectorAction::Make => {
            let reply = collectors::make_collector(interpreter, name)?;
            Ok(interpreter.answer(reply))
        }
        CollectorAction::Collect(owner, guard, collector) => {
            let reply = collectors::collect(interpreter, name, owner, guard, collector);
            Ok(interpreter.answer(reply))
        }
        CollectorAction::Close(collector) => {
            Ok(collectors::close_collector(interpreter, name, collector)?)
        }
    }
}

/// An action on a cell as a whole.
pub fn act_on_cell(
    interpreter: &mut Interpreter,
    name: PlaceName,
    action: CellAction,
) -> Result<Reply, Refused>
    ensures acts { MatchResult result (λ reply. Acts interpreter.old (Call.At name (Action.Cell action)) reply interpreter.new)
        (λ refused. (refused ≡ Refused.NoMemory) × (interpreter.new ≡ interpreter.old)) }
{
    Ok(match action {
        CellAction::Owned(owner) => cells::make_cell(interpreter, name, owner, OwnerKind::Sole)?,
        CellAction::Shared(owner) => cells::make_cell(interpreter, name, owner, OwnerKind::Shared)?,
        CellAction::Load(cell, guard) => cells::load(interpreter, name, cell, guard),
        CellAction::Tag(cell) => cells::tag(interpreter, name, cell),
        CellAction::TagIf(cell, tag, was) => cells::set_tag_if(interpreter, name, cell, tag, was),
        CellAction::Close(cell) => cells::close_cell(interpreter, name, cell),
    })
}

/// An action on the owner that a cell holds.
pub fn act_on_held(
    interpreter: &mut Interpreter,
    name: PlaceName,
    action: HeldAction,
) -> Result<Reply, Refused>
    ensures acts { MatchResult result (λ reply. Acts interpreter.old (Call.At name (Action.Held action)) reply interpreter.new)
        (λ refused. (refused ≡ Refused.NoMemory) × (interpreter.new ≡ interpreter.old)) }
{
    Ok(match action {
        HeldAction::Swap(cell, owner, tag) => exchanges::swap(interpreter, name, cell, owner, tag)?,
        HeldAction::Exchange(cell, guard, item, was, owner, tag) => {
            exchanges::exchange(interpreter, name, cell, guard, item, was, owner, tag)?
        }
        HeldAction::Into(cell) => exchanges::into_owner(interpreter, name, cell)?,
        HeldAction::Copy(cell, guard) => exchanges::copy(interpreter, name, cell, guard)?,
        HeldAction::Share(cell, guard) => exchanges::share(interpreter, name, cell, guard)?,
    })
}

/// An action on the link of an entry.
pub fn act_on_link(
    interpreter: &mut Interpreter,
    name: PlaceName,
    action: LinkAction,
) -> Result<Reply, Refused>
    ensures acts { MatchResult result (λ reply. Acts interpreter.old (Call.At name (Action.Link action)) reply interpreter.new)
        (λ refused. (refused ≡ Refused.NoMemory) × (interpreter.new ≡ interpreter.old)) }
{
    Ok(match action {
        LinkAction::Mark(item) => links::change_link(interpreter, name, item, LinkChange::Mark),
        LinkAction::Unmark(item) => links::change_link(interpreter, name, item, LinkChange::Unmark),
        LinkAction::Delete(item) => links::change_link(interpreter, name, item, LinkChange::Delete),
        LinkAction::Tag(item) => links::link_tag(interpreter, name, item),
        LinkAction::Append(item, owner, mark, guard) => {
            links::append(interpreter, name, item, owner, mark, guard)
        }
        LinkAction::Next(item, guard) => links::next(interpreter, name, item, guard)?,
    })
}

/// An action on a queue or a stack as a whole.
pub fn act_on_container(
    interpreter: &mut Interpreter,
    name: PlaceName,
    action: ContainerAction,
) -> Result<Reply, Refused>
    requires line { BeginsLine interpreter.old }
    ensures acts { MatchResult result (λ reply. Acts interpreter.old (Call.At name (Action.Container action)) reply interpreter.new)
        (λ refused. (refused ≡ Refused.NoMemory) × (interpreter.new ≡ interpreter.old)) }
{
    Ok(match action {
        ContainerAction::Queue => queues::make_queue(interpreter, name)?,
        ContainerAction::Stack => stacks::make_stack(interpreter, name)?,
        ContainerAction::All(stack, guard) => stacks::pour(interpreter, name, stack, guard)?,
        ContainerAction::Clone(list, guard) => copies::copy_list(interpreter, name, list, guard)?,
        ContainerAction::CloseQueue(queue) => queues::close_queue(interpreter, name, queue)?,
        ContainerAction::CloseStack(stack) => stacks::close_stack(interpreter, name, stack)?,
    })
}

/// An action on the entries of a queue or a stack.
pub fn act_on_entry(
    interpreter: &mut Interpreter,
    name: PlaceName,
    action: EntryAction,
) -> Result<Reply, Refused>
    ensures acts { MatchResult result (λ reply. Acts interpreter.old (Call.At name (Action.Entry action)) reply interpreter.new)
        (λ refused. (refused ≡ Refused.NoMemory) × (interpreter.new ≡ interpreter.old)) }
{
    Ok(match action {
        EntryAction::Push(list, number, guard) => {
            entries::push(interpreter, name, list, number, None, guard)?
        }
        EntryAction::PushIf(list, number, newest, guard) => {
            entries::push(interpreter, name, list, number, Some(newest), guard)?
        }
        EntryAction::Pop(list, guard) => entries::pop(interpreter, name, list, None, guard)?,
        EntryAction::PopIf(list, first, guard) => {
            entries::pop(interpreter, name, list, Some(first), guard)?
        }
        EntryAction::Peek(list, guard) => containers::peek(interpreter, name, list, guard),
        EntryAction::Len(list, guard) => containers::len(interpreter, name, list, guard),
        EntryAction::List(list, guard) => containers::list(interpreter, name, list, guard)?,
    })
}

/// An action on a bag.
pub fn act_on_bag(
    interpreter: &mut Interpreter,
    name: PlaceName,
    action: BagAction,
) -> Result<Reply, Refused>
    requires line { BeginsLine interpreter.old }
    ensures acts { MatchResult result (λ reply. Acts interpreter.old (Call.At name (Action.Bag action)) reply interpreter.new)
        (λ refused. (refused ≡ Refused.NoMemory) × (interpreter.new ≡ interpreter.old)) }
{
    Ok(match action {
        BagAction::Make => bags::make_bag(interpreter, name)?,
        BagAction::Add(bag, number, guard) => bags::add(interpreter, name, bag, number, guard)?,
        BagAction::Try(bag, number) => bags::try_add(interpreter, name, bag, number),
        BagAction::Take(bag, guard) => bags::take(interpreter, name, bag, guard)?,
        BagAction::Drain(bag, guard) => bags::drain(interpreter, name, bag, guard)?,
        BagAction::Len(bag, guard) => bags::len(interpreter, name, bag, guard),
        BagAction::Close(bag) => bags::close_bag(interpreter, name, bag)?,
    })
}
