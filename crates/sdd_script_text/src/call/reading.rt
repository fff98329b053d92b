//! Reading a line, word by word.

ghost use Rattle.std.specs.Prelude.{◌≡◌, [], ◌∷◌, ◌<◌, Some, IfSome, MatchOption, map};
ghost use Rattle.std.specs.List.{AllByRecursion};
ghost use Rattle.std.specs.Fmt.{decimal};
ghost use Rattle.sdd_script_text.specs.Call.{IsNumber, HasNumber, word_of, spoken, HasNumbers, words, words_of};
ghost use Rattle.sdd_script_text.specs.Reading.{IsNumberOf, numbered_at, argument_at, numbered_argument_at, few_arguments_at, with_arguments, with_eight, with_four, with_list, with_list_number, with_one, with_three, with_two, called, action_at, call_at};

use super::arguments::Arguments;
use super::{
    Action, Argument, BagAction, Call, CellAction, CollectorAction, ContainerAction, EntryAction,
    GuardAction, HeldAction, ItemAction, LinkAction, RawAction, Value, Word,
};
use crate::first::split_word;
use crate::name::{
    BagName, CellName, CollectorName, GuardName, ItemName, ListName, OwnerName, PlaceName,
    QueueName, StackName,
};
use sdd_core::Tag;

/// The number that a word is in its one form: without a sign and without a leading zero.
#[tactic(auto, using(crate::proofs::Lines::one_form))]
pub(crate) fn number(word: &str) -> Option<u64>
    ensures { IsNumberOf word.now result }
{
    match word.as_bytes() {
        [b'+', ..] | [b'0', _, ..] => None,
        _ => word.parse().ok(),
    }
}

/// The number of a name with this letter.
#[tactic(auto, using(crate::proofs::Lines::lettered))]
fn numbered(letter: char, word: &str) -> Option<u64>
    requires { letter < 128 }
    ensures is { result ≡ numbered_at letter word.now }
    ensures sound { IfSome result (λ n. IsNumber n × (letter ∷ decimal n ≡ word.now)) }
{
    number(word.strip_prefix(letter)?)
}

#[tactic(auto, using(crate::proofs::Lines::one_argument))]
fn argument(word: &str) -> Option<Argument>
    ensures { result ≡ argument_at word.now }
{
    match word {
        "none" => Some(Argument::Owner(None)),
        "null" => Some(Argument::Item(None)),
        "None" => Some(Argument::Tag(Tag::None)),
        "First" => Some(Argument::Tag(Tag::First)),
        "Second" => Some(Argument::Tag(Tag::Second)),
        "Both" => Some(Argument::Tag(Tag::Both)),
        "owned" => Some(Argument::Word(Word::Owned)),
        "shared" => Some(Argument::Word(Word::Shared)),
        "of" => Some(Argument::Word(Word::Of)),
        "if" => Some(Argument::Word(Word::If)),
        "was" => Some(Argument::Word(Word::Was)),
        "now" => Some(Argument::Word(Word::Now)),
        "mark" => Some(Argument::Word(Word::Mark)),
        "plain" => Some(Argument::Word(Word::Plain)),
        _ => numbered_argument(word),
    }
}

/// A number by itself, or behind a letter that says what it names.
#[tactic(auto, using(crate::proofs::Lines::one_argument))]
fn numbered_argument(word: &str) -> Option<Argument>
    ensures { result ≡ numbered_argument_at word.now }
{
    match word.as_bytes() {
        [b'g', ..] => Some(Argument::Guard(GuardName(numbered('g', word)?))),
        [b'o', ..] => Some(Argument::Owner(Some(OwnerName(numbered('o', word)?)))),
        [b'i', ..] => Some(Argument::Item(Some(ItemName(numbered('i', word)?)))),
        [b'c', ..] => Some(Argument::Cell(CellName(numbered('c', word)?))),
        [b'k', ..] => Some(Argument::Collector(CollectorName(numbered('k', word)?))),
        [b'q', ..] => Some(Argument::Queue(QueueName(numbered('q', word)?))),
        [b's', ..] => Some(Argument::Stack(StackName(numbered('s', word)?))),
        [b'b', ..] => Some(Argument::Bag(BagName(numbered('b', word)?))),
        _ => Some(Argument::Number(number(word)?)),
    }
}

/// The arguments that the words of a text are, or `None` where one is none or they are too many.
#[tactic(auto, using(crate::proofs::Lines::by_word))]
fn arguments(text: &str) -> Option<Arguments>
    ensures is { result ≡ few_arguments_at (words text.now) }
    ensures sound { IfSome result (λ arguments. AllByRecursion HasNumber arguments × (map word_of arguments ≡ words text.now)) }
{
    let mut found = Arguments::none();
    let mut rest = text;
    while let Some((word, after)) = split_word(rest) {
        found.push(argument(word)?)?;
        rest = after;
    }
    found.push(argument(rest)?)?;
    Some(found)
}

/// The verbs, each with its arguments.
fn spoken(verb: &str, arguments: &[Argument]) -> Option<Action>
    ensures { result ≡ called verb.now (with_arguments arguments.now) }
{
    match *arguments {
        [] => with_none(verb),
        [argument] => with_one(verb, argument),
        [first, second] => with_two(verb, first, second),
        [first, second, third] => with_three(verb, first, second, third),
        [first, second, third, fourth] => with_four(verb, first, second, third, fourth),
        [cell, guard, was, item, old, now, held, tag] => {
            with_eight(verb, (cell, guard, was, item), (old, now, held, tag))
        }
        _ => None,
    }
}

/// The verbs with no argument.
fn with_none(verb: &str) -> Option<Action>
    ensures { result ≡ called verb.now (with_arguments []) }
{
    match verb {
        "open" => Some(Action::Open),
        "collector" => Some(Action::Collector(CollectorAction::Make)),
        "queue" => Some(Action::Container(ContainerAction::Queue)),
        "stack" => Some(Action::Container(ContainerAction::Stack)),
        "bag" => Some(Action::Bag(BagAction::Make)),
        "end" => Some(Action::End),
        _ => None,
    }
}

/// The verb with eight arguments: the first four say what is looked for, and the last four what is put in its place.
fn with_eight(
    verb: &str,
    sought: (Argument, Argument, Argument, Argument),
    put: (Argument, Argument, Argument, Argument),
) -> Option<Action>
    ensures { result ≡ called verb.now (with_eight sought.0 sought.1 sought.2 sought.3 put.0 put.1 put.2 put.3) }
{
    let (
        Argument::Cell(cell),
        Argument::Guard(guard),
        Argument::Word(Word::Was),
        Argument::Item(item),
    ) = sought
    else {
        return None;
    };
    let (Argument::Tag(old), Argument::Word(Word::Now), Argument::Owner(held), Argument::Tag(tag)) =
        put
    else {
        return None;
    };
    match verb {
        "cas" => Some(Action::Held(HeldAction::Exchange(cell, guard, item, old, held, tag))),
        _ => None,
    }
}

/// The verbs with a number.
fn with_number(verb: &str, number: u64) -> Option<Action>
    ensures { result ≡ called verb.now (with_one (Argument.Number number)) }
{
    match verb {
        "owned" => Some(Action::Item(ItemAction::Owned(Value::Number(number)))),
        "shared" => Some(Action::Item(ItemAction::Shared(Value::Number(number)))),
        _ => None,
    }
}

/// The verbs with a guard.
fn with_guard(verb: &str, guard: GuardName) -> Option<Action>
    ensures { result ≡ called verb.now (with_one (Argument.Guard guard)) }
{
    match verb {
        "epoch" => Some(Action::Guard(GuardAction::Epoch(guard))),
        "garbage" => Some(Action::Guard(GuardAction::Garbage(guard))),
        "set" => Some(Action::Guard(GuardAction::Set(guard))),
        "accelerate" => Some(Action::Guard(GuardAction::Accelerate(guard))),
        "defer" => Some(Action::Guard(GuardAction::Defer(guard))),
        "close" => Some(Action::Guard(GuardAction::Close(guard))),
        _ => None,
    }
}

/// The verbs with an owner.
fn with_owner(verb: &str, owner: OwnerName) -> Option<Action>
    ensures { result ≡ called verb.now (with_one (Argument.Owner (Some owner))) }
{
    match verb {
        "read" => Some(Action::Item(ItemAction::Read(owner))),
        "retire" => Some(Action::Item(ItemAction::Retire(owner))),
        "release" => Some(Action::Item(ItemAction::Release(owner))),
        "clone" => Some(Action::Item(ItemAction::Clone(owner))),
        "drop" => Some(Action::Raw(RawAction::Drop(owner))),
        "raw" => Some(Action::Raw(RawAction::Raw(owner))),
        _ => None,
    }
}

/// The verbs with a cell.
fn with_cell(verb: &str, cell: CellName) -> Option<Action>
    ensures { result ≡ called verb.now (with_one (Argument.Cell cell)) }
{
    match verb {
        "tag" => Some(Action::Cell(CellAction::Tag(cell))),
        "into" => Some(Action::Held(HeldAction::Into(cell))),
        "close" => Some(Action::Cell(CellAction::Close(cell))),
        _ => None,
    }
}

/// The verbs with an item.
fn with_item(verb: &str, item: ItemName) -> Option<Action>
    ensures { result ≡ called verb.now (with_one (Argument.Item (Some item))) }
{
    match verb {
        "unraw" => Some(Action::Raw(RawAction::Unraw(item))),
        "mark" => Some(Action::Link(LinkAction::Mark(item))),
        "unmark" => Some(Action::Link(LinkAction::Unmark(item))),
        "delete" => Some(Action::Link(LinkAction::Delete(item))),
        "linktag" => Some(Action::Link(LinkAction::Tag(item))),
        _ => None,
    }
}

/// The verbs with one argument.
fn with_one(verb: &str, argument: Argument) -> Option<Action>
    ensures { result ≡ called verb.now (with_one argument) }
{
    match argument {
        Argument::Number(number) => with_number(verb, number),
        Argument::Guard(guard) => with_guard(verb, guard),
        Argument::Owner(Some(owner)) => with_owner(verb, owner),
        Argument::Cell(cell) => with_cell(verb, cell),
        Argument::Item(Some(item)) => with_item(verb, item),
        Argument::Queue(queue) => match verb {
            "close" => Some(Action::Container(ContainerAction::CloseQueue(queue))),
            _ => None,
        },
        Argument::Stack(stack) => match verb {
            "close" => Some(Action::Container(ContainerAction::CloseStack(stack))),
            _ => None,
        },
        Argument::Bag(bag) => match verb {
            "close" => Some(Action::Bag(BagAction::Close(bag))),
            _ => None,
        },
        Argument::Collector(collector) => match verb {
            "close" => Some(Action::Collector(CollectorAction::Close(collector))),
            _ => None,
        },
        _ => None,
    }
}

/// The verbs with a container and a guard.
fn with_list(verb: &str, list: ListName, guard: GuardName) -> Option<Action>
    ensures { result ≡ called verb.now (with_list list guard) }
{
    match verb {
        "pop" => Some(Action::Entry(EntryAction::Pop(list, guard))),
        "peek" => Some(Action::Entry(EntryAction::Peek(list, guard))),
        "len" => Some(Action::Entry(EntryAction::Len(list, guard))),
        "list" => Some(Action::Entry(EntryAction::List(list, guard))),
        "clonelist" => Some(Action::Container(ContainerAction::Clone(list, guard))),
        _ => None,
    }
}

/// The verbs with a container, a number and a guard.
fn with_list_number(verb: &str, list: ListName, number: u64, guard: GuardName) -> Option<Action>
    ensures { result ≡ called verb.now (with_list_number list number guard) }
{
    match verb {
        "push" => Some(Action::Entry(EntryAction::Push(list, number, guard))),
        "popif" => Some(Action::Entry(EntryAction::PopIf(list, number, guard))),
        _ => None,
    }
}

/// The verbs with a bag and a guard.
fn with_bag(verb: &str, bag: BagName, guard: GuardName) -> Option<Action>
    ensures { result ≡ called verb.now (with_two (Argument.Bag bag) (Argument.Guard guard)) }
{
    match verb {
        "take" => Some(Action::Bag(BagAction::Take(bag, guard))),
        "drain" => Some(Action::Bag(BagAction::Drain(bag, guard))),
        "len" => Some(Action::Bag(BagAction::Len(bag, guard))),
        _ => None,
    }
}

/// The verbs with a stack and a guard.
fn with_stack(verb: &str, stack: StackName, guard: GuardName) -> Option<Action>
    ensures { result ≡ called verb.now (with_two (Argument.Stack stack) (Argument.Guard guard)) }
{
    match verb {
        "all" => Some(Action::Container(ContainerAction::All(stack, guard))),
        _ => with_list(verb, ListName::Stack(stack), guard),
    }
}

/// The verbs with an item and a guard.
fn with_item_and_guard(verb: &str, item: ItemName, guard: GuardName) -> Option<Action>
    ensures { result ≡ called verb.now (with_two (Argument.Item (Some item)) (Argument.Guard guard)) }
{
    match verb {
        "look" => Some(Action::Item(ItemAction::Look(item, guard))),
        "upgrade" => Some(Action::Item(ItemAction::Upgrade(item, guard))),
        "see" => Some(Action::Raw(RawAction::See(item, guard))),
        "next" => Some(Action::Link(LinkAction::Next(item, guard))),
        _ => None,
    }
}

/// The verbs with a guard behind another argument.
fn with_guard_behind(verb: &str, first: Argument, guard: GuardName) -> Option<Action>
    ensures { result ≡ called verb.now (with_two first (Argument.Guard guard)) }
{
    match first {
        Argument::Item(Some(item)) => with_item_and_guard(verb, item, guard),
        Argument::Queue(queue) => with_list(verb, ListName::Queue(queue), guard),
        Argument::Stack(stack) => with_stack(verb, stack, guard),
        Argument::Bag(bag) => with_bag(verb, bag, guard),
        Argument::Cell(cell) => match verb {
            "load" => Some(Action::Cell(CellAction::Load(cell, guard))),
            "copy" => Some(Action::Held(HeldAction::Copy(cell, guard))),
            "share" => Some(Action::Held(HeldAction::Share(cell, guard))),
            _ => None,
        },
        _ => None,
    }
}

/// The verbs with a word behind which an owner, or `none`, stands.
fn with_owner_behind(verb: &str, word: Word, held: Option<OwnerName>) -> Option<Action>
    ensures { result ≡ called verb.now (with_two (Argument.Word word) (Argument.Owner held)) }
{
    match word {
        Word::Of => {
            let owner = held?;
            match verb {
                "owned" => Some(Action::Item(ItemAction::Owned(Value::Of(owner)))),
                "shared" => Some(Action::Item(ItemAction::Shared(Value::Of(owner)))),
                _ => None,
            }
        }
        Word::Owned => match verb {
            "cell" => Some(Action::Cell(CellAction::Owned(held))),
            _ => None,
        },
        Word::Shared => match verb {
            "cell" => Some(Action::Cell(CellAction::Shared(held))),
            _ => None,
        },
        _ => None,
    }
}

/// The verbs with two arguments.
fn with_two(verb: &str, first: Argument, second: Argument) -> Option<Action>
    ensures { result ≡ called verb.now (with_two first second) }
{
    match second {
        Argument::Guard(guard) => with_guard_behind(verb, first, guard),
        Argument::Owner(held) => match first {
            Argument::Word(word) => with_owner_behind(verb, word, held),
            _ => None,
        },
        Argument::Number(number) => match first {
            Argument::Owner(Some(owner)) => match verb {
                "put" => Some(Action::Raw(RawAction::Put(owner, number))),
                _ => None,
            },
            Argument::Bag(bag) => match verb {
                "try" => Some(Action::Bag(BagAction::Try(bag, number))),
                _ => None,
            },
            _ => None,
        },
        _ => None,
    }
}

/// The verbs with a number and a guard behind another argument.
fn with_number_and_guard(
    verb: &str,
    first: Argument,
    number: u64,
    guard: GuardName,
) -> Option<Action>
    ensures { result ≡ called verb.now (with_three first (Argument.Number number) (Argument.Guard guard)) }
{
    match first {
        Argument::Queue(queue) => with_list_number(verb, ListName::Queue(queue), number, guard),
        Argument::Stack(stack) => with_list_number(verb, ListName::Stack(stack), number, guard),
        Argument::Bag(bag) => match verb {
            "add" => Some(Action::Bag(BagAction::Add(bag, number, guard))),
            _ => None,
        },
        _ => None,
    }
}

/// The verbs with three arguments.
fn with_three(verb: &str, first: Argument, second: Argument, third: Argument) -> Option<Action>
    ensures { result ≡ called verb.now (with_three first second third) }
{
    match (second, third) {
        (Argument::Number(number), Argument::Guard(guard)) => {
            with_number_and_guard(verb, first, number, guard)
        }
        (Argument::Owner(held), Argument::Tag(tag)) => match first {
            Argument::Cell(cell) => match verb {
                "swap" => Some(Action::Held(HeldAction::Swap(cell, held, tag))),
                _ => None,
            },
            _ => None,
        },
        (Argument::Guard(guard), Argument::Collector(collector)) => match first {
            Argument::Owner(Some(owner)) => match verb {
                "collect" => Some(Action::Collector(CollectorAction::Collect(
                    owner, guard, collector,
                ))),
                _ => None,
            },
            _ => None,
        },
        _ => None,
    }
}

/// The verbs with an item, an owner, a word and a guard.
fn with_entry(
    verb: &str,
    item: ItemName,
    owner: OwnerName,
    word: Word,
    guard: GuardName,
) -> Option<Action>
    ensures { result ≡ called verb.now (with_four (Argument.Item (Some item)) (Argument.Owner (Some owner)) (Argument.Word word) (Argument.Guard guard)) }
{
    match word {
        Word::Mark => match verb {
            "append" => Some(Action::Link(LinkAction::Append(item, owner, true, guard))),
            _ => None,
        },
        Word::Plain => match verb {
            "append" => Some(Action::Link(LinkAction::Append(item, owner, false, guard))),
            _ => None,
        },
        _ => None,
    }
}

/// The verbs with four arguments.
fn with_four(
    verb: &str,
    first: Argument,
    second: Argument,
    third: Argument,
    fourth: Argument,
) -> Option<Action>
    ensures { result ≡ called verb.now (with_four first second third fourth) }
{
    match (first, second, third, fourth) {
        (Argument::Cell(cell), Argument::Tag(tag), Argument::Word(Word::If), Argument::Tag(old)) =>
            match verb {
                "tagif" => Some(Action::Cell(CellAction::TagIf(cell, tag, old))),
                _ => None,
            },
        (
            Argument::Queue(queue),
            Argument::Number(number),
            Argument::Number(newest),
            Argument::Guard(guard),
        ) => match verb {
            "pushif" => Some(Action::Entry(EntryAction::PushIf(
                ListName::Queue(queue),
                number,
                newest,
                guard,
            ))),
            _ => None,
        },
        (
            Argument::Stack(stack),
            Argument::Number(number),
            Argument::Number(newest),
            Argument::Guard(guard),
        ) => match verb {
            "pushif" => Some(Action::Entry(EntryAction::PushIf(
                ListName::Stack(stack),
                number,
                newest,
                guard,
            ))),
            _ => None,
        },
        (
            Argument::Item(Some(item)),
            Argument::Owner(Some(owner)),
            Argument::Word(word),
            Argument::Guard(guard),
        ) => with_entry(verb, item, owner, word, guard),
        _ => None,
    }
}

#[tactic(auto, using(crate::proofs::Lines::by_verb))]
fn action(text: &str) -> Option<Action>
    ensures is { result ≡ action_at (words text.now) }
    ensures sound { IfSome result (λ action. AllByRecursion HasNumber (spoken action).1
        × ((spoken action).0 ∷ map word_of (spoken action).1 ≡ words text.now)) }
{
    match split_word(text) {
        Some((verb, rest)) => spoken(verb, arguments(rest)?.as_slice()),
        None => spoken(text, &[]),
    }
}

pub(super) fn call(text: &str) -> Option<Call>
    ensures is { result ≡ call_at text.now }
    ensures sound { IfSome result (λ call. HasNumbers call × (words_of call ≡ words text.now)) }
{
    match text {
        "register" => Some(Call::Register),
        "tally" => Some(Call::Tally),
        _ => {
            let (first, rest) = split_word(text)?;
            Some(Call::At(PlaceName(numbered('p', first)?), action(rest)?))
        }
    }
}
