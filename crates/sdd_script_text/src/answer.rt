//! The answers of a script, each of which is a line.

ghost use Rattle.std.specs.Prelude.{◌≡◌, ℕ, List, [], ◌∷◌, ◌++◌, codes, map, Some, OnOk, IfOk, IfErr, string_bytes};
ghost use Rattle.std.specs.Fmt.{◌++?◌, DisplaysOnOk, WritesOnOk};
ghost use Rattle.sdd_script_text.specs.Call.{joined};
ghost use Rattle.sdd_script_text.specs.declared.answer.Reply.TheVariants as Reply;
ghost use Rattle.sdd_script_text.specs.Name.{tag as word_of_tag};
ghost use Rattle.sdd_script_text.specs.Answer.{refusal, ending, words_of_reply, text_of, text_of_all, text_of_fault};

use crate::name::{
    BagName, CellName, CollectorName, GuardName, ItemName, JobName, Names, OwnerName, PlaceName,
    QueueName, StackName,
};
use crate::numbers::Numbers;
use sdd_core::inner::number_of_refusal;
use sdd_core::{Epoch, Refused, Tag};
use sdd_participants::Tally;
use std::alloc::{AllocError, Global};
use std::fmt::{self, Display};

/// What a call answered.
#[derive(Debug, Drop)]
pub enum Reply {
    /// `p0`: a new participant.
    Place(PlaceName),
    /// `made A reclaimed B in place C`: how many items there were.
    Tally(Tally),
    /// `g0 epoch E`: a new guard, and the epoch that it shows.
    Guard(GuardName, Epoch),
    /// An epoch, as its number.
    Epoch(Epoch),
    /// `true` or `false`.
    Truth(bool),
    /// `ok`: nothing else is to be told.
    Done,
    /// `deleted`: an entry was not put behind another, since that is deleted. Nothing changed.
    Deleted,
    /// `j0`: a new job, which waits.
    Job(JobName),
    /// `k0`: a new collector.
    Collector(CollectorName),
    /// `q0`: a new queue.
    Queue(QueueName),
    /// `s0`: a new stack.
    Stack(StackName),
    /// `b0`: a new bag.
    Bag(BagName),
    /// `o0 7`: the owner of an entry that was taken out, and its number.
    Popped(OwnerName, u64),
    /// `7`: how many numbers there are.
    Many(u128),
    /// `kept 7`: a number that was not put in.
    Kept(u64),
    /// `kept o0 7`: the owner of an entry that was not taken out, and its number.
    KeptEntry(OwnerName, u64),
    /// `1 2 3`, or `none`: numbers in order, as those of entries.
    Numbers(Numbers),
    /// `o0 i0`: a new owner of a new item.
    Item(OwnerName, ItemName),
    /// `o0`: an owner of an item that was there.
    Owner(OwnerName),
    /// `none`: no owner, no number, or nothing to see.
    Nothing,
    /// `i0`: the item that is out as raw.
    Raw(ItemName),
    /// A value that is a number, as `7`.
    Value(u64),
    /// `of i0`: a value that holds an owner of this item.
    Holding(ItemName),
    /// `c0`: a new cell.
    Cell(CellName),
    /// `i0 T` or `null T`: a pointer to an item, or to none, and its tag.
    Pointer(Option<ItemName>, Tag),
    /// A tag: `None`, `First`, `Second` or `Both`.
    Tag(Tag),
    /// `o0 T` or `none T`: the owner that a cell held, if any, and the cell's tag.
    Swapped(Option<OwnerName>, Tag),
    /// `ok o0` or `ok none`: a cell had what was expected, and held this owner, if any.
    Exchanged(Option<OwnerName>),
    /// `differs i0 T` or `differs null T`: a cell points to this, and not to what was expected. Nothing changed.
    Differs(Option<ItemName>, Tag),
    Refused(Refused),
    /// The call names what was never given, is spent or is of the wrong kind. Nothing changed.
    Invalid,
}

impl fmt::Display for Reply {
    ghost use Rattle.std.specs.Prelude.{Some};
    ghost use Rattle.sdd_script_text.specs.Call.{joined};
    ghost use Rattle.sdd_script_text.specs.Answer.{words_of_reply};

    ghost output = { λ reply. Some (joined (words_of_reply reply)) };

    fn fmt<W: fmt::Write>(&self, f: &mut fmt::Formatter<W>) -> fmt::Result {
        match self {
            Reply::Place(place) => place.fmt(f),
            Reply::Tally(tally) => write_tally(f, tally),
            Reply::Guard(guard, epoch) => write_three(f, *guard, "epoch", u8::from(*epoch)),
            Reply::Epoch(epoch) => u8::from(*epoch).fmt(f),
            Reply::Truth(truth) => truth.fmt(f),
            Reply::Done => f.write_str("ok"),
            Reply::Deleted => f.write_str("deleted"),
            Reply::Job(job) => job.fmt(f),
            Reply::Collector(collector) => collector.fmt(f),
            Reply::Queue(queue) => queue.fmt(f),
            Reply::Stack(stack) => stack.fmt(f),
            Reply::Bag(bag) => bag.fmt(f),
            Reply::Popped(owner, number) => write_two(f, *owner, *number),
            Reply::Many(many) => many.fmt(f),
            Reply::Kept(number) => write_two(f, "kept", *number),
            Reply::KeptEntry(owner, number) => write_three(f, "kept", *owner, *number),
            Reply::Numbers(numbers) => numbers.fmt(f),
            Reply::Item(owner, item) => write_two(f, *owner, *item),
            Reply::Owner(owner) => owner.fmt(f),
            Reply::Nothing => f.write_str("none"),
            Reply::Raw(item) => item.fmt(f),
            Reply::Value(value) => value.fmt(f),
            Reply::Holding(item) => write_two(f, "of", *item),
            Reply::Cell(cell) => cell.fmt(f),
            Reply::Pointer(item, tag) => write_two(f, Target(*item), name_of_tag(*tag)),
            Reply::Tag(tag) => f.write_str(name_of_tag(*tag)),
            Reply::Swapped(owner, tag) => write_two(f, Held(*owner), name_of_tag(*tag)),
            Reply::Exchanged(owner) => write_two(f, "ok", Held(*owner)),
            Reply::Differs(item, tag) => write_three(
                f,
                "differs",
                Target(*item),
                name_of_tag(*tag),
            ),
            Reply::Refused(refused) => write_refusal(f, *refused),
            Reply::Invalid => f.write_str("invalid"),
        }
    }
}

/// An owner, or `none`.
#[derive(Clone, Copy)]
struct Held(Option<OwnerName>);

impl fmt::Display for Held {
    ghost use Rattle.std.specs.Prelude.{Some};
    ghost use Rattle.sdd_script_text.specs.Answer.{held};

    ghost output = { λ owner. Some (held owner.0) };

    fn fmt<W: fmt::Write>(&self, f: &mut fmt::Formatter<W>) -> fmt::Result {
        match self.0 {
            Some(owner) => owner.fmt(f),
            None => f.write_str("none"),
        }
    }
}

/// An item, or `null`.
#[derive(Clone, Copy)]
struct Target(Option<ItemName>);

impl fmt::Display for Target {
    ghost use Rattle.std.specs.Prelude.{Some};
    ghost use Rattle.sdd_script_text.specs.Answer.{target};

    ghost output = { λ item. Some (target item.0) };

    fn fmt<W: fmt::Write>(&self, f: &mut fmt::Formatter<W>) -> fmt::Result {
        match self.0 {
            Some(item) => item.fmt(f),
            None => f.write_str("null"),
        }
    }
}

/// Writes two words, with a space between them.
fn write_two<W: fmt::Write, A: Display + Copy, B: Display + Copy>(
    f: &mut fmt::Formatter<W>,
    first: A,
    second: B,
) -> fmt::Result
    ensures { DisplaysOnOk W.write_str_gives f.old result (A.output first ++? Some (codes " ") ++? B.output second) f.new }
{
    write!(f, "{first} {second}")
}

/// Writes three words, with a space between two of them.
fn write_three<W: fmt::Write, A: Display + Copy, B: Display + Copy, C: Display + Copy>(
    f: &mut fmt::Formatter<W>,
    first: A,
    second: B,
    third: C,
) -> fmt::Result
    ensures { DisplaysOnOk W.write_str_gives f.old result (A.output first ++? Some (codes " ") ++? B.output second ++? Some
        (codes " ") ++? C.output third) f.new }
{
    write!(f, "{first} {second} {third}")
}

fn write_tally<W: fmt::Write>(f: &mut fmt::Formatter<W>, tally: &Tally) -> fmt::Result
    ensures { WritesOnOk W.write_str_gives f.old result (joined (words_of_reply (Reply.Tally tally.now))) f.new }
{
    let Tally {
        made,
        reclaimed,
        in_place,
    } = *tally;
    write!(f, "made {made} reclaimed {reclaimed} in place {in_place}")
}

fn write_refusal<W: fmt::Write>(f: &mut fmt::Formatter<W>, refused: Refused) -> fmt::Result
    ensures { WritesOnOk W.write_str_gives f.old result (joined (words_of_reply (Reply.Refused refused))) f.new }
{
    write!(
        f,
        "refused {} {}",
        number_of_refusal(refused),
        name_of(refused)
    )
}

/// An answer: the reply, and the items reclaimed and the jobs run during the call, as they are to be printed.
#[derive(Debug, Drop)]
pub struct Answer {
    pub reply: Reply,
    pub reclaimed: Names<ItemName>,
    pub ran: Names<JobName>,
}

/// The text of answers: a line for each, ended by a line feed.
///
/// Refused with `NoMemory` alone.
pub fn print_all(alloc: Global, answers: &[Answer]) -> Result<Vec<u8>, Refused>
    ensures text { IfOk result (λ bytes. bytes.items ≡ text_of_all answers.now) }
    ensures err { IfErr result (λ refused. refused ≡ Refused.NoMemory) }
{
    let mut text = String::new(alloc);
    for answer in answers {
        push_answer(&mut text, answer)?;
    }
    Ok(text.into_bytes())
}

/// The text that tells that the line with this number, counted from 1, is the first that is no call.
///
/// Refused with `NoMemory` alone.
pub fn print_fault(alloc: Global, line: u64) -> Result<Vec<u8>, Refused>
    ensures text { IfOk result (λ bytes. bytes.items ≡ text_of_fault line) }
    ensures err { IfErr result (λ refused. refused ≡ Refused.NoMemory) }
{
    let text = format!(in alloc; "line {line}: not a call\n")?;
    Ok(text.into_bytes())
}

fn push_answer(text: &mut String, answer: &Answer) -> Result<(), AllocError>
    ensures { OnOk result
        (string_bytes text.new ≡ string_bytes text.old ++ (text_of answer.now ++ 10 ∷ [])) }
{
    write!(text, "{}", answer.reply)?;
    push_ending(text, "reclaimed", answer.reclaimed.as_slice())?;
    push_ending(text, "ran", answer.ran.as_slice())?;
    text.push('\n')
}

/// Adds the heading and each name, each after a space, where there are names.
fn push_ending<N: fmt::Display>(
    text: &mut String,
    heading: &str,
    names: &[N],
) -> Result<(), AllocError>
    ensures { (shown : N → List ℕ) → ((name : N) → N.output name ≡ Some (shown name)) →
        OnOk result
        (string_bytes text.new ≡ string_bytes text.old ++ ending heading.now (map shown names.now)) }
{
    if names.is_empty() {
        return Ok(());
    }
    write!(text, " {heading}")?;
    for name in names {
        write!(text, " {name}")?;
    }
    Ok(())
}

fn name_of(refused: Refused) -> &'static str
    ensures { result.now ≡ refusal refused }
{
    match refused {
        Refused::NoSlot => "NoSlot",
        Refused::NoCell => "NoCell",
        Refused::NoJob => "NoJob",
        Refused::NoPlace => "NoPlace",
        Refused::NoMemory => "NoMemory",
        Refused::TooManyGuards => "TooManyGuards",
        Refused::GuardOpen => "GuardOpen",
        Refused::NotAlone => "NotAlone",
        Refused::OwnerOut => "OwnerOut",
        Refused::Contended => "Contended",
        Refused::TooManyOwners => "TooManyOwners",
        Refused::BadLimits => "BadLimits",
    }
}

fn name_of_tag(tag: Tag) -> &'static str
    ensures { result.now ≡ word_of_tag tag }
{
    match tag {
        Tag::None => "None",
        Tag::First => "First",
        Tag::Second => "Second",
        Tag::Both => "Both",
    }
}
