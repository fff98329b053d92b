//! What participants do with the links of entries.
ghost use Rattle.std.specs.Prelude.{◌≡◌, false, true, List, MatchOption, Some, ◌≢◌, ◌↔◌, IsTrue};
ghost use Rattle.sdd_core.specs.declared.tag.Tag.{Tag as TagOf};
ghost use Rattle.sdd_participants.specs.Slab.{entry_at};
ghost use Rattle.sdd_participants.specs.declared.standing.CellContents.{CellContents};
ghost use Rattle.sdd_space.specs.Guard.{reader_of};
ghost use Rattle.sdd_space.specs.Shared.{holding_of, slot_of, slots_home};
ghost use Rattle.sdd_world_model.specs.World.{value_at, World, IsPlaceOf};
ghost use Rattle.sdd_lists.specs.Behind.{IsFresh, mark_tag};
ghost use Rattle.sdd_lists.specs.Lists.{Entry, IsList, first_slot, left, linked_in, trimmed};
ghost use Rattle.sdd_lists.specs.Marks.{says_deleted};
ghost use Rattle.sdd_script_model.specs.Link.{may_change, retagged};
ghost use Rattle.sdd_script_model.specs.Val.{Val, link_home, link_of};
ghost use Rattle.sdd_space.specs.CallerId.{reader_at};
ghost use Rattle.sdd_world_model.specs.UnderGuards.{CannotGo};
ghost use Rattle.sdd_world.specs.Place.{index_of};
ghost use Rattle.sdd_script_model.specs.Appending.{IsLooseEntry};

use crate::commands::items::value_shown;
use crate::commands::step::{CellCommand, ListCommand};
use crate::items::is_number;
use sdd_core::{SlotName, Tag};
use sdd_lists::LinkedList;
use sdd_participants::CellContents;
use sdd_script_model::{LinkChange, Val};
use sdd_space::inner::slot_of_ptr;
use sdd_space::{Cells, Guard, Items, LookThrough, Several, Shared, SharedItems};
use sdd_world::inner::is_in_cell;
use sdd_world::{Place, World};

/// Changes the tag of an entry's link, if it may, and tells whether it did.
pub struct ChangeLink<'a> {
    pub entry: &'a Val,
    pub change: LinkChange,
}

impl CellCommand for ChangeLink<'_> {
    type Out = bool;

    ghost asks = { λ step home _ _. link_home step.entry.now ≡ home.cells };

    ghost does = { λ step _ _ before changed after. (cell : CellContents) × (entry_at before.cells (link_of step.entry.now) ≡ Some cell)
        × (changed ≡ may_change step.change cell.tag) × (after ≡ retagged before (link_of step.entry.now) cell step.change changed) };

    fn done<S: Cells<Val>>(self, s: &mut S) -> bool {
        let ChangeLink { entry, change } = self;
        match change {
            LinkChange::Mark => match entry.mark(s) {
                Ok(changed) => changed,
                Err(_) => unreachable!(),
            },
            LinkChange::Unmark => match entry.unmark(s) {
                Ok(changed) => changed,
                Err(_) => unreachable!(),
            },
            LinkChange::Delete => match entry.delete_self(s) {
                Ok(changed) => changed,
                Err(_) => unreachable!(),
            },
        }
    }
}

/// The tag of an entry's link.
pub struct ReadLinkTag<'a> {
    pub entry: &'a Val,
}

impl CellCommand for ReadLinkTag<'_> {
    type Out = Tag;

    ghost asks = { λ step home _ _. link_home step.entry.now ≡ home.cells };

    ghost does = { λ step _ _ before tag after. (cell : CellContents) × (entry_at before.cells (link_of step.entry.now) ≡ Some cell) × (tag ≡ cell.tag)
        × (after ≡ before) };

    fn done<S: Cells<Val>>(self, s: &mut S) -> Tag {
        let ReadLinkTag { entry } = self;
        entry.link_ref().tag(s)
    }
}

/// What an entry's link holds, and its tag.
pub struct ReadLink<'a> {
    pub entry: &'a Val,
    /// One of the participant's.
    pub guard: &'a Guard,
}

impl CellCommand for ReadLink<'_> {
    type Out = CellContents;

    ghost asks = { λ step home reader _. (link_home step.entry.now ≡ home.cells) × (reader_of step.guard.now ≡ reader) };

    ghost does = { λ step _ _ before held after. (entry_at before.cells (link_of step.entry.now) ≡ Some held) × (after ≡ before) };

    fn done<S: Cells<Val>>(self, s: &mut S) -> CellContents {
        let ReadLink { entry, guard } = self;
        let ptr = entry.link_ref().load(guard, s);
        CellContents {
            held: slot_of_ptr(&ptr),
            tag: ptr.tag(),
        }
    }
}

/// Puts an owner's entry directly behind another one, which is marked by that, or has no mark then. The owner comes back where that is deleted.
pub struct AppendEntry<'a> {
    pub entry: &'a Val,
    pub owner: Shared<Val>,
    pub mark: bool,
    /// One of the participant's.
    pub guard: &'a Guard,
}

impl ListCommand for AppendEntry<'_> {
    type Out = Option<Shared<Val>>;

    ghost asks = { λ step home reader world. (link_home step.entry.now ≡ home.cells) × (slots_home step.owner ≡ home.slots)
        × (reader_of step.guard.now ≡ reader)
        × ((t : TagOf) × (es : List (Entry Val)) × (v : Val) × IsList link_of world (link_of step.entry.now) t es
        × IsFresh link_of world (slot_of step.owner) v (link_of step.entry.now) es) };

    ghost does = { λ step _ _ before back after. (cell : CellContents) (v : Val) → entry_at before.cells (link_of step.entry.now) ≡ Some cell →
        value_at before (slot_of step.owner) ≡ Some v → MatchOption back
        ((says_deleted cell.tag ≡ false) × (after ≡ linked_in before (link_of step.entry.now) (mark_tag step.mark) (link_of v) (slot_of step.owner) cell.held))
        (λ owner. (says_deleted cell.tag ≡ true) × (holding_of owner ≡ holding_of step.owner) × (after ≡ before)) };

    fn done<S: Items<Val> + Several<Val> + SharedItems<Val> + Cells<Val> + LookThrough<Val>>(
        self,
        s: &mut S,
    ) -> Option<Shared<Val>> {
        let AppendEntry {
            entry,
            owner,
            mark,
            guard,
        } = self;
        match entry.push_back(owner, mark, guard, s) {
            Ok(_) => None,
            Err((owner, _)) => Some(owner),
        }
    }
}

/// The slot of the next entry behind one that isn't deleted, or none. The deleted ones between are let go of.
pub struct NextEntry<'a> {
    pub entry: &'a Val,
    /// One of the participant's.
    pub guard: &'a Guard,
}

impl ListCommand for NextEntry<'_> {
    type Out = Option<SlotName>;

    ghost asks = { λ step home reader world. (link_home step.entry.now ≡ home.cells) × (reader_of step.guard.now ≡ reader)
        × ((t : TagOf) × (es : List (Entry Val)) × IsList link_of world (link_of step.entry.now) t es) };

    ghost does = { λ step _ place before next after. (t : TagOf) (es : List (Entry Val)) → IsList link_of before (link_of step.entry.now) t es →
        (next ≡ first_slot (left es)) × (after ≡ trimmed link_of before place (link_of step.entry.now) t es) };

    fn done<S: Items<Val> + Several<Val> + SharedItems<Val> + Cells<Val> + LookThrough<Val>>(
        self,
        s: &mut S,
    ) -> Option<SlotName> {
        let NextEntry { entry, guard } = self;
        match entry.next_ptr(guard, s) {
            Ok(next) => slot_of_ptr(&next),
            Err(_) => unreachable!(),
        }
    }
}

/// The item in a slot may be put behind another: it is a number, neither marked nor deleted, with nothing behind it, and no cell holds it.
fn is_loose(world: &mut World<Val>, place: &Place, guard: &Guard, slot: u32) -> bool
    requires place { IsPlaceOf world.old (index_of place.now) }
    requires reader { reader_of guard.now ≡ reader_at world.old (index_of place.now) }
    requires stays { CannotGo world.old (index_of place.now) slot }
    ensures loose { IsTrue result ↔ IsLooseEntry world.old slot }
    ensures world { world.new ≡ world.old }
{
    let entry = value_shown(world, place, guard, slot);
    if !is_number(entry) {
        return false;
    }
    if is_in_cell(world, slot) {
        return false;
    }
    let link = ReadLink { entry, guard }.at(world, place);
    link.held.is_none() && link.tag == Tag::None
}

/// The same, and the slot is another than this one.
pub fn is_loose_beside(
    world: &mut World<Val>,
    place: &Place,
    guard: &Guard,
    slot: u32,
    other: u32,
) -> bool
    requires place { IsPlaceOf world.old (index_of place.now) }
    requires reader { reader_of guard.now ≡ reader_at world.old (index_of place.now) }
    requires stays { CannotGo world.old (index_of place.now) slot }
    ensures loose { IsTrue result ↔ (IsLooseEntry world.old slot × (slot ≢ other)) }
    ensures world { world.new ≡ world.old }
{
    if slot == other {
        return false;
    }
    is_loose(world, place, guard, slot)
}
