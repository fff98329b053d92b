//! Tags of links: whether an entry is marked or deleted.
ghost use Rattle.std.specs.Prelude.{◌≡◌, IfErr, IfOk, IsOk, Some, if◌then◌else◌};
ghost use Rattle.sdd_core.specs.declared.tag.Tag.TheVariants as tag;
ghost use Rattle.sdd_participants.specs.Slab.{entry_at};
ghost use Rattle.sdd_participants.specs.declared.standing.CellContents.{CellContents};
ghost use Rattle.sdd_space.specs.CallerId.{IsSeated, IsExact};
ghost use Rattle.sdd_space.specs.Refusals.{IsContended};
ghost use Rattle.sdd_space.specs.Shared.{cell_of, cells_home};
ghost use Rattle.sdd_space.specs.Undisturbed.{Undisturbed};
ghost use Rattle.sdd_world_model.specs.WorldChanges.{with_cell};
ghost use Rattle.sdd_lists.specs.Lists.{may_delete};
ghost use Rattle.sdd_lists.specs.Marks.{says_clear, says_marked};

use sdd_core::{Refused, Tag};
use sdd_space::{AtomicShared, Cells, Item};

/// Sets the tag of a link to First, if it is None, and answers whether it did.
pub(crate) fn mark_link<T: Item<T>, S: Cells<T>>(
    link: &AtomicShared<T>,
    s: &mut S,
) -> Result<bool, Refused>
    requires seated { IsSeated (S.caller s.old) }
    requires home { cells_home link.now ≡ (S.caller s.old).home.cells }
    ensures undisturbed { Undisturbed S.caller S.own S.known S.shows s.old s.new }
    ensures back { IfErr result (IsContended (S.caller s.old)) }
    ensures exact { IsExact (S.caller s.old) → IsOk result × IfOk result (λ changed. (cell : CellContents) ×
        (entry_at (S.world s.old).cells (cell_of link.now) ≡ Some cell) × (changed ≡ says_clear cell.tag) ×
        (S.world s.new ≡ (if changed then with_cell (S.world s.old) (cell_of link.now) (record cell { tag = tag.First }) else S.world s.old))) }
{
    match link.update_tag_if(Tag::First, |held| matches!(held.tag(), Tag::None), s) {
        Ok(changed) => Ok(changed),
        Err(refused) => Err(refused),
    }
}

/// Sets the tag of a link to None, if it is First, and answers whether it did.
pub(crate) fn unmark_link<T: Item<T>, S: Cells<T>>(
    link: &AtomicShared<T>,
    s: &mut S,
) -> Result<bool, Refused>
    requires seated { IsSeated (S.caller s.old) }
    requires home { cells_home link.now ≡ (S.caller s.old).home.cells }
    ensures undisturbed { Undisturbed S.caller S.own S.known S.shows s.old s.new }
    ensures back { IfErr result (IsContended (S.caller s.old)) }
    ensures exact { IsExact (S.caller s.old) → IsOk result × IfOk result (λ changed. (cell : CellContents) ×
        (entry_at (S.world s.old).cells (cell_of link.now) ≡ Some cell) × (changed ≡ says_marked cell.tag) ×
        (S.world s.new ≡ (if changed then with_cell (S.world s.old) (cell_of link.now) (record cell { tag = tag.None }) else S.world s.old))) }
{
    match link.update_tag_if(Tag::None, |held| matches!(held.tag(), Tag::First), s) {
        Ok(changed) => Ok(changed),
        Err(refused) => Err(refused),
    }
}

/// Sets the tag of a link to Second, if it is None or First, and answers whether it did.
pub(crate) fn delete_link<T: Item<T>, S: Cells<T>>(
    link: &AtomicShared<T>,
    s: &mut S,
) -> Result<bool, Refused>
    requires seated { IsSeated (S.caller s.old) }
    requires home { cells_home link.now ≡ (S.caller s.old).home.cells }
    ensures undisturbed { Undisturbed S.caller S.own S.known S.shows s.old s.new }
    ensures back { IfErr result (IsContended (S.caller s.old)) }
    ensures exact { IsExact (S.caller s.old) → IsOk result × IfOk result (λ changed. (cell : CellContents) ×
        (entry_at (S.world s.old).cells (cell_of link.now) ≡ Some cell) × (changed ≡ may_delete cell.tag) ×
        (S.world s.new ≡ (if changed then with_cell (S.world s.old) (cell_of link.now) (record cell { tag = tag.Second }) else S.world s.old))) }
{
    match link.update_tag_if(
        Tag::Second,
        |held| matches!(held.tag(), Tag::None | Tag::First),
        s,
    ) {
        Ok(changed) => Ok(changed),
        Err(refused) => Err(refused),
    }
}
