//! A configuration that many read and few replace.
ghost use Rattle.std.specs.Prelude.{ℕ, ◌≡◌, ◌≢◌, ◌⊎◌, IfErr, IfOk, MatchBool, MatchResult, Some, option_copied, option_map};
ghost use Rattle.sdd_participants.specs.Slab.{IsEmptyAt, IsFull};
ghost use Rattle.sdd_space.specs.Guard.{reader_of};
ghost use Rattle.sdd_world_model.specs.OwnerOrCell.{AreOf};
ghost use Rattle.sdd_space.specs.Ptr.{KeepsShown, PtrIsShown, cell_seen, shown_by};
ghost use Rattle.sdd_space.specs.Shared.{IsOfSlots, slot_of};
ghost use Rattle.sdd_space.specs.Undisturbed.{Undisturbed};
ghost use Rattle.sdd_space.specs.CallerId.{IsExact, IsSeated, reader_at};
ghost use Rattle.sdd_world_model.specs.WorldChanges.{cell_closed, spilled};
ghost use Rattle.sdd_participants.specs.Slab.{entry_at};
ghost use Rattle.sdd_world_model.specs.World.{World, IsPlaceOf};
ghost use Rattle.sdd_world.specs.Place.{index_of};
ghost use Rattle.sdd_examples.specs.Config.{IsFound, IsSetTo, cell_of, cells_home, exchanged, given_up, replaced};

use sdd_core::{Refused, Tag};
use sdd_space::laws::shared_is_shown;
use sdd_space::{AtomicShared, Cells, Guard, Item, Items, Look, Ptr, Shared};
use sdd_world::{Place, World};

/// A value that is read as a whole under a guard, and replaced as a whole.
///
/// It must be spent by `close`.
pub struct Config<T> {
    cell: AtomicShared<T>,
}

impl<T: Item<T>> Config<T> {
    /// A configuration with this value.
    ///
    /// `NoSlot` where no slot is free, else `NoCell` where no cell is; the value comes back.
    pub fn new<S: Cells<T>>(value: T, s: &mut S) -> Result<Config<T>, (T, Refused)>
        requires seated { IsSeated (S.caller s.old) }
        requires home { AreOf (S.caller s.old).home (T.holds value) }
        ensures caller { S.caller s.new ≡ S.caller s.old }
        ensures own { S.own s.new ≡ S.own s.old }
        ensures home { IfOk result (λ config. cells_home config ≡ (S.caller s.old).home.cells) }
        ensures set { IsExact (S.caller s.old) → IfOk result (λ config. (slot : ℕ) × IsSetTo (S.world s.new) (cell_of config) slot 1 value) }
        ensures keeps { KeepsShown (S.shows s.old) (S.shows s.new) }
    {
        let cell = AtomicShared::new(value, s)?;
        Ok(Config { cell })
    }

    /// A pointer to the value as it is now, which shows it for as long as the guard is borrowed, whatever it is replaced by meanwhile.
    pub fn load<'g, S: Cells<T>>(&self, guard: &'g Guard, s: &mut S) -> Ptr<'g, T>
        requires seated { IsSeated (S.caller s.old) }
        requires home { cells_home self.now ≡ (S.caller s.old).home.cells }
        requires reader { reader_of guard.now ≡ (S.caller s.old).reader }
        ensures undisturbed { Undisturbed S.caller S.own S.known S.shows s.old s.new }
        ensures shown { PtrIsShown (S.shows s.new) result }
        ensures held { IsExact (S.caller s.old) → entry_at (S.world s.old).cells (cell_of self.now) ≡ Some (cell_seen result) }
        ensures found { IsExact (S.caller s.old) → IsFound (S.world s.new) (cell_of self.now) (shown_by result) }
        ensures exact { IsExact (S.caller s.old) → S.world s.new ≡ S.world s.old }
    {
        self.cell.load(guard, s)
    }

    /// The value as it is now, for as long as the guard is borrowed, whatever it is replaced by meanwhile.
    pub fn read<'g, S: Look<T> + Cells<T>>(&self, guard: &'g Guard, s: &mut S) -> Option<&'g T>
        requires seated { IsSeated (S.caller s.old) }
        requires home { cells_home self.now ≡ (S.caller s.old).home.cells }
        requires reader { reader_of guard.now ≡ (S.caller s.old).reader }
        ensures caller { S.caller s.new ≡ S.caller s.old }
        ensures own { S.own s.new ≡ S.own s.old }
        ensures set { IsExact (S.caller s.old) → (slot owners : ℕ) (value : T) →
            IsSetTo (S.world s.old) (cell_of self.now) slot owners value → option_copied result ≡ Some value }
        ensures found { IsExact (S.caller s.old) → IsFound (S.world s.new) (cell_of self.now) (option_copied result) }
        ensures exact { IsExact (S.caller s.old) → S.world s.new ≡ S.world s.old }
        ensures keeps { KeepsShown (S.shows s.old) (S.shows s.new) }
    {
        self.load(guard, s).as_ref(s)
    }

    /// Replaces the value. The owner of the one before is released: it is reclaimed once nobody reads it.
    ///
    /// `NoSlot` where no slot is free; `Contended`, in a domain alone, where as many claims were lost to others as its limits allow. The value comes back.
    pub fn replace<S: Items<T> + Cells<T>>(&self, value: T, s: &mut S) -> Result<(), (T, Refused)>
        requires seated { IsSeated (S.caller s.old) }
        requires home { cells_home self.now ≡ (S.caller s.old).home.cells }
        requires value { AreOf (S.caller s.old).home (T.holds value) }
        ensures caller { S.caller s.new ≡ S.caller s.old }
        ensures back { IfErr result (λ e. e.0 ≡ value) }
        ensures exact { IsExact (S.caller s.old) → (slot owners : ℕ) (old : T) → IsSetTo (S.world s.old) (cell_of self.now) slot owners old → MatchResult result
            (λ _. (next : ℕ) × IsEmptyAt (S.world s.old).standings next × IsSetTo (S.world s.new) (cell_of self.now) next 1 value ×
            (S.world s.new ≡ replaced (S.world s.old) (S.caller s.old).place (cell_of self.now) slot owners next value))
            (λ e. IsFull (S.world s.old).standings × (e ≡ (value, Refused.NoSlot)) × (S.world s.new ≡ S.world s.old)) }
        ensures keeps { KeepsShown (S.shows s.old) (S.shows s.new) }
    {
        let next = Shared::new(value, s)?;
        shared_is_shown(&next, s);
        let (before, _tag) = self.cell.swap((Some(next), Tag::None), s);
        let Some(owner) = before else {
            return Ok(());
        };
        let _ = owner.release(s);
        Ok(())
    }

    /// Replaces the value that the pointer shows, unless another one took its place meanwhile. Whether it did.
    ///
    /// `NoSlot` where no slot is free; `Contended`, in a domain alone, where as many claims were lost to others as its limits allow. The value comes back.
    pub fn exchange<'g, S: Items<T> + Cells<T>>(
        &self,
        current: Ptr<'g, T>,
        value: T,
        guard: &'g Guard,
        s: &mut S,
    ) -> Result<bool, (T, Refused)>
        requires seated { IsSeated (S.caller s.old) }
        requires home { cells_home self.now ≡ (S.caller s.old).home.cells }
        requires reader { reader_of guard.now ≡ (S.caller s.old).reader }
        requires value { AreOf (S.caller s.old).home (T.holds value) }
        ensures caller { S.caller s.new ≡ S.caller s.old }
        ensures back { IfErr result (λ e. (e.0 ≡ value) × ((e.1 ≡ Refused.NoSlot) ⊎ (e.1 ≡ Refused.Contended))) }
        ensures exact { IsExact (S.caller s.old) → MatchResult result
            (λ done. (next : ℕ) × IsEmptyAt (S.world s.old).standings next × MatchBool done
            ((entry_at (S.world s.old).cells (cell_of self.now) ≡ Some (cell_seen current.entry)) × (S.world s.new
            ≡ exchanged (S.world s.old) (S.caller s.old).place (cell_of self.now) (cell_seen current.entry) next value))
            ((entry_at (S.world s.old).cells (cell_of self.now) ≢ Some (cell_seen current.entry)) × (S.world s.new
            ≡ given_up (S.world s.old) (S.caller s.old).place next value)))
            (λ e. IsFull (S.world s.old).standings × (e ≡ (value, Refused.NoSlot)) × (S.world s.new ≡ S.world s.old)) }
        ensures keeps { KeepsShown (S.shows s.old) (S.shows s.new) }
    {
        let next = Shared::new(value, s)?;
        let tag = current.tag();
        match self
            .cell
            .compare_exchange(current, (Some(next), tag), guard, s)
        {
            Ok((before, _now)) => {
                let_go(before, s);
                Ok(true)
            }
            Err((back, _now)) => {
                let_go(back, s);
                Ok(false)
            }
        }
    }

    /// Ends the configuration.
    pub fn close<S: Items<T> + Cells<T>>(self, s: &mut S)
        requires seated { IsSeated (S.caller s.old) }
        requires home { cells_home self ≡ (S.caller s.old).home.cells }
        ensures caller { S.caller s.new ≡ S.caller s.old }
        ensures exact { IsExact (S.caller s.old) → S.world s.new ≡ cell_closed (S.world s.old) (S.caller s.old).place (cell_of self) }
        ensures keeps { KeepsShown (S.shows s.old) (S.shows s.new) }
    {
        let Config { cell } = self;
        cell.close(s);
    }
}

/// Lets go of what came out of a cell, or didn't go in: it is reclaimed once nobody looks at it, unless it has other owners.
fn let_go<T: Item<T>, S: Items<T>>(owner: Option<Shared<T>>, s: &mut S)
    requires seated { IsSeated (S.caller s.old) }
    requires home { IsOfSlots (S.caller s.old).home.slots owner }
    ensures caller { S.caller s.new ≡ S.caller s.old }
    ensures exact { IsExact (S.caller s.old) → S.world s.new ≡ spilled (S.world s.old) (S.caller s.old).place (option_map slot_of owner) }
    ensures keeps { KeepsShown (S.shows s.old) (S.shows s.new) }
{
    if let Some(owner) = owner {
        let _ = owner.release(s);
    }
}

/// What a reader found of a configuration that was replaced meanwhile.
pub struct Reads {
    /// Before it was replaced.
    pub old: Option<u64>,
    /// Afterwards, of what was loaded before.
    pub still: Option<u64>,
    /// Afterwards, of what was loaded then.
    pub new: Option<u64>,
}

/// A reader loads; a writer replaces the value; the reader looks at what it loaded once more, and loads again.
///
/// `NoSlot` where no slot is free: the value comes back.
pub fn reads_old_and_new(
    config: &Config<u64>,
    next: u64,
    guard: &Guard,
    world: &mut World<u64>,
    reader: &Place,
    writer: &Place,
) -> Result<Reads, (u64, Refused)>
    requires reader { IsPlaceOf world.old (index_of reader.now) }
    requires writer { IsPlaceOf world.old (index_of writer.now) }
    requires home { cells_home config.now ≡ world.old.home.cells }
    requires guard { reader_of guard.now ≡ reader_at world.old (index_of reader.now) }
    ensures read { (slot owners value : ℕ) → IsSetTo world.old (cell_of config.now) slot owners value →
        IfOk result (λ reads. (reads.old ≡ Some value) × (reads.still ≡ Some value) × (reads.new ≡ Some next)) }
{
    let loaded = config.read(guard, &mut world.at(reader));
    let old = loaded.copied();
    config.replace(next, &mut world.at(writer))?;
    let still = loaded.copied();
    let new = config.read(guard, &mut world.at(reader)).copied();
    Ok(Reads { old, still, new })
}
