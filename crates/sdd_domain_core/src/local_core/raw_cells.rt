//! Raw cells: a participant claims and frees them, and changes what they point to. They own nothing.
ghost use Rattle.std.specs.Prelude.{◌≡◌, ◌≢◌, IfOk, MatchBool, MatchOption, MatchResult, None, Some, true};
ghost use Rattle.sdd_rights.specs.Right.{raw_number_of, raw_home_of};
ghost use Rattle.sdd_world_model.specs.Asked.{WasAsked};
ghost use Rattle.sdd_space.specs.RawPtr as raw;
ghost use Rattle.sdd_domain_steps.specs.Cells.{ClaimsNone, FindsPointer, MakesRaw, PointsAt};
ghost use Rattle.sdd_domain_steps.specs.Local.{pointer_by};
ghost use Rattle.sdd_domain_steps.specs.LocalState.{IsLone, pointer_word_of};
ghost use Rattle.sdd_domain_steps.specs.SpaceIds.{cells_home};

use crate::local_core::LocalCore;
use sdd_atomics::steps::cells::find_cell;
use sdd_atomics::steps::raw::pointers::{exchange_pointer, look_at_pointer, swap_pointer};
use sdd_core::{Refused, Tag};
use sdd_domain_steps::raw::pointer_words::{pointer_in, word_to};
use sdd_participants::{Job, RawCellContents};
use sdd_rights::RawRight;
use sdd_space::inner::{pointer_of_raw, raw_ptr_of};
use sdd_space::{Item, RawPtr};

impl<'d, T: Item<T>, J: Job> LocalCore<'d, T, J> {
    /// A free cell that points to this.
    ///
    /// `NoCell` where a walk over all cells found none free; `Contended` where as many exchanges were lost as the limits allow.
    pub fn new_raw_cell(&mut self, pointer: RawCellContents) -> Result<RawRight, Refused>
        ensures right { IfOk result (λ cell. raw_home_of cell ≡ cells_home self.old.home) }
        ensures made { MatchResult result
            (λ cell. MakesRaw (raw_number_of cell) pointer self.old self.new)
            (λ e. (self.new ≡ self.old) × ClaimsNone e self.old) }
    {
        let cell = self.reserve_cell()?;
        self.swap_raw(&cell, pointer);
        Ok(cell)
    }

    /// What a raw cell points to at this moment.
    #[inline]
    pub fn pointer(&mut self, cell: &RawRight) -> RawCellContents
        requires home { raw_home_of cell.now ≡ cells_home self.old.home }
        ensures same { self.new ≡ self.old }
        ensures found { FindsPointer (raw_number_of cell.now) result self.old }
    {
        find_cell(&mut self.seat, cell.witness());
        pointer_in(look_at_pointer(&mut self.seat, cell.number()))
    }

    /// A raw cell points to this. What it pointed to.
    pub fn swap_raw(&mut self, cell: &RawRight, new: RawCellContents) -> RawCellContents
        requires home { raw_home_of cell.now ≡ cells_home self.old.home }
        ensures { PointsAt (raw_number_of cell.now) result new self.old self.new }
    {
        let word = word_to(new);
        find_cell(&mut self.seat, cell.witness());
        pointer_in(swap_pointer(&mut self.seat, cell.number(), word))
    }

    /// The same, if it points to what was expected; else what it points to comes back.
    pub fn compare_exchange_raw(
        &mut self,
        cell: &RawRight,
        current: RawCellContents,
        new: RawCellContents,
    ) -> Result<(), RawCellContents>
        requires home { raw_home_of cell.now ≡ cells_home self.old.home }
        ensures { MatchResult result
            (λ _. PointsAt (raw_number_of cell.now) current new self.old self.new)
            (λ now. (self.new ≡ self.old) × (now ≢ current) × FindsPointer (raw_number_of cell.now) now self.old) }
    {
        let old = word_to(current);
        let word = word_to(new);
        find_cell(&mut self.seat, cell.witness());
        let found = exchange_pointer(&mut self.seat, cell.number(), old, word);
        if found == old {
            return Ok(());
        }
        Err(pointer_in(found))
    }

    /// A raw cell's pointer has another tag, if the condition holds of it. A lone participant asks once.
    ///
    /// `Contended` where as many exchanges were lost as the limits allow.
    pub fn update_raw_tag_if<F: FnMut(RawPtr<T>) -> bool>(
        &mut self,
        cell: &RawRight,
        tag: Tag,
        mut condition: F,
    ) -> Result<bool, Refused>
        requires home { raw_home_of cell.now ≡ cells_home self.old.home }
        requires callable { F.IsAlwaysCallable condition }
        ensures changed { MatchResult result
            (λ changed. (found : RawCellContents) × MatchBool changed
            (PointsAt (raw_number_of cell.now) found (record found { tag = tag }) self.old self.new)
            ((self.new ≡ self.old) × FindsPointer (raw_number_of cell.now) found self.old))
            (λ e. (e ≡ Refused.Contended) × (self.new ≡ self.old) × ¬ (IsLone self.old)) }
        ensures asked { IfOk result (λ changed. (ptr : RawPtr T)
            × WasAsked (λ p x q. F.step p x true q) (λ p x r. F.post p x r) condition ptr changed) }
        ensures once { IsLone self.old → IfOk result (λ changed. (ptr : RawPtr T)
            × (raw.pointer_of ptr ≡ pointer_by (pointer_word_of self.old (raw_number_of cell.now))) × F.post condition ptr changed) }
    {
        for _attempt in 0..self.domain.limits.tries {
            let found = self.pointer(cell);
            if !condition(raw_ptr_of(found)) {
                return Ok(false);
            }
            let new = RawCellContents {
                named: found.named,
                tag,
            };
            if self.compare_exchange_raw(cell, found, new).is_ok() {
                return Ok(true);
            }
        }
        Err(Refused::Contended)
    }

    /// A raw cell points to what `f` makes of its pointer, if that is anything. What it pointed to, or points to still. A lone participant asks once.
    ///
    /// `Contended` where as many exchanges were lost as the limits allow.
    pub fn fetch_update_raw<F: FnMut(RawPtr<T>) -> Option<RawPtr<T>>>(
        &mut self,
        cell: &RawRight,
        mut f: F,
    ) -> Result<Result<RawPtr<T>, RawPtr<T>>, Refused>
        requires home { raw_home_of cell.now ≡ cells_home self.old.home }
        requires callable { F.IsAlwaysCallable f }
        ensures updated { MatchResult result
            (λ updated. MatchResult updated
            (λ was. (next : RawCellContents) × PointsAt (raw_number_of cell.now) (raw.pointer_of was) next self.old self.new)
            (λ now. (self.new ≡ self.old) × FindsPointer (raw_number_of cell.now) (raw.pointer_of now) self.old))
            (λ e. (e ≡ Refused.Contended) × (self.new ≡ self.old) × ¬ (IsLone self.old)) }
        ensures asked { IfOk result (λ updated. MatchResult updated
            (λ was. (next : RawPtr T) × WasAsked (λ p x q. (r : RawPtr T) × F.step p x (Some r) q) (λ p x r. F.post p x r) f was (Some next))
            (λ now. WasAsked (λ p x q. (r : RawPtr T) × F.step p x (Some r) q) (λ p x r. F.post p x r) f now None)) }
        ensures once { IsLone self.old → IfOk result (λ updated. MatchResult updated
            (λ was. (next : RawPtr T) × PointsAt (raw_number_of cell.now) (raw.pointer_of was) (raw.pointer_of next) self.old self.new
            × F.post f was (Some next))
            (λ now. F.post f now None)) }
    {
        for _attempt in 0..self.domain.limits.tries {
            let found = self.pointer(cell);
            let was = raw_ptr_of(found);
            let Some(next) = f(was) else {
                return Ok(Err(was));
            };
            let new = pointer_of_raw(&next);
            if self.compare_exchange_raw(cell, found, new).is_ok() {
                return Ok(Ok(was));
            }
        }
        Err(Refused::Contended)
    }
}
