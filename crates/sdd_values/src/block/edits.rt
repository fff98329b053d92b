//! A value of a block is changed in its place.
ghost use Rattle.std.specs.Prelude.{◌≡◌, ◌<◌, length, slice_index_or};
ghost use Rattle.std.specs.Borrow.{sem};
ghost use Rattle.sdd_values.specs.Block.{IsUnlent};
ghost use Rattle.sdd_values.specs.Lending.{LendsValue};

use super::Block;

impl<T> Block<T> {
    /// A value to be changed. It is lent to nobody.
    pub fn edit(&mut self, at: usize) -> &mut T
        requires inside { at < length self.old.values }
        requires home { IsUnlent self.old.fractions at }
        ensures* writes_back { sem 𝓛 (LendsValue T.row self.entry at result) }
        ensures value { (d : T) → result.now ≡ slice_index_or self.old.values at d }
    {
        unsafe { &mut *self.ptr.add(at) }
    }
}
