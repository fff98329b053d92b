//! A configuration across threads: whoever has it publishes another one as a whole, and others look at it under guards, without a lock.
ghost use Rattle.std.specs.Prelude.{◌≡◌, ◌≤◌, ◌+◌, ◌^◌, ◌↔◌, [], IfErr, IfOk, IfSome, IsSome, MatchOption};
ghost use Rattle.sdd_space.specs.CallerId.{IsExact, IsSeated};
ghost use Rattle.sdd_space.specs.Guard.{reader_of};
ghost use Rattle.sdd_space.specs.Shared.{right_of, slots_home};
ghost use Rattle.sdd_examples.specs.Config.{IsFound, cell_of, cells_home};

use crate::config::Config;
use sdd_core::Refused;
use sdd_space::{Cells, Giver, Guard, Guards, Item, Items, Look, LookThrough, Shared, SharedItems};

/// The bounds that a service works within. They are replaced together, so that nobody finds the low one above the high one.
#[derive(Clone, Copy)]
pub struct Bounds {
    low: u64,
    high: u64,
    ghost ordered: { low ≤ high },
}

impl<I> Item<I> for Bounds {
    ghost holds = { λ _. [] };

    fn give_up<G: Giver<I>>(self, _giver: &mut G) {}
}

impl Bounds {
    /// These bounds. None where the low one is above the high one.
    pub fn new(low: u64, high: u64) -> Option<Bounds>
        ensures some { IsSome result ↔ (low ≤ high) }
        ensures bounds { IfSome result (λ bounds. (bounds.low ≡ low) × (bounds.high ≡ high)) }
    {
        if low <= high {
            Some(Bounds { low, high })
        } else {
            None
        }
    }

    /// How far the high one is above the low one.
    pub fn width(&self) -> u64
        ensures { self.now.low + result ≡ self.now.high }
    {
        self.high - self.low
    }

    /// The same, with the high one further up. None past the greatest number.
    pub fn widened(&self, by: u64) -> Option<Bounds>
        ensures { MatchOption result (2 ^ 64 ≤ self.now.high + by)
            (λ bounds. (bounds.low ≡ self.now.low) × (bounds.high ≡ self.now.high + by)) }
    {
        let high = self.high.checked_add(by)?;
        Some(Bounds {
            low: self.low,
            high,
        })
    }
}

/// What one pointer shows at two looks, whatever others publish between them: the same. None where nothing is published. In a world, and for a lone
/// participant, it is what is published still.
///
/// `TooManyGuards` where no guard can be opened.
pub fn looks_twice<S: Look<Bounds> + Guards<Bounds> + Cells<Bounds>>(
    config: &Config<Bounds>,
    s: &mut S,
) -> Result<(Option<Bounds>, Option<Bounds>), Refused>
    requires seated { IsSeated (S.caller s.old) }
    requires home { cells_home config.now ≡ (S.caller s.old).home.cells }
    ensures caller { S.caller s.new ≡ S.caller s.old }
    ensures same { IfOk result (λ looks. looks.1 ≡ looks.0) }
    ensures found { IsExact (S.caller s.old) → IfOk result (λ looks. IsFound (S.world s.new) (cell_of config.now) looks.0) }
    ensures refused { IfErr result (λ e. e ≡ Refused.TooManyGuards) }
{
    let guard = Guard::new(s)?;
    let ptr = config.load(&guard, s);
    let first = ptr.as_ref(s).copied();
    let _now = config.load(&guard, s);
    let second = ptr.as_ref(s).copied();
    guard.close(s);
    Ok((first, second))
}

/// Publishes wider bounds, unless others publish meanwhile. Whether it did.
///
/// `TooManyGuards` where no guard can be opened, `NoSlot` where no slot is free; `Contended`, in a domain alone, where as many exchanges were lost as its
/// limits allow.
pub fn widen<S: Look<Bounds> + Guards<Bounds> + Items<Bounds> + Cells<Bounds>>(
    config: &Config<Bounds>,
    by: u64,
    s: &mut S,
) -> Result<bool, Refused>
    requires seated { IsSeated (S.caller s.old) }
    requires home { cells_home config.now ≡ (S.caller s.old).home.cells }
    ensures caller { S.caller s.new ≡ S.caller s.old }
{
    let guard = Guard::new(s)?;
    let widened = widen_under(config, by, &guard, s);
    guard.close(s);
    widened
}

/// The same under a guard.
fn widen_under<S: Look<Bounds> + Items<Bounds> + Cells<Bounds>>(
    config: &Config<Bounds>,
    by: u64,
    guard: &Guard,
    s: &mut S,
) -> Result<bool, Refused>
    requires seated { IsSeated (S.caller s.old) }
    requires home { cells_home config.now ≡ (S.caller s.old).home.cells }
    requires reader { reader_of guard.now ≡ (S.caller s.old).reader }
    ensures caller { S.caller s.new ≡ S.caller s.old }
{
    let ptr = config.load(guard, s);
    let Some(bounds) = ptr.as_ref(s) else {
        return Ok(false);
    };
    let Some(wider) = bounds.widened(by) else {
        return Ok(false);
    };
    match config.exchange(ptr, wider, guard, s) {
        Ok(done) => Ok(done),
        Err((_wider, refused)) => Err(refused),
    }
}

/// The bounds that are published, with an owner of theirs, which the caller may keep for as long as it likes. None where nothing is published, or where
/// what was found has no owner any more.
///
/// `TooManyOwners` where 2^62 own them, and `Contended` as above.
pub fn keep_under<S: LookThrough<Bounds> + SharedItems<Bounds> + Cells<Bounds>>(
    config: &Config<Bounds>,
    guard: &Guard,
    s: &mut S,
) -> Result<Option<(Bounds, Shared<Bounds>)>, Refused>
    requires seated { IsSeated (S.caller s.old) }
    requires home { cells_home config.now ≡ (S.caller s.old).home.cells }
    requires reader { reader_of guard.now ≡ (S.caller s.old).reader }
    ensures caller { S.caller s.new ≡ S.caller s.old }
    ensures home { IfOk result (λ o. IfSome o (λ kept. slots_home kept.1 ≡ (S.caller s.old).home.slots)) }
    ensures owned { IfOk result (λ o. IfSome o (λ kept. S.owns_value s.new (right_of kept.1) kept.0)) }
{
    let ptr = config.load(guard, s);
    let Some(bounds) = ptr.as_ref(s) else {
        return Ok(None);
    };
    match ptr.get_shared(s)? {
        Some(owner) => Ok(Some((*bounds, owner))),
        None => Ok(None),
    }
}

/// An owner of the bounds that are published, which outlasts the guard under which it was had.
///
/// `TooManyGuards` where no guard can be opened, and else as above.
pub fn keep<S: LookThrough<Bounds> + Guards<Bounds> + SharedItems<Bounds> + Cells<Bounds>>(
    config: &Config<Bounds>,
    s: &mut S,
) -> Result<Option<(Bounds, Shared<Bounds>)>, Refused>
    requires seated { IsSeated (S.caller s.old) }
    requires home { cells_home config.now ≡ (S.caller s.old).home.cells }
    ensures caller { S.caller s.new ≡ S.caller s.old }
    ensures home { IfOk result (λ o. IfSome o (λ kept. slots_home kept.1 ≡ (S.caller s.old).home.slots)) }
    ensures owned { IfOk result (λ o. IfSome o (λ kept. S.owns_value s.new (right_of kept.1) kept.0)) }
{
    let guard = Guard::new(s)?;
    let kept = keep_under(config, &guard, s);
    guard.close(s);
    kept
}
