//! Whether an item has one owner or several: the mark that an owner and a cell bear, which costs nothing when the program runs.
ghost use Rattle.std.specs.Prelude.{◌≡◌};
ghost use Rattle.sdd_rights.specs.Right.{kind_of};
ghost use Rattle.sdd_rights.specs.StandingKind.{IsOwner};

use sdd_rights::{Right, StandingKind};
use std::marker::PhantomData;

/// How the items of an owner, and of a cell of such owners, are owned: [`UniqueOwnership`] or [`SharedOwnership`].
pub trait Ownership {
    ghost use Rattle.sdd_rights.specs.declared.right.StandingKind.{StandingKind};

    ghost kind: { StandingKind };

    /// The kind of right that such an owner has.
    fn kind() -> StandingKind
        ensures kind { result ≡ kind }
        ensures owner { IsOwner result };
}

/// The item has this one owner.
pub struct UniqueOwnership;

impl Ownership for UniqueOwnership {
    ghost use Rattle.sdd_rights.specs.declared.right.StandingKind.TheVariants.{Owned};

    ghost kind = { Owned };

    #[inline(always)]
    fn kind() -> StandingKind {
        StandingKind::Owned
    }
}

/// Others may own the item too.
pub struct SharedOwnership;

impl Ownership for SharedOwnership {
    ghost use Rattle.sdd_rights.specs.declared.right.StandingKind.TheVariants.{Shared};

    ghost kind = { Shared };

    #[inline(always)]
    fn kind() -> StandingKind {
        StandingKind::Shared
    }
}

/// The right that an owner has to its slot, or the owner of a cell to the cell.
pub(crate) struct RightOf<K: Ownership> {
    pub(crate) right: Right,
    pub(crate) of: PhantomData<K>,
    pub ghost kind: { kind_of right ≡ K.kind },
}

impl<K: Ownership> RightOf<K> {
    pub(crate) fn of(right: Right) -> RightOf<K>
        requires { kind_of right ≡ K.kind }
        ensures { result.right ≡ right }
    {
        RightOf {
            right,
            of: PhantomData,
        }
    }
}
