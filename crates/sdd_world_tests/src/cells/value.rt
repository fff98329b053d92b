use sdd_space::{AtomicOwned, AtomicRaw, AtomicShared, Giver, Item, Owned, Shared};

/// A number, or what holds other items.
pub enum Value {
    Number(u64),
    /// The only owner of an item.
    Of(Owned<Value>),
    /// An owner of an item that may have others.
    Beside(Shared<Value>),
    /// One of each kind of owner, and of cell.
    Each(Owned<Value>, Shared<Value>, AtomicOwned<Value>, AtomicShared<Value>, AtomicRaw<Value>),
}

impl Item<Value> for Value {
    ghost use Rattle.sdd_world_tests.specs.Value.{holdings_of};

    ghost holds = { holdings_of };

    fn give_up<G: Giver<Value>>(self, giver: &mut G) {
        match self {
            Value::Number(_) => {}
            Value::Of(owner) => giver.owned(owner),
            Value::Beside(owner) => giver.shared(owner),
            Value::Each(owned, shared, owned_cell, shared_cell, raw_cell) => {
                giver.owned(owned);
                giver.shared(shared);
                giver.atomic_owned(owned_cell);
                giver.atomic_shared(shared_cell);
                giver.atomic_raw(raw_cell);
            }
        }
    }
}
