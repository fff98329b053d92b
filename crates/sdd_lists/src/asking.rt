//! Conditions that are asked of an entry.
ghost use Rattle.std.specs.Prelude.{◌≡◌};
ghost use Rattle.std.specs.Borrow.{Bor};

/// Asks a condition of a value, once.
pub(crate) fn asks<T, F: FnMut(&T) -> bool>(mut condition: F, value: &T) -> bool
    requires { F.IsAlwaysCallable condition }
    ensures { (shown : Bor T) × (shown.now ≡ value.now) × F.post condition shown result }
{
    condition(value)
}

/// Asks a condition of a value, or of none, once.
pub(crate) fn asks_of_any<T, F: FnMut(Option<&T>) -> bool>(
    mut condition: F,
    shown: Option<&T>,
) -> bool
    requires { F.IsAlwaysCallable condition }
    ensures { F.post condition shown.entry result }
{
    condition(shown)
}
