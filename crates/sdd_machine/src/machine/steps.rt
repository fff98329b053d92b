/// One atomic step of a participant, who stands at a place.
///
/// Places are numbers below 1024 and items numbers below 2^24.
#[derive(Clone, Copy, Debug, PartialEq, Eq)]
pub enum Step {
    /// Takes a free place.
    Register(u32),
    /// Reads the count, to open with it.
    Read(u32),
    /// Opens with the count that was read. Where that is another one than at the opening before, the bags move on,
    /// and what has then seen three changes is reclaimed.
    Publish(u32),
    /// Puts an item into the current bag. Not possible between a read and its publish.
    Retire(u32, u32),
    /// Takes the lock, to look at the others and advance.
    Lock(u32),
    /// Takes over what ended places left, and frees them. Possible until the first look.
    Adopt(u32),
    /// Looks at the lowest place not yet looked at.
    Look(u32),
    /// Raises the count, once all others were looked at and passed.
    Advance(u32),
    /// Gives the lock back.
    Unlock(u32),
    /// Closes an open place.
    Close(u32),
    /// Ends a closed place, and leaves what waits there.
    End(u32),
}

/// What a step did.
#[derive(Clone, Copy, Debug, PartialEq, Eq)]
pub enum Did {
    /// The step was not possible: nothing changed.
    NotPossible,
    Done,
    /// A publish: the count, whether it was a change, and how many items it reclaimed.
    Opened {
        count: u64,
        changed: bool,
        reclaimed: u32,
    },
    Looked {
        passed: bool,
    },
    Advanced {
        raised: bool,
    },
}

impl Step {
    ghost use Rattle.std.specs.Prelude.{◌≡◌};
    ghost use Rattle.sdd_machine.specs.Sizes.{place_named, item_named};

    pub(super) fn place(self) -> u32
        ensures { result ≡ place_named self }
    {
        match self {
            Step::Register(place) => place,
            Step::Read(place) => place,
            Step::Publish(place) => place,
            Step::Retire(place, _) => place,
            Step::Lock(place) => place,
            Step::Adopt(place) => place,
            Step::Look(place) => place,
            Step::Advance(place) => place,
            Step::Unlock(place) => place,
            Step::Close(place) => place,
            Step::End(place) => place,
        }
    }

    /// The item that it names, 0 with none.
    pub(super) fn item(self) -> u32
        ensures { result ≡ item_named self }
    {
        match self {
            Step::Retire(_, item) => item,
            _ => 0,
        }
    }
}
