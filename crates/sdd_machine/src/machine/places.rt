ghost use Rattle.std.specs.Prelude.{◌≡◌, ◌+◌, ◌<◌, ◌^◌, map};
ghost use Rattle.sdd_machine.specs.Table.{skip, is_idle, holds, adopts, looks, advances, scan_advanced};
ghost use Rattle.sdd_machine.specs.Views.{freed_post};

/// What a place is doing.
#[derive(Clone, Copy, Debug, PartialEq, Eq)]
pub enum Phase {
    Free,
    Closed,
    Reading(u64),
    Open,
    Ended,
}

/// What the holder of the lock has done with it: everyone below the cursor was looked at.
#[derive(Clone, Copy, Debug, PartialEq, Eq)]
pub struct Scan {
    pub holder: u32,
    pub cursor: u32,
    pub failed: bool,
    pub advanced: bool,
}

/// What a place is doing, and the last count that it found.
#[derive(Clone, Copy)]
pub struct PlacePhase {
    pub phase: Phase,
    pub found: u64,
}

impl Phase {
    ghost use Rattle.sdd_machine.specs.Table.{is_free, is_closed, is_reading, is_open, is_ended, read_of};

    pub fn is_free(self) -> bool
        ensures { result ≡ is_free self }
    {
        matches!(self, Phase::Free)
    }

    pub fn is_closed(self) -> bool
        ensures { result ≡ is_closed self }
    {
        matches!(self, Phase::Closed)
    }

    pub fn is_reading(self) -> bool
        ensures { result ≡ is_reading self }
    {
        matches!(self, Phase::Reading(_))
    }

    pub fn is_open(self) -> bool
        ensures { result ≡ is_open self }
    {
        matches!(self, Phase::Open)
    }

    pub fn is_ended(self) -> bool
        ensures { result ≡ is_ended self }
    {
        matches!(self, Phase::Ended)
    }

    /// The count that was read and not yet published, 0 with none.
    pub fn read(self) -> u64
        ensures { result ≡ read_of self }
    {
        match self {
            Phase::Reading(count) => count,
            _ => 0,
        }
    }
}

impl PlacePhase {
    pub const FREE: PlacePhase = PlacePhase {
        phase: Phase::Free,
        found: 0,
    };

    pub fn freed(self) -> PlacePhase
        ensures { result ≡ freed_post self }
    {
        if self.phase.is_ended() {
            PlacePhase {
                phase: Phase::Free,
                found: self.found,
            }
        } else {
            self
        }
    }
}

/// Frees the ended places.
pub fn free_ended(posts: &mut [PlacePhase])
    ensures { posts.new ≡ map freed_post posts.old }
{
    for post in posts.iter_mut() {
        let freed = post.freed();
        *post = freed;
    }
}

/// The lowest number from `from` on that isn't `place`.
pub fn skip(place: u32, from: u32) -> u32
    requires { from + 1 < 2 ^ 32 }
    ensures { result ≡ skip place from }
{
    if from == place { from + 1 } else { from }
}

pub fn is_idle(scan: Option<Scan>) -> bool
    ensures { result ≡ is_idle scan }
{
    scan.is_none()
}

pub fn holds(place: u32, scan: Option<Scan>) -> bool
    ensures { result ≡ holds place scan }
{
    match scan {
        None => false,
        Some(scan) => scan.holder == place,
    }
}

pub fn adopts(place: u32, scan: Option<Scan>) -> bool
    ensures { result ≡ adopts place scan }
{
    match scan {
        None => false,
        Some(scan) => scan.holder == place && scan.cursor == skip(place, 0),
    }
}

pub fn looks(places: u32, place: u32, scan: Option<Scan>) -> bool
    ensures { result ≡ looks places place scan }
{
    match scan {
        None => false,
        Some(scan) => scan.holder == place && !scan.failed && scan.cursor < places,
    }
}

pub fn advances(places: u32, place: u32, scan: Option<Scan>) -> bool
    ensures { result ≡ advances places place scan }
{
    match scan {
        None => false,
        Some(scan) => {
            scan.holder == place && !scan.advanced && !scan.failed && places <= scan.cursor
        }
    }
}

/// The scan after an advance.
pub fn advanced(scan: Option<Scan>) -> Option<Scan>
    ensures { result ≡ scan_advanced scan }
{
    match scan {
        None => None,
        Some(scan) => Some(Scan {
            holder: scan.holder,
            cursor: scan.cursor,
            failed: scan.failed,
            advanced: true,
        }),
    }
}
