//! Where the words of a domain are.
ghost use Rattle.std.specs.Prelude.{◌≡◌, ◌^◌, ◌<◌, ◌≤◌};
ghost use Rattle.sdd_domain_invariant.specs.Words as words;

use sdd_rights::views::Sizes;

/// How far apart words stand that different participants write: two lines of the cache, as processors fetch them by pairs.
pub const LINE: usize = 16;
/// The global count.
pub const GLOBAL: usize = 0;
/// The lock of a scan.
pub const LOCK: usize = LINE;

/// Where the words of cells begin, however many of each there are.
const FIRST_CELL: usize = 2 * LINE;

/// Where the word of a cell is.
#[inline]
pub fn cell_word(cell: u32) -> usize
    ensures { result ≡ words.cell_word cell }
{
    FIRST_CELL + cell as usize
}

/// Where the words of pointers begin, of which there are as many as cells.
pub fn first_pointer(sizes: &Sizes) -> u64
    requires cells { sizes.now.cells ≤ 2 ^ 32 }
    ensures { result ≡ words.pointer_word sizes.now 0 }
{
    FIRST_CELL as u64 + sizes.cells
}

/// Where the words of places begin: a line apart from those of cells.
pub fn first_place(sizes: &Sizes) -> u64
    requires cells { sizes.now.cells ≤ 2 ^ 32 }
    ensures { result ≡ words.state_word sizes.now 0 }
{
    FIRST_CELL as u64 + 2 * sizes.cells + LINE as u64
}

/// Where the slots' words begin.
pub fn first_slot(sizes: &Sizes) -> u64
    requires places { sizes.now.participants ≤ 2 ^ 32 }
    requires cells { sizes.now.cells ≤ 2 ^ 32 }
    ensures { result ≡ words.first_slot sizes.now }
{
    first_place(sizes) + LINE as u64 * sizes.participants
}

/// How many words there are.
pub fn word_count(sizes: &Sizes) -> u64
    requires places { sizes.now.participants ≤ 2 ^ 32 }
    requires slots { sizes.now.slots ≤ 2 ^ 32 }
    requires jobs { sizes.now.jobs ≤ 2 ^ 32 }
    requires cells { sizes.now.cells ≤ 2 ^ 32 }
    ensures { result ≡ words.all_words sizes.now }
{
    first_slot(sizes) + sizes.slots + sizes.jobs
}
