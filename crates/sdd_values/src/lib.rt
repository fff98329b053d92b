//! Places for values in one block of memory, which readers look at for as long as they have a guard.
//!
//! - [`LentValues`] has a number of places, each empty or with a value, and a number of readers. Its memory is taken once and given back by `destroy`.
//! - A reader's *section* lasts while it has a guard. [`ReadSections`] keeps the sections of a space's readers; each guard has a part of its reader's, a
//!   [`ReadSection`], and guards of one reader that nest share one. When all parts are back the section can end, which an [`EndedSection`] shows.
//! - For each value each reader has a *fraction*, which is home or lent to the reader's section. `LentValues::look` lends it, and answers a reference that
//!   lives as long as the guard's part is borrowed, whatever becomes of the places meanwhile. `LentValues::settle` has what a reader was lent home again
//!   once its section has ended, in all places at once.
//! - A value is taken or replaced only where all its fractions are home. So nobody can look at it any more.
//!
//! Fractions and sections exist for proofs alone: they take no bytes, and beside the look itself no instruction runs for them.
//!
//! - A [`Nullable`] shows a value or nothing. A reference to one is a single word that can be copied, for a pointer that may be null.
//!
//! Below stands a block of values of any kind, which is proved by hand, as is the memory that it lies in. `sdd_examples` shows the use.
#![tactic(auto)]

mod block;
mod ended_section;
mod lent_values;
mod nullable;
mod raw_slice;
mod read_sections;
mod uninit_block;

pub use ended_section::{EndedSection, end_section};
pub use lent_values::LentValues;
pub use nullable::Nullable;
pub use read_sections::{ReadSection, ReadSections, SectionState};
pub use uninit_block::{Freeable, UninitBlock};
