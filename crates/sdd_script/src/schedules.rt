//! Schedules: steps of the collector's machine, one on each line of a text; what each is answered, and the play from the
//! bytes of the lines to the bytes of their answers.
//!
//! Lines, numbers and devices are those of a script, and the machine is the one that `safety` makes.

pub mod answer;
pub mod line;
pub mod player;
pub mod schedule;
pub mod taking;

pub use answer::{print_all, print_fault};
pub use line::parse;
pub use player::play_steps;
pub use schedule::{Schedule, parse_all};
pub use taking::take_all;
