//! Pictures of runs: what happened from line to line, and that as an SVG. It knows no scripts.
//!
//! No clause says what is drawn. It is safe and ends, whatever it is told: of events that do not belong together it draws
//! something else than a run, and of what was never made nothing.
mod drawing;
mod layout;
mod model;
mod style;
mod svg;

pub use drawing::draw;
pub use model::{Event, Fate, GuardPhase, Picture};
