//! Schedules: worked examples of the machine through their plays, lines that are no steps, devices that fail, and the
//! greatest sizes.
mod examples;
mod greatest_sizes;
mod lines;
mod plays;
