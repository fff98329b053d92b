//! The machine: worked examples of its single steps, of epochs, tags and refusals, memory that is refused, and machines of
//! the greatest size.
mod epochs;
mod greatest_sizes;
mod refusals;
mod steps;
mod tags;
mod tried_again;
