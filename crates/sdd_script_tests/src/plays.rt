//! Plays: what the words of the command line choose, how plays end and what they write then, and the greatest sizes.
mod greatest_sizes;
mod tried_again;
mod words;
mod worked;
