//! Lines of scripts: which are calls, the texts of all answers, adapters of devices, and the greatest sizes of texts.
mod adapters;
mod answers;
mod calls;
mod greatest_sizes;
