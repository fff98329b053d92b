//! Items that are out as raw, and the words of what raw cells point to.

pub mod pointer_words;
pub mod values;
