//! Worked examples of domains, as tests: which epoch each guard of a participant shows, alone,
//! beside another one and in threads; which places and slots are given out; and what items do there.
#![tactic(auto)]

#[cfg(test)]
mod answers;
#[cfg(test)]
mod both_spaces;
#[cfg(test)]
mod drawn;
mod few;
mod hand;
mod node;
#[cfg(test)]
mod owners;
#[cfg(test)]
mod steps;
#[cfg(test)]
mod threads;
#[cfg(test)]
mod with_jobs;
#[cfg(test)]
mod worked;
