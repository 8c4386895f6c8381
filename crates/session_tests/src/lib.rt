//! Tests of the run of a session, with readers, writers and stores that fail, and of sessions in memory. They stand here, and
//! not beside the code, since a crate that has tests is proved once more for them.
#![tactic(auto)]

#[cfg(test)]
mod any_words;
#[cfg(test)]
mod in_memory;
#[cfg(test)]
mod runs;
#[cfg(test)]
mod told;
