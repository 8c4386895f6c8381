//! Tests of libraries through their public calls alone. They stand here, and not beside the code, since a crate that has
//! tests is proved once more for them.
#![tactic(auto)]

#[cfg(test)]
mod chains;
#[cfg(test)]
mod closing;
#[cfg(test)]
mod counted_paints;
#[cfg(test)]
mod entries;
#[cfg(test)]
mod free;
#[cfg(test)]
mod line_fractions;
#[cfg(test)]
mod looks;
#[cfg(test)]
mod paints;
#[cfg(test)]
mod stacks;
#[cfg(test)]
mod trees;
