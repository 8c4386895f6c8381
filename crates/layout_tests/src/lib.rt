//! Tests of `map_layout`: the bytes that a map gets, of which no clause says more than their tree.
#![tactic(auto)]

#[cfg(test)]
mod edited;
#[cfg(test)]
mod layouts;
#[cfg(test)]
mod maps;
#[cfg(test)]
mod replacing;
