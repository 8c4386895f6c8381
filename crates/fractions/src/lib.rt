//! The fractions of a map's tree: set aside, so that all its numbers are whole, and put back.
#![tactic(auto)]

mod counting;
mod fraction;
mod lines;
mod members;
mod place;
mod putting_back;
mod setting_aside;

pub use counting::{has_few_fractions, has_fraction};
pub use lines::{Fractions, Moved, UNMOVED, members_said, put_word, put_words, remove_word};
pub use place::Place;
pub use putting_back::{back, number_in};
pub use setting_aside::{aside, moved_aside};
