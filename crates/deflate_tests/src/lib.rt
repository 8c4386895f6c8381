//! Tests of `deflate`: what the definition of a stream says beside zlib, and how small packed bytes are.
#![tactic(auto)]

#[cfg(test)]
mod streams;
