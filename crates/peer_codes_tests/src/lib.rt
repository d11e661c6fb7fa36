//! Tests of the connections between nodes (`peer_codes`), by their public calls alone.
//!
//! - `tag_tests`: codes as RFC 4231 has them.
//! - `record_tests`: records without codes, byte for byte as the second writing of `tests/peer_codes` has them.
//! - `way_tests`: the longest record with a tag, and one behind it, as that has them.
//! - `connection_tests`: two sides that talk, as that has it, and what is heard where something on the way is changed.
//!
//! `samples` has the key, the Hellos, the frame and the beat of all of them, `vectors` the bytes.
//!
//! They stand in a crate of their own, which has nothing else: a crate with tests is proved twice, once without them and
//! once with all of it, and `peer_codes` is so proved once.
#![tactic(auto)]

#[cfg(test)]
mod connection_tests;
#[cfg(test)]
mod record_tests;
#[cfg(test)]
mod samples;
#[cfg(test)]
mod tag_tests;
#[cfg(test)]
mod vectors;
#[cfg(test)]
mod way_tests;
