//! Tests of the commands `hand`, `check`, `play`, `serve` and `node`, over readers and writers of these tests
//! (`test_streams`), links in memory of `match_links`, which may be slow (`slow_links`), wires in memory of `node_wires`, and
//! disks in memory of `promise_store`.
//!
//! They go through the public calls of `streamed`, `match_runs` and `node_runs` alone. A crate that has tests is proved once by itself
//! and once with them; this one has nothing but tests, so they are proved once, beside the program and not before it.
#![tactic(auto)]

#[cfg(test)]
mod check_tests;
#[cfg(test)]
mod hand_tests;
#[cfg(test)]
mod node_command_tests;
#[cfg(test)]
mod note_flood_tests;
#[cfg(test)]
mod play_tests;
#[cfg(test)]
mod serve_tests;
#[cfg(test)]
mod slow_links;
#[cfg(test)]
mod test_streams;
