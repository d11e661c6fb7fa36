//! Tests of the parts of a node (`proposer`, `acceptor`, `learner`) and of the journal on its disk (`promise_store`), by
//! their public calls alone.
//!
//! - `store_tests`: a journal byte by byte, and the calls of an append; `opening_tests`: disks that stop while a journal of
//!   version 1 is opened or looked at; `disk_tests`: disks. Journals that are cut short, changed or drawn are opened by
//!   `tests/inputs`, and disks fail and stop in `tests/disks`, through a program.
//! - `acceptor_tests`: what is answered to single proposals; `acceptor_run_tests`: to those for slots that follow one
//!   another; `acceptor_stop_tests`: a disk that stops in a promise; `proposer_tests`, `learner_tests`. What they answer
//!   else their contracts say, of all inputs.
//!
//! `acceptors` has what the tests of acceptors ask, `journal` the store that those of acceptors, stores and disks share,
//! `samples` the commands, and how values are compared.
//!
//! They stand in a crate of their own, which has nothing else: a crate with tests is proved twice, once without them and
//! once with all of it, and each crate that is tested here is so proved once.
#![tactic(auto)]

#[cfg(test)]
mod acceptor_run_tests;
#[cfg(test)]
mod acceptor_stop_tests;
#[cfg(test)]
mod acceptor_tests;
#[cfg(test)]
mod acceptors;
#[cfg(test)]
mod disk_tests;
#[cfg(test)]
mod journal;
#[cfg(test)]
mod learner_tests;
#[cfg(test)]
mod opening_tests;
#[cfg(test)]
mod proposer_tests;
#[cfg(test)]
mod samples;
#[cfg(test)]
mod store_tests;
