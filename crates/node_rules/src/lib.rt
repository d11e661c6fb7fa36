//! The rules of a node: what each call comes to, as pure functions of what the node holds and knows and of what came.
//!
//! They read as the table of `docs/NODES.md`: by the cases of the rule alone, with no memory, no order of storing and
//! sending, and no failure. `specs/Standings.antt` has what a node holds and knows as one value, `specs/Turns.antt` what a
//! call comes to, `specs/Rules.antt` the rule of every call, and the files that it names the rules one by one:
//! promises and votes (`Accepting`), what is counted, known, asked and told (`Learning`), what is applied and shown
//! (`Applying`, `Showing`), ballots, proposals and the close of a call (`Proposing`), seats (`Seats`).
//!
//! A node carries the rules out, and its code is compared with them. What is believed of a node are the `laws`: they
//! speak of what came, of what the node of the world has got, sent, stored, knows and heard (`specs/Being.antt` says
//! whose standing is whose), and of the turn's frames and pieces (`specs/Called.antt`).
//!
//! Whoever shows that a call of a node's code is right shows that it ends as `Ends` says, and calls
//! `laws::calls_are_sound`. `proofs/Examples.antt` works out the turns of three nodes from their starts to the end of a
//! match of one hand. There is no code here, and no fault of its own.
#![tactic(auto)]

pub mod laws;
