//! The games that tests and measures play: the files of `examples/`, as constants, since a test can't read a file.
//!
//! `tests/samples` compares each with its file, byte by byte.
#![tactic(auto)]

/// Two players, limit: `examples/l2.game`.
pub const L2: &[u8] = b"GAMEDEF
limit
numPlayers = 2
numRounds = 4
blind = 10 5
raiseSize = 10 10 20 20
firstPlayer = 2 1 1 1
maxRaises = 3 4 4 4
numSuits = 4
numRanks = 13
numHoleCards = 2
numBoardCards = 0 3 1 1
END GAMEDEF
";

/// Two players, no-limit: `examples/n2.game`.
pub const N2: &[u8] = b"GAMEDEF
nolimit
numPlayers = 2
numRounds = 4
stack = 20000 20000
blind = 100 50
firstPlayer = 2 1 1 1
numSuits = 4
numRanks = 13
numHoleCards = 2
numBoardCards = 0 3 1 1
END GAMEDEF
";

/// Three players, limit: `examples/l3.game`.
pub const L3: &[u8] = b"GAMEDEF
limit
numPlayers = 3
numRounds = 4
blind = 5 10 0
raiseSize = 10 10 20 20
firstPlayer = 3 1 1 1
maxRaises = 3 4 4 4
numSuits = 4
numRanks = 13
numHoleCards = 2
numBoardCards = 0 3 1 1
END GAMEDEF
";

/// Three players, no-limit, with unequal stacks: `examples/n3.game`.
pub const N3: &[u8] = b"GAMEDEF
nolimit
numPlayers = 3
numRounds = 4
stack = 1000 150 5000
blind = 50 100 0
firstPlayer = 3 1 1 1
numSuits = 4
numRanks = 13
numHoleCards = 2
numBoardCards = 0 3 1 1
END GAMEDEF
";
