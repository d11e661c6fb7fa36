//! A line of the script: what happens at a moment.

/// The numbers behind a word of a script.
pub const NUMBERS: usize = 6;

/// What happens at a moment.
#[derive(Clone, Copy, Debug)]
pub struct Order {
    pub moment: u64,
    pub word: Word,
    pub numbers: [u64; NUMBERS],
}

/// What may happen.
#[derive(Clone, Copy, Debug, PartialEq, Eq)]
pub enum Word {
    /// From one node to another it takes so long: FROM TO MICROSECONDS.
    Delay,
    /// From one node to another nothing comes through: FROM TO.
    Cut,
    /// It does again: FROM TO.
    Heal,
    /// The connections between two nodes are broken off, and both are told: ONE OTHER.
    Close,
    /// Of the connections between two nodes the half ends by which the one sends to the other: FROM TO.
    Half,
    /// The process of a node dies, and its disk keeps what a number picks: NODE PICK.
    Kill,
    /// The same, and nobody is told: NODE PICK.
    Halt,
    /// The process of a node begins: NODE.
    Start,
    /// A sync of a node takes so long: NODE MICROSECONDS.
    Sync,
    /// So many calls of a node's disk pass, and then one fails: NODE CALLS.
    Fail,
    /// The process of a node is paused for so long: NODE MICROSECONDS.
    Pause,
    /// A bot comes: SEAT NODE THINKS MIX SEED HOW.
    Bot,
    /// A bot thinks so long from now on: BOT MICROSECONDS.
    Think,
    /// A bot closes its connection, and comes again after so long: BOT MICROSECONDS.
    Leave,
    /// A bot closes the half of its connection by which it sends, and reads on: BOT.
    Hush,
    /// Somebody comes to a port of a node and sends something: NODE PORT COUNT SEED STAYS.
    Stranger,
    /// Strangers come to a port of a node one after another, so many a second, for so long: NODE PORT RATE KIND MICROSECONDS.
    Flood,
    /// Each call of a node's wires takes so long, and each turn of its process at least so long: NODE CALL TURN.
    Cost,
    /// What the disk of a node without a process keeps is another from now on: NODE WHAT NUMBER.
    Store,
    /// The run ends.
    End,
}

impl Order {
    /// One of its numbers; 0 where it has none there.
    pub fn number(&self, place: usize) -> u64 {
        self.numbers.get(place).copied().unwrap_or(0)
    }

    /// The same as a byte.
    pub fn byte(&self, place: usize) -> u8 {
        self.number(place).min(255) as u8
    }

    /// The order of a line; none where it says none.
    pub fn read(line: &str) -> Option<Order> {
        let mut words = line.split(' ');
        let moment = words.next()?.parse::<u64>().ok()?;
        let word = Word::named(words.next()?)?;
        let mut numbers = [0; NUMBERS];
        let mut place = 0usize;
        for text in words {
            let number = text.parse::<u64>().ok()?;
            if place >= NUMBERS {
                return None;
            }
            numbers[place] = number;
            place += 1;
        }
        Some(Order {
            moment,
            word,
            numbers,
        })
    }
}

impl Word {
    /// The word of this name; none of another name.
    fn named(name: &str) -> Option<Word> {
        for word in [
            Word::Delay,
            Word::Cut,
            Word::Heal,
            Word::Close,
            Word::Half,
            Word::Kill,
            Word::Halt,
            Word::Start,
            Word::Sync,
            Word::Fail,
            Word::Pause,
            Word::Bot,
            Word::Think,
            Word::Leave,
            Word::Hush,
            Word::Stranger,
            Word::Flood,
            Word::Cost,
            Word::Store,
            Word::End,
        ] {
            if word.name() == name {
                return Some(word);
            }
        }
        None
    }

    /// Its name.
    pub fn name(self) -> &'static str {
        match self {
            Word::Delay => "delay",
            Word::Cut => "cut",
            Word::Heal => "heal",
            Word::Close => "close",
            Word::Half => "half",
            Word::Kill => "kill",
            Word::Halt => "halt",
            Word::Start => "start",
            Word::Sync => "sync",
            Word::Fail => "fail",
            Word::Pause => "pause",
            Word::Bot => "bot",
            Word::Think => "think",
            Word::Leave => "leave",
            Word::Hush => "hush",
            Word::Stranger => "stranger",
            Word::Flood => "flood",
            Word::Cost => "cost",
            Word::Store => "store",
            Word::End => "end",
        }
    }
}
