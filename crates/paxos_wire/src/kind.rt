ghost use Rattle.std.specs.Prelude.{◌≡◌, false, MatchOption};
ghost use Rattle.paxos_wire.specs.Kinds.{kind_byte};
ghost use Rattle.paxos_wire.specs.Spelling.{kind};
ghost use Rattle.paxos_wire.specs.Faults.{is_kind};

use crate::message::Message;

/// The kinds of messages, each with the byte that tells it in a frame.
#[derive(Clone, Copy)]
pub(crate) enum Kind {
    Prepare = 1,
    Promise = 2,
    Refuse = 3,
    Accept = 4,
    Accepted = 5,
    Chosen = 6,
    Ask = 7,
    Forward = 8,
}

impl Kind {
    /// The kind that a byte tells; `None` for every byte but 1 to 8.
    pub(crate) fn of_byte(byte: u8) -> Option<Kind>
        ensures { MatchOption result (is_kind byte ≡ false) (λ kind. kind_byte kind ≡ byte) }
    {
        match byte {
            1 => Some(Kind::Prepare),
            2 => Some(Kind::Promise),
            3 => Some(Kind::Refuse),
            4 => Some(Kind::Accept),
            5 => Some(Kind::Accepted),
            6 => Some(Kind::Chosen),
            7 => Some(Kind::Ask),
            8 => Some(Kind::Forward),
            _ => None,
        }
    }

    /// The kind of a message.
    pub(crate) fn of_message(message: &Message) -> Kind
        ensures { kind_byte result ≡ kind message.now }
    {
        match message {
            Message::Prepare { .. } => Kind::Prepare,
            Message::Promise { .. } => Kind::Promise,
            Message::Refuse { .. } => Kind::Refuse,
            Message::Accept { .. } => Kind::Accept,
            Message::Accepted { .. } => Kind::Accepted,
            Message::Chosen { .. } => Kind::Chosen,
            Message::Ask { .. } => Kind::Ask,
            Message::Forward { .. } => Kind::Forward,
        }
    }

    /// The byte that tells it.
    pub(crate) fn byte(self) -> u8
        ensures { result ≡ kind_byte self }
    {
        self as u8
    }
}
