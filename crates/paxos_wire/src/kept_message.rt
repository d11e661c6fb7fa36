ghost use Rattle.std.specs.Prelude.{◌≡◌, IfOk};
ghost use Rattle.paxos_wire.specs.Fits.{IsMessage};

use crate::laws::frames_read_back;
use crate::message::Message;
use crate::message_room::MessageRoom;
use crate::read_frames::message_of_frame;
use crate::write_frames::encode;
use std::alloc::{AllocError, Global};
use std::marker::Model;

/// A message that borrows nothing: its frame is kept.
///
/// Contracts see it as the message.
#[derive(Debug, Drop)]
pub struct KeptMessage {
    frame: Vec<u8>,
}

impl Model for KeptMessage {
    ghost use Rattle.paxos_wire.specs.declared.message.Message.{Message};

    ghost Value = { Message };

    ghost use Rattle.paxos_wire.specs.KeptInside.{IsKept, message_in};

    ghost view = { message_in };

    ghost invariant = { IsKept };
}

impl KeptMessage {
    /// Keeps a message. An `Err` comes only where memory was refused.
    pub fn of(alloc: Global, message: &Message) -> Result<KeptMessage, AllocError>
        requires { IsMessage message.now }
        ensures { IfOk result (λ kept. kept ≡ message.now) }
    {
        frames_read_back();
        let mut frame = Vec::new(alloc);
        encode(&mut frame, message)?;
        Ok(KeptMessage { frame })
    }

    /// The message, whose lists stand in the room.
    pub fn read<'a>(&self, room: &'a mut MessageRoom) -> Message<'a>
        ensures { result ≡ self.now }
    {
        match message_of_frame(&self.frame, room) {
            Ok(message) => message,
            Err(_) => unreachable!(),
        }
    }
}
