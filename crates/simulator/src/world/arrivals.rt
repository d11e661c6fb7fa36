//! What arrives at the end of a connection, and the room that there is for it.

use super::World;
use std::alloc::AllocError;
use test_kit::{Port, ROOM};
use traffic::{Flight, Load, Party};

/// So many bytes may be written to a stranger.
const SMALL_ROOM: usize = 4_096;

impl<'p, 'c> World<'p, 'c> {
    /// Something arrives.
    pub(super) fn arrive(&mut self, flight: Flight) -> Result<(), AllocError> {
        let Flight {
            moment: _,
            place: _,
            connection: number,
            is_back,
            load,
        } = flight;
        let Some(connection) = self.ways.connection(number) else {
            return Ok(());
        };
        match connection.receiver(is_back) {
            Party::Node(node) => {
                let sender = connection.sender(is_back);
                self.arrive_at_node(node as usize, (number, is_back), sender, load)
            }
            Party::Bot(bot) => self.arrive_at_bot(bot, number, load),
            Party::Stranger(_) => Ok(()),
        }
    }

    /// Something arrives at a node, by this connection and way.
    fn arrive_at_node(
        &mut self,
        node: usize,
        by: (u32, bool),
        sender: Party,
        load: Load,
    ) -> Result<(), AllocError> {
        let now = self.now;
        let (number, is_back) = by;
        let address = address_of(sender);
        let Some(place) = self.places.get_mut(node) else {
            return Ok(());
        };
        let is_gone = place.is_gone;
        let Some(server) = &mut place.server else {
            return self.arrive_at_none(by, is_gone, load);
        };
        let ends = &mut server.wire_mut().ends;
        match load {
            Load::Dial { seat } => {
                if !ends.come(port_of(seat), number, address, room_of(sender))? {
                    return Ok(());
                }
                place.wake(now);
                self.ways.send(number, !is_back, now, Load::Answer)
            }
            Load::Answer => {
                place.make_room(number, ROOM, now);
                Ok(())
            }
            Load::Bytes { bytes } => {
                if ends.deliver(number, &bytes)? {
                    place.wake(now);
                    return Ok(());
                }
                self.ways.send(number, !is_back, now, Load::Break)
            }
            Load::End => {
                ends.end(number);
                place.wake(now);
                Ok(())
            }
            Load::Break => {
                ends.break_off(number);
                place.wake(now);
                Ok(())
            }
        }
    }

    /// Something arrives where there is no process: it is broken off, unless the machine is gone too.
    fn arrive_at_none(
        &mut self,
        by: (u32, bool),
        is_gone: bool,
        load: Load,
    ) -> Result<(), AllocError> {
        let (number, is_back) = by;
        match load {
            Load::End | Load::Answer | Load::Break => Ok(()),
            _ if is_gone => Ok(()),
            _ => self.ways.send(number, !is_back, self.now, Load::Break),
        }
    }

    /// One end has read so many bytes: the other may write as many.
    pub(super) fn make_room(&mut self, number: u32, reader: Party, count: usize) {
        let now = self.now;
        let Some(connection) = self.ways.connection(number) else {
            return;
        };
        let other = connection.receiver(connection.is_back_of(reader));
        if let Party::Node(node) = other {
            if let Some(place) = self.places.get_mut(node as usize) {
                place.make_room(number, count, now);
            }
        }
    }
}

/// The port of a seat, that of peers where there is none, and with 255 that of the status.
fn port_of(seat: Option<u8>) -> Port {
    match seat {
        None => Port::Peers,
        Some(255) => Port::Status,
        Some(seat) => Port::Seat(seat),
    }
}

/// The address of who has an end of a connection.
fn address_of(who: Party) -> u16 {
    match who {
        Party::Node(node) => node as u16,
        Party::Bot(bot) => bot.min(200) as u16 + 512,
        Party::Stranger(stranger) => stranger as u16 + 256,
    }
}

/// How many bytes may be written to one who dialled before he has read some. A stranger never reads.
fn room_of(who: Party) -> usize {
    match who {
        Party::Node(_) | Party::Bot(_) => ROOM,
        Party::Stranger(_) => SMALL_ROOM,
    }
}
