ghost use Rattle.std.specs.Prelude.{◌≡◌};
ghost use Rattle.std.specs.Option.{option_map};
ghost use Rattle.serving.specs.Most.{frame_by, frame_in};
ghost use Rattle.serving.specs.Turning.{turn_of};

use crate::turn::Turn;
use dealer_world::{Event, Frame};

/// An event that is to be given to the cluster; of a frame its number too, counted from 0 in the order of sending, and of
/// an order the seat that is played for.
#[derive(Drop)]
pub(crate) struct Waiting {
    pub(crate) event: Event,
    pub(crate) number: usize,
    pub(crate) seat: u8,
}

/// What it came to that something was to be taken from the links. Seats and nodes are counted from 0.
#[derive(Drop)]
pub(crate) enum Taking {
    /// An event for the cluster.
    Gives(Waiting),
    /// Nothing: the seat that is awaited at this node, or read from there, sent nothing for so long as the links wait.
    Waits { seat: u8, node: u8 },
    /// Nothing: all is over.
    Over,
}

impl Waiting {
    /// A frame, under its number.
    pub(crate) fn of_frame(event: Event, number: usize) -> Waiting
        ensures { result ≡ record { event = event; number = number; seat = 0 } }
    {
        Waiting {
            event,
            number,
            seat: 0,
        }
    }

    /// The frame that it brings; none where it brings none.
    pub(crate) fn frame(&self) -> Option<Frame<'_>>
        ensures { option_map (λ frame. frame_by frame.from frame.to frame.bytes.now) result ≡ frame_in self.now.event }
    {
        match &self.event {
            Event::Frame { from, to, bytes } => Some(Frame {
                from: *from,
                to: *to,
                bytes,
            }),
            _ => None,
        }
    }

    /// The turn that gives it.
    pub(crate) fn turn(&self) -> Turn
        ensures { result ≡ turn_of self.now.number self.now.seat self.now.event }
    {
        match &self.event {
            Event::Frame { .. } => Turn::Delivered(self.number),
            Event::Line { seat, .. } => Turn::Read(*seat),
            Event::Tick { node } => Turn::Ticked(*node),
            Event::Away { node } => Turn::Away {
                seat: self.seat,
                node: *node,
            },
            Event::Connect { node, seat } => Turn::Seated {
                seat: *seat,
                node: *node,
            },
            Event::Drop { seat, .. } => Turn::Gone(*seat),
            Event::Stop { node, .. } => Turn::Stopped(*node),
            Event::Start { node } => Turn::Started(*node),
        }
    }
}
