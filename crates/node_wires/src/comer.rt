ghost use Rattle.std.specs.Prelude.{◌≡◌};
ghost use Rattle.node_wires.specs.Places.{places_of, first_of};

use crate::limits::{ASKERS, CALLERS, DIALLED, GUESTS, SEATS};
use crate::line::Line;

/// Those who come by themselves, by the kind of port that they come to. Each kind has places of its own.
#[derive(Clone, Copy)]
pub(crate) enum Comer {
    /// Who dials this node.
    Caller,
    /// Who comes to the port of this seat and is to show its token.
    Guest(u8),
    /// Who comes to the status port.
    Asker,
}

impl Comer {
    /// The line of the one at this place.
    pub(crate) fn line(self, place: u8) -> Line {
        match self {
            Comer::Caller => Line::Caller(place),
            Comer::Guest(_) => Line::Guest(place),
            Comer::Asker => Line::Asker(place),
        }
    }

    /// Whether it is a bot, or one who may become one.
    pub(crate) fn is_of_bot(self) -> bool {
        match self {
            Comer::Guest(_) => true,
            Comer::Caller | Comer::Asker => false,
        }
    }

    /// How many places there are.
    pub(crate) fn places(self) -> u8
        ensures { result ≡ places_of self }
    {
        match self {
            Comer::Caller => CALLERS as u8,
            Comer::Guest(_) => GUESTS as u8,
            Comer::Asker => ASKERS as u8,
        }
    }

    /// Where the first of these places is among those of all lines.
    pub(crate) fn first(self) -> usize
        ensures { result ≡ first_of self }
    {
        match self {
            Comer::Caller => DIALLED,
            Comer::Guest(_) => DIALLED + CALLERS + SEATS,
            Comer::Asker => DIALLED + CALLERS + SEATS + GUESTS,
        }
    }
}
