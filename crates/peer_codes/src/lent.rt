//! What a connection tells where its caller's buffer takes the bytes.

ghost use Rattle.std.specs.Prelude.{◌≡◌};
ghost use Rattle.peer_codes.specs.Lending.{event_as, told_as};

use crate::beat::Beat;
use crate::connection_fault::ConnectionFault;
use crate::event::Event;
use crate::frame::Frame;
use crate::hello::Hello;
use crate::more::More;

/// What came over a connection, where the caller's buffer has the bytes: what is an `Event`, without the bytes of a frame and
/// of a record of a further kind.
#[derive(Clone, Copy)]
pub enum Lent {
    /// The other's Hello. The side that was called answers with its own.
    Greeted(Hello),
    /// The other's proof is right: frames and beats may follow, and behind Hellos of the second version records of further
    /// kinds.
    Opened,
    /// A frame of the other node, which the buffer has.
    Frame,
    /// How the other is.
    Beat(Beat),
    /// A record of a further kind, by the byte of that, behind Hellos of the second version. The buffer has its bytes.
    More(u8),
}

/// What came, of which the bytes go into the buffer.
fn lent_of(event: Event, frame: &mut Frame) -> Lent
    ensures { event_as result frame.new ≡ event }
{
    match event {
        Event::Greeted(hello) => Lent::Greeted(hello),
        Event::Opened => Lent::Opened,
        Event::Frame(came) => {
            *frame = came;
            Lent::Frame
        }
        Event::Beat(beat) => Lent::Beat(beat),
        Event::More(More { kind, bytes }) => {
            *frame = Frame { bytes };
            Lent::More(kind)
        }
    }
}

/// What a record told, of which the bytes go into the buffer.
pub(crate) fn lend(
    told: Result<Event, ConnectionFault>,
    frame: &mut Frame,
) -> Result<Lent, ConnectionFault>
    ensures { told_as result frame.new ≡ told }
{
    match told {
        Ok(event) => Ok(lent_of(event, frame)),
        Err(fault) => Err(fault),
    }
}

/// What came, with the bytes that the buffer has.
fn event_of(lent: Lent, frame: Frame) -> Event
    ensures { result ≡ event_as lent frame }
{
    match lent {
        Lent::Greeted(hello) => Event::Greeted(hello),
        Lent::Opened => Event::Opened,
        Lent::Frame => Event::Frame(frame),
        Lent::Beat(beat) => Event::Beat(beat),
        Lent::More(kind) => Event::More(More {
            kind,
            bytes: frame.bytes,
        }),
    }
}

/// What a record told, with the bytes that the buffer has.
pub(crate) fn owned(
    told: Result<Lent, ConnectionFault>,
    frame: Frame,
) -> Result<Event, ConnectionFault>
    ensures { result ≡ told_as told frame }
{
    match told {
        Ok(lent) => Ok(event_of(lent, frame)),
        Err(fault) => Err(fault),
    }
}
