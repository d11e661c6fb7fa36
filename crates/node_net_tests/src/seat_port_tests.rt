//! Who comes to a seat's port, over sockets of this machine.

use node_wires::limits::ORDINARY;
use node_wires::{Line, TcpWire, Wire};
use std::net::{IpAddr, Ipv4Addr, SocketAddr, TcpStream};
use std::process::Abort;
use std::test::Fail;

/// The first place of seat 0 alone.
const DOOR: u8 = ORDINARY as u8;

/// The wires of one seat at a free port of this machine, and that port.
fn wire(rt: &HostRuntime) -> Option<(TcpWire<'_>, SocketAddr)> {
    let any = SocketAddr::new(IpAddr::V4(Ipv4Addr::LOCALHOST), 0);
    let wire = TcpWire::bind_bot(rt, Vec::new(rt.alloc()), any).ok()?;
    let port = wire.seat_address(0)?;
    Some((wire, port))
}

/// Lets so many microseconds pass.
fn pass(wire: &mut TcpWire<'_>, time: u64) {
    let until = wire.now().saturating_add(time);
    for _ in 0..100_000u32 {
        let now = wire.now();
        if now >= until {
            return;
        }
        wire.wait(until - now);
    }
}

/// Of those who come from one address and say nothing eight have places of guests of any seat, and two more those of the seat
/// alone. The first makes room once he has stood for 0.3 s, and one who is known doesn't.
#[test]
fn who_finds_no_place_has_one_of_his_seat(rt: HostRuntime) -> Result<(), Fail> {
    let Some((mut low, port)) = wire(&rt) else {
        panic!(rt; "no port is free");
    };
    let mut streams = Vec::with_capacity(rt.alloc(), 13)?;
    for number in 0..13u8 {
        match number {
            // Who stood at the first place of the seat is gone.
            11 => low.close(Line::Guest(DOOR)),
            12 => {
                low.know(Line::Guest(0));
                pass(&mut low, 300_000);
            }
            _ => (),
        }
        let stream = TcpStream::connect(&rt, port)?;
        assert!(rt; streams.push(stream).is_ok());
        low.wait(100_000);
        let expected = match number {
            0..=7 => Some(number),
            8 | 11 => Some(DOOR),
            9 => Some(DOOR + 1),
            10 => None,
            _ => Some(1),
        };
        assert!(rt; low.accept_guest(0) == expected);
    }
    Ok(())
}
