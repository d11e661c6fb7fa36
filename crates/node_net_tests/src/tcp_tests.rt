//! Strangers, over sockets of this machine.

use node_wires::{Line, TcpWire, Wire};
use std::io::Read;
use std::net::{IpAddr, Ipv4Addr, SocketAddr, TcpStream};
use std::process::Abort;
use std::test::Fail;

/// A port of this machine.
fn here(port: u16) -> SocketAddr {
    SocketAddr::new(IpAddr::V4(Ipv4Addr::LOCALHOST), port)
}

/// The wires of a node from the first ports that are free, and the first port: its one seat is at the next, and its status at
/// the one behind that.
fn wire(rt: &HostRuntime) -> Option<(TcpWire<'_>, u16)> {
    for block in 0..300u16 {
        let port = 20_090 + 100 * block;
        let peers = Vec::from_slice(rt.alloc(), &[here(port)]).ok()?;
        let status = Some(here(port.saturating_add(2)));
        if let Ok(wire) = TcpWire::bind(rt, peers, 0, here(port.saturating_add(1)), 1, status) {
            return Some((wire, port));
        }
    }
    None
}

/// Lets so many microseconds pass.
fn pass(wire: &mut TcpWire<'_>, time: u64) {
    let until = wire.now().saturating_add(time);
    for _ in 0..100_000u32 {
        let now = wire.now();
        if now >= until {
            return;
        }
        wire.wait(until - now);
    }
}

/// Of nine who dial from one address and say nothing the first makes room for the ninth, once he has stood for 0.3 s.
#[test]
fn the_first_stranger_makes_room(rt: HostRuntime) -> Result<(), Fail> {
    let Some((mut low, port)) = wire(&rt) else {
        panic!(rt; "no port is free");
    };
    let mut first = TcpStream::connect(&rt, here(port))?;
    low.wait(100_000);
    assert!(rt; low.accept() == Some(0));
    let mut others = Vec::with_capacity(rt.alloc(), 8)?;
    for place in 1..9u8 {
        if place == 8 {
            pass(&mut low, 300_000);
        }
        let other = TcpStream::connect(&rt, here(port))?;
        assert!(rt; others.push(other).is_ok());
        low.wait(100_000);
        let expected = if place < 8 { place } else { 0 };
        assert!(rt; low.accept() == Some(expected));
    }
    let mut told = [0; 1];
    assert!(rt; matches!(first.read(&mut told), Ok(0) | Err(_)));
    // One who is known stays.
    low.know(Line::Caller(1));
    let _last = TcpStream::connect(&rt, here(port))?;
    low.wait(100_000);
    assert!(rt; low.accept() == Some(8));
    Ok(())
}
