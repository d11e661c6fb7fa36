//! Links over sockets: what no clause can say. Silent clients, answers that take longer than a wait, ends within a line and
//! who is turned away are told by `tests/waits`.

use crate::samples::{assert_bytes, holds};
use match_links::limits::PIECE;
use match_links::{LinkFault, Links, TcpLinks};
use std::io::{Read, Write};
use std::net::{Ipv4Addr, TcpStream};
use std::process::Abort;
use std::test::Fail;
use std::time::{Duration, Instant};

/// What a bot sends first.
const VERSION: &[u8] = b"VERSION:2.0.0\r\n";

/// How long these links wait.
const WAIT_MILLISECONDS: u64 = 300;

/// Links of three nodes and two seats, at the first ports that are free.
fn links(rt: &HostRuntime) -> Option<TcpLinks<'_>> {
    for block in 0..120u16 {
        if let Ok(mut links) = TcpLinks::bind(rt, 20_050 + 100 * block, 3, 2) {
            links.set_wait(Duration::from_millis(WAIT_MILLISECONDS));
            return Some(links);
        }
    }
    None
}

/// A client that calls a seat at a node and sends this.
fn call(
    rt: &HostRuntime,
    links: &TcpLinks<'_>,
    (node, seat): (u8, u8),
    text: &[u8],
) -> Result<TcpStream, Fail> {
    let port = links.seat_port(node, seat);
    let mut stream = TcpStream::connect(rt, (Ipv4Addr::LOCALHOST, port))?;
    stream.write_all(text)?;
    Ok(stream)
}

/// Asserts that nobody can be seated at a node.
fn assert_nobody(rt: &impl Abort, links: &mut impl Links, node: u8, seat: u8) {
    holds!(rt; accept(links, node, seat) == Err(LinkFault::Slow));
}

/// Waits for somebody at a node. Want of memory takes nothing: the call is made again.
fn accept(links: &mut impl Links, node: u8, seat: u8) -> Result<(), LinkFault> {
    match links.accept(node, seat) {
        Err(LinkFault::OutOfMemory) => links.accept(node, seat),
        answer => answer,
    }
}

/// Asserts that somebody is seated at a node, and that this is the first piece of it.
fn assert_seated(rt: &impl Abort, links: &mut impl Links, (node, seat): (u8, u8), piece: &[u8]) {
    holds!(rt; accept(links, node, seat) == Ok(()));
    assert_piece(rt, links, (node, seat), piece);
}

/// Asserts that this is the next piece of a seat at a node.
fn assert_piece(rt: &impl Abort, links: &mut impl Links, (node, seat): (u8, u8), piece: &[u8]) {
    let mut buffer = [0u8; PIECE];
    let count = links.read(node, seat, &mut buffer).expect(rt, "a piece");
    assert_bytes(rt, buffer.get(..count).unwrap_or(b"none"), piece);
}

/// Asserts that a client's connection has ended, and that it got nothing.
fn assert_ended(rt: &impl Abort, client: &mut TcpStream) -> Result<(), Fail> {
    let mut buffer = [0u8; 1];
    client.set_read_timeout(Some(Duration::from_millis(50)))?;
    holds!(rt; matches!(client.read(&mut buffer), Ok(0)));
    Ok(())
}

/// Asserts that a client's connection goes on, and that it got nothing.
fn assert_goes_on(rt: &impl Abort, client: &mut TcpStream) -> Result<(), Fail> {
    let mut buffer = [0u8; 1];
    client.set_read_timeout(Some(Duration::from_millis(50)))?;
    let answer = client.read(&mut buffer);
    holds!(rt; answer.is_err());
    Ok(())
}

/// Whoever was waited for in vain can be seated when it has sent something: nothing was taken of it.
#[test]
fn an_accept_may_be_slow(rt: HostRuntime) -> Result<(), Fail> {
    let mut links = links(&rt).expect(&rt, "free ports");
    let begun = Instant::now(&rt)?;
    assert_nobody(&rt, &mut links, 0, 0);
    let waited = begun.elapsed(&rt)?;
    holds!(&rt; waited >= Duration::from_millis(WAIT_MILLISECONDS));
    holds!(&rt; waited < Duration::from_millis(4 * WAIT_MILLISECONDS));
    let mut client = call(&rt, &links, (0, 0), b"VERS")?;
    assert_nobody(&rt, &mut links, 0, 0);
    client.write_all(b"ION:2.0.0\r\n")?;
    assert_seated(&rt, &mut links, (0, 0), VERSION);
    Ok(())
}

/// Who is held at a port is turned away when the seat is awaited at another.
#[test]
fn who_is_held_where_the_seat_was_awaited_is_turned_away(rt: HostRuntime) -> Result<(), Fail> {
    let mut links = links(&rt).expect(&rt, "free ports");
    let mut silent = call(&rt, &links, (0, 0), b"")?;
    assert_nobody(&rt, &mut links, 0, 0);
    assert_goes_on(&rt, &mut silent)?;
    assert_nobody(&rt, &mut links, 1, 0);
    assert_ended(&rt, &mut silent)
}

/// Where one can be seated at the port, no other port is looked at.
#[test]
fn who_dials_before_it_is_awaited_waits(rt: HostRuntime) -> Result<(), Fail> {
    let mut links = links(&rt).expect(&rt, "free ports");
    let _later = call(&rt, &links, (1, 0), b"later\n")?;
    let _now = call(&rt, &links, (0, 0), b"now\n")?;
    assert_seated(&rt, &mut links, (0, 0), b"now\n");
    assert_seated(&rt, &mut links, (1, 0), b"later\n");
    Ok(())
}

/// A node that stops lets go of who waits at its ports, and takes nobody; one that is open again does.
#[test]
fn a_closed_port_lets_go_of_those_held(rt: HostRuntime) -> Result<(), Fail> {
    let mut links = links(&rt).expect(&rt, "free ports");
    let mut silent = call(&rt, &links, (0, 0), b"")?;
    assert_nobody(&rt, &mut links, 0, 0);
    links.close_node(0);
    assert_ended(&rt, &mut silent)?;
    holds!(&rt; links.accept(0, 0) == Err(LinkFault::Failed));
    holds!(&rt; links.open(0) == Ok(()));
    let _client = call(&rt, &links, (0, 0), VERSION)?;
    assert_seated(&rt, &mut links, (0, 0), VERSION);
    Ok(())
}
