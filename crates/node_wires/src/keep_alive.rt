//! How soon the system ends a connection whose other end is lost without a word, a machine without power or a link that was
//! cut for good; and how soon it sends again what was lost in a cut that is over.

use libc::net as c;
use mio::net::TcpStream;
use std::io;
use std::os::fd::AsRawFd;

/// After how many seconds of silence the system asks the other end for a sign of life.
const IDLE_SECONDS: i32 = 10;

/// How many seconds it waits for that sign before it asks again.
const INTERVAL_SECONDS: i32 = 5;

/// After how many questions without a sign it ends the connection.
const QUESTIONS: i32 = 4;

/// For how many milliseconds what was sent may stay unacknowledged before it ends the connection: as long as the silence
/// and all questions together.
const UNACKNOWLEDGED_MILLISECONDS: i32 = 30_000;

/// For how many milliseconds at most it waits until it sends again what is unacknowledged. Of its own it waits twice as long each
/// time, up to two minutes: so after a cut of 15 seconds it would stay silent for as long again.
const SENT_AGAIN_MILLISECONDS: i32 = 1_000;

/// The option of TCP that says so, as `linux/tcp.h` has it (`TCP_RTO_MAX_MS`). Linux knows it from 6.15 on.
const SENT_AGAIN: i32 = 44;

/// The value of an option that is one number.
fn value_of(number: i32) -> [u8; 16] {
    let mut value = [0u8; 16];
    value[..4].copy_from_slice(&number.to_ne_bytes());
    value
}

/// What a call of the system answered: an error, of no particular kind, where it is not 0.
fn checked(status: i32) -> io::Result<()> {
    if status == 0 {
        Ok(())
    } else {
        Err(io::Error::from(io::ErrorKind::Other))
    }
}

/// Has the system end a connection within half a minute of its other end's loss. Other ends that live are asked for a sign
/// by the system alone, so nothing of it is seen in what is read. An `Err` says that the system refused an option; the connection stays as it is.
pub(crate) fn keep_alive(stream: &TcpStream) -> io::Result<()> {
    let connection = stream.as_raw_fd();
    let (socket, tcp) = (c::SOL_SOCKET, c::IPPROTO_TCP);
    checked(unsafe {
        c::setsockopt(connection, tcp, c::TCP_KEEPIDLE, &value_of(IDLE_SECONDS), 4)
    })?;
    checked(unsafe {
        c::setsockopt(
            connection,
            tcp,
            c::TCP_KEEPINTVL,
            &value_of(INTERVAL_SECONDS),
            4,
        )
    })?;
    checked(unsafe { c::setsockopt(connection, tcp, c::TCP_KEEPCNT, &value_of(QUESTIONS), 4) })?;
    checked(unsafe {
        c::setsockopt(
            connection,
            tcp,
            c::TCP_USER_TIMEOUT,
            &value_of(UNACKNOWLEDGED_MILLISECONDS),
            4,
        )
    })?;
    checked(unsafe { c::setsockopt(connection, socket, c::SO_KEEPALIVE, &value_of(1), 4) })
}

/// Has the system send again within a second what a connection to another node lost. An `Err` says that the system doesn't know how:
/// the connection stays as it is.
pub(crate) fn send_again_soon(stream: &TcpStream) -> io::Result<()> {
    let connection = stream.as_raw_fd();
    checked(unsafe {
        c::setsockopt(
            connection,
            c::IPPROTO_TCP,
            SENT_AGAIN,
            &value_of(SENT_AGAIN_MILLISECONDS),
            4,
        )
    })
}
