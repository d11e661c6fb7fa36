//! Who comes to a port and is nobody.

use super::World;
use crate::flood::Kind;
use std::alloc::{AllocError, Global};
use traffic::{Load, Order, Party, drawn};

/// Who came and is nobody stays for so long.
const STAYS: u64 = 3_000_000;

/// The count of bytes in place of which a stranger shows a token that no seat has.
const TOKEN: u64 = 9_999;

/// The count of bytes in place of which he asks for all lines behind one that no seat was ever told.
const OTHER: u64 = 9_996;

const OTHER_LINE: &[u8] = b"#RESUME MATCHSTATE:0:0:zz:AhAs|\r\nVERSION:2.0.0\r\n";

/// The count of bytes in place of which he asks for all lines as a bot does.
const ALL: u64 = 9_995;

const ALL_LINES: &[u8] = b"#RESUME FIRST\r\nVERSION:2.0.0\r\n";

/// The count of bytes in place of which he sends a line that is too long.
const LONG: u64 = 9_997;

/// The count of bytes in place of which he sends a record that has a kind and nothing behind it.
const RECORD: u64 = 9_998;

const WRONG_TOKEN: &[u8] =
    b"#TOKEN ffffffffffffffffffffffffffffffffffffffffffffffffffffffffffffffff\n";

impl<'p, 'c> World<'p, 'c> {
    /// The next stranger of a flood comes, or it has ended, and it is told how many came.
    pub(super) fn flood(&mut self, at: usize) -> Result<(), AllocError> {
        let (alloc, now) = (self.alloc, self.now);
        let Some(flood) = self.floods.get_mut(at) else {
            return Ok(());
        };
        let (node, port, kind, seat) = (flood.node, flood.port, flood.kind, flood.seat());
        if let Some(count) = flood.end() {
            let line = format!(in alloc; "flooded {node} {port} {kind:?} {count}")?;
            return self.tell(now, Party::Stranger(0), line.as_str());
        }
        let number = self.ways.connect(flood.comer(), Party::Node(node))?;
        let goes = flood.come(number)?;
        self.ways.send(number, false, now, Load::Dial { seat })?;
        if let Some(load) = said_of(alloc, kind, seat)? {
            self.ways.send(number, false, now, load)?;
        }
        match goes {
            Some(number) if kind.stays() && !self.ways.is_closed_there(number) => {
                self.ways.send(number, false, now, Load::End)
            }
            _ => Ok(()),
        }
    }

    /// Somebody comes to a port of a node and sends something: NODE PORT COUNT SEED STAYS. The port is a seat's number, 254 for
    /// that of peers, 255 for the status. He sends so many bytes that look drawn, or with a COUNT of 9999 a token that no seat
    /// has, with 9998 an empty record of a kind, with 9997 a line that is too long, with 9996 he asks for the lines behind
    /// one that there isn't, and with 9995 for all lines. He reads nothing. He goes after so long, or where nothing is said
    /// after three seconds.
    pub(super) fn come(&mut self, order: &Order) -> Result<(), AllocError> {
        let (alloc, now) = (self.alloc, self.now);
        let who = Party::Stranger(order.byte(3) % 4);
        let number = self.ways.connect(who, Party::Node(order.byte(0)))?;
        let seat = match order.byte(1) {
            254 => None,
            seat => Some(seat),
        };
        self.ways.send(number, false, now, Load::Dial { seat })?;
        let bytes = said(alloc, order)?;
        if !bytes.is_empty() {
            self.ways.send(number, false, now, Load::Bytes { bytes })?;
        }
        let stays = match order.number(4) {
            0 => STAYS,
            stays => stays,
        };
        self.ways
            .send(number, false, now.saturating_add(stays), Load::End)
    }
}

/// What a stranger of a flood sends first, to a seat's port or to that of peers.
fn said_of(alloc: Global, kind: Kind, seat: Option<u8>) -> Result<Option<Load>, AllocError> {
    let bytes: &[u8] = match (kind, seat) {
        (Kind::Closes, _) => return Ok(Some(Load::End)),
        (Kind::Resets, _) => return Ok(Some(Load::Break)),
        (Kind::Silent, _) => return Ok(None),
        (Kind::Wrong, Some(_)) => WRONG_TOKEN,
        (Kind::Wrong, None) => &[0, 0, 0, 1, 9],
    };
    let bytes = Vec::from_slice(alloc, bytes)?;
    Ok(Some(Load::Bytes { bytes }))
}

/// What a stranger sends, by his order's COUNT and SEED.
fn said(alloc: Global, order: &Order) -> Result<Vec<u8>, AllocError> {
    match order.number(2) {
        TOKEN => Vec::from_slice(alloc, WRONG_TOKEN),
        OTHER => Vec::from_slice(alloc, OTHER_LINE),
        ALL => Vec::from_slice(alloc, ALL_LINES),
        LONG => Vec::from_slice(alloc, &[b'x'; 5_000]),
        RECORD => Vec::from_slice(alloc, &[0, 0, 0, 1, order.byte(3) % 8]),
        count => noise(alloc, count.min(2_000), order.number(3)),
    }
}

/// So many bytes that look drawn.
fn noise(alloc: Global, count: u64, seed: u64) -> Result<Vec<u8>, AllocError> {
    let mut seed = seed;
    let mut bytes = Vec::new(alloc);
    for _ in 0..count {
        bytes.push((drawn(&mut seed) & 255) as u8)?;
    }
    Ok(bytes)
}
