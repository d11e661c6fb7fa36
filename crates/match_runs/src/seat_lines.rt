//! The lines that a cluster's record has for seats.

ghost use Rattle.std.specs.Prelude.{◌≡◌, ◌==◌, ◌↔◌, false, count_by, map, IsTrue, IsNone, IfSome};
ghost use Rattle.protocol_model.specs.Dealers.{Seat};
ghost use Rattle.dealer_world.specs.KeptShown.{reader_by};
ghost use Rattle.dealer_world.specs.Records.{last_start};
ghost use Rattle.dealer_world.specs.Recordings.{start_by};
ghost use Rattle.dealer_world.specs.Viewing.{view_of};
ghost use Rattle.match_runs.specs.SeatLines.{IsNewestLine, HasNoLineFrom, HasOtherLine, WasShown, WasNotShownFrom, IsLate};

use dealer_node::Reader;
use dealer_world::{Begun, Cluster, Piece};
use promise_store::Disk;

/// The line that a seat has at a node: the newest that the node showed it since it was started last; none where it
/// showed it none.
pub(crate) fn newest_line<D: Disk + Drop>(
    cluster: &Cluster<D>,
    seat: usize,
    node: u8,
) -> Option<&[u8]>
    ensures found { IfSome result (λ line. IsNewestLine (view_of cluster.now).all seat node line.now) }
    ensures missing { IsNone result → HasNoLineFrom (view_of cluster.now).all seat node 0 }
{
    let start = last_start(cluster.starts(), node);
    for number in (0..cluster.piece_count()).rev() {
        if let Some(piece) = cluster.piece(number) {
            if is_line_at(&piece, seat, node, start) {
                return Some(piece.text);
            }
        }
    }
    None
}

/// Whether a line was shown to a seat, at whatever node.
fn was_shown<D: Disk + Drop>(cluster: &Cluster<D>, seat: usize, line: &[u8]) -> bool
    ensures shown { IsTrue result → WasShown (view_of cluster.now).all seat line.now }
    ensures unseen { result ≡ false → WasNotShownFrom (view_of cluster.now).all seat line.now 0 }
{
    for number in (0..cluster.piece_count()).rev() {
        if let Some(piece) = cluster.piece(number) {
            if is_line(&piece, seat, line) {
                return true;
            }
        }
    }
    false
}

/// Whether a line is late at a node: it was shown to the seat, and isn't the one that the seat has there.
pub(crate) fn is_late<D: Disk + Drop>(
    cluster: &Cluster<D>,
    seat: usize,
    node: u8,
    line: &[u8],
) -> bool
    ensures { IsLate (view_of cluster.now).all seat node line.now result }
{
    if has_line(cluster, seat, node, line) {
        return false;
    }
    was_shown(cluster, seat, line)
}

/// Whether a line is the one that a seat has at a node.
fn has_line<D: Disk + Drop>(cluster: &Cluster<D>, seat: usize, node: u8, line: &[u8]) -> bool
    ensures same { IsTrue result → IsNewestLine (view_of cluster.now).all seat node line.now }
    ensures other { result ≡ false → HasOtherLine (view_of cluster.now).all seat node line.now }
{
    match newest_line(cluster, seat, node) {
        Some(newest) => is_same(newest, line),
        None => false,
    }
}

/// Whether a piece is a line that this node showed a seat within this start.
fn is_line_at(piece: &Piece<'_>, seat: usize, node: u8, start: usize) -> bool
    ensures { IsTrue result ↔ ((piece.now.node ≡ node) × (piece.now.start ≡ start) × (reader_by piece.now.reader ≡ Seat seat)) }
{
    piece.node == node && piece.start == start && is_for(piece.reader, seat)
}

/// Whether a piece is this line of a seat.
fn is_line(piece: &Piece<'_>, seat: usize, line: &[u8]) -> bool
    ensures { IsTrue result ↔ ((reader_by piece.now.reader ≡ Seat seat) × (piece.now.text.now ≡ line.now)) }
{
    is_for(piece.reader, seat) && piece.text == line
}

/// The number of a node's last start.
fn last_start(starts: &[Begun], node: u8) -> usize
    ensures { result ≡ last_start (map start_by starts.now) node }
{
    start_count(starts, node).saturating_sub(1)
}

/// How often a node was started.
fn start_count(starts: &[Begun], node: u8) -> usize
    ensures { result ≡ count_by (λ begun. begun.node == node) starts.now }
{
    starts.iter().filter(|begun| begun.node == node).count()
}

/// Whether two texts are one.
fn is_same(text: &[u8], other: &[u8]) -> bool
    ensures { IsTrue result ↔ (text.now ≡ other.now) }
{
    text == other
}

/// Whether the reader is this seat.
fn is_for(reader: Reader, seat: usize) -> bool
    ensures { IsTrue result ↔ (reader_by reader ≡ Seat seat) }
{
    match reader {
        Reader::Seat(found) => found == seat,
        Reader::Log => false,
    }
}
