//! The connections of all lines, by their places.

ghost use Rattle.std.specs.Prelude.{◌≡◌, ◌<◌, ◌≤◌, ℕ, true, List, ◌∷◌, ◌++◌, [], length, IfOk, Some};
ghost use Rattle.node_wires.specs.Passages.{Passage, Began};
ghost use Rattle.node_links.specs.declared.own.Own.{Own};
ghost use Rattle.node_links.specs.Talks.{Talk};
ghost use Rattle.node_links.specs.Waiting.{IsBegun};
ghost use Rattle.node_peers.specs.Handing.{peer_in};
ghost use Rattle.node_peers.specs.Lines.{line_at, dialled_over};
ghost use Rattle.node_peers.specs.Adding.{Grows};
ghost use Rattle.node_peers.specs.Meeting.{IsKnownBy};
ghost use Rattle.node_peers.specs.Hearing.{IsOf, FitsBy, Fits, IsFresh, KeepsOn, KeepsAs, KeepsSaying, FitsOn, FitsAs, FitsSaying, Moves, OpensAt, OpensIn, FitsThrough};
ghost use Rattle.node_peers.specs.declared.saying.Saying.TheVariants as sayings;
ghost use Rattle.node_peers.specs.Saying.{is_away, SaidBy, SaidAt};

use crate::limits::LINKS;
use crate::link::{
    Link, Written, answer, begin, dialled_at, next_of, peer_of, read, refuse, set_farewell, settle,
    taken, turn_away, write,
};
use crate::saying::{Saying, saying_of};
use node_links::{Met, Outbox, Own};
use node_wires::{Passages, Wire};
use paxos_wire::Ballot;
use peer_codes::{Frame, Hello};
use std::alloc::{AllocError, Global};

/// Of each line none.
pub(crate) fn no_links(alloc: Global) -> Result<Vec<Option<Link>>, AllocError>
    ensures { IfOk result (λ links. (own : Own) (sent : List Passage) (talks : ℕ → Talk) → ((place : ℕ) → (talks place).wrote ≡ []) → FitsBy own sent talks links.items) }
{
    let mut links = Vec::with_capacity(alloc, LINKS)?;
    for _ in 0..LINKS {
        links.push(None)?;
    }
    Ok(links)
}

/// Puts a connection that begins in the place of its line, if there is such a place.
#[tactic(auto, using(crate::proofs::Fitting::fits_begun, crate::proofs::Fitting::fits_beside))]
pub(crate) fn put(links: &mut Vec<Option<Link>>, place: usize, link: Link)
    ensures { (own : Own) (sent passed_old passed_new : List Passage) → IsFresh own (line_at place) (Some link) → passed_new ≡ passed_old ++ Began (line_at place) ∷ [] → Fits own sent passed_old links.old.items → Fits own sent passed_new links.new.items }
{
    if place < links.len() {
        links[place] = Some(link);
    }
}

/// No connection is at a place any more.
#[tactic(auto, using(crate::proofs::Fitting::fits_closed))]
pub(crate) fn clear(links: &mut Vec<Option<Link>>, place: usize)
    ensures { FitsOn links.old.items links.new.items }
{
    if place < links.len() {
        links[place] = None;
    }
}

/// Reads what came over the line at a place, where a connection is there.
#[tactic(auto, using(crate::proofs::Adding::nothing_added, crate::proofs::Fitting::moves_same))]
fn read_in<W: Wire>(
    slot: &mut Option<Link>,
    passed: &mut Passages,
    wire: &mut W,
    place: usize,
    piece: &mut [u8],
)
    requires { place < LINKS }
    ensures grows { Grows passed.old passed.new (W.passed wire.old) (W.passed wire.new) }
    ensures moves { Moves place slot.old slot.new passed.old.items passed.new.items }
{
    match slot {
        Some(link) => read(link, passed, wire, place, piece),
        None => (),
    }
}

/// Reads what came over the line at a place, by pieces that go into this buffer.
#[tactic(auto, using(crate::proofs::Adding::nothing_added, crate::proofs::Fitting::fits_moved))]
pub(crate) fn read_at<W: Wire>(
    links: &mut Vec<Option<Link>>,
    passed: &mut Passages,
    wire: &mut W,
    place: usize,
    piece: &mut [u8],
)
    requires { place < LINKS }
    ensures grows { Grows passed.old passed.new (W.passed wire.old) (W.passed wire.new) }
    ensures fits { FitsThrough passed.old.items passed.new.items links.old.items links.new.items }
{
    match links.get_mut(place) {
        Some(slot) => read_in(slot, passed, wire, place, piece),
        None => (),
    }
}

/// Writes what was begun at a place, where a connection is there.
#[tactic(auto, using(crate::proofs::Adding::nothing_added, crate::proofs::Fitting::moves_same))]
fn write_in<W: Wire>(
    slot: &mut Option<Link>,
    passed: &mut Passages,
    wire: &mut W,
    place: usize,
) -> Written
    requires { place < LINKS }
    ensures grows { Grows passed.old passed.new (W.passed wire.old) (W.passed wire.new) }
    ensures moves { Moves place slot.old slot.new passed.old.items passed.new.items }
{
    match slot {
        Some(link) => write(link, passed, wire, place),
        None => Written::Later,
    }
}

/// Writes what was begun at a place.
#[tactic(auto, using(crate::proofs::Adding::nothing_added, crate::proofs::Fitting::fits_moved))]
pub(crate) fn write_at<W: Wire>(
    links: &mut Vec<Option<Link>>,
    passed: &mut Passages,
    wire: &mut W,
    place: usize,
) -> Written
    requires { place < LINKS }
    ensures grows { Grows passed.old passed.new (W.passed wire.old) (W.passed wire.new) }
    ensures fits { FitsThrough passed.old.items passed.new.items links.old.items links.new.items }
{
    match links.get_mut(place) {
        Some(slot) => write_in(slot, passed, wire, place),
        None => Written::Later,
    }
}

/// What the connection of a line says next. A frame goes into the buffer.
#[tactic(auto, using(crate::proofs::Fitting::said_of))]
fn next_in(slot: &mut Option<Link>, frame: &mut Frame) -> Saying
    ensures keeps { KeepsOn slot.old slot.new }
    ensures says { SaidBy result frame.new slot.old }
    ensures away { is_away slot.old ≡ true → result ≡ sayings.Waits }
{
    match slot {
        Some(link) => {
            let arrived = next_of(link, frame);
            let from = peer_of(link);
            saying_of(arrived, from)
        }
        None => Saying::Waits,
    }
}

/// What the connection at a place says next. A frame goes into the buffer.
#[tactic(auto, using(crate::proofs::Fitting::fits_kept, crate::proofs::Fitting::said_at))]
pub(crate) fn next_at(links: &mut Vec<Option<Link>>, place: usize, frame: &mut Frame) -> Saying
    ensures fits { FitsOn links.old.items links.new.items }
    ensures says { SaidAt result frame.new place links.old.items }
{
    match links.get_mut(place) {
        Some(slot) => next_in(slot, frame),
        None => Saying::Waits,
    }
}

/// Judges what waits to be judged of a line.
fn settle_in(
    slot: &mut Option<Link>,
    own: &Own,
    dialled: Option<u8>,
    met: &[Met],
    from: u8,
) -> Option<Hello>
    ensures fits { (sent : List Passage) (talk : Talk) → talk.dialled ≡ dialled → IsOf own.now sent talk slot.old → IsOf own.now sent talk slot.new }
    ensures opens { OpensIn own.now result slot.new }
    ensures known { IsKnownBy own.now met.now result }
{
    match slot {
        Some(link) => settle(link, own, dialled, met, from),
        None => None,
    }
}

/// Judges what waits to be judged at a place, and answers the Hello by which the connection is open.
#[tactic(auto, using(crate::proofs::Fitting::fits_settled, crate::proofs::Fitting::opens_at))]
pub(crate) fn settle_at(
    links: &mut Vec<Option<Link>>,
    place: usize,
    own: &Own,
    met: &[Met],
    from: u8,
) -> Option<Hello>
    ensures fits { (sent : List Passage) (talks : ℕ → Talk) → (talks place).dialled ≡ dialled_over (line_at place) → FitsBy own.now sent talks links.old.items → FitsBy own.now sent talks links.new.items }
    ensures opens { OpensAt own.now result place links.new.items }
    ensures known { IsKnownBy own.now met.now result }
{
    match links.get_mut(place) {
        Some(slot) => settle_in(slot, own, dialled_at(place), met, from),
        None => None,
    }
}

/// The Hello by which the connection of a line is open, if it is.
fn taken_in(slot: &Option<Link>) -> Option<Hello>
    ensures { (own : Own) → OpensIn own result slot.now }
{
    match slot {
        Some(link) => taken(link),
        None => None,
    }
}

/// The Hello by which the connection at a place is open, if it is.
pub(crate) fn taken_at(links: &[Option<Link>], place: usize) -> Option<Hello>
    ensures { (own : Own) → OpensAt own result place links.now }
{
    match links.get(place) {
        Some(slot) => taken_in(slot),
        None => None,
    }
}

/// Answers the one who dialled over a line.
#[tactic(auto, using(crate::proofs::Fitting::same_as))]
fn answer_in(slot: &mut Option<Link>, own: Hello)
    ensures { KeepsAs own slot.old slot.new }
{
    match slot {
        Some(link) => answer(link, own),
        None => (),
    }
}

/// Answers the one who dialled at a place.
#[tactic(auto, using(crate::proofs::Fitting::fits_as))]
pub(crate) fn answer_at(links: &mut Vec<Option<Link>>, place: usize, own: Hello)
    ensures { FitsAs own links.old.items links.new.items }
{
    match links.get_mut(place) {
        Some(slot) => answer_in(slot, own),
        None => (),
    }
}

/// The node at the other end of the connection of a line, once it is open.
pub(crate) fn peer_in(slot: &Option<Link>) -> Option<u8>
    ensures { result ≡ peer_in slot.now }
{
    match slot {
        Some(link) => peer_of(link),
        None => None,
    }
}

/// Begins the next record of a line.
#[tactic(auto, using(crate::proofs::Fitting::same_saying, crate::proofs::Handing::not_begun))]
fn begin_in(slot: &mut Option<Link>, waiting: &mut Outbox)
    ensures keeps { KeepsSaying waiting.old.frames slot.old slot.new }
    ensures waiting { IsBegun waiting.old waiting.new }
{
    match slot {
        Some(link) => begin(link, waiting),
        None => (),
    }
}

/// Begins the next record at a place.
#[tactic(auto, using(crate::proofs::Fitting::fits_saying, crate::proofs::Handing::not_begun))]
pub(crate) fn begin_at(links: &mut Vec<Option<Link>>, place: usize, waiting: &mut Outbox)
    ensures fits { FitsSaying waiting.old.frames place links.old.items links.new.items }
    ensures waiting { IsBegun waiting.old waiting.new }
{
    match links.get_mut(place) {
        Some(slot) => begin_in(slot, waiting),
        None => (),
    }
}

/// The node at the other end of the connection of a line is refused, and told this ballot before it ends.
#[tactic(auto, using(crate::proofs::Fitting::keeps_same))]
fn turn_away_in(slot: &mut Option<Link>, ballot: Ballot)
    ensures { KeepsOn slot.old slot.new }
{
    match slot {
        Some(link) => turn_away(link, ballot),
        None => (),
    }
}

/// The same of the connection at a place.
#[tactic(auto, using(crate::proofs::Fitting::fits_kept))]
pub(crate) fn turn_away_at(links: &mut Vec<Option<Link>>, place: usize, ballot: Ballot)
    ensures { FitsOn links.old.items links.new.items }
{
    match links.get_mut(place) {
        Some(slot) => turn_away_in(slot, ballot),
        None => (),
    }
}

/// What a node that is refused is told last over a line, as far as it waits still.
#[tactic(auto, using(crate::proofs::Fitting::keeps_same))]
fn set_farewell_in(slot: &mut Option<Link>, farewell: Option<Ballot>)
    ensures { KeepsOn slot.old slot.new }
{
    match slot {
        Some(link) => set_farewell(link, farewell),
        None => (),
    }
}

/// The same of the connection at a place.
#[tactic(auto, using(crate::proofs::Fitting::fits_kept))]
pub(crate) fn set_farewell_at(links: &mut Vec<Option<Link>>, place: usize, farewell: Option<Ballot>)
    ensures { FitsOn links.old.items links.new.items }
{
    match links.get_mut(place) {
        Some(slot) => set_farewell_in(slot, farewell),
        None => (),
    }
}

/// The fault of a line is told from now on. False where it was already, or no connection is there.
#[tactic(auto, using(crate::proofs::Fitting::keeps_same))]
fn refuse_in(slot: &mut Option<Link>) -> bool
    ensures { KeepsOn slot.old slot.new }
{
    match slot {
        Some(link) => refuse(link),
        None => false,
    }
}

/// The fault at a place is told from now on.
#[tactic(auto, using(crate::proofs::Fitting::fits_kept))]
pub(crate) fn refuse_at(links: &mut Vec<Option<Link>>, place: usize) -> bool
    ensures { FitsOn links.old.items links.new.items }
{
    match links.get_mut(place) {
        Some(slot) => refuse_in(slot),
        None => false,
    }
}
