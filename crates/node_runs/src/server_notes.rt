//! What the notes of a process tell of what a turn had to tell.

ghost use Rattle.std.specs.Prelude.{◌≡◌, ◌+◌, ◌∷◌, [], ◌++◌, option_map, OnOk};
ghost use Rattle.operator_notes.specs.Notes.{IsNoted, AreNoted, about_text, times_text};
ghost use Rattle.operator_notes.specs.NodeNotes.{note_text};
ghost use Rattle.node_runs.specs.ServerNotes.{seat_said, setting_text, fault_said, is_of_newest, awaited_text, notice_text, noted_text, counted_lines, group_lines, times_lines};

use crate::note_groups::{NO_PLACE, OTHERS};
use dealer_kind::Config;
use node_service::{ServerNotice, Setting};
use operator_notes::{About, NodeNote, Note, put_node_note, put_note, put_times, write_line};
use seat_session::SessionFault;
use std::alloc::{AllocError, Global};
use std::io::Write;

/// A note: one of a node's process, or one of those that `serve` has too.
#[derive(Clone, Copy)]
pub(crate) enum Noted<'a> {
    OfNode(NodeNote<'a>),
    OfSeat(Note<'a>),
}

/// Tells so many things of one kind that happened at this node of the match, which awaits seat 0 at this port; this is the
/// newest.
pub(crate) fn tell_notice<W: Write>(
    alloc: Global,
    config: &Config,
    node: u8,
    port: u16,
    told: &ServerNotice,
    count: u64,
    notes: &mut W,
)
    ensures { AreNoted (counted_lines config.now.setting.names node port told.now count) (W.contents notes.old) (W.contents notes.new) }
{
    if let Some(noted) = note_of(config, node, port, told) {
        tell_times(alloc, notes, &noted, count);
    }
}

/// Tells so many of a group that waited, of which this is the newest.
pub(crate) fn tell_group<W: Write>(
    alloc: Global,
    config: &Config,
    node: u8,
    port: u16,
    newest: &Option<ServerNotice>,
    group: usize,
    count: u64,
    notes: &mut W,
)
    ensures { AreNoted (group_lines config.now.setting.names node port newest.now group count) (W.contents notes.old) (W.contents notes.new) }
{
    let left_out = Noted::OfNode(NodeNote::LeftOut(count));
    match newest {
        Some(_) if group == OTHERS && 1 < count => tell_times(alloc, notes, &left_out, 1),
        Some(told) => tell_notice(alloc, config, node, port, told, count, notes),
        None if group == NO_PLACE => {
            tell_times(alloc, notes, &Noted::OfNode(NodeNote::NoPlace), count);
        }
        None => tell_times(alloc, notes, &left_out, 1),
    }
}

/// What is told of a thing; nothing of a seat that there isn't.
fn note_of(config: &Config, node: u8, port: u16, told: &ServerNotice) -> Option<Noted<'static>>
    ensures { option_map noted_text result ≡ notice_text config.now.setting.names node port told.now }
{
    match told {
        ServerNotice::Joined { peer, life: _ } => Some(Noted::OfNode(NodeNote::Joined(*peer))),
        ServerNotice::Gone { peer } => Some(Noted::OfNode(NodeNote::Gone(*peer))),
        ServerNotice::Refused {
            peer,
            fault,
            source,
        } => Some(Noted::OfNode(NodeNote::Refused {
            peer: *peer,
            fault: *fault,
            source: *source,
        })),
        ServerNotice::Callers { peer, fault, .. } => {
            let (peer, fault) = (*peer, *fault);
            Some(Noted::OfNode(NodeNote::Caller { peer, fault }))
        }
        ServerNotice::Unreached { peer, refuses } => {
            let (peer, refuses) = (*peer, *refuses);
            Some(Noted::OfNode(NodeNote::Unreached { peer, refuses }))
        }
        ServerNotice::Seated { seat } => of_seat(config, *seat, About::Seated(node)),
        ServerNotice::Left { seat } => of_seat(config, *seat, About::Gone(node)),
        ServerNotice::Setting {
            peer,
            what,
            there,
            here,
        } => Some(Noted::OfNode(note_of_setting(*peer, *what, *there, *here))),
        ServerNotice::Faulty { seat, fault, hand } => {
            of_seat(config, *seat, about_fault(node, *fault, *hand))
        }
        ServerNotice::WrongToken { seat, source, .. } => {
            let source = *source;
            of_seat(config, *seat, About::WrongToken { node, source })
        }
        ServerNotice::TurnedAway { seat, .. } => of_seat(config, *seat, About::NoPlace(node)),
        ServerNotice::OtherLine { seat } => of_seat(config, *seat, About::OtherLine(node)),
        ServerNotice::Ordered { seat } => of_seat(config, *seat, About::Ordered(node)),
        ServerNotice::Missing { seat } => of_seat(config, *seat, About::Missing),
        ServerNotice::Waits { seat } => awaited(config, node, port, *seat),
        ServerNotice::Behind {
            peer,
            behind,
            slowest,
        } => Some(Noted::OfNode(NodeNote::Behind {
            peer: *peer,
            behind: *behind,
            slowest: *slowest,
        })),
        ServerNotice::Quorum => Some(Noted::OfNode(NodeNote::Quorum)),
        ServerNotice::QuorumLost => Some(Noted::OfNode(NodeNote::QuorumLost)),
        ServerNotice::Campaigns { ballot } => Some(Noted::OfNode(NodeNote::Campaigns(*ballot))),
    }
}

/// What is told of a setting that differs in the match file of a peer.
fn note_of_setting(peer: u8, what: Setting, there: u32, here: u32) -> NodeNote<'static>
    ensures { note_text result ≡ setting_text peer what there here }
{
    match what {
        Setting::Patience => NodeNote::OtherTime {
            peer,
            key: "patience",
            there,
            here,
        },
        Setting::Start => NodeNote::OtherTime {
            peer,
            key: "start",
            there,
            here,
        },
        Setting::Away => NodeNote::OtherAway {
            peer,
            waits_there: 0 < there,
            waits_here: 0 < here,
        },
        Setting::Tokens => NodeNote::OtherTokens(peer),
    }
}

/// What is told of a fault in what a seat sent to this node, while this was the newest hand.
fn about_fault(node: u8, fault: SessionFault, hand: Option<u32>) -> About<'static>
    ensures { about_text result ≡ fault_said node fault hand }
{
    match hand {
        Some(hand) if is_of_newest(fault) => About::FaultyIn { node, hand, fault },
        _ => About::Faulty { node, fault },
    }
}

/// Whether it is a fault of an answer to the seat's newest line.
fn is_of_newest(fault: SessionFault) -> bool
    ensures { result ≡ is_of_newest fault }
{
    matches!(fault, SessionFault::NotYourTurn | SessionFault::Illegal(_))
}

/// That all wait for a seat, and where it is awaited here; nothing of a number that no seat has.
fn awaited(config: &Config, node: u8, port: u16, seat: u8) -> Option<Noted<'static>>
    ensures { option_map noted_text result ≡ awaited_text config.now.setting.names node (port + seat) seat }
{
    match config.names().as_slice().get(seat as usize) {
        Some(name) => Some(Noted::OfSeat(Note::Waiting {
            seat: seat as usize,
            name: *name,
            node,
            port: port as u32 + seat as u32,
            line: None,
        })),
        None => None,
    }
}

/// Something of a seat; nothing of a number that no seat has.
fn of_seat(config: &Config, seat: u8, about: About<'static>) -> Option<Noted<'static>>
    ensures { option_map noted_text result ≡ seat_said config.now.setting.names seat (about_text about.entry) }
{
    match config.names().as_slice().get(seat as usize) {
        Some(name) => Some(Noted::OfSeat(Note::Seat {
            seat: seat as usize,
            name: *name,
            about,
        })),
        None => None,
    }
}

/// Writes a note with how many times it was, in one piece, and flushes. One that can't be made or written is left out, or a
/// beginning of it stands there.
fn tell_times<W: Write>(alloc: Global, notes: &mut W, noted: &Noted<'_>, count: u64)
    ensures { IsNoted (noted_text noted.now ++ (times_text count ++ 10 ∷ [])) (W.contents notes.old) (W.contents notes.new) }
{
    let mut line = Vec::new(alloc);
    if put_line(&mut line, noted, count).is_ok() {
        write_line(notes, &line);
    }
}

/// Appends a note with how many times it was, and its line feed.
fn put_line(out: &mut Vec<u8>, noted: &Noted<'_>, count: u64) -> Result<(), AllocError>
    ensures { OnOk result (out.new.items ≡ out.old.items ++ (noted_text noted.now ++ (times_text count ++ 10 ∷ []))) }
{
    put_noted(out, noted)?;
    put_times(out, count)?;
    out.extend_from_slice(b"\n")
}

/// Appends a note.
fn put_noted(out: &mut Vec<u8>, noted: &Noted<'_>) -> Result<(), AllocError>
    ensures { OnOk result (out.new.items ≡ out.old.items ++ noted_text noted.now) }
{
    match noted {
        Noted::OfNode(note) => put_node_note(out, note),
        Noted::OfSeat(note) => put_note(out, note),
    }
}
