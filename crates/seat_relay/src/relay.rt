//! The relay, with all that happened to it.

ghost use Rattle.std.specs.Prelude.{◌≡◌, [], option_map, IfOk, OnOk, OnErr};
ghost use Rattle.seat_relay.specs.Relaying.{with_place, link_at, is_even, is_kept, is_taken, is_given, with_event, after, Begins, Ends, Tells, Closes, Says, Pushes};
ghost use Rattle.seat_relay.specs.Laws.{fresh};

use crate::events::{Events, Happening};
use crate::machine::Machine;
use crate::mode::Mode;
use crate::place::Place;
use std::alloc::{AllocError, Global};
use std::marker::Model;

/// A relay of one bot, which sits at all nodes of a match at once.
///
/// Contracts see what it knows, and all that happened to it: the first follows from the second.
#[derive(Drop)]
pub struct Relay {
    nodes: usize,
    mode: Mode,
    machine: Machine,
    /// What happened, for clauses alone.
    events: Events,
}

impl Model for Relay {
    ghost use Rattle.seat_relay.specs.Relaying.{Story};
    ghost use Rattle.seat_relay.specs.RelayInside.{story_of, IsStory};

    ghost Value = { Story };

    ghost view = { story_of };

    ghost invariant = { IsStory };
}

impl Relay {
    /// A relay for so many nodes, whose bot was given nothing yet.
    pub fn new(alloc: Global, nodes: usize, mode: Mode) -> Result<Relay, AllocError>
        ensures { IfOk result (λ relay. relay ≡ record { nodes = nodes; mode = mode; standing = fresh mode nodes; events = [] }) }
    {
        Ok(Relay {
            nodes,
            mode,
            machine: Machine::new(alloc, nodes, mode)?,
            events: Events::new(),
        })
    }

    /// What it knows is what follows from what happened to it: so the laws of `laws` hold of it.
    pub fn follows_events(&self)
        ensures { self.now.standing ≡ after (fresh self.now.mode self.now.nodes) self.now.events }
    {
        let _ = &self.nodes;
    }

    /// Whether the bot's lines may begin anywhere in the match.
    pub fn is_newest(&self) -> bool
        ensures { result ≡ self.now.standing.mode.newest }
    {
        self.machine.is_newest()
    }

    /// Whether the match is over: a node said so that had told the line that the bot was given last.
    pub fn is_over(&self) -> bool
        ensures { result ≡ self.now.standing.over }
    {
        self.machine.is_over()
    }

    /// The line that the bot was given last: that from which a node is to tell.
    pub fn last(&self) -> Option<&[u8]>
        ensures { option_map (λ text. text.now) result ≡ option_map (λ line. line.text) self.now.standing.last }
    {
        self.machine.last()
    }

    /// The bot's answer to that line.
    pub fn answer(&self) -> Option<&[u8]>
        ensures { option_map (λ text. text.now) result ≡ self.now.standing.kept }
    {
        self.machine.answer()
    }

    /// A connection to a node begins.
    pub fn begins(&mut self, node: usize)
        ensures { self.new ≡ with_event self.old (Begins node) }
    {
        self.machine.begins(node);
        self.events = self.events.and(&Happening::Begins { node });
    }

    /// The connection to a node ends.
    pub fn ends(&mut self, node: usize)
        ensures { self.new ≡ with_event self.old (Ends node) }
    {
        self.machine.ends(node);
        self.events = self.events.and(&Happening::Ends { node });
    }

    /// Whether a line at this place is taken over the connection of a node: any behind the first, and the first where the bot was
    /// given one there or behind, or its lines may begin there. What isn't taken the bot isn't given: there may be a gap before it.
    pub fn is_taken(&self, node: usize, place: &Place) -> bool
        ensures { result ≡ is_taken self.now.standing.mode.newest self.now.standing.last (link_at self.now.standing.links node) place.now }
    {
        self.machine.is_taken(node, place)
    }

    /// A node tells a line. It says whether the bot is to be given it.
    pub fn tells(&mut self, node: usize, text: &[u8], place: Place) -> Result<bool, AllocError>
        ensures ok { OnOk result (self.new ≡ with_event self.old (Tells node (with_place text.now place))) }
        ensures given { IfOk result (λ given. given ≡ is_given self.old.standing node (with_place text.now place)) }
        ensures err { OnErr result (self.new ≡ self.old) }
    {
        let given = self.machine.tells(node, text, place)?;
        self.events = self.events.and(&Happening::Tells { node, text, place });
        Ok(given)
    }

    /// A node says that the match is over, behind all that it told: that counts where it has told the line that the bot was given
    /// last.
    pub fn closes(&mut self, node: usize)
        ensures { self.new ≡ with_event self.old (Closes node) }
    {
        self.machine.closes(node);
        self.events = self.events.and(&Happening::Closes { node });
    }

    /// The bot says something. It says whether that is kept: an answer to the line that it was given last, unless one to it
    /// stands, as a first one does where the mode says so. Anything else is passed over.
    pub fn says(&mut self, text: &[u8]) -> Result<bool, AllocError>
        ensures ok { OnOk result (self.new ≡ with_event self.old (Says text.now)) }
        ensures kept { IfOk result (λ kept. kept ≡ is_kept self.old.standing text.now) }
        ensures err { OnErr result (self.new ≡ self.old) }
    {
        let kept = self.machine.says(text)?;
        self.events = self.events.and(&Happening::Says { text });
        Ok(kept)
    }

    /// The bot's answer, if there is one, is to be said to a node. It says whether it may be: where the node has told the last
    /// line, and wasn't told the answer.
    pub fn pushes(&mut self, node: usize) -> bool
        ensures new { self.new ≡ with_event self.old (Pushes node) }
        ensures may { result ≡ is_even (link_at self.old.standing.links node) }
    {
        let may = self.machine.pushes(node);
        self.events = self.events.and(&Happening::Pushes { node });
        may
    }
}
