ghost use Rattle.std.specs.Prelude.{◌≡◌, ◌≤◌, ◌+◌, ◌-◌, ◌++◌, ◌∷◌, [], None, Some, drop, length};
ghost use Rattle.peer_codes.specs.declared.version.Version.TheVariants.{Second};
ghost use Rattle.node_links.specs.Frames.{frame_of};
ghost use Rattle.node_links.specs.Owing.{waits_in};
ghost use Rattle.node_links.specs.Waiting.{newest, has_more, has_next, more_of, without_more, first_of, Puts};

use crate::kept_frame::KeptFrame;
use crate::lives::Lives;
use crate::owed::Question;
use crate::promised::promised_more;
use crate::settings::Settings;
use paxos_wire::Ballot;
use peer_codes::limits::MOST_FRAME;
use peer_codes::{Beat, Frame, More, Version};
use std::alloc::Global;
use std::collections::VecDeque;
use std::marker::Model;

/// What waits to be said to a peer: the newest beat, the newest lives, the settings, the ballot that it is known to have promised,
/// and frames.
///
/// A beat goes first, and behind it lives, settings and the ballot, where the connection is of the second version: over another
/// they aren't said, and wait. The frames go in the order in which they were put there. Where too many wait the oldest are
/// dropped, as they are where there is no memory: a frame may be lost, and what is sent again mends it.
#[derive(Drop)]
pub struct Outbox {
    alloc: Global,
    beat: Option<Beat>,
    lives: Option<Lives>,
    settings: Option<Settings>,
    promised: Option<Ballot>,
    frames: VecDeque<KeptFrame>,
}

impl Model for Outbox {
    ghost use Rattle.node_links.specs.Waits.{Waits};

    ghost Value = { Waits };

    ghost view = { λ o. record { beat = o.beat; lives = o.lives; settings = o.settings; promised = o.promised; frames = o.frames.items } };
}

impl Outbox {
    /// Nothing waits. It takes no memory.
    pub fn new(alloc: Global) -> Outbox
        ensures { result ≡ record { beat = None; lives = None; settings = None; promised = None; frames = [] } }
    {
        Outbox {
            alloc,
            beat: None,
            lives: None,
            settings: None,
            promised: None,
            frames: VecDeque::new(alloc),
        }
    }

    /// This beat waits, in place of the one before.
    pub fn tell(&mut self, beat: Beat)
        ensures { self.new ≡ record self.old { beat = Some beat } }
    {
        self.beat = Some(beat);
    }

    /// These lives wait, in place of those before.
    pub fn tell_lives(&mut self, lives: Lives)
        ensures { self.new ≡ record self.old { lives = Some lives } }
    {
        self.lives = Some(lives);
    }

    /// These settings wait, in place of those before.
    pub fn tell_settings(&mut self, settings: Settings)
        ensures { self.new ≡ record self.old { settings = Some settings } }
    {
        self.settings = Some(settings);
    }

    /// This ballot, which the peer is known to have promised, waits, in place of one before.
    pub fn tell_promised(&mut self, ballot: Ballot)
        ensures { self.new ≡ record self.old { promised = Some ballot } }
    {
        self.promised = Some(ballot);
    }

    /// The ballot that waits, if one does.
    pub fn promised(&self) -> Option<Ballot>
        ensures { result ≡ self.now.promised }
    {
        self.promised
    }

    /// Of the frames that wait only so many stay, the newest.
    pub fn keep_newest(&mut self, most: usize)
        ensures { self.new ≡ record self.old { frames = newest most self.old.frames } }
    {
        let more = self.frames.len().saturating_sub(most);
        for _ in 0..more {
            let _ = self.frames.pop_front();
        }
    }

    /// A frame of these bytes waits behind the others, of which the newest stay, so that no more than this many wait. False
    /// where there was no memory: then it is dropped.
    pub fn put(&mut self, frame: &[u8], most: usize) -> bool
        requires { length frame.now ≤ MOST_FRAME }
        ensures { Puts (frame_of frame.now) most self.old result self.new }
    {
        self.keep_newest(most.saturating_sub(1));
        match KeptFrame::new(self.alloc, frame) {
            Ok(kept) => self.frames.push_back(kept).is_ok(),
            Err(_) => false,
        }
    }

    /// The same of this frame.
    pub fn put_again(&mut self, frame: &Frame, most: usize) -> bool
        ensures { Puts frame.now most self.old result self.new }
    {
        self.put(frame.bytes.as_slice(), most)
    }

    /// Nothing waits but the frames: all else was for a connection that ended.
    pub fn forget_all_but_frames(&mut self)
        ensures { self.new ≡ record self.old { beat = None; lives = None; settings = None; promised = None } }
    {
        self.beat = None;
        self.lives = None;
        self.settings = None;
        self.promised = None;
    }

    /// How many frames wait.
    pub fn count(&self) -> usize
        ensures { result ≡ length self.now.frames }
    {
        self.frames.len()
    }

    /// Whether a frame waits that asks this.
    pub(crate) fn asks(&self, question: Question) -> bool
        ensures { result ≡ waits_in self.now.frames question }
    {
        self.frames
            .iter()
            .any(|frame| question.is_asked_by(frame.as_slice()))
    }

    /// Whether a record of a further kind waits that may be said on a connection of this version.
    pub(crate) fn has_more(&self, version: Version) -> bool
        ensures { result ≡ has_more version self.now }
    {
        match version {
            Version::First => false,
            Version::Second => {
                self.lives.is_some() || self.settings.is_some() || self.promised.is_some()
            }
        }
    }

    /// Whether anything waits that may be said on a connection of this version.
    pub fn has_next(&self, version: Version) -> bool
        ensures { result ≡ has_next version self.now }
    {
        self.beat.is_some() || self.has_more(version) || !self.frames.is_empty()
    }

    /// The beat that waits, if one does; it waits no longer.
    pub(crate) fn take_beat(&mut self) -> Option<Beat>
        ensures beat { result ≡ self.old.beat }
        ensures rest { self.new ≡ record self.old { beat = None } }
    {
        let beat = self.beat;
        self.beat = None;
        beat
    }

    /// The lives that wait, or else the settings, or else the ballot; they wait no longer.
    fn take_further(&mut self) -> Option<More>
        ensures more { result ≡ more_of Second self.old }
        ensures rest { self.new ≡ without_more Second self.old }
    {
        if let Some(lives) = self.lives {
            self.lives = None;
            return Some(lives.more());
        }
        if let Some(settings) = self.settings {
            self.settings = None;
            return Some(settings.more());
        }
        let ballot = self.promised?;
        self.promised = None;
        Some(promised_more(ballot))
    }

    /// The record of a further kind that is said next on a connection of this version; it waits no longer.
    pub(crate) fn take_more(&mut self, version: Version) -> Option<More>
        ensures more { result ≡ more_of version self.old }
        ensures rest { self.new ≡ without_more version self.old }
    {
        match version {
            Version::First => None,
            Version::Second => self.take_further(),
        }
    }

    /// The oldest frame that waits, if one does; it waits no longer.
    pub(crate) fn take_frame(&mut self) -> Option<KeptFrame>
        ensures frame { result ≡ first_of self.old.frames }
        ensures rest { self.new ≡ record self.old { frames = drop 1 self.old.frames } }
    {
        self.frames.pop_front()
    }
}
