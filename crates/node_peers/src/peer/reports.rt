//! What a peer is told of this node: how it is, which lives it knows, and its settings.

ghost use Rattle.std.specs.Prelude.{◌≡◌, true, is_some};
ghost use Rattle.node_peers.specs.Handing.{GoesBack};
ghost use Rattle.node_peers.specs.Reporting.{takes_lives, settings_first, IsInformed};

use super::Peer;
use node_links::{Lives, OwnReport, Settings};

impl Peer {
    /// Tells the peer how this node is, where a beat is due over an open connection, and says again what is to go again.
    #[tactic(auto, using(crate::proofs::Handing::goes_same, crate::proofs::Handing::goes_on))]
    pub(crate) fn tell(&mut self, told: OwnReport, now: u64)
        ensures { GoesBack self.old self.new }
    {
        self.note_front(told.front);
        if self.open.is_none() {
            return;
        }
        self.tell_beat(told, now);
        self.lead_on(told.front, now);
        self.say_again(told.front, now);
    }

    /// A beat waits for the peer, where one is due.
    #[tactic(auto, using(crate::proofs::Handing::goes_same, crate::proofs::Handing::goes_on))]
    fn tell_beat(&mut self, told: OwnReport, now: u64)
        ensures { GoesBack self.old self.new }
    {
        if self.pulse.wait(now) == 0 {
            let beat = self.pulse.beat(told, now);
            self.outbox.tell(beat);
        }
    }

    /// These lives wait for the peer, and behind the first of them these settings, where a connection of the second version is
    /// open and they weren't told over it.
    #[tactic(auto, using(crate::proofs::Handing::goes_same, crate::proofs::Handing::goes_on, crate::proofs::Reporting::is_told, crate::proofs::Reporting::told_again, crate::proofs::Reporting::never_told))]
    pub(crate) fn tell_lives(&mut self, lives: &Lives, settings: Option<Settings>)
        ensures goes { GoesBack self.old self.new }
        ensures informed { IsInformed lives.now settings self.old self.new }
    {
        if !self.takes_lives() || self.was_told(lives) {
            return;
        }
        self.tell_settings(settings);
        self.outbox.tell_lives(*lives);
        self.lives_told = Some(*lives);
    }

    /// Whether lives may be told it: over an open connection of the second version.
    fn takes_lives(&self) -> bool
        ensures { result ≡ takes_lives self.now }
    {
        self.open.is_some() && self.takes_more
    }

    /// Whether these lives were told it last over that connection.
    fn was_told(&self, lives: &Lives) -> bool
        ensures { result ≡ true → is_some self.now.lives_told ≡ true }
    {
        match self.lives_told {
            Some(told) => told == *lives,
            None => false,
        }
    }

    /// These settings wait for the peer, where no lives were told over the connection yet.
    #[tactic(auto, using(crate::proofs::Handing::goes_same))]
    fn tell_settings(&mut self, settings: Option<Settings>)
        ensures goes { GoesBack self.old self.new }
        ensures waits { self.new ≡ record self.old { outbox = record self.old.outbox { settings = settings_first self.old.lives_told settings self.old.outbox.settings } } }
    {
        if self.lives_told.is_some() {
            return;
        }
        if let Some(settings) = settings {
            self.outbox.tell_settings(settings);
        }
    }
}
