ghost use Rattle.std.specs.Prelude.{◌≡◌, None};
ghost use Rattle.node_links.specs.Pulses.{wait_of, beat_of, told_at, heard_at, passed_in};

use crate::limits::BEAT;
use peer_codes::Beat;

/// What a node tells of itself in a beat.
#[derive(Clone, Copy, Debug, PartialEq, Eq)]
pub struct OwnReport {
    /// The first slot that it knows nothing chosen of.
    pub front: u32,
    /// Whether it campaigns.
    pub campaigns: bool,
    /// Whether the match is over there.
    pub over: bool,
    /// The seats that sit there, a bit each, seat 0 the lowest.
    pub seats: u16,
}

/// A beat that was told, by whose answer the way to the peer and back is measured.
#[derive(Clone, Copy, Debug, PartialEq, Eq)]
pub struct Probe {
    /// Its number.
    pub number: u32,
    /// When it was told.
    pub at: u64,
}

/// The beats of one connection: those that were told and those that were got. Moments and lengths of time are whole
/// microseconds; a moment that lies ahead counts as the present.
#[derive(Clone, Copy, Debug, PartialEq, Eq)]
pub struct Pulse {
    /// The number of the last beat that was told; 0 where none was.
    pub number: u32,
    /// The number of the last that came; 0 where none did.
    pub got: u32,
    /// When the last was told.
    pub told: Option<u64>,
    /// The beat whose answer is awaited.
    pub probe: Option<Probe>,
    /// How long the way to the peer and back last took, once that was measured.
    pub round_trip: Option<u64>,
}

/// How long the way took, where this beat answers the one that is awaited.
fn passed_in(probe: Option<Probe>, beat: &Beat, now: u64) -> Option<u64>
    ensures { result ≡ passed_in probe beat.now now }
{
    match probe {
        Some(awaited) => {
            if awaited.number <= beat.got {
                Some(now.saturating_sub(awaited.at))
            } else {
                None
            }
        }
        None => None,
    }
}

impl Pulse {
    /// A connection opens: none was told, and none came.
    pub fn new() -> Pulse
        ensures { result ≡ record { number = 0; got = 0; told = None; probe = None; round_trip = None } }
    {
        Pulse {
            number: 0,
            got: 0,
            told: None,
            probe: None,
            round_trip: None,
        }
    }

    /// How long it is until the next beat is due: 0 where it is, as at once when a connection opens.
    pub fn wait(&self, now: u64) -> u64
        ensures { result ≡ wait_of self.now now }
    {
        match self.told {
            Some(at) => BEAT.saturating_sub(now.saturating_sub(at)),
            None => 0,
        }
    }

    /// The beat that is told at this moment. The numbers end at the greatest that four bytes hold, after years: then it is
    /// told again and again.
    pub fn beat(&mut self, told: OwnReport, now: u64) -> Beat
        ensures beat { result ≡ beat_of self.old told }
        ensures pulse { self.new ≡ told_at self.old now }
    {
        self.number = self.number.saturating_add(1);
        self.told = Some(now);
        if self.probe.is_none() {
            self.probe = Some(Probe {
                number: self.number,
                at: now,
            });
        }
        Beat {
            number: self.number,
            got: self.got,
            front: told.front,
            campaigns: told.campaigns,
            over: told.over,
            seats: told.seats,
        }
    }

    /// A beat came at this moment.
    pub fn heard(&mut self, beat: &Beat, now: u64)
        ensures { self.new ≡ heard_at self.old beat.now now }
    {
        self.got = beat.number;
        if let Some(passed) = passed_in(self.probe, beat, now) {
            self.round_trip = Some(passed);
            self.probe = None;
        }
    }
}
