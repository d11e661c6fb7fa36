//! Laws of connections without codes: each is the contract of a function that does nothing.

ghost use Rattle.std.specs.Prelude.{◌≡◌, ◌++◌, ℕ, List, Option, None, Some, Result, Ok};
ghost use Rattle.peer_codes.specs.declared.more.More.{More};
ghost use Rattle.peer_codes.specs.declared.version.Version.{Version};
ghost use Rattle.peer_codes.specs.declared.version.Version.TheVariants.{Second};
ghost use Rattle.peer_codes.specs.declared.fault.RecordFault.{RecordFault};
ghost use Rattle.peer_codes.specs.declared.beat.Beat.{Beat};
ghost use Rattle.peer_codes.specs.declared.frame.Frame.{Frame};
ghost use Rattle.peer_codes.specs.declared.hello.Hello.{Hello};
ghost use Rattle.peer_codes.specs.declared.records.Record.{Record};
ghost use Rattle.peer_codes.specs.declared.records.Record.TheVariants as record_of;
ghost use Rattle.peer_codes.specs.Fits.{IsRecord};
ghost use Rattle.peer_codes.specs.Spelling.{record_text};
ghost use Rattle.node_links.specs.declared.further.Further.{Further};
ghost use Rattle.node_links.specs.declared.heard.Heard.{Heard};
ghost use Rattle.node_links.specs.declared.heard.Heard.TheVariants as heards;
ghost use Rattle.node_links.specs.declared.peer_fault.PeerFault.{PeerFault};
ghost use Rattle.node_links.specs.declared.own.Met.{Met};
ghost use Rattle.node_links.specs.declared.own.Own.{Own};
ghost use Rattle.node_links.specs.declared.phase.Phase.{Phase};
ghost use Rattle.node_links.specs.declared.phase.Phase.TheVariants as phases;
ghost use Rattle.node_links.specs.declared.plain_connection.PlainConnection.{PlainConnection};
ghost use Rattle.node_links.specs.Connections.{Next};
ghost use Rattle.node_links.specs.Dialling.{WaitsEnd, DialsAreApart, PausesAreKept};
ghost use Rattle.node_links.specs.Hearing.{SaidIsHeard};
ghost use Rattle.node_links.specs.Histories.{Happening, Judged, phase_after, phase_behind, HasRead, IsTaken};
ghost use Rattle.node_links.specs.Lives.{LivesReadBack};
ghost use Rattle.node_links.specs.Promising.{PromisedReadsBack};
ghost use Rattle.node_links.specs.Steps.{step_by, settled};
ghost use Rattle.node_links.specs.Telling.{SettingsReadBack, read_behind};
ghost use Rattle.node_links.specs.Versions.{FirstIsForOlder, OlderIsMet, NewerIsMet};

use peer_codes::{records_are_told_apart, records_are_whole};

/// What one side says while a connection is open the other hears: the same frames, beats and records of further kinds, in
/// order, however the bytes came in pieces; and where a record's text is there, a call tells it.
pub fn said_is_heard()
    ensures heard { SaidIsHeard }
    ensures told { (old new : PlainConnection) (other : Hello) (said : Record) (rest : List ℕ) → IsRecord said → old.phase ≡ phases.Open other → old.came.waiting ≡ record_text said ++ rest → Next old.phase old None new → ⊥ }
{
    records_are_whole();
    records_are_told_apart();
}

/// No frame and no beat comes before a connection is open, and each that comes is the body of a record that was read, as
/// the one Hello is that comes first and is judged next: nothing of a record that is refused comes. What a record of a
/// further kind tells comes over an open connection of the second version alone.
pub fn frames_come_from_open_connections()
    ensures frame { (phase : Phase) (read : Result Record RecordFault) (frame : Frame) → (step_by phase read).heard ≡ Ok (heards.Frame frame) → (read ≡ Ok (record_of.Frame frame)) × ((other : Hello) × (phase ≡ phases.Open other)) }
    ensures beat { (phase : Phase) (read : Result Record RecordFault) (beat : Beat) → (step_by phase read).heard ≡ Ok (heards.Beat beat) → (read ≡ Ok (record_of.Beat beat)) × ((other : Hello) × (phase ≡ phases.Open other)) }
    ensures hello { (phase : Phase) (read : Result Record RecordFault) (hello : Hello) → (step_by phase read).heard ≡ Ok (heards.Hello hello) → (read ≡ Ok (record_of.Hello hello)) × ((mine : Option Version) × (phase ≡ phases.Greeting mine)) × ((step_by phase read).phase ≡ phases.Asked hello) }
    ensures further { (phase : Phase) (read : Result Record RecordFault) (further : Further) → (step_by phase read).heard ≡ Ok (heards.Further further) → (other : Hello) × ((phase ≡ phases.Open other) × ((other.version ≡ Second) × ((more : More) × ((read ≡ Ok (record_of.More more)) × (read_behind other more ≡ Ok further))))) }
{}

/// Whatever happened to a connection: if it is open, the Hello of the node at its other end came, and was judged and taken,
/// and where this side dialled it is of the version in which it did. Who was dialled answers in the version of the Hello that
/// came (`PlainConnection::answer`): so one that is open has one version on both sides.
pub fn open_connections_were_judged()
    ensures taken { (mine : Option Version) (before : List Happening) (hello : Hello) → phase_behind mine before ≡ phases.Open hello → IsTaken hello before }
    ensures version { (mine : Version) (before : List Happening) (hello : Hello) → phase_behind (Some mine) before ≡ phases.Open hello → hello.version ≡ mine }
{}

/// What a call of a connection does to how far it is: `next` changes nothing, or what stands in front of what came happens
/// to it; by `settle` the Hello is judged with what it was given. `take`, `answer`, `begin` and `wrote` say by their
/// contracts that they don't change that.
pub fn calls_happen()
    ensures next { (old new : PlainConnection) (result : Option (Result Heard PeerFault)) → Next old.phase old result new → HasRead old new }
    ensures settle { (own : Own) (dialled : Option ℕ) (met : List Met) (phase : Phase) → settled own dialled met phase ≡ phase_after phase (Judged own dialled met) }
{}

/// When a peer is dialled: what is to be waited for is due when the wait is over, and not before; two dials are at least
/// 50 ms apart, and one behind a pause comes no sooner than that is over.
pub fn peers_are_dialled_in_time()
    ensures waits { WaitsEnd }
    ensures apart { DialsAreApart }
    ensures pauses { PausesAreKept }
{}

/// In which version a peer is dialled. A connection opens in the first only where the peer is known to be an older node: a
/// dial in the second version was answered by a Hello of the first, or two were closed without a byte, and between them a
/// probe was answered by a Hello. An older node is met by its fourth dial at the latest, and one that knows the second version
/// by its second.
pub fn dials_take_turns()
    ensures first { FirstIsForOlder }
    ensures older { OlderIsMet }
    ensures newer { NewerIsMet }
{}

/// The lives, the settings and the ballot that a node tells read back as those that it told.
pub fn what_is_told_reads_back()
    ensures lives { LivesReadBack }
    ensures settings { SettingsReadBack }
    ensures promised { PromisedReadsBack }
{}
