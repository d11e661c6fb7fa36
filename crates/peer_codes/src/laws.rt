//! Laws of records and codes: each is the contract of a function that does nothing.

ghost use Rattle.std.specs.Prelude.{◌≡◌, ◌<◌, ◌-◌, ◌^◌, ◌⊎◌, ℕ, List, ◌++◌, length, Option, Some, None, Result, Ok, IfSome};
ghost use Rattle.peer_codes.specs.declared.limits.TheConstants.{TAG_BYTES, LAST_NUMBER, MOST_RECORD};
ghost use Rattle.peer_codes.specs.declared.beat.Beat.{Beat};
ghost use Rattle.peer_codes.specs.declared.connection.Connection.{Connection};
ghost use Rattle.peer_codes.specs.declared.connection_fault.ConnectionFault.{ConnectionFault};
ghost use Rattle.peer_codes.specs.declared.event.Event.{Event};
ghost use Rattle.peer_codes.specs.declared.event.Event.TheVariants as events;
ghost use Rattle.peer_codes.specs.declared.fault.RecordFault.TheVariants.{BadKind};
ghost use Rattle.peer_codes.specs.declared.connection_fault.ConnectionFault.TheVariants as faults;
ghost use Rattle.peer_codes.specs.declared.frame.Frame.{Frame};
ghost use Rattle.peer_codes.specs.declared.hello.Hello.{Hello};
ghost use Rattle.peer_codes.specs.declared.hellos.Hellos.{Hellos};
ghost use Rattle.peer_codes.specs.declared.kind.Kind.{Kind};
ghost use Rattle.peer_codes.specs.declared.kind.Kind.TheVariants as kind_of;
ghost use Rattle.peer_codes.specs.declared.more.More.{More};
ghost use Rattle.peer_codes.specs.declared.phase.Phase.{Phase};
ghost use Rattle.peer_codes.specs.declared.phase.Phase.TheVariants as phases;
ghost use Rattle.peer_codes.specs.declared.phase.Ways.{Ways};
ghost use Rattle.peer_codes.specs.declared.records.Record.{Record};
ghost use Rattle.peer_codes.specs.declared.role.Role.{Role};
ghost use Rattle.peer_codes.specs.declared.role.Role.TheVariants.{Called};
ghost use Rattle.peer_codes.specs.declared.version.Version.TheVariants.{First, Second};
ghost use Rattle.peer_codes.specs.declared.way.Way.{Way};
ghost use Rattle.peer_codes.specs.Codes.{after, coded_text, covered, proof_tag, proof_text, seal_text, uncovered, way_text};
ghost use Rattle.peer_codes.specs.Faults.{reading, IsPartial};
ghost use Rattle.peer_codes.specs.Fits.{IsBeat, IsFrame, IsRecord};
ghost use Rattle.peer_codes.specs.Kinds.{IsKind};
ghost use Rattle.peer_codes.specs.Connections.{Next, answered, begun_next};
ghost use Rattle.peer_codes.specs.Beginning.{Begins};
ghost use Rattle.peer_codes.specs.Histories.{Answered, Happening, phase_after, phase_behind, AnswersCoded, AreCoded, FrontCame, IsClosed, IsCoded, IsProved};
ghost use Rattle.peer_codes.specs.Spelling.{beat_text, record_text};
ghost use Rattle.peer_codes.specs.Telling.{ToldBy, IsAsked, IsOpen};
ghost use Rattle.peer_codes.specs.Steps.{closed, heard, opened, proof_of, proving, stepped, ways_of, IsBeatSaid, IsFrameSaid, IsMoreSaid, IsOpening};

/// What is written reads back: reading a record's text gives that record.
pub fn records_read_back()
    ensures { (r : Record) → IsRecord r → reading (record_text r) ≡ Ok r }
{}

/// Where a record's text stands in front nothing more is waited for.
pub fn records_are_whole()
    ensures { (r : Record) (bytes rest : List ℕ) → IsRecord r → bytes ≡ record_text r ++ rest → IsPartial bytes → ⊥ }
{}

/// No record begins another, so the records of a stream are told apart.
pub fn records_are_told_apart()
    ensures { (r s : Record) (a b : List ℕ) → IsRecord r → IsRecord s → record_text r ++ a ≡ record_text s ++ b → (r ≡ s) × (a ≡ b) }
{}

/// What is coded on a way reads back on it: under the way's key, number and seal, as the same kind.
pub fn codes_read_back()
    ensures { (way : Way) (kind : Kind) (body : List ℕ) → way.number < LAST_NUMBER → uncovered way kind (covered way kind body) ≡ Ok body }
{}

/// Nothing else is read on a way: a body that is read is that of a record whose tag is right under the way's key, with
/// the way's next number and this kind.
pub fn only_codes_are_read()
    ensures { (way : Way) (kind : Kind) (content body : List ℕ) → uncovered way kind content ≡ Ok body → content ≡ covered way kind body }
{}

/// No frame comes before a connection is open, and each that comes is the body of a record whose tag is right under
/// the key and the next number of the way on which the other speaks; each such record comes as its frame.
pub fn frames_come_coded()
    ensures only { (key : List ℕ) (phase : Phase) (kind : Kind) (content : List ℕ) (frame : Frame) → (stepped key phase kind content).event ≡ Ok (events.Frame frame) → IsFrameSaid phase kind content frame.bytes.items }
    ensures each { (key : List ℕ) (ways : Ways) (frame : Frame) → ways.reading.number < LAST_NUMBER → IsFrame frame.bytes.items → stepped key (phases.Open ways) kind_of.Frame (covered ways.reading kind_of.Frame frame.bytes.items) ≡ heard ways (length frame.bytes.items) (events.Frame frame) }
{}

/// The same of beats: none comes before a connection is open, each that comes is that of a record whose tag is right
/// under the key and the next number of the other's way, and each such record comes as its beat.
pub fn beats_come_coded()
    ensures only { (key : List ℕ) (phase : Phase) (kind : Kind) (content : List ℕ) (beat : Beat) → (stepped key phase kind content).event ≡ Ok (events.Beat beat) → IsBeatSaid phase kind content beat }
    ensures each { (key : List ℕ) (ways : Ways) (beat : Beat) → ways.reading.number < LAST_NUMBER → IsBeat beat → stepped key (phases.Open ways) kind_of.Beat (covered ways.reading kind_of.Beat (beat_text beat)) ≡ heard ways (length (beat_text beat)) (events.Beat beat) }
{}

/// The same of records of further kinds, on a connection of the second version: none comes before one is open, each that
/// comes is that of a record whose tag is right under the key and the next number of the other's way, and each such record
/// comes as it was said. On one of the first version it closes the connection by 121 `BadKind`.
pub fn mores_come_coded()
    ensures only { (key : List ℕ) (phase : Phase) (kind : Kind) (content : List ℕ) (more : More) → (stepped key phase kind content).event ≡ Ok (events.More more) → IsMoreSaid phase kind content more }
    ensures each { (key : List ℕ) (ways : Ways) (more : More) → ways.reading.version ≡ Second → ways.reading.number < LAST_NUMBER → stepped key (phases.Open ways) (kind_of.More more.kind) (covered ways.reading (kind_of.More more.kind) more.bytes.items) ≡ heard ways (length more.bytes.items) (events.More more) }
    ensures first { (key : List ℕ) (ways : Ways) (byte : ℕ) (content : List ℕ) → ways.reading.version ≡ First → stepped key (phases.Open ways) (kind_of.More byte) content ≡ closed (faults.Record BadKind) }
{}

/// A connection is opened by the proof that is awaited of the other side, and by nothing else: the tag under the key
/// over that side's role and both Hellos. Where one that wasn't open is open then, that is told.
pub fn proofs_open()
    ensures only { (key : List ℕ) (phase : Phase) (kind : Kind) (content : List ℕ) → (stepped key phase kind content).event ≡ Ok events.Opened → IsOpening phase kind content }
    ensures each { (key : List ℕ) (own other : Role) (hellos : Hellos) → stepped key (proving key own other hellos) kind_of.Proof (proof_tag key other hellos) ≡ opened (ways_of key own other hellos) }
    ensures told { (key : List ℕ) (phase : Phase) (kind : Kind) (content : List ℕ) (ways : Ways) → (stepped key phase kind content).phase ≡ phases.Open ways → IsOpen phase ⊎ ((stepped key phase kind content).event ≡ Ok events.Opened) }
{}

/// A connection that stays open goes on by one record at a time, and each is coded: whatever record came, it was the next
/// of the other's way, which is then at the next number and behind the bytes of its body; the own way is where it was.
pub fn open_ways_go_on()
    ensures coded { (key : List ℕ) (ways later : Ways) (kind : Kind) (content : List ℕ) → (stepped key (phases.Open ways) kind content).phase ≡ phases.Open later → (body : List ℕ) × (content ≡ covered ways.reading kind body) }
    ensures on { (key : List ℕ) (ways later : Ways) (kind : Kind) (content : List ℕ) → (stepped key (phases.Open ways) kind content).phase ≡ phases.Open later → later ≡ record { reading = after ways.reading (length content - TAG_BYTES); writing = ways.writing } }
{}

/// Each event that `next` tells goes by what stood in front of what came: a Hello of a connection with codes, and none
/// came before, and where this side dialled it is of the own one's version; the proof that is awaited; or a frame, a beat or,
/// on a connection of the second version, a record of a further kind as the next record of the other's way, coded under the
/// way's key, number and seal, on a connection that was open, and that way is behind it now.
pub fn events_stand_in_front()
    ensures { (old new : Connection) (event : Event) → Next old.phase old (Some (Ok event)) new → ToldBy event old new }
{}

/// What a side says to prove itself. Where `next` changes what is to be said it told a Hello, and what is to be said then
/// is the caller's proof over both Hellos (`events_stand_in_front`). The called answers with its own Hello and its proof
/// over both, where its own is of another version or it refused with its Hello alone, and else with nothing.
pub fn own_proofs_are_said()
    ensures next { (old new : Connection) (result : Option (Result Event ConnectionFault)) → Next old.phase old result new → (new.out ≡ old.out) ⊎ ((hello : Hello) × (result ≡ Some (Ok (events.Greeted hello)))) }
    ensures answer { (old : Connection) (own caller : Hello) → old.phase ≡ phases.Asked caller → own.version ≡ caller.version → (answered old.phase own old).out ≡ record old.out { hello = Some own; proof = Some (proof_of old.key.bytes Called (record { caller = caller; called = own })) } }
    ensures other { (old : Connection) (own caller : Hello) → old.phase ≡ phases.Asked caller → (own.version ≡ caller.version → ⊥) → (answered old.phase own old).out ≡ record old.out { hello = Some own } }
    ensures refusal { (old : Connection) (own : Hello) → old.phase ≡ phases.Refused → (answered old.phase own old).out ≡ record old.out { hello = Some own } }
    ensures others { (old : Connection) (own : Hello) → (answered old.phase own old ≡ old) ⊎ (IsAsked old.phase ⊎ (old.phase ≡ phases.Refused)) }
{}

/// Where `next` tells nothing less waits than the greatest record has, but where the called has to answer first.
pub fn little_waits()
    ensures { (old new : Connection) → Next old.phase old None new → IsAsked old.phase ⊎ (length old.came.waiting < MOST_RECORD) }
{}

/// What a call of a connection does to how far it is. `next` changes nothing, as where it tells nothing, or what stands
/// in front of what came is taken and happens; `answer` is the called's answer; `begin` begins nothing, or the own Hello
/// or proof as it is, or, on an open connection alone, a record that is coded now as the next of the own way.
/// `take_piece`, `tell_beat`, `put_more`, `put_frame` and `wrote` say by their contracts that they change neither that nor the key.
pub fn calls_happen()
    ensures next { (old new : Connection) (result : Option (Result Event ConnectionFault)) → Next old.phase old result new → (new ≡ old) ⊎ FrontCame old new }
    ensures waits { (old new : Connection) → Next old.phase old None new → new ≡ old }
    ensures answer { (old : Connection) (own : Hello) → ((answered old.phase own old).key ≡ old.key) × ((answered old.phase own old).phase ≡ phase_after old.key.bytes old.phase (Answered own)) }
    ensures begin { (old : Connection) → Begins old (begun_next old) }
{}

/// What closed a connection once keeps it closed.
pub fn closed_stays_closed()
    ensures { (key : List ℕ) (fault : ConnectionFault) (happening : Happening) → IsClosed (phase_after key (phases.Closed fault) happening) }
{}

/// No tag is that of two things. Under the key of a way: what the tag of a record is made from tells its number, its
/// kind and what is sent, and isn't what the seal is made from, since that has the one byte behind eight that tells no kind. Under the key of a match: what a proof and the key of a way
/// are made from tells the role and both Hellos, and no proof is made from what a way is. That the codes are made from
/// these texts, under these keys, is in their definitions.
pub fn codes_are_of_one_thing()
    ensures records { (m n : ℕ) (j k : Kind) (a b : List ℕ) → IsKind j → IsKind k → m < 2 ^ 64 → n < 2 ^ 64 → coded_text m j a ≡ coded_text n k b → (m ≡ n) × (j ≡ k) × (a ≡ b) }
    ensures seal { (n : ℕ) (k : Kind) (sent : List ℕ) → IsKind k → coded_text n k sent ≡ seal_text → ⊥ }
    ensures proofs { (r s : Role) (h g : Hellos) → AreCoded h → AreCoded g → proof_text r h ≡ proof_text s g → (r ≡ s) × (h ≡ g) }
    ensures ways { (r s : Role) (h g : Hellos) → AreCoded h → AreCoded g → way_text r h ≡ way_text s g → (r ≡ s) × (h ≡ g) }
    ensures apart { (r s : Role) (h g : Hellos) → proof_text r h ≡ way_text s g → ⊥ }
{}

/// Whatever happened to a connection whose own Hellos have nonces: if it is open, both Hellos were said, each with a
/// nonce and both of one version, which both ways have, then the other side's proof over them came, and its two ways are those that these Hellos and the key give,
/// behind all the records that came and that were said since.
pub fn open_connections_are_proved()
    ensures { (key : List ℕ) (own : Option Hello) (before : List Happening) (ways : Ways) → IfSome own IsCoded → AnswersCoded before → phase_behind key own before ≡ phases.Open ways → IsProved key own before ways }
{}
