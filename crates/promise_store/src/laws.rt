//! Laws of journals and of what they keep.

ghost use Rattle.std.specs.Prelude.{◌≡◌, ◌↔◌, ◌+◌, ◌<◌, ◌≤◌, ◌∷◌, ◌++◌, [], ℕ, List, Option, Some, None, false, length};
ghost use Rattle.paxos_wire.specs.declared.ballot.Ballot.{Ballot};
ghost use Rattle.paxos_wire.specs.declared.entry.Entry.{Entry};
ghost use Rattle.slot_log.specs.declared.command.Command.{Command};
ghost use Rattle.protocol_model.specs.Sets.{In};
ghost use Rattle.protocol_model.specs.Ballots.{Below, AtMost};
ghost use Rattle.protocol_model.specs.Messages.{Vote, Message, Prepare, Promise};
ghost use Rattle.protocol_model.specs.Backing.{Backs, HasNoOther, IsWithinPromise};
ghost use Rattle.protocol_model.specs.Stores.{promised};
ghost use Rattle.protocol_model.specs.Frames.{proposals, answers};
ghost use Rattle.protocol_model.specs.Votes.{is_voted, storing_command_run};
ghost use Rattle.protocol_model.specs.Stores as model;
ghost use Rattle.promise_store.specs.declared.records.Record.{Record};
ghost use Rattle.promise_store.specs.declared.records.Record.TheVariants.{Promised, Opened, Voted};
ghost use Rattle.promise_store.specs.declared.store.Store.{Store};
ghost use Rattle.promise_store.specs.Journals.{IsJournal};
ghost use Rattle.promise_store.specs.Holding.{StandsFor, holding, store_of, stored};
ghost use Rattle.promise_store.specs.Keeping.{disk_of, Keeps, Leaves, LeavesDuring};
ghost use Rattle.promise_store.specs.Laws.{entries_of, accepted_in, Says, IsGreatest, IsLastOfGreatest, IsBacked};

use crate::disk::Disk;

/// Bytes stand for one list of records at most, and so for one store.
pub fn journals_have_one_reading()
    ensures records { (head bytes : List ℕ) (a b : List Record) → IsJournal head bytes a → IsJournal head bytes b → a ≡ b }
    ensures stores { (head bytes : List ℕ) (a b : model.Store) → StandsFor head bytes a → StandsFor head bytes b → a ≡ b }
{}

/// What records make of a store, in words of 'Paxos Made Simple': the promise is the greatest ballot that was promised
/// or accepted in, and at each slot stands what was accepted there in the greatest ballot; of several of one ballot
/// the last.
pub fn greatest_ballots_are_held()
    ensures promise { (head : List ℕ) (records : List Record) → IsGreatest records (holding head records).promise }
    ensures votes { (head : List ℕ) (records : List Record) (slot : ℕ) (vote : Vote)
        → (store_of (holding head records)).votes slot ≡ Some vote → IsLastOfGreatest (accepted_in records) slot vote }
    ensures none { (head : List ℕ) (records : List Record) (slot : ℕ) (ballot : Ballot) (command : Command)
        → (store_of (holding head records)).votes slot ≡ None → Says records ballot slot command → ⊥ }
    ensures within { (head : List ℕ) (records : List Record) → IsWithinPromise (store_of (holding head records)) }
{}

/// Storing a promise above the one before, and a run of votes that isn't below it at slots without a vote of its ballot,
/// is what the protocol's model makes of a store, one vote after another.
pub fn records_are_moves()
    ensures promise { (store : model.Store) (ballot : Ballot) → Below store.promise ballot → stored store (Promised ballot) ≡ promised store ballot }
    ensures votes { (store : model.Store) (ballot : Ballot) (slot : ℕ) (commands : List Command) → 1 ≤ length commands → IsWithinPromise store → AtMost store.promise ballot
        → ((k : ℕ) → slot ≤ k → k < slot + length commands → is_voted store ballot k ≡ false)
        → stored store (Voted ballot slot commands) ≡ storing_command_run store ballot slot commands }
{}

/// What is stored backs what a node then answers, and goes on to back what it backed.
pub fn answers_are_backed()
    ensures prepare { (store : model.Store) (ballot : Ballot) (slot : ℕ) → Backs (stored store (Promised ballot)) (Prepare ballot slot) }
    ensures promise { (store : model.Store) (ballot : Ballot) (sender slot : ℕ) (told : List Entry) → Backs (stored store (Promised ballot)) (Promise sender ballot slot told) }
    ensures votes { (store : model.Store) (ballot : Ballot) (sender slot : ℕ) (commands : List Command) (message : Message)
        → In message (answers sender ballot slot commands) → Backs (stored store (Voted ballot slot commands)) message }
    ensures own_votes { (store : model.Store) (ballot : Ballot) (slot : ℕ) (commands : List Command) (message : Message)
        → In message (proposals ballot slot commands) → Backs (stored store (Voted ballot slot commands)) message }
    ensures after_promise { (store : model.Store) (ballot : Ballot) (message : Message) → Backs store message → Backs (stored store (Promised ballot)) message }
    ensures after_votes { (store : model.Store) (ballot : Ballot) (slot : ℕ) (commands : List Command) (message : Message)
        → ((entry : Entry) → In entry (entries_of ballot slot commands) → HasNoOther store entry.slot (record { ballot = ballot; command = entry.command }))
        → Backs store message → Backs (stored store (Voted ballot slot commands)) message }
{}

/// The record that opens a journal of version 1 for version 2 changes nothing that a journal stands for.
pub fn stages_hold_nothing()
    ensures stored { (store : model.Store) → stored store Opened ≡ store }
    ensures journals { (head bytes longer : List ℕ) (records : List Record) (store : model.Store) → IsJournal head bytes records → IsJournal head longer (records ++ Opened ∷ [])
        → StandsFor head bytes store ↔ StandsFor head longer store }
{}

/// What a store keeps is all that its disk leaves.
pub fn what_is_kept_is_left<D: Disk>()
    ensures { (head : List ℕ) (held : model.Store) (store : Store D) → Keeps D.Disk head held store → Leaves D.Disk head held held (disk_of store) }
{}

/// What the images of a disk backed before a call they back at each moment of the call and behind it, where the store
/// that the call may make goes on to back it.
pub fn images_stay_backed<D: Disk>()
    ensures { (head : List ℕ) (old new : model.Store) (before after : D) (message : Message) (image : List ℕ)
        → Leaves D.Disk head old old before → LeavesDuring D.Disk head old new before after → Backs old message → Backs new message
        → D.since after (D.moment before) image → IsBacked head image message }
{}
