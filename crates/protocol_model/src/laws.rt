ghost use Rattle.std.specs.Prelude.{◌≡◌, Bool, true, false, ℕ, ◌+◌, ◌-◌, ◌<◌, ◌≤◌, ◌⊎◌, ◌++◌, ◌↔◌, List, ◌∷◌, length, take, slice_get, Some};
ghost use Rattle.paxos_wire.specs.declared.ballot.Ballot.{Ballot};
ghost use Rattle.slot_log.specs.declared.command.Command.{Command};
ghost use Rattle.protocol_model.specs.Sets.{In, IsBeginning};
ghost use Rattle.protocol_model.specs.Ballots.{Below, AtMost};
ghost use Rattle.protocol_model.specs.Messages.{Vote, Message, sender_of, Prepare, Accept, Accepted, Chosen};
ghost use Rattle.protocol_model.specs.Quorums.{IsQuorum, IsChosenIn, IsChosen, AreChosen};
ghost use Rattle.protocol_model.specs.Dealers.{Dealer};
ghost use Rattle.protocol_model.specs.Laws.{OneDealer, HasOrigin, IsLeft, IsOpened, with_own, OwnsMore};
ghost use Rattle.protocol_model.specs.Nodes.{Node};
ghost use Rattle.protocol_model.specs.Stores.{Store, promised, voted, StoreMove, Append};
ghost use Rattle.protocol_model.specs.Backing.{Backs, HasNoOther, IsWithinPromise, IsAcceptedToo};
ghost use Rattle.protocol_model.specs.Arrivals.{heard_in, AreInOrder};
ghost use Rattle.protocol_model.specs.Moves.{Shown, Output, both, with_store, with_sent, Chain};
ghost use Rattle.protocol_model.specs.Calls.{IsToSeat, lines_in};
ghost use Rattle.protocol_model.specs.Votes.{is_voted, command_run_at, taking_command_run, GoesTo};
ghost use Rattle.protocol_model.specs.Frames.{proposals, answers};
ghost use Rattle.protocol_model.specs.CommandRuns.{proposed, answered, sending_all, MayProposeEach};
ghost use Rattle.protocol_model.specs.Worlds.{World, IsAfter, Run, Reached};

/// Moves of one node, one after another, lead from a world of a run to a world of the run; and such chains join.
///
/// So a call of a node, whatever it does inside, is a step of the world once it is shown to be such a chain.
pub fn chains_reach()
    ensures reach { (dealer : Dealer) (n i : ℕ) (first world : World) (out : Output) (node : Node)
        → Run dealer n first world → i < n → Chain dealer n i world.ever (world.nodes i) out node
        → (later : World) × Run dealer n first later × IsAfter world i out node later }
    ensures join { (dealer : Dealer) (n i : ℕ) (ever : List Message) (old : Node) (earlier : Output) (between : Node) (later : Output) (new : Node)
        → Chain dealer n i ever old earlier between → Chain dealer n i (earlier.sent ++ ever) between later new
        → Chain dealer n i ever old (both later earlier) new }
{}

/// One node of three or more is no quorum, so that what it promises or accepts settles nothing by itself.
pub fn one_node_is_no_quorum()
    ensures { (n only : ℕ) (set : ℕ → Bool)
        → 3 ≤ n → ((node : ℕ) → node < n → set node ≡ true → node ≡ only) → IsQuorum n set → ⊥ }
{}

/// What is chosen stays chosen: in every run, of any number of nodes, whatever was lost, repeated or late and whoever
/// stopped and started again at any moment.
///
/// If a command was chosen at a slot in a ballot, each proposal of a greater ballot there carries it. So each slot has
/// at most one chosen command, and of two lists of commands chosen at the first slots the shorter is a beginning of
/// the longer. (The safety theorem of 'Paxos Made Simple'.)
pub fn one_choice()
    ensures carried { (dealer : Dealer) (n : ℕ) (world : World) (lower greater : Ballot) (slot : ℕ) (chosen command : Command)
        → Reached dealer n world → IsChosenIn n world.ever lower slot chosen
        → Below lower greater → In (Accept greater slot command) world.ever → command ≡ chosen }
    ensures one { (dealer : Dealer) (n : ℕ) (world : World) (slot : ℕ) (a b : Command)
        → Reached dealer n world → IsChosen n world.ever slot a → IsChosen n world.ever slot b → a ≡ b }
    ensures lists { (dealer : Dealer) (n : ℕ) (world : World) (shorter longer : List Command)
        → Reached dealer n world → AreChosen n world.ever shorter → AreChosen n world.ever longer
        → length shorter ≤ length longer → IsBeginning shorter longer }
{}

/// What a node knows as chosen was chosen, so that no two nodes ever know different commands at a slot.
///
/// So is what any node was ever told as chosen, and what a quorum's answers that a node has show as chosen.
pub fn known_is_chosen()
    ensures known { (dealer : Dealer) (n i : ℕ) (world : World) (slot : ℕ) (command : Command)
        → Reached dealer n world → In (slot, command) (world.nodes i).known → IsChosen n world.ever slot command }
    ensures told { (dealer : Dealer) (n sender : ℕ) (world : World) (slot : ℕ) (command : Command)
        → Reached dealer n world → In (Chosen sender slot command) world.ever → IsChosen n world.ever slot command }
    ensures answered { (dealer : Dealer) (n i : ℕ) (world : World) (slot : ℕ) (command : Command)
        → Reached dealer n world → IsChosen n (world.nodes i).has slot command → IsChosen n world.ever slot command }
{}

/// All that is shown comes from one dealer: in every run there is one list of chosen commands, each of which fits after
/// those before it, such that each line and each log shows the effect of a beginning of that list, and within one start
/// of a node these beginnings never get shorter.
///
/// And no command is invented: a chosen deal is some node's own, and a chosen act was said. At a moment of the run the
/// bytes that a seat had sent to a node since it connected there held a whole line that says the act, in answer to the
/// seat's line after commands that were chosen by then.
pub fn one_dealer()
    ensures list { (dealer : Dealer) (n : ℕ) (world : World) → Reached dealer n world → OneDealer dealer n world }
    ensures origin { (dealer : Dealer) (n : ℕ) (world : World) (slot : ℕ) (command : Command)
        → Reached dealer n world → IsChosen n world.ever slot command → HasOrigin dealer n world.ever world.came command }
{}

/// A run may end at any moment, inside an append too, and goes on once all nodes are started again with what it left.
///
/// What was sent and shown before stays in the world, so the laws of runs speak of both together: one list of commands
/// serves the lines of the earlier run and those of the later one.
pub fn runs_go_on()
    ensures opens { (dealer : Dealer) (n : ℕ) (earlier : World) (stores : ℕ → Store)
        → ((i : ℕ) → i < n → IsLeft i (earlier.nodes i) (stores i)) → (opened : World) × IsOpened dealer n earlier stores opened }
    ensures joins { (dealer : Dealer) (n : ℕ) (first between last : World)
        → Run dealer n first between → Run dealer n between last → Run dealer n first last }
    ensures grows { (dealer : Dealer) (n : ℕ) (first last : World) → Run dealer n first last
        → IsBeginning first.ever last.ever × IsBeginning first.shown last.shown × IsBeginning first.came last.came }
{}

/// A run stays one where more deals count as a node's own.
///
/// So where a cluster is opened anew with other deals than before, the run before it and the run that goes on are both
/// runs of the dealer for whom the deals of both are a node's own, and the other laws hold of the two together.
pub fn owners_may_change()
    ensures { (dealer : Dealer) (own : ℕ → Command → Bool) (n : ℕ) (first last : World)
        → OwnsMore dealer own → Run dealer n first last → Run (with_own dealer own) n first last }
{}

/// What a node accepted was proposed; and in a ballot that a node began since its start it sent every proposal itself,
/// since then.
///
/// So an answer to a proposal that a node hasn't sent yet is never there.
pub fn answers_have_proposals()
    ensures proposed { (dealer : Dealer) (n sender : ℕ) (world : World) (ballot : Ballot) (slot : ℕ) (command : Command)
        → Reached dealer n world → In (Accepted sender ballot slot command) world.ever → In (Accept ballot slot command) world.ever }
    ensures own { (dealer : Dealer) (n i : ℕ) (world : World) (ballot : Ballot) (first slot : ℕ) (command : Command)
        → Reached dealer n world → In (Prepare ballot first) (world.nodes i).sent → In (Accept ballot slot command) world.ever
        → In (Accept ballot slot command) (world.nodes i).sent }
{}

/// What a store backs it goes on to back, whatever store move its node makes; and each store that a node of a run may
/// leave, at any moment, backs all that the node ever sent.
///
/// A vote keeps what the store backs where the slot has no other vote of its ballot. A proposal alone isn't stored: a
/// store has its command once its node has accepted it too.
pub fn backing_lasts()
    ensures promise { (store : Store) (ballot : Ballot) (message : Message)
        → Below store.promise ballot → Backs store message → Backs (promised store ballot) message }
    ensures vote { (store : Store) (slot : ℕ) (vote : Vote) (message : Message)
        → IsWithinPromise store → AtMost store.promise vote.ballot → HasNoOther store slot vote
        → Backs store message → Backs (voted store slot vote) message }
    ensures moves { (node : ℕ) (has : List Message) (old new : Store) (message : Message)
        → IsWithinPromise old → StoreMove node has old new
        → ((slot : ℕ) (vote : Vote) → new.votes slot ≡ Some vote → HasNoOther old slot vote)
        → IsWithinPromise new × (Backs old message → Backs new message) }
    ensures left { (dealer : Dealer) (n i : ℕ) (world : World) (store : Store) (message : Message)
        → Reached dealer n world → IsLeft i (world.nodes i) store → In message world.ever → sender_of message ≡ i
        → IsAcceptedToo world.ever message → Backs store message }
    ensures within { (dealer : Dealer) (n i : ℕ) (world : World) (store : Store)
        → Reached dealer n world → IsLeft i (world.nodes i) store → IsWithinPromise store }
{}

/// What a node hears of a seat is what came from the seat since it connected there, by the list of all that came; and
/// that list is in order, each arrival telling how much had been sent by then.
pub fn arrivals_tell()
    ensures heard { (dealer : Dealer) (n i seat : ℕ) (world : World)
        → Reached dealer n world → (world.nodes i).heard seat ≡ heard_in world.came i seat }
    ensures in_order { (dealer : Dealer) (n : ℕ) (world : World)
        → Reached dealer n world → AreInOrder world.came (length world.ever) }
{}

/// The lines that a call's moves show come in the moves' order, and no log is among them.
pub fn lines_follow()
    ensures joined { (earlier later : Output) → lines_in (both later earlier).shown ≡ lines_in earlier.shown ++ lines_in later.shown }
    ensures lines { (shown : List Shown) (line : Shown) → In line (lines_in shown) ↔ In line shown × IsToSeat line }
{}

/// The messages of a command run are one for each of its commands, of the first at its slot, of each further one at the
/// slot behind.
pub fn command_runs_are_carried()
    ensures proposals { (ballot other : Ballot) (slot k : ℕ) (command : Command) (commands : List Command)
        → In (Accept other k command) (proposals ballot slot commands)
        ↔ (other ≡ ballot) × (slot ≤ k) × (k < slot + length commands) × (slice_get commands (k - slot) ≡ Some command) }
    ensures answers { (sender from : ℕ) (ballot other : Ballot) (slot k : ℕ) (command : Command) (commands : List Command)
        → In (Accepted from other k command) (answers sender ballot slot commands)
        ↔ (from ≡ sender) × (other ≡ ballot) × (slot ≤ k) × (k < slot + length commands) × (slice_get commands (k - slot) ≡ Some command) }
    ensures as_many_proposals { (ballot : Ballot) (slot : ℕ) (commands : List Command) → length (proposals ballot slot commands) ≡ length commands }
    ensures as_many_answers { (sender : ℕ) (ballot : Ballot) (slot : ℕ) (commands : List Command) → length (answers sender ballot slot commands) ≡ length commands }
    ensures only_proposals { (ballot : Ballot) (slot : ℕ) (commands : List Command) (message : Message)
        → In message (proposals ballot slot commands) → (k : ℕ) × (command : Command) × (message ≡ Accept ballot k command) }
    ensures only_answers { (sender : ℕ) (ballot : Ballot) (slot : ℕ) (commands : List Command) (message : Message)
        → In message (answers sender ballot slot commands) → (k : ℕ) × (command : Command) × (message ≡ Accepted sender ballot k command) }
{}

/// A command run is voted for by moves of its slots one after another, and stored by one append; and told values of slots
/// one behind the other are proposed together.
///
/// Of a command run that was proposed what is taken is voted for: its votes are what one append may make of the store,
/// each answer is backed by them, so is all that was backed before, no vote is above the promise, and a command run that
/// isn't empty leaves its ballot promised.
///
/// What is taken ends behind the last slot before the first one that differs from the first slot in whether the ballot has
/// a vote there, or with the command run; so of one that isn't empty at least one command is taken. Where the first slot
/// has no vote of the ballot, it is a beginning of the command run, all of it where none of the slots has one. Where the
/// first slot has one, it is what the ballot has at these slots, and the store stays as it was. Afterwards the slots of
/// what is taken have its votes, and the others what they had.
pub fn command_runs_are_moves()
    ensures votes { (dealer : Dealer) (n i : ℕ) (ever : List Message) (old : Node) (ballot : Ballot) (slot : ℕ) (commands : List Command)
        → old.up ≡ true → old.begun ≡ old.store → AtMost old.store.promise ballot
        → ((message : Message) → In message (proposals ballot slot commands) → In message old.has)
        → Chain dealer n i ever old (sending_all (answered i ballot slot (command_run_at old.store ballot slot commands)))
        (with_sent (with_store old (taking_command_run old.store ballot slot commands)) (answered i ballot slot (command_run_at old.store ballot slot commands))) }
    ensures append { (i : ℕ) (has : List Message) (store : Store) (ballot : Ballot) (slot : ℕ) (commands : List Command)
        → AtMost store.promise ballot → ((message : Message) → In message (proposals ballot slot commands) → In message has)
        → Append i has store (taking_command_run store ballot slot commands) }
    ensures backed { (i : ℕ) (store : Store) (ballot : Ballot) (slot : ℕ) (commands : List Command) (message : Message)
        → IsWithinPromise store → AtMost store.promise ballot
        → In message (answers i ballot slot (command_run_at store ballot slot commands)) → Backs (taking_command_run store ballot slot commands) message }
    ensures stays { (store : Store) (ballot : Ballot) (slot : ℕ) (commands : List Command) (message : Message)
        → IsWithinPromise store → AtMost store.promise ballot → Backs store message → Backs (taking_command_run store ballot slot commands) message }
    ensures within { (store : Store) (ballot : Ballot) (slot : ℕ) (commands : List Command)
        → IsWithinPromise store → AtMost store.promise ballot → IsWithinPromise (taking_command_run store ballot slot commands) }
    ensures promised { (store : Store) (ballot : Ballot) (slot : ℕ) (command : Command) (later : List Command)
        → IsWithinPromise store → AtMost store.promise ballot → (taking_command_run store ballot slot (command ∷ later)).promise ≡ ballot }
    ensures least { (store : Store) (ballot : Ballot) (slot : ℕ) (command : Command) (later : List Command)
        → 1 ≤ length (command_run_at store ballot slot (command ∷ later)) }
    ensures most { (store : Store) (ballot : Ballot) (slot : ℕ) (commands : List Command)
        → length (command_run_at store ballot slot commands) ≤ length commands }
    ensures begins { (store : Store) (ballot : Ballot) (slot : ℕ) (commands : List Command) → is_voted store ballot slot ≡ false
        → (command_run_at store ballot slot commands ≡ take (length (command_run_at store ballot slot commands)) commands)
        × GoesTo false store ballot slot (length commands) (length (command_run_at store ballot slot commands)) }
    ensures repeats { (store : Store) (ballot : Ballot) (slot : ℕ) (commands : List Command) → is_voted store ballot slot ≡ true
        → ((place : ℕ) (command : Command) → slice_get (command_run_at store ballot slot commands) place ≡ Some command
        → store.votes (slot + place) ≡ Some (record { ballot = ballot; command = command }))
        × GoesTo true store ballot slot (length commands) (length (command_run_at store ballot slot commands)) }
    ensures stands { (store : Store) (ballot : Ballot) (slot : ℕ) (commands : List Command)
        → is_voted store ballot slot ≡ true → taking_command_run store ballot slot commands ≡ store }
    ensures inside { (store : Store) (ballot : Ballot) (slot place : ℕ) (command : Command) (commands : List Command)
        → slice_get (command_run_at store ballot slot commands) place ≡ Some command
        → (taking_command_run store ballot slot commands).votes (slot + place) ≡ Some (record { ballot = ballot; command = command }) }
    ensures outside { (store : Store) (ballot : Ballot) (slot k : ℕ) (commands : List Command)
        → (k < slot) ⊎ (slot + length (command_run_at store ballot slot commands) ≤ k)
        → (taking_command_run store ballot slot commands).votes k ≡ store.votes k }
    ensures promise { (store : Store) (ballot : Ballot) (slot : ℕ) (commands : List Command)
        → ((taking_command_run store ballot slot commands).promise ≡ store.promise) ⊎ ((taking_command_run store ballot slot commands).promise ≡ ballot) }
    ensures taken_whole { (store : Store) (ballot : Ballot) (slot : ℕ) (commands : List Command)
        → ((k : ℕ) → slot ≤ k → k < slot + length commands → is_voted store ballot k ≡ false)
        → command_run_at store ballot slot commands ≡ commands }
    ensures proposals { (dealer : Dealer) (n i : ℕ) (ever : List Message) (old : Node) (ballot : Ballot) (first slot : ℕ) (commands : List Command)
        → old.up ≡ true → In (Prepare ballot first) old.sent → ballot.node ≡ i → MayProposeEach n old.has old.sent ballot slot commands
        → Chain dealer n i ever old (sending_all (proposed ballot slot commands)) (with_sent old (proposed ballot slot commands)) }
{}
