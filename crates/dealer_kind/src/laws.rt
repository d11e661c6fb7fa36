//! What holds of the dealers of matches: each law is the contract of a function that does nothing.

ghost use Rattle.std.specs.Prelude.{◌≡◌, ◌↔◌, ℕ, ◌+◌, ◌*◌, ◌<◌, ◌≤◌, Bool, true, List};
ghost use Rattle.paxos_wire.specs.declared.limits.TheConstants.{NODES};
ghost use Rattle.slot_log.specs.declared.command.Command.{Command};
ghost use Rattle.slot_log.specs.Dealer.{Fits};
ghost use Rattle.protocol_model.specs.Quorums.{IsChosen};
ghost use Rattle.protocol_model.specs.Worlds.{World, Reached};
ghost use Rattle.protocol_model.specs.Laws.{with_own, OwnsMore};
ghost use Rattle.dealer_kind.specs.Kind.{Setting, hands_after, dealer_of, fits};
ghost use Rattle.dealer_kind.specs.Plans.{HasNodes};
ghost use Rattle.dealer_kind.specs.Owning.{OwnsDeals, either, IsDealtSaidOrOrdered};
ghost use Rattle.dealer_kind.specs.Sources.{owns};
ghost use Rattle.dealer_kind.specs.declared.source.Source.{Source};
ghost use Rattle.dealer_kind.specs.Laws.{OriginsAreOfTheirKind, LinesSayActs, LinesSayNoAway, OrdersPlayForTheNext, SessionsSay, SaidIsHeard, OneMeaningOfLines, AnswersAreHeard};

use matchstate::laws::an_answer_has_one_text;
use protocol_model::laws::one_dealer;
use seat_session::laws::{right_lines_act, whole_lines};
use slot_log::laws::{away_is_legal, commands_make_hands, fits_without_reason};

/// What a line says is an act, and what is a node's own by its source is a deal; and where each node's own commands are
/// deals, a chosen deal is some node's own, a chosen act was said, and a chosen command that plays for a player who is
/// away was ordered.
pub fn deals_are_owned_acts_are_said_and_aways_are_ordered()
    ensures acts { LinesSayActs }
    ensures no_away { LinesSayNoAway }
    ensures origins { OriginsAreOfTheirKind }
    ensures sources { (players : ℕ) (sources : List Source) → OwnsDeals (owns players sources) }
    ensures chosen { (setting : Setting) (own : ℕ → Command → Bool) (n : ℕ) (world : World) (slot : ℕ) (command : Command)
        → OwnsDeals own → Reached (dealer_of setting own) n world → IsChosen n world.ever slot command
        → IsDealtSaidOrOrdered (dealer_of setting own) n world.ever world.came command }
{
    one_dealer();
}

/// The dealer of a match is the same but for whose commands are whose; and by either of two, each node owns what it owns
/// by the first, and deals alone where both own deals alone.
pub fn owners_may_widen()
    ensures same { (setting : Setting) (own other : ℕ → Command → Bool) → with_own (dealer_of setting own) other ≡ dealer_of setting other }
    ensures first { (setting : Setting) (own other : ℕ → Command → Bool) → OwnsMore (dealer_of setting own) (either own other) }
    ensures second { (setting : Setting) (own other : ℕ → Command → Bool) → OwnsMore (dealer_of setting other) (either own other) }
    ensures deals { (own other : ℕ → Command → Bool) → OwnsDeals own → OwnsDeals other → OwnsDeals (either own other) }
{}

/// A match has three nodes or more, and no more than frames and journals have numbers for; and their number is odd, so that
/// a least quorum has one node more than the others are.
pub fn nodes_are_few_and_odd()
    ensures least { (nodes : ℕ) → HasNodes nodes → 3 ≤ nodes }
    ensures most { (nodes : ℕ) → HasNodes nodes → nodes ≤ NODES }
    ensures odd { (nodes : ℕ) → HasNodes nodes → (quorum : ℕ) × (2 * quorum ≡ nodes + 1) }
{}

/// A command fits the protocol's dealer exactly where it fits the hands that the commands before it make.
pub fn fitting_is_the_tables()
    ensures { (setting : Setting) (before : List Command) (command : Command)
        → (fits setting before command ≡ true) ↔ Fits setting.game setting.title.hands (hands_after setting before) command }
{
    fits_without_reason();
}

/// An order that the player to act is played for means the one command that does so in the hand that runs; none where no
/// hand runs.
pub fn orders_play_for_the_next()
    ensures { OrdersPlayForTheNext }
{
    away_is_legal();
    commands_make_hands();
    fits_without_reason();
}

/// What a session takes from a line as an act of its seat is what the line says to the protocol, and the other way round.
pub fn sessions_say()
    ensures heard { SessionsSay }
    ensures only { SaidIsHeard }
{
    an_answer_has_one_text();
    fits_without_reason();
    right_lines_act();
}

/// Sessions and the protocol mean the same by a whole line among bytes, and by bytes without a line feed.
pub fn lines_are_lines()
    ensures { OneMeaningOfLines }
{}

/// An act that a session answers stands, in a whole line that says it, among the bytes that came since the session began.
///
/// These are the premises of the protocol's note that a command was said.
pub fn answers_are_heard()
    ensures { AnswersAreHeard }
{
    an_answer_has_one_text();
    whole_lines();
    fits_without_reason();
}
