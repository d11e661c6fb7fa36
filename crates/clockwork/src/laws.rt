//! What holds of what is due.

ghost use Rattle.clockwork.specs.Laws.{ComesInTime, ComesOnceFrontsStand};
ghost use Rattle.clockwork.specs.Measuring.{CountForAMinute};
ghost use Rattle.clockwork.specs.LateTurns.{OneCountsForNothing, LateOnesCount};
ghost use Rattle.clockwork.specs.SeatWatches.{Sighting, BeginsAnewOnce, BeginsAnew, ComesExactlyThen, GivesUpOnlyThen, GivesUpThen, CountsOn};
ghost use Rattle.clockwork.specs.Openings.{OpensOnlyThen, OpensThen, OpeningLook};
ghost use Rattle.clockwork.specs.Wakings.{WakesExactlyThen};
ghost use Rattle.clockwork.specs.Watches.{WaitsAwake};
ghost use Rattle.clockwork.specs.Orders.{IsOrderedAtTheLatest, IsOrderedInTurn, WaitsBehindACrowd, IsWaitedForAsEver, CostsTenSeconds};
ghost use Rattle.std.specs.Prelude.{ℕ, List};

use crate::known::Known;
use crate::lateness::LateTurn;
use crate::longest::Measure;
use crate::order::Expected;
use crate::seat_watch::{Acts, At, Place, SeatLook, SeatWatch};
use crate::waking::Happening;
use crate::watch::Watch;

/// Where a node is quorate, and is behind, has work or has a peer that lags, a tick is due after the wait for answers (`pace`),
/// or two seconds where that is shorter, doubled for each tick in vain, and a step for each present peer; if nothing else
/// comes to be known by then but that its present peers are heard. No moment that is known may lie ahead. And where a node is
/// behind, one is due once that long has passed since it became so, its front moved, the front that the node told rose whose
/// ballot it has promised, and it ticked.
pub fn a_tick_that_is_needed_comes(known: &Known<'_>)
    ensures needed { ComesInTime known.now }
    ensures stands { ComesOnceFrontsStand known.now }
{}

/// Of all that was measured, the newest first, each counts for a minute as the longest (`Longest`), if it is that, and none
/// that was measured half a minute before does.
pub fn what_was_measured_counts_for_a_minute(_measures: &[Measure], _now: u64)
    ensures { CountForAMinute _measures.now _now }
{}

/// By how much one turn of a process came later than all others counts for nothing; and what all turns of a stretch and a turn
/// behind it were late by does.
pub fn one_late_turn_counts_for_nothing(_turn: LateTurn, _earlier: &[LateTurn], _late: u64)
    ensures nothing { OneCountsForNothing _earlier.now _late }
    ensures counted { LateOnesCount _turn _earlier.now _late }
{}

/// A node that is behind has waited for all that went by since, or since its front moved, but what its process slept through
/// at that moment (`LEAP`): then it gets nothing of what it lacks.
pub fn a_node_that_is_behind_waits_awake(_watch: &Watch, _lost: u64, _now: u64)
    ensures { WaitsAwake _watch.now _lost _now }
{}

/// Where a node is able to order that the seat to act is played for, is awake, and the match is open: it does so, wherever the
/// seat sits and however often it sat down, once (nodes + 1) times the patience, a step for each node before it, and the time
/// that it slept through have passed since the front moved, the node became quorate and the match opened; and where it is its
/// turn, once the wait of the turn has passed; after an order, once the patience has passed again, or eight seconds.
pub fn an_order_comes_at_the_latest(expected: &Expected)
    ensures latest { IsOrderedAtTheLatest expected.now }
    ensures turn { IsOrderedInTurn expected.now }
{}

/// Nobody plays for a seat that sits nowhere as far as is known, and isn't given up, before the patience has passed since a caller
/// at its port was last kept out, unless it has held the table for (nodes + 1) times the patience. For a seat that sits anywhere or
/// is given up it is of no account who was kept out, nor is it where that was before the wait began.
pub fn a_flood_has_nobody_played_for(expected: &Expected)
    ensures crowded { WaitsBehindACrowd expected.now }
    ensures others { IsWaitedForAsEver expected.now }
{}

/// While the front stands, the wait for a seat begins anew at most once by each node, whatever is seen of the seat there: where
/// a bot comes to sit there, and where the node is gone while one sat there.
pub fn a_wait_begins_anew_once(_place: Place, _at: At, _moved: u64, _first: u64, _now: u64)
    ensures once { BeginsAnewOnce _place _at _moved _first _now }
    ensures anew { BeginsAnew _place _at _moved _now }
{}

/// Seats are played for only where at some look each had come, or `start` had passed since a look at which the node had a
/// quorum; and then they are, where the looks came one after another.
pub fn nobody_is_played_for_before_all_came()
    ensures only { (looks : List OpeningLook) (start : ℕ) → OpensOnlyThen looks start }
    ensures then { (looks : List OpeningLook) (start now : ℕ) → OpensThen looks start now }
{}

/// A seat has come exactly where at some look it sat somewhere, or the list had an act that it said itself.
pub fn a_seat_comes_once_it_was_here()
    ensures { (looks : List Sighting) → ComesExactlyThen looks }
{}

/// A seat is given up only where it may be, its newest act is a default action, it sat nowhere since that came into the list,
/// and nowhere for as long as it may hold the table, through all of which the node had a quorum; and then it is, where the looks
/// came one after another.
pub fn a_seat_is_given_up_only_while_it_is_away()
    ensures only { (looks : List Sighting) → GivesUpOnlyThen looks }
    ensures then { (looks : List Sighting) (now : ℕ) → GivesUpThen looks now }
{}

/// As long as a seat is given up, its turns are the default actions since the look at which it was; and the turns of a seat
/// that is given up wait ten seconds together at most, however many they are.
pub fn a_seat_that_is_given_up_costs_ten_seconds()
    ensures counted { (seat : SeatWatch) (acts : Acts) (seen : SeatLook) (first : ℕ) → CountsOn seat acts seen first }
    ensures cost { (patience turns : ℕ) → CostsTenSeconds patience turns }
{}

/// A process is awake exactly where behind its last sleep a turn came in which nothing was left to read, and behind that turn two
/// beats of so many nodes that with itself they are more than half. Where it begins it has slept. Of what happened the newest
/// comes first.
pub fn a_sleeper_orders_nothing(_nodes: u8, _happenings: &[Happening])
    ensures { WakesExactlyThen _nodes _happenings.now }
{}
