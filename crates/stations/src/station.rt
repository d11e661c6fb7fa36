ghost use Rattle.std.specs.Prelude.{◌≡◌, ◌<◌, false, [], ◌∷◌, length, IfOk, IfErr};
ghost use Rattle.promise_store.specs.declared.disk.Disk.{Ghosts};
ghost use Rattle.dealer_node.specs.Outs.{nothing_told};
ghost use Rattle.dealer_node.specs.Members.{place_at};
ghost use Rattle.dealer_node.specs.Seeing.{member_in, runs, begun_of};
ghost use Rattle.node_rules.specs.Standings.{place_of};
ghost use Rattle.dealer_world.specs.Beginning.{IsOver, IsWant};
ghost use Rattle.dealer_world.specs.Events.{node_of};
ghost use Rattle.dealer_world.specs.Stepping.{IsFor};
ghost use Rattle.stations.specs.Moments.{moment_now, EndNow};
ghost use Rattle.stations.specs.Codes.{now_prop};
ghost use Rattle.stations.specs.Stations.{IsTrueTo, AreTrueTo, Acts, Works, Has};

use crate::deeds::{Deeds, Given};
use crate::moments::Moments;
use dealer_kind::Config;
use dealer_node::{Node, NodeFault, Out};
use dealer_world::laws::events_are_calls;
use dealer_world::{Event, give, reopened};
use promise_store::Disk;
use std::alloc::Global;

/// One node of a match in a process of its own.
///
/// It goes on from the store that its disk has: that of a new node, or what an earlier process of the node left, however it
/// ended. Whatever that one did, what this one does is by the rules of the same node (`IsTrueTo`).
pub struct Station<D: Disk + Drop> {
    config: Config,
    number: u8,
    node: Node<D>,
    /// What its node did in this process, for clauses alone.
    deeds: Deeds,
    /// The tables that its node had in this process, for clauses alone.
    moments: Moments,
    ghost here: { number < length config.sources },
    ghost at_place: { ∥ place_at (member_in node) ≡ place_of config number ∥₁ },
    ghost newest: { EndNow node deeds.items moments.items } by { now_prop node deeds.items moments.items },
    ghost true_to: { IsTrueTo D.Disk (place_of config number) node deeds.items },
    ghost tables: { AreTrueTo D.Disk (place_of config number) node moments.items },
    ghost works: { ∥ Works D.Disk (place_of config number) (begun_of D.Disk node) (record { config = config; number = number; node = node; deeds = deeds.items; moments = moments.items }) ∥₁ },
}

/// By hand, so that letting one go is one call for whoever owns it (docs/ARCHITECTURE.md, Habits).
impl<D: Disk + Drop> Drop for Station<D> {
    fn drop(self) {
        let Station {
            config: _,
            number: _,
            node: _,
            deeds: _,
            moments: _,
        } = self;
    }
}

impl<D: Disk + Drop> Station<D> {
    ghost use Rattle.stations.specs.Looking.{look_of};

    /// The station of the node of this number, counted from 0, over the store that its disk has. The node is down, and
    /// `Event::Start` starts it. The disk is synced, so that a crash leaves what it reads.
    ///
    /// Refused is 91 with 63, or 92; then the disk is dropped.
    pub fn open(alloc: Global, config: Config, number: u8, disk: D) -> Result<Station<D>, NodeFault>
        requires { number < length config.sources }
        ensures config { IfOk result (λ made. (look_of made).config ≡ config) }
        ensures number { IfOk result (λ made. (look_of made).number ≡ number) }
        ensures deeds { IfOk result (λ made. (look_of made).deeds ≡ []) }
        ensures moments { IfOk result (λ made. (look_of made).moments ≡ moment_now (look_of made).node [] ∷ []) }
        ensures down { IfOk result (λ made. runs (look_of made).node ≡ false) }
        ensures over { IfOk result (λ made. IsOver D.Disk disk (look_of made).node) }
        ensures failed { IfErr result IsWant }
    {
        let node = reopened(alloc, &config, number as usize, disk)?;
        let deeds = Deeds::new();
        let mut moments = Moments::new();
        moments.add(node.table(), &deeds);
        Ok(Station {
            config,
            number,
            node,
            deeds,
            moments,
        })
    }

    /// Gives an event to the node. What it sends, shows and tells stands in `made`, which is empty before.
    ///
    /// The faults are those of the node. Over disks that keep their word nothing has changed by 92, and the node is down by 91
    /// and 95; 95 never comes where the premises of `laws` hold. By every fault `made` is empty.
    pub fn step(&mut self, event: &Event, made: &mut Out) -> Result<(), NodeFault>
        requires here { node_of event.now ≡ (look_of self.old).number }
        requires within { IsFor (length (look_of self.old).config.sources) (look_of self.old).config.setting.game.players event.now }
        requires nothing { made.old ≡ nothing_told }
        ensures { Acts D.Disk event.now made.new result (look_of self.old) (look_of self.new) }
    {
        events_are_calls::<D>();
        let was_up = self.node.running();
        let front = self.node.front();
        let answer = give(&mut self.node, event, made);
        let made = &*made;
        self.deeds.add_call(&Given {
            event,
            was_up,
            front,
            made,
            answer,
        });
        self.moments.add(self.node.table(), &self.deeds);
        answer
    }

    /// What holds of every station: its node is at its place in the match; its deeds are the calls that it made since it was
    /// opened, and no others, and it had a table when it was opened and one behind each call, the last of which it has now;
    /// and whatever earlier processes of it did that left what this one was begun on, what it did since is by the rules, and
    /// each of these tables is what it had done by then.
    pub fn limits(&self)
        ensures { Has D.Disk (look_of self.now) }
    {
        let _ = &self.number;
    }

    /// The match and its nodes.
    pub fn config(&self) -> &Config
        ensures { result.now ≡ (look_of self.now).config }
    {
        &self.config
    }

    /// The node's number, counted from 0.
    pub fn number(&self) -> u8
        ensures { result ≡ (look_of self.now).number }
    {
        self.number
    }

    /// The node.
    pub fn node(&self) -> &Node<D>
        ensures { result.now ≡ (look_of self.now).node }
    {
        &self.node
    }
}
