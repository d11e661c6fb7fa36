//! All processes of a match, the bots, and what goes between them, event after event.

mod arrivals;
mod bots;
mod orders;
mod processes;
mod strangers;

use crate::flood::Flood;
use crate::place::Place;
use crate::plan::Plan;
use crate::telling::put_line;
use std::alloc::{AllocError, Global};
use test_kit::Clock;
use traffic::{Bot, NODES, Order, Party, Ways, Word};

/// What happens next.
#[derive(Clone, Copy, Debug)]
enum Next {
    Order,
    Flight(usize),
    Begin(usize),
    Turn(usize),
    Bot(usize),
    Stranger(usize),
    Nothing,
}

/// All processes of a match.
#[derive(Drop)]
pub(crate) struct World<'p, 'c> {
    alloc: Global,
    plan: &'p Plan,
    orders: &'p [Order],
    /// The next order.
    at: usize,
    now: u64,
    places: Vec<Place<'c>>,
    bots: Vec<Bot>,
    floods: Vec<Flood>,
    ways: Ways,
    is_done: bool,
    /// The trace that isn't printed yet.
    pub(crate) text: Vec<u8>,
}

impl<'p, 'c> World<'p, 'c> {
    /// All processes of a match, none of which has begun.
    pub(crate) fn new(
        alloc: Global,
        plan: &'p Plan,
        orders: &'p [Order],
        clocks: &'c [Clock],
    ) -> Result<World<'p, 'c>, AllocError> {
        let mut places = Vec::new(alloc);
        for clock in clocks {
            let number = places.len().min(NODES) as u8;
            if number < plan.nodes {
                let mut place = Place::new(alloc, clock, number, plan.nodes)?;
                place.dies = end_of(orders, number);
                places.push(place)?;
            }
        }
        Ok(World {
            alloc,
            plan,
            orders,
            at: 0,
            now: 0,
            places,
            bots: Vec::new(alloc),
            floods: Vec::new(alloc),
            ways: Ways::new(alloc),
            is_done: false,
            text: Vec::new(alloc),
        })
    }

    /// Whether the run has ended: by its script, or since the match is over at all nodes.
    pub(crate) fn is_done(&self) -> bool {
        self.is_done || self.places.iter().all(|place| place.is_over)
    }

    /// Tells a line of the trace: who did what, and when.
    fn tell(&mut self, moment: u64, who: Party, words: &str) -> Result<(), AllocError> {
        put_line(self.alloc, &mut self.text, moment, who, words)
    }

    /// What happens next, and when.
    fn next(&self) -> (u64, Next) {
        let (moment, next) = match self.orders.get(self.at) {
            Some(order) => (order.moment, Next::Order),
            None => (u64::MAX, Next::Nothing),
        };
        let (moment, next) = match self.ways.first() {
            Some((then, place)) if then < moment => (then, Next::Flight(place)),
            _ => (moment, next),
        };
        let (moment, next) = self.next_of_places(moment, next);
        let (moment, next) = self.next_of_bots(moment, next);
        self.next_of_floods(moment, next)
    }

    /// The first of these and of what processes do.
    fn next_of_places(&self, moment: u64, next: Next) -> (u64, Next) {
        let mut first = (moment, next);
        for (number, place) in self.places.iter().enumerate() {
            if place.begins < first.0 {
                first = (place.begins, Next::Begin(number));
            }
            if place.next < first.0 {
                first = (place.next, Next::Turn(number));
            }
        }
        first
    }

    /// The first of these and of what bots do.
    fn next_of_bots(&self, moment: u64, next: Next) -> (u64, Next) {
        let mut first = (moment, next);
        for (number, bot) in self.bots.iter().enumerate() {
            if bot.wake < first.0 {
                first = (bot.wake, Next::Bot(number));
            }
        }
        first
    }

    /// The first of these and of the strangers who flood ports.
    fn next_of_floods(&self, moment: u64, next: Next) -> (u64, Next) {
        let mut first = (moment, next);
        for (number, flood) in self.floods.iter().enumerate() {
            if flood.next() < first.0 {
                first = (flood.next(), Next::Stranger(number));
            }
        }
        first
    }

    /// One event. False where there is none any more.
    pub(crate) fn step(&mut self) -> Result<bool, AllocError> {
        let (moment, next) = self.next();
        self.now = self.now.max(moment);
        match next {
            Next::Nothing => return Ok(false),
            Next::Order => self.do_order()?,
            Next::Flight(place) => {
                if let Some(flight) = self.ways.take(place) {
                    self.arrive(flight)?;
                }
            }
            Next::Begin(node) => self.begin(node)?,
            Next::Turn(node) => self.turn(node)?,
            Next::Bot(bot) => self.wake_bot(bot)?,
            Next::Stranger(flood) => self.flood(flood)?,
        }
        Ok(true)
    }
}

/// When the process of a node dies next, by these orders.
fn end_of(orders: &[Order], node: u8) -> u64 {
    for order in orders {
        if matches!(order.word, Word::Kill | Word::Halt) && order.byte(0) == node {
            return order.moment;
        }
    }
    u64::MAX
}
