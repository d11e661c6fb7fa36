//! The orders of the script, as they come due.

use super::World;
use crate::flood::Flood;
use std::alloc::AllocError;
use traffic::{Order, Word};

impl<'p, 'c> World<'p, 'c> {
    /// Tells the next order, and does it.
    pub(super) fn do_order(&mut self) -> Result<(), AllocError> {
        let Some(order) = self.orders.get(self.at).copied() else {
            return Ok(());
        };
        self.at = self.at.saturating_add(1);
        self.tell_order(&order)?;
        self.carry_out(&order)
    }

    /// Tells an order.
    fn tell_order(&mut self, order: &Order) -> Result<(), AllocError> {
        let alloc = self.alloc;
        let name = order.word.name();
        let [first, second, third, fourth, fifth, sixth] = order.numbers;
        let moment = order.moment;
        let line = format!(in alloc;
            "{moment} - {name} {first} {second} {third} {fourth} {fifth} {sixth}\n"
        )?;
        self.text.extend_from_slice(line.as_bytes())
    }

    /// Does an order.
    fn carry_out(&mut self, order: &Order) -> Result<(), AllocError> {
        let bot = order.number(0).min(255) as usize;
        match order.word {
            Word::Bot => self.add_bot(order),
            Word::Think => {
                self.think(bot, order.number(1));
                Ok(())
            }
            Word::Leave => self.leave(bot, order.number(1)),
            Word::Hush => self.hush(bot),
            Word::Stranger => self.come(order),
            Word::Flood => {
                self.floods.push(Flood::new(self.alloc, order))?;
                Ok(())
            }
            Word::Store => self.change_store(order),
            Word::Close => self
                .ways
                .end_between(order.byte(0), order.byte(1), self.now),
            Word::Half => self.ways.end_half(order.byte(0), order.byte(1), self.now),
            Word::Kill => self.kill(order.byte(0) as usize, order.number(1), true),
            Word::Halt => self.kill(order.byte(0) as usize, order.number(1), false),
            Word::End => {
                self.is_done = true;
                self.tell_all_read()
            }
            Word::Delay | Word::Cut | Word::Heal => {
                self.change_way(order);
                Ok(())
            }
            Word::Start | Word::Sync | Word::Fail | Word::Pause | Word::Cost => {
                self.change_place(order);
                Ok(())
            }
        }
    }

    /// What the disk of a node keeps is replaced.
    fn change_store(&mut self, order: &Order) -> Result<(), AllocError> {
        let (alloc, nodes) = (self.alloc, self.plan.nodes);
        let next = order.byte(0).saturating_add(1);
        let next = if next < nodes { next } else { 0 };
        let other = match self.places.get(next as usize) {
            Some(place) => Vec::from_slice(alloc, &place.image)?,
            None => Vec::new(alloc),
        };
        match self.places.get_mut(order.byte(0) as usize) {
            Some(place) => place.change_store(alloc, nodes, order, other),
            None => Ok(()),
        }
    }

    /// Does an order on a way.
    fn change_way(&mut self, order: &Order) {
        let (from, to) = (order.byte(0), order.byte(1));
        match order.word {
            Word::Delay => self.ways.set_delay(from, to, order.number(2)),
            Word::Cut => self.ways.set_cut(from, to, true),
            Word::Heal => self.ways.set_cut(from, to, false),
            _ => {}
        }
    }

    /// Does an order on a node.
    fn change_place(&mut self, order: &Order) {
        let now = self.now;
        let number = order.number(1);
        let Some(place) = self.places.get_mut(order.byte(0) as usize) else {
            return;
        };
        match order.word {
            Word::Start => {
                place.is_over = false;
                place.begin_at(now);
            }
            Word::Sync => place.clock.set_sync(number),
            Word::Fail => place.clock.set_left(number),
            Word::Pause => place.pause(now.saturating_add(number)),
            Word::Cost => place.set_cost(number, order.number(2)),
            _ => {}
        }
    }
}
