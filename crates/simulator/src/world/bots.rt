//! The bots: when they come, dial and leave, and what they say.

use super::World;
use crate::plan::Plan;
use crate::telling::put_line_with;
use std::alloc::AllocError;
use traffic::{Bot, Habits, Load, Order, Party, Wish};

impl<'p, 'c> World<'p, 'c> {
    /// A bot comes: SEAT NODE THINKS MIX SEED HOW. Of HOW 1 says that it stays at its node, 2 that it shows another seat's token, 4
    /// that it asks for all lines, and 8 for the newest.
    pub(super) fn add_bot(&mut self, order: &Order) -> Result<(), AllocError> {
        let seat = order.byte(0);
        let token = if self.plan.has_tokens {
            let of = if order.number(5) & 2 == 2 {
                seat ^ 1
            } else {
                seat
            };
            Some(Plan::token_digit(of))
        } else {
            None
        };
        let habits = Habits {
            seat,
            thinks: order.number(2),
            mix: order.number(3),
            seed: order.number(4),
            stays: order.number(5) & 1 == 1,
            token,
            wish: wish_of(order.number(5)),
        };
        let bot = Bot::new(self.alloc, habits, order.byte(1), self.now);
        self.bots.push(bot)?;
        Ok(())
    }

    /// Something arrives at a bot.
    pub(super) fn arrive_at_bot(
        &mut self,
        at: usize,
        number: u32,
        load: Load,
    ) -> Result<(), AllocError> {
        let (alloc, now, nodes) = (self.alloc, self.now, self.plan.nodes);
        let Some(bot) = self.bots.get_mut(at) else {
            return Ok(());
        };
        if bot.connection != Some(number) {
            return match load {
                Load::Bytes { bytes: _ } => self.ways.send(number, false, now, Load::Break),
                _ => Ok(()),
            };
        }
        match load {
            Load::Dial { seat: _ } => Ok(()),
            Load::Answer => {
                let said = bot.open(alloc, now)?;
                self.say(at, number, said)
            }
            Load::Bytes { bytes } => {
                bot.hear(&bytes, now)?;
                self.make_room(number, Party::Bot(at), bytes.len());
                Ok(())
            }
            Load::End | Load::Break => {
                bot.lose(nodes, now);
                self.ways.close_of(number, Party::Bot(at), now)
            }
        }
    }

    /// A bot says this.
    fn say(&mut self, at: usize, number: u32, said: Vec<u8>) -> Result<(), AllocError> {
        let (alloc, now) = (self.alloc, self.now);
        let line = format!(in alloc; "say {number}")?;
        put_line_with(
            alloc,
            &mut self.text,
            (now, Party::Bot(at)),
            line.as_str(),
            &said,
        )?;
        self.ways
            .send_of(number, Party::Bot(at), now, Load::Bytes { bytes: said })
    }

    /// A bot does what it is to do now: dials, gives a dial up, or answers.
    pub(super) fn wake_bot(&mut self, at: usize) -> Result<(), AllocError> {
        let (alloc, now, nodes) = (self.alloc, self.now, self.plan.nodes);
        let Some(bot) = self.bots.get_mut(at) else {
            return Ok(());
        };
        let Some(number) = bot.connection else {
            return self.dial_of_bot(at);
        };
        if bot.is_stuck() {
            bot.lose(nodes, now);
            return self.ways.close_of(number, Party::Bot(at), now);
        }
        let said = bot.answer(alloc, now)?;
        self.say(at, number, said)
    }

    /// A bot dials.
    fn dial_of_bot(&mut self, at: usize) -> Result<(), AllocError> {
        let (alloc, now) = (self.alloc, self.now);
        let Some(bot) = self.bots.get_mut(at) else {
            return Ok(());
        };
        let (node, seat) = (bot.at, bot.habits.seat);
        let number = self.ways.connect(Party::Bot(at), Party::Node(node))?;
        bot.dial(number, now);
        let line = format!(in alloc; "dial {number} {node} {seat}")?;
        self.tell(now, Party::Bot(at), line.as_str())?;
        self.ways
            .send(number, false, now, Load::Dial { seat: Some(seat) })
    }

    /// A bot closes its connection, and comes again after so long.
    pub(super) fn leave(&mut self, at: usize, away: u64) -> Result<(), AllocError> {
        let (now, nodes) = (self.now, self.plan.nodes);
        let Some(bot) = self.bots.get_mut(at) else {
            return Ok(());
        };
        let connection = bot.connection;
        bot.lose(nodes, now);
        bot.wake = now.saturating_add(away);
        match connection {
            Some(number) => self.ways.close_of(number, Party::Bot(at), now),
            None => Ok(()),
        }
    }

    /// A bot closes the half of its connection by which it sends.
    pub(super) fn hush(&mut self, at: usize) -> Result<(), AllocError> {
        let now = self.now;
        let Some(bot) = self.bots.get_mut(at) else {
            return Ok(());
        };
        match bot.hush(now) {
            Some(number) => self.ways.end_half_of(number, Party::Bot(at), now),
            None => Ok(()),
        }
    }

    /// A bot thinks for so long from now on.
    pub(super) fn think(&mut self, at: usize, thinks: u64) {
        if let Some(bot) = self.bots.get_mut(at) {
            bot.habits.thinks = thinks;
        }
    }
}

/// What a bot asks for, by how it is.
fn wish_of(how: u64) -> Wish {
    if how & 4 == 4 {
        Wish::All
    } else if how & 8 == 8 {
        Wish::Newest
    } else {
        Wish::Nothing
    }
}
