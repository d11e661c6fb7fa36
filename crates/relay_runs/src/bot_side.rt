//! The bot's side of a relay: it comes, says something, is written to, and goes.

ghost use Rattle.std.specs.Prelude.{◌≡◌};
ghost use Rattle.relay_runs.specs.Kept.{Keeps};

use crate::answering::Answering;
use crate::bot::Bot;
use crate::desk::BOT;
use crate::limits::{BACKLOG, PIECES};
use crate::notice::RelayNotice;
use crate::pieces::Unread;
use crate::saying::Saying;
use crate::server::RelayServer;
use crate::stop::Stop;
use node_wires::Wire;

#[tactic(auto, using(crate::proofs::Keeping::kept_on, crate::proofs::Keeping::kept_same, crate::proofs::Keeping::stays_on, crate::proofs::Keeping::stays_same, crate::proofs::Keeping::stays_kept))]
impl RelayServer {
    /// Takes in a bot where none is there.
    pub(crate) fn take_in<W: Wire>(&mut self, wire: &mut W) -> Result<(), Stop>
        ensures { Keeps self.old.desk self.new.desk (W.passed wire.old) (W.passed wire.new) }
    {
        if self.desk.has_bot() {
            return Ok(());
        }
        if !self.desk.take_in(wire)? {
            return Ok(());
        }
        self.bot = Bot::new();
        self.answering = Answering::new();
        let address = wire.source(BOT);
        self.note(RelayNotice::BotCame { address });
        Ok(())
    }

    /// Reads what came from the bot.
    pub(crate) fn hear_bot<W: Wire>(&mut self, wire: &mut W, now: u64) -> Result<(), Stop>
        ensures { Keeps self.old.desk self.new.desk (W.passed wire.old) (W.passed wire.new) }
    {
        if !self.desk.has_bot() {
            return Ok(());
        }
        for _ in 0..PIECES {
            if !self.read_bot(wire, now)? {
                return Ok(());
            }
        }
        self.has_more = true;
        Ok(())
    }

    /// Reads a piece that came from the bot. False where there is none, or the bot isn't there any more.
    fn read_bot<W: Wire>(&mut self, wire: &mut W, now: u64) -> Result<bool, Stop>
        ensures { Keeps self.old.desk self.new.desk (W.passed wire.old) (W.passed wire.new) }
    {
        match self.desk.read_bot(wire) {
            Ok(()) => self.take_bot_lines(wire, now),
            Err(Unread::Later) => Ok(false),
            Err(Unread::OutOfMemory) => Err(Stop::OutOfMemory),
            Err(Unread::Ended) => {
                self.leave_by_bot(wire, now)?;
                Ok(false)
            }
        }
    }

    /// The bot has ended its connection: what it said last may be its answer, which a node is told first.
    fn leave_by_bot<W: Wire>(&mut self, wire: &mut W, now: u64) -> Result<(), Stop>
        ensures { Keeps self.old.desk self.new.desk (W.passed wire.old) (W.passed wire.new) }
    {
        self.answer(now)?;
        self.write_to_nodes(wire, now);
        self.lose_bot(wire, now, Stop::BotLeft)
    }

    /// Takes the whole lines that came from the bot. False where the bot isn't there any more.
    fn take_bot_lines<W: Wire>(&mut self, wire: &mut W, now: u64) -> Result<bool, Stop>
        ensures { Keeps self.old.desk self.new.desk (W.passed wire.old) (W.passed wire.new) }
    {
        for _ in 0..u64::MAX {
            if !self.take_bot_line(wire, now)? {
                return Ok(self.desk.has_bot());
            }
        }
        Ok(true)
    }

    /// Takes the next line of the bot. False where no whole one is there, or the bot isn't any more.
    fn take_bot_line<W: Wire>(&mut self, wire: &mut W, now: u64) -> Result<bool, Stop>
        ensures { Keeps self.old.desk self.new.desk (W.passed wire.old) (W.passed wire.new) }
    {
        let saying = self.desk.take_saying()?;
        self.take_what(wire, saying, now)
    }

    /// Takes what the bot said. False where that is no whole line, or the bot isn't there any more.
    fn take_what<W: Wire>(&mut self, wire: &mut W, saying: Saying, now: u64) -> Result<bool, Stop>
        ensures { Keeps self.old.desk self.new.desk (W.passed wire.old) (W.passed wire.new) }
    {
        match saying {
            Saying::Nothing => Ok(false),
            Saying::Rest => Ok(true),
            Saying::TooLong => {
                self.bot.too_long = self.bot.too_long.saturating_add(1);
                Ok(true)
            }
            Saying::Comment(text) => {
                self.add_to_trace(now, b" FROM ", &text);
                Ok(true)
            }
            Saying::Version(text) => {
                self.add_to_trace(now, b" FROM ", &text);
                self.await_nodes(now);
                Ok(true)
            }
            Saying::WrongVersion(text) => {
                self.add_to_trace(now, b" FROM ", &text);
                self.lose_bot(wire, now, Stop::WrongVersion)?;
                Ok(false)
            }
            Saying::Said {
                text,
                instead,
                kept,
            } => {
                self.add_to_trace(now, b" FROM ", &text);
                self.note_said(text, instead, kept, now);
                Ok(true)
            }
        }
    }

    /// The bot has its seat: each node is dialled at once.
    fn await_nodes(&mut self, now: u64)
        ensures { self.new.desk ≡ self.old.desk }
    {
        for node in self.nodes.iter_mut() {
            node.await_dial(now);
        }
    }

    /// The bot said something: what was kept as its answer, or else was passed over.
    fn note_said(&mut self, text: Vec<u8>, instead: Option<Vec<u8>>, kept: bool, now: u64)
        ensures { self.new.desk ≡ self.old.desk }
    {
        if !kept {
            self.count_unfit();
            return;
        }
        self.answering.restart(now);
        if let Some(instead) = instead {
            self.note(RelayNotice::Mended {
                said: text,
                instead,
            });
        }
    }

    /// A line of the bot was passed over.
    fn count_unfit(&mut self)
        ensures { self.new.desk ≡ self.old.desk }
    {
        if self.bot.unfit == 0 {
            self.note(RelayNotice::Unfit);
        }
        self.bot.unfit = self.bot.unfit.saturating_add(1);
    }

    /// The bot's connection ends, and with it those to all nodes. Where a further bot is awaited the relay goes on.
    fn lose_bot<W: Wire>(&mut self, wire: &mut W, now: u64, stop: Stop) -> Result<(), Stop>
        ensures { Keeps self.old.desk self.new.desk (W.passed wire.old) (W.passed wire.new) }
    {
        self.note(RelayNotice::BotGone {
            unfit: self.bot.unfit,
            too_long: self.bot.too_long,
        });
        self.desk.let_go(wire);
        for node in 0..self.count {
            self.leave(wire, node, now);
        }
        if self.stays { Ok(()) } else { Err(stop) }
    }

    /// Writes what waits for the bot.
    pub(crate) fn write_to_bot<W: Wire>(&mut self, wire: &mut W, now: u64) -> Result<(), Stop>
        ensures { Keeps self.old.desk self.new.desk (W.passed wire.old) (W.passed wire.new) }
    {
        if !self.desk.has_bot() {
            return Ok(());
        }
        if !self.desk.write_to_bot(wire) {
            return self.lose_bot(wire, now, Stop::BotLeft);
        }
        if self.is_held && self.desk.backlog() < BACKLOG {
            self.has_more = true;
        }
        Ok(())
    }
}
