ghost use Rattle.std.specs.Prelude.{◌≡◌, ℕ, List, [], ◌∷◌, ◌++◌, ◌≤◌, ◌<◌, length, IsSome, IsNone, IfSome, IfNone, OnOk, codes, take};
ghost use Rattle.std.specs.Option.{ForSome};
ghost use Rattle.matchstate.specs.Line.{newest_text};
ghost use Rattle.betting.specs.Fault.{fault_text};
ghost use Rattle.slot_log.specs.declared.command.Command.{Command as Order};
ghost use Rattle.streamed.specs.Names.{IsNamesLine};
ghost use Rattle.streamed.specs.Further.{printed, printed_header};
ghost use Rattle.streamed.specs.Answer.{Says, ComesInTurn, lines_for, line_for, refusal, bad_script};

use crate::game_word::GameWord;
use crate::script_line::ScriptLine;
use betting::ActFault;
use game_def::GameDef;
use itoa::Buffer;
use match_log::{SeatNames, further_lines, header, put_fronted};
use matchstate::{BettingText, read_action, read_deal, seat_line};
use slot_log::{Command, Effect, Reason, Table};
use std::alloc::{AllocError, Global};
use std::io::Write;

/// A match that a script tells: its table, the seats' names once they are told, the word for its game where
/// the log is printed, and room for the log's next lines.
#[derive(Drop)]
pub(crate) struct Dealing<'a> {
    pub(crate) table: Table,
    pub(crate) names: Option<SeatNames>,
    pub(crate) log: Option<GameWord<'a>>,
    pub(crate) further: Vec<u8>,
    ghost seated: { ForSome names (λ told. length told ≡ table.game.players) },
}

impl<'a> Dealing<'a> {
    ghost use Rattle.streamed.specs.Running.{Stands};
    ghost use Rattle.streamed.specs.Taking.{TellsIt, TellsNoDeal, TellsNoAct, TellsNoAway, TakesIt, AnswersIt, IsSameMatch, further_of};

    /// A match of so many hands, 1 to 10000, before the script's first line. With a word for its game the
    /// log is printed.
    pub(crate) fn new(
        alloc: Global,
        game: GameDef,
        log: Option<GameWord<'a>>,
        hands: u32,
    ) -> Dealing<'a>
        requires least { 1 ≤ hands }
        requires most { hands ≤ 10000 }
        ensures { Stands game hands log.entry [] result }
    {
        Dealing {
            table: Table::new(alloc, game, hands),
            names: None,
            log,
            further: Vec::new(alloc),
        }
    }

    /// What a line says after the lines so far, by its first 336 bytes: no right line is longer than 335.
    pub(crate) fn read(&self, front: &[u8]) -> ScriptLine
        ensures says { (line : List ℕ) → front.now ≡ take 336 line → Says self.now.table.game self.now.names self.now.table.hands line result }
        ensures in_turn { ComesInTurn self.now.table.game.players self.now.names result }
    {
        self.table.game().limits();
        self.read_line(front)
    }

    /// What a line says after the lines so far.
    fn read_line(&self, line: &[u8]) -> ScriptLine
        ensures { Says self.now.table.game self.now.names self.now.table.hands line.now result }
    {
        if self.names.is_some() {
            match self.read_command(line) {
                Some(command) => ScriptLine::Told(command),
                None => ScriptLine::Bad,
            }
        } else {
            match self.read_names(line) {
                Some(names) => ScriptLine::Names(names),
                None => ScriptLine::Bad,
            }
        }
    }

    /// The names that a line tells.
    fn read_names(&self, line: &[u8]) -> Option<SeatNames>
        ensures found { IfSome result (λ names. IsNamesLine self.now.table.game.players names line.now) }
        ensures none { IfNone result ((names : List (List ℕ)) → ¬ (IsNamesLine self.now.table.game.players names line.now)) }
    {
        self.table.game().limits();
        let text = line.strip_prefix(b"names ")?;
        SeatNames::read(text, self.table.game().players())
    }

    /// What a line tells the dealer.
    fn read_command(&self, line: &[u8]) -> Option<Command>
        ensures found { IfSome result (TellsIt self.now line.now) }
        ensures none { IfNone result ((command : Order) → ¬ (TellsIt self.now line.now command)) }
    {
        match self.read_new_deal(line) {
            Some(command) => Some(command),
            None => self.read_turn(line),
        }
    }

    /// What a line tells for the player to act of the newest hand.
    fn read_turn(&self, line: &[u8]) -> Option<Command>
        ensures found { IfSome result (TellsIt self.now line.now) }
        ensures no_act { IfNone result (TellsNoAct self.now line.now) }
        ensures no_away { IfNone result (TellsNoAway self.now line.now) }
    {
        match self.read_away(line) {
            Some(command) => Some(command),
            None => self.read_act(line),
        }
    }

    /// The next hand's deal.
    fn read_new_deal(&self, line: &[u8]) -> Option<Command>
        ensures found { IfSome result (TellsIt self.now line.now) }
        ensures none { IfNone result (TellsNoDeal self.now line.now) }
    {
        let text = line.strip_prefix(b"deal ")?;
        let deal = read_deal(text, self.table.game().players())?;
        Some(Command::Deal {
            hand: self.table.finished(),
            deal,
        })
    }

    /// That the player to act of the newest hand is played for.
    fn read_away(&self, line: &[u8]) -> Option<Command>
        ensures found { IfSome result (TellsIt self.now line.now) }
        ensures none { IfNone result (TellsNoAway self.now line.now) }
    {
        match line {
            b"away" => self.next_away(),
            _ => None,
        }
    }

    /// The command by which the player to act of the newest hand is played for; none before the first deal.
    fn next_away(&self) -> Option<Command>
        ensures found { IfSome result (TellsIt self.now (codes "away")) }
        ensures none { IfNone result (length self.now.table.hands ≡ 0) }
    {
        let hand = self.table.dealt().checked_sub(1)?;
        let play = self.table.play(hand)?;
        let actions = play.actions().len() as u16;
        Some(Command::Away {
            hand,
            index: actions,
        })
    }

    /// The next action of the newest hand.
    fn read_act(&self, line: &[u8]) -> Option<Command>
        ensures found { IfSome result (TellsIt self.now line.now) }
        ensures none { IfNone result (TellsNoAct self.now line.now) }
    {
        let hand = self.table.dealt().checked_sub(1)?;
        let play = self.table.play(hand)?;
        let action = read_action(line, play)?;
        Some(Command::Act {
            hand,
            index: play.actions().len() as u16,
            action,
        })
    }

    /// Takes what a line says, and appends the answer to it. An `Err` comes where memory was refused.
    pub(crate) fn take_line(
        &mut self,
        said: ScriptLine,
        out: &mut Vec<u8>,
    ) -> Result<(), AllocError>
        requires { ComesInTurn self.old.table.game.players self.old.names said }
        ensures stands { OnOk result (TakesIt said self.old self.new) }
        ensures answered { OnOk result (AnswersIt said self.old out.old.items out.new.items) }
    {
        match said {
            ScriptLine::Names(names) => self.take_names(names, out),
            ScriptLine::Told(command) => self.take_command(&command, out),
            ScriptLine::Bad => put_bad_script(out),
        }
    }

    /// Takes the seats' names, and appends the log's header where the log is printed.
    fn take_names(&mut self, names: SeatNames, out: &mut Vec<u8>) -> Result<(), AllocError>
        requires first { IsNone self.old.names }
        requires seated { length names ≡ self.old.table.game.players }
        ensures stands { TakesIt (ScriptLine.Names names) self.old self.new }
        ensures answered { OnOk result (AnswersIt (ScriptLine.Names names) self.old out.old.items out.new.items) }
    {
        self.names = Some(names);
        self.put_header(out)
    }

    /// Appends the log's header where the log is printed.
    fn put_header(&mut self, out: &mut Vec<u8>) -> Result<(), AllocError>
        ensures same { IsSameMatch self.old self.new }
        ensures some { 1 ≤ self.old.table.count }
        ensures ok { OnOk result (out.new.items ≡ out.old.items ++ printed_header self.old.log self.old.table.count) }
    {
        let hands = self.table.hands();
        match &self.log {
            Some(word) => {
                self.further.clear();
                header(&mut self.further, b"hand", word.as_bytes(), hands)?;
                put_fronted(out, b"L ", &self.further)
            }
            None => Ok(()),
        }
    }

    /// Takes a command, and appends the answer to it.
    fn take_command(&mut self, command: &Command, out: &mut Vec<u8>) -> Result<(), AllocError>
        requires { IsSome self.old.names }
        ensures stands { OnOk result (TakesIt (ScriptLine.Told command.now) self.old self.new) }
        ensures answered { OnOk result (AnswersIt (ScriptLine.Told command.now) self.old out.old.items out.new.items) }
    {
        match self.table.apply(command)? {
            Effect::None(reason) => put_refusal(out, reason),
            _ => self.put_effect(out),
        }
    }

    /// Appends each seat's line, and the log's further lines where the log is printed.
    fn put_effect(&mut self, out: &mut Vec<u8>) -> Result<(), AllocError>
        ensures same { IsSameMatch self.old self.new }
        ensures ok { OnOk result (out.new.items ≡ out.old.items ++ (lines_for self.old.table.game self.old.table.hands ++ printed self.old.log (further_of self.old))) }
    {
        self.put_lines(out)?;
        self.put_further(out)
    }

    /// Appends the log's further lines where the log is printed.
    fn put_further(&mut self, out: &mut Vec<u8>) -> Result<(), AllocError>
        ensures same { IsSameMatch self.old self.new }
        ensures ok { OnOk result (out.new.items ≡ out.old.items ++ printed self.old.log (further_of self.old)) }
    {
        if self.log.is_none() {
            return Ok(());
        }
        self.write_further()?;
        put_fronted(out, b"L ", &self.further)
    }

    /// Writes the log's further lines after a command that took effect: none while a hand runs.
    fn write_further(&mut self) -> Result<(), AllocError>
        ensures same { IsSameMatch self.old self.new }
        ensures ok { OnOk result (self.new.further.items ≡ further_of self.old) }
    {
        self.further.clear();
        let Some(names) = &self.names else {
            return Ok(());
        };
        further_lines(&mut self.further, &self.table, names)
    }

    /// Appends each seat's line.
    fn put_lines(&self, out: &mut Vec<u8>) -> Result<(), AllocError>
        ensures { OnOk result (out.new.items ≡ out.old.items ++ lines_for self.now.table.game self.now.table.hands) }
    {
        let betting = BettingText::newest(&self.table);
        for seat in 0..self.table.game().players() {
            self.put_line(seat, &betting, out)?;
        }
        Ok(())
    }

    /// Appends a seat's line, by the betting text of the newest hand.
    fn put_line(
        &self,
        seat: usize,
        betting: &BettingText,
        out: &mut Vec<u8>,
    ) -> Result<(), AllocError>
        requires seat { seat < self.now.table.game.players }
        requires betting { betting.now ≡ newest_text self.now.table.game self.now.table.hands }
        ensures { OnOk result (out.new.items ≡ out.old.items ++ line_for self.now.table.game self.now.table.hands seat) }
    {
        out.extend_from_slice(Buffer::new().format(seat).as_bytes())?;
        out.extend_from_slice(b" ")?;
        seat_line(out, &self.table, seat, betting)?;
        out.extend_from_slice(b"\n")
    }
}

/// Appends why a command does nothing.
fn put_refusal(out: &mut Vec<u8>, reason: Reason) -> Result<(), AllocError>
    ensures { OnOk result (out.new.items ≡ out.old.items ++ refusal reason) }
{
    match reason {
        Reason::Illegal(fault) => put_fault(out, fault),
        _ => put_bad_script(out),
    }
}

/// Appends why an action isn't allowed.
fn put_fault(out: &mut Vec<u8>, fault: ActFault) -> Result<(), AllocError>
    ensures { OnOk result (out.new.items ≡ out.old.items ++ (codes "E " ++ fault_text fault ++ 10 ∷ [])) }
{
    match writeln!(out, "E {fault}") {
        Ok(()) => Ok(()),
        Err(_) => Err(AllocError),
    }
}

/// Appends that a line is none of a script.
fn put_bad_script(out: &mut Vec<u8>) -> Result<(), AllocError>
    ensures { OnOk result (out.new.items ≡ out.old.items ++ bad_script) }
{
    out.extend_from_slice(b"E 110 BadScript\n")
}
