//! `relay`: stands between a bot that dials once and the nodes of a match.

use crate::notes::Notes;
use crate::relay_notes::{put_counts, put_notice};
use clap::ArgMatches;
use game_def::GameDef;
use libc::net::{POLLOUT, poll};
use libc::types::pollfd;
use node_wires::{BindFault, TcpWire, Wire};
use operator_notes::Cause;
use relay_runs::{RelayEnd, RelayServer, Terms};
use std::alloc::AllocError;
use std::fs::File;
use std::io::{ErrorKind, Write};
use std::net::SocketAddr;
use std::process::ExitCode;
use std::time::{SystemTime, UNIX_EPOCH};
use std::{fs, io};

/// The number of standard output.
const OUTPUT: i32 = 1;

/// So many bytes of the trace are written at once: a pipe that takes any takes as many.
const AT_ONCE: usize = 4096;

/// Two readings of clocks that are so many microseconds apart are of one moment.
const NEAR: u64 = 50;

/// What is expected of a word or a file.
#[derive(Clone, Copy)]
enum Expected {
    /// Of a word that names a node.
    Node,
    /// Of a word that names where the bot is awaited.
    Local,
    /// Of a file that is read.
    Readable,
    /// Of a file that is written.
    Writable,
    /// Of the file that has a token.
    Token,
    /// Of the file that has a game.
    Game,
}

impl Expected {
    /// In words.
    fn text(self) -> &'static str {
        match self {
            Expected::Node => "expected ADDRESS:PORT of a node's seat, as 127.0.0.1:7000",
            Expected::Local => "expected an address of this machine",
            Expected::Readable => "can't be read",
            Expected::Writable => "can't be written",
            Expected::Token => "expected a token on the first line",
            Expected::Game => "not a game file",
        }
    }
}

/// Why what a word names can't be had.
#[derive(Clone, Copy)]
enum Missing {
    /// It isn't what is expected.
    Not(Expected),
    /// Memory was refused.
    Memory,
}

impl Missing {
    /// As what is wrong with a word.
    fn of(self, word: &str) -> Wrong<'_> {
        match self {
            Missing::Not(expected) => Wrong::Word { word, expected },
            Missing::Memory => Wrong::OutOfMemory,
        }
    }
}

/// What is wrong before a relay begins.
#[derive(Clone, Copy)]
enum Wrong<'a> {
    /// A word, or the file that it names, isn't what is expected.
    Word { word: &'a str, expected: Expected },
    /// The local port can't be had.
    Port,
    /// Standard output failed.
    Output,
    /// Memory was refused.
    OutOfMemory,
}

impl From<AllocError> for Wrong<'_> {
    fn from(_: AllocError) -> Self {
        Wrong::OutOfMemory
    }
}

impl Wrong<'_> {
    /// The exit status.
    fn status(self) -> u8 {
        match self {
            Wrong::Word { .. } => 2,
            Wrong::Port | Wrong::Output | Wrong::OutOfMemory => 1,
        }
    }
}

/// Where the trace is written.
#[derive(Drop)]
enum TraceEnd {
    Nowhere,
    Output,
    File(File),
}

/// Runs a relay until its bot has left or the match is over, and answers the exit status: 0 where the match is over, 1 where the
/// bot left, no node was reached or the nodes have another match, 2 for wrong words or files.
pub(crate) fn relay(rt: &HostRuntime, matches: &ArgMatches<'_>) -> ExitCode {
    let Some((_, matches)) = matches.subcommand() else {
        return ExitCode::from(2);
    };
    let mut notes = Notes::new(rt, matches.get_flag("times"));
    match run(rt, matches, &mut notes) {
        Ok(end) => {
            tell(rt, &mut notes, end.text());
            ExitCode::from(end.status())
        }
        Err(wrong) => {
            tell_wrong(rt, &mut notes, wrong);
            ExitCode::from(wrong.status())
        }
    }
}

/// Tells a text on a line of its own.
fn tell(rt: &HostRuntime, notes: &mut Notes<'_>, text: &str) {
    if let Ok(line) = format!(in rt.alloc(); "{text}\n") {
        let _ = notes.write_all(line.as_bytes());
    }
}

/// Tells what is wrong.
fn tell_wrong(rt: &HostRuntime, notes: &mut Notes<'_>, wrong: Wrong<'_>) {
    let text = match wrong {
        Wrong::Word { word, expected } => { format!(in rt.alloc(); "{word}: {}", expected.text()) }
        Wrong::Port => format!(in rt.alloc(); "105 LinkFailed: the local port can't be had"),
        Wrong::Output => format!(in rt.alloc(); "standard output failed"),
        Wrong::OutOfMemory => format!(in rt.alloc(); "92 OutOfMemory"),
    };
    if let Ok(text) = text {
        tell(rt, notes, text.as_str());
    }
}

/// Why a relay doesn't begin whose port can't be bound; a note names its address.
fn unbound<'a>(rt: &HostRuntime, fault: BindFault, notes: &mut Notes<'_>) -> Wrong<'a> {
    match fault {
        BindFault::OutOfMemory => Wrong::OutOfMemory,
        BindFault::Failed { kind: _ } => Wrong::Port,
        BindFault::Port { address, kind } => match format!(in rt.alloc(); "{address}") {
            Ok(text) => {
                notes.tell_file(text.as_str(), Cause::of(kind));
                Wrong::Port
            }
            Err(_) => Wrong::OutOfMemory,
        },
    }
}

/// The words in their places, and what stands in the files that they name.
fn run<'a>(
    rt: &HostRuntime,
    matches: &ArgMatches<'a>,
    notes: &mut Notes<'_>,
) -> Result<RelayEnd, Wrong<'a>> {
    let nodes = nodes_of(rt, matches)?;
    let bot = bot_of(rt, matches)?;
    let token = token_of(rt, matches)?;
    let mended = match matches.get_str("mend") {
        None => None,
        Some(path) => match game_at(rt, path) {
            Ok(game) => Some(game),
            Err(missing) => return Err(missing.of(path)),
        },
    };
    let count = nodes.len().min(u8::MAX as usize) as u8;
    let mut wire = match TcpWire::bind_bot(rt, nodes, bot) {
        Ok(wire) => wire,
        Err(fault) => return Err(unbound(rt, fault, notes)),
    };
    let mut trace = trace_of(rt, matches)?;
    let terms = Terms {
        nodes: count,
        token,
        mended,
        newest: matches.get_flag("newest"),
        stays: matches.get_flag("stay"),
        give_up: (number(matches, "give-up", 600) as u64).saturating_mul(1_000_000),
        traces: match trace {
            TraceEnd::Nowhere => false,
            _ => true,
        },
        epoch: beginning(rt, &mut wire),
    };
    let mut server = RelayServer::new(rt.alloc(), terms)?;
    tell_port(rt, &wire)?;
    let end = serve(rt, &mut server, &mut wire, &mut trace, notes);
    server.drop_trace();
    let mut line = Vec::new(rt.alloc());
    if put_counts(rt.alloc(), &mut line, &server, count).is_ok() {
        let _ = notes.write_all(&line);
    }
    Ok(end)
}

/// Runs its turns, more than any relay lives to see.
fn serve(
    rt: &HostRuntime,
    server: &mut RelayServer,
    wire: &mut TcpWire<'_>,
    trace: &mut TraceEnd,
    notes: &mut Notes<'_>,
) -> RelayEnd {
    for _ in 0..u64::MAX {
        let end = server.turn(wire);
        tell_notices(rt, server, notes);
        write_trace(rt, server, trace);
        if let Some(end) = end {
            return end;
        }
    }
    RelayEnd::NotReached
}

/// Writes what there is to tell. Without memory for it a note is left out.
fn tell_notices(rt: &HostRuntime, server: &mut RelayServer, notes: &mut Notes<'_>) {
    for notice in server.take_notices() {
        let mut line = Vec::new(rt.alloc());
        if put_notice(rt.alloc(), &mut line, &notice).is_ok() {
            let _ = notes.write_all(&line);
        }
    }
}

/// Writes what waits of the trace, as much as is taken at once: nobody has to read it. What can't be written is dropped, and
/// counted.
fn write_trace(rt: &HostRuntime, server: &mut RelayServer, trace: &mut TraceEnd) {
    for _ in 0..u64::MAX {
        let text = server.trace();
        if text.is_empty() || !is_ready(trace) {
            return;
        }
        let count = text.len().min(AT_ONCE);
        if write_piece(rt, trace, &text[..count]).is_err() {
            server.drop_trace();
            return;
        }
        server.skip_trace(count);
    }
}

/// Writes a piece of the trace.
fn write_piece(rt: &HostRuntime, trace: &mut TraceEnd, piece: &[u8]) -> io::Result<()> {
    match trace {
        TraceEnd::Nowhere => Ok(()),
        TraceEnd::Output => rt.stdout().write_all(piece),
        TraceEnd::File(file) => file.write_all(piece),
    }
}

/// Whether a piece of the trace can be written without a wait. A file takes it at any time; standard output, which may be a
/// pipe, where somebody reads.
fn is_ready(trace: &TraceEnd) -> bool {
    match trace {
        TraceEnd::Output => {
            let mut asked = [pollfd {
                fd: OUTPUT,
                events: POLLOUT,
                revents: 0,
            }];
            poll(&mut asked, 0) != 0
        }
        TraceEnd::Nowhere | TraceEnd::File(_) => true,
    }
}

/// The first line of standard output: the local port's number.
fn tell_port<'a>(rt: &HostRuntime, wire: &TcpWire<'_>) -> Result<(), Wrong<'a>> {
    let Some(address) = wire.seat_address(0) else {
        return Err(Wrong::Port);
    };
    let port = address.port();
    let line = format!(in rt.alloc(); "{port}\n")?;
    let mut output = rt.stdout();
    if output.write_all(line.as_bytes()).is_err() || output.flush().is_err() {
        return Err(Wrong::Output);
    }
    Ok(())
}

/// How many microseconds after the beginning of 1970 the wires' moment 0 was. Two clocks are read one after the other: again
/// where too much time has passed between, a few times.
fn beginning(rt: &HostRuntime, wire: &mut TcpWire<'_>) -> u64 {
    let mut found = 0;
    for _ in 0..100 {
        let before = wire.now();
        let epoch = epoch(rt);
        let after = wire.now();
        found = epoch.saturating_sub(after);
        if after.saturating_sub(before) < NEAR {
            return found;
        }
    }
    found
}

/// The microseconds since the beginning of 1970.
fn epoch(rt: &HostRuntime) -> u64 {
    let Ok(now) = SystemTime::now(rt) else {
        return 0;
    };
    match now.duration_since(UNIX_EPOCH) {
        Ok(since) => since
            .as_secs()
            .saturating_mul(1_000_000)
            .saturating_add(since.subsec_micros() as u64),
        Err(_) => 0,
    }
}

/// A number of the command line.
fn number(matches: &ArgMatches<'_>, id: &str, otherwise: u32) -> u32 {
    match matches.get_one::<u32>(id) {
        Some(number) => number,
        None => otherwise,
    }
}

/// The addresses of the nodes.
fn nodes_of<'a>(rt: &HostRuntime, matches: &ArgMatches<'a>) -> Result<Vec<SocketAddr>, Wrong<'a>> {
    let mut nodes = Vec::new(rt.alloc());
    let Some(words) = matches.get_strs("nodes") else {
        return Ok(nodes);
    };
    for word in words {
        match SocketAddr::parse_ascii(word.as_bytes()) {
            Ok(address) => {
                nodes.reserve(1)?;
                nodes.push_reserved(address);
            }
            Err(_) => {
                return Err(Wrong::Word {
                    word: *word,
                    expected: Expected::Node,
                });
            }
        }
    }
    Ok(nodes)
}

/// Where the bot is awaited.
fn bot_of<'a>(rt: &HostRuntime, matches: &ArgMatches<'a>) -> Result<SocketAddr, Wrong<'a>> {
    let listen = match matches.get_str("listen") {
        Some(listen) => listen,
        None => "127.0.0.1",
    };
    let port = number(matches, "port", 0);
    let text = format!(in rt.alloc(); "{listen}:{port}")?;
    match SocketAddr::parse_ascii(text.as_bytes()) {
        Ok(address) => Ok(address),
        Err(_) => Err(Wrong::Word {
            word: listen,
            expected: Expected::Local,
        }),
    }
}

/// What is in a file.
fn read_file(rt: &HostRuntime, path: &str) -> Result<Vec<u8>, Missing> {
    match fs::read(rt, path) {
        Ok(text) => Ok(text),
        Err(fault) => Err(why_missing(fault.kind(), Expected::Readable)),
    }
}

/// Why a file can't be had.
fn why_missing(kind: ErrorKind, expected: Expected) -> Missing {
    match kind {
        ErrorKind::OutOfMemory => Missing::Memory,
        _ => Missing::Not(expected),
    }
}

/// The token in its file, where one is named.
fn token_of<'a>(rt: &HostRuntime, matches: &ArgMatches<'a>) -> Result<Option<Vec<u8>>, Wrong<'a>> {
    let Some(path) = matches.get_str("token-file") else {
        return Ok(None);
    };
    let text = match read_file(rt, path) {
        Ok(text) => text,
        Err(missing) => return Err(missing.of(path)),
    };
    let word = first_word(&text);
    if word.is_empty() || word.len() > 200 {
        return Err(Wrong::Word {
            word: path,
            expected: Expected::Token,
        });
    }
    Ok(Some(Vec::from_slice(rt.alloc(), word)?))
}

/// The first line, as far as it is printable and without spaces.
fn first_word(text: &[u8]) -> &[u8] {
    for (place, byte) in text.iter().enumerate() {
        if *byte <= 32 || *byte >= 127 {
            return &text[..place];
        }
    }
    text
}

/// The game in a file.
fn game_at(rt: &HostRuntime, path: &str) -> Result<GameDef, Missing> {
    let text = read_file(rt, path)?;
    match game_def::read(&text) {
        Ok(game) => Ok(game),
        Err(_) => Err(Missing::Not(Expected::Game)),
    }
}

/// Where the trace is to be written.
fn trace_of<'a>(rt: &HostRuntime, matches: &ArgMatches<'a>) -> Result<TraceEnd, Wrong<'a>> {
    match matches.get_str("trace") {
        None => Ok(TraceEnd::Nowhere),
        Some("-") => Ok(TraceEnd::Output),
        Some(path) => match File::create(rt, path) {
            Ok(file) => Ok(TraceEnd::File(file)),
            Err(fault) => Err(why_missing(fault.kind(), Expected::Writable).of(path)),
        },
    }
}
