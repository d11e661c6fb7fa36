//! What `--help` prints behind the arguments, in lines of at most 78 columns.

/// Of the program, behind its list of commands: where more is told.
pub(crate) const AFTER_HELP: &str = "\
holdem_table COMMAND --help lists what a command reads and answers.
docs/FAULTS.md says of each number that is printed what it means and what to
do about it.";

/// Of `hand`: a script's lines, the answers to them, the exit statuses, an example.
pub(crate) const AFTER_HAND_HELP: &str = "\
A script comes on standard input, one line after another:
  names A|B..   the first line, once: a name for each seat, in seat order. A
                name is 1 to 32 letters, digits, _ - and . and no two are
                the same
  deal CARDS    deals the next hand: two cards for each position with |
                between the positions, / the flop, / the turn, / the river,
                as TdAs|8hTc/2c8c3h/9c/Kh
  f             the player to act folds
  c             he calls, or checks
  r             he raises, in a limit game
  rN            he raises to N chips over the whole hand, in a no-limit game
  away          the default action for the player to act: fold when facing a
                bet, else check
Each line ends with LF; a last line without LF is ignored. Words are separated
by one space, and no line may be empty.

An answer is written before the next line is read:
  to names                     nothing; with --log the log's header
  to a deal or an action       SEAT LINE for each seat: what the seat sees
      that ends a hand         with --log then L STATE:.., and after the
                               last hand L SCORE:..
  to an action that the rules  E CODE Name, with the least amount behind 24
  of betting don't allow       RaiseTooSmall and the greatest behind 25
                               RaiseTooLarge; nothing changes
  to any other line            E 110 BadScript; nothing changes
With --log the word GAME stands in the log's header, so it must be 1 to 200
printable ASCII characters without space.

Exit status:
  0  all of the script was read, whatever was answered
  2  the command line is wrong, GAME can't be read or is refused, memory was
     refused, or standard input or output failed; standard error says which
docs/FAULTS.md says of each number what it means and what to do about it.

Example:
  printf 'names al|bo\\ndeal TdAs|8hTc/2c8c3h/9c/Kh\\nr\\nc\\n' > script
  holdem_table hand examples/l2.game < script";

/// Of `check`: a log's lines, what is said of it, the exit statuses, an example.
pub(crate) const AFTER_CHECK_HELP: &str = "\
A log is text in lines, each ended by LF, as `hand --log` prints it behind L:
  # name/game/hands NAME GAME HANDS        the header
  STATE:HAND:BETTING:CARDS:VALUES:NAMES    one for each hand, from hand 0 on
  SCORE:VALUES:NAMES                       what each seat won or lost in all

The answer on standard output is one line:
  yes                the log is that of a match of this game, played by the
                     rules to its end and paid to the last chip
  no LINE CODE Name  the first line at fault, counted from 1, and its fault:
      45 BadHeader    the header has another form
      46 BadState     a hand's line has another form, or tells what can't be
      47 WrongNumber  another hand's number is due, or a score for a hand, or
                      a hand for the score
      48 WrongValues  the hand pays otherwise
      49 WrongScore   the score is another or missing, or a line follows it

Exit status:
  0  yes
  1  no
  2  no answer: the command line is wrong, GAME is refused, GAME or LOG
     can't be read, memory was refused, or standard output failed; standard
     error says which
docs/FAULTS.md says of each number what it means and what to do about it.

Example:
  holdem_table hand --log examples/l2.game < script > played
  sed -n 's/^L //p' played > match.log
  holdem_table check examples/l2.game match.log";

/// Of `luck`: the lines, what luck is, the exit statuses, an example.
pub(crate) const AFTER_LUCK_HELP: &str = "\
A log is text in lines, as `check --help` tells. The answer on standard output
is a line for each hand and player, hands and positions in the log's order:
  HAND NAME PAYOFF LUCK/PARTS
PAYOFF is what the log says, in whole chips, and LUCK how far the cards of the
flop, the turn and the river moved what the player could expect, in parts of a
chip: with n players a chip has (49 - 2n)(48 - 2n) PARTS. LUCK is 0 in a hand
without a flop, and the luck of all players of a hand adds up to 0. Whatever
the players do, luck is 0 on average, so PAYOFF less LUCK tells skill with
fewer hands.

What a player can expect is the mean of the pots over all ways to complete the
board from the cards that nobody holds or held, with the chips that were in
and the players that were left when the street was dealt. Before the flop the
mean is taken over as many boards as there are PARTS; ChaCha20 draws them
under the SHA-256 of the whole log, at the stream of the hand's number.
Luck in hole cards isn't counted.

Exit status:
  0  all lines were written
  1  no: the log isn't right; then the only line is that of `check`
  2  no answer: the command line is wrong, GAME is refused, GAME or LOG
     can't be read, memory was refused, or standard output failed; standard
     error says which
docs/FAULTS.md says of each number what it means and what to do about it.

Example:
  holdem_table luck examples/l2.game match.log";

/// Of `init`: the match file's keys, what is made and may be thrown away, the exit statuses, an example.
pub(crate) const AFTER_INIT_HELP: &str = "\
MATCH is a match file: TOML with name, game, hands, names, a node table for
each of three, five or seven nodes, and stores, the folder of the stores. Its
paths go from the working folder; the game file is read too.

Made are the files match.kept, which says of which match the stores are, and
node0.journal, node1.journal and so on in that folder, each written and synced
before the next is made; then the folder is synced. The folder must be there.
Standard error has notes, one a line: each file that was made, keys of MATCH
that no command reads, and seeds below 2^55, which can be guessed. Stores,
nodeI.kept, the key and tokens can be read by their owner alone.

A store keeps what a node promised, so no store may be deleted while its match
is played. If init fails (63 Disk, 92 OutOfMemory) or is interrupted, no node
has used what it made: delete match.kept and node*.journal in that folder and
run it again.

With I the store of node I alone is made, for holdem_table node: first
nodeI.kept, which says whose store it is, and then nodeI.journal. For node 0
match.kept is made before them, unless it is there; copy it beside the stores
of the other nodes before you make those, else they are refused (104
Unreadable). If init fails or is interrupted, delete nodeI.kept and
nodeI.journal and run it again.

With --key FILE the key alone is made, for holdem_table node: 32 random bytes
as 64 hexadecimal digits in FILE. MATCH names it by key = \"FILE\", and each
machine gets a copy.

With --tokens DIR a token for each seat is made, for holdem_table node: 32
random bytes as 64 hexadecimal digits in DIR/NAME.token. Standard output gets
the line tokens = [..] for MATCH, with the SHA-256 of each.

With --seeds standard output gets a line seed = N for each node, and with
--same-seeds one for all: 2^55 to 2^63 - 1, drawn. Nothing is made. With one
seed for all the cards don't depend on which node leads, and whoever has one
machine's MATCH knows all of them.

Exit status:
  0  all was made, or printed
  2  the command line is wrong, MATCH is refused (100 NotToml, 101 BadEntry,
     102 Game), MATCH or the game can't be read (104 Unreadable), a store
     file, match.kept, FILE or a token is there already (103 StoreExists; then
     nothing was made or touched), match.kept is of another match (109
     OtherMatch), a file can't be made or written (63 Disk), standard output
     failed (107 StreamFailed), or memory was refused (92 OutOfMemory)
The last line of standard error says which; where a file is at fault, the line
before names it.
docs/OPERATING.md says how to set up a match, and what to do when it stands
still or has ended. docs/FAULTS.md says of each number what it means and what
to do about it.

Example:
  mkdir stores
  holdem_table init examples/three.toml";

/// Of `play`: the match file's keys, a script's lines, the answers to them, the exit statuses, an example.
pub(crate) const AFTER_PLAY_HELP: &str = "\
MATCH is a match file: TOML with name, game, hands, names, and a node table
for each of three, five or seven nodes. Its paths go from the working folder.
All nodes start over new stores in memory; what one sends to another stays on
its way until the script delivers it.

A script comes on standard input, one line after another. I is a node, S a
seat, K a frame, each counted from 0:
  tick I         node I starts a ballot: it campaigns to lead
  away I         orders, at node I, the default action for the player to act:
                 fold when facing a bet, else check
  deliver K      delivers frame K, again if it was delivered before
  flush N        delivers the oldest undelivered frame, up to N times
  connect I S    seat S connects to node I
  drop I S       its session at node I ends
  line I S TEXT  it sends TEXT and CR LF to node I
  stop I PICK    node I crashes; PICK chooses which unsynced writes survive
                 (0: none)
  start I        node I starts again, from its store
Each line ends with LF; a last line without LF is ignored. Words are separated
by one space.

An answer is written before the next line is read, of each event first the
frames, then lines of seats and logs, then faults:
  frame K I>J HEX    node I sends frame K, with these bytes, to node J
  I S LINE           what seat S gets from node I
  I L LINE           a line of node I's log
  I S E CODE Name    what is wrong with what the seat sent
  I E CODE Name      why node I did nothing, or went down
  E 110 BadScript    not a script line, or no such node, seat or frame

Exit status:
  0  all of the script was read, whatever was answered
  2  the command line is wrong, MATCH or its game can't be read or is
     refused, memory was refused, or standard input or output failed;
     standard error says which
docs/FAULTS.md says of each number what it means and what to do about it.

Example:
  printf 'connect 0 0\\nline 0 0 VERSION:2.0.0\\ntick 0\\nflush 99\\n' > script
  holdem_table play examples/three.toml < script";

/// Of `serve`: the match file's keys, ports and notes, the exit statuses, an example.
pub(crate) const AFTER_SERVE_HELP: &str = "\
MATCH is a match file: TOML with name, game, hands, names, a node table for
each of three, five or seven nodes, stores, logs, port, and perhaps outage and
away. Its paths go from the working folder. The stores must be there:
holdem_table init makes them. They are locked while serve runs, and match.kept
beside them must describe the same match. Stores that version 0.1 of this
program made are opened for this one, once and for good: copy them before.
Logs of earlier starts are renamed to node0.log.1 and so on, unless the newest
of these already contains the whole log.

Seat S is awaited at node I at port + I * (seats) + S on 127.0.0.1, first at
node 0. It names the version, and then answers each line on which it is to
act. If its connection ends or is refused, it dials the next node. With away =
\"play\" in MATCH, once a seat's connection was lost, the default action is
taken for it until serve ends, and its bot is refused: fold when facing a bet,
else check. Started again, serve resumes the match that the stores have, and
expects all seats.

Standard error has notes, one a line: ports, which seat is expected where,
which seat the match waits for, which seats were seated or disconnected, or
got the default action, faults in what seats sent, nodes stopped and started,
and at the end the score; before them seeds that can be guessed, and MATCH and
stores that others can read. With --times the time (UTC) stands before each.
Nothing is printed on standard output.

Exit status:
  0  the match is over
  1  a port can't be bound or a node not be reached (105 LinkFailed), a log is
     in use or can't be opened, kept, emptied or written (106 LogFailed), a
     store was refused, or failed again after its node was restarted (91
     Store), a node can't go on (93 Spent, 94 BadFrame, 95 Conflict), or
     memory was refused (92 OutOfMemory)
  2  the command line is wrong, MATCH is refused (100 NotToml, 101 BadEntry,
     102 Game), MATCH, its game, match.kept or a store can't be read (104
     Unreadable), a store is in use (108 StoreInUse), or the stores are of
     another match, or of nodes that run by node (109 OtherMatch)
The last line of standard error says which; where a port or a file is at
fault, the line before names it.
docs/OPERATING.md says how to set up a match, and what to do when it stands
still or has ended. docs/FAULTS.md says of each number what it means and what
to do about it.

Example:
  mkdir stores logs
  holdem_table init examples/three.toml
  holdem_table serve examples/three.toml";

/// Of `node`: the match file's keys, what is listened to, notes, the exit statuses, an example.
pub(crate) const AFTER_NODE_HELP: &str = "\
MATCH is a match file as of serve, with the same text on each machine but for
paths and addresses, and in each node's table
  peers = \"HOST:PORT\"   where the node awaits the others
  seats = \"HOST:PORT\"   where it awaits seat 0; seat S at the port S higher
  status = \"HOST:PORT\"  perhaps: who connects gets a line on how it is
  from = [\"HOST\", ..]   perhaps: other addresses from which it dials
Above the tables may stand
  key = \"FILE\"          file with the shared key that authenticates and
                        encrypts traffic between nodes; init MATCH --key FILE
                        makes it, and each machine has a copy. Without it
                        hosts must be addresses of this machine or of a
                        private network
  tokens = [\"HEX\", ..]  the SHA-256 of each seat's token; then a bot's first
                        line is #TOKEN and its token, 64 hexadecimal digits.
                        Without them whoever reaches a seat's port has it;
                        init MATCH --tokens DIR makes them
  patience = S          action timeout in seconds, a number or a text such as
                        \"2.5\"; after it the default action is taken for the
                        seat
  start = S             how long a seat that never came is waited for: 600
                        seconds, if it isn't given
  away = \"wait\"         a seat at which nobody is gets all of patience each
                        time; else it is soon given up
port and outage are for serve only, and ignored.

Each node runs in a process of its own, on the machine of its store, which
holdem_table init MATCH I makes: first that of node 0, which makes match.kept
too, then, with a copy of match.kept beside, those of the others. The match
goes on while more than half of the nodes run. A process that was ended, in
whatever way, is started again by the same command. A bot may dial any node,
and dials another one where its connection ends.

Standard error has notes, one a line: that no key or tokens are named, a seed
that can be guessed, MATCH, the store and files beside it that others can
read, where the status is, which node of which match starts, which peers are
connected or disconnected, in what their match files differ, faults of
connections, whether more than half of the nodes are connected, when this one
campaigns, which seats never came, were seated or disconnected, came with a
wrong token, or got the default action; with --times the time (UTC) stands
before each. Nothing is printed on standard output.

With --look it reads what a start reads, each record of the store too, but for
its ports, which it leaves alone. It changes nothing, and ends as that start
would, with the same last line; with status 0 where nothing is wrong, and with
108 StoreInUse where the node runs.

Exit status:
  0  the match is over, and the other nodes know it
  1  a port can't be bound (105 LinkFailed), the log is in use or can't be
     opened, kept, emptied or written (106 LogFailed), or memory was refused
     (92 OutOfMemory)
  2  the command line is wrong, MATCH or its key is refused (100 NotToml, 101
     BadEntry, 102 Game), MATCH, its game, match.kept or the store can't be
     read or isn't there (104 Unreadable), the store is in use (108
     StoreInUse), what lies beside the store is of another match, node or
     source of deals (109 OtherMatch), a peer knows another store of this node
     (127 StoreReplaced), or the store is an older copy (130 StoreOlder)
  3  the store was refused or failed (91 Store), the log would contradict one
     of an earlier start (129 LogDiffers), or two commands were chosen for one
     slot (95 Conflict): check the disk, and restart the machine before you
     start the node again
The last line of standard error says which; where an address or a file is at
fault, the line before names it.
docs/OPERATING-NODES.md says how to set up a match on three machines, and what
to do when it stands still. docs/FAULTS.md says of each number what it means
and what to do about it.

Example, on the machine of node 1:
  holdem_table init match.toml 1
  holdem_table node match.toml 1";

/// Of `relay`: what it does, what it prints, the exit statuses.
pub(crate) const AFTER_RELAY_HELP: &str = "\
Takes one connection of a bot at its port, sits for it at all nodes at once,
and gives it each line of the dealer once and in order, whichever node tells
it first. An answer goes to one node, and to another where no line follows.

The bot gets all lines from the first deal on, also where it starts late; with
--newest, and with --stay each further bot, those from the newest on. After a
loss of all nodes it goes on behind its last line once they are back.

HOST:PORT is where the seat is at a node of `node`, an IP address and a port;
never give those of `serve`.

The first line of standard output is the number of its port. With --trace
each line to and from the bot is written with its time, SECONDS.MICROS TO LINE
or SECONDS.MICROS FROM LINE; what nobody takes of it is dropped and counted.
Notes go to standard error: who came, each mended action, nodes that were
lost, the end.

With --mend an answer that the dealer would refuse is replaced, as the
competition's dealer does: a raise by the nearest end of its range, anything
else by a call. A note says so.

Exit status:
  0  the match is over, and the bot has all its lines
  1  the bot left or named no version 2.0, no node was reached, each node has
     had another match for ten seconds, or the port can't be had
  2  the command line is wrong, or a file that it names";
