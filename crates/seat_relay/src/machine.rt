ghost use Rattle.std.specs.Prelude.{◌≡◌, ℕ, List, map, slice_set, Some, None, option_map, IfOk, OnOk, OnErr};
ghost use Rattle.seat_relay.specs.MachineInside.{line_of};
ghost use Rattle.seat_relay.specs.Relaying.{with_place, fallen, risen, heard, unsaid, link_at, is_even, has_told, is_echo, echoes, stands, is_kept, is_news, is_again, may_begin, is_taken, is_given, happens, Begins, Ends, Tells, Closes, Says, Pushes};
ghost use Rattle.seat_relay.specs.Laws.{fresh};

use crate::line::Line;
use crate::link::Link;
use crate::mode::Mode;
use crate::place::Place;
use std::alloc::{AllocError, Global};
use std::marker::Model;

/// What a relay of one bot knows: the line that the bot was given last, its answer to that line, and how the connection to each node
/// stands.
#[derive(Drop)]
pub(crate) struct Machine {
    alloc: Global,
    mode: Mode,
    last: Option<Line>,
    kept: Option<Vec<u8>>,
    links: Vec<Link>,
    /// Whether a node that had told the last line said that the match is over.
    over: bool,
}

impl Model for Machine {
    ghost use Rattle.seat_relay.specs.Relaying.{Standing};
    ghost use Rattle.seat_relay.specs.MachineInside.{standing_of};

    ghost Value = { Standing };

    ghost view = { standing_of };
}

#[tactic(auto, unfolding(crate::specs::Relaying::happens))]
impl Machine {
    /// That of a relay for so many nodes, whose bot was given nothing yet.
    pub(crate) fn new(alloc: Global, nodes: usize, mode: Mode) -> Result<Machine, AllocError>
        ensures { IfOk result (λ machine. machine ≡ fresh mode nodes) }
    {
        Ok(Machine {
            alloc,
            mode,
            last: None,
            kept: None,
            links: vec![in alloc; Link::Apart; nodes]?,
            over: false,
        })
    }

    /// Whether the bot's lines may begin anywhere.
    pub(crate) fn is_newest(&self) -> bool
        ensures { result ≡ self.now.mode.newest }
    {
        self.mode.newest
    }

    /// Whether a node that had told the last line said that the match is over.
    pub(crate) fn is_over(&self) -> bool
        ensures { result ≡ self.now.over }
    {
        self.over
    }

    /// The line that the bot was given last: that from which a node is to tell.
    pub(crate) fn last(&self) -> Option<&[u8]>
        ensures { option_map (λ text. text.now) result ≡ option_map (λ line. line.text) self.now.last }
    {
        match &self.last {
            Some(last) => Some(&last.text),
            None => None,
        }
    }

    /// The bot's answer to that line.
    pub(crate) fn answer(&self) -> Option<&[u8]>
        ensures { option_map (λ text. text.now) result ≡ self.now.kept }
    {
        match &self.kept {
            Some(answer) => Some(answer),
            None => None,
        }
    }

    /// A connection to a node begins.
    pub(crate) fn begins(&mut self, node: usize)
        ensures { self.new ≡ happens self.old (Begins node) }
    {
        set_link(&mut self.links, node, Link::Begun);
    }

    /// The connection to a node ends.
    pub(crate) fn ends(&mut self, node: usize)
        ensures { self.new ≡ happens self.old (Ends node) }
    {
        set_link(&mut self.links, node, Link::Apart);
    }

    /// Whether a line at this place is taken over the connection of a node: any behind the first, and the first where the bot was
    /// given one there or behind, or its lines may begin there.
    pub(crate) fn is_taken(&self, node: usize, place: &Place) -> bool
        ensures { result ≡ is_taken self.now.mode.newest self.now.last (link_at self.now.links node) place.now }
    {
        match link_at(&self.links, node) {
            Link::Apart => false,
            Link::Begun => may_begin(self.mode.newest, &self.last, place),
            Link::Behind | Link::Even | Link::Said => true,
        }
    }

    /// A node tells a line. It says whether the bot is to be given it.
    pub(crate) fn tells(
        &mut self,
        node: usize,
        text: &[u8],
        place: Place,
    ) -> Result<bool, AllocError>
        ensures ok { OnOk result (self.new ≡ happens self.old (Tells node (with_place text.now place))) }
        ensures given { IfOk result (λ given. given ≡ is_given self.old node (with_place text.now place)) }
        ensures err { OnErr result (self.new ≡ self.old) }
    {
        if !self.is_taken(node, &place) {
            return Ok(false);
        }
        if is_news(&self.last, &place) {
            self.last = Some(Line {
                text: Vec::from_slice(self.alloc, text)?,
                place,
            });
            self.kept = None;
            self.over = false;
            fall(&mut self.links);
            set_link(&mut self.links, node, Link::Even);
            return Ok(true);
        }
        let link = link_at(&self.links, node);
        let link = if is_again(&self.last, text, &place) {
            link.risen()
        } else {
            link.heard()
        };
        set_link(&mut self.links, node, link);
        Ok(false)
    }

    /// A node says that the match is over: that counts where it has told the last line.
    pub(crate) fn closes(&mut self, node: usize)
        ensures { self.new ≡ happens self.old (Closes node) }
    {
        if link_at(&self.links, node).has_told() {
            self.over = true;
        }
    }

    /// The bot says something. It says whether that is kept: an answer to the line that it was given last, unless one to it
    /// stands. Anything else is passed over.
    pub(crate) fn says(&mut self, text: &[u8]) -> Result<bool, AllocError>
        ensures ok { OnOk result (self.new ≡ happens self.old (Says text.now)) }
        ensures kept { IfOk result (λ kept. kept ≡ is_kept self.old text.now) }
        ensures err { OnErr result (self.new ≡ self.old) }
    {
        let is_kept = echoes(&self.last, text) && !stands(self.mode.first_stands, &self.kept);
        if is_kept {
            self.kept = Some(Vec::from_slice(self.alloc, text)?);
            unsay(&mut self.links);
        }
        Ok(is_kept)
    }

    /// The bot's answer, if there is one, is to be said to a node. It says whether it may be: where the node has told the last
    /// line, and wasn't told the answer.
    pub(crate) fn pushes(&mut self, node: usize) -> bool
        ensures new { self.new ≡ happens self.old (Pushes node) }
        ensures may { result ≡ is_even (link_at self.old.links node) }
    {
        let may = link_at(&self.links, node) == Link::Even;
        if may {
            set_link(&mut self.links, node, Link::Said);
        }
        may
    }
}

impl Link {
    /// Once there is a further line.
    fn fallen(self) -> Link
        ensures { result ≡ fallen self }
    {
        match self {
            Link::Apart => Link::Apart,
            Link::Begun => Link::Begun,
            Link::Behind | Link::Even | Link::Said => Link::Behind,
        }
    }

    /// Once the last line was told.
    fn risen(self) -> Link
        ensures { result ≡ risen self }
    {
        match self {
            Link::Begun | Link::Behind => Link::Even,
            Link::Apart | Link::Even | Link::Said => self,
        }
    }

    /// Once an earlier line was told.
    fn heard(self) -> Link
        ensures { result ≡ heard self }
    {
        match self {
            Link::Begun => Link::Behind,
            Link::Apart | Link::Behind | Link::Even | Link::Said => self,
        }
    }

    /// Whether the last line was told.
    fn has_told(self) -> bool
        ensures { result ≡ has_told self }
    {
        match self {
            Link::Even | Link::Said => true,
            Link::Apart | Link::Begun | Link::Behind => false,
        }
    }

    /// Once there is another answer.
    fn unsaid(self) -> Link
        ensures { result ≡ unsaid self }
    {
        match self {
            Link::Said => Link::Even,
            Link::Apart | Link::Begun | Link::Behind | Link::Even => self,
        }
    }
}

/// How the connection to a node stands; where there is no such node, there is none.
fn link_at(links: &[Link], node: usize) -> Link
    ensures { result ≡ link_at links.now node }
{
    match links.get(node) {
        Some(link) => *link,
        None => Link::Apart,
    }
}

/// The connection to a node stands so from now on, if there is such a node.
fn set_link(links: &mut [Link], node: usize, link: Link)
    ensures { links.new ≡ slice_set links.old node link }
{
    if node < links.len() {
        links[node] = link;
    }
}

/// There is a line that no connection has told yet.
fn fall(links: &mut [Link])
    ensures { links.new ≡ map fallen links.old }
{
    for link in links.iter_mut() {
        *link = link.fallen();
    }
}

/// There is an answer that no node was told yet.
fn unsay(links: &mut [Link])
    ensures { links.new ≡ map unsaid links.old }
{
    for link in links.iter_mut() {
        *link = link.unsaid();
    }
}

/// Whether a line that stands there is news for a bot that was given this one last.
fn is_news(last: &Option<Line>, place: &Place) -> bool
    ensures { (text : List ℕ) → result ≡ is_news (option_map line_of last.now) (with_place text place.now) }
{
    match last {
        None => true,
        Some(last) => place.is_behind(&last.place),
    }
}

/// Whether a connection may begin with a line at a place, for a bot that was given this one last.
fn may_begin(newest: bool, last: &Option<Line>, place: &Place) -> bool
    ensures { result ≡ may_begin newest (option_map line_of last.now) place.now }
{
    match last {
        None => newest || place.is_first(),
        Some(last) => !place.is_behind(&last.place),
    }
}

/// Whether this is the line that the bot was given last.
fn is_again(last: &Option<Line>, text: &[u8], place: &Place) -> bool
    ensures { result ≡ is_again (option_map line_of last.now) (with_place text.now place.now) }
{
    match last {
        None => false,
        Some(last) => last.text.as_slice() == text && last.place.is_same(place),
    }
}

/// Whether an answer stands: it is the first one to its line, and the first one is to stand.
fn stands(first_stands: bool, kept: &Option<Vec<u8>>) -> bool
    ensures { result ≡ stands first_stands (option_map (λ answer. answer.items) kept.now) }
{
    first_stands && kept.is_some()
}

/// Whether a text is an answer to the line that the bot was given last.
fn echoes(last: &Option<Line>, text: &[u8]) -> bool
    ensures { result ≡ echoes (option_map line_of last.now) text.now }
{
    match last {
        None => false,
        Some(last) => is_echo(&last.text, text),
    }
}

/// Whether a text is a line, a colon, and something.
fn is_echo(line: &[u8], text: &[u8]) -> bool
    ensures { result ≡ is_echo line.now text.now }
{
    match text.strip_prefix(line) {
        Some([b':', ..]) => true,
        _ => false,
    }
}
