//! How connections to nodes begin.

ghost use Rattle.std.specs.Prelude.{◌≡◌, option_map, IfOk};
ghost use Rattle.relay_runs.specs.Said.{token_line, greeting, asked_for};

use std::alloc::{AllocError, Global};

/// How connections to nodes begin.
#[derive(Drop)]
pub(crate) struct Opening {
    /// The line by which the seat's token is shown, with its end; nothing where seats have no tokens.
    pub(crate) token: Vec<u8>,
    /// Whether the lines of the next bot may begin with the newest, and not with the first deal alone.
    pub(crate) newest: bool,
}

impl Opening {
    /// With what stands behind `#TOKEN ` in the token's line, where there is one.
    pub(crate) fn new(
        alloc: Global,
        token: Option<&[u8]>,
        newest: bool,
    ) -> Result<Opening, AllocError>
        ensures token { IfOk result (λ opening. opening.token.items ≡ token_line (option_map (λ t. t.now) token.entry)) }
        ensures newest { IfOk result (λ opening. opening.newest ≡ newest) }
    {
        Ok(Opening {
            token: token_line(alloc, token)?,
            newest,
        })
    }
}

/// The token's line, where there is one.
fn token_line(alloc: Global, token: Option<&[u8]>) -> Result<Vec<u8>, AllocError>
    ensures { IfOk result (λ line. line.items ≡ token_line (option_map (λ t. t.now) token.entry)) }
{
    let Some(token) = token else {
        return Ok(Vec::new(alloc));
    };
    let mut line = Vec::from_slice(alloc, b"#TOKEN ")?;
    line.extend_from_slice(token)?;
    line.extend_from_slice(b"\r\n")?;
    Ok(line)
}

/// From where on a node is asked to tell: from the line on that the bot was given last, or where it was given none yet from the
/// newest or the first one on.
pub(crate) fn asked_of<'a>(last: Option<&'a [u8]>, newest: bool) -> &'a [u8]
    ensures { result.now ≡ asked_for newest (option_map (λ line. line.now) last.entry) }
{
    match last {
        Some(last) => last,
        None if newest => b"NEWEST",
        None => b"FIRST",
    }
}

/// The first lines over a connection: the token's, the one by which the node is asked, and the version's.
pub(crate) fn greeting_of(alloc: Global, token: &[u8], asked: &[u8]) -> Result<Vec<u8>, AllocError>
    ensures { IfOk result (λ lines. lines.items ≡ greeting token.now asked.now) }
{
    let mut lines = Vec::from_slice(alloc, token)?;
    lines.extend_from_slice(b"#RESUME ")?;
    lines.extend_from_slice(asked)?;
    lines.extend_from_slice(b"\r\n")?;
    lines.extend_from_slice(b"VERSION:2.0.0\r\n")?;
    Ok(lines)
}
