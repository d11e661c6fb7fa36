ghost use Rattle.std.specs.Prelude.{◌≡◌, ◌≤◌, ◌==◌, length, count_by};
ghost use Rattle.seat_session.specs.Feeds.{line_feeds};

/// How many line feeds stand among these bytes, as those of a piece that a session is to be fed: with those that wait
/// there already, it gives at most one answer more than so many.
pub fn line_feeds(bytes: &[u8]) -> usize
    ensures value { result ≡ line_feeds bytes.now }
    ensures most { result ≤ length bytes.now }
{
    bytes.iter().filter(|byte| **byte == b'\n').count()
}
