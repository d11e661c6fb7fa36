ghost use Rattle.std.specs.Prelude.{◌≡◌, ◌≤◌, ◌<◌, length, position, IfSome};
ghost use Rattle.match_links.specs.Pieces.{is_line_feed, piece_len};

/// How long the next piece of these bytes is: up to and with the first line feed; all of them where there is none.
pub(crate) fn piece_len(bytes: &[u8]) -> usize
    ensures value { result ≡ piece_len bytes.now }
    ensures within { result ≤ length bytes.now }
{
    match first_line_feed(bytes) {
        Some(at) => at + 1,
        None => bytes.len(),
    }
}

/// Where the first line feed is.
pub(crate) fn first_line_feed(bytes: &[u8]) -> Option<usize>
    ensures value { result ≡ position is_line_feed bytes.now }
    ensures within { IfSome result (λ at. at < length bytes.now) }
{
    bytes.iter().position(|byte| *byte == b'\n')
}
