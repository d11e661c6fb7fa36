/// What stands at the front of a stream of lines.
#[derive(Clone, Copy)]
pub(crate) enum Front<'a> {
    /// Less than a whole line, and no more bytes than a line may have.
    Partial,
    /// A line's text, without its line end (CR LF or LF).
    Line(&'a [u8]),
    /// 4097 bytes without a line feed.
    TooLong,
}
