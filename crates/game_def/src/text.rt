ghost use Rattle.std.specs.Prelude.{◌≡◌, ◌∷◌, [], ◌<◌, ◌≤◌, ◌==◌, not, false, slice_index, length, IfSome, MatchOption};
ghost use Rattle.std.specs.List.{position, position_or_len};
ghost use Rattle.game_def.specs.Text.{lines, words, is_blank, ends_word, without_cr};

/// A line without the CR at its end.
fn strip_cr(line: &[u8]) -> &[u8]
    ensures { result.now ≡ without_cr line.now }
{
    match line.last() {
        Some(b'\r') => &line[..line.len() - 1],
        _ => line,
    }
}

/// Where the first line of a text ends by LF.
fn line_end(text: &[u8]) -> Option<usize>
    ensures { result ≡ position (λ byte. byte == 10) text.now }
{
    text.iter().position(|byte| *byte == b'\n')
}

/// The first line of a text without its line end, and what follows it.
pub(crate) fn next_line(text: &[u8]) -> Option<(&[u8], &[u8])>
    ensures value { MatchOption result (lines text.now ≡ []) (λ x. lines text.now ≡ x.0.now ∷ lines x.1.now) }
    ensures shorter { IfSome result (λ x. length x.1.now < length text.now) }
{
    if text.is_empty() {
        return None;
    }
    match line_end(text) {
        Some(end) => Some((strip_cr(&text[..end]), &text[end + 1..])),
        None => Some((text, &[])),
    }
}

fn is_blank(byte: u8) -> bool
    ensures { result ≡ is_blank byte }
{
    matches!(byte, b' ' | b'\t')
}

fn ends_word(byte: u8) -> bool
    ensures { result ≡ ends_word byte }
{
    is_blank(byte) || matches!(byte, b'=' | b'#')
}

/// Where the first word of a line begins.
fn word_start(line: &[u8]) -> Option<usize>
    ensures { result ≡ position (λ byte. not (is_blank byte)) line.now }
{
    line.iter().position(|byte| !is_blank(*byte))
}

/// Where the word ends with which a text begins, unless all of the text is that word.
fn word_end(text: &[u8]) -> Option<usize>
    ensures { result ≡ position ends_word text.now }
{
    text.iter().position(|byte| ends_word(*byte))
}

/// How long the word is with which a text begins.
fn word_len(text: &[u8]) -> usize
    ensures value { result ≡ position_or_len ends_word text.now }
    ensures within { result ≤ length text.now }
{
    word_end(text).unwrap_or(text.len())
}

/// A line from its first byte on that is neither a space nor a tab.
fn skip_blanks(line: &[u8]) -> &[u8]
    ensures same { words result.now ≡ words line.now }
    ensures first { 0 < length result.now → is_blank (slice_index result.now 0) ≡ false }
{
    match word_start(line) {
        Some(start) => &line[start..],
        None => &[],
    }
}

/// The first word of a line, and what follows it.
pub(crate) fn next_word(line: &[u8]) -> Option<(&[u8], &[u8])>
    ensures { MatchOption result (words line.now ≡ []) (λ x. words line.now ≡ x.0.now ∷ words x.1.now) }
{
    let rest = skip_blanks(line);
    if rest.is_empty() {
        return None;
    }
    if rest[0] == b'#' {
        return None;
    }
    if rest[0] == b'=' {
        return Some(rest.split_at(1));
    }
    Some(rest.split_at(word_len(rest)))
}
