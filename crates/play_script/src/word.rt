ghost use Rattle.std.specs.Prelude.{◌≡◌, MatchOption};
ghost use Rattle.play_script.specs.Orders.{word_text};
ghost use Rattle.play_script.specs.declared.word.Word.{Word as Said};

/// The first word of a line of a script.
#[derive(Clone, Copy, Debug, PartialEq, Eq)]
pub enum Word {
    Tick,
    Away,
    Deliver,
    Flush,
    Connect,
    Drop,
    Line,
    Stop,
    Start,
}

impl Word {
    /// The word that bytes are.
    pub(crate) fn read(bytes: &[u8]) -> Option<Word>
        ensures { MatchOption result ((word : Said) → ¬ (bytes.now ≡ word_text word)) (λ word. bytes.now ≡ word_text word) }
    {
        match bytes {
            b"tick" => Some(Word::Tick),
            b"away" => Some(Word::Away),
            b"deliver" => Some(Word::Deliver),
            b"flush" => Some(Word::Flush),
            b"connect" => Some(Word::Connect),
            b"drop" => Some(Word::Drop),
            b"line" => Some(Word::Line),
            b"stop" => Some(Word::Stop),
            b"start" => Some(Word::Start),
            _ => None,
        }
    }
}
