ghost use Rattle.std.specs.Prelude.{◌≡◌};
ghost use Rattle.streamed.specs.Ending.{words_text};

/// What is wrong with a command line.
#[derive(Clone, Copy, Debug)]
pub enum WrongWords {
    /// A word isn't text.
    NotText,
    /// The log is asked for of a game whose word can't stand in a log.
    GameWord,
    /// No command is named, or a word is missing that it needs.
    Incomplete,
    /// Something else, which the reader of the command line has told by itself.
    Told,
}

impl WrongWords {
    /// What standard error gets.
    pub fn text(self) -> &'static str
        ensures { result.now ≡ words_text self }
    {
        match self {
            WrongWords::NotText => "error: the words of the command line must be text in UTF-8",
            WrongWords::GameWord => {
                "error: with --log GAME must be 1 to 200 printable ASCII characters without space"
            }
            WrongWords::Incomplete => "error: the command line lacks its command, or a word of it",
            WrongWords::Told => "",
        }
    }
}
