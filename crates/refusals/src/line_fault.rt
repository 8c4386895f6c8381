ghost use Rattle.std.specs.Prelude.{◌≡◌, ◌≤◌, length};
ghost use Rattle.refusals.specs.Words.{line_words};

/// Why a line says nothing.
#[derive(Clone, Copy, Debug, PartialEq, Eq)]
pub enum LineFault {
    /// It has more than 65,535 bytes.
    TooLong,
    NotUtf8,
    /// Its first word is none of the commands.
    UnknownCommand,
    /// Something behind its first word is not as the command has it.
    BadWord,
}

impl LineFault {
    /// Its number and its words.
    pub fn words(self) -> &'static str
        ensures value { result.now ≡ line_words self }
        ensures short { length result.now ≤ 100 }
    {
        match self {
            LineFault::TooLong => "1 line too long",
            LineFault::NotUtf8 => "2 not UTF-8",
            LineFault::UnknownCommand => "3 unknown command",
            LineFault::BadWord => "4 bad word",
        }
    }
}
