//! The words that begin the lines before the instructions.

ghost use Rattle.std.specs.Prelude.{◌≡◌};
ghost use Rattle.xc_isa_text.specs.InnerReadings.{keyword_name, keyword_named};

/// What a line of data says.
#[derive(Clone, Copy)]
pub(crate) enum Keyword {
    /// A global begins.
    Global,
    /// So many cells of it.
    Cells,
    Format,
    /// The mark of a loop.
    Loop,
    /// The instructions begin.
    Code,
}

const KEYWORDS: [Keyword; 5] = [
    Keyword::Global,
    Keyword::Cells,
    Keyword::Format,
    Keyword::Loop,
    Keyword::Code,
];

impl Keyword {
    pub(crate) fn name(self) -> &'static [u8]
        ensures { result.now ≡ keyword_name self }
    {
        match self {
            Keyword::Global => b"global",
            Keyword::Cells => b"cells",
            Keyword::Format => b"format",
            Keyword::Loop => b"loop",
            Keyword::Code => b"code",
        }
    }

    pub(crate) fn named(word: &[u8]) -> Option<Keyword>
        ensures { result ≡ keyword_named word.now }
    {
        KEYWORDS
            .iter()
            .copied()
            .find(|keyword| keyword.name() == word)
    }
}
