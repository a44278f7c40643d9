// The words that name the rows of a text.
ghost use Rattle.std.specs.Prelude.{◌≡◌};
ghost use Rattle.lines.specs.Words.{Words, kind_named};
ghost use Rattle.lines.specs.Told.{AreWords};

// The kinds of rows that a text may have, each with a word of its own.
pub trait RowWords {
    type Kind: Copy;

    ghost words: { Words Self.Kind };

    // The kind whose word the bytes are.
    fn named(text: &[u8]) -> Option<Self::Kind>
        ensures { result ≡ kind_named words text.now };

    ghost told: { AreWords words };
}
