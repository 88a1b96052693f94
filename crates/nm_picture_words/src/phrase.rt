//! Texts that stand beside a number, by name.

ghost use Rattle.std.specs.Prelude.{◌≡◌};
ghost use Rattle.nm_picture_words.specs.Phrases.{phrase_text};

/// A text that stands before or behind a number.
#[derive(Clone, Copy)]
pub enum Phrase {
    ReleasePart,
    LookFor,
    Kill,
    Session,
    PartialLock,
    TheLink,
    Broke,
    PendingAt,
    Lapsed,
    Link,
    Broken,
    ChangeSet,
    Forgotten,
    OperatorSession,
    Lost,
    Device,
    Refused,
}

impl Phrase {
    /// The text.
    #[tactic(auto, unfolding(crate::specs::Phrases::phrase_text))]
    pub fn text(self) -> &'static str
        ensures { result.now ≡ phrase_text self }
    {
        match self {
            Phrase::ReleasePart => "release partial lock ",
            Phrase::LookFor => "look for the mark of change set ",
            Phrase::Kill => "kill session ",
            Phrase::Session => "session ",
            Phrase::PartialLock => "partial lock ",
            Phrase::TheLink => "the link to device ",
            Phrase::Broke => " broke",
            Phrase::PendingAt => "the pending commit of device ",
            Phrase::Lapsed => " lapsed",
            Phrase::Link => "link to device ",
            Phrase::Broken => " broken",
            Phrase::ChangeSet => "change set ",
            Phrase::Forgotten => " forgotten, and read from the journal",
            Phrase::OperatorSession => "session of operator ",
            Phrase::Lost => " lost",
            Phrase::Device => "device ",
            Phrase::Refused => " refused: ",
        }
    }
}
