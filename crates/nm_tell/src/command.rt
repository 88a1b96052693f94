//! The words that the program is called with.

ghost use Rattle.std.specs.Prelude.{◌≡◌};
ghost use Rattle.nm_tell.specs.Words.{command_by, command_of, texts_of};

/// What the program is asked to tell.
#[derive(Clone, Copy, PartialEq, Eq)]
pub enum Command {
    /// What is wrong with a scenario, in full.
    Explain,
}

/// The command of the words after the program's name, and None where they aren't words of the program.
pub fn command_of(words: &[String]) -> Option<Command>
    ensures { result ≡ command_of (texts_of words.now) }
{
    match words {
        [word] => command_by(word.as_str()),
        _ => None,
    }
}

// The command of one word.
fn command_by(word: &str) -> Option<Command>
    ensures { result ≡ command_by word.now }
{
    if word == "explain" {
        Some(Command::Explain)
    } else {
        None
    }
}
