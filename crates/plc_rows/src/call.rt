//! What can be expected: the answers of calls, each as a text.

use crate::phrases::Phrase;

/// What is compared with what a row expects.
#[derive(Drop)]
pub enum Call {
    /// `accepted`, or `refused:` with the rule and the place, of a run of the command.
    Command,
    /// The number that a run of the command ends with.
    Status,
    /// What it complains.
    Complaint,
    /// What it says.
    Said,
    /// What it writes into a file of this name.
    Written(String),
    /// The names of the files that stand behind it as they do where no call fails.
    Left,
    /// What was counted of its calls on files and on the console.
    Calls,
    /// `parses`, or `unparsed:` with the rule and the place, of the parser of sources; the command refuses likewise.
    Unit,
    /// The kinds of the tokens of a text.
    Kinds,
    /// The kinds of its tokens with their places.
    Tokens { nested: bool },
    /// The number of the token behind a phrase, or the rule and the place.
    Phrase(Phrase),
}

impl Call {
    /// Whether it is an answer of a run of the command.
    pub fn is_of_run(&self) -> bool {
        match self {
            Call::Kinds | Call::Tokens { .. } | Call::Phrase(_) => false,
            _ => true,
        }
    }

    /// Whether what is expected is lines, each with its line feed.
    pub fn has_lines(&self) -> bool {
        matches!(
            self,
            Call::Complaint | Call::Said | Call::Written(_) | Call::Calls
        )
    }
}
