//! Laws of the definitions of commands and words.
ghost use Rattle.std.specs.Prelude.{◌≡◌, ℕ, List};
ghost use Rattle.std.specs.List.{All};
ghost use Rattle.command_lines.specs.TextLines.{first_line, after_line};
ghost use Rattle.command_lines.specs.CommandWords.{words_of, after_front, next_word};
ghost use Rattle.command_lines.specs.CommandGrammar.{kind_of};
ghost use Rattle.command_lines.specs.Text.{commands_of, after_kind};
ghost use Rattle.command_lines.specs.AskedEvents.{AsksForLineEvent};

/// The commands of a text are those of its first line, followed by those of the rest.
pub fn line_by_line()
    ensures { (text : List ℕ) → commands_of text ≡ after_kind commands_of (kind_of (first_line text)) (after_line text) }
{}

/// The words of a line are its next word, followed by the words of the rest.
pub fn word_by_word()
    ensures { (line : List ℕ) → words_of line ≡ after_front words_of (next_word line) }
{}

/// A text asks directly only for events that a single line states completely: never for the start or the end of an attempt, nor for a
/// reopening.
pub fn only_line_events()
    ensures { (text : List ℕ) → All AsksForLineEvent (commands_of text) }
{}
