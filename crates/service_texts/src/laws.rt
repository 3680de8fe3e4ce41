//! Laws on the words of the service and on its listings. The functions do nothing: their clauses are the laws.
ghost use Rattle.std.specs.Prelude.{◌≡◌, ◌∷◌, ◌++◌, ℕ, Bool, false, List, Some, filter, map};
ghost use Rattle.std.specs.List.{flat_map};
ghost use Rattle.std.specs.List.Sorted.{IsStrictlyIncreasing};
ghost use Rattle.line_words.specs.Quotes.{quoted};
ghost use Rattle.command_lines.specs.CommandGrammar.{kind_of};
ghost use Rattle.command_lines.specs.Replies.{escaped_byte};
ghost use Rattle.command_lines.specs.declared.command.Command.{Command};
ghost use Rattle.command_lines.specs.declared.command.Kind.{Kind};
ghost use Rattle.spool_types.specs.State.{Job};
ghost use Rattle.service_texts.specs.Listings.{following, piece_of};
ghost use Rattle.service_texts.specs.ServiceWords.{own_word};
ghost use Rattle.service_texts.specs.declared.own_words.OwnWord.{OwnWord};

use command_lines::word_by_word;

/// A line with a word of the service is no command: the engine finds it malformed.
pub fn own_words_are_no_commands()
    ensures { (line : List ℕ) (word : OwnWord) → own_word line ≡ Some word → kind_of line ≡ Kind.Says Command.Malformed }
{
    word_by_word();
}

/// The jobs of a piece, followed by those from its next number on, are the whole listing: no job is left out or listed twice.
pub fn pieces_make_the_listing()
    ensures { (passes : Job → Bool) (most left : ℕ) (rows : List Job) → IsStrictlyIncreasing (map (λ row. row.id) rows) →
        filter passes rows ≡ (piece_of passes most left rows).jobs ++ filter passes (following (piece_of passes most left rows).next rows) }
{}

/// A text in quotes, as a title, a user or a message is shown, is read back from its opening quote on, whatever its bytes are. So it cannot
/// imitate what follows it.
pub fn shown_texts_are_read_back()
    ensures { (text rest : List ℕ) → quoted false (flat_map escaped_byte text ++ 34 ∷ rest) ≡ Some (text, rest) }
{}
