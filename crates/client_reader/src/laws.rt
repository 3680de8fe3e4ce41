//! Laws on the requests of a client. The functions do nothing: their clauses are the laws.
ghost use Rattle.std.specs.Prelude.{◌≡◌, ◌++◌, ℕ, List, map};
ghost use Rattle.command_lines.specs.Text.{commands_of};
ghost use Rattle.client_reader.specs.Asks.{asks_of};
ghost use Rattle.client_reader.specs.ReaderCalls.{AreCalls, AreFirstOf, Call, as_command, given_in, taken_in};
ghost use Rattle.client_reader.specs.declared.ask.Ask.{Ask as AskOf};

use service_texts::own_words_are_no_commands;

/// The requests of a text are its commands, one for one and in order. A word of the service takes the position of a command that the engine
/// finds malformed.
pub fn asks_are_commands()
    ensures { (text : List ℕ) → map as_command (asks_of text) ≡ commands_of text }
{
    own_words_are_no_commands();
}

/// Over any list of calls of a new reader, and whatever the pieces of the text, the returned requests are the first of the requests in the
/// text so far. They are so whatever may follow it: a request is returned only if no further text can change it. So of a text that ends
/// with `cancel 1`, cut from `cancel 12`, the last line is never returned.
pub fn asks_come_in_order()
    ensures so_far { (calls : List Call) (left : List ℕ → List AskOf) → AreCalls asks_of calls left → AreFirstOf (given_in calls) (asks_of (taken_in calls)) }
    ensures whatever_follows { (calls : List Call) (left : List ℕ → List AskOf) → AreCalls asks_of calls left → (more : List ℕ) → AreFirstOf (given_in calls) (asks_of (taken_in calls ++ more)) }
{}
