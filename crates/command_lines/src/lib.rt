//! The commands of a script, read from bytes in pieces of any length, and the answers to them with their text.
//!
//! [`Commands`] is a reader of commands. Its caller feeds it the pieces of a text as they arrive, takes the whole commands with
//! [`Commands::next`], and takes the last ones at the end of the text with [`Commands::finish`]. Every error in a script is a
//! [`Command::Malformed`] at its position, and reading continues after it.
//!
//! `specs/` defines a script over whole texts, as lists of bytes:
//!
//! - `TextLines`: a line ends at its line feed. The last line needs none.
//! - `CommandWords`: words are separated by blanks. A word is bare and contains no quote, or it is quoted, and a blank or the end of the
//!   line follows its closing quote. `Blanks` and `Quotes` of `line_words` define blanks, the end of a word or of a quoted text, and
//!   backslashes.
//! - `CommandNumbers`: a number has 1 to 13 digits and no sign.
//! - `CommandGrammar`: the table of commands. Commands of one word have their own part. The first word selects a row, and the row states
//!   which words follow and which values they may have. A further command is a further row. `createby` is `create` with one more word, a
//!   moment: both are a [`Command::Create`], and one definition reads the words that they share. A line of more than 4,096 bytes is
//!   malformed. An empty line, and a line of any length that begins with `#`, is ignored.
//! - `Text`: the commands of a text, line by line (`commands_of`). A `send` takes the raw bytes that follow its line. If these are more
//!   than 65,536 bytes, they are one [`Command::OversizedSend`]. If no line feed follows them, they are one `Malformed`, and reading
//!   continues after the next line feed.
//! - `AskedEvents`: the events that a single line states completely.
//! - `PendingCommands`: the contents of a reader (`Pending`), and the commands that it will return, as a function of the text that follows
//!   (`to_come`).
//! - `Replies`: the line of each answer (`answer_line`), and the lines of listings.
//!
//! # Promises
//!
//! - *ExactCommands*: the commands that a reader returns are `commands_of` the whole text, for any pieces. A new reader has all of them to
//!   come. [`Commands::feed`] only moves bytes from the following text into the buffer. [`Commands::next`] returns the first command to
//!   come (`Gives`), and [`Commands::finish`] the first one if no text follows (`Ends`).
//! - `None` of `next` means that no whole command is buffered, and at most the beginning of one line or the bytes of one send
//!   (`IsPartial`). [`Commands::wanted`] then returns the input that the reader waits for. `None` of `finish` means that no command is
//!   left. Each command reduces the `weight`, so a caller's loop over `next` or `finish` ends.
//! - *OnlyLineEvents* ([`only_line_events`]): a text asks directly only for events that a whole line states (`AskedEvents`). It starts no
//!   attempt.
//! - [`line_by_line`] and [`word_by_word`]: `commands_of` and `words_of` are defined with a bound on lines and words. These laws state them
//!   without the bound: the first line or word, followed by the rest.
//! - *ExactReplies*: [`push_answer`] appends the line of an [`Answer`]. [`push_jobs`] appends the lines of jobs, [`push_job`] and
//!   [`push_queue`] a single line of a listing, and [`push_count`] its last line. [`push_job_as`] appends the line of a job with another
//!   user and another title. [`push_quoted`] appends a text in quotes, and [`push_reasons`] the reasons of a queue.
//! - [`line_feed_at`] returns the byte offset of the first line feed (`at`, `before`, `there`, `none`).
//! - [`job_number`], [`ranged_number`] and [`number_of`] return the number that a word states, and [`words_of`] the words of a line, as
//!   every command reads them.
//!
//! # Invariants
//!
//! 1. The buffered bytes are those from `start` on. They are moved to the front once their number is at most that of the bytes before them.
//! 2. No line feed is between `start` and `clean`, so no byte is searched twice.
//! 3. `mode` states the kind of the buffered bytes: a line, the rest of a line that has no further meaning, the bytes of a send, or those
//!    of an oversized send. No byte is stored of an oversized send, of a remark, or of a line that is too long.
//!
//! # Errors
//!
//! The only error is out of memory. It loses nothing: after `feed` the reader has not changed, and after `next` and `finish` the same
//! commands are to come. The call may be repeated.
//!
//! # Cost
//!
//! - A text is read in time linear in its length, whatever its pieces.
//! - At most 65,536 bytes of a send are buffered, and they are copied once, into the command.
//! - The words of a line are borrowed from it. Only a quoted word with a backslash allocates.
#![tactic(auto)]

mod command;
mod commands;
mod laws;
mod line;
mod numbers;
mod reply;
mod words;

pub use command::{Command, Creation, Rounds};
pub use commands::{Commands, Wanted, line_feed_at};
pub use laws::{line_by_line, only_line_events, word_by_word};
pub use numbers::{job_number, number_of, ranged_number};
pub use reply::{
    Answer, push_answer, push_count, push_job, push_job_as, push_jobs, push_queue, push_quoted,
    push_reasons,
};
pub use words::words_of;
