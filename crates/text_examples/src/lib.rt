//! Examples of the crates that read texts, stated as facts: words, files of rules, of conversions and of programs, commands, standard
//! error, the side channel, the words of the service and its replies.
//!
//! Each function does nothing. Each of its clauses is a table of examples in `specs/`, and the check computes the definitions on each row.
//! It refuses a false one by the name of its clause. The texts are written with substitutes for a line feed, a tab and a carriage return
//! (`specs/Written`).
//!
//! # Promises
//!
//! A fact is about a definition. That the code does the same is promised by the function whose clause names the definition with its whole
//! value, such as `value` of `joined_lines`. So a row here states as much as a test of that function, and costs the check a hundredth of
//! it. `text_tests` runs the rest: that memory suffices, that readers and writers may be slow or fail, and the printed output. It also runs
//! URIs and device lines.
//!
//! # Errors
//!
//! None: nothing here is ever called.
#![tactic(auto)]

ghost use Rattle.text_examples.specs.WordExamples as words;
ghost use Rattle.text_examples.specs.LineExamples as lines;
ghost use Rattle.text_examples.specs.Types as types;
ghost use Rattle.text_examples.specs.ChainExamples as chains;
ghost use Rattle.text_examples.specs.ProgramExamples as programs;
ghost use Rattle.text_examples.specs.CommandExamples as commands;
ghost use Rattle.text_examples.specs.ReplyExamples as replies;
ghost use Rattle.text_examples.specs.ReportExamples as reports;
ghost use Rattle.text_examples.specs.SessionExamples as sessions;
ghost use Rattle.text_examples.specs.ServiceExamples as service;

/// Words of a line, blanks and quotes.
pub fn word_examples()
    ensures word { words.WordRows }
    ensures blank { words.BlankRows }
    ensures blank_byte { words.BlankByteRows }
    ensures quoted { words.QuotedRows }
    ensures quote_byte { words.QuoteByteRows }
    ensures backslash { words.BackslashRows }
    ensures has_quote { words.HasQuoteRows }
    ensures escape { words.EscapeRows }
{}

/// Lines of a file, and its numbers.
pub fn line_examples()
    ensures joined { lines.JoinedRows }
    ensures silent { lines.SilentRows }
    ensures line_number { lines.LineNumberRows }
    ensures number { lines.NumberRows }
    ensures no_number { lines.NoNumberRows }
{}

/// Types of documents: which rule wins.
pub fn type_examples()
    ensures jpeg { types.JpegRows }
    ensures priority { types.PriorityRows }
    ensures name { types.NameRows }
    ensures joined { types.JoinedRows }
    ensures item { types.ItemRows }
    ensures negation { types.NegationRows }
    ensures group { types.GroupRows }
    ensures last_priority { types.LastPriorityRows }
    ensures capital { types.CapitalRows }
{}

/// Types of documents, by patterns of their names, by their bytes and by the locale.
pub fn rule_examples()
    ensures pattern { types.PatternRows }
    ensures set { types.SetRows }
    ensures special_byte { types.SpecialByteRows }
    ensures text_byte { types.TextByteRows }
    ensures text { types.TextRows }
    ensures value { types.ValueRows }
    ensures contained { types.ContainedRows }
    ensures locale { types.LocaleRows }
{}

/// Errors in lines of rules.
pub fn fault_examples()
    ensures kind { types.KindRows }
    ensures first_fault { types.FirstFaultRows }
    ensures operator { types.OperatorRows }
    ensures separator { types.SeparatorRows }
    ensures argument { types.ArgumentRows }
    ensures wanted_separator { types.WantedSeparatorRows }
    ensures bad_group { types.BadGroupRows }
    ensures bad_last_priority { types.BadLastPriorityRows }
    ensures bad_set { types.BadSetRows }
    ensures bad_value { types.BadValueRows }
{}

/// Conversions, and the cheapest chains of them.
pub fn chain_examples()
    ensures named { chains.NamedRows }
    ensures read { chains.ReadRows }
    ensures fault { chains.FaultRows }
    ensures left { chains.LeftRows }
    ensures tie { chains.TieRows }
    ensures wild { chains.WildRows }
    ensures long { chains.LongRows }
    ensures filter { chains.FilterRows }
    ensures order { chains.OrderRows }
{}

/// The programs named in a file.
pub fn program_examples()
    ensures silent { programs.SilentRows }
    ensures filter { programs.FilterRows }
    ensures backend { programs.BackendRows }
    ensures side { programs.SideRows }
    ensures unread { programs.UnreadRows }
    ensures twice { programs.TwiceRows }
    ensures named { programs.NamedRows }
    ensures named_backend { programs.NamedBackendRows }
    ensures none_named { programs.NoneNamedRows }
{}

/// Commands of a text.
pub fn command_examples()
    ensures script { commands.ScriptRows }
    ensures queue { commands.QueueRows }
    ensures quoted { commands.QuotedRows }
    ensures blank { commands.BlankRows }
    ensures byte { commands.ByteRows }
    ensures number { commands.NumberRows }
    ensures moment { commands.MomentRows }
    ensures note { commands.NoteRows }
    ensures accept { commands.AcceptRows }
    ensures stop { commands.StopRows }
    ensures hold { commands.HoldRows }
    ensures release { commands.ReleaseRows }
    ensures purge { commands.PurgeRows }
    ensures listing { commands.ListingRows }
    ensures drain { commands.DrainRows }
    ensures checkpoint { commands.CheckpointRows }
    ensures creation { commands.CreationRows }
    ensures creation_by { commands.CreationByRows }
    ensures cut_send { commands.CutSendRows }
    ensures empty_send { commands.EmptySendRows }
    ensures longest_note { commands.LongestNoteRows }
    ensures long_note { commands.LongNoteRows }
    ensures long_line { commands.LongLineRows }
    ensures oversized { commands.OversizedRows }
    ensures oversized_cut { commands.OversizedCutRows }
{}

/// Texts of replies.
pub fn reply_examples()
    ensures done { replies.DoneRows }
    ensures error { replies.ErrorRows }
    ensures closed { replies.ClosedRows }
    ensures queue { replies.QueueRows }
    ensures stopped { replies.StoppedRows }
{}

/// The report in a child's standard error.
pub fn report_examples()
    ensures text { reports.TextRows }
    ensures level { reports.LevelRows }
    ensures silent { reports.SilentRows }
    ensures page { reports.PageRows }
    ensures no_page { reports.NoPageRows }
    ensures state { reports.StateRows }
    ensures no_state { reports.NoStateRows }
    ensures attribute { reports.AttributeRows }
    ensures long_line { reports.LongLineRows }
    ensures long_word { reports.LongWordRows }
    ensures full { reports.FullRows }
    ensures last { reports.LastRows }
{}

/// Sessions on the side channel.
pub fn session_examples()
    ensures command { sessions.CommandRows }
    ensures end { sessions.EndRows }
    ensures size { sessions.SizeRows }
    ensures most { sessions.MostRows }
    ensures command_number { sessions.CommandNumberRows }
    ensures no_command { sessions.NoCommandRows }
    ensures status { sessions.StatusRows }
{}

/// Words of the service.
pub fn service_word_examples()
    ensures lone { service.LoneRows }
    ensures number { service.NumberRows }
    ensures name { service.NameRows }
    ensures close_at { service.CloseAtRows }
    ensures list { service.ListRows }
    ensures find { service.FindRows }
    ensures token { service.TokenRows }
{}

/// Replies of the service.
pub fn service_reply_examples()
    ensures job { service.JobRows }
    ensures hidden { service.HiddenRows }
    ensures line { service.LineRows }
    ensures queue { service.QueueRows }
    ensures others_queue { service.OthersQueueRows }
    ensures said { service.SaidRows }
    ensures why { service.WhyRows }
    ensures piece { service.PieceRows }
    ensures piece_line { service.PieceLineRows }
    ensures left { service.LeftRows }
    ensures size { service.SizeRows }
    ensures measured { service.MeasuredRows }
{}
