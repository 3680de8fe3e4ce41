//! Laws of the spelling.
ghost use Rattle.std.specs.Prelude.{◌≡◌, ◌≤◌, ◌++◌, ℕ, List, Ok, length};
ghost use Rattle.ipp_values.specs.declared.message.Message.{Message};
ghost use Rattle.ipp_codec.specs.MessageSpelling.{message_spelling, value_count, IsMessage, Spells};
ghost use Rattle.ipp_codec.specs.Reading.{reading};

/// The spelling of a message is read as this message, and takes its own octets of those that follow, such as a document.
pub fn decode_reads_what_encode_writes()
    ensures { (m : Message) (document : List ℕ) → IsMessage m → length (message_spelling m) ≤ 65536 → value_count m ≤ 4096 → reading (message_spelling m ++ document) ≡ Ok (m, length (message_spelling m)) }
{}

/// Octets spell at most one message.
pub fn one_message()
    ensures { (octets : List ℕ) (m other : Message) → Spells m octets → Spells other octets → m ≡ other }
{}
