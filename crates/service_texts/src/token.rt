//! The token that identifies a submission among the options of its job.
ghost use Rattle.std.specs.Prelude.{◌≡◌};
ghost use Rattle.std.specs.List.{list_all};
ghost use Rattle.service_texts.specs.SubmissionTokens.{is_token, is_token_byte};

use spool_types::{Text, TextKind};

/// The kind of a token: 1 to 64 bytes of printable ASCII without spaces, quotes, backslashes and commas.
pub struct TokenKind;

/// A word that a client chooses for a submission, the value of the option `submission`.
pub type TokenText = Text<TokenKind>;

impl TextKind for TokenKind {
    ghost allowed = { is_token };

    fn allows(text: &str) -> bool {
        1 <= text.len() && text.len() <= 64 && has_only_token_bytes(text)
    }
}

fn has_only_token_bytes(text: &str) -> bool
    ensures { result ≡ list_all is_token_byte text.now }
{
    text.as_bytes().iter().all(|b| is_token_byte(*b))
}

fn is_token_byte(byte: u8) -> bool
    ensures { result ≡ is_token_byte byte }
{
    33 <= byte && byte <= 126 && byte != b'"' && byte != b'\'' && byte != b'\\' && byte != b','
}
