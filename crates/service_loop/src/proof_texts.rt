//! The replies to a client that proves who it is.
ghost use Rattle.std.specs.Prelude.{◌≡◌, ◌++◌, OnOk, option_copied};
ghost use Rattle.std.specs.Option.{option_map};
ghost use Rattle.std.specs.String.{string_bytes};
ghost use Rattle.service_loop.specs.ProofTexts.{offer_text, proof_text};

use client_standing::Proved;
use command_lines::push_quoted;
use std::alloc::AllocError;

const NO_PROOF: &[u8] = b"error proof\n";

/// Appends the reply to `i-am`: the path of the folder that the client makes, if a proof is offered.
pub fn push_offer(text: &mut Vec<u8>, path: &Option<String>) -> Result<(), AllocError>
    ensures { OnOk result (text.new.items ≡ text.old.items ++ offer_text (option_map string_bytes path.now)) }
{
    let Some(path) = path else {
        return text.extend_from_slice(NO_PROOF);
    };
    text.extend_from_slice(b"ok proof ")?;
    push_quoted(text, path.as_str())?;
    text.extend_from_slice(b"\n")
}

/// Appends the reply to `made`: who the client is, if it has proved that.
pub fn push_proof(text: &mut Vec<u8>, proved: &Option<Proved>) -> Result<(), AllocError>
    ensures { OnOk result (text.new.items ≡ text.old.items ++ proof_text proved.now) }
{
    let Some(who) = proved else {
        return text.extend_from_slice(NO_PROOF);
    };
    if who.is_operator {
        text.extend_from_slice(b"ok operator ")?;
    } else {
        text.extend_from_slice(b"ok user ")?;
    }
    text.extend_from_slice(who.name.as_str().as_bytes())?;
    text.extend_from_slice(b"\n")
}
