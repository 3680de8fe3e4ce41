//! The types of documents that a queue takes.
ghost use Rattle.std.specs.Prelude.{◌≡◌, filter, IfOk};
ghost use Rattle.printer_answers.specs.PrinterAnswers.{leads_to};

use mime_costs::Convs;
use spool_types::MediaType;
use std::alloc::{AllocError, Global};

/// Returns those of the types from which a chain of conversions leads to the type of a queue, in their order.
pub fn formats_to(
    alloc: Global,
    convs: &Convs,
    types: &[MediaType],
    to: &MediaType,
) -> Result<Vec<MediaType>, AllocError>
    ensures { IfOk result (λ formats. formats.items ≡ filter (leads_to convs.now to.now) types.now) }
{
    let mut formats = Vec::new(alloc);
    for media in types {
        if leads_to(convs, to, media)? {
            formats.push(media.clone()?)?;
        }
    }
    Ok(formats)
}

#[tactic(auto, using(crate::proofs::Chains::is_chain))]
fn leads_to(convs: &Convs, to: &MediaType, from: &MediaType) -> Result<bool, AllocError>
    ensures { IfOk result (λ leads. leads ≡ leads_to convs.now to.now from.now) }
{
    let chain = convs.chain(from, to)?;
    Ok(chain.is_some())
}
