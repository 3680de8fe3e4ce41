//! Writes the orders of the children as lines.

use crate::fault::CaseFault;
use child_pipeline::{Content, Input, MemChildren, Placed, Program, Texts};

/// Adds the orders in order of their starts, and the number of children that were finished, unless it is 0.
pub fn push_orders(text: &mut String, children: &MemChildren) -> Result<(), CaseFault> {
    for placed in children.orders() {
        push_order(text, placed)?;
    }
    let finished = children.finished();
    if 0 < finished {
        writeln!(text, "finished {finished}")?;
    }
    Ok(())
}

// Adds the job, the attempt, the stage and the number of children that were finished before, then the program and its
// arguments, then the variables, and then the child's input.
fn push_order(text: &mut String, placed: &Placed) -> Result<(), CaseFault> {
    let Placed { order, before } = placed;
    let job = order.job.get();
    let attempt = order.attempt.get();
    let stage = order.stage.get();
    writeln!(
        text,
        "job {job} attempt {attempt} stage {stage} behind {before}"
    )?;
    match &order.program {
        Program::Filter(name) => push_program(text, "filter", name.as_str())?,
        Program::Backend(scheme) => push_program(text, "backend", scheme.as_str())?,
    }
    push_texts(text, &order.words)?;
    text.push_str("variables")?;
    push_texts(text, &order.environment)?;
    match &order.input {
        Input::Document(bytes) => push_bytes(text, "document", bytes),
        Input::Bytes(bytes) => push_bytes(text, "bytes", bytes),
    }
}

fn push_program(text: &mut String, kind: &str, name: &str) -> Result<(), CaseFault> {
    write!(text, "{kind} {name}")?;
    Ok(())
}

// Adds the texts, each in quotes, up to the end of the line.
fn push_texts(text: &mut String, texts: &Texts) -> Result<(), CaseFault> {
    for word in texts.as_slice() {
        write!(text, " {word:?}")?;
    }
    text.push('\n')?;
    Ok(())
}

fn push_bytes(text: &mut String, kind: &str, bytes: &Content) -> Result<(), CaseFault> {
    let bytes = bytes.as_slice().escape_ascii();
    writeln!(text, "{kind} {bytes}")?;
    Ok(())
}
