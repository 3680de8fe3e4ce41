//! Cuts a script at lines.
ghost use Rattle.std.specs.Prelude.{◌≡◌, ◌+◌, ◌<◌, ◌≤◌, ◌↔◌, ◌++◌, ℕ, IfNone, IfSome, IsTrue, length};
ghost use Rattle.spool_scripts.specs.Cut.{begins_line, IsCut};

/// After this line the spool is opened again.
pub const OPENING: &[u8] = b"# reopen\n";

/// After this line the engine runs again.
pub const RUN: &[u8] = b"# run\n";

/// After this line the engine makes a tick, and then runs again.
pub const TICK: &[u8] = b"# tick\n";

/// After this line a client is served one command at a time.
pub const CLIENT: &[u8] = b"# client\n";

/// Returns the part of a script before the first such line, and the script after the line, if there is one.
pub fn next_part<'a>(script: &'a [u8], line: &[u8]) -> (&'a [u8], Option<&'a [u8]>)
    ensures whole { IfNone result.1 (result.0.now ≡ script.now) }
    ensures joined { IfSome result.1 (λ after. script.now ≡ result.0.now ++ line.now ++ after.now) }
    ensures begins { IfSome result.1 (λ _. IsTrue (begins_line script.now (length result.0.now))) }
    ensures first { (k : ℕ) → k < length result.0.now → ¬ IsCut script.now line.now k }
{
    match next_cut(script, line) {
        Some(at) => (&script[..at], Some(&script[at + line.len()..])),
        None => (script, None),
    }
}

// Returns the offset of the first such line, if there is one.
fn next_cut(script: &[u8], line: &[u8]) -> Option<usize>
    ensures found { IfSome result (IsCut script.now line.now) }
    ensures inside { IfSome result (λ at. at + length line.now ≤ length script.now) }
    ensures first { IfSome result (λ at. (k : ℕ) → k < at → ¬ IsCut script.now line.now k) }
    ensures none { IfNone result ((k : ℕ) → k < length script.now → ¬ IsCut script.now line.now k) }
{
    for at in 0..script.len() {
        if is_cut(script, line, at) {
            return Some(at);
        }
    }
    None
}

// Returns whether this line begins at this offset.
fn is_cut(script: &[u8], line: &[u8], at: usize) -> bool
    requires { at ≤ length script.now }
    ensures cut { IsTrue result ↔ IsCut script.now line.now at }
    ensures inside { IsTrue result → at + length line.now ≤ length script.now }
{
    begins_line(script, at) && script[at..].starts_with(line)
}

// Returns whether a line begins at this offset.
fn begins_line(script: &[u8], at: usize) -> bool
    requires { at ≤ length script.now }
    ensures { result ≡ begins_line script.now at }
{
    at == 0 || script[at - 1] == b'\n'
}
