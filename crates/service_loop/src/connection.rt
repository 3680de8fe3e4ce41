//! A client's connection.
ghost use Rattle.std.specs.Prelude.{◌≡◌, IfOk};
ghost use Rattle.std.specs.Option.{option_map};
ghost use Rattle.std.specs.String.{string_bytes};
ghost use Rattle.std.specs.Io.{ReadsAtMost, WritesAtMost};
ghost use Rattle.std.specs.Io.KnownBytes.{Keeps, ReadConsumes, WriteAppends};
ghost use Rattle.service_loop.specs.ConnectionViews.{CameTo, ConnectionView, IsOperatorIf, IsProofStep, named, examined};

use client_standing::{Proved, RoleRules};
use std::alloc::AllocError;
use std::io;
use std::io::ErrorKind;

/// A client's connection. A call that would wait fails with `WouldBlock`.
///
/// Its contract is about the reports of the connection: the bytes that it will still bring, the bytes that were written to it, and the
/// results of its last read and its last write. A read takes from the first and leaves the second; a write appends to the second and leaves
/// the first. A connection may report nothing of these; the clauses then say nothing of them.
///
/// It also reports the rules for its client, whether the client came by the operators' socket, and the steps of the client's proofs.
pub trait Connection: Drop {
    /// The reports of the connection.
    ghost view: { ConnectionView Self };

    /// Reads the bytes that have arrived, up to the length of `piece`.
    fn read(&mut self, piece: &mut [u8]) -> io::Result<usize>
        ensures bound { ReadsAtMost result piece.new }
        ensures bytes { ReadConsumes (view.remaining self.old) (view.remaining self.new) result piece.new }
        ensures kept { Keeps (view.contents self.old) (view.contents self.new) }
        ensures came { CameTo (view.gave self.new) result }
        ensures other { view.took self.new ≡ view.took self.old }
        ensures proofs { view.proofs self.new ≡ view.proofs self.old };

    /// Writes part of a text, from its beginning.
    fn write(&mut self, text: &[u8]) -> io::Result<usize>
        ensures bound { WritesAtMost result text.now }
        ensures bytes { WriteAppends (view.contents self.old) (view.contents self.new) result text.now }
        ensures kept { Keeps (view.remaining self.old) (view.remaining self.new) }
        ensures came { CameTo (view.took self.new) result }
        ensures other { view.gave self.new ≡ view.gave self.old }
        ensures proofs { view.proofs self.new ≡ view.proofs self.old };

    /// The rules for its client.
    fn rules(&self) -> RoleRules
        ensures { result ≡ view.rules self.now };

    /// Whether the client came by the operators' socket.
    fn is_operators(&self) -> bool
        ensures { result ≡ view.is_operators self.now };

    /// Names a new folder, by an absolute path that cannot be guessed. The client proves who it is by making it. Returns none if no proof is
    /// offered. The new name replaces the earlier one.
    fn challenge(&mut self) -> Result<Option<String>, AllocError>
        ensures step { IfOk result (λ path. IsProofStep view self.old (named (option_map string_bytes path)) self.new) }
        ensures gave { view.gave self.new ≡ view.gave self.old }
        ensures took { view.took self.new ≡ view.took self.old };

    /// Examines the named folder and removes it. Returns who has made it, or none if no folder was named or this one proves nothing. The name
    /// is then used up. A client that came by the operators' socket is an operator.
    fn prove(&mut self) -> Result<Option<Proved>, AllocError>
        ensures step { IfOk result (λ proved. IsProofStep view self.old (examined proved) self.new) }
        ensures operators { IfOk result (IsOperatorIf (view.is_operators self.old)) }
        ensures gave { view.gave self.new ≡ view.gave self.old }
        ensures took { view.took self.new ≡ view.took self.old };
}

/// Reads the bytes that have arrived. An interrupted read is repeated.
pub(crate) fn read_of<L: Connection>(connection: &mut L, piece: &mut [u8]) -> io::Result<usize>
    ensures bound { ReadsAtMost result piece.new }
    ensures bytes { ReadConsumes (L.view.remaining connection.old) (L.view.remaining connection.new) result piece.new }
    ensures kept { Keeps (L.view.contents connection.old) (L.view.contents connection.new) }
    ensures came { CameTo (L.view.gave connection.new) result }
    ensures other { L.view.took connection.new ≡ L.view.took connection.old }
    ensures proofs { L.view.proofs connection.new ≡ L.view.proofs connection.old }
{
    for _ in 0..u32::MAX {
        match connection.read(piece) {
            Err(error) if error.kind() == ErrorKind::Interrupted => {}
            outcome => return outcome,
        }
    }
    connection.read(piece)
}

/// Writes part of a text. An interrupted write is repeated.
pub(crate) fn write_to<L: Connection>(connection: &mut L, text: &[u8]) -> io::Result<usize>
    ensures bound { WritesAtMost result text.now }
    ensures bytes { WriteAppends (L.view.contents connection.old) (L.view.contents connection.new) result text.now }
    ensures kept { Keeps (L.view.remaining connection.old) (L.view.remaining connection.new) }
    ensures came { CameTo (L.view.took connection.new) result }
    ensures other { L.view.gave connection.new ≡ L.view.gave connection.old }
    ensures proofs { L.view.proofs connection.new ≡ L.view.proofs connection.old }
{
    for _ in 0..u32::MAX {
        match connection.write(text) {
            Err(error) if error.kind() == ErrorKind::Interrupted => {}
            outcome => return outcome,
        }
    }
    connection.write(text)
}
