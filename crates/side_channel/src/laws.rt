//! Laws of packets and sessions. No call needs them.
ghost use Rattle.std.specs.Prelude.{◌≡◌, ℕ, ◌<◌, ◌^◌, List, [], ◌∷◌, ◌++◌, length, take, Ok, Err};
ghost use Rattle.side_channel.specs.Packets.{spelling, kept, front_of, whole, cut};
ghost use Rattle.side_channel.specs.SideSessions.{session, ends, after};
ghost use Rattle.side_channel.specs.Requests.{Request, AreAsked, asked, told};
ghost use Rattle.side_channel.specs.SessionPieces.{Finished, TakesAll, Exchange, to_come, told_in, took_in};
ghost use Rattle.side_channel.specs.declared.devices.Device.{Device as AnyDevice};
ghost use Rattle.side_channel.specs.declared.endings.Ending.TheVariants.{End, Stopped};
ghost use Rattle.side_channel.specs.declared.endings.SideFault.TheVariants.{Cut};
ghost use Rattle.side_channel.specs.declared.pieces.Held.{Held};

/// A packet that is written is read again, whatever follows it.
pub fn written_is_read()
    ensures { (command status : ℕ) (bytes more : List ℕ) → length bytes < 2 ^ 16 →
        front_of (spelling command status bytes ++ more) ≡
        whole (record { command = command; status = status; length = length bytes; body = kept bytes }) more }
{}

/// The answers of a session are the joined answers to its whole requests, up to the first of these: the end packet, the end of the input,
/// or a truncated packet.
pub fn answers_are_joined()
    ensures requests { (d : AnyDevice) (rs : List Request) (rest : List ℕ) → AreAsked rs →
        session d (asked rs ++ rest) ≡ after (told d rs) (session d rest) }
    ensures end { (d : AnyDevice) (rest : List ℕ) →
        session d (255 ∷ 0 ∷ 0 ∷ 0 ∷ rest) ≡ ends (Ok End) rest }
    ensures stopped { (d : AnyDevice) → session d [] ≡ ends (Ok Stopped) [] }
    ensures cut_short { (d : AnyDevice) (rest : List ℕ) →
        front_of rest ≡ cut → session d rest ≡ ends (Err Cut) [] }
{}

/// A session that began before any byte has the answers of all bytes that it took, whatever the pieces. The end packet ends it as it ends
/// the session of all these bytes.
pub fn any_pieces()
    ensures answers { (d : AnyDevice) (begun fed : Held) (exchanges : List Exchange) (more : List ℕ) →
        ((bytes : List ℕ) → to_come d begun bytes ≡ session d bytes) → TakesAll d begun exchanges fed →
        session d (took_in exchanges ++ more) ≡ after (told_in exchanges) (to_come d fed more) }
    ensures end { (d : AnyDevice) (begun fed over : Held) (exchanges : List Exchange) (piece : List ℕ) (count : ℕ) (more : List ℕ) →
        ((bytes : List ℕ) → to_come d begun bytes ≡ session d bytes) → TakesAll d begun exchanges fed →
        Finished d fed piece count over →
        session d (took_in exchanges ++ (take count piece ++ more)) ≡ after (told_in exchanges) (ends (Ok End) more) }
{}
