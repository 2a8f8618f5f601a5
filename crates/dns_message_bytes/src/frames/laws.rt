//! Theorems about frames, as functions with empty bodies.

ghost use Rattle.std.specs.Prelude.{◌≡◌, ℕ, List};
ghost use Rattle.dns_message_bytes.specs.frames.Frame.{AreShort, Pieces, ReadsAll, stream_of};

/// A stream of written frames is read back as their messages, whatever the pieces in which its source gives it.
pub fn frames_are_split()
    ensures { (sent received : List (List ℕ)) → AreShort sent → ReadsAll (stream_of sent) received
        → received ≡ sent }
{}

/// Sources of the same bytes in memory are read as the same messages, whatever the sizes of their pieces.
pub fn list_sources_are_split()
    ensures { (one other : Pieces) (messages others : List (List ℕ)) → one.left ≡ other.left
        → ReadsAll one.left messages → ReadsAll other.left others → messages ≡ others }
{}
