//! What it means that a reply is accepted.

ghost use Rattle.std.specs.Prelude.{ℕ, List, Ok};
ghost use Rattle.dns_tsig.specs.declared.key.Key.{Key};
ghost use Rattle.dns_tsig.specs.signer.Signer.{AcceptedBytes, Checks};
ghost use Rattle.dns_tsig.specs.signer.Verified.{IsVerified};

/// A reply is accepted only if its TSIG record has the name and the algorithm of the key, its MAC is the whole HMAC, with the secret
/// of the key, over the code of the request, the reply before it was signed, and the fields of the record, and its time is within
/// the fudge of the clock (RFC 8945 sections 5.2 to 5.4).
pub fn accepted_replies_are_verified()
    ensures { (key : Key) (code reply : List ℕ) (now : ℕ) (accepted : AcceptedBytes)
        → Checks key code reply now (Ok accepted) → IsVerified key code reply now accepted }
{}
