//! What becomes of a reply, by its TSIG record (RFC 8945 section 5.4).

ghost use Rattle.std.specs.Prelude.{◌≡◌};
ghost use Rattle.dns_tsig.specs.Found.{Finds};
ghost use Rattle.dns_tsig.specs.signer.Refusal.{refusal_by, refusal_without_code, refusal_of};

use crate::signer::refusal::{Refusal, TsigError};
use crate::{Judgement, ReplyVerdict, Signature};

/// Returns why a reply with this TSIG record and verdict is refused, or `None` if it is accepted.
pub(crate) fn refusal_of(verdict: ReplyVerdict, signature: &Signature<'_>) -> Option<Refusal>
    ensures { result ≡ refusal_of verdict signature.now.tsig }
{
    match verdict {
        ReplyVerdict::Unsigned => Some(Refusal::Unsigned),
        ReplyVerdict::FormErr => Some(Refusal::Unreadable),
        ReplyVerdict::OtherKey => Some(Refusal::OtherKey),
        ReplyVerdict::Judged(judgement) => refusal_by(judgement, signature),
    }
}

/// Returns why a reply with this judgement of its code is refused.
fn refusal_by(judgement: Judgement, signature: &Signature<'_>) -> Option<Refusal>
    ensures { result ≡ refusal_by judgement signature.now.tsig }
{
    match judgement {
        Judgement::FormErr => Some(refusal_without_code(signature)),
        Judgement::BadSig => Some(Refusal::WrongCode),
        Judgement::BadTime => Some(Refusal::WrongTime),
        Judgement::BadTrunc => Some(Refusal::Truncated),
        Judgement::Verified => None,
    }
}

/// Returns why a reply is refused whose code has a length that is not allowed: it has none and reports an error, or it has one.
fn refusal_without_code(signature: &Signature<'_>) -> Refusal
    ensures { result ≡ refusal_without_code signature.now.tsig }
{
    if !signature.tsig.mac().is_empty() {
        return Refusal::WrongLength;
    }
    match TsigError::of_code(signature.tsig.error()) {
        Some(error) => Refusal::Reported(error),
        None => Refusal::WrongLength,
    }
}
