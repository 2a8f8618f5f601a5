//! By which rule the updates of an entry of a journal are made.

ghost use Rattle.std.specs.Prelude.{◌≡◌, ◌≤◌, ◌∷◌, length};
ghost use Rattle.dns_durable.specs.Rule.{mark_of, rule_in, rule_of_byte, rule_of_mark, updates_in};

use dns_authority::AnyAnswer;
use dns_authority::service::Answering;
use dns_zone::Serials;

/// The updates of an entry, and the rule by which they are made.
#[derive(Clone, Copy, Debug)]
pub(crate) struct EntryRule<'a> {
    /// The rule. The answers to ANY are no part of it.
    pub(crate) answering: Answering,
    /// The frames of the updates.
    pub(crate) updates: &'a [u8],
}

/// Returns the mark with which the entries of a rule begin: a frame of one byte, which is no request.
pub(crate) fn mark_of(answering: Answering) -> &'static [u8]
    ensures { result.now ≡ mark_of answering }
{
    match answering {
        Answering::Plain => &[0, 1, 0],
        Answering::Whole(_any, Serials::Kept) => &[0, 1, 1],
        Answering::Whole(_any, Serials::Rising) => &[0, 1, 2],
    }
}

/// Returns the rule and the updates of an entry. One without a mark is of an older version, which made all updates by
/// [`Answering::Plain`].
pub(crate) fn rule_of(entry: &[u8]) -> EntryRule<'_>
    ensures rule { result.answering ≡ rule_in entry.now }
    ensures updates { result.updates.now ≡ updates_in entry.now }
{
    let [high, low, byte, updates @ ..] = entry else {
        return EntryRule {
            answering: Answering::Plain,
            updates: entry,
        };
    };
    match rule_of_mark(*high, *low, *byte) {
        Some(answering) => EntryRule { answering, updates },
        None => EntryRule {
            answering: Answering::Plain,
            updates: entry,
        },
    }
}

/// Returns the rule of three bytes, if they are a mark.
fn rule_of_mark(high: u8, low: u8, byte: u8) -> Option<Answering>
    ensures { result ≡ rule_of_mark high low byte }
{
    if high == 0 && low == 1 {
        rule_of_byte(byte)
    } else {
        None
    }
}

/// Returns the rule of the byte in a mark.
fn rule_of_byte(byte: u8) -> Option<Answering>
    ensures { result ≡ rule_of_byte byte }
{
    match byte {
        0 => Some(Answering::Plain),
        1 => Some(Answering::Whole(AnyAnswer::AllSets, Serials::Kept)),
        2 => Some(Answering::Whole(AnyAnswer::AllSets, Serials::Rising)),
        _ => None,
    }
}
