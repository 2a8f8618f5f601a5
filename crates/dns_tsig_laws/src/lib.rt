//! What holds of signed messages (RFC 8945), by the definitions of `dns_tsig`.
//!
//! The laws are functions with an empty body. Their contracts state what holds.
#![tactic(auto)]

ghost use Rattle.std.specs.Prelude.{◌≡◌, ◌<◌, ◌^◌, true, ℕ, List, [], ◌∷◌, ◌++◌, length};
ghost use Rattle.dns_messages.specs.Grammar.{ReadsMessage};
ghost use Rattle.dns_messages.specs.declared.message.Message.{Message};
ghost use Rattle.dns_tsig.specs.Found.{Finds, IsSignature};
ghost use Rattle.dns_tsig.specs.Judge.{is_in_time, received_text};
ghost use Rattle.dns_tsig.specs.Sign.{IsSigned};
ghost use Rattle.dns_tsig.specs.TsigFields.{TsigFields};
ghost use Rattle.dns_tsig.specs.Verify.{verdict_of};
ghost use Rattle.dns_tsig.specs.declared.found.Found.{Found};
ghost use Rattle.dns_tsig.specs.declared.found.Found.TheVariants.{Signed};
ghost use Rattle.dns_tsig.specs.declared.found.Signature.{Signature};
ghost use Rattle.dns_tsig.specs.declared.key.Key.{Key};
ghost use Rattle.dns_tsig_laws.specs.Code.{IsOfHolder};
ghost use Rattle.dns_tsig_laws.specs.Executed.{DecodesApart, IsDecodedAs, IsExecutionOf, signed_text};
ghost use Rattle.dns_tsig_laws.specs.Same.{DoFieldsFit, HasRecordAt, IsSameSigned};
ghost use Rattle.dns_tsig_laws.specs.Whole.{HaveOtherNames, IsUsable, IsWholeUnsigned};

use dns_tsig::{Coverage, Verdict};

/// A code covers the whole message and all fields of its TSIG record: with one key and after one former code, the texts of two received
/// messages are equal only if the messages are the same, but for their ids and TSIG records, and if the fields of the records are the
/// same. Both have as many bytes of other data: a request has none, and a reply none or six (RFC 8945 section 5.2.3).
pub fn covered_texts_are_unambiguous()
    ensures { (key : Key) (prior one two : List ℕ) (place end : ℕ) (first second : TsigFields)
        → HasRecordAt one place → HasRecordAt two end → DoFieldsFit first → DoFieldsFit second
        → length first.other ≡ length second.other
        → received_text key prior one place first Coverage.Variables
        ≡ received_text key prior two end second Coverage.Variables
        → IsSameSigned one place first two end second }
{}

/// A request that was signed with a key is verified as one of this key, if it was whole and had no TSIG record before, no earlier key has
/// the name of this one, and the clock is within 300 seconds of the time of the signature (RFC 8945 sections 5.1 and 5.2).
pub fn signed_requests_verify()
    ensures { (earlier : List Key) (key : Key) (later : List Key) (request code signed : List ℕ) (time now : ℕ)
        (found : Found) → IsUsable key → HaveOtherNames earlier key.name.items
        → IsWholeUnsigned request → time < 2 ^ 48
        → IsSigned key [] request Coverage.Variables time 300 0 [] code signed
        → is_in_time time 300 now ≡ true → Finds signed found
        → verdict_of (earlier ++ key ∷ later) signed found now ≡ Verdict.Verified (length earlier) }
{}

/// A request is verified as one of a key only if its TSIG record has the name and the algorithm of the key, its MAC is the HMAC, with the
/// secret of the key, over the request before it was signed and the fields of the record, or as many of its first bytes as the key
/// allows, and its time is within the fudge of the clock (RFC 8945 section 5.2).
pub fn verified_requests_are_of_holders()
    ensures { (keys : List Key) (request : List ℕ) (found : Signature) (now index : ℕ)
        → verdict_of keys request (Signed found) now ≡ Verdict.Verified index
        → IsOfHolder keys index request found now }
{}

/// The TSIG record that is found in a message is the last record that the decoder reads, which ends the message (RFC 8945 section 5.1).
pub fn found_records_are_decoded_last()
    ensures { (message : List ℕ) (found : Signature) (decoded : Message) → IsSignature message found
        → ReadsMessage message decoded → IsDecodedAs message found decoded }
{}

/// What is executed is what was signed: if the code of a received message covers the text that the code of a signed message covers, then
/// the received message decodes to the signed one, but for the id and the TSIG record. The signed message ends with its last record, and no
/// pointer leads into its header: a name there would be read from the id, which may change on the way, and from ARCOUNT, which counts the
/// TSIG record.
pub fn what_is_executed_was_signed()
    ensures { (key : Key) (prior message : List ℕ) (time fudge error : ℕ) (other received : List ℕ)
        (found : Signature) (signed executed : Message) → IsSignature received found
        → received_text key prior received found.place found.tsig Coverage.Variables
        ≡ signed_text key prior message time fudge error other
        → DecodesApart message signed → ReadsMessage received executed → IsExecutionOf signed executed }
{}
