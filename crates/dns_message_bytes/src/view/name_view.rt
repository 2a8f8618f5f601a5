//! Names, borrowed from a message, where they may be compressed (RFC 1035 sections 3.1 and 4.1.4).

ghost use Rattle.std.specs.Prelude.{◌≡◌, ◌≢◌, ◌≤◌, ℕ, List, true, length, Err, IsOk, IfOk, IfErr, OnErr, MatchResult};
ghost use Rattle.dns_wire.specs.Decoder.{rest, Advances};
ghost use Rattle.dns_wire.specs.Element.{element};
ghost use Rattle.dns_wire.specs.Reading.{ReadsName, RefusesName};
ghost use Rattle.dns_message_bytes.specs.view.internal.NameParts.{MatchesElement, part_len};

use dns_names::Name;
use dns_wire::{BinDecoder, DecodeError};
use std::alloc::Global;

/// A fully qualified name, borrowed from a message, where it may have a compression pointer (RFC 1035 section 4.1.4).
#[derive(Drop)]
pub struct NameView<'a> {
    /// A decoder at the place of the name.
    decoder: BinDecoder<'a>,
}

/// An element of an encoded name.
#[derive(Clone, Copy)]
enum Part<'a> {
    /// The root's zero byte, which ends the name.
    Closing,
    /// A label, borrowed from the message.
    Label(&'a [u8]),
    /// A compression pointer, with its target offset.
    Pointer(usize),
}

impl<'a> NameView<'a> {
    ghost use Rattle.dns_names.specs.Name.{IsInline};
    ghost use Rattle.dns_message_bytes.specs.view.NameView.{IsNameOf};

    /// Reads a name in place, and advances past it. On an error the decoder is unchanged.
    ///
    /// It is refused with the error of `Name::read`, which it never copies.
    pub fn read(decoder: &mut BinDecoder<'a>) -> Result<NameView<'a>, DecodeError>
        ensures read { IfOk result (λ name. (labels : List (List ℕ))
            × (ReadsName decoder.old.bytes decoder.old.index labels decoder.new.index
            × IsNameOf name labels)) }
        ensures refused { IfErr result (λ error.
            RefusesName decoder.old.bytes decoder.old.index error) }
        ensures fault { (error : DecodeError)
            → RefusesName decoder.old.bytes decoder.old.index error → result ≡ Err error }
        ensures bytes { decoder.new.bytes ≡ decoder.old.bytes }
        ensures err { OnErr result (decoder.new ≡ decoder.old) }
    {
        let place = decoder.index();
        let start = decoder.clone(place);
        match end_of_name(decoder.clone(place)) {
            Ok(end) => {
                *decoder = decoder.clone(end);
                Ok(NameView { decoder: start })
            }
            Err(error) => Err(error),
        }
    }

    /// Copies the name. The only error is want of memory, of which a name that is stored inline takes none: one of at most 24
    /// labels of at most 32 bytes in all.
    pub fn to_name(&self, alloc: Global) -> Result<Name, DecodeError>
        ensures copied { (labels : List (List ℕ)) → IsNameOf self.now labels → MatchResult result
            (λ name. name ≡ record { is_fqdn = true; labels = labels })
            (λ error. error ≡ DecodeError.Memory) }
        ensures inline { (labels : List (List ℕ)) → IsNameOf self.now labels → IsInline labels
            → IsOk result }
    {
        let place = self.decoder.index();
        Name::read(alloc, &mut self.decoder.clone(place))
    }
}

/// Reads the next element of a name.
fn read_part<'a>(reader: &mut BinDecoder<'a>) -> Result<Part<'a>, DecodeError>
    ensures shows { MatchesElement result (element (rest reader.old)) }
    ensures moved { IfOk result (λ part. Advances reader.old reader.new (part_len part)) }
{
    let code = reader.read_u8()?;
    match code {
        0 => Ok(Part::Closing),
        1..64 => Ok(Part::Label(reader.read_slice(code as usize)?)),
        64..192 => Err(DecodeError::UnrecognizedLabelCode),
        192.. => {
            let low = reader.read_u8()?;
            Ok(Part::Pointer((code as usize - 192) * 256 + low as usize))
        }
    }
}

/// Returns the end of the name at the decoder's offset.
fn end_of_name(decoder: BinDecoder<'_>) -> Result<usize, DecodeError>
    ensures read { IfOk result (λ end. (labels : List (List ℕ))
        × ReadsName decoder.entry.bytes decoder.entry.index labels end) }
    ensures within { IfOk result (λ end. end ≤ length decoder.entry.bytes) }
    ensures refused { IfErr result (λ error.
        RefusesName decoder.entry.bytes decoder.entry.index error) }
{
    let mut segment = decoder.index();
    let mut reader = decoder;
    // The length of the labels so far, with the root's zero byte.
    let mut len = 1;
    // The end of the name, once a pointer was followed.
    let mut end = None;
    loop {
        match read_part(&mut reader)? {
            Part::Closing => break,
            Part::Label(label) => {
                if len + label.len() + 1 > Name::MAX_LENGTH {
                    return Err(DecodeError::DomainNameTooLong);
                }
                len += label.len() + 1;
            }
            Part::Pointer(target) => {
                if target >= segment {
                    return Err(DecodeError::PointerNotPriorToLabel);
                }
                end = Some(end.unwrap_or(reader.index()));
                segment = reader.follow_pointers(target);
                reader = reader.clone(segment);
            }
        }
    }
    Ok(end.unwrap_or(reader.index()))
}
