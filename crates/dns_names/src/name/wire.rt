//! Names on the wire (RFC 1035 sections 3.1 and 4.1.4).

ghost use Rattle.std.specs.Prelude.{◌≡◌, ◌≢◌, ◌+◌, ℕ, List, true, length, ◌≤◌, MatchResult, Ok, Err, None, IsOk, IfOk, IfErr, IfSome, OnErr, ◌<◌, OnOk};
ghost use Rattle.dns_wire.specs.Element.{element_at};
ghost use Rattle.dns_wire.specs.Reading.{ReadsName, RefusesName};
ghost use Rattle.dns_names.specs.internal.Wire.{LabelIs, RunIs, RunFails, IsRunEnd, element_of, element_len};
ghost use Rattle.dns_wire.specs.Encoder.{state_of, IsAtEnd, CanRollBack};
ghost use Rattle.dns_wire.specs.Name.{AreLabels};
ghost use Rattle.dns_names.specs.Name.{IsInline};
ghost use Rattle.dns_wire.specs.Encodable.{Emits};
ghost use Rattle.dns_names.specs.internal.Wire.{labels_pieces, whole_pieces, append_compressed, compressed_reach};

use crate::name::Name;
use dns_wire::{
    BinDecodable, BinDecoder, BinEncodable, BinEncoder, DecodeError, EncodeError, NameEncoding,
    RDataEncoding,
};
use std::alloc::Global;

/// Returns the end of the label that begins at a place, or `None` if none begins there.
fn label_end(bytes: &[u8], place: usize) -> Result<Option<usize>, DecodeError>
    requires { place ≤ length bytes.now }
    ensures label { IfOk result (λ end. IfSome end (LabelIs bytes.now place)) }
    ensures none { result ≡ Ok None → IsRunEnd bytes.now place }
    ensures refused { IfErr result (λ error. element_at bytes.now place ≡ Err error) }
{
    if place == bytes.len() {
        return Ok(None);
    }
    let len = bytes[place] as usize;
    if len == 0 {
        return Ok(None);
    }
    if len >= 64 {
        return Ok(None);
    }
    let end = place + len + 1;
    if end > bytes.len() {
        return Err(DecodeError::InsufficientBytes);
    }
    Ok(Some(end))
}

/// Returns the end of the labels from `place` on, before the first byte that begins no label, and their number. They may
/// have `room` bytes in all, with their lengths.
fn run_end(bytes: &[u8], place: usize, room: usize) -> Result<(usize, usize), DecodeError>
    requires { place ≤ length bytes.now }
    ensures ok { IfOk result (λ found. RunIs bytes.now place room found.0 found.1) }
    ensures ends { IfOk result (λ found. IsRunEnd bytes.now found.0) }
    ensures refused { IfErr result (λ error. RunFails bytes.now place room error) }
{
    let mut end = place;
    let mut count = 0;
    while let Some(next) = label_end(bytes, end)? {
        if next - place > room {
            return Err(DecodeError::DomainNameTooLong);
        }
        end = next;
        count += 1;
    }
    Ok((end, count))
}

/// Reads what ends a run of labels: the target of a compression pointer, or `None` for the root's zero byte.
fn read_target(bytes: &[u8], place: usize) -> Result<Option<usize>, DecodeError>
    requires within { place ≤ length bytes.now }
    requires ends { IsRunEnd bytes.now place }
    ensures shows { MatchResult result
        (λ target. element_at bytes.now place ≡ Ok (element_of target))
        (λ error. element_at bytes.now place ≡ Err error) }
    ensures within { IfOk result (λ target. place + element_len target ≤ length bytes.now) }
{
    if place == bytes.len() {
        return Err(DecodeError::InsufficientBytes);
    }
    let code = bytes[place];
    if code == 0 {
        return Ok(None);
    }
    if code < 192 {
        return Err(DecodeError::UnrecognizedLabelCode);
    }
    if place + 1 == bytes.len() {
        return Err(DecodeError::InsufficientBytes);
    }
    Ok(Some(256 * (code as usize - 192) + bytes[place + 1] as usize))
}

/// Returns all bytes of a decoder, those that were read too.
fn all_bytes<'a>(decoder: &BinDecoder<'a>) -> &'a [u8]
    ensures { result.now ≡ decoder.now.bytes }
{
    let mut reader = decoder.clone(decoder.index());
    let _unread = reader.read_slice(decoder.len()).unwrap();
    reader.slice_from(0)
}

impl Name {
    /// Decodes a name and advances past it. On an error the decoder is unchanged (RFC 1035 section 4.1.4).
    pub fn read(alloc: Global, decoder: &mut BinDecoder<'_>) -> Result<Name, DecodeError>
        // The bytes encode the name that is returned, and the decoder advances to its end.
        ensures read { IfOk result
            (λ name. ReadsName decoder.old.bytes decoder.old.index name.labels decoder.new.index) }
        ensures fqdn { IfOk result (λ name. name.is_fqdn ≡ true) }
        // An encoded name is decoded, unless memory runs out.
        ensures only { (labels : List (List ℕ)) (end : ℕ)
            → ReadsName decoder.old.bytes decoder.old.index labels end
            → MatchResult result (λ name. (name.labels ≡ labels) × (decoder.new.index ≡ end))
            (λ error. error ≡ DecodeError.Memory) }
        // A name that is stored inline takes no memory.
        ensures inline { (labels : List (List ℕ)) (end : ℕ)
            → ReadsName decoder.old.bytes decoder.old.index labels end
            → IsInline labels → IsOk result }
        // A fault of the first element is found before memory is taken.
        ensures fault { (error : DecodeError)
            → element_at decoder.old.bytes decoder.old.index ≡ Err error → result ≡ Err error }
        // The error is the first fault of the bytes.
        ensures refused { IfErr result (λ error. error ≢ DecodeError.Memory
            → RefusesName decoder.old.bytes decoder.old.index error) }
        ensures bytes { decoder.new.bytes ≡ decoder.old.bytes }
        ensures err { OnErr result (decoder.new ≡ decoder.old) }
    {
        let (name, end) = read_at(alloc, decoder.clone(decoder.index()))?;
        *decoder = decoder.clone(end);
        Ok(name)
    }
}

impl BinDecodable for Name {
    ghost use Rattle.std.specs.Prelude.{true};
    ghost use Rattle.dns_wire.proofs.ReadingLaws.{reads_not_refused};
    ghost use Rattle.dns_names.specs.internal.Wire.{one_name};

    ghost decodes = { λ bytes place name end. ReadsName bytes place name.labels end
        × (name.is_fqdn ≡ true) };

    ghost refuses = { RefusesName };

    fn read(alloc: Global, decoder: &mut BinDecoder<'_>) -> Result<Name, DecodeError> {
        Name::read(alloc, decoder)
    }

    ghost unambiguous = { one_name };

    ghost not_refused = { λ bytes place value end error decodes refused.
        reads_not_refused decodes.0 refused };
}

/// Decodes the name at the decoder's offset, and returns the offset of its end too.
fn read_at(alloc: Global, decoder: BinDecoder<'_>) -> Result<(Name, usize), DecodeError>
    ensures read { IfOk result
        (λ found. ReadsName decoder.entry.bytes decoder.entry.index found.0.labels found.1) }
    ensures fqdn { IfOk result (λ found. found.0.is_fqdn ≡ true) }
    ensures end { IfOk result (λ found. found.1 ≤ length decoder.entry.bytes) }
    ensures inline { (labels : List (List ℕ)) (end : ℕ)
        → ReadsName decoder.entry.bytes decoder.entry.index labels end
        → IsInline labels → IsOk result }
    ensures fault { (error : DecodeError)
        → element_at decoder.entry.bytes decoder.entry.index ≡ Err error → result ≡ Err error }
    ensures refused { IfErr result (λ error. error ≢ DecodeError.Memory
        → RefusesName decoder.entry.bytes decoder.entry.index error) }
{
    let bytes = all_bytes(&decoder);
    let mut name = Name::root(alloc);
    let mut place = decoder.index();
    // The end of the name, once a pointer was followed.
    let mut end = None;
    loop {
        let room = Name::MAX_LENGTH - name.encoded_len();
        let (last, count) = run_end(bytes, place, room)?;
        name.push_run(&bytes[place..last], count)?;
        match read_target(bytes, last)? {
            None => return Ok((name, end.unwrap_or(last + 1))),
            Some(target) => {
                if target >= place {
                    return Err(DecodeError::PointerNotPriorToLabel);
                }
                end = Some(end.unwrap_or(last + 2));
                place = decoder.follow_pointers(target);
            }
        }
    }
}

/// A relative name is encoded like the fully qualified name with the same labels.
impl BinEncodable for Name {
    ghost use Rattle.std.specs.Prelude.{[], ◌∷◌};
    ghost use Rattle.dns_wire.specs.Encodable.{Domain};

    ghost pieces = { λ name _. Domain name.labels ∷ [] };

    fn emit(&self, encoder: &mut BinEncoder<'_>) -> Result<(), EncodeError> {
        match encoder.name_encoding() {
            NameEncoding::Compressed => {
                if encoder.begin_name() {
                    self.emit_compressed(encoder)
                } else {
                    self.emit_whole(encoder)
                }
            }
            NameEncoding::Uncompressed => self.emit_whole(encoder),
            NameEncoding::UncompressedLowercase => self.to_lowercase()?.emit_whole(encoder),
        }
    }
}

impl Name {
    ghost use Rattle.std.specs.Prelude.{[], ◌∷◌, IsOk};
    ghost use Rattle.dns_wire.specs.Encodable.{name_piece, AreWritable};

    /// Encodes the name as record data of this kind requires (RFC 3597 section 4, RFC 4034 section 6.2). The encoding of
    /// names is set for this name alone, and restored on an error too.
    pub fn emit_with_behavior(
        &self,
        behavior: RDataEncoding,
        encoder: &mut BinEncoder<'_>,
    ) -> Result<(), EncodeError>
        requires { IsAtEnd (state_of encoder.old) }
        ensures emits { Emits (state_of encoder.old)
            (name_piece behavior (state_of encoder.old).canonical self.now.labels ∷ [])
            result (state_of encoder.new) }
        ensures writable { IsOk result → AreWritable
            (name_piece behavior (state_of encoder.old).canonical self.now.labels ∷ []) }
    {
        let previous = encoder.name_encoding();
        let required = encoder.rdata_name_encoding(behavior);
        encoder.set_name_encoding(required);
        let result = self.emit(encoder);
        encoder.set_name_encoding(previous);
        result
    }

    /// Encodes the name without compression, with the case that it has.
    fn emit_whole(&self, encoder: &mut BinEncoder<'_>) -> Result<(), EncodeError>
        requires { IsAtEnd (state_of encoder.old) }
        ensures emits { Emits (state_of encoder.old) (whole_pieces self.now.labels) result
            (state_of encoder.new) }
        ensures labels { AreLabels self.now.labels }
    {
        self.emit_labels(encoder)?;
        encoder.emit_u8(0)
    }

    /// Writes each label after a length byte.
    fn emit_labels(&self, encoder: &mut BinEncoder<'_>) -> Result<(), EncodeError>
        requires { IsAtEnd (state_of encoder.old) }
        ensures emits { Emits (state_of encoder.old) (labels_pieces self.now.labels) result
            (state_of encoder.new) }
        ensures labels { AreLabels self.now.labels }
    {
        encoder.emit_vec(self.wire())
    }

    /// Encodes the name, and replaces its longest remembered suffix by a compression pointer.
    fn emit_compressed(&self, encoder: &mut BinEncoder<'_>) -> Result<(), EncodeError>
        requires { IsAtEnd (state_of encoder.old) }
        ensures ok { OnOk result (state_of encoder.new
            ≡ append_compressed (state_of encoder.old) self.now.labels) }
        ensures room { OnOk result (compressed_reach (state_of encoder.old) self.now.labels
            ≤ (state_of encoder.old).limit) }
        ensures full { result ≡ Err EncodeError.MaxBufferSizeExceeded
            → (state_of encoder.old).limit
            < compressed_reach (state_of encoder.old) self.now.labels }
        ensures attempts { result ≡ Err EncodeError.MaxBufferSizeExceeded
            → (state_of encoder.new).attempts ≡ (state_of encoder.old).attempts }
        ensures err { OnErr result (CanRollBack (state_of encoder.old) (state_of encoder.new)) }
        ensures labels { AreLabels self.now.labels }
    {
        let start = encoder.offset();
        self.emit_labels(encoder)?;
        let end = encoder.offset();
        let wire = self.wire();
        let mut place = start;
        for index in 0..self.label_count() {
            if let Some(target) = encoder.find_or_store_label_pointer(place, end)? {
                encoder.set_offset(place);
                encoder.trim();
                return encoder.emit_u16(0xC000 | target);
            }
            place += wire[place - start] as usize + 1;
        }
        encoder.emit(0)
    }
}
