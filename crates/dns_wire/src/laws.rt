//! Laws: what the definitions of this crate imply, as functions with empty bodies.

ghost use Rattle.std.specs.Prelude.{◌≡◌, ◌+◌, ◌≤◌, Bool, List, ℕ, [], ◌∷◌, ◌++◌, length, Result, Ok, Err};
ghost use Rattle.dns_wire.specs.Laws.{Part, state_after, IsLost, Calls, SurvivorsDecode, ArePointerTargetsUnlessLost};
ghost use Rattle.dns_wire.specs.Encoder.{EncoderState, IsAtEnd, CanRollBack, put_at, trim_to_offset};
ghost use Rattle.dns_wire.specs.Encodable.{Piece, Plain, Domain, Whole, position_of, after, reach, append_pieces, name_piece, Emits, PiecesAt, IsWritable, AreWritable, AllBehind};
ghost use Rattle.dns_wire.specs.Name.{AreLabels};
ghost use Rattle.dns_wire.specs.NameEncoding.{rdata_mode};
ghost use Rattle.dns_wire.specs.Writing.{ArePointerTargets, IsWholeEncoding, spelling};
ghost use Rattle.dns_wire.specs.declared.error.EncodeError.{EncodeError};
ghost use Rattle.dns_wire.specs.declared.name_encoding.NameEncoding.{NameEncoding};
ghost use Rattle.dns_wire.specs.declared.name_encoding.RDataEncoding.{RDataEncoding};

pub use crate::codes::laws::{
    class_number_round_trips, serials_compare_by_distance, type_number_round_trips,
};

/// Pieces that are written at the end decode as they were written, if every remembered suffix can be the target of a
/// pointer, and the pieces' names are names. Afterwards every remembered suffix can be the target of a pointer again
/// (RFC 1035 section 4.1.4).
pub fn pieces_decode_as_written()
    ensures { (w : EncoderState) (ps : List Piece)
        → IsAtEnd w → ArePointerTargets w.bytes w.suffixes → AreWritable ps
        → PiecesAt w.encoding (append_pieces w ps).bytes w.offset ps (append_pieces w ps).offset
        × ArePointerTargets (append_pieces w ps).bytes (append_pieces w ps).suffixes }
{}

/// After any sequence of calls, each piece that was written decodes, unless it was truncated or refers to what was
/// truncated. Every remembered suffix that was not truncated can be the target of a pointer (RFC 1035 section 4.1.4).
///
/// The calls are writes at the end, refused writes that are rolled back, setting the offset back and trimming, filling
/// places, and setting modes and the maximum size. No suffix is stored by hand.
pub fn surviving_writes_decode()
    ensures { (old w : EncoderState) (parts : List Part)
        → IsAtEnd old → ArePointerTargets old.bytes old.suffixes → Calls old parts w
        → (w.bytes ≡ (state_after old parts).bytes) × IsAtEnd w
        × ArePointerTargetsUnlessLost (IsLost old parts) w.bytes w.suffixes
        × SurvivorsDecode old parts w.bytes }
{}

/// Bytes that follow do not change how pieces decode.
pub fn appending_preserves_decoding()
    ensures { (encoding : NameEncoding) (bytes more : List ℕ) (place end : ℕ) (ps : List Piece)
        → PiecesAt encoding bytes place ps end → PiecesAt encoding (bytes ++ more) place ps end }
{}

/// Two emissions in a row are one emission of all their pieces, and so is a refused one.
pub fn emissions_compose()
    ensures then { (old middle new : EncoderState) (ps qs : List Piece)
        (result : Result (Unit {0}) EncodeError)
        → IsAtEnd old → Emits old ps (Ok tt) middle → Emits middle qs result new
        → Emits old (ps ++ qs) result new }
    ensures stop { (old new : EncoderState) (ps qs : List Piece) (error : EncodeError)
        → Emits old ps (Err error) new → Emits old (ps ++ qs) (Err error) new }
{}

/// A name that is emitted while an encoding without compression is set for it alone is written without compression
/// (RFC 3597 section 4, RFC 4034 section 6.2).
pub fn whole_encodings_write_whole_names()
    ensures { (old new : EncoderState) (encoding : NameEncoding) (labels : List (List ℕ))
        (result : Result (Unit {0}) EncodeError) → IsWholeEncoding encoding
        → Emits (record old { encoding = encoding }) (Domain labels ∷ []) result new
        → Emits old (Whole (spelling encoding labels) ∷ []) result
        (record new { encoding = old.encoding }) }
{}

/// A name that is emitted while the encoding that its record data requires is set for it alone is written as its
/// `name_piece` (RFC 3597 section 4, RFC 4034 section 6.2), which is writable if the labels are those of a name.
pub fn record_data_encodings_write_name_pieces()
    ensures emits { (old new : EncoderState) (kind : RDataEncoding) (labels : List (List ℕ))
        (result : Result (Unit {0}) EncodeError)
        → Emits (record old { encoding = rdata_mode kind old.canonical old.encoding })
        (Domain labels ∷ []) result new
        → Emits old (name_piece kind old.canonical labels ∷ []) result
        (record new { encoding = old.encoding }) }
    ensures writable { (kind : RDataEncoding) (canonical : Bool) (labels : List (List ℕ))
        → AreLabels labels → IsWritable (name_piece kind canonical labels) }
{}

/// A write that can be rolled back can be rolled back together with those before it. Rolling back restores the state,
/// except for the number of names that were tried, if every remembered suffix starts before the offset.
pub fn roll_back_composes()
    ensures further { (old middle new : EncoderState) → old.offset ≤ middle.offset
        → CanRollBack old middle → CanRollBack middle new → CanRollBack old new }
    ensures written { (w : EncoderState) (ps : List Piece)
        → IsAtEnd w → CanRollBack w (append_pieces w ps) }
    ensures restores { (old new : EncoderState)
        → IsAtEnd old → AllBehind (position_of old) → CanRollBack old new
        → trim_to_offset (record new { offset = old.offset })
        ≡ record old { attempts = new.attempts } }
{}

/// Every remembered suffix starts before the offset, if each can be the target of a pointer, and still does after a
/// write.
pub fn suffixes_start_before_the_offset()
    ensures targets { (w : EncoderState)
        → IsAtEnd w → ArePointerTargets w.bytes w.suffixes → AllBehind (position_of w) }
    ensures after_writes { (w : EncoderState) (ps : List Piece)
        → AllBehind (position_of w) → AllBehind (position_of (append_pieces w ps)) }
{}

/// Writing bytes and later overwriting them with as many others is the same as writing the others.
pub fn filling_a_place_is_writing_its_value()
    ensures { (w : EncoderState) (earlier later : List Piece) (a b : List ℕ)
        → IsAtEnd w → length a ≡ length b
        → record (append_pieces w (earlier ++ Plain a ∷ later)) {
          bytes = put_at (after (position_of w) earlier).place b
              (append_pieces w (earlier ++ Plain a ∷ later)).bytes;
        } ≡ append_pieces w (earlier ++ Plain b ∷ later) }
{}

/// An emission whose bytes are later overwritten with as many others is the emission of the others, and so is a refused
/// one. A place that was emitted lies within the maximum size.
pub fn filled_emissions_are_emissions()
    ensures filled { (old middle new : EncoderState) (earlier later : List Piece) (a b : List ℕ)
        → IsAtEnd old → length a ≡ length b
        → Emits old (earlier ++ Plain a ∷ later) (Ok tt) middle
        → new ≡ record middle {
          bytes = put_at (after (position_of old) earlier).place b middle.bytes;
        }
        → Emits old (earlier ++ Plain b ∷ later) (Ok tt) new }
    ensures refused { (old new : EncoderState) (earlier later : List Piece) (a b : List ℕ)
        (error : EncodeError) → length a ≡ length b
        → Emits old (earlier ++ Plain a ∷ later) (Err error) new
        → Emits old (earlier ++ Plain b ∷ later) (Err error) new }
    ensures within { (old : EncoderState) (earlier later : List Piece) (a : List ℕ)
        → reach (position_of old) (earlier ++ Plain a ∷ later) ≤ old.limit
        → (after (position_of old) earlier).place + length a ≤ old.limit }
{}
