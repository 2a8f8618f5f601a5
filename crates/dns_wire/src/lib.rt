//! The wire format of DNS (RFC 1035 section 4): decoding and encoding of bytes, numbers and names.
//!
//! An encoder promises what it wrote: a sequence of pieces, which are plain bytes and names. Their encoding depends on
//! the position (the offset, the encoding of names, the remembered suffixes, the number of names that were tried), and
//! on no byte that was written before. So the pieces tell what the buffer contains; `laws` says that they decode again.
//!
//! - `decoder`, `decodable`: reads from the front of the unread bytes, where a failed read changes nothing; `pointers`:
//!   compression pointers that lead to compression pointers, and a table of where they end;
//! - `encoder`, `encodable`: writes at an offset, up to a maximum size; `suffixes`: the targets of compression pointers;
//!   `name_encoding`, `modal_encoder`: how names are encoded; `place`: places that are filled in later; `items`: lists of
//!   values; `numbers`: numbers as values;
//! - `error`: the errors; `laws`: the laws of decoding and encoding. The codes are those of `dns_codes`.
//!
//! Further modules, each with a page of its own:
//! - [`codes`]: the codes of DNS: types, classes and serial numbers (RFC 1035 section 3.2, RFC 1982).
#![tactic(auto)]

pub mod codes;
mod decodable;
mod decoder;
mod encodable;
mod encoder;
mod error;
mod items;
pub mod laws;
mod modal_encoder;
mod name_encoding;
mod numbers;
mod place;
mod pointers;
mod suffixes;

pub use crate::codes::{CodeTextError, DNSClass, RecordType, SerialNumber, SerialOrder};
pub use decodable::BinDecodable;
pub use decoder::BinDecoder;
pub use encodable::{BinEncodable, EncodedSize};
pub use encoder::BinEncoder;
pub use error::{DecodeError, EncodeError, ProtoError};
pub use items::{emit_fitting, emit_if_fits};
pub use modal_encoder::ModalEncoder;
pub use name_encoding::{NameEncoding, RDataEncoding};
pub use place::Place;
pub use pointers::PointerTable;
