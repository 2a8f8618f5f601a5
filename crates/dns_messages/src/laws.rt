//! Theorems about the definitions of this crate, as functions with empty bodies.

mod decoding;
mod editing;
mod encoding;
mod sections;

pub use crate::header::{headers_are_peeked, headers_decode_as_encoded, metadata_round_trips};
pub use crate::response_code::{
    code_number_round_trips, code_parts_round_trip, decoded_codes_round_trip,
};
pub use decoding::{decoded_messages_are_sound, messages_decode_unambiguously};
pub use editing::{
    edns_flags_round_trip, stripping_is_conditional, stripping_is_idempotent,
    truncating_is_idempotent,
};
pub use encoding::{messages_within_the_limit_are_not_cut, sound_messages_keep_their_edns};
pub use sections::sections_come_in_order;
