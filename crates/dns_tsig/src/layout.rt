//! Where the TSIG record of a message is (RFC 8945 section 5.1).

ghost use Rattle.std.specs.Prelude.{◌≡◌, ◌≤◌, length};
ghost use Rattle.dns_tsig.specs.Layout.{IsPlace, last_layout, layout_of, records_layout};

use crate::numbers::number_at;
use crate::skip::{after_fields, after_name, after_questions, after_records, is_tsig};

/// Where the TSIG record of a message is.
#[derive(Clone, Copy, Debug, PartialEq, Eq)]
pub enum Layout {
    /// The message has no TSIG record.
    Unsigned,
    /// The last record, at this place of the message, is its only TSIG record.
    Signed(usize),
    /// The sections end early, or a TSIG record is not the last record of the additional section.
    Malformed,
}

/// Returns where the TSIG record of a message is.
pub fn layout_of(message: &[u8]) -> Layout
    ensures layout { result ≡ layout_of message.now }
    ensures place { IsPlace (length message.now) result }
{
    if message.len() < 12 {
        return Layout::Malformed;
    }
    match after_questions(&message[12..], number_at(message, 4)) {
        Some(records) => records_layout(message, records),
        None => Layout::Malformed,
    }
}

/// Returns the layout of a message whose questions were skipped.
fn records_layout(message: &[u8], records: &[u8]) -> Layout
    requires { 12 ≤ length message.now }
    ensures layout { result ≡ records_layout message.now records.now }
    ensures place { IsPlace (length message.now) result }
{
    let before = u32::from(number_at(message, 6)) + u32::from(number_at(message, 8));
    let additional = u32::from(number_at(message, 10));
    if additional == 0 {
        return match after_records(records, before) {
            Some(_) => Layout::Unsigned,
            None => Layout::Malformed,
        };
    }
    match after_records(records, before + (additional - 1)) {
        Some(last) => last_layout(message, last),
        None => Layout::Malformed,
    }
}

/// Returns the layout of a message whose last record begins here.
fn last_layout(message: &[u8], last: &[u8]) -> Layout
    requires { 12 ≤ length message.now }
    ensures layout { result ≡ last_layout message.now last.now }
    ensures place { IsPlace (length message.now) result }
{
    match after_name(last) {
        Some(fields) => {
            if is_tsig(fields) {
                return Layout::Signed(12 + (message.len() - 12).saturating_sub(last.len()));
            }
            match after_fields(fields) {
                Some(_) => Layout::Unsigned,
                None => Layout::Malformed,
            }
        }
        None => Layout::Malformed,
    }
}
