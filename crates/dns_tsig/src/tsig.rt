//! The fields of a TSIG record (RFC 8945 section 4.2).

ghost use Rattle.std.specs.Prelude.{◌≡◌, ◌+◌, ◌<◌, ◌≤◌, length, IfSome, Option, option_map};
ghost use Rattle.dns_tsig.specs.Tsig.{algorithm_of, data_of, mac_of, other_of, tsig_of};

use crate::numbers::{number_at, time_at};
use crate::skip::after_plain_name;
use std::marker::Model;

/// What begins a TSIG record after its owner: the type TSIG, the class ANY, and a TTL of 0.
pub const HEAD: [u8; 8] = [0, 250, 0, 255, 0, 0, 0, 0];

/// The greatest length of a name on the wire.
const MAX_NAME_LEN: usize = 255;

/// The fields of a TSIG record, but for its owner, borrowed from a message.
#[derive(Drop)]
pub struct Tsig<'m> {
    algorithm: &'m [u8],
    time: u64,
    fudge: u16,
    mac: &'m [u8],
    original_id: u16,
    error: u16,
    other: &'m [u8],
}

impl<'m> Model for Tsig<'m> {
    ghost use Rattle.std.specs.Prelude.{◌<◌, ◌≤◌, length};
    ghost use Rattle.dns_tsig.specs.TsigFields.{TsigFields};

    ghost Value = { TsigFields };

    ghost view = { λ t. record {
      algorithm = t.algorithm.now;
      time = t.time;
      fudge = t.fudge;
      mac = t.mac.now;
      original_id = t.original_id;
      error = t.error;
      other = t.other.now;
    } };

    ghost invariant = { λ t. (length t.other.now < 65536) × (length t.mac.now < 65536)
        × (length t.algorithm.now ≤ 255) };
}

impl<'m> Tsig<'m> {
    /// Returns the name of the algorithm, as it is in the message.
    pub fn algorithm(&self) -> &'m [u8]
        ensures value { result.now ≡ self.now.algorithm }
        ensures short { length result.now ≤ 255 }
    {
        self.algorithm
    }

    /// Returns the time of signing, in seconds since 1 January 1970 (UTC).
    pub fn time(&self) -> u64
        ensures { result ≡ self.now.time }
    {
        self.time
    }

    /// Returns the number of seconds by which the time may differ from the clock of the verifier.
    pub fn fudge(&self) -> u16
        ensures { result ≡ self.now.fudge }
    {
        self.fudge
    }

    /// Returns the message authentication code, which may be truncated.
    pub fn mac(&self) -> &'m [u8]
        ensures value { result.now ≡ self.now.mac }
        ensures short { length result.now < 65536 }
    {
        self.mac
    }

    /// Returns the id that the message was signed with.
    pub fn original_id(&self) -> u16
        ensures { result ≡ self.now.original_id }
    {
        self.original_id
    }

    /// Returns the error, 0 if there is none.
    pub fn error(&self) -> u16
        ensures { result ≡ self.now.error }
    {
        self.error
    }

    /// Returns the other data: the time of a server, if the error is BADTIME.
    pub fn other(&self) -> &'m [u8]
        ensures value { result.now ≡ self.now.other }
        ensures short { length result.now < 65536 }
    {
        self.other
    }
}

/// Returns the TSIG record of the bytes after its owner, which must be its whole rest.
pub fn read_tsig(fields: &[u8]) -> Option<Tsig<'_>>
    ensures { result ≡ tsig_of fields.now }
{
    let data = read_data(fields)?;
    let rest = after_plain_name(data)?;
    let algorithm = &data[..data.len().saturating_sub(rest.len())];
    read_fields(algorithm, rest)
}

/// Returns the data of a TSIG record.
fn read_data(fields: &[u8]) -> Option<&[u8]>
    ensures { option_map (λ found. found.now) result ≡ data_of fields.now }
{
    if fields.len() < 10 || &fields[..8] != HEAD.as_slice() {
        return None;
    }
    if usize::from(number_at(fields, 8)) != fields.len() - 10 {
        return None;
    }
    Some(&fields[10..])
}

/// Returns the TSIG record of an algorithm and the data after it.
fn read_fields<'m>(algorithm: &'m [u8], rest: &'m [u8]) -> Option<Tsig<'m>>
    ensures { result ≡ algorithm_of algorithm.now rest.now }
{
    if rest.len() < 10 || algorithm.len() > MAX_NAME_LEN {
        return None;
    }
    let mac_len = usize::from(number_at(rest, 8));
    let behind = &rest[10..];
    if behind.len() < mac_len + 6 {
        return None;
    }
    let tail = &behind[mac_len..];
    let other = &tail[6..];
    if usize::from(number_at(tail, 4)) != other.len() {
        return None;
    }
    Some(Tsig {
        algorithm,
        time: time_at(rest),
        fudge: number_at(rest, 6),
        mac: &behind[..mac_len],
        original_id: number_at(tail, 0),
        error: number_at(tail, 2),
        other,
    })
}
