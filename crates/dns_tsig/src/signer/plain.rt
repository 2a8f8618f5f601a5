//! Messages without their TSIG records.

ghost use Rattle.std.specs.Prelude.{◌≡◌, ◌≤◌, ◌-◌, length, IfOk};
ghost use Rattle.dns_tsig.specs.signer.Plain.{plain_message};
ghost use Rattle.dns_tsig.specs.Numbers.{number_at};

use std::alloc::{AllocError, Global};

/// Returns a message whose TSIG record is at a place, without this record. Its id stays as it is: the id that was signed is in the
/// record, since a forwarder may send a request on under another one (RFC 8945 sections 4.3.2 and 5.5).
pub(crate) fn plain_message(
    alloc: Global,
    message: &[u8],
    place: usize,
) -> Result<Vec<u8>, AllocError>
    requires after_header { 12 ≤ place }
    requires within { place ≤ length message.now }
    ensures { IfOk result (λ made. made.items ≡ plain_message message.now place) }
{
    let count = records_before(message);
    let mut made = Vec::new(alloc);
    made.extend_from_slice(&message[..10])?;
    made.extend_from_slice(&count.to_be_bytes())?;
    made.extend_from_slice(&message[12..place])?;
    Ok(made)
}

/// Returns the number of records in the additional section before the TSIG record.
fn records_before(message: &[u8]) -> u16
    requires { 12 ≤ length message.now }
    ensures { result ≡ number_at message.now 10 - 1 }
{
    let count = 256 * u16::from(message[10]) + u16::from(message[11]);
    count.saturating_sub(1)
}
