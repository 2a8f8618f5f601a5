//! The messages of an incremental transfer (RFC 1995 section 4).

ghost use Rattle.std.specs.Prelude.{◌≡◌, ◌≤◌, length, map, Err, IfOk};
ghost use Rattle.dns_transfers.specs.incremental.DifferenceRecords.{incremental_records, remaining};
ghost use Rattle.dns_transfers.specs.incremental.Messages.{soa_records, CannotSendDifferences, SendsDifferences};

use crate::incremental::difference_records::DifferenceRecords;
use crate::{Transfer, TransferError};
use dns_differences::Difference;
use dns_messages::Message;
use dns_wire::RecordType;
use dns_zone::Zone;
use std::alloc::Global;

/// Returns the messages of the reply to a request, with differences that lead to the version that a zone has now. Without
/// differences, there is one message with the SOA record (RFC 1995 section 2).
///
/// # Errors
///
/// - [`TransferError::TooLong`] if a record has no room in a message;
/// - [`TransferError::Memory`] if memory is refused.
pub fn incremental_transfer(
    alloc: Global,
    zone: &Zone,
    differences: &[Difference],
    request: &Message,
) -> Result<Vec<Vec<u8>>, TransferError>
    requires { length request.now.queries ≤ 1 }
    ensures messages { IfOk result (λ messages. SendsDifferences zone.now differences.now
        request.now (map (λ bytes. bytes.items) messages.items)) }
    ensures too_long { result ≡ Err TransferError.TooLong
        → CannotSendDifferences zone.now differences.now request.now }
{
    let transfer = Transfer::new(alloc, request, records_of(zone, differences));
    transfer.into_messages()
}

/// Returns the records of a transfer with differences that lead to the version that a zone has now.
fn records_of<'a>(zone: &'a Zone, differences: &'a [Difference]) -> DifferenceRecords<'a>
    ensures { remaining result ≡ incremental_records (soa_records zone.now) differences.now }
{
    let origin = zone.origin();
    let soa = zone.records_at(origin, RecordType::SOA);
    DifferenceRecords::new(origin, soa, differences)
}
