//! The differences that are kept of zones, for incremental transfers (RFC 1995 section 5).

ghost use Rattle.std.specs.Prelude.{IfOk};
ghost use Rattle.dns_transfers.specs.replies.Recording.{AreHistoriesOf, AreNewIf};
ghost use Rattle.nameserver_handlers.specs.Keeping.{limits_of};

use dns_differences::Limits;
use dns_transfers::replies::Recorder;
use dns_zone::Zone;
use std::alloc::{AllocError, Global};

/// How many differences are kept of a zone at most.
const MAX_DIFFERENCES: usize = 1_000;

/// How many octets the records of a zone's differences have at most without compression: 64 MiB.
const MAX_OCTETS: usize = 67_108_864;

/// Returns what keeps differences of zones that have a number of records at most, or none if that is 0.
pub fn recorder_of(alloc: Global, zones: &[Zone], records: usize) -> Result<Recorder, AllocError>
    ensures histories { IfOk result (λ made.
        AreNewIf (limits_of records) zones.now made.histories.items) }
    ensures known { IfOk result (λ made. AreHistoriesOf zones.now made.histories.items) }
{
    let limits = if records > 0 {
        Some(Limits {
            differences: MAX_DIFFERENCES,
            records,
            octets: MAX_OCTETS,
        })
    } else {
        None
    };
    Recorder::new(alloc, zones, limits)
}
