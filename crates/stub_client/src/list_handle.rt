//! A handle that returns the outcomes of a list.

use crate::handle::DnsHandle;
use crate::request::DnsRequest;
use dns_messages::DnsResponse;
use stub_lookup::{Moment, NetError};

/// Returns the outcomes of a list, in order, whatever it is asked, and then [`NetError::Message`].
#[derive(Drop)]
pub struct ListHandle {
    /// The outcomes that are left.
    pub outcomes: Vec<Result<DnsResponse, NetError>>,
}

impl DnsHandle for ListHandle {
    ghost use Rattle.stub_client.specs.Handle.{Pops};

    ghost gives = { λ old request now outcome new. Pops old.outcomes.items outcome new.outcomes.items };

    fn send(&mut self, _request: DnsRequest, _now: Moment) -> Result<DnsResponse, NetError> {
        if self.outcomes.is_empty() {
            return Err(NetError::Message("no outcome is left"));
        }
        self.outcomes.remove(0)
    }
}
