//! How a reply is sent.

ghost use Rattle.std.specs.Prelude.{◌≡◌, option_map};
ghost use Rattle.dns_faults.specs.Delivery.{plain_sending, sending, sending_by};

use crate::rules::Fault;

/// A reply, and how it is sent.
#[derive(Drop)]
pub struct Delivery {
    /// The bytes of the reply, without a frame, or `None` if nothing is sent.
    pub reply: Option<Vec<u8>>,
    /// How often the reply is sent: once or twice.
    pub copies: u8,
    /// How long the reply waits before it is sent, in milliseconds.
    pub after_milliseconds: u64,
    /// How many bytes of the reply's frame are sent before the connection is closed, or `None` if it stays open.
    pub close_after: Option<usize>,
}

impl Delivery {
    /// Sends a reply once, at once.
    pub fn plain(reply: Option<Vec<u8>>) -> Delivery
        ensures { sending result ≡ plain_sending (option_map (λ bytes. bytes.items) reply) }
    {
        Delivery {
            reply,
            copies: 1,
            after_milliseconds: 0,
            close_after: None,
        }
    }

    /// Sends a reply as a fault says.
    pub fn by_fault(fault: &Fault, reply: Option<Vec<u8>>) -> Delivery
        ensures { sending result
            ≡ sending_by fault.now (option_map (λ bytes. bytes.items) reply) }
    {
        Delivery {
            reply,
            copies: if fault.duplicate { 2 } else { 1 },
            after_milliseconds: match fault.delay {
                Some(delay) => u64::from(delay),
                None => 0,
            },
            close_after: match fault.close {
                Some(place) => Some(place as usize),
                None => None,
            },
        }
    }
}
