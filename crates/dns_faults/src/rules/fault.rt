//! What goes wrong: the actions of a rule, and those that apply on a transport.

ghost use Rattle.std.specs.Prelude.{◌≡◌};
ghost use Rattle.dns_faults.specs.rules.Fault.{changes_delivery, changes_reply, has_action, no_fault, on_transport};

/// The transport of a request.
#[derive(Clone, Copy, Debug, PartialEq, Eq)]
pub enum Transport {
    /// A datagram.
    Datagram,
    /// A stream, whose replies are sent in frames.
    Stream,
}

/// What a request is answered with, before its reply is edited.
#[derive(Clone, Copy, Debug, PartialEq, Eq)]
pub enum Service {
    /// The reply of the server. An update is applied.
    Plain,
    /// No reply. The request is ignored: an update is not applied.
    Drop,
    /// A reply with the response code of this number, and without records. The request is not served: an update is not
    /// applied. Of the number, the lowest twelve bits count if the request has an OPT record (RFC 6891 section 6.1.3), and the
    /// lowest four if it has none.
    Code(u16),
    /// The reply of the server by the rows from before the last update. An update is applied to the current rows.
    Stale,
}

/// The actions that a rule takes, or those of them that apply on a transport.
///
/// They apply in the order of the fields. Only `service` decides whether an update is applied: with any other action it is,
/// although its reply may be late, changed or cut off.
#[derive(Clone, Copy, Debug, PartialEq, Eq)]
pub struct Fault {
    /// What the request is answered with.
    pub service: Service,
    /// Sets TC and removes all records but the OPT record (RFC 2181 section 9). Datagrams only.
    pub truncate: bool,
    /// Adds one to the id of the reply, modulo 65,536.
    pub wrong_id: bool,
    /// Changes the question of the reply.
    pub wrong_question: bool,
    /// Replaces the reply by so many bytes that do not decode.
    pub garbage: Option<u16>,
    /// Delays the reply, by so many milliseconds.
    pub delay: Option<u32>,
    /// Sends the reply twice. Datagrams only.
    pub duplicate: bool,
    /// Closes the connection after so many bytes of the reply's frame. Streams only.
    pub close: Option<u32>,
}

impl Fault {
    /// No action.
    pub fn none() -> Fault
        ensures { result ≡ no_fault }
    {
        Fault {
            service: Service::Plain,
            truncate: false,
            wrong_id: false,
            wrong_question: false,
            garbage: None,
            delay: None,
            duplicate: false,
            close: None,
        }
    }

    /// Returns the actions that apply on a transport.
    pub fn on_transport(&self, transport: Transport) -> Fault
        ensures { result ≡ on_transport transport self.now }
    {
        match transport {
            Transport::Datagram => Fault {
                close: None,
                ..*self
            },
            Transport::Stream => Fault {
                truncate: false,
                duplicate: false,
                ..*self
            },
        }
    }

    /// Returns `true` if there is an action.
    pub fn has_action(&self) -> bool
        ensures { result ≡ has_action self.now }
    {
        self.changes_reply() || self.changes_delivery()
    }

    /// Returns `true` if an action changes what the reply is.
    pub fn changes_reply(&self) -> bool
        ensures { result ≡ changes_reply self.now }
    {
        !matches!(self.service, Service::Plain)
            || self.truncate
            || self.wrong_id
            || self.wrong_question
            || self.garbage.is_some()
    }

    /// Returns `true` if an action changes how the reply is sent.
    pub fn changes_delivery(&self) -> bool
        ensures { result ≡ changes_delivery self.now }
    {
        self.delay.is_some() || self.duplicate || self.close.is_some()
    }
}
