//! Scripts: what a link does during an event.

/// Something that happens on a link.
#[derive(Clone, Copy, Debug, PartialEq, Eq)]
pub enum LinkEvent {
    /// A datagram with a question reaches the server: the newest if the number is 0, and an older one otherwise.
    Question(usize),
    /// The datagram of an update event reaches the server: of the first one if the number is 0, and of a later one otherwise.
    Update(usize),
    /// A reply to a datagram reaches the asker: the newest if the number is 0, and an older one otherwise.
    Reply(usize),
    /// A receive finds no datagram.
    Quiet,
    /// The call that finds it in front fails.
    Fail,
}

/// What a link does during an event.
#[derive(Debug, Drop)]
pub enum Script {
    /// Each datagram of the event is delivered once, at the next receive, which brings its reply.
    Honest,
    /// These events happen, in order. What names no datagram is skipped. When the event ends, the questions and updates that
    /// are left are delivered, and the rest is dropped.
    Listed(Vec<LinkEvent>),
}
