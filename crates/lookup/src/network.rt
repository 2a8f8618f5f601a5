//! The network of the program.

use dns_formats::TypeWord;
use dns_message_bytes::view::MessageView;
use dns_messages::{MessageType, OpCode};
use dns_names::Name;
use std::alloc::Global;
use std::net::SocketAddr;
use std::time::Instant;
use stub_link::LinkError;
use stub_net::Network;
use stub_net_sockets::{SocketNetwork, Traced};

/// A network over sockets, which tells what it does, and what its messages ask and answer, if it is to.
#[derive(Drop)]
pub(crate) struct ProgramNetwork<'a> {
    traced: Traced<SocketNetwork<&'a HostRuntime>, &'a HostRuntime>,
    rt: &'a HostRuntime,
    start: Instant,
    is_on: bool,
}

impl<'a> ProgramNetwork<'a> {
    /// Creates the network of the program, which tells what it does since a moment if it is on.
    pub(crate) fn new(
        network: SocketNetwork<&'a HostRuntime>,
        rt: &'a HostRuntime,
        start: Instant,
        is_on: bool,
    ) -> ProgramNetwork<'a> {
        ProgramNetwork {
            traced: Traced::new(network, rt, start, is_on),
            rt,
            start,
            is_on,
        }
    }

    /// Says on standard error what a message asks or answers.
    fn tell(&self, bytes: &[u8]) {
        if !self.is_on {
            return;
        }
        let Some(text) = description_of(self.rt.alloc(), bytes) else {
            return;
        };
        let moment = self
            .start
            .elapsed(self.rt)
            .map_or(0, |elapsed| elapsed.as_millis());
        // A failure to write to standard error can't be reported.
        let _written = eprintln!(self.rt; "{moment} ms {text}");
    }
}

/// Returns what a message asks or answers, or `None` if it asks nothing, cannot be read, or memory is refused.
fn description_of(alloc: Global, bytes: &[u8]) -> Option<String> {
    let Ok(message) = MessageView::of(bytes) else {
        return None;
    };
    match message.queries().next() {
        Some(question) => {
            let Ok(name) = question.name.to_name(alloc) else {
                return None;
            };
            if message.metadata.op_code == OpCode::Update {
                return described_update(alloc, &name, &message);
            }
            let number = u16::from(question.query_type);
            described_query(alloc, &name, TypeWord { number }, &message)
        }
        None => described_reply(alloc, &message),
    }
}

/// Returns what a reply without a question answers, as one to an update may be (RFC 2136 section 3.8).
fn described_reply(alloc: Global, message: &MessageView<'_>) -> Option<String> {
    let code = message.metadata.response_code;
    match (message.metadata.message_type, message.metadata.op_code) {
        (MessageType::Query, _) => None,
        (MessageType::Response, OpCode::Update) => {
            format!(in alloc; "reply to update: {code}").ok()
        }
        (MessageType::Response, _) => { format!(in alloc; "reply without a question: {code}").ok() }
    }
}

/// Returns what a query asks, or its reply answers.
fn described_query(
    alloc: Global,
    name: &Name,
    record_type: TypeWord,
    message: &MessageView<'_>,
) -> Option<String> {
    let code = message.metadata.response_code;
    let count = message.answers().count();
    match message.metadata.message_type {
        MessageType::Query => format!(in alloc; "question {name} {record_type}").ok(),
        MessageType::Response => {
            format!(in alloc;
                "reply to {name} {record_type}: {code}, records in the answer: {count}"
            ).ok()
        }
    }
}

/// Returns which zone an update changes, or what its reply says.
fn described_update(alloc: Global, zone: &Name, message: &MessageView<'_>) -> Option<String> {
    let code = message.metadata.response_code;
    match message.metadata.message_type {
        MessageType::Query => format!(in alloc; "update of {zone}").ok(),
        MessageType::Response => format!(in alloc; "reply to update of {zone}: {code}").ok(),
    }
}

impl Network for ProgramNetwork<'_> {
    // What sockets carry is not known, and the program relies on nothing of it.
    ghost sends = { λ _ _ _ _ _. Unit {0} };

    ghost receives = { λ _ _ _ _. Unit {0} };

    ghost streams = { λ _ _ _ _ _ _. Unit {0} };

    ghost reads_clock = { λ _ _ _. Unit {0} };

    fn send(&mut self, server: SocketAddr, bytes: &[u8]) -> Result<(), LinkError> {
        self.tell(bytes);
        self.traced.send(server, bytes)
    }

    fn receive_until(&mut self, deadline: u64) -> Result<Option<Vec<u8>>, LinkError> {
        let outcome = self.traced.receive_until(deadline);
        if let Ok(Some(bytes)) = &outcome {
            self.tell(bytes.as_slice());
        }
        outcome
    }

    fn ask_stream(
        &mut self,
        server: SocketAddr,
        bytes: &[u8],
        deadline: u64,
    ) -> Result<Vec<u8>, LinkError> {
        self.tell(bytes);
        let outcome = self.traced.ask_stream(server, bytes, deadline);
        if let Ok(reply) = &outcome {
            self.tell(reply.as_slice());
        }
        outcome
    }

    fn now(&mut self) -> u64 {
        self.traced.now()
    }
}
