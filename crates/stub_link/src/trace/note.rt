//! Notes of the calls of a link.

ghost use Rattle.std.specs.Prelude.{◌≡◌, IfOk, Ok, Err};
ghost use Rattle.stub_link.specs.Link.{datagram_of, stream_reply_of};
ghost use Rattle.stub_link.specs.trace.Trace.{call_of, received, sent, streamed};

use crate::LinkError;
use std::alloc::{AllocError, Global};

/// A call of a link, with copies of its bytes.
#[derive(Drop)]
pub enum Note {
    /// A datagram was sent, or the call failed.
    Send {
        bytes: Vec<u8>,
        outcome: Result<(), LinkError>,
    },
    /// A datagram was received, or there was none, or the call failed.
    Receive(Result<Option<Vec<u8>>, LinkError>),
    /// A message was sent over a stream and its reply received, or the call failed.
    Stream {
        bytes: Vec<u8>,
        outcome: Result<Vec<u8>, LinkError>,
    },
}

impl Note {
    /// Notes that a datagram was sent.
    pub(crate) fn of_send(
        alloc: Global,
        bytes: &[u8],
        outcome: Result<(), LinkError>,
    ) -> Result<Note, AllocError>
        ensures { IfOk result (λ note. call_of note ≡ sent bytes.now outcome) }
    {
        let bytes = Vec::from_slice(alloc, bytes)?;
        Ok(Note::Send { bytes, outcome })
    }

    /// Notes what a receive came to.
    pub(crate) fn of_receive(
        alloc: Global,
        outcome: &Result<Option<Vec<u8>>, LinkError>,
    ) -> Result<Note, AllocError>
        ensures { IfOk result (λ note. call_of note ≡ received (datagram_of outcome.now)) }
    {
        match outcome {
            Ok(Some(bytes)) => {
                let bytes = Vec::from_slice(alloc, bytes.as_slice())?;
                Ok(Note::Receive(Ok(Some(bytes))))
            }
            Ok(None) => Ok(Note::Receive(Ok(None))),
            Err(error) => Ok(Note::Receive(Err(*error))),
        }
    }

    /// Notes what was sent and received over a stream.
    pub(crate) fn of_stream(
        alloc: Global,
        bytes: &[u8],
        outcome: &Result<Vec<u8>, LinkError>,
    ) -> Result<Note, AllocError>
        ensures { IfOk result (λ note.
            call_of note ≡ streamed bytes.now (stream_reply_of outcome.now)) }
    {
        let bytes = Vec::from_slice(alloc, bytes)?;
        match outcome {
            Ok(reply) => {
                let reply = Vec::from_slice(alloc, reply.as_slice())?;
                Ok(Note::Stream {
                    bytes,
                    outcome: Ok(reply),
                })
            }
            Err(error) => Ok(Note::Stream {
                bytes,
                outcome: Err(*error),
            }),
        }
    }
}
