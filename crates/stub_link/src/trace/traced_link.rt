//! A link that notes its calls.

ghost use Rattle.std.specs.Prelude.{◌≡◌, [], Ok, Err, IfOk, OnErr, true, false};

use crate::trace::note::Note;
use crate::{Link, LinkError};
use std::alloc::{AllocError, Global};

/// A link that passes each call on to another link, and notes it.
///
/// The results are those of the other link, whatever memory there is for notes. If a note is refused memory, it is left
/// out, and the notes are incomplete until they are cleared.
#[derive(Drop)]
pub struct TracedLink<L> {
    alloc: Global,
    link: L,
    notes: Vec<Note>,
    is_incomplete: bool,
}

impl<L> TracedLink<L> {
    ghost use Rattle.std.specs.Borrow.{sem, Lends};
    ghost use Rattle.stub_link.specs.trace.Trace.{Call, IsNoted, call_of, calls_of, with_inner};
    ghost use Rattle.stub_link.specs.contracts.trace.traced_link.TracedLink.{the_row as traced_row};

    /// Creates a link around another, without notes.
    pub fn new(alloc: Global, link: L) -> TracedLink<L>
        ensures link { result.link ≡ link }
        ensures calls { calls_of result ≡ [] }
        ensures complete { result.is_incomplete ≡ false }
    {
        TracedLink {
            alloc,
            link,
            notes: Vec::new(alloc),
            is_incomplete: false,
        }
    }

    /// Returns the other link.
    pub fn link(&self) -> &L
        ensures { result.now ≡ self.now.link }
    {
        &self.link
    }

    /// Returns a mutable reference to the other link. What is called through it is not noted.
    pub fn link_mut(&mut self) -> &mut L
        ensures* lends { sem 𝓛 (Lends (traced_row L.row) L.row self.entry result
            (with_inner self.old)) }
        ensures link { result.now ≡ self.old.link }
    {
        &mut self.link
    }

    /// Returns the notes, in the order of the calls.
    pub fn notes(&self) -> &[Note]
        ensures { result.now ≡ self.now.notes.items }
    {
        self.notes.as_slice()
    }

    /// Returns `true` if a note was left out since the notes were last cleared.
    pub fn is_incomplete(&self) -> bool
        ensures { result ≡ self.now.is_incomplete }
    {
        self.is_incomplete
    }

    /// Removes all notes.
    pub fn clear_notes(&mut self)
        ensures link { self.new.link ≡ self.old.link }
        ensures calls { calls_of self.new ≡ [] }
        ensures complete { self.new.is_incomplete ≡ false }
    {
        self.notes.clear();
        self.is_incomplete = false;
    }

    /// Adds the note of a call, if there is memory for it.
    fn add(&mut self, made: Result<Note, AllocError>)
        ensures link { self.new.link ≡ self.old.link }
        ensures noted { (call : Call) → IfOk made (λ note. call_of note ≡ call)
            → IsNoted call self.old self.new }
    {
        let added = match made {
            Ok(note) => self.notes.push(note).is_ok(),
            Err(_) => false,
        };
        if !added {
            self.is_incomplete = true;
        }
    }
}

impl<L: Link> Link for TracedLink<L> {
    ghost use Rattle.stub_link.specs.trace.Trace.{traced_count, traced_receives, traced_sends, traced_streams};

    ghost sends = { λ old bytes result new. traced_sends L.sends old bytes result new };

    ghost receives = { λ old result new. traced_receives L.receives old result new };

    ghost streams = { λ old bytes result new. traced_streams L.streams old bytes result new };

    ghost failure_count = { λ traced. traced_count L.failure_count traced };

    fn send_datagram(&mut self, bytes: &[u8]) -> Result<(), LinkError> {
        let outcome = self.link.send_datagram(bytes);
        self.add(Note::of_send(self.alloc, bytes, outcome));
        outcome
    }

    fn next_datagram(&mut self) -> Result<Option<Vec<u8>>, LinkError> {
        let outcome = self.link.next_datagram();
        self.add(Note::of_receive(self.alloc, &outcome));
        outcome
    }

    fn ask_stream(&mut self, bytes: &[u8]) -> Result<Vec<u8>, LinkError> {
        let outcome = self.link.ask_stream(bytes);
        self.add(Note::of_stream(self.alloc, bytes, &outcome));
        outcome
    }

    fn failures(&self) -> u64 {
        self.link.failures()
    }
}
