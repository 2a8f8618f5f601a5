//! The trace of a run.

use crate::plays::source::write_sources;
use crate::plays::watcher::Watcher;
use crate::plays::{PlayInput, read_hosts};
use crate::report::write_event;
use dns_zone_file::Types;
use std::alloc::Global;
use std::io;
use stub_hosts::Hosts;
use stub_link::trace::{Note, TracedLink, write_notes};
use stub_run::{Event, EventReport};

/// Writes what was sent and received during each event, and where its result comes from.
#[derive(Drop)]
pub(super) struct TraceWriter<T> {
    alloc: Global,
    /// Which types have names.
    types: Types,
    /// The hosts, as the resolver has them, if there was memory for them.
    hosts: Option<Hosts>,
    writer: T,
}

impl<T: io::Write + Drop> TraceWriter<T> {
    /// Creates a writer of the trace of a run.
    pub(super) fn new(alloc: Global, input: &PlayInput, writer: T) -> TraceWriter<T> {
        TraceWriter {
            alloc,
            types: input.types,
            hosts: read_hosts(alloc, input.hosts.as_slice()).ok(),
            writer,
        }
    }
}

impl<T: io::Write> TraceWriter<T> {
    /// Writes an event, the notes of the link, and where the result comes from.
    fn write(
        &mut self,
        notes: &[Note],
        is_incomplete: bool,
        event: &Event,
        told: &EventReport,
    ) -> io::Result<()> {
        write_event(event, self.types, &mut self.writer)?;
        writeln!(self.writer)?;
        write_notes(self.alloc, notes, &mut self.writer)?;
        if is_incomplete {
            writeln!(self.writer, "  no memory for all notes")?;
        }
        if let Some(hosts) = &self.hosts {
            let writer = &mut self.writer;
            write_sources(self.alloc, self.types, hosts, notes, event, told, writer)?;
        }
        self.writer.flush()
    }
}

impl<L, T: io::Write> Watcher<TracedLink<L>> for TraceWriter<T> {
    fn watch(&mut self, link: &TracedLink<L>, event: &Event, told: &EventReport) {
        // A failure to write the trace can't be reported.
        let _ = self.write(link.notes(), link.is_incomplete(), event, told);
    }
}
