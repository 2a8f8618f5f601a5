//! What is told of each event of a run besides its result.

use stub_run::{Event, EventReport};

/// Is told of the events of a run, over links of a type, as they happen.
pub(super) trait Watcher<L> {
    /// Is told of an event that has happened, by its report and by the link.
    fn watch(&mut self, link: &L, event: &Event, told: &EventReport);
}

/// Does nothing with what it is told.
#[derive(Drop)]
pub(super) struct Unwatched;

impl<L> Watcher<L> for Unwatched {
    fn watch(&mut self, _link: &L, _event: &Event, _told: &EventReport) {}
}
