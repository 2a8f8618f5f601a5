//! Events over a link that notes its calls.

use crate::event::Event;
use crate::event_link::EventLink;
use std::alloc::AllocError;
use stub_link::trace::TracedLink;

/// An event happens as it does over the other link. The notes are those of the calls since it began.
impl<L: EventLink> EventLink for TracedLink<L> {
    ghost use Rattle.stub_run.specs.Traced.{traced_begins, traced_ends, traced_is_out};

    ghost begins = { λ old e new. traced_begins L.begins old e new };

    ghost ends = { λ old result new. traced_ends L.ends old result new };

    ghost is_out = { λ traced. traced_is_out L.is_out traced };

    fn begin(&mut self, event: &Event) -> Result<(), AllocError> {
        self.clear_notes();
        self.link_mut().begin(event)
    }

    fn end(&mut self) -> Result<(), AllocError> {
        self.link_mut().end()
    }

    fn has_run_out(&self) -> bool {
        self.link().has_run_out()
    }
}
