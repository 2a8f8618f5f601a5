//! Links over which events happen.

ghost use Rattle.std.specs.Prelude.{◌≡◌, OnOk, OnErr};
ghost use Rattle.stub_run.specs.Event.{TakesMemory};

use crate::event::Event;
use std::alloc::AllocError;
use stub_link::{Link, ScriptedLink};

/// A link over which events happen, one after another: it is told when each one begins and ends.
pub trait EventLink: Link {
    ghost use Rattle.std.specs.Prelude.{Bool, Result};
    ghost use Rattle.std.specs.declared.alloc.AllocError.{AllocError};
    ghost use Rattle.stub_run.specs.declared.event.Event.{Event};

    /// From a state, an event may begin and lead to that state.
    ghost begins: { Self → Event → Self → Type 0 };

    /// From a state, the end of an event may have this result and lead to that state.
    ghost ends: { Self → Result (Unit {0}) AllocError → Self → Type 0 };

    /// In a state, the link or its server has run out of memory.
    ghost is_out: { Self → Bool };

    /// Begins an event. The error is that there is no memory for a copy of its script or for the place of an update.
    fn begin(&mut self, event: &Event) -> Result<(), AllocError>
        ensures begins { OnOk result (begins self.old event.now self.new) }
        ensures refused { OnErr result (TakesMemory event.now) };

    /// Ends an event. The error is that there is no memory for what is left to deliver; `ends` says when it comes.
    fn end(&mut self) -> Result<(), AllocError>
        ensures { ends self.old result self.new };

    /// Returns `true` if the link or its server has run out of memory.
    fn has_run_out(&self) -> bool
        ensures { result ≡ is_out self.now };
}

impl EventLink for ScriptedLink {
    ghost use Rattle.stub_link.specs.ScriptedLink.{IsEnded, is_out_of_memory};
    ghost use Rattle.stub_run.specs.ScriptedEvents.{Begins};

    ghost begins = { Begins };

    ghost ends = { λ old result new. IsEnded old result new };

    ghost is_out = { is_out_of_memory };

    fn begin(&mut self, event: &Event) -> Result<(), AllocError> {
        match event.action.update() {
            Some(_) => self.begin_update(&event.script),
            None => self.begin_event(&event.script),
        }
    }

    fn end(&mut self) -> Result<(), AllocError> {
        self.end_event()
    }

    fn has_run_out(&self) -> bool {
        self.is_out_of_memory()
    }
}
