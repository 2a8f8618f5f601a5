//! Where the ids of questions come from (RFC 5452 section 9.2).

use std::marker::Model;

/// Draws the ids of questions.
///
/// Over a network they must be unpredictable (RFC 5452 section 9.2).
pub trait IdSource {
    ghost use Rattle.std.specs.Prelude.{Option, ℕ};

    /// From a state, drawing may give this id, or none, and lead to that state.
    ghost draws: { Self → Option ℕ → Self → Type 0 };

    /// Draws the id of the next question, or `None` if there is none.
    fn draw(&mut self) -> Option<u16>
        ensures { draws self.old result self.new };
}

/// The ids of a list, in order.
#[derive(Drop)]
pub struct ListedIds {
    ids: Vec<u16>,
    drawn: usize,
}

impl Model for ListedIds {
    ghost use Rattle.std.specs.Prelude.{◌≤◌, List, ℕ, drop, length};

    ghost Value = { List ℕ };

    ghost view = { λ listed. drop listed.drawn listed.ids.items };

    ghost invariant = { λ listed. listed.drawn ≤ length listed.ids.items };
}

impl ListedIds {
    ghost use Rattle.std.specs.Prelude.{◌≡◌};

    /// Creates a source that draws the ids of a list, and then none.
    pub fn new(ids: Vec<u16>) -> ListedIds
        ensures { result ≡ ids.items }
    {
        ListedIds { ids, drawn: 0 }
    }
}

impl IdSource for ListedIds {
    ghost use Rattle.stub_net.specs.Ids.{DrawsFirst};

    ghost draws = { λ old id new. DrawsFirst old id new };

    fn draw(&mut self) -> Option<u16> {
        let id = *self.ids.get(self.drawn)?;
        self.drawn += 1;
        Some(id)
    }
}
