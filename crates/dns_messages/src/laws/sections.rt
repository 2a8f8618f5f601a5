//! Theorems about the sections of a message.

ghost use Rattle.std.specs.Prelude.{◌≡◌, List, map};
ghost use Rattle.std.specs.Iterator.{Drains, IsFinite};
ghost use Rattle.std.specs.Borrow.{Bor};
ghost use Rattle.dns_records.specs.Record.{Record};

use crate::message::{IntoSections, Sections};

/// The iterators over the records of the three sections, lent or by value, yield each record once, in their order, and end.
pub fn sections_come_in_order<'a>()
    ensures ends { (it : List Record) → IsFinite (⟦<Sections<'a> as Iterator>⟧.remaining it) }
    ensures order { (it : List Record) (items : List (Bor Record))
        → Drains ⟦<Sections<'a> as Iterator>⟧.next_gives it items → map (λ r. r.now) items ≡ it }
    ensures ends_by_value { (it : List Record)
        → IsFinite (⟦<IntoSections as Iterator>⟧.remaining it) }
    ensures order_by_value { (it items : List Record)
        → Drains ⟦<IntoSections as Iterator>⟧.next_gives it items → items ≡ it }
{}
