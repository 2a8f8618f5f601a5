//! The labels of a name that is borrowed from a message.

ghost use Rattle.std.specs.Prelude.{◌≡◌, true};
ghost use Rattle.std.specs.Iterator.{YieldsFirstBy, item_count};

use crate::view::plain_name::PlainName;
use std::marker::Model;

/// An iterator over the labels of a [`PlainName`], from left to right.
#[derive(Drop)]
pub struct PlainLabels<'a> {
    label_count: u8,
    /// The labels that are left, each after its length, and the root's zero byte.
    bytes: &'a [u8],
}

impl<'a> Model for PlainLabels<'a> {
    ghost use Rattle.std.specs.Prelude.{ℕ, List};
    ghost use Rattle.dns_names.specs.internal.Name.{labels_in};
    ghost use Rattle.dns_message_bytes.specs.view.internal.PlainNames.{IsWhole};

    ghost Value = { List (List ℕ) };

    ghost view = { λ it. labels_in it.label_count it.bytes.now };

    ghost invariant = { λ it. IsWhole it.label_count it.bytes.now };
}

impl<'a> Iterator for PlainLabels<'a> {
    type Item = &'a [u8];

    ghost next_gives = { YieldsFirstBy (λ label. label.now) (λ rest. rest) };

    ghost remaining = { item_count (λ rest. rest) };

    fn next(&mut self) -> Option<&'a [u8]> {
        if self.label_count == 0 {
            return None;
        }
        let bytes = self.bytes;
        let end = usize::from(bytes[0]) + 1;
        self.label_count -= 1;
        self.bytes = &bytes[end..];
        Some(&bytes[1..end])
    }
}

impl<'a> PlainName<'a> {
    /// Iterates over the labels, from left to right.
    pub fn labels(&self) -> PlainLabels<'a>
        ensures labels { result ≡ self.now.labels }
        ensures fqdn { self.now.is_fqdn ≡ true }
    {
        PlainLabels {
            label_count: self.label_count,
            bytes: self.bytes,
        }
    }
}
