//! The labels of a name: an iterator, counts, wildcards and `localhost` (RFC 1035 section 3.1,
//! RFC 4592 section 2.1.1, RFC 6761 section 6.3).

ghost use Rattle.std.specs.Prelude.{◌≡◌, ◌<◌, ◌≤◌, false, List, ℕ, drop, length, take, Some, slice_get};
ghost use Rattle.dns_wire.specs.Writing.{labels_form};
ghost use Rattle.std.specs.Iterator.{YieldsFirstBy, YieldsLastBy, item_count};
ghost use Rattle.dns_names.specs.Labels.{begins_with_star, num_labels, labels_len, ends_in_localhost};
ghost use Rattle.dns_names.specs.internal.Name.{AreOffsets};

use crate::name::Name;
use std::marker::Model;

/// A double-ended iterator over the labels of a name.
#[derive(Drop)]
pub struct LabelIter<'a> {
    name: &'a Name,
    start: usize,
    end: usize,
    /// The offset of each label in the encoding.
    offsets: [u8; Name::MAX_LABELS],
}

impl<'a> Model for LabelIter<'a> {
    ghost use Rattle.std.specs.Prelude.{ℕ, List, ◌≤◌, length, slice_range};

    ghost Value = { List (List ℕ) };

    ghost view = { λ it. slice_range it.name.now.labels it.start it.end };

    ghost use Rattle.dns_names.specs.internal.Name.{AreOffsets};

    ghost invariant = { λ it. (it.start ≤ it.end) × (it.end ≤ length it.name.now.labels)
        × AreOffsets it.name.now.labels it.offsets };
}

impl<'a> Iterator for LabelIter<'a> {
    type Item = &'a [u8];

    ghost next_gives = { YieldsFirstBy (λ label. label.now) (λ rest. rest) };

    ghost remaining = { item_count (λ rest. rest) };

    fn next(&mut self) -> Option<&'a [u8]> {
        if self.start == self.end {
            return None;
        }
        let index = self.start;
        self.start = index + 1;
        Some(self.name.label_at(&self.offsets, index))
    }

    fn size_hint(&self) -> (usize, Option<usize>) {
        (self.len(), Some(self.len()))
    }
}

impl<'a> DoubleEndedIterator for LabelIter<'a> {
    ghost next_back_gives = { YieldsLastBy (λ label. label.now) (λ rest. rest) };

    fn next_back(&mut self) -> Option<&'a [u8]> {
        if self.start == self.end {
            return None;
        }
        self.end -= 1;
        Some(self.name.label_at(&self.offsets, self.end))
    }
}

impl<'a> ExactSizeIterator for LabelIter<'a> {
    fn len(&self) -> usize {
        self.end - self.start
    }
}

impl Name {
    /// Iterates over the labels from left to right.
    pub fn iter(&self) -> LabelIter<'_>
        ensures { result ≡ self.now.labels }
    {
        LabelIter {
            name: self,
            start: 0,
            end: self.label_count(),
            offsets: self.label_offsets(),
        }
    }

    /// Returns the offset of each label in the encoding.
    pub(crate) fn label_offsets(&self) -> [u8; Name::MAX_LABELS]
        ensures { AreOffsets self.now.labels result }
    {
        let mut offsets = [0; Name::MAX_LABELS];
        let wire = self.wire();
        let mut offset = 0;
        for index in 0..self.label_count() {
            offsets[index] = offset as u8;
            offset += wire[offset] as usize + 1;
        }
        offsets
    }

    /// Returns the label at an index, from the left, by the offsets of the labels.
    pub(crate) fn label_at(&self, offsets: &[u8; Name::MAX_LABELS], index: usize) -> &[u8]
        requires within { index < length self.now.labels }
        requires offsets { AreOffsets self.now.labels offsets.now }
        ensures { slice_get self.now.labels index ≡ Some result.now }
    {
        let rest = self.wire_from(offsets, index);
        &rest[1..rest[0] as usize + 1]
    }

    /// Returns the labels from an index on, each after its length.
    fn wire_from(&self, offsets: &[u8; Name::MAX_LABELS], index: usize) -> &[u8]
        requires within { index < length self.now.labels }
        requires offsets { AreOffsets self.now.labels offsets.now }
        ensures { result.now ≡ labels_form (drop index self.now.labels) }
    {
        &self.wire()[self.offset_at(offsets, index)..]
    }

    /// Returns the offset of the label at an index.
    fn offset_at(&self, offsets: &[u8; Name::MAX_LABELS], index: usize) -> usize
        requires within { index < length self.now.labels }
        requires offsets { AreOffsets self.now.labels offsets.now }
        ensures value { result ≡ length (labels_form (take index self.now.labels)) }
        ensures within { result ≤ length (labels_form self.now.labels) }
    {
        prove!(self.label_count() <= Name::MAX_LABELS);
        offsets[index] as usize
    }

    /// Returns the number of labels, not counting a leading `*` (RFC 4034 section 3.1.3).
    pub fn num_labels(&self) -> u8
        ensures { result ≡ num_labels self.now.labels }
    {
        let count = self.label_count() as u8;
        if self.is_wildcard() { count - 1 } else { count }
    }

    /// Returns the length of the labels with their length bytes, or 1 for a name without labels.
    pub fn len(&self) -> usize
        ensures { result ≡ labels_len self.now.labels }
    {
        if self.label_count() == 0 {
            return 1;
        }
        self.encoded_len() - 1
    }

    /// Returns `false`: the length is at least 1.
    pub fn is_empty(&self) -> bool
        ensures { result ≡ false }
    {
        self.len() == 0
    }

    /// Returns `true` if the first label is `*` (RFC 4592 section 2.1.1).
    pub fn is_wildcard(&self) -> bool
        ensures { result ≡ begins_with_star self.now.labels }
    {
        self.label_count() > 0 && self.label(0) == b"*".as_slice()
    }

    /// Returns `true` if the last label is `localhost`, in any case (RFC 6761 section 6.3).
    pub fn is_localhost(&self) -> bool
        ensures { result ≡ ends_in_localhost self.now.labels }
    {
        let count = self.label_count();
        count > 0 && self.label(count - 1).eq_ignore_ascii_case(b"localhost")
    }
}
