//! Theorems about the definitions of this crate, as functions with empty bodies.

ghost use Rattle.std.specs.Prelude.{◌≡◌, ◌≤◌, ◌-◌, ◌⊎◌, ◌++◌, ◌∷◌, [], List, ℕ, length, take};
ghost use Rattle.dns_journal.specs.declared.format.link.Link.{Link};
ghost use Rattle.dns_journal.specs.format.Format.{entry, header, key_in, last_link, IsJournal, IsShort, IsTornWrite};

/// Bytes are a journal in one way at most: its identity, its payloads and its end are determined.
pub fn journals_read_unambiguously()
    ensures { (bytes head other : List ℕ) (payloads others : List (List ℕ)) (end rest : List ℕ)
        → IsJournal bytes head payloads end → IsJournal bytes other others rest
        → (head ≡ other) × ((payloads ≡ others) × (end ≡ rest)) }
{}

/// A header alone is a journal without entries.
pub fn a_header_is_a_journal()
    ensures { (head : List ℕ) → length head ≡ 48 → IsJournal (header head) head [] [] }
{}

/// An entry that is appended to a whole journal is read after the others.
pub fn an_appended_entry_is_read()
    ensures { (bytes head payload : List ℕ) (payloads : List (List ℕ))
        → IsJournal bytes head payloads [] → IsShort payload
        → IsJournal (bytes ++ entry (key_in head) (last_link head payloads) payload) head
        (payloads ++ payload ∷ []) [] }
{}

/// What an interrupted write of an entry leaves after a whole journal is the entry, or is cut off: the journal is read with the entries
/// that it had.
pub fn a_torn_write_is_cut_off()
    ensures { (bytes head payload end : List ℕ) (payloads : List (List ℕ))
        → IsJournal bytes head payloads [] → IsShort payload
        → IsTornWrite (key_in head) (last_link head payloads) (length bytes) payload end
        → (end ≡ entry (key_in head) (last_link head payloads) payload)
        ⊎ IsJournal (bytes ++ end) head payloads end }
{}

/// A write that stops within the frame of an entry is such a torn write, whatever the entry.
pub fn a_part_of_a_frame_is_a_torn_write()
    ensures { (key payload : List ℕ) (link : Link) (place n : ℕ) → n ≤ 28
        → IsTornWrite key link place payload (take n (entry key link payload)) }
{}

/// A journal whose end is cut short has the same entries.
pub fn an_end_may_be_cut_short()
    ensures { (bytes head end : List ℕ) (payloads : List (List ℕ)) (n : ℕ)
        → IsJournal bytes head payloads end
        → IsJournal (take (length bytes - length end) bytes ++ take n end) head payloads (take n end) }
{}

/// A journal without its end is a whole journal with the same entries.
pub fn a_journal_without_its_end_is_whole()
    ensures { (bytes head end : List ℕ) (payloads : List (List ℕ))
        → IsJournal bytes head payloads end
        → IsJournal (take (length bytes - length end) bytes) head payloads [] }
{}
