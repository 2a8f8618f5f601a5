//! Theorems about the definitions of this crate, as functions with empty bodies.

ghost use Rattle.std.specs.Prelude.{◌≡◌, ◌∷◌, [], List, ℕ, Some, flat_map, map};
ghost use Rattle.std.specs.List.{AllByRecursion, Contains};
ghost use Rattle.dns_messages.specs.Sound.{IsSound};
ghost use Rattle.dns_messages.specs.declared.message.Message.{Message};
ghost use Rattle.dns_records.specs.Record.{Record};
ghost use Rattle.dns_records.specs.Rows.{Rows};
ghost use Rattle.dns_transfers.specs.Sending.{AreRead};
ghost use Rattle.dns_zone.specs.Rows.{ZoneContent, IsZone};
ghost use Rattle.dns_differences.specs.declared.difference.Difference.{Difference};
ghost use Rattle.dns_differences.specs.declared.history.Limits.{Limits};
ghost use Rattle.dns_differences.specs.Difference.{AreRecordsOf, HasSerial, IsDifference};
ghost use Rattle.dns_differences.specs.History.{recorded, since};
ghost use Rattle.dns_transfers.specs.incremental.DifferenceRecords.{incremental_records};
ghost use Rattle.dns_transfers.specs.incremental.Messages.{soa_records, IsSoundDifference, SendsDifferences};
ghost use Rattle.dns_transfers.specs.incremental.Reading.{changed_by_all, sequence_of, IsSequence, Reads, Sequence};
ghost use Rattle.dns_transfers.specs.incremental.Versions.{with_version, AreKnown, AreToldApart, AreVersions, Version};

/// The messages of an incremental transfer decode. The records of their answer sections, one after another, are the SOA record of the
/// zone, for each difference the records that it deletes and those that it adds, and the SOA record again (RFC 1995 section 4).
pub fn incremental_transfers_have_all_records()
    ensures { (zone : ZoneContent) (ds : List Difference) (request : Message)
        (messages : List (List ℕ)) → IsSound request → IsZone zone
        → AllByRecursion IsSoundDifference ds → SendsDifferences zone ds request messages
        → (decoded : List Message) × (AreRead messages decoded
        × (flat_map (λ m. m.answers) decoded ≡ incremental_records (soa_records zone) ds)) }
{}

/// A client that decodes the messages of an incremental transfer reads in their records the differences that were sent, and no
/// others (RFC 1995 section 4), if each part of a difference begins with its only SOA record.
pub fn clients_read_back_differences()
    ensures read { (zone : ZoneContent) (ds : List Difference) (request : Message)
        (messages : List (List ℕ)) → IsSound request → IsZone zone
        → AllByRecursion IsSoundDifference ds → AllByRecursion IsSequence (map sequence_of ds)
        → SendsDifferences zone ds request messages
        → (decoded : List Message) × (AreRead messages decoded
        × Reads (flat_map (λ m. m.answers) decoded) (map sequence_of ds)) }
    ensures only { (zone : ZoneContent) (ds : List Difference) (request : Message)
        (messages : List (List ℕ)) (decoded : List Message) (read : List Sequence)
        → IsSound request → IsZone zone → AllByRecursion IsSoundDifference ds
        → AllByRecursion IsSequence (map sequence_of ds)
        → SendsDifferences zone ds request messages → AreRead messages decoded
        → Reads (flat_map (λ m. m.answers) decoded) read → read ≡ map sequence_of ds }
{}

/// The known differences of a zone are those of its last versions: none at first, or after want of memory; and once a change is
/// recorded, if they were so before.
pub fn known_differences_are_of_the_last_versions()
    ensures none { (versions : List Version) → AreKnown versions [] }
    ensures recorded { (limits : Limits) (versions : List Version) (ds : List Difference)
        (current new : Rows) (d : Difference) → AreVersions versions current
        → AreKnown versions ds → IsDifference current new d
        → AreVersions (with_version versions current d) new
        × AreKnown (with_version versions current d) (recorded limits ds d) }
{}

/// A client that was sent a version of a zone, and then the differences since its serial number, has the records of the current
/// version once it has applied what it reads. No two versions with different records may have the same serial number.
pub fn clients_of_a_version_reach_the_current_one()
    ensures { (versions : List Version) (zone : ZoneContent) (ds : List Difference)
        (current serial : ℕ) (d : Difference) (more : List Difference) (sent : Version)
        (request : Message) (messages : List (List ℕ)) (decoded : List Message)
        (read : List Sequence) (records : List Record) → AreVersions versions zone.rows
        → AreKnown versions ds → AreToldApart versions → Contains versions sent
        → HasSerial sent.rows serial → since ds current serial ≡ Some (d ∷ more)
        → IsSound request → IsZone zone → AllByRecursion IsSoundDifference (d ∷ more)
        → AllByRecursion IsSequence (map sequence_of (d ∷ more))
        → SendsDifferences zone (d ∷ more) request messages → AreRead messages decoded
        → Reads (flat_map (λ m. m.answers) decoded) read → AreRecordsOf sent.rows records
        → AreRecordsOf zone.rows (changed_by_all read records) }
{}
