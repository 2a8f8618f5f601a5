//! What a zone has at a name (RFC 1034 section 4.3.2 step 3).

ghost use Rattle.std.specs.Prelude.{◌≡◌, option_copied};
ghost use Rattle.dns_wire.specs.declared.codes.record_type.RecordType.TheVariants.{CNAME, DNAME, NS};
ghost use Rattle.dns_zone.specs.Rows.{rows_at, rows_of, some_row_below};
ghost use Rattle.dns_zone.specs.internal.Node.{set_rows};

use crate::zone::Zone;
use dns_names::Name;
use dns_records::{Record, RecordSet};
use dns_wire::RecordType;

/// The records of a name that decide how a question goes on (RFC 1034 section 4.3.2 step 3).
#[derive(Clone, Copy, Drop)]
pub struct Node<'a> {
    /// The records of the type that is asked for.
    pub records: &'a [Record],
    /// The CNAME record, if there is one.
    pub aliases: &'a [Record],
    /// The NS records.
    pub servers: &'a [Record],
    /// The DNAME record, if there is one.
    pub redirections: &'a [Record],
    /// Whether the name exists: the owner of some record is at or below it (RFC 4592 section 2.2.2).
    pub exists: bool,
}

impl Zone {
    /// Returns what the zone has at a name for a question of a type.
    ///
    /// The name is looked up once, which takes logarithmic time, and no memory.
    pub fn node(&self, name: &Name, record_type: RecordType) -> Node<'_>
        ensures records { rows_of result.records.now
            ≡ rows_at self.now.rows name.now.labels record_type }
        ensures aliases { rows_of result.aliases.now
            ≡ rows_at self.now.rows name.now.labels CNAME }
        ensures servers { rows_of result.servers.now
            ≡ rows_at self.now.rows name.now.labels NS }
        ensures redirections { rows_of result.redirections.now
            ≡ rows_at self.now.rows name.now.labels DNAME }
        ensures exists { result.exists ≡ some_row_below self.now.rows name.now.labels }
    {
        let found = self.sets.node(name, record_type);
        Node {
            records: records_of(found.asked),
            aliases: records_of(found.aliases),
            servers: records_of(found.servers),
            redirections: records_of(found.redirections),
            exists: found.exists,
        }
    }
}

/// Returns the records of a set, or none.
fn records_of(set: Option<&RecordSet>) -> &[Record]
    ensures { rows_of result.now ≡ set_rows (option_copied set.entry) }
{
    match set {
        Some(set) => set.as_slice(),
        None => &[],
    }
}
