//! Theorems about prerequisites (RFC 2136 section 3.2): by which code a server answers an update of a zone of class IN that has one
//! prerequisite and no change.

ghost use Rattle.std.specs.Prelude.{◌≡◌, ℕ, Bool, true, false, not, [], ◌∷◌};
ghost use Rattle.dns_wire.specs.declared.codes.dns_class.DNSClass.TheVariants as classes;
ghost use Rattle.dns_wire.specs.declared.codes.record_type.RecordType.{RecordType};
ghost use Rattle.dns_wire.specs.declared.codes.record_type.RecordType.TheVariants as types;
ghost use Rattle.dns_data.specs.declared.rdata.RData.{RData};
ghost use Rattle.dns_names.specs.Name.{DomainName};
ghost use Rattle.dns_records.specs.Rows.{Rows};
ghost use Rattle.dns_messages.specs.declared.response_code.ResponseCode.TheVariants.{NXDomain, YXDomain, YXRRSet, NXRRSet};
ghost use Rattle.dns_updates.specs.Records.{has_rows, has_set, is_in_zone, is_type};
ghost use Rattle.dns_updates.specs.Code.{fault_if, update_code};
ghost use Rattle.dns_updates.specs.Builders.{empty_record, update_message};

use dns_names::laws::equal_labels_have_equal_lowercase;

/// [`require_name`](crate::builder::UpdateBuilder::require_name): NXDOMAIN exactly if the name is not in use, and else NOERROR.
pub fn required_names_are_in_use()
    ensures { (id : ℕ) (zone name : DomainName) (rows : Rows) → is_in_zone zone name ≡ true
        → update_code zone rows (update_message id zone classes.IN false
        (empty_record classes.ANY name types.ANY ∷ []) [])
        ≡ fault_if (not (has_rows rows name)) NXDomain }
{
    equal_labels_have_equal_lowercase();
}

/// [`forbid_name`](crate::builder::UpdateBuilder::forbid_name): YXDOMAIN exactly if the name is in use, and else NOERROR.
pub fn forbidden_names_are_not_in_use()
    ensures { (id : ℕ) (zone name : DomainName) (rows : Rows) → is_in_zone zone name ≡ true
        → update_code zone rows (update_message id zone classes.IN false
        (empty_record classes.NONE name types.ANY ∷ []) [])
        ≡ fault_if (has_rows rows name) YXDomain }
{
    equal_labels_have_equal_lowercase();
}

/// [`require_rrset`](crate::builder::UpdateBuilder::require_rrset) of a type other than ANY: NXRRSET exactly if the name has no records of
/// the type, and else NOERROR.
pub fn required_sets_are_present()
    ensures { (id : ℕ) (zone name : DomainName) (t : RecordType) (rows : Rows)
        → is_in_zone zone name ≡ true → is_type types.ANY t ≡ false
        → update_code zone rows (update_message id zone classes.IN false
        (empty_record classes.ANY name t ∷ []) [])
        ≡ fault_if (not (has_set rows name t)) NXRRSet }
{
    equal_labels_have_equal_lowercase();
}

/// [`forbid_rrset`](crate::builder::UpdateBuilder::forbid_rrset) of a type other than ANY: YXRRSET exactly if the name has records of the
/// type, and else NOERROR.
pub fn forbidden_sets_are_absent()
    ensures { (id : ℕ) (zone name : DomainName) (t : RecordType) (rows : Rows)
        → is_in_zone zone name ≡ true → is_type types.ANY t ≡ false
        → update_code zone rows (update_message id zone classes.IN false
        (empty_record classes.NONE name t ∷ []) [])
        ≡ fault_if (has_set rows name t) YXRRSet }
{
    equal_labels_have_equal_lowercase();
}
