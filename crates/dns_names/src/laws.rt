//! Theorems about the definitions of this crate, as functions with empty bodies.

ghost use Rattle.std.specs.Prelude.{◌≡◌, ◌↔◌, List, ℕ, true, false, Ok, ◌<◌, ◌∷◌, [], Some};
ghost use Rattle.dns_names.specs.Compare.{lower, same_labels, at_or_below, same_name};
ghost use Rattle.std.specs.Bool.{IsTrue};
ghost use Rattle.std.specs.Cmp.{IsTotalOrder};
ghost use Rattle.std.specs.Ordering.{is_eq, is_gt, nat_cmp};
ghost use Rattle.dns_names.specs.Name.{DomainName};
ghost use Rattle.dns_names.specs.Compare.{name_cmp, name_order, name_writes};
ghost use Rattle.dns_names.specs.Compare.{is_in_subtree};
ghost use Rattle.std.specs.List.{AllByRecursion};
ghost use Rattle.dns_wire.specs.Name.{AreLabels};
ghost use Rattle.dns_names.specs.Print.{text_of_name, AreOctets};
ghost use Rattle.dns_names.specs.Parse.{name_of_text};
ghost use Rattle.dns_names.specs.Parse.{Spells};
ghost use Rattle.std.specs.declared.net.ip_addr.IpAddr.TheVariants.{V4, V6};
ghost use Rattle.dns_names.specs.Reverse.{addr_prefix, reverse_name, arpa_prefix};

/// Labels are equal, ignoring ASCII case, exactly if they are equal in lower case.
pub fn equal_labels_have_equal_lowercase()
    ensures { (a b : List (List ℕ)) → (same_labels a b ≡ true) ↔ (lower a ≡ lower b) }
{}

/// Whether a name is at or below an origin does not depend on the case of either.
pub fn zone_of_ignores_case()
    ensures { (o p a b : List (List ℕ)) → lower o ≡ lower p → lower a ≡ lower b
        → at_or_below o a ≡ at_or_below p b }
{}

/// Names are equal exactly if the order puts neither first, and equal names have equal hashes.
pub fn order_equality_and_hash_agree()
    ensures order { (a b : DomainName) → same_name a b ≡ is_eq (name_cmp a b) }
    ensures hash { (a b : DomainName) → same_name a b ≡ true → name_writes a ≡ name_writes b }
{}

/// The case-sensitive order is total, and only identical names are equal in it.
pub fn case_sensitive_order_is_total()
    ensures total { IsTotalOrder (name_order nat_cmp) }
    ensures equal { (a b : DomainName) → IsTrue (is_eq (name_order nat_cmp a b)) ↔ (a ≡ b) }
{}

/// The names that have a name's flag and are at or below it are contiguous in the order and begin with that name: none
/// of them comes before it, and any name between it and one of them is one of them.
pub fn subtrees_are_contiguous()
    ensures begins { (origin name : DomainName) → is_in_subtree origin name ≡ true
        → is_gt (name_cmp origin name) ≡ false }
    ensures together { (origin name other : DomainName) → is_in_subtree origin name ≡ true
        → is_gt (name_cmp origin other) ≡ false
        → is_gt (name_cmp other name) ≡ false → is_in_subtree origin other ≡ true }
{}

/// The text of a name parses back to the name, whatever octets its labels contain (RFC 1035 section 5.1).
pub fn printed_names_parse_back()
    ensures { (name : DomainName) → AreLabels name.labels → AllByRecursion AreOctets name.labels
        → name_of_text (text_of_name name) ≡ Ok name }
{}

/// A text parses to a name exactly if the grammar derives the text from the name (RFC 1035 section 5.1).
pub fn parsing_follows_the_grammar()
    ensures { (text : List ℕ) (name : DomainName)
        → (name_of_text text ≡ Ok name) ↔ Spells text name }
{}

/// The reverse name of an address parses back to the address, with its full length as prefix.
pub fn reverse_names_parse_back()
    ensures v4 { (a b c d : ℕ) → a < 256 → b < 256 → c < 256 → d < 256
        → let address = V4 (record { octets = a ∷ b ∷ c ∷ d ∷ [] })
        in arpa_prefix (reverse_name address) ≡ Some (addr_prefix address 32) }
    ensures v6 { (a b c d e f g h : ℕ) → a < 65536 → b < 65536 → c < 65536 → d < 65536 → e < 65536
        → f < 65536 → g < 65536 → h < 65536
        → let address = V6 (record { segments = a ∷ b ∷ c ∷ d ∷ e ∷ f ∷ g ∷ h ∷ [] })
        in arpa_prefix (reverse_name address) ≡ Some (addr_prefix address 128) }
{}
