//! Theorems about the definitions of this crate, as functions with empty bodies.

ghost use Rattle.std.specs.Prelude.{◌≡◌, ◌∷◌, [], false, List};
ghost use Rattle.dns_wire.specs.codes.DNSClass.{class_number};
ghost use Rattle.dns_messages.specs.declared.query.Query.{Query};
ghost use Rattle.dns_messages.specs.declared.response_code.ResponseCode.TheVariants.{NXDomain};
ghost use Rattle.dns_zone.specs.Answer.{answer, max_aliases};
ghost use Rattle.dns_zone.specs.Rows.{ZoneContent};
ghost use Rattle.dns_authority.specs.declared.asked.AnyAnswer.{AnyAnswer};
ghost use Rattle.dns_authority.specs.Answer.{authority_answer, is_unanswered};
ghost use Rattle.dns_authority.specs.Asked.{is_any};
ghost use Rattle.dns_authority.specs.Existence.{LeadsNowhere};
ghost use Rattle.dns_authority.specs.Origin.{ComesFrom};
ghost use Rattle.dns_authority.specs.Plain.{zone_answer, IsPlain};

/// From a zone without wildcards, zone cuts and DNAME records, a question for another type than ANY has the zone's own answer:
/// its code, its answers and its authority records.
pub fn plain_zones_answer_alike()
    ensures { (any : AnyAnswer) (zone : ZoneContent) (q : Query) → IsPlain zone
        → is_any q.query_type ≡ false
        → zone_answer (authority_answer any (zone ∷ []) q) ≡ answer zone q }
{}

/// Each record of an answer is a row of a zone, or is synthesized from one, as its definition names it. One in the answer section
/// is of the type of the question or an alias, or of any type if the question is for ANY, at the name in the question or at one
/// that the aliases of the section lead to, and not below a zone cut.
pub fn records_come_from_zones()
    ensures { (any : AnyAnswer) (zones : List ZoneContent) (q : Query)
        → ComesFrom zones q (authority_answer any zones q) }
{}

/// The code is `NXDomain` exactly if the name in the question does not exist, or the last of the aliases from it.
pub fn names_fail_exactly_if_they_do_not_exist()
    ensures fails { (any : AnyAnswer) (zones : List ZoneContent) (q : Query)
        → (authority_answer any zones q).code ≡ NXDomain
        → LeadsNowhere max_aliases zones (record { record_type = q.query_type; any = any })
        q.name }
    ensures exists { (any : AnyAnswer) (zones : List ZoneContent) (q : Query)
        → is_unanswered q.query_type ≡ false → class_number q.query_class ≡ 1
        → LeadsNowhere max_aliases zones (record { record_type = q.query_type; any = any })
        q.name
        → (authority_answer any zones q).code ≡ NXDomain }
{}
