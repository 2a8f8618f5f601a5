//! Theorems about the definitions of this crate, as functions with empty bodies.

ghost use Rattle.std.specs.Prelude.{◌≡◌, ◌++◌};
ghost use Rattle.dns_zone_file.specs.declared.types.Types.{Types};
ghost use Rattle.stub_run.specs.declared.event.Event.{Event};
ghost use Rattle.stub_run.specs.declared.report.EventReport.{EventReport};
ghost use Rattle.stub_play.specs.report.ReportJson.{json_counts, json_line};
ghost use Rattle.stub_play.specs.report.ReportMembers.{members_of, object_of, text_of};
ghost use Rattle.stub_play.specs.report.ReportText.{plain_text};

/// The JSON object of an event says all that its text says: the text is made of the members of the object, and of nothing else.
#[tactic(auto, using(crate::proofs::MembersLaws::object_is, crate::proofs::MembersLaws::text_is))]
pub fn objects_say_what_texts_say()
    ensures object { (types : Types) (e : Event) (report : EventReport) → json_line types e report
        ≡ object_of (members_of types e report.reply) ++ json_counts report }
    ensures text { (types : Types) (e : Event) (report : EventReport)
        → plain_text types e report.reply ≡ text_of (members_of types e report.reply) }
{}
