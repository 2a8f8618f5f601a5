//! Theorems about the definitions of this crate, as functions with empty bodies.

ghost use Rattle.std.specs.Prelude.{◌≡◌, ◌↔◌, [], IsOk};
ghost use Rattle.zone_check.specs.Report.{faults_said};
ghost use Rattle.zone_check.specs.declared.check.ZoneCheck.{ZoneCheck};
ghost use Rattle.zone_lines.specs.Source.{FileText};

/// A zone file is accepted exactly if it has no fault of which a report says something.
pub fn files_without_faults_are_accepted()
    ensures { (file : FileText) (check : ZoneCheck)
        → (faults_said file check ≡ []) ↔ IsOk check.outcome }
{}
