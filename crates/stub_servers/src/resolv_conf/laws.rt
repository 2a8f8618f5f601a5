//! Theorems about the definitions of this crate, as functions with empty bodies.

ghost use Rattle.std.specs.Prelude.{◌≡◌, List, ℕ};
ghost use Rattle.stub_servers.specs.resolv_conf.Conf.{IsConfOf};
ghost use Rattle.stub_servers.specs.resolv_conf.Limits.{IsWithinLimits};
ghost use Rattle.stub_servers.specs.declared.resolv_conf.conf.SystemConf.{SystemConf};

/// A text has one configuration.
pub fn a_text_has_one_configuration()
    ensures { (text : List ℕ) (one other : SystemConf) → IsConfOf text one → IsConfOf text other
        → one ≡ other }
{}

/// The configuration of a text has at least one name server, at least one attempt and a time-out of at least one second, and
/// exceeds no limit.
pub fn configurations_are_within_limits()
    ensures { (text : List ℕ) (conf : SystemConf) → IsConfOf text conf → IsWithinLimits conf }
{}
