//! Who may use the secrets of a key file.

ghost use Rattle.std.specs.Prelude.{◌≡◌};
ghost use Rattle.dns_keys.specs.Permissions.{is_exposed};

/// Returns `true` if users other than the owner and the group of a file may read it, and so have the secrets in it, or may write it. The
/// mode is that of stat(2).
pub fn is_exposed(mode: u32) -> bool
    ensures { result ≡ is_exposed mode }
{
    mode % 8 >= 2
}
