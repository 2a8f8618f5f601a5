//! Opportunistic encryption (RFC 9539), which is not implemented: these are values only.

ghost use Rattle.std.specs.Prelude.{◌≡◌, false, None};

/// Whether servers are probed for encrypted transports.
#[derive(Clone, Copy, Debug, PartialEq, Eq)]
pub enum OpportunisticEncryption {
    /// They are not.
    Disabled,
}

impl Default for OpportunisticEncryption {
    ghost use Rattle.std.specs.Prelude.{◌≡◌};
    ghost use Rattle.stub_config.specs.declared.opportunistic.OpportunisticEncryption.TheVariants.{Disabled};

    ghost is_default = { λ choice. choice ≡ Disabled };

    fn default() -> OpportunisticEncryption {
        OpportunisticEncryption::Disabled
    }
}

impl OpportunisticEncryption {
    /// Returns `false`: no server is probed.
    pub fn is_enabled(&self) -> bool
        ensures { result ≡ false }
    {
        match self {
            OpportunisticEncryption::Disabled => false,
        }
    }

    /// Returns `None`: no server is probed.
    pub fn max_concurrent_probes(&self) -> Option<u8>
        ensures { result ≡ None }
    {
        match self {
            OpportunisticEncryption::Disabled => None,
        }
    }
}

/// How servers would be probed for encrypted transports.
#[derive(Debug, Drop, PartialEq, Eq)]
pub struct OpportunisticEncryptionConfig {
    /// How long the result of a probe is used, in seconds.
    pub persistence_period: u64,
    /// How long a server is not probed after a failure, in seconds.
    pub damping_period: u64,
    /// The maximum number of probes at the same time.
    pub max_concurrent_probes: u8,
    /// Where the results of probes are stored.
    pub persistence: Option<OpportunisticEncryptionPersistence>,
}

impl Default for OpportunisticEncryptionConfig {
    ghost use Rattle.std.specs.Prelude.{◌≡◌};
    ghost use Rattle.stub_config.specs.Opportunistic.{default_encryption};

    ghost is_default = { λ config. config ≡ default_encryption };

    fn default() -> OpportunisticEncryptionConfig {
        OpportunisticEncryptionConfig {
            persistence_period: 259_200,
            damping_period: 86_400,
            max_concurrent_probes: 10,
            persistence: None,
        }
    }
}

/// Where the results of probes would be stored.
#[derive(Debug, Drop, PartialEq, Eq)]
pub struct OpportunisticEncryptionPersistence {
    /// The path of the file.
    pub path: String,
    /// How often the file is written, in seconds.
    pub save_interval: u64,
}
