//! What handlers have of the system.

use std::io::Eprint;
use std::random::RandomSource;
use std::time::Clock;

/// The memory, the time, the random bytes and the standard error of a system.
pub trait Host: AllocGlobal + Clock + RandomSource + Eprint {}

impl<R: AllocGlobal + Clock + RandomSource + Eprint> Host for R {}
