//! What a message authentication code covers (RFC 8945 sections 4.3 and 5.3.1).

ghost use Rattle.std.specs.Prelude.{◌≡◌, ◌≤◌, ◌<◌, ◌++◌, ℕ, List, length};
ghost use Rattle.std.specs.Int.{w16, to_be_bytes};
ghost use Rattle.dns_tsig.specs.hmac.Hmac.{Keyed, hmac};
ghost use Rattle.dns_tsig.specs.hmac.Algorithm.{code_len};
ghost use Rattle.dns_tsig.specs.Covered.{Adds, covered, outcome, prior_bytes, timers, unsigned_message, variables};

use crate::hmac::{Code, Hmac};
use crate::key::{Key, algorithm_name};
use crate::numbers::number_at;

/// The class ANY and the TTL 0 of a TSIG record.
const CLASS_AND_TTL: [u8; 6] = [0, 255, 0, 0, 0, 0];

/// How much of a TSIG record a code covers.
#[derive(Clone, Copy, Debug, PartialEq, Eq)]
pub enum Coverage {
    /// All fields but the MAC and the original id.
    Variables,
    /// The time and the fudge: on a stream, in each reply after the first.
    Timers,
}

/// The fields of a TSIG record that a code covers.
#[derive(Drop)]
pub struct Terms<'t> {
    /// The time of signing, in seconds.
    pub time: u64,
    /// The fudge, in seconds.
    pub fudge: u16,
    /// The error.
    pub error: u16,
    /// The other data.
    pub other: &'t [u8],
}

/// Adds a number to what is authenticated.
fn add_number(state: &mut Hmac, number: u16)
    ensures { Adds state.old state.new (to_be_bytes w16 number) }
{
    state.update(&number.to_be_bytes());
}

/// Adds the former code after its length, unless it is empty.
fn add_prior(state: &mut Hmac, prior: &[u8])
    requires { length prior.now < 65536 }
    ensures { Adds state.old state.new (prior_bytes prior.now) }
{
    if !prior.is_empty() {
        add_number(state, prior.len() as u16);
        state.update(prior);
    }
}

/// Adds the message as it was before its TSIG record was appended, with the id that it was signed with.
pub fn add_message(state: &mut Hmac, message: &[u8], place: usize, original_id: u16)
    requires after_header { 12 ≤ place }
    requires within { place ≤ length message.now }
    ensures { Adds state.old state.new (unsigned_message message.now place original_id) }
{
    add_number(state, original_id);
    state.update(&message[2..10]);
    add_number(state, number_at(message, 10).saturating_sub(1));
    state.update(&message[12..place]);
}

/// Adds the time and the fudge.
fn add_timers(state: &mut Hmac, time: u64, fudge: u16)
    ensures { Adds state.old state.new (timers time fudge) }
{
    state.update(&time.to_be_bytes()[2..]);
    add_number(state, fudge);
}

/// Adds the error and the other data.
fn add_outcome(state: &mut Hmac, error: u16, other: &[u8])
    requires { length other.now < 65536 }
    ensures { Adds state.old state.new (outcome error other.now) }
{
    add_number(state, error);
    add_number(state, other.len() as u16);
    state.update(other);
}

/// Adds the fields of a TSIG record.
fn add_variables(state: &mut Hmac, key: &Key, terms: &Terms<'_>)
    requires { length terms.now.other.now < 65536 }
    ensures { Adds state.old state.new (variables key.now terms.now.time terms.now.fudge
        terms.now.error terms.now.other.now) }
{
    state.update(key.name.as_slice());
    state.update(&CLASS_AND_TTL);
    state.update(algorithm_name(key.algorithm));
    add_timers(state, terms.time, terms.fudge);
    add_outcome(state, terms.error, terms.other);
}

/// Begins to authenticate with a key. The former code comes first, unless it is empty.
pub fn begin(key: &Key, prior: &[u8]) -> Hmac
    requires { length prior.now < 65536 }
    ensures { Keyed result key.now.algorithm key.now.secret.items (prior_bytes prior.now) }
{
    let mut state = Hmac::new(key.algorithm, key.secret.as_slice());
    add_prior(&mut state, prior);
    state
}

/// Adds what is covered of a TSIG record.
fn add_covered(state: &mut Hmac, key: &Key, terms: &Terms<'_>, coverage: Coverage)
    requires { length terms.now.other.now < 65536 }
    ensures { Adds state.old state.new (covered coverage key.now terms.now.time terms.now.fudge
        terms.now.error terms.now.other.now) }
{
    match coverage {
        Coverage::Variables => add_variables(state, key, terms),
        Coverage::Timers => add_timers(state, terms.time, terms.fudge),
    }
}

/// Returns the code of a message to which a prior code, if there is one, and the message were added.
pub fn finish(mut state: Hmac, key: &Key, terms: &Terms<'_>, coverage: Coverage) -> Code
    requires { length terms.now.other.now < 65536 }
    ensures code { (text : List ℕ) → Keyed state key.now.algorithm key.now.secret.items text
        → result.items ≡ hmac key.now.algorithm key.now.secret.items (text
        ++ covered coverage key.now terms.now.time terms.now.fudge terms.now.error terms.now.other.now) }
    ensures len { (text : List ℕ) → Keyed state key.now.algorithm key.now.secret.items text
        → length result.items ≡ code_len key.now.algorithm }
{
    add_covered(&mut state, key, terms, coverage);
    state.finalize()
}
