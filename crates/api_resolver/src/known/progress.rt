//! A lookup over the replies that are known.

ghost use Rattle.std.specs.Prelude.{◌≡◌, ◌≤◌, ◌^◌, None};
ghost use Rattle.api_resolver.specs.known.Progress.{Comes};

use crate::known::answered::AnsweredHandle;
use dns_messages::Query;
use stub_client::CachingClient;
use stub_config::DnsRequestOptions;
use stub_lookup::{Lookup, Moment, NetError};

/// What a lookup over the replies that are known comes to.
#[derive(Drop)]
pub enum Progress {
    /// It ends, and the cache has what it stored.
    Ends(Result<Lookup, NetError>),
    /// It asks a question to which no reply is known, and the cache is as it was.
    Asks(Query),
}

/// Looks up a question over the replies that are known.
pub fn look_up(
    client: &mut CachingClient<AnsweredHandle>,
    question: Query,
    options: DnsRequestOptions,
    now: Moment,
) -> Progress
    requires moment { now ≤ 2 ^ 62 }
    requires wanted { client.old.handle.wanted ≡ None }
    ensures { Comes options now client.old question result client.new }
{
    let reply = client.lookup(question, options, now);
    match client.handle_mut().take_wanted() {
        Some(wanted) => {
            drop(reply);
            Progress::Asks(wanted)
        }
        None => Progress::Ends(reply),
    }
}
