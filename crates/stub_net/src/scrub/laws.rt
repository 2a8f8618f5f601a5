//! What holds of all replies that a [`Scrubber`](crate::scrub::Scrubber) gives, over every handle.

ghost use Rattle.std.specs.Prelude.{List, ℕ};
ghost use Rattle.std.specs.List.{AllByRecursion};
ghost use Rattle.dns_messages.specs.declared.message.Message.{Message};
ghost use Rattle.dns_messages.specs.declared.query.Query.{Query};
ghost use Rattle.dns_messages.specs.declared.response.DnsResponse.{DnsResponse};
ghost use Rattle.stub_client.specs.declared.request.DnsRequest.{DnsRequest};
ghost use Rattle.stub_net.specs.scrub.Scrub.{Gives, IsLedRecord};
ghost use Rattle.std.specs.Prelude.{◌≡◌, [], ◌∷◌, Ok};

use stub_client::DnsHandle;

/// Each answer of a reply is one that the question leads to: at its name or at the target of an alias that is given as well, and an
/// alias or of the type that is asked for.
pub fn records_are_led_to<H: DnsHandle>()
    ensures { (old new : H) (request : DnsRequest) (q : Query) (now : ℕ) (response : DnsResponse)
        → request.message.queries ≡ q ∷ []
        → Gives H.gives old request now (Ok response) new
        → AllByRecursion (IsLedRecord q response.message.answers) response.message.answers }
{}
