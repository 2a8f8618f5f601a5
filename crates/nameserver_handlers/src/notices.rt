//! Notifications of secondaries.

ghost use Rattle.std.specs.Prelude.{◌≡◌, ◌<◌, length, map, option_copied, option_map, position, Bool, IfOk, IfSome, OnErr, Some};
ghost use Rattle.dns_notify.specs.Notifications.{earlier};
ghost use Rattle.dns_sockets.specs.Handler.{notice_if};
ghost use Rattle.nameserver_handlers.specs.Notices.{AreFollowed, FollowsZoneIf, IsStart, TakesResponse, after_copy, after_notice, due_notice, due_secondary, is_due, new_follower, new_followers, next_moment, notice_to};

use dns_names::Name;
use dns_notify::laws::copies_are_due_from_the_first_moment_on;
use dns_notify::notifier::{Follower, Notifier, Retries};
use dns_records::Record;
use dns_sockets::{Milliseconds, Notice, Request};
use dns_wire::RecordType;
use dns_zone::Zone;
use std::alloc::{AllocError, Global};
use std::net::SocketAddr;
use std::random::RandomSource;

/// How often a notification is repeated: after 1, 2, 4, 8, 16, 32 and 60 seconds.
const RETRIES: Retries = Retries {
    copies: 8,
    first_interval: 1_000,
    max_interval: 60_000,
};

/// The secondaries, and what they are notified of: a follower for each zone, or none if there are no secondaries.
#[derive(Drop)]
pub struct Notices {
    followers: Vec<Follower>,
}

impl Notices {
    /// Creates the notifications of zones. The secondaries are notified of each zone at once. Without memory or random bytes for a
    /// notification, the next call of [`follow`](Notices::follow) notifies them.
    pub fn new<R: AllocGlobal + RandomSource>(
        rt: &R,
        zones: &[Zone],
        secondaries: &[SocketAddr],
    ) -> Result<Notices, AllocError>
        ensures { IfOk result (λ made. (are_all : Bool) × AreFollowed 0 zones.now
            (new_followers secondaries.now zones.now) are_all made.followers.items) }
    {
        let followers = new_followers(rt.alloc(), zones, secondaries)?;
        let mut notices = Notices { followers };
        let _are_all = notices.follow(rt, zones, 0);
        Ok(notices)
    }

    /// Notifies the secondaries of the zones that have another serial number than before. Returns `false` if memory or random bytes
    /// were refused for some of them, of which the next call notifies.
    pub fn follow<R: RandomSource>(&mut self, rt: &R, zones: &[Zone], now: Milliseconds) -> bool
        ensures { AreFollowed now zones.now self.old.followers.items result
            self.new.followers.items }
    {
        follow_all(rt, self.followers.as_mut_slice(), zones, now)
    }

    /// Takes a response to a notification. Returns `false` if it is none that was expected. An error leaves all as it was.
    pub fn take_response(&mut self, response: &Request<'_>) -> Result<bool, AllocError>
        ensures ok { IfOk result (λ is_taken. TakesResponse response.now.peer
            response.now.bytes.now self.old.followers.items is_taken self.new.followers.items) }
        ensures err { OnErr result (self.new.followers.items ≡ self.old.followers.items) }
    {
        take_response(self.followers.as_mut_slice(), response)
    }

    /// Returns the earliest moment at which a notification is due.
    pub fn next_moment(&self) -> Option<Milliseconds>
        ensures { result ≡ next_moment self.now.followers.items }
    {
        next_moment(self.followers.as_slice())
    }

    /// Returns the next notification that is due. An error is want of memory: it is lost then, as any datagram may be.
    pub fn next_notice(
        &mut self,
        alloc: Global,
        now: Milliseconds,
    ) -> Result<Option<Notice>, AllocError>
        ensures notice { IfOk result (λ notice.
            notice_if notice ≡ due_notice now self.old.followers.items) }
        ensures left { self.new.followers.items ≡ after_notice now self.old.followers.items }
    {
        match due_place(self.followers.as_slice(), now) {
            Some(place) => take_notice_at(self.followers.as_mut_slice(), place, alloc, now),
            None => Ok(None),
        }
    }
}

// ---- followers

/// Creates the followers of zones, or none if there are no secondaries.
fn new_followers(
    alloc: Global,
    zones: &[Zone],
    secondaries: &[SocketAddr],
) -> Result<Vec<Follower>, AllocError>
    ensures { IfOk result (λ made. made.items ≡ new_followers secondaries.now zones.now) }
{
    if secondaries.is_empty() {
        return Ok(Vec::new(alloc));
    }
    each_follower(alloc, zones, secondaries)
}

/// Creates the followers of zones.
fn each_follower(
    alloc: Global,
    zones: &[Zone],
    secondaries: &[SocketAddr],
) -> Result<Vec<Follower>, AllocError>
    ensures { IfOk result (λ made. made.items ≡ map (new_follower secondaries.now) zones.now) }
{
    let mut followers = Vec::new(alloc);
    for zone in zones {
        followers.push(new_follower(alloc, zone, secondaries)?)?;
    }
    Ok(followers)
}

/// Creates the follower of a zone.
fn new_follower(
    alloc: Global,
    zone: &Zone,
    secondaries: &[SocketAddr],
) -> Result<Follower, AllocError>
    ensures { IfOk result (λ follower. follower ≡ new_follower secondaries.now zone.now) }
{
    let mut notifier = Notifier::new(alloc, zone.origin().clone()?, RETRIES);
    for secondary in secondaries {
        notifier.add(*secondary)?;
    }
    Ok(Follower::new(notifier))
}

// ---- zones that have changed

/// Lets each follower follow the zone at its place. Returns `false` if memory or random bytes were refused for some of them.
fn follow_all<R: RandomSource>(
    rt: &R,
    followers: &mut [Follower],
    zones: &[Zone],
    now: Milliseconds,
) -> bool
    ensures { AreFollowed now zones.now followers.old result followers.new }
{
    let mut are_all = true;
    for place in 0..followers.len().min(zones.len()) {
        let is_followed = follow_zone(rt, &mut followers[place], &zones[place], now);
        are_all &= is_followed;
    }
    are_all
}

/// Announces the SOA record of a zone to its secondaries if it has another serial number than before. Returns `false` if memory or random
/// bytes were refused, which leaves the follower as it was.
fn follow_zone<R: RandomSource>(
    rt: &R,
    follower: &mut Follower,
    zone: &Zone,
    now: Milliseconds,
) -> bool
    ensures { FollowsZoneIf result now zone.now follower.old follower.new }
{
    let Some(start) = start_of(zone) else {
        return true;
    };
    let Some(id) = random_id(rt) else {
        return false;
    };
    follower.follow(id, start, now).is_ok()
}

/// Returns the SOA record of a zone.
fn start_of(zone: &Zone) -> Option<&Record>
    ensures { IsStart zone.now (option_copied result) }
{
    zone.records_at(zone.origin(), RecordType::SOA).first()
}

/// Draws an id at random (RFC 5452 section 9.2).
fn random_id<R: RandomSource>(rt: &R) -> Option<u16> {
    let mut bytes = [0u8; 2];
    match rt.fill_bytes(&mut bytes) {
        Ok(()) => Some(u16::from_be_bytes(bytes)),
        Err(_) => None,
    }
}

// ---- responses

/// Takes a response to a notification of one of the zones.
fn take_response(followers: &mut [Follower], response: &Request<'_>) -> Result<bool, AllocError>
    ensures ok { IfOk result (λ is_taken. TakesResponse response.now.peer response.now.bytes.now
        followers.old is_taken followers.new) }
    ensures err { OnErr result (followers.new ≡ followers.old) }
{
    for place in 0..followers.len() {
        let follower = &mut followers[place];
        if follower.notifier.receive(response.bytes, response.peer)? {
            return Ok(true);
        }
    }
    Ok(false)
}

// ---- what is sent

/// Returns the earliest moment at which a notification is due.
fn next_moment(followers: &[Follower]) -> Option<Milliseconds>
    ensures { result ≡ next_moment followers.now }
{
    let mut first = None;
    for follower in followers {
        first = earlier(first, follower.notifier.next_moment());
    }
    first
}

/// Returns the earlier of two moments, if there are two.
fn earlier(moment: Option<Milliseconds>, other: Option<Milliseconds>) -> Option<Milliseconds>
    ensures { result ≡ earlier moment other }
{
    match (moment, other) {
        (Some(moment), Some(other)) => Some(moment.min(other)),
        (moment, None) => moment,
        (None, other) => other,
    }
}

/// Returns the place of the first zone of which a notification is due.
fn due_place(followers: &[Follower], now: Milliseconds) -> Option<usize>
    ensures place { result ≡ position (is_due now) followers.now }
    ensures within { IfSome result (λ place. place < length followers.now) }
{
    followers.iter().position(|follower| is_due(follower, now))
}

/// Returns `true` if a notification of a zone is due.
fn is_due(follower: &Follower, now: Milliseconds) -> bool
    ensures { result ≡ is_due now follower.now }
{
    copies_are_due_from_the_first_moment_on();
    match follower.notifier.next_moment() {
        Some(moment) => moment <= now,
        None => false,
    }
}

/// Returns the notification of the zone at a place, the first of which one is due, and counts its copy.
fn take_notice_at(
    followers: &mut [Follower],
    place: usize,
    alloc: Global,
    now: Milliseconds,
) -> Result<Option<Notice>, AllocError>
    requires place { position (is_due now) followers.old ≡ Some place }
    requires within { place < length followers.old }
    ensures notice { IfOk result (λ notice. notice_if notice ≡ due_notice now followers.old) }
    ensures left { followers.new ≡ after_notice now followers.old }
{
    take_notice(&mut followers[place], alloc, now)
}

/// Returns the notification of a zone if it is due, and counts its copy.
fn take_notice(
    follower: &mut Follower,
    alloc: Global,
    now: Milliseconds,
) -> Result<Option<Notice>, AllocError>
    ensures notice { IfOk result (λ notice. notice_if notice
        ≡ option_map (notice_to follower.old) (due_secondary now follower.old)) }
    ensures left { follower.new ≡ after_copy now follower.old }
{
    let Some(peer) = follower.notifier.next_due(now) else {
        return Ok(None);
    };
    let bytes = Vec::from_slice(alloc, follower.notifier.message())?;
    Ok(Some(Notice { peer, bytes }))
}
