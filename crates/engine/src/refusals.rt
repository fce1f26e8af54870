// Who can be turned away (document 01): what a call is refused for, from its arguments and from what it looks at of the engine.
// The order is that of specs/Refusals.antt. `short` tells whether the outbox is shorter than the call needs.
#![tactic(auto, unfolding(crate::specs::Refusals::refusal, crate::specs::Refusals::checks, crate::specs::Refusals::new_refusal))]

ghost use Rattle.std.specs.Prelude.{◌≡◌, ℕ, true, false, cond, List, ltb, length, MatchResult};
ghost use Rattle.engine.specs.Held.{Text, Context, by_index};
ghost use Rattle.engine.specs.Table.{known};
ghost use Rattle.engine.specs.Flags.{is_multicast};
ghost use Rattle.engine.specs.Links.{addresses_of, link_at, stores};
ghost use Rattle.engine.specs.Calls.{NewLink, DeletedLink, NewAddress, DeletedAddress, Subscribe, Advertise, Deadvertise, Refresh, Datagram, ResetTimer};
ghost use Rattle.message.specs.Parse.{parsed, reads, field_at};
ghost use Rattle.message.specs.declared.Message.TheVariants.{Search};
ghost use Rattle.text.specs.declared.white.Place.{Place};
ghost use Rattle.engine.specs.declared.advertisement.Endpoint.{Endpoint};
ghost use Rattle.engine.specs.Need.{Names, need};
ghost use Rattle.engine.specs.Refusals.{outbox_short, table_full, refusal, new_refusal, number_of, refused_as};

use crate::sizes::{
    ADDRESSES, LINKS, LOCATION_SIZE, NAME_SIZE, NAMES, SUBSCRIPTIONS, TIME_MAX, TYPE_SIZE,
};
use text::good;

// What a call is refused for, with its number. Those of texts, 3 and 4, are the ones that the message crate has for them; `number_of` of specs/Refusals.antt ties them to those.
// It has no `Display`: a host is told the number alone.
#[derive(Clone, Copy, Debug, PartialEq, Eq)]
pub enum Refusal {
    TimeLate = 1,
    OutboxShort = 2,
    TextOverSize = 3,
    TextNotGood = 4,
    TableFull = 5,
    WaitZero = 9,
    TargetOverSize = 10,
    IndexZero = 11,
    AddressLength = 12,
    LinksFull = 13,
    JoinFailed = 14,
}

impl Refusal {
    pub fn number(self) -> u32
        ensures { result ≡ number_of self }
    {
        self as u32
    }
}

// Refuses, if the test holds.
fn refuse_if(fails: bool, refusal: Refusal) -> Result<(), Refusal>
    ensures { MatchResult result (λ _. fails ≡ false) (λ e. (fails ≡ true) × (e ≡ refusal)) }
{
    if fails { Err(refusal) } else { Ok(()) }
}

// A table without a free entry, then an outbox that is short.
fn full_or_short(full: bool, short: bool) -> Result<(), Refusal>
    ensures { refused_as result ≡ cond full table_full (cond short outbox_short 0) }
{
    refuse_if(full, Refusal::TableFull)?;
    refuse_if(short, Refusal::OutboxShort)
}

// `advertise`, where the name is held or not among `count` names.
pub(crate) fn of_advertise(
    held: bool,
    count: usize,
    short: bool,
    name: &[u8],
    service: &[u8],
    location: &[u8],
) -> Result<(), Refusal>
    ensures { (x : Context) (n : Names) (room : ℕ) → n.holds name.now ≡ held → n.count ≡ count → ltb room (need x n (Advertise name.now service.now location.now room)) ≡ short → refused_as result ≡ refusal x n (Advertise name.now service.now location.now room) }
{
    let over = (NAME_SIZE < name.len())
        | (TYPE_SIZE < service.len())
        | (LOCATION_SIZE < location.len());
    refuse_if(over, Refusal::TextOverSize)?;
    let bad = (!good::is_good(name)) | (!good::is_good(service)) | (!good::is_good(location));
    refuse_if(bad, Refusal::TextNotGood)?;
    full_or_short((!held) & (NAMES <= count), short)
}

// `subscribe`, where `count` subscriptions are held.
pub(crate) fn of_subscribe(count: usize, short: bool, service: &[u8]) -> Result<(), Refusal>
    ensures { (x : Context) (n : Names) (room : ℕ) → length x.subscriptions ≡ count → ltb room (need x n (Subscribe service.now room)) ≡ short → refused_as result ≡ refusal x n (Subscribe service.now room) }
{
    refuse_if(TYPE_SIZE < service.len(), Refusal::TextOverSize)?;
    refuse_if(!good::is_good(service), Refusal::TextNotGood)?;
    full_or_short(SUBSCRIPTIONS <= count, short)
}

// `deadvertise` and `refresh`, which look at the outbox alone.
pub(crate) fn of_room(short: bool) -> Result<(), Refusal>
    ensures { (x : Context) (n : Names) (room : ℕ) → (ltb room (need x n (Refresh room)) ≡ short → refused_as result ≡ refusal x n (Refresh room)) × ((name : Text) → ltb room (need x n (Deadvertise name room)) ≡ short → refused_as result ≡ refusal x n (Deadvertise name room)) }
{
    refuse_if(short, Refusal::OutboxShort)
}

// `handle_timeout`, and what bears a time and refuses nothing else (`time_refusal`); a search begins with it.
pub(crate) fn of_time(time: u64) -> Result<(), Refusal>
    ensures { (refused_as result ≡ new_refusal time) × ((x : Context) (n : Names) → refused_as result ≡ refusal x n (ResetTimer time)) }
{
    refuse_if(TIME_MAX < time, Refusal::TimeLate)
}

// News of a link that is multicast or not, and held or not among `count` links.
pub(crate) fn of_new_link(
    multicast: bool,
    held: bool,
    count: usize,
    index: u32,
    outcome: u32,
    short: bool,
) -> Result<(), Refusal>
    ensures { (x : Context) (n : Names) (room : ℕ) (flags : ℕ) → is_multicast flags ≡ multicast → known by_index index x.links ≡ held → length x.links ≡ count → ltb room (need x n (NewLink index flags outcome room)) ≡ short → refused_as result ≡ refusal x n (NewLink index flags outcome room) }
{
    let fresh = multicast & (!held);
    refuse_if(index == 0, Refusal::IndexZero)?;
    refuse_if(fresh & (LINKS <= count), Refusal::LinksFull)?;
    refuse_if(fresh & (outcome != 0), Refusal::JoinFailed)?;
    refuse_if(short, Refusal::OutboxShort)
}

// The deletion of a link.
pub(crate) fn of_deleted_link(index: u32) -> Result<(), Refusal>
    ensures { (x : Context) (n : Names) (outcome : ℕ) → refused_as result ≡ refusal x n (DeletedLink index outcome) }
{
    refuse_if(index == 0, Refusal::IndexZero)
}

// A new address, which would be stored or not on a link of `count` addresses.
pub(crate) fn of_new_address(
    storing: bool,
    count: usize,
    index: u32,
    address: &[u8],
    short: bool,
) -> Result<(), Refusal>
    ensures { (x : Context) (n : Names) (room : ℕ) → stores index address.now x.links ≡ storing → length (addresses_of (link_at index x.links)) ≡ count → ltb room (need x n (NewAddress index address.now room)) ≡ short → refused_as result ≡ refusal x n (NewAddress index address.now room) }
{
    refuse_if(index == 0, Refusal::IndexZero)?;
    refuse_if(!matches!(address.len(), 4 | 16), Refusal::AddressLength)?;
    refuse_if(storing & (ADDRESSES <= count), Refusal::LinksFull)?;
    refuse_if(short, Refusal::OutboxShort)
}

// The deletion of an address.
pub(crate) fn of_deleted_address(index: u32, address: &[u8]) -> Result<(), Refusal>
    ensures { (x : Context) (n : Names) → refused_as result ≡ refusal x n (DeletedAddress index address.now) }
{
    refuse_if(index == 0, Refusal::IndexZero)?;
    refuse_if(!matches!(address.len(), 4 | 16), Refusal::AddressLength)
}

// A search with this MX and a target of this length.
pub(crate) fn of_search(time: u64, mx: u8, target: usize) -> Result<(), Refusal>
    ensures { (x : Context) (n : Names) (sender : Endpoint) (receiver : ℕ) (s : List ℕ) (st : Place) → parsed s ≡ reads (Search st mx) → length (field_at s st) ≡ target → refused_as result ≡ refusal x n (Datagram time sender receiver s) }
{
    of_time(time)?;
    refuse_if(mx == 0, Refusal::WaitZero)?;
    refuse_if(TYPE_SIZE < target, Refusal::TargetOverSize)
}
