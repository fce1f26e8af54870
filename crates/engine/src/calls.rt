// The calls over the arrays that an owner lends: document 01, 'Engine and ledger' and 'Who can be turned away'. Each is lent what it needs and changes it in place;
// each contract is `Answers` of specs/Promises.antt at that call, for every content of the arrays. The arrays come one by one, since an owner in C lends each by itself;
// arrays.rt has the calls for an owner that holds them together.
ghost use Rattle.std.specs.Prelude.{◌≡◌, true, false, cond, not, ◌&&◌, List, [], ℕ, ◌≤◌, ◌<◌, leb, length};
ghost use Rattle.message.specs.Parse.{parsed, reads};
ghost use Rattle.message.specs.declared.Message.TheVariants.{Search};
ghost use Rattle.engine.specs.Sizes.{advertisements_max, time_max};
ghost use Rattle.engine.specs.Table.{known, enter, leave};
ghost use Rattle.std.specs.Result.{is_ok};
ghost use Rattle.engine.specs.Spot.{place, Spotted};
ghost use Rattle.engine.specs.Held.{Text, advertised};
ghost use Rattle.engine.specs.Links.{up_addresses};
ghost use Rattle.engine.specs.Records.{byebye_on};
ghost use Rattle.engine.specs.Layout.{Room, Sent};
ghost use Rattle.engine.specs.Replies.{waits, newcomer};
ghost use Rattle.engine.specs.Reading.{is_notice};
ghost use Rattle.engine.specs.Calls.{NewLink, DeletedLink, NewAddress, DeletedAddress, Subscribe, Advertise, Deadvertise, Refresh, Datagram, Timeout, ResetTimer};
ghost use Rattle.engine.specs.Engine.{refusal_of, refused_by, answer_with};
ghost use Rattle.engine.specs.Outcomes.{counted, notified_by};
ghost use Rattle.engine.specs.Arrays.{links_in, entry_at, reply_at, name_count, names_in, engine, held};
ghost use Rattle.engine.specs.Changes.{NamesAfter};
ghost use Rattle.engine.specs.Promises.{answered, Answers, Begins};
ghost use Rattle.engine.specs.declared.advertisement.Endpoint.{Endpoint};

use crate::advertisement::{Endpoint, Location, Service};
use crate::answer::{Answer, Outcome, asking, dropping, leaving, nothing, notifying, sending};
use crate::flags::Flags;
use crate::head::{begin, rolled, seed_in, set_count, set_timer, timer_in};
use crate::lent::Tables;
use crate::pending::{searched, serve_all, waits_in};
use crate::reading::type_of;
use crate::refresh_timer::RefreshTimer;
use crate::refusals::Refusal;
use crate::sizes::{
    Head, LINK_COUNT, Links, NAME_COUNT, Numbers, SEARCH_COUNT, Searches, TIME_MAX, Texts,
};
use crate::source::of_up_links;
use crate::{address, links, names, need, news, refusals, salvo, send, subscription};
use message::Message;
use text::white::Place;

// The answer of a call that leaves these arrays: 0 or what it is refused for, the records that it wrote, and its outcome.
fn answer(head: &Head, numbers: &Numbers, refusal: u32, records: usize, t: Outcome) -> Answer
    ensures { (links searches texts : List ℕ) → result ≡ answer_with refusal records (counted t) (held (engine head.now links searches numbers.now texts)) (notified_by t) }
{
    let timer = timer_in(head);
    let waits = waits_in(head, numbers, timer.next_salvo);
    Answer {
        refusal,
        records,
        matched: t.matched,
        joined: t.joined,
        alone: t.alone,
        group: t.group,
        dropped: t.dropped,
        waiting: waits.waiting,
        poll: waits.poll,
        mask: t.mask,
        told: t.told,
        leave: t.leave,
    }
}

// That of an accepted call.
fn accepted(head: &Head, numbers: &Numbers, records: usize, t: Outcome) -> Answer
    ensures { (links searches texts : List ℕ) → result ≡ answer_with 0 records (counted t) (held (engine head.now links searches numbers.now texts)) (notified_by t) }
{
    answer(head, numbers, 0, records, t)
}

// That of a refused call, by the number that `Answer` has: a datagram is refused for an error of the message crate too. Each call makes it where it is refused: for `?` each
// would want a second function, whose Result the first would take apart.
fn refused(head: &Head, numbers: &Numbers, number: u32) -> Answer
    ensures { (links searches texts : List ℕ) → result ≡ (refused_by number (held (engine head.now links searches numbers.now texts))).answer }
{
    answer(head, numbers, number, 0, nothing())
}

// The owner's first call, on arrays of any content, with a random seed, by which units spread their delays. Each answer's `poll` is the instant to call
// `handle_timeout` at; the owner sets its timer by it after every call, refused ones too. A time that no call may bear is refused, and leaves an engine with
// that seed at time 0, with which the owner may go on.
pub fn new(head: &mut Head, numbers: &Numbers, random_seed: u32, time: u64) -> Answer
    ensures { (links searches texts : List ℕ) → Begins random_seed time (answered (engine head.new links searches numbers.now texts) result) }
{
    match RefreshTimer::new(random_seed, time) {
        Ok(timer) => {
            begin(head, timer);
            accepted(head, numbers, 0, nothing())
        }
        Err(late) => {
            begin(head, late.timer);
            refused(head, numbers, Refusal::from(late).number())
        }
    }
}

// Begins the refresh salvos anew: for an owner whose network or clock was away. What waits keeps its instants.
pub fn reset_refresh_timer(head: &mut Head, numbers: &Numbers, time: u64) -> Answer
    ensures { (links searches texts : List ℕ) → Answers (engine head.old links searches numbers.now texts) (ResetTimer time) [] [] (answered (engine head.new links searches numbers.now texts) result) }
{
    match timer_in(head).reset(time) {
        Ok(timer) => {
            set_timer(head, timer);
            accepted(head, numbers, 0, nothing())
        }
        Err(late) => refused(head, numbers, Refusal::from(late).number()),
    }
}

// Sends all announcements, then the searches: for an owner that wants them before the next salvo, whose instant stays. As in every call that is lent an outbox, the
// owner sends the records that the answer counts, in their order, before the next call.
pub fn refresh(
    head: &Head,
    links: &Links,
    searches: &Searches,
    numbers: &Numbers,
    texts: &Texts,
    outbox: &mut [u8],
) -> Answer
    ensures { Answers (engine head.now links.now searches.now numbers.now texts.now) (Refresh (length outbox.old)) outbox.old outbox.new (answered (engine head.now links.now searches.now numbers.now texts.now) result) }
{
    let need = need::of_refresh(head, links, searches);
    if let Err(refusal) = refusals::of_room(outbox.len() < need) {
        return refused(head, numbers, refusal.number());
    }
    let up = of_up_links(head, links);
    let tables = Tables {
        head,
        searches,
        numbers,
        texts,
    };
    let k = salvo::refresh_on_all(outbox, &up, &tables);
    accepted(head, numbers, k, nothing())
}

// Searches for a type, now and at each refresh. From now on the mask of a datagram's answer has this subscription's bit where the datagram concerns it: bit k for the
// k-th `subscribe`, from 0.
pub fn subscribe(
    head: &mut Head,
    links: &Links,
    searches: &mut Searches,
    numbers: &Numbers,
    service: &[u8],
    outbox: &mut [u8],
) -> Answer
    ensures { (texts : List ℕ) → Answers (engine head.old links.now searches.old numbers.now texts) (Subscribe service.now (length outbox.old)) outbox.old outbox.new (answered (engine head.new links.now searches.new numbers.now texts) result) }
{
    let n = subscription::count_of(head);
    let need = need::of_announcement(head, links);
    if let Err(refusal) = refusals::of_subscribe(n, outbox.len() < need, service) {
        return refused(head, numbers, refusal.number());
    }
    let up = of_up_links(head, links);
    let k = salvo::send_search(outbox, &up, service);
    subscription::push(searches, n, service);
    set_count(head, SEARCH_COUNT, n + 1);
    accepted(head, numbers, k, nothing())
}

// A link has gone, with its addresses. The owner leaves the group on it and hands in the outcome, 0 or its error, which is answered where the link was held.
pub fn deleted_link(
    head: &mut Head,
    links: &mut Links,
    numbers: &Numbers,
    index: u32,
    outcome: u32,
) -> Answer
    ensures { (searches texts : List ℕ) → Answers (engine head.old links.old searches numbers.now texts) (DeletedLink index outcome) [] [] (answered (engine head.new links.new searches numbers.now texts) result) }
{
    if let Err(refusal) = refusals::of_deleted_link(index) {
        return refused(head, numbers, refusal.number());
    }
    let spot = links::spot_of(head, links, index);
    let n = links::removed(head, links, index);
    set_count(head, LINK_COUNT, n);
    accepted(head, numbers, 0, leaving(spot.is_ok().then_some(outcome)))
}

// An address has gone from a link; nothing is sent from it any more, but for lone replies to searches that reached it.
pub fn deleted_address(
    head: &mut Head,
    links: &mut Links,
    numbers: &Numbers,
    index: u32,
    address: &[u8],
) -> Answer
    ensures { (searches texts : List ℕ) → Answers (engine head.old links.old searches numbers.now texts) (DeletedAddress index address.now) [] [] (answered (engine head.new links.new searches numbers.now texts) result) }
{
    if let Err(refusal) = refusals::of_deleted_address(index, address) {
        return refused(head, numbers, refusal.number());
    }
    let held = links::lookup(head, links, index);
    let remaining = news::address_gone(head, links, held, address);
    set_count(head, LINK_COUNT, remaining);
    accepted(head, numbers, 0, nothing())
}

// A link is there, or its flags have changed. For one that is not held the owner first joins the group on it and hands in the outcome, 0 or its error; for a held one the
// outcome is not looked at. A link that turns up sends what a refresh would, from its addresses.
pub fn new_link(
    head: &mut Head,
    links: &mut Links,
    searches: &Searches,
    numbers: &Numbers,
    texts: &Texts,
    index: u32,
    flags: u32,
    outcome: u32,
    outbox: &mut [u8],
) -> Answer
    ensures { Answers (engine head.old links.old searches.now numbers.now texts.now) (NewLink index flags outcome (length outbox.old)) outbox.old outbox.new (answered (engine head.new links.new searches.now numbers.now texts.now) result) }
{
    let held = links::lookup(head, links, index);
    let multicast = Flags(flags).is_multicast();
    let count = links::count_of(head);
    let turns = news::turns_up(&held, flags);
    let room = outbox.len();
    let short = need::is_short_of_link(head, links, searches, index, flags, turns, room);
    if let Err(refusal) = refusals::of_new_link(
        multicast,
        held.is_some(),
        count,
        index,
        outcome,
        short,
    ) {
        return refused(head, numbers, refusal.number());
    }
    let tables = Tables {
        head,
        searches,
        numbers,
        texts,
    };
    let k = send::send_if_up(outbox, turns, news::addresses_of(&held), &tables);
    let n = news::link_stored(head, links, index, held, flags);
    set_count(head, LINK_COUNT, n);
    accepted(head, numbers, k, nothing())
}

// An address is on a link. Where the link is up, what a refresh would send goes out from it at once.
pub fn new_address(
    head: &mut Head,
    links: &mut Links,
    searches: &Searches,
    numbers: &Numbers,
    texts: &Texts,
    index: u32,
    address: &[u8],
    outbox: &mut [u8],
) -> Answer
    ensures { Answers (engine head.old links.old searches.now numbers.now texts.now) (NewAddress index address.now (length outbox.old)) outbox.old outbox.new (answered (engine head.new links.new searches.now numbers.now texts.now) result) }
{
    let held = links::lookup(head, links, index);
    let storing = news::is_stored(&held, address);
    let count = news::addresses_of(&held).len();
    let room = outbox.len();
    let short = need::is_short_of_address(head, links, searches, index, address, storing, room);
    if let Err(refusal) = refusals::of_new_address(storing, count, index, address, short) {
        return refused(head, numbers, refusal.number());
    }
    let source = address::number_of(address);
    let tables = Tables {
        head,
        searches,
        numbers,
        texts,
    };
    let k = send::send_if_stored(outbox, storing & news::is_up(&held), source, &tables);
    let known = news::address_stored(head, links, held, address);
    set_count(head, LINK_COUNT, known);
    accepted(head, numbers, k, nothing())
}

// How many replies of a name wait, by where it stands, a place in the table as `Spotted` says: what is dropped if it is replaced or removed.
fn dropped_at(numbers: &Numbers, spot: Result<usize, usize>) -> usize
    requires { is_ok spot ≡ true → place spot < advertisements_max }
    ensures { result ≡ cond (is_ok spot) (waits (reply_at (place spot) numbers.now)) 0 }
{
    match spot {
        Ok(i) => names::reply_at(numbers, i).waits(),
        Err(_) => 0,
    }
}

// A name in the place of the one that is held or as a new one, by where it stands. Answers how many are held then.
fn enter(
    head: &Head,
    numbers: &mut Numbers,
    texts: &mut Texts,
    spot: Result<usize, usize>,
    new: &Service<'_>,
) -> usize
    requires { Spotted advertised new.now.name.now (names_in head.now numbers.old texts.old) spot × ((not (known advertised new.now.name.now (names_in head.now numbers.old texts.old)) && leb advertisements_max (length (names_in head.now numbers.old texts.old))) ≡ false) }
    ensures { NamesAfter result numbers.new texts.new (enter advertised (newcomer new.now.name.now new.now.service.now new.now.location.text.now) (names_in head.now numbers.old texts.old)) }
{
    let n = names::count_of(head);
    match spot {
        Ok(i) => {
            names::put_over(numbers, texts, n, i, new);
            n
        }
        Err(i) => {
            names::put_in(numbers, texts, n, i, new);
            n + 1
        }
    }
}

// Announces a service under a name, now and at each refresh. A name that is held is replaced, and its waiting reply dropped.
pub fn advertise(
    head: &mut Head,
    links: &Links,
    numbers: &mut Numbers,
    texts: &mut Texts,
    name: &[u8],
    service: &[u8],
    location: &[u8],
    outbox: &mut [u8],
) -> Answer
    ensures { (searches : List ℕ) → Answers (engine head.old links.now searches numbers.old texts.old) (Advertise name.now service.now location.now (length outbox.old)) outbox.old outbox.new (answered (engine head.new links.now searches numbers.new texts.new) result) }
{
    let spot = names::spot_of(head, numbers, texts, name);
    let count = names::count_of(head);
    let short = outbox.len() < need::of_announcement(head, links);
    if let Err(refusal) = refusals::of_advertise(
        spot.is_ok(),
        count,
        short,
        name,
        service,
        location,
    ) {
        return refused(head, numbers, refusal.number());
    }
    let location = Location { text: location };
    let up = of_up_links(head, links);
    let k = send::send_alive(outbox, &up, service, name, location);
    let dropped = dropped_at(numbers, spot);
    let offered = Service::new(name, service, location);
    let n = enter(head, numbers, texts, spot, &offered);
    set_count(head, NAME_COUNT, n);
    accepted(head, numbers, k, dropping(dropped))
}

// The byebyes of a name, by where it stands.
fn byebye_if(
    outbox: &mut [u8],
    head: &Head,
    links: &Links,
    numbers: &Numbers,
    texts: &Texts,
    spot: Result<usize, usize>,
) -> usize
    requires { (is_ok spot ≡ true → place spot < advertisements_max) × Room outbox.old 0 (cond (is_ok spot) (byebye_on (up_addresses (links_in head.now links.now)) (entry_at (place spot) numbers.now texts.now)) []) }
    ensures { Sent (cond (is_ok spot) (byebye_on (up_addresses (links_in head.now links.now)) (entry_at (place spot) numbers.now texts.now)) []) outbox.old outbox.new result }
{
    let Ok(i) = spot else {
        return 0;
    };
    let up = of_up_links(head, links);
    send::send_byebye(outbox, &up, &names::active_at(numbers, texts, i))
}

// The names without the one that stands here. Answers how many are held then.
fn leave(head: &Head, numbers: &mut Numbers, texts: &mut Texts, spot: Result<usize, usize>) -> usize
    requires { is_ok spot ≡ true → place spot < name_count head.now }
    ensures { (name : Text) → Spotted advertised name (names_in head.now numbers.old texts.old) spot → NamesAfter result numbers.new texts.new (leave advertised name (names_in head.now numbers.old texts.old)) }
{
    let n = names::count_of(head);
    let Ok(i) = spot else {
        return n;
    };
    names::taken_out(numbers, texts, n, i);
    n - 1
}

// Says that a service has gone, and drops its waiting reply. An unknown name does nothing. An owner that ends does this for each of its names.
pub fn deadvertise(
    head: &mut Head,
    links: &Links,
    numbers: &mut Numbers,
    texts: &mut Texts,
    name: &[u8],
    outbox: &mut [u8],
) -> Answer
    ensures { (searches : List ℕ) → Answers (engine head.old links.now searches numbers.old texts.old) (Deadvertise name.now (length outbox.old)) outbox.old outbox.new (answered (engine head.new links.now searches numbers.new texts.new) result) }
{
    let spot = names::spot_of(head, numbers, texts, name);
    let need = need::of_byebye(head, links, spot.is_ok());
    if let Err(refusal) = refusals::of_room(outbox.len() < need) {
        return refused(head, numbers, refusal.number());
    }
    let k = byebye_if(outbox, head, links, numbers, texts, spot);
    let dropped = dropped_at(numbers, spot);
    let n = leave(head, numbers, texts, spot);
    set_count(head, NAME_COUNT, n);
    accepted(head, numbers, k, dropping(dropped))
}

// Sends what is due, and ends it, in an outbox that has room for it: the accepted part of `handle_timeout`.
fn serve_due(
    head: &mut Head,
    links: &Links,
    searches: &Searches,
    numbers: &mut Numbers,
    texts: &Texts,
    time: u64,
    outbox: &mut [u8],
) -> Answer
    requires { refusal_of (held (engine head.old links.now searches.now numbers.old texts.now)) (Timeout time (length outbox.old)) ≡ 0 }
    ensures { Answers (engine head.old links.now searches.now numbers.old texts.now) (Timeout time (length outbox.old)) outbox.old outbox.new (answered (engine head.new links.now searches.now numbers.new texts.now) result) }
{
    let up = of_up_links(head, links);
    let timer = timer_in(head);
    let due = timer.next_salvo <= time;
    let tables = Tables {
        head,
        searches,
        numbers,
        texts,
    };
    let k = send::send_timeout(outbox, &up, due, time, &tables);
    let served = serve_all(head, numbers, time);
    set_timer(head, rolled(timer, time));
    accepted(head, numbers, k, sending(served.alone, served.group))
}

// The owner's timer has come: sends the refresh records, if the salvo is due, and the replies that are due. Called early, or without need, it does nothing; called late, it
// sends what has become due meanwhile, one salvo at most, and `poll` says when the next is due, which may be at once. A clock that went back does no harm.
pub fn handle_timeout(
    head: &mut Head,
    links: &Links,
    searches: &Searches,
    numbers: &mut Numbers,
    texts: &Texts,
    time: u64,
    outbox: &mut [u8],
) -> Answer
    ensures { Answers (engine head.old links.now searches.now numbers.old texts.now) (Timeout time (length outbox.old)) outbox.old outbox.new (answered (engine head.new links.now searches.now numbers.new texts.now) result) }
{
    if let Err(refusal) = refusals::of_time(time) {
        return refused(head, numbers, refusal.number());
    }
    let idle = accepted(head, numbers, 0, nothing());
    if time < idle.poll {
        return idle;
    }
    let need = need::of_timeout(head, links, searches, numbers, time);
    if outbox.len() < need {
        return refused(head, numbers, Refusal::OutboxShort.number());
    }
    serve_due(head, links, searches, numbers, texts, time, outbox)
}

// A search: it opens, joins or shares the waiting replies of the names that it matches. Time, sender and receiver come one by one, as an owner in C hands them to `on_data`.
fn on_search(
    head: &Head,
    numbers: &mut Numbers,
    texts: &mut Texts,
    time: u64,
    sender: Endpoint,
    receiver: u32,
    datagram: &[u8],
    place: Place,
    mx: u8,
) -> Answer
    requires { (time ≤ time_max) × (parsed datagram.now ≡ reads (Search place mx)) }
    ensures { (links searches : List ℕ) → Answers (engine head.now links searches numbers.old texts.old) (Datagram time sender receiver datagram.now) [] [] (answered (engine head.now links searches numbers.new texts.new) result) }
{
    let target = message::field(datagram, place);
    if let Err(refusal) = refusals::of_search(time, mx, target.len()) {
        return refused(head, numbers, refusal.number());
    }
    let asked = searched(
        head,
        numbers,
        texts,
        seed_in(head),
        time,
        target,
        mx,
        sender,
        receiver,
    );
    accepted(head, numbers, 0, asking(asked.matched, asked.joined))
}

// Notice of a type, by a notify or response: the subscriptions that match it are told.
fn on_notice(
    head: &Head,
    searches: &Searches,
    numbers: &Numbers,
    datagram: &[u8],
    said: Message,
) -> Answer
    requires { (parsed datagram.now ≡ reads said) × (is_notice said ≡ true) }
    ensures { (links texts : List ℕ) (time receiver : ℕ) (sender : Endpoint) → time ≤ time_max → Answers (engine head.now links searches.now numbers.now texts) (Datagram time sender receiver datagram.now) [] [] (answered (engine head.now links searches.now numbers.now texts) result) }
{
    let told = subscription::told_of(head, searches, message::field(datagram, type_of(said)));
    accepted(head, numbers, 0, notifying(told))
}

// A datagram has come from `sender` to the owner's address `receiver` (for one sent to the group, an address of the link it came by). Nothing is sent: replies wait until
// `handle_timeout`, and `poll` says when.
pub fn on_data(
    head: &Head,
    searches: &Searches,
    numbers: &mut Numbers,
    texts: &mut Texts,
    time: u64,
    sender: Endpoint,
    receiver: u32,
    datagram: &[u8],
) -> Answer
    ensures { (links : List ℕ) → Answers (engine head.now links searches.now numbers.old texts.old) (Datagram time sender receiver datagram.now) [] [] (answered (engine head.now links searches.now numbers.new texts.new) result) }
{
    if TIME_MAX < time {
        return refused(head, numbers, Refusal::TimeLate.number());
    }
    let answer = message::parse(datagram);
    let Ok(said) = answer else {
        return refused(head, numbers, message::refusal_of(answer));
    };
    match said {
        Message::Search {
            search_target,
            maximum_wait_sec,
        } => on_search(
            head,
            numbers,
            texts,
            time,
            sender,
            receiver,
            datagram,
            search_target,
            maximum_wait_sec,
        ),
        _ => on_notice(head, searches, numbers, datagram, said),
    }
}
