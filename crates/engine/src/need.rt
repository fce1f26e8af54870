// How many bytes of outbox a call needs: those of the records that it would write (document 02, change 1). A call asks before it writes; its owner may ask before it calls,
// and what is answered holds until the next call. The arrays come one by one, as an owner in C lends them.
// The contracts cite the formula, specs/Need.antt, through `need_of`, by which refusal 2 goes.
ghost use Rattle.std.specs.Prelude.{◌≡◌, cond, List, ℕ, ◌+◌, ◌*◌, ◌≤◌, leb, ltb};
ghost use Rattle.engine.specs.Sizes.{advertisements_max, subscriptions_max, sources_max};
ghost use Rattle.engine.specs.Table.{known};
ghost use Rattle.engine.specs.Held.{Text, advertised};
ghost use Rattle.engine.specs.Calls.{NewLink, NewAddress, Subscribe, Advertise, Deadvertise, Refresh, Timeout};
ghost use Rattle.engine.specs.Need.{searches_count};
ghost use Rattle.engine.specs.Links.{stores};
ghost use Rattle.engine.specs.Records.{turns_up};
ghost use Rattle.engine.specs.Engine.{need_of};
ghost use Rattle.engine.specs.Arrays.{timer_in, name_count, names_in, searches_in, links_in, engine, held};

use crate::head::timer_in;
use crate::pending::due_in;
use crate::sizes::{Head, Links, Numbers, RECORD_SIZE, Searches, Texts};
use crate::source::up_count;
use crate::{links, names, news, subscription};

// Advertisements plus searches, which count 1 where a subscription is for all.
fn entry_count(head: &Head, searches: &Searches) -> usize
    ensures { (result ≡ name_count head.now + searches_count (searches_in head.now searches.now)) × (result ≤ advertisements_max + subscriptions_max) }
{
    let n = names::count_of(head);
    if subscription::any_all(head, searches) {
        return n + 1;
    }
    n + subscription::count_of(head)
}

// `subscribe` and `advertise`: a record for each address on an up link.
pub fn of_announcement(head: &Head, links: &Links) -> usize
    ensures { (searches numbers texts : List ℕ) (name service location : Text) (room : ℕ) → (result ≡ need_of (held (engine head.now links.now searches numbers texts)) (Subscribe service room)) × (result ≡ need_of (held (engine head.now links.now searches numbers texts)) (Advertise name service location room)) }
{
    RECORD_SIZE * up_count(head, links)
}

// `deadvertise` of a name that is held or not: the same, if it is. A bool, since the definitions have all of the records, or none, by a bool.
pub(crate) fn of_byebye(head: &Head, links: &Links, is_held: bool) -> usize
    ensures { (searches numbers texts : List ℕ) (name : Text) (room : ℕ) → is_held ≡ known advertised name (names_in head.now numbers texts) → result ≡ need_of (held (engine head.now links.now searches numbers texts)) (Deadvertise name room) }
{
    if is_held {
        return of_announcement(head, links);
    }
    0
}

// `deadvertise` of a name.
pub fn of_deadvertise(
    head: &Head,
    links: &Links,
    numbers: &Numbers,
    texts: &Texts,
    name: &[u8],
) -> usize
    ensures { (searches : List ℕ) (room : ℕ) → result ≡ need_of (held (engine head.now links.now searches numbers.now texts.now)) (Deadvertise name.now room) }
{
    let spot = names::spot_of(head, numbers, texts, name);
    of_byebye(head, links, spot.is_ok())
}

// `refresh`: advertisements plus searches, times addresses on up links.
pub fn of_refresh(head: &Head, links: &Links, searches: &Searches) -> usize
    ensures { (numbers texts : List ℕ) (room : ℕ) → result ≡ need_of (held (engine head.now links.now searches.now numbers texts)) (Refresh room) }
{
    let n = entry_count(head, searches);
    RECORD_SIZE * (n * up_count(head, links))
}

// News of a link: advertisements plus searches, times its addresses, if it turns up.
pub fn of_new_link(head: &Head, links: &Links, searches: &Searches, index: u32, flags: u32) -> usize
    ensures { (numbers texts : List ℕ) (outcome room : ℕ) → result ≡ need_of (held (engine head.now links.now searches.now numbers texts)) (NewLink index flags outcome room) }
{
    let held = links::lookup(head, links, index);
    if news::turns_up(&held, flags) {
        let n = entry_count(head, searches);
        return RECORD_SIZE * (n * news::addresses_of(&held).len());
    }
    0
}

// Whether an outbox of `room` bytes is shorter than news of a link needs. Where the link does not turn up, nothing is sent and nothing counted.
pub(crate) fn is_short_of_link(
    head: &Head,
    links: &Links,
    searches: &Searches,
    index: u32,
    flags: u32,
    turns: bool,
    room: usize,
) -> bool
    ensures { (numbers texts : List ℕ) (outcome : ℕ) → turns ≡ turns_up index flags (links_in head.now links.now) → result ≡ ltb room (need_of (held (engine head.now links.now searches.now numbers texts)) (NewLink index flags outcome room)) }
{
    if turns {
        return room < of_new_link(head, links, searches, index, flags);
    }
    false
}

// A new address: advertisements plus searches, if it is stored on an up link.
pub fn of_new_address(
    head: &Head,
    links: &Links,
    searches: &Searches,
    index: u32,
    address: &[u8],
) -> usize
    ensures { (numbers texts : List ℕ) (room : ℕ) → result ≡ need_of (held (engine head.now links.now searches.now numbers texts)) (NewAddress index address.now room) }
{
    let held = links::lookup(head, links, index);
    if news::is_stored(&held, address) & news::is_up(&held) {
        return RECORD_SIZE * entry_count(head, searches);
    }
    0
}

// As `is_short_of_link`, for an address that is stored or not.
pub(crate) fn is_short_of_address(
    head: &Head,
    links: &Links,
    searches: &Searches,
    index: u32,
    address: &[u8],
    storing: bool,
    room: usize,
) -> bool
    ensures { (numbers texts : List ℕ) → storing ≡ stores index address.now (links_in head.now links.now) → result ≡ ltb room (need_of (held (engine head.now links.now searches.now numbers texts)) (NewAddress index address.now room)) }
{
    if storing {
        return room < of_new_address(head, links, searches, index, address);
    }
    false
}

// The records of the salvo, if that is due.
fn salvo_count(head: &Head, searches: &Searches, up: usize, time: u64) -> usize
    requires { up ≤ sources_max }
    ensures { (result ≡ cond (leb (timer_in head.now).next_salvo time) ((name_count head.now + searches_count (searches_in head.now searches.now)) * up) 0) × (result ≤ (advertisements_max + subscriptions_max) * sources_max) }
{
    let timer = timer_in(head);
    if timer.next_salvo <= time {
        return entry_count(head, searches) * up;
    }
    0
}

// `handle_timeout`: the records of the salvo, if that is due, and the replies that are due, those to the group once an address.
pub fn of_timeout(
    head: &Head,
    links: &Links,
    searches: &Searches,
    numbers: &Numbers,
    time: u64,
) -> usize
    ensures { (texts : List ℕ) (room : ℕ) → result ≡ need_of (held (engine head.now links.now searches.now numbers.now texts)) (Timeout time room) }
{
    let up = up_count(head, links);
    let salvo = salvo_count(head, searches, up, time);
    let due = due_in(head, numbers, time);
    RECORD_SIZE * (salvo + due.alone + due.group * up)
}
