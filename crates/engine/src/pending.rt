// The waiting replies of the names in their lent arrays: how many wait and until when, and what a search and a handle_timeout make of them (document 01, 'Engine and ledger').
ghost use Rattle.std.specs.Prelude.{◌≡◌, true, cond, List, ℕ, ◌<◌, ◌≤◌, length};
ghost use Rattle.message.specs.Build.{type_max};
ghost use Rattle.engine.specs.Sizes.{advertisements_max, time_max};
ghost use Rattle.engine.specs.Target.{target_match};
ghost use Rattle.engine.specs.Records.{is_due};
ghost use Rattle.engine.specs.Replies.{sum_of, asked, matched_by, joined_by, served, is_alone, is_group, alone_at, group_at, waiting, soonest};
ghost use Rattle.engine.specs.Passes.{asked_of};
ghost use Rattle.engine.specs.Arrays.{entry_at, entries, names_in};
ghost use Rattle.engine.specs.Changes.{blank, PassOne, PassAll, AskedBy};
ghost use Rattle.engine.specs.declared.advertisement.ResponseNeeded.TheVariants.{Unicast};

use crate::advertisement::{Endpoint, ResponseNeeded};
use crate::buffer::put;
use crate::delay::delay_of;
use crate::names::{count_of, open_at, own_type_at, reply_at, service_at, store_reply};
use crate::search::Search;
use crate::sizes::{Head, Numbers, TYPE_SIZE, Texts};
use crate::wanted::{wanted_of, wants, wants_all};

// How many replies wait, and the earliest of an instant and theirs.
#[derive(Clone, Copy)]
pub struct Waits {
    pub waiting: usize,
    pub poll: u64,
}

pub(crate) fn waits_in(head: &Head, numbers: &Numbers, time: u64) -> Waits
    ensures { (texts : List ℕ) → (result.waiting ≡ waiting (names_in head.now numbers.now texts)) × (result.poll ≡ soonest time (names_in head.now numbers.now texts)) }
{
    let n = count_of(head);
    let mut waiting = 0;
    let mut poll = time;
    for i in 0..n {
        let needed = reply_at(numbers, i);
        waiting += needed.waits();
        poll = needed.sooner(poll);
    }
    Waits { waiting, poll }
}

// ---- a search

// How many names a search matched, and how many waiting replies it joined. Such pairs are summed up over the names in `ask_all`, `due_in` and `serve_all`: one sum over a
// closure would have to say of the closure what `ask_one`, `due_of` and `serve_one` say.
#[derive(Clone, Copy)]
pub struct Asked {
    pub matched: usize,
    pub joined: usize,
}

// A search at name i, for which it asks: a reply opens, or the searcher joins the one that waits. `ssdp:all`, which asks for all types, is answered in the name's
// own type, and any other search in its target. It is out of line, so that the loop over the names is short.
#[inline(never)]
fn ask_for(numbers: &mut Numbers, texts: &mut Texts, i: usize, search: &Search<'_>) -> Asked
    requires { (i < advertisements_max) × (target_match search.now.target.now (entry_at i numbers.old texts.old).service ≡ true) }
    ensures { (n : ℕ) → i < n → n ≤ advertisements_max → PassOne (asked search.now.due (asked_of search.now)) (matched_by (asked_of search.now)) (joined_by (asked_of search.now)) blank i (entries n numbers.old texts.old) (entries n numbers.new texts.new) result.matched result.joined }
{
    let needed = reply_at(numbers, i);
    if !needed.is_none() {
        store_reply(
            numbers,
            i,
            needed.asked(search.due, search.sender, search.receiver),
        );
        return Asked {
            matched: 1,
            joined: 1,
        };
    }
    let reply = ResponseNeeded::Unicast(search.due, search.sender, search.receiver);
    if wants_all(search.wanted) {
        own_type_at(numbers, texts, i, reply);
    } else {
        open_at(
            numbers,
            texts,
            i,
            reply,
            &search.answer,
            search.target.len(),
        );
    }
    Asked {
        matched: 1,
        joined: 0,
    }
}

// A search at name i.
fn ask_one(numbers: &mut Numbers, texts: &mut Texts, i: usize, search: &Search<'_>) -> Asked
    requires { i < advertisements_max }
    ensures { (n : ℕ) → i < n → n ≤ advertisements_max → PassOne (asked search.now.due (asked_of search.now)) (matched_by (asked_of search.now)) (joined_by (asked_of search.now)) blank i (entries n numbers.old texts.old) (entries n numbers.new texts.new) result.matched result.joined }
{
    if wants(search.target, search.wanted, service_at(numbers, texts, i)) {
        return ask_for(numbers, texts, i, search);
    }
    Asked {
        matched: 0,
        joined: 0,
    }
}

// A search at every name.
fn ask_all(head: &Head, numbers: &mut Numbers, texts: &mut Texts, search: &Search<'_>) -> Asked
    ensures { PassAll (asked search.now.due (asked_of search.now)) (matched_by (asked_of search.now)) (joined_by (asked_of search.now)) (names_in head.now numbers.old texts.old) (names_in head.now numbers.new texts.new) result.matched result.joined }
{
    let n = count_of(head);
    let mut matched = 0;
    let mut joined = 0;
    for i in 0..n {
        let step = ask_one(numbers, texts, i, search);
        matched += step.matched;
        joined += step.joined;
    }
    Asked { matched, joined }
}

// A search that came at a time, with the delay of its replies.
pub(crate) fn searched(
    head: &Head,
    numbers: &mut Numbers,
    texts: &mut Texts,
    seed: u32,
    time: u64,
    target: &[u8],
    mx: u8,
    sender: Endpoint,
    receiver: u32,
) -> Asked
    requires { (length target.now ≤ type_max) × (time ≤ time_max) }
    ensures { AskedBy seed (record { target = target.now; mx = mx; sender = sender; receiver = receiver; time = time }) (names_in head.now numbers.old texts.old) (names_in head.now numbers.new texts.new) result.matched result.joined }
{
    let mut answer = [0; TYPE_SIZE];
    put(&mut answer, 0, target);
    let search = Search {
        target,
        answer,
        wanted: wanted_of(target),
        due: time + delay_of(seed, mx),
        sender,
        receiver,
    };
    ask_all(head, numbers, texts, &search)
}

// ---- a handle_timeout

// How many replies went to lone searchers, and how many to the group.
#[derive(Clone, Copy)]
pub struct Served {
    pub alone: usize,
    pub group: usize,
}

// Whether a reply waits that is due, to a lone searcher or to the group: 1, or 0.
fn due_of(needed: ResponseNeeded, time: u64) -> Served
    ensures { ((result.alone ≡ cond (is_due time needed) (is_alone needed) 0) × (result.alone ≤ 1)) × ((result.group ≡ cond (is_due time needed) (is_group needed) 0) × (result.group ≤ 1)) }
{
    if needed.is_due(time) {
        let alone = needed.alone();
        let group = needed.group();
        return Served { alone, group };
    }
    Served { alone: 0, group: 0 }
}

// How many replies are due by now.
pub(crate) fn due_in(head: &Head, numbers: &Numbers, time: u64) -> Served
    ensures { ((texts : List ℕ) → (result.alone ≡ sum_of (alone_at time) (names_in head.now numbers.now texts)) × (result.group ≡ sum_of (group_at time) (names_in head.now numbers.now texts))) × (result.alone ≤ advertisements_max) × (result.group ≤ advertisements_max) }
{
    let n = count_of(head);
    let mut alone = 0;
    let mut group = 0;
    for i in 0..n {
        let step = due_of(reply_at(numbers, i), time);
        alone += step.alone;
        group += step.group;
    }
    Served { alone, group }
}

// A handle_timeout at name i.
fn serve_one(numbers: &mut Numbers, i: usize, time: u64) -> Served
    requires { i < advertisements_max }
    ensures { (n : ℕ) (texts : List ℕ) → i < n → n ≤ advertisements_max → PassOne (served time) (alone_at time) (group_at time) blank i (entries n numbers.old texts) (entries n numbers.new texts) result.alone result.group }
{
    let needed = reply_at(numbers, i);
    if needed.is_due(time) {
        store_reply(numbers, i, ResponseNeeded::None);
    }
    due_of(needed, time)
}

// A handle_timeout at every name.
pub(crate) fn serve_all(head: &Head, numbers: &mut Numbers, time: u64) -> Served
    ensures { (texts : List ℕ) → PassAll (served time) (alone_at time) (group_at time) (names_in head.now numbers.old texts) (names_in head.now numbers.new texts) result.alone result.group }
{
    let n = count_of(head);
    let mut alone = 0;
    let mut group = 0;
    for i in 0..n {
        let step = serve_one(numbers, i, time);
        alone += step.alone;
        group += step.group;
    }
    Served { alone, group }
}
