// The engine's calls, as a host that is not Rattle links them: each is lent the arrays that it needs and hands them on. The contract of each is that of the
// engine's own call, for every content of the arrays.
ghost use Rattle.std.specs.Prelude.{List, [], ℕ, length};
ghost use Rattle.engine.specs.Calls.{NewLink, DeletedLink, NewAddress, DeletedAddress, Subscribe, Advertise, Deadvertise, Refresh, Datagram, Timeout, ResetTimer};
ghost use Rattle.engine.specs.Arrays.{engine};
ghost use Rattle.engine.specs.Promises.{answered, Answers, Begins};

use engine::advertisement::Endpoint;
use engine::answer::Answer;
use engine::calls;
use engine::sizes::{Head, Links, Numbers, Searches, Texts};

// Makes an engine in the lent arrays, whatever they hold; refused, one of that seed at time 0.
#[unsafe(no_mangle)]
pub extern "C" fn kohlsilk_lent_new(
    head: &mut Head,
    numbers: &Numbers,
    random_seed: u32,
    time: u64,
) -> Answer
    ensures { (links searches texts : List ℕ) → Begins random_seed time (answered (engine head.new links searches numbers.now texts) result) }
{
    calls::new(head, numbers, random_seed, time)
}

// A link is there, or is up or down. The host has tried to join the group on a new one and hands in the outcome.
#[unsafe(no_mangle)]
pub extern "C" fn kohlsilk_lent_new_link(
    head: &mut Head,
    links: &mut Links,
    searches: &Searches,
    numbers: &Numbers,
    texts: &Texts,
    index: u32,
    flags: u32,
    outcome: u32,
    outbox: &mut [u8],
) -> Answer
    ensures { Answers (engine head.old links.old searches.now numbers.now texts.now) (NewLink index flags outcome (length outbox.old)) outbox.old outbox.new (answered (engine head.new links.new searches.now numbers.now texts.now) result) }
{
    calls::new_link(
        head, links, searches, numbers, texts, index, flags, outcome, outbox,
    )
}

// A link has gone; `outcome` is the host's from leaving the group on it, and is answered for a link that was held.
#[unsafe(no_mangle)]
pub extern "C" fn kohlsilk_lent_deleted_link(
    head: &mut Head,
    links: &mut Links,
    numbers: &Numbers,
    index: u32,
    outcome: u32,
) -> Answer
    ensures { (searches texts : List ℕ) → Answers (engine head.old links.old searches numbers.now texts) (DeletedLink index outcome) [] [] (answered (engine head.new links.new searches numbers.now texts) result) }
{
    calls::deleted_link(head, links, numbers, index, outcome)
}

// An address is there.
#[unsafe(no_mangle)]
pub extern "C" fn kohlsilk_lent_new_address(
    head: &mut Head,
    links: &mut Links,
    searches: &Searches,
    numbers: &Numbers,
    texts: &Texts,
    index: u32,
    address: &[u8],
    outbox: &mut [u8],
) -> Answer
    ensures { Answers (engine head.old links.old searches.now numbers.now texts.now) (NewAddress index address.now (length outbox.old)) outbox.old outbox.new (answered (engine head.new links.new searches.now numbers.now texts.now) result) }
{
    calls::new_address(
        head, links, searches, numbers, texts, index, address, outbox,
    )
}

// An address has gone.
#[unsafe(no_mangle)]
pub extern "C" fn kohlsilk_lent_deleted_address(
    head: &mut Head,
    links: &mut Links,
    numbers: &Numbers,
    index: u32,
    address: &[u8],
) -> Answer
    ensures { (searches texts : List ℕ) → Answers (engine head.old links.old searches numbers.now texts) (DeletedAddress index address.now) [] [] (answered (engine head.new links.new searches numbers.now texts) result) }
{
    calls::deleted_address(head, links, numbers, index, address)
}

// Searches for a type, now and at each refresh; notices of it are told of from now on.
#[unsafe(no_mangle)]
pub extern "C" fn kohlsilk_lent_subscribe(
    head: &mut Head,
    links: &Links,
    searches: &mut Searches,
    numbers: &Numbers,
    service: &[u8],
    outbox: &mut [u8],
) -> Answer
    ensures { (texts : List ℕ) → Answers (engine head.old links.now searches.old numbers.now texts) (Subscribe service.now (length outbox.old)) outbox.old outbox.new (answered (engine head.new links.now searches.new numbers.now texts) result) }
{
    calls::subscribe(head, links, searches, numbers, service, outbox)
}

// Announces a service under a name, now and at each refresh. A name that is held is replaced, and its waiting reply dropped.
#[unsafe(no_mangle)]
pub extern "C" fn kohlsilk_lent_advertise(
    head: &mut Head,
    links: &Links,
    numbers: &mut Numbers,
    texts: &mut Texts,
    name: &[u8],
    service: &[u8],
    location: &[u8],
    outbox: &mut [u8],
) -> Answer
    ensures { (searches : List ℕ) → Answers (engine head.old links.now searches numbers.old texts.old) (Advertise name.now service.now location.now (length outbox.old)) outbox.old outbox.new (answered (engine head.new links.now searches numbers.new texts.new) result) }
{
    calls::advertise(head, links, numbers, texts, name, service, location, outbox)
}

// Says that a service has gone. An unknown name does nothing.
#[unsafe(no_mangle)]
pub extern "C" fn kohlsilk_lent_deadvertise(
    head: &mut Head,
    links: &Links,
    numbers: &mut Numbers,
    texts: &mut Texts,
    name: &[u8],
    outbox: &mut [u8],
) -> Answer
    ensures { (searches : List ℕ) → Answers (engine head.old links.now searches numbers.old texts.old) (Deadvertise name.now (length outbox.old)) outbox.old outbox.new (answered (engine head.new links.now searches numbers.new texts.new) result) }
{
    calls::deadvertise(head, links, numbers, texts, name, outbox)
}

// Sends all announcements, then the searches.
#[unsafe(no_mangle)]
pub extern "C" fn kohlsilk_lent_refresh(
    head: &Head,
    links: &Links,
    searches: &Searches,
    numbers: &Numbers,
    texts: &Texts,
    outbox: &mut [u8],
) -> Answer
    ensures { Answers (engine head.now links.now searches.now numbers.now texts.now) (Refresh (length outbox.old)) outbox.old outbox.new (answered (engine head.now links.now searches.now numbers.now texts.now) result) }
{
    calls::refresh(head, links, searches, numbers, texts, outbox)
}

// A datagram has come from `sender`, at the address `receiver`.
#[unsafe(no_mangle)]
pub extern "C" fn kohlsilk_lent_on_data(
    head: &Head,
    searches: &Searches,
    numbers: &mut Numbers,
    texts: &mut Texts,
    time: u64,
    sender: u32,
    port: u16,
    receiver: u32,
    datagram: &[u8],
) -> Answer
    ensures { (links : List ℕ) → Answers (engine head.now links searches.now numbers.old texts.old) (Datagram time (record { address = sender; port = port }) receiver datagram.now) [] [] (answered (engine head.now links searches.now numbers.new texts.new) result) }
{
    let from = Endpoint {
        address: sender,
        port,
    };
    calls::on_data(
        head, searches, numbers, texts, time, from, receiver, datagram,
    )
}

// Sends the refresh records, if the salvo is due, and the replies that are due.
#[unsafe(no_mangle)]
pub extern "C" fn kohlsilk_lent_handle_timeout(
    head: &mut Head,
    links: &Links,
    searches: &Searches,
    numbers: &mut Numbers,
    texts: &Texts,
    time: u64,
    outbox: &mut [u8],
) -> Answer
    ensures { Answers (engine head.old links.now searches.now numbers.old texts.now) (Timeout time (length outbox.old)) outbox.old outbox.new (answered (engine head.new links.now searches.now numbers.new texts.now) result) }
{
    calls::handle_timeout(head, links, searches, numbers, texts, time, outbox)
}

// Begins the refresh salvos anew, as after the network was away.
#[unsafe(no_mangle)]
pub extern "C" fn kohlsilk_lent_reset_refresh_timer(
    head: &mut Head,
    numbers: &Numbers,
    time: u64,
) -> Answer
    ensures { (links searches texts : List ℕ) → Answers (engine head.old links searches numbers.now texts) (ResetTimer time) [] [] (answered (engine head.new links searches numbers.now texts) result) }
{
    calls::reset_refresh_timer(head, numbers, time)
}
