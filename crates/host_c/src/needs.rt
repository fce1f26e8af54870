// How many bytes of outbox a call needs, exported: each hands on to the function of crate `host` of the same name, under its clauses.
ghost use Rattle.std.specs.Prelude.{◌≡◌, List, ℕ};
ghost use Rattle.engine.specs.Held.{Text};
ghost use Rattle.engine.specs.Calls.{NewLink, NewAddress, Subscribe, Advertise, Deadvertise, Refresh, Timeout};
ghost use Rattle.engine.specs.Engine.{need_of};
ghost use Rattle.engine.specs.Arrays.{engine, held};

use engine::sizes::{Head, Links, Numbers, Searches, Texts};

// `subscribe` and `advertise`.
#[unsafe(no_mangle)]
pub extern "C" fn kohlsilk_lent_announcement_need(head: &Head, links: &Links) -> usize
    ensures { (searches numbers texts : List ℕ) (name service location : Text) (room : ℕ) → (result ≡ need_of (held (engine head.now links.now searches numbers texts)) (Subscribe service room)) × (result ≡ need_of (held (engine head.now links.now searches numbers texts)) (Advertise name service location room)) }
{
    host::needs::kohlsilk_lent_announcement_need(head, links)
}

// `deadvertise`.
#[unsafe(no_mangle)]
pub extern "C" fn kohlsilk_lent_deadvertise_need(
    head: &Head,
    links: &Links,
    numbers: &Numbers,
    texts: &Texts,
    name: &[u8],
) -> usize
    ensures { (searches : List ℕ) (room : ℕ) → result ≡ need_of (held (engine head.now links.now searches numbers.now texts.now)) (Deadvertise name.now room) }
{
    host::needs::kohlsilk_lent_deadvertise_need(head, links, numbers, texts, name)
}

// `refresh`.
#[unsafe(no_mangle)]
pub extern "C" fn kohlsilk_lent_refresh_need(
    head: &Head,
    links: &Links,
    searches: &Searches,
) -> usize
    ensures { (numbers texts : List ℕ) (room : ℕ) → result ≡ need_of (held (engine head.now links.now searches.now numbers texts)) (Refresh room) }
{
    host::needs::kohlsilk_lent_refresh_need(head, links, searches)
}

// `handle_timeout`.
#[unsafe(no_mangle)]
pub extern "C" fn kohlsilk_lent_handle_timeout_need(
    head: &Head,
    links: &Links,
    searches: &Searches,
    numbers: &Numbers,
    time: u64,
) -> usize
    ensures { (texts : List ℕ) (room : ℕ) → result ≡ need_of (held (engine head.now links.now searches.now numbers.now texts)) (Timeout time room) }
{
    host::needs::kohlsilk_lent_handle_timeout_need(head, links, searches, numbers, time)
}

// News of a link.
#[unsafe(no_mangle)]
pub extern "C" fn kohlsilk_lent_new_link_need(
    head: &Head,
    links: &Links,
    searches: &Searches,
    index: u32,
    flags: u32,
) -> usize
    ensures { (numbers texts : List ℕ) (outcome room : ℕ) → result ≡ need_of (held (engine head.now links.now searches.now numbers texts)) (NewLink index flags outcome room) }
{
    host::needs::kohlsilk_lent_new_link_need(head, links, searches, index, flags)
}

// A new address.
#[unsafe(no_mangle)]
pub extern "C" fn kohlsilk_lent_new_address_need(
    head: &Head,
    links: &Links,
    searches: &Searches,
    index: u32,
    address: &[u8],
) -> usize
    ensures { (numbers texts : List ℕ) (room : ℕ) → result ≡ need_of (held (engine head.now links.now searches.now numbers texts)) (NewAddress index address.now room) }
{
    host::needs::kohlsilk_lent_new_address_need(head, links, searches, index, address)
}
