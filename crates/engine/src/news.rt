// What the kernel's news makes of the links in their lent array: document 01, 'Links and addresses'. Each change answers how many links are held then.
ghost use Rattle.std.specs.Prelude.{◌≡◌, false, ◌&&◌, not, List, ℕ, leb, length};
ghost use Rattle.engine.specs.Sizes.{links_max, addresses_max};
ghost use Rattle.engine.specs.Held.{Link};
ghost use Rattle.engine.specs.Links.{addresses_of, any_up, link_at, is_v4, address_of, contains, stores, link_news, address_news, address_gone};
ghost use Rattle.engine.specs.LinkTable.{LinkFound};
ghost use Rattle.engine.specs.Records.{turns_up};
ghost use Rattle.engine.specs.Refusals.{new_multicast};
ghost use Rattle.engine.specs.Arrays.{links_in};
ghost use Rattle.engine.specs.Changes.{LinksAfter};

use crate::address::{number_of, take_out};
use crate::flags::Flags;
use crate::interface::Interface;
use crate::links::{count_of, entered};
use crate::sizes::{Head, Links};
use arrayvec::ArrayVec;

// The addresses of a link that was looked for: none, if it is not held.
pub(crate) fn addresses_of(held: &Option<Interface>) -> &[u32]
    ensures { (index : ℕ) (links : List Link) → LinkFound index links held.now → result.now ≡ addresses_of (link_at index links) }
{
    match held {
        Some(link) => &link.addresses,
        None => &[],
    }
}

// Whether a link that was looked for is held and up.
pub(crate) fn is_up(held: &Option<Interface>) -> bool
    ensures { (index : ℕ) (links : List Link) → LinkFound index links held.now → result ≡ any_up (link_at index links) }
{
    match held {
        Some(link) => link.up,
        None => false,
    }
}

// Whether news is of a held link that was not up and now is.
pub(crate) fn turns_up(held: &Option<Interface>, flags: u32) -> bool
    ensures { (index : ℕ) (links : List Link) → LinkFound index links held.now → result ≡ turns_up index flags links }
{
    let Some(link) = held else {
        return false;
    };
    Flags(flags).is_multicast() & !link.up & Flags(flags).is_up()
}

// Whether an address is an IPv4 address that a link does not have.
fn is_new(link: &Interface, address: &[u8]) -> bool
    ensures { result ≡ (is_v4 address.now && not (contains (address_of address.now) link.now.addresses.items)) }
{
    (address.len() == 4) & !link.addresses.contains(&number_of(address))
}

// Whether an address that the kernel tells of is to be stored: a new one of a held link.
pub(crate) fn is_stored(held: &Option<Interface>, address: &[u8]) -> bool
    ensures { (index : ℕ) (links : List Link) → LinkFound index links held.now → result ≡ stores index address.now links }
{
    match held {
        Some(link) => is_new(link, address),
        None => false,
    }
}

// News of a link. A new one enters if there is room.
pub(crate) fn link_stored(
    head: &Head,
    links: &mut Links,
    index: u32,
    held: Option<Interface>,
    flags: u32,
) -> usize
    ensures { LinkFound index (links_in head.now links.old) held → (new_multicast index flags (links_in head.now links.old) && leb links_max (length (links_in head.now links.old))) ≡ false → LinksAfter result links.new (link_news index flags (links_in head.now links.old)) }
{
    if !Flags(flags).is_multicast() {
        return count_of(head);
    }
    let up = Flags(flags).is_up();
    match held {
        Some(mut link) => {
            link.up = up;
            entered(head, links, link)
        }
        None => {
            let link = Interface {
                index,
                up,
                addresses: ArrayVec::new(),
            };
            entered(head, links, link)
        }
    }
}

// News of an address, which is stored if there is room for it. The number of links stays.
pub(crate) fn address_stored(
    head: &Head,
    links: &mut Links,
    held: Option<Interface>,
    address: &[u8],
) -> usize
    ensures { (index : ℕ) → LinkFound index (links_in head.now links.old) held → (stores index address.now (links_in head.now links.old) && leb addresses_max (length (addresses_of (link_at index (links_in head.now links.old))))) ≡ false → LinksAfter result links.new (address_news index address.now (links_in head.now links.old)) }
{
    let Some(mut link) = held else {
        return count_of(head);
    };
    if !is_new(&link, address) | link.addresses.is_full() {
        return count_of(head);
    }
    link.addresses.push(number_of(address));
    entered(head, links, link)
}

// An address has gone.
pub(crate) fn address_gone(
    head: &Head,
    links: &mut Links,
    held: Option<Interface>,
    address: &[u8],
) -> usize
    ensures { (index : ℕ) → LinkFound index (links_in head.now links.old) held → LinksAfter result links.new (address_gone index address.now (links_in head.now links.old)) }
{
    let Some(mut link) = held else {
        return count_of(head);
    };
    if address.len() != 4 {
        return count_of(head);
    }
    take_out(&mut link.addresses, number_of(address));
    entered(head, links, link)
}
