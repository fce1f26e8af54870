// The addresses that messages go out from, of the links in their lent array: document 01, 'Outbox'.
ghost use Rattle.std.specs.Prelude.{◌≡◌, cond, [], ◌++◌, ◌+◌, ◌≤◌, length};
ghost use Rattle.arrayvec.specs.ArrayVec.{array_vec_len};
ghost use Rattle.engine.specs.Sizes.{addresses_max, sources_max};
ghost use Rattle.engine.specs.Links.{up_addresses};
ghost use Rattle.engine.specs.Arrays.{links_in};

use crate::interface::Interface;
use crate::links::{count_of, link_at};
use crate::sizes::{Head, Links, SOURCES};
use arrayvec::ArrayVec;

// Puts the addresses of a link behind others, if it is up. One by one: `try_extend_from_slice` answers a Result, whose error never comes.
fn add_if_up(addresses: &mut ArrayVec<u32, SOURCES>, link: &Interface)
    requires { array_vec_len addresses.old + addresses_max ≤ sources_max }
    ensures { addresses.new.items ≡ addresses.old.items ++ cond link.now.up link.now.addresses.items [] }
{
    if link.up {
        for address in link.addresses.as_slice() {
            addresses.push(*address);
        }
    }
}

// The addresses on up links, by index and as stored.
pub(crate) fn of_up_links(head: &Head, links: &Links) -> ArrayVec<u32, SOURCES>
    ensures { result.items ≡ up_addresses (links_in head.now links.now) }
{
    let mut addresses = ArrayVec::new();
    for i in 0..count_of(head) {
        add_if_up(&mut addresses, &link_at(links, i));
    }
    addresses
}

// How many addresses are on up links.
pub(crate) fn up_count(head: &Head, links: &Links) -> usize
    ensures { (result ≡ length (up_addresses (links_in head.now links.now))) × (result ≤ sources_max) }
{
    of_up_links(head, links).len()
}
