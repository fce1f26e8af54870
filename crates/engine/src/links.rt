// The table of links in a lent array, a row for each link, by index: document 01, 'Links and addresses'. A link is taken out of its row as an `Interface`, changed and
// put back. The contracts cite specs/Arrays.antt.
ghost use Rattle.std.specs.Prelude.{◌≡◌, false, not, ◌&&◌, suc, ◌+◌, ◌-◌, ◌<◌, ◌≤◌, leb, length, set};
ghost use Rattle.engine.specs.Sizes.{links_max};
ghost use Rattle.engine.specs.Table.{known, enter, leave};
ghost use Rattle.engine.specs.Slots.{insert_at, remove_at};
ghost use Rattle.engine.specs.Spot.{Spotted};
ghost use Rattle.engine.specs.Held.{link_of, by_index};
ghost use Rattle.engine.specs.LinkTable.{LinkFound};
ghost use Rattle.engine.specs.Arrays.{link_width, link_in, link_at_row, link_rows, link_count, links_in};
ghost use Rattle.engine.specs.Changes.{LinkFilled, LinksAfter};

use crate::clamp::{count_in, low_32};
use crate::interface::Interface;
use crate::shift::{down, up};
use crate::sizes::{
    ADDRESSES, FIRST_ADDRESS, Head, LINK_ADDRESSES, LINK_COUNT, LINK_INDEX, LINK_UP, LINK_WIDTH,
    LINKS, Links,
};
use arrayvec::ArrayVec;
use std::cmp::Ordering;

// How many links are held: as of names and subscriptions, one call of `count_in`.
pub(crate) fn count_of(head: &Head) -> usize
    ensures { result ≡ link_count head.now }
{
    count_in(head, LINK_COUNT, LINKS)
}

// ---- a row, lent by itself. To be written it comes as a slice, whose length the contract asks for: `as_chunks_mut` would lend it as an array, but says nothing of what
// the slice ends as; `first_chunk_mut` and `as_mut_array`, which do, would need an arm that never runs.

// The addresses that are held of a row.
fn addresses_in(row: &[u64; LINK_WIDTH]) -> ArrayVec<u32, ADDRESSES>
    ensures { result.items ≡ (link_in row.now).addresses }
{
    let count = (row[LINK_ADDRESSES] as usize).min(ADDRESSES);
    let mut addresses = ArrayVec::new();
    for address in &row[FIRST_ADDRESS..FIRST_ADDRESS + count] {
        addresses.push(low_32(*address));
    }
    addresses
}

fn link_in(row: &[u64; LINK_WIDTH]) -> Interface
    ensures { link_of result ≡ link_in row.now }
{
    Interface {
        index: low_32(row[LINK_INDEX]),
        up: row[LINK_UP] != 0,
        addresses: addresses_in(row),
    }
}

// A link into a row.
fn set_link(row: &mut [u64], link: &Interface)
    requires { length row.old ≡ link_width }
    ensures { link_in row.new ≡ link_of link.now }
{
    row[LINK_INDEX] = link.index as u64;
    row[LINK_UP] = link.up as u64;
    let addresses = link.addresses.as_slice();
    row[LINK_ADDRESSES] = addresses.len() as u64;
    for (i, &address) in addresses.iter().enumerate() {
        row[FIRST_ADDRESS + i] = address as u64;
    }
}

// ---- row i of the table, which is below the table's size: each function asks for that, for the reason in names.rt

// The index of a link.
fn index_at(links: &Links, i: usize) -> u32
    requires { i < links_max }
    ensures { result ≡ (link_at_row i links.now).index }
{
    low_32(links[LINK_WIDTH * i + LINK_INDEX])
}

pub(crate) fn link_at(links: &Links, i: usize) -> Interface
    requires { i < links_max }
    ensures { link_of result ≡ link_at_row i links.now }
{
    let (rows, _) = links.as_chunks::<LINK_WIDTH>();
    link_in(&rows[i])
}

// A link in row i, whatever stood there.
fn filled(links: &mut Links, i: usize, link: &Interface)
    requires { i < links_max }
    ensures { LinkFilled i (link_of link.now) links.old links.new }
{
    let a = LINK_WIDTH * i;
    let e = a + LINK_WIDTH;
    set_link(&mut links[a..e], link);
}

// Where the link of an index stands: `Ok` of its row, or `Err` of the one where it would stand. Names are looked through in names.rt: one search for both would take
// both tests of a row as closures, and its contract would have to say of them what these two functions say. Not by `binary_search_by` either: that finds the right
// place in an ordered table alone, and the contract is of every content that an owner lends.
pub(crate) fn spot_of(head: &Head, links: &Links, index: u32) -> Result<usize, usize>
    ensures { Spotted by_index index (links_in head.now links.now) result }
{
    let n = count_of(head);
    for i in 0..n {
        match index_at(links, i).cmp(&index) {
            Ordering::Less => {}
            Ordering::Equal => return Ok(i),
            Ordering::Greater => return Err(i),
        }
    }
    Err(n)
}

// The link of an index, if it is held.
pub(crate) fn lookup(head: &Head, links: &Links, index: u32) -> Option<Interface>
    ensures { LinkFound index (links_in head.now links.now) result }
{
    match spot_of(head, links, index) {
        Ok(i) => Some(link_at(links, i)),
        Err(_) => None,
    }
}

// A link before row i of the first n, with zeros where it has no address. Names have the like in names.rt, where a row lies in two arrays.
fn put_in(links: &mut Links, n: usize, i: usize, link: &Interface)
    requires { (i ≤ n) × (n < links_max) }
    ensures { link_rows (suc n) links.new ≡ insert_at i (link_of link.now) (link_rows n links.old) }
{
    let at = LINK_WIDTH * i;
    up(links, at, LINK_WIDTH * n, LINK_WIDTH);
    let end = at + LINK_WIDTH;
    links[at..end].fill(0);
    filled(links, i, link);
}

// A link in the place of row i.
fn put_over(links: &mut Links, n: usize, i: usize, link: &Interface)
    requires { (i < n) × (n ≤ links_max) }
    ensures { link_rows n links.new ≡ set (link_rows n links.old) i (link_of link.now) }
{
    filled(links, i, link);
}

// The first n rows without row i.
fn taken_out(links: &mut Links, n: usize, i: usize)
    requires { (i < n) × (n ≤ links_max) }
    ensures { link_rows (n - 1) links.new ≡ remove_at i (link_rows n links.old) }
{
    down(links, LINK_WIDTH * i, LINK_WIDTH * (n - 1), LINK_WIDTH);
}

// The links with `link` in the place of the one of its index, or as a new one if there is room. Answers how many are held then.
pub(crate) fn entered(head: &Head, links: &mut Links, link: Interface) -> usize
    ensures { (not (known by_index link.index (links_in head.now links.old)) && leb links_max (length (links_in head.now links.old))) ≡ false → LinksAfter result links.new (enter by_index (link_of link) (links_in head.now links.old)) }
{
    let n = count_of(head);
    match spot_of(head, links, link.index) {
        Ok(i) => {
            put_over(links, n, i, &link);
            n
        }
        Err(i) => {
            if LINKS <= n {
                return n;
            }
            put_in(links, n, i, &link);
            n + 1
        }
    }
}

// The links without the one of an index. Answers how many are held then.
pub(crate) fn removed(head: &Head, links: &mut Links, index: u32) -> usize
    ensures { LinksAfter result links.new (leave by_index index (links_in head.now links.old)) }
{
    let n = count_of(head);
    let Ok(i) = spot_of(head, links, index) else {
        return n;
    };
    taken_out(links, n, i);
    n - 1
}
