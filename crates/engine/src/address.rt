// The addresses of a link: document 01, 'Links and addresses'.
ghost use Rattle.std.specs.Prelude.{◌≡◌, ◌<◌, ◌==◌, position};
ghost use Rattle.engine.specs.Links.{last_into, address_of};

use crate::sizes::ADDRESSES;
use arrayvec::ArrayVec;
use text::bytes::byte_at;

// The number of four bytes, the highest first.
pub(crate) fn number_of(bytes: &[u8]) -> u32
    ensures { result ≡ address_of bytes.now }
{
    u32::from_be_bytes([
        byte_at(bytes, 0),
        byte_at(bytes, 1),
        byte_at(bytes, 2),
        byte_at(bytes, 3),
    ])
}

// Where an address stands, if it is there.
fn place_of(addresses: &[u32], address: u32) -> Option<usize>
    ensures { result ≡ position (λ own. own == address) addresses.now }
{
    addresses.iter().position(|own| *own == address)
}

// Takes an address out, if it is there: the last one takes its place.
pub(crate) fn take_out(addresses: &mut ArrayVec<u32, ADDRESSES>, address: u32)
    ensures { addresses.new.items ≡ last_into address addresses.old.items }
{
    if let Some(at) = place_of(addresses, address) {
        addresses.swap_remove(at);
    }
}
