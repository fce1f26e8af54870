// Where a datagram comes from or goes to, and the reply that waits for an advertisement: document 01, 'Engine and ledger'. The rows of names stand in names.rt.

ghost use Rattle.std.specs.Prelude.{◌≡◌, ◌≤◌, length};
ghost use Rattle.message.specs.Build.{type_max, name_max};
ghost use Rattle.engine.specs.Sizes.{location_max};

// Where a datagram came from, or goes to.
#[derive(Clone, Copy, Debug, PartialEq, Eq)]
pub struct Endpoint {
    pub address: u32,
    pub port: u16,
}

// The waiting reply of an advertisement: none; to the group at an instant; or to one searcher at an instant, from the address that its search reached. Document 01
// names this enum, as the Rust has it: no Option round the other two.
#[derive(Clone, Copy)]
pub enum ResponseNeeded {
    None,
    Multicast(u64),
    Unicast(u64, Endpoint, u32),
}

// A location within its size.
#[derive(Clone, Copy)]
pub struct Location<'a> {
    pub text: &'a [u8],
    pub ghost fits: { length text.now ≤ location_max },
}

// What is advertised: texts within their sizes.
#[derive(Clone, Copy)]
pub struct Service<'a> {
    pub name: &'a [u8],
    pub service: &'a [u8],
    pub location: Location<'a>,
    pub ghost name_fits: { length name.now ≤ name_max },
    pub ghost service_fits: { length service.now ≤ type_max },
}

impl<'a> Service<'a> {
    // The three texts as one, where a call has tested their sizes. A literal there would want the three of one lifetime in that call's own signature.
    pub(crate) fn new(name: &'a [u8], service: &'a [u8], location: Location<'a>) -> Service<'a>
        requires { (length name.now ≤ name_max) × (length service.now ≤ type_max) }
        ensures { (result.name.now ≡ name.now) × (result.service.now ≡ service.now) × (result.location.text.now ≡ location.entry.text.now) }
    {
        Service {
            name,
            service,
            location,
        }
    }
}

// What the row of a name holds: its texts, its waiting reply, and beside that the type of the answer to a lone searcher.
#[derive(Clone, Copy)]
pub struct ActiveAdvertisement<'a> {
    pub name: &'a [u8],
    pub service: &'a [u8],
    pub location: Location<'a>,
    pub response_needed: ResponseNeeded,
    pub answer: &'a [u8],
}
