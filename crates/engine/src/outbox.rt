// Records at the start of the lent outbox: document 01, 'Outbox'. Each message is built in the part of the outbox behind its record's head.
// The contracts cite specs/Layout.antt: `Sent` says which records were written. They ask for room for a record: what is left of the outbox comes as a slice, since
// `first_chunk_mut`, which would lend an array of a record's size, needs an arm that never runs.
ghost use Rattle.std.specs.Prelude.{◌≡◌, [], ◌∷◌, ◌+◌, ◌-◌, ◌≤◌, length, take, drop, replicate};
ghost use Rattle.text.specs.Put.{Put};
ghost use Rattle.engine.specs.Sizes.{record_size, head_size};
ghost use Rattle.engine.specs.Records.{SearchFrom, NotifyFrom, ByeByeFrom, ResponseFrom};
ghost use Rattle.engine.specs.Layout.{head_of, framed, Sent};

use crate::advertisement::{Endpoint, Location};
use crate::buffer::put;
use crate::location::rewrite_host;
use crate::sizes::{RECORD_HEAD, RECORD_SIZE, REWRITTEN_SIZE};

// Writes `n` zeros into `buf` from `at` on and answers the place behind them.
fn clear(buf: &mut [u8], at: usize, n: usize) -> usize
    requires { at + n ≤ length buf.old }
    ensures { Put buf.old at (replicate n 0) buf.new result }
{
    buf[at..at + n].fill(0);
    at + n
}

// Writes the head of a record whose message has `len` bytes, and answers the place behind it; buffer and place side by side, as in text's `put`.
fn put_head(buf: &mut [u8], at: usize, to: Endpoint, source: u32, len: u16) -> usize
    requires { at + head_size ≤ length buf.old }
    ensures put { Put buf.old at (head_of to source len) buf.new result }
    ensures place { result ≡ at + head_size }
{
    let port = put(buf, at, &to.address.to_be_bytes());
    let from = put(buf, port, &to.port.to_be_bytes());
    let size = put(buf, from, &source.to_be_bytes());
    put(buf, size, &len.to_be_bytes())
}

// Puts head and zeros round the message of `len` bytes that stands in the first record.
fn frame(outbox: &mut [u8], to: Endpoint, source: u32, len: usize)
    requires { (record_size ≤ length outbox.old) × (len ≤ record_size - head_size) }
    ensures { Put outbox.old 0 (framed to source (take len (drop head_size outbox.old))) outbox.new record_size }
{
    let at = put_head(outbox, 0, to, source, len as u16);
    clear(outbox, at + len, RECORD_SIZE - RECORD_HEAD - len);
}

// The group that all but responses go to.
const GROUP: Endpoint = Endpoint {
    address: 4026531834,
    port: 1900,
};

// ---- one record each. A build that is refused is a message of no bytes in the definitions, and so `unwrap_or(0)` here.

// A search for a type, to the group.
pub(crate) fn search_on(outbox: &mut [u8], source: u32, service: &[u8])
    requires { record_size ≤ length outbox.old }
    ensures { Sent (SearchFrom source service.now ∷ []) outbox.old outbox.new 1 }
{
    let len = message::build_search(&mut outbox[RECORD_HEAD..], service).unwrap_or(0);
    frame(outbox, GROUP, source, len);
}

// That a service is there, to the group, its location as seen from the source.
pub(crate) fn notify_on(
    outbox: &mut [u8],
    source: u32,
    service: &[u8],
    name: &[u8],
    location: Location<'_>,
)
    requires { record_size ≤ length outbox.old }
    ensures { Sent (NotifyFrom source service.now name.now location.entry.text.now ∷ []) outbox.old outbox.new 1 }
{
    let mut url = [0u8; REWRITTEN_SIZE];
    let url_len = rewrite_host(&mut url, location.text, source);
    let len = message::build_notify(
        &mut outbox[RECORD_HEAD..],
        service,
        name,
        &url[..url_len],
    ).unwrap_or(0);
    frame(outbox, GROUP, source, len);
}

// That a service goes, to the group.
pub(crate) fn byebye_on(outbox: &mut [u8], source: u32, service: &[u8], name: &[u8])
    requires { record_size ≤ length outbox.old }
    ensures { Sent (ByeByeFrom source service.now name.now ∷ []) outbox.old outbox.new 1 }
{
    let len = message::build_byebye(&mut outbox[RECORD_HEAD..], service, name).unwrap_or(0);
    frame(outbox, GROUP, source, len);
}

// The reply to a lone searcher, from the address that its search reached.
pub(crate) fn send_response(
    outbox: &mut [u8],
    source: u32,
    to: Endpoint,
    service: &[u8],
    name: &[u8],
    location: Location<'_>,
)
    requires { record_size ≤ length outbox.old }
    ensures { Sent (ResponseFrom source to service.now name.now location.entry.text.now ∷ []) outbox.old outbox.new 1 }
{
    let mut url = [0u8; REWRITTEN_SIZE];
    let url_len = rewrite_host(&mut url, location.text, source);
    let len = message::build_response(
        &mut outbox[RECORD_HEAD..],
        service,
        name,
        &url[..url_len],
    ).unwrap_or(0);
    frame(outbox, to, source, len);
}
