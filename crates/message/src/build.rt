// The four messages, written into a lent buffer: document 01, 'Messages' and 'Who can be turned away' (3, 4, 6).
ghost use Rattle.std.specs.Prelude.{◌≡◌, ◌++◌, ◌+◌, ◌≤◌, length, Some};
ghost use Rattle.text.specs.Good.{good_text};
ghost use Rattle.text.specs.Put.{Put};
ghost use Rattle.message.specs.Build.{Builds, build_number, build_words, refused_by, built, build_refusal, search_texts, byebye_texts, located_texts, search_text, response_text, notify_text, byebye_text, header_line, field, crlf, host_text, max_age_text, notify_line};

use std::error::Error;
use std::fmt;
use text::{buffer, good};

// The largest sizes of the texts that go into a message.
pub const TYPE_MAX: usize = 80;

pub const NAME_MAX: usize = 128;

const LOCATION_MAX: usize = 135;

// The bytes of each message besides its texts.
const SEARCH_BESIDES: usize = 86;

const RESPONSE_BESIDES: usize = 116;

const NOTIFY_BESIDES: usize = 163;

const BYEBYE_BESIDES: usize = 152;

// Why a message is not built, with document 01's numbers.
#[derive(Clone, Copy, Debug, PartialEq, Eq)]
pub enum BuildError {
    TextOverSize = 3,
    TextNotGood = 4,
    BufferShort = 6,
}

impl BuildError {
    pub fn number(self) -> u32
        ensures { result ≡ build_number self }
    {
        self as u32
    }
}

impl fmt::Display for BuildError {
    ghost output = { λ e. Some (build_words e) };

    fn fmt<W: fmt::Write>(&self, f: &mut fmt::Formatter<W>) -> fmt::Result {
        f.write_str(match self {
            BuildError::TextOverSize => "a text over its size",
            BuildError::TextNotGood => "a text that may not stand in a message",
            BuildError::BufferShort => "a buffer shorter than the message",
        })
    }
}

impl Error for BuildError {}

// Lines that several messages have.
const HOST: [u8; 28] = *b"HOST: 239.255.255.250:1900\r\n";

const MAX_AGE: [u8; 29] = *b"CACHE-CONTROL: max-age=1800\r\n";

const SERVER_AND_END: [u8; 45] = *b"SERVER: none/0 UPnP/1.0 cotton-ssdp/1.0.0\r\n\r\n";

// Writes `text`, which fits, into `buf` from `at` on and answers the place behind it. A public function asks nothing of its caller, so that the text crate has none such. Buffer and
// place go side by side: of a struct that holds a lent buffer each contract would have to say that it still holds the same one.
fn put(buf: &mut [u8], at: usize, text: &[u8]) -> usize
    requires { at + length text.now ≤ length buf.old }
    ensures { Put buf.old at text.now buf.new result }
{
    buffer::put(buf, at, text)
}

// A header's line; `key` ends in its colon and blank.
fn put_header(buf: &mut [u8], at: usize, key: &[u8], value: &[u8]) -> usize
    requires { at + (length key.now + (length value.now + 2)) ≤ length buf.old }
    ensures put { Put buf.old at (key.now ++ value.now ++ crlf) buf.new result }
    ensures value { result ≡ at + (length key.now + (length value.now + 2)) }
{
    let a = put(buf, at, key);
    let b = put(buf, a, value);
    put(buf, b, b"\r\n")
}

// The lines that a notify and a byebye begin with.
fn put_notify(buf: &mut [u8]) -> usize
    requires { 76 ≤ length buf.old }
    ensures put { Put buf.old 0 (notify_line ++ crlf ++ header_line (field "HOST" host_text) ++ header_line (field "CACHE-CONTROL" max_age_text)) buf.new result }
    ensures value { result ≡ 76 }
{
    let a = put(buf, 0, b"NOTIFY * HTTP/1.1\r\n");
    let b = put(buf, a, &HOST);
    put(buf, b, &MAX_AGE)
}

fn put_search(buf: &mut [u8], service: &[u8]) -> usize
    requires { 86 + length service.now ≤ length buf.old }
    ensures { Put buf.old 0 (search_text service.now) buf.new result }
{
    let a = put(buf, 0, b"M-SEARCH * HTTP/1.1\r\n");
    let b = put(buf, a, &HOST);
    let c = put(buf, b, b"MAN: \"ssdp:discover\"\r\nMX: 5\r\n");
    let d = put_header(buf, c, b"ST: ", service);
    put(buf, d, b"\r\n")
}

fn put_response(buf: &mut [u8], service: &[u8], name: &[u8], location: &[u8]) -> usize
    requires { 116 + (length service.now + (length name.now + length location.now)) ≤ length buf.old }
    ensures { Put buf.old 0 (response_text service.now name.now location.now) buf.new result }
{
    let a = put(buf, 0, b"HTTP/1.1 200 OK\r\n");
    let b = put(buf, a, &MAX_AGE);
    let c = put_header(buf, b, b"ST: ", service);
    let d = put_header(buf, c, b"USN: ", name);
    let e = put_header(buf, d, b"LOCATION: ", location);
    put(buf, e, &SERVER_AND_END)
}

fn put_alive(buf: &mut [u8], service: &[u8], name: &[u8], location: &[u8]) -> usize
    requires { 163 + (length service.now + (length name.now + length location.now)) ≤ length buf.old }
    ensures { Put buf.old 0 (notify_text service.now name.now location.now) buf.new result }
{
    let a = put_notify(buf);
    let b = put_header(buf, a, b"LOCATION: ", location);
    let c = put_header(buf, b, b"NT: ", service);
    let d = put(buf, c, b"NTS: ssdp:alive\r\n");
    let e = put_header(buf, d, b"USN: ", name);
    put(buf, e, &SERVER_AND_END)
}

fn put_byebye(buf: &mut [u8], service: &[u8], name: &[u8]) -> usize
    requires { 152 + (length service.now + length name.now) ≤ length buf.old }
    ensures { Put buf.old 0 (byebye_text service.now name.now) buf.new result }
{
    let a = put_notify(buf);
    let b = put_header(buf, a, b"NT: ", service);
    let c = put(buf, b, b"NTS: ssdp:byebye\r\n");
    let d = put_header(buf, c, b"USN: ", name);
    put(buf, d, &SERVER_AND_END)
}

// Whether a text that a message may lack is good. One that it lacks is handed in empty, and is so without a look:
// an empty one passes too, so that an Option would say the same.
#[tactic(auto, using(crate::proofs::Building::good_missing))]
fn missing_or_good(text: &[u8]) -> bool
    ensures { result ≡ good_text text.now }
{
    text.is_empty() || good::is_good(text)
}

// Whether three texts may stand in a message of `besides` bytes more, in a buffer of `room` bytes. A message that lacks a text hands in an empty one.
#[tactic(auto, unfolding(crate::specs::Build::build_refusal))]
fn check(
    service: &[u8],
    name: &[u8],
    location: &[u8],
    besides: usize,
    room: usize,
) -> Result<(), BuildError>
    requires { besides ≤ 163 }
    ensures { refused_by result ≡ build_refusal (located_texts service.now name.now location.now) (besides + (length service.now + (length name.now + length location.now))) room }
{
    if TYPE_MAX < service.len() || NAME_MAX < name.len() || LOCATION_MAX < location.len() {
        return Err(BuildError::TextOverSize);
    }
    if !(good::is_good(service) && missing_or_good(name) && missing_or_good(location)) {
        return Err(BuildError::TextNotGood);
    }
    if room < besides + (service.len() + (name.len() + location.len())) {
        return Err(BuildError::BufferShort);
    }
    Ok(())
}

// ---- a build each: every message has its own texts, and its own definition, which the contract names

// "M-SEARCH": asks who offers `search_type`.
pub fn build_search(buf: &mut [u8], search_type: &[u8]) -> Result<usize, BuildError>
    ensures { Builds (search_texts search_type.now) (search_text search_type.now) buf.old buf.new (built result) }
{
    check(search_type, b"", b"", SEARCH_BESIDES, buf.len())?;
    Ok(put_search(buf, search_type))
}

// The answer to a search.
pub fn build_response(
    buf: &mut [u8],
    search_target: &[u8],
    unique_service_name: &[u8],
    location: &[u8],
) -> Result<usize, BuildError>
    ensures { Builds (located_texts search_target.now unique_service_name.now location.now) (response_text search_target.now unique_service_name.now location.now) buf.old buf.new (built result) }
{
    check(
        search_target,
        unique_service_name,
        location,
        RESPONSE_BESIDES,
        buf.len(),
    )?;
    Ok(put_response(buf, search_target, unique_service_name, location))
}

// "ssdp:alive": says that a service is there.
pub fn build_notify(
    buf: &mut [u8],
    notification_type: &[u8],
    unique_service_name: &[u8],
    location: &[u8],
) -> Result<usize, BuildError>
    ensures { Builds (located_texts notification_type.now unique_service_name.now location.now) (notify_text notification_type.now unique_service_name.now location.now) buf.old buf.new (built result) }
{
    check(
        notification_type,
        unique_service_name,
        location,
        NOTIFY_BESIDES,
        buf.len(),
    )?;
    Ok(put_alive(buf, notification_type, unique_service_name, location))
}

// "ssdp:byebye": says that a service goes.
pub fn build_byebye(
    buf: &mut [u8],
    notification_type: &[u8],
    unique_service_name: &[u8],
) -> Result<usize, BuildError>
    ensures { Builds (byebye_texts notification_type.now unique_service_name.now) (byebye_text notification_type.now unique_service_name.now) buf.old buf.new (built result) }
{
    check(
        notification_type,
        unique_service_name,
        b"",
        BYEBYE_BESIDES,
        buf.len(),
    )?;
    Ok(put_byebye(buf, notification_type, unique_service_name))
}
