// The archive of crate `message_c`: each function that it has for a host, exported under its name and with its clauses. A library exports nothing itself, and
// a static library is nobody's dependency. The comparisons and benchmarks of differential/ link it, as libmessage_c.a.
#![tactic(auto)]

ghost use Rattle.std.specs.Prelude.{◌≡◌};
ghost use Rattle.message.specs.Build.{Builds, search_texts, byebye_texts, located_texts, search_text, response_text, notify_text, byebye_text};
ghost use Rattle.message.specs.Parse.{parsed};
ghost use Rattle.message_c.specs.Numbers.{numbers_of, built_of};

use message_c::{ParsedNumbers, Written};

#[unsafe(no_mangle)]
pub extern "C" fn message_c_parse(datagram: &[u8]) -> ParsedNumbers
    ensures { result ≡ numbers_of (parsed datagram.now) }
{
    message_c::message_c_parse(datagram)
}

#[unsafe(no_mangle)]
pub extern "C" fn message_c_search(buf: &mut [u8], st: &[u8]) -> Written
    ensures { Builds (search_texts st.now) (search_text st.now) buf.old buf.new (built_of result) }
{
    message_c::message_c_search(buf, st)
}

#[unsafe(no_mangle)]
pub extern "C" fn message_c_response(
    buf: &mut [u8],
    st: &[u8],
    usn: &[u8],
    location: &[u8],
) -> Written
    ensures { Builds (located_texts st.now usn.now location.now)
        (response_text st.now usn.now location.now)
        buf.old buf.new (built_of result) }
{
    message_c::message_c_response(buf, st, usn, location)
}

#[unsafe(no_mangle)]
pub extern "C" fn message_c_notify(
    buf: &mut [u8],
    nt: &[u8],
    usn: &[u8],
    location: &[u8],
) -> Written
    ensures { Builds (located_texts nt.now usn.now location.now)
        (notify_text nt.now usn.now location.now)
        buf.old buf.new (built_of result) }
{
    message_c::message_c_notify(buf, nt, usn, location)
}

#[unsafe(no_mangle)]
pub extern "C" fn message_c_byebye(buf: &mut [u8], nt: &[u8], usn: &[u8]) -> Written
    ensures { Builds (byebye_texts nt.now usn.now)
        (byebye_text nt.now usn.now)
        buf.old buf.new (built_of result) }
{
    message_c::message_c_byebye(buf, nt, usn)
}
