// The messages, exported: each hands on to the function of crate `host` of the same name, under its clauses.
ghost use Rattle.std.specs.Prelude.{◌≡◌};
ghost use Rattle.message.specs.Build.{Builds, search_texts, byebye_texts, located_texts, search_text, response_text, notify_text, byebye_text};
ghost use Rattle.message.specs.Parse.{parsed};
ghost use Rattle.message_c.specs.Numbers.{numbers_of, built_of};

use message_c::{ParsedNumbers, Written};

// What a datagram says.
#[unsafe(no_mangle)]
pub extern "C" fn kohlsilk_parse(datagram: &[u8]) -> ParsedNumbers
    ensures { result ≡ numbers_of (parsed datagram.now) }
{
    host::messages::kohlsilk_parse(datagram)
}

// A search.
#[unsafe(no_mangle)]
pub extern "C" fn kohlsilk_build_search(buf: &mut [u8], st: &[u8]) -> Written
    ensures { Builds (search_texts st.now) (search_text st.now) buf.old buf.new (built_of result) }
{
    host::messages::kohlsilk_build_search(buf, st)
}

// The response to a search.
#[unsafe(no_mangle)]
pub extern "C" fn kohlsilk_build_response(
    buf: &mut [u8],
    st: &[u8],
    usn: &[u8],
    location: &[u8],
) -> Written
    ensures { Builds (located_texts st.now usn.now location.now) (response_text st.now usn.now location.now) buf.old buf.new (built_of result) }
{
    host::messages::kohlsilk_build_response(buf, st, usn, location)
}

// The notice that a service is there.
#[unsafe(no_mangle)]
pub extern "C" fn kohlsilk_build_notify(
    buf: &mut [u8],
    nt: &[u8],
    usn: &[u8],
    location: &[u8],
) -> Written
    ensures { Builds (located_texts nt.now usn.now location.now) (notify_text nt.now usn.now location.now) buf.old buf.new (built_of result) }
{
    host::messages::kohlsilk_build_notify(buf, nt, usn, location)
}

// The notice that a service has gone.
#[unsafe(no_mangle)]
pub extern "C" fn kohlsilk_build_byebye(buf: &mut [u8], nt: &[u8], usn: &[u8]) -> Written
    ensures { Builds (byebye_texts nt.now usn.now) (byebye_text nt.now usn.now) buf.old buf.new (built_of result) }
{
    host::messages::kohlsilk_build_byebye(buf, nt, usn)
}
