// What a search's target asks for, found once a search: document 01, '`target_match` and `rewrite_host`'. The contracts cite specs/Wanted.antt and specs/Target.antt.
ghost use Rattle.std.specs.Prelude.{◌≡◌, List, ℕ, ◌<◌, length, Some};
ghost use Rattle.text.specs.Bytes.{equal};
ghost use Rattle.engine.specs.Target.{ssdp_all, at_least, target_match};
ghost use Rattle.engine.specs.Wanted.{wanted_of, later_in};

use text::{bytes, number};

const COLON: u8 = b':';

// Every type; the very same type; or also a later version: the place of the target's last colon and the number behind it.
#[derive(Clone, Copy)]
pub enum Wanted {
    All,
    Same,
    Version(usize, u64),
}

pub(crate) fn wanted_of(search: &[u8]) -> Wanted
    ensures { result ≡ wanted_of search.now }
{
    if bytes::equal(search, b"ssdp:all") {
        return Wanted::All;
    }
    let Some(i) = bytes::find_last(search, COLON) else {
        return Wanted::Same;
    };
    let Some(w) = number::parse(&search[i + 1..]) else {
        return Wanted::Same;
    };
    Wanted::Version(i, w)
}

// Whether what is offered is a number that is at least the wanted one.
fn at_least(wanted: u64, offered: Option<u64>) -> bool
    ensures { result ≡ at_least (Some wanted) offered }
{
    offered.is_some_and(|offered| wanted <= offered)
}

// Whether a candidate has the same text before a colon at place i, and behind it a number that is at least the wanted one. It is out of line, so that `bytes::equal`,
// which decides for the type itself, stands in the loop over the names.
#[inline(never)]
fn is_later(search: &[u8], i: usize, wanted: u64, candidate: &[u8]) -> bool
    requires { i < length search.now }
    ensures { result ≡ later_in search.now i wanted candidate.now }
{
    if candidate.len() <= i {
        return false;
    }
    if candidate[i] != COLON {
        return false;
    }
    if !bytes::equal(&search[..i], &candidate[..i]) {
        return false;
    }
    at_least(wanted, number::parse(&candidate[i + 1..]))
}

// Whether a search, of which `wanted` was found, asks for a candidate's type.
pub(crate) fn wants(search: &[u8], wanted: Wanted, candidate: &[u8]) -> bool
    requires { wanted ≡ wanted_of search.now }
    ensures { result ≡ target_match search.now candidate.now }
{
    if bytes::equal(search, candidate) {
        return true;
    }
    match wanted {
        Wanted::All => true,
        Wanted::Same => false,
        Wanted::Version(i, w) => is_later(search, i, w, candidate),
    }
}

// Whether it asks for every type.
pub(crate) fn wants_all(wanted: Wanted) -> bool
    ensures { (search : List ℕ) → wanted ≡ wanted_of search → result ≡ equal search ssdp_all }
{
    matches!(wanted, Wanted::All)
}
