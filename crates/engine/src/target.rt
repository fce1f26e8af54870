// Which types a search asks for: document 01, '`target_match` and `rewrite_host`'. The contract cites specs/Target.antt.
ghost use Rattle.std.specs.Prelude.{◌≡◌};
ghost use Rattle.engine.specs.Target.{target_match};

use crate::wanted::{wanted_of, wants};
use text::bytes;

// Whether a search asks for a candidate's type. The very same type, which is most often asked for, needs no look at the versions.
pub(crate) fn target_match(search: &[u8], candidate: &[u8]) -> bool
    ensures { result ≡ target_match search.now candidate.now }
{
    if bytes::equal(search, candidate) {
        return true;
    }
    wants(search, wanted_of(search), candidate)
}
