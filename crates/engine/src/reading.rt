// What a message is about: document 01, 'Engine and ledger'. The contract cites specs/Reading.antt.
ghost use Rattle.std.specs.Prelude.{◌≡◌};
ghost use Rattle.engine.specs.Reading.{type_of};

use message::Message;
use text::white::Place;

// Where the type of a notify or response stands, its NT or ST, or the target of a search.
pub(crate) fn type_of(said: Message) -> Place
    ensures { result ≡ type_of said }
{
    match said {
        Message::NotifyAlive {
            notification_type,
            ..
        }
        | Message::NotifyByeBye {
            notification_type,
            ..
        } => notification_type,
        Message::Search { search_target, .. } | Message::Response { search_target, .. } => {
            search_target
        }
    }
}
