// The call that a line asks for.
ghost use Rattle.std.specs.Prelude.{◌≡◌, true, [], Some, length, take};
ghost use Rattle.console.specs.Datagram.{datagram};
ghost use Rattle.console.specs.Hexadecimal.{unhexed};
ghost use Rattle.engine.specs.Owned.{engine_in};
ghost use Rattle.engine.specs.Layout.{big_endian4};
ghost use Rattle.engine.specs.Calls.{NewAddress, DeletedAddress, Advertise, Datagram};
ghost use Rattle.engine.specs.Promises.{answered, Answers};
ghost use Rattle.dialogue.specs.Asking.{asked, part_of, datagram_max, address_max};
ghost use Rattle.dialogue.specs.Obeying.{Obeys};

use console::command::Command;
use console::part::part_of;
use console::{datagram, hexadecimal, part};
use engine::advertisement::Endpoint;
use engine::answer::Answer;
use engine::arrays::Arrays;
use text::white::Place;

// The most bytes of an address in hexadecimal, and of the datagram of a line: each of its bytes may stand for two.
const ADDRESS_MAX: usize = 32;

const DATAGRAM_MAX: usize = 8192;

// The four bytes of an address, the highest first.
fn octets_of(address: u32) -> [u8; 4]
    ensures { result ≡ big_endian4 address }
{
    address.to_be_bytes()
}

// `addr` and `deladdr`: the address is these four bytes.
fn new_address(arrays: &mut Arrays, index: u32, address: u32, outbox: &mut [u8]) -> Answer
    ensures { Answers (engine_in arrays.old) (NewAddress index (big_endian4 address) (length outbox.old)) outbox.old outbox.new (answered (engine_in arrays.new) result) }
{
    arrays.new_address(index, &octets_of(address), outbox)
}

fn deleted_address(arrays: &mut Arrays, index: u32, address: u32) -> Answer
    ensures { Answers (engine_in arrays.old) (DeletedAddress index (big_endian4 address)) [] [] (answered (engine_in arrays.new) result) }
{
    arrays.deleted_address(index, &octets_of(address))
}

// `hexaddr` and `hexdeladdr`: the address is what the digits stand for. Each has the buffer for it, which one function for both could hand out only with a
// length beside it.
fn new_hex_address(arrays: &mut Arrays, index: u32, digits: &[u8], outbox: &mut [u8]) -> Answer
    ensures { Answers (engine_in arrays.old) (NewAddress index (take address_max (unhexed digits.now)) (length outbox.old)) outbox.old outbox.new (answered (engine_in arrays.new) result) }
{
    let mut octets = [0; ADDRESS_MAX];
    let n = hexadecimal::write_unhexed(&mut octets, digits);
    arrays.new_address(index, part::front(&octets, n), outbox)
}

fn deleted_hex_address(arrays: &mut Arrays, index: u32, digits: &[u8]) -> Answer
    ensures { Answers (engine_in arrays.old) (DeletedAddress index (take address_max (unhexed digits.now))) [] [] (answered (engine_in arrays.new) result) }
{
    let mut octets = [0; ADDRESS_MAX];
    let n = hexadecimal::write_unhexed(&mut octets, digits);
    arrays.deleted_address(index, part::front(&octets, n))
}

// `advertise`: each text is a part of the line.
fn advertise(
    arrays: &mut Arrays,
    line: &[u8],
    name: Place,
    service: Place,
    location: Place,
    outbox: &mut [u8],
) -> Answer
    ensures { Answers (engine_in arrays.old) (Advertise (part_of line.now name) (part_of line.now service) (part_of line.now location) (length outbox.old)) outbox.old outbox.new (answered (engine_in arrays.new) result) }
{
    arrays.advertise(
        part_of(line, name),
        part_of(line, service),
        part_of(line, location),
        outbox,
    )
}

// `data` and `hexdata`: the datagram is what the text or the digits stand for. One function for both would take the reading as a closure, whose clause is longer
// than the second function.
fn on_text(arrays: &mut Arrays, time: u64, sender: Endpoint, receiver: u32, text: &[u8]) -> Answer
    ensures { Answers (engine_in arrays.old) (Datagram time sender receiver (take datagram_max (datagram text.now))) [] [] (answered (engine_in arrays.new) result) }
{
    let mut bytes = [0; DATAGRAM_MAX];
    let n = datagram::write_datagram(&mut bytes, text);
    arrays.on_data(time, sender, receiver, part::front(&bytes, n))
}

fn on_hexadecimal(
    arrays: &mut Arrays,
    time: u64,
    sender: Endpoint,
    receiver: u32,
    digits: &[u8],
) -> Answer
    ensures { Answers (engine_in arrays.old) (Datagram time sender receiver (take datagram_max (unhexed digits.now))) [] [] (answered (engine_in arrays.new) result) }
{
    let mut bytes = [0; DATAGRAM_MAX];
    let n = hexadecimal::write_unhexed(&mut bytes, digits);
    arrays.on_data(time, sender, receiver, part::front(&bytes, n))
}

// The answer to the call that a command asks for, if it asks for one.
#[tactic(auto, using(crate::proofs::Calling::called, crate::proofs::Calling::called_alone), unfolding(crate::specs::Asking::asked))]
pub(crate) fn answer_to(
    arrays: &mut Arrays,
    line: &[u8],
    command: Command,
    outbox: &mut [u8],
) -> Option<Answer>
    ensures { Obeys true (asked line.now (length outbox.old) (Some command)) (engine_in arrays.old) outbox.old outbox.new (engine_in arrays.new) (record { begun = true; answer = result }) }
{
    let answer = match command {
        Command::New(_, _) | Command::Lend(_) => return None,
        Command::NewLink(index, flags, outcome) => arrays.new_link(index, flags, outcome, outbox),
        Command::DeletedLink(index, outcome) => arrays.deleted_link(index, outcome),
        Command::NewAddress(index, address) => new_address(arrays, index, address, outbox),
        Command::DeletedAddress(index, address) => deleted_address(arrays, index, address),
        Command::NewHexAddress(index, digits) => {
            new_hex_address(arrays, index, part_of(line, digits), outbox)
        }
        Command::DeletedHexAddress(index, digits) => {
            deleted_hex_address(arrays, index, part_of(line, digits))
        }
        Command::Subscribe(service) => arrays.subscribe(part_of(line, service), outbox),
        Command::Advertise(name, service, location) => {
            advertise(arrays, line, name, service, location, outbox)
        }
        Command::Deadvertise(name) => arrays.deadvertise(part_of(line, name), outbox),
        Command::Refresh => arrays.refresh(outbox),
        Command::Datagram(time, address, port, receiver, text) => {
            let sender = Endpoint { address, port };
            on_text(arrays, time, sender, receiver, part_of(line, text))
        }
        Command::HexDatagram(time, address, port, receiver, digits) => {
            let sender = Endpoint { address, port };
            on_hexadecimal(arrays, time, sender, receiver, part_of(line, digits))
        }
        Command::Timeout(time) => arrays.handle_timeout(time, outbox),
        Command::Reset(time) => arrays.reset_refresh_timer(time),
    };
    Some(answer)
}
