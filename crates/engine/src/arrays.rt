// The calls for an owner that holds the five arrays together: each lends its call those that it needs.
ghost use Rattle.std.specs.Prelude.{◌≡◌, [], length, replicate};
ghost use Rattle.engine.specs.Arrays.{head_places, link_numbers, search_bytes, numbers_size, texts_size};
ghost use Rattle.engine.specs.Calls.{NewLink, DeletedLink, NewAddress, DeletedAddress, Subscribe, Advertise, Deadvertise, Refresh, Datagram, Timeout, ResetTimer};
ghost use Rattle.engine.specs.Promises.{answered, Answers, Begins};
ghost use Rattle.engine.specs.Owned.{engine_in};

use crate::advertisement::Endpoint;
use crate::answer::Answer;
use crate::calls;
use crate::sizes::{
    HEAD_PLACES, Head, LINK_NUMBERS, Links, NUMBERS_SIZE, Numbers, SEARCH_BYTES, Searches,
    TEXTS_SIZE, Texts,
};

// The five arrays, for an owner that holds them together and in Rattle; one that holds them apart, as in C, lends them to the functions of calls.rt.
#[derive(Drop)]
pub struct Arrays {
    pub head: Head,
    pub links: Links,
    pub searches: Searches,
    pub numbers: Numbers,
    pub texts: Texts,
}

// An owner makes them by `new` and calls `begin` before anything else. Each of the twelve calls is that of calls.rt, which says when an owner makes it; `begin` is `calls::new`.
impl Arrays {
    // The arrays of an engine that has not begun. Any content would do, and these are all zero.
    pub fn new() -> Arrays
        ensures { result ≡ record { head = replicate head_places 0; links = replicate link_numbers 0; searches = replicate search_bytes 0; numbers = replicate numbers_size 0; texts = replicate texts_size 0 } }
    {
        Arrays {
            head: [0; HEAD_PLACES],
            links: [0; LINK_NUMBERS],
            searches: [0; SEARCH_BYTES],
            numbers: [0; NUMBERS_SIZE],
            texts: [0; TEXTS_SIZE],
        }
    }

    pub fn begin(&mut self, random_seed: u32, time: u64) -> Answer
        ensures { Begins random_seed time (answered (engine_in self.new) result) }
    {
        calls::new(&mut self.head, &self.numbers, random_seed, time)
    }

    pub fn reset_refresh_timer(&mut self, time: u64) -> Answer
        ensures { Answers (engine_in self.old) (ResetTimer time) [] [] (answered (engine_in self.new) result) }
    {
        calls::reset_refresh_timer(&mut self.head, &self.numbers, time)
    }

    pub fn refresh(&self, outbox: &mut [u8]) -> Answer
        ensures { Answers (engine_in self.now) (Refresh (length outbox.old)) outbox.old outbox.new (answered (engine_in self.now) result) }
    {
        calls::refresh(
            &self.head,
            &self.links,
            &self.searches,
            &self.numbers,
            &self.texts,
            outbox,
        )
    }

    pub fn subscribe(&mut self, service: &[u8], outbox: &mut [u8]) -> Answer
        ensures { Answers (engine_in self.old) (Subscribe service.now (length outbox.old)) outbox.old outbox.new (answered (engine_in self.new) result) }
    {
        calls::subscribe(
            &mut self.head,
            &self.links,
            &mut self.searches,
            &self.numbers,
            service,
            outbox,
        )
    }

    pub fn new_link(&mut self, index: u32, flags: u32, outcome: u32, outbox: &mut [u8]) -> Answer
        ensures { Answers (engine_in self.old) (NewLink index flags outcome (length outbox.old)) outbox.old outbox.new (answered (engine_in self.new) result) }
    {
        calls::new_link(
            &mut self.head,
            &mut self.links,
            &self.searches,
            &self.numbers,
            &self.texts,
            index,
            flags,
            outcome,
            outbox,
        )
    }

    pub fn deleted_link(&mut self, index: u32, outcome: u32) -> Answer
        ensures { Answers (engine_in self.old) (DeletedLink index outcome) [] [] (answered (engine_in self.new) result) }
    {
        calls::deleted_link(
            &mut self.head,
            &mut self.links,
            &self.numbers,
            index,
            outcome,
        )
    }

    pub fn new_address(&mut self, index: u32, address: &[u8], outbox: &mut [u8]) -> Answer
        ensures { Answers (engine_in self.old) (NewAddress index address.now (length outbox.old)) outbox.old outbox.new (answered (engine_in self.new) result) }
    {
        calls::new_address(
            &mut self.head,
            &mut self.links,
            &self.searches,
            &self.numbers,
            &self.texts,
            index,
            address,
            outbox,
        )
    }

    pub fn deleted_address(&mut self, index: u32, address: &[u8]) -> Answer
        ensures { Answers (engine_in self.old) (DeletedAddress index address.now) [] [] (answered (engine_in self.new) result) }
    {
        calls::deleted_address(
            &mut self.head,
            &mut self.links,
            &self.numbers,
            index,
            address,
        )
    }

    pub fn advertise(
        &mut self,
        name: &[u8],
        service: &[u8],
        location: &[u8],
        outbox: &mut [u8],
    ) -> Answer
        ensures { Answers (engine_in self.old) (Advertise name.now service.now location.now (length outbox.old)) outbox.old outbox.new (answered (engine_in self.new) result) }
    {
        calls::advertise(
            &mut self.head,
            &self.links,
            &mut self.numbers,
            &mut self.texts,
            name,
            service,
            location,
            outbox,
        )
    }

    pub fn deadvertise(&mut self, name: &[u8], outbox: &mut [u8]) -> Answer
        ensures { Answers (engine_in self.old) (Deadvertise name.now (length outbox.old)) outbox.old outbox.new (answered (engine_in self.new) result) }
    {
        calls::deadvertise(
            &mut self.head,
            &self.links,
            &mut self.numbers,
            &mut self.texts,
            name,
            outbox,
        )
    }

    pub fn handle_timeout(&mut self, time: u64, outbox: &mut [u8]) -> Answer
        ensures { Answers (engine_in self.old) (Timeout time (length outbox.old)) outbox.old outbox.new (answered (engine_in self.new) result) }
    {
        calls::handle_timeout(
            &mut self.head,
            &self.links,
            &self.searches,
            &mut self.numbers,
            &self.texts,
            time,
            outbox,
        )
    }

    pub fn on_data(&mut self, time: u64, sender: Endpoint, receiver: u32, datagram: &[u8]) -> Answer
        ensures { Answers (engine_in self.old) (Datagram time sender receiver datagram.now) [] [] (answered (engine_in self.new) result) }
    {
        calls::on_data(
            &self.head,
            &self.searches,
            &mut self.numbers,
            &mut self.texts,
            time,
            sender,
            receiver,
            datagram,
        )
    }
}
