// The sizes of the tables (document 01, 'Table sizes') and of the arrays that an owner lends for them, each once; specs/Sizes.antt and specs/Arrays.antt
// have the same in the definitions, and specs/Arrays.antt says what stands where.
use message::build::{NAME_MAX, TYPE_MAX};

// The latest time that a call may bear, in milliseconds.
pub const TIME_MAX: u64 = 9223372036854775807;

// How many names, subscriptions, links and addresses of a link are held, and how many addresses messages go out from.
pub const NAMES: usize = 8;

pub const SUBSCRIPTIONS: usize = 4;

pub const LINKS: usize = 3;

pub const ADDRESSES: usize = 2;

pub const SOURCES: usize = LINKS * ADDRESSES;

// The longest texts, in bytes; of name and type as in the messages.
pub const NAME_SIZE: usize = NAME_MAX;

pub const TYPE_SIZE: usize = TYPE_MAX;

pub const LOCATION_SIZE: usize = 120;

// What is sent: the bytes of a record and of its head, the most records that a call writes, the outbox that has room for them, and the longest location that names an address.
pub const RECORD_SIZE: usize = 524;

pub const RECORD_HEAD: usize = 12;

pub const RECORDS: usize = (NAMES + SUBSCRIPTIONS + NAMES) * SOURCES;

pub const OUTBOX_SIZE: usize = RECORD_SIZE * RECORDS;

pub const ADDRESS_TEXT_SIZE: usize = 15;

pub const REWRITTEN_SIZE: usize = LOCATION_SIZE + ADDRESS_TEXT_SIZE;

// The head: the timer, and how many of each are held.
pub const SEED: usize = 0;

pub const SALVO: usize = 1;

pub const PHASE: usize = 2;

pub const NAME_COUNT: usize = 3;

pub const LINK_COUNT: usize = 4;

pub const SEARCH_COUNT: usize = 5;

pub const HEAD_PLACES: usize = 6;

// A row of a link.
pub const LINK_INDEX: usize = 0;

pub const LINK_UP: usize = 1;

pub const LINK_ADDRESSES: usize = 2;

pub const FIRST_ADDRESS: usize = 3;

pub const LINK_WIDTH: usize = FIRST_ADDRESS + ADDRESSES;

pub const LINK_NUMBERS: usize = LINK_WIDTH * LINKS;

// A row of a subscription: the length of its type, then the type.
pub const SEARCH_WIDTH: usize = 1 + TYPE_SIZE;

pub const SEARCH_BYTES: usize = SEARCH_WIDTH * SUBSCRIPTIONS;

// A row of a name: numbers, and texts.
pub const NAME_LENGTH: usize = 0;

pub const TYPE_LENGTH: usize = 1;

pub const LOCATION_LENGTH: usize = 2;

pub const ANSWER_LENGTH: usize = 3;

pub const REPLY: usize = 4;

pub const REPLY_DUE: usize = 5;

pub const REPLY_SENDER: usize = 6;

pub const REPLY_PORT: usize = 7;

pub const REPLY_RECEIVER: usize = 8;

pub const NUMBERS_WIDTH: usize = 9;

pub const NUMBERS_SIZE: usize = NUMBERS_WIDTH * NAMES;

pub const TYPE_PLACE: usize = NAME_SIZE;

pub const LOCATION_PLACE: usize = TYPE_PLACE + TYPE_SIZE;

pub const ANSWER_PLACE: usize = LOCATION_PLACE + LOCATION_SIZE;

pub const TEXTS_WIDTH: usize = ANSWER_PLACE + TYPE_SIZE;

pub const TEXTS_SIZE: usize = TEXTS_WIDTH * NAMES;

// What an owner lends: numbers, whatever they stand for. A row is written by `as`, which the check sees lose nothing; of `From` each proof of a row would have to cite the clause.
pub type Head = [u64; HEAD_PLACES];

pub type Links = [u64; LINK_NUMBERS];

pub type Searches = [u8; SEARCH_BYTES];

pub type Numbers = [u64; NUMBERS_SIZE];

pub type Texts = [u8; TEXTS_SIZE];
