// Document 01 as definitions. The code of this crate is the words that answers are made of; what they mean stands in specs/,
// a file to each part of the paper and in the paper's order. The contracts of the other crates cite these definitions.

// "at most 2,048 listed records". Sums of times are kept modulo 2^64 (change request 8), which tells them apart up to 18,445 records:
// `summed` in specs/Statistics.antt.
pub const MOST: usize = 2048;

// "trace at most 65,536 bytes"
pub const LONGEST: usize = 65536;

// What the caller names beside the trace and the table, with no default, laid out as C has it: the choice, whether the tracing levels
// are asked for, the three that are expected then, in the order of a mark's data, whether the statistics records are compared, and how many
// thousandths of the gap between two records of a processor are kept.
#[repr(C)]
#[derive(Clone, Copy)]
pub struct Asked {
    pub choice: u32,
    pub levels: u32,
    pub picl: i64,
    pub user: i64,
    pub trace: i64,
    pub statistics: u32,
    pub share: u32,
}

// "strict or lenient"
#[derive(Clone, Copy)]
pub enum Choice {
    Strict,
    Lenient,
}

// The standing of an event type.
#[derive(Clone, Copy)]
pub enum Standing {
    Listed,
    Message,
    NotHandled,
    Unlisted,
}

// Why something is refused: a case for each row of the paper's table of numbers, from 1 to 16, then 17 of the first change request, 18 of
// the sixth, 19 of the eighth and 22 of the seventh.
#[derive(Clone, Copy)]
pub enum Fault {
    BadChoice,
    WrongLength,
    HighLatency,
    LongTrace,
    Form,
    Stamp,
    Unlisted,
    NotHandled,
    Place,
    NoMessage,
    Backwards,
    TooMany,
    NoSend,
    LongReceive,
    NoTimes,
    NoRoom,
    OtherLevels,
    SharedProcessor,
    OtherStatistics,
    NoPlace,
}

// The six fields that every record begins with.
#[derive(Clone, Copy)]
pub struct Head {
    pub kind: i64,
    pub event: i64,
    pub time: i64,
    pub processor: i64,
    pub process: i64,
    pub count: usize,
}

// The data of a listed record, as far as anything depends on them once it is read: three whole numbers, or anything else.
#[derive(Clone, Copy)]
pub enum Data {
    Three(i64, i64, i64),
    Others,
}

// What a record is by its record type and event type.
#[derive(Clone, Copy)]
pub enum Part {
    Neither,
    Sends,
    Receives,
}

// The three data of a send or of a receive. The peer is a send's destination and a receive's source.
#[derive(Clone, Copy)]
pub struct Message {
    pub length: u64,
    pub tag: i64,
    pub peer: usize,
}

// What a listed record is among the messages.
#[derive(Clone, Copy)]
pub enum Role {
    Neither,
    Send(Message),
    Receive(Message),
}

// A listed record: what its line says of it, and what it is among the messages.
#[derive(Clone, Copy)]
pub struct Record {
    pub time: i64,
    pub processor: usize,
    pub kind: i64,
    pub event: i64,
    pub values: Data,
    pub role: Role,
}

// A listed record with its line in the file.
#[derive(Clone, Copy)]
pub struct Entry {
    pub line: usize,
    pub body: Record,
}

// What a line comes to. A refusal has the field that decides, counted from 0, or none where the line as a whole does.
#[derive(Clone, Copy)]
pub enum Line {
    Refused(Fault, Option<usize>),
    Passed,
    Listed(Record),
}

// Where a call is refused: the line and the column, both counted from 1, and 0 where none is meant.
#[derive(Clone, Copy)]
pub struct Site {
    pub line: usize,
    pub column: usize,
}

// Why a trace is refused, and where.
#[derive(Clone, Copy)]
pub struct Refusal {
    pub fault: Fault,
    pub site: Site,
}

// What the caller gets back, laid out as C has it.
#[repr(C)]
#[derive(Clone, Copy)]
pub struct Answer {
    pub number: u64,
    pub line: u64,
    pub column: u64,
    pub verdict: u64,
    pub listed: u64,
    pub passed: u64,
    pub matched: u64,
    pub unreceived: u64,
    pub rounds: u64,
    pub written: u64,
}

// Which of two traces a merging means.
#[derive(Clone, Copy)]
pub enum Which {
    Neither,
    First,
    Second,
}

// What was counted of a trace that is merged with another.
#[derive(Clone, Copy)]
pub struct Tally {
    pub listed: u64,
    pub passed: u64,
}

// Why two traces are not merged, which of them is meant, and where.
#[derive(Clone, Copy)]
pub struct Unmerged {
    pub fault: Fault,
    pub which: Which,
    pub site: Site,
}

// What two traces come to as one: its lines and bytes, and what was counted of either.
#[derive(Clone, Copy)]
pub struct Joined {
    pub lines: u64,
    pub written: u64,
    pub first: Tally,
    pub second: Tally,
}

// What the caller of a merging gets back, laid out as C has it.
#[repr(C)]
#[derive(Clone, Copy)]
pub struct Merged {
    pub number: u64,
    pub which: u64,
    pub line: u64,
    pub column: u64,
    pub written: u64,
}

// A message by the places of its send and of its receive, counted from 0, laid out as C has it.
#[repr(C)]
#[derive(Clone, Copy)]
pub struct Pair {
    pub send: u64,
    pub receive: u64,
}

// What the caller of a call that fills a list gets back, laid out as C has it.
#[repr(C)]
#[derive(Clone, Copy)]
pub struct Filled {
    pub number: u64,
    pub line: u64,
    pub column: u64,
    pub filled: u64,
}
