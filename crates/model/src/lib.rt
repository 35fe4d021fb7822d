// The model of one leased shelf: its records and enums, in the words of document 01.
//
// There is no function here. What the records and enums mean is in specs/, in the order of document 01
// (specs/Lib.antt names the files); what follows from that is in proofs/.

#![tactic(auto)]

// H5: "response buffer shorter than 1,028 bytes" (`least_buffer` of specs/Server).
pub const LEAST_BUFFER: usize = 1028;

// A monitor has an event source, a 32-bit value and a 32-bit threshold; at the start all are 0. (A source stays a number: #102 wants its
// kinds decided by ranges.)
#[derive(Clone, Copy, Default)]
pub struct Monitor {
    pub source: u8,
    pub value: u32,
    pub threshold: u32,
}

// Per phy: its group, enabled or not, four error counts, four monitors, three broadcast counts.
#[derive(Clone, Copy)]
pub struct Phy {
    pub group: u32,
    pub enabled: bool,
    // invalid dwords, disparity errors, lost synchronization, reset problems
    pub errors: [u32; 4],
    pub monitors: [Monitor; 4],
    // Change reason 0h
    pub change0: u16,
    // Expander 1h: a peak has reached its threshold
    pub expander1: u16,
    // Expander 2h: peaks have been cleared
    pub expander2: u16,
}

// What a write or a report does to the phy that it names: the phy afterwards; whether it originated Change, which moves
// the change count too; and for the list of stored peak events (#101), in the place of each of the phy's monitors, that
// monitor as it stands when it is stored, if it is (`carried_out` of specs/Store).
#[derive(Clone, Copy)]
pub struct Effect {
    pub phy: Phy,
    pub change: bool,
    pub stored: [Option<Monitor>; 4],
}

// What adding to an error count comes to (#104): the new number, and whether the exact sum was above FFFFFFFFh. (No `Option`: where
// it was cut there is a number too.)
#[derive(Clone, Copy)]
pub struct Added {
    pub number: u32,
    pub cut: bool,
}

// An entry of the list of stored peak events: the phy, and its monitor (source, value and threshold) as it stood.
#[derive(Clone, Copy, Default)]
pub struct Entry {
    pub phy: u8,
    pub monitor: Monitor,
}

// The list of stored peak events (#101), as it is kept: a store writes one entry in place. What it holds, oldest first, and
// under which indexes, is in specs/Store.
#[derive(Clone, Copy)]
pub struct Store {
    // the last index stored, 0000h if none
    pub last: u16,
    // how many stores there were, counted on from 32 after 63: the next one's place is its remainder by 32, and below 32 it
    // is how many entries are kept
    pub count: u32,
    pub entries: [Entry; 32],
}

// The shelf: its phys, the permission table, and what is device wide.
#[derive(Clone, Copy)]
pub struct Shelf {
    // the phy number, 1 to 24
    pub number: u32,
    pub phys: [Phy; 24],
    // thirty-two rows, one for each zone group
    pub table: [u32; 32],
    // the enclosure identifier
    pub identifier: [u8; 8],
    // the expander change count
    pub changes: u16,
    // Expander 3h: reduced functionality, under FFh
    pub expander3: u16,
    // SES 0h, under FFh
    pub ses0: u16,
    // the list of stored peak events
    pub store: Store,
}

// The house refusals, each with its number, H1 to H10 (`house_number` of specs/House). By #103 `CutFrame` is H6 alone, and
// `WrongFrame` is H10.
#[derive(Clone, Copy, Debug, PartialEq, Eq)]
pub enum House {
    PhyNumber = 1,
    PhyGroup = 2,
    IllegalTable = 3,
    SourceGroup = 4,
    ShortBuffer = 5,
    CutFrame = 6,
    NoSuchPhy = 7,
    EventSource = 8,
    Amount = 9,
    WrongFrame = 10,
}

// The function results by which a request fails, by their T10 names and each with its code (`failure_code` of
// specs/Results).
#[derive(Clone, Copy, Debug, PartialEq, Eq)]
pub enum Failure {
    UnknownSmpFunction = 0x01,
    SmpFunctionFailed = 0x02,
    InvalidRequestFrameLength = 0x03,
    InvalidExpanderChangeCount = 0x04,
    PhyDoesNotExist = 0x10,
    UnknownPhyOperation = 0x13,
    PhyVacant = 0x16,
    UnknownPhyEventSource = 0x17,
    SmpZoneViolation = 0x20,
    NoManagementAccessRights = 0x21,
}

// The function result of a request that draws no house refusal: accepted, which is 00h, or the failure.
pub type FunctionResult = Result<(), Failure>;

// A request frame as it was read: one variant to a function, with the bytes that it names. (The expected count, two
// bytes, is held in 32 bits: so the compiler keeps the variants apart, docs/BENCH.md.)
// The descriptors of a 93h stay in the frame; `number` says how many there are. Broadcast type and phy operation stay the bytes that they
// are: 02h and 13h, which an unknown one draws, come behind other results.
#[derive(Clone, Copy)]
pub enum Request {
    ReportGeneral,
    ReportManufacturer,
    ReportBroadcast {
        // the broadcast type; "type" is a word of the language
        kind: u8,
    },
    ReportPhyErrorLog {
        phy: u8,
    },
    ReportPhyEvent {
        phy: u8,
    },
    // 21h, #101
    ReportPhyEventList {
        // the starting index
        start: u16,
    },
    PhyControl {
        expected: u32,
        phy: u8,
        operation: u8,
    },
    ConfigurePhyEvent {
        expected: u32,
        clear: bool,
        phy: u8,
        number: u8,
    },
}

// What may decide a request that was read: the present change count, whether the phy that it names exists, whether its
// source reaches it, and whether its source is group 1, which has management access rights (`grounds` of specs/Results).
#[derive(Clone, Copy)]
pub struct Grounds {
    pub changes: u16,
    pub there: bool,
    pub reached: bool,
    pub management: bool,
}

// Why no request can be read from a frame: no frame is written, or a failed result is.
#[derive(Clone, Copy, Debug, PartialEq, Eq)]
pub enum Fault {
    NoFrame(House),
    Fails(Failure),
}

// What judging one request frame alone yields: the read request, or a house refusal or a failed result.
pub type Judged = Result<Request, Fault>;

// What a start or a link change is told, and what an event report is judged to be: done, or the house refusal.
pub type Taken = Result<(), House>;

// What a start or a link change comes to: what is told, and the shelf afterwards.
#[derive(Clone, Copy)]
pub struct Outcome {
    pub taken: Taken,
    pub shelf: Shelf,
}

// The two device notices, by the counts under FFh that they originate: Expander 3h (reduced functionality) and SES 0h.
#[derive(Clone, Copy, Debug, PartialEq, Eq)]
pub enum Notice {
    Expander3,
    Ses0,
}

// What is told of an event report that was counted (#104): whether its own addition to an error count was cut.
#[derive(Clone, Copy, Debug, PartialEq, Eq)]
pub struct Counted {
    pub cut: bool,
}

// The answer to an event report: counted, or the house refusal.
pub type EventAnswer = Result<Counted, House>;

// What an event report comes to: its answer, and the shelf afterwards.
#[derive(Clone, Copy)]
pub struct EventOutcome {
    pub answer: EventAnswer,
    pub shelf: Shelf,
}

// What a reach query gives: the set of phys as a 32-bit number, and how many they are.
#[derive(Clone, Copy, Debug, PartialEq, Eq)]
pub struct Reached {
    pub phys: u32,
    pub number: u32,
}

// The answer to a reach query, or H4.
pub type Reach = Result<Reached, House>;

// The answer to a request: the length of the response in the lent buffer, or the house refusal.
pub type Answer = Result<usize, House>;

// What a request comes to: its answer, and the shelf afterwards.
#[derive(Clone, Copy)]
pub struct Served {
    pub answer: Answer,
    pub shelf: Shelf,
}
