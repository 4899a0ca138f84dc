// What is wrong with a line.
use crate::fields::Field;
use io_ports::Octets;

/// A line that was refused.
#[derive(Debug, Drop)]
pub struct LineFault {
    /// Its number, from 1.
    pub line: u32,
    /// Its first word, where that names an event.
    pub event: Option<Octets>,
    pub fault: Fault,
}

/// What is wrong with a line, and where.
#[derive(Drop)]
pub struct Fault {
    /// Where it is, in octets from 1, if it is at one place.
    pub column: Option<usize>,
    /// What stands there.
    pub found: Octets,
    pub mistake: Mistake,
}

/// What is wrong.
#[derive(Clone, Copy)]
pub enum Mistake {
    /// The session ends behind the line's octets, without a newline.
    Cut,
    /// The session ends where its header should stand.
    NoHeader,
    /// The session ends where its limits should stand.
    NoLimits,
    /// The line has more than 40,000 octets.
    Long,
    /// The line ends with a carriage return.
    CarriageReturn,
    /// The line has no octets.
    Empty,
    /// It isn't the header of a plain session.
    NoPlainHeader,
    /// It isn't the header of a wire session.
    NoWireHeader,
    /// It is the header of a wire session, where a plain one is replayed.
    WireHeader,
    /// It is the header of a plain session, where a wire one is replayed.
    PlainHeader,
    /// No event of a plain session has this name.
    NoPlainEvent,
    /// No event of a wire session has this name.
    NoWireEvent,
    /// It isn't the line of the limits.
    NoLimitsLine,
    /// A second space, or one at the line's end.
    Space,
    /// The line ends where a field should stand.
    Missing(Field),
    /// It isn't a digit.
    NoNumber(Field),
    /// The number begins with a zero.
    LeadingZero(Field),
    /// The number is beyond its range.
    OutOfRange(Field),
    /// A digit `A` to `F`.
    CapitalDigit,
    /// It isn't a hexadecimal digit.
    NoHexDigit,
    /// The digits are odd in number.
    OddDigits,
    /// So many body octets.
    TooMany(usize),
    /// No cluster of the configuration has this name.
    NoCluster,
    /// It is neither `drain`, `cancel` nor `look`.
    NoJob,
    /// The line should end here.
    Behind,
    /// The line isn't spelled as its value is.
    Unspelled,
    /// The stream is not greater than this one.
    OldStream { stream: u32, greatest: u32 },
    /// The stream never began.
    NoStream { stream: u32 },
    /// The stream's end came.
    Ended { stream: u32 },
    /// The stream was reset.
    Reset { stream: u32 },
    /// The stream is paired with itself.
    Itself { stream: u32 },
    /// The stream has a pair.
    Paired { stream: u32 },
    /// The connection is not greater than this one.
    OldConnection { conn: u32, greatest: u32 },
    /// The connection never came.
    NoConnection { conn: u32 },
    /// The connection is gone.
    Lost { conn: u32 },
    /// The poster's next post has another number.
    OtherPost { poster: u32, number: u64, next: u64 },
    /// The posts of this poster are those of the load shed points.
    OwnPoster { poster: u32 },
    /// The version is not greater than this one.
    OldVersion { version: u64, greatest: u64 },
    /// There are so many resources.
    Pressures { found: usize, resources: usize },
    /// The flow is paused, so that nothing may be read of its connection.
    Paused { conn: u32 },
}
