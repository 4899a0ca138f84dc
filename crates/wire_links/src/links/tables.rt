// Connections as they lie in maps, and what the clusters are told of them.
ghost use Rattle.std.specs.Prelude.{◌≡◌, ◌≤◌, IfNone, IfSome, OnErr, OnOk, Some, false, ℕ};
ghost use Rattle.wire_links.specs.Kept.{HasRoom, HasRoomFor, connected, disconnected, items_at, noted, room_at, told, told_by};
ghost use Rattle.wire_links.specs.Numbers.{changed, under};
ghost use Rattle.wire_links.specs.Seats.{left, linked, opened, placed, with_state};

use crate::conn::Conn;
use crate::seat::Seat;
use io_ports::NoMemory;
use number_set::NumberSet;
use paged_map::PagedMap;
use std::alloc::Global;

pub(super) type Seats = PagedMap<u32, Seat>;

// By cluster, the connections that can take one more exchange.
pub(super) type Offers = PagedMap<u32, NumberSet>;

/// The state of a connection is another one.
pub(super) fn set_conn(seats: &mut Seats, conn: u32, state: Conn)
    ensures { seats.new.entries ≡ changed conn (with_state state) seats.old.entries }
{
    if let Some(seat) = seats.get_mut(&conn) {
        seat.set_conn(state);
    }
}

/// An exchange comes to a connection, without a stream.
pub(super) fn link(seats: &mut Seats, conn: u32, exchange: u64) -> Result<(), NoMemory>
    ensures ok { OnOk result (seats.new.entries ≡ changed conn (linked exchange) seats.old.entries) }
    ensures err { OnErr result (seats.new.entries ≡ seats.old.entries) }
{
    match seats.get_mut(&conn) {
        Some(seat) => seat.link(exchange),
        None => Ok(()),
    }
}

/// An exchange comes to a connection on a stream.
pub(super) fn open(seats: &mut Seats, conn: u32, stream: u32, exchange: u64) -> Result<(), NoMemory>
    ensures ok { OnOk result (seats.new.entries ≡ changed conn (opened stream exchange) seats.old.entries) }
    ensures err { OnErr result (seats.new.entries ≡ seats.old.entries) }
{
    match seats.get_mut(&conn) {
        Some(seat) => seat.open(stream, exchange),
        None => Ok(()),
    }
}

/// An exchange of a connection is on a stream from now on.
pub(super) fn place(
    seats: &mut Seats,
    conn: u32,
    stream: u32,
    exchange: u64,
) -> Result<(), NoMemory>
    ensures ok { OnOk result (seats.new.entries ≡ changed conn (placed stream exchange) seats.old.entries) }
    ensures err { OnErr result (seats.new.entries ≡ seats.old.entries) }
{
    match seats.get_mut(&conn) {
        Some(seat) => seat.place(stream, exchange),
        None => Ok(()),
    }
}

/// An exchange comes to the connection of a cluster, if it has one, and the cluster is told.
pub(super) fn connect(
    seats: &mut Seats,
    offers: &mut Offers,
    to: Option<u32>,
    exchange: u64,
) -> Result<(), NoMemory>
    requires { IfSome to (λ t. HasRoomFor t seats.old.entries offers.old.entries) }
    ensures seats { OnOk result (seats.new.entries ≡ connected to exchange seats.old.entries) }
    ensures offers { OnOk result (offers.new.entries ≡ told_by to seats.new.entries offers.old.entries) }
    ensures err { OnErr result (seats.new.entries ≡ seats.old.entries) }
    ensures untold { OnErr result (offers.new.entries ≡ offers.old.entries) }
{
    let Some(to) = to else {
        return Ok(());
    };
    link(seats, to, exchange)?;
    tell(seats, offers, to);
    Ok(())
}

/// An exchange leaves the connection of a cluster, if it has one, and the cluster is told.
pub(super) fn disconnect(
    seats: &mut Seats,
    offers: &mut Offers,
    to: Option<u32>,
    exchange: u64,
    stream: Option<u32>,
)
    requires { IfSome to (λ t. HasRoomFor t seats.old.entries offers.old.entries) }
    ensures seats { seats.new.entries ≡ disconnected to exchange stream seats.old.entries }
    ensures offers { offers.new.entries ≡ told_by to seats.new.entries offers.old.entries }
{
    let Some(to) = to else {
        return;
    };
    leave(seats, to, exchange, stream);
    tell(seats, offers, to);
}

/// An exchange of a connection goes, and its stream with it, if it has one.
#[inline(always)]
pub(super) fn leave(seats: &mut Seats, conn: u32, exchange: u64, stream: Option<u32>)
    ensures { seats.new.entries ≡ changed conn (left exchange stream) seats.old.entries }
{
    if let Some(seat) = seats.get_mut(&conn) {
        seat.leave(exchange, stream);
    }
}

/// The connection's cluster, if it has one, is told whether it can take one more exchange.
#[inline(always)]
pub(super) fn tell(seats: &Seats, offers: &mut Offers, conn: u32)
    requires { HasRoomFor conn seats.now.entries offers.old.entries }
    ensures { offers.new.entries ≡ told conn (under conn seats.now.entries) offers.old.entries }
{
    let Some(seat) = seats.get(&conn) else {
        return;
    };
    let Some(cluster) = seat.conn().cluster else {
        return;
    };
    note(offers, cluster, conn, seat.takes_one(cluster));
}

/// The cluster can choose the connection from now on, or can't.
pub(super) fn note(offers: &mut Offers, cluster: u32, conn: u32, takes: bool)
    requires { HasRoom conn cluster offers.old.entries }
    ensures { offers.new.entries ≡ changed cluster (noted conn takes) offers.old.entries }
{
    if let Some(numbers) = offers.get_mut(&cluster) {
        numbers.mark(u64::from(conn), takes);
    }
}

/// The connection is gone, and its cluster, if it has one, can't choose it.
pub(super) fn withdraw(offers: &mut Offers, cluster: Option<u32>, conn: u32)
    ensures none { IfNone cluster (offers.new.entries ≡ offers.old.entries) }
    ensures some { IfSome cluster (λ k. offers.new.entries ≡ changed k (noted conn false) offers.old.entries) }
{
    let Some(cluster) = cluster else {
        return;
    };
    if let Some(numbers) = offers.get_mut(&cluster) {
        numbers.remove(u64::from(conn));
    }
}

/// Makes room for so many connections of the cluster.
pub(super) fn make_room(
    offers: &mut Offers,
    alloc: Global,
    cluster: u32,
    most: usize,
) -> Result<(), NoMemory>
    ensures items { (k : ℕ) → items_at k offers.new.entries ≡ items_at k offers.old.entries }
    ensures more { (k : ℕ) → room_at k offers.old.entries ≤ room_at k offers.new.entries }
    ensures room { OnOk result (most ≤ room_at cluster offers.new.entries) }
{
    if !offers.contains_key(&cluster) {
        let _ = offers.insert(cluster, NumberSet::new(alloc))?;
    }
    match offers.get_mut(&cluster) {
        Some(numbers) => numbers.reserve(most),
        None => Ok(()),
    }
}
