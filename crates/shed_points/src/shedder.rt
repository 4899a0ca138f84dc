// What sheds the arrivals of a worker.
ghost use Rattle.shed_points.specs.Shedding.{point_state, row_state, state_at};
ghost use Rattle.shed_points.specs.Dispatching.{Carries};
ghost use Rattle.shed_points.specs.ShedList.{as_list, kept};
ghost use Rattle.std.specs.Prelude.{◌≡◌, ◌∷◌, ◌≤◌, [], OnOk, if◌then◌else◌};
ghost use Rattle.worker_core.specs.Sessions.{RestsWire};
ghost use Rattle.shed_points.specs.declared.shedder.Standing.TheVariants as standing;

use crate::share::Share;
use crate::verdict::{Verdict, instead, keeps};
use flow_notes::{Event, Notes};
use io_ports::NoMemory;
use overload_core::trigger_state;
use paged_map::PagedMap;
use proxy_config::{Config, Point, ShedRow, Trigger};
use std::alloc::Global;
use wire_state::CarryOut;
use worker_core::{Core, CoreFault};

/// One more than the greatest number of a post.
const POSTS: u64 = 1 << 63;

/// What a client's connection is that came and isn't gone.
#[derive(Clone, Copy)]
pub enum Standing {
    /// It wasn't shed.
    Served,
    /// It was shed: nothing of it is dispatched any more.
    Shed,
}

/// The load shed points of a worker, under the shed table of its configuration. A client's connection is remembered from its accept until
/// its `Gone`. One that the worker closes itself, since it was shed or the core closed it, has none: `forget` says that it is gone.
#[derive(Drop)]
pub struct Shedder {
    rows: Vec<ShedRow>,
    accept: Share,
    read: Share,
    drain: Share,
    /// The connections of clients that are remembered.
    clients: PagedMap<u32, Standing>,
    /// How many drains were shed, each of which made a post.
    posts: u64,
    /// Whether a dispatch ran out of memory: then each later one is refused.
    failed: bool,
}

impl Shedder {
    ghost use Rattle.flow_notes.specs.declared.events.Event.{Event};
    ghost use Rattle.flow_notes.specs.declared.events.Event.TheVariants as event;
    ghost use Rattle.proxy_config.specs.declared.overload.ShedRow.{ShedRow};
    ghost use Rattle.paged_map.specs.PagedMap.{value_at};
    ghost use Rattle.proxy_config.specs.declared.overload.Point.{Point};
    ghost use Rattle.shed_points.specs.Dispatching.{Sheds};
    ghost use Rattle.shed_points.specs.Shedders.{Forgets, Judges, ShedderIs, share_at};
    ghost use Rattle.shed_points.specs.Shedding.{Judged, events_of, is_shed, point_state, state_after};
    ghost use Rattle.shed_points.specs.declared.shedder.Standing.TheVariants as standing;
    ghost use Rattle.shed_points.specs.declared.verdict.Verdict.TheVariants as verdict;
    ghost use Rattle.std.specs.Prelude.{◌≡◌, ◌≢◌, ◌≤◌, [], Err, IfOk, List, Ok, OnErr, OnOk, Some, false, if◌then◌else◌, true, ℕ};
    ghost use Rattle.worker_core.specs.Sessions.{RestsWire};

    /// Before the first event, under the shed table of a configuration: each state is 0. Refused only for lack of memory.
    pub fn new(alloc: Global, config: &Config) -> Result<Self, NoMemory>
        ensures new { IfOk result (λ shedder. ShedderIs shedder config.now.overload.shed []) }
        ensures well { IfOk result (λ shedder. shedder.failed ≡ false) }
    {
        Ok(Shedder {
            rows: Vec::from_slice(alloc, config.overload.shed.as_slice())?,
            accept: Share::none(),
            read: Share::none(),
            drain: Share::none(),
            clients: PagedMap::new(alloc),
            posts: 0,
            failed: false,
        })
    }

    /// The state of a point at the pressures that were obeyed last, in parts per million; 0 before the first, and without a row.
    pub fn state(&self, point: Point) -> u32
        ensures state { (rows : List ShedRow) (js : List Judged) → ShedderIs self.now rows js → result ≡ state_after rows point (events_of js) }
        ensures most { result ≤ 1000000 }
    {
        match point {
            Point::Accept => self.accept.state,
            Point::Read => self.read.state,
            Point::Drain => self.drain.state,
        }
    }

    /// How many drains were shed: the number of the next post that stands for one.
    pub fn posts(&self) -> u64
        ensures { result ≡ self.now.posts }
    {
        self.posts
    }

    /// What becomes of the next event, which from now on is behind the shedder. Nothing has changed after running out of memory, to
    /// which a post past the greatest number counts too.
    pub fn judge(&mut self, event: &Event) -> Result<Verdict, NoMemory>
        ensures judged { Judges self.old event.now self.new result }
        ensures failed { self.new.failed ≡ self.old.failed }
    {
        match event {
            Event::Accept { conn } => self.accept(*conn),
            Event::Read { conn, .. } => self.read(*conn),
            Event::Gone { conn } => Ok(self.go(*conn)),
            Event::Room { conn, .. } => Ok(self.silenced(*conn)),
            Event::Obey { pressures, .. } => self.obey(pressures.as_slice()),
            Event::Join { .. } | Event::Tick { .. } | Event::Post { .. } | Event::Plain(_) => {
                Ok(Verdict::Pass)
            }
        }
    }

    /// A connection is gone without an event of it. Nothing is dispatched, and from then on nothing is remembered of the connection: what
    /// comes is judged as behind its `Gone`.
    pub fn forget(&mut self, conn: u32)
        ensures forgets { Forgets self.old conn self.new }
        ensures failed { self.new.failed ≡ self.old.failed }
    {
        self.go(conn);
    }

    /// Judges the next event, and dispatches what it comes to (`keeps`, `instead`) to a core of wire sessions, which only this shedder
    /// has dispatched to. Appends the notes. After running out of memory the notes so far stand, and each later call answers
    /// `Failed`, which comes only then.
    pub fn dispatch<D: CarryOut>(
        &mut self,
        carry: &D,
        core: &mut Core,
        event: &Event,
        notes: &mut Notes,
    ) -> Result<Verdict, CoreFault>
        requires { self.old.failed ≡ false → RestsWire core.old.kind }
        ensures sheds { self.old.failed ≡ false → Sheds self.old core.old.kind notes.old event.now self.new core.new.kind notes.new result }
        ensures rests { self.old.failed ≡ false → OnOk result (RestsWire core.new.kind) }
        ensures well { self.old.failed ≡ false → (result ≢ Err CoreFault.Failed) × OnOk result (self.new.failed ≡ false) }
        ensures fails { OnErr result (self.new.failed ≡ true) }
        ensures failed { self.old.failed ≡ true → (result ≡ Err CoreFault.Failed) × (notes.new ≡ notes.old) × (core.new ≡ core.old) }
    {
        if self.failed {
            return Err(CoreFault::Failed);
        }
        match self.judge_and_dispatch(carry, core, event, notes) {
            Ok(verdict) => Ok(verdict),
            Err(NoMemory) => {
                self.failed = true;
                Err(CoreFault::NoMemory)
            }
        }
    }

    fn judge_and_dispatch<D: CarryOut>(
        &mut self,
        carry: &D,
        core: &mut Core,
        event: &Event,
        notes: &mut Notes,
    ) -> Result<Verdict, NoMemory>
        requires { RestsWire core.old.kind }
        ensures sheds { Sheds self.old core.old.kind notes.old event.now self.new core.new.kind notes.new result }
        ensures rests { OnOk result (RestsWire core.new.kind) }
        ensures failed { self.new.failed ≡ self.old.failed }
    {
        let posts = self.posts;
        let verdict = self.judge(event)?;
        dispatch_kept(carry, core, event, verdict, notes)?;
        dispatch_stead(carry, core, instead(event, verdict, posts), notes)?;
        Ok(verdict)
    }

    fn accept(&mut self, conn: u32) -> Result<Verdict, NoMemory>
        ensures judged { Judges self.old (event.Accept conn) self.new result }
        ensures failed { self.new.failed ≡ self.old.failed }
    {
        let standing = accepted(self.accept.is_due());
        self.clients.put(conn, standing)?;
        Ok(self.accept.arrive(Point::Accept))
    }

    fn read(&mut self, conn: u32) -> Result<Verdict, NoMemory>
        ensures judged { (octets : List ℕ) → Judges self.old (event.Read conn octets) self.new result }
        ensures failed { self.new.failed ≡ self.old.failed }
    {
        match self.clients.get(&conn) {
            Some(Standing::Served) => self.read_served(conn),
            Some(Standing::Shed) => Ok(Verdict::Silent),
            None => Ok(Verdict::Pass),
        }
    }

    // A read of a connection that wasn't shed.
    fn read_served(&mut self, conn: u32) -> Result<Verdict, NoMemory>
        requires { value_at conn self.old.clients ≡ Some standing.Served }
        ensures judged { (octets : List ℕ) → Judges self.old (event.Read conn octets) self.new result }
        ensures failed { self.new.failed ≡ self.old.failed }
    {
        if !self.read.is_due() {
            return Ok(self.read.arrive(Point::Read));
        }
        self.clients.put(conn, Standing::Shed)?;
        Ok(self.read.arrive(Point::Read))
    }

    fn go(&mut self, conn: u32) -> Verdict
        ensures judged { Judges self.old (event.Gone conn) self.new (Ok result) }
        ensures failed { self.new.failed ≡ self.old.failed }
    {
        let verdict = self.silenced(conn);
        self.clients.remove(&conn);
        verdict
    }

    // An event of a connection that arrives nowhere.
    fn silenced(&self, conn: u32) -> Verdict
        ensures { result ≡ (if is_shed (value_at conn self.now.clients) then verdict.Silent else verdict.Pass) }
    {
        match self.clients.get(&conn) {
            Some(Standing::Shed) => Verdict::Silent,
            _ => Verdict::Pass,
        }
    }

    // The states are set before the obey itself arrives.
    fn obey(&mut self, pressures: &[u32]) -> Result<Verdict, NoMemory>
        ensures judged { (version : ℕ) → Judges self.old (event.Obey version pressures.now) self.new result }
        ensures failed { self.new.failed ≡ self.old.failed }
    {
        if self.posts >= POSTS {
            return Err(NoMemory);
        }
        self.set_states(pressures);
        if !self.drain.is_due() {
            return Ok(self.drain.arrive(Point::Drain));
        }
        self.posts += 1;
        Ok(self.drain.arrive(Point::Drain))
    }

    fn set_states(&mut self, pressures: &[u32])
        ensures states { (p : Point) → (share_at p self.new).state ≡ point_state self.old.rows.items pressures.now p }
        ensures rests { (p : Point) → (share_at p self.new).rest ≡ (share_at p self.old).rest }
        ensures others { (self.new.rows ≡ self.old.rows) × (self.new.clients ≡ self.old.clients) × (self.new.posts ≡ self.old.posts) × (self.new.failed ≡ self.old.failed) }
    {
        let rows = self.rows.as_slice();
        self.accept = self
            .accept
            .under(point_state(rows, pressures, Point::Accept));
        self.read = self.read.under(point_state(rows, pressures, Point::Read));
        self.drain = self.drain.under(point_state(rows, pressures, Point::Drain));
    }
}

// What a client's connection is that is shed as it comes, or isn't.
fn accepted(is_shed: bool) -> Standing
    ensures { result ≡ (if is_shed then standing.Shed else standing.Served) }
{
    if is_shed {
        Standing::Shed
    } else {
        Standing::Served
    }
}

// Dispatches the event itself, where it is dispatched.
fn dispatch_kept<D: CarryOut>(
    carry: &D,
    core: &mut Core,
    event: &Event,
    verdict: Verdict,
    notes: &mut Notes,
) -> Result<(), NoMemory>
    requires { RestsWire core.old.kind }
    ensures carries { Carries core.old.kind notes.old (kept event.now verdict) core.new.kind notes.new result }
    ensures rests { OnOk result (RestsWire core.new.kind) }
{
    if keeps(verdict) {
        dispatch_one(carry, core, event, notes)
    } else {
        Ok(())
    }
}

// Dispatches what stands for an event that was shed, if anything does.
fn dispatch_stead<D: CarryOut>(
    carry: &D,
    core: &mut Core,
    stead: Option<Event>,
    notes: &mut Notes,
) -> Result<(), NoMemory>
    requires { RestsWire core.old.kind }
    ensures carries { Carries core.old.kind notes.old (as_list stead) core.new.kind notes.new result }
    ensures rests { OnOk result (RestsWire core.new.kind) }
{
    match stead {
        Some(event) => dispatch_one(carry, core, &event, notes),
        None => Ok(()),
    }
}

fn dispatch_one<D: CarryOut>(
    carry: &D,
    core: &mut Core,
    event: &Event,
    notes: &mut Notes,
) -> Result<(), NoMemory>
    requires { RestsWire core.old.kind }
    ensures carries { Carries core.old.kind notes.old (event.now ∷ []) core.new.kind notes.new result }
    ensures rests { OnOk result (RestsWire core.new.kind) }
{
    match core.dispatch(carry, event, notes) {
        Ok(()) => Ok(()),
        Err(_) => Err(NoMemory),
    }
}

// The greatest state of the point's rows.
fn point_state(rows: &[ShedRow], pressures: &[u32], point: Point) -> u32
    ensures state { result ≡ point_state rows.now pressures.now point }
    ensures most { result ≤ 1000000 }
{
    let mut most: u32 = 0;
    let mut rest = rows;
    while let Some((row, after)) = rest.split_first() {
        most = most.max(state_at(row, pressures, point));
        rest = after;
    }
    most
}

// The state of a row of this point, and 0 of another.
#[tactic(auto, using(crate::proofs::States::own_row, crate::proofs::States::other_row))]
fn state_at(row: &ShedRow, pressures: &[u32], point: Point) -> u32
    ensures state { result ≡ state_at row.now pressures.now point }
    ensures most { result ≤ 1000000 }
{
    if row.point == point {
        row_state(row, pressures)
    } else {
        0
    }
}

// The state of a row is that of a trigger of its form. A resource without a pressure has the pressure 0.
fn row_state(row: &ShedRow, pressures: &[u32]) -> u32
    ensures state { result ≡ row_state row.now pressures.now }
    ensures most { result ≤ 1000000 }
{
    let trigger = Trigger {
        action: 0,
        resource: row.resource,
        form: row.form,
    };
    match pressures.get(row.resource as usize) {
        Some(pressure) => trigger_state(&trigger, *pressure),
        None => trigger_state(&trigger, 0),
    }
}
