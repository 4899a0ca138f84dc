// The keys of the overload manager. A pressure or a state is parts per million, from 0 to 1,000,000.
use crate::rows::Rows;
use io_ports::Octets;

/// A list of names.
pub type NameList = Rows<Octets>;

/// How the pressure of a resource becomes a state.
#[derive(Clone, Copy, PartialEq, Eq)]
pub enum Form {
    /// Saturated where the pressure is at least `value`, and else 0.
    Threshold { value: u32 },
    /// 0 up to `scaling`, saturated from `saturation` on, and in proportion between them. `scaling` is below `saturation`.
    Scaled { scaling: u32, saturation: u32 },
}

/// A trigger of an overload action.
#[derive(Clone, Copy, PartialEq, Eq)]
pub struct Trigger {
    /// The action's number from 0: stop_requests, stop_accepting, reject_incoming, no_keepalive, reduce_timeouts, reset_streams.
    pub action: u32,
    /// The resource's number from 0, in the order of `resources`.
    pub resource: u32,
    pub form: Form,
}

/// The triggers, in their order.
pub type TriggerList = Rows<Trigger>;

/// Where arrivals are shed.
#[derive(Clone, Copy, PartialEq, Eq)]
pub enum Point {
    /// Connections of clients.
    Accept,
    /// Reads.
    Read,
    /// Posts to drain.
    Drain,
}

/// A row of the shed table.
#[derive(Clone, Copy, PartialEq, Eq)]
pub struct ShedRow {
    pub point: Point,
    /// The resource's number from 0, in the order of `resources`.
    pub resource: u32,
    pub form: Form,
}

/// The shed table, in its order.
pub type ShedList = Rows<ShedRow>;

/// The keys of the table `overload`.
#[derive(Drop)]
pub struct OverloadKeys {
    /// The names of the resources, at most 16.
    pub resources: NameList,
    /// The power of two at which the first memory class starts, from 10 to 40.
    pub class_start: u32,
    /// At most 64 triggers.
    pub triggers: TriggerList,
    /// At most 16 rows.
    pub shed: ShedList,
}
