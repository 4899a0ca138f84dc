// The tables of the document.
ghost use Rattle.std.specs.Prelude.{◌≡◌, ◌++◌, ◌∷◌, [], codes, IfOk};
ghost use Rattle.config_tables.specs.Answers.{Checks, members_of};
ghost use Rattle.config_tables.specs.Keys.{keys_faults, table_faults};
ghost use Rattle.config_tables.specs.Reading.{limits_faults, timeouts_faults, overload_key, overload_faults, overload_of, proxy_faults};
ghost use Rattle.config_tables.specs.Tables.{limits_of, timeout_keys, timeouts_of, proxy_of};
ghost use Rattle.config_tables.specs.Values.{table_at};

use crate::fault::ConfigFault;
use crate::keys::{
    ACCEPT_BURST, ACCEPT_RATE, CLASS_START, CONNECTION_IDLE, CONNECTION_WINDOW, CONNECTIONS,
    CONTROL_FRAMES, EMPTY_FRAMES, FIELD_LIST, FRAME_SIZE, JOURNAL, LIMITS, LISTEN, MAX_CONNECTIONS,
    MAX_STREAMS, OVERFLOW_MULTIPLE, OVERLOAD, PEER_RESETS, PROXY, QUANTUM, RESOURCES, ROUTE,
    SEND_BUFFER, SHED, STREAM_IDLE, STREAM_WINDOW, TIMEOUTS, TRIGGERS, WORKERS, WRITE_BUFFER,
    connection_idle_min, stream_idle_min,
};
use crate::overload_rows::{read_shed, read_triggers};
use crate::section::Section;
use io_ports::{NoMemory, Octets};
use proxy_config::{LimitKeys, OverloadKeys, ProxyKeys, TimeoutKeys};

pub fn read_limits(top: &Section) -> Result<LimitKeys, ConfigFault>
    requires { top.now.place.now ≡ [] }
    ensures faults { Checks (limits_faults (members_of top.now.table)) result }
    ensures value { IfOk result (λ limits. limits ≡ limits_of (table_at (codes "limits") (members_of top.now.table))) }
{
    let limits = top.open(&LIMITS, "limits.")?;
    limits.check_all(&[
        WRITE_BUFFER,
        SEND_BUFFER,
        STREAM_WINDOW,
        CONNECTION_WINDOW,
        MAX_STREAMS,
        FIELD_LIST,
        CONTROL_FRAMES,
        EMPTY_FRAMES,
        PEER_RESETS,
        QUANTUM,
        FRAME_SIZE,
        OVERFLOW_MULTIPLE,
    ])?;
    Ok(limits_in(&limits))
}

fn limits_in(limits: &Section) -> LimitKeys
    ensures { result ≡ limits_of (members_of limits.now.table) }
{
    LimitKeys {
        write_buffer: limits.number(&WRITE_BUFFER),
        send_buffer: limits.number(&SEND_BUFFER),
        stream_window: limits.number(&STREAM_WINDOW),
        connection_window: limits.number(&CONNECTION_WINDOW),
        max_streams: limits.number(&MAX_STREAMS),
        field_list: limits.number(&FIELD_LIST),
        control_frames: limits.number(&CONTROL_FRAMES),
        empty_frames: limits.number(&EMPTY_FRAMES),
        peer_resets: limits.number(&PEER_RESETS),
        quantum: limits.number(&QUANTUM),
        frame_size: limits.number(&FRAME_SIZE),
        overflow_multiple: limits.number(&OVERFLOW_MULTIPLE),
    }
}

pub fn read_timeouts(top: &Section) -> Result<TimeoutKeys, ConfigFault>
    requires { top.now.place.now ≡ [] }
    ensures faults { Checks (timeouts_faults (members_of top.now.table)) result }
    ensures value { IfOk result (λ timeouts. timeouts ≡ timeouts_of (table_at (codes "timeouts") (members_of top.now.table))) }
{
    let timeouts = top.open(&TIMEOUTS, "timeouts.")?;
    check_timeouts(&timeouts)?;
    Ok(timeouts_in(&timeouts))
}

fn check_timeouts(timeouts: &Section) -> Result<(), ConfigFault>
    ensures { Checks (table_faults timeouts.now.place.now (members_of timeouts.now.table) (timeout_keys (members_of timeouts.now.table))) result }
{
    let stream_idle_min = stream_idle_min(timeouts.number(&STREAM_IDLE));
    let connection_idle_min = connection_idle_min(timeouts.number(&CONNECTION_IDLE));
    timeouts.check_all(&[
        ROUTE,
        STREAM_IDLE,
        CONNECTION_IDLE,
        stream_idle_min,
        connection_idle_min,
    ])
}

fn timeouts_in(timeouts: &Section) -> TimeoutKeys
    ensures { result ≡ timeouts_of (members_of timeouts.now.table) }
{
    let stream_idle = timeouts.number(&STREAM_IDLE);
    let connection_idle = timeouts.number(&CONNECTION_IDLE);
    TimeoutKeys {
        route: u64::from(timeouts.number(&ROUTE)),
        stream_idle: u64::from(stream_idle),
        connection_idle: u64::from(connection_idle),
        stream_idle_min: u64::from(timeouts.number(&stream_idle_min(stream_idle))),
        connection_idle_min: u64::from(timeouts.number(&connection_idle_min(connection_idle))),
    }
}

pub fn read_overload(top: &Section) -> Result<OverloadKeys, ConfigFault>
    requires { top.now.place.now ≡ [] }
    ensures faults { Checks (keys_faults [] (members_of top.now.table) (overload_key ∷ []) ++ overload_faults (codes "overload.") (table_at (codes "overload") (members_of top.now.table))) result }
    ensures value { IfOk result (λ overload. overload ≡ overload_of (table_at (codes "overload") (members_of top.now.table))) }
{
    let overload = top.open(&OVERLOAD, "overload.")?;
    overload_in(&overload)
}

fn overload_in(overload: &Section) -> Result<OverloadKeys, ConfigFault>
    ensures faults { Checks (overload_faults overload.now.place.now (members_of overload.now.table)) result }
    ensures value { IfOk result (λ keys. keys ≡ overload_of (members_of overload.now.table)) }
{
    overload.check(&[RESOURCES, CLASS_START, TRIGGERS])?;
    let resources = overload.names(RESOURCES.name)?;
    let triggers = read_triggers(overload, &resources)?;
    overload.check(&[SHED])?;
    let shed = read_shed(overload, &resources)?;
    overload.end(&[RESOURCES, CLASS_START, TRIGGERS, SHED])?;
    Ok(OverloadKeys {
        resources,
        class_start: overload.number(&CLASS_START),
        triggers,
        shed,
    })
}

pub fn read_proxy(top: &Section) -> Result<ProxyKeys, ConfigFault>
    requires { top.now.place.now ≡ [] }
    ensures faults { Checks (proxy_faults (members_of top.now.table)) result }
    ensures value { IfOk result (λ proxy. proxy ≡ proxy_of (table_at (codes "proxy") (members_of top.now.table))) }
{
    let proxy = top.open(&PROXY, "proxy.")?;
    proxy.check_all(&[
        LISTEN,
        JOURNAL,
        WORKERS,
        CONNECTIONS,
        MAX_CONNECTIONS,
        ACCEPT_RATE,
        ACCEPT_BURST,
    ])?;
    Ok(proxy_in(&proxy)?)
}

fn proxy_in(proxy: &Section) -> Result<ProxyKeys, NoMemory>
    ensures { IfOk result (λ keys. keys ≡ proxy_of (members_of proxy.now.table)) }
{
    let listen = proxy.text(LISTEN.name).unwrap_or("127.0.0.1:0");
    Ok(ProxyKeys {
        listen: Octets::from_slice(proxy.alloc, listen.as_bytes())?,
        journal: proxy.octets(JOURNAL.name)?,
        workers: proxy.number(&WORKERS),
        connections: proxy.number(&CONNECTIONS),
        max_connections: proxy.number(&MAX_CONNECTIONS),
        accept_rate: proxy.number(&ACCEPT_RATE),
        accept_burst: proxy.number(&ACCEPT_BURST),
    })
}
