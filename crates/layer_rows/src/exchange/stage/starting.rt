// How exchanges begin.
ghost use Rattle.std.specs.Prelude.{◌≡◌, ◌<◌, ◌≤◌, All, IfSome, length, true};
ghost use Rattle.proxy_config.specs.Ranges.{IsBetween, IsRoute, most_octets};

use super::Stage;
use crate::exchange::answer::Answer;
use config_tables::read_config;
use exchange_core::StartSpec;
use flow_gate::{BufferId, FlowId, Gates};
use io_ports::NoMemory;
use proxy_config::Config;
use std::alloc::Global;

const CLIENT: u32 = 1;

const CLUSTER: u32 = 2;

const SPEC: StartSpec = StartSpec {
    plain: false,
    from_conn: CLIENT,
    from_stream: 1,
    to_conn: Some(CLUSTER),
    row: None,
    recv: 65_535,
    send: 65_536,
    quantum: 16_384,
    now: 0,
};

impl Stage {
    pub fn start(
        &mut self,
        rows: &[u8],
        row: Option<u32>,
        send: u32,
        multiple: u32,
    ) -> Result<Answer, NoMemory> {
        let now = self.exchanges.time();
        let spec = StartSpec {
            row,
            send,
            now,
            ..SPEC
        };
        self.begin(rows, &spec, multiple)
    }

    pub fn start_plain(
        &mut self,
        rows: &[u8],
        stream: u32,
        send: u32,
        quantum: u32,
        multiple: u32,
    ) -> Result<Answer, NoMemory> {
        let now = self.exchanges.time();
        let spec = StartSpec {
            plain: true,
            from_conn: 0,
            from_stream: stream,
            to_conn: Some(0),
            send,
            quantum,
            now,
            ..SPEC
        };
        self.begin(rows, &spec, multiple)
    }

    /// An exchange whose heads came, with 7 octets in its request and 3 in its response.
    pub fn ready(&mut self, rows: &[u8], framed: bool, ended: bool) -> Result<Answer, NoMemory> {
        let began = self.start(rows, None, SPEC.send, 0)?;
        let Answer::Began(exchange) = began else {
            return Ok(began);
        };
        let request = FlowId {
            exchange,
            back: false,
        };
        let response = FlowId {
            exchange,
            back: true,
        };
        let _ = self.head(request, false)?;
        let _ = self.head(response, false)?;
        let _ = self.arrive(request, 7)?;
        if ended {
            let _ = self.finish(request, false)?;
        }
        let _ = self.arrive(response, 3)?;
        if framed {
            let _ = self.frame(response, 1_000_000, 16_384)?;
        }
        Ok(began)
    }

    /// Whether an exchange may start so.
    fn may_start(&self, spec: &StartSpec, config: &Config) -> bool
        ensures recv { result ≡ true → spec.entry.now.recv ≤ most_octets }
        ensures send { result ≡ true → spec.entry.now.send ≤ most_octets }
        ensures quantum { result ≡ true → IsBetween 16384 1048576 spec.entry.now.quantum }
        ensures row { result ≡ true → IfSome spec.entry.now.row (λ row. row < length config.now.routes) }
        ensures clock { result ≡ true → self.now.exchanges.time ≤ spec.entry.now.now }
        ensures rises { result ≡ true → spec.entry.now.plain ≡ true → self.now.exchanges.last < spec.entry.now.from_stream }
    {
        let has_row = match spec.row {
            Some(row) => (row as usize) < config.routes.as_slice().len(),
            None => true,
        };
        let fits = spec.recv <= 16_777_216 && spec.send <= 16_777_216;
        let rises = !spec.plain || self.exchanges.last() < u64::from(spec.from_stream);
        let moves = 16_384 <= spec.quantum && spec.quantum <= 1_048_576;
        has_row && fits && moves && rises && self.exchanges.time() <= spec.now
    }

    fn begin(&mut self, rows: &[u8], spec: &StartSpec, multiple: u32) -> Result<Answer, NoMemory> {
        match config_of(self.alloc, rows, multiple) {
            Some(config) => self.begin_under(&config, spec),
            None => Ok(Answer::Refused),
        }
    }

    fn begin_under(&mut self, config: &Config, spec: &StartSpec) -> Result<Answer, NoMemory>
        requires { All IsRoute config.now.routes }
    {
        if !self.may_start(spec, config) {
            return Ok(Answer::Refused);
        }
        let exchange = self.exchanges.start(spec, config)?;
        self.watch_all(
            FlowId {
                exchange,
                back: false,
            },
            CLUSTER,
        )?;
        self.watch_all(
            FlowId {
                exchange,
                back: true,
            },
            CLIENT,
        )?;
        Ok(Answer::Began(exchange))
    }

    /// The flow, if it is there, watches its sources and the write buffer that it goes to.
    fn watch_all(&mut self, flow: FlowId, to: u32) -> Result<(), NoMemory> {
        let Some(stages) = self.exchanges.stages(flow) else {
            return Ok(());
        };
        if self.gates.is_open(flow) {
            return Ok(());
        }
        self.gates.open_flow(flow)?;
        for place in 1..9 {
            if place <= stages && self.exchanges.is_source(flow, place) {
                watch(&mut self.gates, flow, BufferId::Stage(flow, place))?;
            }
        }
        watch(&mut self.gates, flow, BufferId::Send(flow))?;
        watch(&mut self.gates, flow, BufferId::Write(to))
    }
}

/// The flow watches a buffer, which the gates know from then on.
fn watch(gates: &mut Gates, flow: FlowId, buffer: BufferId) -> Result<(), NoMemory> {
    if !gates.is_known(buffer) {
        gates.open_buffer(buffer)?;
    }
    if gates.is_open(flow) && gates.is_known(buffer) && !gates.is_watching(flow, buffer) {
        let _ = gates.watch(flow, buffer)?;
    }
    Ok(())
}

/// The configuration of these rows, with an overflow multiple.
fn config_of(alloc: Global, rows: &[u8], multiple: u32) -> Option<Config>
    ensures { IfSome result (λ config. All IsRoute config.routes) }
{
    if rows.len() >= u32::MAX as usize {
        return None;
    }
    let mut config = read_config(alloc, rows).ok()?;
    config.limits.overflow_multiple = multiple;
    Some(config)
}
