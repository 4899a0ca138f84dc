// How the proxy of HTTP/2 ended.
ghost use Rattle.std.specs.List.{list_any};
ghost use Rattle.std.specs.Prelude.{MatchResult, ◌≡◌, ◌⊎◌};
ghost use Rattle.proxy_site.specs.declared.site.SiteRefusal.TheVariants as refusals;
ghost use Rattle.proxy_wire.specs.declared.end.WireEnd.TheVariants as ends;
ghost use Rattle.proxy_site.specs.Relaying.{IsCutShort};
ghost use Rattle.proxy_wire.specs.Serving.{wire_status};
ghost use Rattle.session_run.specs.declared.status.Status.TheVariants as status;
ghost use Rattle.proxy_wire.specs.Working.{EndsSo, ends_status, is_fault, is_memory, is_stopped, threads_status};

use io_ports::NoMemory;
use proxy_site::{SiteRefusal, Status};
use worker_loop::Ended;

/// How the proxy ended.
#[derive(Drop)]
pub enum WireEnd {
    /// The site couldn't listen.
    Listen,
    /// The site gave nothing for a worker to work over.
    Fit,
    /// The head of a journal couldn't be written.
    JournalHead,
    /// The output couldn't be written.
    Write,
    /// Out of memory.
    Memory,
    /// The workers ended so, in their order.
    Workers(Vec<Ended>),
    /// A round of the site failed, and the workers then ended so, in their order.
    Round(Vec<Ended>),
    /// A worker had no thread. All were told to stop, and ended so, in their order.
    Threads(Vec<Ended>),
}

/// Why the loop beside the workers ended.
#[derive(Clone, Copy)]
pub(crate) enum LoopEnd {
    /// The workers ended, or one of them otherwise than by its turns.
    Workers,
    /// A round of the site failed.
    Round,
    /// A worker had no thread.
    Threads,
}

impl WireEnd {
    /// Its status: a fault of the site or of one worker counts before memory that ran out, and so does a thread that couldn't be had.
    pub fn status(&self) -> Status
        ensures { result ≡ wire_status self.now }
    {
        match self {
            WireEnd::Listen | WireEnd::Fit | WireEnd::JournalHead | WireEnd::Write =>
                Status::WriteFault,
            WireEnd::Memory => Status::Memory,
            WireEnd::Workers(ends) => ends_status(ends.as_slice()),
            WireEnd::Round(_) => Status::WriteFault,
            WireEnd::Threads(ends) => threads_status(ends.as_slice()),
        }
    }

    // The workers ended so, and the loop beside them for this reason.
    #[tactic(auto, using(crate::proofs::Ending::threads_so, crate::proofs::Ending::threads_fault))]
    fn of(led: LoopEnd, ends: Vec<Ended>) -> WireEnd
        ensures so { EndsSo (wire_status result) ends.items }
        ensures cause { wire_status result ≡ status.WriteFault → (led ≡ LoopEnd.Round) ⊎ (ends_status ends.items ≡ status.WriteFault) }
    {
        match led {
            LoopEnd::Workers => WireEnd::Workers(ends),
            LoopEnd::Round => WireEnd::Round(ends),
            LoopEnd::Threads => WireEnd::Threads(ends),
        }
    }
}

impl From<NoMemory> for WireEnd {
    ghost from_gives = { λ _ end. end ≡ ends.Memory };

    fn from(_: NoMemory) -> Self {
        WireEnd::Memory
    }
}

/// The workers ended so, or none ran because memory ran out, and the loop beside them ended for this reason.
pub(crate) fn end_of(ends: Result<Vec<Ended>, NoMemory>, led: LoopEnd) -> WireEnd
    ensures so { MatchResult ends (λ all. EndsSo (wire_status result) all.items) (λ _. wire_status result ≡ status.Memory) }
    ensures cause { MatchResult ends (λ all. wire_status result ≡ status.WriteFault → (led ≡ LoopEnd.Round) ⊎ (ends_status all.items ≡ status.WriteFault)) (λ _. wire_status result ≡ status.Memory) }
{
    match ends {
        Ok(ends) => WireEnd::of(led, ends),
        Err(NoMemory) => WireEnd::Memory,
    }
}

/// A worker wasn't fitted.
pub(crate) fn unfitted(refusal: SiteRefusal) -> WireEnd
    ensures cut { IsCutShort (wire_status result) }
    ensures failed { wire_status result ≡ status.WriteFault → refusal ≡ refusals.Failed }
{
    match refusal {
        SiteRefusal::Failed => WireEnd::Fit,
        SiteRefusal::NoMemory => WireEnd::Memory,
    }
}

fn ends_status(ends: &[Ended]) -> Status
    ensures { result ≡ ends_status ends.now }
{
    if has_fault(ends) {
        Status::WriteFault
    } else if has_memory(ends) {
        Status::Memory
    } else {
        Status::Done
    }
}

fn threads_status(ends: &[Ended]) -> Status
    ensures { result ≡ threads_status ends.now }
{
    match (has_fault(ends), has_stopped(ends)) {
        (true, _) => Status::WriteFault,
        (false, true) => Status::Memory,
        (false, false) => ends_status(ends),
    }
}

fn has_fault(ends: &[Ended]) -> bool
    ensures { result ≡ list_any is_fault ends.now }
{
    ends.iter().any(|end| is_fault(*end))
}

fn has_memory(ends: &[Ended]) -> bool
    ensures { result ≡ list_any is_memory ends.now }
{
    ends.iter().any(|end| is_memory(*end))
}

fn has_stopped(ends: &[Ended]) -> bool
    ensures { result ≡ list_any is_stopped ends.now }
{
    ends.iter().any(|end| is_stopped(*end))
}

fn is_fault(end: Ended) -> bool
    ensures { result ≡ is_fault end }
{
    matches!(end, Ended::WiresFault | Ended::JournalFault)
}

fn is_memory(end: Ended) -> bool
    ensures { result ≡ is_memory end }
{
    matches!(end, Ended::Memory)
}

fn is_stopped(end: Ended) -> bool
    ensures { result ≡ is_stopped end }
{
    matches!(end, Ended::Stopped)
}
