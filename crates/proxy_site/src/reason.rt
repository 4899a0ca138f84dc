// Why the proxy ended as it did.
ghost use Rattle.std.specs.Prelude.{◌≡◌};
ghost use Rattle.proxy_site.specs.Reasons.{reason_status};
ghost use Rattle.proxy_site.specs.Relaying.{ended_status};

use config_tables::ConfigFault;
use relay_work::RelayEnded;
use session_run::Status;

/// How the proxy ended, and why.
#[derive(Drop)]
pub struct Served {
    pub status: Status,
    pub reason: ServeReason,
}

/// Why the proxy ended.
#[derive(Drop)]
pub enum ServeReason {
    /// The words have no form.
    Words,
    /// The configuration is refused.
    Config(ConfigFault),
    /// The configuration has more than 1,048,576 octets.
    LongConfig,
    /// The configuration couldn't be read.
    ConfigRead,
    /// The site couldn't listen.
    Listen,
    /// The site gave nothing for a relay to run over.
    Fit,
    /// The output couldn't be written.
    Write,
    /// The head of the journal couldn't be written.
    JournalHead,
    /// The relay ended so.
    Relay(RelayEnded),
    /// Out of memory.
    Memory,
}

impl Served {
    /// How the proxy ends for this reason.
    pub fn by(reason: ServeReason) -> Self
        ensures status { result.status ≡ reason_status reason }
        ensures reason { result.reason ≡ reason }
        ensures told { result.status ≡ reason_status result.reason }
    {
        Served {
            status: status_of(&reason),
            reason,
        }
    }
}

fn status_of(reason: &ServeReason) -> Status
    ensures { result ≡ reason_status reason.now }
{
    match reason {
        ServeReason::Words => Status::Usage,
        ServeReason::Config(_) => Status::Config,
        ServeReason::LongConfig => Status::TooLong,
        ServeReason::ConfigRead => Status::ReadFault,
        ServeReason::Listen => Status::WriteFault,
        ServeReason::Fit => Status::WriteFault,
        ServeReason::Write => Status::WriteFault,
        ServeReason::JournalHead => Status::WriteFault,
        ServeReason::Relay(ended) => relay_status(*ended),
        ServeReason::Memory => Status::Memory,
    }
}

fn relay_status(ended: RelayEnded) -> Status
    ensures { result ≡ ended_status ended }
{
    match ended {
        RelayEnded::Turns => Status::Done,
        RelayEnded::Stopped => Status::Done,
        RelayEnded::TapsFault => Status::WriteFault,
        RelayEnded::JournalFault => Status::WriteFault,
        RelayEnded::Memory => Status::Memory,
    }
}
