// The names of a configuration's clusters.
ghost use Rattle.std.specs.Prelude.{◌≡◌, ◌++◌, ◌∷◌, [], IfOk, OnOk};
ghost use Rattle.session_config.specs.ClusterNames.{names_in};

use flow_notes::Names;
use io_ports::NoMemory;
use proxy_config::Config;
use std::alloc::Global;

/// The names of the clusters, in their order. A configuration that was read has names of their form and none twice, so that
/// they are refused only for lack of memory.
pub fn names_of(alloc: Global, config: &Config) -> Result<Names, NoMemory>
    ensures { IfOk result (λ names. names ≡ names_in config.now) }
{
    let mut names = Names::new(alloc);
    let mut rest = config.clusters.as_slice();
    while let Some((cluster, after)) = rest.split_first() {
        push_name(&mut names, cluster.name.as_slice())?;
        rest = after;
    }
    Ok(names)
}

fn push_name(names: &mut Names, name: &[u8]) -> Result<(), NoMemory>
    ensures { OnOk result (names.new ≡ names.old ++ name.now ∷ []) }
{
    match names.push(name) {
        Ok(()) => Ok(()),
        Err(_) => Err(NoMemory),
    }
}
