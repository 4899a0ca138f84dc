// The list of clusters.
ghost use Rattle.std.specs.Prelude.{◌≡◌, ◌++◌, ◌∷◌, [], codes, map, IfOk};
ghost use Rattle.toml.specs.View.{view};
ghost use Rattle.config_tables.specs.Answers.{Checks, members_of};
ghost use Rattle.config_tables.specs.Keys.{keys_faults};
ghost use Rattle.config_tables.specs.Reading.{clusters_key, cluster_row_faults, clusters_faults, made_row, rows_of};
ghost use Rattle.config_tables.specs.Tables.{cluster_of};
ghost use Rattle.config_tables.specs.Values.{list_at};

use crate::fault::ConfigFault;
use crate::keys::{ADDRESS, CLUSTERS, cluster_name};
use crate::row::{row_place, row_table};
use crate::section::Section;
use io_ports::{NoMemory, Octets};
use proxy_config::{Cluster, ClusterList, Rows};
use std::alloc::Global;
use toml::Value;

/// The table of clusters.
#[tactic(auto, using(crate::proofs::Faults::first_append))]
pub fn read_clusters(top: &Section) -> Result<ClusterList, ConfigFault>
    requires { top.now.place.now ≡ [] }
    ensures faults { Checks (keys_faults [] (members_of top.now.table) (clusters_key ∷ []) ++ clusters_faults (list_at (codes "clusters") (members_of top.now.table))) result }
    ensures value { IfOk result (λ clusters. clusters ≡ rows_of cluster_of (list_at (codes "clusters") (members_of top.now.table))) }
{
    top.check(&[CLUSTERS])?;
    cluster_rows(top.alloc, top.list(CLUSTERS.name))
}

fn cluster_rows(alloc: Global, rows: &[Value]) -> Result<ClusterList, ConfigFault>
    ensures faults { Checks (clusters_faults (map view rows.now)) result }
    ensures value { IfOk result (λ clusters. clusters ≡ rows_of cluster_of (map view rows.now)) }
{
    let mut clusters = Rows::new(alloc);
    for row in rows {
        let cluster = cluster_row(alloc, row, clusters.as_slice())?;
        clusters.push(cluster)?;
    }
    Ok(clusters)
}

// The row after these clusters.
fn cluster_row(alloc: Global, row: &Value, before: &[Cluster]) -> Result<Cluster, ConfigFault>
    ensures faults { Checks (cluster_row_faults before.now (view row.now)) result }
    ensures value { IfOk result (λ cluster. cluster ≡ made_row cluster_of (view row.now)) }
{
    let table = row_table(alloc, row, "clusters", before.len())?;
    let place = row_place(alloc, "clusters", before.len())?;
    let section = Section {
        alloc,
        place: place.as_str(),
        table: Some(table),
    };
    section.check_all(&[cluster_name(before), ADDRESS])?;
    Ok(cluster_in(&section)?)
}

fn cluster_in(row: &Section) -> Result<Cluster, NoMemory>
    ensures { IfOk result (λ cluster. cluster ≡ cluster_of (members_of row.now.table)) }
{
    Ok(Cluster {
        name: Octets::from_slice(row.alloc, row.word("name").as_bytes())?,
        address: row.octets(ADDRESS.name)?,
    })
}
