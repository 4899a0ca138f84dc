// The stages that bodies pass, by the route row of their exchange.
ghost use Rattle.std.specs.Prelude.{◌≡◌, ◌++◌, ◌∷◌, [], IfOk, OnOk, map};
ghost use Rattle.tape_laws.specs.Watermark.{kind_limit};
ghost use Rattle.wire_run.specs.Rows.{stages_of};
ghost use Rattle.wire_run.specs.Stages.{IsStages};

use io_ports::NoMemory;
use proxy_config::{Filter, Route};
use std::alloc::Global;

/// The limits of the stages that a request and a response of a route row pass, in octets.
#[derive(Drop)]
pub struct RouteStages {
    pub request: Vec<u32>,
    pub response: Vec<u32>,
}

/// The stages of each route row, in the order of the rows.
#[derive(Drop)]
pub struct StageTable {
    alloc: Global,
    rows: Vec<RouteStages>,
}

impl StageTable {
    ghost use Rattle.std.specs.Prelude.{IfOk, Some, false, true};
    ghost use Rattle.wire_run.specs.Stages.{AreStages, Gives};

    /// Those of these routes. Refused only for lack of memory.
    pub fn new(alloc: Global, routes: &[Route]) -> Result<Self, NoMemory>
        ensures { IfOk result (λ table. AreStages table.rows.items routes.now) }
    {
        let mut rows = Vec::new(alloc);
        let mut rest = routes;
        while let Some((route, after)) = rest.split_first() {
            rows.push(row_of(alloc, route)?)?;
            rest = after;
        }
        Ok(StageTable { alloc, rows })
    }

    /// The limits of the stages that a row's requests pass; none where there is no such row. Refused only for lack of memory.
    pub fn request_limits(&self, row: Option<u32>) -> Result<Vec<u32>, NoMemory>
        ensures { IfOk result (λ limits. Gives self.now.rows.items row false limits.items) }
    {
        self.limits(row, false)
    }

    /// The limits of the stages that a row's responses pass; none where there is no such row. Refused only for lack of memory.
    pub fn response_limits(&self, row: Option<u32>) -> Result<Vec<u32>, NoMemory>
        ensures { IfOk result (λ limits. Gives self.now.rows.items row true limits.items) }
    {
        self.limits(row, true)
    }

    fn limits(&self, row: Option<u32>, back: bool) -> Result<Vec<u32>, NoMemory>
        ensures { IfOk result (λ limits. Gives self.now.rows.items row back limits.items) }
    {
        match row {
            Some(row) => self.row_limits(row as usize, back),
            None => Ok(Vec::new(self.alloc)),
        }
    }

    fn row_limits(&self, row: usize, back: bool) -> Result<Vec<u32>, NoMemory>
        ensures { IfOk result (λ limits. Gives self.now.rows.items (Some row) back limits.items) }
    {
        let Some(stages) = self.rows.as_slice().get(row) else {
            return Ok(Vec::new(self.alloc));
        };
        let limits = if back {
            &stages.response
        } else {
            &stages.request
        };
        Ok(Vec::from_slice(self.alloc, limits.as_slice())?)
    }
}

fn row_of(alloc: Global, route: &Route) -> Result<RouteStages, NoMemory>
    ensures { IfOk result (λ row. IsStages row route.now) }
{
    Ok(RouteStages {
        request: limits_of(alloc, route.request.as_slice())?,
        response: limits_of(alloc, route.response.as_slice())?,
    })
}

// The limits of the filters that are stages: a Pass keeps nothing, so it is none.
fn limits_of(alloc: Global, filters: &[Filter]) -> Result<Vec<u32>, NoMemory>
    ensures { IfOk result (λ limits. limits.items ≡ map kind_limit (stages_of filters.now)) }
{
    let mut limits = Vec::new(alloc);
    let mut rest = filters;
    while let Some((filter, after)) = rest.split_first() {
        push_limit(&mut limits, filter)?;
        rest = after;
    }
    Ok(limits)
}

fn push_limit(limits: &mut Vec<u32>, filter: &Filter) -> Result<(), NoMemory>
    ensures { OnOk result (limits.new.items ≡ limits.old.items ++ map kind_limit (stages_of (filter.now ∷ []))) }
{
    match filter {
        Filter::Pass => {}
        Filter::Hold { limit } => limits.push(*limit)?,
        Filter::Meter { limit, .. } => limits.push(*limit)?,
    }
    Ok(())
}
