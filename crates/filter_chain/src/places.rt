// The stages of a chain in a row, the send buffer last.
ghost use Rattle.std.specs.Prelude.{◌≡◌, ◌≢◌, ◌↔◌, ◌+◌, ◌<◌, ◌≤◌, ◌++◌, ◌&&◌, ◌∷◌, ◌==◌, ◌^◌, [], All, false, true, IsTrue, IsOk, OnOk, OnErr, IfOk, length, map, take};
ghost use Rattle.std.specs.List.{list_all};
ghost use Rattle.filter_chain.specs.Chain.{EndsInSend, above_in, kinds, octets_in, stages};
ghost use Rattle.filter_chain.specs.Effects.{changed_at, last_loses, passed};
ghost use Rattle.filter_chain.specs.Place.{IsPlace, empty_place, gaining, refilled};
ghost use Rattle.filter_chain.specs.Release.{overfills_in};
ghost use Rattle.filter_chain.specs.Stage.{CoversAt, IsReady, KeepsReady, places_of};
ghost use Rattle.proxy_config.specs.Ranges.{IsFilter, most_octets};
ghost use Rattle.wm_buffer.specs.Buffer.{AppendsOctets, DropsOctets};
ghost use Rattle.wm_buffer.specs.Watermark.{crossing};

use crate::fault::OfferFault;
use crate::stage::{Stage, StageKind};
use io_ports::NoMemory;
use proxy_config::Filter;
use std::alloc::Global;
use wm_buffer::{Shifted, WatermarkBuffer};

/// The stages of these filters and a send buffer, each empty and ready.
pub fn stages_of(
    alloc: Global,
    filters: &[Filter],
    send_limit: u32,
    quantum: u32,
) -> Result<Vec<Stage>, NoMemory>
    requires filters { All IsFilter filters.now }
    requires send_limit { send_limit ≤ most_octets }
    requires quantum { quantum ≤ 1048576 }
    ensures places { IfOk result (λ made. places_of made.items ≡ stages filters.now ++ empty_place StageKind.Send send_limit ∷ []) }
    ensures ready { IfOk result (λ made. All (IsReady quantum) made.items) }
{
    let mut made = Vec::new(alloc);
    for filter in filters {
        push_stage(alloc, &mut made, *filter, quantum)?;
    }
    made.push(Stage::new(alloc, StageKind::Send, send_limit, quantum)?)?;
    Ok(made)
}

/// Adds the stage of a filter. A Pass makes none.
fn push_stage(
    alloc: Global,
    made: &mut Vec<Stage>,
    filter: Filter,
    quantum: u32,
) -> Result<(), NoMemory>
    requires filter { IsFilter filter }
    requires quantum { quantum ≤ 1048576 }
    ensures places { OnOk result (places_of made.new.items ≡ places_of made.old.items ++ stages (filter ∷ [])) }
    ensures ready { OnOk result (All (IsReady quantum) made.old.items → All (IsReady quantum) made.new.items) }
{
    let (kind, limit) = match filter {
        Filter::Pass => return Ok(()),
        Filter::Hold { limit } => (StageKind::Hold, limit),
        Filter::Meter { limit, rate } => (StageKind::Meter { rate }, limit),
    };
    made.push(Stage::new(alloc, kind, limit, quantum)?)?;
    Ok(())
}

/// Drops the octets of a send buffer with this limit that stands alone. The answer is false, and nothing has changed, where
/// there are stages before it, or it has another limit.
pub fn empty_alone(stages: &mut [Stage], send_limit: u32) -> bool
    requires order { EndsInSend (kinds (places_of stages.old)) }
    requires each { All IsPlace (places_of stages.old) }
    ensures places { result ≡ true → places_of stages.new ≡ empty_place StageKind.Send send_limit ∷ [] }
    ensures ready { KeepsReady stages.old stages.new }
    ensures same { result ≡ false → stages.new ≡ stages.old }
{
    if stages.len() != 1 || stages[0].limit() != send_limit {
        return false;
    }
    stages[0].empty();
    true
}

/// Moves the first n octets of a buffer into the first stage.
pub fn feed(stages: &mut [Stage], from: &mut WatermarkBuffer, n: u32) -> Result<Shifted, OfferFault>
    requires some { 0 < length stages.old }
    requires octets { n ≤ length from.old.octets }
    ensures drops { OnOk result (DropsOctets from.old from.new n) }
    ensures gains { OnOk result (places_of stages.new ≡ changed_at (gaining (take n from.old.octets)) 1 (places_of stages.old)) }
    ensures ready { KeepsReady stages.old stages.new }
    ensures from { IfOk result (λ shifted. shifted.from ≡ crossing from.old.above from.new.above) }
    ensures to { IfOk result (λ shifted. shifted.to ≡ crossing (above_in (places_of stages.old) 1) (above_in (places_of stages.new) 1)) }
    ensures too_large { (result ≡ Err OfferFault.TooLarge) ↔ IsTrue (overfills_in (places_of stages.old) 1 n) }
    ensures covered { CoversAt stages.old 1 n (result ≡ Err OfferFault.NoMemory) }
    ensures err { OnErr result ((stages.new ≡ stages.old) × (from.new ≡ from.old)) }
{
    stages[0].take_from(from, n)
}

/// Moves the first n octets of the stage with this number, counted from 1, to the next one.
pub fn pass_on(stages: &mut [Stage], place: usize, n: u32) -> Result<Shifted, OfferFault>
    requires first { 1 ≤ place }
    requires last { place < length stages.old }
    requires octets { n ≤ length (octets_in (places_of stages.old) place) }
    ensures moves { OnOk result (places_of stages.new ≡ passed (places_of stages.old) place n) }
    ensures ready { KeepsReady stages.old stages.new }
    ensures from { IfOk result (λ shifted. shifted.from ≡ crossing (above_in (places_of stages.old) place) (above_in (places_of stages.new) place)) }
    ensures to { IfOk result (λ shifted. shifted.to ≡ crossing (above_in (places_of stages.old) (place + 1)) (above_in (places_of stages.new) (place + 1))) }
    ensures too_large { (result ≡ Err OfferFault.TooLarge) ↔ IsTrue (overfills_in (places_of stages.old) (place + 1) n) }
    ensures covered { CoversAt stages.old (place + 1) n (result ≡ Err OfferFault.NoMemory) }
    ensures err { OnErr result (stages.new ≡ stages.old) }
{
    let (front, back) = stages.split_at_mut(place);
    front[place - 1].pass_to(&mut back[0], n)
}

/// Appends `head` and the first n octets of the last stage to a buffer, and drops them here.
pub fn frame_last(
    stages: &mut [Stage],
    out: &mut WatermarkBuffer,
    head: &[u8],
    n: u32,
) -> Result<Shifted, NoMemory>
    requires some { 0 < length stages.old }
    requires octets { n ≤ length (octets_in (places_of stages.old) (length stages.old)) }
    ensures loses { OnOk result (places_of stages.new ≡ last_loses (places_of stages.old) n) }
    ensures appends { OnOk result (AppendsOctets out.old out.new (head.now ++ take n (octets_in (places_of stages.old) (length stages.old)))) }
    ensures ready { KeepsReady stages.old stages.new }
    ensures from { IfOk result (λ shifted. shifted.from ≡ crossing (above_in (places_of stages.old) (length stages.old)) (above_in (places_of stages.new) (length stages.old))) }
    ensures to { IfOk result (λ shifted. shifted.to ≡ crossing out.old.above out.new.above) }
    ensures covered { length head.now + n ≤ out.old.spare → IsOk result }
    ensures err { OnErr result ((stages.new ≡ stages.old) × (out.new ≡ out.old)) }
{
    let last = stages.len() - 1;
    stages[last].send_to(out, head, n)
}

/// Gives each Meter its tokens for so many whole 50 ms.
pub fn refill_all(stages: &mut [Stage], steps: u64)
    ensures places { places_of stages.new ≡ map (refilled steps) (places_of stages.old) }
    ensures ready { KeepsReady stages.old stages.new }
{
    for stage in stages.iter_mut() {
        stage.refill(steps);
    }
}

/// Whether each of these stages is empty.
pub fn all_empty(stages: &[Stage]) -> bool
    ensures { result ≡ list_all (λ stage. length stage.buffer.octets == 0) stages.now }
{
    stages.iter().all(Stage::is_empty)
}
