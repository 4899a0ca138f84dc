// What holds of exchanges, whatever is done to them.
ghost use Rattle.std.specs.Int.{int_min};
ghost use Rattle.std.specs.Prelude.{◌≡◌, Bool, List, None, Some, false, length, min, true, ℕ, ℤ};
ghost use Rattle.exchange_core.specs.Effects.{arrived, body_framed, finished};
ghost use Rattle.exchange_core.specs.Exchange.{begun};
ghost use Rattle.exchange_core.specs.Moves.{is_free, next_step, stepped};
ghost use Rattle.exchange_core.specs.Plain.{Plain, plain_arrived, plain_begun, plain_crossed, plain_exchange, plain_finished, plain_flow, plain_framed, plain_moved, plain_spec};
ghost use Rattle.exchange_core.specs.declared.step.Step.TheVariants.{Moved, Still};
ghost use Rattle.exchange_core.specs.Units.{IsFrameable, next_unit};
ghost use Rattle.flow_rules.specs.Narrowed.{narrowed, octets_of};
ghost use Rattle.flow_rules.specs.declared.unit.Unit.{Unit as NextUnit};
ghost use Rattle.exchange_core.specs.Flow.{Flow};
ghost use Rattle.flow_gate.specs.Board.{Board};
ghost use Rattle.proxy_config.specs.declared.config.Config.{Config};

/// A stream of a plain session stays one, a receive buffer and a send buffer: what each call makes of it, and what a move.
pub fn plain_streams()
    ensures begins { (x window limit quantum now : ℕ) (config : Config)
        → begun x (plain_spec x window limit quantum now) config ≡ plain_exchange x (plain_begun window limit quantum now) }
    ensures arrives { (x : ℕ) (p : Plain) (octets : List ℕ) → arrived octets (plain_flow x p) ≡ plain_flow x (plain_arrived octets p) }
    ensures finishes { (x : ℕ) (p : Plain) → finished None (plain_flow x p) ≡ plain_flow x (plain_finished p) }
    ensures moves { (board : Board) (x : ℕ) (p : Plain) → is_free board (Some 0) (plain_flow x p) 0 ≡ true
        → (next_step board (Some 0) (plain_flow x p) ≡ Moved 0 (min p.quantum (length p.recv)) (plain_crossed (min p.quantum (length p.recv)) p) false)
        × (stepped board (Some 0) (plain_flow x p) ≡ plain_flow x (plain_moved (min p.quantum (length p.recv)) p)) }
    ensures stays { (board : Board) (x : ℕ) (p : Plain) → is_free board (Some 0) (plain_flow x p) 0 ≡ false
        → (next_step board (Some 0) (plain_flow x p) ≡ Still) × (stepped board (Some 0) (plain_flow x p) ≡ plain_flow x p) }
    ensures frames { (x n : ℕ) (last : Bool) (p : Plain) → body_framed n last (plain_flow x p) ≡ plain_flow x (plain_framed n last p) }
{}

/// The next unit where less room is left is the one for more room, narrowed to what is left; so it is of the greatest frame
/// that the peer takes. What may be framed as it stands may also be framed narrowed. So a caller that kept what goes next
/// under one bound may frame it under a smaller one.
pub fn units_narrow()
    ensures room { (a b : ℤ) (frame : ℕ) (flow : Flow) → next_unit (int_min a b) frame flow ≡ narrowed (octets_of b) (next_unit a frame flow) }
    ensures frame { (room : ℤ) (a b : ℕ) (flow : Flow) → next_unit room (min a b) flow ≡ narrowed b (next_unit room a flow) }
    ensures frameable { (most : ℕ) (unit : NextUnit) (flow : Flow) → IsFrameable unit flow → IsFrameable (narrowed most unit) flow }
{}
