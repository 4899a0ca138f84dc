// What holds of outlets, whoever fills their write buffers.
ghost use Rattle.std.specs.Prelude.{◌≡◌, ◌≤◌, ◌<◌, List, ℕ, Bool, false, length};
ghost use Rattle.hpack_codec.specs.Sections.{list_size};
ghost use Rattle.hpack_codec.specs.declared.fields.Field.{Field};
ghost use Rattle.wire_outlet.specs.Heads.{head_most, section_octets};
ghost use Rattle.wire_outlet.specs.Outgoing.{IsReady};
ghost use Rattle.wm_buffer.specs.Buffer.{AppendsOctets, Buffer};

use h2_frames::blocks_are_whole;
use hpack_codec::block_fits;

/// A head takes at most one octet more than its list counts, and nine octets for each 16,384 of these
/// and for the rest: 61,477 where the list counts 61,440.
pub fn heads_fit()
    ensures most { (anew last : Bool) (stream : ℕ) (fields : List Field) → length (section_octets anew stream last fields) ≤ head_most (list_size fields) }
    ensures unit { (size : ℕ) → size ≤ 61440 → head_most size ≤ 61477 }
{
    blocks_are_whole();
    block_fits();
}

/// A ready buffer with a limit that isn't above has room for a unit.
pub fn room_for_a_unit()
    ensures { (unit : ℕ) (write : Buffer) → IsReady unit write → write.above ≡ false → 0 < write.limit → unit ≤ write.spare }
{}

/// A ready buffer that isn't above stays ready where at most a unit is appended.
pub fn units_stay_ready()
    ensures { (unit : ℕ) (octets : List ℕ) (old new : Buffer) → IsReady unit old → old.above ≡ false → length octets ≤ unit
        → AppendsOctets old new octets → IsReady unit new }
{}
