// What holds of frames and octets, whoever reads and writes them.
ghost use Rattle.std.specs.Prelude.{◌≡◌, ◌≤◌, ◌<◌, ◌^◌, ◌*◌, ◌+◌, ◌++◌, ◌∷◌, [], Bool, List, ℕ, length};
ghost use Rattle.std.specs.Int.{to_be_bytes, w32};
ghost use Rattle.std.specs.List.{flat_map};
ghost use Rattle.h2_frames.specs.Blocks.{block_frames, spellings};
ghost use Rattle.h2_frames.specs.Frame.{DataFrame, Frame, WindowUpdate, padding_of, unpadded};
ghost use Rattle.h2_frames.specs.Frames.{AreFrames, BeginsNoFrame, IsReading, Shows, SpellsFrame};
ghost use Rattle.h2_frames.specs.Head.{data_head, frame_head};
ghost use Rattle.h2_frames.specs.Spelling.{IsWritable, payload_of, spelling};
ghost use Rattle.h2_frames.specs.declared.types.FrameFault.{FrameFault};

/// The frames of a list of octets are one list, with one rest.
pub fn one_list()
    ensures { (max : ℕ) (octets : List ℕ) (frames others : List Frame) (rest other : List ℕ)
        → IsReading max octets frames rest → IsReading max octets others other → (frames ≡ others) × (rest ≡ other) }
{}

/// However octets are cut: the frames of a front, and then those of its rest with what follows, are
/// the frames of the whole.
pub fn cut_anywhere()
    ensures { (max : ℕ) (octets more : List ℕ) (frames others : List Frame) (rest other : List ℕ)
        → AreFrames max octets frames rest → AreFrames max (rest ++ more) others other
        → AreFrames max (octets ++ more) (frames ++ others) other }
{}

/// Octets show one fault at most, show it whatever follows, and begin with no frame then.
pub fn one_fault()
    ensures one { (max : ℕ) (octets : List ℕ) (fault other : FrameFault)
        → Shows max octets fault → Shows max octets other → fault ≡ other }
    ensures stays { (max : ℕ) (octets more : List ℕ) (fault : FrameFault)
        → Shows max octets fault → Shows max (octets ++ more) fault }
    ensures no_frame { (max : ℕ) (octets : List ℕ) (fault : FrameFault)
        → Shows max octets fault → BeginsNoFrame max octets }
{}

/// What is written is read again, without its padding, whatever follows.
pub fn written_is_read()
    ensures spells { (max : ℕ) (frame : Frame) → IsWritable frame → length (payload_of frame) ≤ max
        → SpellsFrame max (spelling frame) (unpadded frame) }
    ensures again { (max : ℕ) (frame : Frame) (more : List ℕ) → IsWritable frame → length (payload_of frame) ≤ max
        → AreFrames max (spelling frame ++ more) (unpadded frame ∷ []) more }
{}

/// What is read can be written, and has at most 256 octets of padding.
pub fn read_frames_are_writable()
    ensures writable { (max : ℕ) (octets : List ℕ) (frame : Frame) → SpellsFrame max octets frame → IsWritable frame }
    ensures padding { (max : ℕ) (octets : List ℕ) (frame : Frame) → SpellsFrame max octets frame → padding_of frame ≤ 256 }
{}

/// The frames of a field block hold the whole block and nothing else, are read as they were written,
/// and are few: one for each 16,384 octets, and one more at most, with nine octets each beside the
/// block.
pub fn blocks_are_whole()
    ensures whole { (stream : ℕ) (last : Bool) (block : List ℕ) → flat_map payload_of (block_frames stream last block) ≡ block }
    ensures read { (stream : ℕ) (last : Bool) (block more : List ℕ) → 0 < stream → stream < 2 ^ 31
        → AreFrames 16384 (spellings (block_frames stream last block) ++ more) (block_frames stream last block) more }
    ensures few { (stream : ℕ) (last : Bool) (block : List ℕ) → 16384 * length (block_frames stream last block) ≤ length block + 16384 }
    ensures len { (stream : ℕ) (last : Bool) (block : List ℕ)
        → length (spellings (block_frames stream last block)) ≡ length block + 9 * length (block_frames stream last block) }
{}

/// The frames of flow control, octet by octet: DATA is its head and then its content, and
/// WINDOW_UPDATE its head and then the increment.
pub fn flow_frames()
    ensures data { (stream padded : ℕ) (last : Bool) (octets : List ℕ)
        → spelling (DataFrame stream last padded octets) ≡ data_head stream (length octets) last ++ octets }
    ensures update { (stream n : ℕ) → spelling (WindowUpdate stream n) ≡ frame_head 4 8 0 stream ++ to_be_bytes w32 n }
{}
