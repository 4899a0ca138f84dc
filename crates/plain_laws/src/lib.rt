//! How the histories of plain sessions go on, note by note, for any number of streams: which note may
//! follow a lawful history, and what the history is then. No core is named here.
#![tactic(auto)]

ghost use Rattle.flow_rules.specs.declared.ids.BufferId.{BufferId};
ghost use Rattle.std.specs.Prelude.{IsTrue, ◌↔◌};
ghost use Rattle.tape_laws.specs.Headline.{Headline};
ghost use Rattle.tape_laws.specs.History.{History, NoMark};
ghost use Rattle.tape_laws.specs.Plain.{plain_setup};
ghost use Rattle.tape_laws.specs.PlainTape.{IsPlainWhole};
ghost use Rattle.tape_laws.specs.Watermark.{above, lengths, limit};
ghost use Rattle.tape_laws.specs.declared.PlainLimits.{PlainLimits};
ghost use Rattle.wm_buffer.specs.Watermark.{IsAbove};

use wm_buffer::flag_is_watermark;

/// A lawful tape of whole dispatches, of any number of streams, keeps what is promised to an operator: what each
/// flow sent on is a front of the body that was read for it, no buffer holds more than its bound, and after each
/// dispatch the count of each live flow is the number of its sources that are above.
pub fn whole_tapes_keep_the_headline()
    ensures { (limits : PlainLimits) (h : History NoMark) → IsPlainWhole limits h → Headline (plain_setup limits) h }
{}

/// A buffer of a plain session is above exactly where at some moment its length passed its limit, and where it was more
/// than half of that ever since.
pub fn above_by_the_past()
    ensures { (limits : PlainLimits) (b : BufferId) (h : History NoMark) → IsTrue (above (plain_setup limits) b h) ↔ IsAbove (limit (plain_setup limits) b h) (lengths (plain_setup limits) b h) }
{
    flag_is_watermark();
}
