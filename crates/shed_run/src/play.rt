// The lines of a session whose arrivals pass the load shed points.
ghost use Rattle.shed_run.specs.ShedLines.{is_own};
ghost use Rattle.std.specs.Prelude.{◌≡◌};

use crate::line::put_line;
use flow_notes::Event;
use io_ports::{NoMemory, Octets};
use proxy_config::Config;
use session_lines::{LineRead, WireLines};
use session_run::{Player, Went};
use shed_points::{SHED_POSTER, Shedder, Verdict, instead, keeps};
use std::alloc::Global;
use wire_run::WirePlay;

/// A session under way whose arrivals pass the load shed points: the wire session of what its events come to, what sheds them, and how
/// many there were.
#[derive(Drop)]
pub struct ShedPlay {
    play: WirePlay,
    shedder: Shedder,
    events: u64,
}

impl ShedPlay {
    ghost use Rattle.config_tables.specs.Reading.{config_of};
    ghost use Rattle.flow_notes.specs.Extends.{Extends};
    ghost use Rattle.proxy_config.specs.Ranges.{IsInRange};
    ghost use Rattle.session_run.specs.Runs.{Begins};
    ghost use Rattle.shed_points.specs.ShedList.{as_list, kept};
    ghost use Rattle.shed_run.specs.Parts.{MayPlay, Plays, PlaysAs};
    ghost use Rattle.shed_run.specs.Played.{CanTake, PlaysEvent, TakesEvent, shed_kind};
    ghost use Rattle.shed_run.specs.ShedLines.{is_own};
    ghost use Rattle.std.specs.Prelude.{◌≡◌, ◌++◌, ◌∷◌, [], IfOk, List, Ok, OnErr, OnOk, false, ℕ};

    /// Before the first line of a session under this configuration. Refused only for lack of memory.
    pub fn new(alloc: Global, config: Config) -> Result<Self, NoMemory>
        requires { IsInRange config }
        ensures { IfOk result (λ play. (text : List ℕ) → config_of text ≡ Ok config → Begins shed_kind play text) }
    {
        let Ok(shedder) = Shedder::new(alloc, &config) else {
            drop(config);
            return Err(NoMemory);
        };
        let Ok(play) = WirePlay::new(alloc, config) else {
            drop(shedder);
            return Err(NoMemory);
        };
        Ok(ShedPlay {
            play,
            shedder,
            events: 0,
        })
    }

    /// The lines so far.
    pub fn lines(&self) -> &WireLines
        ensures { result.now ≡ self.now.play.lines }
    {
        self.play.lines()
    }

    // A post of the shedder's own poster is refused.
    fn take(&mut self, event: &Event, text: &mut Octets) -> Result<Went, NoMemory>
        requires { is_own event.now ≡ false → CanTake self.old event.now }
        ensures { TakesEvent self.old event.now text.old self.new text.new result }
    {
        if is_own(event) {
            return Ok(Went::Refused);
        }
        self.event(event, text)
    }

    // Judges an event, plays what it comes to, and appends the notes with the line of what was shed, or leaves the text as it was.
    fn event(&mut self, event: &Event, text: &mut Octets) -> Result<Went, NoMemory>
        requires { CanTake self.old event.now }
        ensures { PlaysEvent self.old event.now text.old self.new text.new result }
    {
        let Some(number) = self.events.checked_add(1) else {
            return Err(NoMemory);
        };
        self.events = number;
        let posts = self.shedder.posts();
        let verdict = self.shedder.judge(event)?;
        self.play_whole(event, verdict, instead(event, verdict, posts), text)?;
        Ok(Went::On)
    }

    // The same as `play_as`, but after running out of memory the text is as it was.
    fn play_whole(
        &mut self,
        event: &Event,
        verdict: Verdict,
        stead: Option<Event>,
        text: &mut Octets,
    ) -> Result<(), NoMemory>
        requires { MayPlay self.old.play (kept event.now verdict ++ as_list stead) }
        ensures ok { OnOk result (PlaysAs self.old.play event.now verdict self.old.events (kept event.now verdict) (as_list stead) text.old self.new.play text.new) }
        ensures err { OnErr result (text.new ≡ text.old) }
        ensures others { (self.new.shedder ≡ self.old.shedder) × (self.new.events ≡ self.old.events) }
    {
        let whole = text.len();
        if let Err(error) = self.play_as(event, verdict, stead, text) {
            text.truncate(whole);
            return Err(error);
        }
        Ok(())
    }

    // Plays the event, where it is dispatched, and what is dispatched in its stead; between them stands its line, where it was shed.
    fn play_as(
        &mut self,
        event: &Event,
        verdict: Verdict,
        stead: Option<Event>,
        text: &mut Octets,
    ) -> Result<(), NoMemory>
        requires { MayPlay self.old.play (kept event.now verdict ++ as_list stead) }
        ensures ok { OnOk result (PlaysAs self.old.play event.now verdict self.old.events (kept event.now verdict) (as_list stead) text.old self.new.play text.new) }
        ensures err { OnErr result (Extends text.old text.new) }
        ensures others { (self.new.shedder ≡ self.old.shedder) × (self.new.events ≡ self.old.events) }
    {
        self.play_kept(event, verdict, text)?;
        put_line(text, self.events, event, verdict)?;
        self.play_stead(stead, text)
    }

    fn play_kept(
        &mut self,
        event: &Event,
        verdict: Verdict,
        text: &mut Octets,
    ) -> Result<(), NoMemory>
        requires { MayPlay self.old.play (kept event.now verdict) }
        ensures ok { OnOk result (Plays self.old.play (kept event.now verdict) text.old self.new.play text.new) }
        ensures err { OnErr result (text.new ≡ text.old) }
        ensures others { (self.new.shedder ≡ self.old.shedder) × (self.new.events ≡ self.old.events) }
    {
        if keeps(verdict) {
            self.play_one(event, text)
        } else {
            Ok(())
        }
    }

    fn play_stead(&mut self, stead: Option<Event>, text: &mut Octets) -> Result<(), NoMemory>
        requires { MayPlay self.old.play (as_list stead) }
        ensures ok { OnOk result (Plays self.old.play (as_list stead) text.old self.new.play text.new) }
        ensures err { OnErr result (text.new ≡ text.old) }
        ensures others { (self.new.shedder ≡ self.old.shedder) × (self.new.events ≡ self.old.events) }
    {
        match stead {
            Some(event) => self.play_one(&event, text),
            None => Ok(()),
        }
    }

    fn play_one(&mut self, event: &Event, text: &mut Octets) -> Result<(), NoMemory>
        requires { MayPlay self.old.play (event.now ∷ []) }
        ensures ok { OnOk result (Plays self.old.play (event.now ∷ []) text.old self.new.play text.new) }
        ensures err { OnErr result (text.new ≡ text.old) }
        ensures others { (self.new.shedder ≡ self.old.shedder) × (self.new.events ≡ self.old.events) }
    {
        self.play.event(event, text)?;
        Ok(())
    }
}

impl Player for ShedPlay {
    ghost use Rattle.shed_run.specs.Played as spec;

    ghost stands = { spec.Played };

    ghost refuses = { spec.RefusesLine };

    ghost can_end = { spec.can_end };

    ghost sums = { spec.SumsPlay };

    fn line(&mut self, line: &[u8], text: &mut Octets) -> Result<Went, NoMemory> {
        match self.play.read(line)? {
            LineRead::Header => Ok(Went::On),
            LineRead::Event(event) => self.take(&event, text),
            LineRead::Limits(_) | LineRead::Refused => Ok(Went::Refused),
        }
    }

    fn may_end(&self) -> bool {
        self.play.may_end()
    }

    fn summarize(&mut self, text: &mut Octets) -> Result<(), NoMemory> {
        self.play.summarize(text)
    }
}

// Whether an event is a post of the poster that makes the drains of what is shed, which a session may not have.
fn is_own(event: &Event) -> bool
    ensures { result ≡ is_own event.now }
{
    match event {
        Event::Post { poster, .. } => *poster == SHED_POSTER,
        _ => false,
    }
}
