// How a publisher and its followers are made, and how a publisher ends.
ghost use Rattle.std.specs.Prelude.{◌≡◌, ◌≤◌, ◌∷◌, ◌++◌, [], All, length, vec_len, IfOk, MatchOption};
ghost use Rattle.std.specs.Arc.{arc_value};
ghost use Rattle.shared_state.specs.Following.{IsNewFollower, followers_in};
ghost use Rattle.shared_state.specs.States.{published, counts, IsSame};
ghost use Rattle.shared_state.specs.Version.{first_seat};

use crate::entries::Entry;
use crate::follower::{Follower, Followers};
use crate::one_list::Press;
use crate::publisher::Publisher;
use crate::version_word::{Board, Deals, VersionTable, VersionView};
use atomic_table::Seat;
use io_ports::{NoMemory, Octets};
use proxy_config::{
    ClusterList, Config, NameList, OverloadKeys, ProxyKeys, RouteList, ShedList, TriggerList,
};
use std::alloc::Global;
use std::sync::{Arc, Wait};

// A configuration with the same triggers of the overload actions, and no rows but those.
fn triggers_alone(alloc: Global, config: &Config) -> Result<Config, NoMemory>
    ensures { IfOk result (λ made. made.overload.triggers ≡ config.now.overload.triggers) }
{
    let triggers = Vec::from_slice(alloc, config.overload.triggers.as_slice())?;
    Ok(Config {
        limits: config.limits,
        timeouts: config.timeouts,
        clusters: ClusterList::new(alloc),
        routes: RouteList::new(alloc),
        overload: OverloadKeys {
            resources: NameList::new(alloc),
            class_start: config.overload.class_start,
            triggers: TriggerList::from_vec(triggers),
            shed: ShedList::new(alloc),
        },
        proxy: ProxyKeys {
            listen: Octets::new(alloc),
            journal: None,
            workers: config.proxy.workers,
            connections: config.proxy.connections,
            max_connections: config.proxy.max_connections,
            accept_rate: config.proxy.accept_rate,
            accept_burst: config.proxy.accept_burst,
        },
    })
}

// The version word at 0, the publisher's seat at it, and what the configuration says of pressures.
fn make_board(
    alloc: Global,
    config: &Config,
) -> Result<(Arc<Board, Global>, Seat<(), VersionView>), NoMemory>
    requires { length config.now.overload.resources ≤ 16 }
    ensures resources { IfOk result (λ made. (arc_value made.0).resources ≡ length config.now.overload.resources) }
    ensures triggers { IfOk result (λ made. (arc_value made.0).config.overload.triggers ≡ config.now.overload.triggers) }
    ensures seat { IfOk result (λ made. (made.1.table_id ≡ (arc_value made.0).word.shared.table_id) × (made.1.me.0 ≡ first_seat)) }
{
    let (word, seat) = VersionTable::of_words(alloc, &[0], &())?;
    let board = Board {
        word,
        resources: config.overload.resources.len() as usize,
        config: triggers_alone(alloc, config)?,
    };
    Ok((Arc::new(alloc, board)?, seat))
}

fn follow_all(
    alloc: Global,
    publisher: &mut Publisher,
    followers: u32,
) -> Result<Vec<Follower>, NoMemory>
    ensures len { IfOk result (λ v. vec_len v ≡ followers) }
    ensures each { IfOk result (λ v. All (IsNewFollower (arc_value publisher.old.board)) v.items) }
    ensures kept { (published publisher.new ≡ published publisher.old) × (publisher.new.last ≡ publisher.old.last) × (counts publisher.new ≡ counts publisher.old) }
    ensures same { IsSame publisher.old publisher.new }
{
    let mut list = Vec::with_capacity(alloc, followers as usize)?;
    for _ in 0..followers {
        let follower = publisher.follower()?;
        list.push_reserved(follower);
    }
    Ok(list)
}

/// A publisher, and so many followers, of the resources of the configuration, which are at most 16. The publisher has shown
/// version 0, of which all pressures are 0, and no follower has looked yet. Refused only for lack of memory.
pub fn make_shared<R: Wait>(
    rt: &R,
    alloc: Global,
    config: &Config,
    followers: u32,
) -> Result<(Publisher, Followers), NoMemory>
    requires followers { 1 ≤ followers }
    requires resources { length config.now.overload.resources ≤ 16 }
    ensures resources { IfOk result (λ made. (arc_value made.0.board).resources ≡ length config.now.overload.resources) }
    ensures triggers { IfOk result (λ made. (arc_value made.0.board).config.overload.triggers ≡ config.now.overload.triggers) }
    ensures publisher { IfOk result (λ made. (made.0.last.version ≡ 0) × (published made.0 ≡ []) × (counts made.0 ≡ first_seat)) }
    ensures len { IfOk result (λ made. length (followers_in made.1) ≡ followers) }
    ensures each { IfOk result (λ made. All (IsNewFollower (arc_value made.0.board)) (followers_in made.1)) }
{
    let (board, seat) = make_board(alloc, config)?;
    let entry = Entry::opening();
    let press = Press::new(alloc, entry, entry, followers as usize)?;
    let mut publisher = Publisher {
        press: Some(press),
        seat,
        board,
        last: entry,
    };
    match follow_all(alloc, &mut publisher, followers) {
        Ok(list) => Ok((publisher, Followers { list })),
        Err(NoMemory) => {
            publisher.end(rt);
            Err(NoMemory)
        }
    }
}

impl Publisher {
    // One more follower.
    fn follower(&mut self) -> Result<Follower, NoMemory>
        ensures new { IfOk result (IsNewFollower (arc_value self.old.board)) }
        ensures kept { (published self.new ≡ published self.old) × (self.new.last ≡ self.old.last) × (counts self.new ≡ counts self.old) }
        ensures same { IsSame self.old self.new }
    {
        let Some(press) = &self.press else {
            unreachable!()
        };
        let eye = press.factory().reader()?;
        let board = Arc::try_clone(&self.board)?;
        let seat = self.board.word.shared.split_seat::<Deals>(&mut self.seat);
        Ok(Follower {
            eye: Some(eye),
            seat,
            board,
            kept: Entry::opening(),
        })
    }

    /// Ends the publishing, and answers how many versions were published. It waits for followers that still read. Followers
    /// go on answering what they have.
    pub fn end<R: Wait>(self, rt: &R) -> u64
        ensures { result ≡ self.last.version }
    {
        let Publisher {
            press,
            seat: _seat,
            board: _board,
            last,
        } = self;
        if let Some(press) = press {
            press.take(rt);
        }
        last.version
    }
}

impl Followers {
    /// A follower. None exactly where all were given out.
    pub fn take_one(&mut self) -> Option<Follower>
        ensures { MatchOption result
            ((followers_in self.old ≡ []) × (followers_in self.new ≡ []))
            (λ f. followers_in self.old ≡ followers_in self.new ++ f ∷ []) }
    {
        self.list.pop()
    }
}
