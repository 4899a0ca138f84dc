// Permits and states on one thread and on several.
ghost use Rattle.std.specs.Prelude.{◌≡◌, ◌≤◌, All, IfOk, IfSome};
ghost use Rattle.std.specs.Arc.{arc_value};
ghost use Rattle.shared_state.specs.Following.{IsNewFollower, followers_in};
ghost use Rattle.shared_state.specs.States.{resources_of};

mod beside;
mod entering;
mod followed;
mod threads;

use config_tables::read_config;
use io_ports::NoMemory;
use proxy_config::Config;
use shared_state::{Follower, Followers, Publisher, make_shared};
use std::alloc::AllocGlobal;
use std::process::Abort;
use std::sync::Wait;
use std::test::Fail;

/// A publisher and so many followers, under a configuration of so many resources. It is dropped by a call, since the check follows a
/// drop without one field by field.
fn shared<R: AllocGlobal + Wait + Abort>(
    rt: &R,
    config: &str,
    resources: u32,
    followers: u32,
) -> Result<(Publisher, Followers), Fail>
    requires followers { 1 ≤ followers }
    requires resources { resources ≤ 16 }
    ensures resources { IfOk result (λ made. resources_of made.0 ≡ resources) }
    ensures each { IfOk result (λ made. All (IsNewFollower (arc_value made.0.board)) (followers_in made.1)) }
{
    let text = config.as_bytes();
    assert!(rt; text.len() <= u32::MAX as usize);
    let config = read_config(rt.alloc(), text)?;
    let made = shared_under(rt, &config, resources, followers);
    drop(config);
    Ok(made?)
}

/// The same, where the configuration was read.
fn shared_under<R: AllocGlobal + Wait + Abort>(
    rt: &R,
    config: &Config,
    resources: u32,
    followers: u32,
) -> Result<(Publisher, Followers), NoMemory>
    requires followers { 1 ≤ followers }
    requires resources { resources ≤ 16 }
    ensures resources { IfOk result (λ made. resources_of made.0 ≡ resources) }
    ensures each { IfOk result (λ made. All (IsNewFollower (arc_value made.0.board)) (followers_in made.1)) }
{
    assert!(rt; config.overload.resources.len() == resources);
    make_shared(rt, rt.alloc(), config, followers)
}

/// A new follower of this publisher.
fn follower_of(publisher: &Publisher, followers: &mut Followers) -> Option<Follower>
    requires { All (IsNewFollower (arc_value publisher.now.board)) (followers_in followers.old) }
    ensures follower { IfSome result (λ f. f.seat.table_id ≡ publisher.now.seat.table_id) }
    ensures others { All (IsNewFollower (arc_value publisher.now.board)) (followers_in followers.new) }
{
    let _ = publisher;
    followers.take_one()
}

/// The same, where there is one.
fn one_follower<R: Abort>(rt: &R, publisher: &Publisher, followers: &mut Followers) -> Follower
    requires { All (IsNewFollower (arc_value publisher.now.board)) (followers_in followers.old) }
    ensures follower { result.seat.table_id ≡ publisher.now.seat.table_id }
    ensures others { All (IsNewFollower (arc_value publisher.now.board)) (followers_in followers.new) }
{
    match follower_of(publisher, followers) {
        Some(follower) => follower,
        None => panic!(rt; "there is a follower"),
    }
}
