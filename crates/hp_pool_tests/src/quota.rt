//! A running pool with a quota.
ghost use Rattle.std.specs.Prelude.{◌≡◌};

use hp_base::{Answer, Config, File, Index, Op};
use hp_shared::{Open, Reply, Shared, call};
use std::alloc::Global;
use std::marker::Brand;
use std::sync::Wait;
use std::sync::ledger::{Blank, Ledger};
use std::test::Fail;

// A map of two pages of the pool, and the quota that the pool has at its end.
fn a_map_of_two<L: Ledger + Send + Sync, R: Wait>(
    rt: &R,
    alloc: Global,
    blank: Blank,
    config: Config,
) -> Result<(Reply, Option<u32>), Fail>
    requires name { blank.name ≡ L.name }
    requires parts { (blank.parts ≡ L.parts) × (blank.parts ≡ config.tasks) }
{
    let (shared, mut seats) = Shared::<L>::new(alloc, blank, config)?;
    let first = seats.first_mut().ok_or("a seat")?;
    let map = Op::Map {
        file: File::new(0),
        from: Index::new(0),
        len: 2,
    };
    let reply = call(&shared, rt, first, map, &Open)?;
    match shared.close(alloc, seats) {
        Ok(closed) => Ok((reply, closed.core.config().quota)),
        Err(_) => Err("the histories agree".into()),
    }
}

#[test]
fn a_running_pool_keeps_its_quota(rt: HostRuntime) -> Result<(), Fail> {
    let config = Config::new(4, 1, 4, 1)?.with_quota(1)?;
    let (reply, quota) = a_map_of_two::<Brand, _>(&rt, rt.alloc(), Blank::new(1), config)?;
    assert_eq!(rt; reply, Reply::Ended(Answer::NoQuota));
    assert_eq!(rt; quota, Some(1));
    Ok(())
}
