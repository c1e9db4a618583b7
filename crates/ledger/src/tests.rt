ghost use Rattle.std.specs.Prelude.{◌≡◌};

use crate::{Follower, Keeper, Lawful, Ledger, Setup};
use std::marker::Brand;
use std::test::Fail;

struct Tick;

impl Lawful for Tick {
    ghost legal = { λ setup k acts. Unit {0} };
}

/// Records nothing, so many times.
fn record_often(
    ledger: &Ledger<Tick>,
    follower: &mut Follower<Tick>,
    keeper: &mut Keeper<Tick>,
    times: u64,
)
    requires { (follower.old.ledger ≡ ledger.now) × (keeper.old.ledger ≡ ledger.now.table) }
{
    for _ in 0..times {
        follower.record::<Brand>(ledger, keeper);
    }
}

#[test]
fn a_keeper_records(rt: HostRuntime) -> Result<(), Fail> {
    let alloc = rt.alloc();
    let setup = Setup { count: 1, about: 0 };
    let (ledger, mut follower, mut keepers) = Ledger::<Tick>::open(alloc, setup)?;
    let Some(mut keeper) = keepers.pop() else {
        return Ok(());
    };
    record_often(&ledger, &mut follower, &mut keeper, 1000);
    Ok(())
}
