//! The shard of a name, for C.
ghost use Rattle.store_c.specs.Shards.{IsShardCall};

use crate::answers::name_of;
use crate::status::{BAD_ARGUMENT, BAD_NAME, DONE};
use one_map::find_shard;

/// The greatest number of shards.
const MOST_SHARDS: u32 = 64;

/// Writes the shard of a name among so many, and returns the status.
pub(crate) fn shard_of_name(name: &[u8], shards: u32, shard: &mut u32) -> u32
    ensures { IsShardCall name.now shards result shard.old shard.new }
{
    let Some(name) = name_of(name) else {
        return BAD_NAME;
    };
    if shards < 1 || MOST_SHARDS < shards {
        return BAD_ARGUMENT;
    }
    *shard = find_shard(&name, shards as usize) as u32;
    DONE
}
