// What a record that is all there turns out to be.
ghost use Rattle.std.specs.Prelude.{◌≡◌, ◌^◌, ◌<◌, List, ℕ, length, take, drop};
ghost use Rattle.superblock_core.specs.Superblock.{u32_at};
ghost use Rattle.log_model.specs.LogScan.{whole_item};
ghost use Rattle.meta_log.specs.Reader.{IsPlaced, IsRecordOf, first_of};

use crate::item::{Found, LogEnd};
use crate::record::record_sum;
use record_model::Payload;

/// What a record at a block is that states this length and this checksum, and has this payload in so many blocks.
pub(crate) fn judged(block: u32, len: u32, count: u32, stored: u32, payload: Payload) -> Found
    requires { length payload ≡ len }
    ensures first { (bytes : List ℕ) → payload ≡ take len (drop 8 bytes) → stored ≡ u32_at 0 bytes → whole_item count len bytes ≡ first_of result }
    ensures placed { IsPlaced block result }
    ensures counted { IsRecordOf len count result }
{
    let computed = record_sum(payload.items());
    if len == 0 || stored != computed {
        return Found::End(LogEnd::Bad {
            block,
            len,
            stored,
            computed,
        });
    }
    Found::Record {
        count,
        bytes: payload,
    }
}
