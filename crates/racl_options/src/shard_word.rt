//! The word that asks for a shard of a capture.
ghost use Rattle.std.specs.Prelude.{ℕ, IfNone, IfSome, MatchResult, option_map};
ghost use Rattle.racl_options.specs.Behind.{text_behind};
ghost use Rattle.racl_options.specs.ShardWords.{AskForShard, IsShardWord, shard_facts};
ghost use Rattle.racl_options.specs.inner.Naming.{IsRefused};

use crate::named_files::Refusal;
use crate::settings::ShardAsked;
use acl_policy::{cut_at, number_of};

/// How many shards there are at most.
const MOST_SHARDS: u32 = 1024;

const NO_SHARD: &str = "--shard takes K/N, decimal numbers with K from 1 to N, and N at most 1024";

// The shard that a word `K/N` asks for. `None`: the word isn't two decimal numbers so, 1 <= K <= N <= 1024.
fn shard_named(word: &str) -> Option<ShardAsked>
    ensures some { IfSome result (λ asked. IsShardWord word.now asked.number asked.count) }
    ensures none { IfNone result ((number count : ℕ) → IsShardWord word.now number count → ⊥) }
{
    let Some((number, count)) = cut_at(word.as_bytes(), b'/') else {
        return None;
    };
    let Some(number) = number_of(number) else {
        return None;
    };
    let Some(count) = number_of(count) else {
        return None;
    };
    if number < 1 {
        return None;
    }
    if count < number {
        return None;
    }
    if MOST_SHARDS < count {
        return None;
    }
    Some(ShardAsked {
        number: u64::from(number),
        count: u64::from(count),
    })
}

/// The shard that the value of `--shard` asks for, where there is one.
pub fn shard_asked(value: Option<&str>) -> Result<Option<ShardAsked>, Refusal>
    ensures { let Asks = AskForShard (text_behind value.entry) in MatchResult result (λ shard. Asks (option_map shard_facts shard)) (IsRefused Asks) }
{
    match value {
        None => Ok(None),
        Some(word) => match shard_named(word) {
            Some(shard) => Ok(Some(shard)),
            None => Err(Refusal::Mistake(NO_SHARD)),
        },
    }
}
