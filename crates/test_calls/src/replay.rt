//! Cases of calls. A `pool` case makes a pool, which later cases of its file name by its `id`; what
//! they ask has a `type` of it.
//!
//! `op` names what the calls are made of, `calls` has them, and each has under `is` what it
//! answers. Bytes are hex text.

use crate::pools::PoolCase;
use crate::starts::start;
use reflect_link::{DescriptorPool, PoolReaders};
use serde_json::Value as Json;
use std::alloc::{AllocError, Global};
use std::collections::BTreeMap;
use test_json::Text;
use test_json::members::{items, number, text};
use test_messages::{replay_message, replay_values};
use test_values::{TypeCase, replay_calls, replay_key, replay_value};

/// The pools that cases make for later ones.
pub struct Replay {
    alloc: Global,
    pools: BTreeMap<u64, PoolCase>,
}

impl Drop for Replay {
    fn drop(self) {
        let Replay { alloc: _, pools: _ } = self;
    }
}

impl Replay {
    pub fn new(alloc: Global) -> Replay {
        Replay {
            alloc,
            pools: BTreeMap::new(alloc),
        }
    }

    /// What is wrong with a case, empty where it holds.
    pub fn difference(&mut self, case: &Json) -> Result<String, AllocError> {
        let mut difference = Text::new(self.alloc);
        if text(case, "op") == "pool" {
            self.keep_pool(case, &mut difference);
        } else {
            match self.pools.get(&number(case, "pool")) {
                Some(kept) => replay_of(self.alloc, &kept.pool, case, &mut difference),
                None => difference.push_str("no such pool "),
            }
        }
        difference.into_string()
    }

    /// Makes the pool of a case, and the calls of it, and keeps it.
    fn keep_pool(&mut self, case: &Json, difference: &mut Text) {
        let mut kept = PoolCase::new(self.alloc);
        replay_pool(self.alloc, &mut kept, case, difference);
        if self.pools.insert(number(case, "id"), kept).is_err() {
            difference.give_up();
        }
    }
}

/// Makes an empty pool that of a case, and the calls of it.
fn replay_pool(alloc: Global, kept: &mut PoolCase, case: &Json, difference: &mut Text) {
    match start(alloc, &mut kept.pool, case) {
        Ok(true) => replay_calls(alloc, kept, case, difference),
        Ok(false) => difference.push_str("no pool "),
        Err(_) => difference.give_up(),
    }
}

/// Makes the calls of a case that a pool has been made for.
fn replay_of(alloc: Global, pool: &DescriptorPool, case: &Json, difference: &mut Text) {
    let Some(descriptor) = pool.get_message_by_name(text(case, "type")) else {
        return difference.push_str("no type ");
    };
    let op = text(case, "op");
    if op != "values" && items(case, "calls").is_empty() {
        return difference.push_str("no calls ");
    }
    match op {
        "type" => replay_calls(alloc, &mut TypeCase { descriptor }, case, difference),
        "message" => replay_message(alloc, descriptor, case, difference),
        "value" => replay_value(alloc, descriptor, case, difference),
        "values" => replay_values(alloc, pool, case, difference),
        "key" => replay_key(alloc, descriptor, case, difference),
        _ => difference.push_str("no such cases "),
    }
}
