//! The plans that are kept.

ghost use Rattle.std.specs.Prelude.{◌≡◌, [], ◌∷◌, IfOk, None, OnErr, OnOk, is_some, option_map, option_copied, slice_get, take, if◌then◌else◌};
ghost use Rattle.std.specs.Map.{lookup};
ghost use Rattle.lru.specs.LruCache.{promoted};
ghost use Rattle.shared_plans.specs.Recent.{most_plans, no_plans, one_more_hit, same_key};
ghost use Rattle.shared_plans.specs.View.{key_of};

use crate::key::PlanKey;
use lru::{DefaultHasher, LruCache};
use memory::Heap;
use std::alloc::AllocError;
use std::marker::Model;
use std::num::NonZeroUsize;

/// The most plans that are kept.
const MOST_PLANS: usize = 64;

/// Plans, each a `V`, by their keys, the most recently used first, and how many look-ups found one.
#[derive(Drop)]
pub struct Plans<V, A: Heap> {
    cache: LruCache<PlanKey<A>, V, DefaultHasher, A>,
    hits: u64,
}

impl<V, A: Heap> Model for Plans<V, A> {
    ghost use Rattle.std.specs.Prelude.{◌≡◌, map};
    ghost use Rattle.shared_plans.specs.Recent as spec;

    ghost Value = { spec.Plans V };

    ghost use Rattle.shared_plans.specs.View.{key_of};

    ghost view = { λ p. record { entries = map (λ e. (key_of e.0, e.1)) p.cache.entries; hits = p.hits } };

    ghost invariant = { λ p. p.cache.cap ≡ spec.most_plans };
}

impl<V: Drop, A: Heap> Plans<V, A> {
    /// No plan. It fails where memory runs out.
    pub fn new(alloc: A) -> Result<Plans<V, A>, AllocError>
        ensures { IfOk result (λ plans. plans ≡ no_plans) }
    {
        let most = NonZeroUsize::new(MOST_PLANS).unwrap();
        Ok(Plans {
            cache: LruCache::new(alloc, most)?,
            hits: 0,
        })
    }

    /// How many look-ups found a plan; it stays at the greatest number.
    pub fn hits(&self) -> u64
        ensures { result ≡ self.now.hits }
    {
        self.hits
    }

    /// Looks a key up: whether there is a plan for it, which then is the last used.
    pub fn look_up(&mut self, key: &PlanKey<A>) -> bool
        ensures found { result ≡ is_some (lookup (same_key (key_of key.now)) self.old.entries) }
        ensures entries { self.new.entries ≡ promoted (same_key (key_of key.now)) self.old.entries }
        ensures hits { self.new.hits ≡ (if result then one_more_hit self.old.hits else self.old.hits) }
    {
        if self.cache.promote(key) {
            self.hits = self.hits.saturating_add(1);
            return true;
        }
        false
    }

    /// Keeps a plan for a key that has none, as the last used; the least recently used of 65 is dropped. Where memory runs out, none
    /// is kept and none is dropped.
    pub fn keep(&mut self, key: PlanKey<A>, plan: V) -> Result<(), AllocError>
        requires { lookup (same_key (key_of key)) self.old.entries ≡ None }
        ensures ok { OnOk result (self.new ≡ record self.old { entries = take most_plans ((key_of key, plan) ∷ self.old.entries) }) }
        ensures err { OnErr result (self.new ≡ self.old) }
    {
        self.cache.put(key, plan)?;
        Ok(())
    }

    /// The plan that was last used.
    pub fn last_used(&self) -> Option<&V>
        ensures { option_copied result ≡ option_map (λ e. e.1) (slice_get self.now.entries 0) }
    {
        match self.cache.peek_mru() {
            Some((_, plan)) => Some(plan),
            None => None,
        }
    }
}
