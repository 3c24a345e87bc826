//! What C calls on the keys and buckets of a table: one try each.
ghost use Rattle.std.specs.Prelude.{◌≢◌, ◌≡◌, ◌<◌, ◌^◌};
ghost use Rattle.bihash_words.specs.Patches.{free_mark, set_if_absent, set_if_present};
ghost use Rattle.bihash_words.specs.declared.patch.Change.TheVariants.{Remove, Set};
ghost use Rattle.bihash_c.specs.AnyContents.{Calls, HasCaller};
ghost use Rattle.bihash_c.specs.Contents.{ExpireTold, RecycleTold, SearchTold, UpdateTold};
ghost use Rattle.bihash_c.specs.Expiries.{is_below};
ghost use Rattle.bihash_c.specs.Handles.{content_in};
ghost use Rattle.bihash_c.specs.Kinds.{shape_of, sizes_in, words_in};
ghost use Rattle.bihash_c.specs.Replacements.{set_if_is};

use crate::answer_numbers::Answer;
use crate::handle::Handle;
use crate::pair::Key;
use crate::replace_if::ReplaceIf;
use bihash_words::{Add, AddIfAbsent, Delete, Expiry, Patch, Touch};
use std::alloc::Global;

/// Those values whose bits that `mask` has are, as a number, below `least`.
#[repr(C)]
#[derive(Clone, Copy)]
pub struct MaskExpiry {
    pub mask: u64,
    pub least: u64,
}

impl Expiry for MaskExpiry {
    ghost is_expired = { λ expiry value. is_below expiry.mask expiry.least value };

    fn expired(&self, value: u64) -> bool
        ensures told { result ≡ is_below self.now.mask self.now.least value }
        ensures word { value < 2 ^ 64 }
    {
        value & self.mask < self.least
    }
}

/// The value of the key.
#[unsafe(no_mangle)]
pub extern "C" fn bihash_search(alloc: Global, handle: &mut Handle, key: &Key) -> Answer
    requires { HasCaller (content_in handle.old.place) }
    ensures { Calls (content_in handle.old.place) (content_in handle.new.place)
        (λ kind. SearchTold (shape_of kind) (words_in kind key.now) result) }
{
    let mut place = handle.take(alloc);
    let answer = place.as_mut().content.search(key);
    handle.put(place);
    answer
}

/// Sets the value, whatever was found.
#[unsafe(no_mangle)]
pub extern "C" fn bihash_add(alloc: Global, handle: &mut Handle, key: &Key, value: u64) -> Answer
    requires full { HasCaller (content_in handle.old.place) }
    requires storable { value ≢ free_mark }
    ensures { Calls (content_in handle.old.place) (content_in handle.new.place)
        (λ kind. UpdateTold (shape_of kind) (words_in kind key.now) (λ _. Set value) result) }
{
    update(alloc, handle, key, &Add { value })
}

/// Sets the value where there is none.
#[unsafe(no_mangle)]
pub extern "C" fn bihash_add_if_absent(
    alloc: Global,
    handle: &mut Handle,
    key: &Key,
    value: u64,
) -> Answer
    requires full { HasCaller (content_in handle.old.place) }
    requires storable { value ≢ free_mark }
    ensures { Calls (content_in handle.old.place) (content_in handle.new.place)
        (λ kind. UpdateTold (shape_of kind) (words_in kind key.now) (set_if_absent value) result) }
{
    update(alloc, handle, key, &AddIfAbsent { value })
}

/// Sets the value where there is one.
#[unsafe(no_mangle)]
pub extern "C" fn bihash_touch(alloc: Global, handle: &mut Handle, key: &Key, value: u64) -> Answer
    requires full { HasCaller (content_in handle.old.place) }
    requires storable { value ≢ free_mark }
    ensures { Calls (content_in handle.old.place) (content_in handle.new.place)
        (λ kind. UpdateTold (shape_of kind) (words_in kind key.now) (set_if_present value) result) }
{
    update(alloc, handle, key, &Touch { value })
}

/// Sets the value where there is still the one that was found before.
#[unsafe(no_mangle)]
pub extern "C" fn bihash_replace_if(
    alloc: Global,
    handle: &mut Handle,
    key: &Key,
    was: u64,
    value: u64,
) -> Answer
    requires full { HasCaller (content_in handle.old.place) }
    requires storable { value ≢ free_mark }
    ensures { Calls (content_in handle.old.place) (content_in handle.new.place)
        (λ kind. UpdateTold (shape_of kind) (words_in kind key.now) (set_if_is was value) result) }
{
    update(alloc, handle, key, &ReplaceIf { was, value })
}

/// Removes the value.
#[unsafe(no_mangle)]
pub extern "C" fn bihash_remove(alloc: Global, handle: &mut Handle, key: &Key) -> Answer
    requires { HasCaller (content_in handle.old.place) }
    ensures { Calls (content_in handle.old.place) (content_in handle.new.place)
        (λ kind. UpdateTold (shape_of kind) (words_in kind key.now) (λ _. Remove) result) }
{
    update(alloc, handle, key, &Delete)
}

/// Sets the value, whatever was found. In a full bucket it takes the place of an expired pair.
#[unsafe(no_mangle)]
pub extern "C" fn bihash_add_or_recycle(
    alloc: Global,
    handle: &mut Handle,
    key: &Key,
    value: u64,
    expiry: &MaskExpiry,
) -> Answer
    requires full { HasCaller (content_in handle.old.place) }
    requires storable { value ≢ free_mark }
    ensures { Calls (content_in handle.old.place) (content_in handle.new.place)
        (λ kind. RecycleTold (shape_of kind) (words_in kind key.now) (λ _. Set value) (is_below expiry.now.mask expiry.now.least) result) }
{
    recycle(alloc, handle, key, &Add { value }, expiry)
}

/// Sets the value where there is none. In a full bucket it takes the place of an expired pair.
#[unsafe(no_mangle)]
pub extern "C" fn bihash_add_if_absent_or_recycle(
    alloc: Global,
    handle: &mut Handle,
    key: &Key,
    value: u64,
    expiry: &MaskExpiry,
) -> Answer
    requires full { HasCaller (content_in handle.old.place) }
    requires storable { value ≢ free_mark }
    ensures { Calls (content_in handle.old.place) (content_in handle.new.place)
        (λ kind. RecycleTold (shape_of kind) (words_in kind key.now) (set_if_absent value) (is_below expiry.now.mask expiry.now.least) result) }
{
    recycle(alloc, handle, key, &AddIfAbsent { value }, expiry)
}

/// Looks at a bucket, and takes away one pair there whose value is expired.
#[unsafe(no_mangle)]
pub extern "C" fn bihash_expire(
    alloc: Global,
    handle: &mut Handle,
    bucket: u64,
    expiry: &MaskExpiry,
) -> Answer
    requires { HasCaller (content_in handle.old.place) }
    ensures { Calls (content_in handle.old.place) (content_in handle.new.place)
        (λ kind. ExpireTold (sizes_in kind) bucket (is_below expiry.now.mask expiry.now.least) result) }
{
    let mut place = handle.take(alloc);
    let answer = place.as_mut().content.expire(bucket, expiry);
    handle.put(place);
    answer
}

// One try of an update.
#[inline(always)]
fn update<P: Patch>(alloc: Global, handle: &mut Handle, key: &Key, patch: &P) -> Answer
    requires { HasCaller (content_in handle.old.place) }
    ensures { Calls (content_in handle.old.place) (content_in handle.new.place)
        (λ kind. UpdateTold (shape_of kind) (words_in kind key.now) (P.decision patch.now) result) }
{
    let mut place = handle.take(alloc);
    let answer = place.as_mut().content.update(key, patch);
    handle.put(place);
    answer
}

// One try of an update with an expiry.
#[inline(always)]
fn recycle<P: Patch>(
    alloc: Global,
    handle: &mut Handle,
    key: &Key,
    patch: &P,
    expiry: &MaskExpiry,
) -> Answer
    requires { HasCaller (content_in handle.old.place) }
    ensures { Calls (content_in handle.old.place) (content_in handle.new.place)
        (λ kind. RecycleTold (shape_of kind) (words_in kind key.now) (P.decision patch.now) (is_below expiry.now.mask expiry.now.least) result) }
{
    let mut place = handle.take(alloc);
    let answer = place.as_mut().content.add_or_recycle(key, patch, expiry);
    handle.put(place);
    answer
}
