//! A handle: a pointer whose type names no other type, so that it may go to C, and the place behind it.
ghost use Rattle.std.specs.Prelude.{◌≡◌, None, Option, Some};
ghost use Rattle.racl_c.specs.declared.handle.Place.{Place};
ghost use Rattle.racl_c.specs.Handles.{HasPlace, content_in, handle_owns};

use crate::box_raw_parts::Parts;
use crate::content_calls::Content;
use std::alloc::Global;
use std::marker::Model;
use std::mem;
use std::ptr::null_mut;

/// What is behind a handle.
#[derive(Drop)]
pub struct Place {
    pub content: Content,
}

impl Place {
    /// A place with nothing at it. `None`: memory was refused.
    pub(crate) fn empty(alloc: Global) -> Option<Box<Place, Global>> {
        let content = Content::Empty;
        match Box::new(alloc, Place { content }) {
            Ok(place) => Some(place),
            Err(_) => None,
        }
    }
}

/// A handle. Null: nothing is behind it.
#[repr(C)]
#[derive(Drop)]
pub struct Handle {
    at: *mut u8,
    alloc: Global,
    pub ghost place: { Option Place },
}

impl Model for Handle {
    ghost also_owns = { λ h. handle_owns h.alloc h.at h.place };
}

impl Handle {
    // A handle with nothing behind it.
    fn empty(alloc: Global) -> Handle
        ensures { result.place ≡ None }
    {
        Handle {
            at: null_mut(),
            alloc,
        }
    }

    fn of_parts(parts: Parts<Place, Global>) -> Handle
        ensures { result.place ≡ Some parts.value }
    {
        let Parts { ptr, alloc } = parts;
        Handle {
            at: ptr as *mut u8,
            alloc,
        }
    }

    fn into_parts(self) -> Parts<Place, Global>
        requires { (p : Place) × (self.place ≡ Some p) }
        ensures { Some result.value ≡ self.place }
    {
        let Handle { at, alloc } = self;
        Parts {
            ptr: at as *mut Place,
            alloc,
        }
    }

    /// Takes the place, and leaves a handle with nothing behind it.
    #[inline(always)]
    pub(crate) fn take(&mut self, alloc: Global) -> Box<Place, Global>
        requires full { HasPlace self.old.place }
        ensures taken { content_in self.old.place ≡ result.value.content }
        ensures empty { self.new.place ≡ None }
    {
        let full = mem::replace(self, Handle::empty(alloc));
        full.into_parts().into_box()
    }

    /// Puts a place behind the handle. What was behind it is let go of.
    #[inline(always)]
    pub(crate) fn put(&mut self, place: Box<Place, Global>)
        ensures { content_in self.new.place ≡ place.value.content }
    {
        *self = Handle::of_parts(Parts::of(place));
    }
}

unsafe impl Send for Handle {}

/// A handle of the sessions that a closed table had. C has a type of its own for it.
pub type SessionsHandle = Handle;

/// A handle of counts by rule, which has a type of its own in C too.
pub type RuleCountsHandle = Handle;

// Takes only what is Send, so that its calls on handles prove that they are.
fn cross<T: Send>(value: T) -> T
    ensures { result ≡ value }
{
    value
}

/// A handle may go to another thread.
pub fn handle_crosses(handle: Handle) -> Handle
    ensures { result ≡ handle }
{
    cross(handle)
}
