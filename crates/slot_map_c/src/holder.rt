//! What C keeps of a map: a pointer, and whether there is one.
ghost use Rattle.std.specs.Prelude.{◌≡◌, Option, Some, None};
ghost use Rattle.slot_map_c.specs.Held.{Kept, raw_kept, box_kept};

use crate::slot_map::SlotMap;
use proof_marks::unreached;
use raw_box::RawBox;
use std::alloc::Global;
use std::marker::Model;
use std::{mem, ptr};

/// What C keeps of a map: its box as a pointer. It is made of zeros, and keeps none then. It is not
/// `Drop`, so that nothing lets one go that keeps a map.
#[repr(C)]
pub struct Holder {
    at: *mut u8,
    is_made: bool,
    pub ghost kept: { Kept },
}

impl Model for Holder {
    ghost use Rattle.slot_map_c.specs.Held.{held};

    ghost also_owns = { λ h. held h.is_made h.at h.kept };
}

impl Holder {
    pub(crate) fn none() -> Holder
        ensures { result.kept ≡ None }
    {
        Holder {
            at: ptr::null_mut(),
            is_made: false,
        }
    }

    fn of_raw(raw: RawBox<SlotMap, Global>) -> Holder
        ensures { result.kept ≡ Some raw.value }
    {
        let RawBox { ptr, alloc } = raw;
        Holder {
            at: ptr.cast::<u8>(),
            is_made: true,
        }
    }

    fn into_raw(self, alloc: Global) -> Option<RawBox<SlotMap, Global>>
        ensures { raw_kept result ≡ self.kept }
    {
        let Holder { at, is_made } = self;
        if is_made {
            Some(RawBox {
                ptr: at.cast::<SlotMap>(),
                alloc,
            })
        } else {
            None
        }
    }

    pub(crate) fn of(map: Box<SlotMap>) -> Holder
        ensures { result.kept ≡ Some map.value }
    {
        Holder::of_raw(RawBox::of(map))
    }

    pub(crate) fn take(&mut self, alloc: Global) -> Option<Box<SlotMap>>
        ensures gone { self.new.kept ≡ None }
        ensures kept { box_kept result ≡ self.old.kept }
    {
        let held = mem::replace(self, Holder::none());
        match held.into_raw(alloc) {
            Some(raw) => Some(raw.into_box()),
            None => None,
        }
    }

    // Keeps a map, where it kept none. What it was then owns nothing, and is let go with no test.
    pub(crate) fn put(&mut self, alloc: Global, map: Box<SlotMap>)
        requires { self.old.kept ≡ None }
        ensures { self.new.kept ≡ Some map.value }
    {
        let none = mem::replace(self, Holder::of(map));
        match none.into_raw(alloc) {
            Some(_) => unreached!(),
            None => {}
        }
    }
}
