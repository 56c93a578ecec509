//! The handle by which C keeps a job.

ghost use Rattle.std.specs.Prelude.{◌≡◌, Option, Some, None, IfSome};
ghost use Rattle.std.specs.Coded.{coded_option};
ghost use Rattle.boxglue_calls.specs.Jobs.{KeptState};
ghost use Rattle.boxglue_calls.specs.Private.KeptCode.{coded_kept};

use crate::jobs::kept_job::KeptJob;
use crate::jobs::raw_box::RawBox;
use std::alloc::Global;
use std::marker::Model;
use std::{mem, ptr};

/// What C keeps: null, or the place of a job. C begins with null, and does not touch it.
#[repr(C)]
pub struct JobHandle {
    at: *mut u8,
    pub ghost value: { Option KeptState } by { coded_option coded_kept },
}

impl Model for JobHandle {
    ghost use Rattle.boxglue_calls.specs.Private.Owned.{owned_by_handle};
    ghost use Rattle.boxglue_calls.specs.contracts.jobs.kept_job.KeptJob.{the_row};

    ghost also_owns = { λ h. owned_by_handle the_row h.at h.value };
}

// A job holds plain data and blocks of the heap, which any thread may give back.
unsafe impl Send for JobHandle {}

impl JobHandle {
    ghost use Rattle.std.specs.Prelude.{◌≡◌, Option, Some, None, IfSome};

    /// A handle without a job.
    pub fn null() -> JobHandle
        ensures { result.value ≡ None }
    {
        JobHandle {
            at: ptr::null_mut(),
        }
    }

    /// Gives all memory of the job back, if there is one.
    pub fn release(self, alloc: Global) {
        let _kept = self.into_box(alloc);
    }

    /// Keeps the place of a box.
    fn of_raw(raw: RawBox<KeptJob, Global>) -> JobHandle
        ensures { result.value ≡ Some raw.value }
    {
        let RawBox { at, alloc: _alloc } = raw;
        JobHandle { at: at as *mut u8 }
    }

    /// The place of the job, if there is one.
    fn into_raw(self, alloc: Global) -> Option<RawBox<KeptJob, Global>>
        ensures value_returned { IfSome result (λ raw. self.value ≡ Some raw.value) }
        ensures none { result ≡ None → self.value ≡ None }
    {
        let JobHandle { at } = self;
        if at == ptr::null_mut() {
            return None;
        }
        Some(RawBox {
            at: at as *mut KeptJob,
            alloc,
        })
    }

    /// The job, if there is one.
    fn into_box(self, alloc: Global) -> Option<Box<KeptJob>>
        ensures value_returned { IfSome result (λ kept. self.value ≡ Some kept.value) }
        ensures none { result ≡ None → self.value ≡ None }
    {
        match self.into_raw(alloc) {
            Some(raw) => Some(raw.into_box()),
            None => None,
        }
    }
}

/// Takes the job out of a handle, which is null then.
pub(crate) fn take(alloc: Global, handle: &mut JobHandle) -> Option<Box<KeptJob>>
    ensures null { handle.new.value ≡ None }
    ensures value_returned { IfSome result (λ kept. handle.old.value ≡ Some kept.value) }
    ensures none { result ≡ None → handle.old.value ≡ None }
{
    mem::replace(handle, JobHandle::null()).into_box(alloc)
}

/// Puts a job into a handle that is null.
pub(crate) fn put(alloc: Global, handle: &mut JobHandle, value: Box<KeptJob>)
    requires { handle.old.value ≡ None }
    ensures { handle.new.value ≡ Some value.value }
{
    let before = mem::replace(handle, JobHandle::of_raw(RawBox::of(value)));
    if before.into_box(alloc).is_some() {
        unreachable!()
    }
}
