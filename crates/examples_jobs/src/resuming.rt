//! A job is run again after its device has failed.

use job_core::{Command, Device, FontFile, Fuse, Job, JobRun, Rest, finish_rest, run_commands};
use std::alloc::Global;

/// Runs commands again on a device that took the bytes `sent` of their file before it failed. Returns whether the end succeeded, and the device.
fn resume<D: Device>(
    alloc: Global,
    commands: &[Command],
    files: &[FontFile],
    device: D,
    sent: Vec<u8>,
) -> (bool, D) {
    if device.failures() == u64::MAX {
        return (false, device); // it cannot count one more failure
    }
    let mut job = match Job::new(alloc, Rest::new(device, sent), files) {
        Ok(job) => job,
        Err(rest) => return (false, rest.into_device()), // out of memory
    };
    let mut replies = Vec::new(alloc);
    if job.run(commands, &mut replies).is_err() {
        return (false, job.into_device().into_device()); // out of memory
    }
    let (end, device) = finish_rest(job);
    (end.is_ok(), device)
}

/// Runs commands on a device that takes at most 512 bytes a call and fails at one call, and again if it failed.
pub fn complete_file(alloc: Global, commands: &[Command], fails_at: u64) -> Option<(bool, Fuse)> {
    let run = run_commands(alloc, Fuse::new(alloc, 512, fails_at), &[], commands).ok()?;
    let JobRun { end, device, .. } = run;
    if end.is_ok() {
        return Some((true, device));
    }
    let sent = Vec::from_slice(alloc, device.bytes()).ok()?; // a beginning of the file
    Some(resume(alloc, commands, &[], device, sent))
}
