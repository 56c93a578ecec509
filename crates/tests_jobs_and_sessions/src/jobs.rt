//! Jobs on devices.

use job_core::{
    Answer, BoxForm, Command, Device, Fuse, Job, Memory, Opening, Refusal, Register, Reply, Rest,
    Summary, Target, finish_rest,
};
use node_core::{Rule, RuleSize};
use scaled_core::Dimen;
use std::alloc::Global;
use std::process::Abort;

/// The opening of a horizontal list for the first register.
fn hbox() -> Command {
    Command::Open(Opening {
        form: BoxForm::Hbox,
        target: Target::Natural,
        into: Some(Register::FIRST),
    })
}

/// Whether a job accepts a command.
fn is_taken<D: Device>(job: &mut Job<D>, command: &Command) -> bool {
    job.step(command).is_ok()
}

/// Makes a page of a rule 1pt wide and high, and returns the reply to its `ship`.
fn ship_a_rule<D: Device>(job: &mut Job<D>, point: Dimen) -> Option<Reply> {
    let rule = Rule {
        width: RuleSize::Fixed(point),
        height: RuleSize::Fixed(point),
        depth: RuleSize::Fixed(Dimen::ZERO),
    };
    if is_taken(job, &hbox())
        && is_taken(job, &Command::Rule(rule))
        && is_taken(job, &Command::End)
    {
        return Some(job.step(&Command::Ship(Register::FIRST)));
    }
    None
}

/// A job with that page on a device that takes one byte a call and fails at one call: the reply to the page, the end of the job, and the device.
fn end_and_device(alloc: Global, fails_at: u64) -> Option<(Reply, Result<Summary, Refusal>, Fuse)> {
    let point = Dimen::try_new(65_536)?;
    let mut job = Job::new(alloc, Fuse::new(alloc, 1, fails_at), &[]).ok()?;
    let shipped = ship_a_rule(&mut job, point)?;
    let end = job.finish();
    Some((shipped, end, job.into_device()))
}

/// The file of that page: bop at 15, post at 74, seven bytes 223 (by DVItype's table of instructions).
const ONE_RULE_PAGE: [u8; 116] = [
    0xf7, 0x02, 0x01, 0x83, 0x92, 0xc0, 0x1c, 0x3b, 0x00, 0x00, 0x00, 0x00, 0x03, 0xe8, 0x00, 0x8b,
    0x00, 0x00, 0x00, 0x00, 0x00, 0x00, 0x00, 0x00, 0x00, 0x00, 0x00, 0x00, 0x00, 0x00, 0x00, 0x00,
    0x00, 0x00, 0x00, 0x00, 0x00, 0x00, 0x00, 0x00, 0x00, 0x00, 0x00, 0x00, 0x00, 0x00, 0x00, 0x00,
    0x00, 0x00, 0x00, 0x00, 0x00, 0x00, 0x00, 0x00, 0xff, 0xff, 0xff, 0xff, 0x9f, 0x01, 0x00, 0x00,
    0x84, 0x00, 0x01, 0x00, 0x00, 0x00, 0x01, 0x00, 0x00, 0x8c, 0xf8, 0x00, 0x00, 0x00, 0x0f, 0x01,
    0x83, 0x92, 0xc0, 0x1c, 0x3b, 0x00, 0x00, 0x00, 0x00, 0x03, 0xe8, 0x00, 0x01, 0x00, 0x00, 0x00,
    0x01, 0x00, 0x00, 0x00, 0x00, 0x00, 0x01, 0xf9, 0x00, 0x00, 0x00, 0x4a, 0x02, 0xdf, 0xdf, 0xdf,
    0xdf, 0xdf, 0xdf, 0xdf,
];

/// Whether a page and a job on a device that fails at one call end in this way, with this many bytes of the file sent.
fn ends_so(
    alloc: Global,
    fails_at: u64,
    page: &Reply,
    end: &Result<Summary, Refusal>,
    count: usize,
) -> bool {
    match end_and_device(alloc, fails_at) {
        None => false,
        Some((shipped, finished, device)) => {
            shipped == *page
                && finished == *end
                && ONE_RULE_PAGE.get(..count) == Some(device.bytes())
        }
    }
}

#[test]
fn a_device_takes_one_byte_a_call_and_may_fail(rt: HostRuntime) {
    let summary = Summary {
        pages: 1,
        bytes: 116,
    };
    let shipped = Ok(Answer::Shipped(1));
    let lost = Err(Refusal::Device);
    let over = Err(Refusal::JobOver);
    assert!(rt; ends_so(rt.alloc(), 0, &shipped, &Ok(summary), 116));
    assert!(rt; ends_so(rt.alloc(), 75, &shipped, &Err(Refusal::Device), 74));
    assert!(rt; ends_so(rt.alloc(), 74, &lost, &over, 73));
}

/// The same job again over the rest of its file, on the device that took the first of its bytes: its end, and the device.
fn run_again(
    alloc: Global,
    device: Fuse,
    sent: &[u8],
) -> Option<(Reply, Result<Summary, Refusal>, Fuse)> {
    let point = Dimen::try_new(65_536)?;
    if device.failures() == u64::MAX {
        return None;
    }
    let rest = Rest::new(device, Vec::from_slice(alloc, sent).ok()?);
    let mut job = Job::new(alloc, rest, &[]).ok()?;
    let shipped = ship_a_rule(&mut job, point)?;
    let (end, device) = finish_rest(job);
    Some((shipped, end, device))
}

#[test]
fn a_job_is_resumed_after_each_failure(rt: HostRuntime) {
    let alloc = rt.alloc();
    let summary = Summary {
        pages: 1,
        bytes: 116,
    };
    for fails_at in [1, 2, 15, 16, 73, 74, 75, 115, 116] {
        let (_, _, device) = end_and_device(alloc, fails_at).expect(&rt, "it runs");
        let sent = Vec::from_slice(alloc, device.bytes()).expect(&rt, "there is memory");
        let (page, end, device) = run_again(alloc, device, &sent).expect(&rt, "it runs again");
        assert_eq!(rt; page, Ok(Answer::Shipped(1)));
        assert_eq!(rt; end, Ok(summary));
        assert_eq!(rt; device.bytes(), ONE_RULE_PAGE.as_slice());
    }
}

#[test]
fn a_job_is_not_resumed_after_other_bytes(rt: HostRuntime) {
    let alloc = rt.alloc();
    let (_, _, device) = end_and_device(alloc, 74).expect(&rt, "it runs");
    let mut sent = Vec::from_slice(alloc, device.bytes()).expect(&rt, "there is memory");
    *sent.get_mut(72).expect(&rt, "73 bytes were sent") = 1;
    let (page, end, device) = run_again(alloc, device, &sent).expect(&rt, "it runs again");
    assert_eq!(rt; page, Err(Refusal::Device));
    assert_eq!(rt; end, Err(Refusal::JobOver));
    assert_eq!(rt; device.bytes().len(), 73);
}

#[test]
fn a_memory_takes_all_that_there_is_space_for(rt: HostRuntime) {
    let mut memory = Memory::new(rt.alloc());
    let piece = [7; 1_000];
    for _ in 0..100 {
        assert!(rt; memory.failures() == 0);
        assert_eq!(rt; memory.write(&piece), Ok(1_000));
    }
    assert_eq!(rt; memory.bytes().len(), 100_000);
    assert_eq!(rt; memory.failures(), 0);
}
