//! A page is made by a job.

use job_core::{Answer, BoxForm, Command, Job, Memory, Opening, Refusal, Register, Target};
use node_core::{Rule, RuleSize};
use scaled_core::Dimen;
use std::alloc::Global;

/// Opens a list whose box goes into the first register: an hbox of its natural width.
pub fn hbox() -> Command {
    Command::Open(Opening {
        form: BoxForm::Hbox, // or Vbox, Vtop
        target: Target::Natural, // or To(size), Spread(more)
        into: Some(Register::FIRST), // or None: its box goes to the enclosing list
    })
}

/// Ships a page with one rule as wide and high as a point, and returns the answer to the command that packed its box.
fn ship_rule(job: &mut Job<Memory>, point: Dimen) -> Result<Answer, Refusal> {
    let rule = Rule {
        width: RuleSize::Fixed(point),
        height: RuleSize::Fixed(point),
        depth: RuleSize::Fixed(Dimen::ZERO),
    };
    job.step(&hbox())?; // an Err is a refusal, which changes nothing
    job.step(&Command::Rule(rule))?;
    let packed = job.step(&Command::End)?; // Answer::Packed(sizes, badness)
    job.step(&Command::Ship(Register::FIRST))?; // Answer::Shipped(1): the page was sent to the device
    Ok(packed)
}

/// The DVI file of this page, and the answer to the command that packed its box.
pub fn one_rule_page(alloc: Global, point: Dimen) -> Result<(Memory, Answer), Refusal> {
    let Ok(mut job) = Job::new(alloc, Memory::new(alloc), &[]) else {
        return Err(Refusal::OutOfMemory); // the Err has the device
    };
    let packed = ship_rule(&mut job, point)?;
    job.finish()?; // sends the end of the file
    Ok((job.into_device(), packed)) // the bytes() of the device are the file
}
