//! Files of many pages, by the writer alone and by a job.

ghost use Rattle.std.specs.Prelude.{IfOk, None};
ghost use Rattle.tfm_core.specs.Slots.{Slots};
ghost use Rattle.dvi_write.specs.Shippable.{IsShippable};

use dvi_write::{DviWriter, Fonts, Memory, Offsets, WriteFault};
use job_core::{
    Answer, BoxForm, Command, Device, DeviceFault, Job, Opening, Refusal, Register, Reply, Summary,
    Target, Transfer, Unboxing,
};
use node_core::{BoxNode, Kind, Node, NodeList, Rule, RuleSize, Setting};
use scaled_core::Dimen;
use std::alloc::Global;
use std::process::Abort;
use std::test::Fail;

/// A horizontal box of a rule 1pt wide and high.
fn box_of_a_rule(alloc: Global) -> Result<BoxNode, Fail>
    ensures { IfOk result (λ box_node. (fonts : Slots) → IsShippable fonts box_node) }
{
    let rule = Node::Rule(Rule {
        width: RuleSize::Fixed(Dimen::points(1)),
        height: RuleSize::Fixed(Dimen::points(1)),
        depth: RuleSize::Fixed(Dimen::ZERO),
    });
    Ok(BoxNode {
        kind: Kind::Horizontal,
        width: Dimen::points(1),
        height: Dimen::points(1),
        depth: Dimen::ZERO,
        setting: Setting::Natural,
        list: NodeList::from_vec(Vec::from_array(alloc, [rule])?),
    })
}

/// The bytes in memory after this many pages of that box, and after the end of the file if it is ended.
fn write_pages(
    alloc: Global,
    pages: usize,
    offsets: Offsets,
    ends: bool,
) -> Result<(Memory, Option<Summary>), Fail> {
    let box_node = box_of_a_rule(alloc)?;
    let fonts = Fonts::new(alloc)?;
    let mut writer = DviWriter::new(Memory::new(alloc));
    for _ in 0..pages {
        writer.page(alloc, &box_node, offsets, &[0; 10], &fonts)?;
    }
    let file = if ends {
        Some(writer.finish(alloc, &fonts)?)
    } else {
        None
    };
    Ok((writer.into_device(), file))
}

/// The offsets of this many points to the right and down.
fn offsets(right: u8, down: u8) -> Offsets {
    Offsets {
        h: Dimen::points(right),
        v: Dimen::points(down),
    }
}

#[test]
fn two_pages_point_back(rt: HostRuntime) -> Result<(), Fail> {
    let alloc = rt.alloc();
    let (one, _) = write_pages(alloc, 1, offsets(0, 0), false)?;
    assert_eq!(rt; one.bytes().len(), 74);
    let (two, _) = write_pages(alloc, 2, offsets(0, 0), false)?;
    assert_eq!(rt; two.bytes().len(), 133);
    let (whole, file) = write_pages(alloc, 2, offsets(0, 0), true)?;
    let bytes = whole.bytes();
    assert_eq!(rt;
        file,
        Some(Summary {
            pages: 2,
            bytes: 172
        })
    );
    assert_eq!(rt; bytes.len(), 172);
    assert!(rt; bytes.get(15) == Some(&139) && bytes.get(74) == Some(&139));
    assert!(rt; bytes.get(115..119) == Some(&[0, 0, 0, 15]));
    assert!(rt; bytes.get(133..138) == Some(&[248, 0, 0, 0, 74]));
    assert!(rt; bytes.get(160..168) == Some(&[0, 2, 249, 0, 0, 0, 133, 2]));
    assert!(rt; bytes.get(168..) == Some(&[223; 4]));
    Ok(())
}

#[test]
fn no_pages_and_a_page_after_the_end(rt: HostRuntime) -> Result<(), Fail> {
    let alloc = rt.alloc();
    let (nothing, file) = write_pages(alloc, 0, offsets(0, 0), true)?;
    assert!(rt; nothing.bytes().is_empty());
    assert_eq!(rt; file, Some(Summary { pages: 0, bytes: 0 }));
    let box_node = box_of_a_rule(alloc)?;
    let fonts = Fonts::new(alloc)?;
    let mut writer = DviWriter::new(Memory::new(alloc));
    writer.finish(alloc, &fonts)?;
    let late = writer.page(alloc, &box_node, offsets(0, 0), &[0; 10], &fonts);
    assert_eq!(rt; late, Err(WriteFault::JobOver));
    Ok(())
}

/// A device that counts the bytes that it takes, and keeps none.
#[derive(Drop)]
struct Tally {
    taken: u64,
}

impl Device for Tally {
    ghost bytes_written = { λ tally. None };

    ghost failed = { λ tally. 0 };

    fn write(&mut self, piece: &[u8]) -> Result<usize, DeviceFault> {
        self.taken = self.taken.saturating_add(piece.len() as u64);
        Ok(piece.len())
    }

    fn failures(&self) -> u64 {
        0
    }
}

/// The opening of a horizontal list for a register.
fn hbox_into(register: Register) -> Command {
    Command::Open(Opening {
        form: BoxForm::Hbox,
        target: Target::Natural,
        into: Some(register),
    })
}

/// Whether a job accepts a command.
fn is_taken(job: &mut Job<Tally>, command: &Command) -> bool {
    job.step(command).is_ok()
}

/// Makes a page of an empty box, and returns the reply to its `ship`.
fn ship_an_empty_box(job: &mut Job<Tally>, page: Register) -> Option<Reply> {
    if is_taken(job, &hbox_into(page)) && is_taken(job, &Command::End) {
        return Some(job.step(&Command::Ship(page)));
    }
    None
}

/// Makes a page of a copy of the items of the box in the first register, and returns the reply to its `ship`.
fn ship_a_copy(job: &mut Job<Tally>, page: Register) -> Option<Reply> {
    let copy = Command::Unbox(Unboxing {
        kind: Kind::Horizontal,
        register: Register::FIRST,
        taking: Transfer::Copy,
    });
    if is_taken(job, &hbox_into(page)) && is_taken(job, &copy) && is_taken(job, &Command::End) {
        return Some(job.step(&Command::Ship(page)));
    }
    None
}

#[test]
fn a_job_ships_65535_pages_and_no_more(rt: HostRuntime) -> Result<(), Fail> {
    let Ok(mut job) = Job::new(rt.alloc(), Tally { taken: 0 }, &[]) else {
        return Err(Fail::new("memory was refused"));
    };
    let mut last = None;
    for _ in 0..65_535 {
        last = ship_an_empty_box(&mut job, Register::FIRST);
    }
    assert_eq!(rt; last, Some(Ok(Answer::Shipped(65_535))));
    let next = ship_an_empty_box(&mut job, Register::FIRST);
    assert_eq!(rt; next, Some(Err(Refusal::TooManyPages)));
    let summary = Summary {
        pages: 65_535,
        bytes: 3_014_664,
    };
    assert_eq!(rt; job.finish(), Ok(summary));
    assert_eq!(rt; job.into_device().taken, 3_014_664);
    Ok(())
}

#[test]
fn a_job_ships_256_boxes_of_65536_nodes_and_no_more(rt: HostRuntime) -> Result<(), Fail> {
    let Ok(mut job) = Job::new(rt.alloc(), Tally { taken: 0 }, &[]) else {
        return Err(Fail::new("memory was refused"));
    };
    let page = Register::try_new(1).expect(&rt, "it is a register");
    assert!(rt; is_taken(&mut job, &hbox_into(Register::FIRST)));
    let mut all_taken = true;
    for _ in 0..65_535 {
        all_taken = is_taken(&mut job, &Command::Kern(Dimen::ZERO)) && all_taken;
    }
    assert!(rt; all_taken);
    assert!(rt; is_taken(&mut job, &Command::End));
    let mut last = None;
    for _ in 0..256 {
        last = ship_a_copy(&mut job, page);
    }
    assert_eq!(rt; last, Some(Ok(Answer::Shipped(256))));
    let next = ship_an_empty_box(&mut job, page);
    assert_eq!(rt; next, Some(Err(Refusal::TooMuchShipped)));
    let summary = Summary {
        pages: 256,
        bytes: 11_832,
    };
    assert_eq!(rt; job.finish(), Ok(summary));
    assert_eq!(rt; job.into_device().taken, 11_832);
    Ok(())
}
