//! The state of a job without its device and its bytes: its fonts and its settings. Items, boxes and lists are in the modules below.

ghost use Rattle.std.specs.Prelude.{◌≡◌, ◌==◌, not, None, IfOk, OnOk, OnErr, length};
ghost use Rattle.job_machine.specs.declared.command.Command.TheVariants as commands;
ghost use Rattle.job_state.specs.JobStateView.{before_shipping};
ghost use Rattle.job_state.specs.Loaded.{GivesNumbers, GivesNumbersFor};
ghost use Rattle.job_machine.specs.State.{first_state};
ghost use Rattle.job_machine.specs.NextPages.{offsets_of};
ghost use Rattle.job_machine.specs.Checks.{first_refusal};
ghost use Rattle.job_machine.specs.Machine.{reply_to, state_after};
ghost use Rattle.job_machine.specs.Runs.{IsShip, MayRunOutOfMemory, early_checks};

mod appending;
mod boxes;
mod lists;

use crate::registers::Registers;
use job_lists::fonts::read_font;
use job_lists::nest::Nest;
use job_machine::{Answer, Command, Counting, FontLoad, Parameter, Refusal, Reply};
use node_core::{Node, Params};
use page_core::Offsets;
use scaled_core::COUNTS;
use std::alloc::{AllocError, Global};
use std::marker::Model;
use tfm_core::{FontFile, Fonts, LoadedFont, file_named};

/// The state of a job without the writer of its file: font files, fonts, parameters, open lists, registers and counts.
///
/// `obey` runs every command but `ship`, and replies as the abstract machine does (`reply_to` of `job_machine`), with the refusals that the machine
/// lists. The one error is a refused growth: all is then as before the call. It speaks of a state in which nothing was shipped (`before_shipping`),
/// since no command but `ship` reads or changes the numbers of what was.
#[derive(Debug, Drop)]
pub struct JobState {
    files: Vec<FontFile>,
    fonts: Fonts,
    current: Option<u8>,
    params: Params,
    nest: Nest,
    registers: Registers,
    counts: [i32; COUNTS],
}

impl Model for JobState {
    ghost use Rattle.job_state.specs.JobStateView.{JobStateView};
    ghost use Rattle.job_state.specs.Private.StateCode.{coded_job_state};

    ghost Value = { JobStateView };

    ghost coded = { coded_job_state };

    ghost view = { λ kept. record {
      files = kept.files.items;
      fonts = kept.fonts;
      current = kept.current;
      params = kept.params;
      nest = kept.nest;
      registers = kept.registers;
      counts = kept.counts;
    } };
}

/// Copies of the files.
fn copies(alloc: Global, files: &[FontFile]) -> Result<Vec<FontFile>, AllocError>
    ensures { IfOk result (λ copies. copies.items ≡ files.now) }
{
    let mut copies = Vec::with_capacity(alloc, files.len())?;
    for file in files {
        copies.push(file.copy(alloc)?)?;
    }
    Ok(copies)
}

impl JobState {
    /// The state of a new job with these font files, which it copies.
    pub fn new(alloc: Global, files: &[FontFile]) -> Result<JobState, AllocError>
        ensures { IfOk result (λ kept. before_shipping kept ≡ first_state files.now) }
    {
        let files = copies(alloc, files)?;
        let fonts = Fonts::new(alloc)?;
        let registers = Registers::new(alloc)?;
        Ok(JobState {
            files,
            fonts,
            current: None,
            params: Params::first(),
            nest: Nest::new(alloc),
            registers,
            counts: [0; COUNTS],
        })
    }

    /// Runs a command that ships nothing. `ship` needs the writer of the file: it asks for `box_in`, and calls `empty` once the page was sent.
    ///
    /// Each arm returns for itself, and moves the reply out of its call: where all arms shared one result, each `Done` was copied with as many bytes
    /// as the longest reply has.
    pub fn obey(&mut self, command: &Command) -> Result<Reply, AllocError>
        requires { IsShip command.now → ⊥ }
        ensures reply { IfOk result (λ reply. reply ≡ reply_to (before_shipping self.old) command.now) }
        ensures state { OnOk result (before_shipping self.new ≡ state_after (before_shipping self.old) command.now) }
        ensures numbers { IfOk result (λ reply. IfOk reply (λ answer. GivesNumbersFor (before_shipping self.old) command.now)) }
        ensures takes { OnErr result (MayRunOutOfMemory (before_shipping self.old) command.now) }
        ensures early { OnErr result (first_refusal (early_checks (before_shipping self.old) command.now) ≡ None) }
        ensures err { OnErr result (self.new ≡ self.old) }
    {
        match command {
            Command::LoadFont(load) => return Ok(self.load_font(load)?),
            Command::UseFont(slot) => return Ok(self.use_font(*slot)),
            Command::Open(opening) => return Ok(self.open_list(*opening)?),
            Command::Paragraph => return Ok(self.open_paragraph()?),
            Command::End => return Ok(self.end()?),
            Command::Text(text) => return Ok(self.append_text(text)?),
            Command::Character(code) => return Ok(self.append_character(*code)?),
            Command::Rule(rule) => return Ok(self.append_rule(*rule)?),
            Command::Kern(width) => return Ok(self.append_item(Node::Kern(*width))?),
            Command::Glue(glue) => return Ok(self.append_item(Node::Glue(*glue))?),
            Command::Penalty(number) => return Ok(self.append_item(Node::Penalty(number.get()))?),
            Command::Append(taken) => return Ok(self.append_register_box(taken)?),
            Command::Unbox(taken) => return Ok(self.unbox(taken)?),
            Command::LastBox(register) => return Ok(self.last_box(*register)),
            Command::Split(splitting) => return Ok(self.split(splitting)?),
            Command::Measure(register) => return Ok(self.measure(*register)),
            Command::Void(register) => return Ok(self.void(*register)),
            Command::Set(parameter) => return Ok(self.set(*parameter)),
            Command::Count(counting) => return Ok(self.count(*counting)),
            Command::Special(text) => return Ok(self.append_special(text)?),
            Command::Ship(_) => unreachable!(),
        }
    }

    /// Whether at least one list is open.
    pub fn is_open(&self) -> bool
        ensures { result ≡ not (length self.now.nest == 0) }
    {
        self.nest.len() != 0
    }

    /// The fonts of the slots.
    pub fn fonts(&self) -> &Fonts
        ensures { result.now ≡ self.now.fonts }
    {
        &self.fonts
    }

    /// Reads a font file into a slot. A file is read only here, so one that no command names is never looked at. Of several files with one name the
    /// first counts. A slot has one font in the whole job, so the slot of a glyph decides its sizes.
    ///
    /// Inside `obey` the arrays of a new font would be part of the stack of each command.
    #[inline(never)]
    fn load_font(&mut self, load: &FontLoad) -> Result<Reply, AllocError>
        ensures reply { IfOk result (λ reply. reply ≡ reply_to (before_shipping self.old) (commands.LoadFont load.now)) }
        ensures state { OnOk result (before_shipping self.new ≡ state_after (before_shipping self.old) (commands.LoadFont load.now)) }
        ensures numbers { IfOk result (λ reply. IfOk reply (λ answer. GivesNumbers (before_shipping self.old) load.now)) }
        ensures err { OnErr result (self.new ≡ self.old) }
        ensures early { OnErr result (first_refusal (early_checks (before_shipping self.old) (commands.LoadFont load.now)) ≡ None) }
    {
        if self.fonts.get(load.slot).is_some() {
            return Ok(Err(Refusal::SlotTaken));
        }
        let Some(file) = file_named(&self.files, load.name.as_bytes()) else {
            return Ok(Err(Refusal::NoFont));
        };
        let alloc = *self.files.allocator();
        let font = match read_font(alloc, file, load.size)? {
            Ok(font) => font,
            Err(refusal) => return Ok(Err(refusal)),
        };
        let name = load.name.copy(alloc)?;
        self.fonts.put(load.slot, LoadedFont { name, font });
        Ok(Ok(Answer::Done))
    }

    /// Makes the font of a slot the current one.
    fn use_font(&mut self, slot: u8) -> Reply
        ensures reply { result ≡ reply_to (before_shipping self.old) (commands.UseFont slot) }
        ensures state { before_shipping self.new ≡ state_after (before_shipping self.old) (commands.UseFont slot) }
    {
        if self.fonts.get(slot).is_none() {
            return Err(Refusal::NoFont);
        }
        self.current = Some(slot);
        Ok(Answer::Done)
    }

    /// Gives a parameter its value. It is a value of the whole job, also for lists that are open: boxmaxdepth counts when a list is packed, not when
    /// it was opened.
    fn set(&mut self, parameter: Parameter) -> Reply
        ensures reply { result ≡ reply_to (before_shipping self.old) (commands.Set parameter) }
        ensures state { before_shipping self.new ≡ state_after (before_shipping self.old) (commands.Set parameter) }
    {
        parameter.set_in(&mut self.params);
        Ok(Answer::Done)
    }

    /// Sets a count of the pages that follow.
    fn count(&mut self, counting: Counting) -> Reply
        ensures reply { result ≡ reply_to (before_shipping self.old) (commands.Count counting) }
        ensures state { before_shipping self.new ≡ state_after (before_shipping self.old) (commands.Count counting) }
    {
        self.counts[counting.count.number()] = counting.value;
        Ok(Answer::Done)
    }

    /// The counts of the next page.
    pub fn counts(&self) -> &[i32; COUNTS]
        ensures { result.now ≡ self.now.counts }
    {
        &self.counts
    }

    /// How far pages are moved, in scaled points.
    pub fn offsets(&self) -> Offsets
        ensures { result ≡ offsets_of self.now.params }
    {
        Offsets {
            h: self.params.hoffset,
            v: self.params.voffset,
        }
    }
}
