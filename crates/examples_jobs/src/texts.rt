//! A page of text is made by a job.

use job_core::{
    BoxForm, Characters, Command, FontFile, FontLoad, FontName, HeapFontLoad, Job, Memory, Opening,
    Refusal, Register, Reply, Target,
};
use std::alloc::{AllocError, Global};

/// The commands of a page with a paragraph of text, in the font of this name.
pub fn text_commands(
    alloc: Global,
    name: FontName,
    text: Vec<u8>,
) -> Result<[Command; 8], AllocError> {
    let load = FontLoad {
        slot: 0,
        name,
        size: None, // its design size, or Some(FontSize)
    };
    let opening = Opening {
        form: BoxForm::Vbox,
        target: Target::Natural,
        into: Some(Register::FIRST),
    };
    Ok([
        Command::LoadFont(HeapFontLoad::new(alloc, load)?),
        Command::UseFont(0),
        Command::Open(opening),
        Command::Paragraph,
        Command::Text(Characters::new(text)), // Answer::Shaped { items, missing }
        Command::End, // Answer::Paragraph { lines, pass, overhang, demerits }
        Command::End,
        Command::Ship(Register::FIRST),
    ])
}

/// The DVI file of the pages that these commands ship, and the reply to each command. The fonts are those of these files.
pub fn text_page(
    alloc: Global,
    files: &[FontFile],
    commands: &[Command],
) -> Result<(Memory, Vec<Reply>), Refusal> {
    let Ok(mut job) = Job::new(alloc, Memory::new(alloc), files) else {
        return Err(Refusal::OutOfMemory);
    };
    let mut replies = Vec::new(alloc);
    job.run(commands, &mut replies)?; // a refused command does not stop the run
    job.finish()?;
    Ok((job.into_device(), replies))
}
