//! Scripts: a writer that fails.

use boxglue_program::{Memory, RunFault, run_script};
use std::io;
use std::io::Write;

/// A writer that takes nothing.
#[derive(Drop)]
struct ClosedWriter;

impl Write for ClosedWriter {
    fn write(&mut self, _piece: &[u8]) -> io::Result<usize> {
        Ok(0)
    }

    fn flush(&mut self) -> io::Result<()> {
        Ok(())
    }
}

#[test]
fn a_writer_that_fails(rt: HostRuntime) {
    let alloc = rt.alloc();
    let script = b"hbox into 0\nrule 1pt 1pt 0pt\nend\nship 0\n";
    match run_script(alloc, script, &[], Memory::new(alloc), &mut ClosedWriter) {
        Err(RunFault::Answers(memory)) => assert_eq!(rt; memory.bytes().len(), 116),
        _ => panic!(rt; "the writer takes nothing"),
    }
}
