//! A session: a script that is run as it comes. Each reading brings some bytes, the lines that end in them are run, and their answers are written
//! before the next reading.

ghost use Rattle.std.specs.Prelude.{◌≡◌, ◌≤◌, ◌<◌, ◌+◌, ◌++◌, ◌^◌, ℕ, true, List, [], length, take, drop, Contains, None, Ok, Err, IfOk, IfErr};
ghost use Rattle.std.specs.Prelude.{IfSome, OnOk, OnErr, vec_len};
ghost use Rattle.std.specs.Str.Lines.{lines};
ghost use Rattle.std.specs.Io.KnownBytes.{Consumes, IsAtEnd, Keeps};
ghost use Rattle.dvi_device.specs.Seen.{device_view};
ghost use Rattle.dvi_write.specs.Writing.{IsDeviceOf};
ghost use Rattle.job_core.specs.Jobs.{writing_of};
ghost use Rattle.boxglue_script.specs.LineContents.{IsWhole};
ghost use Rattle.boxglue_program.specs.Reports.{written_bytes};
ghost use Rattle.boxglue_program.specs.Sessions.{AnswersLines, RanSession, LacksSessionMemory, IsUnreadable, IsCutOff, IsSent};
ghost use Rattle.boxglue_program.specs.Private.Dialogs.{IsCutAfterLines, StopsAfterLines};

use crate::dialog::{Dialog, OUTBOX_SIZE, Outbox};
use job_core::{Device, FontFile, Job};
use std::alloc::{AllocError, Global};
use std::io::{ErrorKind, Read, Write};
use std::marker::Model;
use thiserror::Error;

/// How many bytes one reading asks for.
const BUFFER: usize = 65_536;

/// Why a session stopped before the end of its input. Its job was not finished.
#[derive(Clone, Copy, Debug, PartialEq, Eq, Error)]
pub enum SessionFault {
    /// A growth of memory was refused: before the first line, or at something that came, of which nothing was run.
    #[error("a growth of memory was refused")]
    OutOfMemory,
    /// A reading failed, or the input is over its limit.
    #[error("the input could not be read")]
    Unreadable,
}

/// Whether an input goes on after one reading.
#[derive(Clone, Copy, Debug, PartialEq, Eq)]
pub enum Reading {
    /// Some bytes came, or none since the call was interrupted. More may come.
    More,
    /// The input is at its end.
    End,
}

/// The end of a session.
#[derive(Debug, Drop)]
pub struct SessionEnd<D> {
    /// Whether nothing was refused; or why the session stopped.
    pub outcome: Result<bool, SessionFault>,
    /// Whether the writer took all answers. If not, the script went on without them.
    pub written: bool,
    pub device: D,
}

/// A session over a job. Between two readings no answer waits.
#[derive(Drop)]
pub struct Session<D: Device> {
    dialog: Dialog<D>,
    outbox: Outbox,
    buffer: Vec<u8>,
    partial_line: Vec<u8>,
    left: usize,
}

impl<D: Device> Model for Session<D> {
    ghost use Rattle.std.specs.Prelude.{◌≡◌, ◌≤◌, ◌<◌, ◌+◌, ◌^◌, [], length, Contains, vec_len};
    ghost use Rattle.boxglue_program.specs.Sessions.{SessionView};
    ghost use Rattle.boxglue_program.specs.Private.Dialogs.{coded_session, session_of};

    ghost Value = { SessionView };

    ghost coded = { coded_session };

    ghost view = { λ s. session_of s.dialog s.outbox.reads s.partial_line.items s.left };

    ghost invariant = { λ s. (s.outbox.waiting.items ≡ []) × (vec_len s.buffer ≡ 65536) × (Contains s.partial_line.items 10 → ⊥)
        × (s.dialog.lines + length s.partial_line.items + s.left < 2 ^ 64) };
}

/// Reads once into a buffer, and returns how many bytes came, 0 at the end of the input, or None if the call was interrupted.
fn read_once<R: Read>(reader: &mut R, buffer: &mut Vec<u8>) -> Result<Option<usize>, SessionFault>
    requires some { 0 < vec_len buffer.old }
    ensures size { vec_len buffer.new ≡ vec_len buffer.old }
    ensures bytes { IfOk result (λ read. IfSome read (λ count. (count ≤ vec_len buffer.new)
        × Consumes (R.remaining reader.old) (R.remaining reader.new) (take count buffer.new.items))) }
    ensures end { IfOk result (λ read. IfSome read (λ count. count ≡ 0 → IsAtEnd (R.remaining reader.new))) }
    ensures none { result ≡ Ok None → Keeps (R.remaining reader.old) (R.remaining reader.new) }
    ensures unread { IfErr result (λ fault. (fault ≡ SessionFault.Unreadable) × Keeps (R.remaining reader.old) (R.remaining reader.new)) }
{
    match reader.read(buffer) {
        Ok(count) => Ok(Some(count)),
        Err(fault) if fault.kind() == ErrorKind::Interrupted => Ok(None),
        Err(_) => Err(SessionFault::Unreadable),
    }
}

/// How many bytes the lines have that end in a piece: those up to its last line feed.
fn whole_size(piece: &[u8]) -> usize
    ensures within { result ≤ length piece.now }
    ensures whole { IsWhole (take result piece.now) }
    ensures rest { Contains (drop result piece.now) 10 → ⊥ }
{
    let mut size = piece.len();
    while size > 0 {
        if piece[size - 1] == b'\n' {
            return size;
        }
        size -= 1;
    }
    0
}

/// Cuts a piece after its last line feed: the lines that end in it, and what follows them.
fn split_lines(piece: &[u8]) -> (&[u8], &[u8])
    ensures { IsCutAfterLines piece.now result.0.now result.1.now }
{
    piece.split_at(whole_size(piece))
}

/// Runs the lines that end in a piece, with the bytes kept before it, and keeps what follows the last line feed.
fn take_piece<D: Device, W: Write>(
    dialog: &mut Dialog<D>,
    outbox: &mut Outbox,
    partial_line: &mut Vec<u8>,
    piece: &[u8],
    writer: &mut W,
) -> Result<(), AllocError>
    requires empty { outbox.old.waiting.items ≡ [] }
    requires unended { Contains partial_line.old.items 10 → ⊥ }
    requires countable { dialog.old.lines + length partial_line.old.items + length piece.now < 2 ^ 64 }
    ensures ok { OnOk result ((whole answers : List ℕ) × (partial_line.old.items ++ piece.now ≡ whole ++ partial_line.new.items) × IsWhole whole
        × AnswersLines dialog.old (lines whole) answers dialog.new
        × IsSent outbox.old.reads outbox.new.reads (W.contents writer.old) (W.contents writer.new) answers) }
    ensures stopped { OnErr result ((answers : List ℕ)
        × StopsAfterLines (partial_line.old.items ++ piece.now) dialog.old answers dialog.new
        × IsSent outbox.old.reads outbox.new.reads (W.contents writer.old) (W.contents writer.new) answers) }
    ensures emptied { outbox.new.waiting.items ≡ [] }
    ensures rest { Contains partial_line.new.items 10 → ⊥ }
    ensures counted { dialog.new.lines + length partial_line.new.items ≤ dialog.old.lines + length partial_line.old.items + length piece.now }
{
    let (whole, rest) = split_lines(piece);
    if whole.is_empty() {
        return partial_line.extend_from_slice(rest);
    }
    partial_line.extend_from_slice(whole)?;
    let ran = outbox.answer(dialog, partial_line, writer);
    partial_line.clear();
    ran?;
    partial_line.extend_from_slice(rest)
}

impl<D: Device> Session<D> {
    ghost use Rattle.std.specs.Prelude.{◌≡◌, ◌≤◌, ◌<◌, ◌+◌, ◌≢◌, ◌^◌, ℕ, List, [], length, Ok, Err, IfOk, IfErr, IfSome};
    ghost use Rattle.std.specs.Io.KnownBytes.{Consumes, IsAtEnd, Keeps};
    ghost use Rattle.dvi_device.specs.Seen.{device_view};
    ghost use Rattle.dvi_write.specs.Writing.{IsDeviceOf, IsMadeOver};
    ghost use Rattle.job_core.specs.Jobs.{writing_of};
    ghost use Rattle.boxglue_program.specs.Sessions.{DialogView, EndsSession, Exchanges, IsNewSession, IsSent, LacksMemory, StopsIn};

    /// A new session with these font files, which may read `limit` bytes in all. The device must have reported no byte yet. If memory is refused, the
    /// error is the device, unchanged.
    pub fn new(alloc: Global, files: &[FontFile], device: D, limit: usize) -> Result<Session<D>, D>
        requires countable { D.failed device + 1 < 2 ^ 64 }
        requires fresh { IfSome (D.bytes_written device) (λ bytes. bytes ≡ []) }
        ensures new { IfOk result (IsNewSession files.now (D.failed device)) }
        ensures limited { IfOk result (λ session. session.left ≡ limit) }
        ensures made { IfOk result (λ session. IsMadeOver (device_view D.bytes_written D.failed D.past device) (writing_of session.dialog.job)) }
        ensures device_returned { IfErr result (λ back. back ≡ device) }
    {
        let Ok(waiting) = Vec::with_capacity(alloc, OUTBOX_SIZE) else {
            return Err(device);
        };
        let Ok(buffer) = Vec::from_elem(alloc, 0, BUFFER) else {
            return Err(device);
        };
        let job = Job::new(alloc, device, files)?;
        Ok(Session {
            dialog: Dialog {
                alloc,
                job,
                lines: 0,
                accepted: true,
            },
            outbox: Outbox {
                waiting,
                reads: true,
            },
            buffer,
            partial_line: Vec::new(alloc),
            left: limit,
        })
    }

    /// Reads once, runs the lines that end in what came, and writes their answers. What follows the last line feed is kept.
    ///
    /// Once the writer does not take an answer, nothing more is written, and the lines are run without answers.
    ///
    /// Errors: Unreadable if the call fails, or if more bytes came than may still be read; nothing was run then. OutOfMemory for a refused growth:
    /// some of the lines were run and answered, and all other bytes that came are lost, those that were kept among them.
    pub fn exchange<R: Read, W: Write>(
        &mut self,
        reader: &mut R,
        writer: &mut W,
    ) -> Result<Reading, SessionFault>
        ensures more { result ≡ Ok Reading.More → (piece : List ℕ) × Consumes (R.remaining reader.old) (R.remaining reader.new) piece
            × Exchanges self.old piece self.new (W.contents writer.old) (W.contents writer.new) }
        ensures end { result ≡ Ok Reading.End → (self.new ≡ self.old) × Consumes (R.remaining reader.old) (R.remaining reader.new) []
            × IsAtEnd (R.remaining reader.new)
            × Keeps (W.contents writer.old) (W.contents writer.new) }
        ensures memory { result ≡ Err SessionFault.OutOfMemory → (piece : List ℕ) × Consumes (R.remaining reader.old) (R.remaining reader.new) piece
            × LacksMemory self.old piece self.new (W.contents writer.old) (W.contents writer.new) }
        ensures unread { result ≡ Err SessionFault.Unreadable
            → (self.new ≡ self.old) × (lost : List ℕ) × Consumes (R.remaining reader.old) (R.remaining reader.new) lost
            × (length lost ≤ 65536) × (lost ≢ [] → self.old.left < length lost) × Keeps (W.contents writer.old) (W.contents writer.new) }
    {
        let Some(count) = read_once(reader, &mut self.buffer)? else {
            return Ok(Reading::More);
        };
        if count == 0 {
            return Ok(Reading::End);
        }
        if count > self.left {
            return Err(SessionFault::Unreadable);
        }
        self.left -= count;
        let piece = &self.buffer[..count];
        let ran = take_piece(
            &mut self.dialog,
            &mut self.outbox,
            &mut self.partial_line,
            piece,
            writer,
        );
        if ran.is_err() {
            self.partial_line.clear();
            return Err(SessionFault::OutOfMemory);
        }
        Ok(Reading::More)
    }

    /// Ends the session at the end of its input: runs a last line without a line feed, finishes the job, and writes the last answers.
    pub fn finish<W: Write>(self, writer: &mut W) -> SessionEnd<D>
        ensures ended { IfOk result.outcome (λ accepted. (answer : List ℕ)
            × EndsSession self (D.failed result.device) (D.bytes_written result.device) answer accepted
            × IsSent self.reads result.written (W.contents writer.old) (W.contents writer.new) answer) }
        ensures memory { IfErr result.outcome (λ fault. (fault ≡ SessionFault.OutOfMemory) × (answers : List ℕ) × (last : DialogView)
            × StopsIn self.partial_line self.dialog answers last
            × IsSent self.reads result.written (W.contents writer.old) (W.contents writer.new) answers
            × (D.failed result.device ≡ last.job.failed) × (D.bytes_written result.device ≡ last.job.bytes_written)) }
        ensures made { (D.past result.device).made ≡ self.dialog.job.began.made }
    {
        let Session {
            mut dialog,
            mut outbox,
            partial_line,
            buffer: _buffer,
            left: _left,
        } = self;
        match outbox.answer_last(&mut dialog, &partial_line, writer) {
            Ok(accepted) => close(Ok(accepted), dialog, &outbox),
            Err(_) => close(Err(SessionFault::OutOfMemory), dialog, &outbox),
        }
    }

    /// Stops the session. The job is not finished.
    pub fn stop(self, fault: SessionFault) -> SessionEnd<D>
        ensures outcome { result.outcome ≡ Err fault }
        ensures written { result.written ≡ self.reads }
        ensures device { IsDeviceOf (writing_of self.dialog.job) (device_view D.bytes_written D.failed D.past result.device) }
    {
        let Session {
            dialog,
            outbox,
            partial_line: _partial_line,
            buffer: _buffer,
            left: _left,
        } = self;
        close(Err(fault), dialog, &outbox)
    }
}

/// The end of a session with its device.
fn close<D: Device>(
    outcome: Result<bool, SessionFault>,
    dialog: Dialog<D>,
    outbox: &Outbox,
) -> SessionEnd<D>
    ensures outcome { result.outcome ≡ outcome }
    ensures written { result.written ≡ outbox.now.reads }
    ensures device { IsDeviceOf (writing_of dialog.job) (device_view D.bytes_written D.failed D.past result.device) }
{
    let Dialog {
        alloc: _alloc,
        job,
        lines: _lines,
        accepted: _accepted,
    } = dialog;
    SessionEnd {
        outcome,
        written: outbox.reads,
        device: job.into_device(),
    }
}

/// Runs a script as it comes from a reader, at most `limit` bytes of it, on a new job with these font files. Each line is run when it is whole, and
/// the answers of all lines that one reading brings are written before the next reading. At the end of the input a last line without a line feed is
/// run, and the job is finished. A bad line is answered by the text for a bad script, with its number in the input, and the job goes on.
///
/// A session that stops does not finish its job, so its file has the pages that were shipped and no end. It stops if memory is refused; if a reading
/// fails; and if the end is not reached within `limit` bytes and as many calls.
pub fn run_session<D: Device, R: Read, W: Write>(
    alloc: Global,
    files: &[FontFile],
    device: D,
    limit: usize,
    reader: &mut R,
    writer: &mut W,
) -> SessionEnd<D>
    requires countable { D.failed device + 1 < 2 ^ 64 }
    requires fresh { IfSome (D.bytes_written device) (λ bytes. bytes ≡ []) }
    ensures ran { IfOk result.outcome (λ accepted. (text answer : List ℕ) × Consumes (R.remaining reader.old) (R.remaining reader.new) text
        × IsAtEnd (R.remaining reader.new) × (length text ≤ limit)
        × RanSession written_bytes text files.now (D.failed device) (D.failed result.device) (D.bytes_written result.device) answer accepted
        × IsSent true result.written (W.contents writer.old) (W.contents writer.new) answer) }
    ensures memory { result.outcome ≡ Err SessionFault.OutOfMemory
        → (text answer : List ℕ) × Consumes (R.remaining reader.old) (R.remaining reader.new) text × (length text ≤ limit)
        × LacksSessionMemory written_bytes (IsAtEnd (R.remaining reader.new)) text files.now (D.failed device) (D.failed result.device)
        (D.bytes_written result.device) answer
        × IsSent true result.written (W.contents writer.old) (W.contents writer.new) answer }
    ensures unreadable { result.outcome ≡ Err SessionFault.Unreadable → (text lost answer : List ℕ)
        × Consumes (R.remaining reader.old) (R.remaining reader.new) (text ++ lost) × IsUnreadable limit text lost
        × IsCutOff written_bytes text files.now (D.failed device) (D.failed result.device) (D.bytes_written result.device) answer
        × IsSent true result.written (W.contents writer.old) (W.contents writer.new) answer }
    ensures made { (D.past result.device).made ≡ (D.past device).made }
{
    let mut session = match Session::new(alloc, files, device, limit) {
        Ok(session) => session,
        Err(device) => {
            return SessionEnd {
                outcome: Err(SessionFault::OutOfMemory),
                written: true,
                device,
            };
        }
    };
    for _ in 0..limit {
        match session.exchange(reader, writer) {
            Ok(Reading::More) => {}
            Ok(Reading::End) => return session.finish(writer),
            Err(fault) => return session.stop(fault),
        }
    }
    session.stop(SessionFault::Unreadable)
}
