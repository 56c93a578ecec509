//! The writer of a DVI file: each page goes to a device as it comes, and the end after the last (DVItype, 13 to 20).

use crate::{AdmittedPage, Fonts, NextPage, Offsets, Progress, WriteFault};
use dvi_device::{Device, Snapshot, write_all};
use node_core::BoxNode;
use page_core::Summary;
use scaled_core::COUNTS;
use std::alloc::Global;
use std::marker::Model;

/// The writer of a DVI file. It keeps no page, and no byte that was sent.
#[derive(Drop)]
pub struct DviWriter<D: Device> {
    progress: Progress,
    device: D,
    start: Snapshot<D>,
    over: bool,
}

impl<D: Device> Model for DviWriter<D> {
    ghost use Rattle.std.specs.Prelude.{◌≡◌, ◌<◌, ◌+◌, ◌^◌, false};
    ghost use Rattle.dvi_write.specs.Limits.{IsWithinLimits};
    ghost use Rattle.dvi_write.specs.Writing.{Writing};
    ghost use Rattle.dvi_write.specs.Private.WritingCode.{coded_writing};

    ghost Value = { Writing };

    ghost coded = { coded_writing };

    ghost view = { λ w. record {
      so_far = w.progress;
      bytes_written = D.bytes_written w.device;
      failed = D.failed w.device;
      past = D.past w.device;
      began = D.past w.start.seen;
      over = w.over;
    } };

    ghost invariant = { λ w. IsWithinLimits w.progress × (w.over ≡ false → D.failed w.device + 1 < 2 ^ 64)
        × ((D.past w.device).made ≡ (D.past w.start.seen).made) };
}

impl<D: Device> DviWriter<D> {
    ghost use Rattle.std.specs.Prelude.{◌≡◌, ◌≢◌, ◌<◌, ◌+◌, ◌^◌, ◌++◌, ◌⊎◌, ◌∷◌, [], true, false, ℕ, List, Option, Some, None, length, IfOk, IfErr};
    ghost use Rattle.std.specs.Prelude.{OnOk, OnErr, Err, Result, nat_eq, map};
    ghost use Rattle.dvi_device.specs.Written.{written_then, GrowsByFront};
    ghost use Rattle.dvi_device.specs.Pasts.{KeepsPast, Passes, past_after};
    ghost use Rattle.dvi_device.specs.Seen.{device_view};
    ghost use Rattle.dvi_ops.specs.Fonts.{WidthsByName};
    ghost use Rattle.dvi_ops.specs.File.{IsFileOfPages};
    ghost use Rattle.page_core.specs.Marks.{ShippedPage, read_page};
    ghost use Rattle.dvi_write.specs.declared.fault.WriteFault.{WriteFault};
    ghost use Rattle.tfm_core.specs.Slots.{Slots};
    ghost use Rattle.dvi_write.specs.SoFar.{next_bytes, last_bytes, with_next};
    ghost use Rattle.dvi_write.specs.Layout.{unfinished_file, whole};
    ghost use Rattle.dvi_write.specs.Limits.{IsWithinLimits};
    ghost use Rattle.dvi_write.specs.Closing.{IsClosedFor};
    ghost use Rattle.dvi_write.specs.Shippable.{GivesFonts, IsRightPage, IsShippable};
    ghost use Rattle.page_core.specs.Pages.{page_with};
    ghost use Rattle.dvi_write.specs.Writing.{EndsWith, GoesOn, HasWritten, IsDeviceOf, IsMadeOver, MayFail, RefusesPage, refusal_of};

    /// A writer to a device. It takes no memory, and sends nothing. What the device reported before is named in the clauses, so that callers need not
    /// begin with a fresh device.
    pub fn new(device: D) -> DviWriter<D>
        requires { D.failed device + 1 < 2 ^ 64 }
        ensures written { (fonts : Slots) → HasWritten fonts (D.bytes_written device) result [] }
        ensures made { IsMadeOver (device_view D.bytes_written D.failed D.past device) result }
    {
        DviWriter {
            progress: Progress::new(),
            start: Snapshot::of(&device),
            device,
            over: false,
        }
    }

    /// Whether the file is over: it was finished, or the device failed.
    pub fn is_over(&self) -> bool
        ensures { result ≡ self.now.over }
    {
        self.over
    }

    /// The number of pages that were sent.
    pub fn pages(&self) -> u32
        ensures { result ≡ self.now.so_far.pages }
    {
        self.progress.pages()
    }

    /// Lends the device.
    pub fn device(&self) -> &D
        ensures { IsDeviceOf self.now (device_view D.bytes_written D.failed D.past result.now) }
    {
        &self.device
    }

    /// Returns the device.
    pub fn into_device(self) -> D
        ensures { IsDeviceOf self (device_view D.bytes_written D.failed D.past result) }
    {
        let DviWriter {
            progress: _progress,
            device,
            start: _start,
            over: _over,
        } = self;
        device
    }

    /// Sends bytes. Where the device fails, the file is over.
    fn send(&mut self, bytes: &[u8]) -> Result<(), WriteFault>
        requires { self.old.over ≡ false }
        ensures so_far { self.new.so_far ≡ self.old.so_far }
        ensures bytes_written { OnOk result (self.new.bytes_written ≡ written_then self.old.bytes_written bytes.now) }
        ensures no_failure { OnOk result (self.new.failed ≡ self.old.failed) }
        ensures running { OnOk result (self.new.over ≡ false) }
        ensures fault { IfErr result (λ fault. fault ≡ WriteFault.Device) }
        ensures front { OnErr result (GrowsByFront self.old.bytes_written self.new.bytes_written bytes.now) }
        ensures counted { OnErr result (self.new.failed ≡ self.old.failed + 1) }
        ensures over { OnErr result (self.new.over ≡ true) }
        ensures past { Passes result self.old.past bytes.now self.new.past }
        ensures goes_on { GoesOn self.old self.new }
    {
        if write_all(&mut self.device, bytes).is_err() {
            self.over = true;
            return Err(WriteFault::Device);
        }
        Ok(())
    }

    /// The page that is sent next. Each refusal but Device is found here, before the device is called.
    fn prepare(
        &self,
        alloc: Global,
        box_node: &BoxNode,
        offsets: Offsets,
        counts: &[i32; COUNTS],
        fonts: &Fonts,
    ) -> Result<NextPage, WriteFault>
        requires { IsShippable fonts.now box_node.now }
        ensures bytes { IfOk result (λ next. next.bytes.items ≡ next_bytes fonts.now self.now.so_far (page_with counts.now offsets box_node.now)) }
        ensures after { IfOk result (λ next. next.after ≡ with_next fonts.now self.now.so_far (page_with counts.now offsets box_node.now)) }
        ensures space { IfOk result (λ next. IsWithinLimits next.after) }
        ensures right { OnOk result (IsRightPage fonts.now (page_with counts.now offsets box_node.now)) }
        ensures may { OnOk result (refusal_of self.now (page_with counts.now offsets box_node.now) ≡ None) }
        ensures running { OnOk result (self.now.over ≡ false) }
        ensures refused { IfErr result (RefusesPage self.now (page_with counts.now offsets box_node.now)) }
    {
        if self.over {
            return Err(WriteFault::JobOver);
        }
        let at = offsets.point_of(box_node);
        let load = self.progress.admit(box_node)?;
        fonts.can_be_defined();
        let page = AdmittedPage {
            box_node,
            at,
            counts: *counts,
            load,
        };
        let next = self.progress.next_page(alloc, &page, fonts)?;
        Ok(next)
    }

    /// Sends the page of a box with these counts: the preamble before the first page, the definitions of the fonts that no earlier page uses, and the
    /// page. All memory is taken before the device is called, so no refusal but Device has sent anything. A page counts once all of it was sent.
    ///
    /// The fault is the first of JobOver, TooManyPages, TooMuchShipped, TooMuchSpecial and HugePage that holds, or OutOfMemory; then nothing was sent
    /// and nothing has changed. With Device, the device has failed and the file is over; the numbers are those of the pages before.
    pub fn page(
        &mut self,
        alloc: Global,
        box_node: &BoxNode,
        offsets: Offsets,
        counts: &[i32; COUNTS],
        fonts: &Fonts,
    ) -> Result<(), WriteFault>
        requires { IsShippable fonts.now box_node.now }
        ensures written { OnOk result ((before : Option (List ℕ)) (pages : List ShippedPage) → HasWritten fonts.now before self.old pages
            → HasWritten fonts.now before self.new (pages ++ page_with counts.now offsets box_node.now ∷ [])) }
        ensures past { result ≡ Err WriteFault.Device → (before : Option (List ℕ)) (pages : List ShippedPage)
            → HasWritten fonts.now before self.old pages
            → KeepsPast self.old.began (unfinished_file fonts.now (pages ++ page_with counts.now offsets box_node.now ∷ [])) self.new.past }
        ensures sent { OnOk result (self.new.bytes_written
            ≡ written_then self.old.bytes_written (next_bytes fonts.now self.old.so_far (page_with counts.now offsets box_node.now))) }
        ensures since { result ≡ Err WriteFault.Device → GrowsByFront self.old.bytes_written self.new.bytes_written
            (next_bytes fonts.now self.old.so_far (page_with counts.now offsets box_node.now)) }
        ensures kept { OnOk result (self.new.so_far ≡ with_next fonts.now self.old.so_far (page_with counts.now offsets box_node.now)) }
        ensures running { OnOk result (self.new.over ≡ false) }
        ensures may { OnOk result (refusal_of self.old (page_with counts.now offsets box_node.now) ≡ None) }
        ensures refused { IfErr result (EndsWith self.old (page_with counts.now offsets box_node.now)) }
        ensures same { IfErr result (λ fault. fault ≢ WriteFault.Device → self.new ≡ self.old) }
        ensures no_failure { OnOk result (self.new.failed ≡ self.old.failed) }
        ensures failed { result ≡ Err WriteFault.Device → self.new.failed ≡ self.old.failed + 1 }
        ensures over { result ≡ Err WriteFault.Device → self.new.over ≡ true }
        ensures so_far { result ≡ Err WriteFault.Device → self.new.so_far ≡ self.old.so_far }
        ensures goes_on { GoesOn self.old self.new }
    {
        let next = self.prepare(alloc, box_node, offsets, counts, fonts)?;
        self.send(&next.bytes)?;
        self.progress = next.after;
        Ok(())
    }

    /// Finishes the file. Where there are pages, it sends the postamble with the definitions of all their fonts, and the padding. All memory is taken
    /// before the device is called. The file is over after it.
    ///
    /// The fault is JobOver or OutOfMemory, and then nothing was sent and nothing has changed; or Device, and then the device has failed and the file
    /// is over.
    pub fn finish(&mut self, alloc: Global, fonts: &Fonts) -> Result<Summary, WriteFault>
        ensures whole { OnOk result ((before : Option (List ℕ)) (pages : List ShippedPage) → HasWritten fonts.now before self.old pages
            → self.new.bytes_written ≡ written_then before (whole fonts.now pages)) }
        ensures past { OnOk result ((before : Option (List ℕ)) (pages : List ShippedPage) → HasWritten fonts.now before self.old pages
            → self.new.past ≡ past_after self.old.began (whole fonts.now pages)) }
        ensures past_lost { result ≡ Err WriteFault.Device → (before : Option (List ℕ)) (pages : List ShippedPage)
            → HasWritten fonts.now before self.old pages
            → KeepsPast self.old.began (whole fonts.now pages) self.new.past }
        ensures since { result ≡ Err WriteFault.Device
            → GrowsByFront self.old.bytes_written self.new.bytes_written (last_bytes fonts.now self.old.so_far) }
        ensures file { OnOk result ((before : Option (List ℕ)) (pages : List ShippedPage) (metrics : WidthsByName)
            → HasWritten fonts.now before self.old pages
            → GivesFonts metrics fonts.now → IsFileOfPages metrics (whole fonts.now pages) (map read_page pages)) }
        ensures closed { OnOk result ((before : Option (List ℕ)) (pages : List ShippedPage) → HasWritten fonts.now before self.old pages → pages ≢ []
            → IsClosedFor fonts.now (whole fonts.now pages) pages) }
        ensures pages { IfOk result (λ file. (before : Option (List ℕ)) (pages : List ShippedPage) → HasWritten fonts.now before self.old pages
            → file.pages ≡ length pages) }
        ensures size { IfOk result (λ file. (before : Option (List ℕ)) (pages : List ShippedPage) → HasWritten fonts.now before self.old pages
            → file.bytes ≡ length (whole fonts.now pages)) }
        ensures so_far { self.new.so_far ≡ self.old.so_far }
        ensures may { OnOk result (self.old.over ≡ false) }
        ensures refused { IfErr result (MayFail self.old) }
        ensures same { IfErr result (λ fault. fault ≢ WriteFault.Device → self.new ≡ self.old) }
        ensures no_failure { OnOk result (self.new.failed ≡ self.old.failed) }
        ensures failed { result ≡ Err WriteFault.Device → self.new.failed ≡ self.old.failed + 1 }
        ensures over { OnOk result (self.new.over ≡ true) }
        ensures lost { result ≡ Err WriteFault.Device → self.new.over ≡ true }
        ensures goes_on { GoesOn self.old self.new }
    {
        if self.over {
            return Err(WriteFault::JobOver);
        }
        fonts.can_be_defined();
        let pages = self.progress.pages();
        if pages == 0 {
            self.over = true;
            return Ok(Summary { pages: 0, bytes: 0 });
        }
        let bytes = self.progress.last_bytes(alloc, fonts)?;
        let size = self.progress.size() + bytes.len();
        self.send(&bytes)?;
        self.over = true;
        Ok(Summary {
            pages,
            bytes: size as u64,
        })
    }
}
