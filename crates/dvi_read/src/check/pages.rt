//! The pages of a file, and the part after them (DVItype, 15 to 19).

ghost use Rattle.std.specs.Prelude.{◌≡◌, ◌≤◌, ◌+◌, ◌-◌, length, map, IfErr, IfOk, OnOk};
ghost use Rattle.dvi_scan.specs.Closing.{ClosesTo};
ghost use Rattle.dvi_ops.specs.View.{view_postamble};
ghost use Rattle.dvi_scan.specs.View.{marked_page};
ghost use Rattle.dvi_read.specs.Opening.{IsDviFault, StartsAt};
ghost use Rattle.dvi_read.specs.Private.OpeningParts.{HasPassed, IsFinishFault};
ghost use Rattle.dvi_read.specs.Steps.{known_of, places_left, pass_state_of};
ghost use Rattle.dvi_read.specs.WalkFaults.{PagesHaveEnded};
ghost use Rattle.dvi_scan.specs.Passed.{file_framing};

use crate::check::walk::{Source, Walk, pages_end, walk_pages};
use crate::fault::DviFault;
use dvi_scan::{FileEnd, prescan_definitions, read_trailing_definitions};
use std::alloc::Global;
use tfm_core::FontFile;

/// Checks the pages of a file, and drops their marks as they come. A font that they select needs a definition after post too.
pub(crate) fn check_pages<'c, 'a>(
    alloc: Global,
    bytes: &'a [u8],
    files: &[FontFile],
    ending: &FileEnd,
    from: usize,
    chain: &'c [usize],
) -> Result<Walk<'c, 'a>, DviFault<'a>>
    requires low { ending.now.after + 5 ≤ ending.now.last }
    requires high { ending.now.last ≤ length bytes.now }
    requires starts { StartsAt bytes.now ending.now.post ending.now.after ending.now.last (view_postamble ending.now.postamble) chain.now from }
    ensures ok { IfOk result (HasPassed files.now bytes.now
        (file_framing ending.now.post ending.now.after ending.now.last (view_postamble ending.now.postamble) chain.now) from) }
    ensures bad { IfErr result (IsDviFault files.now bytes.now) }
{
    let after_post = prescan_definitions(alloc, bytes, ending.after, ending.last - 5)?;
    let source = Source {
        bytes,
        files,
        after_post: &after_post,
        ending,
    };
    walk_pages(alloc, &source, from, chain)
}

/// Ends a walk at the place of post, and reads the part after post.
pub(crate) fn check_after_pages<'a>(
    bytes: &'a [u8],
    ending: &FileEnd,
    walk: &mut Walk<'_, 'a>,
) -> Result<(), DviFault<'a>>
    requires low { ending.now.after + 5 ≤ ending.now.last }
    requires high { ending.now.last ≤ length bytes.now }
    ensures ended { OnOk result (PagesHaveEnded (pass_state_of walk.old) (places_left walk.old) (map marked_page walk.old.done.items)) }
    ensures closed { OnOk result (ClosesTo bytes.now ending.now.after (ending.now.last - 5) (known_of walk.old) (known_of walk.new)) }
    ensures done { walk.new.done.items ≡ walk.old.done.items }
    ensures fonts { walk.new.fonts ≡ walk.old.fonts }
    ensures bad { IfErr result (IsFinishFault bytes.now ending.now.post ending.now.after ending.now.last (pass_state_of walk.old)
        (places_left walk.old) (known_of walk.old)) }
{
    pages_end(walk, ending.post)?;
    read_trailing_definitions(bytes, ending.after, ending.last - 5, &mut walk.known)?;
    Ok(())
}
