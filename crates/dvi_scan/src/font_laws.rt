//! A law about refusals of fonts and the widths that the files give.

ghost use Rattle.std.specs.Prelude.{◌≡◌, List, None};
ghost use Rattle.dvi_ops.specs.Instruction.{Definition};
ghost use Rattle.dvi_scan.specs.Widths.{IsFontRefusal};
ghost use Rattle.dvi_scan.specs.declared.widths.FontRefusal.{FontRefusal};
ghost use Rattle.tfm_core.specs.FileWidths.{file_widths};
ghost use Rattle.tfm_core.specs.NamedBytes.{NamedBytes};

/// Where a font is refused, the files give it no widths.
pub fn refused_fonts_have_no_widths()
    ensures { (files : List NamedBytes) (d : Definition) (refusal : FontRefusal) → IsFontRefusal files d refusal
        → file_widths files d.name d.size ≡ None }
{}
