//! Laws: worked lines, by which the definitions of the script are tried. They cost nothing to call.
ghost use Rattle.std.specs.Prelude.{◌≡◌};
ghost use Rattle.frame_table.specs.Named.{TableName, PassView, HeldView};
ghost use Rattle.ksm_script.specs.Worked.{shape, CommandLines, ReadingLines, LookupLines};

/// What lines that are commands are answered, and what never.
pub fn command_lines()
    ensures { (t : TableName) → CommandLines t }
{}

/// What lines that read the book are answered, and what never.
pub fn reading_lines()
    ensures { (t : TableName) → ReadingLines t }
{}

/// What lines of the passes are answered, and what never.
pub fn lookup_lines()
    ensures { (v : PassView) (h k : HeldView) → v.table.shape ≡ shape 1 4 → LookupLines v h k }
{}
