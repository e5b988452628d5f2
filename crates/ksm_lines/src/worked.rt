//! Laws: worked lines, by which the grammar is tried. They cost nothing to call.
ghost use Rattle.ksm_lines.specs.Worked.{BadLines};

/// Which bytes are no line.
pub fn bad_lines()
    ensures { BadLines }
{}
