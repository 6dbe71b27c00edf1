//! A law over the definitions that the lines cite: no code stands behind it.
ghost use Rattle.disclosure_audit.specs.Laws.{OneEntry};

/// No line is that of two entries.
pub fn one_entry()
    ensures { OneEntry }
{}
