//! The law that no line has two meanings.
ghost use Rattle.admin_text.specs.Grammar.{OneMeaning};

/// No line asks for two things.
pub fn one_meaning()
    ensures { OneMeaning }
{}
