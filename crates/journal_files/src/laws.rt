//! Laws: what is written and what is read are one format. Their functions do nothing; their clauses are what is proved.
ghost use Rattle.std.specs.Prelude.{◌≡◌, ◌∷◌, ◌++◌, [], List};
ghost use Rattle.event_journal.specs.declared.entry.Entry.{Entry};
ghost use Rattle.journal_files.specs.Format.{octets_of, history_in_octets};
ghost use Rattle.journal_files.specs.Laws.{EntryReadBack, EntryWrittenBack, FileReadBack, FileWrittenBack};
ghost use Rattle.journal_files.specs.Streaming.{StepByStep, FaultStays, HeadStays};

/// The octets by which an entry is written are read as that entry, whatever follows them.
pub fn entry_read_back()
    ensures { EntryReadBack }
{}

/// An entry that is read is written by exactly the octets that it was read from.
pub fn entry_written_back()
    ensures { EntryWrittenBack }
{}

/// The file of a history within the greatest limits is read as that history.
pub fn file_read_back()
    ensures { FileReadBack }
{}

/// A file that is read as a history is the file by which that history is written. So no two files say one history.
pub fn file_written_back()
    ensures { FileWrittenBack }
{}

/// The octets of a history with one entry more are those of the history, and then those of the entry. So what was
/// written entry by entry is the file.
pub fn file_grows()
    ensures { (h : List Entry) (entry : Entry)
        → history_in_octets (h ++ entry ∷ []) ≡ history_in_octets h ++ octets_of entry }
{}

/// A file is read by one step after another, each of which finds the entry, the end or the fault that reading the whole
/// file finds there.
pub fn step_by_step()
    ensures { StepByStep }
{}

/// A fault that octets show is that of each file that begins with them, unless it is that the file is cut off. So the
/// fault at which a reader stops is the file's first.
pub fn fault_stays()
    ensures head { HeadStays }
    ensures step { FaultStays }
{}
