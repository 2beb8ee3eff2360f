//! Laws over the definitions alone.

ghost use Rattle.texts.specs.Names.{NamesAreAll};
ghost use Rattle.texts.specs.Writing.{TermsComeBack, OutputsComeBack, UpdatesComeBack};
ghost use Rattle.texts.specs.CallWriting.{OpeningsComeBack, OwnStepsComeBack, UpdatesAreReceived, ReceivedStepsComeBack, SignsComeBack, RevokesComeBack, KeepsComeBack, ReleasesComeBack, ClosesComeBack, EntriesComeBack, DumpsComeBack};
ghost use Rattle.texts.specs.ClaimWriting.{OutpointsComeBack, SlotsComeBack, ShellsComeBack, ClaimsComeBack};

/// An object with as many members as there are names, all distinct, and with a member for each name, has no other member. So a reader that
/// asks for all its members leaves none unread.
pub fn names_are_all()
    ensures { NamesAreAll }
{}

/// A reader reads back the value that its writer wrote.
pub fn what_is_written_comes_back()
    ensures terms { TermsComeBack }
    ensures outputs { OutputsComeBack }
    ensures updates { UpdatesComeBack }
    ensures outpoints { OutpointsComeBack }
    ensures slots { SlotsComeBack }
    ensures shells { ShellsComeBack }
    ensures claims { ClaimsComeBack }
{}

/// The calls of a book, an entry and a dump are read back as they were written. Their claims come back with scripts in place of paths.
pub fn what_is_dumped_comes_back()
    ensures openings { OpeningsComeBack }
    ensures own_steps { OwnStepsComeBack }
    ensures received_updates { UpdatesAreReceived }
    ensures received_steps { ReceivedStepsComeBack }
    ensures signs { SignsComeBack }
    ensures revokes { RevokesComeBack }
    ensures keeps { KeepsComeBack }
    ensures releases { ReleasesComeBack }
    ensures closes { ClosesComeBack }
    ensures entries { EntriesComeBack }
    ensures dumps { DumpsComeBack }
{}
