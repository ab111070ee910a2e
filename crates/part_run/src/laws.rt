//! The laws over the words of a command line and over runs. Each is the contract of a function that does
//! nothing.

ghost use Rattle.part_run.specs.Completeness.{RunsComeToTheirEnd};
ghost use Rattle.part_run.specs.ModeLaws.{DeterministicRunsWriteFunction, WorkersChangeNoByte};
ghost use Rattle.part_run.specs.NumberLaws.{NumbersAreSpelled, ImbalancesAreSpelled, ImbalancesAreThese};
ghost use Rattle.part_run.specs.WordLaws.{TakenWordsAreSettings, TakenWordsStandOnce};
ghost use Rattle.part_run.specs.WordLaws.{TakenWordsAreSpelled, SettingsAreTaken};

/// The words behind the imbalance are taken exactly where each is a setting, no key stands twice, and not
/// both `mode` and `cycles` stand; each setting is then what the word with its key spells, wherever that
/// word stands.
pub fn settings_of_words()
    ensures settings { TakenWordsAreSettings }
    ensures once { TakenWordsStandOnce }
    ensures spelled { TakenWordsAreSpelled }
    ensures taken { SettingsAreTaken }
{}

/// A word is taken as a number just where it is digits whose value, each digit counting by the power of ten
/// of its place, is within the bounds. It is taken as an imbalance just where it is such digits, or digits
/// with a point and one to three more behind it, and means their value in thousandths: 100,000 at most.
pub fn numbers_of_words()
    ensures numbers { NumbersAreSpelled }
    ensures imbalances { ImbalancesAreSpelled }
    ensures these { ImbalancesAreThese }
{}

/// A run whose sources give what its command asks of them, with no overfilling, and in which no count
/// of faults rises, is done, or there was no memory.
pub fn runs_come_to_their_end()
    ensures { RunsComeToTheirEnd }
{}

/// A run of the deterministic mode writes the partition that its function tells of the hypergraph, the
/// blocks, the limit and the seed; so the number of workers changes no byte of it.
pub fn runs_of_deterministic_mode()
    ensures function { DeterministicRunsWriteFunction }
    ensures workers { WorkersChangeNoByte }
{}
