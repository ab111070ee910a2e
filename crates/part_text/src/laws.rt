ghost use Rattle.part_text.specs.Laws.{PartIsReadBack};

/// The text of a partition, read back, is the partition.
pub fn part_is_read_back()
    ensures { PartIsReadBack }
{}
