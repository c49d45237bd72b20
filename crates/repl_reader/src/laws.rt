//! Laws of the grammar by which `read_all` reads, of all texts.
ghost use Rattle.repl_reader.specs.Inside.Laws.{EveryTextReads, ReadingsAreUnique};

/// Each text reads as some forms, and a fault or none after them.
pub fn every_text_reads()
    ensures { EveryTextReads }
{}

/// No text reads in two ways.
pub fn readings_are_unique()
    ensures { ReadingsAreUnique }
{}
