//! A law of batches.
ghost use Rattle.laz_reader.specs.Reading.{BatchesJoin};

/// A law: batches, one after another, are what is read up to the first piece that holds no records of its count.
pub fn batches_join()
    ensures { BatchesJoin }
{}
