// What bytes say to a reader of XML 1.0: trees of elements and texts. No code reads here, and these functions do nothing:
// the contract of each states a law of the definitions, and that it is proved is the law's proof.
#![tactic(auto)]

ghost use Rattle.reader.specs.Laws.{OneReading};
ghost use Rattle.reader.specs.Examples.{ExampleReads, ExampleUnreadable};

/// The same bytes never say two things.
#[tactic(auto, using(crate::proofs::OneReading::one_reading))]
pub fn one_reading()
    ensures law { OneReading }
{}

/// Four rows of elements, with what they say.
#[tactic(auto, using(crate::proofs::Examples::example_reads))]
pub fn example_reads()
    ensures law { ExampleReads }
{}

/// Bytes that say nothing: each breaks one rule.
#[tactic(auto, using(crate::proofs::Examples::example_unreadable))]
pub fn example_unreadable()
    ensures law { ExampleUnreadable }
{}
