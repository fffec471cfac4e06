//! What is true of the definitions.
ghost use Rattle.fst_code.specs.Examples.{FirstExample, SecondExample};
ghost use Rattle.fst_code.specs.Laws.{EncodingLaw, OneText, ReadingLaw, TransducerLaw, ValidLaw};

/// Valid nodes have valid bytes, from which they are read again.
pub fn valid_nodes_have_valid_bytes()
    ensures { EncodingLaw }
{}

/// Nodes of the right shape that break no rule are valid.
pub fn nodes_that_break_no_rule_are_valid()
    ensures { ReadingLaw }
{}

/// Valid bytes are the encoding of their nodes, which are none or valid.
pub fn valid_bytes_encode_their_nodes()
    ensures { ValidLaw }
{}

/// The nodes of valid bytes are those of a transducer.
pub fn valid_bytes_hold_a_transducer()
    ensures { TransducerLaw }
{}

/// Two valid texts that map one list are the same text.
pub fn one_list_has_one_text()
    ensures { OneText }
{}

/// The format's first example is valid, and maps its two paths.
pub fn the_first_example_is_valid()
    ensures { FirstExample }
{}

/// The format's second example breaks rule 8 at 24.
pub fn the_second_example_repeats_a_node()
    ensures { SecondExample }
{}
