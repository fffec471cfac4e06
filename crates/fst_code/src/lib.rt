//! The bytes of a transducer: their rules, a check that names the first broken one, views of the
//! nodes, and writing. The builder writes them, and walks and segments read them. Contracts see a
//! transducer as its bytes, and these as nodes, which map a list of paths to their costs.
#![tactic(auto)]

mod arc_rules;
mod arcs;
mod error;
mod faults;
mod framing;
mod laws;
mod layout;
mod node_ref;
mod numbering;
mod numbers;
mod path_rules;
mod repeated_nodes;
mod transducer;
mod writing;

pub use error::CodeError;
pub use laws::{
    nodes_that_break_no_rule_are_valid, one_list_has_one_text, the_first_example_is_valid,
    the_second_example_repeats_a_node, valid_bytes_encode_their_nodes,
    valid_bytes_hold_a_transducer, valid_nodes_have_valid_bytes,
};
pub use node_ref::NodeRef;
pub use transducer::Transducer;
pub use writing::{put_header, put_node, put_number};
