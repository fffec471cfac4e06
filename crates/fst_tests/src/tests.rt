//! Tests of register, codec and builder: the worked examples, lists beside an outside model, and
//! the check of damaged bytes.
mod check;
mod examples;
mod lists;
mod model;
mod same;
mod texts;
