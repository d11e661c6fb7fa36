//! What holds of every script: the law is the contract of a function that does nothing.

ghost use Rattle.streamed.specs.OneOutput.{OneOutput};

use matchstate::laws::{a_text_reads_one_way, deal_texts_are_one_to_one};

/// A script has one output: its bytes are cut into lines in one way, each line says one thing after the lines
/// before it, and so one text is written for it.
pub fn a_script_has_one_output()
    ensures { OneOutput }
{
    a_text_reads_one_way();
    deal_texts_are_one_to_one();
}
