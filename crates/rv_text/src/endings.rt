//! What a line ends with: a number after its label.
ghost use Rattle.std.specs.Prelude.{◌≡◌, ◌++◌, OnOk, codes, decimal};
ghost use Rattle.rv_text.specs.Instructions.{hex8};
ghost use Rattle.rv_text.specs.Texts.{BeginsWith};

use crate::text::Text;
use std::alloc::AllocError;

/// Appends a label, a number in decimal, and the end of the line. An error may leave a part of it.
pub fn end_with_decimal(label: &str, number: u64, text: &mut Text) -> Result<(), AllocError>
    ensures ok { OnOk result (text.new ≡ text.old ++ (label.now ++ decimal number ++ codes "\n")) }
    ensures begins { BeginsWith text.old text.new }
{
    text.push_str(label)?;
    text.push_decimal(number)?;
    text.push_str("\n")
}

/// Appends a label, a number as eight hexadecimal digits, and the end of the line. An error may leave
/// a part of it.
pub fn end_with_hex8(label: &str, number: u32, text: &mut Text) -> Result<(), AllocError>
    ensures ok { OnOk result (text.new ≡ text.old ++ (label.now ++ hex8 number ++ codes "\n")) }
    ensures begins { BeginsWith text.old text.new }
{
    text.push_str(label)?;
    text.push_hex8(number)?;
    text.push_str("\n")
}
