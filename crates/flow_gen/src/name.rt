//! The names of the files that rules make.
ghost use Rattle.std.specs.Prelude.{◌≡◌, ◌++◌, IfOk, OnOk, string_bytes};
ghost use Rattle.flow_gen.specs.Generated.{made_name};

use flow_types::{Memory, Text};
use itoa::Buffer;
use std::alloc::{AllocError, Global};

/// Writes the name of the file that a rule makes.
pub(crate) fn add_name(out: &mut String, rule: u32) -> Result<(), AllocError>
    ensures { OnOk result (string_bytes out.new ≡ string_bytes out.old ++ made_name rule) }
{
    let mut buffer = Buffer::new();
    out.push_str("g")?;
    out.push_str(buffer.format(rule))
}

/// The name of the file that a rule makes.
pub(crate) fn made_name(alloc: Global, rule: u32) -> Result<Text, Memory>
    ensures { IfOk result (λ name. name ≡ made_name rule) }
{
    let mut out = String::new(alloc);
    match add_name(&mut out, rule) {
        Ok(()) => Ok(Text::from_string(out)),
        Err(_) => Err(Memory),
    }
}
