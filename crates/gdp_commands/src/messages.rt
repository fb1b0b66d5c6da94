//! The lines that the program writes.
ghost use Rattle.std.specs.Prelude.{◌≡◌, ◌++◌, IfOk};
ghost use Rattle.std.specs.Fmt.{decimal};
ghost use Rattle.gdp_commands.specs.Messages.{line};

use gdp_io::Text;
use outcomes::Memory;
use std::alloc::Global;

/// A line of two parts.
pub fn make_line(alloc: Global, first: &[u8], second: &[u8]) -> Result<Text, Memory>
    ensures { IfOk result (λ text. text ≡ line (first.now ++ second.now)) }
{
    let mut text = Text::new(alloc);
    text.append(alloc, first)?;
    text.append(alloc, second)?;
    text.push(alloc, b'\n')?;
    Ok(text)
}

/// A line that names a line of a text by its number.
pub fn make_place(alloc: Global, before: &[u8], mark: u32) -> Result<Text, Memory>
    ensures { IfOk result (λ text. text ≡ line (before.now ++ decimal mark)) }
{
    let number = mark.to_string(alloc)?;
    make_line(alloc, before, number.as_bytes())
}
