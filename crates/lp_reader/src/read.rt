//! LP texts as programs.

ghost use Rattle.std.specs.Prelude.{◌≡◌, ◌-◌, ◌^◌, ◌<◌, length, Ok, IfOk, IfErr};
ghost use Rattle.outcomes.specs.Calls.{OrMemory};
ghost use Rattle.lp_grammar.specs.Canonical.{lp_text_of};
ghost use Rattle.lp_grammar.specs.Laws.{written_program};
ghost use Rattle.lp_grammar.specs.Programs.{IsMilp};
ghost use Rattle.milps.specs.Milps.{MilpValue};
ghost use Rattle.lp_grammar.specs.Spelling.{LpSpells};
ghost use Rattle.lp_reader.specs.declared.read.LpError.TheVariants.{Memory};
ghost use Rattle.lp_grammar.specs.Taking.{nothing_taken};
ghost use Rattle.lp_reader.specs.Kept.{most_items, IsKept};
ghost use Rattle.lp_reader.specs.Read.{Follows, LinesTell, IsBad};
ghost use Rattle.lp_reader.specs.Taken.{taken_of};

use crate::program::LpFile;
use crate::taking::Taking;
use lp_grammar::LpCause;
use lp_tokens::first_line;
use std::alloc::Global;

/// Why an LP text is no program.
#[derive(Clone, Copy, Debug, PartialEq, Eq)]
pub enum LpError {
    /// The first bad line, or the line behind the last where something is missing, and the cause.
    At { line: u32, cause: LpCause },
    /// Memory ran out.
    Memory,
}

impl Taking {
    /// Takes the lines of a text; the number of the line behind the last.
    fn take_lines(&mut self, alloc: Global, text: &[u8]) -> Result<u32, LpError>
        requires start { taken_of self.old ≡ nothing_taken }
        requires short { length text.now < 2 ^ 32 - 1 }
        ensures kept { IfOk result (λ number. IsKept most_items (taken_of self.new)) }
        ensures lines { IfOk result (Follows text.now (taken_of self.old) (taken_of self.new)) }
        ensures bad { IfErr result (LinesTell text.now (taken_of self.old)) }
    {
        let mut left = text;
        let mut number: u32 = 1;
        'lines: while !left.is_empty() {
            let (line, rest) = first_line(left);
            match self.take_line(alloc, line, rest) {
                Err(_) => return Err(LpError::Memory),
                Ok(Some(cause)) => {
                    return Err(LpError::At {
                        line: number,
                        cause,
                    });
                }
                Ok(None) => {}
            }
            number += 1;
            left = rest;
        }
        Ok(number)
    }
}

/// The program that a text spells, or its first bad line and the cause.
fn read_text(alloc: Global, text: &[u8]) -> Result<LpFile, LpError>
    requires { length text.now < 2 ^ 32 - 1 }
    ensures spelled { IfOk result (LpSpells text.now) }
    ensures bad { IfErr result (IsBad text.now) }
{
    let mut taking = Taking::new(alloc);
    match taking.take_lines(alloc, text) {
        Err(error) => Err(error),
        Ok(end) => {
            if taking.is_unfinished() {
                return Err(LpError::At {
                    line: end,
                    cause: LpCause::Form,
                });
            }
            match taking.into_program(alloc) {
                Err(_) => Err(LpError::Memory),
                Ok(None) => Err(LpError::At {
                    line: end,
                    cause: LpCause::Limit,
                }),
                Ok(Some(program)) => Ok(program),
            }
        }
    }
}

/// The program that a text spells, or its first bad line and the cause.
///
/// The text that is written of a program gives that program, with constant 0 and scale 1.
pub fn read_lp(alloc: Global, text: &[u8]) -> Result<LpFile, LpError>
    requires { length text.now < 2 ^ 32 - 1 }
    ensures spelled { IfOk result (LpSpells text.now) }
    ensures bad { IfErr result (IsBad text.now) }
    ensures written { (m : MilpValue) → IsMilp m → text.now ≡ lp_text_of m → OrMemory Memory result (Ok (written_program m)) }
{
    read_text(alloc, text)
}
