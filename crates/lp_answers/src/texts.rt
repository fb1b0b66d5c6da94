//! The texts of answers.

ghost use Rattle.std.specs.Prelude.{◌≡◌, IfOk};
ghost use Rattle.lp_answers.specs.Texts.{IsBestText, IsEndlessText, best_text_of, empty_text_of, endless_text_of};

use crate::lines::{put_numbers, put_point, put_value};
use crate::points::{first_numbers, lowest_in};
use crate::values::value_of;
use fractions::Frac;
use gdp_io::Text;
use lp_reader::LpFile;
use lp_rows::{Nums, Point};
use lp_tokens::Names;
use outcomes::Memory;
use std::alloc::Global;
use text_printer::end_line;

/// Why a best point is not written.
#[derive(Clone, Copy, Debug, PartialEq, Eq)]
pub enum LpTextError {
    /// A number on the way to the objective's value leaves 128 bits.
    Value,
    /// Memory ran out.
    Memory,
}

/// The text of a best point: the value of the file's objective, and the point in lowest terms.
pub fn best_text(alloc: Global, file: &LpFile, at: &Point) -> Result<Text, LpTextError>
    ensures { IsBestText file.now at.now result }
{
    let names = file.names();
    let Ok(lowest) = lowest_in(alloc, names.len(), at) else {
        return Err(LpTextError::Memory);
    };
    let milp = file.milp();
    let _cols = milp.cols();
    let Ok(value) = value_of(milp.goal(), file.constant(), file.scale(), &lowest) else {
        return Err(LpTextError::Value);
    };
    match write_best(alloc, names, &lowest, value) {
        Ok(text) => Ok(text),
        Err(Memory) => Err(LpTextError::Memory),
    }
}

// The text of a best point with its value.
fn write_best(alloc: Global, names: &Names, at: &Point, value: Frac) -> Result<Text, Memory>
    ensures { IfOk result (λ text. text ≡ best_text_of names.now at.now value) }
{
    let mut text = Text::from_slice(alloc, b"gdp-lp 1\nbest")?;
    put_value(alloc, &mut text, value)?;
    end_line(alloc, &mut text)?;
    put_point(alloc, &mut text, names, at)?;
    text.append(alloc, b"end\n")?;
    Ok(text)
}

/// The text that says that there is no point.
pub fn empty_text(alloc: Global) -> Result<Text, Memory>
    ensures { IfOk result (λ text. text ≡ empty_text_of) }
{
    Text::from_slice(alloc, b"gdp-lp 1\nempty\nend\n")
}

/// The text of a point in lowest terms, and of a ray along which the objective has no limit.
pub fn endless_text(alloc: Global, file: &LpFile, at: &Point, ray: &Nums) -> Result<Text, Memory>
    ensures { IfOk result (IsEndlessText file.now at.now ray.now) }
{
    let names = file.names();
    let lowest = lowest_in(alloc, names.len(), at)?;
    let steps = first_numbers(alloc, ray.as_slice(), names.len())?;
    write_endless(alloc, names, &lowest, &steps)
}

// The text of a point and a ray.
fn write_endless(alloc: Global, names: &Names, at: &Point, steps: &Nums) -> Result<Text, Memory>
    ensures { IfOk result (λ text. text ≡ endless_text_of names.now at.now steps.now) }
{
    let mut text = Text::from_slice(alloc, b"gdp-lp 1\nendless\n")?;
    put_point(alloc, &mut text, names, at)?;
    put_numbers(alloc, &mut text, b"step", names, steps.as_slice())?;
    text.append(alloc, b"end\n")?;
    Ok(text)
}
