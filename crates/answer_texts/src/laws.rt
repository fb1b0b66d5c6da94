//! Laws of answers and their texts.

ghost use Rattle.std.specs.Prelude.{◌≡◌, IfOk, IfErr, length};
ghost use Rattle.cert_reader.specs.AnswerReads.{IsAnswerRefusal};
ghost use Rattle.cert_writer.specs.Lengths.{IsLong};
ghost use Rattle.cert_grammar.specs.Laws.{AreNamed};
ghost use Rattle.answer_texts.specs.Laws.{OneAnswer};
ghost use Rattle.answer_texts.specs.ModelNames.{ModelNames};

use answers::Answer;
use cert_reader::{CertError, read_answer};
use cert_writer::answer_text;
use gdp_io::{Name, Text};
use std::alloc::Global;

/// Two answers with one text are one answer.
pub fn one_answer()
    ensures { OneAnswer }
{}

/// The names of every model may stand in an answer.
pub fn model_names()
    ensures { ModelNames }
{}

/// Writes an answer and reads it again: what is read is that answer, unless memory runs out.
#[tactic(auto, using(crate::proofs::ReadAgain::same_answer, crate::proofs::ReadAgain::never_bad))]
pub fn read_again(
    alloc: Global,
    names: &[Name],
    booleans: &[Name],
    answer: &Answer,
) -> Result<Answer, CertError>
    requires long { IsLong (length names.now) (length booleans.now) answer.now.claim }
    requires named { AreNamed names.now booleans.now }
    ensures same { IfOk result (λ again. again ≡ answer.now) }
    ensures memory { IfErr result (λ error. error ≡ CertError.Memory) }
{
    match answer_text(alloc, names, booleans, answer) {
        Err(_) => Err(CertError::Memory),
        Ok(text) => read_answer(alloc, names, booleans, text.as_slice()),
    }
}

/// Reads an answer and writes it again: what is written is that text.
#[tactic(auto, using(crate::proofs::ReadAgain::claim_long))]
pub fn write_again(
    alloc: Global,
    names: &[Name],
    booleans: &[Name],
    text: &[u8],
) -> Result<Text, CertError>
    ensures same { IfOk result (λ again. again ≡ text.now) }
    ensures refused { IfErr result (λ error. IsAnswerRefusal names.now booleans.now text.now error) }
{
    match read_answer(alloc, names, booleans, text) {
        Err(error) => Err(error),
        Ok(answer) => match answer_text(alloc, names, booleans, &answer) {
            Err(_) => Err(CertError::Memory),
            Ok(again) => Ok(again),
        },
    }
}
