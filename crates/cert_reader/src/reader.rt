//! The reader of answers.

ghost use Rattle.std.specs.Prelude.{◌≡◌, IfOk, IfErr};
ghost use Rattle.cert_grammar.specs.Answers.{answer_text_of, SpellsAnswer};
ghost use Rattle.cert_grammar.specs.Laws.{IsClaim};
ghost use Rattle.cert_reader.specs.AnswerReads.{IsAnswerRefusal};

use crate::fault::{CertError, LineFault};
use crate::taken::AnswerRead;
use answers::Answer;
use cert_lines::first_piece;
use gdp_io::Name;
use std::alloc::Global;

/// The answer whose text this is, over variables and Booleans with these names.
#[tactic(auto, using(text_reader::proofs::Following::all_left, crate::proofs::AnswerReads::line_taken, crate::proofs::AnswerReads::line_bad, crate::proofs::AnswerReads::end_good, crate::proofs::AnswerReads::end_bad))]
pub fn read_answer(
    alloc: Global,
    names: &[Name],
    booleans: &[Name],
    text: &[u8],
) -> Result<Answer, CertError>
    ensures spells { IfOk result (λ answer. SpellsAnswer names.now booleans.now text.now answer) }
    ensures sound { IfOk result (λ answer. IsClaim names.now booleans.now answer.claim) }
    ensures canonical { IfOk result (λ answer. text.now ≡ answer_text_of names.now booleans.now answer) }
    ensures refused { IfErr result (λ error. IsAnswerRefusal names.now booleans.now text.now error) }
{
    let Ok(mut read) = AnswerRead::new(alloc, booleans.len()) else {
        return Err(CertError::Memory);
    };
    let mut left = text;
    let mut line: u64 = 1;
    'lines: while !left.is_empty() {
        let (words, ended, rest) = first_piece(left);
        match read.take_line(alloc, names, booleans, words, ended) {
            Ok(()) => {
                line += 1;
                left = rest;
            }
            Err(LineFault::Refused(cause)) => return Err(CertError::At { line, cause }),
            Err(LineFault::Memory) => return Err(CertError::Memory),
        }
    }
    match read.into_answer(alloc) {
        Ok(answer) => Ok(answer),
        Err(LineFault::Refused(cause)) => Err(CertError::At { line, cause }),
        Err(LineFault::Memory) => Err(CertError::Memory),
    }
}
