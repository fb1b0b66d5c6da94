//! What a command answers, and what it answers where a text is not read or is refused.
ghost use Rattle.std.specs.Prelude.{◌≡◌, IfOk};
ghost use Rattle.gdp_commands.specs.Messages.{cause_name, refused_at, refused_for};
ghost use Rattle.gdp_commands.specs.Replies.{ReadFailed, text_of};

use crate::messages::make_line;
use crate::status::Status;
use gdp_grammar::ReadCause;
use gdp_io::{ReadAllError, Text};
use outcomes::Memory;
use std::alloc::Global;

/// What a command answers: a status, and the text that goes with it.
#[derive(Debug, Drop)]
pub struct Reply {
    pub status: Status,
    pub text: Text,
}

/// The name of a cause.
fn name_of(cause: ReadCause) -> &'static [u8]
    ensures { result.now ≡ cause_name cause }
{
    match cause {
        ReadCause::Header => b"Header",
        ReadCause::Form => b"Form",
        ReadCause::NameTwice => b"NameTwice",
        ReadCause::NameUnknown => b"NameUnknown",
        ReadCause::Number => b"Number",
        ReadCause::Nesting => b"Nesting",
        ReadCause::Unclosed => b"Unclosed",
        ReadCause::Limit => b"Limit",
        ReadCause::Missing => b"Missing",
    }
}

/// What a command answers where the text behind a name is refused at a line for what is written behind it.
pub fn refuse_for(alloc: Global, name: &str, line: u64, why: &[u8]) -> Result<Reply, Memory>
    ensures { IfOk result (λ reply. (reply.status ≡ Status.Text) × (text_of reply ≡ refused_for name.now line why.now)) }
{
    let number = line.to_string(alloc)?;
    let mut text = Text::new(alloc);
    text.append(alloc, name.as_bytes())?;
    text.append(alloc, b": line ")?;
    text.append(alloc, number.as_bytes())?;
    text.append(alloc, b": ")?;
    text.append(alloc, why)?;
    text.push(alloc, b'\n')?;
    Ok(Reply {
        status: Status::Text,
        text,
    })
}

/// What a command answers where the text of a model or of a point is refused at a line.
pub fn refuse_at(alloc: Global, name: &str, line: u32, cause: ReadCause) -> Result<Reply, Memory>
    ensures { IfOk result (λ reply. (reply.status ≡ Status.Text) × (text_of reply ≡ refused_at name.now line cause)) }
{
    refuse_for(alloc, name, u64::from(line), name_of(cause))
}

/// What a command answers where the text behind a name was not read.
pub fn read_failed(alloc: Global, error: ReadAllError, name: &str) -> Result<Reply, Memory>
    ensures { IfOk result (λ reply. ReadFailed error name.now reply.status (text_of reply)) }
{
    let (status, text) = match error {
        ReadAllError::Read => (
            Status::Read,
            make_line(alloc, b"read fault: ", name.as_bytes())?,
        ),
        ReadAllError::TooLong => (
            Status::Text,
            make_line(alloc, name.as_bytes(), b": too long")?,
        ),
        ReadAllError::Memory => return Err(Memory),
    };
    Ok(Reply { status, text })
}
