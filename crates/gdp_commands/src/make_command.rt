//! `make SEED SIZE`: the model of a seed and a size.
ghost use Rattle.std.specs.Prelude.{IfOk};
ghost use Rattle.gdp_commands.specs.Make.{MakeSays};
ghost use Rattle.gdp_commands.specs.Replies.{text_of};
ghost use Rattle.gdp_commands.specs.Statuses.{IsWorked};

use crate::replies::Reply;
use crate::status::Status;
use crate::words::Size;
use gdp_printer::model_text;
use model_maker::make_model;
use outcomes::Memory;
use std::alloc::Global;

/// The canonical text of the model.
pub fn make_command(alloc: Global, seed: u64, size: Size) -> Result<Reply, Memory>
    ensures worked { IfOk result (λ reply. IsWorked reply.status) }
    ensures says { IfOk result (λ reply. MakeSays seed size reply.status (text_of reply)) }
{
    let model = make_model(alloc, seed, size.get())?;
    Ok(Reply {
        status: Status::Done,
        text: model_text(alloc, &model)?,
    })
}
