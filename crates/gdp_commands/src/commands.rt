//! The top call, and the command that it picks.
ghost use Rattle.std.specs.Prelude.{◌≡◌, ◌≢◌, ◌⊎◌, ◌↔◌, ℕ, List, IfOk, codes};
ghost use Rattle.gdp_io.specs.Causes.{Rose, one_more_fault};
ghost use Rattle.gdp_io.specs.Shelf.{OpensNone, OpensFirst};
ghost use Rattle.gdp_io.specs.Sink.{grown, WrotePrefix};
ghost use Rattle.gdp_commands.specs.Answers.{IsReplyTo, Says, SaysFault, NoFault};
ghost use Rattle.gdp_commands.specs.Command.{form_of};
ghost use Rattle.gdp_commands.specs.Messages.{line};
ghost use Rattle.gdp_commands.specs.Replies.{text_of};
ghost use Rattle.gdp_commands.specs.Statuses.{IsOut, IsRefused, IsWorked};
ghost use Rattle.gdp_commands.specs.Streams.{Sent};
ghost use Rattle.gdp_commands.specs.Words.{Form, IsForm, NoForm, names_of, words_of};

use crate::bench_command::bench_command;
use crate::check_command::check_command;
use crate::compile_command::compile_command;
use crate::format_command::format_command;
use crate::lp_command::lp_command;
use crate::make_command::make_command;
use crate::replies::Reply;
use crate::solve_command::solve_command;
use crate::status::Status;
use crate::streams::{deliver, say};
use crate::test_command::test_command;
use crate::words::{Command, parse_words};
use gdp_io::{Shelf, Sink};
use outcomes::Memory;
use std::alloc::Global;

/// Runs the command of the words over a shelf, and writes what it answers. What each command answers is a table of its
/// own, as that of `test` in `specs/Test.antt`.
pub fn run<S: Shelf, K: Sink, E: Sink>(
    alloc: Global,
    words: &[String],
    shelf: &mut S,
    out: &mut K,
    err: &mut E,
) -> Status
    // 7, exactly where the words are of no form
    ensures words { result ≡ Status.Words ↔ NoForm (words_of words.now) }

    // 0, 1 and 3: `out` got the text that the command answers, and `err` nothing.
    ensures out { (form : Form) → IsForm (words_of words.now) form → IsOut result →
        (text : List ℕ) × Says form (S.contents shelf.old) result text × (K.written out.new ≡ grown (K.written out.old) text)
        × (E.written err.new ≡ E.written err.old) }

    // 2 and 4: `err` got the text that the command answers.
    ensures refused { (form : Form) → IsForm (words_of words.now) form → IsRefused result →
        (text : List ℕ) × Says form (S.contents shelf.old) result text
        × Sent (E.written err.old) (E.written err.new) (E.faults err.old) (E.faults err.new) text }

    // 5: the count of a name that the command reads rose, and `err` got that name.
    ensures read { (form : Form) → IsForm (words_of words.now) form → result ≡ Status.Read →
        (text : List ℕ) × SaysFault form (S.contents shelf.old) (S.faults shelf.old) (S.faults shelf.new) text
        × Sent (E.written err.old) (E.written err.new) (E.faults err.old) (E.faults err.new) text }

    // 6: the count of `out` rose, and `out` got a part of the text that the command answers.
    ensures write { (form : Form) → IsForm (words_of words.now) form → result ≡ Status.Write →
        Rose (K.faults out.old) (K.faults out.new)
        × ((status : Status) × (text : List ℕ) × IsOut status × Says form (S.contents shelf.old) status text × WrotePrefix (K.written out.old) (K.written out.new) text)
        × Sent (E.written err.old) (E.written err.new) (E.faults err.old) (E.faults err.new) (line (codes "write fault")) }

    // 7 and 8 say so on `err`.
    ensures words_text { result ≡ Status.Words → Sent (E.written err.old) (E.written err.new) (E.faults err.old) (E.faults err.new) (line (codes "words refused")) }
    ensures memory_text { result ≡ Status.Memory → Sent (E.written err.old) (E.written err.new) (E.faults err.old) (E.faults err.new) (line (codes "out of memory")) }

    // On 2, 4, 5, 7 and 8 `out` gets nothing.
    ensures quiet { ¬ IsOut result → result ≢ Status.Write → K.written out.new ≡ K.written out.old }

    // Where no count rose, a command answers by its texts, or runs out of memory.
    ensures complete { (form : Form) → IsForm (words_of words.now) form → NoFault form (S.faults shelf.old) (S.faults shelf.new)
        → ¬ Rose (K.faults out.old) (K.faults out.new) → IsWorked result ⊎ (result ≡ Status.Memory) }

    // Names are opened only as the command reads them, each once, in order; of words of no form none is.
    ensures opens { (form : Form) → IsForm (words_of words.now) form → OpensFirst (S.is_opened shelf.old) (S.is_opened shelf.new) (names_of form) }
    ensures opens_none { NoForm (words_of words.now) → OpensNone (S.is_opened shelf.old) (S.is_opened shelf.new) }

    // A write to `out` fails at most once; then the answer is 6, and nothing more is written to it.
    ensures unfailed { result ≢ Status.Write → K.faults out.new ≡ K.faults out.old }
    ensures stopped { result ≡ Status.Write → (K.faults out.new ≡ one_more_fault (K.faults out.old)) × K.has_failed out.new }
{
    let Some(command) = parse_words(words) else {
        say(err, b"words refused\n");
        return Status::Words;
    };
    match answer(alloc, command, shelf) {
        Ok(reply) => deliver(&reply, out, err),
        Err(_) => {
            say(err, b"out of memory\n");
            Status::Memory
        }
    }
}

/// What a command answers. It writes nothing.
fn answer<S: Shelf>(alloc: Global, command: Command<'_>, shelf: &mut S) -> Result<Reply, Memory>
    ensures replies { IfOk result (λ reply. IsReplyTo (form_of command.entry) (S.contents shelf.old) (S.faults shelf.old) (S.faults shelf.new) reply.status (text_of reply)) }
    ensures opens { OpensFirst (S.is_opened shelf.old) (S.is_opened shelf.new) (names_of (form_of command.entry)) }
{
    match command {
        Command::Test { model, point } => test_command(alloc, shelf, model, point),
        Command::Format { model } => format_command(alloc, shelf, model),
        Command::Compile { choice, model } => compile_command(alloc, shelf, choice, model),
        Command::Solve {
            route,
            steps,
            model,
        } => solve_command(alloc, shelf, route, steps, model),
        Command::Check { model, answer } => check_command(alloc, shelf, model, answer),
        Command::Make { seed, size } => make_command(alloc, seed, size),
        Command::Bench {
            route,
            steps,
            seed,
            size,
        } => bench_command(alloc, route, steps, seed, size),
        Command::Lp { steps, file } => lp_command(alloc, shelf, steps, file),
    }
}
