//! Playing a script to its end.

use crate::texts::shown;
use crate::trouble::Trouble;
use std::io;
use std::io::Read;
use std::process::ExitCode;

/// What plays the lines of a script. It keeps what they have made.
pub trait Player {
    /// Plays a line, and says what it answers.
    fn play(&mut self, rt: &HostRuntime, line: &str) -> Result<String, Trouble>;
}

// What a line answers. One that begins with `#` heads those below it, and is its own answer.
fn answer_to<P: Player>(rt: &HostRuntime, player: &mut P, line: &str) -> Result<String, Trouble> {
    if line.starts_with('#') {
        return shown(rt.alloc(), &line);
    }
    player.play(rt, line)
}

// Plays each line of the standard input, and prints what it answers.
fn play_lines<P: Player>(rt: &HostRuntime, player: &mut P) -> Result<(), Trouble> {
    let mut text = String::new(rt.alloc());
    rt.stdin().read_to_string(&mut text)?;
    for line in text.as_str().lines() {
        let answer = answer_to(rt, player, line)?;
        println!(rt; "{answer}")?;
    }
    Ok(())
}

/// Plays the script in the standard input, and prints what its lines answer.
pub fn play_script<P: Player>(rt: &HostRuntime, player: &mut P) -> ExitCode {
    match play_lines(rt, player) {
        Ok(()) => ExitCode::SUCCESS,
        Err(_) => ExitCode::FAILURE,
    }
}
