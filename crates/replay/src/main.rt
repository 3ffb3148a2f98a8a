// Replays a run file on a board: each line is read, decoded, obeyed and answered.
#![tactic(auto)]

use desk::Desk;
use page::{Loss, Page, say_failure};
use source::Source;
use std::fs::File;
use std::process::ExitCode;
use std::rt::Env;
use stop::Stop;

mod desk;
mod list;
mod page;
mod source;
mod stop;

// A proved loop has to end, and nothing says that a file does: the turns are more than any run uses up.
fn replay(rt: &HostRuntime, source: &mut Source, desk: &mut Desk) -> Result<(), Stop> {
    for _ in 0..u64::MAX {
        let Some(line) = source.next_line(rt.stderr())? else {
            return Ok(());
        };
        desk.obey(rt, line)?;
        if desk.loss().is_some() {
            return Ok(());
        }
    }
    Ok(())
}

// The status is 141 where whoever reads the output wants no more, as of a program that the system ends for it.
fn replay_file(rt: &HostRuntime, file: File, path: &[u8]) -> ExitCode {
    let mut source = Source::new(file);
    let mut desk = Desk::new(Page::new(rt.stdout()));
    match replay(rt, &mut source, &mut desk) {
        Ok(()) => {}
        Err(Stop::UnreadableRun(error)) => say_failure(rt.alloc(), rt.stderr(), path, error),
        Err(stop) => {
            let line = source.line();
            let _ = eprintln!(rt; "line {line}: {stop}");
            desk.tell_stop(line);
        }
    }
    desk.flush();
    match desk.loss() {
        None => ExitCode::SUCCESS,
        Some(Loss::Unread) => ExitCode::from(141),
        Some(Loss::Unwritten) => {
            let _ = eprintln!(rt; "cannot write the output");
            ExitCode::SUCCESS
        }
    }
}

fn main(rt: HostRuntime) -> ExitCode {
    // `arg` fills a buffer, as `args` takes no path that is not UTF-8 text; this one is as long as a path may be
    let mut path = [0u8; 4096];
    let length = rt.arg(1, &mut path).unwrap_or(0);
    if length == 0 {
        let _ = eprintln!(rt; "usage: replay FILE");
        return ExitCode::SUCCESS;
    }
    let path = &path[..length];
    // Opened here, as `replay_file` has the room for a run on its stack, which a file that cannot be opened does not need.
    match source::open(&rt, path) {
        Ok(file) => replay_file(&rt, file, path),
        Err(error) => {
            say_failure(rt.alloc(), rt.stderr(), path, error);
            ExitCode::SUCCESS
        }
    }
}
