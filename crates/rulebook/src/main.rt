// The program: reads a script of calls, from the file that its argument names or else from standard input, and prints
// the answer of each line as it comes to it.

#![tactic(auto)]

use anyhow::anyhow;
use desk::Desk;
use std::io::{Read, Write};
use std::process::ExitCode;
use std::{env, fs};
use words::Lines;

// The script's bytes.
fn read_script(rt: &HostRuntime) -> anyhow::Result<Vec<u8>> {
    let mut args = env::args(rt)?;
    let _ = args.next();
    let file = args.next();
    if args.next().is_some() {
        return Err(anyhow!("more than one argument: rulebook [FILE]"));
    }
    match file {
        Some(path) => fs::read(rt, path.as_str()).try_map_err(|e| {
            Ok(anyhow!(format!(in rt.alloc(); "cannot read {path}: {e}")?))
        }),
        None => {
            let mut script = Vec::new(rt.alloc());
            rt.stdin().read_to_end(&mut script)?;
            Ok(script)
        }
    }
}

// Answers each line. Gives back whether all were understood.
fn answer_script(rt: &HostRuntime, script: &[u8]) -> anyhow::Result<bool> {
    let mut desk = Desk::Empty;
    let mut text = Vec::new(rt.alloc());
    let mut understood = true;
    for (number, line) in (1..u64::MAX).zip(Lines::new(script)) {
        text.clear();
        if !desk.answer(rt.alloc(), number, line, &mut text)? {
            understood = false;
        }
        rt.stdout().write_all(&text)?;
    }
    Ok(understood)
}

fn run(rt: &HostRuntime) -> anyhow::Result<bool> {
    let script = read_script(rt)?;
    answer_script(rt, &script)
}

fn main(rt: HostRuntime) -> ExitCode {
    match run(&rt) {
        Ok(true) => ExitCode::SUCCESS,
        Ok(false) => ExitCode::FAILURE,
        Err(e) => {
            let _ = eprintln!(rt; "rulebook: {e}");
            ExitCode::FAILURE
        }
    }
}
