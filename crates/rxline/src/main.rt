//! The line server: it reads script lines from standard input and answers on standard output.
//!
//! `rx_program::run_words` is the program over any streams; `main` hands it the standard ones.
//!
//! At a terminal the program says that it reads a script, on standard error, where it was given no words: that its input is a
//! terminal needs no handle, and what it writes and ends with is as without.
#![tactic(auto)]

ghost use Rattle.std.specs.Prelude.{map};
ghost use Rattle.std.specs.Process.{exit_status};
ghost use Rattle.rx_program.specs.Programs.{Program};

use rx_program::{Host, Plain, ProgramFault, run_words, tell};
use std::alloc::AllocError;
use std::env;
use std::io::{self, IsTerminal, Read, Write};
use std::process::ExitCode;

// What is told at a terminal, where else nothing would show that lines are waited for.
const READS_A_SCRIPT: &str =
    "rxline: reading a script from the terminal; QUIT ends it, and rxline --help tells its lines";

fn main(rt: HostRuntime) -> ExitCode {
    let mut faults = rt.stderr();
    let args = match args_of(&rt) {
        Ok(args) => args,
        Err(error) if error.kind() == io::ErrorKind::OutOfMemory => return no_memory(&mut faults),
        Err(_) => {
            let _ = writeln!(faults, "error: a word is not UTF-8");
            return ExitCode::from(2);
        }
    };
    let Ok(words) = words_of(&rt, &args) else {
        return no_memory(&mut faults);
    };
    let mut reader = rt.stdin();
    if words.is_empty() && reader.is_terminal() {
        let _ = writeln!(faults, "{READS_A_SCRIPT}");
    }
    let mut writer = rt.stdout();
    if writer.is_terminal() {
        let mut shown = Plain::new(&mut writer);
        return run(
            &rt,
            words.as_slice(),
            &mut reader,
            &mut shown,
            &mut faults,
            rt.stderr(),
        );
    }
    run(
        &rt,
        words.as_slice(),
        &mut reader,
        &mut writer,
        &mut faults,
        rt.stderr(),
    )
}

// The program over these streams. The process ends with its status.
fn run<'a, F: Host, R: Read, W: Write, E: Write, L: Write + Drop + Send + 'static>(
    rt: &F,
    words: &'a [&'a str],
    reader: &mut R,
    writer: &mut W,
    faults: &mut E,
    log: L,
) -> ExitCode
    ensures { Program (map (λ s. s.now) words.entry.now) (exit_status result) (record { left = R.remaining reader.old; written = W.contents writer.old }) (record { left = R.remaining reader.new; written = W.contents writer.new }) (E.contents faults.old) (E.contents faults.new) }
{
    ExitCode::from(run_words(rt, words, reader, writer, faults, log))
}

// The words of the command line, the program's name first.
fn args_of(rt: &HostRuntime) -> io::Result<Vec<String>> {
    Ok(env::args(rt)?.collect(rt.alloc())?)
}

// The words behind the program's name.
fn words_of<'a>(rt: &HostRuntime, args: &'a Vec<String>) -> Result<Vec<&'a str>, AllocError> {
    let mut words = Vec::new(rt.alloc());
    for arg in args.iter().skip(1) {
        words.push(arg.as_str())?;
    }
    Ok(words)
}

fn no_memory<E: Write>(faults: &mut E) -> ExitCode {
    let _ = tell(ProgramFault::Memory, faults);
    ExitCode::FAILURE
}
