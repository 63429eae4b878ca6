// The words of a command line, the help, and what they ask for.
ghost use Rattle.std.specs.Prelude.{◌≡◌, ◌⊎◌, IfOk, MatchOption, MatchResult, Some, codes, false, map, option_map};
ghost use Rattle.clap.specs.Words.{app_of, first_of, found_of, kind_of, new_app, rows_of, rule_of, subcommand_rows_of, with_rule, with_subcommand};
ghost use Rattle.clap.specs.declared.Command.{out-Command};
ghost use Rattle.clap.specs.declared.error.kind.ErrorKind.TheVariants.{OutOfMemory};
ghost use Rattle.rx_program.specs.CommandLines.{Asks, IsAgainst, IsNamedBy, NamesNone, audit_app, check_app, line_app, path, place, pub_app, script_app, serve_app, socket, stats_app, stop_app, sub_app, top_app, with_clients};

pub(crate) mod client_words;
pub(crate) mod refused_words;
pub(crate) mod subscription;
pub(crate) mod task;

use crate::command_line::client_words::{
    publish_command, publish_in, stats_command, stats_in, stop_command, stop_in, subscribe_command,
    subscribe_in,
};
use crate::command_line::task::Task;
use clap::error::ErrorKind;
use clap::{Arg, ArgMatches, Command, Error};
use std::alloc::{AllocError, Global};

const CONFIG: &str = "config";

pub(crate) const SOCKET: &str = "socket";

const VERSION: &str = "0.1.0";

// The commands that there are, as the usage line of the program names them.
const COMMANDS: &str =
    "script <config> | audit <config> | check <config> [socket] | serve <config> <socket> | pub <socket> <subject> [text] | sub <socket> <subject> | stats <socket> | stop <socket>";

const ABOUT: &str = "Multicasts items to observers by the lines of a script.";

const EXAMPLE: &str = "\
Without a command a script is run with one Publish subject, s.

A script is read from standard input, one line a command:
  PUB s hello               emits an item
  JOIN s BUFFER DELAY 1     lets an observer join, which asks for 1 item
  REQUEST s 0 5             lets observer 0 ask for 5 more
  END s, FAIL s why         completes a subject, or fails it
  DISPOSE s 0               lets observer 0 leave
  AT 1000                   sets the moment of what follows, in milliseconds
  HELLO 2                   has items told with their place and port from now on
  QUIT                      ends the run

Example:
  printf 'JOIN s BUFFER DELAY 1\\nPUB s hello\\n' | rxline
prints
  OK 0
  OK
  s 0 NEXT hello

A session on the socket of 'rxline serve' takes PUB, END, FAIL, HELLO and QUIT too, and
  SUB s BUFFER DELAY        makes the connection an observer's, to which notes are sent
A server ends once as many connections have ended as its configuration says, or by a
signal. 'rxline serve --help' says more, with an example. 'rxline pub' emits to it,
'rxline sub' follows one of its subjects, 'rxline stats' shows what is seen of them, and
'rxline stop' has it end without a loss.

The exit status is 0 after a finished run, 1 after a fault, and 2 after a wrong command line.";

const SERVE_EXAMPLE: &str = "\
A connection is a session. Its lines, and what they are answered:
  PUB s hello               emits an item: OK
  END s, FAIL s why         completes a subject, or fails it, for good: OK
  SUB s BUFFER DELAY        makes the connection an observer's: JOINED and its number,
                            then NEXT and an item each, at last DONE or FAILED and why
  HELLO 2                   has a SUB behind it tell the place and port of items: OK
  QUIT                      ends the session: OK
What can't be is answered ERR and a word. For BUFFER may stand DROP:n, LATEST:n or
BOUNDED:n, with room for n items, and for DELAY, by which an error waits behind the
items, AHEAD.

Example, in three terminals, with a configuration of one subject, s:
  rxline serve server.toml hazoxe.sock
  printf 'SUB s BUFFER DELAY\\n' | nc -U hazoxe.sock
  printf 'PUB s hello\\nEND s\\nQUIT\\n' | nc -U hazoxe.sock
of which the second prints
  JOINED 0
  NEXT hello
  DONE

The server ends once as many connections have ended as 'connections' in the pool says,
and then writes the report; so it does by 'rxline stop', which its section [http] has to
allow. A signal, as by Ctrl-C, ends it at once, with none. The socket's file stays, and where it stands no server starts, unless the pool has takeover:
then it is removed, if nobody listens on it. So has this configuration:
  [[subject]]
  name = \"s\"
  kind = \"publish\"
  [pool]
  takeover = true
'rxline check server.toml hazoxe.sock' tells what is in the way of a server there. As
long as it runs, a server holds a lock on the file hazoxe.sock.lock beside its socket,
and tells on standard error whom it gave up and why, and that connections wait.";

const CHECK_EXAMPLE: &str = "\
What a configuration leaves out is told as it will be served. Of one that is refused
each key at fault is told on standard error, and what would be right there; of a file
that can't be read, why; and of one that is accepted, which subjects keep all that they
take. With a socket, what is in the way of 'rxline serve' at its path, and at that of [http],
is told there too, and the status is 1 where something is.";

/// What these words ask for: those behind the program's name.
///
/// # Errors
///
/// What `clap` says of words that are no command line, or of help that was asked for.
pub fn read_words<'a>(alloc: Global, words: &'a [&'a str]) -> Result<Task<'a>, Error>
    ensures { MatchResult result (Asks (map (λ s. s.now) words.entry.now)) (λ e. (kind_of e ≡ OutOfMemory) ⊎ IsAgainst (map (λ s. s.now) words.entry.now) (kind_of e)) }
{
    let matches = line(alloc)?.try_get_matches_from(words)?;
    match task_of(&matches) {
        Some(task) => Ok(task),
        None => Err(unknown(alloc)?),
    }
}

// The task that the words name, as they were read.
fn task_of<'a>(matches: &ArgMatches<'a>) -> Option<Task<'a>>
    ensures { MatchOption result (NamesNone (subcommand_rows_of matches.now)) (IsNamedBy (subcommand_rows_of matches.now)) }
{
    match matches.subcommand() {
        None => Some(Task::Script(None)),
        Some((name, found)) => named(name, found),
    }
}

// The task of a command with its path.
fn named<'a>(name: &'a str, found: &ArgMatches<'a>) -> Option<Task<'a>>
    ensures { MatchOption result (NamesNone (Some (name.now, rows_of (found_of found.now)))) (IsNamedBy (Some (name.now, rows_of (found_of found.now)))) }
{
    if name == "pub" {
        return publish_in(found);
    }
    if name == "sub" {
        return subscribe_in(found);
    }
    if name == "stats" {
        return stats_in(found);
    }
    if name == "stop" {
        return stop_in(found);
    }
    let path = path_in(found)?;
    if name == "script" {
        return Some(Task::Script(Some(path)));
    }
    if name == "audit" {
        return Some(Task::Audit(path));
    }
    if name == "check" {
        return Some(Task::Check(path, socket_in(found)));
    }
    if name == "serve" {
        let socket = socket_in(found)?;
        return Some(Task::Serve(path, socket));
    }
    None
}

// The path that a command was given.
fn path_in<'a>(found: &ArgMatches<'a>) -> Option<&'a str>
    ensures { option_map (λ s. s.now) result ≡ first_of (codes "config") (rows_of (found_of found.now)) }
{
    found.get_str(CONFIG)
}

// The path of the socket that a command was given.
pub(crate) fn socket_in<'a>(found: &ArgMatches<'a>) -> Option<&'a str>
    ensures { option_map (λ s. s.now) result ≡ first_of (codes "socket") (rows_of (found_of found.now)) }
{
    found.get_str(SOCKET)
}

// What is said of a command that is none of these.
fn unknown(alloc: Global) -> Result<Error, AllocError>
    ensures { IfOk result (λ e. kind_of e ≡ ErrorKind.InvalidSubcommand) }
{
    line(alloc)?.error(ErrorKind::InvalidSubcommand, "no such command")
}

// The program with its commands.
fn line<'a>(alloc: Global) -> Result<Command<'a>, AllocError>
    ensures app { IfOk result (λ c. app_of c ≡ line_app) }
{
    let command = with_audit(alloc, with_script(alloc, top(alloc))?)?;
    let command = with_serve(alloc, with_check(alloc, command)?)?;
    with_clients(alloc, command)
}

// With the commands by which the program is a client of a server.
fn with_clients<'a>(alloc: Global, command: Command<'a>) -> Result<Command<'a>, AllocError>
    ensures app { IfOk result (λ c. app_of c ≡ with_clients (app_of command.entry)) }
{
    let command = with_subscribe(alloc, with_publish(alloc, command)?)?;
    with_stop(alloc, with_stats(alloc, command)?)
}

fn with_publish<'a>(alloc: Global, command: Command<'a>) -> Result<Command<'a>, AllocError>
    ensures app { IfOk result (λ c. app_of c ≡ with_subcommand (app_of command.entry) pub_app.top) }
{
    command.subcommand(publish_command(alloc)?)
}

fn with_subscribe<'a>(alloc: Global, command: Command<'a>) -> Result<Command<'a>, AllocError>
    ensures app { IfOk result (λ c. app_of c ≡ with_subcommand (app_of command.entry) sub_app.top) }
{
    command.subcommand(subscribe_command(alloc)?)
}

fn with_stats<'a>(alloc: Global, command: Command<'a>) -> Result<Command<'a>, AllocError>
    ensures app { IfOk result (λ c. app_of c ≡ with_subcommand (app_of command.entry) stats_app.top) }
{
    command.subcommand(stats_command(alloc)?)
}

fn with_stop<'a>(alloc: Global, command: Command<'a>) -> Result<Command<'a>, AllocError>
    ensures app { IfOk result (λ c. app_of c ≡ with_subcommand (app_of command.entry) stop_app.top) }
{
    command.subcommand(stop_command(alloc)?)
}

fn with_script<'a>(alloc: Global, command: Command<'a>) -> Result<Command<'a>, AllocError>
    ensures app { IfOk result (λ c. app_of c ≡ with_subcommand (app_of command.entry) script_app.top) }
{
    command.subcommand(script(alloc)?)
}

fn with_audit<'a>(alloc: Global, command: Command<'a>) -> Result<Command<'a>, AllocError>
    ensures app { IfOk result (λ c. app_of c ≡ with_subcommand (app_of command.entry) audit_app.top) }
{
    command.subcommand(audit(alloc)?)
}

fn with_check<'a>(alloc: Global, command: Command<'a>) -> Result<Command<'a>, AllocError>
    ensures app { IfOk result (λ c. app_of c ≡ with_subcommand (app_of command.entry) check_app.top) }
{
    command.subcommand(check(alloc)?)
}

fn with_serve<'a>(alloc: Global, command: Command<'a>) -> Result<Command<'a>, AllocError>
    ensures app { IfOk result (λ c. app_of c ≡ with_subcommand (app_of command.entry) serve_app.top) }
{
    command.subcommand(serve(alloc)?)
}

fn top<'a>(alloc: Global) -> Command<'a>
    ensures { app_of result ≡ top_app }
{
    Command::new(alloc, "rxline")
        .no_binary_name(true)
        .version(VERSION)
        .about(ABOUT)
        .subcommand_value_name(COMMANDS)
        .after_help(EXAMPLE)
}

fn script<'a>(alloc: Global) -> Result<Command<'a>, AllocError>
    ensures app { IfOk result (λ c. app_of c ≡ script_app) }
    ensures local { IfOk result (λ c. (out-Command c).has_globals ≡ false) }
{
    let about =
        "Runs a script: reads its lines from standard input, writes each answer and what observers are given to standard output";
    with_path(
        alloc,
        new_command(alloc, "script", "rxline script <config>", about),
    )
}

fn audit<'a>(alloc: Global) -> Result<Command<'a>, AllocError>
    ensures app { IfOk result (λ c. app_of c ≡ audit_app) }
    ensures local { IfOk result (λ c. (out-Command c).has_globals ≡ false) }
{
    let about =
        "Audits a script: reads the same lines, and writes at the end what each observer was given and what waits for it";
    with_path(
        alloc,
        new_command(alloc, "audit", "rxline audit <config>", about),
    )
}

fn check<'a>(alloc: Global) -> Result<Command<'a>, AllocError>
    ensures app { IfOk result (λ c. app_of c ≡ check_app) }
    ensures local { IfOk result (λ c. (out-Command c).has_globals ≡ false) }
{
    let about =
        "Checks a configuration: writes each subject with its rules, and the pool, to standard output";
    let command = new_command(alloc, "check", "rxline check <config> [socket]", about);
    let command = with_path(alloc, with_help(command, CHECK_EXAMPLE))?;
    command.arg(place_arg(alloc))
}

fn serve<'a>(alloc: Global) -> Result<Command<'a>, AllocError>
    ensures app { IfOk result (λ c. app_of c ≡ serve_app) }
    ensures local { IfOk result (λ c. (out-Command c).has_globals ≡ false) }
{
    let about =
        "Serves on a new Unix socket until as many connections have ended as the configuration says, then writes the report to standard output";
    let command = new_command(alloc, "serve", "rxline serve <config> <socket>", about);
    let command = with_path(alloc, with_help(command, SERVE_EXAMPLE))?;
    command.arg(socket_arg(alloc))
}

// A command that takes nothing yet, with what its help says. `clap` would leave out the program's name, which is no word here.
pub(crate) fn new_command<'a>(
    alloc: Global,
    name: &'a str,
    usage: &'a str,
    about: &'a str,
) -> Command<'a>
    ensures app { app_of result ≡ new_app name.entry.now }
    ensures local { (out-Command result).has_globals ≡ false }
{
    Command::new(alloc, name).override_usage(usage).about(about)
}

// A command whose help ends with this.
pub(crate) fn with_help<'a>(command: Command<'a>, example: &'a str) -> Command<'a>
    ensures app { app_of result ≡ app_of command.entry }
    ensures local { (out-Command result).has_globals ≡ (out-Command command.entry).has_globals }
{
    command.after_help(example)
}

fn with_path<'a>(alloc: Global, command: Command<'a>) -> Result<Command<'a>, AllocError>
    requires { (out-Command command).has_globals ≡ false }
    ensures app { IfOk result (λ c. app_of c ≡ with_rule (app_of command.entry) path) }
    ensures local { IfOk result (λ c. (out-Command c).has_globals ≡ false) }
{
    command.arg(path_arg(alloc))
}

fn path_arg<'a>(alloc: Global) -> Arg<'a>
    ensures rule { rule_of result ≡ path }
    ensures local { result.global ≡ false }
{
    Arg::new(alloc, CONFIG)
        .required(true)
        .help("The configuration, a TOML file of at most 65,536 bytes")
}

fn place_arg<'a>(alloc: Global) -> Arg<'a>
    ensures rule { rule_of result ≡ place }
    ensures local { result.global ≡ false }
{
    Arg::new(alloc, SOCKET).help(
        "The path of a socket, to tell what is in the way of serving there",
    )
}

fn socket_arg<'a>(alloc: Global) -> Arg<'a>
    ensures rule { rule_of result ≡ socket }
    ensures local { result.global ≡ false }
{
    Arg::new(alloc, SOCKET).required(true).help(
        "The path of the socket, where no file may stand yet, save with takeover one that was left",
    )
}
