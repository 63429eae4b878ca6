//! The commands by which the program is a client of a server.
ghost use Rattle.std.specs.Prelude.{◌≡◌, IfOk, IfSome, MatchOption, Some, codes, false, map, option_map};
ghost use Rattle.clap.specs.Words.{app_of, first_of, found_of, rows_of, rule_of};
ghost use Rattle.clap.specs.declared.Command.{out-Command};
ghost use Rattle.rx_program.specs.CommandLines.{IsNamedBy, NamesNone, count, errors, from, json, pub_app, socket, stats_app, stop_app, strategy, sub_app, subject, text, within};

use crate::command_line::subscription::Subscription;
use crate::command_line::task::Task;
use crate::command_line::{SOCKET, new_command, with_help};
use clap::{Arg, ArgAction, ArgMatches, Command};
use std::alloc::{AllocError, Global};

const SUBJECT: &str = "subject";

const TEXT: &str = "text";

const STRATEGY: &str = "strategy";

const ERRORS: &str = "errors";

const FROM: &str = "from";

const COUNT: &str = "count";

const JSON: &str = "json";

const WITHIN: &str = "within";

const SERVER: &str = "The path of the server's socket";

const FACE: &str = "The path of the server's socket of [http]";

const PUBLISH_EXAMPLE: &str = "\
Without a text each line of standard input is an item, also one without a line feed at the
end. Up to 64 are on their way at a time. Behind the last one standard output has how many
were accepted:
  accepted 2
A line that the server refuses is told on standard error with its number, and no more are
sent than are on their way; so are the lines that have no answer where the connection was
lost. A text that begins with a hyphen stands behind --.

Examples:
  rxline pub hazoxe.sock s 'hello world'
  tail -f log | rxline pub hazoxe.sock s

The exit status is 0 where each was accepted, 1 after a fault, and 2 after a wrong command
line.";

const SUBSCRIBE_EXAMPLE: &str = "\
Each item is a line on standard output, told once and in order: where the connection or
the server is lost, rxline comes again, and goes on behind the last item. What can't be
told is told on standard error: items that were missed, and that another server began.
With --json each line is an object, and these are there too:
  {\"place\":0,\"port\":1,\"text\":\"hello\"}
  {\"missed\":1,\"to\":3}
  {\"lost\":4}
  {\"done\":true}
A text that is no UTF-8 stands there as \"hex\".

Examples:
  rxline sub hazoxe.sock s
  rxline sub hazoxe.sock s --strategy LATEST:1 --count 1
  rxline sub hazoxe.sock s --from 17 --json

The exit status is 0 once the subject is completed or as many items were told as --count
says, 1 where it failed or after a fault, and 2 after a wrong command line.";

const STATS_EXAMPLE: &str = "\
The server's configuration has a section [http], and the path is that of the socket there,
and not of the one for sessions. Standard output has what the server answers, byte by byte:
a line for each subject and each observer, and with --json the object that GET /stats
tells. To look is one call to each subject, and changes nothing.

Examples:
  rxline stats http.sock
  rxline stats http.sock --json
  watch rxline stats http.sock

The exit status is 0 where all of the answer was written, 1 after a fault, and 2 after a
wrong command line.";

const STOP_EXAMPLE: &str = "\
The server's configuration has stop = true in its section [http], and the path is that of
the socket there. From its answer on the server takes no more: what its sessions have sent
as whole lines is carried out and answered, and their connections end; then who follows is
told all that waits for him, for as many seconds at most as --within says. So nothing that
was accepted is lost, save for who doesn't take it in time. At last the server writes its
report and ends, and then rxline does.

Examples:
  rxline stop http.sock
  rxline stop http.sock --within 60

The exit status is 0 once the server has ended, 1 after a fault, as where it refuses, and 2
after a wrong command line.";

/// The task of `pub`, by what it was given.
pub(crate) fn publish_in<'a>(found: &ArgMatches<'a>) -> Option<Task<'a>>
    ensures { MatchOption result (NamesNone (Some (codes "pub", rows_of (found_of found.now)))) (IsNamedBy (Some (codes "pub", rows_of (found_of found.now)))) }
{
    let Some(socket) = word_in(found, SOCKET) else {
        return None;
    };
    match word_in(found, SUBJECT) {
        Some(subject) => Some(Task::Publish(socket, subject, word_in(found, TEXT))),
        None => None,
    }
}

/// The task of `sub`, by what it was given.
pub(crate) fn subscribe_in<'a>(found: &ArgMatches<'a>) -> Option<Task<'a>>
    ensures { MatchOption result (NamesNone (Some (codes "sub", rows_of (found_of found.now)))) (IsNamedBy (Some (codes "sub", rows_of (found_of found.now)))) }
{
    let Some(socket) = word_in(found, SOCKET) else {
        return None;
    };
    let Some(subject) = word_in(found, SUBJECT) else {
        return None;
    };
    let subscription = Subscription {
        subject,
        strategy: word_in(found, STRATEGY).unwrap_or("BUFFER"),
        errors: word_in(found, ERRORS).unwrap_or("DELAY"),
        from: word_in(found, FROM),
        count: word_in(found, COUNT),
        is_json: word_in(found, JSON) == Some("true"),
    };
    Some(Task::Subscribe(socket, subscription))
}

/// The task of `stats`, by what it was given.
pub(crate) fn stats_in<'a>(found: &ArgMatches<'a>) -> Option<Task<'a>>
    ensures { MatchOption result (NamesNone (Some (codes "stats", rows_of (found_of found.now)))) (IsNamedBy (Some (codes "stats", rows_of (found_of found.now)))) }
{
    match word_in(found, SOCKET) {
        Some(socket) => Some(Task::Stats(socket, word_in(found, JSON) == Some("true"))),
        None => None,
    }
}

/// The task of `stop`, by what it was given.
pub(crate) fn stop_in<'a>(found: &ArgMatches<'a>) -> Option<Task<'a>>
    ensures { MatchOption result (NamesNone (Some (codes "stop", rows_of (found_of found.now)))) (IsNamedBy (Some (codes "stop", rows_of (found_of found.now)))) }
{
    match word_in(found, SOCKET) {
        Some(socket) => Some(Task::Stop(socket, word_in(found, WITHIN))),
        None => None,
    }
}

// The word that a command was given for this argument.
fn word_in<'a>(found: &ArgMatches<'a>, argument: &str) -> Option<&'a str>
    ensures { option_map (λ s. s.now) result ≡ first_of argument.now (rows_of (found_of found.now)) }
{
    found.get_str(argument)
}

/// The command `pub`.
pub(crate) fn publish_command<'a>(alloc: Global) -> Result<Command<'a>, AllocError>
    ensures app { IfOk result (λ c. app_of c ≡ pub_app) }
    ensures local { IfOk result (λ c. (out-Command c).has_globals ≡ false) }
{
    let about = "Emits items of a subject at a server: a text, or each line of standard input";
    let usage = "rxline pub <socket> <subject> [text]";
    let command = new_command(alloc, "pub", usage, about);
    let command = with_help(command, PUBLISH_EXAMPLE);
    let command = command.arg(server_arg(alloc, SERVER))?;
    let command = command.arg(subject_arg(alloc))?;
    command.arg(text_arg(alloc))
}

/// The command `sub`.
pub(crate) fn subscribe_command<'a>(alloc: Global) -> Result<Command<'a>, AllocError>
    ensures app { IfOk result (λ c. app_of c ≡ sub_app) }
    ensures local { IfOk result (λ c. (out-Command c).has_globals ≡ false) }
{
    let about =
        "Follows a subject at a server, and comes again where it is lost: writes each item to standard output";
    let usage =
        "rxline sub <socket> <subject> [--strategy S] [--errors E] [--from PLACE] [--count N] [--json]";
    let command = new_command(alloc, "sub", usage, about);
    let command = with_help(command, SUBSCRIBE_EXAMPLE);
    let command = command.arg(server_arg(alloc, SERVER))?;
    let command = command.arg(subject_arg(alloc))?;
    let command = command.arg(strategy_arg(alloc))?;
    let command = command.arg(errors_arg(alloc))?;
    let command = command.arg(from_arg(alloc))?;
    let command = command.arg(count_arg(alloc))?;
    command.arg(json_arg(alloc, "Writes JSON, an object a line"))
}

/// The command `stats`.
pub(crate) fn stats_command<'a>(alloc: Global) -> Result<Command<'a>, AllocError>
    ensures app { IfOk result (λ c. app_of c ≡ stats_app) }
    ensures local { IfOk result (λ c. (out-Command c).has_globals ≡ false) }
{
    let about = "Shows what is seen of a server's subjects and observers, by its socket of [http]";
    let usage = "rxline stats <socket> [--json]";
    let command = new_command(alloc, "stats", usage, about);
    let command = with_help(command, STATS_EXAMPLE);
    let command = command.arg(server_arg(alloc, FACE))?;
    command.arg(json_arg(alloc, "Writes JSON, one object"))
}

/// The command `stop`.
pub(crate) fn stop_command<'a>(alloc: Global) -> Result<Command<'a>, AllocError>
    ensures app { IfOk result (λ c. app_of c ≡ stop_app) }
    ensures local { IfOk result (λ c. (out-Command c).has_globals ≡ false) }
{
    let about =
        "Has a server end without a loss, by its socket of [http], and waits until it has ended";
    let usage = "rxline stop <socket> [--within SECONDS]";
    let command = new_command(alloc, "stop", usage, about);
    let command = with_help(command, STOP_EXAMPLE);
    let command = command.arg(server_arg(alloc, FACE))?;
    command.arg(within_arg(alloc))
}

fn server_arg<'a>(alloc: Global, help: &'a str) -> Arg<'a>
    ensures rule { rule_of result ≡ socket }
    ensures local { result.global ≡ false }
{
    Arg::new(alloc, SOCKET).required(true).help(help)
}

fn subject_arg<'a>(alloc: Global) -> Arg<'a>
    ensures rule { rule_of result ≡ subject }
    ensures local { result.global ≡ false }
{
    Arg::new(alloc, SUBJECT)
        .required(true)
        .help("The subject, 1 to 32 of a to z, 0 to 9 and -")
}

fn text_arg<'a>(alloc: Global) -> Arg<'a>
    ensures rule { rule_of result ≡ text }
    ensures local { result.global ≡ false }
{
    Arg::new(alloc, TEXT).help("The text of one item, of at most 1,024 bytes")
}

fn strategy_arg<'a>(alloc: Global) -> Arg<'a>
    ensures rule { rule_of result ≡ strategy }
    ensures local { result.global ≡ false }
{
    Arg::new(alloc, STRATEGY).long(STRATEGY).help(
        "BUFFER, the default, DROP:n, LATEST:n or BOUNDED:n, with room for n items",
    )
}

fn errors_arg<'a>(alloc: Global) -> Arg<'a>
    ensures rule { rule_of result ≡ errors }
    ensures local { result.global ≡ false }
{
    Arg::new(alloc, ERRORS).long(ERRORS).help(
        "DELAY, the default, by which an error waits behind the items, or AHEAD",
    )
}

fn from_arg<'a>(alloc: Global) -> Arg<'a>
    ensures rule { rule_of result ≡ from }
    ensures local { result.global ≡ false }
{
    Arg::new(alloc, FROM).long(FROM).help(
        "The place of the first item that is wanted; else what there is for who comes anew",
    )
}

fn count_arg<'a>(alloc: Global) -> Arg<'a>
    ensures rule { rule_of result ≡ count }
    ensures local { result.global ≡ false }
{
    Arg::new(alloc, COUNT)
        .long(COUNT)
        .help("How many items are wanted, and no more")
}

fn json_arg<'a>(alloc: Global, help: &'a str) -> Arg<'a>
    ensures rule { rule_of result ≡ json }
    ensures local { result.global ≡ false }
{
    Arg::new(alloc, JSON)
        .long(JSON)
        .action(ArgAction::SetTrue)
        .help(help)
}

fn within_arg<'a>(alloc: Global) -> Arg<'a>
    ensures rule { rule_of result ≡ within }
    ensures local { result.global ≡ false }
{
    Arg::new(alloc, WITHIN).long(WITHIN).help(
        "How many seconds it waits at most for who was not told all yet, 0 to 3600; 10 if not told",
    )
}
