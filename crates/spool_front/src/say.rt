//! Sends commands of the protocol and prints the replies.
ghost use Rattle.std.specs.Prelude.{◌≡◌, cond, false, string_bytes};
ghost use Rattle.spool_front.specs.ReplyOutcomes.{is_done};

use crate::client::{Answer, Client};
use crate::connection::ConnectionFault;
use crate::fault::{Fault, first_failure};
use crate::json_lines::{print_json, reply_json};
use crate::services::{Services, client_at, only_socket};
use crate::tasks::{print_clean, print_news};
use command_lines::Commands;
use front_words::Saying;
use std::io::BufRead;

/// Sends the commands, or those of standard input, one after the other. The status is 1 if a reply is an error.
pub fn say(rt: &HostRuntime, services: Services<'_, '_>, asked: &Saying<'_>) -> Result<u8, Fault> {
    let mut client = client_at(rt, services, only_socket(services)?);
    let status = say_all(rt, &mut client, asked);
    drop(client);
    status
}

fn say_all(rt: &HostRuntime, client: &mut Client<'_>, asked: &Saying<'_>) -> Result<u8, Fault> {
    let status = if asked.commands.is_empty() {
        say_input(rt, client, asked.json)?
    } else {
        say_words(rt, client, asked.commands.as_slice(), asked.json)?
    };
    if asked.until_end {
        print_until_end(rt, client, asked.json)?;
    }
    Ok(status)
}

fn say_words(
    rt: &HostRuntime,
    client: &mut Client<'_>,
    commands: &[&str],
    json: bool,
) -> Result<u8, Fault> {
    let mut status = 0;
    for command in commands {
        let line = format!(in rt.alloc(); "{command}\n")?;
        let ended = say_one(rt, client, line.as_str().as_bytes(), json)?;
        status = first_failure(status, ended);
    }
    Ok(status)
}

// Sends the commands of standard input.
fn say_input(rt: &HostRuntime, client: &mut Client<'_>, json: bool) -> Result<u8, Fault> {
    let mut source = rt.reader();
    let mut commands = Commands::new(rt.alloc());
    let status = say_lines(rt, client, &mut source, &mut commands, json);
    drop(commands);
    drop(source);
    status
}

// Reads lines until a command is whole, which is more than a line for `send`, and sends it. Lines that are no command, such as remarks, are
// sent with the next one.
fn say_lines<S: BufRead>(
    rt: &HostRuntime,
    client: &mut Client<'_>,
    source: &mut S,
    commands: &mut Commands,
    json: bool,
) -> Result<u8, Fault> {
    let mut status = 0;
    let mut text = Vec::new(rt.alloc());
    for _ in 0..u64::MAX {
        if !read_command(source, commands, &mut text)? {
            return Ok(status);
        }
        let ended = say_one(rt, client, &text, json)?;
        status = first_failure(status, ended);
        text.clear();
    }
    Ok(status)
}

// Appends the lines of the next command, and returns whether there is one.
fn read_command<S: BufRead>(
    source: &mut S,
    commands: &mut Commands,
    text: &mut Vec<u8>,
) -> Result<bool, Fault> {
    for _ in 0..u64::MAX {
        let begin = text.len();
        let count = source.read_until(b'\n', text)?;
        if count == 0 {
            return Ok(false);
        }
        if text.last() != Some(&b'\n') {
            text.push(b'\n')?;
        }
        commands.feed(&text[begin..])?;
        if let Some(command) = commands.next()? {
            drop(command);
            return Ok(true);
        }
    }
    Ok(false)
}

// Sends a command, prints its reply, and returns the status.
fn say_one(
    rt: &HostRuntime,
    client: &mut Client<'_>,
    text: &[u8],
    json: bool,
) -> Result<u8, Fault> {
    if !client.connect()? {
        return Err(client.nobody()?);
    }
    match client.exchange(text) {
        Ok(answer) => {
            let printed = print_answer(rt, &answer, json);
            let status = status_of(&answer);
            drop(answer);
            printed?;
            Ok(status)
        }
        Err(ConnectionFault::Lost) => Err(Fault::Unknown),
        Err(ConnectionFault::Memory) => Err(Fault::Memory),
    }
}

fn status_of(answer: &Answer) -> u8
    ensures { result ≡ cond (is_done (string_bytes answer.now.last)) 0 1 }
{
    if answer.is_done() { 0 } else { 1 }
}

// Prints a reply: its lines, or an object of them.
fn print_answer(rt: &HostRuntime, answer: &Answer, json: bool) -> Result<(), Fault> {
    if json {
        let object = reply_json(rt.alloc(), answer.rows.as_slice(), answer.last.as_str())?;
        return print_json(rt, object);
    }
    for row in &answer.rows {
        print_clean(rt, row.as_slice())?;
    }
    print_clean(rt, answer.last.as_str().as_bytes())
}

// Prints what else the service sends, until it has ended.
fn print_until_end(rt: &HostRuntime, client: &mut Client<'_>, json: bool) -> Result<(), Fault> {
    for _ in 0..u64::MAX {
        match client.receive_lines() {
            Ok(lines) => {
                let printed = print_news(rt, &lines, json);
                drop(lines);
                printed?;
            }
            Err(ConnectionFault::Lost) => return Ok(()),
            Err(ConnectionFault::Memory) => return Err(Fault::Memory),
        }
    }
    Ok(())
}
